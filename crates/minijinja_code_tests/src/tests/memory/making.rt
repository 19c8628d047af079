//! Calls that make code, and lists that grow.
use minijinja_code::codegen::CodeGenerator;
use minijinja_code::instructions::{Instruction, Instructions};
use minijinja_parser::parser::{parse, parse_expr};
use minijinja_syntax::error::Error;
use minijinja_syntax::syntax::SyntaxConfig;
use minijinja_syntax::tokens::Span;
use minijinja_test_rows::memory::{Ballast, Refusable, is_refused_so, refused, refused_at_each};
use minijinja_tree::ast::{Expr, Spanned, Var};
use minijinja_value::value::Value;
use std::alloc::{AllocError, Global};
use std::test::Fail;

/// Whether a generator answers this refusal again, to each call that may be refused, and says that
/// nothing is open.
fn has_refused<'s>(generator: &mut CodeGenerator<'s, Value>, error: Error<'_>) -> bool {
    has_nothing_open(generator) && adds_nothing(generator, error) && opens_nothing(generator, error)
}

fn has_nothing_open(generator: &CodeGenerator<'_, Value>) -> bool {
    !generator.in_branch()
        && !generator.in_loop()
        && !generator.in_sc_bool()
        && !generator.is_closed()
}

fn adds_nothing<'s>(generator: &mut CodeGenerator<'s, Value>, error: Error<'_>) -> bool {
    is_refused_so(generator.add(Instruction::Emit), error)
        && is_refused_so(
            generator.add_with_span(Instruction::Emit, Span::default()),
            error,
        )
        && is_refused_so(generator.push_span(Span::default()), error)
}

fn opens_nothing<'s>(generator: &mut CodeGenerator<'s, Value>, error: Error<'_>) -> bool {
    is_refused_so(generator.start_for_loop(true, true), error)
        && is_refused_so(generator.start_if(), error)
        && is_refused_so(generator.start_sc_bool(), error)
}

/// Appends how many instructions a generator has.
fn push_count(words: &mut String, generator: &CodeGenerator<'_, Value>) -> Result<(), AllocError> {
    write!(words, "{} instructions", generator.next_instruction())
}

/// Templates: the code that a generator makes of their tree. A refusal stands.
enum Generates {}

impl Refusable for Generates {
    fn attempt<'t>(
        alloc: Global,
        text: &'t str,
        ballast: &mut Ballast,
        words: &mut String,
    ) -> Result<(), Error<'t>> {
        let template = parse(alloc, text, "page", &SyntaxConfig::default())?;
        ballast.narrow();
        let mut generator = CodeGenerator::new(alloc, "page", text);
        if let Err(error) = generator.compile_stmt(&template) {
            ballast.give_back();
            let stands = has_refused(&mut generator, error);
            return refused(error, stands, words);
        }
        push_count(words, &generator)?;
        Ok(())
    }
}

#[test]
fn code_is_refused_at_each_request(rt: HostRuntime) -> Result<(), Fail> {
    let rows = r#"
{% for x in y if x %}{{ x }}{% endfor %} => 23 instructions
{% macro f(a) %}{{ a }}{{ b }}{% endmacro %} => 12 instructions
{% for x in y %}{{ x }}{% else %}n{% endfor %} => 11 instructions
{% block a %}xyz{% endblock %} => 1 instructions
"#;
    refused_at_each::<Generates>(rt.alloc(), rows)
}

/// Expressions: the code that a generator makes of their tree. A refusal stands.
enum GeneratesExpression {}

impl Refusable for GeneratesExpression {
    fn attempt<'t>(
        alloc: Global,
        text: &'t str,
        ballast: &mut Ballast,
        words: &mut String,
    ) -> Result<(), Error<'t>> {
        let expr = parse_expr(alloc, text)?;
        ballast.narrow();
        let mut generator = CodeGenerator::new(alloc, "page", text);
        if let Err(error) = generator.compile_expr(&expr) {
            ballast.give_back();
            let stands = has_refused(&mut generator, error)
                && is_refused_so(generator.compile_expr(&expr), error);
            return refused(error, stands, words);
        }
        push_count(words, &generator)?;
        Ok(())
    }
}

#[test]
fn code_of_expressions_is_refused_at_each_request(rt: HostRuntime) -> Result<(), Fail> {
    let rows = r#"
foo.1.0 => 5 instructions
a is b or c | d => 5 instructions
"#;
    refused_at_each::<GeneratesExpression>(rt.alloc(), rows)
}

/// Names: the code of assignments to them. A refusal stands.
enum Assigns {}

impl Refusable for Assigns {
    fn attempt<'t>(
        alloc: Global,
        text: &'t str,
        ballast: &mut Ballast,
        words: &mut String,
    ) -> Result<(), Error<'t>> {
        let name = Spanned::new(alloc, Var { id: text }, Span::default())?;
        let target = Expr::Var(name);
        ballast.narrow();
        let mut generator = CodeGenerator::new(alloc, "page", text);
        if let Err(error) = generator.compile_assignment(&target) {
            ballast.give_back();
            let stands = has_refused(&mut generator, error)
                && is_refused_so(generator.compile_assignment(&target), error);
            return refused(error, stands, words);
        }
        push_count(words, &generator)?;
        Ok(())
    }
}

#[test]
fn assignments_are_refused_at_each_request(rt: HostRuntime) -> Result<(), Fail> {
    refused_at_each::<Assigns>(rt.alloc(), "x => 1 instructions")
}

/// Opens a loop, a condition in it, and in that a row of conditions.
fn open<'s>(generator: &mut CodeGenerator<'s, Value>) -> Result<(), Error<'s>> {
    generator.start_for_loop(true, false)?;
    generator.start_if()?;
    generator.start_sc_bool()
}

/// Adds two instructions, after a span.
fn add_two<'s>(generator: &mut CodeGenerator<'s, Value>) -> Result<(), Error<'s>> {
    generator.push_span(Span::default())?;
    generator.add(Instruction::Emit)?;
    generator.add_with_span(Instruction::Emit, Span::default())?;
    Ok(())
}

/// Closes a row of conditions that is open.
fn close_row<'s>(generator: &mut CodeGenerator<'s, Value>) -> Result<(), Error<'s>> {
    if generator.in_sc_bool() {
        generator.sc_bool(true)?;
    }
    if generator.in_sc_bool() {
        generator.end_sc_bool();
    }
    Ok(())
}

/// Closes a condition that is open, after its other branch.
fn close_condition<'s>(generator: &mut CodeGenerator<'s, Value>) -> Result<(), Error<'s>> {
    if generator.in_branch() {
        generator.start_else()?;
    }
    if generator.in_branch() {
        generator.end_if();
    }
    Ok(())
}

/// Closes what is open, where that is what [`open`] has opened.
fn close<'s>(generator: &mut CodeGenerator<'s, Value>) -> Result<(), Error<'s>> {
    close_row(generator)?;
    close_condition(generator)?;
    if generator.in_loop() {
        generator.end_for_loop(true)?;
    }
    Ok(())
}

/// Opens and closes a loop with a condition in it, and in that a row of conditions.
fn open_and_close<'s>(generator: &mut CodeGenerator<'s, Value>) -> Result<(), Error<'s>> {
    add_two(generator)?;
    open(generator)?;
    close(generator)
}

/// A generator that is called directly. A refusal stands.
enum Opens {}

impl Refusable for Opens {
    fn attempt<'t>(
        alloc: Global,
        text: &'t str,
        ballast: &mut Ballast,
        words: &mut String,
    ) -> Result<(), Error<'t>> {
        ballast.narrow();
        let mut generator = CodeGenerator::new(alloc, "page", text);
        for _ in 0..3 {
            if let Err(error) = open_and_close(&mut generator) {
                ballast.give_back();
                let stands = has_refused(&mut generator, error);
                return refused(error, stands, words);
            }
        }
        push_count(words, &generator)?;
        Ok(())
    }
}

#[test]
fn open_blocks_are_refused_at_each_request(rt: HostRuntime) -> Result<(), Fail> {
    refused_at_each::<Opens>(rt.alloc(), "x => 30 instructions")
}

/// How many instructions of a list are looked up names that stand on the line of their index.
fn listed(list: &Instructions<'_, Value>, count: u32) -> bool {
    for index in 0..count {
        let is_lookup = matches!(list.get(index), Some(Instruction::Lookup("x")));
        if !is_lookup || list.get_line(index) != Some(1 + index as usize / 3) {
            return false;
        }
    }
    list.len() == count as usize
}

/// Adds to a list, on the line that its index says, with a line, a span or neither.
fn add_next<'s>(list: &mut Instructions<'s, Value>, index: u16) -> Result<u32, Error<'s>> {
    let line = 1 + index / 3;
    let span = Span {
        start_line: line,
        ..Span::default()
    };
    match index % 3 {
        0 => list.add_with_line(Instruction::Lookup("x"), line),
        1 => list.add(Instruction::Lookup("x")),
        _ => list.add_with_span(Instruction::Lookup("x"), span),
    }
}

/// Lists that grow to this length. A refusal leaves them as they were.
enum Lists {}

impl Refusable for Lists {
    fn attempt<'t>(
        alloc: Global,
        _text: &'t str,
        ballast: &mut Ballast,
        words: &mut String,
    ) -> Result<(), Error<'t>> {
        let mut list = Instructions::new(alloc, "page", "source");
        ballast.narrow();
        for index in 0..30 {
            if let Err(error) = add_next(&mut list, index) {
                ballast.give_back();
                return refused(error, listed(&list, u32::from(index)), words);
            }
        }
        write!(words, "{}", listed(&list, 30))?;
        Ok(())
    }
}

#[test]
fn lists_are_refused_at_each_request(rt: HostRuntime) -> Result<(), Fail> {
    refused_at_each::<Lists>(rt.alloc(), "a list => true")
}
