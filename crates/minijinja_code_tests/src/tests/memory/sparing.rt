//! Calls of a generator that take no memory: they answer with none left.
use minijinja_code::codegen::CodeGenerator;
use minijinja_parser::parser::parse;
use minijinja_syntax::error::Error;
use minijinja_syntax::syntax::SyntaxConfig;
use minijinja_syntax::tokens::Span;
use minijinja_test_rows::memory::{Ballast, Refusable, answered_without};
use minijinja_value::value::Value;
use std::alloc::{AllocError, Global};
use std::test::Fail;

/// Appends what a generator says is open.
fn push_open(words: &mut String, generator: &CodeGenerator<'_, Value>) -> Result<(), AllocError> {
    let (branch, row) = (generator.in_branch(), generator.in_sc_bool());
    let (inside, closed) = (generator.in_loop(), generator.is_closed());
    write!(words, "{branch} {row} {inside} {closed}, ")
}

/// Adds the code of a template, and opens a branch and in it a row of conditions.
fn add_page<'s>(
    alloc: Global,
    text: &'s str,
    generator: &mut CodeGenerator<'s, Value>,
) -> Result<(), Error<'s>> {
    let template = parse(alloc, text, "page", &SyntaxConfig::default())?;
    generator.compile_stmt(&template)?;
    open_row(generator)
}

fn open_row<'s>(generator: &mut CodeGenerator<'s, Value>) -> Result<(), Error<'s>> {
    generator.start_if()?;
    generator.start_sc_bool()?;
    generator.push_span(Span::default())
}

fn close_row(generator: &mut CodeGenerator<'_, Value>) {
    generator.set_line(3);
    generator.set_line_from_span(Span::default());
    generator.pop_span();
    if generator.in_sc_bool() {
        generator.end_sc_bool();
    }
}

/// Closes the row and the branch, and appends what is open before, between and after.
fn push_closing(
    words: &mut String,
    generator: &mut CodeGenerator<'_, Value>,
) -> Result<(), AllocError> {
    push_open(words, generator)?;
    close_row(generator);
    push_open(words, generator)?;
    if generator.in_branch() {
        generator.end_if();
    }
    push_open(words, generator)
}

/// Appends how long the code of a generator and its output are.
fn push_lengths(
    words: &mut String,
    generator: &CodeGenerator<'_, Value>,
) -> Result<(), AllocError> {
    let hint = generator.buffer_size_hint();
    write!(words, "{} {hint} ", generator.next_instruction())
}

/// Appends how long the list of a generator is, and how many blocks have one.
fn push_finished(
    words: &mut String,
    generator: CodeGenerator<'_, Value>,
) -> Result<(), AllocError> {
    if !generator.is_closed() {
        return Ok(());
    }
    let (code, blocks) = generator.finish();
    write!(words, "{} {}", code.len(), blocks.len())
}

/// A template: what a generator says of it and of an empty branch after it.
enum Generators {}

impl Refusable for Generators {
    fn attempt<'t>(
        alloc: Global,
        text: &'t str,
        ballast: &mut Ballast,
        words: &mut String,
    ) -> Result<(), Error<'t>> {
        let mut generator = CodeGenerator::new(alloc, "page", text);
        add_page(alloc, text, &mut generator)?;
        ballast.narrow();
        push_open(words, &CodeGenerator::new(alloc, "page", text))?;
        push_closing(words, &mut generator)?;
        push_lengths(words, &generator)?;
        push_finished(words, generator)?;
        Ok(())
    }
}

#[test]
fn what_a_generator_says_needs_no_memory(rt: HostRuntime) -> Result<(), Fail> {
    let rows = "abc{% block a %}x{% endblock %} => false false false true, \
        false true false false, true false false false, false false false true, 3 8 3 1";
    answered_without::<Generators>(rt.alloc(), rows)
}
