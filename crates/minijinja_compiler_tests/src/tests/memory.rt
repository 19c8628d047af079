//! Memory that is refused to whole compiles, and what code answers with none left.
use super::compile_page;
use minijinja_compiler::compile::{Compiled, compile, compile_expression};
use minijinja_compiler::error::Error;
use minijinja_compiler::instructions::{Instruction, Instructions};
use minijinja_compiler::value::Value;
use minijinja_test_rows::memory::{Ballast, Refusable, answered_without, refused_at_each};
use minijinja_test_rows::rows::parted;
use minijinja_test_rows::syntaxes::syntax_of;
use minijinja_test_rows::words::push_word;
use std::alloc::{AllocError, Global};
use std::test::Fail;

/// Appends the instructions of a list.
fn push_code(words: &mut String, code: &Instructions<'_, Value>) -> Result<(), AllocError> {
    for instruction in code.iter() {
        write!(words, "{instruction}; ")?;
    }
    Ok(())
}

/// Appends the code of a block.
fn push_block(
    words: &mut String,
    name: &str,
    code: &Instructions<'_, Value>,
) -> Result<(), AllocError> {
    write!(words, "block {name}: ")?;
    push_code(words, code)
}

/// Appends the code of each block and the hint.
fn push_blocks(words: &mut String, compiled: &Compiled<'_>) -> Result<(), AllocError> {
    for (name, code) in &compiled.blocks {
        push_block(words, name, code)?;
    }
    write!(words, "hint {}", compiled.buffer_size_hint)
}

/// Appends the code of a template and of its blocks, and the hint.
fn push_compiled(words: &mut String, compiled: &Compiled<'_>) -> Result<(), AllocError> {
    push_code(words, &compiled.instructions)?;
    push_blocks(words, compiled)
}

/// Texts after their options: their code.
enum Compiles {}

impl Refusable for Compiles {
    fn attempt<'t>(
        alloc: Global,
        text: &'t str,
        ballast: &mut Ballast,
        words: &mut String,
    ) -> Result<(), Error<'t>> {
        let (options, source) = parted(text, " | ");
        let syntax = syntax_of(alloc, options)?;
        ballast.narrow();
        let compiled = compile(alloc, source, "page", &syntax)?;
        push_compiled(words, &compiled)?;
        Ok(())
    }
}

#[test]
fn compile_is_refused_at_each_request(rt: HostRuntime) -> Result<(), Fail> {
    let rows = r#"
default | {% for x in y if x %}{{ x }}{% endfor %} => LoadConst(0); Lookup("y"); PushLoop(0); Iterate(14); DupTop; StoreLocal("x"); Lookup("x"); JumpIfFalse(12); Swap; LoadConst(1); Add; Jump(13); DiscardTop; Jump(3); PopLoopFrame; BuildList(none); PushLoop(1); Iterate(22); StoreLocal("x"); Lookup("x"); Emit; Jump(17); PopLoopFrame; hint 1
default | {% macro f(a) %}{{ a }}{{ b }}{% endmacro %} => Jump(7); StoreLocal("a"); Lookup("a"); Emit; Lookup("b"); Emit; Return; Enclose("b"); GetClosure; LoadConst(["a"]); BuildMacro("f", 1, 0); StoreLocal("f"); hint 1
line_statement #, line_comment ## | # if a␍␊x␍␊# endif => Lookup("a"); JumpIfFalse(3); EmitRaw("x\r\n"); hint 8
default | {% for x in y %}{{ x }}{% else %}n{% endfor %} => Lookup("y"); PushLoop(1); Iterate(7); StoreLocal("x"); Lookup("x"); Emit; Jump(2); PushDidNotIterate; PopLoopFrame; JumpIfFalse(11); EmitRaw("n"); hint 2
default | {% block a %}xyz{% endblock %} => CallBlock("a"); block a: EmitRaw("xyz"); hint 1
default | {{ ( }} => SyntaxError
"#;
    refused_at_each::<Compiles>(rt.alloc(), rows)
}

/// Expressions: their code.
enum CompilesExpression {}

impl Refusable for CompilesExpression {
    fn attempt<'t>(
        alloc: Global,
        text: &'t str,
        ballast: &mut Ballast,
        words: &mut String,
    ) -> Result<(), Error<'t>> {
        ballast.narrow();
        let code = compile_expression(alloc, text)?;
        push_code(words, &code)?;
        words.push_str("end")?;
        Ok(())
    }
}

#[test]
fn compile_expression_is_refused_at_each_request(rt: HostRuntime) -> Result<(), Fail> {
    let rows = r#"
foo.1.0 => Lookup("foo"); LoadConst(1); GetItem; LoadConst(0); GetItem; end
'a\n' ? => SyntaxError
['a', '\q' => BadEscape
"#;
    refused_at_each::<CompilesExpression>(rt.alloc(), rows)
}

/// Appends the names that are referenced at an index.
fn push_referenced<'s>(
    words: &mut String,
    code: &Instructions<'s, Value>,
    index: u32,
) -> Result<(), Error<'s>> {
    for name in &code.get_referenced_names(index)? {
        push_word(words, *name)?;
    }
    words.push_str("at ")?;
    Ok(write!(words, "{index}; ")?)
}

/// Appends the names that are referenced at some indices.
fn push_all_referenced<'s>(
    words: &mut String,
    code: &Instructions<'s, Value>,
) -> Result<(), Error<'s>> {
    for index in [11, 5, 0] {
        push_referenced(words, code, index)?;
    }
    Ok(words.push_str("end")?)
}

/// Templates: the names that are referenced at some indices.
enum Referenced {}

impl Refusable for Referenced {
    fn attempt<'t>(
        alloc: Global,
        text: &'t str,
        ballast: &mut Ballast,
        words: &mut String,
    ) -> Result<(), Error<'t>> {
        let compiled = compile_page(alloc, text)?;
        ballast.narrow();
        push_all_referenced(words, &compiled.instructions)?;
        Ok(())
    }
}

#[test]
fn referenced_names_are_refused_at_each_request(rt: HostRuntime) -> Result<(), Fail> {
    let rows = "{% macro f(a) %}{{ a }}{{ b }}{% endmacro %} => f at 11; b a at 5; at 0; end";
    refused_at_each::<Referenced>(rt.alloc(), rows)
}

/// Appends what a list has.
fn push_list(words: &mut String, code: &Instructions<'_, Value>) -> Result<(), AllocError> {
    push_word(words, code.name())?;
    push_word(words, code.source().len())?;
    push_word(words, code.len())?;
    push_word(words, code.is_required_block())
}

/// Appends where the second instruction of a list stands.
fn push_second_place(words: &mut String, code: &Instructions<'_, Value>) -> Result<(), AllocError> {
    write!(words, "{:?}{:?} ", code.get_line(1), code.get_span(1))
}

/// Replaces the second instruction of a list and appends it.
fn push_replaced<'s>(
    words: &mut String,
    code: &mut Instructions<'s, Value>,
) -> Result<(), AllocError> {
    if let Some(instruction) = code.get_mut(1) {
        *instruction = Instruction::Emit;
    }
    match code.get(1) {
        Some(instruction) => write!(words, "{instruction}"),
        None => Ok(()),
    }
}

/// Templates: what the second instruction of their list is, before and after it is replaced.
enum Lists {}

impl Refusable for Lists {
    fn attempt<'t>(
        alloc: Global,
        text: &'t str,
        ballast: &mut Ballast,
        words: &mut String,
    ) -> Result<(), Error<'t>> {
        let mut code = compile_page(alloc, text)?.instructions;
        ballast.narrow();
        push_list(words, &code)?;
        let fresh = Instructions::<Value>::new(alloc, "page", text);
        push_word(words, fresh.is_empty())?;
        push_second_place(words, &code)?;
        push_replaced(words, &mut code)?;
        Ok(())
    }
}

#[test]
fn what_a_list_has_needs_no_memory(rt: HostRuntime) -> Result<(), Fail> {
    let rows = "{{ a.b }} => page 9 3 false true Some(1)Some( @ 1:3-1:6) Emit";
    answered_without::<Lists>(rt.alloc(), rows)
}
