//! The generator and its lists of instructions. What they make of texts stands in the tests of the
//! program.
use super::finished;
use minijinja_code::codegen::CodeGenerator;
use minijinja_code::instructions::{Instruction, Instructions};
use minijinja_parser::parser::{parse, parse_expr};
use minijinja_syntax::error::Error;
use minijinja_syntax::syntax::SyntaxConfig;
use minijinja_syntax::tokens::Span;
use minijinja_test_rows::rows::{Subject, hold};
use minijinja_tree::ast::{Expr, Spanned, Var};
use minijinja_value::value::Value;
use std::alloc::{AllocError, Global};
use std::process::Abort;
use std::test::Fail;

/// The code of expressions, one after another.
fn code_of<'s>(alloc: Global, texts: &'s str) -> Result<Instructions<'s, Value>, Fail> {
    let mut generator = CodeGenerator::new(alloc, "name", texts);
    for text in texts.split(", ") {
        generator.compile_expr(&parse_expr(alloc, text)?)?;
    }
    finished(generator)
}

fn push_id(words: &mut String, instruction: &Instruction<'_, Value>) -> Result<(), AllocError> {
    match instruction {
        Instruction::ApplyFilter(_, _, id) | Instruction::PerformTest(_, _, id) => {
            write!(words, "{id} ")
        }
        _ => Ok(()),
    }
}

/// Expressions: the ids of their filters and tests.
enum Ids {}

impl Subject for Ids {
    fn words(alloc: Global, text: &str) -> Result<String, Fail> {
        let code = code_of(alloc, text)?;
        let mut words = String::new(alloc);
        for index in 0..200 {
            if let Some(instruction) = code.get(index) {
                push_id(&mut words, instruction)?;
            }
        }
        words.push_str("end")?;
        Ok(words)
    }
}

/// Fifty names have an id of their own.
#[test]
fn names_have_ids_by_first_use(rt: HostRuntime) -> Result<(), Fail> {
    let rows =
        "x|a0|a1|a2|a3|a4|a5|a6|a7|a8|a9|b0|b1|b2|b3|b4|b5|b6|b7|b8|b9|c0|c1|c2|c3|c4|c5|c6|c7|c8|c9\
         |d0|d1|d2|d3|d4|d5|d6|d7|d8|d9|e0|e1|e2|e3|e4|e5|e6|e7|e8|e9|f0, x|a1, x is f0 => \
         0 1 2 3 4 5 6 7 8 9 10 11 12 13 14 15 16 17 18 19 20 21 22 23 24 25 26 27 28 29 \
         30 31 32 33 34 35 36 37 38 39 40 41 42 43 44 45 46 47 48 49 255 1 0 end";
    hold::<Ids>(rt.alloc(), rows)
}

/// Two instructions.
fn pair_of_instructions(alloc: Global) -> Result<Instructions<'static, Value>, Error<'static>> {
    let mut list = Instructions::new(alloc, "name", "source");
    list.add(Instruction::Lookup("x"))?;
    list.add(Instruction::Emit)?;
    Ok(list)
}

fn assert_pair(rt: &impl Abort, list: &Instructions<'_, Value>) {
    assert!(rt; list.len() == 2);
    assert!(rt; list.name() == "name" && list.source() == "source");
    assert!(rt; matches!(list.get(0), Some(Instruction::Lookup("x"))));
    assert!(rt; matches!(list.get(1), Some(Instruction::Emit)));
    assert!(rt; list.get(2).is_none());
}

#[test]
fn a_list_is_filled_with_ample_memory(rt: HostRuntime) -> Result<(), Fail> {
    assert!(rt; Instructions::<Value>::new(rt.alloc(), "name", "source").is_empty());
    let list = pair_of_instructions(rt.alloc())?;
    assert_pair(&rt, &list);
    Ok(())
}

/// A name that is assigned to.
fn target(alloc: Global) -> Result<Spanned<Var<'static>>, Error<'static>> {
    let span = Span {
        start_line: 1,
        ..Span::default()
    };
    Spanned::new(alloc, Var { id: "x" }, span)
}

#[test]
fn a_node_is_made_with_ample_memory(rt: HostRuntime) -> Result<(), Fail> {
    let node = target(rt.alloc())?;
    assert!(rt; node.node().id == "x" && node.span().start_line == 1);
    Ok(())
}

/// The code of an expression, of an assignment of its value and of a template, with the hint and
/// how many blocks there are.
fn code_of_each(alloc: Global) -> Result<(Instructions<'static, Value>, usize, usize), Fail> {
    let mut generator = CodeGenerator::new(alloc, "name", "source");
    generator.compile_expr(&parse_expr::<Value>(alloc, "1")?)?;
    generator.compile_assignment(&Expr::Var(target(alloc)?))?;
    let syntax = SyntaxConfig::default();
    generator.compile_stmt(&parse(alloc, "abc{{ x }}", "name", &syntax)?)?;
    let hint = generator.buffer_size_hint();
    if !generator.is_closed() {
        return Err(Fail::from("something is open"));
    }
    let (code, blocks) = generator.finish();
    Ok((code, hint, blocks.len()))
}

fn assert_code_of_each(rt: &impl Abort, code: &Instructions<'_, Value>) {
    assert!(rt; code.len() == 5);
    assert!(rt; code.name() == "name" && code.source() == "source");
    assert!(rt; matches!(code.get(0), Some(Instruction::LoadConst(_))));
    assert!(rt; matches!(code.get(1), Some(Instruction::StoreLocal("x"))));
    assert!(rt; matches!(code.get(2), Some(Instruction::EmitRaw("abc"))));
}

#[test]
fn each_kind_of_node_compiles_with_ample_memory(rt: HostRuntime) -> Result<(), Fail> {
    let (code, hint, blocks) = code_of_each(rt.alloc())?;
    assert!(rt; hint == 8 && blocks == 0);
    assert_code_of_each(&rt, &code);
    Ok(())
}
