//! Code that is made by the calls of a generator, one instruction after another.
use super::finished;
use minijinja_code::codegen::CodeGenerator;
use minijinja_code::instructions::{Instruction, Instructions};
use minijinja_syntax::tokens::Span;
use minijinja_value::value::Value;
use std::alloc::{AllocError, Global};
use std::process::Abort;
use std::test::Fail;

type Generator = CodeGenerator<'static, Value>;

fn generator(alloc: Global) -> Generator {
    CodeGenerator::new(alloc, "name", "source")
}

fn start_else(generator: &mut Generator) -> Result<(), Fail> {
    if !generator.in_branch() {
        return Err(Fail::from("no branch is open"));
    }
    generator.start_else()?;
    Ok(())
}

fn end_if(generator: &mut Generator) -> Result<(), Fail> {
    if !generator.in_branch() {
        return Err(Fail::from("no branch is open"));
    }
    generator.end_if();
    Ok(())
}

fn end_for_loop(generator: &mut Generator, push_did_not_iterate: bool) -> Result<(), Fail> {
    if !generator.in_loop() {
        return Err(Fail::from("no loop is open"));
    }
    generator.end_for_loop(push_did_not_iterate)?;
    Ok(())
}

fn sc_bool(generator: &mut Generator, and: bool) -> Result<(), Fail> {
    if !generator.in_sc_bool() {
        return Err(Fail::from("no row is open"));
    }
    generator.sc_bool(and)?;
    Ok(())
}

fn end_sc_bool(generator: &mut Generator) -> Result<(), Fail> {
    if !generator.in_sc_bool() {
        return Err(Fail::from("no row is open"));
    }
    generator.end_sc_bool();
    Ok(())
}

/// The instructions of a list, each as it is printed.
fn words(alloc: Global, code: &Instructions<'_, Value>) -> Result<String, AllocError> {
    let mut words = String::new(alloc);
    for instruction in code.iter() {
        write!(words, "{instruction}; ")?;
    }
    Ok(words)
}

fn condition(alloc: Global) -> Result<String, Fail> {
    let mut made = generator(alloc);
    made.add(Instruction::Lookup("a"))?;
    made.start_if()?;
    made.add(Instruction::EmitRaw("x"))?;
    start_else(&mut made)?;
    made.add(Instruction::EmitRaw("y"))?;
    end_if(&mut made)?;
    Ok(words(alloc, &finished(made)?)?)
}

#[test]
fn a_condition_leads_past_what_is_not_run(rt: HostRuntime) -> Result<(), Fail> {
    let words = condition(rt.alloc())?;
    let wanted = r#"Lookup("a"); JumpIfFalse(4); EmitRaw("x"); Jump(5); EmitRaw("y"); "#;
    assert!(rt; words.as_str() == wanted, "{words}");
    Ok(())
}

fn row(alloc: Global) -> Result<String, Fail> {
    let mut made = generator(alloc);
    made.start_sc_bool()?;
    made.add(Instruction::Lookup("a"))?;
    sc_bool(&mut made, true)?;
    made.add(Instruction::Lookup("b"))?;
    sc_bool(&mut made, false)?;
    made.add(Instruction::Lookup("c"))?;
    end_sc_bool(&mut made)?;
    Ok(words(alloc, &finished(made)?)?)
}

#[test]
fn a_row_of_conditions_leads_behind_it(rt: HostRuntime) -> Result<(), Fail> {
    let words = row(rt.alloc())?;
    let wanted =
        r#"Lookup("a"); JumpIfFalseOrPop(5); Lookup("b"); JumpIfTrueOrPop(5); Lookup("c"); "#;
    assert!(rt; words.as_str() == wanted, "{words}");
    Ok(())
}

fn loop_code(alloc: Global) -> Result<String, Fail> {
    let mut made = generator(alloc);
    made.add(Instruction::Lookup("y"))?;
    made.start_for_loop(true, false)?;
    made.add(Instruction::StoreLocal("x"))?;
    end_for_loop(&mut made, true)?;
    Ok(words(alloc, &finished(made)?)?)
}

#[test]
fn a_loop_asks_for_its_next_item(rt: HostRuntime) -> Result<(), Fail> {
    let words = loop_code(rt.alloc())?;
    let wanted =
        r#"Lookup("y"); PushLoop(1); Iterate(5); StoreLocal("x"); Jump(2); PushDidNotIterate; PopLoopFrame; "#;
    assert!(rt; words.as_str() == wanted, "{words}");
    Ok(())
}

fn span(start_line: u16) -> Span {
    Span {
        start_line,
        end_line: start_line,
        end_col: 1,
        ..Span::default()
    }
}

/// On line 3 within a span there, on line 4, at a span of line 7, and after the span is closed.
fn placed(alloc: Global) -> Result<Instructions<'static, Value>, Fail> {
    let mut made = generator(alloc);
    made.push_span(span(3))?;
    made.add(Instruction::Emit)?;
    made.set_line(4);
    made.add(Instruction::Emit)?;
    made.add_with_span(Instruction::Emit, span(7))?;
    made.set_line_from_span(span(3));
    made.pop_span();
    made.add(Instruction::Emit)?;
    made.pop_span();
    finished(made)
}

#[test]
fn an_instruction_has_the_line_in_force_and_the_open_span(rt: HostRuntime) -> Result<(), Fail> {
    let code = placed(rt.alloc())?;
    assert!(rt; code.get_line(0) == Some(3) && code.get_span(0) == Some(span(3)));
    assert!(rt; code.get_line(1) == Some(4) && code.get_span(1).is_none());
    assert!(rt; code.get_line(2) == Some(7) && code.get_span(2) == Some(span(7)));
    assert!(rt; code.get_line(3) == Some(3) && code.get_span(3).is_none());
    Ok(())
}
