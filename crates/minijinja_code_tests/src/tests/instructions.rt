//! Which lines and spans a list keeps and which it returns, and which names it refers to.
use minijinja_code::instructions::{
    Instruction, InstructionList, Instructions, LOOP_FLAG_WITH_LOOP_VAR,
};
use minijinja_syntax::error::Error;
use minijinja_syntax::tokens::Span;
use minijinja_value::value::Value;
use std::alloc::Global;
use std::test::Fail;

/// The entry of an instruction in a plain list.
#[derive(Clone, Copy)]
struct Entry {
    line: Option<usize>,
    span: Option<Span>,
}

fn span_on(line: u16) -> Span {
    Span {
        start_line: line,
        start_offset: 3,
        end_line: line,
        end_offset: 4,
        ..Span::default()
    }
}

#[test]
fn an_instruction_without_marks_has_those_of_the_last_one(rt: HostRuntime) -> Result<(), Fail> {
    let mut list = InstructionList::new(rt.alloc(), "name", "source");
    list.add(0u8)?;
    list.add_with_line(1, 3)?;
    list.add_with_span(2, span_on(5))?;
    list.add(3)?;
    list.add_with_line(4, 5)?;
    list.add_with_span(5, Span::default())?;
    assert!(rt; list.get_line(0).is_none() && list.get_span(0).is_none());
    assert!(rt; list.get_line(1) == Some(3) && list.get_span(1).is_none());
    assert!(rt; list.get_line(2) == Some(5) && list.get_span(2) == Some(span_on(5)));
    assert!(rt; list.get_line(3) == Some(5) && list.get_span(3) == Some(span_on(5)));
    assert!(rt; list.get_line(4) == Some(5) && list.get_span(4).is_none());
    assert!(rt; list.get_line(5) == Some(0) && list.get_span(5).is_none());
    assert!(rt; list.get_line(99) == Some(0));
    Ok(())
}

/// Adds an instruction in the way that a number chooses, and returns its entry. The last entry is
/// that of the instruction before it.
fn add_by_number(
    list: &mut InstructionList<'static, u32>,
    number: u32,
    last: Entry,
) -> Result<Entry, Error<'static>> {
    let line = ((number >> 8) % 4) as u16;
    match number % 4 {
        0 => {
            list.add(number)?;
            Ok(last)
        }
        1 => {
            list.add_with_line(number, line)?;
            Ok(Entry {
                line: Some(line as usize),
                span: None,
            })
        }
        2 => {
            list.add_with_span(number, span_on(line))?;
            Ok(Entry {
                line: Some(line as usize),
                span: Some(span_on(line)),
            })
        }
        _ => {
            list.add_with_span(number, Span::default())?;
            Ok(Entry {
                line: Some(0),
                span: None,
            })
        }
    }
}

#[test]
fn mixed_adds_are_a_plain_list(rt: HostRuntime) -> Result<(), Fail> {
    let alloc = rt.alloc();
    let mut list = InstructionList::new(alloc, "name", "source");
    let mut plain: Vec<Entry> = Vec::new(alloc);
    let mut last = Entry {
        line: None,
        span: None,
    };
    let mut number = 1u32;
    for _ in 0..10_000 {
        number = number.wrapping_mul(1_664_525).wrapping_add(1_013_904_223);
        last = add_by_number(&mut list, number >> 4, last)?;
        plain.push(last)?;
    }
    let mut index = 0u32;
    for entry in &plain {
        assert!(rt; list.get_line(index) == entry.line);
        assert!(rt; list.get_span(index) == entry.span);
        index = index.wrapping_add(1);
    }
    Ok(())
}

/// The names that are referenced at an index, each after a space.
fn names_at(
    alloc: Global,
    list: &Instructions<'static>,
    index: u32,
) -> Result<String, Error<'static>> {
    let mut words = String::from_str(alloc, "at")?;
    for name in list.get_referenced_names(index)? {
        write!(words, " {name}")?;
    }
    Ok(words)
}

/// A list of these instructions.
fn list_of(
    alloc: Global,
    instructions: Vec<Instruction<'static>>,
) -> Result<Instructions<'static>, Error<'static>> {
    let mut list = InstructionList::new(alloc, "name", "source");
    for instruction in instructions {
        list.add(instruction)?;
    }
    Ok(list)
}

/// The code of `{% for x in y %}{{ x }}{% endfor %}`.
fn loop_code(alloc: Global) -> Result<Instructions<'static>, Error<'static>> {
    let instructions = vec![in alloc;
        Instruction::Lookup("y"),
        Instruction::PushLoop(LOOP_FLAG_WITH_LOOP_VAR),
        Instruction::Iterate(7),
        Instruction::StoreLocal("x"),
        Instruction::Lookup("x"),
        Instruction::Emit,
        Instruction::Jump(2),
        Instruction::PopLoopFrame,
    ]?;
    list_of(alloc, instructions)
}

/// The code of `{{ a }}{% macro m(x) %}{{ x }}{{ b }}{% endmacro %}{{ m() }}`.
fn macro_code(alloc: Global) -> Result<Instructions<'static>, Error<'static>> {
    let instructions = vec![in alloc;
        Instruction::Lookup("a"),
        Instruction::Emit,
        Instruction::Jump(9),
        Instruction::StoreLocal("x"),
        Instruction::Lookup("x"),
        Instruction::Emit,
        Instruction::Lookup("b"),
        Instruction::Emit,
        Instruction::Return,
        Instruction::Enclose("b"),
        Instruction::GetClosure,
        Instruction::LoadConst(Value::None),
        Instruction::BuildMacro("m", 3, 0),
        Instruction::StoreLocal("m"),
        Instruction::CallFunction("m", Some(0)),
        Instruction::Emit,
    ]?;
    list_of(alloc, instructions)
}

#[test]
fn names_of_a_loop(rt: HostRuntime) -> Result<(), Fail> {
    let alloc = rt.alloc();
    let list = loop_code(alloc)?;
    assert!(rt; names_at(alloc, &list, 0)?.as_str() == "at y");
    assert!(rt; names_at(alloc, &list, 2)?.as_str() == "at loop y");
    assert!(rt; names_at(alloc, &list, 7)?.as_str() == "at x loop y");
    assert!(rt; names_at(alloc, &list, 99)?.as_str() == "at x loop y");
    let empty = InstructionList::new(alloc, "name", "source");
    assert!(rt; names_at(alloc, &empty, 0)?.as_str() == "at");
    Ok(())
}

#[test]
fn names_of_a_macro(rt: HostRuntime) -> Result<(), Fail> {
    let alloc = rt.alloc();
    let list = macro_code(alloc)?;
    assert!(rt; names_at(alloc, &list, 1)?.as_str() == "at a");
    assert!(rt; names_at(alloc, &list, 2)?.as_str() == "at");
    assert!(rt; names_at(alloc, &list, 4)?.as_str() == "at x");
    assert!(rt; names_at(alloc, &list, 8)?.as_str() == "at b x");
    assert!(rt; names_at(alloc, &list, 10)?.as_str() == "at a");
    assert!(rt; names_at(alloc, &list, 99)?.as_str() == "at m a");
    Ok(())
}
