//! The names that the instructions of a list refer to.
ghost use Rattle.std.specs.Prelude.{◌≡◌, ◌+◌, ◌≤◌, ◌<◌, IfOk, OnOk, Ok, length, map};
ghost use Rattle.std.specs.Option.{option_map};
ghost use Rattle.minijinja_semantics.specs.MacroBodies.{each_once, name_in};
ghost use Rattle.minijinja_instructions.specs.Instructions.{instr_of};
ghost use Rattle.minijinja_instructions.specs.private.NamesOnce.{with_any, IsSetOf};
ghost use Rattle.minijinja_instructions.specs.private.Scanning.{opening_of, reach, target_at, visited_at, visited_in};

use crate::instructions::{Instruction, LOOP_FLAG_WITH_LOOP_VAR};
use minijinja_value::value::TemplateValue;
use std::alloc::{AllocError, Global};
use std::collections::BTreeSet;

/// A part of a list: the places from `start` on that are below `end`.
#[derive(Clone, Copy)]
struct Part {
    start: usize,
    end: usize,
}

/// Names in the order in which they came first, each once.
#[derive(Drop)]
struct NamesOnce<'s> {
    in_order: Vec<&'s str>,
    seen: BTreeSet<&'s str>,
    ghost same: { IsSetOf (map (λ x. x.now) in_order.items) seen },
}

impl<'s> NamesOnce<'s> {
    ghost use Rattle.std.specs.Prelude.{[]};

    fn new(alloc: Global) -> Self
        ensures { result.in_order.items ≡ [] }
    {
        NamesOnce {
            in_order: Vec::new(alloc),
            seen: BTreeSet::new(alloc),
        }
    }

    /// Adds a name, if there is one, unless it is there already.
    fn add(&mut self, name: Option<&'s str>) -> Result<(), AllocError>
        ensures { OnOk result (map (λ x. x.now) self.new.in_order.items ≡ with_any
            (map (λ x. x.now) self.old.in_order.items) (option_map (λ x. x.now) name.entry)) }
    {
        let Some(name) = name else {
            return Ok(());
        };
        self.in_order.reserve(1)?;
        if self.seen.insert(name)? {
            self.in_order.push_reserved(name);
        }
        Ok(())
    }
}

/// The names that are referenced at an index. Past the end it counts as the last one.
pub fn referenced_names<'s, V: TemplateValue>(
    alloc: Global,
    instructions: &[Instruction<'s, V>],
    index: usize,
) -> Result<Vec<&'s str>, AllocError>
    ensures { IfOk result (λ names. map (λ x. x.now) names.items ≡ each_once
        (visited_at (map (instr_of V.contents) instructions.now) index)) }
{
    if instructions.is_empty() {
        return Ok(Vec::new(alloc));
    }
    let last = index.min(instructions.len() - 1);
    names_of(alloc, instructions, reach(instructions, last))
}

/// The names in a part of a list, the last first and each once, without the bodies of macros that
/// are made there.
fn names_of<'s, V: TemplateValue>(
    alloc: Global,
    instructions: &[Instruction<'s, V>],
    part: Part,
) -> Result<Vec<&'s str>, AllocError>
    requires { part.end ≤ length instructions.now }
    ensures { IfOk result (λ names. map (λ x. x.now) names.items ≡ each_once
        (visited_in (map (instr_of V.contents) instructions.now) part)) }
{
    let mut names = NamesOnce::new(alloc);
    let mut end = part.end;
    while part.start < end {
        end -= 1;
        let instruction = &instructions[end];
        match opening_of(instruction) {
            Some(opening) => end = end.min(opening),
            None => names.add(name_in(instruction))?,
        }
    }
    Ok(names.in_order)
}

/// The part of a list in which names count at an index. It begins with the innermost body of a
/// macro round the index, or else with the list. It ends with the index, or before the body of a
/// macro that has ended there while the macro is made only behind the index.
fn reach<V: TemplateValue>(instructions: &[Instruction<'_, V>], index: usize) -> Part
    requires { index < length instructions.now }
    ensures reaches { result ≡ reach (map (instr_of V.contents) instructions.now) index }
    ensures within { result.end ≤ index + 1 }
{
    let mut end = index + 1;
    for instruction in &instructions[index + 1..] {
        if let Some(opening) = opening_of(instruction) {
            if opening <= index {
                if index < target_at(instructions, opening) {
                    return Part {
                        start: opening,
                        end,
                    };
                }
                end = end.min(opening);
            }
        }
    }
    Part { start: 0, end }
}

/// Where the jump at a place leads, or 0 if none stands there.
fn target_at<V: TemplateValue>(instructions: &[Instruction<'_, V>], place: usize) -> usize
    ensures { result ≡ target_at (map (instr_of V.contents) instructions.now) place }
{
    match instructions.get(place) {
        Some(Instruction::Jump(target)) => *target as usize,
        _ => 0,
    }
}

/// Where the jump stands before the body of the macro that an instruction makes, if it makes one.
fn opening_of<V: TemplateValue>(instruction: &Instruction<'_, V>) -> Option<usize>
    ensures { result ≡ opening_of (instr_of V.contents instruction.now) }
{
    match instruction {
        Instruction::BuildMacro(_, entry, _) => Some((*entry as usize).saturating_sub(1)),
        _ => None,
    }
}

/// The name that an instruction refers to, if there is one.
fn name_in<'s, V: TemplateValue>(instruction: &Instruction<'s, V>) -> Option<&'s str>
    ensures { option_map (λ x. x.now) result ≡ name_in (instr_of V.contents instruction.now) }
{
    match instruction {
        Instruction::Lookup(name) => Some(name),
        Instruction::StoreLocal(name) => Some(name),
        Instruction::CallFunction(name, _) => Some(name),
        Instruction::PushLoop(flags) if flags & LOOP_FLAG_WITH_LOOP_VAR != 0 => Some("loop"),
        _ => None,
    }
}
