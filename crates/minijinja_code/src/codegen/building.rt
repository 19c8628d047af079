//! The calls of a generator that add instructions one by one, and those that open and close blocks.
ghost use Rattle.std.specs.Prelude.{◌≡◌, ◌+◌, ◌++◌, ◌∷◌, [], true, false, Some, IfNone, IfOk, IfSome, OnOk, length, if◌then◌else◌};
ghost use Rattle.minijinja_instructions.specs.Instructions.{instr_of};
ghost use Rattle.minijinja_code.specs.Building.{Branch, Loop, added, added_again, added_at, condition_added, condition_jump, conditions_ended, conditions_ended_at, conditions_started, else_started, flags_of, if_ended, if_started, line_set, loop_ended, loop_started, next_index, span_popped, span_pushed};
ghost use Rattle.minijinja_code.specs.Generator.{Tries};
ghost use Rattle.minijinja_code.specs.internal.AtGenerator.{branch_is_open, building, conditions_are_open, generated, loop_is_open, open_of, refusal_of, rest_of};
ghost use Rattle.minijinja_code.specs.declared.codegen.building.Pending.TheVariants as pending;
ghost use Rattle.minijinja_code.specs.internal.OpenBlocks.{opened_in};
ghost use Rattle.minijinja_code.specs.private.LeftOpen.{begins_row_in, is_branch_in, is_condition_in, is_loop_in, is_row_in};

use super::CodeGenerator;
use minijinja_emitter::memory::OutOfMemory;
use minijinja_instructions::instructions::{
    Instruction, LOOP_FLAG_RECURSIVE, LOOP_FLAG_WITH_LOOP_VAR,
};
use minijinja_syntax::error::Error;
use minijinja_syntax::tokens::Span;
use minijinja_value::value::TemplateValue;

/// What an opening call has left open.
#[derive(Clone, Copy)]
pub(super) enum Pending {
    /// A condition or an else part, with the index of the jump that leads past it.
    Branch(u32),
    /// A loop, with the index at which it asks for its next item.
    Loop(u32),
    /// A row of `and` or `or`, before its first jump.
    Conditions,
    /// The index of one more jump in the row of `and` or `or` that was opened last.
    Condition(u32),
}

/// Where a jump leads until the block that it leaves is closed.
const NOWHERE_YET: u32 = u32::MAX;

impl<'s, V: TemplateValue> CodeGenerator<'s, V> {
    /// From here on, what is added stands on this line, counted from 1.
    pub fn set_line(&mut self, line: u16)
        ensures set { building V.contents self.new ≡ line_set line (building V.contents self.old) }
        ensures rest { rest_of self.new ≡ rest_of self.old }
    {
        self.code.set_line(line);
    }

    /// From here on, what is added stands on the line on which a span begins.
    pub fn set_line_from_span(&mut self, span: Span)
        ensures set { building V.contents self.new
            ≡ line_set span.start_line (building V.contents self.old) }
        ensures rest { rest_of self.new ≡ rest_of self.old }
    {
        self.set_line(span.start_line);
    }

    /// Opens a span: until it is closed, what is added on the line on which it begins comes from
    /// it. That line is set too. It fails if memory is refused; every later call then returns the
    /// same error.
    pub fn push_span(&mut self, span: Span) -> Result<(), Error<'s>>
        ensures pushed { OnOk result (building V.contents self.new
            ≡ span_pushed span (building V.contents self.old)) }
        ensures rest { OnOk result (rest_of self.new ≡ rest_of self.old) }
        ensures tried { Tries (refusal_of self.old) (refusal_of self.new) result
            (length (generated V.contents self.old)) }
    {
        if let Some(error) = self.refusal {
            return Err(error);
        }
        let outer = self.code.open(span);
        let outcome = push(&mut self.spans, outer);
        self.ended(outcome)
    }

    /// Closes the innermost span, if one is open. The line stays.
    pub fn pop_span(&mut self)
        ensures popped { building V.contents self.new
            ≡ span_popped (building V.contents self.old) }
        ensures rest { rest_of self.new ≡ rest_of self.old }
    {
        if let Some(outer) = self.spans.pop() {
            self.code.close(outer);
        }
    }

    /// The index that the next instruction has, or 2^32 - 1 if the generator has failed since its
    /// list was too long.
    pub fn next_instruction(&self) -> u32
        ensures { result ≡ next_index (generated V.contents self.now) }
    {
        self.code.here()
    }

    /// Adds an instruction, and returns its index. It comes from the innermost open span if that
    /// begins on the line in force, and has that line alone otherwise. It fails if memory is
    /// refused, or if the list would have 2^32 instructions; every later call then returns the same
    /// error.
    pub fn add(&mut self, instruction: Instruction<'s, V>) -> Result<u32, Error<'s>>
        ensures index { IfOk result (λ i. i ≡ length (generated V.contents self.old)) }
        ensures added { OnOk result (building V.contents self.new
            ≡ added (instr_of V.contents instruction.entry) (building V.contents self.old)) }
        ensures rest { OnOk result (rest_of self.new ≡ rest_of self.old) }
        ensures tried { Tries (refusal_of self.old) (refusal_of self.new) result
            (length (generated V.contents self.old) + 1) }
    {
        if let Some(error) = self.refusal {
            return Err(error);
        }
        let index = self.code.here();
        let outcome = self.code.push(instruction);
        self.ended(outcome)?;
        Ok(index)
    }

    /// Adds an instruction that comes from this span, whatever line is in force and whatever span
    /// is open, and returns its index. It fails as `add` does.
    pub fn add_with_span(
        &mut self,
        instruction: Instruction<'s, V>,
        span: Span,
    ) -> Result<u32, Error<'s>>
        ensures index { IfOk result (λ i. i ≡ length (generated V.contents self.old)) }
        ensures added { OnOk result (building V.contents self.new
            ≡ added_at span (instr_of V.contents instruction.entry) (building V.contents self.old)) }
        ensures rest { OnOk result (rest_of self.new ≡ rest_of self.old) }
        ensures tried { Tries (refusal_of self.old) (refusal_of self.new) result
            (length (generated V.contents self.old) + 1) }
    {
        if let Some(error) = self.refusal {
            return Err(error);
        }
        let index = self.code.here();
        let outcome = self.code.push_at(instruction, span);
        self.ended(outcome)?;
        Ok(index)
    }

    /// Adds an instruction that has the line and the span of the one before it, and returns its
    /// index. It fails as `add` does.
    fn add_again(&mut self, instruction: Instruction<'s, V>) -> Result<u32, Error<'s>>
        ensures index { IfOk result (λ i. i ≡ length (generated V.contents self.old)) }
        ensures added { OnOk result (building V.contents self.new
            ≡ added_again (instr_of V.contents instruction.entry) (building V.contents self.old)) }
        ensures rest { OnOk result (rest_of self.new ≡ rest_of self.old) }
        ensures tried { Tries (refusal_of self.old) (refusal_of self.new) result
            (length (generated V.contents self.old) + 1) }
    {
        if let Some(error) = self.refusal {
            return Err(error);
        }
        let index = self.code.here();
        let outcome = self.code.push_again(instruction);
        self.ended(outcome)?;
        Ok(index)
    }

    /// Keeps that something is open. It fails if memory is refused.
    fn leave_open(&mut self, pending: Pending) -> Result<(), Error<'s>>
        ensures opened { OnOk result (building V.contents self.new
            ≡ record (building V.contents self.old)
            { blocks = opened_in pending (open_of self.old) }) }
        ensures rest { OnOk result (rest_of self.new ≡ rest_of self.old) }
        ensures tried { Tries (refusal_of self.old) (refusal_of self.new) result
            (length (generated V.contents self.old)) }
    {
        if let Some(error) = self.refusal {
            return Err(error);
        }
        let outcome = push(&mut self.pending, pending);
        self.ended(outcome)
    }

    /// Begins a loop over the value on top of the operands, with a variable `loop` or without one,
    /// which may be run recursively. It fails as `add` does.
    pub fn start_for_loop(&mut self, with_loop_var: bool, recursive: bool) -> Result<(), Error<'s>>
        ensures started { OnOk result (building V.contents self.new
            ≡ loop_started (flags_of with_loop_var recursive) (building V.contents self.old)) }
        ensures rest { OnOk result (rest_of self.new ≡ rest_of self.old) }
        ensures tried { Tries (refusal_of self.old) (refusal_of self.new) result
            (length (generated V.contents self.old) + 2) }
    {
        self.add(Instruction::PushLoop(loop_flags(with_loop_var, recursive)))?;
        let asks = self.add(Instruction::Iterate(NOWHERE_YET))?;
        self.leave_open(Pending::Loop(asks))
    }

    /// Ends the innermost open loop: each turn begins anew, and where no item is left the loop is
    /// over. If `push_did_not_iterate` is set, it leaves on top of the operands whether no item
    /// came. It fails as `add` does.
    pub fn end_for_loop(&mut self, push_did_not_iterate: bool) -> Result<(), Error<'s>>
        requires { loop_is_open self.old ≡ true }
        ensures ended { OnOk result (building V.contents self.new
            ≡ loop_ended push_did_not_iterate (building V.contents self.old)) }
        ensures rest { OnOk result (rest_of self.new ≡ rest_of self.old) }
        ensures tried { Tries (refusal_of self.old) (refusal_of self.new) result
            (length (generated V.contents self.old) + (if push_did_not_iterate then 3 else 2)) }
    {
        let asks = self.close_loop();
        self.add(Instruction::Jump(asks))?;
        let end = self.next_instruction();
        if push_did_not_iterate {
            self.add(Instruction::PushDidNotIterate)?;
        }
        self.add(Instruction::PopLoopFrame)?;
        self.code.lead_to(asks as usize, end);
        Ok(())
    }

    /// Begins what is run only if the value on top of the operands is true. It fails as `add` does.
    pub fn start_if(&mut self) -> Result<(), Error<'s>>
        ensures started { OnOk result (building V.contents self.new
            ≡ if_started (building V.contents self.old)) }
        ensures rest { OnOk result (rest_of self.new ≡ rest_of self.old) }
        ensures tried { Tries (refusal_of self.old) (refusal_of self.new) result
            (length (generated V.contents self.old) + 1) }
    {
        let jump = self.add(Instruction::JumpIfFalse(NOWHERE_YET))?;
        self.leave_open(Pending::Branch(jump))
    }

    /// Ends the innermost open branch, and begins what is run instead of it. It fails as `add`
    /// does.
    pub fn start_else(&mut self) -> Result<(), Error<'s>>
        requires { branch_is_open self.old ≡ true }
        ensures started { OnOk result (building V.contents self.new
            ≡ else_started (building V.contents self.old)) }
        ensures rest { OnOk result (rest_of self.new ≡ rest_of self.old) }
        ensures tried { Tries (refusal_of self.old) (refusal_of self.new) result
            (length (generated V.contents self.old) + 1) }
    {
        let branch = self.close_branch();
        let jump = self.add(Instruction::Jump(NOWHERE_YET))?;
        let begin = self.next_instruction();
        self.code.lead_to(branch as usize, begin);
        self.leave_open(Pending::Branch(jump))
    }

    /// Ends the innermost open branch.
    pub fn end_if(&mut self)
        requires { branch_is_open self.old ≡ true }
        ensures ended { building V.contents self.new ≡ if_ended (building V.contents self.old) }
        ensures rest { rest_of self.new ≡ rest_of self.old }
    {
        let branch = self.close_branch();
        let end = self.next_instruction();
        self.code.lead_to(branch as usize, end);
    }

    /// Begins a row of `and` or `or`. It fails if memory is refused; every later call then returns
    /// the same error.
    pub fn start_sc_bool(&mut self) -> Result<(), Error<'s>>
        ensures started { OnOk result (building V.contents self.new
            ≡ conditions_started (building V.contents self.old)) }
        ensures rest { OnOk result (rest_of self.new ≡ rest_of self.old) }
        ensures tried { Tries (refusal_of self.old) (refusal_of self.new) result
            (length (generated V.contents self.old)) }
    {
        self.leave_open(Pending::Conditions)
    }

    /// Leaves the open row of `and` or `or` with the value on top of the operands if that settles
    /// it: if it is false for `and`, and if it is true for `or`. Otherwise it is dropped. It fails
    /// as `add` does.
    pub fn sc_bool(&mut self, and: bool) -> Result<(), Error<'s>>
        requires { conditions_are_open self.old ≡ true }
        ensures added { OnOk result (building V.contents self.new
            ≡ condition_added and (building V.contents self.old)) }
        ensures rest { OnOk result (rest_of self.new ≡ rest_of self.old) }
        ensures tried { Tries (refusal_of self.old) (refusal_of self.new) result
            (length (generated V.contents self.old) + 1) }
    {
        let jump = self.add_again(leaving(and))?;
        self.leave_open(Pending::Condition(jump))
    }

    /// Ends the open row of `and` or `or`.
    pub fn end_sc_bool(&mut self)
        requires { conditions_are_open self.old ≡ true }
        ensures ended { building V.contents self.new
            ≡ conditions_ended (building V.contents self.old) }
        ensures rest { rest_of self.new ≡ rest_of self.old }
    {
        let end = self.next_instruction();
        while let Some(jump) = condition_in(self.pending.last().copied()) {
            self.code.lead_to(jump as usize, end);
            self.pending.pop();
        }
        if begins_row(self.pending.last().copied()) {
            self.pending.pop();
        }
    }

    /// Whether the innermost open block is a condition or an else part. After a refusal none is.
    pub fn in_branch(&self) -> bool
        ensures { result ≡ branch_is_open self.now }
    {
        self.refusal.is_none() && branch_in(self.pending.last().copied()).is_some()
    }

    /// Whether the innermost open block is a loop. After a refusal none is.
    pub fn in_loop(&self) -> bool
        ensures { result ≡ loop_is_open self.now }
    {
        self.refusal.is_none() && loop_in(self.pending.last().copied()).is_some()
    }

    /// Whether the innermost open block is a row of `and` or `or`. After a refusal none is.
    pub fn in_sc_bool(&self) -> bool
        ensures { result ≡ conditions_are_open self.now }
    {
        self.refusal.is_none() && is_in_row(self.pending.last().copied())
    }

    /// Closes the innermost open branch, and returns the index of the jump that leads past it.
    fn close_branch(&mut self) -> u32
        requires { branch_is_open self.old ≡ true }
        ensures innermost { open_of self.old ≡ Branch result ∷ open_of self.new }
        ensures closed { building V.contents self.new
            ≡ record (building V.contents self.old) { blocks = open_of self.new } }
        ensures rest { rest_of self.new ≡ rest_of self.old }
    {
        match branch_in(self.pending.pop()) {
            Some(jump) => jump,
            None => unreachable!(),
        }
    }

    /// Closes the innermost open loop, and returns the index at which it asks for its next item.
    fn close_loop(&mut self) -> u32
        requires { loop_is_open self.old ≡ true }
        ensures innermost { open_of self.old ≡ Loop result ∷ open_of self.new }
        ensures closed { building V.contents self.new
            ≡ record (building V.contents self.old) { blocks = open_of self.new } }
        ensures rest { rest_of self.new ≡ rest_of self.old }
    {
        match loop_in(self.pending.pop()) {
            Some(asks) => asks,
            None => unreachable!(),
        }
    }
}

/// The index of the jump past a branch, if a branch was left open.
fn branch_in(left: Option<Pending>) -> Option<u32>
    ensures some { IfSome result (λ p. left ≡ Some (pending.Branch p)) }
    ensures none { IfNone result (is_branch_in left ≡ false) }
{
    match left? {
        Pending::Branch(jump) => Some(jump),
        Pending::Loop(_) | Pending::Conditions | Pending::Condition(_) => None,
    }
}

/// The index at which a loop asks for its next item, if a loop was left open.
fn loop_in(left: Option<Pending>) -> Option<u32>
    ensures some { IfSome result (λ p. left ≡ Some (pending.Loop p)) }
    ensures none { IfNone result (is_loop_in left ≡ false) }
{
    match left? {
        Pending::Loop(asks) => Some(asks),
        Pending::Branch(_) | Pending::Conditions | Pending::Condition(_) => None,
    }
}

/// The index of a jump in a row of `and` or `or`, if one was left open.
fn condition_in(left: Option<Pending>) -> Option<u32>
    ensures some { IfSome result (λ p. left ≡ Some (pending.Condition p)) }
    ensures none { IfNone result (is_condition_in left ≡ false) }
{
    match left? {
        Pending::Condition(jump) => Some(jump),
        Pending::Branch(_) | Pending::Loop(_) | Pending::Conditions => None,
    }
}

/// Whether a row of `and` or `or` was left open before its first jump.
fn begins_row(left: Option<Pending>) -> bool
    ensures { result ≡ begins_row_in left }
{
    match left {
        Some(Pending::Conditions) => true,
        Some(Pending::Branch(_) | Pending::Loop(_) | Pending::Condition(_)) | None => false,
    }
}

/// Whether a row of `and` or `or` was left open, before or after a jump.
fn is_in_row(left: Option<Pending>) -> bool
    ensures { result ≡ is_row_in left }
{
    begins_row(left) || condition_in(left).is_some()
}

/// The flags of a loop.
fn loop_flags(with_loop_var: bool, recursive: bool) -> u8
    ensures { result ≡ flags_of with_loop_var recursive }
{
    let mut flags = 0;
    if with_loop_var {
        flags |= LOOP_FLAG_WITH_LOOP_VAR;
    }
    if recursive {
        flags |= LOOP_FLAG_RECURSIVE;
    }
    flags
}

/// The jump that leaves a row of `and` or `or` with a value that settles it.
fn leaving<'s, V: TemplateValue>(and: bool) -> Instruction<'s, V>
    ensures { instr_of V.contents result ≡ condition_jump and }
{
    if and {
        Instruction::JumpIfFalseOrPop(NOWHERE_YET)
    } else {
        Instruction::JumpIfTrueOrPop(NOWHERE_YET)
    }
}

/// Adds an element at the end.
fn push<T: Copy>(list: &mut Vec<T>, element: T) -> Result<(), OutOfMemory>
    ensures { OnOk result (list.new.items ≡ list.old.items ++ element ∷ []) }
{
    list.push(element)?;
    Ok(())
}
