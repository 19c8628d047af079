//! The machine: its state, its operands, and what each instruction does.
ghost use Rattle.std.specs.Prelude.{◌≡◌, ◌+◌, ◌<◌, ◌^◌, ◌∷◌, [], length, map, option_map, slice_get, IfOk, IfSome, IsNone, None, OnOk, Some};
ghost use Rattle.minijinja_value.specs.Outcomes.{map_pairs};
ghost use Rattle.minijinja_semantics.specs.Machine as machine;
ghost use Rattle.minijinja_instructions.specs.Instructions.{instr_of};
ghost use Rattle.minijinja_replay.specs.private.AtMachine as AtMachine;
ghost use Rattle.minijinja_replay.specs.private.AtMachine.{came_to, loops, stack, world, Does, Following, FollowingTwo};

use crate::asking::Pushed;
use crate::operate::Binary;
use crate::replay::{Answer, Event};
use minijinja_instructions::instructions::{Instruction, Instructions};
use minijinja_value::value::TemplateValue;
use std::alloc::{AllocError, Global};

/// Why a run stops before it finishes.
#[derive(Drop)]
pub(crate) enum Stop<F> {
    /// An answer is a fault.
    AnswerFault,
    /// An operator or a comparison has no result for its operands.
    OperatorFault(F),
    /// No answer is left.
    Starved,
    /// An answer has another number of values than its event takes.
    Unfit,
}

/// What a step came to.
#[derive(Drop)]
pub(crate) enum Step<F> {
    /// The run goes on at the machine's place.
    On,
    /// What a macro runs has returned.
    Returned,
    Stopped(Stop<F>),
    /// There is no instruction at the place, or too few operands or no open loop for it.
    Jammed,
}

/// A run so far.
#[derive(Drop)]
pub(crate) struct Machine<'c, 's, V: TemplateValue> {
    pub(crate) alloc: Global,
    pub(crate) code: &'c Instructions<'s, V>,
    /// The index of the instruction that is next.
    pub(crate) place: u32,
    /// The topmost last.
    pub(crate) operands: Vec<V>,
    /// For each open loop whether an item came, the innermost last.
    pub(crate) loops: Vec<bool>,
    /// The record, in order.
    pub(crate) events: Vec<Event<V>>,
    /// Those that are left, the next one last.
    pub(crate) answers: Vec<Answer<V>>,
}

impl<'c, 's, V: TemplateValue> Machine<'c, 's, V> {
    /// Does the instruction at the machine's place.
    pub(crate) fn step(&mut self) -> Result<Step<V::Fault>, AllocError>
        requires few { length (AtMachine.code V.contents self.old) < 2 ^ 32 }
        ensures step { IfOk result (Does V.functions V.contents V.fault_contents self.old
            (slice_get (AtMachine.code V.contents self.old) self.old.place) self.new) }
        ensures same { OnOk result (self.new.code ≡ self.old.code) }
    {
        let code = self.code;
        match code.get(self.place) {
            Some(instruction) => self.act(instruction),
            None => Ok(Step::Jammed),
        }
    }

    /// Does this instruction, which is the one at the machine's place.
    fn act(&mut self, instruction: &Instruction<'s, V>) -> Result<Step<V::Fault>, AllocError>
        requires place { self.old.place + 1 < 2 ^ 32 }
        requires at { slice_get (AtMachine.code V.contents self.old) self.old.place ≡ Some (instr_of
            V.contents instruction.now) }
        ensures step { IfOk result (Does V.functions V.contents V.fault_contents self.old (Some
            (instr_of V.contents instruction.now)) self.new) }
        ensures same { OnOk result (self.new.code ≡ self.old.code) }
    {
        match instruction {
            Instruction::LoadConst(value) => {
                let copy = value.try_clone()?;
                self.push(copy)
            }
            Instruction::EmitRaw(_)
            | Instruction::PushWith
            | Instruction::PopFrame
            | Instruction::PopAutoEscape
            | Instruction::BeginCapture(_)
            | Instruction::CallBlock(_)
            | Instruction::FastSuper
            | Instruction::Enclose(_) => self.ask(0, Pushed::Nothing),
            Instruction::Emit
            | Instruction::StoreLocal(_)
            | Instruction::PushAutoEscape
            | Instruction::FastRecurse
            | Instruction::LoadBlocks
            | Instruction::Include(_) => self.ask(1, Pushed::Nothing),
            Instruction::SetAttr(_) => self.ask(2, Pushed::Nothing),
            Instruction::Lookup(_)
            | Instruction::EndCapture
            | Instruction::ExportLocals
            | Instruction::GetClosure => self.ask(0, Pushed::OneValue),
            Instruction::GetAttr(_) => self.ask(1, Pushed::OneValue),
            Instruction::GetItem | Instruction::Div => self.ask(2, Pushed::OneValue),
            Instruction::Slice => self.ask(4, Pushed::OneValue),
            Instruction::MergeKwargs(count) => self.ask(*count, Pushed::OneValue),
            Instruction::UnpackLists(count) => self.ask(*count, Pushed::AllValues),
            Instruction::ApplyFilter(_, count, _)
            | Instruction::PerformTest(_, count, _)
            | Instruction::CallFunction(_, count)
            | Instruction::CallMethod(_, count)
            | Instruction::CallObject(count) => self.ask_counted(*count, Pushed::OneValue),
            Instruction::UnpackList(count) => self.unpack(*count),
            Instruction::PushLoop(flags) => self.begin_loop(*flags),
            Instruction::Iterate(past) => self.iterate(*past),
            Instruction::PopLoopFrame => self.end_loop(),
            Instruction::PushDidNotIterate => self.did_not_iterate(),
            Instruction::BuildMacro(..) => self.build_macro(),
            Instruction::Add => self.operate(Binary::Add),
            Instruction::Sub => self.operate(Binary::Sub),
            Instruction::Mul => self.operate(Binary::Mul),
            Instruction::IntDiv => self.operate(Binary::IntDiv),
            Instruction::Rem => self.operate(Binary::Rem),
            Instruction::Pow => self.operate(Binary::Pow),
            Instruction::StringConcat => self.operate(Binary::StringConcat),
            Instruction::Eq => self.operate(Binary::Eq),
            Instruction::Ne => self.operate(Binary::Ne),
            Instruction::Lt => self.operate(Binary::Lt),
            Instruction::Lte => self.operate(Binary::Lte),
            Instruction::Gt => self.operate(Binary::Gt),
            Instruction::Gte => self.operate(Binary::Gte),
            Instruction::In => self.operate(Binary::In),
            Instruction::Neg => self.neg(),
            Instruction::Not => self.not(),
            Instruction::IsUndefined => self.is_undefined(),
            Instruction::CompareAndPreserve(operator) => self.compare(*operator),
            Instruction::BuildMap(count) => self.build_map(*count),
            Instruction::BuildKwargs(count) => self.build_kwargs(*count),
            Instruction::BuildList(count) => self.build_list(*count),
            Instruction::BuildTuple(count) => self.build_tuple(*count),
            Instruction::DupTop => self.duplicate(),
            Instruction::DiscardTop => self.discard(),
            Instruction::Swap => self.swap(),
            Instruction::Jump(target) => self.jump(*target),
            Instruction::JumpIfFalse(target) => self.jump_if_false(*target),
            Instruction::JumpIfFalseOrPop(target) => self.jump_if_false_or_pop(*target),
            Instruction::JumpIfTrueOrPop(target) => self.jump_if_true_or_pop(*target),
            Instruction::Return => Ok(Step::Returned),
        }
    }

    /// Goes on to the instruction behind this one.
    pub(crate) fn go(&mut self) -> Result<Step<V::Fault>, AllocError>
        requires place { self.old.place + 1 < 2 ^ 32 }
        ensures step { IfOk result (λ step. machine.At (self.old.place + 1) (stack V.contents
            self.old) (loops V.contents self.old) (world V.contents self.old)
            ≡ came_to V.contents V.fault_contents self.new step) }
        ensures same { OnOk result (self.new.code ≡ self.old.code) }
    {
        self.place += 1;
        Ok(Step::On)
    }

    /// Pushes a value, and goes on to the instruction behind this one.
    pub(crate) fn push(&mut self, value: V) -> Result<Step<V::Fault>, AllocError>
        requires place { self.old.place + 1 < 2 ^ 32 }
        ensures step { IfOk result (λ step. machine.At (self.old.place + 1)
            (V.contents value ∷ stack V.contents self.old) (loops V.contents self.old)
            (world V.contents self.old) ≡ came_to V.contents V.fault_contents self.new step) }
        ensures same { OnOk result (self.new.code ≡ self.old.code) }
    {
        self.operands.push(value)?;
        self.place += 1;
        Ok(Step::On)
    }

    /// Pops the topmost operand, if there is one.
    pub(crate) fn pop(&mut self) -> Option<V>
        ensures some { IfSome result (λ v. (k : Following V.Contents V.FaultContents) →
            machine.on_one (stack V.contents self.old) k ≡ k (V.contents v) (stack V.contents
            self.new)) }
        ensures none { IsNone result → (k : Following V.Contents V.FaultContents) →
            machine.on_one (stack V.contents self.old) k ≡ machine.Jammed }
        ensures operand { IfSome result (λ v. stack V.contents self.old ≡ V.contents v ∷ stack
            V.contents self.new) }
        ensures empty { IsNone result → stack V.contents self.old ≡ [] }
        ensures place { self.new.place ≡ self.old.place }
        ensures loops { loops V.contents self.new ≡ loops V.contents self.old }
        ensures world { world V.contents self.new ≡ world V.contents self.old }
        ensures same { self.new.code ≡ self.old.code }
    {
        self.operands.pop()
    }

    /// Pops the two topmost operands, and returns the upper one second. Where there is only one,
    /// that is gone.
    pub(crate) fn pop_two(&mut self) -> Option<(V, V)>
        ensures some { IfSome result (λ p. (k : FollowingTwo V.Contents V.FaultContents) →
            machine.on_two (stack V.contents self.old) k ≡ k (V.contents p.0) (V.contents p.1)
            (stack V.contents self.new)) }
        ensures none { IsNone result → (k : FollowingTwo V.Contents V.FaultContents) →
            machine.on_two (stack V.contents self.old) k ≡ machine.Jammed }
        ensures operands { IfSome result (λ p. stack V.contents self.old ≡ V.contents p.1 ∷
            V.contents p.0 ∷ stack V.contents self.new) }
        ensures few { IsNone result → length (stack V.contents self.old) < 2 }
        ensures place { self.new.place ≡ self.old.place }
        ensures loops { loops V.contents self.new ≡ loops V.contents self.old }
        ensures world { world V.contents self.new ≡ world V.contents self.old }
        ensures same { self.new.code ≡ self.old.code }
    {
        let right = self.pop()?;
        let left = self.pop()?;
        Some((left, right))
    }

    /// Pops the given number of operands, the topmost last, if there are that many.
    pub(crate) fn pop_many(&mut self, count: usize) -> Result<Option<Vec<V>>, AllocError>
        ensures popped { IfOk result (λ taken. machine.popped count (stack V.contents self.old) []
            ≡ option_map (λ vs. (map V.contents vs.items, stack V.contents self.new)) taken) }
        ensures place { OnOk result (self.new.place ≡ self.old.place) }
        ensures loops { OnOk result (loops V.contents self.new ≡ loops V.contents self.old) }
        ensures world { OnOk result (world V.contents self.new ≡ world V.contents self.old) }
        ensures same { OnOk result (self.new.code ≡ self.old.code) }
    {
        if count > self.operands.len() {
            return Ok(None);
        }
        let at = self.operands.len() - count;
        Ok(Some(self.operands.split_off(at)?))
    }

    /// Pops as many operands as are said, or as a count on top of them says, the topmost last, if
    /// there are that many.
    pub(crate) fn pop_counted(&mut self, count: Option<usize>) -> Result<Option<Vec<V>>, AllocError>
        ensures popped { IfOk result (λ taken. machine.popped_counted V.functions count (stack
            V.contents self.old)
            ≡ option_map (λ vs. (map V.contents vs.items, stack V.contents self.new)) taken) }
        ensures place { OnOk result (self.new.place ≡ self.old.place) }
        ensures loops { OnOk result (loops V.contents self.new ≡ loops V.contents self.old) }
        ensures world { OnOk result (world V.contents self.new ≡ world V.contents self.old) }
        ensures same { OnOk result (self.new.code ≡ self.old.code) }
    {
        match count {
            Some(count) => self.pop_many(count),
            None => match self.pop_count() {
                Some(count) => self.pop_many(count),
                None => Ok(None),
            },
        }
    }

    /// Pops the topmost operand, which says how many of those below it are meant, if it is a count.
    #[tactic(auto, using(crate::proofs::Stacks::count_none, crate::proofs::Stacks::count_off))]
    fn pop_count(&mut self) -> Option<usize>
        ensures popped { machine.popped_counted V.functions None (stack V.contents self.old)
            ≡ machine.popped_by result (stack V.contents self.new) }
        ensures place { self.new.place ≡ self.old.place }
        ensures loops { loops V.contents self.new ≡ loops V.contents self.old }
        ensures world { world V.contents self.new ≡ world V.contents self.old }
        ensures same { self.new.code ≡ self.old.code }
    {
        let Some(value) = self.pop() else {
            return None;
        };
        value.as_count()
    }

    /// Pops the given number of pairs of a key and the value above it, the topmost last, if there
    /// are that many.
    pub(crate) fn pop_pairs(&mut self, count: usize) -> Result<Option<Vec<(V, V)>>, AllocError>
        ensures popped { IfOk result (λ taken. machine.popped_pairs count (stack V.contents
            self.old) []
            ≡ option_map (λ ps. (map_pairs V.contents ps.items, stack V.contents self.new)) taken) }
        ensures place { OnOk result (self.new.place ≡ self.old.place) }
        ensures loops { OnOk result (loops V.contents self.new ≡ loops V.contents self.old) }
        ensures world { OnOk result (world V.contents self.new ≡ world V.contents self.old) }
        ensures same { OnOk result (self.new.code ≡ self.old.code) }
    {
        let mut pairs = Vec::new(self.alloc);
        for _ in 0..count {
            match self.pop_two() {
                Some(pair) => pairs.push(pair)?,
                None => return Ok(None),
            }
        }
        pairs.reverse();
        Ok(Some(pairs))
    }
}
