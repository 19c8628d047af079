//! The instructions that move operands, make values of them or take one apart, and jump.
ghost use Rattle.std.specs.Prelude.{◌≡◌, ℕ, ◌+◌, ◌<◌, ◌^◌, IfOk, OnOk, Some};
ghost use Rattle.minijinja_syntax.specs.Texts.{Text};
ghost use Rattle.minijinja_semantics.specs.Code as code;
ghost use Rattle.minijinja_replay.specs.private.AtMachine.{Asks, Does};

use crate::asking::{Fit, Pushed, Taken, one};
use crate::machine::{Machine, Step};
use minijinja_value::value::TemplateValue;
use std::alloc::AllocError;

impl<'c, 's, V: TemplateValue> Machine<'c, 's, V> {
    /// Takes the topmost operand apart into the given number of values, the first of which is then
    /// on top.
    pub(crate) fn unpack(&mut self, count: usize) -> Result<Step<V::Fault>, AllocError>
        requires place { self.old.place + 1 < 2 ^ 32 }
        requires at { Asks V.contents self.old (Some (code.UnpackList count)) }
        ensures step { IfOk result (Does V.functions V.contents V.fault_contents self.old (Some
            (code.UnpackList count)) self.new) }
        ensures same { OnOk result (self.new.code ≡ self.old.code) }
    {
        let Some(value) = self.pop() else {
            return Ok(Step::Jammed);
        };
        let mut values = match self.take(one(self.alloc, value)?, Fit::Exactly(count))? {
            Taken::Values(values) => values,
            Taken::Stopped(stop) => return Ok(Step::Stopped(stop)),
        };
        values.reverse();
        self.operands.append(&mut values)?;
        self.go()
    }

    /// Pops a closure and the names of parameters above it, and pushes the macro that the event is
    /// answered by.
    pub(crate) fn build_macro(&mut self) -> Result<Step<V::Fault>, AllocError>
        requires place { self.old.place + 1 < 2 ^ 32 }
        ensures step { IfOk result (λ step. (x : Text) (body flags : ℕ) →
            Asks V.contents self.old (Some (code.BuildMacro x body flags)) →
            Does V.functions V.contents V.fault_contents self.old
            (Some (code.BuildMacro x body flags)) self.new step) }
        ensures same { OnOk result (self.new.code ≡ self.old.code) }
    {
        match self.pop_many(2)? {
            Some(operands) => self.ask_of(operands, Pushed::OneValue),
            None => Ok(Step::Jammed),
        }
    }

    /// Replaces the given number of pairs of a key and the value above it by a map.
    #[tactic(auto, unfolding(minijinja_semantics::specs::Machine::built))]
    pub(crate) fn build_map(&mut self, count: usize) -> Result<Step<V::Fault>, AllocError>
        requires place { self.old.place + 1 < 2 ^ 32 }
        ensures step { IfOk result (Does V.functions V.contents V.fault_contents self.old (Some
            (code.BuildMap count)) self.new) }
        ensures same { OnOk result (self.new.code ≡ self.old.code) }
    {
        match self.pop_pairs(count)? {
            Some(pairs) => self.push(V::map(self.alloc, pairs)?),
            None => Ok(Step::Jammed),
        }
    }

    /// Replaces the given number of pairs of a name and the value above it by a map of keyword
    /// arguments.
    #[tactic(auto, unfolding(minijinja_semantics::specs::Machine::built))]
    pub(crate) fn build_kwargs(&mut self, count: usize) -> Result<Step<V::Fault>, AllocError>
        requires place { self.old.place + 1 < 2 ^ 32 }
        ensures step { IfOk result (Does V.functions V.contents V.fault_contents self.old (Some
            (code.BuildKwargs count)) self.new) }
        ensures same { OnOk result (self.new.code ≡ self.old.code) }
    {
        match self.pop_pairs(count)? {
            Some(pairs) => self.push(V::kwargs(self.alloc, pairs)?),
            None => Ok(Step::Jammed),
        }
    }

    /// Replaces as many operands as are said, or as a count on top of them says, by a list.
    #[tactic(auto, unfolding(minijinja_semantics::specs::Machine::built))]
    pub(crate) fn build_list(&mut self, count: Option<usize>) -> Result<Step<V::Fault>, AllocError>
        requires place { self.old.place + 1 < 2 ^ 32 }
        ensures step { IfOk result (Does V.functions V.contents V.fault_contents self.old (Some
            (code.BuildList count)) self.new) }
        ensures same { OnOk result (self.new.code ≡ self.old.code) }
    {
        match self.pop_counted(count)? {
            Some(items) => self.push(V::list(self.alloc, items)?),
            None => Ok(Step::Jammed),
        }
    }

    /// Replaces as many operands as are said, or as a count on top of them says, by a tuple.
    #[tactic(auto, unfolding(minijinja_semantics::specs::Machine::built))]
    pub(crate) fn build_tuple(&mut self, count: Option<usize>) -> Result<Step<V::Fault>, AllocError>
        requires place { self.old.place + 1 < 2 ^ 32 }
        ensures step { IfOk result (Does V.functions V.contents V.fault_contents self.old (Some
            (code.BuildTuple count)) self.new) }
        ensures same { OnOk result (self.new.code ≡ self.old.code) }
    {
        match self.pop_counted(count)? {
            Some(items) => self.push(V::tuple(self.alloc, items)?),
            None => Ok(Step::Jammed),
        }
    }

    /// Pushes the topmost operand again.
    pub(crate) fn duplicate(&mut self) -> Result<Step<V::Fault>, AllocError>
        requires place { self.old.place + 1 < 2 ^ 32 }
        ensures step { IfOk result (Does V.functions V.contents V.fault_contents self.old (Some
            code.DupTop) self.new) }
        ensures same { OnOk result (self.new.code ≡ self.old.code) }
    {
        match self.operands.last() {
            Some(value) => {
                let copy = value.try_clone()?;
                self.push(copy)
            }
            None => Ok(Step::Jammed),
        }
    }

    /// Pops the topmost operand and drops it.
    pub(crate) fn discard(&mut self) -> Result<Step<V::Fault>, AllocError>
        requires place { self.old.place + 1 < 2 ^ 32 }
        ensures step { IfOk result (Does V.functions V.contents V.fault_contents self.old (Some
            code.DiscardTop) self.new) }
        ensures same { OnOk result (self.new.code ≡ self.old.code) }
    {
        let Some(_) = self.pop() else {
            return Ok(Step::Jammed);
        };
        self.go()
    }

    /// Swaps the two topmost operands.
    pub(crate) fn swap(&mut self) -> Result<Step<V::Fault>, AllocError>
        requires place { self.old.place + 1 < 2 ^ 32 }
        ensures step { IfOk result (Does V.functions V.contents V.fault_contents self.old (Some
            code.Swap) self.new) }
        ensures same { OnOk result (self.new.code ≡ self.old.code) }
    {
        let Some((left, right)) = self.pop_two() else {
            return Ok(Step::Jammed);
        };
        self.operands.push(right)?;
        self.push(left)
    }

    /// Jumps to an index.
    pub(crate) fn jump(&mut self, target: u32) -> Result<Step<V::Fault>, AllocError>
        requires place { self.old.place + 1 < 2 ^ 32 }
        ensures step { IfOk result (Does V.functions V.contents V.fault_contents self.old (Some
            (code.Jump target)) self.new) }
        ensures same { OnOk result (self.new.code ≡ self.old.code) }
    {
        self.place = target;
        Ok(Step::On)
    }

    /// Pops the topmost operand, and jumps to an index if it is false.
    pub(crate) fn jump_if_false(&mut self, target: u32) -> Result<Step<V::Fault>, AllocError>
        requires place { self.old.place + 1 < 2 ^ 32 }
        ensures step { IfOk result (Does V.functions V.contents V.fault_contents self.old (Some
            (code.JumpIfFalse target)) self.new) }
        ensures same { OnOk result (self.new.code ≡ self.old.code) }
    {
        let Some(value) = self.pop() else {
            return Ok(Step::Jammed);
        };
        if value.is_true() {
            return self.go();
        }
        self.jump(target)
    }

    /// Jumps to an index if the topmost operand is false, and pops it if it is true.
    pub(crate) fn jump_if_false_or_pop(&mut self, target: u32) -> Result<Step<V::Fault>, AllocError>
        requires place { self.old.place + 1 < 2 ^ 32 }
        ensures step { IfOk result (Does V.functions V.contents V.fault_contents self.old (Some
            (code.JumpIfFalseOrPop target)) self.new) }
        ensures same { OnOk result (self.new.code ≡ self.old.code) }
    {
        let Some(value) = self.pop() else {
            return Ok(Step::Jammed);
        };
        if value.is_true() {
            return self.go();
        }
        self.operands.push(value)?;
        self.jump(target)
    }

    /// Jumps to an index if the topmost operand is true, and pops it if it is false.
    pub(crate) fn jump_if_true_or_pop(&mut self, target: u32) -> Result<Step<V::Fault>, AllocError>
        requires place { self.old.place + 1 < 2 ^ 32 }
        ensures step { IfOk result (Does V.functions V.contents V.fault_contents self.old (Some
            (code.JumpIfTrueOrPop target)) self.new) }
        ensures same { OnOk result (self.new.code ≡ self.old.code) }
    {
        let Some(value) = self.pop() else {
            return Ok(Step::Jammed);
        };
        if !value.is_true() {
            return self.go();
        }
        self.operands.push(value)?;
        self.jump(target)
    }
}
