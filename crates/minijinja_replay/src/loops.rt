//! The instructions that begin and end a loop, and ask for its items.
ghost use Rattle.std.specs.Prelude.{◌≡◌, ◌+◌, ◌<◌, ◌^◌, IfOk, OnOk, Some};
ghost use Rattle.minijinja_semantics.specs.Code as code;
ghost use Rattle.minijinja_replay.specs.private.AtMachine.{Asks, Does};

use crate::asking::{Fit, Taken, one};
use crate::machine::{Machine, Step};
use minijinja_value::value::TemplateValue;
use std::alloc::AllocError;

impl<'c, 's, V: TemplateValue> Machine<'c, 's, V> {
    /// Pops the value that a loop goes over, and opens the loop. No item came to it yet.
    pub(crate) fn begin_loop(&mut self, flags: u8) -> Result<Step<V::Fault>, AllocError>
        requires place { self.old.place + 1 < 2 ^ 32 }
        requires at { Asks V.contents self.old (Some (code.PushLoop flags)) }
        ensures step { IfOk result (Does V.functions V.contents V.fault_contents self.old (Some
            (code.PushLoop flags)) self.new) }
        ensures same { OnOk result (self.new.code ≡ self.old.code) }
    {
        let Some(value) = self.pop() else {
            return Ok(Step::Jammed);
        };
        if let Taken::Stopped(stop) = self.take(one(self.alloc, value)?, Fit::Nothing)? {
            return Ok(Step::Stopped(stop));
        }
        self.loops.push(false)?;
        self.go()
    }

    /// Asks for the next item of the innermost loop and pushes it, or jumps to an index if there is
    /// none.
    pub(crate) fn iterate(&mut self, past: u32) -> Result<Step<V::Fault>, AllocError>
        requires place { self.old.place + 1 < 2 ^ 32 }
        requires at { Asks V.contents self.old (Some (code.Iterate past)) }
        ensures step { IfOk result (Does V.functions V.contents V.fault_contents self.old (Some
            (code.Iterate past)) self.new) }
        ensures same { OnOk result (self.new.code ≡ self.old.code) }
    {
        let Some(came) = self.loops.pop() else {
            return Ok(Step::Jammed);
        };
        let mut values = match self.take(Vec::new(self.alloc), Fit::AtMostOne)? {
            Taken::Values(values) => values,
            Taken::Stopped(stop) => return Ok(Step::Stopped(stop)),
        };
        match values.pop() {
            Some(value) => {
                self.loops.push(true)?;
                self.push(value)
            }
            None => {
                self.loops.push(came)?;
                self.place = past;
                Ok(Step::On)
            }
        }
    }

    /// Closes the innermost loop.
    pub(crate) fn end_loop(&mut self) -> Result<Step<V::Fault>, AllocError>
        requires place { self.old.place + 1 < 2 ^ 32 }
        requires at { Asks V.contents self.old (Some code.PopLoopFrame) }
        ensures step { IfOk result (Does V.functions V.contents V.fault_contents self.old (Some
            code.PopLoopFrame) self.new) }
        ensures same { OnOk result (self.new.code ≡ self.old.code) }
    {
        let Some(_) = self.loops.pop() else {
            return Ok(Step::Jammed);
        };
        if let Taken::Stopped(stop) = self.take(Vec::new(self.alloc), Fit::Nothing)? {
            return Ok(Step::Stopped(stop));
        }
        self.go()
    }

    /// Pushes whether no item came to the innermost loop.
    pub(crate) fn did_not_iterate(&mut self) -> Result<Step<V::Fault>, AllocError>
        requires place { self.old.place + 1 < 2 ^ 32 }
        ensures step { IfOk result (Does V.functions V.contents V.fault_contents self.old (Some
            code.PushDidNotIterate) self.new) }
        ensures same { OnOk result (self.new.code ≡ self.old.code) }
    {
        let Some(came) = self.loops.pop() else {
            return Ok(Step::Jammed);
        };
        self.loops.push(came)?;
        self.push(V::of_bool(!came))
    }
}
