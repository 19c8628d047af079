//! How an event takes its answer, and what of the answer goes onto the operands.
ghost use Rattle.std.specs.Prelude.{◌≡◌, ◌+◌, ◌<◌, ◌^◌, ◌∷◌, [], length, map, IfOk, List, None, OnOk};
ghost use Rattle.minijinja_syntax.specs.Texts.{Text};
ghost use Rattle.minijinja_semantics.specs.Events as event;
ghost use Rattle.minijinja_semantics.specs.Machine as machine;
ghost use Rattle.minijinja_replay.specs.Replay.{answer_of};
ghost use Rattle.minijinja_replay.specs.private.AtMachine.{came_to, fits, fit_of, fitting, loops, note, pushed_by, put_on, stack, took, world};

use crate::machine::{Machine, Step, Stop};
use crate::replay::{Answer, Event};
use minijinja_value::value::TemplateValue;
use std::alloc::{AllocError, Global};

/// How many values an answer has to have.
#[derive(Clone, Copy)]
pub(crate) enum Fit {
    Nothing,
    One,
    AtMostOne,
    Exactly(usize),
    Any,
}

impl Fit {
    /// Whether an answer of the given number of values fits.
    fn fits(self, count: usize) -> bool
        ensures { result ≡ fits self count }
    {
        match self {
            Fit::Nothing => count == 0,
            Fit::One => count == 1,
            Fit::AtMostOne => count < 2,
            Fit::Exactly(wanted) => count == wanted,
            Fit::Any => true,
        }
    }
}

/// What an event pushes of its answer.
#[derive(Clone, Copy)]
pub(crate) enum Pushed {
    Nothing,
    OneValue,
    /// Values in order, and then their count.
    AllValues,
}

impl Pushed {
    /// How many values the answer of such an event has to have.
    fn fit(self) -> Fit
        ensures { result ≡ fit_of (pushed_by self) }
    {
        match self {
            Pushed::Nothing => Fit::Nothing,
            Pushed::OneValue => Fit::One,
            Pushed::AllValues => Fit::Any,
        }
    }
}

/// What an event came to.
#[derive(Drop)]
pub(crate) enum Taken<V, F> {
    /// It was answered by these values, which fit.
    Values(Vec<V>),
    /// The run has stopped at it.
    Stopped(Stop<F>),
}

impl<'c, 's, V: TemplateValue> Machine<'c, 's, V> {
    /// Pops the given number of operands, asks the event of the instruction with them, and pushes
    /// what it is answered by.
    #[tactic(auto, unfolding(minijinja_semantics::specs::Machine::asked))]
    pub(crate) fn ask(&mut self, count: usize, pushed: Pushed) -> Result<Step<V::Fault>, AllocError>
        requires place { self.old.place + 1 < 2 ^ 32 }
        ensures step { IfOk result (λ step. (k : event.Kind) (t : Text) →
            machine.size k ≡ pushed_by pushed →
            ((vs : List V.Contents) → note V.contents self.old vs ≡ machine.traced self.old.place
            (event.event None k t vs)) →
            machine.asked V.functions machine.traced k t self.old.place
            (machine.popped count (stack V.contents self.old) []) (loops V.contents self.old)
            (world V.contents self.old)
            ≡ came_to V.contents V.fault_contents self.new step) }
        ensures same { OnOk result (self.new.code ≡ self.old.code) }
    {
        match self.pop_many(count)? {
            Some(operands) => self.ask_of(operands, pushed),
            None => Ok(Step::Jammed),
        }
    }

    /// Pops as many operands as are said, or as a count on top of them says, asks the event of the
    /// instruction with them, and pushes what it is answered by.
    #[tactic(auto, unfolding(minijinja_semantics::specs::Machine::asked))]
    pub(crate) fn ask_counted(
        &mut self,
        count: Option<u16>,
        pushed: Pushed,
    ) -> Result<Step<V::Fault>, AllocError>
        requires place { self.old.place + 1 < 2 ^ 32 }
        ensures step { IfOk result (λ step. (k : event.Kind) (t : Text) →
            machine.size k ≡ pushed_by pushed →
            ((vs : List V.Contents) → note V.contents self.old vs ≡ machine.traced self.old.place
            (event.event None k t vs)) →
            machine.asked V.functions machine.traced k t self.old.place
            (machine.popped_counted V.functions count (stack V.contents self.old))
            (loops V.contents self.old) (world V.contents self.old)
            ≡ came_to V.contents V.fault_contents self.new step) }
        ensures same { OnOk result (self.new.code ≡ self.old.code) }
    {
        let count = match count {
            Some(count) => Some(count as usize),
            None => None,
        };
        match self.pop_counted(count)? {
            Some(operands) => self.ask_of(operands, pushed),
            None => Ok(Step::Jammed),
        }
    }

    /// Asks the event of the instruction with these operands, which are popped already, and pushes
    /// what it is answered by.
    pub(crate) fn ask_of(
        &mut self,
        operands: Vec<V>,
        pushed: Pushed,
    ) -> Result<Step<V::Fault>, AllocError>
        requires place { self.old.place + 1 < 2 ^ 32 }
        ensures step { IfOk result (λ step. machine.did V.functions (pushed_by pushed)
            (note V.contents self.old (map V.contents operands.items)) self.old.place
            (stack V.contents self.old) (loops V.contents self.old) (world V.contents self.old)
            ≡ came_to V.contents V.fault_contents self.new step) }
        ensures same { OnOk result (self.new.code ≡ self.old.code) }
    {
        match self.take(operands, pushed.fit())? {
            Taken::Values(values) => self.put(values, pushed),
            Taken::Stopped(stop) => Ok(Step::Stopped(stop)),
        }
    }

    /// Pushes the values of an answer in order, and their count where that is asked for, and goes
    /// on to the instruction behind this one.
    fn put(&mut self, mut values: Vec<V>, pushed: Pushed) -> Result<Step<V::Fault>, AllocError>
        requires place { self.old.place + 1 < 2 ^ 32 }
        ensures step { IfOk result (λ step. machine.At (self.old.place + 1)
            (put_on V.functions pushed (map V.contents values.items) (stack V.contents self.old))
            (loops V.contents self.old) (world V.contents self.old)
            ≡ came_to V.contents V.fault_contents self.new step) }
        ensures same { OnOk result (self.new.code ≡ self.old.code) }
    {
        let count = values.len();
        self.operands.append(&mut values)?;
        match pushed {
            Pushed::AllValues => self.push(V::of_u64(count as u64)),
            Pushed::Nothing | Pushed::OneValue => self.go(),
        }
    }

    /// Takes the next answer for the event of the instruction with these operands, and notes the
    /// event unless there is no answer or it does not fit.
    #[tactic(auto, using(crate::proofs::Stacks::popped_last), unfolding(minijinja_semantics::specs::Events::ask, minijinja_semantics::specs::Events::answered))]
    pub(crate) fn take(
        &mut self,
        operands: Vec<V>,
        fit: Fit,
    ) -> Result<Taken<V, V::Fault>, AllocError>
        ensures answer { IfOk result (λ taken. event.ask (fitting fit)
            (note V.contents self.old (map V.contents operands.items)) (world V.contents self.old)
            ≡ took V.contents V.fault_contents taken (world V.contents self.new)) }
        ensures rest { OnOk result (self.new ≡ record self.old {
          events = self.new.events;
          answers = self.new.answers;
        }) }
    {
        match self.answers.pop() {
            None => Ok(Taken::Stopped(Stop::Starved)),
            Some(Answer::Fault) => {
                self.note(operands, Answer::Fault)?;
                Ok(Taken::Stopped(Stop::AnswerFault))
            }
            Some(Answer::Values(values)) => self.take_values(operands, fit, values),
        }
    }

    /// Answers the event of the instruction by these values, and notes it, if they fit.
    #[tactic(auto, unfolding(minijinja_semantics::specs::Events::fitted))]
    fn take_values(
        &mut self,
        operands: Vec<V>,
        fit: Fit,
        values: Vec<V>,
    ) -> Result<Taken<V, V::Fault>, AllocError>
        ensures answer { IfOk result (λ taken. event.fitted
            (fitting fit (map V.contents values.items))
            (note V.contents self.old (map V.contents operands.items))
            (map V.contents values.items) (world V.contents self.old).record_so_far
            (world V.contents self.old).answers
            ≡ took V.contents V.fault_contents taken (world V.contents self.new)) }
        ensures rest { OnOk result (self.new ≡ record self.old { events = self.new.events }) }
    {
        if !fit.fits(values.len()) {
            return Ok(Taken::Stopped(Stop::Unfit));
        }
        let copies = copies(self.alloc, &values)?;
        self.note(operands, Answer::Values(values))?;
        Ok(Taken::Values(copies))
    }

    /// Adds the event of the instruction, with these operands and this answer, to the record.
    fn note(&mut self, operands: Vec<V>, answer: Answer<V>) -> Result<(), AllocError>
        ensures noted { OnOk result (world V.contents self.new ≡
            record (world V.contents self.old) {
              record_so_far = (
                note V.contents self.old (map V.contents operands.items),
                answer_of V.contents answer,
              ) ∷ (world V.contents self.old).record_so_far;
            }) }
        ensures rest { OnOk result (self.new ≡ record self.old { events = self.new.events }) }
    {
        self.events.push(Event {
            index: self.place,
            operands,
            answer,
        })?;
        Ok(())
    }
}

/// Values of the same contents, in the same order.
fn copies<V: TemplateValue>(alloc: Global, values: &[V]) -> Result<Vec<V>, AllocError>
    ensures { IfOk result (λ copies. map V.contents copies.items ≡ map V.contents values.now) }
{
    let mut copies = Vec::with_capacity(alloc, values.len())?;
    for value in values {
        copies.push(value.try_clone()?)?;
    }
    Ok(copies)
}

/// A list of one value.
pub(crate) fn one<V: TemplateValue>(alloc: Global, value: V) -> Result<Vec<V>, AllocError>
    ensures { IfOk result (λ values. values.items ≡ value ∷ []) }
{
    let mut values = Vec::with_capacity(alloc, 1)?;
    values.push(value)?;
    Ok(values)
}
