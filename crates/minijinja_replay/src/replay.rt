//! Runs of the machine: where they are entered, what they are answered, and how they are over.
ghost use Rattle.std.specs.Prelude.{◌≡◌, ◌+◌, ◌<◌, ◌^◌, ◌↔◌, [], length, map, reverse, slice_get, IfErr, IfOk, IfSome, IsSome};
ghost use Rattle.minijinja_syntax.specs.Errors.{IsOutOfMemory};
ghost use Rattle.minijinja_instructions.specs.InstructionLists.{instructions_of};
ghost use Rattle.minijinja_instructions.specs.Instructions.{code_of};
ghost use Rattle.minijinja_replay.specs.Replay.{answer_of, finish_of, past_items, EndsInTime, IsOverWithin, IsRun, end_of, Stopped};
ghost use Rattle.minijinja_replay.specs.private.AtMachine.{stop_of};
ghost use Rattle.minijinja_replay.specs.private.AtRuns.{finish_at};

use crate::machine::{Machine, Step, Stop};
use minijinja_instructions::instructions::{Instruction, Instructions};
use minijinja_syntax::error::Error;
use minijinja_value::value::TemplateValue;
use std::alloc::Global;

/// Where code is entered, and with that where a run of it finishes. Indexes count instructions from
/// 0.
#[derive(Clone, Copy, Debug, PartialEq, Eq)]
pub enum Entry {
    /// At the start of the list, with no operand: a template, a block or an expression. The run
    /// finishes at the end of the list, and that of an expression leaves its value.
    Start,
    /// At what a macro runs, whose index its `BuildMacro` names, with a value for each parameter,
    /// that of the last one topmost. The run finishes where it returns.
    Macro(u32),
    /// At the `PushLoop` of a recursive loop, with the value that it goes over. The run finishes
    /// after what ends the loop. Where an else body follows, it leaves whether no item came.
    Loop(u32),
}

impl Entry {
    ghost use Rattle.std.specs.Prelude.{◌≡◌};
    ghost use Rattle.minijinja_replay.specs.Replay.{place_of};

    /// The index of the instruction that is done first.
    fn place(self) -> u32
        ensures { result ≡ place_of self }
    {
        match self {
            Entry::Start => 0,
            Entry::Macro(place) | Entry::Loop(place) => place,
        }
    }
}

/// What an event is answered by, in place of what a renderer would do.
#[derive(Debug, Drop, PartialEq, Eq)]
pub enum Answer<V> {
    /// A fault, which ends the run.
    Fault,
    /// Values, of which another number than the event takes ends the run as unfit. An instruction
    /// that asks for a value and pushes it takes one. `Iterate` takes the next item, or no value
    /// where there is none; `UnpackList` takes as many as it says, the first of which goes on top;
    /// `UnpackLists` takes any number. All others take none.
    Values(Vec<V>),
}

/// An event that was answered by a fault or by as many values as it takes. Which event it is, the
/// instruction says.
#[derive(Debug, Drop, PartialEq, Eq)]
pub struct Event<V> {
    /// The index of the instruction that asked, counted from 0.
    pub index: u32,
    /// The operands that it took, the topmost last. A count of arguments that it found on top of
    /// them is none of these.
    pub operands: Vec<V>,
    /// What it was answered by.
    pub answer: Answer<V>,
}

/// How a run is over.
#[derive(Clone, Copy, Debug, Drop, PartialEq, Eq)]
pub enum End<F> {
    /// It came to where a run from its entry finishes.
    Finished,
    /// The last event was answered by a fault.
    AnswerFault,
    /// An operator or a comparison had no result for its operands.
    OperatorFault(F),
    /// An event was asked and no answer was left. It is not in the record.
    Starved,
    /// An event was answered by another number of values than it takes. It is not in the record.
    Unfit,
}

/// A run that is over.
#[derive(Drop)]
#[derive_where(Debug, PartialEq, Eq; V, V::Fault)]
pub struct Run<V: TemplateValue> {
    /// The record: the events that were answered by a fault or by as many values as they take, in
    /// order.
    pub events: Vec<Event<V>>,
    /// How the run is over.
    pub ending: End<V::Fault>,
    /// How many instructions were begun, also one at which the run stopped. This is the least
    /// number of steps after which the run is over.
    pub steps: u128,
    /// The operands that are left, the topmost last. There are none unless the run finished.
    pub operands: Vec<V>,
}

/// Runs code from an entry, with these operands, the topmost last, on these answers, which its
/// events take in order. Answers that no event takes are dropped. The code has fewer than 2^32
/// instructions, as each list that instructions were added to one by one.
///
/// The caller ensures that the run is over within (answers + 1) × (code length + 1) steps. That of
/// compiled code is, as [`laws`](crate::laws) say: entered as a template, a block, an expression,
/// what a macro runs or a recursive loop, on any answers that number, with the values in them,
/// under 2^64. Where that is not known of some code, [`replay_within`] runs it.
///
/// The time goes with the steps and with the values that they move, and the memory with the record
/// and with the operands. Refused memory is the only error.
///
/// ```
/// let code: Instructions<Value> = compile_expression(alloc, "x")?;
/// let answers = vec![in alloc; Answer::Values(vec![in alloc; Value::of_u64(7)]?)]?;
/// let run = replay(alloc, &code, Entry::Start, Vec::new(alloc), answers)?;
/// // It finished after one step, with one event and with the operand 7.
/// ```
pub fn replay<'s, V: TemplateValue>(
    alloc: Global,
    code: &Instructions<'s, V>,
    entry: Entry,
    operands: Vec<V>,
    answers: Vec<Answer<V>>,
) -> Result<Run<V>, Error<'static>>
    requires few { length (instructions_of code.now) < 2 ^ 32 }
    requires ends { EndsInTime V.functions (code_of V.contents code.now) entry
        (reverse (map V.contents operands.items)) (map (answer_of V.contents) answers.items) }
    ensures run { IfOk result (IsRun V.functions V.contents V.fault_contents
        (code_of V.contents code.now) entry (reverse (map V.contents operands.items))
        (map (answer_of V.contents) answers.items)) }
    ensures memory { IfErr result IsOutOfMemory }
{
    let most = (answers.len() as u128 + 1) * (code.len() as u128 + 1);
    match replay_within(alloc, code, entry, operands, answers, most)? {
        Some(run) => Ok(run),
        None => unreachable!(),
    }
}

/// Runs any code, for at most `most` steps, and else as [`replay`] does: from an entry, with these
/// operands, the topmost last, on these answers in order. It has fewer than 2^32 instructions.
///
/// It returns `None` where the run is not over within that many steps. Such a run goes on, or it
/// came to where no instruction applies: past the end of the list, or with too few operands or no
/// open loop for the instruction there. Then it is over within no number of steps.
///
/// Refused memory is the only error.
///
/// ```
/// let mut code: Instructions<Value> = InstructionList::new(alloc, "name", "source");
/// code.add(Instruction::Jump(0))?;
/// let run = replay_within(alloc, &code, Entry::Start, Vec::new(alloc), Vec::new(alloc), 1000)?;
/// // It is none: the run goes on for ever.
/// ```
pub fn replay_within<'s, V: TemplateValue>(
    alloc: Global,
    code: &Instructions<'s, V>,
    entry: Entry,
    operands: Vec<V>,
    answers: Vec<Answer<V>>,
    most: u128,
) -> Result<Option<Run<V>>, Error<'static>>
    requires few { length (instructions_of code.now) < 2 ^ 32 }
    ensures run { IfOk result (λ run. IfSome run (IsRun V.functions V.contents V.fault_contents
        (code_of V.contents code.now) entry (reverse (map V.contents operands.items))
        (map (answer_of V.contents) answers.items))) }
    ensures over { IfOk result (λ run. IsSome run ↔ IsOverWithin most V.functions
        (code_of V.contents code.now) entry (reverse (map V.contents operands.items))
        (map (answer_of V.contents) answers.items)) }
    ensures memory { IfErr result IsOutOfMemory }
{
    let finish = finish_from(code, entry);
    let mut left = answers;
    left.reverse();
    let mut machine = Machine {
        alloc,
        code,
        place: entry.place(),
        operands,
        loops: Vec::new(alloc),
        events: Vec::new(alloc),
        answers: left,
    };
    let mut steps = 0_u128;
    'run: while !finish.is_at(machine.place) {
        if steps == most {
            return Ok(None);
        }
        let step = machine.step()?;
        steps += 1;
        match step {
            Step::On => {}
            Step::Returned => return Ok(Some(finished(machine, steps))),
            Step::Stopped(stop) => return Ok(Some(stopped(machine, stop, steps))),
            Step::Jammed => return Ok(None),
        }
    }
    Ok(Some(finished(machine, steps)))
}

/// The run of a machine that has finished, with the operands that are left.
fn finished<V: TemplateValue>(machine: Machine<'_, '_, V>, steps: u128) -> Run<V>
    ensures events { result.events ≡ machine.entry.events }
    ensures ending { result.ending ≡ End.Finished }
    ensures steps { result.steps ≡ steps }
    ensures operands { result.operands ≡ machine.entry.operands }
{
    Run {
        events: machine.events,
        ending: End::Finished,
        steps,
        operands: machine.operands,
    }
}

/// The run of a machine that has stopped. Its operands are dropped.
fn stopped<V: TemplateValue>(
    machine: Machine<'_, '_, V>,
    stop: Stop<V::Fault>,
    steps: u128,
) -> Run<V>
    ensures events { result.events ≡ machine.entry.events }
    ensures ending { end_of V.fault_contents result.ending
        ≡ Stopped (stop_of V.fault_contents stop) }
    ensures steps { result.steps ≡ steps }
    ensures operands { result.operands.items ≡ [] }
{
    let ending = match stop {
        Stop::AnswerFault => End::AnswerFault,
        Stop::OperatorFault(fault) => End::OperatorFault(fault),
        Stop::Starved => End::Starved,
        Stop::Unfit => End::Unfit,
    };
    Run {
        events: machine.events,
        ending,
        steps,
        operands: Vec::new(machine.alloc),
    }
}

/// Where a run finishes.
#[derive(Clone, Copy)]
enum Finish {
    /// At an index, which may be past the end of the list.
    AtPlace(u64),
    AtReturn,
}

impl Finish {
    ghost use Rattle.std.specs.Prelude.{◌≡◌};
    ghost use Rattle.minijinja_semantics.specs.Machine.{is_over};
    ghost use Rattle.minijinja_replay.specs.private.AtRuns.{finish_at};

    /// Whether a run that has come to this index has finished there.
    fn is_at(self, place: u32) -> bool
        ensures { result ≡ is_over (finish_at self) place }
    {
        match self {
            Finish::AtPlace(end) => u64::from(place) == end,
            Finish::AtReturn => false,
        }
    }
}

/// Where a run from an entry finishes.
fn finish_from<V: TemplateValue>(code: &Instructions<'_, V>, entry: Entry) -> Finish
    requires { length (instructions_of code.now) < 2 ^ 32 }
    ensures { finish_at result ≡ finish_of (code_of V.contents code.now) entry }
{
    match entry {
        Entry::Start => Finish::AtPlace(code.len() as u64),
        Entry::Macro(_) => Finish::AtReturn,
        Entry::Loop(start) => Finish::AtPlace(loop_end(code, start)),
    }
}

/// The index after what ends the loop that starts here. Where the instruction behind the start asks
/// for no items, so that no loop starts here, it is the end of the list.
fn loop_end<V: TemplateValue>(code: &Instructions<'_, V>, start: u32) -> u64
    requires { length (instructions_of code.now) < 2 ^ 32 }
    ensures { result ≡ past_items (code_of V.contents code.now)
        (slice_get (code_of V.contents code.now) (start + 1)) }
{
    let asks = match start.checked_add(1) {
        Some(place) => code.get(place),
        None => None,
    };
    match asks {
        Some(Instruction::Iterate(past)) => match code.get(*past) {
            Some(Instruction::PushDidNotIterate) => u64::from(*past) + 2,
            _ => u64::from(*past) + 1,
        },
        _ => code.len() as u64,
    }
}
