//! Runs of a template's code on given answers.
ghost use Rattle.std.specs.Prelude.{◌≡◌, ℕ, [], length, map, IfErr, IfOk};
ghost use Rattle.minijinja_syntax.specs.Errors.{IsOutOfMemory};
ghost use Rattle.minijinja_syntax.specs.Syntax.{Syntax};
ghost use Rattle.minijinja_syntax.specs.Texts.{Text};
ghost use Rattle.minijinja_value.specs.ValueContents.{Contents};
ghost use Rattle.minijinja_value.specs.ValueFunctions.{value_functions};
ghost use Rattle.minijinja_value.specs.ValueViews.{contents_of};
ghost use Rattle.minijinja_tree.specs.Tree.{Stmt};
ghost use Rattle.minijinja_semantics.specs.Answers.{AreFew};
ghost use Rattle.minijinja_semantics.specs.Correct.{DoesStmt};
ghost use Rattle.minijinja_instructions.specs.Instructions.{code_of};
ghost use Rattle.minijinja_replay.specs.Replay.{IsRun, answer_of};
ghost use Rattle.minijinja_replay.specs.declared.replay.Entry.TheVariants as entry;
ghost use Rattle.mjc_commands.specs.TemplateRuns.{IsCode, RunsAsMeant};

use minijinja_compiler::compile::Compiled;
use minijinja_compiler::error::Error;
use minijinja_compiler::value::Value;
use minijinja_replay::replay::{Answer, Entry, Run, replay};
use std::alloc::Global;

/// Runs the code of a template from its start on these answers, the first one first. Refused memory
/// is the only error.
pub fn replay_template(
    alloc: Global,
    code: &Compiled<'_, Value>,
    answers: Vec<Answer<Value>>,
) -> Result<Run<Value>, Error<'static>>
    requires compiled { IsCode code.now }
    requires few { AreFew (map (answer_of contents_of) answers.items) }

    // The run is that of the machine.
    ensures run { IfOk result (IsRun value_functions contents_of (λ fault. fault)
        (code_of contents_of code.now.instructions) entry.Start []
        (map (answer_of contents_of) answers.items)) }

    // The record of the run, and how it ends, are those of the meaning of the tree that the code
    // was made of.
    ensures meant { IfOk result
        (RunsAsMeant code.now (map (answer_of contents_of) answers.items)) }
    ensures memory { IfErr result IsOutOfMemory }
{
    replay(
        alloc,
        &code.instructions,
        Entry::Start,
        Vec::new(alloc),
        answers,
    )
}
