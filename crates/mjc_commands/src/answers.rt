//! Files of answers from outside, one a line.
ghost use Rattle.std.specs.Prelude.{◌≡◌, ◌<◌, ◌^◌, ◌⊎◌, ◌+◌, ◌∷◌, [], IfErr, IfOk, IfSome, IsNone, map};
ghost use Rattle.std.specs.Option.{option_map};
ghost use Rattle.std.specs.Str.Lines.{lines};
ghost use Rattle.minijinja_value.specs.ValueViews.{contents_of};
ghost use Rattle.minijinja_tree.specs.Erasure.{expr_tree};
ghost use Rattle.minijinja_semantics.specs.Answers.{AreFew, volume};
ghost use Rattle.minijinja_replay.specs.Replay.{answer_of};
ghost use Rattle.mjc_commands.specs.AnswerFile.{IsAnswer, IsBadLine, SayAnswers, listed_constants};
ghost use Rattle.mjc_commands.specs.Failure.{IsBadAnswer};
ghost use Rattle.mjc_commands.specs.Showing.{IsMemory};
ghost use Rattle.mjc_commands.specs.private.AtAnswers.{items_in};

use crate::failure::Failure;
use minijinja_compiler::ast::Expr;
use minijinja_compiler::error::ErrorKind;
use minijinja_compiler::parser::parse_expr;
use minijinja_compiler::value::Value;
use minijinja_replay::replay::Answer;
use std::alloc::{AllocError, Global};

/// Reads a file of answers. A line is `fault`, or a list of constants as a template writes it, such
/// as `["a", 2]`; it fails at the first line that is neither. The answers and the values in them
/// number under 2^64, as anything does that memory holds.
pub fn read_answers<'p>(alloc: Global, text: &str) -> Result<Vec<Answer<Value>>, Failure<'p>>
    ensures said { IfOk result
        (λ answers. SayAnswers (lines text.now) (map (answer_of contents_of) answers.items)) }
    ensures few { IfOk result (λ answers. AreFew (map (answer_of contents_of) answers.items)) }
    ensures cause { IfErr result
        (λ failure. IsMemory failure ⊎ IsBadAnswer (IsBadLine text.now) failure) }
{
    let mut answers = Vec::new(alloc);
    let mut count = 0;
    for line in text.lines() {
        let Some(answer) = read_answer(alloc, line)? else {
            return Err(Failure::BadAnswer(answers.len() + 1));
        };
        count = count_with(count, &answer)?;
        answers.push(answer)?;
    }
    Ok(answers)
}

/// The answer that a line says, if it says one.
fn read_answer(alloc: Global, line: &str) -> Result<Option<Answer<Value>>, AllocError>
    ensures some { IfOk result
        (λ answer. IfSome answer (λ a. IsAnswer line.now (answer_of contents_of a))) }
    ensures none { IfOk result (λ answer. IsNone answer → (a : _) → ¬ IsAnswer line.now a) }
{
    if line == "fault" {
        return Ok(Some(Answer::Fault));
    }
    match parse_expr::<Value>(alloc, line) {
        Ok(expr) => match listed_constants(alloc, &expr)? {
            Some(values) => Ok(Some(Answer::Values(values))),
            None => Ok(None),
        },
        Err(error) => match error.kind() {
            ErrorKind::OutOfMemory => Err(AllocError),
            _ => Ok(None),
        },
    }
}

/// The items of a list literal, if all of them are constants.
fn listed_constants(alloc: Global, expr: &Expr<'_, Value>) -> Result<Option<Vec<Value>>, AllocError>
    ensures { IfOk result (λ values. option_map (λ v. map contents_of v.items) values ≡
        listed_constants (expr_tree contents_of expr.now)) }
{
    let Expr::List(list) = expr else {
        return Ok(None);
    };
    match list.node().as_const(alloc) {
        Ok(Some(constant)) => Ok(items_of(constant)),
        Ok(None) => Ok(None),
        Err(_) => Err(AllocError),
    }
}

/// The items of a list.
fn items_of(value: Value) -> Option<Vec<Value>>
    ensures { option_map (λ v. map contents_of v.items) result ≡ items_in (contents_of value) }
{
    match value {
        Value::List(items) => Some(items),
        _ => None,
    }
}

/// A count of answers and of the values in them, with one more answer. Each takes memory, so that
/// memory runs out before the count does.
fn count_with(count: u64, answer: &Answer<Value>) -> Result<u64, AllocError>
    ensures counted { IfOk result
        (λ more. more ≡ count + volume (answer_of contents_of answer.now ∷ [])) }
    ensures few { IfOk result (λ more. more < 2 ^ 64) }
{
    let values = match answer {
        Answer::Fault => 0,
        Answer::Values(values) => values.len() as u64,
    };
    match count.checked_add(1) {
        Some(more) => more.checked_add(values).ok_or(AllocError),
        None => Err(AllocError),
    }
}
