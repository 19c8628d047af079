//! Why a text is refused, and the errors for that.
ghost use Rattle.std.specs.Prelude.{◌≡◌, IfErr, MatchResult, None, Ok, Some};
ghost use Rattle.minijinja_syntax.specs.Errors.{IsOutOfMemory, kind_of, name_of, span_of};
ghost use Rattle.minijinja_lexer.specs.Faults.{fault_kind};
ghost use Rattle.minijinja_lexer.specs.declared.step.State.TheVariants as states;
ghost use Rattle.minijinja_lexer.specs.private.Views.{fault_view};

use crate::step::State;
use minijinja_syntax::error::{Detail, Error, ErrorKind, Expected, Found};
use minijinja_syntax::tokens::{Span, Token};
use std::alloc::AllocError;

/// Why a text is refused.
#[derive(Clone, Copy)]
pub(crate) enum LexFault {
    UnexpectedCharacter,
    UnterminatedString,
    /// A string with an escape that means nothing.
    BadEscape,
    /// A number with no digits.
    MissingDigits,
    /// A digit that the number's radix does not have.
    DigitOutOfRange,
    /// A number that ends in an underscore.
    TrailingUnderscore,
    IntegerTooLarge,
    FloatLiteral,
    UnclosedComment,
    UnclosedRaw,
    /// Text after the end of an expression.
    TextGoesOn,
}

fn detail<'s>(fault: LexFault) -> Detail<'s> {
    match fault {
        LexFault::UnexpectedCharacter => Detail::UnexpectedCharacter,
        LexFault::UnterminatedString => Detail::UnterminatedString,
        LexFault::BadEscape => Detail::BadEscape,
        LexFault::MissingDigits => Detail::MissingDigits,
        LexFault::DigitOutOfRange => Detail::DigitOutOfRange,
        LexFault::TrailingUnderscore => Detail::TrailingUnderscore,
        LexFault::IntegerTooLarge => Detail::IntegerTooLarge,
        LexFault::FloatLiteral => Detail::FloatLiteral,
        LexFault::UnclosedComment => Detail::UnexpectedEnd(Expected::CommentEnd),
        LexFault::UnclosedRaw => Detail::UnexpectedEnd(Expected::RawBlockEnd),
        LexFault::TextGoesOn => Detail::Unexpected(Found::TemplateData, Expected::End),
    }
}

fn kind(fault: LexFault) -> ErrorKind
    ensures { result ≡ fault_kind (fault_view fault) }
{
    match fault {
        LexFault::BadEscape => ErrorKind::BadEscape,
        _ => ErrorKind::SyntaxError,
    }
}

/// Sets the result to the end, and the state to it. It is rare, so it stands out of line: the
/// memory of what it makes would be zeroed for each token.
#[cold]
pub(crate) fn finish<'s>(
    state: &mut State,
    answer: &mut Result<Option<(Token<'s>, Span)>, Error<'s>>,
)
    ensures state { state.new ≡ states.Over }
    ensures answer { answer.new ≡ Ok None }
{
    *state = State::Over;
    *answer = Ok(None);
}

/// Sets the result to the refusal, and the state to it. It is rare and large, so it is made out of
/// line.
#[cold]
pub(crate) fn refuse<'s>(
    fault: LexFault,
    filename: &'s str,
    span: Span,
    state: &mut State,
    answer: &mut Result<Option<(Token<'s>, Span)>, Error<'s>>,
)
    ensures state { state.new ≡ states.Failed fault span }
    ensures kind { MatchResult answer.new (λ _. ⊥)
        (λ e. kind_of e ≡ fault_kind (fault_view fault)) }
    ensures name { IfErr answer.new (λ e. name_of e ≡ Some filename.entry) }
    ensures span { IfErr answer.new (λ e. span_of e ≡ Some span) }
{
    *state = State::Failed(fault, span);
    *answer = Err(Error::new(kind(fault), detail(fault), Some(filename), Some(span)));
}

/// Sets the result to refused memory, and the state to it, out of line.
#[cold]
pub(crate) fn refuse_for_memory<'s>(
    state: &mut State,
    answer: &mut Result<Option<(Token<'s>, Span)>, Error<'s>>,
)
    ensures state { state.new ≡ states.NoMemory }
    ensures answer { MatchResult answer.new (λ _. ⊥) IsOutOfMemory }
{
    *state = State::NoMemory;
    *answer = Err(Error::from(AllocError));
}
