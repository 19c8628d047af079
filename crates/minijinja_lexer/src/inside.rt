//! The tokenizer's step inside a tag.
ghost use Rattle.std.specs.Prelude.{◌≡◌, ℕ, ◌≤◌, length};
ghost use Rattle.std.specs.Str.{IsCharBoundary};
ghost use Rattle.minijinja_syntax.specs.Syntax.{Syntax};
ghost use Rattle.minijinja_lexer.specs.private.EndBytes.{AreEndBytes};
ghost use Rattle.minijinja_lexer.specs.private.Places.{ClosePlaces};
ghost use Rattle.minijinja_lexer.specs.private.Views.{tag_view, close_view};
ghost use Rattle.minijinja_lexer.specs.TextTokens.{stream_in, close_stream, behind_expression};
ghost use Rattle.minijinja_lexer.specs.declared.step.State.TheVariants.{Inside};
ghost use Rattle.minijinja_lexer.specs.private.States.{Steps, StateFits, Takes, behind, stream_from};

use crate::cursor::Cursor;
use crate::fault::LexFault;
use crate::step::{State, Step};
use crate::tag_part::{
    Close, EndBytes, Tag, TagPart, close_over, end_token, opened_by, shut_by, tag_part_at, token_of,
};
use minijinja_syntax::syntax::SyntaxConfig;
use std::alloc::Global;

/// The next token of a tag in which the given number of brackets was opened and shut. The tag may
/// be the whole text.
pub(crate) fn step_inside<'s>(
    alloc: Global,
    syntax: &SyntaxConfig,
    ends: EndBytes,
    cursor: &mut Cursor<'s>,
    state: &mut State,
    tag: Tag,
    opened: usize,
    shut: usize,
    whole: bool,
) -> Step<'s>
    requires ends { AreEndBytes syntax.now ends }
    requires state { state.old ≡ Inside tag opened shut whole }
    requires opened { opened ≤ cursor.old.at }
    requires shut { shut ≤ cursor.old.at }
    ensures text { cursor.new.text ≡ cursor.old.text }
    ensures steps { Steps syntax.now (stream_in syntax.now cursor.old.text (tag_view tag)
        (behind syntax.now cursor.old.text whole) opened shut cursor.old.at) state.new result
        cursor.new }
    ensures takes { Takes syntax.now cursor.old.text result }
{
    let text = cursor.text();
    let at = cursor.at();
    if at == text.len() {
        return step_end(cursor, state, tag, whole, close_over(at, at, tag));
    }
    match tag_part_at(syntax, ends, text, tag, opened, shut, at) {
        TagPart::Token(lexeme) => {
            let Ok(token) = token_of(alloc, text, at, lexeme) else {
                return Step::NoMemory;
            };
            let (opens, shuts) = (opened_by(lexeme.sort), shut_by(lexeme.sort));
            // Only a bracket changes the state.
            if opens + shuts != 0 {
                *state = State::Inside {
                    tag,
                    opened: opened + opens,
                    shut: shut + shuts,
                    whole,
                };
            }
            let span = cursor.span(lexeme.start, lexeme.stop);
            Step::Token(token, span)
        }
        TagPart::End(close) => step_end(cursor, state, tag, whole, close),
    }
}

/// The end of a tag.
#[inline(always)]
fn step_end<'s>(
    cursor: &mut Cursor<'s>,
    state: &mut State,
    tag: Tag,
    whole: bool,
    close: Close,
) -> Step<'s>
    requires { ClosePlaces cursor.old.text cursor.old.at (close_view close) }
    ensures text { cursor.new.text ≡ cursor.old.text }
    ensures steps { (s : Syntax) → Steps s (close_stream cursor.old.text (tag_view tag)
        (behind s cursor.old.text whole) (close_view close)) state.new result cursor.new }
    ensures takes { (s : Syntax) → Takes s cursor.old.text result }
{
    match close {
        Close::Closed { start, stop, after } => {
            let span = cursor.span(start, stop);
            leave(cursor, state, whole, after);
            Step::Token(end_token(tag), span)
        }
        Close::Broken => Step::Over,
        Close::Refused {
            fault,
            start,
            place,
        } => Step::Failed(fault, cursor.fault_span(fault, start, place)),
    }
}

/// Sets the state to that after a tag. The tail of the tag is skipped, but after a tag that is the
/// whole text any further text is refused.
#[inline(always)]
fn leave(cursor: &mut Cursor<'_>, state: &mut State, whole: bool, after: usize)
    requires onwards { cursor.old.at ≤ after }
    requires boundary { IsCharBoundary cursor.old.text after }
    ensures text { cursor.new.text ≡ cursor.old.text }
    ensures state { (s : Syntax) → stream_from s cursor.new state.new ≡ behind s cursor.old.text
        whole cursor.old.at after }
    ensures fits { StateFits cursor.new state.new }
{
    if whole {
        finish_expression(cursor, state);
    } else {
        cursor.skip_to(after);
        *state = State::Outside;
    }
}

/// Sets the state to that after an expression that is the whole text.
#[cold]
fn finish_expression(cursor: &mut Cursor<'_>, state: &mut State)
    ensures text { cursor.new.text ≡ cursor.old.text }
    ensures state { (s : Syntax) → stream_from s cursor.new state.new ≡
        behind_expression cursor.old.text cursor.old.at cursor.old.at }
    ensures fits { StateFits cursor.new state.new }
{
    let at = cursor.at();
    *state = if at == cursor.text().len() {
        State::Over
    } else {
        State::Failed(LexFault::TextGoesOn, cursor.refusal(at))
    };
}
