//! The tokenizer's step outside any tag.
ghost use Rattle.std.specs.Prelude.{◌≡◌, ℕ, ◌+◌, ◌<◌, ◌≤◌, Option, length};
ghost use Rattle.std.specs.Str.{IsCharBoundary};
ghost use Rattle.minijinja_syntax.specs.Markers.{marker_at, IsMarkerPlace};
ghost use Rattle.minijinja_syntax.specs.Syntax.{start_of};
ghost use Rattle.minijinja_lexer.specs.Cut as spec;
ghost use Rattle.minijinja_lexer.specs.TextTokens.{stream_at};
ghost use Rattle.minijinja_lexer.specs.private.RawPlaces.{RawBlockPlaces};
ghost use Rattle.minijinja_lexer.specs.declared.step.State.TheVariants.{Outside};
ghost use Rattle.minijinja_lexer.specs.private.States.{Steps, RawSteps, Takes, TakesBetween};
ghost use Rattle.minijinja_lexer.specs.Raw.{raw_at};
ghost use Rattle.minijinja_lexer.specs.private.Views.{control_view};
ghost use Rattle.minijinja_lexer.specs.Whitespace.{control_len, control_behind};
ghost use Rattle.minijinja_lexer.specs.private.Found.{IsFound};

use crate::cursor::Cursor;
use crate::data::kept_stop;
use crate::fault::LexFault;
use crate::find::{next_delimiter, next_line_end};
use crate::raw::{RawBlock, raw_at, raw_block};
use crate::step::{State, Step};
use crate::tag_part::{Tag, start_token};
use crate::whitespace::{
    Control, control_at, control_behind, control_len, past_line_end, past_tail,
};
use minijinja_syntax::syntax::{StartMarker, SyntaxConfig};
use minijinja_syntax::tokens::Token;

/// The segment at a place.
#[derive(Clone, Copy)]
enum Found {
    /// Data up to the first place, of which what is before the second is kept.
    Data(usize, usize),
    /// A comment up to a place.
    Skipped(usize),
    Raw(RawBlock),
    /// A tag whose marker ends at a place.
    Tag(Tag, usize),
    /// A comment or a raw block without an end.
    Unclosed(LexFault),
}

/// The control before a comment's end delimiter.
fn tail_control(text: &str, body: usize, end: usize) -> Control
    ensures { control_view result ≡ spec.tail_control text.now body end }
{
    if body < end {
        control_at(text, end - 1)
    } else {
        Control::Absent
    }
}

/// The comment with this body.
fn comment_at(syntax: &SyntaxConfig, text: &str, at: usize, body: usize) -> Found
    requires moves { at < body }
    requires boundary { IsCharBoundary text.now body }
    requires segment { spec.segment_at syntax.now text.now at ≡ spec.comment_at syntax.now text.now
        at body }
    ensures { IsFound syntax.now text.now at result }
{
    let delimiter = syntax.comment_delimiters().1;
    let end = next_delimiter(text, body, delimiter);
    if end == text.len() {
        return Found::Unclosed(LexFault::UnclosedComment);
    }
    let control = tail_control(text, body, end);
    Found::Skipped(past_tail(
        syntax,
        StartMarker::Comment,
        control,
        text,
        end + delimiter.len(),
    ))
}

/// The line comment with this body.
fn line_comment_at(syntax: &SyntaxConfig, text: &str, at: usize, body: usize) -> Found
    requires moves { at < body }
    requires boundary { IsCharBoundary text.now body }
    requires segment { spec.segment_at syntax.now text.now at ≡ spec.line_comment_at text.now at
        body }
    ensures { IsFound syntax.now text.now at result }
{
    Found::Skipped(past_line_end(text, next_line_end(text, body)))
}

/// The block tag with this body, or the raw block that it begins.
fn block_at(syntax: &SyntaxConfig, text: &str, at: usize, body: usize) -> Found
    requires moves { at < body }
    requires boundary { IsCharBoundary text.now body }
    requires segment { spec.segment_at syntax.now text.now at ≡ spec.block_to syntax.now text.now at
        body (raw_at syntax.now text.now body) }
    ensures { IsFound syntax.now text.now at result }
{
    let Some((control, begin)) = raw_at(syntax, text, body) else {
        return Found::Tag(Tag::Block, body);
    };
    match raw_block(syntax, text, begin, control) {
        Some(block) => Found::Raw(block),
        None => Found::Unclosed(LexFault::UnclosedRaw),
    }
}

/// The end of the marker at a place, after its control.
fn body_of(text: &str, at: usize, marker: StartMarker, len: usize) -> usize
    requires { IsCharBoundary text.now (at + len) }
    ensures value { result ≡ at + len + control_len (control_behind text.now (at + len) marker) }
    ensures boundary { IsCharBoundary text.now result }
{
    at + len + control_len(control_behind(text, at + len, marker))
}

/// The segment that begins with the marker of length `len` at a place.
fn marked_at(syntax: &SyntaxConfig, text: &str, at: usize, marker: StartMarker, len: usize) -> Found
    requires marker { marker_at syntax.now text.now at ≡ Option.Some marker }
    requires len { len ≡ length (start_of syntax.now marker) }
    requires some { 0 < len }
    requires boundary { IsCharBoundary text.now (at + len) }
    ensures { IsFound syntax.now text.now at result }
{
    let body = body_of(text, at, marker, len);
    match marker {
        StartMarker::Variable => Found::Tag(Tag::Variable, body),
        StartMarker::Block => block_at(syntax, text, at, body),
        StartMarker::Comment => comment_at(syntax, text, at, body),
        StartMarker::LineStatement => Found::Tag(Tag::Line, body),
        StartMarker::LineComment => line_comment_at(syntax, text, at, body),
    }
}

/// The segment that begins at a place.
fn found_at(syntax: &SyntaxConfig, text: &str, at: usize) -> Found
    requires within { at < length text.now }
    requires boundary { IsCharBoundary text.now at }
    ensures { IsFound syntax.now text.now at result }
{
    let Some((ahead, marker, len)) = syntax.find_marker(text, at) else {
        return Found::Data(text.len(), text.len());
    };
    if ahead == 0 {
        return marked_at(syntax, text, at, marker, len);
    }
    let stop = at + ahead;
    Found::Data(stop, kept_stop(syntax, text, at, stop, marker, len))
}

/// The token of a raw block.
fn step_raw<'s>(cursor: &mut Cursor<'s>, text: &'s str, block: RawBlock) -> Step<'s>
    requires text { text.now ≡ cursor.old.text }
    requires onwards { cursor.old.at ≤ block.begin }
    requires places { RawBlockPlaces text.now block.begin block }
    ensures steps { RawSteps cursor.old.text block result cursor.new }
    ensures between { TakesBetween cursor.old.text result }
{
    let RawBlock {
        begin,
        start,
        stop,
        end,
        after,
    } = block;
    let span = cursor.span(begin, end);
    cursor.advance(after);
    Step::Token(Token::TemplateData(&text[start..stop]), span)
}

/// The next token outside any tag.
pub(crate) fn step_outside<'s>(
    syntax: &SyntaxConfig,
    cursor: &mut Cursor<'s>,
    state: &mut State,
) -> Step<'s>
    requires { state.old ≡ Outside }
    ensures text { cursor.new.text ≡ cursor.old.text }
    ensures steps { Steps syntax.now (stream_at syntax.now cursor.old.text cursor.old.at) state.new
        result cursor.new }
    ensures takes { Takes syntax.now cursor.old.text result }
{
    let text = cursor.text();
    while cursor.at() < text.len() {
        let at = cursor.at();
        match found_at(syntax, text, at) {
            Found::Data(stop, kept) => {
                if kept != at {
                    let span = cursor.span_to(kept);
                    cursor.skip_to(stop);
                    return Step::Token(Token::TemplateData(&text[at..kept]), span);
                }
                cursor.advance(stop);
            }
            Found::Skipped(stop) => cursor.advance(stop),
            Found::Raw(block) => return step_raw(cursor, text, block),
            Found::Tag(tag, body) => {
                let span = cursor.span_to(body);
                *state = State::Inside {
                    tag,
                    opened: 0,
                    shut: 0,
                    whole: false,
                };
                return Step::Token(start_token(tag), span);
            }
            Found::Unclosed(fault) => {
                return Step::Failed(fault, cursor.refusal(text.len()));
            }
        }
    }
    Step::Over
}
