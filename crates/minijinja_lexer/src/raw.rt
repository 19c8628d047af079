//! Raw blocks and their tags.
ghost use Rattle.std.specs.Prelude.{◌≡◌, ℕ, ◌+◌, ◌<◌, ◌≤◌, codes, length, slice_index, IfSome, Option};
ghost use Rattle.std.specs.Option.{option_map};
ghost use Rattle.std.specs.Str.{IsCharBoundary};
ghost use Rattle.minijinja_syntax.specs.Positions.{slice};
ghost use Rattle.minijinja_lexer.specs.Cut.{next_delimiter, next_line_end};
ghost use Rattle.minijinja_lexer.specs.Raw as spec;
ghost use Rattle.minijinja_lexer.specs.private.RawPlaces.{IsRawBlock};
ghost use Rattle.minijinja_lexer.specs.private.Views.{control_view, end_view, endraw_view};

use crate::data::{line_kept_len, trimmed_len};
use crate::find::next_delimiter;
use crate::whitespace::{Control, control_at, past_control, past_space, past_tail, tail_len};
use minijinja_syntax::syntax::{StartMarker, SyntaxConfig, stands_at};

/// The places of a raw block: the text between its tags is from `begin` to `end`, what is kept of
/// it from `start` to `stop`, and `after` is past the block and what is skipped after it.
#[derive(Clone, Copy)]
pub(crate) struct RawBlock {
    pub begin: usize,
    pub start: usize,
    pub stop: usize,
    pub end: usize,
    pub after: usize,
}

/// The control at the end of a tag of one word, and where the tag ends.
#[tactic(auto, unfolding(crate::specs::Raw::word_tag))]
fn word_tag(syntax: &SyntaxConfig, text: &str, word: &str, at: usize) -> Option<(Control, usize)>
    requires word { 0 < length word.now }
    requires boundary { IsCharBoundary text.now at }
    ensures value { end_view result ≡ spec.word_tag syntax.now text.now word.now at }
    ensures onwards { IfSome result (λ r. at < r.1) }
    ensures boundary { IfSome result (λ r. IsCharBoundary text.now r.1) }
{
    let place = past_space(text, at);
    if !stands_at(text, place, word) {
        return None;
    }
    let behind = past_space(text, place + word.len());
    let end = past_control(text, behind);
    let delimiter = syntax.block_delimiters().1;
    if stands_at(text, end, delimiter) {
        Some((control_at(text, behind), end + delimiter.len()))
    } else {
        None
    }
}

/// The control at the end of the raw tag whose marker ends at a place, and where the tag ends.
pub(crate) fn raw_at(syntax: &SyntaxConfig, text: &str, at: usize) -> Option<(Control, usize)>
    requires { IsCharBoundary text.now at }
    ensures value { end_view result ≡ spec.raw_at syntax.now text.now at }
    ensures onwards { IfSome result (λ r. at < r.1) }
    ensures boundary { IfSome result (λ r. IsCharBoundary text.now r.1) }
{
    word_tag(syntax, text, "raw", at)
}

/// The control at the end of the endraw tag whose block start ends at a place, and where the tag
/// ends.
fn endraw_at(syntax: &SyntaxConfig, text: &str, at: usize) -> Option<(Control, usize)>
    requires { IsCharBoundary text.now at }
    ensures value { end_view result ≡ spec.endraw_at syntax.now text.now at }
    ensures onwards { IfSome result (λ r. at < r.1) }
    ensures boundary { IfSome result (λ r. IsCharBoundary text.now r.1) }
{
    word_tag(syntax, text, "endraw", past_control(text, at))
}

/// The first endraw tag from a place on: where it begins, the control at its end and where it ends.
fn next_endraw(syntax: &SyntaxConfig, text: &str, at: usize) -> Option<(usize, Control, usize)>
    requires { IsCharBoundary text.now at }
    ensures value { endraw_view result ≡ spec.next_endraw syntax.now text.now at }
    ensures onwards { IfSome result (λ r. (at ≤ r.0) × (r.0 < r.2)) }
    ensures start { IfSome result (λ r. IsCharBoundary text.now r.0) }
    ensures end { IfSome result (λ r. IsCharBoundary text.now r.2) }
{
    let delimiter = syntax.block_delimiters().0;
    let mut from = at;
    while from < text.len() {
        let place = next_delimiter(text, from, delimiter);
        if place == text.len() {
            return None;
        }
        let behind = place + delimiter.len();
        if let Some((control, end)) = endraw_at(syntax, text, behind) {
            return Some((place, control, end));
        }
        from = behind;
    }
    None
}

/// How much of a raw block's text is kept before an endraw tag with the control.
fn raw_kept_len(syntax: &SyntaxConfig, control: Control, text: &str) -> usize
    ensures value { result ≡ spec.raw_kept_len syntax.now (control_view control) text.now }
    ensures boundary { IsCharBoundary text.now result }
{
    match control {
        Control::Remove => trimmed_len(text),
        Control::Preserve => text.len(),
        Control::Absent => {
            if syntax.lstrip_blocks() {
                line_kept_len(text)
            } else {
                text.len()
            }
        }
    }
}

/// The raw block whose first tag ends with the control at `begin`, if an endraw tag follows.
#[inline(never)]
pub(crate) fn raw_block(
    syntax: &SyntaxConfig,
    text: &str,
    begin: usize,
    control: Control,
) -> Option<RawBlock>
    requires { IsCharBoundary text.now begin }
    ensures { IsRawBlock syntax.now text.now begin (control_view control) result }
{
    let (end, end_control, tag_end) = next_endraw(syntax, text, begin)?;
    let start = begin + tail_len(syntax, StartMarker::Block, control, &text[begin..end]);
    let start_control = control_at(text, end + syntax.block_delimiters().0.len());
    let stop = start + raw_kept_len(syntax, start_control, &text[start..end]);
    let after = past_tail(syntax, StartMarker::Block, end_control, text, tag_end);
    Some(RawBlock {
        begin,
        start,
        stop,
        end,
        after,
    })
}
