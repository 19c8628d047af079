//! How much of the data before a marker is kept.
ghost use Rattle.std.specs.Prelude.{◌≡◌, ◌+◌, ◌-◌, ◌≤◌, ◌==◌, ◌||◌, not, Option, length, take, drop, reverse, slice_index, IfSome};
ghost use Rattle.std.specs.List.{prefix_len};
ghost use Rattle.std.specs.Str.{IsCharBoundary};
ghost use Rattle.minijinja_syntax.specs.Markers.{is_line_end, marker_at};
ghost use Rattle.minijinja_syntax.specs.Positions.{slice};
ghost use Rattle.minijinja_syntax.specs.Syntax.{start_of};
ghost use Rattle.minijinja_lexer.specs.Whitespace as spec;
ghost use Rattle.minijinja_lexer.specs.private.Views.{control_view};

use crate::whitespace::{Control, control_behind, is_line_end};
use minijinja_syntax::syntax::{StartMarker, SyntaxConfig};

/// The length without the whitespace at the end.
#[inline(never)]
pub(crate) fn trimmed_len(text: &str) -> usize
    ensures value { result ≡ spec.trimmed_len text.now }
    ensures boundary { IsCharBoundary text.now result }
{
    text.trim_end().len()
}

/// Whether the last line has only whitespace. Only that line is read.
#[tactic(auto, unfolding(crate::specs::Whitespace::ends_blank))]
fn ends_blank(text: &str) -> bool
    ensures { result ≡ spec.ends_blank text.now }
{
    text.chars()
        .rev()
        .take_while(|c| !(*c == '\r' || *c == '\n'))
        .all(|c| c.is_whitespace())
}

fn line_len(text: &[u8]) -> usize
    ensures within { result ≤ length text.now }
    ensures value { result ≡ prefix_len (λ b. not (is_line_end b)) (reverse text.now) }
{
    text.iter().rev().take_while(|b| !is_line_end(**b)).count()
}

fn begins_line(text: &[u8], at: usize) -> bool
    requires { at ≤ length text.now }
    ensures { result ≡ spec.begins_line text.now at }
{
    at == 0 || text[at - 1] == b'\n'
}

/// How much the line rule keeps: all except a blank last line that follows `\n` or nothing.
#[tactic(auto, unfolding(crate::specs::Whitespace::line_kept_len))]
#[inline(never)]
pub(crate) fn line_kept_len(text: &str) -> usize
    ensures value { result ≡ spec.line_kept_len text.now }
    ensures boundary { IsCharBoundary text.now result }
{
    let bytes = text.as_bytes();
    let line = bytes.len() - line_len(bytes);
    if ends_blank(text) && begins_line(bytes, line) {
        line
    } else {
        text.len()
    }
}

fn is_line_cut(syntax: &SyntaxConfig, marker: StartMarker, before: &str) -> bool
    ensures { result ≡ spec.is_line_cut syntax.now marker before.now }
{
    match marker {
        StartMarker::Variable => false,
        StartMarker::Block | StartMarker::Comment => syntax.lstrip_blocks() && ends_blank(before),
        StartMarker::LineStatement | StartMarker::LineComment => {
            !syntax.lstrip_blocks() || ends_blank(before)
        }
    }
}

#[tactic(auto, unfolding(crate::specs::Whitespace::kept_len))]
fn kept_len(
    syntax: &SyntaxConfig,
    marker: StartMarker,
    control: Control,
    before: &str,
    text: &str,
) -> usize
    ensures value { result ≡ spec.kept_len syntax.now marker (control_view control) before.now
        text.now }
    ensures boundary { IsCharBoundary text.now result }
{
    match control {
        Control::Remove => trimmed_len(text),
        Control::Preserve => text.len(),
        Control::Absent => {
            if is_line_cut(syntax, marker, before) {
                line_kept_len(text)
            } else {
                text.len()
            }
        }
    }
}

/// Where the kept part of the data from `start` to `stop` ends, before the marker of length `len`
/// at `stop`.
#[tactic(auto, unfolding(crate::specs::Whitespace::kept_stop))]
pub(crate) fn kept_stop(
    syntax: &SyntaxConfig,
    text: &str,
    start: usize,
    stop: usize,
    marker: StartMarker,
    len: usize,
) -> usize
    requires ordered { start ≤ stop }
    requires start { IsCharBoundary text.now start }
    requires stop { IsCharBoundary text.now stop }
    requires within { stop + len ≤ length text.now }
    requires marker { marker_at syntax.now text.now stop ≡ Option.Some marker }
    requires len { len ≡ length (start_of syntax.now marker) }
    ensures value { result ≡ spec.kept_stop syntax.now text.now start stop }
    ensures within { (start ≤ result) × (result ≤ stop) }
    ensures boundary { IsCharBoundary text.now result }
{
    let control = control_behind(text, stop + len, marker);
    start + kept_len(syntax, marker, control, &text[..stop], &text[start..stop])
}
