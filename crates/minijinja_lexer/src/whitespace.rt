//! Whitespace controls, and the whitespace that is skipped after an end.
ghost use Rattle.std.specs.Prelude.{◌≡◌, ◌+◌, ◌-◌, ◌≤◌, length, drop, slice_index};
ghost use Rattle.std.specs.Str.{IsCharBoundary, chars, trim_start};
ghost use Rattle.minijinja_syntax.specs.Markers as markers;
ghost use Rattle.minijinja_syntax.specs.Syntax.{Syntax};
ghost use Rattle.minijinja_lexer.specs.Whitespace as spec;
ghost use Rattle.minijinja_lexer.specs.private.Views.{control_view};

use crate::scan::{byte_at, space_len};
use minijinja_syntax::syntax::{StartMarker, SyntaxConfig};

/// What a `-` or `+` at a marker says about the whitespace beside it.
#[derive(Clone, Copy)]
pub(crate) enum Control {
    Absent,
    Remove,
    Preserve,
}

fn control_of(byte: u8) -> Control
    ensures { control_view result ≡ spec.control_of byte }
{
    match byte {
        b'-' => Control::Remove,
        b'+' => Control::Preserve,
        _ => Control::Absent,
    }
}

/// The control at a place.
pub(crate) fn control_at(text: &str, at: usize) -> Control
    ensures { control_view result ≡ spec.control_at text.now at }
{
    control_of(byte_at(text.as_bytes(), at))
}

/// How many bytes a control has.
pub(crate) fn control_len(control: Control) -> usize
    ensures { result ≡ spec.control_len (control_view control) }
{
    match control {
        Control::Absent => 0,
        Control::Remove | Control::Preserve => 1,
    }
}

/// The end of the control at a place.
pub(crate) fn past_control(text: &str, at: usize) -> usize
    requires { IsCharBoundary text.now at }
    ensures value { result ≡ at + spec.control_len (spec.control_at text.now at) }
    ensures boundary { IsCharBoundary text.now result }
{
    at + control_len(control_at(text, at))
}

/// The control of a marker that ends at a place.
pub(crate) fn control_behind(text: &str, at: usize, marker: StartMarker) -> Control
    ensures { control_view result ≡ spec.control_behind text.now at marker }
{
    match marker {
        StartMarker::LineStatement => Control::Absent,
        StartMarker::Variable
        | StartMarker::Block
        | StartMarker::Comment
        | StartMarker::LineComment => control_at(text, at),
    }
}

pub(crate) fn is_line_end(byte: u8) -> bool
    ensures { result ≡ markers.is_line_end byte }
{
    byte == b'\r' || byte == b'\n'
}

fn is_line_space(c: char) -> bool
    ensures { result ≡ spec.is_line_space c }
{
    c.is_whitespace() && !(c == '\r' || c == '\n')
}

fn line_space_len(text: &str) -> usize
    ensures value { result ≡ spec.line_space_len text.now }
    ensures boundary { IsCharBoundary text.now result }
{
    let mut len = 0;
    for c in text.chars() {
        if !is_line_space(c) {
            return len;
        }
        len += c.len_utf8();
    }
    len
}

/// The first place from `at` on without ASCII whitespace.
pub(crate) fn past_space(text: &str, at: usize) -> usize
    requires { IsCharBoundary text.now at }
    ensures value { result ≡ spec.past_space text.now at }
    ensures onwards { at ≤ result }
    ensures boundary { IsCharBoundary text.now result }
{
    at + space_len(&text[at..])
}

/// The first place from `at` on without whitespace other than `\r` and `\n`.
pub(crate) fn past_line_space(text: &str, at: usize) -> usize
    requires { IsCharBoundary text.now at }
    ensures value { result ≡ spec.past_line_space text.now at }
    ensures onwards { at ≤ result }
    ensures boundary { IsCharBoundary text.now result }
{
    at + line_space_len(&text[at..])
}

fn newline_len(text: &[u8]) -> usize
    ensures { result ≡ spec.line_end_len text.now }
{
    let r = if byte_at(text, 0) == b'\r' { 1 } else { 0 };
    r + if byte_at(text, r) == b'\n' { 1 } else { 0 }
}

fn line_end_len(text: &str) -> usize
    ensures value { result ≡ spec.line_end_len text.now }
    ensures boundary { IsCharBoundary text.now result }
{
    newline_len(text.as_bytes())
}

/// The end of the line end at a place, if there is one, otherwise the place.
pub(crate) fn past_line_end(text: &str, at: usize) -> usize
    requires { IsCharBoundary text.now at }
    ensures value { result ≡ at + spec.line_end_len (drop at text.now) }
    ensures onwards { at ≤ result }
    ensures boundary { IsCharBoundary text.now result }
{
    at + line_end_len(&text[at..])
}

#[inline(never)]
fn leading_space(text: &str) -> usize
    ensures value { result ≡ length text.now - length (trim_start text.now) }
    ensures boundary { IsCharBoundary text.now result }
{
    text.len() - text.trim_start().len()
}

fn is_variable(marker: StartMarker) -> bool
    ensures { result ≡ spec.is_variable marker }
{
    match marker {
        StartMarker::Variable => true,
        StartMarker::Block
        | StartMarker::Comment
        | StartMarker::LineStatement
        | StartMarker::LineComment => false,
    }
}

/// How much of the text after an end with the control is skipped.
#[tactic(auto, unfolding(crate::specs::Whitespace::tail_len))]
#[inline]
pub(crate) fn tail_len(
    syntax: &SyntaxConfig,
    marker: StartMarker,
    control: Control,
    text: &str,
) -> usize
    ensures value { result ≡ spec.tail_len syntax.now marker (control_view control) text.now }
    ensures boundary { IsCharBoundary text.now result }
{
    match control {
        Control::Remove => leading_space(text),
        Control::Preserve => 0,
        Control::Absent => {
            if syntax.trim_blocks() && !is_variable(marker) {
                line_end_len(text)
            } else {
                0
            }
        }
    }
}

/// The place after what is skipped after an end.
pub(crate) fn past_tail(
    syntax: &SyntaxConfig,
    marker: StartMarker,
    control: Control,
    text: &str,
    at: usize,
) -> usize
    requires { IsCharBoundary text.now at }
    ensures value { result ≡ at + spec.tail_len syntax.now marker (control_view control)
        (drop at text.now) }
    ensures onwards { at ≤ result }
    ensures boundary { IsCharBoundary text.now result }
{
    at + tail_len(syntax, marker, control, &text[at..])
}
