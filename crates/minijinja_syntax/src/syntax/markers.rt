//! Where the next start marker of a text begins.
ghost use Rattle.std.specs.Prelude.{◌≡◌, ◌+◌, ◌<◌, ◌≤◌, ◌||◌, ◌==◌, length, slice_index, IsTrue, IfSome};
ghost use Rattle.std.specs.Str.{IsCharBoundary};
ghost use Rattle.memchr.specs.Find.{IsFirstByte, is_byte};
ghost use Rattle.minijinja_syntax.specs.Syntax.{Syntax, IsBuildable};
ghost use Rattle.minijinja_syntax.specs.Markers.{stands, is_blank, is_line_end, starts_line, may_begin, marker_at, next_marker, found_marker};
ghost use Rattle.minijinja_syntax.specs.private.DefaultStarts.{HasDefaultStarts, braced_marker};

use crate::syntax::{Settings, StartMarker};
use memchr::memchr;

/// How many bytes each start delimiter has by default.
const DEFAULT_START_LEN: usize = 2;

/// The bytes that the starts of the markers begin with; that of a prefix that is off is 0.
#[derive(Clone, Copy)]
struct FirstBytes {
    variable: u8,
    block: u8,
    comment: u8,
    line_statement: u8,
    line_comment: u8,
}

impl FirstBytes {
    ghost use Rattle.minijinja_syntax.specs.private.FirstBytes.{is_first_byte};

    #[inline(always)]
    fn contains(self, byte: u8) -> bool
        ensures { result ≡ is_first_byte self byte }
    {
        byte == self.variable
            || byte == self.block
            || byte == self.comment
            || byte == self.line_statement
            || byte == self.line_comment
    }
}

/// The byte that a text begins with, or 0.
fn first_byte(text: &str) -> u8
    ensures { result ≡ slice_index text.now 0 }
{
    match text.as_bytes() {
        [first, ..] => *first,
        [] => 0,
    }
}

/// The byte at a place, or 0 past the end.
#[inline(always)]
fn byte_at(text: &[u8], at: usize) -> u8
    ensures { result ≡ slice_index text.now at }
{
    if at < text.len() { text[at] } else { 0 }
}

/// Whether the delimiter stands at the place. Its first byte mostly decides.
#[inline(always)]
fn bytes_stand_at(text: &[u8], at: usize, delimiter: &[u8]) -> bool
    requires some { 0 < length delimiter.now }
    requires within { at ≤ length text.now }
    ensures { result ≡ stands delimiter.now text.now at }
{
    byte_at(text, at) == delimiter[0] && text[at..].starts_with(delimiter)
}

/// Whether the delimiter stands in the text at the byte `at`. If so, the text can be cut before and
/// after it.
#[inline(always)]
pub fn stands_at(text: &str, at: usize, delimiter: &str) -> bool
    requires some { 0 < length delimiter.now }
    requires within { at ≤ length text.now }
    ensures value { result ≡ stands delimiter.now text.now at }
    ensures start { IsTrue result → IsCharBoundary text.now at }
    ensures end { IsTrue result → IsCharBoundary text.now (at + length delimiter.now) }
{
    bytes_stand_at(text.as_bytes(), at, delimiter.as_bytes())
}

fn is_blank(byte: u8) -> bool
    ensures { result ≡ is_blank byte }
{
    byte == b' ' || byte == b'\t'
}

fn is_line_end(byte: u8) -> bool
    ensures { result ≡ is_line_end byte }
{
    byte == b'\r' || byte == b'\n'
}

/// Whether only spaces and tabs stand between the place and the start of its line.
fn starts_line(text: &[u8], at: usize) -> bool
    requires { at ≤ length text.now }
    ensures { result ≡ starts_line text.now at }
{
    let mut start = at;
    while start > 0 {
        let byte = text[start - 1];
        if !is_blank(byte) {
            return is_line_end(byte);
        }
        start -= 1;
    }
    true
}

/// Whether a line starts at the next place, given whether one starts at this place.
fn next_starts_line(text: &[u8], at: usize, line_start: bool) -> bool
    requires { at < length text.now }
    ensures { line_start ≡ starts_line text.now at → result ≡ starts_line text.now (at + 1) }
{
    let byte = text[at];
    if is_blank(byte) {
        line_start
    } else {
        is_line_end(byte)
    }
}

fn may_begin(line_start: bool, marker: StartMarker) -> bool
    ensures { result ≡ may_begin line_start marker }
{
    match marker {
        StartMarker::LineStatement => line_start,
        _ => true,
    }
}

/// The marker that begins with `{` and this byte, where the start delimiters are the default ones.
#[inline(always)]
fn braced_marker(byte: u8) -> Option<StartMarker>
    ensures { result ≡ braced_marker byte }
{
    match byte {
        b'{' => Some(StartMarker::Variable),
        b'%' => Some(StartMarker::Block),
        b'#' => Some(StartMarker::Comment),
        _ => None,
    }
}

/// The marker that begins at a place, where the start delimiters are the default ones.
#[inline(always)]
fn default_marker_at(text: &[u8], at: usize) -> Option<StartMarker>
    requires { at ≤ length text.now }
    ensures { (s : Syntax) → IsBuildable s → HasDefaultStarts s → result ≡ marker_at s text.now at }
{
    if text.len() - at >= 2 && text[at] == b'{' {
        braced_marker(text[at + 1])
    } else {
        None
    }
}

/// The first brace. Of two braces that stand close together the second is found at once: to begin a
/// search takes longer than to look at two bytes.
#[inline(always)]
fn brace_in(text: &[u8]) -> Option<usize>
    ensures { IsFirstByte (is_byte 123) text.now result }
{
    if text.len() >= 2 {
        if text[0] == b'{' {
            return Some(0);
        }
        if text[1] == b'{' {
            return Some(1);
        }
    }
    memchr(b'{', text)
}

/// The first place at or after the byte `offset` where a marker begins, or the end of the text, for
/// a syntax with the default start delimiters.
#[inline(never)]
fn next_default_place(text: &[u8], offset: usize) -> usize
    requires { offset ≤ length text.now }
    ensures place { (s : Syntax) → IsBuildable s → HasDefaultStarts s → result ≡ next_marker s
        text.now offset }
    ensures ordered { offset ≤ result }
    ensures within { result ≤ length text.now }
{
    let mut place = offset;
    while let Some(ahead) = brace_in(&text[place..]) {
        place += ahead;
        if default_marker_at(text, place).is_some() {
            return place;
        }
        place += 1;
    }
    text.len()
}

/// What [`SyntaxConfig::find_marker`] returns for a syntax with the default start delimiters and
/// with both prefixes off.
#[inline]
pub(super) fn find_default_marker(
    source: &str,
    offset: usize,
) -> Option<(usize, StartMarker, usize)>
    requires { offset ≤ length source.now }
    ensures { (s : Syntax) → IsBuildable s → HasDefaultStarts s → result ≡ found_marker s source.now
        offset }
{
    let text = source.as_bytes();
    // The tokenizer searches again at the place of each tag, so that case is tested first.
    match default_marker_at(text, offset) {
        Some(marker) => Some((0, marker, DEFAULT_START_LEN)),
        None => {
            let place = next_default_place(text, offset);
            let marker = default_marker_at(text, place)?;
            Some((place - offset, marker, DEFAULT_START_LEN))
        }
    }
}

impl Settings {
    ghost use Rattle.std.specs.Prelude.{◌≡◌, ◌+◌, ◌<◌, ◌≤◌, length, IfSome, if◌then◌else◌, Some, None};
    ghost use Rattle.minijinja_syntax.specs.private.SyntaxFields.{syntax_of};
    ghost use Rattle.minijinja_syntax.specs.private.FirstBytes.{first_bytes};
    ghost use Rattle.minijinja_syntax.specs.Markers.{starts_line, is_eligible, longer, marker_at, found_marker, FindsMarker, IsMarkerPlace};

    fn if_eligible(
        &self,
        text: &str,
        at: usize,
        line_start: bool,
        marker: StartMarker,
    ) -> Option<StartMarker>
        requires within { at ≤ length text.now }
        requires here { 0 < length (syntax_of self.now).line_statement → line_start ≡ starts_line
            text.now at }
        ensures value { result ≡
            (if is_eligible (syntax_of self.now) text.now at marker then Some marker else None) }
        ensures place { IfSome result (IsMarkerPlace (syntax_of self.now) text.now at) }
    {
        let start = self.start_of(marker);
        if may_begin(line_start, marker) && !start.is_empty() && stands_at(text, at, start) {
            Some(marker)
        } else {
            None
        }
    }

    fn longer(
        &self,
        text: &str,
        at: usize,
        one: Option<StartMarker>,
        other: Option<StartMarker>,
    ) -> Option<StartMarker>
        requires one { IfSome one (IsMarkerPlace (syntax_of self.now) text.now at) }
        requires other { IfSome other (IsMarkerPlace (syntax_of self.now) text.now at) }
        ensures value { result ≡ longer (syntax_of self.now) one other }
        ensures place { IfSome result (IsMarkerPlace (syntax_of self.now) text.now at) }
    {
        match (one, other) {
            (None, _) => other,
            (Some(_), None) => one,
            (Some(m), Some(n)) => {
                if self.start_of(m).len() < self.start_of(n).len() {
                    other
                } else {
                    one
                }
            }
        }
    }

    /// The marker that begins at a place: the longest eligible one.
    #[tactic(auto, unfolding(crate::specs::Markers::marker_at))]
    fn marker_at(&self, text: &str, at: usize, line_start: bool) -> Option<StartMarker>
        requires within { at ≤ length text.now }
        requires here { 0 < length (syntax_of self.now).line_statement → line_start ≡ starts_line
            text.now at }
        ensures value { result ≡ marker_at (syntax_of self.now) text.now at }
        ensures place { IfSome result (IsMarkerPlace (syntax_of self.now) text.now at) }
    {
        let line_comment = self.if_eligible(text, at, line_start, StartMarker::LineComment);
        let line_statement = self.if_eligible(text, at, line_start, StartMarker::LineStatement);
        let comment = self.if_eligible(text, at, line_start, StartMarker::Comment);
        let block = self.if_eligible(text, at, line_start, StartMarker::Block);
        let variable = self.if_eligible(text, at, line_start, StartMarker::Variable);
        let line = self.longer(text, at, line_statement, line_comment);
        let unprinted = self.longer(text, at, comment, line);
        let unprinted = self.longer(text, at, block, unprinted);
        self.longer(text, at, variable, unprinted)
    }

    /// The bytes that the markers that are on begin with.
    fn first_bytes(&self) -> FirstBytes
        ensures { result ≡ first_bytes (syntax_of self.now) }
    {
        FirstBytes {
            variable: first_byte(self.variable_start.as_str()),
            block: first_byte(self.block_start.as_str()),
            comment: first_byte(self.comment_start.as_str()),
            line_statement: first_byte(self.line_statement.as_str()),
            line_comment: first_byte(self.line_comment.as_str()),
        }
    }

    /// What [`Settings::marker_at`] returns. It is called only if the byte may begin a marker.
    #[inline(always)]
    fn candidate_at(
        &self,
        first: FirstBytes,
        text: &str,
        at: usize,
        line_start: bool,
    ) -> Option<StartMarker>
        requires first { first ≡ first_bytes (syntax_of self.now) }
        requires within { at < length text.now }
        requires here { 0 < length (syntax_of self.now).line_statement → line_start ≡ starts_line
            text.now at }
        ensures value { result ≡ marker_at (syntax_of self.now) text.now at }
        ensures place { IfSome result (IsMarkerPlace (syntax_of self.now) text.now at) }
    {
        if first.contains(text.as_bytes()[at]) {
            self.marker_at(text, at, line_start)
        } else {
            None
        }
    }

    /// What [`SyntaxConfig::find_marker`] returns, for any syntax.
    #[inline(never)]
    pub(super) fn find_marker(
        &self,
        source: &str,
        offset: usize,
    ) -> Option<(usize, StartMarker, usize)>
        requires { offset ≤ length source.now }
        ensures value { result ≡ found_marker (syntax_of self.now) source.now offset }
        ensures finds { FindsMarker (syntax_of self.now) source.now offset result }
        ensures place { IfSome result
            (λ r. IsMarkerPlace (syntax_of self.now) source.now (offset + r.0) r.1) }
    {
        let bytes = source.as_bytes();
        let first = self.first_bytes();
        // Only line statements ask where a line starts.
        let mut line_start = !self.line_statement.as_str().is_empty() && starts_line(bytes, offset);
        let mut place = offset;
        while place < bytes.len() {
            if let Some(marker) = self.candidate_at(first, source, place, line_start) {
                return Some((place - offset, marker, self.start_of(marker).len()));
            }
            line_start = next_starts_line(bytes, place, line_start);
            place += 1;
        }
        None
    }
}
