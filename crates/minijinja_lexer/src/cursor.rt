//! A place in a text, which keeps its line and column as it moves.
ghost use Rattle.std.specs.Prelude.{◌≡◌, ℕ, ◌+◌, ◌<◌, ◌≤◌, length};

use crate::count::{after, plain_end, stopped};
use crate::fault::LexFault;
use minijinja_syntax::tokens::Span;
use std::marker::Model;

/// The largest column that a span holds.
const COLUMNS: usize = 65535;

/// A place between characters. The line counts from 1 and the column from 0, in characters; both
/// stop at 65535.
#[derive(Drop)]
pub(crate) struct Cursor<'s> {
    text: &'s str,
    at: usize,
    /// From `at` up to here there are only ASCII characters other than newlines, which move only
    /// the column.
    plain: usize,
    /// From `at` up to here, and not past `plain`, the column needs no limit.
    exact: usize,
    /// The column counts the bytes from here to `at`. This is where the line begins, or as much
    /// later as the line has bytes that begin no character.
    origin: usize,
    line: u16,
}

impl<'s> Model for Cursor<'s> {
    ghost use Rattle.minijinja_lexer.specs.private.Place.{Place};

    ghost Value = { Place };

    ghost use Rattle.minijinja_lexer.specs.private.AtCursor.{cursor_view, IsCursor};

    ghost view = { cursor_view };

    ghost invariant = { IsCursor };
}

impl<'s> Cursor<'s> {
    ghost use Rattle.std.specs.Prelude.{◌≡◌, ℕ, ◌+◌, ◌<◌, ◌≤◌, ◌^◌, length, take, IsTrue};
    ghost use Rattle.std.specs.Str.{IsCharBoundary};
    ghost use Rattle.minijinja_syntax.specs.Positions.{span_at, line_after, column_after};
    ghost use Rattle.minijinja_lexer.specs.private.Place.{Place};
    ghost use Rattle.minijinja_lexer.specs.Slices.{IsBetweenChars};
    ghost use Rattle.minijinja_lexer.specs.TextTokens.{refusal_span, fault_span};
    ghost use Rattle.minijinja_lexer.specs.private.Views.{fault_view};

    /// The start of a text.
    pub(crate) fn new(text: &'s str) -> Self
        requires { length text.now < 2 ^ 32 }
        ensures { result ≡ record { text = text.now; at = 0 } }
    {
        Cursor {
            text,
            at: 0,
            plain: 0,
            exact: 0,
            origin: 0,
            line: 1,
        }
    }

    /// The whole text.
    #[inline]
    pub(crate) fn text(&self) -> &'s str
        ensures { result.now ≡ self.now.text }
    {
        self.text
    }

    /// The place, in bytes.
    #[inline]
    pub(crate) fn at(&self) -> usize
        ensures value { result ≡ self.now.at }
        ensures boundary { IsCharBoundary self.now.text result }
    {
        self.at
    }

    /// The line, the column and the byte of the place.
    #[inline(always)]
    fn position(&self) -> (u16, u16, u32)
        ensures line { result.0 ≡ line_after (take self.now.at self.now.text) }
        ensures column { result.1 ≡ column_after (take self.now.at self.now.text) }
        ensures offset { result.2 ≡ self.now.at }
        ensures boundary { IsCharBoundary self.now.text self.now.at }
    {
        (self.line, stopped(self.at - self.origin), self.at as u32)
    }

    /// Moves on to a place.
    #[inline(always)]
    pub(crate) fn advance(&mut self, to: usize)
        requires onwards { self.old.at ≤ to }
        requires boundary { IsCharBoundary self.old.text to }
        ensures { self.new ≡ record { text = self.old.text; at = to } }
    {
        if to <= self.plain {
            self.at = to;
        } else {
            self.count_to(to);
        }
    }

    /// Moves on to a place and counts the lines and characters up to it.
    #[inline(never)]
    fn count_to(&mut self, to: usize)
        requires onwards { self.old.at ≤ to }
        requires boundary { IsCharBoundary self.old.text to }
        ensures { self.new ≡ record { text = self.old.text; at = to } }
    {
        // Most stretches end on the next line, or on the one after it.
        if self.is_on_next_line(to) || self.is_on_next_line(to) {
            return;
        }
        let column = stopped(self.at - self.origin);
        let (line, column) = after(self.text, self.at, to, self.line, column);
        let origin = to - usize::from(column);
        let plain = plain_end(self.text, to);
        self.line = line;
        self.at = to;
        self.plain = plain;
        self.exact = plain.min(origin + COLUMNS);
        self.origin = origin;
    }

    /// Moves on to a place, if that stands in plain text on the next line. If that line begins
    /// before the place, but is not plain up to there, it moves to where the line begins.
    fn is_on_next_line(&mut self, to: usize) -> bool
        requires onwards { self.old.at ≤ to }
        requires boundary { IsCharBoundary self.old.text to }
        ensures text { self.new.text ≡ self.old.text }
        ensures onwards { self.new.at ≤ to }
        ensures place { IsTrue result → self.new.at ≡ to }
    {
        let end = self.plain;
        if end >= to || self.text.as_bytes()[end] != b'\n' {
            return false;
        }
        let begin = end + 1;
        let plain = plain_end(self.text, begin);
        self.line = stopped(usize::from(self.line) + 1);
        self.at = begin;
        self.plain = plain;
        self.exact = plain.min(begin + COLUMNS);
        self.origin = begin;
        if to > plain {
            return false;
        }
        self.at = to;
        true
    }

    /// Moves on to a place that often is this one.
    #[inline(always)]
    pub(crate) fn skip_to(&mut self, to: usize)
        requires onwards { self.old.at ≤ to }
        requires boundary { IsCharBoundary self.old.text to }
        ensures { self.new ≡ record { text = self.old.text; at = to } }
    {
        if to != self.at {
            self.advance(to);
        }
    }

    /// Moves to the end of a stretch that begins here and returns the stretch's span.
    #[inline(always)]
    pub(crate) fn span_to(&mut self, stop: usize) -> Span
        requires onwards { self.old.at ≤ stop }
        requires boundary { IsCharBoundary self.old.text stop }
        ensures span { result ≡ span_at self.old.text self.old.at stop }
        ensures between { IsBetweenChars self.old.text result }
        ensures place { self.new ≡ record { text = self.old.text; at = stop } }
    {
        self.span(self.at, stop)
    }

    /// Moves to the end of a stretch and returns the stretch's span.
    #[inline(always)]
    pub(crate) fn span(&mut self, start: usize, stop: usize) -> Span
        requires onwards { self.old.at ≤ start }
        requires ordered { start ≤ stop }
        requires start_boundary { IsCharBoundary self.old.text start }
        requires stop_boundary { IsCharBoundary self.old.text stop }
        ensures span { result ≡ span_at self.old.text start stop }
        ensures between { IsBetweenChars self.old.text result }
        ensures place { self.new ≡ record { text = self.old.text; at = stop } }
    {
        if stop <= self.exact {
            self.at = stop;
            return Span {
                start_line: self.line,
                start_col: (start - self.origin) as u16,
                start_offset: start as u32,
                end_line: self.line,
                end_col: (stop - self.origin) as u16,
                end_offset: stop as u32,
            };
        }
        self.skip_to(start);
        let (start_line, start_col, start_offset) = self.position();
        self.advance(stop);
        let (end_line, end_col, end_offset) = self.position();
        Span {
            start_line,
            start_col,
            start_offset,
            end_line,
            end_col,
            end_offset,
        }
    }

    /// Moves to where the text is refused and returns the refusal's span.
    #[cold]
    pub(crate) fn refusal(&mut self, place: usize) -> Span
        requires onwards { self.old.at ≤ place }
        requires boundary { IsCharBoundary self.old.text place }
        ensures span { result ≡ refusal_span self.old.text place }
        ensures place { self.new ≡ record { text = self.old.text; at = place } }
    {
        self.advance(place);
        let (line, column, offset) = self.position();
        Span {
            start_line: line,
            start_col: column,
            start_offset: offset,
            end_line: line,
            end_col: column.saturating_add(1),
            end_offset: offset.saturating_add(1),
        }
    }

    /// Moves to where a token that begins at `start` is refused and returns the refusal's span.
    #[cold]
    pub(crate) fn fault_span(&mut self, fault: LexFault, start: usize, place: usize) -> Span
        requires onwards { self.old.at ≤ start }
        requires ordered { start ≤ place }
        requires start_boundary { IsCharBoundary self.old.text start }
        requires place_boundary { IsCharBoundary self.old.text place }
        ensures span { result ≡ fault_span self.old.text (fault_view fault) start place }
        ensures place { self.new ≡ record { text = self.old.text; at = place } }
    {
        match fault {
            LexFault::BadEscape => self.span(start, place),
            _ => self.refusal(place),
        }
    }
}
