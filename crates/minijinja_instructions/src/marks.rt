//! The line and the span of each instruction of a list, kept only where they change.
ghost use Rattle.std.specs.Prelude.{◌≡◌, ◌+◌, ◌<◌, ◌^◌, ◌++◌, ◌∷◌, [], length, Option, Some};
ghost use Rattle.std.specs.Option.{option_and_then};
ghost use Rattle.minijinja_syntax.specs.declared.tokens.Span.{Span};
ghost use Rattle.minijinja_semantics.specs.Marks.{shown};
ghost use Rattle.minijinja_instructions.specs.Runs.{values_of, HasRoom};

use crate::runs::Runs;
use minijinja_syntax::tokens::Span;
use std::alloc::{AllocError, Global};

/// The line and the span of each instruction of a list, kept only where they change.
#[derive(Drop)]
pub struct MarkList {
    lines: Runs<u16>,
    /// A span of zeros is in force where there is none.
    spans: Runs<Span>,
    ghost together: { length (values_of lines) ≡ length (values_of spans) },
}

impl MarkList {
    ghost use Rattle.std.specs.Prelude.{take, OnOk};
    ghost use Rattle.minijinja_semantics.specs.Marks.{last_mark};
    ghost use Rattle.minijinja_instructions.specs.MarkLists.{marks_in, HaveRoom};
    ghost use Rattle.minijinja_instructions.specs.Marks.{line_at, span_at};

    /// The marks of no instruction. It allocates nothing yet.
    pub fn new(alloc: Global) -> Self
        ensures { marks_in result ≡ [] }
    {
        MarkList {
            lines: Runs::new(alloc),
            spans: Runs::new(alloc),
        }
    }

    /// Reserves memory for the marks of about `count` more instructions: most lists change the span
    /// at fewer than every second one, and the line at about every eighth.
    pub fn make_room(&mut self, count: usize) -> Result<(), AllocError>
        ensures { marks_in self.new ≡ marks_in self.old }
    {
        self.spans.make_room(count / 2)?;
        self.lines.make_room(count / 8)
    }

    /// Makes room for the marks of one instruction more.
    pub fn reserve(&mut self) -> Result<(), AllocError>
        ensures same { marks_in self.new ≡ marks_in self.old }
        ensures room { OnOk result (HaveRoom self.new) }
    {
        self.lines.reserve()?;
        self.spans.reserve()
    }

    /// One instruction more, which has what the last one has.
    pub fn again(&mut self)
        requires { length (marks_in self.old) + 1 < 2 ^ 64 }
        ensures { marks_in self.new ≡ marks_in self.old ++ last_mark (marks_in self.old) ∷ [] }
    {
        self.lines.again();
        self.spans.again();
    }

    /// One instruction more, on a line, counted from 1, and at a span. A span of zeros is none.
    #[inline(always)]
    pub fn put(&mut self, line: u16, span: Span)
        requires room { HaveRoom self.old }
        requires few { length (marks_in self.old) + 1 < 2 ^ 64 }
        ensures { marks_in self.new ≡ marks_in self.old ++
            (record { line = Some line; span = shown span }) ∷ [] }
    {
        put_line(&mut self.lines, line);
        put_span(&mut self.spans, span);
    }

    /// Drops the marks of all instructions from an index on.
    pub fn cut(&mut self, index: usize)
        ensures { marks_in self.new ≡ take index (marks_in self.old) }
    {
        self.lines.cut(index);
        self.spans.cut(index);
    }

    /// The line of the instruction at an index; past the end, that of the last one.
    pub fn line(&self, index: usize) -> Option<u16>
        ensures { result ≡ line_at (marks_in self.now) index }
    {
        self.lines.at(index)
    }

    /// The span of the instruction at an index; past the end, that of the last one.
    pub fn span(&self, index: usize) -> Option<Span>
        ensures { result ≡ span_at (marks_in self.now) index }
    {
        placed(self.spans.at(index))
    }

    /// How often the line changes, and how often the span.
    #[cfg(test)]
    pub fn changes(&self) -> (usize, usize) {
        (self.lines.changes(), self.spans.changes())
    }
}

/// One place more, on this line.
#[inline(always)]
fn put_line(lines: &mut Runs<u16>, line: u16)
    requires room { HasRoom lines.old }
    requires few { length (values_of lines.old) + 1 < 2 ^ 64 }
    ensures { values_of lines.new ≡ values_of lines.old ++ Some line ∷ [] }
{
    if lines.last() == Some(line) {
        lines.again();
    } else {
        lines.put(line);
    }
}

/// One place more, at this span. A span of zeros need not be kept where there was none.
#[inline(always)]
fn put_span(spans: &mut Runs<Span>, span: Span)
    requires room { HasRoom spans.old }
    requires few { length (values_of spans.old) + 1 < 2 ^ 64 }
    ensures { (s : Option Span) × (values_of spans.new ≡ values_of spans.old ++ s ∷ []) ×
        (option_and_then shown s ≡ shown span) }
{
    match spans.last() {
        Some(last) if last == span => spans.again(),
        None if span == Span::default() => spans.again(),
        _ => spans.put(span),
    }
}

/// The span, unless it is one of zeros.
fn placed(span: Option<Span>) -> Option<Span>
    ensures { result ≡ option_and_then shown span }
{
    match span {
        Some(span) if span != Span::default() => Some(span),
        _ => None,
    }
}
