//! The parts of a tag: its tokens, and its end.
ghost use Rattle.std.specs.Prelude.{◌≡◌, ℕ, ◌+◌, ◌-◌, ◌<◌, ◌≤◌, ◌==◌, ◌||◌, Option, option_map, length, drop, slice_index, IfOk, IfErr, IfSome, IsTrue};
ghost use Rattle.std.specs.Str.{IsCharBoundary};
ghost use Rattle.minijinja_syntax.specs.Syntax.{IsBuildable, IsDelimited, end_of};
ghost use Rattle.minijinja_syntax.specs.Tokens.{tok_of};
ghost use Rattle.minijinja_lexer.specs.Brackets as brackets;
ghost use Rattle.minijinja_lexer.specs.Cut as spec;
ghost use Rattle.minijinja_lexer.specs.Whitespace.{past_space};
ghost use Rattle.minijinja_lexer.specs.Stream.{OwnsMemory};
ghost use Rattle.minijinja_lexer.specs.TextTokens.{start_tok, end_tok, lexeme_tok};
ghost use Rattle.minijinja_lexer.specs.private.EndBytes.{AreEndBytes};
ghost use Rattle.minijinja_lexer.specs.private.Places.{TagPartPlaces, ClosePlaces, LexemePlaces};
ghost use Rattle.minijinja_lexer.specs.private.Views.{tag_view, sort_view, lexeme_view, close_view, tag_part_view, end_view};

use crate::escape::unescape;
use crate::fault::LexFault;
use crate::scan::{Sort, byte_at, token_at};
use crate::symbol::{closes, opens, symbol_token};
use crate::whitespace::{
    Control, control_at, control_len, past_line_end, past_line_space, past_space, past_tail,
};
use minijinja_syntax::syntax::{StartMarker, SyntaxConfig, stands_at};
use minijinja_syntax::tokens::Token;
use std::alloc::{AllocError, Global};

/// A kind of tag that holds tokens.
#[derive(Clone, Copy)]
pub(crate) enum Tag {
    Variable,
    Block,
    /// A line statement.
    Line,
}

/// The bytes that the ends of tags begin with.
#[derive(Clone, Copy)]
pub(crate) struct EndBytes {
    variable: u8,
    block: u8,
}

/// The places of a token in a tag, and its sort.
#[derive(Clone, Copy)]
pub(crate) struct Lexeme {
    pub start: usize,
    pub stop: usize,
    pub sort: Sort,
}

/// How a tag ends.
#[derive(Clone, Copy)]
pub(crate) enum Close {
    /// By its end, from `start` to `stop`, with what is skipped up to `after`.
    Closed {
        start: usize,
        stop: usize,
        after: usize,
    },
    /// By the end of the text.
    Broken,
    /// A token that begins at `start` is refused at `place`.
    Refused {
        fault: LexFault,
        start: usize,
        place: usize,
    },
}

/// A part of a tag, after whitespace: a token, or how the tag ends.
#[derive(Clone, Copy)]
pub(crate) enum TagPart {
    Token(Lexeme),
    End(Close),
}

/// The token of a tag's marker.
pub(crate) fn start_token<'s>(tag: Tag) -> Token<'s>
    ensures { tok_of result ≡ start_tok (tag_view tag) }
{
    match tag {
        Tag::Variable => Token::VariableStart,
        Tag::Block | Tag::Line => Token::BlockStart,
    }
}

/// The token of a tag's end.
pub(crate) fn end_token<'s>(tag: Tag) -> Token<'s>
    ensures { tok_of result ≡ end_tok (tag_view tag) }
{
    match tag {
        Tag::Variable => Token::VariableEnd,
        Tag::Block | Tag::Line => Token::BlockEnd,
    }
}

/// The bytes that the ends of tags of the syntax begin with.
pub(crate) fn end_bytes(syntax: &SyntaxConfig) -> EndBytes
    ensures { AreEndBytes syntax.now result }
{
    EndBytes {
        variable: byte_at(syntax.variable_delimiters().1.as_bytes(), 0),
        block: byte_at(syntax.block_delimiters().1.as_bytes(), 0),
    }
}

/// How many brackets a token opens.
pub(crate) fn opened_by(sort: Sort) -> usize
    ensures value { result ≡ brackets.opened_by (sort_view sort) }
    ensures bound { result ≤ 1 }
{
    match sort {
        Sort::Symbol(symbol) => opens(symbol),
        _ => 0,
    }
}

/// How many brackets a token closes.
pub(crate) fn shut_by(sort: Sort) -> usize
    ensures value { result ≡ brackets.shut_by (sort_view sort) }
    ensures bound { result ≤ 1 }
{
    match sort {
        Sort::Symbol(symbol) => closes(symbol),
        _ => 0,
    }
}

/// The token of a lexeme. It borrows from the text unless it needs memory.
pub(crate) fn token_of<'s>(
    alloc: Global,
    text: &'s str,
    at: usize,
    lexeme: Lexeme,
) -> Result<Token<'s>, AllocError>
    requires { LexemePlaces text.now at (lexeme_view lexeme) }
    ensures token { IfOk result (λ t. tok_of t ≡ lexeme_tok text.now (lexeme_view lexeme)) }
    ensures memory { IfErr result (λ _. OwnsMemory (lexeme_tok text.now (lexeme_view lexeme))) }
{
    let Lexeme { start, stop, sort } = lexeme;
    Ok(match sort {
        Sort::Ident => Token::Ident(&text[start..stop]),
        Sort::Str => Token::Str(&text[start + 1..stop - 1]),
        Sort::String => Token::String(unescape(alloc, &text[start + 1..stop - 1])?),
        Sort::Int(value) => Token::Int(value),
        Sort::Int128(value) => Token::Int128(Box::new(alloc, value)?),
        Sort::Symbol(symbol) => symbol_token(symbol),
    })
}

/// Whether an end delimiter that begins with the byte may stand at a place, by itself or after a
/// control. This settles most places without a look at the delimiter.
#[inline(always)]
fn may_end(text: &str, at: usize, first: u8) -> bool
    ensures { result ≡ (slice_index text.now at == first || slice_index text.now at == 45
        || slice_index text.now at == 43) }
{
    let byte = byte_at(text.as_bytes(), at);
    byte == first || byte == b'-' || byte == b'+'
}

/// The control of the end delimiter at a place, and where the delimiter ends.
#[tactic(auto, unfolding(crate::specs::Cut::end_at))]
#[inline(always)]
fn end_at(text: &str, at: usize, delimiter: &str) -> Option<(Control, usize)>
    requires some { 0 < length delimiter.now }
    requires boundary { IsCharBoundary text.now at }
    ensures value { end_view result ≡ spec.end_at delimiter.now text.now at }
    ensures onwards { IfSome result (λ r. at < r.1) }
    ensures boundary { IfSome result (λ r. IsCharBoundary text.now r.1) }
{
    let control = control_at(text, at);
    if control_len(control) == 1 && stands_at(text, at + 1, delimiter) {
        Some((control, at + 1 + delimiter.len()))
    } else if stands_at(text, at, delimiter) {
        Some((Control::Absent, at + delimiter.len()))
    } else {
        None
    }
}

/// The end delimiter at a place after whitespace, with the tail that is skipped after it.
#[inline(always)]
fn delimiter_close(
    syntax: &SyntaxConfig,
    text: &str,
    marker: StartMarker,
    delimiter: &str,
    start: usize,
) -> Option<Close>
    requires some { 0 < length delimiter.now }
    requires delimiter { delimiter.now ≡ end_of syntax.now marker }
    requires boundary { IsCharBoundary text.now start }
    ensures value { option_map close_view result ≡ spec.delimited_close syntax.now text.now marker
        start (spec.end_at delimiter.now text.now start) }
    ensures places { IfSome result (λ close. ClosePlaces text.now start (close_view close)) }
{
    let (control, stop) = end_at(text, start, delimiter)?;
    let after = past_tail(syntax, marker, control, text, stop);
    Some(Close::Closed { start, stop, after })
}

/// A line end or the end of the text, after whitespace other than `\r` and `\n`.
// Inlined, since a call would zero the memory of its result for each token.
#[inline(always)]
fn line_close(text: &str, at: usize) -> Option<Close>
    requires { IsCharBoundary text.now at }
    ensures value { option_map close_view result ≡ spec.line_close text.now at }
    ensures places { IfSome result (λ close. ClosePlaces text.now at (close_view close)) }
{
    let place = past_line_space(text, at);
    let stop = past_line_end(text, place);
    if place == text.len() || place < stop {
        Some(Close::Closed {
            start: at,
            stop,
            after: stop,
        })
    } else {
        None
    }
}

/// The end of a tag at a place, if it is there. From there to `start` is whitespace.
#[tactic(auto, unfolding(crate::specs::Cut::close_at))]
#[inline]
fn close_at(
    syntax: &SyntaxConfig,
    ends: EndBytes,
    text: &str,
    tag: Tag,
    at: usize,
    start: usize,
) -> Option<Close>
    requires ends { AreEndBytes syntax.now ends }
    requires boundary { IsCharBoundary text.now at }
    requires space { start ≡ past_space text.now at }
    requires behind { IsCharBoundary text.now start }
    ensures value { option_map close_view result ≡ spec.close_at syntax.now text.now (tag_view tag)
        at }
    ensures places { IfSome result (λ close. ClosePlaces text.now at (close_view close)) }
{
    match tag {
        Tag::Variable => {
            if !may_end(text, start, ends.variable) {
                return None;
            }
            let delimiter = syntax.variable_delimiters().1;
            delimiter_close(syntax, text, StartMarker::Variable, delimiter, start)
        }
        Tag::Block => {
            if !may_end(text, start, ends.block) {
                return None;
            }
            let delimiter = syntax.block_delimiters().1;
            delimiter_close(syntax, text, StartMarker::Block, delimiter, start)
        }
        Tag::Line => line_close(text, at),
    }
}

/// How a tag ends at a place where the text is over.
pub(crate) fn close_over(len: usize, place: usize, tag: Tag) -> Close
    ensures { close_view result ≡ spec.close_over len place (tag_view tag) }
{
    match tag {
        Tag::Variable | Tag::Block => Close::Broken,
        Tag::Line => Close::Closed {
            start: place,
            stop: place,
            after: len,
        },
    }
}

/// The token at a place after whitespace, or how the tag ends there.
#[inline]
fn token_part(text: &str, tag: Tag, at: usize) -> TagPart
    requires { IsCharBoundary text.now at }
    ensures value { tag_part_view result ≡ spec.token_part text.now (tag_view tag) at }
    ensures places { TagPartPlaces text.now at (tag_part_view result) }
{
    if at < text.len() {
        match token_at(text, at) {
            Ok((sort, stop)) => TagPart::Token(Lexeme {
                start: at,
                stop,
                sort,
            }),
            Err((fault, place)) => TagPart::End(Close::Refused {
                fault,
                start: at,
                place,
            }),
        }
    } else {
        TagPart::End(close_over(text.len(), at, tag))
    }
}

/// The part of a tag at a place before which the given number of brackets was opened and shut in
/// it.
#[tactic(auto, unfolding(crate::specs::Cut::tag_part_at))]
#[inline]
pub(crate) fn tag_part_at(
    syntax: &SyntaxConfig,
    ends: EndBytes,
    text: &str,
    tag: Tag,
    opened: usize,
    shut: usize,
    at: usize,
) -> TagPart
    requires ends { AreEndBytes syntax.now ends }
    requires boundary { IsCharBoundary text.now at }
    ensures value { tag_part_view result ≡ spec.tag_part_at syntax.now text.now (tag_view tag)
        opened shut at }
    ensures places { TagPartPlaces text.now at (tag_part_view result) }
{
    let start = past_space(text, at);
    if opened == shut {
        if let Some(close) = close_at(syntax, ends, text, tag, at, start) {
            return TagPart::End(close);
        }
    }
    token_part(text, tag, start)
}
