//! One token at a place in a text.
ghost use Rattle.std.specs.Prelude.{◌≡◌, ℕ, ◌+◌, ◌<◌, ◌≤◌, drop, length, slice_index};
ghost use Rattle.std.specs.Char.{is_ascii_whitespace};
ghost use Rattle.std.specs.List.{prefix_len};
ghost use Rattle.std.specs.Str.{IsCharBoundary, chars};
ghost use Rattle.minijinja_lexer.specs.TokenAt as spec;
ghost use Rattle.minijinja_lexer.specs.private.TokenPlaces.{ScanPlaces};
ghost use Rattle.minijinja_lexer.specs.private.Views.{sort_view, scan_view};

use crate::fault::LexFault;
use crate::name::{begins_name, name_len};
use crate::number::number;
use crate::quoted::quoted;
use crate::symbol::{Symbol, symbol_front};

/// The sort of a token.
#[derive(Clone, Copy)]
pub(crate) enum Sort {
    Ident,
    /// A string without escapes.
    Str,
    /// A string with escapes.
    String,
    /// An integer under 2^64.
    Int(u64),
    /// An integer from 2^64 to 2^128 - 1.
    Int128(u128),
    Symbol(Symbol),
}

fn space_run(bytes: &[u8]) -> usize
    ensures { result ≡ prefix_len is_ascii_whitespace bytes.now }
{
    bytes.iter().take_while(|b| b.is_ascii_whitespace()).count()
}

/// How many bytes at the front are ASCII whitespace.
pub(crate) fn space_len(text: &str) -> usize
    ensures value { result ≡ prefix_len is_ascii_whitespace text.now }
    ensures boundary { IsCharBoundary text.now result }
{
    space_run(text.as_bytes())
}

/// The byte at a place, or 0 past the end.
pub(crate) fn byte_at(text: &[u8], at: usize) -> u8
    ensures { result ≡ slice_index text.now at }
{
    if at < text.len() { text[at] } else { 0 }
}

fn int_sort(value: u128) -> Sort
    ensures { sort_view result ≡ spec.int_sort value }
{
    if value <= u128::from(u64::MAX) {
        Sort::Int(value as u64)
    } else {
        Sort::Int128(value)
    }
}

fn is_behind_dot(text: &[u8], at: usize) -> bool
    ensures { result ≡ spec.is_behind_dot text.now at }
{
    0 < at && byte_at(text, at - 1) == b'.'
}

/// The string, number or name at the place, and its length. Only a number asks what stands before.
fn word_front(text: &str, at: usize) -> Result<(Sort, usize), (LexFault, usize)>
    requires within { at < length text.now }
    requires boundary { IsCharBoundary text.now at }
    ensures value { scan_view result ≡ spec.word_front (spec.is_behind_dot text.now at)
        (drop at text.now) }
    ensures places { ScanPlaces (drop at text.now) 0 (scan_view result) }
{
    let rest = &text[at..];
    let first = rest.as_bytes()[0];
    if first == b'"' || first == b'\'' {
        quoted(rest)
    } else if first.is_ascii_digit() {
        let (value, len) = number(is_behind_dot(text.as_bytes(), at), rest)?;
        Ok((int_sort(value), len))
    } else if begins_name(rest) {
        Ok((Sort::Ident, name_len(rest)))
    } else {
        Err((LexFault::UnexpectedCharacter, 0))
    }
}

#[tactic(auto, unfolding(crate::specs::TokenAt::token_front))]
fn token_front(text: &str, at: usize) -> Result<(Sort, usize), (LexFault, usize)>
    requires within { at < length text.now }
    requires boundary { IsCharBoundary text.now at }
    ensures value { scan_view result ≡ spec.token_front (spec.is_behind_dot text.now at)
        (drop at text.now) }
    ensures places { ScanPlaces (drop at text.now) 0 (scan_view result) }
{
    let rest = &text[at..];
    // Most tokens are names, and most names begin with a small letter.
    if rest.as_bytes()[0].is_ascii_lowercase() {
        return Ok((Sort::Ident, name_len(rest)));
    }
    match symbol_front(rest.as_bytes()) {
        Some((symbol, len)) => Ok((Sort::Symbol(symbol), len)),
        None => word_front(text, at),
    }
}

/// The token at the place and where it stops, or why and where it is refused.
#[tactic(auto, unfolding(crate::specs::TokenAt::token_at))]
pub(crate) fn token_at(text: &str, at: usize) -> Result<(Sort, usize), (LexFault, usize)>
    requires within { at < length text.now }
    requires boundary { IsCharBoundary text.now at }
    ensures value { scan_view result ≡ spec.token_at text.now at }
    ensures places { ScanPlaces text.now at (scan_view result) }
{
    match token_front(text, at) {
        Ok((sort, len)) => Ok((sort, at + len)),
        Err((fault, len)) => Err((fault, at + len)),
    }
}
