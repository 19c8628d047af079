//! The meaning of the inside of a string with escapes.
ghost use Rattle.std.specs.Prelude.{◌≡◌, ◌⊎◌, ℕ, ◌+◌, ◌-◌, ◌<◌, ◌≤◌, ◌==◌, not, IsTrue, length, slice_index, is_some, IsSome, IfSome, IfOk, Some};
ghost use Rattle.std.specs.List.{prefix_len};
ghost use Rattle.std.specs.Char.Utf16.{is_high_surrogate, is_low_surrogate, surrogate_pair_char};
ghost use Rattle.std.specs.Str.{IsCharBoundary};
ghost use Rattle.std.specs.String.{string_bytes};
ghost use Rattle.minijinja_lexer.specs.Escapes as spec;
ghost use Rattle.minijinja_lexer.specs.private.AsciiEnds.{EndsInAscii};

use crate::number::digit_of;
use crate::scan::byte_at;
use std::alloc::{AllocError, Global};

fn simple_escape(byte: u8) -> Option<char>
    ensures { result ≡ spec.simple_escape byte }
{
    match byte {
        b'\\' | b'"' | b'\'' | b'/' => Some(byte as char),
        b'b' => Some('\x08'),
        b'f' => Some('\x0c'),
        b'n' => Some('\n'),
        b'r' => Some('\r'),
        b't' => Some('\t'),
        _ => None,
    }
}

fn hex_unit(text: &[u8]) -> Option<u32>
    ensures value { result ≡ spec.hex_unit text.now }
    ensures bound { IfSome result (λ u. u < 65536) }
{
    if text.len() < 4 {
        return None;
    }
    let (a, b, c, d) = (
        digit_of(text[0]),
        digit_of(text[1]),
        digit_of(text[2]),
        digit_of(text[3]),
    );
    if a < 16 && b < 16 && c < 16 && d < 16 {
        Some(((a * 16 + b) * 16 + c) * 16 + d)
    } else {
        None
    }
}

fn unit_escape(text: &[u8]) -> Option<u32>
    ensures value { result ≡ spec.unit_escape text.now }
    ensures bound { IfSome result (λ u. u < 65536) }
    ensures places { IfSome result (λ u. EndsInAscii text.now 6) }
{
    if byte_at(text, 0) == b'\\' && byte_at(text, 1) == b'u' {
        hex_unit(&text[2..])
    } else {
        None
    }
}

fn is_high_surrogate(unit: u32) -> bool
    ensures { result ≡ is_high_surrogate unit }
{
    0xd800 <= unit && unit < 0xdc00
}

fn is_low_surrogate(unit: u32) -> bool
    ensures { result ≡ is_low_surrogate unit }
{
    0xdc00 <= unit && unit < 0xe000
}

fn surrogate_pair_char(high: u32, low: u32) -> Option<char>
    requires high { IsTrue (is_high_surrogate high) }
    requires low { IsTrue (is_low_surrogate low) }
    ensures { result ≡ Some (surrogate_pair_char high low) }
{
    char::from_u32(0x10000 + (high - 0xd800) * 0x400 + (low - 0xdc00))
}

fn surrogate_pair(high: u32, rest: &[u8]) -> Option<(char, usize)>
    requires high { IsTrue (is_high_surrogate high) }
    ensures value { result ≡ spec.surrogate_pair high (spec.unit_escape rest.now) }
    ensures places { IfSome result (λ e. (e.1 ≡ 12) × EndsInAscii rest.now 6) }
{
    let low = unit_escape(rest)?;
    if !is_low_surrogate(low) {
        return None;
    }
    let c = surrogate_pair_char(high, low)?;
    Some((c, 12))
}

fn unit_char(unit: u32, rest: &[u8]) -> Option<(char, usize)>
    requires bound { unit < 65536 }
    ensures value { result ≡ spec.unit_char rest.now unit }
    ensures places { IfSome result (λ e. (e.1 ≡ 6) ⊎ ((e.1 ≡ 12) × EndsInAscii rest.now 6)) }
{
    if is_high_surrogate(unit) {
        return surrogate_pair(unit, rest);
    }
    let c = char::from_u32(unit)?;
    Some((c, 6))
}

/// The character that the escape at the front means, and the length of the escape.
fn escape(text: &[u8]) -> Option<(char, usize)>
    ensures value { result ≡ spec.escape text.now }
    ensures places { IfSome result (λ e. EndsInAscii text.now e.1) }
{
    if byte_at(text, 0) != b'\\' {
        return None;
    }
    let mark = byte_at(text, 1);
    if mark == b'u' {
        let unit = unit_escape(text)?;
        return unit_char(unit, &text[6..]);
    }
    let c = simple_escape(mark)?;
    Some((c, 2))
}

/// Whether each escape means a character.
pub(crate) fn has_meaning(inside: &[u8]) -> bool
    ensures { result ≡ is_some (spec.unescaped inside.now) }
{
    let mut at = 0;
    while at < inside.len() {
        if inside[at] == b'\\' {
            let Some((_, len)) = escape(&inside[at..]) else {
                return false;
            };
            at += len;
        } else {
            at += 1;
        }
    }
    true
}

fn plain_run(text: &[u8]) -> usize
    ensures value { result ≡ prefix_len (λ b. not (b == 92)) text.now }
    ensures within { result ≤ length text.now }
    ensures backslash { result < length text.now → slice_index text.now result ≡ 92 }
{
    text.iter().take_while(|b| **b != b'\\').count()
}

/// How many bytes are before the first backslash.
fn plain_len(text: &str) -> usize
    ensures value { result ≡ prefix_len (λ b. not (b == 92)) text.now }
    ensures boundary { IsCharBoundary text.now result }
    ensures backslash { result < length text.now → slice_index text.now result ≡ 92 }
{
    plain_run(text.as_bytes())
}

/// Decodes the inside of a string with escapes.
#[inline(never)]
pub(crate) fn unescape(alloc: Global, inside: &str) -> Result<String, AllocError>
    requires { IsSome (spec.unescaped inside.now) }
    ensures { IfOk result (λ s. spec.unescaped inside.now ≡ Some (string_bytes s)) }
{
    let mut decoded = String::with_capacity(alloc, inside.len())?;
    let mut at = 0;
    while at < inside.len() {
        let rest = &inside[at..];
        let plain = plain_len(rest);
        decoded.push_str(&rest[..plain])?;
        at += plain;
        if let Some((c, len)) = escape(&inside.as_bytes()[at..]) {
            decoded.push(c)?;
            at += len;
        }
    }
    Ok(decoded)
}
