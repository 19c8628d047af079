//! The number at the front of a text.
ghost use Rattle.std.specs.Prelude.{◌≡◌, ◌≢◌, ℕ, ◌+◌, ◌*◌, ◌<◌, ◌≤◌, ◌==◌, ◌||◌, ◌&&◌, ◌^◌, drop, length, not, slice_index, true, MatchResult, IsTrue};
ghost use Rattle.std.specs.Option.{SomeIff};
ghost use Rattle.std.specs.Char.{digit_value, is_ascii_digit};
ghost use Rattle.std.specs.List.{prefix_len};
ghost use Rattle.std.specs.Str.{IsCharBoundary};
ghost use Rattle.std.specs.Str.Parse.{digits_value};
ghost use Rattle.minijinja_lexer.specs.Numbers as spec;
ghost use Rattle.minijinja_lexer.specs.private.NumberPlaces.{NumberPlaces};
ghost use Rattle.minijinja_lexer.specs.private.Views.{value_view, number_view};

use crate::fault::LexFault;
use crate::name::begins_name;
use crate::scan::byte_at;

fn radix_of(mark: u8) -> u32
    ensures value { result ≡ spec.radix_of mark }
    ensures prefixed { result ≢ 10 → 0 < mark × mark < 128 }
    ensures bounds { (2 ≤ result) × (result ≤ 16) }
{
    match mark {
        b'b' | b'B' => 2,
        b'o' | b'O' => 8,
        b'x' | b'X' => 16,
        _ => 10,
    }
}

fn radix_at(text: &[u8]) -> u32
    ensures value { result ≡ spec.radix_at text.now }
{
    if byte_at(text, 0) == b'0' {
        radix_of(byte_at(text, 1))
    } else {
        10
    }
}

fn prefix_size(radix: u32) -> usize
    ensures { result ≡ spec.prefix_size radix }
{
    if radix == 10 { 0 } else { 2 }
}

fn is_taken(radix: u32, byte: u8) -> bool
    ensures { result ≡ spec.is_taken radix byte }
{
    byte.is_ascii_digit() || byte == b'_' || (radix == 16 && byte.is_ascii_hexdigit())
}

fn taken_len(radix: u32, text: &[u8]) -> usize
    ensures value { result ≡ spec.taken_len radix text.now }
    ensures within { result ≤ length text.now }
{
    text.iter().take_while(|b| is_taken(radix, **b)).count()
}

fn is_exponent_mark(byte: u8) -> bool
    ensures { result ≡ spec.is_exponent_mark byte }
{
    byte == b'e' || byte == b'E'
}

fn begins_exponent(text: &[u8]) -> bool
    ensures { result ≡ spec.begins_exponent text.now }
{
    let next = byte_at(text, 1);
    is_exponent_mark(byte_at(text, 0)) && (next == b'+' || next == b'-' || next.is_ascii_digit())
}

fn reads_as_float(behind_dot: bool, text: &str) -> bool
    ensures { result ≡ spec.reads_as_float behind_dot text.now }
{
    let first = byte_at(text.as_bytes(), 0);
    if is_exponent_mark(first) {
        true
    } else if behind_dot || first != b'.' {
        false
    } else {
        let rest = &text[1..];
        begins_exponent(rest.as_bytes()) || !begins_name(rest)
    }
}

/// The value of a digit or a letter, or 36 for any other byte.
pub(crate) fn digit_of(byte: u8) -> u32
    ensures value { result ≡ digit_value byte }
    ensures bound { result ≤ 36 }
{
    match (byte as char).to_digit(36) {
        Some(digit) => digit,
        None => 36,
    }
}

fn all_in_radix(radix: u32, taken: &[u8]) -> bool
    ensures { result ≡ spec.all_in_radix radix taken.now }
{
    taken.iter().all(|b| *b == b'_' || digit_of(*b) < radix)
}

fn value_of(radix: u32, taken: &[u8]) -> Option<u128>
    requires some { 1 ≤ radix }
    ensures { SomeIff result (digits_value radix (spec.digits_of taken.now) < 2 ^ 128)
        (digits_value radix (spec.digits_of taken.now)) }
{
    let mut value: u128 = 0;
    for b in taken {
        if *b != b'_' {
            value = value
                .checked_mul(u128::from(radix))?
                .checked_add(u128::from(digit_of(*b)))?;
        }
    }
    Some(value)
}

fn taken_value(radix: u32, taken: &[u8]) -> Result<u128, LexFault>
    requires some { 1 ≤ radix }
    ensures { value_view result ≡ spec.taken_value radix taken.now }
{
    if taken.is_empty() {
        return Err(LexFault::MissingDigits);
    }
    if taken[taken.len() - 1] == b'_' {
        return Err(LexFault::TrailingUnderscore);
    }
    if !all_in_radix(radix, taken) {
        return Err(LexFault::DigitOutOfRange);
    }
    match value_of(radix, taken) {
        Some(value) => Ok(value),
        None => Err(LexFault::IntegerTooLarge),
    }
}

fn number_len(radix: u32, text: &str) -> usize
    requires radix { radix ≡ spec.radix_at text.now }
    requires digit { IsTrue (is_ascii_digit (slice_index text.now 0)) }
    ensures value { result ≡ spec.number_len text.now }
    ensures boundary { IsCharBoundary text.now result }
    ensures prefix { spec.prefix_size radix ≤ result }
    ensures some { 0 < result }
{
    let start = prefix_size(radix);
    start + taken_len(radix, &text.as_bytes()[start..])
}

/// The value of the number at the front and its length, or why it is refused and after how many
/// bytes.
#[tactic(auto, unfolding(crate::specs::Numbers::number))]
// Inlined, since a call would zero the memory of its result for each token.
#[inline(always)]
pub(crate) fn number(behind_dot: bool, text: &str) -> Result<(u128, usize), (LexFault, usize)>
    requires digit { IsTrue (is_ascii_digit (slice_index text.now 0)) }
    ensures value { number_view result ≡ spec.number behind_dot text.now }
    ensures places { NumberPlaces text.now (number_view result) }
{
    let radix = radix_at(text.as_bytes());
    let len = number_len(radix, text);
    if radix == 10 && reads_as_float(behind_dot, &text[len..]) {
        return Err((LexFault::FloatLiteral, len));
    }
    match taken_value(radix, &text.as_bytes()[prefix_size(radix)..len]) {
        Ok(value) => Ok((value, len)),
        Err(fault) => Err((fault, len)),
    }
}
