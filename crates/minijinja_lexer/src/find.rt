//! Searches for delimiters and line ends.
ghost use Rattle.std.specs.Prelude.{◌≡◌, ◌+◌, ◌<◌, ◌≤◌, ◌∷◌, [], length, slice_index};
ghost use Rattle.std.specs.Str.{IsCharBoundary};
ghost use Rattle.memchr.specs.Find.{FindsNeedle};
ghost use Rattle.minijinja_lexer.specs.Cut as spec;

use memchr::{memchr, memchr2, memmem};

/// The first place from `at` on with the delimiter, or the end of the text.
pub(crate) fn next_delimiter(text: &str, at: usize, delimiter: &str) -> usize
    requires some { 0 < length delimiter.now }
    requires within { at ≤ length text.now }
    ensures value { result ≡ spec.next_delimiter delimiter.now text.now at }
    ensures within { (at ≤ result) × (result ≤ length text.now) }
    ensures start { IsCharBoundary text.now result }
    ensures end { result < length text.now → IsCharBoundary text.now
        (result + length delimiter.now) }
{
    match find(&text.as_bytes()[at..], delimiter.as_bytes()) {
        Some(ahead) => at + ahead,
        None => text.len(),
    }
}

/// The first place of a needle. One of two bytes, as most delimiters are, is searched for by its
/// first byte: `memmem` chooses how to search first, which takes longer than reading a comment of
/// one line.
fn find(haystack: &[u8], needle: &[u8]) -> Option<usize>
    ensures { FindsNeedle haystack.now needle.now 0 result }
{
    match needle {
        [first, second] => find_pair(haystack, *first, *second),
        _ => memmem::find(haystack, needle),
    }
}

/// The first place of two bytes.
fn find_pair(haystack: &[u8], first: u8, second: u8) -> Option<usize>
    ensures { FindsNeedle haystack.now (first ∷ second ∷ []) 0 result }
{
    let mut place = 0;
    while let Some(ahead) = memchr(first, &haystack[place..]) {
        place += ahead;
        if place + 1 < haystack.len() && haystack[place + 1] == second {
            return Some(place);
        }
        place += 1;
    }
    None
}

/// The first place from `at` on where a line ends, or the end of the text.
pub(crate) fn next_line_end(text: &str, at: usize) -> usize
    requires { at ≤ length text.now }
    ensures value { result ≡ spec.next_line_end text.now at }
    ensures within { (at ≤ result) × (result ≤ length text.now) }
    ensures boundary { IsCharBoundary text.now result }
{
    match memchr2(b'\r', b'\n', &text.as_bytes()[at..]) {
        Some(ahead) => at + ahead,
        None => text.len(),
    }
}
