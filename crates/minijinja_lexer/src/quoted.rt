//! The string at the front of a text.
ghost use Rattle.std.specs.Prelude.{◌≡◌, ◌<◌, ◌≤◌, length, slice_index, IsTrue};
ghost use Rattle.minijinja_lexer.specs.Quoted as spec;
ghost use Rattle.minijinja_lexer.specs.private.TokenPlaces.{ScanPlaces};
ghost use Rattle.minijinja_lexer.specs.private.Views.{scan_view};

use crate::escape::has_meaning;
use crate::fault::LexFault;
use crate::scan::Sort;

/// How many bytes are before the next such quote. A backslash escapes the byte after it.
fn quoted_len(text: &[u8], quote: u8) -> usize
    ensures value { result ≡ spec.quoted_len quote text.now }
    ensures within { result ≤ length text.now }
    ensures found { result < length text.now → slice_index text.now result ≡ quote }
{
    let mut len = 0;
    while len < text.len() && text[len] != quote {
        if text[len] == b'\\' && text.len() - len > 1 {
            len += 2;
        } else {
            len += 1;
        }
    }
    len
}

fn has_escapes(inside: &[u8]) -> bool
    ensures { result ≡ spec.has_escapes inside.now }
{
    inside.iter().any(|b| *b == b'\\')
}

/// The string with this inside, of this length.
fn quoted_inside(inside: &[u8], len: usize) -> Result<(Sort, usize), (LexFault, usize)>
    requires { len ≡ length inside.now }
    ensures { scan_view result ≡ spec.quoted_inside inside.now len }
{
    if !has_escapes(inside) {
        Ok((Sort::Str, len + 2))
    } else if has_meaning(inside) {
        Ok((Sort::String, len + 2))
    } else {
        Err((LexFault::BadEscape, len + 2))
    }
}

/// The string at the front and its length, or why it is refused and after how many bytes.
#[inline]
pub(crate) fn quoted(text: &str) -> Result<(Sort, usize), (LexFault, usize)>
    requires { IsTrue (spec.is_quote (slice_index text.now 0)) }
    ensures value { scan_view result ≡ spec.quoted text.now }
    ensures places { ScanPlaces text.now 0 (scan_view result) }
{
    let bytes = text.as_bytes();
    let rest = &bytes[1..];
    let len = quoted_len(rest, bytes[0]);
    if len == rest.len() {
        return Err((LexFault::UnterminatedString, text.len()));
    }
    quoted_inside(&rest[..len], len)
}
