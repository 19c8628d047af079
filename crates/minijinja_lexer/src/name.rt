//! The identifier at the front of a text.
ghost use Rattle.std.specs.Prelude.{◌≡◌, ◌<◌, ◌&&◌, nat_lt, IsTrue};
ghost use Rattle.std.specs.Str.{IsCharBoundary, chars};
ghost use Rattle.minijinja_lexer.specs.Names as spec;

fn continues_name(c: char) -> bool
    ensures { result ≡ spec.continues_name c }
{
    unicode_ident::is_xid_continue(c) | (c == '_')
}

/// Whether an identifier begins at the front.
pub(crate) fn begins_name(text: &str) -> bool
    ensures value { result ≡ spec.begins_name (chars text.now) }
    ensures continues { IsTrue result → 0 < spec.name_len (chars text.now) }
{
    match text.chars().next() {
        Some(c) => unicode_ident::is_xid_start(c) | (c == '_'),
        None => false,
    }
}

/// Whether the byte is an ASCII character that may continue a name.
#[inline]
fn continues_ascii(byte: u8) -> bool
    ensures { result ≡ (nat_lt byte 128 && spec.continues_name byte) }
{
    // Most bytes of names are small letters, and most names end before a space or a mark.
    if byte.is_ascii_lowercase() {
        return true;
    }
    if byte < b'0' {
        return false;
    }
    byte.is_ascii_alphanumeric() | (byte == b'_')
}

/// How many bytes at the front may continue a name.
#[inline]
pub(crate) fn name_len(text: &str) -> usize
    ensures value { result ≡ spec.name_len (chars text.now) }
    ensures boundary { IsCharBoundary text.now result }
{
    let bytes = text.as_bytes();
    let mut len = 0;
    while len < bytes.len() {
        let byte = bytes[len];
        if !continues_ascii(byte) {
            return if byte < 128 {
                len
            } else {
                len + any_name_len(&text[len..])
            };
        }
        len += 1;
    }
    len
}

/// How many bytes at the front may continue a name, read character by character.
#[inline(never)]
fn any_name_len(text: &str) -> usize
    ensures value { result ≡ spec.name_len (chars text.now) }
    ensures boundary { IsCharBoundary text.now result }
{
    let mut len = 0;
    for c in text.chars() {
        if !continues_name(c) {
            return len;
        }
        len += c.len_utf8();
    }
    len
}
