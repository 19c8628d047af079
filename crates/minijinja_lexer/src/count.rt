//! The lines and columns of places in a text.
ghost use Rattle.std.specs.Prelude.{◌≡◌, ◌+◌, ◌<◌, ◌≤◌, ◌^◌, ◌++◌, take, length, min, count_by};
ghost use Rattle.minijinja_syntax.specs.Positions.{is_lead, line_after, column_after};
ghost use Rattle.minijinja_syntax.specs.Texts.{Text};
ghost use Rattle.minijinja_lexer.specs.private.Place.{next_line, next_column};
ghost use Rattle.minijinja_lexer.specs.private.Plain.{IsPlain};

use memchr::{memchr, memchr_iter, memrchr};

/// A stretch of at least this many bytes is searched for line ends, not counted byte by byte.
const FAR: usize = 32;

/// How many bytes ahead plain text is looked for.
const AHEAD: usize = 128;

/// The line and the column after one more byte. The caller limits them.
#[inline(always)]
fn step(line: usize, column: usize, byte: u8) -> (usize, usize)
    requires line { line + 1 < 2 ^ 64 }
    requires column { column + 1 < 2 ^ 64 }
    ensures line { min 65535 result.0 ≡ next_line (min 65535 line) byte }
    ensures column { min 65535 result.1 ≡ next_column (min 65535 column) byte }
    ensures line_bound { result.0 ≤ line + 1 }
    ensures column_bound { result.1 ≤ column + 1 }
{
    if byte == b'\n' {
        (line + 1, 0)
    } else {
        (line, column + usize::from(is_lead(byte)))
    }
}

/// Whether a character begins with the byte.
#[inline(always)]
fn is_lead(byte: u8) -> bool
    ensures { result ≡ is_lead byte }
{
    byte < 128 || byte >= 192
}

/// The line and the column of the place `to`, from those of `at`.
#[inline(always)]
pub(crate) fn after(text: &str, at: usize, to: usize, line: u16, column: u16) -> (u16, u16)
    requires ordered { at ≤ to }
    requires within { to ≤ length text.now }
    requires line { line ≡ line_after (take at text.now) }
    requires column { column ≡ column_after (take at text.now) }
    ensures line { result.0 ≡ line_after (take to text.now) }
    ensures column { result.1 ≡ column_after (take to text.now) }
{
    let bytes = text.as_bytes();
    if to - at >= FAR {
        return far_after(bytes, at, to, line, column);
    }
    let mut line = usize::from(line);
    let mut column = usize::from(column);
    for i in at..to {
        (line, column) = step(line, column, bytes[i]);
    }
    (stopped(line), stopped(column))
}

/// The line and the column of the place `to`, from those of `at`, which is many bytes before it.
#[inline(never)]
fn far_after(text: &[u8], at: usize, to: usize, line: u16, column: u16) -> (u16, u16)
    requires ordered { at ≤ to }
    requires within { to ≤ length text.now }
    requires line { line ≡ line_after (take at text.now) }
    requires column { column ≡ column_after (take at text.now) }
    ensures line { result.0 ≡ line_after (take to text.now) }
    ensures column { result.1 ≡ column_after (take to text.now) }
{
    let stretch = &text[at..to];
    match memrchr(b'\n', stretch) {
        Some(last) => (
            moved(line, memchr_iter(b'\n', stretch).count()),
            moved(0, char_count(&stretch[last + 1..])),
        ),
        None => (line, moved(column, char_count(stretch))),
    }
}

/// A line or a column moved on by a count.
fn moved(count: u16, more: usize) -> u16
    ensures { result ≡ min 65535 (count + more) }
{
    stopped(usize::from(count).saturating_add(more))
}

/// A line or a column, which a span holds up to 65535.
#[inline(always)]
pub(crate) fn stopped(count: usize) -> u16
    ensures { result ≡ min 65535 count }
{
    count.min(65535) as u16
}

/// How many characters begin in the bytes.
fn char_count(bytes: &[u8]) -> usize
    ensures { result ≡ count_by is_lead bytes.now }
{
    if bytes.is_ascii() {
        bytes.len()
    } else {
        bytes.iter().filter(|byte| is_lead(**byte)).count()
    }
}

/// The end of some plain text that starts at `at`: ASCII characters other than newlines.
pub(crate) fn plain_end(text: &str, at: usize) -> usize
    requires { at ≤ length text.now }
    ensures onwards { at ≤ result }
    ensures plain { IsPlain text.now at result }
{
    let rest = &text.as_bytes()[at..];
    at + plain_len(&rest[..rest.len().min(AHEAD)])
}

/// How many bytes at the front are plain text.
fn plain_len(bytes: &[u8]) -> usize
    ensures within { result ≤ length bytes.now }
    ensures plain { IsPlain bytes.now 0 result }
{
    let line = match memchr(b'\n', bytes) {
        Some(end) => &bytes[..end],
        None => bytes,
    };
    if line.is_ascii() {
        line.len()
    } else {
        line.iter().take_while(|byte| byte.is_ascii()).count()
    }
}
