//! Rows of texts, each with what a test says of it, and how such texts are written.
use std::alloc::{AllocError, Global};
use std::test::Fail;

/// What a test says of a text.
pub trait Subject {
    fn words(alloc: Global, text: &str) -> Result<String, Fail>;
}

/// Fails at the first row of which something else is said. A row is a line `TEXT => WORDS`, or a
/// text alone, of which nothing is to be said.
pub fn hold<S: Subject>(alloc: Global, rows: &str) -> Result<(), Fail> {
    for row in rows.lines() {
        if !row.is_empty() {
            let (text, wanted) = parted(row, " => ");
            holds::<S>(alloc, text, wanted)?;
        }
    }
    Ok(())
}

/// Fails where something else is said of a text, both as a row writes them.
fn holds<S: Subject>(alloc: Global, text: &str, wanted: &str) -> Result<(), Fail> {
    let text = decoded(alloc, text)?;
    let wanted = decoded(alloc, wanted)?;
    let words = S::words(alloc, text.as_str())?;
    if words.as_str() != wanted.as_str() {
        return Err(Fail::new(format_args!("{words} is said of {text}")));
    }
    Ok(())
}

/// What stands before and after the first of these marks. With no mark nothing stands after it.
pub fn parted<'t>(text: &'t str, mark: &str) -> (&'t str, &'t str) {
    text.split_once(mark).unwrap_or((text, ""))
}

/// The text that a row writes, in which each symbol of a control character or a space is that
/// character. `␀` is nothing.
pub fn decoded(alloc: Global, written: &str) -> Result<String, AllocError> {
    written.chars().filter_map(character).collect(alloc)
}

fn character(symbol: char) -> Option<char> {
    match symbol {
        '␀' => None,
        '␉' => Some('\t'),
        '␊' => Some('\n'),
        '␍' => Some('\r'),
        '␠' => Some(' '),
        _ => Some(symbol),
    }
}

/// The pieces of a text one after another. They are parted by ` | `, and one that is `COUNT * TEXT`
/// stands there that many times.
pub fn repeated(alloc: Global, pieces: &str) -> Result<String, Fail> {
    let mut text = String::new(alloc);
    for piece in pieces.split(" | ") {
        match piece.split_once(" * ") {
            Some((count, unit)) => {
                for _ in 0..count.parse::<u32>()? {
                    text.push_str(unit)?;
                }
            }
            None => text.push_str(piece)?,
        }
    }
    Ok(text)
}
