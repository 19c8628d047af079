//! The filters of texts. Each writes behind what was written before.
use crate::values::text;
use minijinja_compiler::value::{Rendered, TemplateValue, Value};
use sha2::{Digest, Sha256};

/// How many characters a text that is cut may be longer than what is asked for.
const LEEWAY: usize = 5;

/// Writes what a filter makes of a text.
pub fn write_changed(out: &mut String, name: &str, text: &str, arguments: &[Value]) -> Option<()> {
    match name {
        "e" => write_escaped(out, text),
        "format" => write_format(out, text, arguments),
        "indent" => write_indented(out, text, arguments),
        "lower" => write_lower(out, text),
        "markdown" => write!(out, "<p>{text}</p>").ok(),
        "replace" => write_replaced(out, text, arguments),
        "sha256" => write_hex(out, &Sha256::digest(text)),
        "string" => out.push_str(text).ok(),
        "striptags" => write_without_tags(out, text),
        "title" => write_title(out, text),
        "trim" => out.push_str(text.trim()).ok(),
        "truncate" => write_cut(out, text, arguments.get(1)?.as_count()?),
        "upper" => write_upper(out, text),
        "urlencode" => write_url(out, text),
        "wordwrap" => write_wrapped(out, text, arguments.get(1)?.as_count()?),
        _ => None,
    }
}

fn write_escaped(out: &mut String, text: &str) -> Option<()> {
    for letter in text.chars() {
        match letter {
            '&' => out.push_str("&amp;").ok()?,
            '<' => out.push_str("&lt;").ok()?,
            '>' => out.push_str("&gt;").ok()?,
            '"' => out.push_str("&#34;").ok()?,
            '\'' => out.push_str("&#39;").ok()?,
            _ => out.push(letter).ok()?,
        }
    }
    Some(())
}

/// Writes values in the places of `%s` and `%d`, and behind one with a width, as `%-8s`, as many
/// spaces as it lacks.
fn write_format(out: &mut String, format: &str, arguments: &[Value]) -> Option<()> {
    for (index, part) in format.split('%').enumerate() {
        if index == 0 {
            out.push_str(part).ok()?;
        } else {
            write_directive(out, part, arguments.get(index)?)?;
        }
    }
    Some(())
}

/// Writes a value as what stands behind a `%` says, and the rest of that.
fn write_directive(out: &mut String, part: &str, value: &Value) -> Option<()> {
    let (width, rest) = part.split_once(['s', 'd'])?;
    let width = match width.strip_prefix('-') {
        Some(digits) => digits.parse::<usize>().ok()?,
        None => 0,
    };
    let shown = Rendered(value).to_string(*out.allocator()).ok()?;
    out.push_str(shown.as_str()).ok()?;
    write_spaces(out, width.saturating_sub(shown.as_str().chars().count()))?;
    out.push_str(rest).ok()
}

fn write_spaces(out: &mut String, count: usize) -> Option<()> {
    for _ in 0..count {
        out.push(' ').ok()?;
    }
    Some(())
}

/// Writes lines with spaces before each that has something, and before the first if that is asked
/// for.
fn write_indented(out: &mut String, text: &str, arguments: &[Value]) -> Option<()> {
    let width = arguments.get(1)?.as_count()?;
    let first = arguments.get(2).is_some_and(|it| it.is_true());
    for (index, line) in text.split('\n').enumerate() {
        if index > 0 {
            out.push('\n').ok()?;
        }
        if first && index == 0 || index > 0 && !line.is_empty() {
            write_spaces(out, width)?;
        }
        out.push_str(line).ok()?;
    }
    Some(())
}

fn write_lower(out: &mut String, text: &str) -> Option<()> {
    let lower = text.to_lowercase(*out.allocator()).ok()?;
    out.push_str(lower.as_str()).ok()
}

fn write_upper(out: &mut String, text: &str) -> Option<()> {
    let upper = text.to_uppercase(*out.allocator()).ok()?;
    out.push_str(upper.as_str()).ok()
}

fn write_replaced(out: &mut String, value: &str, arguments: &[Value]) -> Option<()> {
    let (old, new) = (text(arguments.get(1)?)?, text(arguments.get(2)?)?);
    let replaced = value.replace(*out.allocator(), old, new).ok()?;
    out.push_str(replaced.as_str()).ok()
}

fn write_hex(out: &mut String, bytes: &[u8]) -> Option<()> {
    for byte in bytes {
        write!(out, "{byte:02x}").ok()?;
    }
    Some(())
}

/// Writes a text without its tags, and with one space for each run of blanks.
fn write_without_tags(out: &mut String, text: &str) -> Option<()> {
    let mut is_tag = false;
    let mut is_gap = false;
    for letter in text.trim().chars() {
        match letter {
            '<' => is_tag = true,
            '>' => is_tag = false,
            _ if is_tag => (),
            _ if letter.is_whitespace() => is_gap = true,
            _ => {
                if is_gap {
                    out.push(' ').ok()?;
                }
                is_gap = false;
                out.push(letter).ok()?;
            }
        }
    }
    Some(())
}

/// Writes words with a large letter first, and all others small.
fn write_title(out: &mut String, text: &str) -> Option<()> {
    let mut is_first = true;
    for letter in text.chars() {
        let changed = match is_first {
            true => letter.to_ascii_uppercase(),
            false => letter.to_ascii_lowercase(),
        };
        out.push(changed).ok()?;
        is_first = letter.is_whitespace() || matches!(letter, '-' | '(' | '{' | '[' | '<');
    }
    Some(())
}

/// Writes a text, or where that is too long its first words and three dots.
fn write_cut(out: &mut String, text: &str, width: usize) -> Option<()> {
    if text.chars().count() <= width.saturating_add(LEEWAY) {
        return out.push_str(text).ok();
    }
    let (end, _) = text.char_indices().nth(width.checked_sub(3)?)?;
    let start = text.get(..end)?;
    let words = start.rsplit_once(' ').map_or(start, |(words, _)| words);
    write!(out, "{words}...").ok()
}

fn write_url(out: &mut String, text: &str) -> Option<()> {
    for byte in text.bytes() {
        match byte {
            b'a'..=b'z' | b'A'..=b'Z' | b'0'..=b'9' | b'-' | b'.' | b'/' | b'_' | b'~' => {
                out.push(char::from(byte)).ok()?
            }
            _ => write!(out, "%{byte:02X}").ok()?,
        }
    }
    Some(())
}

/// Writes lines that are broken between words where they are longer than a width.
fn write_wrapped(out: &mut String, text: &str, width: usize) -> Option<()> {
    for (index, line) in text.split('\n').enumerate() {
        if index > 0 {
            out.push('\n').ok()?;
        }
        write_words(out, line, width)?;
    }
    Some(())
}

fn write_words(out: &mut String, line: &str, width: usize) -> Option<()> {
    let mut column = 0usize;
    for word in line.split_whitespace() {
        let length = word.chars().count();
        let end = column.saturating_add(length).saturating_add(1);
        if column == 0 {
            column = length;
        } else if end <= width {
            out.push(' ').ok()?;
            column = end;
        } else {
            out.push('\n').ok()?;
            column = length;
        }
        out.push_str(word).ok()?;
    }
    Some(())
}
