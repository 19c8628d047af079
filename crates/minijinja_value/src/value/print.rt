//! The printed forms of values.
ghost use Rattle.std.specs.Prelude.{◌≡◌, ◌<◌, ◌∷◌, [], Some, MatchOption, OnSome};
ghost use Rattle.std.specs.Fmt.{WritesOnOk, signed_decimal};
ghost use Rattle.minijinja_text.specs.Quotes.{escaped, quoted};
ghost use Rattle.minijinja_value.specs.ValueWords.{words, rendered, joined, each_words, pair_words};
ghost use Rattle.minijinja_value.specs.ValueViews.{contents_of, items_view, pairs_view};

use super::{Integer, Value};
use std::fmt;

/// Prints `undefined`, `silent`, `none`, `true`, `false`, a decimal, a quoted text, `[a, b]`, `(a,
/// b)`, `(a,)`, `{k: v}` or `kwargs{k: v}`.
impl fmt::Display for Value {
    ghost output = { λ v. Some (words (contents_of v)) };

    fn fmt<W: fmt::Write>(&self, f: &mut fmt::Formatter<W>) -> fmt::Result {
        show(self, f)
    }
}

#[cycle(show)]
fn show<W: fmt::Write>(value: &Value, f: &mut fmt::Formatter<W>) -> fmt::Result
    ensures { WritesOnOk W.write_str_gives f.old result (words (contents_of value.now)) f.new }
{
    match value {
        Value::Undefined => f.write_str("undefined"),
        Value::SilentUndefined => f.write_str("silent"),
        Value::None => f.write_str("none"),
        Value::Bool(true) => f.write_str("true"),
        Value::Bool(false) => f.write_str("false"),
        Value::Integer(value) => write!(f, "{value}"),
        Value::String(text) => write!(f, "{}", Quoted(text.as_str())),
        Value::List(items) => {
            f.write_str("[")?;
            show_items(items, f)?;
            f.write_str("]")
        }
        Value::Tuple(items) => {
            f.write_str("(")?;
            show_items(items, f)?;
            f.write_str(if items.len() == 1 { ",)" } else { ")" })
        }
        Value::Map(map) => {
            f.write_str("{")?;
            show_pairs(&map.pairs, f)?;
            f.write_str("}")
        }
        Value::Kwargs(map) => {
            f.write_str("kwargs{")?;
            show_pairs(&map.pairs, f)?;
            f.write_str("}")
        }
    }
}

/// The items with `, ` between them.
#[cycle(show)]
fn show_items<W: fmt::Write>(items: &Vec<Value>, f: &mut fmt::Formatter<W>) -> fmt::Result
    ensures { WritesOnOk W.write_str_gives f.old result
        (joined (each_words (items_view items.now.items))) f.new }
{
    for (i, item) in items.iter().enumerate() {
        if i > 0 {
            f.write_str(", ")?;
        }
        show(item, f)?;
    }
    Ok(())
}

/// The pairs with `, ` between them.
#[cycle(show)]
fn show_pairs<W: fmt::Write>(pairs: &Vec<(Value, Value)>, f: &mut fmt::Formatter<W>) -> fmt::Result
    ensures { WritesOnOk W.write_str_gives f.old result
        (joined (pair_words (pairs_view pairs.now.items))) f.new }
{
    for (i, pair) in pairs.iter().enumerate() {
        if i > 0 {
            f.write_str(", ")?;
        }
        show(&pair.0, f)?;
        f.write_str(": ")?;
        show(&pair.1, f)?;
    }
    Ok(())
}

/// A value as a template prints it: a text as it is, without quotes, both undefined as nothing, and
/// any other value as its own `Display` does.
#[derive(Clone, Copy, Debug)]
pub struct Rendered<'v>(pub &'v Value);

impl fmt::Display for Rendered<'_> {
    ghost output = { λ r. Some (rendered (contents_of r.0.now)) };

    fn fmt<W: fmt::Write>(&self, f: &mut fmt::Formatter<W>) -> fmt::Result {
        match self.0 {
            Value::Undefined | Value::SilentUndefined => Ok(()),
            Value::String(text) => f.write_str(text.as_str()),
            other => show(other, f),
        }
    }
}

/// Prints a decimal.
impl fmt::Display for Integer {
    ghost output = { λ z. Some (signed_decimal z) };

    fn fmt<W: fmt::Write>(&self, f: &mut fmt::Formatter<W>) -> fmt::Result {
        let (is_negative, magnitude) = self.parts();
        if is_negative {
            write!(f, "-{magnitude}")
        } else {
            write!(f, "{magnitude}")
        }
    }
}

/// Prints as `Display` does.
impl fmt::Debug for Integer {
    fn fmt<W: fmt::Write>(&self, f: &mut fmt::Formatter<W>) -> fmt::Result {
        fmt::Display::fmt(self, f)
    }
}

/// A text that prints between quotes, with `"`, `\`, newline, return and tab as `\"`, `\\`, `\n`,
/// `\r` and `\t`.
#[derive(Clone, Copy, Debug)]
pub struct Quoted<'t>(pub &'t str);

impl fmt::Display for Quoted<'_> {
    ghost output = { λ q. Some (quoted q.0.now) };

    fn fmt<W: fmt::Write>(&self, f: &mut fmt::Formatter<W>) -> fmt::Result {
        let text = self.0;
        let mut plain_start = 0;
        f.write_str("\"")?;
        for (at, byte) in text.as_bytes().iter().enumerate() {
            if let Some(escape) = escape_of(*byte) {
                f.write_str(&text[plain_start..at])?;
                f.write_str(escape)?;
                plain_start = at + 1;
            }
        }
        f.write_str(&text[plain_start..])?;
        f.write_str("\"")
    }
}

/// What stands for a byte between quotes, if that is not the byte itself.
fn escape_of(byte: u8) -> Option<&'static str>
    ensures text { MatchOption result (escaped byte ≡ byte ∷ [])
        (λ escape. escaped byte ≡ escape.now) }
    ensures ascii { OnSome result (byte < 128) }
{
    match byte {
        b'"' => Some("\\\""),
        b'\\' => Some("\\\\"),
        b'\n' => Some("\\n"),
        b'\r' => Some("\\r"),
        b'\t' => Some("\\t"),
        _ => None,
    }
}
