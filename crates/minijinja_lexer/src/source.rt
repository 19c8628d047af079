//! The text of a source, which may lose its last line end.
ghost use Rattle.std.specs.Prelude.{◌≡◌, ◌<◌, ◌≤◌, length};
ghost use Rattle.std.specs.Io.BufRead.{strip_last};
ghost use Rattle.minijinja_lexer.specs.TextTokens as spec;

use minijinja_syntax::syntax::SyntaxConfig;

fn without_last(text: &str, byte: u8) -> &str
    requires { byte < 128 }
    ensures value { result.now ≡ strip_last byte text.now }
    ensures length { length result.now ≤ length text.now }
{
    match text.as_bytes().last() {
        Some(last) if *last == byte => &text[..text.len() - 1],
        _ => text,
    }
}

/// The text of a source: without its last line end, unless the syntax keeps that.
#[tactic(auto, unfolding(crate::specs::TextTokens::text_of))]
pub(crate) fn text_of<'s>(syntax: &SyntaxConfig, source: &'s str) -> &'s str
    ensures value { result.now ≡ spec.text_of syntax.now source.now }
    ensures length { length result.now ≤ length source.now }
{
    if syntax.keep_trailing_newline() {
        return source;
    }
    without_last(without_last(source, b'\n'), b'\r')
}
