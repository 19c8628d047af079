//! The states and steps of the tokenizer.
use crate::fault::LexFault;
use crate::tag_part::Tag;
use minijinja_syntax::tokens::{Span, Token};

/// Where the tokenizer stands.
#[derive(Clone, Copy)]
pub(crate) enum State {
    /// Outside any tag.
    Outside,
    /// In a tag, with the counts of brackets opened and shut in it. An expression is a tag that is
    /// the whole text.
    Inside {
        tag: Tag,
        opened: usize,
        shut: usize,
        whole: bool,
    },
    Over,
    Failed(LexFault, Span),
    NoMemory,
}

/// What a step yields: a token with its span, the end, or a refusal. Where a token changes the
/// state, the step has changed it.
#[derive(Drop)]
pub(crate) enum Step<'s> {
    Token(Token<'s>, Span),
    Over,
    Failed(LexFault, Span),
    NoMemory,
}
