//! What two answers have in common that refuse the same text.
use minijinja_syntax::error::{Error, ErrorKind};
use minijinja_syntax::tokens::Span;

/// The kind and the place of a refusal.
#[derive(Clone, Copy, PartialEq, Eq)]
pub struct Refusal {
    pub kind: ErrorKind,
    pub span: Option<Span>,
}

/// What is compared of an error.
pub fn refusal_of(error: Error<'_>) -> Refusal {
    Refusal {
        kind: error.kind(),
        span: error.span(),
    }
}
