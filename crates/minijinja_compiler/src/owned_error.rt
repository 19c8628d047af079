//! Refusals that borrow nothing, for callers that report one when its source is gone.
ghost use Rattle.std.specs.Prelude.{◌≡◌, IfOk};
ghost use Rattle.std.specs.Option.{option_map};
ghost use Rattle.minijinja_syntax.specs.declared.tokens.Span.{Span};
ghost use Rattle.minijinja_compiler.specs.OwnedErrors.{detail_of, kind_of, name_of, span_of, IsCopy};

use minijinja_syntax::error::{Error, ErrorKind};
use minijinja_syntax::tokens::Span;
use std::alloc::{AllocError, Global};
use std::fmt;

/// A refusal that owns its words and the name of the source, so that it outlives both. It is
/// printed as the [`Error`] that it was copied from.
///
/// ```
/// /// Why a text is refused, if it is.
/// fn refusal(alloc: Global, source: String) -> Result<Option<OwnedError>, AllocError> {
///     match compile::<Value>(alloc, source.as_str(), "page.html", &SyntaxConfig::default()) {
///         Ok(_) => Ok(None),
///         Err(error) => Ok(Some(OwnedError::copied(alloc, &error)?)),
///     }
/// }
/// ```
#[derive(Drop, Debug)]
pub struct OwnedError {
    kind: ErrorKind,
    detail: String,
    name: Option<String>,
    span: Option<Span>,
}

impl OwnedError {
    /// Copies a refusal. It fails only if memory is refused.
    pub fn copied(alloc: Global, error: &Error<'_>) -> Result<OwnedError, AllocError>
        ensures copy { IfOk result (IsCopy error.now) }
    {
        let name = match error.name() {
            Some(name) => Some(name.to_string(alloc)?),
            None => None,
        };
        Ok(OwnedError {
            kind: error.kind(),
            detail: error.detail().to_string(alloc)?,
            name,
            span: error.span(),
        })
    }

    /// The kind of the refusal.
    pub fn kind(&self) -> ErrorKind
        ensures { result ≡ kind_of self.now }
    {
        self.kind
    }

    /// What exactly is wrong, in words.
    pub fn detail(&self) -> &str
        ensures { result.now ≡ detail_of self.now }
    {
        self.detail.as_str()
    }

    /// The name of the source.
    pub fn name(&self) -> Option<&str>
        ensures { option_map (λ x. x.now) result ≡ name_of self.now }
    {
        match &self.name {
            Some(name) => Some(name.as_str()),
            None => None,
        }
    }

    /// Where in the source.
    pub fn span(&self) -> Option<Span>
        ensures { result ≡ span_of self.now }
    {
        self.span
    }

    /// The line in the source, from 1: that of the span's start.
    pub fn line(&self) -> Option<usize>
        ensures { result ≡ option_map (λ (s : Span). s.start_line) (span_of self.now) }
    {
        match self.span {
            Some(span) => Some(usize::from(span.start_line)),
            None => None,
        }
    }

    /// The column in its line, from 0, in characters: that of the span's start.
    pub fn column(&self) -> Option<usize>
        ensures { result ≡ option_map (λ (s : Span). s.start_col) (span_of self.now) }
    {
        match self.span {
            Some(span) => Some(usize::from(span.start_col)),
            None => None,
        }
    }
}

/// `KIND: DETAIL`, and after it ` (in NAME:LINE:COLUMN)`, ` (in NAME)` or ` (at LINE:COLUMN)`, as
/// far as these are known.
impl fmt::Display for OwnedError {
    fn fmt<W: fmt::Write>(&self, f: &mut fmt::Formatter<W>) -> fmt::Result {
        write!(f, "{}: {}", self.kind, self.detail())?;
        match (self.name(), self.span) {
            (Some(name), Some(span)) => {
                write!(f, " (in {name}:{}:{})", span.start_line, span.start_col)
            }
            (Some(name), None) => write!(f, " (in {name})"),
            (None, Some(span)) => write!(f, " (at {}:{})", span.start_line, span.start_col),
            (None, None) => Ok(()),
        }
    }
}

impl std::error::Error for OwnedError {}
