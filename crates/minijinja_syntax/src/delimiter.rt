//! The delimiters of tags: those of Jinja2, and those that a caller sets.
ghost use Rattle.std.specs.Prelude.{◌≡◌, IfOk};
ghost use Rattle.minijinja_syntax.specs.private.Delimiters.{delimiter_text, standard_text};

use std::alloc::{AllocError, Global};

/// The delimiters of Jinja2.
#[derive(Clone, Copy)]
pub enum Standard {
    /// `{%`
    BlockStart,
    /// `%}`
    BlockEnd,
    /// `{{`
    VariableStart,
    /// `}}`
    VariableEnd,
    /// `{#`
    CommentStart,
    /// `#}`
    CommentEnd,
    /// The empty text of a prefix that is off.
    Off,
}

/// A text that begins or ends a tag.
#[derive(Drop)]
pub enum Delimiter {
    /// One of Jinja2.
    Standard(Standard),
    /// A text that the caller set.
    Owned(String),
}

impl Standard {
    fn as_str(self) -> &'static str
        ensures { result.now ≡ standard_text self }
    {
        match self {
            Standard::BlockStart => "{%",
            Standard::BlockEnd => "%}",
            Standard::VariableStart => "{{",
            Standard::VariableEnd => "}}",
            Standard::CommentStart => "{#",
            Standard::CommentEnd => "#}",
            Standard::Off => "",
        }
    }
}

impl Delimiter {
    /// A delimiter with this text, allocated by this allocator.
    #[tactic(auto, unfolding(crate::specs::private::Delimiters::delimiter_text))]
    pub fn new(alloc: Global, text: &str) -> Result<Self, AllocError>
        ensures { IfOk result (λ d. delimiter_text d ≡ text.now) }
    {
        Ok(Delimiter::Owned(String::from_str(alloc, text)?))
    }

    /// A copy, allocated by this allocator.
    #[tactic(auto, unfolding(crate::specs::private::Delimiters::delimiter_text))]
    pub fn copied(&self, alloc: Global) -> Result<Self, AllocError>
        ensures { IfOk result (λ d. delimiter_text d ≡ delimiter_text self.now) }
    {
        match self {
            Delimiter::Standard(standard) => Ok(Delimiter::Standard(*standard)),
            Delimiter::Owned(text) => Delimiter::new(alloc, text.as_str()),
        }
    }

    /// A copy, allocated by the delimiter's own allocator.
    #[tactic(auto, unfolding(crate::specs::private::Delimiters::delimiter_text))]
    pub fn cloned(&self) -> Result<Self, AllocError>
        ensures { IfOk result (λ d. delimiter_text d ≡ delimiter_text self.now) }
    {
        match self {
            Delimiter::Standard(standard) => Ok(Delimiter::Standard(*standard)),
            Delimiter::Owned(text) => Ok(Delimiter::Owned(text.clone()?)),
        }
    }

    /// The text of the delimiter.
    #[tactic(auto, unfolding(crate::specs::private::Delimiters::delimiter_text))]
    pub fn as_str(&self) -> &str
        ensures { result.now ≡ delimiter_text self.now }
    {
        match self {
            Delimiter::Standard(standard) => standard.as_str(),
            Delimiter::Owned(text) => text.as_str(),
        }
    }
}
