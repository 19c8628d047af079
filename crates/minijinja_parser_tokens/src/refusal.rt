//! Why a rule does not read the tokens that come, and what was wanted.
use crate::marks::Mark;
use minijinja_syntax::error::Expected;
use std::alloc::{AllocError, AllocFailed};

/// What was wanted, or what was wrong with what came.
#[derive(Clone, Copy)]
pub enum Wanted {
    /// This token.
    Mark(Mark),
    /// Another part of the grammar.
    Part(Expected),
    /// The first word of a statement.
    Statement,
    /// A name that may be assigned to.
    Target,
    /// Expressions and statements that nest less deep.
    Flatter,
    /// A call with fewer arguments.
    FewerArguments,
    /// A keyword argument, since another stands before it.
    Keyword,
    /// A loop around the word.
    Loop,
    /// A call.
    Call,
    /// An expression that may be stored to.
    Storable,
    /// A name that no block before it has.
    NewName,
    /// Whitespace.
    Blank,
    /// The name of the block.
    BlockName,
    /// No block, since it stands in a macro.
    NoBlock,
    /// A name that may be taken from a template.
    PublicName,
}

/// Why a rule does not read the tokens that come. It stands at the token taken last.
#[derive(Clone, Copy)]
pub enum Refusal {
    /// Memory was refused.
    OutOfMemory,
    /// No token is left.
    Ended(Wanted),
    /// A token does not fit.
    Wrong(Wanted),
}

impl From<AllocError> for Refusal {
    ghost use Rattle.std.specs.Prelude.{◌≡◌};
    ghost use Rattle.minijinja_parser_tokens.specs.declared.refusal.Refusal.TheVariants.{OutOfMemory};

    ghost from_gives = { λ _ r. r ≡ OutOfMemory };

    fn from(_error: AllocError) -> Self {
        Refusal::OutOfMemory
    }
}

impl<T: Drop> From<AllocFailed<T>> for Refusal {
    ghost use Rattle.std.specs.Prelude.{◌≡◌};
    ghost use Rattle.minijinja_parser_tokens.specs.declared.refusal.Refusal.TheVariants.{OutOfMemory};

    ghost from_gives = { λ _ r. r ≡ OutOfMemory };

    fn from(_error: AllocFailed<T>) -> Self {
        Refusal::OutOfMemory
    }
}
