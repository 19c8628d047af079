//! Words that are appended one after another.
use std::alloc::AllocError;
use std::fmt::{Debug, Display};

/// Appends a value and a space.
pub fn push_word(words: &mut String, value: impl Display + Drop) -> Result<(), AllocError> {
    write!(words, "{value} ")
}

/// Appends the debug form of a value and a space.
pub fn push_debug(words: &mut String, value: impl Debug + Drop) -> Result<(), AllocError> {
    write!(words, "{value:?} ")
}
