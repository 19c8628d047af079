//! The tokens of a text, for the rules of `minijinja_parser`. A user needs `token_stream` alone.
//!
//! It has how the rules look at tokens and take them.
#![tactic(auto)]

pub mod forms;
pub mod marks;
pub mod operators;
pub mod refusal;
pub mod token_stream;
pub mod tokens;
pub mod words;
