//! The parser: from the source of a template or of an expression to its tree.
#![tactic(auto)]

mod details;
pub mod parser;
