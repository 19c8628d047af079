//! Rows of texts that tests are held to, and memory that is refused: what tests of several crates
//! share. No user calls it.
#![tactic(auto)]

pub mod memory;
pub mod refusal;
pub mod rows;
pub mod syntaxes;
pub mod words;
