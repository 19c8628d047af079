//! The nodes of statements, for `minijinja_parser`. No user calls it.
//!
//! The rules of templates make them.
#![tactic(auto)]

mod of_parts;
pub mod tree_stmts;
