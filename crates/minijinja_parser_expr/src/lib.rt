//! The rules of expressions, for `minijinja_parser`. No user calls it.
//!
//! They make the nodes of a tree of tokens.
#![tactic(auto)]

mod atoms;
pub mod builder;
pub mod expressions;
pub mod rules;
mod storable;
pub mod tree_exprs;
