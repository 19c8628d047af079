//! The rules of templates, for `minijinja_parser`. No user calls it.
//!
//! They read any tokens, and make any statements.
#![tactic(auto)]

pub mod builder;
pub mod rules;
