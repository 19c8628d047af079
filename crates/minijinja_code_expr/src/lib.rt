//! The code of expressions, for `minijinja_code`. No user calls it.
#![tactic(auto)]

mod absent;
pub mod arguments;
pub mod branches;
pub mod calls;
mod chain;
pub mod expr;
pub mod filters;
mod leading;
mod literals;
mod operators;
pub mod output;
mod pending;
