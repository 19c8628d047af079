//! Tests that a tree is well formed, so that code can be generated from it.
#![tactic(auto)]

mod distinct;
mod expressions;
mod statements;
pub mod well_formed;
