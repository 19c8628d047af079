//! From the tree of a template to its instructions.
#![tactic(auto)]

mod block_statements;
pub mod codegen;
mod if_statements;
mod loop_statements;
mod macro_statements;
mod stmt;

pub use minijinja_instructions::instructions;
