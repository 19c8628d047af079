//! The variables that occur in a template, and the names that it needs from outside of it.
#![tactic(auto)]

mod expressions;
pub mod laws;
pub mod mentions;
pub mod meta;
mod parts;
mod scopes;
mod statements;
mod targets;
mod walker;
