//! A walk through a tree, from each node to the nodes right below it.
#![tactic(auto)]

mod expressions;
mod parts;
mod statements;
pub mod walk;
