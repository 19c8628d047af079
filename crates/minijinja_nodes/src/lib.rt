//! Makes the nodes of trees, for `minijinja_parser`. No user calls it.
#![tactic(auto)]

pub mod expr_nodes;
pub mod stmt_nodes;
