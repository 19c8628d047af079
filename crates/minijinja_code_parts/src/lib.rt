//! The code of parts of statements, for `minijinja_code`. No user calls it.
//!
//! No statements are nested in these parts.
#![tactic(auto)]

pub mod block_parts;
pub mod enclosing_loop;
pub mod if_parts;
pub mod loop_parts;
pub mod macro_parts;
pub mod modules;
pub mod simple;
pub mod targets;
