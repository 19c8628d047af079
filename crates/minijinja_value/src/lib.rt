//! Template values, and the laws of their definitions.
#![tactic(auto)]

pub mod laws;
pub mod value;
