//! Takes up the instructions of a unit, for `minijinja_code`. No user calls it.
//!
//! Each instruction has its line and its span.
#![tactic(auto)]

pub mod emit;
mod marked;
pub mod memory;
mod names;
