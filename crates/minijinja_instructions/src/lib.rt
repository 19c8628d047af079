//! The instructions that templates compile to, and lists of them.
#![tactic(auto)]

mod display;
pub mod instructions;
pub mod lists;
pub mod marks;
mod references;
mod runs;
#[cfg(test)]
mod tests;
