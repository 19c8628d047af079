//! The tests of the parser, of what a template needs from outside, and of all crates below them. No
//! user calls it.
#![tactic(auto)]

#[cfg(test)]
mod tests;
