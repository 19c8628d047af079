//! The tests of whole compiles. No user calls it.
#![tactic(auto)]

#[cfg(test)]
mod tests;
