//! The tests of the generator and of lists of instructions. No user calls it.
#![tactic(auto)]

#[cfg(test)]
mod tests;
