//! What every layer of the template compiler uses: errors, the syntax, tokens and where they stand.
#![tactic(auto)]

mod delimiter;
pub mod error;
pub mod syntax;
pub mod tokens;
