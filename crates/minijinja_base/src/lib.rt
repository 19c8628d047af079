//! What every layer of the template compiler speaks of: values, errors, the syntax and tokens.
#![tactic(auto)]

pub use minijinja_syntax::{error, syntax, tokens};
pub use minijinja_value::value;
