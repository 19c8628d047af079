//! What a linter finds in a template.
#![tactic(auto)]

pub mod lint;
