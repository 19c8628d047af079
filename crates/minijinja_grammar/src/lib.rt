//! The written grammar of templates, and its laws. It has no code: what it says of tokens is in
//! `specs/`.
#![tactic(auto)]

pub mod laws;
