//! The statements of a template. A user reaches them as `ast` of `minijinja_compiler`.
#![tactic(auto)]

pub mod ast;

pub use minijinja_tree_expr::{constants, fold};
