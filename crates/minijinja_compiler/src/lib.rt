//! A template compiler: from the source text of a Jinja2 style template to its instructions.
//!
//! [`compile::compile`] compiles a template, and [`compile::compile_expression`] one expression.
//! [`owned_error`] has a refusal that outlives its source. The modules of the layers below are
//! re-exported under their names.
#![tactic(auto)]

pub mod compile;
pub mod laws;
pub mod owned_error;

pub use minijinja_code::{codegen, instructions};
pub use minijinja_lexer::lexer;
pub use minijinja_meta::meta;
pub use minijinja_parser::parser;
pub use minijinja_syntax::{error, syntax, tokens};
pub use minijinja_tree::ast;
pub use minijinja_value::value;
pub use minijinja_well_formed::well_formed;
