//! Tests that need no code: of syntaxes, tokens, trees, values, names and refusals.
//!
//! The rows of a subject stand in one text, since a test is proved too, with each text that it
//! names spelled out. What appends words has one `write!` a function.
mod errors;
mod large;
mod lexer;
mod memory;
mod meta;
mod parser;
mod refusals;
mod syntax;
mod tree;
mod values;

use minijinja_parser::parser::parse;
use minijinja_syntax::error::Error;
use minijinja_syntax::syntax::SyntaxConfig;
use minijinja_tree::ast::Stmt;
use minijinja_value::value::Value;
use std::alloc::Global;

/// The tree of a template in the default syntax, whose name is `page`.
fn parse_page(alloc: Global, text: &str) -> Result<Stmt<'_, Value>, Error<'_>> {
    parse(alloc, text, "page", &SyntaxConfig::default())
}
