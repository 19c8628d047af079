//! The tokenizer of templates and expressions.
#![tactic(auto)]

mod count;
mod cursor;
mod data;
mod escape;
mod fault;
mod find;
mod inside;
pub mod laws;
pub mod lexer;
mod name;
mod number;
mod outside;
mod quoted;
mod raw;
mod scan;
mod source;
mod step;
mod symbol;
mod tag_part;
mod whitespace;
