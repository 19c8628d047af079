//! Syntaxes by the options that a row writes.
use crate::rows::parted;
use minijinja_syntax::error::{Detail, Error, ErrorKind};
use minijinja_syntax::syntax::{SyntaxConfig, SyntaxConfigBuilder};
use std::alloc::Global;

/// The syntax with these options, which are parted by commas: `default`, the name of a flag that is
/// set, or a name and its texts.
pub fn syntax_of(alloc: Global, options: &str) -> Result<SyntaxConfig, Error<'static>> {
    let mut builder = SyntaxConfig::builder();
    for option in options.split(", ") {
        set(alloc, &mut builder, option)?;
    }
    builder.build(alloc)
}

/// Sets one of these options.
pub fn set(
    alloc: Global,
    builder: &mut SyntaxConfigBuilder,
    option: &str,
) -> Result<(), Error<'static>> {
    let (name, text) = parted(option, " ");
    let (start, end) = parted(text, " ");
    match name {
        "block" => builder.block_delimiters(alloc, start, end),
        "variable" => builder.variable_delimiters(alloc, start, end),
        "comment" => builder.comment_delimiters(alloc, start, end),
        "line_statement" => builder.line_statement_prefix(alloc, text),
        "line_comment" => builder.line_comment_prefix(alloc, text),
        _ => set_flag(builder, name),
    }
}

/// Sets the flag of this name, or nothing for `default`.
fn set_flag(builder: &mut SyntaxConfigBuilder, name: &str) -> Result<(), Error<'static>> {
    match name {
        "default" => {}
        "trim_blocks" => {
            builder.trim_blocks(true);
        }
        "lstrip_blocks" => {
            builder.lstrip_blocks(true);
        }
        "keep_trailing_newline" => {
            builder.keep_trailing_newline(true);
        }
        _ => return Err(no_option()),
    }
    Ok(())
}

fn no_option() -> Error<'static> {
    let detail = Detail::UnknownStatement("an option");
    Error::new(ErrorKind::SyntaxError, detail, None, None)
}
