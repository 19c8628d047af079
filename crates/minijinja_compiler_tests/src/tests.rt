//! Tests of whole compiles: what is accepted, how large it may be, and the places of its code.
ghost use Rattle.std.specs.Prelude.{◌≤◌, IfOk};
ghost use Rattle.std.specs.Str.{IsCharBoundary};

mod compile;
mod errors;
mod flags;
mod hostile;
mod marks;
mod memory;
mod prefixes;

use minijinja_compiler::compile::{Compiled, compile};
use minijinja_compiler::error::Error;
use minijinja_compiler::syntax::SyntaxConfig;
use minijinja_test_rows::rows::parted;
use std::alloc::Global;
use std::ops::Range;
use std::test::Fail;

/// The bytes of a file between its first `«` and the `»` after that.
fn marked(file: &str) -> Result<Range<usize>, Fail>
    ensures ordered { IfOk result (λ r. r.start ≤ r.end) }
    ensures start { IfOk result (λ r. IsCharBoundary file.now r.start) }
    ensures end { IfOk result (λ r. IsCharBoundary file.now r.end) }
{
    let (before, rest) = parted(file, "«");
    let (own, _) = parted(rest, "»");
    let start = before.len().saturating_add("«".len());
    let end = start.saturating_add(own.len());
    if file.is_char_boundary(start) && file.is_char_boundary(end) {
        Ok(start..end)
    } else {
        Err(Fail::from("nothing is marked"))
    }
}

/// The code of a template in the default syntax, whose name is `page`.
fn compile_page(alloc: Global, text: &str) -> Result<Compiled<'_>, Error<'_>> {
    compile(alloc, text, "page", &SyntaxConfig::default())
}

/// How many instructions such a template has.
fn page_length(alloc: Global, text: &str) -> Result<usize, Error<'_>> {
    let compiled = compile_page(alloc, text)?;
    Ok(compiled.instructions.len())
}
