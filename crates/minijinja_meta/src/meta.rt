//! The variables that a template uses, and those that it does not store itself.
ghost use Rattle.std.specs.Prelude.{◌≡◌, if◌then◌else◌, All, IfErr, IfOk, map, string_bytes};
ghost use Rattle.std.specs.BTreeSet.{keys};
ghost use Rattle.minijinja_syntax.specs.Errors.{IsOutOfMemory};
ghost use Rattle.minijinja_tree.specs.Erasure.{macro_tree};
ghost use Rattle.minijinja_tree.specs.FreeNames.{closure};
ghost use Rattle.minijinja_tree.specs.SpannedErasure.{stmt_node};
ghost use Rattle.minijinja_meta.specs.Mentions as mentions;
ghost use Rattle.minijinja_meta.specs.Mentions.{nested_names, plain_names, way};
ghost use Rattle.minijinja_meta.specs.Occurrences.{IsChain, found_of, macros_of};

use crate::mentions;
pub use crate::mentions::{Occurrence, Occurrences};
use crate::statements::{statement, statements};
use crate::targets::parameters;
use crate::walker::Walker;
use minijinja_syntax::error::Error;
use minijinja_tree::ast::{Macro, Stmt};
use minijinja_value::value::TemplateValue;
use std::alloc::Global;
use std::collections::BTreeSet;

/// The names that a template needs from outside of it: those that occur in it, and are not stored
/// before in a region that is still open. With `track_nested`, a name together with the attributes
/// that are taken right on it, as `a.b.c`. Refused memory is the only error.
pub fn find_undeclared<'s, V: TemplateValue>(
    alloc: Global,
    stmt: &Stmt<'s, V>,
    track_nested: bool,
) -> Result<BTreeSet<String>, Error<'static>>
    ensures names { IfOk result (λ s. map string_bytes (keys s) ≡
        (if track_nested then nested_names (way (stmt_node V.contents stmt.now))
        else plain_names (way (stmt_node V.contents stmt.now)))) }
    ensures memory { IfErr result IsOutOfMemory }
{
    let mut walker = Walker::new(alloc, !track_nested);
    statement(&mut walker, stmt)?;
    Ok(mentions::written_names(alloc, &walker.found, track_nested)?)
}

/// The names that a macro needs from outside of it: those that occur in it, and are not stored
/// before in a region that is still open. Refused memory is the only error.
pub fn find_macro_closure<'s, V: TemplateValue>(
    alloc: Global,
    declared: &Macro<'s, V>,
) -> Result<BTreeSet<&'s str>, Error<'static>>
    ensures closure { IfOk result (λ s. map (λ x. x.now) (keys s) ≡ closure
        (macro_tree V.contents declared.now)) }
    ensures memory { IfErr result IsOutOfMemory }
{
    let mut walker = Walker::new(alloc, true);
    parameters(&mut walker, declared)?;
    statements(&mut walker, &declared.body)?;
    Ok(mentions::plain_names(alloc, &walker.found)?)
}

/// Every variable that occurs in a tree and whether it occurs free, and every macro statement, in
/// order of execution. Refused memory is the only error.
pub fn occurrences<'a, 's, V: TemplateValue>(
    alloc: Global,
    stmt: &'a Stmt<'s, V>,
) -> Result<Occurrences<'a, 's, V>, Error<'static>>
    ensures found { IfOk result (λ o. found_of V.contents o.found.items ≡ mentions.occurrences
        (way (stmt_node V.contents stmt.now))) }
    ensures chains { IfOk result (λ o. All (IsChain V.contents) o.found.items) }
    ensures macros { IfOk result (λ o. macros_of o.macros.items ≡ mentions.declared
        (way (stmt_node V.contents stmt.now))) }
    ensures memory { IfErr result IsOutOfMemory }
{
    let mut walker = Walker::new(alloc, false);
    statement(&mut walker, stmt)?;
    Ok(walker.finish())
}
