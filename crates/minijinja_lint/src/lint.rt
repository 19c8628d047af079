//! The names that a template needs from outside of it, and the macros that it does not use.
ghost use Rattle.std.specs.Prelude.{◌≡◌, ◌++◌, IfErr, IfOk, OnOk, map};
ghost use Rattle.minijinja_syntax.specs.Errors.{IsOutOfMemory};
ghost use Rattle.minijinja_syntax.specs.Texts.{Text};
ghost use Rattle.minijinja_tree.specs.SpannedErasure.{stmt_node};
ghost use Rattle.minijinja_meta.specs.Mentions.{free_of, way};
ghost use Rattle.minijinja_meta.specs.Occurrences.{found_of, macros_of};
ghost use Rattle.minijinja_lint.specs.Findings.{AreFindings, IsByStart, mentioned, remark_of, remarks_of, spans_of, unused_macros};
ghost use Rattle.minijinja_lint.specs.private.First.{AreNames, IsOrdered, PutsMention, at, first_of, starts_before};

use minijinja_meta::meta::{Occurrence, occurrences};
use minijinja_syntax::error::Error;
use minijinja_syntax::tokens::Span;
use minijinja_tree::ast::Stmt;
use minijinja_value::value::TemplateValue;
use std::alloc::{AllocError, Global};
use std::collections::{BTreeMap, BTreeSet};

/// What a linter finds.
#[derive(Clone, Copy, Debug, PartialEq, Eq)]
pub enum Finding<'s> {
    /// A name that the template needs from outside of it, and where it is mentioned first.
    Free(&'s str, Span),
    /// A macro whose name is mentioned nowhere in the template, and where its statement stands.
    UnusedMacro(&'s str, Span),
}

/// What a linter finds in a template: first each name that the template needs from outside of it,
/// in order of bytes, with the place of its first mention, and then each macro statement whose name
/// is mentioned nowhere, in order of where they start. A mention is first if no other one of the
/// name that is free starts before it. Of mentions or macro statements that start in one place,
/// those that run first come first. Refused memory is the only error.
pub fn lint<'s, V: TemplateValue>(
    alloc: Global,
    template: &Stmt<'s, V>,
) -> Result<Vec<Finding<'s>>, Error<'static>>
    ensures findings { IfOk result (λ xs. AreFindings (way (stmt_node V.contents template.now))
        (map remark_of xs.items)) }
    ensures memory { IfErr result IsOutOfMemory }
{
    let occurrences = occurrences(alloc, template)?;
    let first = first_mentions(alloc, &occurrences.found)?;
    let mut unused = unused_macros(alloc, &occurrences.found, &occurrences.macros)?;
    sort_by_start(&mut unused)?;
    Ok(findings(alloc, &first, &unused)?)
}

/// Where each name that occurs free is mentioned first.
fn first_mentions<'s, V: TemplateValue>(
    alloc: Global,
    found: &[Occurrence<'_, 's, V>],
) -> Result<BTreeMap<&'s str, Span>, AllocError>
    ensures first { IfOk result (λ m. (x : Text) → at x m ≡ first_of
        (spans_of x (free_of (found_of V.contents found.now)))) }
    ensures ordered { IfOk result IsOrdered }
{
    let mut first = BTreeMap::new(alloc);
    let mut left = found.len();
    while left > 0 {
        left -= 1;
        put_mention(&mut first, &found[left])?;
    }
    Ok(first)
}

/// Puts a mention that runs before all that were put so far: if it is free, and none of the others
/// of its name starts before it, it is the first one of its name.
fn put_mention<'s, V: TemplateValue>(
    first: &mut BTreeMap<&'s str, Span>,
    occurrence: &Occurrence<'_, 's, V>,
) -> Result<(), AllocError>
    requires { IsOrdered first.old }
    ensures first { OnOk result (PutsMention occurrence.now.is_free occurrence.now.name.now
        occurrence.now.span first.old first.new) }
    ensures ordered { OnOk result (IsOrdered first.new) }
{
    if occurrence.is_free && !starts_before(first, occurrence.name, occurrence.span) {
        first.insert(occurrence.name, occurrence.span)?;
    }
    Ok(())
}

/// Whether the name has a place that starts before this one.
fn starts_before<'s>(first: &BTreeMap<&'s str, Span>, name: &'s str, span: Span) -> bool
    ensures { result ≡ starts_before (at name.now first.now) span }
{
    match first.get(&name) {
        Some(other) => other.start_offset < span.start_offset,
        None => false,
    }
}

/// The macro statements whose names are mentioned nowhere, as they are ordered.
fn unused_macros<'s, V: TemplateValue>(
    alloc: Global,
    found: &[Occurrence<'_, 's, V>],
    macros: &[(&'s str, Span)],
) -> Result<Vec<(&'s str, Span)>, AllocError>
    ensures { IfOk result (λ v. macros_of v.items ≡ unused_macros (found_of V.contents found.now)
        (macros_of macros.now)) }
{
    let mentioned = mentioned_names(alloc, found)?;
    let mut unused = Vec::new(alloc);
    for &(name, span) in macros {
        if !mentioned.contains(&name) {
            unused.push((name, span))?;
        }
    }
    Ok(unused)
}

/// The names of what occurs, whether it is free or not.
fn mentioned_names<'s, V: TemplateValue>(
    alloc: Global,
    found: &[Occurrence<'_, 's, V>],
) -> Result<BTreeSet<&'s str>, AllocError>
    ensures { IfOk result (AreNames (mentioned (found_of V.contents found.now))) }
{
    let mut names = BTreeSet::new(alloc);
    for occurrence in found {
        names.insert(occurrence.name)?;
    }
    Ok(names)
}

/// Sorts macro statements by where they start. Those that start in one place keep their order.
fn sort_by_start(macros: &mut Vec<(&str, Span)>) -> Result<(), AllocError>
    ensures { OnOk result (IsByStart (macros_of macros.old.items) (macros_of macros.new.items)) }
{
    macros.sort_by_key(|declared| declared.1.start_offset)?;
    Ok(())
}

/// A finding for each name, and then one for each macro statement.
fn findings<'s>(
    alloc: Global,
    first: &BTreeMap<&'s str, Span>,
    unused: &[(&'s str, Span)],
) -> Result<Vec<Finding<'s>>, AllocError>
    ensures { IfOk result (λ v. map remark_of v.items ≡ remarks_of
        (macros_of first.now.entries) (macros_of unused.now)) }
{
    let mut findings = Vec::new(alloc);
    for (name, span) in first {
        findings.push(Finding::Free(*name, *span))?;
    }
    for &(name, span) in unused {
        findings.push(Finding::UnusedMacro(name, span))?;
    }
    Ok(findings)
}
