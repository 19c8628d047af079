//! The variables that occur in a tree, and sets of their names.
ghost use Rattle.std.specs.Prelude.{◌≡◌, ◌++◌, IfOk, OnOk, map, reverse, string_bytes};
ghost use Rattle.std.specs.BTreeSet.{keys};
ghost use Rattle.minijinja_tree.specs.SpannedErasure.{expr_node};
ghost use Rattle.minijinja_meta.specs.Mentions.{after_dots, attributes_of, free_of, in_order, names_of};
ghost use Rattle.minijinja_meta.specs.Occurrences.{found_of, mention_of};
ghost use Rattle.minijinja_meta.specs.private.Written.{name_written, put_if};

use minijinja_syntax::tokens::Span;
use minijinja_tree::ast::Expr;
use minijinja_value::value::TemplateValue;
use std::alloc::{AllocError, Global};
use std::collections::BTreeSet;

/// A variable that occurs.
#[derive(Drop)]
pub struct Occurrence<'a, 's, V: TemplateValue> {
    pub name: &'s str,
    /// Where the variable stands.
    pub span: Span,
    /// The outermost of the attributes that are taken right on the variable, as `a.b.c`, or the
    /// variable itself.
    pub chain: &'a Expr<'s, V>,
    /// Whether no store of the name stands before it, in a region that is still open.
    pub is_free: bool,
}

/// What occurs in a tree, in order of execution.
#[derive(Drop)]
pub struct Occurrences<'a, 's, V: TemplateValue> {
    /// The variables that occur.
    pub found: Vec<Occurrence<'a, 's, V>>,
    /// The macro statements: the name of each, and where its macro stands.
    pub macros: Vec<(&'s str, Span)>,
}

/// The names of what occurs free.
pub fn plain_names<'s, V: TemplateValue>(
    alloc: Global,
    found: &[Occurrence<'_, 's, V>],
) -> Result<BTreeSet<&'s str>, AllocError>
    ensures { IfOk result (λ s. map (λ x. x.now) (keys s) ≡ in_order
        (names_of (free_of (found_of V.contents found.now)))) }
{
    let mut names = BTreeSet::new(alloc);
    let mut left = found.len();
    while left > 0 {
        left -= 1;
        put_name(&mut names, &found[left])?;
    }
    Ok(names)
}

/// Puts a name into a set, if it is free.
fn put_name<'s, V: TemplateValue>(
    names: &mut BTreeSet<&'s str>,
    occurrence: &Occurrence<'_, 's, V>,
) -> Result<(), AllocError>
    ensures { OnOk result (map (λ x. x.now) (keys names.new) ≡ put_if occurrence.now.is_free
        (map (λ x. x.now) (keys names.old)) occurrence.now.name.now) }
{
    if occurrence.is_free {
        names.insert(occurrence.name)?;
    }
    Ok(())
}

/// The names of what occurs free, with their attributes or without them.
pub fn written_names<V: TemplateValue>(
    alloc: Global,
    found: &[Occurrence<'_, '_, V>],
    with_attributes: bool,
) -> Result<BTreeSet<String>, AllocError>
    ensures { IfOk result (λ s. map string_bytes (keys s) ≡ in_order
        (map (name_written with_attributes) (free_of (found_of V.contents found.now)))) }
{
    let mut names = BTreeSet::new(alloc);
    let mut left = found.len();
    while left > 0 {
        left -= 1;
        put_written(alloc, &mut names, &found[left], with_attributes)?;
    }
    Ok(names)
}

/// Puts a name into a set, with its attributes or without them, if it is free.
fn put_written<V: TemplateValue>(
    alloc: Global,
    names: &mut BTreeSet<String>,
    occurrence: &Occurrence<'_, '_, V>,
    with_attributes: bool,
) -> Result<(), AllocError>
    ensures { OnOk result (map string_bytes (keys names.new) ≡ put_if occurrence.now.is_free
        (map string_bytes (keys names.old))
        (name_written with_attributes (mention_of V.contents occurrence.now))) }
{
    if occurrence.is_free {
        names.insert(written(alloc, occurrence, with_attributes)?)?;
    }
    Ok(())
}

/// The name of a variable, with its attributes or without them.
fn written<V: TemplateValue>(
    alloc: Global,
    occurrence: &Occurrence<'_, '_, V>,
    with_attributes: bool,
) -> Result<String, AllocError>
    ensures { IfOk result (λ s. string_bytes s ≡ name_written with_attributes
        (mention_of V.contents occurrence.now)) }
{
    let name = String::from_str(alloc, occurrence.name)?;
    if with_attributes {
        with_attributes_of(alloc, name, occurrence.chain)
    } else {
        Ok(name)
    }
}

/// The text, and the attributes of a chain after it.
fn with_attributes_of<V: TemplateValue>(
    alloc: Global,
    text: String,
    chain: &Expr<'_, V>,
) -> Result<String, AllocError>
    ensures { IfOk result (λ s. string_bytes s ≡ string_bytes text ++ after_dots
        (attributes_of (expr_node V.contents chain.now))) }
{
    let mut text = text;
    let attributes = attributes(alloc, chain)?;
    push_attributes(&mut text, &attributes)?;
    Ok(text)
}

/// The attributes of a chain, the last one first.
fn attributes<'s, V: TemplateValue>(
    alloc: Global,
    chain: &Expr<'s, V>,
) -> Result<Vec<&'s str>, AllocError>
    ensures { IfOk result (λ v. attributes_of (expr_node V.contents chain.now) ≡ reverse
        (map (λ x. x.now) v.items)) }
{
    let mut attributes = Vec::new(alloc);
    let mut part = chain;
    while let Expr::GetAttr(attribute) = part {
        attributes.push(attribute.node().name)?;
        part = &attribute.node().expr;
    }
    Ok(attributes)
}

/// Adds each attribute after a dot, the last one of the list first.
fn push_attributes(text: &mut String, attributes: &[&str]) -> Result<(), AllocError>
    ensures { OnOk result (string_bytes text.new ≡ string_bytes text.old ++ after_dots
        (reverse (map (λ x. x.now) attributes.now))) }
{
    let mut left = attributes.len();
    while left > 0 {
        left -= 1;
        text.push('.')?;
        text.push_str(attributes[left])?;
    }
    Ok(())
}
