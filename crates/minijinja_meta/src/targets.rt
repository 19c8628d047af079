//! The walk through what is assigned to.
ghost use Rattle.std.specs.Prelude.{◌≡◌, ◌+◌, OnOk, drop, option_map, reverse, slice_get};
ghost use Rattle.minijinja_tree.specs.SpannedErasure.{bindings_of, expr_node, names_of, optional_of, trees};
ghost use Rattle.minijinja_tree.specs.SpannedTrees.{exprs_of};
ghost use Rattle.minijinja_meta.specs.Mentions.{through, to_assignments, to_defaulted, to_name, to_names, to_parameters, to_target, to_targets};
ghost use Rattle.minijinja_meta.specs.private.Scoped.{IsLogged};
ghost use Rattle.minijinja_meta.specs.private.Walked.{Walking, Walks};

use crate::expressions::expression;
use crate::walker::Walker;
use minijinja_tree::ast::{Expr, Macro};
use minijinja_value::value::TemplateValue;
use std::alloc::AllocError;

/// Stores the variables of a target.
#[cycle(targets)]
pub fn target<'a, 's, V: TemplateValue>(
    walker: &mut Walker<'a, 's, V>,
    expr: &'a Expr<'s, V>,
) -> Result<(), AllocError>
    requires { IsLogged walker.old.scopes }
    ensures { OnOk result (Walks V.contents walker.old walker.new
        (to_target (expr_node V.contents expr.now))) }
{
    match expr {
        Expr::Var(variable) => walker.stores(variable.node().id),
        Expr::GetAttr(attribute) => expression(walker, &attribute.node().expr),
        Expr::List(list) => targets(walker, &list.node().items),
        _ => expression(walker, expr),
    }
}

/// Stores the variables of targets, in order.
#[cycle(targets)]
fn targets<'a, 's, V: TemplateValue>(
    walker: &mut Walker<'a, 's, V>,
    exprs: &'a [Expr<'s, V>],
) -> Result<(), AllocError>
    requires { IsLogged walker.old.scopes }
    ensures { OnOk result (Walks V.contents walker.old walker.new
        (to_targets (exprs_of (trees V.contents exprs.now)))) }
{
    for expr in exprs {
        target(walker, expr)?;
    }
    Ok(())
}

/// Walks through assignments, each value before its target.
pub fn assignments<'a, 's, V: TemplateValue>(
    walker: &mut Walker<'a, 's, V>,
    pairs: &'a [(Expr<'s, V>, Expr<'s, V>)],
) -> Result<(), AllocError>
    requires { IsLogged walker.old.scopes }
    ensures { OnOk result (Walks V.contents walker.old walker.new
        (to_assignments (bindings_of V.contents pairs.now))) }
{
    for (left, value) in pairs {
        expression(walker, value)?;
        target(walker, left)?;
    }
    Ok(())
}

/// Stores the names that are imported from a template, the last one first.
pub fn imported<'a, 's, V: TemplateValue>(
    walker: &mut Walker<'a, 's, V>,
    taken: &'a [(Expr<'s, V>, Option<Expr<'s, V>>)],
) -> Result<(), AllocError>
    requires { IsLogged walker.old.scopes }
    ensures { OnOk result (Walks V.contents walker.old walker.new
        (to_names (names_of V.contents taken.now))) }
{
    let mut left = taken.len();
    while left > 0 {
        left -= 1;
        taken_as(walker, &taken[left])?;
    }
    Ok(())
}

/// Stores a name that is imported from a template, or its alias if it has one.
fn taken_as<'a, 's, V: TemplateValue>(
    walker: &mut Walker<'a, 's, V>,
    taken: &'a (Expr<'s, V>, Option<Expr<'s, V>>),
) -> Result<(), AllocError>
    requires { IsLogged walker.old.scopes }
    ensures { OnOk result (Walks V.contents walker.old walker.new
        (to_name
        (expr_node V.contents taken.now.0, optional_of V.contents taken.now.1))) }
{
    match &taken.1 {
        Some(alias) => target(walker, alias),
        None => target(walker, &taken.0),
    }
}

/// Stores the arguments of a macro, the last one first, each after its default.
pub fn parameters<'a, 's, V: TemplateValue>(
    walker: &mut Walker<'a, 's, V>,
    declared: &'a Macro<'s, V>,
) -> Result<(), AllocError>
    requires { IsLogged walker.old.scopes }
    ensures { OnOk result (Walks V.contents walker.old walker.new
        (to_parameters (trees V.contents declared.now.args.items)
        (trees V.contents declared.now.defaults.items))) }
{
    for place in 0..declared.args.len() {
        parameter(walker, declared, place)?;
    }
    Ok(())
}

/// Stores the argument at a place, counted from the end, if there is one, after its default.
fn parameter<'a, 's, V: TemplateValue>(
    walker: &mut Walker<'a, 's, V>,
    declared: &'a Macro<'s, V>,
    place: usize,
) -> Result<(), AllocError>
    requires { IsLogged walker.old.scopes }
    ensures { OnOk result (Walking V.contents walker.old walker.new
        (to_defaulted (drop place (reverse (trees V.contents declared.now.args.items)))
        (drop place (reverse (trees V.contents declared.now.defaults.items))))
        (to_defaulted (drop (place + 1) (reverse (trees V.contents declared.now.args.items)))
        (drop (place + 1) (reverse (trees V.contents declared.now.defaults.items))))) }
{
    let Some(arg) = from_end(&declared.args, place) else {
        return Ok(());
    };
    match from_end(&declared.defaults, place) {
        Some(default) => defaulted(walker, default, arg),
        None => target(walker, arg),
    }
}

fn defaulted<'a, 's, V: TemplateValue>(
    walker: &mut Walker<'a, 's, V>,
    default: &'a Expr<'s, V>,
    arg: &'a Expr<'s, V>,
) -> Result<(), AllocError>
    requires { IsLogged walker.old.scopes }
    ensures { OnOk result (Walks V.contents walker.old walker.new
        (λ w. through (expr_node V.contents default.now)
        (to_target (expr_node V.contents arg.now) w))) }
{
    expression(walker, default)?;
    target(walker, arg)
}

/// The expression at a place, counted from the end.
fn from_end<'a, 's, V: TemplateValue>(
    exprs: &'a [Expr<'s, V>],
    place: usize,
) -> Option<&'a Expr<'s, V>>
    ensures { option_map (λ e. e.now) result ≡ slice_get (reverse exprs.now) place }
{
    if place < exprs.len() {
        Some(&exprs[exprs.len() - 1 - place])
    } else {
        None
    }
}
