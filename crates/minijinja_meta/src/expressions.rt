//! The walk through expressions, in order of execution.
ghost use Rattle.std.specs.Prelude.{◌<◌, ◌≤◌, IfOk, IfSome, OnOk};
ghost use Rattle.minijinja_tree.specs.SpannedErasure.{all_compared, args_of, expr_node, optional_of, trees};
ghost use Rattle.minijinja_tree.specs.SpannedTrees.{comparisons_of, exprs_of};
ghost use Rattle.minijinja_tree_expr.specs.Sizes.{size_of};
ghost use Rattle.minijinja_meta.specs.Mentions.{each, in_turn, through, through_all, through_compared, through_if_any, through_keyword, through_positional};
ghost use Rattle.minijinja_meta.specs.private.Parts as parts;
ghost use Rattle.minijinja_meta.specs.private.Parts.{HasParts, any_node};
ghost use Rattle.minijinja_meta.specs.private.Scoped.{IsLogged};
ghost use Rattle.minijinja_meta.specs.private.Walked.{Reaches, Walks};

use crate::parts::{Start, base_of, key_at, keyword, positional, start_of, value_at};
use crate::walker::Walker;
use minijinja_tree::ast::{CallArg, CompareOp, Expr, Map, Slice};
use minijinja_value::value::TemplateValue;
use std::alloc::AllocError;

/// Walks through an expression.
#[inline(always)]
#[cycle(walk)]
pub fn expression<'a, 's, V: TemplateValue>(
    walker: &mut Walker<'a, 's, V>,
    expr: &'a Expr<'s, V>,
) -> Result<(), AllocError>
    requires { IsLogged walker.old.scopes }
    ensures { OnOk result (Walks V.contents walker.old walker.new
        (through (expr_node V.contents expr.now))) }
{
    match leaf(walker, expr)? {
        Some(part) => row(walker, part),
        None => Ok(()),
    }
}

/// Walks through a constant, or a variable with its attributes. Of any other expression it returns
/// what the attributes are taken of.
#[inline(always)]
fn leaf<'a, 's, V: TemplateValue>(
    walker: &mut Walker<'a, 's, V>,
    chain: &'a Expr<'s, V>,
) -> Result<Option<&'a Expr<'s, V>>, AllocError>
    requires { IsLogged walker.old.scopes }
    ensures reaches { IfOk result (λ next. Reaches V.contents walker.old walker.new
        (through (expr_node V.contents chain.now)) next (λ w. w)) }
    ensures smaller { IfOk result (λ next. IfSome next (λ e. size_of e.now ≤ size_of chain.now)) }
{
    let part = base_of(chain);
    match part {
        Expr::Var(variable) => {
            walker.occurs(variable.node().id, variable.span(), chain)?;
            Ok(None)
        }
        Expr::Const(_) => Ok(None),
        _ => Ok(Some(part)),
    }
}

/// Walks through an expression that is no attribute and no variable. Goes down the long side in a
/// loop and back up in another, so that a row of operators, attributes, filters, calls or if
/// expressions takes no more stack than one of them.
#[inline(never)]
#[cycle(walk)]
fn row<'a, 's, V: TemplateValue>(
    walker: &mut Walker<'a, 's, V>,
    expr: &'a Expr<'s, V>,
) -> Result<(), AllocError>
    requires logged { IsLogged walker.old.scopes }
    requires parts { HasParts (expr_node V.contents expr.now) }
    ensures { OnOk result (Walks V.contents walker.old walker.new
        (through (expr_node V.contents expr.now))) }
{
    let mark = walker.waiting.len();
    let mut left = None;
    let mut side = Some(expr);
    while let Some(part) = side {
        left = walker.leaves(left, part)?;
        side = next_side(walker, part)?;
    }
    while let Some(part) = left {
        rest(walker, part)?;
        left = walker.left_after(mark);
    }
    Ok(())
}

/// Walks through what comes before the long side of an expression, and through the long side if it
/// is a leaf. Returns it otherwise.
#[inline(always)]
#[cycle(walk)]
fn next_side<'a, 's, V: TemplateValue>(
    walker: &mut Walker<'a, 's, V>,
    part: &'a Expr<'s, V>,
) -> Result<Option<&'a Expr<'s, V>>, AllocError>
    requires logged { IsLogged walker.old.scopes }
    requires parts { HasParts (expr_node V.contents part.now) }
    ensures reaches { IfOk result (λ next. Reaches V.contents walker.old walker.new
        (through (expr_node V.contents part.now)) next (parts.rest (expr_node V.contents
        part.now))) }
    ensures smaller { IfOk result (λ next. IfSome next (λ e. size_of e.now < size_of part.now)) }
{
    match start_of(part) {
        Start::Side(test, side) => {
            if_any(walker, test)?;
            leaf(walker, side)
        }
        Start::Parts => Ok(None),
    }
}

/// Walks through the parts of an expression but its long side, and but the test of an if
/// expression.
#[cycle(walk)]
fn rest<'a, 's, V: TemplateValue>(
    walker: &mut Walker<'a, 's, V>,
    expr: &'a Expr<'s, V>,
) -> Result<(), AllocError>
    requires { IsLogged walker.old.scopes }
    ensures { OnOk result (Walks V.contents walker.old walker.new
        (parts.rest (expr_node V.contents expr.now))) }
{
    match expr {
        Expr::Var(_) => Ok(()),
        Expr::Const(_) => Ok(()),
        Expr::Slice(slice) => bounds(walker, slice.node()),
        Expr::UnaryOp(_) => Ok(()),
        Expr::BinOp(operation) => expression(walker, &operation.node().right),
        Expr::Compare(chain) => compared(walker, &chain.node().ops),
        Expr::IfExpr(choice) => if_any(walker, choice.node().false_expr.as_ref()),
        Expr::Filter(filter) => arguments(walker, &filter.node().args),
        Expr::Test(test) => arguments(walker, &test.node().args),
        Expr::GetAttr(_) => Ok(()),
        Expr::GetItem(item) => expression(walker, &item.node().subscript_expr),
        Expr::Call(call) => arguments(walker, &call.node().args),
        Expr::List(list) => expressions(walker, &list.node().items),
        Expr::Tuple(tuple) => expressions(walker, &tuple.node().items),
        Expr::Map(map) => pairs(walker, map.node()),
    }
}

#[cycle(walk)]
fn bounds<'a, 's, V: TemplateValue>(
    walker: &mut Walker<'a, 's, V>,
    slice: &'a Slice<'s, V>,
) -> Result<(), AllocError>
    requires { IsLogged walker.old.scopes }
    ensures { OnOk result (Walks V.contents walker.old walker.new
        (λ w. through_if_any (optional_of V.contents slice.now.start)
        (through_if_any (optional_of V.contents slice.now.stop)
        (through_if_any (optional_of V.contents slice.now.step) w)))) }
{
    if_any(walker, slice.start.as_ref())?;
    if_any(walker, slice.stop.as_ref())?;
    if_any(walker, slice.step.as_ref())
}

/// Walks through an expression that may be absent.
#[cycle(walk)]
pub fn if_any<'a, 's, V: TemplateValue>(
    walker: &mut Walker<'a, 's, V>,
    expr: Option<&'a Expr<'s, V>>,
) -> Result<(), AllocError>
    requires { IsLogged walker.old.scopes }
    ensures { OnOk result (Walks V.contents walker.old walker.new
        (through_if_any (any_node V.contents expr.entry))) }
{
    match expr {
        Some(expr) => expression(walker, expr),
        None => Ok(()),
    }
}

#[cycle(walk)]
fn expressions<'a, 's, V: TemplateValue>(
    walker: &mut Walker<'a, 's, V>,
    exprs: &'a [Expr<'s, V>],
) -> Result<(), AllocError>
    requires { IsLogged walker.old.scopes }
    ensures { OnOk result (Walks V.contents walker.old walker.new
        (through_all (exprs_of (trees V.contents exprs.now)))) }
{
    for expr in exprs {
        expression(walker, expr)?;
    }
    Ok(())
}

#[cycle(walk)]
fn compared<'a, 's, V: TemplateValue>(
    walker: &mut Walker<'a, 's, V>,
    comparisons: &'a [CompareOp<'s, V>],
) -> Result<(), AllocError>
    requires { IsLogged walker.old.scopes }
    ensures { OnOk result (Walks V.contents walker.old walker.new
        (through_compared (comparisons_of (all_compared V.contents comparisons.now)))) }
{
    for comparison in comparisons {
        expression(walker, &comparison.expr)?;
    }
    Ok(())
}

/// Walks through positional and `*` arguments, and then through keyword and `**` arguments.
#[cycle(walk)]
pub fn arguments<'a, 's, V: TemplateValue>(
    walker: &mut Walker<'a, 's, V>,
    args: &'a [CallArg<'s, V>],
) -> Result<(), AllocError>
    requires { IsLogged walker.old.scopes }
    ensures { OnOk result (Walks V.contents walker.old walker.new
        (λ w. through_positional (args_of V.contents args.now)
        (through_keyword (args_of V.contents args.now) w))) }
{
    for arg in args {
        if_any(walker, positional(arg))?;
    }
    for arg in args {
        if_any(walker, keyword(arg))?;
    }
    Ok(())
}

/// Walks through the keys and the values of a map in turn.
#[cycle(walk)]
fn pairs<'a, 's, V: TemplateValue>(
    walker: &mut Walker<'a, 's, V>,
    map: &'a Map<'s, V>,
) -> Result<(), AllocError>
    requires { IsLogged walker.old.scopes }
    ensures { OnOk result (Walks V.contents walker.old walker.new
        (λ w. in_turn (each (exprs_of (trees V.contents map.now.keys.items)))
        (each (exprs_of (trees V.contents map.now.values.items))) w)) }
{
    for place in 0..map.keys.len().max(map.values.len()) {
        if_any(walker, key_at(map, place))?;
        if_any(walker, value_at(map, place))?;
    }
    Ok(())
}
