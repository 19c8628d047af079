//! Parts of nodes that are added to a list of nodes.
ghost use Rattle.std.specs.Prelude.{[], ◌∷◌, OnOk, map};
ghost use Rattle.minijinja_tree.specs.SpannedErasure.{all_compared, args_of, bindings_of, expr_node, names_of, optional_of, stmt_node, trees};
ghost use Rattle.minijinja_tree.specs.SpannedTrees.{comparisons_of, exprs_of, stmts_of};
ghost use Rattle.minijinja_walk.specs.Children as node;
ghost use Rattle.minijinja_walk.specs.Children.{arguments, body, exprs, if_any, imported, operands, pairs};
ghost use Rattle.minijinja_walk.specs.private.Added.{Adds};

use crate::walk::Node;
use minijinja_tree::ast::{CallArg, CompareOp, Expr, Stmt};
use minijinja_value::value::TemplateValue;
use std::alloc::AllocError;

/// Adds an expression.
pub fn one<'a, 's, V: TemplateValue>(
    nodes: &mut Vec<Node<'a, 's, V>>,
    expr: &'a Expr<'s, V>,
) -> Result<(), AllocError>
    ensures { OnOk result (Adds V.contents nodes.old.items nodes.new.items
        (node.expr (expr_node V.contents expr.now) ∷ [])) }
{
    nodes.push(Node::Expr(expr))?;
    Ok(())
}

/// Adds an expression, if there is one.
pub fn if_any<'a, 's, V: TemplateValue>(
    nodes: &mut Vec<Node<'a, 's, V>>,
    expr: &'a Option<Expr<'s, V>>,
) -> Result<(), AllocError>
    ensures { OnOk result (Adds V.contents nodes.old.items nodes.new.items
        (if_any (optional_of V.contents expr.now))) }
{
    match expr {
        Some(expr) => one(nodes, expr),
        None => Ok(()),
    }
}

/// Adds two expressions.
pub fn two<'a, 's, V: TemplateValue>(
    nodes: &mut Vec<Node<'a, 's, V>>,
    first: &'a Expr<'s, V>,
    second: &'a Expr<'s, V>,
) -> Result<(), AllocError>
    ensures { OnOk result (Adds V.contents nodes.old.items nodes.new.items
        (node.expr (expr_node V.contents first.now)
        ∷ node.expr (expr_node V.contents second.now) ∷ [])) }
{
    one(nodes, first)?;
    one(nodes, second)
}

/// Adds expressions in order.
pub fn all<'a, 's, V: TemplateValue>(
    nodes: &mut Vec<Node<'a, 's, V>>,
    items: &'a [Expr<'s, V>],
) -> Result<(), AllocError>
    ensures { OnOk result (Adds V.contents nodes.old.items nodes.new.items
        (exprs (exprs_of (trees V.contents items.now)))) }
{
    for expr in items {
        one(nodes, expr)?;
    }
    Ok(())
}

/// Adds the operands of comparisons.
pub fn operands<'a, 's, V: TemplateValue>(
    nodes: &mut Vec<Node<'a, 's, V>>,
    comparisons: &'a [CompareOp<'s, V>],
) -> Result<(), AllocError>
    ensures { OnOk result (Adds V.contents nodes.old.items nodes.new.items
        (operands (comparisons_of (all_compared V.contents comparisons.now)))) }
{
    for comparison in comparisons {
        one(nodes, &comparison.expr)?;
    }
    Ok(())
}

/// Adds the expressions of arguments.
pub fn arguments<'a, 's, V: TemplateValue>(
    nodes: &mut Vec<Node<'a, 's, V>>,
    args: &'a [CallArg<'s, V>],
) -> Result<(), AllocError>
    ensures { OnOk result (Adds V.contents nodes.old.items nodes.new.items
        (arguments (args_of V.contents args.now))) }
{
    for arg in args {
        argument(nodes, arg)?;
    }
    Ok(())
}

/// Adds the expression of an argument.
fn argument<'a, 's, V: TemplateValue>(
    nodes: &mut Vec<Node<'a, 's, V>>,
    arg: &'a CallArg<'s, V>,
) -> Result<(), AllocError>
    ensures { OnOk result (Adds V.contents nodes.old.items nodes.new.items
        (arguments (args_of V.contents (arg.now ∷ [])))) }
{
    match arg {
        CallArg::Pos(expr) => one(nodes, expr),
        CallArg::Kwarg(_, expr) => one(nodes, expr),
        CallArg::PosSplat(expr) => one(nodes, expr),
        CallArg::KwargSplat(expr) => one(nodes, expr),
    }
}

/// Adds targets, each before its value.
pub fn pairs<'a, 's, V: TemplateValue>(
    nodes: &mut Vec<Node<'a, 's, V>>,
    assignments: &'a [(Expr<'s, V>, Expr<'s, V>)],
) -> Result<(), AllocError>
    ensures { OnOk result (Adds V.contents nodes.old.items nodes.new.items
        (pairs (bindings_of V.contents assignments.now))) }
{
    for (target, value) in assignments {
        two(nodes, target, value)?;
    }
    Ok(())
}

/// Adds names, each before its alias, if it has one.
pub fn imported<'a, 's, V: TemplateValue>(
    nodes: &mut Vec<Node<'a, 's, V>>,
    names: &'a [(Expr<'s, V>, Option<Expr<'s, V>>)],
) -> Result<(), AllocError>
    ensures { OnOk result (Adds V.contents nodes.old.items nodes.new.items
        (imported (names_of V.contents names.now))) }
{
    for (name, alias) in names {
        one(nodes, name)?;
        if_any(nodes, alias)?;
    }
    Ok(())
}

/// Adds the statements of a body.
pub fn body<'a, 's, V: TemplateValue>(
    nodes: &mut Vec<Node<'a, 's, V>>,
    stmts: &'a [Stmt<'s, V>],
) -> Result<(), AllocError>
    ensures { OnOk result (Adds V.contents nodes.old.items nodes.new.items
        (body (stmts_of (map (stmt_node V.contents) stmts.now)))) }
{
    for stmt in stmts {
        nodes.push(Node::Stmt(stmt))?;
    }
    Ok(())
}
