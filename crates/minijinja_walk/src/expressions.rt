//! The children of expressions.
ghost use Rattle.std.specs.Prelude.{◌∷◌, ◌++◌, OnOk};
ghost use Rattle.minijinja_tree.specs.SpannedErasure.{args_of, expr_node, optional_of, trees};
ghost use Rattle.minijinja_tree.specs.SpannedTrees.{exprs_of};
ghost use Rattle.minijinja_walk.specs.Children as node;
ghost use Rattle.minijinja_walk.specs.Children.{arguments, expr_children, exprs, if_any};
ghost use Rattle.minijinja_walk.specs.private.Added.{Adds, compare_children};

use crate::parts::{all, arguments, if_any, one, operands, two};
use crate::walk::Node;
use minijinja_tree::ast::{CallArg, Compare, Expr, Filter, IfExpr, Map, Slice};
use minijinja_value::value::TemplateValue;
use std::alloc::AllocError;

/// Adds the children of an expression.
pub fn expression<'a, 's, V: TemplateValue>(
    nodes: &mut Vec<Node<'a, 's, V>>,
    expr: &'a Expr<'s, V>,
) -> Result<(), AllocError>
    ensures { OnOk result (Adds V.contents nodes.old.items nodes.new.items
        (expr_children (expr_node V.contents expr.now))) }
{
    match expr {
        Expr::Var(_) => Ok(()),
        Expr::Const(_) => Ok(()),
        Expr::Slice(slice) => bounds(nodes, slice.node()),
        Expr::UnaryOp(operation) => one(nodes, &operation.node().expr),
        Expr::BinOp(operation) => two(nodes, &operation.node().left, &operation.node().right),
        Expr::Compare(chain) => compared(nodes, chain.node()),
        Expr::IfExpr(choice) => branches(nodes, choice.node()),
        Expr::Filter(filter) => filtered(nodes, filter.node()),
        Expr::Test(test) => called(nodes, &test.node().expr, &test.node().args),
        Expr::GetAttr(attribute) => one(nodes, &attribute.node().expr),
        Expr::GetItem(item) => two(nodes, &item.node().expr, &item.node().subscript_expr),
        Expr::Call(call) => called(nodes, &call.node().expr, &call.node().args),
        Expr::List(list) => all(nodes, &list.node().items),
        Expr::Tuple(tuple) => all(nodes, &tuple.node().items),
        Expr::Map(map) => keys_and_values(nodes, map.node()),
    }
}

/// Adds an expression and its bounds.
fn bounds<'a, 's, V: TemplateValue>(
    nodes: &mut Vec<Node<'a, 's, V>>,
    slice: &'a Slice<'s, V>,
) -> Result<(), AllocError>
    ensures { OnOk result (Adds V.contents nodes.old.items nodes.new.items
        (node.expr (expr_node V.contents slice.now.expr)
        ∷ if_any (optional_of V.contents slice.now.start)
        ++ if_any (optional_of V.contents slice.now.stop)
        ++ if_any (optional_of V.contents slice.now.step))) }
{
    one(nodes, &slice.expr)?;
    if_any(nodes, &slice.start)?;
    if_any(nodes, &slice.stop)?;
    if_any(nodes, &slice.step)
}

/// Adds the operands of a chain of comparisons.
fn compared<'a, 's, V: TemplateValue>(
    nodes: &mut Vec<Node<'a, 's, V>>,
    chain: &'a Compare<'s, V>,
) -> Result<(), AllocError>
    ensures { OnOk result (Adds V.contents nodes.old.items nodes.new.items
        (compare_children V.contents chain.now)) }
{
    one(nodes, &chain.expr)?;
    operands(nodes, &chain.ops)
}

/// Adds the test of an if expression, and then its branches.
fn branches<'a, 's, V: TemplateValue>(
    nodes: &mut Vec<Node<'a, 's, V>>,
    choice: &'a IfExpr<'s, V>,
) -> Result<(), AllocError>
    ensures { OnOk result (Adds V.contents nodes.old.items nodes.new.items
        (node.expr (expr_node V.contents choice.now.test_expr)
        ∷ node.expr (expr_node V.contents choice.now.true_expr)
        ∷ if_any (optional_of V.contents choice.now.false_expr))) }
{
    two(nodes, &choice.test_expr, &choice.true_expr)?;
    if_any(nodes, &choice.false_expr)
}

/// Adds the operand of a filter, if it has one, and its arguments.
fn filtered<'a, 's, V: TemplateValue>(
    nodes: &mut Vec<Node<'a, 's, V>>,
    filter: &'a Filter<'s, V>,
) -> Result<(), AllocError>
    ensures { OnOk result (Adds V.contents nodes.old.items nodes.new.items
        (if_any (optional_of V.contents filter.now.expr)
        ++ arguments (args_of V.contents filter.now.args.items))) }
{
    if_any(nodes, &filter.expr)?;
    arguments(nodes, &filter.args)
}

/// Adds what is called or tested, and then the arguments.
pub fn called<'a, 's, V: TemplateValue>(
    nodes: &mut Vec<Node<'a, 's, V>>,
    expr: &'a Expr<'s, V>,
    args: &'a [CallArg<'s, V>],
) -> Result<(), AllocError>
    ensures { OnOk result (Adds V.contents nodes.old.items nodes.new.items
        (node.expr (expr_node V.contents expr.now) ∷ arguments (args_of V.contents args.now))) }
{
    one(nodes, expr)?;
    arguments(nodes, args)
}

/// Adds the keys of a map, and then its values.
fn keys_and_values<'a, 's, V: TemplateValue>(
    nodes: &mut Vec<Node<'a, 's, V>>,
    map: &'a Map<'s, V>,
) -> Result<(), AllocError>
    ensures { OnOk result (Adds V.contents nodes.old.items nodes.new.items
        (exprs (exprs_of (trees V.contents map.now.keys.items))
        ++ exprs (exprs_of (trees V.contents map.now.values.items)))) }
{
    all(nodes, &map.keys)?;
    all(nodes, &map.values)
}
