//! Makes the nodes of expressions, each on the heap. Refused memory is the only error.
ghost use Rattle.std.specs.Prelude.{◌≡◌, IfOk};
ghost use Rattle.minijinja_tree_expr.specs.Erasure.{bin_op, unary_op};
ghost use Rattle.minijinja_tree_expr.specs.SpannedErasure.{expr_node};
ghost use Rattle.minijinja_tree_expr.specs.Nodes.{node_of, span_of};
ghost use Rattle.minijinja_tree_expr.specs.SpannedTrees as tree;
ghost use Rattle.minijinja_tree_expr.specs.SpannedTrees.{args_of, comparisons_of, exprs_of, optional_of};
ghost use Rattle.minijinja_tree_expr.specs.SpannedErasure.{all_compared, any_tree, args_view, trees};

use minijinja_syntax::tokens::Span;
use minijinja_tree_expr::ast::{
    BinOp, BinOpKind, Call, CallArg, Compare, CompareOp, Const, Expr, Filter, GetAttr, GetItem,
    IfExpr, List, Map, Slice, Spanned, Test, Tuple, UnaryOp, UnaryOpKind, Var,
};
use minijinja_value::value::TemplateValue;
use std::alloc::{AllocError, Global};

/// A node with its span.
pub fn spanned<T: Drop>(alloc: Global, node: T, span: Span) -> Result<Spanned<T>, AllocError>
    ensures node { IfOk result (λ s. node_of s ≡ node) }
    ensures span { IfOk result (λ s. span_of s ≡ span) }
{
    match Spanned::new(alloc, node, span) {
        Ok(spanned) => Ok(spanned),
        // `new` fails only where memory is refused.
        Err(_) => Err(AllocError),
    }
}

/// A variable of that name.
pub fn variable<'s, V: TemplateValue>(
    alloc: Global,
    id: &'s str,
    span: Span,
) -> Result<Expr<'s, V>, AllocError>
    ensures tree { IfOk result (λ e. expr_node V.contents e ≡ tree.variable id.now span) }
{
    Ok(Expr::Var(spanned(alloc, Var { id }, span)?))
}

/// A constant of that value.
pub fn constant<'s, V: TemplateValue>(
    alloc: Global,
    value: V,
    span: Span,
) -> Result<Expr<'s, V>, AllocError>
    ensures tree { IfOk result
        (λ e. expr_node V.contents e ≡ tree.constant (V.contents value) span) }
{
    Ok(Expr::Const(spanned(alloc, Const { value }, span)?))
}

/// The attribute of that name of an expression.
pub fn attribute<'s, V: TemplateValue>(
    alloc: Global,
    expr: Expr<'s, V>,
    name: &'s str,
    span: Span,
) -> Result<Expr<'s, V>, AllocError>
    ensures tree { IfOk result (λ e. expr_node V.contents e ≡ tree.attribute
        (expr_node V.contents expr.entry) name.now span) }
{
    Ok(Expr::GetAttr(spanned(alloc, GetAttr { expr, name }, span)?))
}

/// An item of an expression: `expr[subscript_expr]`.
pub fn item<'s, V: TemplateValue>(
    alloc: Global,
    expr: Expr<'s, V>,
    subscript_expr: Expr<'s, V>,
    span: Span,
) -> Result<Expr<'s, V>, AllocError>
    ensures tree { IfOk result (λ e. expr_node V.contents e ≡ tree.item
        (expr_node V.contents expr.entry) (expr_node V.contents subscript_expr.entry) span) }
{
    Ok(Expr::GetItem(spanned(
        alloc,
        GetItem {
            expr,
            subscript_expr,
        },
        span,
    )?))
}

/// A slice, whose parts may be absent.
pub fn slice<'s, V: TemplateValue>(
    alloc: Global,
    expr: Expr<'s, V>,
    start: Option<Expr<'s, V>>,
    stop: Option<Expr<'s, V>>,
    step: Option<Expr<'s, V>>,
    span: Span,
) -> Result<Expr<'s, V>, AllocError>
    ensures tree { IfOk result (λ e. expr_node V.contents e ≡ tree.slice
        (expr_node V.contents expr.entry) (optional_of (any_tree V.contents start.entry))
        (optional_of (any_tree V.contents stop.entry))
        (optional_of (any_tree V.contents step.entry)) span) }
{
    let node = Slice {
        expr,
        start,
        stop,
        step,
    };
    Ok(Expr::Slice(spanned(alloc, node, span)?))
}

/// A unary operator on an operand.
pub fn unary<'s, V: TemplateValue>(
    alloc: Global,
    op: UnaryOpKind,
    expr: Expr<'s, V>,
    span: Span,
) -> Result<Expr<'s, V>, AllocError>
    ensures tree { IfOk result (λ e. expr_node V.contents e ≡ tree.unary (unary_op op)
        (expr_node V.contents expr.entry) span) }
{
    Ok(Expr::UnaryOp(spanned(alloc, UnaryOp { op, expr }, span)?))
}

/// A binary operator on two operands.
pub fn binary<'s, V: TemplateValue>(
    alloc: Global,
    op: BinOpKind,
    left: Expr<'s, V>,
    right: Expr<'s, V>,
    span: Span,
) -> Result<Expr<'s, V>, AllocError>
    ensures tree { IfOk result (λ e. expr_node V.contents e ≡ tree.binary (bin_op op)
        (expr_node V.contents left.entry) (expr_node V.contents right.entry) span) }
{
    Ok(Expr::BinOp(spanned(alloc, BinOp { op, left, right }, span)?))
}

/// A chain of comparisons.
pub fn compare<'s, V: TemplateValue>(
    alloc: Global,
    expr: Expr<'s, V>,
    ops: Vec<CompareOp<'s, V>>,
    span: Span,
) -> Result<Expr<'s, V>, AllocError>
    ensures tree { IfOk result (λ e. expr_node V.contents e ≡ tree.compare
        (expr_node V.contents expr.entry)
        (comparisons_of (all_compared V.contents ops.entry.items)) span) }
{
    Ok(Expr::Compare(spanned(alloc, Compare { expr, ops }, span)?))
}

/// An if expression.
pub fn if_expr<'s, V: TemplateValue>(
    alloc: Global,
    test_expr: Expr<'s, V>,
    true_expr: Expr<'s, V>,
    false_expr: Option<Expr<'s, V>>,
    span: Span,
) -> Result<Expr<'s, V>, AllocError>
    ensures tree { IfOk result (λ e. expr_node V.contents e ≡ tree.if_expr
        (expr_node V.contents test_expr.entry) (expr_node V.contents true_expr.entry)
        (optional_of (any_tree V.contents false_expr.entry)) span) }
{
    let node = IfExpr {
        test_expr,
        true_expr,
        false_expr,
    };
    Ok(Expr::IfExpr(spanned(alloc, node, span)?))
}

/// A filter of an operand, which the innermost filter of a set or filter block lacks.
pub fn filter<'s, V: TemplateValue>(
    alloc: Global,
    name: &'s str,
    expr: Option<Expr<'s, V>>,
    args: Vec<CallArg<'s, V>>,
    span: Span,
) -> Result<Expr<'s, V>, AllocError>
    ensures tree { IfOk result (λ e. expr_node V.contents e ≡ tree.filter
        (optional_of (any_tree V.contents expr.entry)) name.now
        (args_of (args_view V.contents args.entry.items)) span) }
{
    Ok(Expr::Filter(spanned(alloc, Filter { name, expr, args }, span)?))
}

/// A test of an operand.
pub fn test<'s, V: TemplateValue>(
    alloc: Global,
    name: &'s str,
    expr: Expr<'s, V>,
    args: Vec<CallArg<'s, V>>,
    span: Span,
) -> Result<Expr<'s, V>, AllocError>
    ensures tree { IfOk result (λ e. expr_node V.contents e ≡ tree.test
        (expr_node V.contents expr.entry) name.now
        (args_of (args_view V.contents args.entry.items)) span) }
{
    Ok(Expr::Test(spanned(alloc, Test { name, expr, args }, span)?))
}

/// A call of an expression.
pub fn call<'s, V: TemplateValue>(
    alloc: Global,
    expr: Expr<'s, V>,
    args: Vec<CallArg<'s, V>>,
    span: Span,
) -> Result<Expr<'s, V>, AllocError>
    ensures tree { IfOk result (λ e. expr_node V.contents e ≡ tree.call
        (expr_node V.contents expr.entry) (args_of (args_view V.contents args.entry.items))
        span) }
{
    Ok(Expr::Call(spanned(alloc, Call { expr, args }, span)?))
}

/// A list of these items.
pub fn list<'s, V: TemplateValue>(
    alloc: Global,
    items: Vec<Expr<'s, V>>,
    span: Span,
) -> Result<Expr<'s, V>, AllocError>
    ensures tree { IfOk result (λ e. expr_node V.contents e ≡ tree.list
        (exprs_of (trees V.contents items.entry.items)) span) }
{
    Ok(Expr::List(spanned(alloc, List { items }, span)?))
}

/// A tuple of these items.
pub fn tuple<'s, V: TemplateValue>(
    alloc: Global,
    items: Vec<Expr<'s, V>>,
    span: Span,
) -> Result<Expr<'s, V>, AllocError>
    ensures tree { IfOk result (λ e. expr_node V.contents e ≡ tree.tuple
        (exprs_of (trees V.contents items.entry.items)) span) }
{
    Ok(Expr::Tuple(spanned(alloc, Tuple { items }, span)?))
}

/// A map of keys to values, each at the place of its key.
pub fn map<'s, V: TemplateValue>(
    alloc: Global,
    keys: Vec<Expr<'s, V>>,
    values: Vec<Expr<'s, V>>,
    span: Span,
) -> Result<Expr<'s, V>, AllocError>
    ensures tree { IfOk result (λ e. expr_node V.contents e ≡ tree.map
        (exprs_of (trees V.contents keys.entry.items))
        (exprs_of (trees V.contents values.entry.items)) span) }
{
    Ok(Expr::Map(spanned(alloc, Map { keys, values }, span)?))
}
