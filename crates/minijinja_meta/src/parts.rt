//! How the way through an expression begins, and its parts.
ghost use Rattle.std.specs.Prelude.{◌≡◌, ◌<◌, ◌≤◌, IfSome, option_map, slice_get};
ghost use Rattle.minijinja_tree.specs.SpannedErasure.{arg_view, expr_node};
ghost use Rattle.minijinja_tree_expr.specs.Sizes.{size_of};
ghost use Rattle.minijinja_meta.specs.Mentions.{Way, attributes_of, chained, through};
ghost use Rattle.minijinja_meta.specs.private.Parts.{HasParts, IsBase, IsSmaller, IsStart, arg_size, keyword_of, map_size, most_size, positional_of};

use minijinja_tree::ast::{CallArg, Expr, Map};
use minijinja_value::value::TemplateValue;

/// How the way through an expression begins.
#[derive(Drop)]
pub enum Start<'a, 's, V: TemplateValue> {
    /// At the long side, as the left operand of an operator. An if expression has a test, which
    /// comes before.
    Side(Option<&'a Expr<'s, V>>, &'a Expr<'s, V>),
    /// At the first of its parts: no side of it is long.
    Parts,
}

/// What the attributes of a chain are taken of, as `a` of `a.b.c`. Of what is no attribute itself
/// it is the expression.
pub fn base_of<'a, 's, V: TemplateValue>(chain: &'a Expr<'s, V>) -> &'a Expr<'s, V>
    ensures way { (w : Way) → through (expr_node V.contents chain.now) w ≡ chained
        (attributes_of (expr_node V.contents chain.now)) (expr_node V.contents result.now) w }
    ensures base { IsBase (expr_node V.contents result.now) }
    ensures smaller { size_of result.now ≤ size_of chain.now }
{
    let mut part = chain;
    while let Expr::GetAttr(attribute) = part {
        part = &attribute.node().expr;
    }
    part
}

/// How the way through an expression begins that is no attribute and no variable.
pub fn start_of<'a, 's, V: TemplateValue>(expr: &'a Expr<'s, V>) -> Start<'a, 's, V>
    requires { HasParts (expr_node V.contents expr.now) }
    ensures way { IsStart V.contents expr.now result }
    ensures smaller { IsSmaller expr.now result }
{
    match expr {
        Expr::Var(_) => unreachable!(),
        Expr::Const(_) => Start::Parts,
        Expr::Slice(slice) => Start::Side(None, &slice.node().expr),
        Expr::UnaryOp(operation) => Start::Side(None, &operation.node().expr),
        Expr::BinOp(operation) => Start::Side(None, &operation.node().left),
        Expr::Compare(chain) => Start::Side(None, &chain.node().expr),
        Expr::IfExpr(choice) => Start::Side(
            Some(&choice.node().test_expr),
            &choice.node().true_expr,
        ),
        Expr::Filter(filter) => match &filter.node().expr {
            Some(expr) => Start::Side(None, expr),
            None => Start::Parts,
        },
        Expr::Test(test) => Start::Side(None, &test.node().expr),
        Expr::GetAttr(_) => unreachable!(),
        Expr::GetItem(item) => Start::Side(None, &item.node().expr),
        Expr::Call(call) => Start::Side(None, &call.node().expr),
        Expr::List(_) => Start::Parts,
        Expr::Tuple(_) => Start::Parts,
        Expr::Map(_) => Start::Parts,
    }
}

/// The expression of a positional or `*` argument.
pub fn positional<'a, 's, V: TemplateValue>(arg: &'a CallArg<'s, V>) -> Option<&'a Expr<'s, V>>
    ensures expr { option_map (λ e. expr_node V.contents e.now) result ≡ positional_of
        (arg_view V.contents arg.now) }
    ensures smaller { IfSome result (λ e. size_of e.now < arg_size arg.now) }
{
    match arg {
        CallArg::Pos(expr) => Some(expr),
        CallArg::PosSplat(expr) => Some(expr),
        CallArg::Kwarg(_, _) => None,
        CallArg::KwargSplat(_) => None,
    }
}

/// The expression of a keyword or `**` argument.
pub fn keyword<'a, 's, V: TemplateValue>(arg: &'a CallArg<'s, V>) -> Option<&'a Expr<'s, V>>
    ensures expr { option_map (λ e. expr_node V.contents e.now) result ≡ keyword_of
        (arg_view V.contents arg.now) }
    ensures smaller { IfSome result (λ e. size_of e.now < arg_size arg.now) }
{
    match arg {
        CallArg::Pos(_) => None,
        CallArg::PosSplat(_) => None,
        CallArg::Kwarg(_, expr) => Some(expr),
        CallArg::KwargSplat(expr) => Some(expr),
    }
}

/// The key at a place, if there is one.
pub fn key_at<'a, 's, V: TemplateValue>(
    map: &'a Map<'s, V>,
    place: usize,
) -> Option<&'a Expr<'s, V>>
    ensures key { option_map (λ e. e.now) result ≡ slice_get map.now.keys.items place }
    ensures smaller { IfSome result (λ e. size_of e.now < map_size map.now) }
{
    at(keys_of(map), place)
}

/// The value at a place, if there is one.
pub fn value_at<'a, 's, V: TemplateValue>(
    map: &'a Map<'s, V>,
    place: usize,
) -> Option<&'a Expr<'s, V>>
    ensures value { option_map (λ e. e.now) result ≡ slice_get map.now.values.items place }
    ensures smaller { IfSome result (λ e. size_of e.now < map_size map.now) }
{
    at(values_of(map), place)
}

fn keys_of<'a, 's, V: TemplateValue>(map: &'a Map<'s, V>) -> &'a [Expr<'s, V>]
    ensures keys { result.now ≡ map.now.keys.items }
    ensures smaller { most_size result.now < map_size map.now }
{
    map.keys.as_slice()
}

fn values_of<'a, 's, V: TemplateValue>(map: &'a Map<'s, V>) -> &'a [Expr<'s, V>]
    ensures values { result.now ≡ map.now.values.items }
    ensures smaller { most_size result.now < map_size map.now }
{
    map.values.as_slice()
}

/// The expression at a place, if there is one.
fn at<'a, 's, V: TemplateValue>(exprs: &'a [Expr<'s, V>], place: usize) -> Option<&'a Expr<'s, V>>
    ensures expr { option_map (λ e. e.now) result ≡ slice_get exprs.now place }
    ensures smaller { IfSome result (λ e. size_of e.now ≤ most_size exprs.now) }
{
    if place < exprs.len() {
        Some(&exprs[place])
    } else {
        None
    }
}
