//! Tests that an expression is well formed, or may be assigned to.
ghost use Rattle.std.specs.Prelude.{◌≡◌, ◌==◌, ◌<◌, ◌&&◌, IfSome, length, map, nat_le, option_map};
ghost use Rattle.minijinja_tree_expr.specs.Erasure.{expr_tree, optional_of, exprs_of, arg_tree, args_of, comparisons_of, assignments_of, names_of};
ghost use Rattle.minijinja_tree_expr.specs.Sizes.{size_of};
ghost use Rattle.minijinja_tree_expr.specs.Tree as tree;
ghost use Rattle.minijinja_tree_expr.specs.WellFormed.{most_arguments, arg_count, expr_count};
ghost use Rattle.minijinja_well_formed.specs.private.ExpressionTests as tests;
ghost use Rattle.minijinja_well_formed.specs.private.FilterParts.{filter_tree, only_filter};

use minijinja_tree_expr::ast::{
    Call, CallArg, CompareOp, Expr, Filter, IfExpr, MOST_ARGUMENTS, Map, Slice,
};
use minijinja_value::value::TemplateValue;

/// Whether defaults are well formed, and no more than the arguments.
pub(crate) fn have_arguments<V: TemplateValue>(
    defaults: &[Expr<'_, V>],
    args: &[Expr<'_, V>],
) -> bool
    ensures { result ≡ (tests.are_all_whole (map (expr_tree V.contents) defaults.now)
        && nat_le (length (map (expr_tree V.contents) defaults.now))
        (length (map (expr_tree V.contents) args.now))) }
{
    are_defaults(defaults) && are_at_most(defaults, args)
}

fn are_defaults<V: TemplateValue>(exprs: &[Expr<'_, V>]) -> bool
    ensures { result ≡ tests.are_all_whole (map (expr_tree V.contents) exprs.now) }
{
    are_whole(exprs)
}

fn are_at_most<V: TemplateValue>(defaults: &[Expr<'_, V>], args: &[Expr<'_, V>]) -> bool
    ensures { result ≡ nat_le (length (map (expr_tree V.contents) defaults.now))
        (length (map (expr_tree V.contents) args.now)) }
{
    defaults.len() <= args.len()
}

fn is_variable<V: TemplateValue>(expr: &Expr<'_, V>) -> bool
    ensures { result ≡ tests.is_variable (expr_tree V.contents expr.now) }
{
    matches!(expr, Expr::Var(_))
}

/// Whether all are variables.
pub(crate) fn are_variables<V: TemplateValue>(exprs: &[Expr<'_, V>]) -> bool
    ensures { result ≡ tests.are_variables (map (expr_tree V.contents) exprs.now) }
{
    for expr in exprs {
        if !is_variable(expr) {
            return false;
        }
    }
    true
}

/// Whether names that are taken from a template, and their aliases, are variables.
pub(crate) fn are_names<V: TemplateValue>(names: &[(Expr<'_, V>, Option<Expr<'_, V>>)]) -> bool
    ensures { result ≡ tests.are_names (names_of V.contents names.now) }
{
    for (name, alias) in names {
        if !(is_variable(name) && is_variable_if_any(alias)) {
            return false;
        }
    }
    true
}

fn is_variable_if_any<V: TemplateValue>(expr: &Option<Expr<'_, V>>) -> bool
    ensures { result ≡ tests.is_variable_if_any (optional_of V.contents expr.now) }
{
    match expr {
        Some(expr) => is_variable(expr),
        None => true,
    }
}

/// Whether what is called and the arguments are well formed, and the arguments are not too many.
pub(crate) fn is_call<V: TemplateValue>(call: &Call<'_, V>) -> bool
    ensures { result ≡ (tests.is_whole (expr_tree V.contents call.now.expr)
        && tests.takes_arguments (args_of V.contents call.now.args.items)) }
{
    is_whole(&call.expr) && are_arguments(&call.args)
}

/// Whether values are assigned to targets, and the values are well formed.
pub(crate) fn are_assignments<V: TemplateValue>(assignments: &[(Expr<'_, V>, Expr<'_, V>)]) -> bool
    ensures { result ≡ tests.are_assignments (assignments_of V.contents assignments.now) }
{
    for (target, value) in assignments {
        if !(is_target(target) && is_whole(value)) {
            return false;
        }
    }
    true
}

/// Whether it may be assigned to.
#[cycle(targets)]
pub(crate) fn is_target<V: TemplateValue>(expr: &Expr<'_, V>) -> bool
    ensures { result ≡ tests.is_target (expr_tree V.contents expr.now) }
{
    match expr {
        Expr::Var(_) => true,
        Expr::GetAttr(attribute) => is_whole(&attribute.node().expr),
        Expr::List(list) => are_targets(&list.node().items),
        _ => false,
    }
}

#[cycle(targets)]
fn are_targets<V: TemplateValue>(exprs: &[Expr<'_, V>]) -> bool
    ensures { result ≡ tests.are_targets (exprs_of V.contents exprs.now) }
{
    for expr in exprs {
        if !is_target(expr) {
            return false;
        }
    }
    true
}

/// Whether it is a chain of filters, or absent.
pub(crate) fn is_chain_if_any<V: TemplateValue>(chain: &Option<Expr<'_, V>>) -> bool
    ensures { result ≡ tests.is_chain_if_any (optional_of V.contents chain.now) }
{
    match chain {
        Some(chain) => is_chain_of_filters(chain),
        None => true,
    }
}

/// Whether it consists of filters, of which the innermost has no operand.
pub(crate) fn is_chain_of_filters<V: TemplateValue>(expr: &Expr<'_, V>) -> bool
    ensures { result ≡ tests.is_chain_of_filters (expr_tree V.contents expr.now) }
{
    let mut rest = Some(expr);
    while let Some(part) = rest {
        let Some(filter) = filter_of(part) else {
            return false;
        };
        if !are_arguments(&filter.args) {
            return false;
        }
        rest = filter.expr.as_ref();
    }
    true
}

/// The expression, if it is a filter.
fn filter_of<'a, 's, V: TemplateValue>(expr: &'a Expr<'s, V>) -> Option<&'a Filter<'s, V>>
    ensures filter { option_map (λ f. filter_tree V.contents f.now) result ≡ only_filter
        (expr_tree V.contents expr.now) }
    ensures smaller { IfSome result
        (λ f. IfSome f.now.expr (λ e. size_of e < size_of expr.now)) }
{
    match expr {
        Expr::Filter(filter) => Some(filter.node()),
        Expr::Var(_) => None,
        Expr::Const(_) => None,
        Expr::Slice(_) => None,
        Expr::UnaryOp(_) => None,
        Expr::BinOp(_) => None,
        Expr::Compare(_) => None,
        Expr::IfExpr(_) => None,
        Expr::Test(_) => None,
        Expr::GetAttr(_) => None,
        Expr::GetItem(_) => None,
        Expr::Call(_) => None,
        Expr::List(_) => None,
        Expr::Tuple(_) => None,
        Expr::Map(_) => None,
    }
}

/// Whether it is well formed. Goes down the long side in a loop, so that a row of operators, calls
/// or if expressions takes no more stack than one of them.
#[cycle(well_formed)]
pub(crate) fn is_whole<V: TemplateValue>(expr: &Expr<'_, V>) -> bool
    ensures { result ≡ tests.is_whole (expr_tree V.contents expr.now) }
{
    let mut rest = Some(expr);
    while let Some(part) = rest {
        if !is_whole_beside(part) {
            return false;
        }
        rest = long_side(part);
    }
    true
}

/// The part that nests without a bound, if the expression has one: what stands on its left, as the
/// true part of an if expression does.
pub(crate) fn long_side<'a, 's, V: TemplateValue>(expr: &'a Expr<'s, V>) -> Option<&'a Expr<'s, V>>
    ensures side { option_map (λ e. expr_tree V.contents e.now) result ≡ tests.long_side
        (expr_tree V.contents expr.now) }
    ensures smaller { IfSome result (λ e. size_of e.now < size_of expr.now) }
{
    match expr {
        Expr::Var(_) => None,
        Expr::Const(_) => None,
        Expr::Slice(slice) => Some(&slice.node().expr),
        Expr::UnaryOp(operation) => Some(&operation.node().expr),
        Expr::BinOp(operation) => Some(&operation.node().left),
        Expr::Compare(chain) => Some(&chain.node().expr),
        Expr::IfExpr(choice) => Some(&choice.node().true_expr),
        Expr::Filter(filter) => filter.node().expr.as_ref(),
        Expr::Test(test) => Some(&test.node().expr),
        Expr::GetAttr(attribute) => Some(&attribute.node().expr),
        Expr::GetItem(item) => Some(&item.node().expr),
        Expr::Call(call) => Some(&call.node().expr),
        Expr::List(_) => None,
        Expr::Tuple(_) => None,
        Expr::Map(_) => None,
    }
}

/// Whether every part except the long side is well formed.
#[cycle(well_formed)]
fn is_whole_beside<V: TemplateValue>(expr: &Expr<'_, V>) -> bool
    ensures { result ≡ tests.is_whole_beside (expr_tree V.contents expr.now) }
{
    match expr {
        Expr::Var(_) => true,
        Expr::Const(_) => true,
        Expr::Slice(slice) => are_bounds(slice.node()),
        Expr::UnaryOp(_) => true,
        Expr::BinOp(operation) => is_whole(&operation.node().right),
        Expr::Compare(chain) => are_compared(&chain.node().ops),
        Expr::IfExpr(choice) => is_choice(choice.node()),
        Expr::Filter(filter) => {
            let filter = filter.node();
            match filter.expr {
                Some(_) => are_arguments(&filter.args),
                None => false,
            }
        }
        Expr::Test(test) => are_arguments(&test.node().args),
        Expr::GetAttr(_) => true,
        Expr::GetItem(item) => is_whole(&item.node().subscript_expr),
        Expr::Call(call) => are_arguments(&call.node().args),
        Expr::List(list) => are_whole(&list.node().items),
        Expr::Tuple(tuple) => are_whole(&tuple.node().items),
        Expr::Map(map) => is_map(map.node()),
    }
}

#[cycle(well_formed)]
fn are_bounds<V: TemplateValue>(slice: &Slice<'_, V>) -> bool
    ensures { result ≡ (tests.is_whole_if_any (optional_of V.contents slice.now.start)
        && (tests.is_whole_if_any (optional_of V.contents slice.now.stop)
        && tests.is_whole_if_any (optional_of V.contents slice.now.step))) }
{
    is_whole_if_any(&slice.start) && is_whole_if_any(&slice.stop) && is_whole_if_any(&slice.step)
}

#[cycle(well_formed)]
fn is_choice<V: TemplateValue>(choice: &IfExpr<'_, V>) -> bool
    ensures { result ≡ (tests.is_whole (expr_tree V.contents choice.now.test_expr)
        && tests.is_whole_if_any (optional_of V.contents choice.now.false_expr)) }
{
    is_whole(&choice.test_expr) && is_whole_if_any(&choice.false_expr)
}

#[cycle(well_formed)]
fn is_map<V: TemplateValue>(map: &Map<'_, V>) -> bool
    ensures { result ≡ tests.is_whole (tree.map (exprs_of V.contents map.now.keys.items)
        (exprs_of V.contents map.now.values.items)) }
{
    are_as_many(&map.keys, &map.values) && are_whole(&map.keys) && are_whole(&map.values)
}

/// Whether it is well formed, or absent.
#[cycle(well_formed)]
pub(crate) fn is_whole_if_any<V: TemplateValue>(expr: &Option<Expr<'_, V>>) -> bool
    ensures { result ≡ tests.is_whole_if_any (optional_of V.contents expr.now) }
{
    match expr {
        Some(expr) => is_whole(expr),
        None => true,
    }
}

#[cycle(well_formed)]
fn are_whole<V: TemplateValue>(exprs: &[Expr<'_, V>]) -> bool
    ensures { result ≡ tests.are_whole (exprs_of V.contents exprs.now) }
{
    for expr in exprs {
        if !is_whole(expr) {
            return false;
        }
    }
    true
}

/// Whether there are two comparisons or more, and their operands are well formed.
#[cycle(well_formed)]
fn are_compared<V: TemplateValue>(comparisons: &[CompareOp<'_, V>]) -> bool
    ensures { result ≡ (tests.is_chain (comparisons_of V.contents comparisons.now)
        && tests.are_compared (comparisons_of V.contents comparisons.now)) }
{
    if !has_two(comparisons) {
        return false;
    }
    for comparison in comparisons {
        if !is_whole(&comparison.expr) {
            return false;
        }
    }
    true
}

/// Whether there are not too many arguments, and they are well formed.
#[cycle(well_formed)]
fn are_arguments<V: TemplateValue>(args: &[CallArg<'_, V>]) -> bool
    ensures { result ≡ tests.takes_arguments (args_of V.contents args.now) }
{
    if !are_few(args) {
        return false;
    }
    for arg in args {
        if !is_argument(arg) {
            return false;
        }
    }
    true
}

#[cycle(well_formed)]
fn is_argument<V: TemplateValue>(arg: &CallArg<'_, V>) -> bool
    ensures { result ≡ tests.are_arguments (arg_tree V.contents arg.now tree.no_args) }
{
    match arg {
        CallArg::Pos(expr) => is_whole(expr),
        CallArg::Kwarg(_, expr) => is_whole(expr),
        CallArg::PosSplat(expr) => is_whole(expr),
        CallArg::KwargSplat(expr) => is_whole(expr),
    }
}

/// Whether there are two comparisons or more.
fn has_two<V: TemplateValue>(comparisons: &[CompareOp<'_, V>]) -> bool
    ensures { result ≡ tests.is_chain (comparisons_of V.contents comparisons.now) }
{
    comparisons.len() >= 2
}

/// Whether there are not too many arguments.
fn are_few<V: TemplateValue>(args: &[CallArg<'_, V>]) -> bool
    ensures { result ≡ nat_le (arg_count (args_of V.contents args.now)) most_arguments }
{
    args.len() <= MOST_ARGUMENTS
}

/// Whether there are as many keys as values.
fn are_as_many<V: TemplateValue>(keys: &[Expr<'_, V>], values: &[Expr<'_, V>]) -> bool
    ensures { result ≡
        (expr_count (exprs_of V.contents keys.now) == expr_count (exprs_of V.contents values.now)) }
{
    keys.len() == values.len()
}
