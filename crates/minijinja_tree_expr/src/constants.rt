//! Expressions whose value is known before a template runs.
ghost use Rattle.std.specs.Prelude.{◌≡◌, ◌<◌, IfErr, IfOk, IfSome, map, zip};
ghost use Rattle.std.specs.Option.{option_map};
ghost use Rattle.minijinja_syntax.specs.Errors.{IsOutOfMemory};
ghost use Rattle.minijinja_tree_expr.specs.Erasure.{bin_op, expr_tree, exprs_of, comparisons_of, args_of};
ghost use Rattle.minijinja_tree_expr.specs.Folding.{fold, fold_chain, fold_keywords, constants, constant_node, constant_keywords};
ghost use Rattle.minijinja_tree_expr.specs.Tree as tree;
ghost use Rattle.minijinja_tree_expr.specs.private.FoldingSteps.{operand_of, fold_node, fold_onto};
ghost use Rattle.minijinja_tree_expr.specs.Sizes.{size_of};

use crate::ast::{BinOp, CallArg, CompareOp, Expr, List, Map, Tuple};
use crate::fold::without_fault;
use minijinja_syntax::error::Error;
use minijinja_value::value::TemplateValue;
use std::alloc::{AllocError, Global};

impl<'s, V: TemplateValue> Expr<'s, V> {
    /// The value of the expression, where it is known: of a constant, of a list, tuple or map of
    /// constants, and of operators and comparisons over operands of known value that do not fault.
    /// A quotient is not known. Refused memory is the only error.
    ///
    /// Goes down first operands in a loop and folds on the way up, so that a row of operators takes
    /// no more stack than one.
    #[cycle(as_const)]
    pub fn as_const(&self, alloc: Global) -> Result<Option<V>, Error<'static>>
        ensures folds { IfOk result
            (λ r. option_map V.contents r ≡ fold V.functions (expr_tree V.contents self.now)) }
        ensures memory { IfErr result IsOutOfMemory }
    {
        let mut nodes = Vec::new(alloc);
        let mut rest = Some(self);
        while let Some(node) = rest {
            nodes.push(node)?;
            rest = first_operand(node);
        }
        let mut constant = None;
        while let Some(node) = nodes.pop() {
            constant = node_constant(alloc, node, constant)?;
        }
        Ok(constant)
    }
}

/// The first operand of an operator or of a chain of comparisons.
fn first_operand<'a, 's, V: TemplateValue>(expr: &'a Expr<'s, V>) -> Option<&'a Expr<'s, V>>
    ensures first { option_map (λ e. expr_tree V.contents e.now) result ≡ operand_of
        (expr_tree V.contents expr.now) }
    ensures smaller { IfSome result (λ e. size_of e.now < size_of expr.now) }
{
    match expr {
        Expr::UnaryOp(operation) => Some(&operation.node().expr),
        Expr::BinOp(operation) => Some(&operation.node().left),
        Expr::Compare(chain) => Some(&chain.node().expr),
        _ => None,
    }
}

/// The value of a node, given the value of its first operand where it has one.
#[cycle(as_const)]
#[tactic(auto, using(crate::proofs::FoldedOutcomes::unary_without_fault), unfolding(crate::specs::Folding::fold, crate::specs::Folding::if_some))]
fn node_constant<V: TemplateValue>(
    alloc: Global,
    node: &Expr<'_, V>,
    first: Option<V>,
) -> Result<Option<V>, Error<'static>>
    ensures folds { IfOk result (λ r. option_map V.contents r ≡ fold_node V.functions
        (expr_tree V.contents node.now) (option_map V.contents first)) }
    ensures memory { IfErr result IsOutOfMemory }
{
    match node {
        Expr::Const(constant) => Ok(Some(constant.node().value.try_clone()?)),
        Expr::UnaryOp(operation) => match first {
            Some(operand) => Ok(without_fault(operation.node().op.fold(alloc, &operand))?),
            None => Ok(None),
        },
        Expr::BinOp(operation) => match first {
            Some(left) => binary_constant(alloc, operation.node(), left),
            None => Ok(None),
        },
        Expr::Compare(chain) => match first {
            Some(left) => comparisons_constant(alloc, left, &chain.node().ops),
            None => Ok(None),
        },
        Expr::List(list) => list.node().as_const(alloc),
        Expr::Tuple(tuple) => tuple.node().as_const(alloc),
        Expr::Map(map) => map.node().as_const(alloc),
        _ => Ok(None),
    }
}

/// The value of a binary operator, given the value of its left operand.
#[cycle(as_const)]
#[tactic(auto, using(crate::proofs::FoldedOutcomes::binary_without_fault), unfolding(crate::specs::Folding::if_some))]
fn binary_constant<V: TemplateValue>(
    alloc: Global,
    operation: &BinOp<'_, V>,
    left: V,
) -> Result<Option<V>, Error<'static>>
    ensures folds { IfOk result (λ r. option_map V.contents r ≡ fold_onto V.functions
        (bin_op operation.now.op) (V.contents left) (expr_tree V.contents operation.now.right)) }
    ensures memory { IfErr result IsOutOfMemory }
{
    match operation.right.as_const(alloc)? {
        Some(right) => Ok(without_fault(operation.op.fold(alloc, left, right))?.flatten()),
        None => Ok(None),
    }
}

/// Whether a chain of comparisons holds, given its first operand. Stops at the first comparison
/// that does not hold.
#[cycle(as_const)]
fn comparisons_constant<V: TemplateValue>(
    alloc: Global,
    first: V,
    comparisons: &[CompareOp<'_, V>],
) -> Result<Option<V>, Error<'static>>
    ensures folds { IfOk result (λ r. option_map V.contents r
        ≡ fold_chain V.functions (V.contents first) (comparisons_of V.contents comparisons.now)) }
    ensures memory { IfErr result IsOutOfMemory }
{
    let mut left = first;
    for comparison in comparisons {
        match comparison.expr.as_const(alloc)? {
            Some(right) => match without_fault(comparison.op.holds(alloc, &left, &right))? {
                Some(true) => left = right,
                Some(false) => return Ok(Some(V::of_bool(false))),
                None => return Ok(None),
            },
            None => return Ok(None),
        }
    }
    Ok(Some(V::of_bool(true)))
}

impl<'s, V: TemplateValue> List<'s, V> {
    /// The list, where its items are all constants. Refused memory is the only error.
    pub fn as_const(&self, alloc: Global) -> Result<Option<V>, Error<'static>>
        ensures folds { IfOk result (λ r. option_map V.contents r ≡ fold V.functions
            (tree.list (exprs_of V.contents self.now.items.items))) }
        ensures memory { IfErr result IsOutOfMemory }
    {
        match constants_of(alloc, &self.items)? {
            Some(values) => Ok(Some(V::list(alloc, values)?)),
            None => Ok(None),
        }
    }
}

impl<'s, V: TemplateValue> Tuple<'s, V> {
    /// The tuple, where its items are all constants. Refused memory is the only error.
    pub fn as_const(&self, alloc: Global) -> Result<Option<V>, Error<'static>>
        ensures folds { IfOk result (λ r. option_map V.contents r ≡ fold V.functions
            (tree.tuple (exprs_of V.contents self.now.items.items))) }
        ensures memory { IfErr result IsOutOfMemory }
    {
        match constants_of(alloc, &self.items)? {
            Some(values) => Ok(Some(V::tuple(alloc, values)?)),
            None => Ok(None),
        }
    }
}

impl<'s, V: TemplateValue> Map<'s, V> {
    /// The map, where its keys and values are all constants. Refused memory is the only error.
    pub fn as_const(&self, alloc: Global) -> Result<Option<V>, Error<'static>>
        ensures folds { IfOk result (λ r. option_map V.contents r ≡ fold V.functions
            (tree.map (exprs_of V.contents self.now.keys.items)
            (exprs_of V.contents self.now.values.items))) }
        ensures memory { IfErr result IsOutOfMemory }
    {
        match constants_of(alloc, &self.keys)? {
            Some(keys) => match constants_of(alloc, &self.values)? {
                Some(values) => {
                    let pairs = pairs_of(alloc, keys, values)?;
                    Ok(Some(V::map(alloc, pairs)?))
                }
                None => Ok(None),
            },
            None => Ok(None),
        }
    }
}

/// The map of the keyword arguments, where there are any, their values are all constants and no
/// `**` is among the arguments. Refused memory is the only error.
pub fn constant_kwargs<V: TemplateValue>(
    alloc: Global,
    args: &[CallArg<'_, V>],
) -> Result<Option<V>, Error<'static>>
    ensures folds { IfOk result (λ r. option_map V.contents r
        ≡ fold_keywords V.functions (constant_keywords V.functions (args_of V.contents args.now))) }
    ensures memory { IfErr result IsOutOfMemory }
{
    let mut pairs = Vec::new(alloc);
    for arg in args {
        match arg {
            CallArg::Pos(_) | CallArg::PosSplat(_) => continue,
            CallArg::Kwarg(name, value) => match constant_of(value)? {
                Some(value) => pairs.push((V::of_str(alloc, name)?, value))?,
                None => return Ok(None),
            },
            CallArg::KwargSplat(_) => return Ok(None),
        }
    }
    if pairs.is_empty() {
        return Ok(None);
    }
    Ok(Some(V::kwargs(alloc, pairs)?))
}

/// Pairs of a key and the value at its place.
fn pairs_of<V: Drop>(alloc: Global, keys: Vec<V>, values: Vec<V>) -> Result<Vec<(V, V)>, AllocError>
    ensures { IfOk result (λ r. r.items ≡ zip keys.items values.items) }
{
    let mut pairs = Vec::new(alloc);
    let mut rest = values.into_iter();
    for key in keys {
        match rest.next() {
            Some(value) => pairs.push((key, value))?,
            None => return Ok(pairs),
        }
    }
    Ok(pairs)
}

/// The values of the expressions, where they are all constants.
fn constants_of<V: TemplateValue>(
    alloc: Global,
    exprs: &[Expr<'_, V>],
) -> Result<Option<Vec<V>>, Error<'static>>
    ensures values { IfOk result (λ r. option_map (λ vs. map V.contents vs.items) r ≡ constants
        (exprs_of V.contents exprs.now)) }
    ensures memory { IfErr result IsOutOfMemory }
{
    let mut values = Vec::new(alloc);
    for expr in exprs {
        match constant_of(expr)? {
            Some(value) => values.push(value)?,
            None => return Ok(None),
        }
    }
    Ok(Some(values))
}

/// The value of the expression, where it is a constant.
fn constant_of<V: TemplateValue>(expr: &Expr<'_, V>) -> Result<Option<V>, Error<'static>>
    ensures value { IfOk result
        (λ r. option_map V.contents r ≡ constant_node (expr_tree V.contents expr.now)) }
    ensures memory { IfErr result IsOutOfMemory }
{
    match expr {
        Expr::Const(constant) => Ok(Some(constant.node().value.try_clone()?)),
        _ => Ok(None),
    }
}
