//! Comparisons of two operands.
ghost use Rattle.std.specs.Prelude.{◌≡◌, IfOk};
ghost use Rattle.minijinja_tree.specs.Erasure.{bin_op, compare_op};
ghost use Rattle.minijinja_grammar.specs.internal.ExprForms.{compare_two};
ghost use Rattle.minijinja_parser_expr.specs.private.Made.{operator_of};

use crate::builder::{ExprBuilder, Node};
use minijinja_syntax::tokens::Span;
use minijinja_tree::ast::{BinOpKind, CompareOpKind, UnaryOpKind};
use std::alloc::AllocError;

/// The binary operator of a comparison, or of the comparison that it negates.
fn compared(op: CompareOpKind) -> BinOpKind
    ensures { bin_op result ≡ operator_of (compare_op op) }
{
    match op {
        CompareOpKind::Eq => BinOpKind::Eq,
        CompareOpKind::Ne => BinOpKind::Ne,
        CompareOpKind::Lt => BinOpKind::Lt,
        CompareOpKind::Lte => BinOpKind::Lte,
        CompareOpKind::Gt => BinOpKind::Gt,
        CompareOpKind::Gte => BinOpKind::Gte,
        CompareOpKind::In | CompareOpKind::NotIn => BinOpKind::In,
    }
}

/// A comparison of two operands.
pub fn comparison<N: ExprBuilder>(
    builder: &N,
    op: CompareOpKind,
    left: N::Expr,
    right: N::Expr,
    span: Span,
) -> Result<N::Expr, AllocError>
    ensures tree { IfOk result (λ e. N.tree e ≡ compare_two span (compare_op op)
        (N.tree left) (N.tree right)) }
{
    let node = builder.node(Node::BinOp(compared(op), left, right), span)?;
    if !matches!(op, CompareOpKind::NotIn) {
        return Ok(node);
    }
    builder.node(Node::UnaryOp(UnaryOpKind::Not, node), span)
}
