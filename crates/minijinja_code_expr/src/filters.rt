//! Instructions of chains of filters whose operand is on top.
ghost use Rattle.std.specs.Prelude.{◌≡◌, ◌<◌, ◌≤◌, OnOk};
ghost use Rattle.minijinja_tree.specs.Erasure.{args_of, expr_tree};
ghost use Rattle.minijinja_tree.specs.WellFormed.{AreArguments, IsChainOfFilters, arg_count, most_arguments};
ghost use Rattle.minijinja_tree_expr.specs.declared.ast.Expr.{size-Expr};
ghost use Rattle.minijinja_tree_expr.specs.declared.ast.Filter.{size-Filter};
ghost use Rattle.minijinja_syntax.specs.declared.tokens.Span.{Span};
ghost use Rattle.minijinja_tree.specs.Nodes.{node_of, span_of};
ghost use Rattle.minijinja_tree.specs.SpannedErasure.{expr_node};
ghost use Rattle.minijinja_tree.specs.SpannedErasure as node;
ghost use Rattle.minijinja_semantics.specs.Layout as layout;
ghost use Rattle.minijinja_semantics.specs.Marks as marks;
ghost use Rattle.minijinja_semantics.specs.Pieces.{◌▸◌};
ghost use Rattle.minijinja_code_expr.specs.private.Filtering.{filter_node, filter_shown};
ghost use Rattle.minijinja_code_expr.specs.internal.NodeMarks.{given_marks};
ghost use Rattle.minijinja_emitter.specs.internal.Margins.{closed, opened};
ghost use Rattle.minijinja_emitter.specs.internal.AtEmitter.{made_of, margin_of};
ghost use Rattle.minijinja_emitter.specs.internal.Making.{Adds};
ghost use Rattle.minijinja_code_expr.specs.internal.Parts.{given};

use crate::arguments::arguments;
use crate::expr::apply_filter;
use minijinja_emitter::emit::Emitter;
use minijinja_emitter::memory::OutOfMemory;
use minijinja_syntax::tokens::Span;
use minijinja_tree::ast::{Expr, Filter, Spanned};
use minijinja_value::value::TemplateValue;

/// Adds the filters of a chain, the innermost first. A loop goes down the chain, so that a long one
/// takes no more stack than a short one.
pub fn filters<'s, V: TemplateValue>(
    code: &mut Emitter<'s, V>,
    chain: &Expr<'s, V>,
) -> Result<(), OutOfMemory>
    requires { IsChainOfFilters (expr_tree V.contents chain.now) }
    ensures added { OnOk result (Adds (made_of V.contents code.old) (made_of V.contents code.new)
        (layout.expr V.functions (expr_tree V.contents chain.now))) }
    ensures marked { OnOk result (margin_of code.new ≡ marks.expr V.functions
        (expr_node V.contents chain.now) (margin_of code.old)) }
{
    let mut waiting = Vec::new(code.alloc());
    let mut last = begin_filter(code, chain);
    while let Some(operand) = &last.filter.expr {
        waiting.push(last)?;
        last = begin_filter(code, operand);
    }
    apply(code, last)?;
    while let Some(next) = waiting.pop() {
        apply(code, next)?;
    }
    Ok(())
}

/// A filter that waits for its operand, and the span that was open before it.
#[derive(Clone, Copy)]
struct WaitingFilter<'a, 's, V: TemplateValue> {
    filter: &'a Filter<'s, V>,
    outer: Span,
}

/// Begins the outermost filter of a chain.
fn begin_filter<'a, 's, V: TemplateValue>(
    code: &mut Emitter<'s, V>,
    chain: &'a Expr<'s, V>,
) -> WaitingFilter<'a, 's, V>
    requires { IsChainOfFilters (expr_tree V.contents chain.now) }
    ensures made { made_of V.contents code.new ≡ made_of V.contents code.old }
    ensures filter { filter_shown V.contents result.filter.now ≡ expr_tree V.contents chain.now }
    ensures smaller { size-Filter _ _ result.filter.now < size-Expr _ _ chain.now }
    ensures outer { result.outer ≡ (margin_of code.old).span }
    ensures marked { (span : Span) × (margin_of code.new ≡ opened span (margin_of code.old)) ×
        (filter_node V.contents result.filter.now span ≡ expr_node V.contents chain.now) }
{
    let chain = filter_of(chain);
    let outer = code.open(chain.span());
    WaitingFilter {
        filter: chain.node(),
        outer,
    }
}

/// Adds the arguments of a filter after its operand, and the filter.
fn apply<'s, V: TemplateValue>(
    code: &mut Emitter<'s, V>,
    waiting: WaitingFilter<'_, 's, V>,
) -> Result<(), OutOfMemory>
    requires whole { AreArguments (args_of V.contents waiting.filter.now.args.items) }
    requires few { arg_count (args_of V.contents waiting.filter.now.args.items) ≤ most_arguments }
    ensures added { OnOk result (Adds (made_of V.contents code.old) (made_of V.contents code.new)
        (given V.functions (args_of V.contents waiting.entry.filter.now.args.items) 1
        ▸ layout.apply_filter waiting.entry.filter.now.name.now
        (layout.argument_count (args_of V.contents waiting.entry.filter.now.args.items) 1))) }
    ensures marked { OnOk result (margin_of code.new ≡ closed waiting.entry.outer (marks.here 1
        (given_marks V.functions (node.args_of V.contents waiting.entry.filter.now.args.items) 1
        (margin_of code.old)))) }
{
    let filter = waiting.filter;
    let count = arguments(code, &filter.args, 1)?;
    apply_filter(code, filter.name, count)?;
    code.close(waiting.outer);
    Ok(())
}

/// The outermost filter of a chain.
fn filter_of<'a, 's, V: TemplateValue>(chain: &'a Expr<'s, V>) -> &'a Spanned<Filter<'s, V>>
    requires { IsChainOfFilters (expr_tree V.contents chain.now) }
    ensures filter { filter_shown V.contents (node_of result.now) ≡ expr_tree V.contents chain.now }
    ensures smaller { size-Filter _ _ (node_of result.now) < size-Expr _ _ chain.now }
    ensures node { filter_node V.contents (node_of result.now) (span_of result.now)
        ≡ expr_node V.contents chain.now }
{
    match chain {
        Expr::Filter(filter) => filter,
        Expr::Var(_) => unreachable!(),
        Expr::Const(_) => unreachable!(),
        Expr::Slice(_) => unreachable!(),
        Expr::UnaryOp(_) => unreachable!(),
        Expr::BinOp(_) => unreachable!(),
        Expr::Compare(_) => unreachable!(),
        Expr::IfExpr(_) => unreachable!(),
        Expr::Test(_) => unreachable!(),
        Expr::GetAttr(_) => unreachable!(),
        Expr::GetItem(_) => unreachable!(),
        Expr::Call(_) => unreachable!(),
        Expr::List(_) => unreachable!(),
        Expr::Tuple(_) => unreachable!(),
        Expr::Map(_) => unreachable!(),
    }
}
