//! What nests in an expression, to a depth.
ghost use Rattle.minijinja_grammar.specs.internal.ExprForms.{below};
ghost use Rattle.minijinja_parser_expr.specs.private.Nests.{Parses, nested_in};

use crate::builder::ExprBuilder;
use crate::rules::{ExprRules, Nest};
use minijinja_parser_tokens::operators::Level;
use minijinja_parser_tokens::refusal::{Refusal, Wanted};
use minijinja_parser_tokens::tokens::Tokens;
use std::marker::PhantomData;

/// Reads what nests there, `depth` deep at most. It takes the type of its result as an argument, so
/// that the rules may take this function as their parser of what nests.
pub fn nested<N: ExprBuilder>(
    builder: N,
    tokens: &mut N::Input,
    made: PhantomData<N::Expr>,
    nest: Nest,
    depth: usize,
) -> Result<N::Expr, Refusal>
    ensures { Parses N.Input.place N.tree (nested_in nest (below N.functions depth)) tokens.old
        result tokens.new }
{
    if depth == 0 {
        return Err(tokens.misfit(Wanted::Flatter));
    }
    let rules = ExprRules {
        builder,
        depth: depth - 1,
        parser: nested::<N>,
    };
    match nest {
        Nest::Expr => rules.cond(tokens),
        Nest::Opposite => rules.level(tokens, Level::Not),
        Nest::Power => rules.level(tokens, Level::Operand),
        Nest::Negated => rules.operand(tokens),
    }
}
