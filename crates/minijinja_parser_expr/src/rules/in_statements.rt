//! Expressions in statements: with a tuple, without an `if` part, and chains of filters.
ghost use Rattle.std.specs.Option.{option_map};
ghost use Rattle.minijinja_grammar.specs.internal.ExprForms.{expr_at};
ghost use Rattle.minijinja_grammar.specs.internal.StmtForms as form;
ghost use Rattle.minijinja_parser_expr.specs.private.Nests.{Nests, Parses};
ghost use Rattle.minijinja_parser_tokens.specs.internal.Forms.{plain_of};

use crate::builder::{ExprBuilder, Node};
use crate::rules::nested::nested;
use crate::rules::{ExprRules, Nest};
use minijinja_parser_tokens::forms::ExprForm;
use minijinja_parser_tokens::marks::Mark;
use minijinja_parser_tokens::operators::Level;
use minijinja_parser_tokens::refusal::Refusal;
use minijinja_parser_tokens::tokens::Tokens;
use minijinja_syntax::tokens::Span;
use std::marker::PhantomData;

/// Reads an expression of the form, in which parts nest `depth` deep at most.
/// Where a call or an expression to store to is wanted, it reads any expression.
pub fn expression<N: ExprBuilder>(
    builder: N,
    tokens: &mut N::Input,
    form: ExprForm,
    depth: usize,
) -> Result<N::Expr, Refusal>
    ensures { Parses N.Input.place N.tree (plain_of N.functions form depth) tokens.old result
        tokens.new }
{
    match form {
        ExprForm::Full | ExprForm::Call | ExprForm::Storable => {
            nested(builder, tokens, PhantomData, Nest::Expr, depth)
        }
        ExprForm::Or => or(builder, tokens, depth),
        ExprForm::Value => value(builder, tokens, depth),
        ExprForm::Chain => chain(builder, tokens, depth),
    }
}

/// Reads an expression without an `if` part at its end, in which parts nest `depth` deep at most.
#[tactic(auto, using(crate::proofs::Ifs::or_is))]
fn or<N: ExprBuilder>(builder: N, tokens: &mut N::Input, depth: usize) -> Result<N::Expr, Refusal>
    ensures { Parses N.Input.place N.tree (form.or_at N.functions depth) tokens.old result
        tokens.new }
{
    let rules = ExprRules {
        builder,
        depth,
        parser: nested::<N>,
    };
    rules.level(tokens, Level::Or)
}

/// Reads an expression, or a tuple where a comma follows it, in which parts nest `depth` deep at
/// most.
#[tactic(auto, using(minijinja_parser_tokens::proofs::Turned::behind_is), unfolding(minijinja_grammar::specs::internal::Forms::reads, minijinja_grammar::specs::internal::StmtForms::value))]
fn value<N: ExprBuilder>(
    builder: N,
    tokens: &mut N::Input,
    depth: usize,
) -> Result<N::Expr, Refusal>
    ensures { Parses N.Input.place N.tree (form.value (expr_at N.functions depth)) tokens.old result
        tokens.new }
{
    let first = nested(builder, tokens, PhantomData, Nest::Expr, depth)?;
    if !tokens.eat(Mark::Comma)? {
        return Ok(first);
    }
    let from = tokens.current_span();
    let rules = ExprRules {
        builder,
        depth,
        parser: nested::<N>,
    };
    let mut items = Vec::new(builder.alloc());
    items.push(first)?;
    let items = rules.exprs(tokens, items)?;
    let span = tokens.expand_span(from);
    Ok(builder.node(Node::Tuple(items), span)?)
}

/// Reads a chain of filters, the innermost of which has no operand, in which parts nest `depth`
/// deep at most.
#[tactic(auto, using(crate::proofs::FilterChains::chain_is, crate::proofs::FilterChains::links_is))]
fn chain<N: ExprBuilder>(
    builder: N,
    tokens: &mut N::Input,
    depth: usize,
) -> Result<N::Expr, Refusal>
    ensures { Parses N.Input.place N.tree (form.chain (expr_at N.functions depth)) tokens.old result
        tokens.new }
{
    let rules = ExprRules {
        builder,
        depth,
        parser: nested::<N>,
    };
    let mut chain = rules.link(tokens, None)?;
    while tokens.eat(Mark::Pipe)? {
        chain = rules.link(tokens, Some(chain))?;
    }
    Ok(chain)
}

impl<
    N: ExprBuilder,
    F: Copy
        + for<'x> Fn(
            N,
            &'x mut N::Input,
            PhantomData<N::Expr>,
            Nest,
            usize,
        ) -> Result<N::Expr, Refusal>,
> ExprRules<N, F> {
    /// Reads a filter of a chain, whose operand is the filter before it.
    #[tactic(auto, unfolding(minijinja_grammar::specs::internal::Forms::reads, minijinja_grammar::specs::internal::StmtForms::chained))]
    fn link(&self, tokens: &mut N::Input, operand: Option<N::Expr>) -> Result<N::Expr, Refusal>
        requires { Nests N.Input.place N.tree N.functions self.now.depth F.pre F.post
            self.now.parser }
        ensures { Parses N.Input.place N.tree (form.chained (expr_at N.functions self.now.depth)
            (option_map N.tree operand)) tokens.old result tokens.new }
    {
        let from = tokens.current_span();
        let name = self.builder.name(tokens)?;
        let args = self.maybe_args(tokens)?;
        let span = tokens.expand_span(from);
        Ok(self.builder.node(Node::Filter(name, operand, args), span)?)
    }
}
