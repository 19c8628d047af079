//! The rules of expressions, one function each, generic over the tokens and the tree. They take the
//! parser of what nests as a parameter, so that each is proved by itself.
ghost use Rattle.minijinja_grammar.specs.internal.Forms.{got};
ghost use Rattle.minijinja_grammar.specs.internal.ExprForms.{below, expanded, expr_at};
ghost use Rattle.minijinja_parser_expr.specs.private.Made.{node_tree};
ghost use Rattle.minijinja_parser_expr.specs.private.Nests.{Nests, Parses, nested_in};
ghost use Rattle.minijinja_parser_tokens.specs.internal.Reads.{Reads};

use crate::builder::{ExprBuilder, Node};
use minijinja_parser_tokens::refusal::Refusal;
use minijinja_parser_tokens::tokens::Tokens;
use minijinja_syntax::tokens::Span;
use std::marker::PhantomData;

mod arguments;
mod comparing;
mod if_exprs;
pub mod in_statements;
mod literals;
pub mod nested;
mod operands;
mod operators;
mod postfixes;
mod suffixes;

/// What nests in an expression.
#[derive(Clone, Copy)]
pub enum Nest {
    /// An expression, in brackets or after an `else`.
    Expr,
    /// The operand of a `not`.
    Opposite,
    /// The right operand of a `**`.
    Power,
    /// The operand of a `-`.
    Negated,
}

/// The rules, with the parser of what nests, in which parts nest `depth` deep at most.
#[derive(Clone, Copy)]
pub struct ExprRules<N, F> {
    /// Makes the nodes.
    pub builder: N,
    /// How deep parts may nest.
    pub depth: usize,
    /// The parser of what nests, to a depth.
    pub parser: F,
}

impl<
    N: ExprBuilder,
    F: Copy
        + for<'x> Fn(
            N,
            &'x mut N::Input,
            PhantomData<N::Expr>,
            Nest,
            usize,
        ) -> Result<N::Expr, Refusal>,
> ExprRules<N, F> {
    /// Reads what nests there.
    fn inner(&self, tokens: &mut N::Input, nest: Nest) -> Result<N::Expr, Refusal>
        requires { Nests N.Input.place N.tree N.functions self.now.depth F.pre F.post
            self.now.parser }
        ensures { Parses N.Input.place N.tree (nested_in nest (below N.functions self.now.depth))
            tokens.old result tokens.new }
    {
        (self.parser)(self.builder, tokens, PhantomData, nest, self.depth)
    }

    /// Reads a nested expression.
    fn nested(&self, tokens: &mut N::Input) -> Result<N::Expr, Refusal>
        requires { Nests N.Input.place N.tree N.functions self.now.depth F.pre F.post
            self.now.parser }
        ensures { Parses N.Input.place N.tree (expr_at N.functions self.now.depth) tokens.old result
            tokens.new }
    {
        self.inner(tokens, Nest::Expr)
    }

    /// Makes a node, from there to the end of the token taken last.
    #[inline(always)]
    fn spanned(
        &self,
        tokens: &N::Input,
        from: Span,
        node: Node<N::Name, N::Expr, N::Arg, N::Comparison>,
    ) -> Result<N::Expr, Refusal>
        ensures { Reads N.tree (got (node_tree N.text N.tree N.arg N.compared node
            (expanded from (N.Input.place tokens.now).last)) (N.Input.place tokens.now)) result
            (N.Input.place tokens.now) }
    {
        let span = tokens.expand_span(from);
        Ok(self.builder.node(node, span)?)
    }
}
