//! Operands: primaries with their postfixes, or a `-` with its operand; and operators of one side.
ghost use Rattle.minijinja_tree.specs.Erasure.{unary_op};
ghost use Rattle.minijinja_grammar.specs.internal.ExprForms as form;
ghost use Rattle.minijinja_grammar.specs.internal.ExprForms.{below};
ghost use Rattle.minijinja_parser_tokens.specs.internal.Marks.{mark_tok};
ghost use Rattle.minijinja_parser_expr.specs.private.Nests.{Nests, Parses, nested_in};

use crate::builder::{ExprBuilder, Node};
use crate::rules::{ExprRules, Nest};
use minijinja_parser_tokens::marks::Mark;
use minijinja_parser_tokens::refusal::Refusal;
use minijinja_parser_tokens::tokens::Tokens;
use minijinja_tree::ast::UnaryOpKind;
use std::marker::PhantomData;

impl<
    N: ExprBuilder,
    F: Copy
        + for<'x> Fn(
            N,
            &'x mut N::Input,
            PhantomData<N::Expr>,
            Nest,
            usize,
        ) -> Result<N::Expr, Refusal>,
> ExprRules<N, F> {
    /// Reads a primary with its postfixes, or a `-` with its operand.
    #[tactic(auto, using(crate::proofs::Operands::operand_is))]
    #[inline(always)]
    pub(crate) fn operand(&self, tokens: &mut N::Input) -> Result<N::Expr, Refusal>
        requires { Nests N.Input.place N.tree N.functions self.now.depth F.pre F.post
            self.now.parser }
        ensures { Parses N.Input.place N.tree (form.operand N.functions (below N.functions
            self.now.depth)) tokens.old result tokens.new }
    {
        if tokens.at(Mark::Minus) {
            return self.prefixed(tokens, Mark::Minus, UnaryOpKind::Neg, Nest::Negated);
        }
        self.postfixed(tokens)
    }

    /// Reads an operator of one side, which is that token, and its operand, which nests.
    #[tactic(auto, using(crate::proofs::Operands::prefixed_is))]
    pub(crate) fn prefixed(
        &self,
        tokens: &mut N::Input,
        mark: Mark,
        op: UnaryOpKind,
        operand: Nest,
    ) -> Result<N::Expr, Refusal>
        requires { Nests N.Input.place N.tree N.functions self.now.depth F.pre F.post
            self.now.parser }
        ensures { Parses N.Input.place N.tree (form.prefixed (mark_tok mark) (unary_op op)
            (nested_in operand (below N.functions self.now.depth))) tokens.old result tokens.new }
    {
        let from = tokens.expect(mark)?;
        let expr = self.inner(tokens, operand)?;
        self.spanned(tokens, from, Node::UnaryOp(op, expr))
    }
}
