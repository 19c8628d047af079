//! Postfixes: attributes, items, slices and calls, after a primary.
ghost use Rattle.std.specs.Option.{option_map};
ghost use Rattle.minijinja_grammar.specs.internal.Forms.{reads};
ghost use Rattle.minijinja_grammar.specs.internal.ExprForms as form;
ghost use Rattle.minijinja_grammar.specs.internal.ExprForms.{below, expr_at};
ghost use Rattle.minijinja_parser_expr.specs.private.Nests.{Nests, Parses};
ghost use Rattle.minijinja_parser_expr.specs.private.Turns.{postfix_at};
ghost use Rattle.minijinja_parser_tokens.specs.internal.Reads.{Reads};

use crate::builder::{ExprBuilder, Node};
use crate::rules::{ExprRules, Nest};
use minijinja_parser_tokens::marks::{Mark, Part};
use minijinja_parser_tokens::refusal::{Refusal, Wanted};
use minijinja_parser_tokens::tokens::Tokens;
use minijinja_syntax::error::Expected;
use minijinja_syntax::tokens::Span;
use std::marker::PhantomData;

impl<
    N: ExprBuilder,
    F: Copy
        + for<'x> Fn(
            N,
            &'x mut N::Input,
            PhantomData<N::Expr>,
            Nest,
            usize,
        ) -> Result<N::Expr, Refusal>,
> ExprRules<N, F> {
    /// Reads a primary and its postfixes.
    #[tactic(auto, using(crate::proofs::Operands::postfixed_is, crate::proofs::Operands::postfixed_more, crate::proofs::Operands::postfixed_done))]
    pub(crate) fn postfixed(&self, tokens: &mut N::Input) -> Result<N::Expr, Refusal>
        requires { Nests N.Input.place N.tree N.functions self.now.depth F.pre F.post
            self.now.parser }
        ensures { Parses N.Input.place N.tree (form.postfixed N.functions (below N.functions
            self.now.depth)) tokens.old result tokens.new }
    {
        let mut from = tokens.current_span();
        let mut expr = self.primary(tokens)?;
        while tokens.begins(Part::Postfix) {
            let begin = tokens.current_span();
            expr = self.postfix(tokens, expr, from)?;
            from = begin;
        }
        Ok(expr)
    }

    /// Reads an attribute, an item, a slice or a call.
    fn postfix(&self, tokens: &mut N::Input, expr: N::Expr, from: Span) -> Result<N::Expr, Refusal>
        requires { Nests N.Input.place N.tree N.functions self.now.depth F.pre F.post
            self.now.parser }
        ensures { Reads N.tree (postfix_at N.functions self.now.depth (N.tree expr) from
            (N.Input.place tokens.old)) result (N.Input.place tokens.new) }
    {
        let is_attribute = tokens.at(Mark::Dot);
        let is_subscript = tokens.at(Mark::BracketOpen);
        tokens.skip(Wanted::Part(Expected::Expression))?;
        if is_attribute {
            return self.builder.member(tokens, expr, from);
        }
        if is_subscript {
            return self.subscript(tokens, expr, from);
        }
        let args = self.args(tokens)?;
        self.spanned(tokens, from, Node::Call(expr, args))
    }

    /// Reads an item or a slice, after its bracket.
    #[tactic(auto, using(crate::proofs::Following::subscript_is))]
    #[inline(never)]
    fn subscript(
        &self,
        tokens: &mut N::Input,
        expr: N::Expr,
        from: Span,
    ) -> Result<N::Expr, Refusal>
        requires { Nests N.Input.place N.tree N.functions self.now.depth F.pre F.post
            self.now.parser }
        ensures { Parses N.Input.place N.tree (form.subscript (expr_at N.functions self.now.depth)
            (N.tree expr) from) tokens.old result tokens.new }
    {
        if tokens.eat(Mark::Colon)? {
            return self.range(tokens, expr, from, None);
        }
        let index = self.nested(tokens)?;
        self.rest_of_subscript(tokens, expr, from, index)
    }

    /// Reads the rest of an item or a slice, after its first expression.
    #[tactic(auto, using(crate::proofs::Following::rest_of_subscript_is))]
    fn rest_of_subscript(
        &self,
        tokens: &mut N::Input,
        expr: N::Expr,
        from: Span,
        index: N::Expr,
    ) -> Result<N::Expr, Refusal>
        requires { Nests N.Input.place N.tree N.functions self.now.depth F.pre F.post
            self.now.parser }
        ensures { Parses N.Input.place N.tree (form.rest_of_subscript (expr_at N.functions
            self.now.depth) (N.tree expr) from (N.tree index)) tokens.old result tokens.new }
    {
        if tokens.eat(Mark::Colon)? {
            return self.range(tokens, expr, from, Some(index));
        }
        tokens.expect(Mark::BracketClose)?;
        self.spanned(tokens, from, Node::Item(expr, index))
    }

    /// Reads the rest of a slice, after its first `:`.
    #[tactic(auto, using(crate::proofs::Following::range_is))]
    fn range(
        &self,
        tokens: &mut N::Input,
        expr: N::Expr,
        from: Span,
        start: Option<N::Expr>,
    ) -> Result<N::Expr, Refusal>
        requires { Nests N.Input.place N.tree N.functions self.now.depth F.pre F.post
            self.now.parser }
        ensures { Parses N.Input.place N.tree (form.range (expr_at N.functions self.now.depth)
            (N.tree expr) from (option_map N.tree start)) tokens.old result tokens.new }
    {
        let stop = self.maybe_expr(tokens)?;
        let step = self.step(tokens)?;
        tokens.expect(Mark::BracketClose)?;
        self.spanned(tokens, from, Node::Slice(expr, start, stop, step))
    }

    /// Reads the step of a slice, if there is one.
    #[tactic(auto, using(crate::proofs::Following::step_is))]
    fn step(&self, tokens: &mut N::Input) -> Result<Option<N::Expr>, Refusal>
        requires { Nests N.Input.place N.tree N.functions self.now.depth F.pre F.post
            self.now.parser }
        ensures { Parses N.Input.place (option_map N.tree) (form.step (expr_at N.functions
            self.now.depth)) tokens.old result tokens.new }
    {
        if !tokens.eat(Mark::Colon)? {
            return Ok(None);
        }
        self.maybe_expr(tokens)
    }

    /// Reads an expression, if one begins.
    #[tactic(auto, unfolding(minijinja_grammar::specs::internal::Forms::reads))]
    fn maybe_expr(&self, tokens: &mut N::Input) -> Result<Option<N::Expr>, Refusal>
        requires { Nests N.Input.place N.tree N.functions self.now.depth F.pre F.post
            self.now.parser }
        ensures { Parses N.Input.place (option_map N.tree) (form.maybe_expr (expr_at N.functions
            self.now.depth)) tokens.old result tokens.new }
    {
        if !tokens.begins(Part::Expr) {
            return Ok(None);
        }
        Ok(Some(self.nested(tokens)?))
    }
}
