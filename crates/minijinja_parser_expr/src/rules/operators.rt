//! Binary operators: by precedence climbing where they group to the left, and `**`.
ghost use Rattle.std.specs.Prelude.{◌≡◌, ◌∷◌, [], map, true, Some};
ghost use Rattle.minijinja_grammar.specs.internal.ExprForms as form;
ghost use Rattle.minijinja_grammar.specs.internal.ExprForms.{below, of_kind};
ghost use Rattle.minijinja_parser_expr.specs.private.Levels.{first_at, level_at, operation_at};
ghost use Rattle.minijinja_parser_expr.specs.private.Nests.{Nests, Parses};
ghost use Rattle.minijinja_parser_tokens.specs.internal.Reads.{Reads};
ghost use Rattle.minijinja_grammar.specs.internal.Climbing.{comparisons};
ghost use Rattle.minijinja_grammar.specs.Ahead.{comes};
ghost use Rattle.minijinja_grammar.specs.internal.Forms.{many};
ghost use Rattle.minijinja_grammar.specs.Words.{begins_comparison};
ghost use Rattle.minijinja_parser_tokens.specs.internal.Levels.{comparison_at, next_operator};
ghost use Rattle.minijinja_parser_tokens.specs.declared.operators.Level.TheVariants as level;
ghost use Rattle.minijinja_tree.specs.Erasure.{compare_op};

use crate::builder::{ExprBuilder, Node};
use crate::rules::comparing::comparison;
use crate::rules::{ExprRules, Nest};
use minijinja_parser_tokens::marks::{Mark, Part};
use minijinja_parser_tokens::operators::{Level, Operator};
use minijinja_parser_tokens::refusal::{Refusal, Wanted};
use minijinja_parser_tokens::tokens::Tokens;
use minijinja_syntax::error::Expected;
use minijinja_syntax::tokens::Span;
use minijinja_tree::ast::{BinOpKind, CompareOpKind, UnaryOpKind};
use std::marker::PhantomData;

impl<
    N: ExprBuilder,
    F: Copy
        + for<'x> Fn(
            N,
            &'x mut N::Input,
            PhantomData<N::Expr>,
            Nest,
            usize,
        ) -> Result<N::Expr, Refusal>,
> ExprRules<N, F> {
    /// Reads an expression of the level: an operand, and the operators of the level and of tighter
    /// ones that follow it.
    #[cycle(level)]
    pub(crate) fn level(&self, tokens: &mut N::Input, level: Level) -> Result<N::Expr, Refusal>
        requires nests { Nests N.Input.place N.tree N.functions self.now.depth F.pre F.post
            self.now.parser }
        ensures { Parses N.Input.place N.tree (level_at N.functions self.now.depth level) tokens.old
            result tokens.new }
    {
        let from = tokens.current_span();
        let before = tokens.last_span();
        let mut expr = self.first(tokens, level)?;
        while let Some(operator) = tokens.operator(level) {
            expr = self.operation(tokens, operator, from, before, expr)?;
        }
        Ok(expr)
    }

    /// Reads the first operand of a level: a negation where the level has `not` and one comes.
    #[tactic(auto, using(crate::proofs::Climbed::first_is))]
    fn first(&self, tokens: &mut N::Input, level: Level) -> Result<N::Expr, Refusal>
        requires { Nests N.Input.place N.tree N.functions self.now.depth F.pre F.post
            self.now.parser }
        ensures { Reads N.tree (first_at N.functions self.now.depth level
            (N.Input.place tokens.old)) result (N.Input.place tokens.new) }
    {
        if level.has_not() && tokens.at(Mark::Not) {
            return self.prefixed(tokens, Mark::Not, UnaryOpKind::Not, Nest::Opposite);
        }
        self.power(tokens)
    }

    /// Reads an operand with its suffixes, and a `**` with its right operand, if one follows.
    #[tactic(auto, using(crate::proofs::Operands::power_is))]
    fn power(&self, tokens: &mut N::Input) -> Result<N::Expr, Refusal>
        requires { Nests N.Input.place N.tree N.functions self.now.depth F.pre F.post
            self.now.parser }
        ensures { Parses N.Input.place N.tree (form.pow_level N.functions (below N.functions
            self.now.depth)) tokens.old result tokens.new }
    {
        let from = tokens.current_span();
        let left = self.suffixed(tokens)?;
        if !tokens.at(Mark::Pow) {
            return Ok(left);
        }
        tokens.skip(Wanted::Mark(Mark::Pow))?;
        let right = self.inner(tokens, Nest::Power)?;
        self.spanned(tokens, from, Node::BinOp(BinOpKind::Pow, left, right))
    }

    /// Reads the operator that comes next with its right operand, or all comparisons that come.
    #[cycle(level)]
    fn operation(
        &self,
        tokens: &mut N::Input,
        operator: Operator,
        from: Span,
        before: Span,
        left: N::Expr,
    ) -> Result<N::Expr, Refusal>
        requires nests { Nests N.Input.place N.tree N.functions self.now.depth F.pre F.post
            self.now.parser }
        requires comes { next_operator level.Or (N.Input.place tokens.old).tokens ≡ Some operator }
        ensures { Reads N.tree (operation_at N.functions self.now.depth operator from before
            (N.tree left) (N.Input.place tokens.old)) result (N.Input.place tokens.new) }
    {
        let Operator::Binary(op, level) = operator else {
            return self.comparisons(tokens, before, left);
        };
        tokens.skip(Wanted::Part(Expected::Expression))?;
        let right = self.level(tokens, level.tighter())?;
        self.spanned(tokens, from, Node::BinOp(op, left, right))
    }

    /// Reads the comparisons that come, which are one or more.
    #[cycle(level)]
    #[inline(never)]
    fn comparisons(
        &self,
        tokens: &mut N::Input,
        before: Span,
        expr: N::Expr,
    ) -> Result<N::Expr, Refusal>
        requires nests { Nests N.Input.place N.tree N.functions self.now.depth F.pre F.post
            self.now.parser }
        requires comes { comes begins_comparison (N.Input.place tokens.old).tokens ≡ true }
        ensures { Parses N.Input.place N.tree (comparisons (level_at N.functions self.now.depth
            level.Sum) before (N.tree expr)) tokens.old result tokens.new }
    {
        let (op, right) = self.comparison(tokens)?;
        if !tokens.begins(Part::Comparison) {
            let span = tokens.expand_span(before);
            return Ok(comparison(&self.builder, op, expr, right, span)?);
        }
        let ops = self.chain(tokens, op, right)?;
        self.spanned(tokens, before, Node::Compare(expr, ops))
    }

    /// Reads the comparisons after the first one, and returns all of them.
    #[cycle(level)]
    fn chain(
        &self,
        tokens: &mut N::Input,
        op: CompareOpKind,
        expr: N::Expr,
    ) -> Result<Vec<N::Comparison>, Refusal>
        requires nests { Nests N.Input.place N.tree N.functions self.now.depth F.pre F.post
            self.now.parser }
        ensures { Parses N.Input.place (λ v. map N.compared v.items) (many (of_kind
            begins_comparison) (form.comparison (level_at N.functions self.now.depth level.Sum))
            ((compare_op op, N.tree expr) ∷ [])) tokens.old result tokens.new }
    {
        let mut ops = Vec::new(self.builder.alloc());
        ops.push(N::against(op, expr))?;
        while tokens.begins(Part::Comparison) {
            let (op, expr) = self.comparison(tokens)?;
            ops.push(N::against(op, expr))?;
        }
        Ok(ops)
    }

    /// Reads a comparison operator and its right operand.
    #[cycle(level)]
    fn comparison(&self, tokens: &mut N::Input) -> Result<(CompareOpKind, N::Expr), Refusal>
        requires nests { Nests N.Input.place N.tree N.functions self.now.depth F.pre F.post
            self.now.parser }
        ensures { Reads (λ c. (compare_op c.0, N.tree c.1))
            (comparison_at (level_at N.functions self.now.depth level.Sum) (N.Input.place
            tokens.old))
            result (N.Input.place tokens.new) }
    {
        let op = tokens.compare_operator()?;
        let expr = self.level(tokens, Level::Sum)?;
        Ok((op, expr))
    }
}
