//! Suffixes: filters and tests, after an operand.
ghost use Rattle.std.specs.Prelude.{map};
ghost use Rattle.minijinja_grammar.specs.internal.ExprForms as form;
ghost use Rattle.minijinja_grammar.specs.internal.ExprForms.{below};
ghost use Rattle.minijinja_parser_expr.specs.private.Nests.{Nests, Parses};
ghost use Rattle.minijinja_parser_expr.specs.private.Turns.{suffix_at};
ghost use Rattle.minijinja_parser_tokens.specs.internal.Reads.{Reads};

use crate::builder::{Argument, ExprBuilder, Node};
use crate::rules::{ExprRules, Nest};
use minijinja_parser_tokens::marks::{Mark, Part};
use minijinja_parser_tokens::refusal::{Refusal, Wanted};
use minijinja_parser_tokens::tokens::Tokens;
use minijinja_syntax::error::Expected;
use minijinja_tree::ast::UnaryOpKind;
use std::marker::PhantomData;

impl<
    N: ExprBuilder,
    F: Copy
        + for<'x> Fn(
            N,
            &'x mut N::Input,
            PhantomData<N::Expr>,
            Nest,
            usize,
        ) -> Result<N::Expr, Refusal>,
> ExprRules<N, F> {
    /// Reads an operand and its suffixes.
    #[tactic(auto, using(crate::proofs::Operands::suffixed_is, crate::proofs::Operands::suffixed_more, crate::proofs::Operands::suffixed_done))]
    pub(crate) fn suffixed(&self, tokens: &mut N::Input) -> Result<N::Expr, Refusal>
        requires { Nests N.Input.place N.tree N.functions self.now.depth F.pre F.post
            self.now.parser }
        ensures { Parses N.Input.place N.tree (form.unary_level N.functions (below N.functions
            self.now.depth)) tokens.old result tokens.new }
    {
        let mut expr = self.operand(tokens)?;
        while tokens.begins(Part::Suffix) {
            expr = self.suffix(tokens, expr)?;
        }
        Ok(expr)
    }

    /// Reads a filter or a test.
    fn suffix(&self, tokens: &mut N::Input, expr: N::Expr) -> Result<N::Expr, Refusal>
        requires { Nests N.Input.place N.tree N.functions self.now.depth F.pre F.post
            self.now.parser }
        ensures { Reads N.tree (suffix_at N.functions self.now.depth (N.tree expr)
            (N.Input.place tokens.old)) result (N.Input.place tokens.new) }
    {
        let is_filter = tokens.at(Mark::Pipe);
        tokens.skip(Wanted::Part(Expected::Expression))?;
        if is_filter {
            return self.filter(tokens, expr);
        }
        self.any_test(tokens, expr)
    }

    /// Reads a filter, after its `|`.
    #[inline(never)]
    fn filter(&self, tokens: &mut N::Input, expr: N::Expr) -> Result<N::Expr, Refusal>
        requires { Nests N.Input.place N.tree N.functions self.now.depth F.pre F.post
            self.now.parser }
        ensures { Parses N.Input.place N.tree (form.filtered N.functions (below N.functions
            self.now.depth) (N.tree expr)) tokens.old result
            tokens.new }
    {
        let from = tokens.current_span();
        let name = self.builder.name(tokens)?;
        let args = self.maybe_args(tokens)?;
        self.spanned(tokens, from, Node::Filter(name, Some(expr), args))
    }

    /// Reads a test, after the word `is`.
    #[tactic(auto, using(crate::proofs::Following::any_test_is))]
    #[inline(never)]
    fn any_test(&self, tokens: &mut N::Input, expr: N::Expr) -> Result<N::Expr, Refusal>
        requires { Nests N.Input.place N.tree N.functions self.now.depth F.pre F.post
            self.now.parser }
        ensures { Parses N.Input.place N.tree (form.any_test N.functions (below N.functions
            self.now.depth) (N.tree expr)) tokens.old result
            tokens.new }
    {
        if !tokens.eat(Mark::Not)? {
            return self.named_test(tokens, expr);
        }
        let from = tokens.current_span();
        let test = self.named_test(tokens, expr)?;
        self.spanned(tokens, from, Node::UnaryOp(UnaryOpKind::Not, test))
    }

    /// Reads the name of a test and its arguments.
    fn named_test(&self, tokens: &mut N::Input, expr: N::Expr) -> Result<N::Expr, Refusal>
        requires { Nests N.Input.place N.tree N.functions self.now.depth F.pre F.post
            self.now.parser }
        ensures { Parses N.Input.place N.tree (form.named_test N.functions (below N.functions
            self.now.depth) (N.tree expr)) tokens.old result
            tokens.new }
    {
        let from = tokens.current_span();
        let name = self.builder.name(tokens)?;
        let args = self.test_args(tokens)?;
        self.spanned(tokens, from, Node::Test(name, expr, args))
    }

    /// Reads the arguments of a test: in parentheses, or one without them.
    #[tactic(auto, using(crate::proofs::Following::test_args_is))]
    fn test_args(&self, tokens: &mut N::Input) -> Result<Vec<N::Arg>, Refusal>
        requires { Nests N.Input.place N.tree N.functions self.now.depth F.pre F.post
            self.now.parser }
        ensures { Parses N.Input.place (λ v. map N.arg v.items) (form.test_args N.functions (below
            N.functions self.now.depth)) tokens.old result
            tokens.new }
    {
        if tokens.eat(Mark::ParenOpen)? {
            return self.args(tokens);
        }
        let mut args = Vec::new(self.builder.alloc());
        if tokens.begins(Part::Bare) {
            args.push(N::argument(Argument::Positional(self.operand(tokens)?)))?;
        }
        Ok(args)
    }
}
