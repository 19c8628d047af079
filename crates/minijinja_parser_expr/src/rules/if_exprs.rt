//! If expressions.
ghost use Rattle.std.specs.Option.{option_map};
ghost use Rattle.minijinja_grammar.specs.internal.ExprForms as form;
ghost use Rattle.minijinja_grammar.specs.internal.ExprForms.{below, expr_at};
ghost use Rattle.minijinja_parser_expr.specs.private.Nests.{Nests, Parses};

use crate::builder::{ExprBuilder, Node};
use crate::rules::{ExprRules, Nest};
use minijinja_parser_tokens::marks::Mark;
use minijinja_parser_tokens::operators::Level;
use minijinja_parser_tokens::refusal::{Refusal, Wanted};
use minijinja_parser_tokens::tokens::Tokens;
use std::marker::PhantomData;

impl<
    N: ExprBuilder,
    F: Copy
        + for<'x> Fn(
            N,
            &'x mut N::Input,
            PhantomData<N::Expr>,
            Nest,
            usize,
        ) -> Result<N::Expr, Refusal>,
> ExprRules<N, F> {
    /// Reads an expression with its ifs: an else part takes all ifs that follow it.
    pub(crate) fn cond(&self, tokens: &mut N::Input) -> Result<N::Expr, Refusal>
        requires { Nests N.Input.place N.tree N.functions self.now.depth F.pre F.post
            self.now.parser }
        ensures { Parses N.Input.place N.tree (form.cond_level N.functions (below N.functions
            self.now.depth)) tokens.old result tokens.new }
    {
        let mut from = tokens.last_span();
        let mut expr = self.level(tokens, Level::Or)?;
        while tokens.at(Mark::If) {
            tokens.skip(Wanted::Mark(Mark::If))?;
            let test_expr = self.level(tokens, Level::Or)?;
            let false_expr = self.else_part(tokens)?;
            let node = Node::IfExpr(test_expr, expr, false_expr);
            expr = self.spanned(tokens, from, node)?;
            from = tokens.last_span();
        }
        Ok(expr)
    }

    /// Reads an else part, if there is one.
    #[tactic(auto, using(crate::proofs::Ifs::else_part_is))]
    fn else_part(&self, tokens: &mut N::Input) -> Result<Option<N::Expr>, Refusal>
        requires { Nests N.Input.place N.tree N.functions self.now.depth F.pre F.post
            self.now.parser }
        ensures { Parses N.Input.place (option_map N.tree) (form.else_part (expr_at N.functions
            self.now.depth)) tokens.old result tokens.new }
    {
        if !tokens.eat(Mark::Else)? {
            return Ok(None);
        }
        Ok(Some(self.nested(tokens)?))
    }
}
