//! Primaries: variables, constants, and expressions in brackets, braces or parentheses.
ghost use Rattle.std.specs.Prelude.{◌≡◌, ◌<◌, ◌-◌, [], map};
ghost use Rattle.minijinja_grammar.specs.internal.ExprForms as form;
ghost use Rattle.minijinja_grammar.specs.internal.ExprForms.{expr_at};
ghost use Rattle.minijinja_parser_expr.specs.private.Nests.{Nests, Parses};
ghost use Rattle.minijinja_parser_expr.specs.private.Primaries.{primary_at};

use crate::builder::{ExprBuilder, Node};
use crate::rules::{ExprRules, Nest};
use minijinja_parser_tokens::marks::{Mark, Part};
use minijinja_parser_tokens::refusal::{Refusal, Wanted};
use minijinja_parser_tokens::tokens::Tokens;
use minijinja_syntax::error::Expected;
use minijinja_syntax::tokens::Span;
use std::marker::PhantomData;

impl<
    N: ExprBuilder,
    F: Copy
        + for<'x> Fn(
            N,
            &'x mut N::Input,
            PhantomData<N::Expr>,
            Nest,
            usize,
        ) -> Result<N::Expr, Refusal>,
> ExprRules<N, F> {
    /// Reads a primary: a variable, a constant, a list, a map, or an expression or a tuple in
    /// parentheses.
    #[tactic(auto, using(crate::proofs::Primaries::primary_is, crate::proofs::Primaries::too_deep))]
    pub(crate) fn primary(&self, tokens: &mut N::Input) -> Result<N::Expr, Refusal>
        requires { Nests N.Input.place N.tree N.functions self.now.depth F.pre F.post
            self.now.parser }
        ensures { Parses N.Input.place N.tree (primary_at N.functions self.now.depth) tokens.old
            result tokens.new }
    {
        if self.depth == 0 {
            return Err(tokens.misfit(Wanted::Flatter));
        }
        if tokens.at(Mark::ParenOpen) {
            let from = tokens.skip(Wanted::Part(Expected::Expression))?;
            return self.within().group(tokens, from);
        }
        if tokens.at(Mark::BracketOpen) {
            let from = tokens.skip(Wanted::Part(Expected::Expression))?;
            return self.within().list(tokens, from);
        }
        if tokens.at(Mark::BraceOpen) {
            let from = tokens.skip(Wanted::Part(Expected::Expression))?;
            return self.within().map(tokens, from);
        }
        self.builder.atom(tokens)
    }

    /// The rules of what stands in a primary.
    fn within(&self) -> Self
        requires { 0 < self.now.depth }
        ensures builder { result.builder ≡ self.now.builder }
        ensures depth { result.depth ≡ self.now.depth - 1 }
        ensures parser { result.parser ≡ self.now.parser }
    {
        ExprRules {
            builder: self.builder,
            depth: self.depth - 1,
            parser: self.parser,
        }
    }

    /// Reads an expression or a tuple in parentheses, after the opening one.
    #[tactic(auto, using(crate::proofs::Following::group_is))]
    #[inline(never)]
    fn group(&self, tokens: &mut N::Input, from: Span) -> Result<N::Expr, Refusal>
        requires { Nests N.Input.place N.tree N.functions self.now.depth F.pre F.post
            self.now.parser }
        ensures { Parses N.Input.place N.tree (form.group (expr_at N.functions self.now.depth) from)
            tokens.old result tokens.new }
    {
        if tokens.eat(Mark::ParenClose)? {
            let items = Vec::new(self.builder.alloc());
            return self.spanned(tokens, from, Node::Tuple(items));
        }
        let expr = self.nested(tokens)?;
        self.rest_of_group(tokens, from, expr)
    }

    /// Reads what follows the first expression in parentheses: a closing parenthesis, or the rest
    /// of a tuple after a comma.
    #[tactic(auto, using(crate::proofs::Following::rest_of_group_is))]
    fn rest_of_group(
        &self,
        tokens: &mut N::Input,
        from: Span,
        expr: N::Expr,
    ) -> Result<N::Expr, Refusal>
        requires { Nests N.Input.place N.tree N.functions self.now.depth F.pre F.post
            self.now.parser }
        ensures { Parses N.Input.place N.tree (form.rest_of_group (expr_at N.functions
            self.now.depth) from (N.tree expr)) tokens.old result tokens.new }
    {
        if tokens.eat(Mark::Comma)? {
            return self.rest_of_tuple(tokens, from, expr);
        }
        tokens.expect(Mark::ParenClose)?;
        Ok(expr)
    }

    /// Reads the rest of a tuple, after the comma that follows its first item.
    #[tactic(auto, using(crate::proofs::Following::rest_of_tuple_is))]
    fn rest_of_tuple(
        &self,
        tokens: &mut N::Input,
        from: Span,
        first: N::Expr,
    ) -> Result<N::Expr, Refusal>
        requires { Nests N.Input.place N.tree N.functions self.now.depth F.pre F.post
            self.now.parser }
        ensures { Parses N.Input.place N.tree (form.rest_of_tuple (expr_at N.functions
            self.now.depth) from (N.tree first)) tokens.old result tokens.new }
    {
        let mut items = Vec::new(self.builder.alloc());
        items.push(first)?;
        let items = self.exprs(tokens, items)?;
        tokens.expect(Mark::ParenClose)?;
        self.spanned(tokens, from, Node::Tuple(items))
    }

    /// Reads a list, after its bracket.
    #[tactic(auto, using(crate::proofs::Following::in_brackets_is))]
    #[inline(never)]
    fn list(&self, tokens: &mut N::Input, from: Span) -> Result<N::Expr, Refusal>
        requires { Nests N.Input.place N.tree N.functions self.now.depth F.pre F.post
            self.now.parser }
        ensures { Parses N.Input.place N.tree (form.in_brackets (expr_at N.functions self.now.depth)
            from) tokens.old result tokens.new }
    {
        let items = self.exprs(tokens, Vec::new(self.builder.alloc()))?;
        tokens.expect(Mark::BracketClose)?;
        self.spanned(tokens, from, Node::List(items))
    }

    /// Reads expressions with commas between them, and adds them to those so far.
    #[tactic(auto, using(crate::proofs::Steps::exprs_more, crate::proofs::Steps::exprs_done, minijinja_parser_tokens::proofs::Turned::read_no_longer, minijinja_parser_tokens::proofs::Turned::eaten_shorter))]
    pub(crate) fn exprs(
        &self,
        tokens: &mut N::Input,
        items: Vec<N::Expr>,
    ) -> Result<Vec<N::Expr>, Refusal>
        requires { Nests N.Input.place N.tree N.functions self.now.depth F.pre F.post
            self.now.parser }
        ensures { Parses N.Input.place (λ v. map N.tree v.items) (form.exprs (expr_at N.functions
            self.now.depth) (map N.tree items.items)) tokens.old result tokens.new }
    {
        let mut items = items;
        while tokens.begins(Part::Expr) {
            items.push(self.nested(tokens)?)?;
            if !tokens.eat(Mark::Comma)? {
                return Ok(items);
            }
        }
        Ok(items)
    }

    /// Reads a map, after its brace.
    #[tactic(auto, using(crate::proofs::Following::in_braces_is))]
    #[inline(never)]
    fn map(&self, tokens: &mut N::Input, from: Span) -> Result<N::Expr, Refusal>
        requires { Nests N.Input.place N.tree N.functions self.now.depth F.pre F.post
            self.now.parser }
        ensures { Parses N.Input.place N.tree (form.in_braces (expr_at N.functions self.now.depth)
            from) tokens.old result tokens.new }
    {
        let (keys, values) = self.entries(tokens)?;
        tokens.expect(Mark::BraceClose)?;
        self.spanned(tokens, from, Node::Map(keys, values))
    }

    /// Reads the keys of a map and its values.
    #[tactic(auto, using(crate::proofs::Entries::entries_more, crate::proofs::Entries::entries_done))]
    fn entries(&self, tokens: &mut N::Input) -> Result<(Vec<N::Expr>, Vec<N::Expr>), Refusal>
        requires { Nests N.Input.place N.tree N.functions self.now.depth F.pre F.post
            self.now.parser }
        ensures { Parses N.Input.place (λ kvs. (map N.tree kvs.0.items, map N.tree kvs.1.items))
            (form.entries (expr_at N.functions self.now.depth) ([], [])) tokens.old result
            tokens.new }
    {
        let mut keys = Vec::new(self.builder.alloc());
        let mut values = Vec::new(self.builder.alloc());
        while tokens.begins(Part::Expr) {
            keys.push(self.nested(tokens)?)?;
            tokens.expect(Mark::Colon)?;
            values.push(self.nested(tokens)?)?;
            if !tokens.eat(Mark::Comma)? {
                return Ok((keys, values));
            }
        }
        Ok((keys, values))
    }
}
