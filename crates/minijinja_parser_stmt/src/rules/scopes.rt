//! The rules of `with`, `set`, `autoescape` and of set and filter blocks.
ghost use Rattle.std.specs.Prelude.{map};
ghost use Rattle.std.specs.Option.{option_map};
ghost use Rattle.minijinja_grammar.specs.internal.ExprForms.{expr_at};
ghost use Rattle.minijinja_grammar.specs.internal.StmtForms as form;
ghost use Rattle.minijinja_grammar.specs.internal.StmtForms.{parts_at};
ghost use Rattle.minijinja_parser_stmt.specs.internal.Made.{binding_of};
ghost use Rattle.minijinja_parser_stmt.specs.private.Parses.{Nests, Parses, context_of};

use crate::builder::{Kind, StmtBuilder, of_kind};
use crate::rules::targets::{any_targets, stored_name};
use crate::rules::{Context, Nested, StmtRules};
use minijinja_parser_tokens::forms::ExprForm;
use minijinja_parser_tokens::marks::{Ends, Mark, Part};
use minijinja_parser_tokens::refusal::{Refusal, Wanted};
use minijinja_parser_tokens::tokens::Tokens;
use minijinja_syntax::tokens::Span;
use std::marker::PhantomData;

/// The capacity of the targets of a `with` before the first one is read. Most have no more.
const ROOM_AT_FIRST: usize = 4;

/// A name, or targets in parentheses.
#[tactic(auto, using(crate::proofs::Targets::bound_is, crate::proofs::Targets::nested_is))]
fn bound_target<S: StmtBuilder>(
    builder: S,
    tokens: &mut S::Input,
    depth: usize,
) -> Result<S::Expr, Refusal>
    ensures { Parses S.Input.place S.tree (form.bound_target depth) tokens.old result tokens.new }
{
    if !tokens.eat(Mark::ParenOpen)? {
        return stored_name(builder, tokens);
    }
    if depth == 0 {
        return Err(Refusal::Wrong(Wanted::Flatter));
    }
    let target = any_targets(builder, tokens, false, depth - 1)?;
    tokens.expect(Mark::ParenClose)?;
    Ok(target)
}

/// A target of a `with`, and its value.
#[tactic(auto, unfolding(minijinja_grammar::specs::internal::Forms::reads, minijinja_grammar::specs::internal::StmtForms::binding))]
fn binding<S: StmtBuilder>(
    builder: S,
    tokens: &mut S::Input,
    depth: usize,
) -> Result<(S::Expr, S::Expr), Refusal>
    ensures { Parses S.Input.place (binding_of S.tree) (form.binding (form.bound_target depth)
        (expr_at S.functions depth)) tokens.old result tokens.new }
{
    let target = bound_target(builder, tokens, depth)?;
    tokens.expect(Mark::Assign)?;
    let value = builder.expr(tokens, ExprForm::Full, depth)?;
    Ok((target, value))
}

/// The targets of a `with`, and their values.
#[tactic(auto, using(crate::proofs::Bindings::bindings_some, crate::proofs::Bindings::bindings_none, crate::proofs::Bindings::others_is))]
fn bindings<S: StmtBuilder>(
    builder: S,
    tokens: &mut S::Input,
    depth: usize,
) -> Result<Vec<(S::Expr, S::Expr)>, Refusal>
    ensures { Parses S.Input.place (λ v. map (binding_of S.tree) v.items)
        (form.bindings (form.bound_target depth) (expr_at S.functions depth)) tokens.old result
        tokens.new }
{
    let mut bindings = Vec::with_capacity(builder.alloc(), ROOM_AT_FIRST)?;
    if tokens.at(Mark::BlockEnd) {
        return Ok(bindings);
    }
    bindings.push(binding(builder, tokens, depth)?)?;
    while tokens.eat(Mark::Comma)? {
        bindings.push(binding(builder, tokens, depth)?)?;
    }
    Ok(bindings)
}

/// `=` and a value, after the targets of a `set`.
#[tactic(auto, unfolding(crate::specs::internal::Made::HasParts, crate::specs::internal::Made::statement_tree, minijinja_grammar::specs::internal::Forms::reads, minijinja_grammar::specs::internal::StmtForms::rest_of_set))]
fn rest_of_set<S: StmtBuilder>(
    builder: S,
    tokens: &mut S::Input,
    depth: usize,
    target: S::Expr,
    from: Span,
) -> Result<S::Stmt, Refusal>
    ensures { Parses S.Input.place S.stmt (form.rest_of_set (form.value (expr_at S.functions depth))
        from (S.tree target)) tokens.old result tokens.new }
{
    tokens.expect(Mark::Assign)?;
    let expr = builder.expr(tokens, ExprForm::Value, depth)?;
    let span = tokens.expand_span(from);
    let mut parts = of_kind(builder.alloc(), Kind::Set);
    parts.target = Some(target);
    parts.expr = Some(expr);
    Ok(builder.statement(parts, span)?)
}

/// `|` and a chain of filters, after the targets of a set block, if they are there.
#[tactic(auto, using(minijinja_parser_tokens::proofs::Turned::behind_is), unfolding(minijinja_grammar::specs::internal::Forms::reads, minijinja_grammar::specs::internal::StmtForms::filters_if_any))]
fn filters_if_any<S: StmtBuilder>(
    builder: S,
    tokens: &mut S::Input,
    depth: usize,
) -> Result<Option<S::Expr>, Refusal>
    ensures { Parses S.Input.place (option_map S.tree) (form.filters_if_any (form.chain
        (expr_at S.functions depth))) tokens.old result tokens.new }
{
    if !tokens.eat(Mark::Pipe)? {
        return Ok(None);
    }
    Ok(Some(builder.expr(tokens, ExprForm::Chain, depth)?))
}

impl<
    S: StmtBuilder,
    F: Copy
        + for<'x> Fn(
            S,
            &'x mut S::Input,
            PhantomData<S::Stmt>,
            Context,
            Nested,
            usize,
        ) -> Result<S::Stmt, Refusal>,
> StmtRules<S, F> {
    /// `with`, after its word.
    #[tactic(auto, unfolding(crate::specs::internal::Made::HasParts, crate::specs::internal::Made::statement_tree, minijinja_grammar::specs::internal::Forms::reads, minijinja_grammar::specs::internal::StmtForms::with_stmt))]
    pub(super) fn with_stmt(&self, tokens: &mut S::Input, from: Span) -> Result<S::Stmt, Refusal>
        requires { Nests S.Input.place S.stmt S.functions self.now.depth F.pre F.post
            self.now.nested }
        ensures { Parses S.Input.place S.stmt (form.with_stmt (parts_at S.functions
            (context_of self.now.context) self.now.depth) from) tokens.old result tokens.new }
    {
        let assignments = bindings(self.builder, tokens, self.depth)?;
        let body = self.closed_body(tokens, Ends::EndWith, Mark::EndWith)?;
        let span = tokens.expand_span(from);
        let mut parts = of_kind(self.builder.alloc(), Kind::With);
        parts.assignments = assignments;
        parts.body = body;
        Ok(self.builder.statement(parts, span)?)
    }

    /// The filters and the body of a set block, after its targets.
    #[tactic(auto, unfolding(crate::specs::internal::Made::HasParts, crate::specs::internal::Made::statement_tree, minijinja_grammar::specs::internal::Forms::reads, minijinja_grammar::specs::internal::StmtForms::rest_of_set_block))]
    fn rest_of_set_block(
        &self,
        tokens: &mut S::Input,
        target: S::Expr,
        from: Span,
    ) -> Result<S::Stmt, Refusal>
        requires { Nests S.Input.place S.stmt S.functions self.now.depth F.pre F.post
            self.now.nested }
        ensures { Parses S.Input.place S.stmt (form.rest_of_set_block (parts_at S.functions
            (context_of self.now.context) self.now.depth) from (S.tree target)) tokens.old
            result tokens.new }
    {
        let filter = filters_if_any(self.builder, tokens, self.depth)?;
        let body = self.closed_body(tokens, Ends::EndSet, Mark::EndSet)?;
        let span = tokens.expand_span(from);
        let mut parts = of_kind(self.builder.alloc(), Kind::SetBlock);
        parts.target = Some(target);
        parts.filter = filter;
        parts.body = body;
        Ok(self.builder.statement(parts, span)?)
    }

    /// `set`, after its word.
    #[tactic(auto, unfolding(minijinja_grammar::specs::internal::Forms::reads, minijinja_grammar::specs::internal::StmtForms::set_stmt))]
    pub(super) fn set_stmt(&self, tokens: &mut S::Input, from: Span) -> Result<S::Stmt, Refusal>
        requires { Nests S.Input.place S.stmt S.functions self.now.depth F.pre F.post
            self.now.nested }
        ensures { Parses S.Input.place S.stmt (form.set_stmt (parts_at S.functions
            (context_of self.now.context) self.now.depth) from) tokens.old result tokens.new }
    {
        let target = any_targets(self.builder, tokens, true, self.depth)?;
        if tokens.begins(Part::SetBlock) {
            return self.rest_of_set_block(tokens, target, from);
        }
        rest_of_set(self.builder, tokens, self.depth, target, from)
    }

    /// `autoescape`, after its word.
    #[tactic(auto, unfolding(crate::specs::internal::Made::HasParts, crate::specs::internal::Made::statement_tree, minijinja_grammar::specs::internal::Forms::reads, minijinja_grammar::specs::internal::StmtForms::autoescape_stmt))]
    pub(super) fn autoescape_stmt(
        &self,
        tokens: &mut S::Input,
        from: Span,
    ) -> Result<S::Stmt, Refusal>
        requires { Nests S.Input.place S.stmt S.functions self.now.depth F.pre F.post
            self.now.nested }
        ensures { Parses S.Input.place S.stmt (form.autoescape_stmt (parts_at S.functions
            (context_of self.now.context) self.now.depth) from) tokens.old result tokens.new }
    {
        let enabled = self.builder.expr(tokens, ExprForm::Full, self.depth)?;
        let body = self.closed_body(tokens, Ends::EndAutoEscape, Mark::EndAutoEscape)?;
        let span = tokens.expand_span(from);
        let mut parts = of_kind(self.builder.alloc(), Kind::AutoEscape);
        parts.expr = Some(enabled);
        parts.body = body;
        Ok(self.builder.statement(parts, span)?)
    }

    /// A filter block, after its word.
    #[tactic(auto, unfolding(crate::specs::internal::Made::HasParts, crate::specs::internal::Made::statement_tree, minijinja_grammar::specs::internal::Forms::reads, minijinja_grammar::specs::internal::StmtForms::filter_stmt))]
    pub(super) fn filter_stmt(&self, tokens: &mut S::Input, from: Span) -> Result<S::Stmt, Refusal>
        requires { Nests S.Input.place S.stmt S.functions self.now.depth F.pre F.post
            self.now.nested }
        ensures { Parses S.Input.place S.stmt (form.filter_stmt (parts_at S.functions
            (context_of self.now.context) self.now.depth) from) tokens.old result tokens.new }
    {
        let filter = self.builder.expr(tokens, ExprForm::Chain, self.depth)?;
        let body = self.closed_body(tokens, Ends::EndFilter, Mark::EndFilter)?;
        let span = tokens.expand_span(from);
        let mut parts = of_kind(self.builder.alloc(), Kind::FilterBlock);
        parts.expr = Some(filter);
        parts.body = body;
        Ok(self.builder.statement(parts, span)?)
    }
}
