//! The rules of `macro` and `call`.
ghost use Rattle.std.specs.Prelude.{[], map};
ghost use Rattle.std.specs.Option.{option_map};
ghost use Rattle.minijinja_grammar.specs.internal.ExprForms.{expr_at};
ghost use Rattle.minijinja_grammar.specs.internal.StmtForms as form;
ghost use Rattle.minijinja_grammar.specs.internal.StmtForms.{parts_at};
ghost use Rattle.minijinja_parser_tokens.specs.internal.Marks.{ends_view, mark_tok};
ghost use Rattle.minijinja_parser_stmt.specs.private.Macros.{param_at, param_items, params_if_any};
ghost use Rattle.minijinja_parser_stmt.specs.internal.Made.{param_of};
ghost use Rattle.minijinja_parser_stmt.specs.private.Parses.{Nests, Parses, context_of};

use crate::builder::{Kind, StmtBuilder, of_kind};
use crate::rules::targets::stored_name;
use crate::rules::{Context, Nested, StmtRules};
use minijinja_parser_tokens::forms::{ExprForm, IdentForm};
use minijinja_parser_tokens::marks::{Ends, Mark, Part};
use minijinja_parser_tokens::refusal::{Refusal, Wanted};
use minijinja_parser_tokens::tokens::Tokens;
use minijinja_syntax::error::Expected;
use minijinja_syntax::tokens::Span;
use std::marker::PhantomData;

/// The capacity of the arguments of a macro before the first one is read. Most macros have no more.
const ROOM_AT_FIRST: usize = 4;

/// The default of an argument, if it has one. After an argument with a default each has to have
/// one.
#[tactic(auto, using(minijinja_parser_tokens::proofs::Turned::behind_is), unfolding(minijinja_grammar::specs::internal::Forms::reads))]
fn default_of<S: StmtBuilder>(
    builder: S,
    tokens: &mut S::Input,
    depth: usize,
    has_to_have: bool,
) -> Result<Option<S::Expr>, Refusal>
    ensures { Parses S.Input.place (option_map S.tree) (form.default_of (expr_at S.functions depth)
        has_to_have) tokens.old result tokens.new }
{
    if has_to_have {
        tokens.expect(Mark::Assign)?;
    } else if !tokens.eat(Mark::Assign)? {
        return Ok(None);
    }
    Ok(Some(builder.expr(tokens, ExprForm::Full, depth)?))
}

/// An argument of a macro, with its default.
#[tactic(auto, unfolding(minijinja_grammar::specs::internal::Forms::reads))]
fn param<S: StmtBuilder>(
    builder: S,
    tokens: &mut S::Input,
    depth: usize,
    has_to_have: bool,
) -> Result<(S::Expr, Option<S::Expr>), Refusal>
    ensures { Parses S.Input.place (param_of S.tree) (param_at (expr_at S.functions depth)
        has_to_have) tokens.old result tokens.new }
{
    let name = stored_name(builder, tokens)?;
    let default = default_of(builder, tokens, depth, has_to_have)?;
    Ok((name, default))
}

/// The arguments of a macro, with commas between them.
#[tactic(auto, using(crate::proofs::Params::params_more, crate::proofs::Params::params_done))]
fn param_items<S: StmtBuilder>(
    builder: S,
    tokens: &mut S::Input,
    depth: usize,
) -> Result<Vec<(S::Expr, Option<S::Expr>)>, Refusal>
    ensures { Parses S.Input.place (λ v. map (param_of S.tree) v.items) (param_items (expr_at
        S.functions depth) []) tokens.old result tokens.new }
{
    let mut params = Vec::with_capacity(builder.alloc(), ROOM_AT_FIRST)?;
    let mut has_default = false;
    while tokens.begins(Part::Name) {
        let param = param(builder, tokens, depth, has_default)?;
        has_default = has_default || param.1.is_some();
        params.push(param)?;
        if !tokens.eat(Mark::Comma)? {
            return Ok(params);
        }
    }
    Ok(params)
}

/// The arguments of a macro, and the end of their parentheses.
#[tactic(auto, unfolding(minijinja_grammar::specs::internal::Forms::reads, minijinja_grammar::specs::internal::StmtForms::params))]
fn params<S: StmtBuilder>(
    builder: S,
    tokens: &mut S::Input,
    depth: usize,
) -> Result<Vec<(S::Expr, Option<S::Expr>)>, Refusal>
    ensures { Parses S.Input.place (λ v. map (param_of S.tree) v.items) (form.params (expr_at
        S.functions depth)) tokens.old result tokens.new }
{
    let params = param_items(builder, tokens, depth)?;
    tokens.expect(Mark::ParenClose)?;
    Ok(params)
}

/// The arguments of a call block's macro, in parentheses, if they are there.
#[tactic(auto, using(minijinja_parser_tokens::proofs::Turned::behind_is), unfolding(minijinja_grammar::specs::internal::Forms::reads))]
fn params_of_call<S: StmtBuilder>(
    builder: S,
    tokens: &mut S::Input,
    depth: usize,
) -> Result<Vec<(S::Expr, Option<S::Expr>)>, Refusal>
    ensures { Parses S.Input.place (λ v. map (param_of S.tree) v.items) (params_if_any (expr_at
        S.functions depth)) tokens.old result tokens.new }
{
    if !tokens.eat(Mark::ParenOpen)? {
        return Ok(Vec::new(builder.alloc()));
    }
    params(builder, tokens, depth)
}

impl<
    S: StmtBuilder,
    F: Copy
        + for<'x> Fn(
            S,
            &'x mut S::Input,
            PhantomData<S::Stmt>,
            Context,
            Nested,
            usize,
        ) -> Result<S::Stmt, Refusal>,
> StmtRules<S, F> {
    /// The end of a tag, the body of a macro, and the word that it ends at.
    #[tactic(auto, unfolding(minijinja_grammar::specs::internal::Forms::reads, minijinja_grammar::specs::internal::StmtForms::macro_body))]
    fn macro_body(
        &self,
        tokens: &mut S::Input,
        ends: Ends,
        word: Mark,
    ) -> Result<Vec<S::Stmt>, Refusal>
        requires { Nests S.Input.place S.stmt S.functions self.now.depth F.pre F.post
            self.now.nested }
        ensures { Parses S.Input.place (λ v. map S.stmt v.items) (form.macro_body
            (parts_at S.functions (context_of self.now.context) self.now.depth) (ends_view ends)
            (mark_tok word)) tokens.old result tokens.new }
    {
        tokens.expect(Mark::BlockEnd)?;
        let inner = StmtRules {
            builder: self.builder,
            context: Context {
                in_loop: false,
                in_macro: true,
                open: self.context.open,
            },
            depth: self.depth,
            nested: self.nested,
        };
        let body = inner.body(tokens, ends)?;
        tokens.end_word(word, self.context.open)?;
        Ok(body)
    }

    /// `macro`, after its word.
    #[tactic(auto, unfolding(crate::specs::internal::Made::HasParts, crate::specs::internal::Made::statement_tree, minijinja_grammar::specs::internal::Forms::reads, minijinja_grammar::specs::internal::StmtForms::macro_stmt))]
    pub(super) fn macro_stmt(&self, tokens: &mut S::Input, from: Span) -> Result<S::Stmt, Refusal>
        requires { Nests S.Input.place S.stmt S.functions self.now.depth F.pre F.post
            self.now.nested }
        ensures { Parses S.Input.place S.stmt (form.macro_stmt (parts_at S.functions
            (context_of self.now.context) self.now.depth) from) tokens.old result tokens.new }
    {
        let wanted = Wanted::Part(Expected::Identifier);
        let (name, _) = self.builder.ident(tokens, IdentForm::Any, wanted)?;
        tokens.expect(Mark::ParenOpen)?;
        let params = params(self.builder, tokens, self.depth)?;
        let body = self.macro_body(tokens, Ends::EndMacro, Mark::EndMacro)?;
        let span = tokens.expand_span(from);
        let mut parts = of_kind(self.builder.alloc(), Kind::Macro);
        parts.name = Some(name);
        parts.names = params;
        parts.body = body;
        Ok(self.builder.statement(parts, span)?)
    }

    /// `call`, after its word.
    #[tactic(auto, using(crate::proofs::Calls::call_block_is), unfolding(crate::specs::internal::Made::HasParts, crate::specs::internal::Made::statement_tree))]
    pub(super) fn call_stmt(&self, tokens: &mut S::Input, from: Span) -> Result<S::Stmt, Refusal>
        requires { Nests S.Input.place S.stmt S.functions self.now.depth F.pre F.post
            self.now.nested }
        ensures { Parses S.Input.place S.stmt (form.call_stmt (parts_at S.functions
            (context_of self.now.context) self.now.depth) from) tokens.old result tokens.new }
    {
        let params = params_of_call(self.builder, tokens, self.depth)?;
        let call = self.builder.expr(tokens, ExprForm::Call, self.depth)?;
        let body = self.macro_body(tokens, Ends::EndCall, Mark::EndCall)?;
        let span = tokens.expand_span(from);
        let mut parts = of_kind(self.builder.alloc(), Kind::CallBlock);
        parts.expr = Some(call);
        parts.names = params;
        parts.body = body;
        Ok(self.builder.statement(parts, span)?)
    }
}
