//! The rules of `for`.
ghost use Rattle.std.specs.Prelude.{map};
ghost use Rattle.std.specs.Option.{option_map};
ghost use Rattle.minijinja_grammar.specs.internal.ExprForms.{expr_at};
ghost use Rattle.minijinja_grammar.specs.internal.StmtForms as form;
ghost use Rattle.minijinja_grammar.specs.internal.StmtForms.{parts_at};
ghost use Rattle.minijinja_parser_stmt.specs.private.Parses.{Nests, Parses, context_of};

use crate::builder::{Kind, StmtBuilder, of_kind};
use crate::rules::targets::any_targets;
use crate::rules::{Context, Nested, StmtRules};
use minijinja_parser_tokens::forms::ExprForm;
use minijinja_parser_tokens::marks::{Ends, Mark};
use minijinja_parser_tokens::refusal::Refusal;
use minijinja_parser_tokens::tokens::Tokens;
use minijinja_syntax::tokens::Span;
use std::marker::PhantomData;

/// The test that an item of a loop has to pass, if there is one.
#[tactic(auto, using(minijinja_parser_tokens::proofs::Turned::behind_is), unfolding(minijinja_grammar::specs::internal::Forms::reads, minijinja_grammar::specs::internal::StmtForms::loop_filter))]
fn loop_filter<S: StmtBuilder>(
    builder: S,
    tokens: &mut S::Input,
    depth: usize,
) -> Result<Option<S::Expr>, Refusal>
    ensures { Parses S.Input.place (option_map S.tree) (form.loop_filter (expr_at S.functions
        depth)) tokens.old result tokens.new }
{
    if !tokens.eat(Mark::If)? {
        return Ok(None);
    }
    Ok(Some(builder.expr(tokens, ExprForm::Full, depth)?))
}

impl<
    S: StmtBuilder,
    F: Copy
        + for<'x> Fn(
            S,
            &'x mut S::Input,
            PhantomData<S::Stmt>,
            Context,
            Nested,
            usize,
        ) -> Result<S::Stmt, Refusal>,
> StmtRules<S, F> {
    /// The end of the tag of a loop, and its body.
    #[tactic(auto, unfolding(minijinja_grammar::specs::internal::Forms::reads, minijinja_grammar::specs::internal::StmtForms::loop_body))]
    fn loop_body(&self, tokens: &mut S::Input) -> Result<Vec<S::Stmt>, Refusal>
        requires { Nests S.Input.place S.stmt S.functions self.now.depth F.pre F.post
            self.now.nested }
        ensures { Parses S.Input.place (λ v. map S.stmt v.items) (form.loop_body (parts_at
            S.functions (context_of self.now.context) self.now.depth)) tokens.old result
            tokens.new }
    {
        tokens.expect(Mark::BlockEnd)?;
        let inner = StmtRules {
            builder: self.builder,
            context: Context {
                in_loop: true,
                ..self.context
            },
            depth: self.depth,
            nested: self.nested,
        };
        inner.body(tokens, Ends::EndForOrElse)
    }

    /// `for`, after its word.
    #[tactic(auto, using(minijinja_parser_tokens::proofs::Turned::flag_is), unfolding(minijinja_grammar::specs::internal::Forms::reads, minijinja_grammar::specs::internal::StmtForms::for_stmt, crate::specs::internal::Made::HasParts, crate::specs::internal::Made::statement_tree))]
    pub(super) fn for_stmt(&self, tokens: &mut S::Input, from: Span) -> Result<S::Stmt, Refusal>
        requires { Nests S.Input.place S.stmt S.functions self.now.depth F.pre F.post
            self.now.nested }
        ensures { Parses S.Input.place S.stmt (form.for_stmt (parts_at S.functions
            (context_of self.now.context) self.now.depth) from) tokens.old result tokens.new }
    {
        let target = any_targets(self.builder, tokens, false, self.depth)?;
        tokens.expect(Mark::In)?;
        let iter = self.builder.expr(tokens, ExprForm::Or, self.depth)?;
        let filter_expr = loop_filter(self.builder, tokens, self.depth)?;
        let recursive = tokens.eat(Mark::Recursive)?;
        let body = self.loop_body(tokens)?;
        let else_body = self.else_body(tokens, Ends::EndFor, Mark::EndFor)?;
        let span = tokens.expand_span(from);
        let mut parts = of_kind(self.builder.alloc(), Kind::For);
        parts.target = Some(target);
        parts.expr = Some(iter);
        parts.filter = filter_expr;
        parts.recursive = recursive;
        parts.body = body;
        parts.else_body = else_body;
        Ok(self.builder.statement(parts, span)?)
    }
}
