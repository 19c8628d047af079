//! The rules of `if`, with its `elif` and `else` branches.
ghost use Rattle.std.specs.Prelude.{map};
ghost use Rattle.minijinja_grammar.specs.internal.StmtForms as form;
ghost use Rattle.minijinja_grammar.specs.internal.StmtForms.{parts_at};
ghost use Rattle.minijinja_parser_stmt.specs.private.Parses.{Nests, Parses, context_of};

use crate::builder::{Kind, StmtBuilder, of_kind};
use crate::rules::{Context, Nested, StmtRules};
use minijinja_parser_tokens::forms::ExprForm;
use minijinja_parser_tokens::marks::{Ends, Mark};
use minijinja_parser_tokens::refusal::Refusal;
use minijinja_parser_tokens::tokens::Tokens;
use minijinja_syntax::tokens::Span;
use std::marker::PhantomData;

impl<
    S: StmtBuilder,
    F: Copy
        + for<'x> Fn(
            S,
            &'x mut S::Input,
            PhantomData<S::Stmt>,
            Context,
            Nested,
            usize,
        ) -> Result<S::Stmt, Refusal>,
> StmtRules<S, F> {
    /// What comes after the body of an `if`, up to its end: nothing, the `if` of an `elif`, or an
    /// else body.
    #[tactic(auto, unfolding(minijinja_grammar::specs::internal::Forms::reads, minijinja_grammar::specs::internal::StmtForms::otherwise))]
    fn otherwise(&self, tokens: &mut S::Input) -> Result<Vec<S::Stmt>, Refusal>
        requires { Nests S.Input.place S.stmt S.functions self.now.depth F.pre F.post
            self.now.nested }
        ensures { Parses S.Input.place (λ v. map S.stmt v.items) (form.otherwise (parts_at
            S.functions (context_of self.now.context) self.now.depth)) tokens.old result
            tokens.new }
    {
        if !tokens.at(Mark::Elif) {
            return self.else_body(tokens, Ends::EndIf, Mark::EndIf);
        }
        tokens.expect(Mark::Elif)?;
        let mut false_body = Vec::new(self.builder.alloc());
        false_body.push(self.else_if(tokens)?)?;
        Ok(false_body)
    }

    /// An `if`, after that word or the `elif` at the span.
    #[tactic(auto, unfolding(crate::specs::internal::Made::HasParts, crate::specs::internal::Made::statement_tree, minijinja_grammar::specs::internal::Forms::reads, minijinja_grammar::specs::internal::StmtForms::if_level))]
    pub(super) fn if_stmt(&self, tokens: &mut S::Input, from: Span) -> Result<S::Stmt, Refusal>
        requires { Nests S.Input.place S.stmt S.functions self.now.depth F.pre F.post
            self.now.nested }
        ensures { Parses S.Input.place S.stmt (form.if_level (parts_at S.functions
            (context_of self.now.context) self.now.depth) from) tokens.old result tokens.new }
    {
        let test = self.builder.expr(tokens, ExprForm::Or, self.depth)?;
        tokens.expect(Mark::BlockEnd)?;
        let body = self.body(tokens, Ends::EndIfElseOrElif)?;
        let false_body = self.otherwise(tokens)?;
        let span = tokens.expand_span(from);
        let mut parts = of_kind(self.builder.alloc(), Kind::If);
        parts.expr = Some(test);
        parts.body = body;
        parts.else_body = false_body;
        Ok(self.builder.statement(parts, span)?)
    }
}
