//! The rules of bodies, which are read a part at a time.
ghost use Rattle.std.specs.Prelude.{map};
ghost use Rattle.std.specs.Option.{option_map};
ghost use Rattle.minijinja_grammar.specs.internal.ExprForms.{expr_at};
ghost use Rattle.minijinja_grammar.specs.internal.StmtForms as form;
ghost use Rattle.minijinja_grammar.specs.internal.StmtForms.{parts_at, stmt_at};
ghost use Rattle.minijinja_parser_tokens.specs.internal.Marks.{ends_view, mark_tok};
ghost use Rattle.minijinja_parser_tokens.specs.internal.Reads.{Reads};
ghost use Rattle.minijinja_parser_stmt.specs.private.Bodies.{piece};
ghost use Rattle.minijinja_parser_stmt.specs.private.Parses.{Nests, Parses, context_of};

use crate::builder::{Opening, StmtBuilder};
use crate::rules::{Context, Nested, StmtRules};
use minijinja_parser_tokens::forms::ExprForm;
use minijinja_parser_tokens::marks::{Ends, Mark, Part};
use minijinja_parser_tokens::refusal::{Refusal, Wanted};
use minijinja_parser_tokens::tokens::Tokens;
use minijinja_syntax::error::Expected;
use minijinja_syntax::tokens::Span;
use std::marker::PhantomData;

/// The capacity of a body before its first part is read. Most bodies have no more parts.
const ROOM_AT_FIRST: usize = 9;

/// An output, after its start.
#[tactic(auto, unfolding(minijinja_grammar::specs::internal::Forms::reads, minijinja_grammar::specs::internal::StmtForms::shown))]
fn output<S: StmtBuilder>(
    builder: S,
    tokens: &mut S::Input,
    depth: usize,
    from: Span,
) -> Result<S::Stmt, Refusal>
    ensures { Parses S.Input.place S.stmt (form.shown (expr_at S.functions depth) from) tokens.old
        result tokens.new }
{
    let expr = builder.expr(tokens, ExprForm::Full, depth)?;
    let span = tokens.expand_span(from);
    tokens.expect(Mark::VariableEnd)?;
    Ok(builder.output(expr, span)?)
}

impl<
    S: StmtBuilder,
    F: Copy
        + for<'x> Fn(
            S,
            &'x mut S::Input,
            PhantomData<S::Stmt>,
            Context,
            Nested,
            usize,
        ) -> Result<S::Stmt, Refusal>,
> StmtRules<S, F> {
    /// A statement and the end of its tag, after the start of it.
    #[tactic(auto, unfolding(minijinja_grammar::specs::internal::Forms::reads, minijinja_grammar::specs::internal::StmtForms::tag))]
    fn tag(&self, tokens: &mut S::Input) -> Result<S::Stmt, Refusal>
        requires { Nests S.Input.place S.stmt S.functions self.now.depth F.pre F.post
            self.now.nested }
        ensures { Parses S.Input.place S.stmt
            (form.tag (stmt_at S.functions (context_of self.now.context) self.now.depth)) tokens.old
            result tokens.new }
    {
        let stmt = self.stmt(tokens)?;
        tokens.expect(Mark::BlockEnd)?;
        Ok(stmt)
    }

    /// The data, output or statement that begins with the token, or `None` if the body ends here.
    fn part(
        &self,
        tokens: &mut S::Input,
        token: &<S::Input as Tokens>::Token,
        span: Span,
        ends: Ends,
    ) -> Result<Option<S::Stmt>, Refusal>
        requires { Nests S.Input.place S.stmt S.functions self.now.depth F.pre F.post
            self.now.nested }
        ensures { Reads (option_map S.stmt) (piece S.functions (context_of self.now.context)
            self.now.depth (ends_view ends) (S.Input.tok token.now, span)
            (S.Input.place tokens.old)) result (S.Input.place tokens.new) }
    {
        match S::opening(token) {
            Some(Opening::Data(raw)) => Ok(Some(self.builder.data(raw, span)?)),
            Some(Opening::Output) => Ok(Some(output(self.builder, tokens, self.depth, span)?)),
            Some(Opening::Statement) => {
                if tokens.begins(Part::BodyEnd(ends)) {
                    return Ok(None);
                }
                Ok(Some(self.tag(tokens)?))
            }
            None => Err(tokens.misfit(Wanted::Part(Expected::Part))),
        }
    }

    /// The parts up to a word that the body may end at, or to the end of the text.
    #[tactic(auto, using(crate::proofs::Bodies::body_is, crate::proofs::Bodies::body_more, crate::proofs::Bodies::body_done, minijinja_parser_tokens::proofs::Turned::take_shorter, crate::proofs::Bodies::part_no_longer))]
    pub(super) fn body(&self, tokens: &mut S::Input, ends: Ends) -> Result<Vec<S::Stmt>, Refusal>
        requires { Nests S.Input.place S.stmt S.functions self.now.depth F.pre F.post
            self.now.nested }
        ensures { Parses S.Input.place (λ v. map S.stmt v.items) (form.body (expr_at S.functions
            self.now.depth) (stmt_at S.functions (context_of self.now.context) self.now.depth)
            (ends_view ends)) tokens.old result tokens.new }
    {
        let mut parts = Vec::with_capacity(self.builder.alloc(), ROOM_AT_FIRST)?;
        while tokens.begins(Part::Any) {
            let (token, span) = tokens.take(Wanted::Part(Expected::Part))?;
            match self.part(tokens, &token, span, ends)? {
                Some(part) => parts.push(part)?,
                None => return Ok(parts),
            }
        }
        Ok(parts)
    }

    /// The end of a tag, a body, and the word that it ends at.
    #[tactic(auto, unfolding(minijinja_grammar::specs::internal::Forms::reads, minijinja_grammar::specs::internal::StmtForms::closed_body))]
    pub(super) fn closed_body(
        &self,
        tokens: &mut S::Input,
        ends: Ends,
        word: Mark,
    ) -> Result<Vec<S::Stmt>, Refusal>
        requires { Nests S.Input.place S.stmt S.functions self.now.depth F.pre F.post
            self.now.nested }
        ensures { Parses S.Input.place (λ v. map S.stmt v.items) (form.closed_body
            (parts_at S.functions (context_of self.now.context) self.now.depth) (ends_view ends)
            (mark_tok word)) tokens.old result tokens.new }
    {
        tokens.expect(Mark::BlockEnd)?;
        let body = self.body(tokens, ends)?;
        tokens.end_word(word, self.context.open)?;
        Ok(body)
    }

    /// An else body, if there is one, and the word that ends the statement.
    #[tactic(auto, using(minijinja_parser_tokens::proofs::Turned::behind_is), unfolding(minijinja_grammar::specs::internal::Forms::reads, minijinja_grammar::specs::internal::StmtForms::else_body))]
    pub(super) fn else_body(
        &self,
        tokens: &mut S::Input,
        ends: Ends,
        word: Mark,
    ) -> Result<Vec<S::Stmt>, Refusal>
        requires { Nests S.Input.place S.stmt S.functions self.now.depth F.pre F.post
            self.now.nested }
        ensures { Parses S.Input.place (λ v. map S.stmt v.items) (form.else_body
            (parts_at S.functions (context_of self.now.context) self.now.depth) (ends_view ends)
            (mark_tok word)) tokens.old result tokens.new }
    {
        if tokens.eat(Mark::Else)? {
            return self.closed_body(tokens, ends, word);
        }
        tokens.end_word(word, self.context.open)?;
        Ok(Vec::new(self.builder.alloc()))
    }
}
