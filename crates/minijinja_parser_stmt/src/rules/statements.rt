//! The rules of templates, of statements by their first word, and of `do`, `break` and `continue`.
ghost use Rattle.minijinja_grammar.specs.internal.ExprForms.{expr_at};
ghost use Rattle.minijinja_grammar.specs.internal.StmtForms as form;
ghost use Rattle.minijinja_grammar.specs.internal.StmtForms.{parts_at, stmt_level};
ghost use Rattle.minijinja_grammar.specs.internal.TemplateForms.{template_at};
ghost use Rattle.minijinja_parser_tokens.specs.internal.Marks.{keyword_view};
ghost use Rattle.minijinja_parser_stmt.specs.private.Parses.{Nests, Parses, context_of, nested_at};

use crate::builder::{Kind, StmtBuilder, of_kind};
use crate::rules::modules::{extends_stmt, from_stmt, import_stmt, include_stmt};
use crate::rules::{Context, Nested, StmtRules};
use minijinja_parser_tokens::forms::ExprForm;
use minijinja_parser_tokens::marks::Ends;
use minijinja_parser_tokens::refusal::{Refusal, Wanted};
use minijinja_parser_tokens::tokens::Tokens;
use minijinja_parser_tokens::words::{Keyword, opened};
use minijinja_syntax::tokens::Span;
use std::marker::PhantomData;

/// A template, in which statements and expressions nest `depth` deep at most.
#[tactic(auto, unfolding(crate::specs::internal::Made::HasParts, crate::specs::internal::Made::statement_tree, minijinja_grammar::specs::internal::Forms::reads, minijinja_grammar::specs::internal::TemplateForms::template_at))]
pub fn template<S: StmtBuilder>(
    builder: S,
    tokens: &mut S::Input,
    depth: usize,
) -> Result<S::Stmt, Refusal>
    ensures { Parses S.Input.place S.stmt (template_at S.functions depth) tokens.old result
        tokens.new }
{
    let rules = StmtRules {
        builder,
        context: Context {
            in_loop: false,
            in_macro: false,
            open: None,
        },
        depth,
        nested: nested::<S>,
    };
    let from = tokens.last_span();
    let children = rules.body(tokens, Ends::Text)?;
    let span = tokens.expand_span(from);
    let mut parts = of_kind(builder.alloc(), Kind::Template);
    parts.body = children;
    Ok(builder.statement(parts, span)?)
}

/// What nests in a statement, in which statements and expressions nest `depth` deep at most. The
/// parameter `made` has the type of the result, so that the rules can take this function as their
/// parser of what nests.
#[tactic(auto, unfolding(minijinja_grammar::specs::internal::Forms::reads, minijinja_grammar::specs::internal::StmtForms::within))]
pub fn nested<S: StmtBuilder>(
    builder: S,
    tokens: &mut S::Input,
    made: PhantomData<S::Stmt>,
    context: Context,
    part: Nested,
    depth: usize,
) -> Result<S::Stmt, Refusal>
    ensures { Parses S.Input.place S.stmt (nested_at S.functions (context_of context) part depth
        (S.Input.place tokens.old).last) tokens.old result tokens.new }
{
    if depth == 0 {
        return Err(tokens.misfit(Wanted::Flatter));
    }
    let rules = StmtRules {
        builder,
        context,
        depth: depth - 1,
        nested: nested::<S>,
    };
    match part {
        Nested::Statement => rules.any_stmt(tokens),
        Nested::ElseIf => rules.if_stmt(tokens, tokens.last_span()),
    }
}

/// `do`, after its word.
#[tactic(auto, using(crate::proofs::Calls::do_is), unfolding(crate::specs::internal::Made::HasParts, crate::specs::internal::Made::statement_tree))]
fn do_stmt<S: StmtBuilder>(
    builder: S,
    tokens: &mut S::Input,
    depth: usize,
    from: Span,
) -> Result<S::Stmt, Refusal>
    ensures { Parses S.Input.place S.stmt (form.do_stmt (expr_at S.functions depth) from) tokens.old
        result tokens.new }
{
    let expr = builder.expr(tokens, ExprForm::Call, depth)?;
    let span = tokens.expand_span(from);
    let mut parts = of_kind(builder.alloc(), Kind::Do);
    parts.expr = Some(expr);
    Ok(builder.statement(parts, span)?)
}

/// `break`, after its word.
#[tactic(auto, unfolding(crate::specs::internal::Made::HasParts, crate::specs::internal::Made::statement_tree, minijinja_grammar::specs::internal::Forms::reads, minijinja_grammar::specs::internal::StmtForms::break_stmt))]
fn break_stmt<S: StmtBuilder>(
    builder: S,
    tokens: &mut S::Input,
    context: Context,
    from: Span,
) -> Result<S::Stmt, Refusal>
    ensures { Parses S.Input.place S.stmt (form.break_stmt (context_of context) from) tokens.old
        result tokens.new }
{
    if !context.in_loop {
        return Err(tokens.misfit(Wanted::Loop));
    }
    let span = tokens.expand_span(from);
    let parts = of_kind(builder.alloc(), Kind::Break);
    Ok(builder.statement(parts, span)?)
}

/// `continue`, after its word.
#[tactic(auto, unfolding(crate::specs::internal::Made::HasParts, crate::specs::internal::Made::statement_tree, minijinja_grammar::specs::internal::Forms::reads, minijinja_grammar::specs::internal::StmtForms::continue_stmt))]
fn continue_stmt<S: StmtBuilder>(
    builder: S,
    tokens: &mut S::Input,
    context: Context,
    from: Span,
) -> Result<S::Stmt, Refusal>
    ensures { Parses S.Input.place S.stmt (form.continue_stmt (context_of context) from) tokens.old
        result tokens.new }
{
    if !context.in_loop {
        return Err(tokens.misfit(Wanted::Loop));
    }
    let span = tokens.expand_span(from);
    let parts = of_kind(builder.alloc(), Kind::Continue);
    Ok(builder.statement(parts, span)?)
}

impl<
    S: StmtBuilder,
    F: Copy
        + for<'x> Fn(
            S,
            &'x mut S::Input,
            PhantomData<S::Stmt>,
            Context,
            Nested,
            usize,
        ) -> Result<S::Stmt, Refusal>,
> StmtRules<S, F> {
    /// A statement, from its first word on.
    #[tactic(auto, unfolding(minijinja_grammar::specs::internal::Forms::reads, minijinja_grammar::specs::internal::StmtForms::stmt_level))]
    fn any_stmt(&self, tokens: &mut S::Input) -> Result<S::Stmt, Refusal>
        requires { Nests S.Input.place S.stmt S.functions self.now.depth F.pre F.post
            self.now.nested }
        ensures { Parses S.Input.place S.stmt (stmt_level (context_of self.now.context) (parts_at
            S.functions (context_of self.now.context) self.now.depth)) tokens.old result
            tokens.new }
    {
        let (keyword, from) = tokens.keyword(self.context.open)?;
        let rules = StmtRules {
            context: Context {
                open: opened(keyword, from.start_line),
                ..self.context
            },
            ..*self
        };
        rules.stmt_of(tokens, keyword, from)
    }

    /// The statement of a word, after it.
    fn stmt_of(
        &self,
        tokens: &mut S::Input,
        keyword: Keyword,
        from: Span,
    ) -> Result<S::Stmt, Refusal>
        requires { Nests S.Input.place S.stmt S.functions self.now.depth F.pre F.post
            self.now.nested }
        ensures { Parses S.Input.place S.stmt (form.stmt_of (context_of self.now.context)
            (parts_at S.functions (context_of self.now.context) self.now.depth)
            (keyword_view keyword, from)) tokens.old result tokens.new }
    {
        match keyword {
            Keyword::For => self.for_stmt(tokens, from),
            Keyword::If => self.if_stmt(tokens, from),
            Keyword::With => self.with_stmt(tokens, from),
            Keyword::Set => self.set_stmt(tokens, from),
            Keyword::AutoEscape => self.autoescape_stmt(tokens, from),
            Keyword::Filter => self.filter_stmt(tokens, from),
            Keyword::Block => self.block_stmt(tokens, from),
            Keyword::Extends => extends_stmt(self.builder, tokens, self.depth, from),
            Keyword::Include => include_stmt(self.builder, tokens, self.depth, from),
            Keyword::Import => import_stmt(self.builder, tokens, self.depth, from),
            Keyword::From => from_stmt(self.builder, tokens, self.depth, from),
            Keyword::Macro => self.macro_stmt(tokens, from),
            Keyword::Call => self.call_stmt(tokens, from),
            Keyword::Do => do_stmt(self.builder, tokens, self.depth, from),
            Keyword::Break => break_stmt(self.builder, tokens, self.context, from),
            Keyword::Continue => continue_stmt(self.builder, tokens, self.context, from),
        }
    }
}
