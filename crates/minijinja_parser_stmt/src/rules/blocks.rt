//! The rules of `block`.
ghost use Rattle.std.specs.Prelude.{◌≡◌, not, map};
ghost use Rattle.std.specs.Option.{option_map};
ghost use Rattle.minijinja_grammar.specs.internal.ExprForms.{when};
ghost use Rattle.minijinja_grammar.specs.internal.StmtForms as form;
ghost use Rattle.minijinja_grammar.specs.Statements as statements;
ghost use Rattle.minijinja_grammar.specs.internal.StmtForms.{parts_at};
ghost use Rattle.minijinja_parser_tokens.specs.internal.Reads.{Reads};
ghost use Rattle.minijinja_parser_stmt.specs.private.Blanks.{blank_piece};
ghost use Rattle.minijinja_parser_stmt.specs.private.Blocks.{block_end, block_head};
ghost use Rattle.minijinja_parser_stmt.specs.private.Parses.{Nests, Parses, context_of};

use crate::builder::{Kind, Opening, StmtBuilder, of_kind};
use crate::rules::{Context, Nested, StmtRules};
use minijinja_parser_tokens::forms::IdentForm;
use minijinja_parser_tokens::marks::{Ends, Mark, Part};
use minijinja_parser_tokens::refusal::{Refusal, Wanted};
use minijinja_parser_tokens::tokens::Tokens;
use minijinja_syntax::error::{Expected, OpenStatement};
use minijinja_syntax::tokens::Span;
use std::marker::PhantomData;

/// Whether the text is whitespace alone.
fn is_blank(text: &str) -> bool
    ensures { result ≡ statements.is_blank text.now }
{
    text.trim().is_empty()
}

/// The token, if it is whitespace outside of tags, or `None` if it begins a tag.
fn blank_part<S: StmtBuilder>(
    builder: S,
    tokens: &S::Input,
    token: &<S::Input as Tokens>::Token,
    span: Span,
) -> Result<Option<S::Stmt>, Refusal>
    ensures { Reads (option_map S.stmt) (blank_piece (S.Input.tok token.now, span)
        (S.Input.place tokens.now)) result (S.Input.place tokens.now) }
{
    match S::opening(token) {
        Some(Opening::Data(raw)) => {
            if !is_blank(S::letters(&raw)) {
                return Err(tokens.misfit(Wanted::Blank));
            }
            Ok(Some(builder.data(raw, span)?))
        }
        Some(Opening::Output) => Err(tokens.misfit(Wanted::Blank)),
        Some(Opening::Statement) => Ok(None),
        None => Err(tokens.misfit(Wanted::Blank)),
    }
}

/// Text that is whitespace, up to the start of the next tag.
#[tactic(auto, using(crate::proofs::Blanks::blank_is, crate::proofs::Blanks::blank_more, crate::proofs::Blanks::blank_done, minijinja_parser_tokens::proofs::Turned::take_shorter))]
fn blank_body<S: StmtBuilder>(builder: S, tokens: &mut S::Input) -> Result<Vec<S::Stmt>, Refusal>
    ensures { Parses S.Input.place (λ v. map S.stmt v.items) form.blank_body tokens.old result
        tokens.new }
{
    let mut parts = Vec::new(builder.alloc());
    while tokens.begins(Part::Any) {
        let (token, span) = tokens.take(Wanted::Blank)?;
        match blank_part(builder, tokens, &token, span)? {
            Some(part) => parts.push(part)?,
            None => return Ok(parts),
        }
    }
    Ok(parts)
}

/// The name of a block, and whether the block is required.
#[tactic(auto, using(crate::proofs::Blocks::head_is))]
fn block_head<S: StmtBuilder>(builder: S, tokens: &mut S::Input) -> Result<(S::Name, bool), Refusal>
    ensures { Parses S.Input.place (λ h. (S.text h.0, h.1)) block_head tokens.old result
        tokens.new }
{
    let wanted = Wanted::Part(Expected::Identifier);
    let (name, _) = builder.ident(tokens, IdentForm::New, wanted)?;
    tokens.eat(Mark::Scoped)?;
    let required = tokens.eat(Mark::Required)?;
    Ok((name, required))
}

/// The name after `endblock`, if there is one: it has to be the name of the block.
#[tactic(auto, using(crate::proofs::Blocks::end_name_is))]
fn end_name<S: StmtBuilder>(builder: S, tokens: &mut S::Input, name: S::Name) -> Result<(), Refusal>
    ensures { Parses S.Input.place (λ _. tt) (form.end_name (S.text name)) tokens.old result
        tokens.new }
{
    if !tokens.begins(Part::Name) {
        return Ok(());
    }
    let wanted = Wanted::Part(Expected::Identifier);
    let (end, _) = builder.ident(tokens, IdentForm::Any, wanted)?;
    if S::letters(&end) != S::letters(&name) {
        return Err(Refusal::Wrong(Wanted::BlockName));
    }
    Ok(())
}

/// The word that ends a block, and the name after it, if a name is there.
#[tactic(auto, unfolding(minijinja_grammar::specs::internal::Forms::reads))]
fn end_of_block<S: StmtBuilder>(
    builder: S,
    tokens: &mut S::Input,
    name: S::Name,
    open: Option<OpenStatement>,
) -> Result<(), Refusal>
    ensures { Parses S.Input.place (λ _. tt) (block_end (S.text name)) tokens.old result
        tokens.new }
{
    tokens.end_word(Mark::EndBlock, open)?;
    end_name(builder, tokens, name)
}

impl<
    S: StmtBuilder,
    F: Copy
        + for<'x> Fn(
            S,
            &'x mut S::Input,
            PhantomData<S::Stmt>,
            Context,
            Nested,
            usize,
        ) -> Result<S::Stmt, Refusal>,
> StmtRules<S, F> {
    /// The end of a tag, and the body of a block, which is blank if the block is required.
    #[tactic(auto, unfolding(minijinja_grammar::specs::internal::Forms::reads, minijinja_grammar::specs::internal::StmtForms::block_body))]
    fn block_body(&self, tokens: &mut S::Input, required: bool) -> Result<Vec<S::Stmt>, Refusal>
        requires { Nests S.Input.place S.stmt S.functions self.now.depth F.pre F.post
            self.now.nested }
        ensures { Parses S.Input.place (λ v. map S.stmt v.items) (form.block_body
            (parts_at S.functions (context_of self.now.context) self.now.depth) required) tokens.old
            result tokens.new }
    {
        tokens.expect(Mark::BlockEnd)?;
        if required {
            return blank_body(self.builder, tokens);
        }
        let inner = StmtRules {
            builder: self.builder,
            context: Context {
                in_loop: false,
                ..self.context
            },
            depth: self.depth,
            nested: self.nested,
        };
        inner.body(tokens, Ends::EndBlock)
    }

    /// A block that stands in no macro, after its word.
    #[tactic(auto, using(crate::proofs::Blocks::block_is), unfolding(crate::specs::internal::Made::HasParts, crate::specs::internal::Made::statement_tree))]
    fn named_block(&self, tokens: &mut S::Input, from: Span) -> Result<S::Stmt, Refusal>
        requires { Nests S.Input.place S.stmt S.functions self.now.depth F.pre F.post
            self.now.nested }
        ensures { Parses S.Input.place S.stmt (form.block_stmt (parts_at S.functions
            (context_of self.now.context) self.now.depth) from) tokens.old result tokens.new }
    {
        let (name, required) = block_head(self.builder, tokens)?;
        let body = self.block_body(tokens, required)?;
        end_of_block(self.builder, tokens, name, self.context.open)?;
        let span = tokens.expand_span(from);
        let mut parts = of_kind(self.builder.alloc(), Kind::Block);
        parts.name = Some(name);
        parts.required = required;
        parts.body = body;
        Ok(self.builder.statement(parts, span)?)
    }

    /// `block`, after its word.
    #[tactic(auto, unfolding(minijinja_grammar::specs::internal::Forms::reads))]
    pub(super) fn block_stmt(&self, tokens: &mut S::Input, from: Span) -> Result<S::Stmt, Refusal>
        requires { Nests S.Input.place S.stmt S.functions self.now.depth F.pre F.post
            self.now.nested }
        ensures { Parses S.Input.place S.stmt (when (not self.now.context.in_macro)
            (form.block_stmt (parts_at S.functions (context_of self.now.context) self.now.depth)
            from)) tokens.old result tokens.new }
    {
        if self.context.in_macro {
            return Err(tokens.misfit(Wanted::NoBlock));
        }
        self.named_block(tokens, from)
    }
}
