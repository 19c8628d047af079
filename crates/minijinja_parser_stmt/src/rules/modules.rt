//! The rules of statements on other templates: `extends`, `include`, `import` and `from`.
ghost use Rattle.std.specs.Prelude.{map};
ghost use Rattle.minijinja_grammar.specs.internal.Forms.{one};
ghost use Rattle.minijinja_grammar.specs.internal.ExprForms.{expr_at};
ghost use Rattle.minijinja_grammar.specs.internal.StmtForms as form;
ghost use Rattle.minijinja_parser_stmt.specs.internal.Made.{name_of};
ghost use Rattle.minijinja_parser_stmt.specs.private.Modules.{ignored_if_any};
ghost use Rattle.minijinja_parser_stmt.specs.private.Parses.{Parses};

use crate::builder::{Kind, StmtBuilder, Target, of_kind};
use crate::rules::targets::{name, stored_name};
use minijinja_parser_tokens::forms::ExprForm;
use minijinja_parser_tokens::marks::{Mark, Part};
use minijinja_parser_tokens::refusal::{Refusal, Wanted};
use minijinja_parser_tokens::tokens::Tokens;
use minijinja_syntax::error::Expected;
use minijinja_syntax::tokens::Span;

/// Takes `with context` or `without context`, if it comes, and returns whether it did.
#[tactic(auto, unfolding(minijinja_grammar::specs::internal::Forms::reads, minijinja_grammar::specs::internal::StmtForms::context_if_any))]
fn context_if_any<S: StmtBuilder>(tokens: &mut S::Input) -> Result<bool, Refusal>
    ensures { Parses S.Input.place (λ b. b) form.context_if_any tokens.old result tokens.new }
{
    if !tokens.begins(Part::Context) {
        return Ok(false);
    }
    tokens.take(Wanted::Part(Expected::BlockKeyword))?;
    tokens.expect(Mark::Context)?;
    Ok(true)
}

/// `extends`, after its word.
#[tactic(auto, unfolding(crate::specs::internal::Made::HasParts, crate::specs::internal::Made::statement_tree, minijinja_grammar::specs::internal::Forms::reads, minijinja_grammar::specs::internal::StmtForms::extends_stmt))]
pub(super) fn extends_stmt<S: StmtBuilder>(
    builder: S,
    tokens: &mut S::Input,
    depth: usize,
    from: Span,
) -> Result<S::Stmt, Refusal>
    ensures { Parses S.Input.place S.stmt (form.extends_stmt (expr_at S.functions depth) from)
        tokens.old result tokens.new }
{
    let name = builder.expr(tokens, ExprForm::Full, depth)?;
    let span = tokens.expand_span(from);
    let mut parts = of_kind(builder.alloc(), Kind::Extends);
    parts.expr = Some(name);
    Ok(builder.statement(parts, span)?)
}

/// Takes `ignore missing`, if it comes, and returns whether it did. A context may follow it, unless
/// one stood before it.
#[tactic(auto, using(minijinja_parser_tokens::proofs::Turned::behind_is), unfolding(minijinja_grammar::specs::internal::Forms::reads))]
fn ignored<S: StmtBuilder>(tokens: &mut S::Input, had_context: bool) -> Result<bool, Refusal>
    ensures { Parses S.Input.place (λ b. b) (ignored_if_any had_context) tokens.old result
        tokens.new }
{
    if !tokens.eat(Mark::Ignore)? {
        return Ok(false);
    }
    tokens.expect(Mark::Missing)?;
    if !had_context {
        context_if_any::<S>(tokens)?;
    }
    Ok(true)
}

/// `include`, after its word.
#[tactic(auto, unfolding(crate::specs::internal::Made::HasParts, crate::specs::internal::Made::statement_tree, minijinja_grammar::specs::internal::Forms::reads, minijinja_grammar::specs::internal::StmtForms::include_stmt))]
pub(super) fn include_stmt<S: StmtBuilder>(
    builder: S,
    tokens: &mut S::Input,
    depth: usize,
    from: Span,
) -> Result<S::Stmt, Refusal>
    ensures { Parses S.Input.place S.stmt (form.include_stmt (expr_at S.functions depth) from)
        tokens.old result tokens.new }
{
    let name = builder.expr(tokens, ExprForm::Full, depth)?;
    let had_context = context_if_any::<S>(tokens)?;
    let ignore_missing = ignored::<S>(tokens, had_context)?;
    let span = tokens.expand_span(from);
    let mut parts = of_kind(builder.alloc(), Kind::Include);
    parts.expr = Some(name);
    parts.ignore_missing = ignore_missing;
    Ok(builder.statement(parts, span)?)
}

/// `import`, after its word.
#[tactic(auto, using(crate::proofs::Imports::import_is), unfolding(crate::specs::internal::Made::HasParts, crate::specs::internal::Made::statement_tree))]
pub(super) fn import_stmt<S: StmtBuilder>(
    builder: S,
    tokens: &mut S::Input,
    depth: usize,
    from: Span,
) -> Result<S::Stmt, Refusal>
    ensures { Parses S.Input.place S.stmt (form.import_stmt (expr_at S.functions depth) from)
        tokens.old result tokens.new }
{
    let name = builder.expr(tokens, ExprForm::Full, depth)?;
    tokens.expect(Mark::As)?;
    let target = builder.expr(tokens, ExprForm::Storable, depth)?;
    context_if_any::<S>(tokens)?;
    let span = tokens.expand_span(from);
    let mut parts = of_kind(builder.alloc(), Kind::Import);
    parts.expr = Some(name);
    parts.target = Some(target);
    Ok(builder.statement(parts, span)?)
}

/// A name that may be imported: one without an underscore at its start.
#[tactic(auto, using(crate::proofs::Names::public_is))]
fn public_name<S: StmtBuilder>(
    builder: S,
    tokens: &mut S::Input,
) -> Result<(S::Name, Span), Refusal>
    ensures { Parses S.Input.place (λ t. (S.text t.0, t.1)) (one form.public_word) tokens.old result
        tokens.new }
{
    let (name, span) = name(builder, tokens)?;
    if S::letters(&name).starts_with("_") {
        return Err(Refusal::Wrong(Wanted::PublicName));
    }
    Ok((name, span))
}

/// A name that is imported, and its alias, if it has one.
#[tactic(auto, using(minijinja_parser_tokens::proofs::Turned::behind_is), unfolding(minijinja_grammar::specs::internal::Forms::reads, minijinja_grammar::specs::internal::StmtForms::imported))]
fn imported<S: StmtBuilder>(
    builder: S,
    tokens: &mut S::Input,
) -> Result<(S::Expr, Option<S::Expr>), Refusal>
    ensures { Parses S.Input.place (name_of S.tree) form.imported tokens.old result tokens.new }
{
    let (name, span) = public_name(builder, tokens)?;
    let name = builder.target(Target::Name(name), span)?;
    if !tokens.eat(Mark::As)? {
        return Ok((name, None));
    }
    Ok((name, Some(stored_name(builder, tokens)?)))
}

/// Names that are imported, with commas between them, and maybe one after the last.
#[tactic(auto, using(crate::proofs::Imports::imports_some, crate::proofs::Imports::imports_none, crate::proofs::Imports::others_is))]
fn imports<S: StmtBuilder>(
    builder: S,
    tokens: &mut S::Input,
) -> Result<Vec<(S::Expr, Option<S::Expr>)>, Refusal>
    ensures { Parses S.Input.place (λ v. map (name_of S.tree) v.items) form.imports tokens.old
        result tokens.new }
{
    let mut names = Vec::new(builder.alloc());
    if tokens.begins(Part::NamesEnd) {
        return Ok(names);
    }
    names.push(imported(builder, tokens)?)?;
    while tokens.eat(Mark::Comma)? {
        if tokens.begins(Part::NamesEnd) {
            return Ok(names);
        }
        names.push(imported(builder, tokens)?)?;
    }
    Ok(names)
}

/// `from`, after its word.
#[tactic(auto, using(crate::proofs::Imports::aliases_are), unfolding(crate::specs::internal::Made::HasParts, crate::specs::internal::Made::statement_tree, minijinja_grammar::specs::internal::Forms::reads, minijinja_grammar::specs::internal::StmtForms::from_stmt))]
pub(super) fn from_stmt<S: StmtBuilder>(
    builder: S,
    tokens: &mut S::Input,
    depth: usize,
    from: Span,
) -> Result<S::Stmt, Refusal>
    ensures { Parses S.Input.place S.stmt (form.from_stmt (expr_at S.functions depth) from)
        tokens.old result tokens.new }
{
    let name = builder.expr(tokens, ExprForm::Full, depth)?;
    tokens.expect(Mark::Import)?;
    let names = imports(builder, tokens)?;
    context_if_any::<S>(tokens)?;
    let span = tokens.expand_span(from);
    let mut parts = of_kind(builder.alloc(), Kind::FromImport);
    parts.expr = Some(name);
    parts.names = names;
    Ok(builder.statement(parts, span)?)
}
