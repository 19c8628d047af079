//! The rules of targets, which are assigned to: names, attributes and lists of targets.
ghost use Rattle.std.specs.Prelude.{◌≡◌, ◌∷◌, [], is_some, map};
ghost use Rattle.minijinja_syntax.specs.Tokens.{comma};
ghost use Rattle.minijinja_grammar.specs.internal.Forms.{many, one};
ghost use Rattle.minijinja_grammar.specs.internal.ExprForms.{span_of_mark};
ghost use Rattle.minijinja_grammar.specs.internal.TargetForms as form;
ghost use Rattle.minijinja_parser_stmt.specs.private.Parses.{Parses};
ghost use Rattle.minijinja_parser_stmt.specs.private.Targets.{is_no_target};

use crate::builder::{StmtBuilder, Target};
use minijinja_parser_tokens::forms::IdentForm;
use minijinja_parser_tokens::marks::{Mark, Part};
use minijinja_parser_tokens::refusal::{Refusal, Wanted};
use minijinja_parser_tokens::tokens::Tokens;
use minijinja_parser_tokens::words::is_reserved;
use minijinja_syntax::error::Expected;
use minijinja_syntax::tokens::Span;

/// What is wanted in the place of a name that cannot be assigned to.
fn wanted_for(name: &str) -> Option<Wanted>
    ensures { is_some result ≡ is_no_target name.now }
{
    if name == "in" {
        return Some(Wanted::Part(Expected::Identifier));
    }
    if is_reserved(name) {
        return Some(Wanted::Target);
    }
    None
}

/// A name that may be assigned to.
#[tactic(auto, using(crate::proofs::Names::word_is))]
fn assignable<S: StmtBuilder>(builder: S, tokens: &mut S::Input) -> Result<(S::Name, Span), Refusal>
    ensures { Parses S.Input.place (λ t. (S.text t.0, t.1)) (one form.target_word) tokens.old result
        tokens.new }
{
    let wanted = Wanted::Part(Expected::Identifier);
    let (name, span) = builder.ident(tokens, IdentForm::Any, wanted)?;
    if let Some(wanted) = wanted_for(S::letters(&name)) {
        return Err(Refusal::Wrong(wanted));
    }
    Ok((name, span))
}

/// A name that is not reserved.
#[tactic(auto, using(crate::proofs::Names::name_is))]
pub(super) fn name<S: StmtBuilder>(
    builder: S,
    tokens: &mut S::Input,
) -> Result<(S::Name, Span), Refusal>
    ensures { Parses S.Input.place (λ t. (S.text t.0, t.1)) (one form.name_word) tokens.old result
        tokens.new }
{
    let wanted = Wanted::Part(Expected::Identifier);
    let (name, span) = builder.ident(tokens, IdentForm::Any, wanted)?;
    if is_reserved(S::letters(&name)) {
        return Err(Refusal::Wrong(Wanted::Target));
    }
    Ok((name, span))
}

/// A target that is one name, which may be `in`.
#[tactic(auto, unfolding(minijinja_grammar::specs::internal::Forms::reads, minijinja_grammar::specs::internal::TargetForms::stored_name))]
pub(super) fn stored_name<S: StmtBuilder>(
    builder: S,
    tokens: &mut S::Input,
) -> Result<S::Expr, Refusal>
    ensures { Parses S.Input.place S.tree form.stored_name tokens.old result tokens.new }
{
    let (name, span) = name(builder, tokens)?;
    Ok(builder.target(Target::Name(name), span)?)
}

/// The attributes after a target.
#[tactic(auto, using(crate::proofs::Names::attributes_is))]
fn attributes<S: StmtBuilder>(
    builder: S,
    tokens: &mut S::Input,
    target: S::Expr,
) -> Result<S::Expr, Refusal>
    ensures { Parses S.Input.place S.tree (form.attributes (S.tree target)) tokens.old result
        tokens.new }
{
    let mut target = target;
    while tokens.eat(Mark::Dot)? {
        let (name, span) = builder.ident(
            tokens,
            IdentForm::Any,
            Wanted::Part(Expected::Identifier),
        )?;
        target = builder.target(Target::Attribute(target, name), span)?;
    }
    Ok(target)
}

/// A name, and attributes after it where dots may follow.
#[tactic(auto, unfolding(minijinja_grammar::specs::internal::Forms::reads, minijinja_grammar::specs::internal::TargetForms::named_target))]
fn named_target<S: StmtBuilder>(
    builder: S,
    tokens: &mut S::Input,
    dotted: bool,
) -> Result<S::Expr, Refusal>
    ensures { Parses S.Input.place S.tree (form.named_target dotted) tokens.old result tokens.new }
{
    let (name, span) = assignable(builder, tokens)?;
    let target = builder.target(Target::Name(name), span)?;
    if !dotted {
        return Ok(target);
    }
    attributes(builder, tokens, target)
}

/// A target: targets in parentheses, or a name.
#[tactic(auto, using(crate::proofs::Targets::target_is, crate::proofs::Targets::nested_is))]
#[cycle(targets)]
fn target<S: StmtBuilder>(
    builder: S,
    tokens: &mut S::Input,
    dotted: bool,
    depth: usize,
) -> Result<S::Expr, Refusal>
    ensures { Parses S.Input.place S.tree (form.target_in dotted depth) tokens.old result
        tokens.new }
{
    if !tokens.eat(Mark::ParenOpen)? {
        return named_target(builder, tokens, dotted);
    }
    if depth == 0 {
        return Err(Refusal::Wrong(Wanted::Flatter));
    }
    let targets = any_targets(builder, tokens, dotted, depth - 1)?;
    tokens.expect(Mark::ParenClose)?;
    Ok(targets)
}

/// The targets after a first one, each after a comma.
#[cycle(targets)]
fn further_targets<S: StmtBuilder>(
    builder: S,
    tokens: &mut S::Input,
    dotted: bool,
    depth: usize,
    first: S::Expr,
) -> Result<Vec<S::Expr>, Refusal>
    ensures { Parses S.Input.place (λ v. map S.tree v.items) (many (span_of_mark comma)
        (form.next_target (form.target_in dotted depth)) (S.tree first ∷ [])) tokens.old result
        tokens.new }
{
    let mut targets = Vec::new(builder.alloc());
    targets.push(first)?;
    while tokens.eat(Mark::Comma)? {
        if tokens.begins(Part::TargetsEnd) {
            return Ok(targets);
        }
        targets.push(target(builder, tokens, dotted, depth)?)?;
    }
    Ok(targets)
}

/// Targets up to what ends them: one without a comma is itself, otherwise they are a list.
/// Parentheses nest `depth` deep at most.
#[tactic(auto, unfolding(minijinja_grammar::specs::internal::Forms::reads, minijinja_grammar::specs::internal::TargetForms::any_targets, minijinja_grammar::specs::internal::TargetForms::targets))]
#[cycle(targets)]
pub(super) fn any_targets<S: StmtBuilder>(
    builder: S,
    tokens: &mut S::Input,
    dotted: bool,
    depth: usize,
) -> Result<S::Expr, Refusal>
    ensures { Parses S.Input.place S.tree (form.any_targets dotted depth) tokens.old result
        tokens.new }
{
    let from = tokens.current_span();
    let mut items = Vec::new(builder.alloc());
    if !tokens.begins(Part::TargetsEnd) {
        let first = target(builder, tokens, dotted, depth)?;
        if !tokens.at(Mark::Comma) {
            return Ok(first);
        }
        items = further_targets(builder, tokens, dotted, depth, first)?;
    }
    let span = tokens.expand_span(from);
    Ok(builder.target(Target::List(items), span)?)
}
