//! Reads names, constants and other parts in which no expression is nested.
ghost use Rattle.std.specs.Prelude.{◌≡◌, IfOk, false, if◌then◌else◌, true};
ghost use Rattle.std.specs.String.{string_bytes};
ghost use Rattle.minijinja_syntax.specs.Positions.{slice};
ghost use Rattle.minijinja_syntax.specs.Tokens.{tok_of};
ghost use Rattle.minijinja_lexer.specs.Slices.{IsBetweenChars};
ghost use Rattle.minijinja_grammar.specs.Words as words;
ghost use Rattle.minijinja_grammar.specs.internal.Forms.{reads};
ghost use Rattle.minijinja_grammar.specs.internal.ExprForms as form;
ghost use Rattle.minijinja_parser_tokens.specs.internal.Reads.{Reads};
ghost use Rattle.minijinja_parser_expr.specs.private.Primaries as primaries;
ghost use Rattle.minijinja_parser_expr.specs.private.Texts.{Joins};
ghost use Rattle.minijinja_parser_expr.specs.private.Turns.{item_at};
ghost use Rattle.minijinja_tree.specs.SpannedErasure.{expr_node};
ghost use Rattle.minijinja_tree.specs.SpannedTrees as tree;

use minijinja_nodes::expr_nodes;
use minijinja_parser_tokens::marks::{Mark, Part};
use minijinja_parser_tokens::refusal::{Refusal, Wanted};
use minijinja_parser_tokens::token_stream::TokenStream;
use minijinja_parser_tokens::tokens::{Tokens, ident};
use minijinja_parser_tokens::words::{is_false_word, is_none_word, is_true_word};
use minijinja_syntax::error::Expected;
use minijinja_syntax::tokens::{Span, Token};
use minijinja_tree::ast::Expr;
use minijinja_value::value::TemplateValue;
use std::alloc::{AllocError, Global};

/// Makes the constant of a word that stands for one: true, false, or else none.
#[inline(never)]
fn constant_word<'s, V: TemplateValue>(
    alloc: Global,
    word: &str,
    span: Span,
) -> Result<Expr<'s, V>, AllocError>
    ensures { IfOk result (λ e. expr_node V.contents e ≡ tree.constant
        (if words.is_true_word word.now then V.functions.of_bool true
        else if words.is_false_word word.now then V.functions.of_bool false
        else V.functions.none) span) }
{
    let value = if is_true_word(word) {
        V::of_bool(true)
    } else if is_false_word(word) {
        V::of_bool(false)
    } else {
        V::none()
    };
    expr_nodes::constant(alloc, value, span)
}

/// Makes the constant or the variable that a word stands for.
#[tactic(auto, unfolding(minijinja_grammar::specs::internal::ExprForms::word))]
pub fn word<'s, V: TemplateValue>(
    alloc: Global,
    word: &'s str,
    span: Span,
) -> Result<Expr<'s, V>, AllocError>
    ensures { IfOk result (λ e. expr_node V.contents e ≡ form.word V.functions word.now span) }
{
    if is_true_word(word) || is_false_word(word) || is_none_word(word) {
        return constant_word(alloc, word, span);
    }
    expr_nodes::variable(alloc, word, span)
}

/// Reads a number or a text.
#[tactic(auto, using(crate::proofs::Primaries::literal_is))]
#[inline(never)]
pub fn literal<'s, V: TemplateValue>(
    alloc: Global,
    tokens: &mut TokenStream<'s, '_>,
) -> Result<Expr<'s, V>, Refusal>
    ensures { Reads (expr_node V.contents) (reads (primaries.literal V.functions) tokens.old.place)
        result
        tokens.new.place }
{
    if let Some(value) = tokens.int_in_view() {
        let from = tokens.skip(Wanted::Part(Expected::Expression))?;
        return Ok(expr_nodes::constant(alloc, V::of_u64(value), from)?);
    }
    if let Some(plain) = tokens.str_in_view() {
        let from = tokens.skip(Wanted::Part(Expected::Expression))?;
        return text(alloc, tokens, plain, from);
    }
    let (token, from) = tokens.take(Wanted::Part(Expected::Expression))?;
    match token {
        Token::String(decoded) => joined_text(alloc, tokens, decoded, from),
        Token::Int128(value) => {
            let value = V::of_u128(alloc, *value)?;
            Ok(expr_nodes::constant(alloc, value, from)?)
        }
        _ => Err(Refusal::Wrong(Wanted::Part(Expected::Expression))),
    }
}

/// Reads the number of an item, after its operand and the `.` behind that.
#[inline(never)]
pub fn numbered<'s, V: TemplateValue>(
    alloc: Global,
    tokens: &mut TokenStream<'s, '_>,
    expr: Expr<'s, V>,
    from: Span,
) -> Result<Expr<'s, V>, Refusal>
    ensures { Reads (expr_node V.contents) (item_at V.functions (expr_node V.contents expr.entry)
        from tokens.old.place) result tokens.new.place }
{
    let (token, at) = tokens.take(Wanted::Part(Expected::Identifier))?;
    let index = match token {
        Token::Int(value) => V::of_u64(value),
        Token::Int128(value) => V::of_u128(alloc, *value)?,
        _ => return Err(Refusal::Wrong(Wanted::Part(Expected::Identifier))),
    };
    let index = expr_nodes::constant(alloc, index, at)?;
    Ok(expr_nodes::item(alloc, expr, index, tokens.expand_span(from))?)
}

/// Makes the constant of a text.
fn constant_text<'s, V: TemplateValue>(
    alloc: Global,
    text: &str,
    span: Span,
) -> Result<Expr<'s, V>, AllocError>
    ensures { IfOk result
        (λ e. expr_node V.contents e ≡ tree.constant (V.functions.of_str text.now) span) }
{
    expr_nodes::constant(alloc, V::of_str(alloc, text)?, span)
}

/// Reads the strings after a string without escapes, and joins them to it.
#[tactic(auto, using(crate::proofs::Strings::texts_done))]
pub fn text<'s, V: TemplateValue>(
    alloc: Global,
    tokens: &mut TokenStream<'s, '_>,
    text: &'s str,
    from: Span,
) -> Result<Expr<'s, V>, Refusal>
    ensures { Reads (expr_node V.contents) (reads (form.texts V.functions from text.now)
        tokens.old.place)
        result tokens.new.place }
{
    if !tokens.begins(Part::Text) {
        return Ok(constant_text(alloc, text, tokens.expand_span(from))?);
    }
    let mut joined = String::new(alloc);
    joined.push_str(text)?;
    joined_text(alloc, tokens, joined, from)
}

/// Reads the strings after a decoded string, and joins them to it.
#[tactic(auto, using(crate::proofs::Strings::texts_done, crate::proofs::Strings::texts_more, minijinja_parser_tokens::proofs::Turned::take_shorter))]
pub fn joined_text<'s, V: TemplateValue>(
    alloc: Global,
    tokens: &mut TokenStream<'s, '_>,
    text: String,
    from: Span,
) -> Result<Expr<'s, V>, Refusal>
    ensures { Reads (expr_node V.contents)
        (reads (form.texts V.functions from (string_bytes text)) tokens.old.place) result
        tokens.new.place }
{
    let mut joined = text;
    while tokens.begins(Part::Text) {
        let (token, _) = tokens.take(Wanted::Part(Expected::String))?;
        push_text(&mut joined, &token)?;
    }
    Ok(constant_text(alloc, joined.as_str(), tokens.expand_span(from))?)
}

/// Adds the text of a string.
fn push_text(joined: &mut String, token: &Token<'_>) -> Result<(), AllocError>
    ensures { IfOk result
        (λ _. Joins (tok_of token.now) (string_bytes joined.old) (string_bytes joined.new)) }
{
    match token {
        Token::Str(text) => joined.push_str(text)?,
        Token::String(text) => joined.push_str(text.as_str())?,
        _ => {}
    }
    Ok(())
}

/// Reads the parts of a name after the first one, and returns the span of the last part.
#[tactic(auto, using(crate::proofs::Names::parts_done, crate::proofs::Names::parts_more, crate::proofs::Names::still_between, minijinja_parser_tokens::proofs::Turned::next_shorter, minijinja_parser_tokens::proofs::Turned::read_no_longer))]
pub fn name_parts(tokens: &mut TokenStream<'_, '_>, first: Span) -> Result<Span, Refusal>
    requires { IsBetweenChars tokens.old.place.source first }
    ensures read { Reads (λ s. s) (reads (form.name_parts first) tokens.old.place) result
        tokens.new.place }
    ensures between { IfOk result (IsBetweenChars tokens.new.place.source) }
{
    let mut last = first;
    while tokens.at(Mark::Dot) {
        tokens.expect(Mark::Dot)?;
        let (_, part) = ident(tokens, Wanted::Part(Expected::Identifier))?;
        last = part;
    }
    Ok(last)
}

/// The source, from the start of a span to the end of another.
pub fn source_between<'s>(source: &'s str, first: Span, last: Span) -> &'s str
    requires first { IsBetweenChars source.now first }
    requires last { IsBetweenChars source.now last }
    ensures { result.now ≡ slice source.now first.start_offset last.end_offset }
{
    let start = first.start_offset as usize;
    // The last part never ends before the first begins, but a slice needs a bound that shows it.
    let end = start.max(last.end_offset as usize);
    &source[start..end]
}
