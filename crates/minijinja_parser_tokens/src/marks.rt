//! Which tokens the grammar names, and which parts of the grammar a token begins.
ghost use Rattle.std.specs.Prelude.{◌≡◌};
ghost use Rattle.std.specs.Option.{option_map};
ghost use Rattle.minijinja_syntax.specs.Tokens.{tok_of};
ghost use Rattle.minijinja_tree.specs.Erasure.{compare_op};
ghost use Rattle.minijinja_parser_tokens.specs.internal.Marks.{begins, ends_view, mark_tok};
ghost use Rattle.minijinja_grammar.specs.internal.StmtForms as stmt_forms;
ghost use Rattle.minijinja_grammar.specs.Statements as statements;
ghost use Rattle.minijinja_grammar.specs.Targets as targets;
ghost use Rattle.minijinja_grammar.specs.Words as words;
ghost use Rattle.minijinja_grammar.specs.internal.Keywords as keywords;
ghost use Rattle.minijinja_parser_tokens.specs.declared.marks.Part.TheVariants.{Text as TextPart};

use minijinja_syntax::error::Expected;
use minijinja_syntax::tokens::Token;
use minijinja_tree::ast::CompareOpKind;

/// A word or a mark that the grammar names.
#[derive(Clone, Copy)]
pub enum Mark {
    If,
    Elif,
    Else,
    Recursive,
    As,
    Import,
    Scoped,
    Required,
    Ignore,
    Missing,
    Context,
    EndFor,
    EndIf,
    EndWith,
    EndSet,
    EndAutoEscape,
    EndFilter,
    EndBlock,
    EndMacro,
    EndCall,
    Not,
    In,
    Is,
    Dot,
    Comma,
    Colon,
    Assign,
    Pipe,
    Minus,
    Mul,
    Pow,
    ParenOpen,
    ParenClose,
    BracketOpen,
    BracketClose,
    BraceOpen,
    BraceClose,
    VariableEnd,
    BlockEnd,
}

/// A part of the grammar that a token begins.
#[derive(Clone, Copy)]
pub enum Part {
    /// An expression.
    Expr,
    /// An argument of a call.
    Arg,
    /// An attribute, an item or a call, after an operand: `.`, `[` or `(`.
    Postfix,
    /// A filter or a test, after an operand with all that belongs to it: `|` or `is`.
    Suffix,
    /// A comparison.
    Comparison,
    /// The argument of a test that stands in no parentheses.
    Bare,
    /// A string.
    Text,
    /// Any token.
    Any,
    /// An identifier.
    Name,
    /// `with` or `without`, before `context`.
    Context,
    /// What ends the names that are imported from a template.
    NamesEnd,
    /// What follows the targets of a `set` block.
    SetBlock,
    /// What ends targets.
    TargetsEnd,
    /// What ends a body.
    BodyEnd(Ends),
}

/// The words that a body may end at, after its last `{%`. The body of a template ends with the
/// text.
#[derive(Clone, Copy)]
pub enum Ends {
    Text,
    EndForOrElse,
    EndFor,
    EndIfElseOrElif,
    EndIf,
    EndWith,
    EndSet,
    EndAutoEscape,
    EndFilter,
    EndBlock,
    EndMacro,
    EndCall,
}

/// Whether the token is that word.
pub fn is_word(token: &Token<'_>, word: &str) -> bool
    ensures { result ≡ words.is (keywords.word word.now) (tok_of token.now) }
{
    matches!(token, Token::Ident(name) if *name == word)
}

/// What a refusal calls the mark.
pub fn expected(mark: Mark) -> Expected {
    match mark {
        Mark::If => Expected::If,
        Mark::Elif => Expected::Elif,
        Mark::Else => Expected::Else,
        Mark::Recursive => Expected::Recursive,
        Mark::As => Expected::As,
        Mark::Import => Expected::Import,
        Mark::Scoped => Expected::Scoped,
        Mark::Required => Expected::Required,
        Mark::Ignore => Expected::Ignore,
        Mark::Missing => Expected::Missing,
        Mark::Context => Expected::Context,
        Mark::EndFor => Expected::EndFor,
        Mark::EndIf => Expected::EndIf,
        Mark::EndWith => Expected::EndWith,
        Mark::EndSet => Expected::EndSet,
        Mark::EndAutoEscape => Expected::EndAutoEscape,
        Mark::EndFilter => Expected::EndFilter,
        Mark::EndBlock => Expected::EndBlock,
        Mark::EndMacro => Expected::EndMacro,
        Mark::EndCall => Expected::EndCall,
        Mark::Not => Expected::Not,
        Mark::In => Expected::In,
        Mark::Is => Expected::Is,
        Mark::Dot => Expected::Dot,
        Mark::Comma => Expected::Comma,
        Mark::Colon => Expected::Colon,
        Mark::Assign => Expected::Assign,
        Mark::Pipe => Expected::Pipe,
        Mark::Minus => Expected::Minus,
        Mark::Mul => Expected::Mul,
        Mark::Pow => Expected::Pow,
        Mark::ParenOpen => Expected::ParenOpen,
        Mark::ParenClose => Expected::ParenClose,
        Mark::BracketOpen => Expected::BracketOpen,
        Mark::BracketClose => Expected::BracketClose,
        Mark::BraceOpen => Expected::BraceOpen,
        Mark::BraceClose => Expected::BraceClose,
        Mark::VariableEnd => Expected::VariableEnd,
        Mark::BlockEnd => Expected::BlockEnd,
    }
}

/// Whether the token is the one that the mark names.
pub fn is_mark(token: &Token<'_>, mark: Mark) -> bool
    ensures { result ≡ words.is (mark_tok mark) (tok_of token.now) }
{
    match mark {
        Mark::If => is_word(token, "if"),
        Mark::Elif => is_word(token, "elif"),
        Mark::Else => is_word(token, "else"),
        Mark::Recursive => is_word(token, "recursive"),
        Mark::As => is_word(token, "as"),
        Mark::Import => is_word(token, "import"),
        Mark::Scoped => is_word(token, "scoped"),
        Mark::Required => is_word(token, "required"),
        Mark::Ignore => is_word(token, "ignore"),
        Mark::Missing => is_word(token, "missing"),
        Mark::Context => is_word(token, "context"),
        Mark::EndFor => is_word(token, "endfor"),
        Mark::EndIf => is_word(token, "endif"),
        Mark::EndWith => is_word(token, "endwith"),
        Mark::EndSet => is_word(token, "endset"),
        Mark::EndAutoEscape => is_word(token, "endautoescape"),
        Mark::EndFilter => is_word(token, "endfilter"),
        Mark::EndBlock => is_word(token, "endblock"),
        Mark::EndMacro => is_word(token, "endmacro"),
        Mark::EndCall => is_word(token, "endcall"),
        Mark::Not => is_word(token, "not"),
        Mark::In => is_word(token, "in"),
        Mark::Is => is_word(token, "is"),
        Mark::Dot => matches!(token, Token::Dot),
        Mark::Comma => matches!(token, Token::Comma),
        Mark::Colon => matches!(token, Token::Colon),
        Mark::Assign => matches!(token, Token::Assign),
        Mark::Pipe => matches!(token, Token::Pipe),
        Mark::Minus => matches!(token, Token::Minus),
        Mark::Mul => matches!(token, Token::Mul),
        Mark::Pow => matches!(token, Token::Pow),
        Mark::ParenOpen => matches!(token, Token::ParenOpen),
        Mark::ParenClose => matches!(token, Token::ParenClose),
        Mark::BracketOpen => matches!(token, Token::BracketOpen),
        Mark::BracketClose => matches!(token, Token::BracketClose),
        Mark::BraceOpen => matches!(token, Token::BraceOpen),
        Mark::BraceClose => matches!(token, Token::BraceClose),
        Mark::VariableEnd => matches!(token, Token::VariableEnd),
        Mark::BlockEnd => matches!(token, Token::BlockEnd),
    }
}

fn begins_primary(token: &Token<'_>) -> bool
    ensures { result ≡ words.begins_primary (tok_of token.now) }
{
    matches!(
        token,
        Token::Ident(_)
            | Token::Str(_)
            | Token::String(_)
            | Token::Int(_)
            | Token::Int128(_)
            | Token::ParenOpen
            | Token::BracketOpen
            | Token::BraceOpen
    )
}

fn begins_expr(token: &Token<'_>) -> bool
    ensures { result ≡ words.begins_expr (tok_of token.now) }
{
    is_mark(token, Mark::Minus) || begins_primary(token)
}

fn begins_arg(token: &Token<'_>) -> bool
    ensures { result ≡ words.begins_arg (tok_of token.now) }
{
    is_mark(token, Mark::Mul) || is_mark(token, Mark::Pow) || begins_expr(token)
}

fn begins_postfix(token: &Token<'_>) -> bool
    ensures { result ≡ words.begins_postfix (tok_of token.now) }
{
    matches!(token, Token::Dot | Token::BracketOpen | Token::ParenOpen)
}

fn begins_suffix(token: &Token<'_>) -> bool
    ensures { result ≡ words.begins_suffix (tok_of token.now) }
{
    is_mark(token, Mark::Pipe) || is_mark(token, Mark::Is)
}

/// The comparison that the token is, if it is one by itself.
pub fn compare_operator(token: &Token<'_>) -> Option<CompareOpKind>
    ensures { option_map compare_op result ≡ words.compare_op (tok_of token.now) }
{
    match token {
        Token::Eq => Some(CompareOpKind::Eq),
        Token::Ne => Some(CompareOpKind::Ne),
        Token::Lt => Some(CompareOpKind::Lt),
        Token::Lte => Some(CompareOpKind::Lte),
        Token::Gt => Some(CompareOpKind::Gt),
        Token::Gte => Some(CompareOpKind::Gte),
        Token::Ident(name) if *name == "in" => Some(CompareOpKind::In),
        _ => None,
    }
}

/// Whether a comparison goes on with the token: it is `not`, or an operator that compares.
pub fn begins_comparison(token: &Token<'_>) -> bool
    ensures { result ≡ words.begins_comparison (tok_of token.now) }
{
    is_mark(token, Mark::Not) || compare_operator(token).is_some()
}

/// Whether the word may be the bare argument of a test.
fn is_bare_word(word: &str) -> bool
    ensures { result ≡ words.is_bare_word word.now }
{
    !(word == "and" || word == "or" || word == "else" || word == "is")
}

fn begins_bare(token: &Token<'_>) -> bool
    ensures { result ≡ words.begins_bare (tok_of token.now) }
{
    match token {
        Token::Ident(name) => is_bare_word(name),
        Token::Str(_)
        | Token::String(_)
        | Token::Int(_)
        | Token::Int128(_)
        | Token::Plus
        | Token::Minus
        | Token::BracketOpen
        | Token::BraceOpen => true,
        _ => false,
    }
}

fn is_text(token: &Token<'_>) -> bool
    ensures { result ≡ begins TextPart (tok_of token.now) }
{
    matches!(token, Token::Str(_) | Token::String(_))
}

fn is_name(token: &Token<'_>) -> bool
    ensures { result ≡ words.is_identifier (tok_of token.now) }
{
    matches!(token, Token::Ident(_))
}

fn begins_context(token: &Token<'_>) -> bool
    ensures { result ≡ statements.begins_context (tok_of token.now) }
{
    is_word(token, "with") || is_word(token, "without")
}

fn ends_names(token: &Token<'_>) -> bool
    ensures { result ≡ statements.ends_names (tok_of token.now) }
{
    is_mark(token, Mark::BlockEnd) || begins_context(token)
}

fn begins_set_block(token: &Token<'_>) -> bool
    ensures { result ≡ stmt_forms.begins_set_block (tok_of token.now) }
{
    is_mark(token, Mark::BlockEnd) || is_mark(token, Mark::Pipe)
}

fn ends_targets(token: &Token<'_>) -> bool
    ensures { result ≡ targets.ends_targets (tok_of token.now) }
{
    is_mark(token, Mark::ParenClose) || is_mark(token, Mark::BlockEnd) || is_mark(token, Mark::In)
}

/// Whether such a body ends at the token.
fn ends_body(token: &Token<'_>, ends: Ends) -> bool
    ensures { result ≡ statements.ends_body (ends_view ends) (tok_of token.now) }
{
    match ends {
        Ends::Text => false,
        Ends::EndForOrElse => is_mark(token, Mark::EndFor) || is_mark(token, Mark::Else),
        Ends::EndFor => is_mark(token, Mark::EndFor),
        Ends::EndIfElseOrElif => {
            is_mark(token, Mark::EndIf) || is_mark(token, Mark::Else) || is_mark(token, Mark::Elif)
        }
        Ends::EndIf => is_mark(token, Mark::EndIf),
        Ends::EndWith => is_mark(token, Mark::EndWith),
        Ends::EndSet => is_mark(token, Mark::EndSet),
        Ends::EndAutoEscape => is_mark(token, Mark::EndAutoEscape),
        Ends::EndFilter => is_mark(token, Mark::EndFilter),
        Ends::EndBlock => is_mark(token, Mark::EndBlock),
        Ends::EndMacro => is_mark(token, Mark::EndMacro),
        Ends::EndCall => is_mark(token, Mark::EndCall),
    }
}

/// Whether the token begins the part.
pub fn begins_part(token: &Token<'_>, part: Part) -> bool
    ensures { result ≡ begins part (tok_of token.now) }
{
    match part {
        Part::Expr => begins_expr(token),
        Part::Arg => begins_arg(token),
        Part::Postfix => begins_postfix(token),
        Part::Suffix => begins_suffix(token),
        Part::Comparison => begins_comparison(token),
        Part::Bare => begins_bare(token),
        Part::Text => is_text(token),
        Part::Any => true,
        Part::Name => is_name(token),
        Part::Context => begins_context(token),
        Part::NamesEnd => ends_names(token),
        Part::SetBlock => begins_set_block(token),
        Part::TargetsEnd => ends_targets(token),
        Part::BodyEnd(ends) => ends_body(token, ends),
    }
}
