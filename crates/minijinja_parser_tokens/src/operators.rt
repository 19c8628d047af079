//! Operators of two sides that group to the left, and how tightly they bind.
ghost use Rattle.std.specs.Prelude.{◌≡◌, None};
ghost use Rattle.std.specs.Bool.{OnTrue};
ghost use Rattle.minijinja_syntax.specs.Tokens.{tok_of};
ghost use Rattle.minijinja_parser_tokens.specs.internal.Levels as spec;
ghost use Rattle.minijinja_parser_tokens.specs.internal.Levels.{level_of_operator};

use crate::marks::{begins_comparison, is_word};
use minijinja_syntax::tokens::Token;
use minijinja_tree::ast::BinOpKind;

/// A level of operators, the loosest first. The operands of a level are of the next level; the last
/// one has no operators.
#[derive(Clone, Copy)]
pub enum Level {
    /// `or`
    Or,
    /// `and`
    And,
    /// `not`, and comparisons
    Not,
    /// `+` and `-`
    Sum,
    /// `~`
    Cat,
    /// `*`, `/`, `//` and `%`
    Term,
    /// none of these: `**` and what binds tighter
    Operand,
}

/// An operator of two sides.
#[derive(Clone, Copy)]
pub enum Operator {
    /// An operator of arithmetic, of logic or `~`, and its level.
    Binary(BinOpKind, Level),
    /// A comparison.
    Comparison,
}

impl Level {
    /// How tightly the level binds.
    pub fn rank(self) -> u8
        ensures { result ≡ spec.rank self }
    {
        match self {
            Level::Or => 0,
            Level::And => 1,
            Level::Not => 2,
            Level::Sum => 3,
            Level::Cat => 4,
            Level::Term => 5,
            Level::Operand => 6,
        }
    }

    /// Whether an expression of the level may begin with `not`.
    pub fn has_not(self) -> bool
        ensures { result ≡ spec.has_not self }
    {
        self.rank() <= 2
    }

    /// The level of the operands of an operator of this level.
    pub fn tighter(self) -> Level
        ensures { result ≡ spec.tighter self }
    {
        match self {
            Level::Or => Level::And,
            Level::And => Level::Not,
            Level::Not => Level::Sum,
            Level::Sum => Level::Cat,
            Level::Cat => Level::Term,
            Level::Term | Level::Operand => Level::Operand,
        }
    }
}

impl Operator {
    /// The level of the operator.
    pub fn level(self) -> Level
        ensures { result ≡ level_of_operator self }
    {
        match self {
            Operator::Binary(_, level) => level,
            Operator::Comparison => Level::Not,
        }
    }
}

/// The operator `and` or `or` that the token is, or the comparison that it begins.
fn word_operator(token: &Token<'_>) -> Option<Operator>
    ensures { result ≡ spec.word_operator (tok_of token.now) }
{
    if begins_comparison(token) {
        return Some(Operator::Comparison);
    }
    if is_word(token, "and") {
        return Some(Operator::Binary(BinOpKind::ScAnd, Level::And));
    }
    if is_word(token, "or") {
        return Some(Operator::Binary(BinOpKind::ScOr, Level::Or));
    }
    None
}

/// Whether the token is one of those that most often come after an expression, none of which is an
/// operator.
fn ends_operand(token: &Token<'_>) -> bool
    ensures { OnTrue result (spec.operator_of (tok_of token.now) ≡ None) }
{
    matches!(
        token,
        Token::VariableEnd
            | Token::BlockEnd
            | Token::Comma
            | Token::ParenClose
            | Token::BracketClose
            | Token::Assign
    )
}

/// The operator that the token is or begins.
pub fn operator_of(token: &Token<'_>) -> Option<Operator>
    ensures { result ≡ spec.operator_of (tok_of token.now) }
{
    if ends_operand(token) {
        return None;
    }
    let (op, level) = match token {
        Token::Plus => (BinOpKind::Add, Level::Sum),
        Token::Minus => (BinOpKind::Sub, Level::Sum),
        Token::Tilde => (BinOpKind::Concat, Level::Cat),
        Token::Mul => (BinOpKind::Mul, Level::Term),
        Token::Div => (BinOpKind::Div, Level::Term),
        Token::FloorDiv => (BinOpKind::FloorDiv, Level::Term),
        Token::Mod => (BinOpKind::Rem, Level::Term),
        _ => return word_operator(token),
    };
    Some(Operator::Binary(op, level))
}
