//! The symbols inside a tag: operators, brackets and other marks.
ghost use Rattle.std.specs.Prelude.{◌≡◌, ◌<◌, IsSome, IfSome};
ghost use Rattle.minijinja_syntax.specs.Tokens.{tok_of};
ghost use Rattle.minijinja_lexer.specs.private.AsciiEnds.{EndsInAscii};
ghost use Rattle.minijinja_lexer.specs.Symbols as spec;
ghost use Rattle.std.specs.Option.{option_map};
ghost use Rattle.minijinja_lexer.specs.private.Views.{symbol_view};

use crate::scan::byte_at;
use minijinja_syntax::tokens::Token;

/// A token that is always written with the same bytes.
#[derive(Clone, Copy)]
pub(crate) enum Symbol {
    /// `+`
    Plus,
    /// `-`
    Minus,
    /// `*`
    Mul,
    /// `/`
    Div,
    /// `//`
    FloorDiv,
    /// `**`
    Pow,
    /// `%`
    Mod,
    /// `.`
    Dot,
    /// `,`
    Comma,
    /// `:`
    Colon,
    /// `~`
    Tilde,
    /// `=`
    Assign,
    /// `|`
    Pipe,
    /// `==`
    Eq,
    /// `!=`
    Ne,
    /// `>`
    Gt,
    /// `>=`
    Gte,
    /// `<`
    Lt,
    /// `<=`
    Lte,
    /// `[`
    BracketOpen,
    /// `]`
    BracketClose,
    /// `(`
    ParenOpen,
    /// `)`
    ParenClose,
    /// `{`
    BraceOpen,
    /// `}`
    BraceClose,
}

fn long_symbol(first: u8, second: u8) -> Option<Symbol>
    ensures value { option_map symbol_view result ≡ spec.long_symbol first second }
    ensures ascii { IsSome result → (0 < second) × (second < 128) }
{
    match (first, second) {
        (b'/', b'/') => Some(Symbol::FloorDiv),
        (b'*', b'*') => Some(Symbol::Pow),
        (b'=', b'=') => Some(Symbol::Eq),
        (b'!', b'=') => Some(Symbol::Ne),
        (b'>', b'=') => Some(Symbol::Gte),
        (b'<', b'=') => Some(Symbol::Lte),
        _ => None,
    }
}

fn short_symbol(byte: u8) -> Option<Symbol>
    ensures value { option_map symbol_view result ≡ spec.short_symbol byte }
    ensures ascii { IsSome result → (0 < byte) × (byte < 128) }
{
    match byte {
        b'+' => Some(Symbol::Plus),
        b'-' => Some(Symbol::Minus),
        b'*' => Some(Symbol::Mul),
        b'/' => Some(Symbol::Div),
        b'%' => Some(Symbol::Mod),
        b'.' => Some(Symbol::Dot),
        b',' => Some(Symbol::Comma),
        b':' => Some(Symbol::Colon),
        b'~' => Some(Symbol::Tilde),
        b'|' => Some(Symbol::Pipe),
        b'=' => Some(Symbol::Assign),
        b'>' => Some(Symbol::Gt),
        b'<' => Some(Symbol::Lt),
        b'(' => Some(Symbol::ParenOpen),
        b')' => Some(Symbol::ParenClose),
        b'[' => Some(Symbol::BracketOpen),
        b']' => Some(Symbol::BracketClose),
        b'{' => Some(Symbol::BraceOpen),
        b'}' => Some(Symbol::BraceClose),
        _ => None,
    }
}

/// The longest symbol at the front, and its length.
#[tactic(auto, unfolding(crate::specs::Symbols::symbol_front))]
pub(crate) fn symbol_front(text: &[u8]) -> Option<(Symbol, usize)>
    ensures value { option_map (λ s. (symbol_view s.0, s.1)) result ≡ spec.symbol_front text.now }
    ensures places { IfSome result (λ s. EndsInAscii text.now s.1) }
{
    let first = byte_at(text, 0);
    if let Some(symbol) = long_symbol(first, byte_at(text, 1)) {
        return Some((symbol, 2));
    }
    let symbol = short_symbol(first)?;
    Some((symbol, 1))
}

pub(crate) fn symbol_token<'s>(symbol: Symbol) -> Token<'s>
    ensures { tok_of result ≡ spec.symbol_tok (symbol_view symbol) }
{
    match symbol {
        Symbol::Plus => Token::Plus,
        Symbol::Minus => Token::Minus,
        Symbol::Mul => Token::Mul,
        Symbol::Div => Token::Div,
        Symbol::FloorDiv => Token::FloorDiv,
        Symbol::Pow => Token::Pow,
        Symbol::Mod => Token::Mod,
        Symbol::Dot => Token::Dot,
        Symbol::Comma => Token::Comma,
        Symbol::Colon => Token::Colon,
        Symbol::Tilde => Token::Tilde,
        Symbol::Assign => Token::Assign,
        Symbol::Pipe => Token::Pipe,
        Symbol::Eq => Token::Eq,
        Symbol::Ne => Token::Ne,
        Symbol::Gt => Token::Gt,
        Symbol::Gte => Token::Gte,
        Symbol::Lt => Token::Lt,
        Symbol::Lte => Token::Lte,
        Symbol::BracketOpen => Token::BracketOpen,
        Symbol::BracketClose => Token::BracketClose,
        Symbol::ParenOpen => Token::ParenOpen,
        Symbol::ParenClose => Token::ParenClose,
        Symbol::BraceOpen => Token::BraceOpen,
        Symbol::BraceClose => Token::BraceClose,
    }
}

/// 1 for an opening bracket of any kind, otherwise 0.
pub(crate) fn opens(symbol: Symbol) -> usize
    ensures { result ≡ spec.opens (symbol_view symbol) }
{
    match symbol {
        Symbol::BracketOpen | Symbol::ParenOpen | Symbol::BraceOpen => 1,
        _ => 0,
    }
}

/// 1 for a closing bracket of any kind, otherwise 0.
pub(crate) fn closes(symbol: Symbol) -> usize
    ensures { result ≡ spec.closes (symbol_view symbol) }
{
    match symbol {
        Symbol::BracketClose | Symbol::ParenClose | Symbol::BraceClose => 1,
        _ => 0,
    }
}
