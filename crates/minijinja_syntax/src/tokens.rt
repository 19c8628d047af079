//! Tokens, what messages call them, and where they stand.
ghost use Rattle.std.specs.Prelude.{◌≡◌, Some};
ghost use Rattle.minijinja_syntax.specs.Positions.{expanded};
ghost use Rattle.minijinja_syntax.specs.TokenWords.{token_words};
ghost use Rattle.minijinja_syntax.specs.SpanWords.{span_words};

use std::fmt;

/// A token of a template. Its texts are slices of the source, except a decoded string.
#[derive(Debug, Drop, PartialEq, Eq)]
pub enum Token<'s> {
    /// Text outside of tags.
    TemplateData(&'s str),
    /// The start of a variable tag.
    VariableStart,
    /// The end of a variable tag.
    VariableEnd,
    /// The start of a block tag.
    BlockStart,
    /// The end of a block tag.
    BlockEnd,
    /// An identifier.
    Ident(&'s str),
    /// A string without escapes and without its quotes.
    Str(&'s str),
    /// A string with escapes, decoded.
    String(String),
    /// An integer under 2^64.
    Int(u64),
    /// An integer from 2^64 to 2^128 - 1.
    Int128(Box<u128>),
    /// `+`
    Plus,
    /// `-`
    Minus,
    /// `*`
    Mul,
    /// `/`
    Div,
    /// `//`
    FloorDiv,
    /// `**`
    Pow,
    /// `%`
    Mod,
    /// `.`
    Dot,
    /// `,`
    Comma,
    /// `:`
    Colon,
    /// `~`
    Tilde,
    /// `=`
    Assign,
    /// `|`
    Pipe,
    /// `==`
    Eq,
    /// `!=`
    Ne,
    /// `>`
    Gt,
    /// `>=`
    Gte,
    /// `<`
    Lt,
    /// `<=`
    Lte,
    /// `[`
    BracketOpen,
    /// `]`
    BracketClose,
    /// `(`
    ParenOpen,
    /// `)`
    ParenClose,
    /// `{`
    BraceOpen,
    /// `}`
    BraceClose,
}

impl Token<'_> {
    /// What a message calls the token: its kind in words, or its mark between backticks.
    pub fn words(&self) -> &'static str
        ensures { result.now ≡ token_words self.now }
    {
        match self {
            Token::TemplateData(_) => "template-data",
            Token::VariableStart => "start of variable block",
            Token::VariableEnd => "end of variable block",
            Token::BlockStart => "start of block",
            Token::BlockEnd => "end of block",
            Token::Ident(_) => "identifier",
            Token::Str(_) | Token::String(_) => "string",
            Token::Int(_) | Token::Int128(_) => "integer",
            Token::Plus => "`+`",
            Token::Minus => "`-`",
            Token::Mul => "`*`",
            Token::Div => "`/`",
            Token::FloorDiv => "`//`",
            Token::Pow => "`**`",
            Token::Mod => "`%`",
            Token::Dot => "`.`",
            Token::Comma => "`,`",
            Token::Colon => "`:`",
            Token::Tilde => "`~`",
            Token::Assign => "`=`",
            Token::Pipe => "`|`",
            Token::Eq => "`==`",
            Token::Ne => "`!=`",
            Token::Gt => "`>`",
            Token::Gte => "`>=`",
            Token::Lt => "`<`",
            Token::Lte => "`<=`",
            Token::BracketOpen => "`[`",
            Token::BracketClose => "`]`",
            Token::ParenOpen => "`(`",
            Token::ParenClose => "`)`",
            Token::BraceOpen => "`{`",
            Token::BraceClose => "`}`",
        }
    }
}

impl fmt::Display for Token<'_> {
    ghost output = { λ t. Some (token_words t) };

    fn fmt<W: fmt::Write>(&self, f: &mut fmt::Formatter<W>) -> fmt::Result {
        f.write_str(self.words())
    }
}

/// Where a token or a node begins and ends. Lines count from 1 and columns from 0, in characters;
/// both stop at 65535. Offsets are in bytes. The default is a span of zeros, which is no place.
#[derive(Clone, Copy, Default, PartialEq, Eq)]
pub struct Span {
    pub start_line: u16,
    pub start_col: u16,
    pub start_offset: u32,
    pub end_line: u16,
    pub end_col: u16,
    pub end_offset: u32,
}

impl Span {
    /// The span from the start of this one to the end of another.
    pub fn to(self, end: Span) -> Span
        ensures { result ≡ expanded self end }
    {
        Span {
            end_line: end.end_line,
            end_col: end.end_col,
            end_offset: end.end_offset,
            ..self
        }
    }
}

/// Writes ` @ SL:SC-EL:EC`.
impl fmt::Debug for Span {
    ghost debug_output = { λ s. Some (span_words s) };

    fn fmt<W: fmt::Write>(&self, f: &mut fmt::Formatter<W>) -> fmt::Result {
        let Span {
            start_line,
            start_col,
            end_line,
            end_col,
            ..
        } = *self;
        write!(f, " @ {start_line}:{start_col}-{end_line}:{end_col}")
    }
}
