//! Errors: why a text is refused, in which words, and where.
ghost use Rattle.std.specs.Prelude.{◌≡◌, Option, Some};
ghost use Rattle.std.specs.Option.{option_map};
ghost use Rattle.minijinja_syntax.specs.DetailWords.{body_words, detail_words, expected_words, found_words, open_words};
ghost use Rattle.minijinja_syntax.specs.Errors.{kind_of, detail_of, name_of, span_of};
ghost use Rattle.minijinja_syntax.specs.declared.tokens.Span.{Span};

use crate::tokens::{Span, Token};
use std::alloc::{AllocError, AllocFailed};
use std::fmt;

/// The kind of a refusal.
#[derive(Clone, Copy, Debug, PartialEq, Eq)]
pub enum ErrorKind {
    /// Two delimiters of a syntax are equal, or one is empty.
    InvalidDelimiter,
    /// The grammar does not derive the text.
    SyntaxError,
    /// A string has an escape that means nothing.
    BadEscape,
    /// Memory was refused.
    OutOfMemory,
    /// The source has 2^32 bytes or more.
    SourceTooLong,
    /// A list would have 2^32 instructions or more.
    TooManyInstructions,
}

impl fmt::Display for ErrorKind {
    fn fmt<W: fmt::Write>(&self, f: &mut fmt::Formatter<W>) -> fmt::Result {
        match self {
            ErrorKind::InvalidDelimiter => write!(f, "invalid delimiter"),
            ErrorKind::SyntaxError => write!(f, "syntax error"),
            ErrorKind::BadEscape => write!(f, "bad string escape"),
            ErrorKind::OutOfMemory => write!(f, "out of memory"),
            ErrorKind::SourceTooLong => write!(f, "source too long"),
            ErrorKind::TooManyInstructions => write!(f, "too many instructions"),
        }
    }
}

/// A statement that has a body.
#[derive(Clone, Copy, Debug, PartialEq, Eq)]
pub enum BodyStatement {
    For,
    If,
    With,
    Set,
    AutoEscape,
    Filter,
    Block,
    Macro,
    Call,
}

/// The word that the statement begins with. The one that ends it is `end` and that word.
impl fmt::Display for BodyStatement {
    ghost output = { λ s. Some (body_words s) };

    fn fmt<W: fmt::Write>(&self, f: &mut fmt::Formatter<W>) -> fmt::Result {
        f.write_str(match self {
            BodyStatement::For => "for",
            BodyStatement::If => "if",
            BodyStatement::With => "with",
            BodyStatement::Set => "set",
            BodyStatement::AutoEscape => "autoescape",
            BodyStatement::Filter => "filter",
            BodyStatement::Block => "block",
            BodyStatement::Macro => "macro",
            BodyStatement::Call => "call",
        })
    }
}

/// A statement whose body goes on, and the line of its first word.
#[derive(Clone, Copy, Debug, PartialEq, Eq)]
pub struct OpenStatement {
    pub statement: BodyStatement,
    pub line: u16,
}

/// Writes `endif for the if of line 3`.
impl fmt::Display for OpenStatement {
    ghost output = { λ o. Some (open_words o) };

    fn fmt<W: fmt::Write>(&self, f: &mut fmt::Formatter<W>) -> fmt::Result {
        let OpenStatement { statement, line } = *self;
        write!(f, "end{statement} for the {statement} of line {line}")
    }
}

/// What a text should have gone on with.
#[derive(Clone, Copy, Debug, PartialEq, Eq)]
pub enum Expected {
    /// An expression.
    Expression,
    /// An identifier.
    Identifier,
    /// A string.
    String,
    /// The word that names a statement.
    BlockKeyword,
    /// Data, an output or a tag.
    Part,
    /// The end of the text.
    End,
    /// The end of a comment.
    CommentEnd,
    /// The end of a raw block.
    RawBlockEnd,
    /// The word `endfor`.
    EndFor,
    /// The word `endif`.
    EndIf,
    /// The word `endwith`.
    EndWith,
    /// The word `endset`.
    EndSet,
    /// The word `endautoescape`.
    EndAutoEscape,
    /// The word `endfilter`.
    EndFilter,
    /// The word `endblock`.
    EndBlock,
    /// The word `endmacro`.
    EndMacro,
    /// The word `endcall`.
    EndCall,
    /// The word `if`.
    If,
    /// The word `elif`.
    Elif,
    /// The word `else`.
    Else,
    /// The word `recursive`.
    Recursive,
    /// The word `as`.
    As,
    /// The word `import`.
    Import,
    /// The word `scoped`.
    Scoped,
    /// The word `required`.
    Required,
    /// The word `ignore`.
    Ignore,
    /// The word `missing`.
    Missing,
    /// The word `context`.
    Context,
    /// The word `not`.
    Not,
    /// The word `in`.
    In,
    /// The word `is`.
    Is,
    /// The mark before an attribute.
    Dot,
    /// The mark between items.
    Comma,
    /// The mark between a key and its value, or between the bounds of a slice.
    Colon,
    /// The mark of an assignment.
    Assign,
    /// The mark before a filter.
    Pipe,
    /// The mark of subtraction.
    Minus,
    /// The mark of multiplication.
    Mul,
    /// The mark of powers.
    Pow,
    /// The start of a parenthesis.
    ParenOpen,
    /// The end of a parenthesis.
    ParenClose,
    /// The start of a list, an item or a slice.
    BracketOpen,
    /// The end of a list, an item or a slice.
    BracketClose,
    /// The start of a map.
    BraceOpen,
    /// The end of a map.
    BraceClose,
    /// The end of a variable tag.
    VariableEnd,
    /// The end of a block tag.
    BlockEnd,
}

impl fmt::Display for Expected {
    ghost output = { λ e. Some (expected_words e) };

    fn fmt<W: fmt::Write>(&self, f: &mut fmt::Formatter<W>) -> fmt::Result {
        f.write_str(self.words())
    }
}

impl Expected {
    /// The words for it.
    fn words(self) -> &'static str
        ensures { result.now ≡ expected_words self }
    {
        match self {
            Expected::Expression => "expression",
            Expected::Identifier => "identifier",
            Expected::String => "string",
            Expected::BlockKeyword => "block keyword",
            Expected::Part => "template data or the start of a tag",
            Expected::End => "end of input",
            Expected::CommentEnd => "end of comment",
            Expected::RawBlockEnd => "end of raw block",
            Expected::EndFor => "`endfor`",
            Expected::EndIf => "`endif`",
            Expected::EndWith => "`endwith`",
            Expected::EndSet => "`endset`",
            Expected::EndAutoEscape => "`endautoescape`",
            Expected::EndFilter => "`endfilter`",
            Expected::EndBlock => "`endblock`",
            Expected::EndMacro => "`endmacro`",
            Expected::EndCall => "`endcall`",
            Expected::If => "`if`",
            Expected::Elif => "`elif`",
            Expected::Else => "`else`",
            Expected::Recursive => "`recursive`",
            Expected::As => "`as`",
            Expected::Import => "`import`",
            Expected::Scoped => "`scoped`",
            Expected::Required => "`required`",
            Expected::Ignore => "`ignore`",
            Expected::Missing => "`missing`",
            Expected::Context => "`context`",
            Expected::Not => "`not`",
            Expected::In => "`in`",
            Expected::Is => "`is`",
            Expected::Dot => Token::Dot.words(),
            Expected::Comma => Token::Comma.words(),
            Expected::Colon => Token::Colon.words(),
            Expected::Assign => Token::Assign.words(),
            Expected::Pipe => Token::Pipe.words(),
            Expected::Minus => Token::Minus.words(),
            Expected::Mul => Token::Mul.words(),
            Expected::Pow => Token::Pow.words(),
            Expected::ParenOpen => Token::ParenOpen.words(),
            Expected::ParenClose => Token::ParenClose.words(),
            Expected::BracketOpen => Token::BracketOpen.words(),
            Expected::BracketClose => Token::BracketClose.words(),
            Expected::BraceOpen => Token::BraceOpen.words(),
            Expected::BraceClose => Token::BraceClose.words(),
            Expected::VariableEnd => Token::VariableEnd.words(),
            Expected::BlockEnd => Token::BlockEnd.words(),
        }
    }
}

/// What stands where something else was expected, if it is named by what it is and not by its text.
#[derive(Clone, Copy, Debug, PartialEq, Eq)]
pub enum Found {
    /// A string.
    String,
    /// Text outside of tags.
    TemplateData,
    /// The start of a variable tag.
    VariableStart,
    /// The end of a variable tag.
    VariableEnd,
    /// The start of a block tag.
    BlockStart,
    /// The end of a block tag.
    BlockEnd,
}

impl fmt::Display for Found {
    ghost output = { λ x. Some (found_words x) };

    fn fmt<W: fmt::Write>(&self, f: &mut fmt::Formatter<W>) -> fmt::Result {
        f.write_str(match self {
            Found::String => "string",
            Found::TemplateData => "template data",
            Found::VariableStart => Token::VariableStart.words(),
            Found::VariableEnd => Token::VariableEnd.words(),
            Found::BlockStart => Token::BlockStart.words(),
            Found::BlockEnd => Token::BlockEnd.words(),
        })
    }
}

/// What exactly is wrong, in words that its `Display` gives.
#[derive(Clone, Copy, Debug, PartialEq, Eq)]
pub enum Detail<'s> {
    /// A delimiter is empty, or two start delimiters or prefixes are equal.
    InvalidDelimiter,
    /// A character begins no token.
    UnexpectedCharacter,
    /// A string has no end.
    UnterminatedString,
    /// A string has an escape that means nothing.
    BadEscape,
    /// A number has no digits after its prefix.
    MissingDigits,
    /// A number has a digit that its radix does not have.
    DigitOutOfRange,
    /// A number ends in an underscore.
    TrailingUnderscore,
    /// An integer is 2^128 or more.
    IntegerTooLarge,
    /// A number reads as a float.
    FloatLiteral,
    /// The text ends where something else was expected.
    UnexpectedEnd(Expected),
    /// This word, number or mark stands where something else was expected.
    UnexpectedToken { expected: Expected, found: &'s str },
    /// A token that is no such one stands where something else was expected.
    Unexpected(Found, Expected),
    /// The text ends in the body of the statement.
    Unclosed(OpenStatement),
    /// This word stands where the body of the statement ends.
    WrongEnd { open: OpenStatement, found: &'s str },
    /// This word ends or continues a statement, and none is open.
    StrayEnd(&'s str),
    /// A block tag begins with a word that names no statement.
    UnknownStatement(&'s str),
    /// A name that cannot be assigned to.
    ReservedName(&'s str),
    /// An expression that is neither a variable, an attribute nor a list of such.
    NotATarget,
    /// Expressions and statements nest deeper than 300.
    TooDeep,
    /// A call has more than 2000 arguments.
    TooManyArguments,
    /// A plain argument stands after a keyword argument.
    PlainAfterKeyword,
    /// The word, `break` or `continue`, stands in no loop's body.
    OutsideLoop(&'s str),
    /// What follows `do` or `call` is no call.
    NotACall,
    /// Two blocks have this name.
    DuplicateBlock(&'s str),
    /// A block stands in a macro or in a call block.
    BlockInMacro,
    /// A required block has more than whitespace in it.
    FilledRequiredBlock,
    /// The name after `endblock` is not that of the block.
    OtherBlockName(&'s str),
    /// A name that begins with an underscore is imported.
    PrivateName(&'s str),
    /// Memory was refused.
    OutOfMemory,
    /// The source has 2^32 bytes or more.
    SourceTooLong,
    /// A list would have 2^32 instructions or more.
    TooManyInstructions,
}

impl fmt::Display for Detail<'_> {
    ghost output = { λ d. Some (detail_words d) };

    fn fmt<W: fmt::Write>(&self, f: &mut fmt::Formatter<W>) -> fmt::Result {
        match self {
            Detail::InvalidDelimiter => f.write_str("invalid delimiter"),
            Detail::UnexpectedCharacter => f.write_str("unexpected character"),
            Detail::UnterminatedString => f.write_str("unexpected end of string"),
            Detail::BadEscape => f.write_str("invalid string escape"),
            Detail::MissingDigits => f.write_str("a number has no digits"),
            Detail::DigitOutOfRange => f.write_str("a digit is out of the number's radix"),
            Detail::TrailingUnderscore => f.write_str("'_' may not occur at end of number"),
            Detail::IntegerTooLarge => f.write_str("integer too large"),
            Detail::FloatLiteral => f.write_str("float literals are not supported"),
            Detail::UnexpectedEnd(wanted) => {
                write!(f, "unexpected end of input, expected {wanted}")
            }
            Detail::UnexpectedToken { expected, found } => {
                write!(f, "unexpected `{found}`, expected {expected}")
            }
            Detail::Unexpected(found, wanted) => {
                write!(f, "unexpected {found}, expected {wanted}")
            }
            Detail::Unclosed(open) => write!(f, "unexpected end of input, expected {open}"),
            Detail::WrongEnd { open, found } => write!(f, "expected {open}, found {found}"),
            Detail::StrayEnd(word) => write!(f, "unexpected {word}, no statement is open"),
            Detail::UnknownStatement(word) => write!(f, "unknown statement {word}"),
            Detail::ReservedName(name) => write!(f, "cannot assign to reserved name {name}"),
            Detail::NotATarget => f.write_str("cannot assign to this expression"),
            Detail::TooDeep => f.write_str("template exceeds maximum recursion limits"),
            Detail::TooManyArguments => f.write_str("too many arguments in function call"),
            Detail::PlainAfterKeyword => f.write_str("non-keyword arg after keyword arg"),
            Detail::OutsideLoop(word) => write!(f, "'{word}' must be placed inside a loop"),
            Detail::NotACall => f.write_str("expected call expression"),
            Detail::DuplicateBlock(name) => write!(f, "block {name} is defined twice"),
            Detail::BlockInMacro => f.write_str("a block cannot stand in a macro"),
            Detail::FilledRequiredBlock => f.write_str("a required block has to be blank"),
            Detail::OtherBlockName(name) => write!(f, "endblock names another block, {name}"),
            Detail::PrivateName(name) => write!(f, "cannot import private name {name}"),
            Detail::OutOfMemory => f.write_str("out of memory"),
            Detail::SourceTooLong => f.write_str("source too long"),
            Detail::TooManyInstructions => f.write_str("too many instructions"),
        }
    }
}

/// A refusal: its kind, what exactly is wrong, the name of the source and where in it.
/// It allocates nothing.
#[derive(Clone, Copy, Debug)]
pub struct Error<'s> {
    kind: ErrorKind,
    detail: Detail<'s>,
    name: Option<&'s str>,
    span: Option<Span>,
}

impl<'s> Error<'s> {
    /// A refusal with these parts: the name of the source and the span where they are known.
    pub fn new(
        kind: ErrorKind,
        detail: Detail<'s>,
        name: Option<&'s str>,
        span: Option<Span>,
    ) -> Self
        ensures kind { kind_of result ≡ kind }
        ensures detail { detail_of result ≡ detail.entry }
        ensures name { name_of result ≡ name.entry }
        ensures span { span_of result ≡ span }
    {
        Error {
            kind,
            detail,
            name,
            span,
        }
    }

    /// The kind of the refusal.
    pub fn kind(&self) -> ErrorKind
        ensures { result ≡ kind_of self.now }
    {
        self.kind
    }

    /// What exactly is wrong.
    pub fn detail(&self) -> Detail<'s>
        ensures { result ≡ detail_of self.now }
    {
        self.detail
    }

    /// The name of the source.
    pub fn name(&self) -> Option<&'s str>
        ensures { result ≡ name_of self.now }
    {
        self.name
    }

    /// Where in the source.
    pub fn span(&self) -> Option<Span>
        ensures { result ≡ span_of self.now }
    {
        self.span
    }

    /// The line in the source, from 1: that of the span's start.
    pub fn line(&self) -> Option<usize>
        ensures { result ≡ option_map (λ (s : Span). s.start_line) (span_of self.now) }
    {
        match self.span {
            Some(span) => Some(usize::from(span.start_line)),
            None => None,
        }
    }

    /// The column in its line, from 0, in characters: that of the span's start.
    pub fn column(&self) -> Option<usize>
        ensures { result ≡ option_map (λ (s : Span). s.start_col) (span_of self.now) }
    {
        match self.span {
            Some(span) => Some(usize::from(span.start_col)),
            None => None,
        }
    }
}

/// `KIND: DETAIL`, and after it ` (in NAME:LINE:COLUMN)`, ` (in NAME)` or ` (at LINE:COLUMN)`, as
/// far as these are known.
impl fmt::Display for Error<'_> {
    fn fmt<W: fmt::Write>(&self, f: &mut fmt::Formatter<W>) -> fmt::Result {
        let Error {
            kind,
            detail,
            name,
            span,
        } = *self;
        write!(f, "{kind}: {detail}")?;
        match (name, span) {
            (Some(name), Some(span)) => {
                write!(f, " (in {name}:{}:{})", span.start_line, span.start_col)
            }
            (Some(name), None) => write!(f, " (in {name})"),
            (None, Some(span)) => write!(f, " (at {}:{})", span.start_line, span.start_col),
            (None, None) => Ok(()),
        }
    }
}

impl Error<'_> {
    ghost use Rattle.minijinja_syntax.specs.Errors.{IsInvalidDelimiter, IsOutOfMemory};

    /// A syntax that cannot be built: no name and no span.
    pub(crate) fn invalid_delimiter() -> Self
        ensures { IsInvalidDelimiter result }
    {
        Error::new(
            ErrorKind::InvalidDelimiter,
            Detail::InvalidDelimiter,
            None,
            None,
        )
    }

    /// Refused memory: no name and no span.
    fn out_of_memory() -> Self
        ensures { IsOutOfMemory result }
    {
        Error::new(ErrorKind::OutOfMemory, Detail::OutOfMemory, None, None)
    }
}

/// Refused memory has no name and no span.
impl From<AllocError> for Error<'_> {
    ghost use Rattle.std.specs.Prelude.{◌≡◌, None};
    ghost use Rattle.minijinja_syntax.specs.Errors.{IsOutOfMemory};

    ghost from_gives = { λ _ e. IsOutOfMemory e };

    fn from(_: AllocError) -> Self {
        Error::out_of_memory()
    }
}

impl<T: Drop> From<AllocFailed<T>> for Error<'_> {
    ghost use Rattle.minijinja_syntax.specs.Errors.{IsOutOfMemory};

    ghost from_gives = { λ _ e. IsOutOfMemory e };

    fn from(_: AllocFailed<T>) -> Self {
        Error::out_of_memory()
    }
}

impl std::error::Error for Error<'_> {}
