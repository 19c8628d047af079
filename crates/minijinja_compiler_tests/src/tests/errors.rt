//! The words of refusals and of places.
use minijinja_compiler::compile::compile;
use minijinja_compiler::error::{
    BodyStatement, Detail, Error, ErrorKind, Expected, Found, OpenStatement,
};
use minijinja_compiler::owned_error::OwnedError;
use minijinja_compiler::syntax::SyntaxConfig;
use minijinja_compiler::tokens::{Span, Token};
use minijinja_compiler::value::Value;
use std::alloc::{AllocError, Global};
use std::process::Abort;
use std::test::Fail;

const THIRD_LINE: Span = Span {
    start_line: 3,
    start_col: 4,
    start_offset: 12,
    end_line: 5,
    end_col: 6,
    end_offset: 31,
};

const OPEN_IF: OpenStatement = OpenStatement {
    statement: BodyStatement::If,
    line: 3,
};

/// What can be wrong, each with a kind.
fn details() -> [(ErrorKind, Detail<'static>); 31] {
    let syntax = ErrorKind::SyntaxError;
    [
        (ErrorKind::InvalidDelimiter, Detail::InvalidDelimiter),
        (syntax, Detail::UnexpectedCharacter),
        (syntax, Detail::UnterminatedString),
        (ErrorKind::BadEscape, Detail::BadEscape),
        (syntax, Detail::MissingDigits),
        (syntax, Detail::DigitOutOfRange),
        (syntax, Detail::TrailingUnderscore),
        (syntax, Detail::IntegerTooLarge),
        (syntax, Detail::FloatLiteral),
        (syntax, Detail::UnexpectedEnd(Expected::BlockEnd)),
        (
            syntax,
            Detail::UnexpectedToken {
                expected: Expected::Identifier,
                found: ")",
            },
        ),
        (syntax, Detail::Unexpected(Found::String, Expected::Pow)),
        (syntax, Detail::Unclosed(OPEN_IF)),
        (
            syntax,
            Detail::WrongEnd {
                open: OPEN_IF,
                found: "endfor",
            },
        ),
        (syntax, Detail::StrayEnd("endfor")),
        (syntax, Detail::UnknownStatement("unless")),
        (syntax, Detail::ReservedName("loop")),
        (syntax, Detail::TooDeep),
        (syntax, Detail::TooManyArguments),
        (syntax, Detail::PlainAfterKeyword),
        (syntax, Detail::OutsideLoop("break")),
        (syntax, Detail::NotACall),
        (syntax, Detail::NotATarget),
        (syntax, Detail::DuplicateBlock("a")),
        (syntax, Detail::BlockInMacro),
        (syntax, Detail::FilledRequiredBlock),
        (syntax, Detail::OtherBlockName("a")),
        (syntax, Detail::PrivateName("_a")),
        (ErrorKind::OutOfMemory, Detail::OutOfMemory),
        (ErrorKind::SourceTooLong, Detail::SourceTooLong),
        (ErrorKind::TooManyInstructions, Detail::TooManyInstructions),
    ]
}

/// Whether a refusal, and its copy, is printed as these words and then its place.
fn is_printed(
    alloc: Global,
    error: Error<'_>,
    words: &str,
    place: &str,
) -> Result<bool, AllocError> {
    let printed = error.to_string(alloc)?;
    let copy = OwnedError::copied(alloc, &error)?.to_string(alloc)?;
    Ok(printed.as_str().strip_prefix(words) == Some(place) && copy.as_str() == printed.as_str())
}

/// Whether a refusal is printed as these words, and then as much of a place as it names.
fn is_printed_at_each_place(
    alloc: Global,
    kind: ErrorKind,
    detail: Detail<'_>,
    words: &str,
) -> Result<bool, AllocError> {
    let (page, line) = (Some("page"), Some(THIRD_LINE));
    Ok(
        is_printed(
            alloc,
            Error::new(kind, detail, page, line),
            words,
            " (in page:3:4)",
        )? && is_printed(
            alloc,
            Error::new(kind, detail, page, None),
            words,
            " (in page)",
        )? && is_printed(
            alloc,
            Error::new(kind, detail, None, line),
            words,
            " (at 3:4)",
        )? && is_printed(alloc, Error::new(kind, detail, None, None), words, "")?,
    )
}

#[test]
fn refusals_are_printed_with_their_place(rt: HostRuntime) -> Result<(), Fail> {
    let words = "invalid delimiter: invalid delimiter
syntax error: unexpected character
syntax error: unexpected end of string
bad string escape: invalid string escape
syntax error: a number has no digits
syntax error: a digit is out of the number's radix
syntax error: '_' may not occur at end of number
syntax error: integer too large
syntax error: float literals are not supported
syntax error: unexpected end of input, expected end of block
syntax error: unexpected `)`, expected identifier
syntax error: unexpected string, expected `**`
syntax error: unexpected end of input, expected endif for the if of line 3
syntax error: expected endif for the if of line 3, found endfor
syntax error: unexpected endfor, no statement is open
syntax error: unknown statement unless
syntax error: cannot assign to reserved name loop
syntax error: template exceeds maximum recursion limits
syntax error: too many arguments in function call
syntax error: non-keyword arg after keyword arg
syntax error: 'break' must be placed inside a loop
syntax error: expected call expression
syntax error: cannot assign to this expression
syntax error: block a is defined twice
syntax error: a block cannot stand in a macro
syntax error: a required block has to be blank
syntax error: endblock names another block, a
syntax error: cannot import private name _a
out of memory: out of memory
source too long: source too long
too many instructions: too many instructions";
    let mut lines = words.lines();
    for (kind, detail) in details() {
        let words = lines.next().unwrap_or("no words");
        assert!(rt;
            is_printed_at_each_place(rt.alloc(), kind, detail, words)?,
            "{words}"
        );
    }
    assert!(rt; lines.next().is_none());
    let error = Error::from(AllocError);
    assert!(rt; is_printed(rt.alloc(), error, "out of memory: out of memory", "")?);
    Ok(())
}

/// The refusal of a text that is dropped here, and of a name that is dropped too.
fn kept_refusal(alloc: Global) -> Result<Option<OwnedError>, AllocError> {
    let source = "{% if x %}\n  {{ x y }}".to_string(alloc)?;
    let name = "page".to_string(alloc)?;
    let syntax = SyntaxConfig::default();
    match compile::<Value>(alloc, source.as_str(), name.as_str(), &syntax) {
        Ok(_) => Ok(None),
        Err(error) => Ok(Some(OwnedError::copied(alloc, &error)?)),
    }
}

#[test]
fn a_copied_refusal_outlives_its_source(rt: HostRuntime) -> Result<(), Fail> {
    let Some(error) = kept_refusal(rt.alloc())? else {
        assert!(rt; false, "the text compiles");
        return Ok(());
    };
    assert!(rt; error.kind() == ErrorKind::SyntaxError);
    assert!(rt; error.name() == Some("page"));
    assert!(rt; error.detail() == "unexpected `y`, expected end of variable block");
    assert!(rt; error.line() == Some(2) && error.column() == Some(7));
    assert!(rt; error.span().is_some_and(|span| span.start_offset == 18));
    Ok(())
}
