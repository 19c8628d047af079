//! What exactly is wrong, in the words of a refusal.

use minijinja_parser_tokens::marks::expected;
use minijinja_parser_tokens::refusal::Wanted;
use minijinja_parser_tokens::words::is_end_word;
use minijinja_syntax::error::{Detail, Expected, Found, OpenStatement};
use minijinja_syntax::syntax::SyntaxConfig;

/// The token taken last, at which a refusal stands.
#[derive(Clone, Copy)]
pub(crate) struct LastToken<'s, 'c> {
    /// Its source.
    pub(crate) text: &'s str,
    /// Whether no token comes after it, though one was wanted.
    pub(crate) is_last: bool,
    pub(crate) syntax: &'c SyntaxConfig,
    /// The statement in whose body a word was wanted last.
    pub(crate) open: Option<OpenStatement>,
}

/// Whether the text is a delimiter, or one with a sign for whitespace before or after it.
fn is_delimiter(text: &str, delimiter: &str) -> bool {
    if text == delimiter {
        return true;
    }
    let sign = match text.strip_prefix(delimiter) {
        Some(sign) => sign,
        None => text.strip_suffix(delimiter).unwrap_or(""),
    };
    sign == "-" || sign == "+"
}

/// Whether the text is a word or a number.
fn is_word(text: &str) -> bool {
    for c in text.chars() {
        if c != '_' && !c.is_alphanumeric() {
            return false;
        }
    }
    true
}

/// The kind of a token that is neither a word, a number nor a mark. The end of a line statement is
/// whitespace or empty.
fn kind_of_token(text: &str, syntax: &SyntaxConfig) -> Option<Found> {
    let (block_start, block_end) = syntax.block_delimiters();
    let (variable_start, variable_end) = syntax.variable_delimiters();
    if text.trim().is_empty() || is_delimiter(text, block_end) {
        return Some(Found::BlockEnd);
    }
    if is_delimiter(text, variable_end) {
        return Some(Found::VariableEnd);
    }
    if is_delimiter(text, block_start) {
        return Some(Found::BlockStart);
    }
    if is_delimiter(text, variable_start) {
        return Some(Found::VariableStart);
    }
    if text.starts_with('"') || text.starts_with('\'') {
        return Some(Found::String);
    }
    // A mark has two bytes at most.
    if is_word(text) || text.len() <= 2 {
        None
    } else {
        Some(Found::TemplateData)
    }
}

/// Whether a body ends at what was wanted.
fn is_end_of_body(wanted: Expected) -> bool {
    matches!(
        wanted,
        Expected::EndFor
            | Expected::EndIf
            | Expected::EndWith
            | Expected::EndSet
            | Expected::EndAutoEscape
            | Expected::EndFilter
            | Expected::EndBlock
            | Expected::EndMacro
            | Expected::EndCall
    )
}

impl<'s> LastToken<'s, '_> {
    /// Another token was wanted, or one more.
    fn unexpected(self, wanted: Expected) -> Detail<'s> {
        if self.is_last {
            return Detail::UnexpectedEnd(wanted);
        }
        match kind_of_token(self.text, self.syntax) {
            Some(found) => Detail::Unexpected(found, wanted),
            None => Detail::UnexpectedToken {
                expected: wanted,
                found: self.text,
            },
        }
    }

    /// The word does not end the body of the statement that is open.
    fn wrong_end(self, open: OpenStatement) -> Detail<'s> {
        if self.is_last {
            Detail::Unclosed(open)
        } else {
            Detail::WrongEnd {
                open,
                found: self.text,
            }
        }
    }

    /// Another mark was wanted: a word that ends a body, or any other.
    fn no_mark(self, wanted: Expected) -> Detail<'s> {
        match self.open {
            Some(open) if is_end_of_body(wanted) => self.wrong_end(open),
            _ => self.unexpected(wanted),
        }
    }

    /// Another part was wanted. The first word of a statement may also be what ends the open one.
    fn no_part(self, wanted: Expected) -> Detail<'s> {
        match self.open {
            Some(open) if self.is_last && wanted == Expected::BlockKeyword => Detail::Unclosed(
                open,
            ),
            _ => self.unexpected(wanted),
        }
    }

    /// The word names no statement, or ends or continues another than the one that is open.
    fn no_statement(self) -> Detail<'s> {
        if !is_end_word(self.text) {
            return Detail::UnknownStatement(self.text);
        }
        match self.open {
            Some(open) => self.wrong_end(open),
            None => Detail::StrayEnd(self.text),
        }
    }

    /// What is wrong with it.
    pub(crate) fn detail(self, wanted: Wanted) -> Detail<'s> {
        match wanted {
            Wanted::Mark(mark) => self.no_mark(expected(mark)),
            Wanted::Part(part) => self.no_part(part),
            Wanted::Statement => self.no_statement(),
            Wanted::Target => Detail::ReservedName(self.text),
            Wanted::Flatter => Detail::TooDeep,
            Wanted::FewerArguments => Detail::TooManyArguments,
            Wanted::Keyword => Detail::PlainAfterKeyword,
            Wanted::Loop => Detail::OutsideLoop(self.text),
            Wanted::Call => Detail::NotACall,
            Wanted::Storable => Detail::NotATarget,
            Wanted::NewName => Detail::DuplicateBlock(self.text),
            Wanted::Blank => Detail::FilledRequiredBlock,
            Wanted::BlockName => Detail::OtherBlockName(self.text),
            Wanted::NoBlock => Detail::BlockInMacro,
            Wanted::PublicName => Detail::PrivateName(self.text),
        }
    }
}
