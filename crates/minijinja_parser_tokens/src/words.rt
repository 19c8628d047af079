//! The words of the grammar: the first and last ones of statements, constants, reserved names.
ghost use Rattle.std.specs.Prelude.{◌≡◌};
ghost use Rattle.std.specs.Option.{option_map};
ghost use Rattle.minijinja_grammar.specs.Words as words;
ghost use Rattle.minijinja_grammar.specs.internal.Keywords as keywords;
ghost use Rattle.minijinja_parser_tokens.specs.internal.Marks.{keyword_view};

use minijinja_syntax::error::{BodyStatement, OpenStatement};

/// The first word of a statement.
#[derive(Clone, Copy)]
pub enum Keyword {
    For,
    If,
    With,
    Set,
    AutoEscape,
    Filter,
    Block,
    Extends,
    Include,
    Import,
    From,
    Macro,
    Call,
    Do,
    Break,
    Continue,
}

/// The first word of a statement that this word is.
pub fn keyword_of(word: &str) -> Option<Keyword>
    ensures { option_map keyword_view result ≡ keywords.keyword_of word.now }
{
    match word {
        "for" => Some(Keyword::For),
        "if" => Some(Keyword::If),
        "with" => Some(Keyword::With),
        "set" => Some(Keyword::Set),
        "autoescape" => Some(Keyword::AutoEscape),
        "filter" => Some(Keyword::Filter),
        "block" => Some(Keyword::Block),
        "extends" => Some(Keyword::Extends),
        "include" => Some(Keyword::Include),
        "import" => Some(Keyword::Import),
        "from" => Some(Keyword::From),
        "macro" => Some(Keyword::Macro),
        "call" => Some(Keyword::Call),
        "do" => Some(Keyword::Do),
        "break" => Some(Keyword::Break),
        "continue" => Some(Keyword::Continue),
        _ => None,
    }
}

/// The statement that is open after its first word, at this line, if it can have a body.
pub fn opened(keyword: Keyword, line: u16) -> Option<OpenStatement> {
    let statement = match keyword {
        Keyword::For => BodyStatement::For,
        Keyword::If => BodyStatement::If,
        Keyword::With => BodyStatement::With,
        Keyword::Set => BodyStatement::Set,
        Keyword::AutoEscape => BodyStatement::AutoEscape,
        Keyword::Filter => BodyStatement::Filter,
        Keyword::Block => BodyStatement::Block,
        Keyword::Macro => BodyStatement::Macro,
        Keyword::Call => BodyStatement::Call,
        Keyword::Extends
        | Keyword::Include
        | Keyword::Import
        | Keyword::From
        | Keyword::Do
        | Keyword::Break
        | Keyword::Continue => return None,
    };
    Some(OpenStatement { statement, line })
}

/// Whether the word ends or continues a statement.
pub fn is_end_word(word: &str) -> bool {
    matches!(
        word,
        "elif"
            | "else"
            | "endfor"
            | "endif"
            | "endwith"
            | "endset"
            | "endautoescape"
            | "endfilter"
            | "endblock"
            | "endmacro"
            | "endcall"
            | "endraw"
    )
}

/// Whether the word is the constant true.
pub fn is_true_word(word: &str) -> bool
    ensures { result ≡ words.is_true_word word.now }
{
    word == "true" || word == "True"
}

/// Whether the word is the constant false.
pub fn is_false_word(word: &str) -> bool
    ensures { result ≡ words.is_false_word word.now }
{
    word == "false" || word == "False"
}

/// Whether the word is the constant none.
pub fn is_none_word(word: &str) -> bool
    ensures { result ≡ words.is_none_word word.now }
{
    word == "none" || word == "None"
}

/// Whether the name cannot be assigned to.
pub fn is_reserved(name: &str) -> bool
    ensures { result ≡ words.is_reserved name.now }
{
    is_true_word(name)
        || is_false_word(name)
        || is_none_word(name)
        || name == "loop"
        || name == "self"
}
