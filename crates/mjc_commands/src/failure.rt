//! Why a run of the program fails, and the status that it ends with.
ghost use Rattle.std.specs.Prelude.{◌≡◌, ◌≢◌, ◌⊎◌, ◌↔◌, IsTrue, None};
ghost use Rattle.std.specs.IoError.{error_kind};
ghost use Rattle.std.specs.declared.io.ErrorKind.TheVariants as kind;
ghost use Rattle.minijinja_syntax.specs.Errors.{kind_of};
ghost use Rattle.minijinja_syntax.specs.declared.error.ErrorKind.TheVariants.{OutOfMemory, SourceTooLong};
ghost use Rattle.mjc_commands.specs.Failure.{refusal_at, refusal_of, status_of, IsRefused, IsRefusedAs};
ghost use Rattle.mjc_commands.specs.FailureWords.{kind_word};

use minijinja_compiler::error::{Error, ErrorKind};
use std::alloc::{AllocError, AllocFailed};
use std::{fmt, io};

/// Why a run fails.
#[derive(Clone, Copy, Debug)]
pub enum Failure<'p> {
    /// The arguments are not those of a command.
    Usage,
    /// The file of this path cannot be read, or is not UTF-8.
    CannotRead(&'p str),
    /// The syntax or the text is refused, at a line, counted from 1, and a column, counted from 0.
    /// A refusal without a place has 0:0.
    Refused {
        kind: ErrorKind,
        line: u16,
        column: u16,
    },
    /// A line of the answers, counted from 1, is neither `fault` nor a list of constants.
    BadAnswer(usize),
    /// The output cannot be written.
    CannotWrite,
}

impl<'p> Failure<'p> {
    fn without_place(kind: ErrorKind) -> Self
        ensures kind { IsRefusedAs kind result }
        ensures value { result ≡ refusal_at kind None }
    {
        Failure::Refused {
            kind,
            line: 0,
            column: 0,
        }
    }

    /// The failure of a text of 2^32 bytes or more.
    pub fn source_too_long() -> Self
        ensures kind { IsRefusedAs SourceTooLong result }
        ensures value { result ≡ refusal_at SourceTooLong None }
    {
        Failure::without_place(ErrorKind::SourceTooLong)
    }

    /// A refusal of memory where the error is that, otherwise the other failure.
    fn memory_or(error: &io::Error, other: Failure<'p>) -> Self
        ensures memory { error_kind error.now ≡ kind.OutOfMemory → IsRefusedAs OutOfMemory result }
        ensures other { error_kind error.now ≢ kind.OutOfMemory → result ≡ other.entry }
        ensures either { IsRefusedAs OutOfMemory result ⊎ (result ≡ other.entry) }
    {
        if error.kind() == io::ErrorKind::OutOfMemory {
            Failure::without_place(ErrorKind::OutOfMemory)
        } else {
            other
        }
    }

    /// The failure where the arguments of the process cannot be read, or one is not UTF-8.
    pub fn of_words(error: &io::Error) -> Self
        ensures memory { error_kind error.now ≡ kind.OutOfMemory → IsRefusedAs OutOfMemory result }
        ensures other { error_kind error.now ≢ kind.OutOfMemory → result ≡ Failure.Usage }
    {
        Failure::memory_or(error, Failure::Usage)
    }

    /// The failure where the file of this path cannot be read, be it a folder or no file.
    pub fn of_read(error: &io::Error, path: &'p str) -> Self
        ensures memory { error_kind error.now ≡ kind.OutOfMemory → IsRefusedAs OutOfMemory result }
        ensures other { error_kind error.now ≢ kind.OutOfMemory →
            result ≡ Failure.CannotRead path.entry }
        ensures status { error_kind error.now ≢ kind.OutOfMemory → status_of result ≡ 2 }
        ensures refused { IsRefused result → IsRefusedAs OutOfMemory result }
    {
        Failure::memory_or(error, Failure::CannotRead(path))
    }

    /// The failure where the output cannot be written.
    pub fn of_write(error: &io::Error) -> Self
        ensures memory { error_kind error.now ≡ kind.OutOfMemory → IsRefusedAs OutOfMemory result }
        ensures other { error_kind error.now ≢ kind.OutOfMemory → result ≡ Failure.CannotWrite }
        ensures refused { IsRefused result → IsRefusedAs OutOfMemory result }
    {
        Failure::memory_or(error, Failure::CannotWrite)
    }

    /// The failure where the syntax or the text is refused.
    pub fn of_refusal(error: &Error<'_>) -> Self
        ensures value { result ≡ refusal_of error.now }
        ensures status { status_of result ≡ 1 }
        ensures kind { IsRefusedAs (kind_of error.now) result }
    {
        let (line, column) = match error.span() {
            Some(span) => (span.start_line, span.start_col),
            None => (0, 0),
        };
        Failure::Refused {
            kind: error.kind(),
            line,
            column,
        }
    }

    /// Whether memory ran out.
    pub fn is_out_of_memory(&self) -> bool
        ensures { IsTrue result ↔ IsRefusedAs OutOfMemory self.now }
    {
        match self {
            Failure::Refused { kind, .. } => *kind == ErrorKind::OutOfMemory,
            _ => false,
        }
    }

    /// The status of the process: 1 where the syntax, the text or memory is refused, otherwise 2.
    pub fn status(&self) -> u8
        ensures { result ≡ status_of self.now }
    {
        match self {
            Failure::Refused { .. } => 1,
            _ => 2,
        }
    }
}

/// Refused memory has no place.
impl From<AllocError> for Failure<'_> {
    ghost use Rattle.mjc_commands.specs.Showing.{IsMemory};

    ghost from_gives = { λ _ failure. IsMemory failure };

    fn from(_: AllocError) -> Self {
        Failure::without_place(ErrorKind::OutOfMemory)
    }
}

impl<T: Drop> From<AllocFailed<T>> for Failure<'_> {
    ghost use Rattle.mjc_commands.specs.Showing.{IsMemory};

    ghost from_gives = { λ _ failure. IsMemory failure };

    fn from(_: AllocFailed<T>) -> Self {
        Failure::without_place(ErrorKind::OutOfMemory)
    }
}

impl fmt::Display for Failure<'_> {
    ghost use Rattle.std.specs.Prelude.{Some};
    ghost use Rattle.mjc_commands.specs.FailureWords.{failure_words};

    ghost output = { λ failure. Some (failure_words failure) };

    fn fmt<W: fmt::Write>(&self, f: &mut fmt::Formatter<W>) -> fmt::Result {
        match self {
            Failure::Usage => write!(
                f,
                "usage: mjc tokens|code|names|lint|replay [OPTION..] FILE [ANSWERS], mjc expr TEXT"
            ),
            Failure::CannotRead(path) => write!(f, "mjc: cannot read {path}"),
            Failure::Refused { kind, line, column } => {
                write!(f, "mjc: {} at {line}:{column}", kind_word(*kind))
            }
            Failure::BadAnswer(line) => write!(f, "mjc: bad answer on line {line}"),
            Failure::CannotWrite => write!(f, "mjc: cannot write"),
        }
    }
}

/// The name of a kind, as it is printed.
fn kind_word(kind: ErrorKind) -> &'static str
    ensures { result.now ≡ kind_word kind }
{
    match kind {
        ErrorKind::InvalidDelimiter => "InvalidDelimiter",
        ErrorKind::SyntaxError => "SyntaxError",
        ErrorKind::BadEscape => "BadEscape",
        ErrorKind::OutOfMemory => "OutOfMemory",
        ErrorKind::SourceTooLong => "SourceTooLong",
        ErrorKind::TooManyInstructions => "TooManyInstructions",
    }
}
