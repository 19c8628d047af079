//! A stream that remembers the error of the last call that failed, for contracts to speak of.
ghost use Rattle.std.specs.Prelude.{◌≡◌, None, IfOk, IfSome, IsErr, OnOk, string_bytes};
ghost use Rattle.std.specs.Io.KnownBytes.{IsAtEnd};
ghost use Rattle.mjc_commands.specs.Reading.{IsNoText};
ghost use Rattle.mjc_commands.specs.Watched.{error_of, stream_of, IsKept, IsUnfailed, IsWritten, Notes, Watches};

use std::alloc::Global;
use std::fmt::Display;
use std::io::{self, Read, Write};

/// A reader or a writer, and the error of the last of its calls that failed. No clause of `Read` or
/// of `Write` says that a call fails, so this type keeps the errors that it returned.
#[derive(Drop)]
pub struct Watched<'s, S> {
    stream: &'s mut S,
    error: Option<io::Error>,
}

impl<'s, S> Watched<'s, S> {
    /// A stream of which no call has failed.
    pub fn new(stream: &'s mut S) -> Self
        ensures stream { stream_of result ≡ stream.old }
        ensures watches { Watches result stream.entry }
        ensures unfailed { IsUnfailed result }
    {
        Watched {
            stream,
            error: None,
        }
    }

    /// The error of the last call that failed, if one has.
    pub fn error(&self) -> Option<io::Error>
        ensures { result ≡ error_of self.now }
    {
        self.error
    }
}

impl<R: Read> Watched<'_, R> {
    /// Reads the whole stream, which has to be UTF-8.
    pub fn read_text(&mut self, alloc: Global) -> io::Result<String>
        ensures text { IfOk result (λ text. IfSome (R.remaining (stream_of self.old))
            (λ bytes. string_bytes text ≡ bytes)) }
        ensures unreadable { IsNoText (R.remaining (stream_of self.old)) → IsErr result }
        ensures whole { OnOk result (IsAtEnd (R.remaining (stream_of self.new))) }
        ensures notes { Notes self.old self.new result }
    {
        let mut text = String::new(alloc);
        match self.stream.read_to_string(&mut text) {
            Ok(_) => Ok(text),
            Err(error) => {
                self.error = Some(error);
                Err(error)
            }
        }
    }
}

impl<W: Write> Watched<'_, W> {
    /// Writes a text; `write!` and `writeln!` call this.
    pub fn write_fmt<D: Display + Drop>(&mut self, text: D) -> io::Result<()>
        ensures bytes { OnOk result (IfSome (D.output text)
            (IsWritten W.contents self.old self.new)) }
        ensures notes { Notes self.old self.new result }
    {
        match self.stream.write_fmt(text) {
            Ok(()) => Ok(()),
            Err(error) => {
                self.error = Some(error);
                Err(error)
            }
        }
    }

    /// Writes out what the writer has buffered.
    pub fn flush(&mut self) -> io::Result<()>
        ensures bytes { IsKept W.contents self.old self.new }
        ensures notes { Notes self.old self.new result }
    {
        match self.stream.flush() {
            Ok(()) => Ok(()),
            Err(error) => {
                self.error = Some(error);
                Err(error)
            }
        }
    }
}
