//! The file or the standard input that a template is read from.
use mjc_commands::each::Files;
use std::fs::File;
use std::io::{self, Read, Stdin};

/// A file, standard input, or what fails at each read since there is no such file.
#[derive(Drop)]
pub enum Source {
    File(File),
    StandardInput(Stdin),
    Unopened(io::Error),
}

impl Source {
    /// Opens the path, where `-` is standard input.
    pub fn open(rt: &HostRuntime, path: Option<&str>) -> Source {
        match path {
            Some("-") => Source::StandardInput(rt.stdin()),
            Some(path) => match File::open(rt, path) {
                Ok(file) => Source::File(file),
                Err(error) => Source::Unopened(error),
            },
            None => Source::Unopened(io::Error::from(io::ErrorKind::NotFound)),
        }
    }
}

impl Read for Source {
    fn read(&mut self, buf: &mut [u8]) -> io::Result<usize> {
        match self {
            Source::File(file) => file.read(buf),
            Source::StandardInput(input) => input.read(buf),
            Source::Unopened(error) => Err(*error),
        }
    }
}

/// Opens each file when it is asked for.
#[derive(Drop)]
pub struct Opener<'r>(pub &'r HostRuntime);

impl Files for Opener<'_> {
    ghost use Rattle.std.specs.Prelude.{None};

    type File = Source;

    // Of the files of the process nothing is known.
    ghost held = { λ _ _. None };

    fn open(&self, path: &str) -> Source {
        Source::open(self.0, Some(path))
    }
}
