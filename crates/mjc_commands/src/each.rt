//! Runs of a command on each of several files.
ghost use Rattle.std.specs.Prelude.{◌≡◌, ◌≤◌, ◌⊎◌, ◌↔◌, ℕ, List, Option, IfSome, IsErrAnd, IsNone, IsSome, IsSomeAnd, IsTrue};
ghost use Rattle.std.specs.List.{All};
ghost use Rattle.minijinja_syntax.specs.Syntax.{IsBuildable, Syntax};
ghost use Rattle.minijinja_syntax.specs.Texts.{Text};
ghost use Rattle.mjc_commands.specs.Commands.{task_of};
ghost use Rattle.mjc_commands.specs.Each.{AskForSeveral, HasGoneThrough, HasMetNothing, HoldsFit, IsOnEach, MayEnd, rank};
ghost use Rattle.mjc_commands.specs.Failure.{IsSuccess};
ghost use Rattle.mjc_commands.specs.Showing.{IsMemory};
ghost use Rattle.mjc_commands.specs.Usage.{IsUsage, Task};

use crate::failure::Failure;
use crate::labelled::Labelled;
use crate::run::{Ending, refuse, say, show, status, syntax_of};
use crate::usage::{FileCommand, parse_several};
use crate::watched::Watched;
use minijinja_compiler::syntax::SyntaxConfig;
use std::alloc::Global;
use std::io::{self, Read, Write};

/// Opens files by their paths.
pub trait Files {
    type File: Read + Drop;

    /// The bytes that the file of a path is known to hold, if that is known.
    ghost held: { Self → Text → Option (List ℕ) };

    /// The file of this path, where `-` is standard input. One that does not open fails when it is
    /// read.
    fn open(&self, path: &str) -> Self::File
        ensures { Self.File.remaining result ≡ held self.now path.now };
}

/// How runs on several files end.
#[derive(Clone, Copy)]
pub struct Endings {
    /// The worst of their statuses: 2 is worse than 1, that is worse than 3, and that than 0.
    pub status: u8,
    /// Whether one of them was refused memory.
    pub is_out_of_memory: bool,
    /// The error of the last read that failed.
    pub read_error: Option<io::Error>,
    /// The error of the last write to the output that failed.
    pub write_error: Option<io::Error>,
}

impl Endings {
    ghost use Rattle.std.specs.Prelude.{◌≡◌, ◌≤◌, ◌⊎◌};
    ghost use Rattle.mjc_commands.specs.Each.{HasMetNothing, rank};

    /// How runs end of which there is none.
    fn none() -> Self
        ensures status { result.status ≡ 0 }
    {
        Endings {
            status: 0,
            is_out_of_memory: false,
            read_error: None,
            write_error: None,
        }
    }

    /// How these runs end and then those.
    fn then(self, next: Endings) -> Self
        ensures first { rank self.status ≤ rank result.status }
        ensures second { rank next.status ≤ rank result.status }
        ensures one { (result.status ≡ self.status) ⊎ (result.status ≡ next.status) }
        ensures met { HasMetNothing result → HasMetNothing self × HasMetNothing next }
    {
        Endings {
            status: worse(self.status, next.status),
            is_out_of_memory: self.is_out_of_memory || next.is_out_of_memory,
            read_error: next.read_error.or(self.read_error),
            write_error: next.write_error.or(self.write_error),
        }
    }
}

/// Runs `names` or `lint` on each of several files. `None` where the words do not ask for that.
///
/// Each line begins with the file that it is about. A file that fails does not keep the others from
/// being read, but an output that cannot be written ends the run.
pub fn run_each<F: Files, W: Write, X: Write>(
    alloc: Global,
    args: &[&str],
    files: &F,
    out: &mut W,
    err: &mut X,
) -> Option<Endings>
    ensures within { IfSome result (λ endings. endings.status ≤ 3) }

    // Where it ends with success, each file that the words name, if its bytes are known, holds a
    // text that can be shown, and where that is with 0, a linter finds nothing in it.
    ensures through { IfSome result (λ endings. IsSuccess endings.status →
        HasGoneThrough args.now (F.held files.now) endings.status) }

    // It ends with success where the syntax can be built and each file is known to hold a text that
    // can be shown, unless a read or a write fails, or memory runs out.
    ensures accepts { (task : Task) → (syntax : Syntax) → (paths : List Text) →
        AskForSeveral args.now task syntax paths → IsBuildable syntax →
        All (λ path. HoldsFit task syntax (F.held files.now path)) paths →
        IsSomeAnd result (λ endings. HasMetNothing endings → IsSuccess endings.status) }

    // Words that `run` heeds are left to it.
    ensures one { IsUsage args.now → IsNone result }
    ensures unwritten { IsUsage args.now → out.new ≡ out.old }
{
    let (command, paths) = parse_several(args)?;
    match syntax_of(alloc, &command) {
        Ok(syntax) => Some(run_on_each(alloc, command, &syntax, paths, files, out, err)),
        Err(failure) => Some(Endings {
            status: refuse(err, failure),
            is_out_of_memory: failure.is_out_of_memory(),
            ..Endings::none()
        }),
    }
}

fn run_on_each<'a, F: Files, W: Write, X: Write>(
    alloc: Global,
    mut command: FileCommand<'a>,
    syntax: &SyntaxConfig,
    paths: &[&'a str],
    files: &F,
    out: &mut W,
    err: &mut X,
) -> Endings
    ensures within { result.status ≤ 3 }
    ensures through { IsSuccess result.status → All (λ path. MayEnd
        (task_of command.entry.action) syntax.now (F.held files.now path.now) result.status)
        paths.entry.now }
    ensures accepts { HasMetNothing result → IsOnEach (task_of command.entry.action) →
        IsBuildable syntax.now → All (λ path. HoldsFit (task_of command.entry.action) syntax.now
        (F.held files.now path.now)) paths.entry.now → IsSuccess result.status }
{
    let mut endings = Endings::none();
    for path in paths {
        command.file = *path;
        let next = run_labelled(alloc, &command, syntax, files.open(*path), out, err);
        endings = endings.then(next);
        if next.write_error.is_some() {
            return endings;
        }
    }
    endings
}

/// Does what a command asks of its file. Each line, also that of a failure, begins with the file.
fn run_labelled<R: Read + Drop, W: Write, X: Write>(
    alloc: Global,
    command: &FileCommand<'_>,
    syntax: &SyntaxConfig,
    file: R,
    out: &mut W,
    err: &mut X,
) -> Endings
    ensures within { result.status ≤ 3 }
    ensures through { IsSuccess result.status → MayEnd (task_of command.now.action) syntax.now
        (R.remaining file) result.status }
    ensures stops { IsSome result.write_error → ¬ IsSuccess result.status }
    ensures accepts { HasMetNothing result → IsOnEach (task_of command.now.action) →
        IsBuildable syntax.now → HoldsFit (task_of command.now.action) syntax.now
        (R.remaining file) → IsSuccess result.status }
{
    let (mut file, mut answers) = (file, io::empty());
    let (mut file, mut answers) = (Watched::new(&mut file), Watched::new(&mut answers));
    let mut labelled = Labelled::new(out, command.file);
    let mut out = Watched::new(&mut labelled);
    let ending = show(alloc, command, syntax, &mut file, &mut answers, &mut out);
    if let Err(failure) = &ending {
        say(
            &mut Watched::new(&mut Labelled::new(err, command.file)),
            failure,
        );
    }
    Endings {
        status: status(&ending),
        is_out_of_memory: is_out_of_memory(&ending),
        read_error: file.error(),
        write_error: out.error(),
    }
}

/// Whether a run was refused memory.
fn is_out_of_memory(ending: &Result<Ending, Failure<'_>>) -> bool
    ensures { IsTrue result ↔ IsErrAnd ending.now IsMemory }
{
    match ending {
        Ok(_) => false,
        Err(failure) => failure.is_out_of_memory(),
    }
}

/// The worse of two statuses.
fn worse(status: u8, other: u8) -> u8
    ensures first { rank status ≤ rank result }
    ensures second { rank other ≤ rank result }
    ensures one { (result ≡ status) ⊎ (result ≡ other) }
{
    if rank(status) < rank(other) {
        other
    } else {
        status
    }
}

/// How bad a status is.
fn rank(status: u8) -> u8
    ensures { result ≡ rank status }
{
    match status {
        0 => 0,
        3 => 1,
        1 => 2,
        _ => 3,
    }
}
