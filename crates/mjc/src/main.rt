//! The program `mjc`, which prints the tokens, code, names and runs of templates, and expressions'
//! code.
#![tactic(auto)]

mod source;
#[cfg(test)]
mod tests;

use mjc_commands::each::run_each;
use mjc_commands::failure::Failure;
use mjc_commands::run::{refuse, run_watched, status};
use mjc_commands::watched::Watched;
use mjc_commands::{Command, parse};
use source::{Opener, Source};
use std::env;
use std::io::{self, BufWriter, Write};
use std::process::ExitCode;

/// Runs with the words and the streams of the process.
fn start(rt: &HostRuntime) -> io::Result<u8> {
    let alloc = rt.alloc();
    let words: Vec<String> = env::args(rt)?.skip(1).collect(alloc)?;
    let args: Vec<&str> = words.iter().map(|word| word.as_str()).collect(alloc)?;
    let mut out = BufWriter::new(alloc, rt.stdout())?;
    let status = match parse(&args) {
        Some(command) => run_one(rt, &command, &mut out),
        None => match run_each(alloc, &args, &Opener(rt), &mut out, &mut rt.stderr()) {
            Some(endings) => endings.status,
            None => refuse(&mut rt.stderr(), Failure::Usage),
        },
    };
    // What could not be written is not tried again.
    let _ = out.into_parts();
    Ok(status)
}

/// Runs a command on the files that it names.
fn run_one<W: Write>(rt: &HostRuntime, command: &Command<'_>, out: &mut W) -> u8 {
    let mut file = Source::open(rt, command.file());
    let mut answers = Source::open(rt, command.answers());
    let mut err = rt.stderr();
    let ending = run_watched(
        rt.alloc(),
        command,
        &mut Watched::new(&mut file),
        &mut Watched::new(&mut answers),
        &mut Watched::new(out),
        &mut Watched::new(&mut err),
    );
    status(&ending)
}

fn main(rt: HostRuntime) -> ExitCode {
    let status = match start(&rt) {
        Ok(status) => status,
        Err(error) => refuse(&mut rt.stderr(), Failure::of_words(&error)),
    };
    ExitCode::from(status)
}
