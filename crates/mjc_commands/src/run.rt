//! One run of the program, on any readers and writers.
ghost use Rattle.std.specs.Prelude.{◌≡◌, ◌≤◌, ◌⊎◌, ◌++◌, codes, if◌then◌else◌, IfErr, IfOk, IfSome, IsErr, IsErrOf, IsOk, None, OnOk, Some, map, string_bytes};
ghost use Rattle.std.specs.BTreeSet.{keys};
ghost use Rattle.std.specs.Io.KnownBytes.{Appends, IsAtEnd};
ghost use Rattle.minijinja_syntax.specs.Texts.{Text};
ghost use Rattle.minijinja_syntax.specs.Syntax.{IsBuildable};
ghost use Rattle.minijinja_value.specs.ValueFunctions.{value_functions};
ghost use Rattle.minijinja_value.specs.ValueViews.{contents_of};
ghost use Rattle.minijinja_tree.specs.SpannedErasure.{stmt_node};
ghost use Rattle.minijinja_meta.specs.Mentions.{nested_names, plain_names, way};
ghost use Rattle.minijinja_lint.specs.Findings.{remark_of};
ghost use Rattle.minijinja_compiler.specs.Headline.{IsCompiled};
ghost use Rattle.mjc_commands.specs.AnswerFile.{IsAnswerFile};
ghost use Rattle.mjc_commands.specs.Failure.{IsRefused, IsSuccess, ending_status, exit_status, status_of};
ghost use Rattle.mjc_commands.specs.FailureWords.{failure_words};
ghost use Rattle.mjc_commands.specs.Linting.{EndsWithFindings, IsLinted, ending_with};
ghost use Rattle.mjc_commands.specs.Output.{Adds, AreFindingsIn, IsExprOutput, IsOutput, IsRunOf, Prints};
ghost use Rattle.mjc_commands.specs.Printed.{names_words};
ghost use Rattle.mjc_commands.specs.Reading.{IsNoText};
ghost use Rattle.mjc_commands.specs.Refusals.{IsRefusalOf, IsSyntaxRefusal, IsTemplateRefusal};
ghost use Rattle.mjc_commands.specs.Runs.{RunsOn, RunsOnExpr, Tells};
ghost use Rattle.mjc_commands.specs.Settings.{syntax_with};
ghost use Rattle.mjc_commands.specs.Showing.{HasAnswers, IsMemory, IsOfContents, IsShowable, IsShowableExpr, IsTooLarge, OfFile, Succeeds};
ghost use Rattle.mjc_commands.specs.TemplateRuns.{IsCode};
ghost use Rattle.mjc_commands.specs.Usage.{AsksExpr, AsksVersion, IsAboutUsage, IsExprUsage, IsFileUsage, IsLintUsage, IsReplayUsage, IsUnbuildable, IsUsage, Request, tokens, code, names, lint, replay};
ghost use Rattle.mjc_commands.specs.Watched.{stream_of, IsUnfailed, IsWritten, Stops};
ghost use Rattle.mjc_commands.specs.Commands.{answers_of, file_of, syntax_of, task_of, HasBuildable, IsAboutCommand, IsExprCommandFor, IsFileCommandFor, IsLintCommand};

use crate::answers::read_answers;
use crate::failure::Failure;
use crate::help::{HELP, VERSION};
use crate::print::{
    print_code, print_expression, print_findings, print_names, print_run, print_text, print_tokens,
};
use crate::template::replay_template;
use crate::usage::{Action, Command, FileCommand, parse};
use crate::watched::Watched;
use minijinja_compiler::ast::Stmt;
use minijinja_compiler::compile::{Compiled, compile, compile_expression};
use minijinja_compiler::lexer::Tokenizer;
use minijinja_compiler::meta::find_undeclared;
use minijinja_compiler::parser::parse as parse_template;
use minijinja_compiler::syntax::SyntaxConfig;
use minijinja_compiler::value::Value;
use minijinja_lint::lint::{Finding, lint};
use std::alloc::Global;
use std::collections::BTreeSet;
use std::io::{Read, Write};

/// How a run ends that does not fail.
#[derive(Clone, Copy, Debug, PartialEq, Eq)]
pub enum Ending {
    /// It did what was asked for.
    Done,
    /// It printed what a linter found, which is something.
    Found,
}

/// Runs a command, and returns the status of the process: 0 for success, 1 where the syntax or the
/// text is refused or memory runs out, 2 for bad usage, for answers that are none, and where
/// something cannot be read or written, and 3 where `lint` found something.
///
/// `args` are the words after the program's name, `file` is the file that they name, and `answers`
/// that of the answers, which only `replay` reads. A failure is one line on `err`; a failing write
/// there is ignored. [`run_watched`] tells more, of streams that keep their errors.
pub fn run<R: Read, Q: Read, W: Write, X: Write>(
    alloc: Global,
    args: &[&str],
    file: &mut R,
    answers: &mut Q,
    out: &mut W,
    err: &mut X,
) -> u8
    ensures within { result ≤ 3 }

    // Bad usage reads nothing and prints nothing on `out`.
    ensures misused { ¬ IsUsage args.now → result ≡ 2 }
    ensures unread { ¬ IsUsage args.now → file.new ≡ file.old }
    ensures unwritten { ¬ IsUsage args.now → out.new ≡ out.old }

    // A syntax that cannot be built is refused before anything is read.
    ensures unbuilt { IsUnbuildable args.now → result ≡ 1 }
    ensures unbuilt_unread { IsUnbuildable args.now → file.new ≡ file.old }
    ensures unbuilt_unwritten { IsUnbuildable args.now → out.new ≡ out.old }

    // A file that is no text is no success, and nothing is printed of it. An expression stands in
    // the words: no file is read. Nor is one for what the program says of itself.
    ensures unreadable { IsFileUsage args.now → IsNoText (R.remaining file.old) →
        ¬ IsSuccess result }
    ensures unprinted { IsFileUsage args.now → IsNoText (R.remaining file.old) →
        out.new ≡ out.old }
    ensures expr { IsExprUsage args.now → file.new ≡ file.old }
    ensures about { IsAboutUsage args.now → file.new ≡ file.old }

    // Only `replay` reads answers, and none where the text is refused. Where it succeeds, each of
    // their lines is an answer.
    ensures unasked { ¬ IsReplayUsage args.now → answers.new ≡ answers.old }
    ensures unanswered { OfFile args.now (R.remaining file.old) (λ task syntax source.
        ¬ IsShowable task syntax source → answers.new ≡ answers.old) }
    ensures answered { IsReplayUsage args.now → result ≡ 0 →
        IfSome (Q.remaining answers.old) IsAnswerFile }

    // A text that is refused, by the tokenizer or the grammar, is no success. Only `lint` finds
    // something: what a linter finds in its tree.
    ensures shown { IsSuccess result → OfFile args.now (R.remaining file.old) IsShowable }
    ensures found { result ≡ 3 → IsLintUsage args.now }
    ensures linted { OfFile args.now (R.remaining file.old) (λ task syntax source. task ≡ lint →
        (result ≡ 0 → IsLinted syntax source Ending.Done) ×
        (result ≡ 3 → IsLinted syntax source Ending.Found)) }
    ensures expr_shown { result ≡ 0 → (source : Text) → AsksExpr args.now source →
        IsShowableExpr source }

    // A success prints what is asked for and nothing else, and says nothing on `err`.
    ensures printed { IsSuccess result → OfFile args.now (R.remaining file.old)
        (λ task syntax source. Adds (W.contents out.old) (W.contents out.new)
        (IsOutput task syntax source (Q.remaining answers.old))) }
    ensures expr_printed { result ≡ 0 → (source : Text) → AsksExpr args.now source →
        Adds (W.contents out.old) (W.contents out.new) (IsExprOutput source) }
    ensures version { result ≡ 0 → AsksVersion args.now →
        Appends (W.contents out.old) (W.contents out.new) (codes "mjc 1.0.0\n") }
    ensures silent { IsSuccess result → err.new ≡ err.old }
{
    let Some(command) = parse(args) else {
        return refuse(err, Failure::Usage);
    };
    let (mut file, mut answers) = (Watched::new(file), Watched::new(answers));
    let (mut out, mut err) = (Watched::new(out), Watched::new(err));
    let ending = run_watched(alloc, &command, &mut file, &mut answers, &mut out, &mut err);
    status(&ending)
}

/// Runs a command, and returns why it fails: see [`status`]. `file` is the file that it reads, and
/// `answers` that of the answers. A failure is one line on `err`; a failing write there is ignored.
pub fn run_watched<'a, R: Read, Q: Read, W: Write, X: Write>(
    alloc: Global,
    command: &Command<'a>,
    file: &mut Watched<'_, R>,
    answers: &mut Watched<'_, Q>,
    out: &mut Watched<'_, W>,
    err: &mut Watched<'_, X>,
) -> Result<Ending, Failure<'a>>
    // A syntax that cannot be built is refused before anything is read.
    ensures unbuilt { ¬ HasBuildable command.now → ending_status result ≡ 1 }
    ensures unbuilt_told { ¬ HasBuildable command.now → IfErr result IsSyntaxRefusal }
    ensures unbuilt_unread { ¬ HasBuildable command.now → file.new ≡ file.old }
    ensures unbuilt_unanswered { ¬ HasBuildable command.now → answers.new ≡ answers.old }
    ensures unbuilt_unwritten { ¬ HasBuildable command.now → out.new ≡ out.old }

    // What is asked of a file is done, and so is what is asked of an expression.
    ensures on_file { (request : Request) → IsFileCommandFor request command.now →
        RunsOn R.remaining Q.remaining W.contents request.task (syntax_with request.settings)
        file.old file.new answers.old answers.new out.old out.new result }
    ensures on_expr { (source : Text) → IsExprCommandFor source command.now →
        RunsOnExpr W.contents source out.old out.new result }

    // What the program says of itself is printed unless a write fails.
    ensures helped { IsAboutCommand command.now → IsUnfailed out.new → IsOk result }
    ensures version { command.now ≡ Command.Version →
        OnOk result (IsWritten W.contents out.old out.new (codes "mjc 1.0.0\n")) }

    // A file is read only where one is named, and answers only by a replay. Only a linter finds
    // something.
    ensures unread { file_of command.now ≡ None → file.new ≡ file.old }
    ensures unasked { answers_of command.now ≡ None → answers.new ≡ answers.old }
    ensures found { IfOk result (λ ending. ending ≡ Ending.Found → IsLintCommand command.now) }

    // A read or a write that fails ends the run: in status 1 if memory is refused, otherwise 2.
    // Where none fails, what is wrong lies in what was read.
    ensures file_read { Stops file.old file.new (ending_status result) }
    ensures answers_read { Stops answers.old answers.new (ending_status result) }
    ensures out_written { Stops out.old out.new (ending_status result) }
    ensures unfailed { IsUnfailed file.new → IsUnfailed answers.new → IsUnfailed out.new →
        IfErr result (IsOfContents (Q.remaining (stream_of answers.old))) }

    // A failure is told on `err`, in one line, and a success leaves it as it was.
    ensures told { Tells X.contents err.old err.new result }
{
    match command {
        Command::File(command) => { told(err, run_on_file(alloc, command, file, answers, out)) }
        Command::Expr(text) => told(err, show_expression(alloc, text, out)),
        Command::Help => told(err, say_of_itself(HELP, out)),
        Command::Version => told(err, say_of_itself(VERSION, out)),
    }
}

/// How a run ends, after a failure was told on `err`; a failing write there is ignored.
fn told<'a, X: Write>(
    err: &mut Watched<'_, X>,
    ending: Result<Ending, Failure<'a>>,
) -> Result<Ending, Failure<'a>>
    ensures same { result ≡ ending.entry }
    ensures told { Tells X.contents err.old err.new result }
{
    if let Err(failure) = &ending {
        say(err, failure);
    }
    ending
}

/// The status of the process: 0 for success, 1 where the syntax or the text is refused or memory
/// runs out, 2 for bad usage, for answers that are none, and where something cannot be read or
/// written, and 3 where `lint` found something.
pub fn status(ending: &Result<Ending, Failure<'_>>) -> u8
    ensures value { result ≡ exit_status ending.now }
    ensures within { result ≤ 3 }
{
    match ending {
        Ok(Ending::Done) => 0,
        Ok(Ending::Found) => 3,
        Err(failure) => failure.status(),
    }
}

/// Writes on `err` why a run fails, and returns the status of the process.
pub fn refuse<X: Write>(err: &mut X, failure: Failure<'_>) -> u8
    ensures { result ≡ status_of failure.entry }
{
    say(&mut Watched::new(err), &failure);
    failure.status()
}

/// Writes on `err` why a run fails. Where that fails, nothing can be said of it.
pub(crate) fn say<X: Write>(err: &mut Watched<'_, X>, failure: &Failure<'_>)
    ensures { IsUnfailed err.new → IsWritten X.contents err.old err.new
        (failure_words failure.now ++ codes "\n") }
{
    let _ = writeln!(err, "{failure}");
}

/// The syntax that the options of a command specify.
pub(crate) fn syntax_of<'a>(
    alloc: Global,
    command: &FileCommand<'a>,
) -> Result<SyntaxConfig, Failure<'a>>
    ensures value { IfOk result (λ syntax. syntax ≡ syntax_of command.now.options) }
    ensures unbuilt { ¬ IsBuildable (syntax_of command.now.options) → IsErr result }
    ensures built { IsBuildable (syntax_of command.now.options) → IfErr result IsMemory }
    ensures status { IfErr result (λ failure. status_of failure ≡ 1) }
    ensures told { IfErr result IsSyntaxRefusal }
{
    match command.options.build(alloc) {
        Ok(syntax) => Ok(syntax),
        Err(error) => Err(Failure::of_refusal(&error)),
    }
}

/// Does what a command asks of its file. A syntax that cannot be built is refused before anything
/// is read.
fn run_on_file<'a, R: Read, Q: Read, W: Write>(
    alloc: Global,
    command: &FileCommand<'a>,
    file: &mut Watched<'_, R>,
    answers: &mut Watched<'_, Q>,
    out: &mut Watched<'_, W>,
) -> Result<Ending, Failure<'a>>
    ensures unbuilt { ¬ IsBuildable (syntax_of command.now.options) → ending_status result ≡ 1 }
    ensures unbuilt_told { ¬ IsBuildable (syntax_of command.now.options) →
        IfErr result IsSyntaxRefusal }
    ensures unbuilt_unread { ¬ IsBuildable (syntax_of command.now.options) → file.new ≡ file.old }
    ensures unbuilt_unanswered { ¬ IsBuildable (syntax_of command.now.options) →
        answers.new ≡ answers.old }
    ensures unbuilt_unwritten { ¬ IsBuildable (syntax_of command.now.options) → out.new ≡ out.old }
    ensures on_file { RunsOn R.remaining Q.remaining W.contents (task_of command.now.action)
        (syntax_of command.now.options)
        file.old file.new answers.old answers.new out.old out.new result }
{
    let syntax = syntax_of(alloc, command)?;
    show(alloc, command, &syntax, file, answers, out)
}

/// Writes what the program says of itself.
fn say_of_itself<'a, W: Write>(text: &str, out: &mut Watched<'_, W>) -> Result<Ending, Failure<'a>>
    ensures printed { OnOk result (IsWritten W.contents out.old out.new text.now) }
    ensures done { IfOk result (λ ending. ending ≡ Ending.Done) }
    ensures succeeds { IsUnfailed out.new → IsOk result }
    ensures out_written { Stops out.old out.new (ending_status result) }
{
    print_text(out, text).map_err(|error| Failure::of_write(&error))?;
    Ok(Ending::Done)
}

/// Reads the file of a command and writes its tokens, its code, its names, what a linter finds in
/// it, the code of the expression that it is, or a run of its code.
pub(crate) fn show<'a, R: Read, Q: Read, W: Write>(
    alloc: Global,
    command: &FileCommand<'a>,
    syntax: &SyntaxConfig,
    file: &mut Watched<'_, R>,
    answers: &mut Watched<'_, Q>,
    out: &mut Watched<'_, W>,
) -> Result<Ending, Failure<'a>>
    ensures { RunsOn R.remaining Q.remaining W.contents (task_of command.now.action) syntax.now
        file.old file.new answers.old answers.new out.old out.new result }
{
    let path = command.file;
    let text = file
        .read_text(alloc)
        .map_err(|error| Failure::of_read(&error, path))?;
    match command.action {
        Action::Tokens => show_tokens(alloc, path, &text, syntax, out),
        Action::Code => show_code(alloc, path, &text, syntax, out),
        Action::Names => show_names(alloc, path, &text, syntax, out),
        Action::Lint => show_findings(alloc, path, &text, syntax, out),
        Action::Expression => show_expression(alloc, &text, out),
        Action::Replay(answers_path) => {
            show_replay(alloc, path, &text, syntax, answers_path, answers, out)
        }
    }
}

/// Writes the tokens of a text, also those before a refusal.
fn show_tokens<'a, W: Write>(
    alloc: Global,
    path: &'a str,
    text: &str,
    syntax: &SyntaxConfig,
    out: &mut Watched<'_, W>,
) -> Result<Ending, Failure<'a>>
    ensures done { IfOk result (λ ending. ending ≡ Ending.Done) }
    ensures shown { OnOk result (IsShowable tokens syntax.now text.now) }
    ensures printed { OnOk result (Prints W.contents out.old out.new
        (IsOutput tokens syntax.now text.now None)) }
    ensures told { IfErr result (λ failure. IsRefused failure →
        IsRefusalOf tokens syntax.now text.now failure) }
    ensures succeeds { IsUnfailed out.new → IsShowable tokens syntax.now text.now →
        Succeeds tokens syntax.now text.now result }
    ensures written { Stops out.old out.new (ending_status result) }
    ensures unfailed { IsUnfailed out.new → IfErr result IsRefused }
{
    if text.len() > u32::MAX as usize {
        return Err(Failure::source_too_long());
    }
    let mut tokens = Tokenizer::new(alloc, text, path, false, syntax);
    match print_tokens(out, &mut tokens) {
        Ok(None) => Ok(Ending::Done),
        Ok(Some(error)) => Err(Failure::of_refusal(&error)),
        Err(error) => Err(Failure::of_write(&error)),
    }
}

/// Compiles a text.
fn compiled<'a, 's>(
    alloc: Global,
    path: &'s str,
    text: &'s str,
    syntax: &SyntaxConfig,
) -> Result<Compiled<'s, Value>, Failure<'a>>
    ensures compiled { IfOk result
        (IsCompiled value_functions contents_of syntax.now text.now path.now) }
    ensures shown { OnOk result (IsShowable code syntax.now text.now) }
    ensures told { IfErr result (IsTemplateRefusal syntax.now text.now) }
    ensures succeeds { IsShowable code syntax.now text.now →
        IfErr result (λ failure. IsMemory failure ⊎ IsTooLarge code syntax.now text.now) }
    ensures refused { IfErr result IsRefused }
{
    match compile(alloc, text, path, syntax) {
        Ok(code) => Ok(code),
        Err(error) => Err(Failure::of_refusal(&error)),
    }
}

/// Compiles a text and writes its code.
fn show_code<'a, W: Write>(
    alloc: Global,
    path: &'a str,
    text: &str,
    syntax: &SyntaxConfig,
    out: &mut Watched<'_, W>,
) -> Result<Ending, Failure<'a>>
    ensures done { IfOk result (λ ending. ending ≡ Ending.Done) }
    ensures shown { OnOk result (IsShowable code syntax.now text.now) }
    ensures printed { OnOk result (Prints W.contents out.old out.new
        (IsOutput code syntax.now text.now None)) }
    ensures told { IfErr result (λ failure. IsRefused failure →
        IsRefusalOf code syntax.now text.now failure) }
    ensures succeeds { IsUnfailed out.new → IsShowable code syntax.now text.now →
        Succeeds code syntax.now text.now result }
    ensures written { Stops out.old out.new (ending_status result) }
    ensures unfailed { IsUnfailed out.new → IfErr result IsRefused }
{
    let code = compiled(alloc, path, text, syntax)?;
    print_code(out, &code).map_err(|error| Failure::of_write(&error))?;
    Ok(Ending::Done)
}

/// Compiles a text, reads answers, and writes the run of the code on them.
fn show_replay<'a, Q: Read, W: Write>(
    alloc: Global,
    path: &'a str,
    text: &str,
    syntax: &SyntaxConfig,
    answers_path: &'a str,
    answers: &mut Watched<'_, Q>,
    out: &mut Watched<'_, W>,
) -> Result<Ending, Failure<'a>>
    ensures done { IfOk result (λ ending. ending ≡ Ending.Done) }
    ensures shown { OnOk result (IsShowable (replay answers_path.now) syntax.now text.now) }
    ensures printed { OnOk result (Prints W.contents out.old out.new
        (IsOutput (replay answers_path.now) syntax.now text.now
        (Q.remaining (stream_of answers.old)))) }
    ensures told { IfErr result (λ failure. IsRefused failure →
        IsRefusalOf (replay answers_path.now) syntax.now text.now failure) }
    ensures unanswered { ¬ IsShowable (replay answers_path.now) syntax.now text.now →
        answers.new ≡ answers.old }
    ensures whole { OnOk result (IsAtEnd (Q.remaining (stream_of answers.new))) }
    ensures answered { OnOk result (IfSome (Q.remaining (stream_of answers.old)) IsAnswerFile) }
    ensures succeeds { IsUnfailed answers.new → IsUnfailed out.new →
        IsShowable (replay answers_path.now) syntax.now text.now →
        HasAnswers (replay answers_path.now) (Q.remaining (stream_of answers.old)) →
        Succeeds (replay answers_path.now) syntax.now text.now result }
    ensures answers_read { Stops answers.old answers.new (ending_status result) }
    ensures written { Stops out.old out.new (ending_status result) }
    ensures unfailed { IsUnfailed answers.new → IsUnfailed out.new →
        IfErr result (IsOfContents (Q.remaining (stream_of answers.old))) }
{
    let code = compiled(alloc, path, text, syntax)?;
    let given = answers
        .read_text(alloc)
        .map_err(|error| Failure::of_read(&error, answers_path))?;
    write_run(alloc, &code, &given, out)
}

/// Reads answers from a text, runs code on them, and writes the run.
fn write_run<'a, W: Write>(
    alloc: Global,
    code: &Compiled<'_, Value>,
    text: &str,
    out: &mut Watched<'_, W>,
) -> Result<Ending, Failure<'a>>
    requires { IsCode code.now }
    ensures done { IfOk result (λ ending. ending ≡ Ending.Done) }
    ensures answered { OnOk result (IsAnswerFile text.now) }
    ensures printed { OnOk result (Prints W.contents out.old out.new
        (IsRunOf code.now text.now)) }
    ensures told { IfErr result (λ failure. IsRefused failure → IsMemory failure) }
    ensures succeeds { IsUnfailed out.new → IsAnswerFile text.now → IfErr result IsMemory }
    ensures written { Stops out.old out.new (ending_status result) }
    ensures unfailed { IsUnfailed out.new → IfErr result (IsOfContents (Some text.now)) }
{
    let answers = read_answers(alloc, text)?;
    let run = replay_template(alloc, code, answers).map_err(|error| Failure::of_refusal(&error))?;
    print_run(out, &code.instructions, run).map_err(|error| Failure::of_write(&error))?;
    Ok(Ending::Done)
}

/// Writes the names that a text needs from outside: the plain ones, and then those with the
/// attributes that are taken of them.
fn show_names<'a, W: Write>(
    alloc: Global,
    path: &'a str,
    text: &str,
    syntax: &SyntaxConfig,
    out: &mut Watched<'_, W>,
) -> Result<Ending, Failure<'a>>
    ensures done { IfOk result (λ ending. ending ≡ Ending.Done) }
    ensures shown { OnOk result (IsShowable names syntax.now text.now) }
    ensures printed { OnOk result (Prints W.contents out.old out.new
        (IsOutput names syntax.now text.now None)) }
    ensures told { IfErr result (λ failure. IsRefused failure →
        IsRefusalOf names syntax.now text.now failure) }
    ensures succeeds { IsUnfailed out.new → IsShowable names syntax.now text.now →
        Succeeds names syntax.now text.now result }
    ensures written { Stops out.old out.new (ending_status result) }
    ensures unfailed { IsUnfailed out.new → IfErr result IsRefused }
{
    match parse_template::<Value>(alloc, text, path, syntax) {
        Ok(template) => write_names(alloc, &template, out),
        Err(error) => Err(Failure::of_refusal(&error)),
    }
}

/// Writes the names that a template needs from outside.
fn write_names<'a, W: Write>(
    alloc: Global,
    template: &Stmt<'_, Value>,
    out: &mut Watched<'_, W>,
) -> Result<Ending, Failure<'a>>
    ensures done { IfOk result (λ ending. ending ≡ Ending.Done) }
    ensures printed { OnOk result (IsWritten W.contents out.old out.new (names_words
        (plain_names (way (stmt_node contents_of template.now)))
        (nested_names (way (stmt_node contents_of template.now))))) }
    ensures told { IfErr result (λ failure. IsRefused failure → IsMemory failure) }
    ensures succeeds { IsUnfailed out.new → IfErr result IsMemory }
    ensures written { Stops out.old out.new (ending_status result) }
    ensures unfailed { IsUnfailed out.new → IfErr result IsRefused }
{
    let plain = undeclared(alloc, template, false)?;
    let nested = undeclared(alloc, template, true)?;
    print_names(out, &plain, &nested).map_err(|error| Failure::of_write(&error))?;
    Ok(Ending::Done)
}

/// The names that a template needs from outside.
fn undeclared<'a>(
    alloc: Global,
    template: &Stmt<'_, Value>,
    track_nested: bool,
) -> Result<BTreeSet<String>, Failure<'a>>
    ensures names { IfOk result (λ set. map string_bytes (keys set) ≡
        (if track_nested then nested_names (way (stmt_node contents_of template.now))
        else plain_names (way (stmt_node contents_of template.now)))) }
    ensures memory { IfErr result IsMemory }
    ensures status { IfErr result (λ failure. status_of failure ≡ 1) }
{
    find_undeclared(alloc, template, track_nested).map_err(|error| Failure::of_refusal(&error))
}

/// Writes what a linter finds in a text.
fn show_findings<'a, W: Write>(
    alloc: Global,
    path: &'a str,
    text: &str,
    syntax: &SyntaxConfig,
    out: &mut Watched<'_, W>,
) -> Result<Ending, Failure<'a>>
    ensures shown { OnOk result (IsShowable lint syntax.now text.now) }
    ensures linted { IfOk result (IsLinted syntax.now text.now) }
    ensures printed { OnOk result (Prints W.contents out.old out.new
        (IsOutput lint syntax.now text.now None)) }
    ensures told { IfErr result (λ failure. IsRefused failure →
        IsRefusalOf lint syntax.now text.now failure) }
    ensures succeeds { IsUnfailed out.new → IsShowable lint syntax.now text.now →
        Succeeds lint syntax.now text.now result }
    ensures written { Stops out.old out.new (ending_status result) }
    ensures unfailed { IsUnfailed out.new → IfErr result IsRefused }
{
    match parse_template::<Value>(alloc, text, path, syntax) {
        Ok(template) => write_findings(alloc, &template, out),
        Err(error) => Err(Failure::of_refusal(&error)),
    }
}

/// Writes what a linter finds in a template.
fn write_findings<'a, W: Write>(
    alloc: Global,
    template: &Stmt<'_, Value>,
    out: &mut Watched<'_, W>,
) -> Result<Ending, Failure<'a>>
    ensures linted { IfOk result (EndsWithFindings template.now) }
    ensures printed { OnOk result (Prints W.contents out.old out.new
        (AreFindingsIn template.now)) }
    ensures told { IfErr result (λ failure. IsRefused failure → IsMemory failure) }
    ensures succeeds { IsUnfailed out.new → IfErr result IsMemory }
    ensures written { Stops out.old out.new (ending_status result) }
    ensures unfailed { IsUnfailed out.new → IfErr result IsRefused }
{
    let findings = lint(alloc, template).map_err(|error| Failure::of_refusal(&error))?;
    print_findings(out, &findings).map_err(|error| Failure::of_write(&error))?;
    Ok(ending_of(&findings))
}

/// How a run ends that prints these findings.
fn ending_of(findings: &[Finding<'_>]) -> Ending
    ensures { result ≡ ending_with (map remark_of findings.now) }
{
    if findings.is_empty() {
        Ending::Done
    } else {
        Ending::Found
    }
}

/// Compiles an expression and writes its code.
fn show_expression<'a, W: Write>(
    alloc: Global,
    text: &str,
    out: &mut Watched<'_, W>,
) -> Result<Ending, Failure<'a>>
    ensures done { IfOk result (λ ending. ending ≡ Ending.Done) }
    ensures run { RunsOnExpr W.contents text.now out.old out.new result }
{
    match compile_expression::<Value>(alloc, text) {
        Ok(code) => {
            print_expression(out, &code).map_err(|error| Failure::of_write(&error))?;
            Ok(Ending::Done)
        }
        Err(error) => Err(Failure::of_refusal(&error)),
    }
}
