//! The command line of `mjc`: commands, options and files.
ghost use Rattle.std.specs.Prelude.{◌≡◌, ◌≤◌, ◌⊎◌, ◌↔◌, length, drop, List, [], ◌∷◌, IsSome, IfSome, IsSomeAnd, IsNone, IsTrue, codes, count_by};
ghost use Rattle.std.specs.List.{All, fold};
ghost use Rattle.std.specs.Str.{bytes_eq};
ghost use Rattle.minijinja_syntax.specs.Syntax.{Syntax};
ghost use Rattle.minijinja_syntax.specs.Texts.{Text};
ghost use Rattle.mjc_commands.specs.Settings.{Setting, texts, with_setting};
ghost use Rattle.mjc_commands.specs.Each.{AskForEach, AskForSeveral, IsOnEach};
ghost use Rattle.mjc_commands.specs.Usage.{IsAboutUsage, IsUsage, IsFileUsage, IsExprUsage, Request, Asks, AsksExpr, AsksHelp, AsksVersion, AreApart, IsFile, Task, bare, command_word, option_words, replay};
ghost use Rattle.mjc_commands.specs.Commands.{syntax_of, IsAskedBy, IsCommandFor, IsFileCommandFor, IsExprCommandFor, task_of};
ghost use Rattle.mjc_commands.specs.private.AtUsage.{AsksInput, BeginWithFile, IsActionOn, IsOnTemplate, IsTemplateUsage, Name, input_request};

use crate::options::Options;

/// What a command prints of its file.
#[derive(Clone, Copy)]
pub enum Action<'a> {
    /// Prints the tokens.
    Tokens,
    /// Compiles, and prints the code.
    Code,
    /// Prints the names that the text needs from outside.
    Names,
    /// Prints what a linter finds in the text.
    Lint,
    /// Prints the code of the expression that the text is.
    Expression,
    /// Compiles, runs the code on the answers that the file of this path has, and prints the run.
    /// `-` is standard input.
    Replay(&'a str),
}

impl<'a> Action<'a> {
    ghost use Rattle.std.specs.Prelude.{◌≡◌};
    ghost use Rattle.std.specs.Option.{option_map};
    ghost use Rattle.mjc_commands.specs.Commands.{answers_in, task_of};

    /// The path of the file of answers, if it runs code on them.
    fn answers(self) -> Option<&'a str>
        ensures { option_map (λ path. path.now) result ≡ answers_in (task_of self.entry) }
    {
        match self {
            Action::Replay(answers) => Some(answers),
            Action::Tokens | Action::Code | Action::Names | Action::Lint | Action::Expression =>
                None,
        }
    }
}

/// What the command line asks for.
#[derive(Drop)]
pub enum Command<'a> {
    /// Print how the program is used.
    Help,
    /// Print the name and the version of the program.
    Version,
    /// Print the tokens, the code, the names, the findings or a run of a file, or the code of the
    /// expression that it is.
    File(FileCommand<'a>),
    /// Print the code of this expression.
    Expr(&'a str),
}

impl<'a> Command<'a> {
    ghost use Rattle.std.specs.Prelude.{◌≡◌};
    ghost use Rattle.std.specs.Option.{option_map};
    ghost use Rattle.mjc_commands.specs.Commands.{answers_of, file_of};

    /// The path of the file that it reads, if it reads one. `-` is standard input.
    pub fn file(&self) -> Option<&'a str>
        ensures { option_map (λ path. path.now) result ≡ file_of self.now }
    {
        match self {
            Command::File(command) => Some(command.file),
            Command::Expr(_) | Command::Help | Command::Version => None,
        }
    }

    /// The path of the file of answers that it reads, if it reads one. `-` is standard input.
    pub fn answers(&self) -> Option<&'a str>
        ensures { option_map (λ path. path.now) result ≡ answers_of self.now }
    {
        match self {
            Command::File(command) => command.action.answers(),
            Command::Expr(_) | Command::Help | Command::Version => None,
        }
    }
}

/// A command on a file.
#[derive(Drop)]
pub struct FileCommand<'a> {
    /// What to print of the file.
    pub action: Action<'a>,
    /// The syntax of its text.
    pub options: Options<'a>,
    /// The path of the file, where `-` is standard input.
    pub file: &'a str,
}

fn words_from<'w, 'a>(words: &'w [&'a str], start: usize) -> &'w [&'a str]
    requires { start ≤ length words.now }
    ensures { result.now ≡ drop start words.now }
{
    &words[start..]
}

/// Applies the options that the words begin with, and returns the words after them.
fn read_options<'w, 'a>(options: &mut Options<'a>, words: &'w [&'a str]) -> &'w [&'a str]
    ensures heeded { (settings : List Setting) → (behind : List Text) → BeginWithFile behind →
        texts words.now ≡ option_words settings behind → (texts result.now ≡ behind) ×
        (syntax_of options.new ≡ fold with_setting (syntax_of options.old) settings) }
    ensures behind { BeginWithFile (texts result.now) → (settings : List Setting) ×
        (texts words.now ≡ option_words settings (texts result.now)) }
{
    let mut start = 0;
    while let Some(count) = options.take(words_from(words, start)) {
        start += count;
    }
    words_from(words, start)
}

/// Whether a word may name a file where `--` does not stand before it.
fn is_file(word: &str) -> bool
    ensures { IsTrue result ↔ IsFile bare word.now }
{
    !word.starts_with("--")
}

/// Whether each of the words may name a file where `--` does not stand before them.
fn are_files(words: &[&str]) -> bool
    ensures { IsTrue result ↔ All (λ word. IsFile bare word.now) words.now }
{
    words.iter().all(|word| is_file(*word))
}

/// The paths that words name: those after `--` where that is the first, otherwise all of them, if
/// none begins with `--`.
fn paths_in<'w, 'a>(words: &'w [&'a str]) -> Option<&'w [&'a str]>
    ensures some { IfSome result (λ paths. Name (texts words.now) (texts paths.now)) }
    ensures none { IsNone result → (paths : List Text) → ¬ Name (texts words.now) paths }
{
    match words.split_first() {
        Some((word, paths)) if *word == "--" => Some(paths),
        _ if are_files(words) => Some(words),
        _ => None,
    }
}

/// The file, if it is the only path.
fn lone_file<'a>(paths: &[&'a str]) -> Option<&'a str>
    ensures some { IfSome result (λ file. texts paths.now ≡ file.now ∷ []) }
    ensures none { IsNone result → (file : Text) → ¬ (texts paths.now ≡ file ∷ []) }
{
    match paths {
        [file] => Some(*file),
        _ => None,
    }
}

/// The file and that of the answers, if they are the only paths. One of the two at most is standard
/// input.
fn two_files<'a>(paths: &[&'a str]) -> Option<(&'a str, &'a str)>
    ensures some { IfSome result (λ files. AreApart (replay files.1.now) files.0.now ×
        (texts paths.now ≡ files.0.now ∷ files.1.now ∷ [])) }
    ensures none { IsNone result → (file answers : Text) → AreApart (replay answers) file →
        ¬ (texts paths.now ≡ file ∷ answers ∷ []) }
{
    match paths {
        ["-", "-"] => None,
        [file, answers] => Some((*file, *answers)),
        _ => None,
    }
}

/// What the word of a command asks for, and of which template.
fn action_on<'a>(word: &str, paths: &[&'a str]) -> Option<(Action<'a>, &'a str)>
    ensures found { IfSome result (λ asked. IsActionOn word.now (texts paths.now) (task_of asked.0)
        asked.1.now) }
    ensures none { IsNone result → (task : Task) → (file : Text) →
        ¬ IsActionOn word.now (texts paths.now) task file }
{
    match word {
        "tokens" => Some((Action::Tokens, lone_file(paths)?)),
        "code" => Some((Action::Code, lone_file(paths)?)),
        "names" => Some((Action::Names, lone_file(paths)?)),
        "lint" => Some((Action::Lint, lone_file(paths)?)),
        "replay" => {
            let (file, answers) = two_files(paths)?;
            Some((Action::Replay(answers), file))
        }
        _ => None,
    }
}

/// Parses a command on a template: the word of the command, options, and the file, after which
/// `replay` has that of the answers. Options take their words as they are, and of a repeated option
/// the last one counts. Files that begin with `--` stand after the word `--`.
fn parse_template_command<'a>(args: &[&'a str]) -> Option<FileCommand<'a>>
    ensures usage { IsSome result ↔ IsTemplateUsage args.now }
    ensures asked { (request : Request) → Asks args.now request → IsOnTemplate request.task →
        IsSomeAnd result (IsCommandFor request) }
{
    let (word, rest) = args.split_first()?;
    let mut options = Options::none();
    let paths = paths_in(read_options(&mut options, rest))?;
    let (action, file) = action_on(*word, paths)?;
    Some(FileCommand {
        action,
        options,
        file,
    })
}

/// What stands after the word `expr`, if the words are that and one more.
fn expr_word<'a>(args: &[&'a str]) -> Option<&'a str>
    ensures some { IfSome result (λ text. texts args.now ≡ codes "expr" ∷ text.now ∷ []) }
    ensures none { IsNone result → (text : Text) → ¬ (texts args.now ≡ codes "expr" ∷ text ∷ []) }
{
    match args {
        [word, text] if *word == "expr" => Some(*text),
        _ => None,
    }
}

/// Parses the words for the code of the expression that standard input holds.
fn parse_input_command<'a>(args: &[&'a str]) -> Option<FileCommand<'a>>
    ensures usage { IsSome result ↔ AsksInput args.now }
    ensures asked { IfSome result (IsCommandFor input_request) }
{
    match expr_word(args)? {
        "-" => Some(FileCommand {
            action: Action::Expression,
            options: Options::none(),
            file: "-",
        }),
        _ => None,
    }
}

/// Parses a command on a file, which is a template, or standard input that holds an expression.
fn parse_file_command<'a>(args: &[&'a str]) -> Option<FileCommand<'a>>
    ensures usage { IsSome result ↔ IsFileUsage args.now }
    ensures asked { (request : Request) → Asks args.now request → IsSomeAnd result
        (IsCommandFor request) }
{
    match parse_input_command(args) {
        Some(command) => Some(command),
        None => parse_template_command(args),
    }
}

/// The text of the expression, if the words ask for the code of one that stands in them.
fn parse_expr_command<'a>(args: &[&'a str]) -> Option<&'a str>
    ensures usage { IsSome result ↔ IsExprUsage args.now }
    ensures asked { IfSome result (λ text. AsksExpr args.now text.now) }
{
    match expr_word(args)? {
        "-" => None,
        text => Some(text),
    }
}

/// Parses a word that asks about the program itself.
fn parse_about_command<'a>(args: &[&'a str]) -> Option<Command<'a>>
    ensures help { AsksHelp args.now → IsSomeAnd result (λ command. command ≡ Command.Help) }
    ensures version { AsksVersion args.now →
        IsSomeAnd result (λ command. command ≡ Command.Version) }
    ensures asked { IfSome result (λ command. IsAskedBy args.now command ×
        IsAboutUsage args.now) }
{
    match args {
        ["--help"] | ["-h"] | ["help"] => Some(Command::Help),
        ["--version"] => Some(Command::Version),
        _ => None,
    }
}

/// Parses the words after the program's name: `expr` and a text, a command on a file, or a word
/// that asks about the program itself.
pub fn parse<'a>(args: &[&'a str]) -> Option<Command<'a>>
    ensures usage { IsSome result ↔ IsUsage args.now }
    ensures asked { IfSome result (IsAskedBy args.now) }
    ensures file { (request : Request) → Asks args.now request → IsSomeAnd result
        (IsFileCommandFor request) }
    ensures expr { (text : Text) → AsksExpr args.now text → IsSomeAnd result
        (IsExprCommandFor text) }
    ensures help { AsksHelp args.now → IsSomeAnd result (λ command. command ≡ Command.Help) }
    ensures version { AsksVersion args.now →
        IsSomeAnd result (λ command. command ≡ Command.Version) }
{
    match parse_about_command(args) {
        Some(command) => Some(command),
        None => parse_work_command(args),
    }
}

/// Parses the words of a command on an expression or on a file.
fn parse_work_command<'a>(args: &[&'a str]) -> Option<Command<'a>>
    ensures usage { IsSome result ↔ (IsFileUsage args.now ⊎ IsExprUsage args.now) }
    ensures asked { IfSome result (IsAskedBy args.now) }
    ensures file { (request : Request) → Asks args.now request → IsSomeAnd result
        (IsFileCommandFor request) }
    ensures expr { (text : Text) → AsksExpr args.now text → IsSomeAnd result
        (IsExprCommandFor text) }
{
    match parse_expr_command(args) {
        Some(text) => Some(Command::Expr(text)),
        None => Some(Command::File(parse_file_command(args)?)),
    }
}

/// What the word of a command on several files asks for.
fn action_on_each<'a>(word: &str) -> Option<Action<'a>>
    ensures found { IfSome result (λ action. IsOnEach (task_of action) ×
        (word.now ≡ command_word (task_of action))) }
    ensures asked { (task : Task) → IsOnEach task → word.now ≡ command_word task →
        IsSomeAnd result (λ action. task_of action ≡ task) }
{
    match word {
        "names" => Some(Action::Names),
        "lint" => Some(Action::Lint),
        _ => None,
    }
}

/// Whether one of the files at most is standard input.
fn are_apart(paths: &[&str]) -> bool
    ensures { IsTrue result ↔ (count_by (λ path. bytes_eq path (codes "-")) (texts paths.now) ≤ 1) }
{
    paths.iter().filter(|path| **path == "-").count() <= 1
}

/// Parses the words of a command on several files: `names` or `lint`, options, and the files. One
/// of them at most is standard input.
pub fn parse_several<'w, 'a>(args: &'w [&'a str]) -> Option<(FileCommand<'a>, &'w [&'a str])>
    ensures found { IfSome result (λ asked. AskForEach args.now (task_of asked.0.action)
        (syntax_of asked.0.options) (texts asked.1.now)) }
    ensures asked { (task : Task) → (syntax : Syntax) → (paths : List Text) →
        AskForSeveral args.now task syntax paths → IsSomeAnd result
        (λ asked. (task_of asked.0.action ≡ task) × (syntax_of asked.0.options ≡ syntax) ×
        (texts asked.1.now ≡ paths)) }
    ensures apart { IsSome result → ¬ IsUsage args.now }
{
    let (word, rest) = args.split_first()?;
    let action = action_on_each(*word)?;
    let mut options = Options::none();
    let paths = paths_in(read_options(&mut options, rest))?;
    let (file, others) = paths.split_first()?;
    if others.is_empty() || !are_apart(paths) {
        return None;
    }
    let command = FileCommand {
        action,
        options,
        file: *file,
    };
    Some((command, paths))
}
