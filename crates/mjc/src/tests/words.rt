//! The words of a command, and the syntax that its options specify.
use super::{GREETING, Trickle, output};
use minijinja_test_rows::rows::{Subject, hold, parted};
use std::alloc::Global;
use std::io::{self, Read};
use std::test::Fail;

/// What a command, whose words are parted by commas, prints of a file.
fn output_of<R: Read>(alloc: Global, words: &str, file: &mut R) -> Result<String, Fail> {
    if words.is_empty() {
        return output(alloc, &[], file);
    }
    let args: Vec<&str> = words.split(", ").collect(alloc)?;
    output(alloc, &args, file)
}

/// Commands, each before the text of its file: what they print.
pub enum Commands {}

impl Subject for Commands {
    fn words(alloc: Global, text: &str) -> Result<String, Fail> {
        let (words, source) = parted(text, " < ");
        output_of(alloc, words, &mut source.as_bytes())
    }
}

/// Commands: what they print, without the line on how the program is called.
enum Misused {}

impl Subject for Misused {
    fn words(alloc: Global, text: &str) -> Result<String, Fail> {
        let usage =
            "! 2 usage: mjc tokens|code|names|lint|replay [OPTION..] FILE [ANSWERS], mjc expr TEXT\n";
        let output = output_of(alloc, text, &mut GREETING.as_bytes())?;
        let others = if output.as_str() == usage {
            ""
        } else {
            "another"
        };
        Ok(String::from_str(alloc, others)?)
    }
}

#[test]
fn refuses_bad_usage(rt: HostRuntime) -> Result<(), Fail> {
    let rows = r#"
␀
code
tokens
code, --help
code, --
code, --trim-blocks, --
code, a, b
code, --, a, b
code, --, --trim-blocks, a
code, a, --
code, --, --, a
names
names, a, b
replay
replay, a
replay, -, -
replay, a, b, c
replay, --, a
replay, --, -, -
replay, a, --, b
replay, --unknown, a, b
replay, a, --trim-blocks, b
replay, a, --b
replay, --a, b
expr
expr, a, b
expr, --trim-blocks, a
expr, --, a
expr, --, -
expr, --trim-blocks, -
expr, -, -
Code, a
␀, a
--trim-blocks, code, a
code, a, --trim-blocks
code, --trim-blocks
tokens, --unknown, a
tokens, --trim, a
tokens, --block
tokens, --block, a
tokens, --block, a, b
tokens, --line-statement
tokens, --line-comment, a
tokens, --keep-newline, a, b
"#;
    hold::<Misused>(rt.alloc(), rows)
}

#[test]
fn heeds_options_of_code(rt: HostRuntime) -> Result<(), Fail> {
    let rows = r#"
code, --trim-blocks, --variable, [[, ]], - < [[ x ]] => template␊0 Lookup("x")␊1 Emit␊hint 1␊
names, --trim-blocks, --variable, [[, ]], - < [[ x.y ]] => plain x␊nested x.y␊
"#;
    hold::<Commands>(rt.alloc(), rows)
}

/// Options before it keep the words that they take.
#[test]
fn takes_any_file_after_two_dashes(rt: HostRuntime) -> Result<(), Fail> {
    let rows = r#"
code, --, a < x => template␊0 EmitRaw("x")␊hint 2␊
names, --trim-blocks, --, --trim-blocks < {{ x }} => plain x␊nested x␊
tokens, --, -- < x => 1:0-1:1 TemplateData("x")␊
lint, --, - < x => ␀
replay, --, --a, --b < x => starved, 1 steps␊
code, --line-statement, --, a < -- if a␊x␊-- endif => template␊0 Lookup("a")␊1 JumpIfFalse(3)␊2 EmitRaw("x\n")␊hint 4␊
code, --line-statement, --, --, --a < -- if a␊x␊-- endif => template␊0 Lookup("a")␊1 JumpIfFalse(3)␊2 EmitRaw("x\n")␊hint 4␊
"#;
    hold::<Commands>(rt.alloc(), rows)
}

/// Commands: what they print of a file that cannot be read to its end, and of one that is no text.
enum Unread {}

impl Subject for Unread {
    fn words(alloc: Global, text: &str) -> Result<String, Fail> {
        let mut broken = Trickle {
            rest: b"Hello {{ na",
            end: Err(io::Error::from(io::ErrorKind::ConnectionReset)),
        };
        let of_broken = output_of(alloc, text, &mut broken)?;
        let of_no_text = output_of(alloc, text, &mut b"Hello \xff{{ name }}!".as_slice())?;
        if of_no_text.as_str() == of_broken.as_str() {
            Ok(of_broken)
        } else {
            Ok(format!(in alloc; "{of_broken}{of_no_text}")?)
        }
    }
}

#[test]
fn says_which_file_cannot_be_read(rt: HostRuntime) -> Result<(), Fail> {
    let rows = r#"
tokens, a/b => ! 2 mjc: cannot read a/b␊
code, a/b => ! 2 mjc: cannot read a/b␊
names, a/b => ! 2 mjc: cannot read a/b␊
lint, --, --a => ! 2 mjc: cannot read --a␊
expr, - => ! 2 mjc: cannot read -␊
replay, a/b, answers => ! 2 mjc: cannot read a/b␊
"#;
    hold::<Unread>(rt.alloc(), rows)
}

/// What a command prints of a file of which each read fails.
fn output_of_failed_read(alloc: Global, kind: io::ErrorKind) -> Result<String, Fail> {
    let mut file = Trickle {
        rest: b"",
        end: Err(io::Error::from(kind)),
    };
    output(alloc, &["code", "a"], &mut file)
}

#[test]
fn tells_no_folder_from_an_absent_file(rt: HostRuntime) -> Result<(), Fail> {
    for kind in [io::ErrorKind::IsADirectory, io::ErrorKind::NotFound] {
        let output = output_of_failed_read(rt.alloc(), kind)?;
        assert!(rt; output.as_str() == "! 2 mjc: cannot read a\n");
    }
    Ok(())
}

/// Words about the program itself: what is printed, in which a file is not read.
enum About {}

impl Subject for About {
    fn words(alloc: Global, text: &str) -> Result<String, Fail> {
        let mut unread = Trickle {
            rest: b"",
            end: Err(io::Error::from(io::ErrorKind::NotFound)),
        };
        output_of(alloc, text, &mut unread)
    }
}

#[test]
fn tells_its_version(rt: HostRuntime) -> Result<(), Fail> {
    let rows = r#"
--version => mjc 1.0.0␊
"#;
    hold::<About>(rt.alloc(), rows)
}

/// The first word of each line of the help but the first two, as far as it has one.
fn first_words(alloc: Global, help: &str) -> Result<String, Fail> {
    let mut words = String::new(alloc);
    for line in help.lines().skip(2) {
        if let Some(word) = line.split_whitespace().next() {
            write!(words, "{word} ")?;
        }
    }
    Ok(words)
}

/// Each command and each option has a line.
#[test]
fn tells_how_it_is_used(rt: HostRuntime) -> Result<(), Fail> {
    let alloc = rt.alloc();
    let help = About::words(alloc, "--help")?;
    let usage =
        "usage: mjc tokens|code|names|lint|replay [OPTION..] FILE [ANSWERS], mjc expr TEXT\n\n";
    assert!(rt; help.as_str().starts_with(usage));
    let words = first_words(alloc, help.as_str())?;
    let wanted = "commands: tokens code names lint replay expr help --version options, --block \
        --variable --comment --line-statement --line-comment --trim-blocks --lstrip-blocks \
        --keep-newline -- A ";
    assert_eq!(rt; words.as_str(), wanted);
    assert!(rt; About::words(alloc, "-h")?.as_str() == help.as_str());
    assert!(rt; About::words(alloc, "help")?.as_str() == help.as_str());
    Ok(())
}

/// Where other words stand beside them, they are bad usage.
#[test]
fn tells_of_itself_for_one_word_alone(rt: HostRuntime) -> Result<(), Fail> {
    let rows = r#"
help, code
--help, a
-h, -
--version, --version
code, --version
expr, --help, a
-help
--Version
version
"#;
    hold::<Misused>(rt.alloc(), rows)
}

/// Also where the file cannot be read.
#[test]
fn refuses_a_syntax_first(rt: HostRuntime) -> Result<(), Fail> {
    let rows = r#"
tokens, --block, {{, %}, - => ! 1 mjc: InvalidDelimiter at 0:0␊
code, --block, {{, %}, - => ! 1 mjc: InvalidDelimiter at 0:0␊
names, --block, {{, %}, - => ! 1 mjc: InvalidDelimiter at 0:0␊
code, --comment, {#, ␀, - => ! 1 mjc: InvalidDelimiter at 0:0␊
code, --line-statement, #, --line-comment, #, - => ! 1 mjc: InvalidDelimiter at 0:0␊
"#;
    hold::<Unread>(rt.alloc(), rows)
}
