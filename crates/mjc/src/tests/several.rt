//! Names and findings of several files.
use super::Trickle;
use minijinja_test_rows::rows::{Subject, hold, parted};
use mjc_commands::each::{Files, run_each};
use std::alloc::Global;
use std::io;
use std::test::Fail;

/// The files `a` and `b`; no other opens.
#[derive(Drop)]
struct Two<'t> {
    a: &'t str,
    b: &'t str,
}

impl<'t> Files for Two<'t> {
    ghost use Rattle.std.specs.Prelude.{None};

    type File = Trickle<'t>;

    ghost held = { λ _ _. None };

    fn open(&self, path: &str) -> Trickle<'t> {
        let (rest, end) = match path {
            "a" => (self.a.as_bytes(), Ok(0)),
            "b" => (self.b.as_bytes(), Ok(0)),
            _ => (
                b"".as_slice(),
                Err(io::Error::from(io::ErrorKind::NotFound)),
            ),
        };
        Trickle { rest, end }
    }
}

/// Commands, each before the texts of the files `a` and `b`: what they print, and after it, where
/// the status is not 0 or something is said, `! STATUS ` and what is said. `another` where they do
/// not ask for several files.
enum Several {}

impl Subject for Several {
    fn words(alloc: Global, text: &str) -> Result<String, Fail> {
        let (words, texts) = parted(text, " | ");
        let (a, b) = parted(texts, " | ");
        let args: Vec<&str> = words.split(", ").collect(alloc)?;
        let (mut out, mut err) = (Vec::new(alloc), Vec::new(alloc));
        let Some(endings) = run_each(alloc, &args, &Two { a, b }, &mut out, &mut err) else {
            return Ok(String::from_str(alloc, "another")?);
        };
        let status = endings.status;
        let mut text = String::from_utf8(out)?;
        if status > 0 || !err.is_empty() {
            write!(text, "! {status} {}", str::from_utf8(&err)?)?;
        }
        Ok(text)
    }
}

#[test]
fn each_line_begins_with_its_file(rt: HostRuntime) -> Result<(), Fail> {
    let rows = r#"
names, a, b | {{ x }} | {{ y.z }} => a: plain x␊a: nested x␊b: plain y␊b: nested y.z␊
names, --variable, [, ], --, b, a | [ x ] | y => a: plain x␊a: nested x␊
lint, a, b | x | y => ␀
lint, a, b | {{ x }} | y => a: free x at 1:3␊! 3 ␀
lint, a, b | {{ x | {% macro m() %}{% endmacro %} => b: macro m unused at 1:3␊! 1 a: mjc: SyntaxError at 1:3␊
lint, c, a, b | {{ x }} | {{ y => a: free x at 1:3␊! 2 c: mjc: cannot read c␊b: mjc: SyntaxError at 1:3␊
names, a, c, -, b | {{ x | y => ! 2 a: mjc: SyntaxError at 1:3␊c: mjc: cannot read c␊-: mjc: cannot read -␊
lint, --block, {{, %}, a, b | x | y => ! 1 mjc: InvalidDelimiter at 0:0␊
"#;
    hold::<Several>(rt.alloc(), rows)
}

/// What asks for one file, and what is bad usage.
#[test]
fn leaves_all_else(rt: HostRuntime) -> Result<(), Fail> {
    let rows = r#"
lint, a | x | y => another
names, --, a | x | y => another
lint | x | y => another
code, a, b | x | y => another
tokens, a, b | x | y => another
replay, a, b | x | y => another
expr, a, b | x | y => another
lint, a, --b | x | y => another
lint, a, --trim-blocks, b | x | y => another
lint, --unknown, a, b | x | y => another
names, -, a, - | x | y => another
"#;
    hold::<Several>(rt.alloc(), rows)
}
