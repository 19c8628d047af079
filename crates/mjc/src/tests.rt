//! Runs of the program in memory.
//!
//! They test what no contract says: what is printed, and which of several failures comes first.
//! The rows of a subject stand in one text, since a test is proved too, with each text that it
//! names spelled out.
mod blocks;
mod calls;
mod expr;
mod imports;
mod lint;
mod lint_trees;
mod macros;
mod memory;
mod names;
mod print;
mod replay;
mod several;
mod statements;
mod tokens;
mod walk;
mod words;

use minijinja_test_rows::rows::{Subject, hold};
use mjc_commands::run::run;
use std::alloc::{AllocError, Global};
use std::io::{self, Read, Write};
use std::process::Abort;
use std::test::Fail;

const CODE: [&str; 2] = ["code", "-"];

const GREETING: &str = "Hello {{ name }}!";

const GREETING_CODE: &str =
    "template\n0 EmitRaw(\"Hello \")\n1 Lookup(\"name\")\n2 Emit\n3 EmitRaw(\"!\")\nhint 16\n";

/// Gives one byte at a time, and ends or fails after the last.
#[derive(Drop)]
struct Trickle<'b> {
    rest: &'b [u8],
    end: io::Result<usize>,
}

impl Read for Trickle<'_> {
    fn read(&mut self, buf: &mut [u8]) -> io::Result<usize> {
        if buf.is_empty() {
            return Ok(0);
        }
        match self.rest.split_first() {
            Some((byte, rest)) => {
                buf[0] = *byte;
                self.rest = rest;
                Ok(1)
            }
            None => match &self.end {
                Ok(_) => Ok(0),
                Err(error) => Err(*error),
            },
        }
    }
}

/// Takes a number of writes, and fails at all others.
#[derive(Drop)]
struct Short {
    taken: Vec<u8>,
    writes: usize,
}

impl Short {
    fn new(alloc: Global, writes: usize) -> Short {
        Short {
            taken: Vec::new(alloc),
            writes,
        }
    }
}

impl Write for Short {
    fn write(&mut self, buf: &[u8]) -> io::Result<usize> {
        if self.writes == 0 {
            return Err(io::Error::from(io::ErrorKind::StorageFull));
        }
        self.writes -= 1;
        self.taken.write(buf)
    }

    fn flush(&mut self) -> io::Result<()> {
        Ok(())
    }
}

/// What a run on a reader prints that wants no answers: see [`output_on`].
fn output<R: Read>(alloc: Global, args: &[&str], file: &mut R) -> Result<String, Fail> {
    output_on(alloc, args, file, &mut io::empty())
}

/// What a run on a reader and one of answers prints, and after it, where the status is not 0 or
/// something is said, `! STATUS ` and what is said.
fn output_on<R: Read, Q: Read>(
    alloc: Global,
    args: &[&str],
    file: &mut R,
    answers: &mut Q,
) -> Result<String, Fail> {
    let (mut out, mut err) = (Vec::new(alloc), Vec::new(alloc));
    let status = run(alloc, args, file, answers, &mut out, &mut err);
    let mut text = String::from_utf8(out)?;
    if status > 0 || !err.is_empty() {
        write!(text, "! {status} {}", str::from_utf8(&err)?)?;
    }
    Ok(text)
}

/// The output after its head, or after a question mark where it has another.
fn after_head(alloc: Global, output: &str, head: &str) -> Result<String, AllocError> {
    match output.strip_prefix(head) {
        Some(rest) => String::from_str(alloc, rest),
        None => format!(in alloc; "? {output}"),
    }
}

/// Templates: their code.
enum Code {}

impl Subject for Code {
    fn words(alloc: Global, text: &str) -> Result<String, Fail> {
        let output = output(alloc, &CODE, &mut text.as_bytes())?;
        Ok(after_head(alloc, output.as_str(), "template\n")?)
    }
}

#[test]
fn prints_code(rt: HostRuntime) -> Result<(), Fail> {
    let rows = r#"
Hello {{ name }}! => 0 EmitRaw("Hello ")␊1 Lookup("name")␊2 Emit␊3 EmitRaw("!")␊hint 16␊
␀ => hint 1␊
{{-1}} => 0 LoadConst(1)␊1 Emit␊hint 1␊
x␊ => 0 EmitRaw("x")␊hint 2␊
{% set x = a.b %}{{ x }}{{ "y" }}{{ 7 }} => 0 Lookup("a")␊1 GetAttr("b")␊2 StoreLocal("x")␊3 Lookup("x")␊4 Emit␊5 LoadConst("y")␊6 Emit␊7 LoadConst(7)␊8 Emit␊hint 1␊
{{ true }}{{ none }}{{ False }} => 0 LoadConst(true)␊1 Emit␊2 LoadConst(none)␊3 Emit␊4 LoadConst(false)␊5 Emit␊hint 1␊
a"b\c␊d␍e␉f => 0 EmitRaw("a\"b\\c\nd\re\tf")␊hint 32␊
{% set x = a.b %}abc{{ x }} => 0 Lookup("a")␊1 GetAttr("b")␊2 StoreLocal("x")␊3 EmitRaw("abc")␊4 Lookup("x")␊5 Emit␊hint 8␊
{{ x }} => 0 Lookup("x")␊1 Emit␊hint 1␊
{{ super() }} => 0 FastSuper␊hint 1␊
{{ super(x) }} => 0 Lookup("x")␊1 CallFunction("super", 1)␊2 Emit␊hint 1␊
{{ loop(x) }} => 0 Lookup("x")␊1 FastRecurse␊hint 1␊
{{ loop() }} => 0 CallFunction("loop", 0)␊1 Emit␊hint 1␊
{{ loop(*x) }} => 0 Lookup("x")␊1 UnpackLists(1)␊2 CallFunction("loop", none)␊3 Emit␊hint 1␊
{{ self.b(x) }} => 0 CallBlock("b")␊hint 1␊
{{ y.loop(x) }} => 0 Lookup("y")␊1 Lookup("x")␊2 CallMethod("loop", 2)␊3 Emit␊hint 1␊
"#;
    hold::<Code>(rt.alloc(), rows)
}

/// Templates: why and where they are refused.
enum Refused {}

impl Subject for Refused {
    fn words(alloc: Global, text: &str) -> Result<String, Fail> {
        let output = output(alloc, &CODE, &mut text.as_bytes())?;
        Ok(after_head(alloc, output.as_str(), "! 1 mjc: ")?)
    }
}

#[test]
fn names_the_refusal_and_its_place(rt: HostRuntime) -> Result<(), Fail> {
    let rows = r#"
{% set loop = a %} => SyntaxError at 1:7␊
{{ a => SyntaxError at 1:3␊
{{ '\q' }} => BadEscape at 1:3␊
{{ 'a' '\q' }} => BadEscape at 1:7␊
{{ 'a => SyntaxError at 1:5␊
{% raw %}x => SyntaxError at 1:10␊
"#;
    hold::<Refused>(rt.alloc(), rows)
}

#[test]
fn reads_to_the_end(rt: HostRuntime) -> Result<(), Fail> {
    let mut whole = Trickle {
        rest: GREETING.as_bytes(),
        end: Ok(0),
    };
    assert!(rt; output(rt.alloc(), &CODE, &mut whole)?.as_str() == GREETING_CODE);
    let mut broken = Trickle {
        rest: GREETING.as_bytes(),
        end: Err(io::Error::from(io::ErrorKind::ConnectionReset)),
    };
    let args = &["code", "a/b"];
    let unread = "! 2 mjc: cannot read a/b\n";
    assert!(rt; output(rt.alloc(), args, &mut broken)?.as_str() == unread);
    assert!(rt; output(rt.alloc(), args, &mut b"a\xff".as_slice())?.as_str() == unread);
    Ok(())
}

/// A command, the text of its file and its answers, what it prints, and its status.
#[derive(Clone, Copy)]
struct Printing<'t> {
    args: &'t [&'t str],
    source: &'t str,
    answers: &'t str,
    printed: &'t str,
    status: u8,
}

impl Printing<'_> {
    /// Whether a run succeeds that can write that many times. It says where it cannot, and what it
    /// wrote is the start of the output.
    fn succeeds(&self, rt: &impl Abort, alloc: Global, writes: usize) -> bool {
        let (mut out, mut err) = (Short::new(alloc, writes), Vec::new(alloc));
        let (file, answers) = (&mut self.source.as_bytes(), &mut self.answers.as_bytes());
        let status = run(alloc, self.args, file, answers, &mut out, &mut err);
        assert!(rt; self.printed.as_bytes().starts_with(&out.taken));
        if status == self.status {
            assert!(rt; out.taken.len() == self.printed.len() && err.is_empty() && writes > 0);
            return true;
        }
        assert!(rt; status == 2 && err.as_slice() == b"mjc: cannot write\n".as_slice());
        false
    }

    /// Asserts that each write that fails ends the run, until there are enough.
    fn ends_at_each_failing_write(&self, rt: &impl Abort, alloc: Global) {
        for writes in 0..100 {
            if self.succeeds(rt, alloc, writes) {
                return;
            }
        }
        panic!(rt; "no number of writes is enough");
    }
}

/// Each command, on a text of which it prints several lines.
const PRINTINGS: [Printing<'static>; 6] = [
    Printing {
        args: &["tokens", "-"],
        source: "a{{ b }}",
        answers: "",
        printed: "1:0-1:1 TemplateData(\"a\")\n1:1-1:3 VariableStart\n1:4-1:5 Ident(\"b\")\n\
            1:6-1:8 VariableEnd\n",
        status: 0,
    },
    Printing {
        args: &CODE,
        source: GREETING,
        answers: "",
        printed: GREETING_CODE,
        status: 0,
    },
    Printing {
        args: &["names", "-"],
        source: "{% set x = foo %}{{ x }}{{ bar.baz }}",
        answers: "",
        printed: "plain bar\nplain foo\nnested bar.baz\nnested foo\n",
        status: 0,
    },
    Printing {
        args: &["lint", "-"],
        source: "{% macro f() %}{{ a }}{% endmacro %}",
        answers: "",
        printed: "free a at 1:18\nmacro f unused at 1:3\n",
        status: 3,
    },
    Printing {
        args: &["expr", "a.b"],
        source: "",
        answers: "",
        printed: "expression\n0 Lookup(\"a\")\n1 GetAttr(\"b\")\n",
        status: 0,
    },
    Printing {
        args: &["replay", "-", "answers"],
        source: "{{ a }}",
        answers: "[1]\n[]\n",
        printed: "Lookup(\"a\") <- [] -> [1]\nEmit <- [1] -> []\nfinished, 2 steps\n",
        status: 0,
    },
];

#[test]
fn ends_at_a_failing_write(rt: HostRuntime) {
    for printing in &PRINTINGS {
        printing.ends_at_each_failing_write(&rt, rt.alloc());
    }
}

/// The status of a run on a template that can say nothing.
fn status_unsaid(alloc: Global, source: &str) -> u8 {
    let (mut out, mut err) = (Vec::new(alloc), Short::new(alloc, 0));
    let file = &mut source.as_bytes();
    run(alloc, &CODE, file, &mut io::empty(), &mut out, &mut err)
}

#[test]
fn keeps_the_status_when_no_line_can_be_said(rt: HostRuntime) {
    assert!(rt; status_unsaid(rt.alloc(), "{{ a") == 1);
    assert!(rt; status_unsaid(rt.alloc(), "a") == 0);
}

/// Takes no memory itself, so that it may run with an allocation that fails.
#[test]
fn says_that_memory_is_refused(rt: HostRuntime) {
    let (mut printed, mut said) = ([0u8; 128], [0u8; 64]);
    let (mut out, mut err) = (printed.as_mut_slice(), said.as_mut_slice());
    let file = &mut GREETING.as_bytes();
    let status = run(
        rt.alloc(),
        &CODE,
        file,
        &mut io::empty(),
        &mut out,
        &mut err,
    );
    if status == 0 {
        assert!(rt; printed.starts_with(GREETING_CODE.as_bytes()));
    } else {
        assert_eq!(rt; status, 1);
        assert!(rt; said.starts_with(b"mjc: OutOfMemory at 0:0\n"));
    }
}
