//! Memory that is refused: a run then ends so, or as with ample memory, and in no other way. Each
//! time a little more is left, until no request of a run is refused.
use minijinja_test_rows::memory::{Ballast, GRAIN};
use minijinja_test_rows::rows::{decoded, parted};
use mjc_commands::run::run;
use std::alloc::{AllocError, Global};
use std::process::Abort;
use std::test::Fail;

/// How many times a run is tried, each time with a little more memory.
const ATTEMPTS: usize = 1_000;

/// What a refused run says.
const REFUSED: &[u8] = b"mjc: OutOfMemory at 0:0\n";

/// A run, and what it prints.
#[derive(Clone, Copy)]
struct Case<'t> {
    command: &'t str,
    source: &'t str,
    answers: &'t str,
    printed: &'t str,
}

/// What a run prints and says, in room that is there before it.
#[derive(Drop)]
struct Output {
    out: Vec<u8>,
    err: Vec<u8>,
}

impl Case<'_> {
    fn status(&self, alloc: Global, output: &mut Output) -> u8 {
        let (file, answers) = (&mut self.source.as_bytes(), &mut self.answers.as_bytes());
        let (out, err) = (&mut output.out, &mut output.err);
        match self.command {
            "expr" => run(alloc, &["expr", self.source], file, answers, out, err),
            "replay" => run(alloc, &["replay", "-", "a"], file, answers, out, err),
            "lines" => {
                let args = &["code", "--line-statement", "#", "--line-comment", "##", "-"];
                run(alloc, args, file, answers, out, err)
            }
            command => run(alloc, &[command, "-"], file, answers, out, err),
        }
    }

    /// Whether the run succeeds. Otherwise it says that memory was refused, and what it printed is
    /// the start of the output.
    fn succeeds(&self, rt: &impl Abort, alloc: Global, output: &mut Output) -> bool {
        output.out.clear();
        output.err.clear();
        let status = self.status(alloc, output);
        assert!(rt; self.printed.as_bytes().starts_with(&output.out));
        if status == 1 {
            assert!(rt; output.err.as_slice() == REFUSED);
            return false;
        }
        assert!(rt; output.out.len() == self.printed.len() && output.err.is_empty());
        true
    }

    /// The first run has ample memory. It also makes the stack as large as it gets.
    fn is_refused_until_it_succeeds(
        &self,
        rt: &impl Abort,
        alloc: Global,
    ) -> Result<(), AllocError> {
        let mut output = Output {
            out: Vec::with_capacity(alloc, 4_096)?,
            err: Vec::with_capacity(alloc, 4_096)?,
        };
        let mut ballast = Ballast::new(alloc)?;
        assert!(rt; self.succeeds(rt, alloc, &mut output), "{}", self.source);
        ballast.take_all();
        for step in 0..ATTEMPTS {
            assert!(rt; ballast.leave(step * GRAIN));
            if self.succeeds(rt, alloc, &mut output) {
                assert!(rt; step > 0);
                return Ok(());
            }
            ballast.take_rest();
        }
        panic!(rt; "no room is enough");
    }
}

/// Asserts of each row, a line `COMMAND | SOURCE | ANSWERS => OUTPUT`, that it prints this, or that
/// memory is refused.
fn refused_until_they_succeed(rt: &impl Abort, alloc: Global, rows: &str) -> Result<(), Fail> {
    for row in rows.lines() {
        if !row.is_empty() {
            let row = decoded(alloc, row)?;
            let (request, printed) = parted(row.as_str(), " => ");
            let (command, texts) = parted(request, " | ");
            let (source, answers) = parted(texts, " | ");
            let case = Case {
                command,
                source,
                answers,
                printed,
            };
            case.is_refused_until_it_succeeds(rt, alloc)?;
        }
    }
    Ok(())
}

#[test]
fn code_is_refused_at_each_request(rt: HostRuntime) -> Result<(), Fail> {
    let rows = r#"
code | {% for x in y if x %}{{ x }}{% endfor %} => template␊0 LoadConst(0)␊1 Lookup("y")␊2 PushLoop(0)␊3 Iterate(14)␊4 DupTop␊5 StoreLocal("x")␊6 Lookup("x")␊7 JumpIfFalse(12)␊8 Swap␊9 LoadConst(1)␊10 Add␊11 Jump(13)␊12 DiscardTop␊13 Jump(3)␊14 PopLoopFrame␊15 BuildList(none)␊16 PushLoop(1)␊17 Iterate(22)␊18 StoreLocal("x")␊19 Lookup("x")␊20 Emit␊21 Jump(17)␊22 PopLoopFrame␊hint 1␊
code | {% macro f(a) %}{{ a }}{{ b }}{% endmacro %} => template␊0 Jump(7)␊1 StoreLocal("a")␊2 Lookup("a")␊3 Emit␊4 Lookup("b")␊5 Emit␊6 Return␊7 Enclose("b")␊8 GetClosure␊9 LoadConst(["a"])␊10 BuildMacro("f", 1, 0)␊11 StoreLocal("f")␊hint 1␊
lines | # if a␍␊x␍␊# endif => template␊0 Lookup("a")␊1 JumpIfFalse(3)␊2 EmitRaw("x\r\n")␊hint 8␊
"#;
    refused_until_they_succeed(&rt, rt.alloc(), rows)
}

#[test]
fn each_command_is_refused_at_each_request(rt: HostRuntime) -> Result<(), Fail> {
    let rows = r#"
tokens | Hello {{ name }}! => 1:0-1:6 TemplateData("Hello ")␊1:6-1:8 VariableStart␊1:9-1:13 Ident("name")␊1:14-1:16 VariableEnd␊1:16-1:17 TemplateData("!")␊
names | {% set x = foo %}{{ x }}{{ bar.baz }} => plain bar␊plain foo␊nested bar.baz␊nested foo␊
lint | {% macro f() %}{{ a }}{% endmacro %} => free a at 1:18␊macro f unused at 1:3␊
expr | foo.1.0 => expression␊0 Lookup("foo")␊1 LoadConst(1)␊2 GetItem␊3 LoadConst(0)␊4 GetItem␊
replay | {% for x in y %}{{ x }}{% else %}n{% endfor %} | ["v"]␊[]␊[]␊[]␊[] => Lookup("y") <- [] -> ["v"]␊PushLoop(1) <- ["v"] -> []␊Iterate(7) <- [] -> []␊PopLoopFrame <- [] -> []␊EmitRaw("n") <- [] -> []␊finished, 7 steps␊
"#;
    refused_until_they_succeed(&rt, rt.alloc(), rows)
}
