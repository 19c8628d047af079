//! Runs of code on answers: what `mjc replay` prints, and units that it does not enter.
use super::{Trickle, output_on};
use minijinja_compiler::compile::compile;
use minijinja_compiler::syntax::SyntaxConfig;
use minijinja_compiler::value::{TemplateValue, Value};
use minijinja_test_rows::rows::{Subject, hold, parted};
use mjc_commands::answers::read_answers;
use mjc_commands::replay::{End, Entry, Run, replay_within};
use std::alloc::Global;
use std::io::{self, Read};
use std::process::Abort;
use std::test::Fail;

/// What `mjc replay` prints of a template and of a reader of answers.
fn replayed<Q: Read>(alloc: Global, source: &str, answers: &mut Q) -> Result<String, Fail> {
    let args = &["replay", "page", "answers"];
    output_on(alloc, args, &mut source.as_bytes(), answers)
}

/// Templates, each before its answers: what `mjc replay` prints.
enum Replay {}

impl Subject for Replay {
    fn words(alloc: Global, text: &str) -> Result<String, Fail> {
        let (source, answers) = parted(text, " | ");
        replayed(alloc, source, &mut answers.as_bytes())
    }
}

#[test]
fn prints_the_record_and_the_ending(rt: HostRuntime) -> Result<(), Fail> {
    let rows = r#"
{% for x in y %}{{ x }}{% else %}n{% endfor %} | ["v"]␊[]␊[]␊[]␊[] => Lookup("y") <- [] -> ["v"]␊PushLoop(1) <- ["v"] -> []␊Iterate(7) <- [] -> []␊PopLoopFrame <- [] -> []␊EmitRaw("n") <- [] -> []␊finished, 7 steps␊
{% for x in y %}{{ x }}{% else %}n{% endfor %} | ["v"]␊[]␊[]␊[]␊ => Lookup("y") <- [] -> ["v"]␊PushLoop(1) <- ["v"] -> []␊Iterate(7) <- [] -> []␊PopLoopFrame <- [] -> []␊starved, 7 steps␊
{{ f(*a) }} | ["l"]␊[1, 2]␊["r"]␊[] => Lookup("a") <- [] -> ["l"]␊UnpackLists(1) <- ["l"] -> [1, 2]␊CallFunction("f", none) <- [1, 2] -> ["r"]␊Emit <- ["r"] -> []␊finished, 4 steps␊
{% set a, b = x %} | ["v"]␊[1] => Lookup("x") <- [] -> ["v"]␊unfit, 2 steps␊
{{ 1 // 0 }} | ␀ => fault, 3 steps␊
{% for x in y %}{% set s %}a{% continue %}{% endset %}{% endfor %} | ["v"]␊[]␊[1]␊[]␊[]␊[]␊["a"]␊[]␊[] => Lookup("y") <- [] -> ["v"]␊PushLoop(1) <- ["v"] -> []␊Iterate(12) <- [] -> [1]␊StoreLocal("x") <- [1] -> []␊BeginCapture(Capture) <- [] -> []␊EmitRaw("a") <- [] -> []␊EndCapture <- [] -> ["a"]␊Iterate(12) <- [] -> []␊PopLoopFrame <- [] -> []␊finished, 11 steps␊
{{ a }} | fault␊[] => Lookup("a") <- [] -> fault␊fault, 1 steps␊
␀ | [1] => finished, 0 steps␊
{{ a < b < c }} | [1]␊[2]␊[3]␊[] => Lookup("a") <- [] -> [1]␊Lookup("b") <- [] -> [2]␊Lookup("c") <- [] -> [3]␊Emit <- [true] -> []␊finished, 8 steps␊
{{ a < b < c }} | [2]␊[1]␊[] => Lookup("a") <- [] -> [2]␊Lookup("b") <- [] -> [1]␊Emit <- [false] -> []␊finished, 7 steps␊
{{ 1 in x in y }} | ["a"] => Lookup("x") <- [] -> ["a"]␊fault, 3 steps␊
{{ x[1:] }} | [none]␊[true]␊[] => Lookup("x") <- [] -> [none]␊Slice <- [none, 1, none, none] -> [true]␊Emit <- [true] -> []␊finished, 6 steps␊
{{ f(*a, **b) }} | ["a"]␊["b"]␊["m"]␊[1]␊["r"]␊[] => Lookup("a") <- [] -> ["a"]␊Lookup("b") <- [] -> ["b"]␊MergeKwargs(1) <- ["b"] -> ["m"]␊UnpackLists(2) <- ["a", ["m"]] -> [1]␊CallFunction("f", none) <- [1] -> ["r"]␊Emit <- ["r"] -> []␊finished, 7 steps␊
"#;
    hold::<Replay>(rt.alloc(), rows)
}

/// The lines before the bad one are not run.
#[test]
fn refuses_answers_that_are_none(rt: HostRuntime) -> Result<(), Fail> {
    let rows = r#"
{{ a }} | 1 => ! 2 mjc: bad answer on line 1␊
{{ a }} | [1]␊␊[] => ! 2 mjc: bad answer on line 2␊
{{ a }} | [1]␊fault␊[[1]]␊[ => ! 2 mjc: bad answer on line 3␊
{{ a }} | [-1] => ! 2 mjc: bad answer on line 1␊
{{ a }} | (1, 2) => ! 2 mjc: bad answer on line 1␊
{{ a }} | ['\q'] => ! 2 mjc: bad answer on line 1␊
{{ a }} | faults => ! 2 mjc: bad answer on line 1␊
{{ a }} | [b] => ! 2 mjc: bad answer on line 1␊
{{ a | [ => ! 1 mjc: SyntaxError at 1:3␊
"#;
    hold::<Replay>(rt.alloc(), rows)
}

#[test]
fn reads_answers_after_the_file(rt: HostRuntime) -> Result<(), Fail> {
    for read in ["", "[1]\n"] {
        let mut broken = Trickle {
            rest: read.as_bytes(),
            end: Err(io::Error::from(io::ErrorKind::ConnectionReset)),
        };
        let output = replayed(rt.alloc(), "{{ a", &mut broken)?;
        assert!(rt; output.as_str() == "! 1 mjc: SyntaxError at 1:3\n");
        let output = replayed(rt.alloc(), "{{ a }}", &mut broken)?;
        assert!(rt; output.as_str() == "! 2 mjc: cannot read answers\n");
    }
    let output = replayed(rt.alloc(), "{{ a }}", &mut b"[1]\n\xff".as_slice())?;
    assert!(rt; output.as_str() == "! 2 mjc: cannot read answers\n");
    Ok(())
}

/// The run of a template's code from an entry on, with one operand.
fn run_from(
    rt: &impl Abort,
    alloc: Global,
    source: &str,
    entry: Entry,
    operand: &str,
    answers: &str,
) -> Result<Run<Value>, Fail> {
    let code = compile::<Value>(alloc, source, "page", &SyntaxConfig::default())?;
    let operands = vec![in alloc; Value::of_str(alloc, operand)?]?;
    let Ok(answers) = read_answers(alloc, answers) else {
        panic!(rt; "an answer is none");
    };
    match replay_within(alloc, &code.instructions, entry, operands, answers, 100)? {
        Some(run) => Ok(run),
        None => panic!(rt; "the run is not over"),
    }
}

#[test]
fn what_a_macro_runs_is_entered_by_itself(rt: HostRuntime) -> Result<(), Fail> {
    let source = "{% macro f(a) %}{{ a }}{{ b }}{% endmacro %}";
    let answers = "[]\n[\"q\"]\n[]\n[\"r\"]\n[]\n";
    let run = run_from(&rt, rt.alloc(), source, Entry::Macro(1), "p", answers)?;
    assert!(rt; matches!(&run.ending, End::Finished));
    assert!(rt; run.steps == 6 && run.events.len() == 5 && run.operands.is_empty());
    Ok(())
}

#[test]
fn a_recursive_loop_is_entered_by_itself(rt: HostRuntime) -> Result<(), Fail> {
    let source = "{% for x in y recursive %}{% else %}n{% endfor %}";
    let run = run_from(&rt, rt.alloc(), source, Entry::Loop(1), "v", "[]\n[]\n[]\n")?;
    assert!(rt; matches!(&run.ending, End::Finished));
    assert!(rt; run.steps == 4 && run.events.len() == 3 && run.operands.len() == 1);
    assert!(rt; matches!(&run.operands[0], Value::Bool(true)));
    Ok(())
}
