//! The flags of loops and of macros, whose bits a renderer tests.
use minijinja_compiler::compile::compile;
use minijinja_compiler::instructions::{
    Instruction, LOOP_FLAG_RECURSIVE, LOOP_FLAG_WITH_LOOP_VAR, MACRO_CALLER,
};
use minijinja_compiler::syntax::SyntaxConfig;
use minijinja_compiler::value::Value;
use minijinja_test_rows::rows::{Subject, hold};
use std::alloc::{AllocError, Global};
use std::test::Fail;

#[test]
fn each_flag_is_a_bit(rt: HostRuntime) {
    assert!(rt; LOOP_FLAG_WITH_LOOP_VAR == 1);
    assert!(rt; LOOP_FLAG_RECURSIVE == 2);
    assert!(rt; MACRO_CALLER == 2);
}

/// Writes the bits of an instruction that has flags.
fn push_flags(words: &mut String, instruction: &Instruction<'_, Value>) -> Result<(), AllocError> {
    match instruction {
        Instruction::PushLoop(flags) => {
            let has_variable = *flags & LOOP_FLAG_WITH_LOOP_VAR != 0;
            let is_recursive = *flags & LOOP_FLAG_RECURSIVE != 0;
            write!(words, "loop {flags} {has_variable} {is_recursive}, ")
        }
        Instruction::BuildMacro(_, _, flags) => {
            let has_caller = *flags & MACRO_CALLER != 0;
            write!(words, "macro {flags} {has_caller}, ")
        }
        _ => Ok(()),
    }
}

/// Templates: the flags of their loops, and whether they have a loop variable and are recursive;
/// and the flags of their macros, and whether they ask for their caller.
enum Flags {}

impl Subject for Flags {
    fn words(alloc: Global, text: &str) -> Result<String, Fail> {
        let code = compile::<Value>(alloc, text, "name", &SyntaxConfig::default())?;
        let mut words = String::new(alloc);
        for instruction in code.instructions.iter() {
            push_flags(&mut words, instruction)?;
        }
        words.push_str("end")?;
        Ok(words)
    }
}

#[test]
fn loops_and_macros_have_flags(rt: HostRuntime) -> Result<(), Fail> {
    let rows = "
{% for a in b %}{% endfor %} => loop 1 true false, end
{% for a in b recursive %}{% endfor %} => loop 3 true true, end
{% for a in b if c %}{% endfor %} => loop 0 false false, loop 1 true false, end
{% for a in b if c recursive %}{% endfor %} => loop 0 false false, loop 3 true true, end
{% macro m() %}a{% endmacro %} => macro 0 false, end
{% macro m() %}{{ caller() }}{% endmacro %} => macro 2 true, end
{% call m() %}a{% endcall %} => macro 0 false, end
{% call m() %}{{ caller() }}{% endcall %} => macro 2 true, end
";
    hold::<Flags>(rt.alloc(), rows)
}
