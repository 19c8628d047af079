//! Whole compiles: templates and expressions with ample memory, and what is refused.
use super::{compile_page, marked, page_length};
use minijinja_compiler::compile::{Compiled, compile_expression, compile_expression_in};
use minijinja_compiler::error::{Error, ErrorKind};
use minijinja_compiler::instructions::Instructions;
use minijinja_compiler::value::Value;
use minijinja_test_rows::memory::is_of_memory;
use minijinja_test_rows::rows::{Subject, hold, parted, repeated};
use minijinja_test_rows::syntaxes::syntax_of;
use std::alloc::{AllocError, Global};
use std::process::Abort;
use std::test::Fail;

/// The kind of a refusal, and the end of its words, which are to name the source and the line that
/// it shows.
fn refusal(alloc: Global, error: Error<'_>) -> Result<String, AllocError> {
    let name = error.name().unwrap_or("");
    let place = format!(in alloc; " (in {name}:{}", error.line().unwrap_or(0))?;
    let end = format!(in alloc; "{place}:{})", error.column().unwrap_or(0))?;
    let words = error.to_string(alloc)?;
    if !words.ends_with(end.as_str()) {
        return Ok(words);
    }
    format!(in alloc; "{:?}{place})", error.kind())
}

/// The name and the length of a template's code and the hint.
fn size_of(alloc: Global, compiled: &Compiled<'_>) -> Result<String, Fail> {
    let code = &compiled.instructions;
    let hint = compiled.buffer_size_hint;
    Ok(format!(in alloc; "{}: {}, hint {hint}", code.name(), code.len())?)
}

/// Templates: the name and the length of their code and the hint, or why they are refused.
enum Templates {}

impl Subject for Templates {
    fn words(alloc: Global, text: &str) -> Result<String, Fail> {
        match compile_page(alloc, text) {
            Ok(compiled) => size_of(alloc, &compiled),
            Err(error) => Ok(refusal(alloc, error)?),
        }
    }
}

#[test]
fn compiles_with_ample_memory(rt: HostRuntime) -> Result<(), Fail> {
    hold::<Templates>(rt.alloc(), "Hello {{ name }}! => page: 4, hint 16")
}

/// Templates in pieces: the name and the length of their code and the hint.
enum LongTemplates {}

impl Subject for LongTemplates {
    fn words(alloc: Global, text: &str) -> Result<String, Fail> {
        let source = repeated(alloc, text)?;
        let compiled = compile_page(alloc, source.as_str())?;
        size_of(alloc, &compiled)
    }
}

/// Bytes of data are counted, past 65535 characters in a line and past as many lines.
#[test]
fn hints_count_the_bytes_of_data(rt: HostRuntime) -> Result<(), Fail> {
    let rows = r#"
é{{ é }} => page: 3, hint 4
70000 * x | {{ y }} => page: 3, hint 262144
65600 * ␊ | {{ x }} => page: 3, hint 262144
"#;
    hold::<LongTemplates>(rt.alloc(), rows)
}

#[test]
fn refuses_what_the_grammar_does_not_derive(rt: HostRuntime) -> Result<(), Fail> {
    let rows = r#"
{{ => SyntaxError (in page:1)
{{ a => SyntaxError (in page:1)
{{ }} => SyntaxError (in page:1)
{{ ( }} => SyntaxError (in page:1)
{{ a b }} => SyntaxError (in page:1)
{{ a. }} => SyntaxError (in page:1)
{{ (a }} => SyntaxError (in page:1)
{{ a | }} => SyntaxError (in page:1)
{{ a[ }} => SyntaxError (in page:1)
{{ f(a=1, b) }} => SyntaxError (in page:1)
{{ a is defined if b }} => SyntaxError (in page:1)
{{ 1.5 }} => SyntaxError (in page:1)
{{ 1_ }} => SyntaxError (in page:1)
{{ 1e5 }} => SyntaxError (in page:1)
{{ "a }} => SyntaxError (in page:1)
{{ a -} => SyntaxError (in page:1)
{# c => SyntaxError (in page:1)
{% raw %}x => SyntaxError (in page:1)
{% set loop = a %} => SyntaxError (in page:1)
{% set a() = c %} => SyntaxError (in page:1)
{% break %} => SyntaxError (in page:1)
{% do a %} => SyntaxError (in page:1)
{% set in = a %} => SyntaxError (in page:1)
{% set a %} => SyntaxError (in page:1)
{% if a %} => SyntaxError (in page:1)
{% endraw %} => SyntaxError (in page:1)
{% set %} => SyntaxError (in page:1)
{% %} => SyntaxError (in page:1)
{{ '\q' }} => BadEscape (in page:1)
{{ '\ud800' }} => BadEscape (in page:1)
{{ 'a' '\q' }} => BadEscape (in page:1)
{{ a '\q' }} => BadEscape (in page:1)
{{ a b }}{{ '\q' }} => SyntaxError (in page:1)
a␊{{ b␊ c }} => SyntaxError (in page:3)
"#;
    hold::<Templates>(rt.alloc(), rows)
}

/// A list: what it is of, the mark of a block that has to be overridden, and its length.
fn push_list(
    words: &mut String,
    name: &str,
    code: &Instructions<'_, Value>,
) -> Result<(), AllocError> {
    let mark = if code.is_required_block() {
        " required"
    } else {
        ""
    };
    write!(words, "{name}{mark} {}", code.len())
}

/// A template's own list, and those of its blocks in order of name.
fn lists_of(alloc: Global, compiled: &Compiled<'_>) -> Result<String, Fail> {
    let mut words = String::new(alloc);
    push_list(&mut words, "template", &compiled.instructions)?;
    for (name, code) in &compiled.blocks {
        words.push_str(", ")?;
        push_list(&mut words, name, code)?;
    }
    Ok(words)
}

/// Templates: their lists.
enum Lists {}

impl Subject for Lists {
    fn words(alloc: Global, text: &str) -> Result<String, Fail> {
        let compiled = compile_page(alloc, text)?;
        lists_of(alloc, &compiled)
    }
}

#[test]
fn blocks_have_lists_and_marks(rt: HostRuntime) -> Result<(), Fail> {
    let rows = r#"
{% block a %}x{% endblock %} => template 1, a 1
{% block a required %} {% endblock %} => template 1, a required 1
{% block a scoped required %}{% endblock a %}{% block b %}{% endblock %} => template 2, a required 0, b 0
{% block z %}{% block y required %}{% endblock %}{{ x }}{% endblock %}{{ x }} => template 3, y required 0, z 3
x => template 1
"#;
    hold::<Lists>(rt.alloc(), rows)
}

/// The name and the length of an expression's code, which has its source.
fn length_of(
    alloc: Global,
    code: &Instructions<'_, Value>,
    source: &str,
) -> Result<String, AllocError> {
    if code.source() != source {
        return String::from_str(alloc, "another source");
    }
    format!(in alloc; "{}: {}", code.name(), code.len())
}

/// The kind and the place of an expression's refusal, and the end of its words.
fn place_of(alloc: Global, error: Error<'_>) -> Result<String, AllocError> {
    let span = error.span().unwrap_or_default();
    let words = refusal(alloc, error)?;
    format!(in alloc; "{}:{} {words}", span.start_line, span.start_col)
}

/// Expressions: the name and the length of their code, or why and where they are refused.
enum Expressions {}

impl Subject for Expressions {
    fn words(alloc: Global, text: &str) -> Result<String, Fail> {
        match compile_expression::<Value>(alloc, text) {
            Ok(code) => Ok(length_of(alloc, &code, text)?),
            Err(error) => Ok(place_of(alloc, error)?),
        }
    }
}

/// The lengths are those of the upstream program's code, with constants folded as this project's
/// values fold.
#[test]
fn code_of_expressions_is_as_long_as_upstream(rt: HostRuntime) -> Result<(), Fail> {
    let rows = r#"
a + 1 * 2 => <expression>: 3
x[1:].k|f is not g(2) => <expression>: 10
self.b() => <expression>: 3
[1, (2,), {'k': a}] => <expression>: 6
a.0.b['c'](d) => <expression>: 8
'x' ~ 1 ~ a => <expression>: 3
"#;
    hold::<Expressions>(rt.alloc(), rows)
}

/// The places are those of the upstream program, except for floats and bad escapes, to which it
/// gives none.
#[test]
fn refusals_of_expressions_name_their_place(rt: HostRuntime) -> Result<(), Fail> {
    let rows = r#"
␠␠ => 0:0 SyntaxError (in <expression>:0)
a +␊  ? => 2:2 SyntaxError (in <expression>:2)
a␊+ b␊  c => 3:2 SyntaxError (in <expression>:3)
[a,␊b => 2:0 SyntaxError (in <expression>:2)
a if b␊else => 2:0 SyntaxError (in <expression>:2)
x[ => 1:1 SyntaxError (in <expression>:1)
x[] => 1:2 SyntaxError (in <expression>:1)
x[1: => 1:3 SyntaxError (in <expression>:1)
f('a'=1) => 1:5 SyntaxError (in <expression>:1)
f(a=1, b) => 1:7 SyntaxError (in <expression>:1)
f(,) => 1:2 SyntaxError (in <expression>:1)
[1 => 1:1 SyntaxError (in <expression>:1)
{'a' => 1:1 SyntaxError (in <expression>:1)
{'a': => 1:4 SyntaxError (in <expression>:1)
{'a': 1 => 1:6 SyntaxError (in <expression>:1)
x. => 1:1 SyntaxError (in <expression>:1)
a < => 1:2 SyntaxError (in <expression>:1)
a not => 1:2 SyntaxError (in <expression>:1)
1e5 => 1:1 SyntaxError (in <expression>:1)
a +␊'b' '\x' => 2:4 BadEscape (in <expression>:2)
a␊) => 2:0 SyntaxError (in <expression>:2)
"#;
    hold::<Expressions>(rt.alloc(), rows)
}

/// The name, the span and the bytes of a refusal, after its kind.
fn place_in_file(alloc: Global, error: Error<'_>) -> Result<String, AllocError> {
    let span = error.span().unwrap_or_default();
    let name = error.name().unwrap_or("");
    let bytes = format!(in alloc; "{}-{}", span.start_offset, span.end_offset)?;
    format!(in alloc; "{:?} in {name}{span:?}, bytes {bytes}", error.kind())
}

/// Files in which an expression stands between `«` and `»`, after a syntax: the name and the length
/// of its code, or why and where it is refused.
enum ExpressionsInFiles {}

impl Subject for ExpressionsInFiles {
    fn words(alloc: Global, text: &str) -> Result<String, Fail> {
        let (options, file) = parted(text, " | ");
        let syntax = syntax_of(alloc, options)?;
        match compile_expression_in::<Value>(alloc, file, marked(file)?, "app.conf", &syntax) {
            Ok(code) => Ok(length_of(alloc, &code, file)?),
            Err(error) => Ok(place_in_file(alloc, error)?),
        }
    }
}

/// The first two lines have 18 characters and 20 bytes, and each has a line end; on the third the
/// expression begins after 8 characters and 9 bytes.
#[test]
fn refusals_in_a_file_name_its_places(rt: HostRuntime) -> Result<(), Fail> {
    let rows = r#"
default | # délais␊host = "é"␊wait = «a» + b␊ => app.conf: 1
default | # délais␊host = "é"␊wait = «a␊␊» => app.conf: 1
default | # délais␊host = "é"␊wait = «base * )» => SyntaxError in app.conf @ 3:15-3:16, bytes 38-39
default | # délais␊host = "é"␊wait = 2␊␊x, é = «a␊ ? b» => SyntaxError in app.conf @ 6:1-6:2, bytes 45-46
default | # délais␊host = "é"␊wait = «» => SyntaxError in app.conf @ 3:8-3:8, bytes 31-31
default | # délais␊host = "é"␊wait = «a +» => SyntaxError in app.conf @ 3:10-3:11, bytes 33-34
default | # délais␊host = "é"␊wait = «a ~ '\x'» => BadEscape in app.conf @ 3:12-3:16, bytes 35-39
default | # délais␊host = "é"␊wait = «'a\»n' ~ b␊ => SyntaxError in app.conf @ 3:11-3:12, bytes 34-35
default | # délais␊host = "é"␊wait = «'a␊» ' => SyntaxError in app.conf @ 4:0-4:1, bytes 34-35
default | # délais␊host = "é"␊wait = «a }}» => SyntaxError in app.conf @ 3:10-3:12, bytes 33-35
variable [[ ]] | # délais␊host = "é"␊wait = «a }}» => SyntaxError in app.conf @ 3:10-3:11, bytes 33-34
variable [[ ]] | # délais␊host = "é"␊wait = «a[b[0]]» => app.conf: 5
variable [[ ]] | # délais␊host = "é"␊wait = «a ]]» => SyntaxError in app.conf @ 3:10-3:12, bytes 33-35
"#;
    hold::<ExpressionsInFiles>(rt.alloc(), rows)
}

/// Takes no memory itself, so that it may run with an allocation that fails.
#[test]
fn says_that_memory_is_refused(rt: HostRuntime) {
    match page_length(
        rt.alloc(),
        "{% macro m(a, b=c) %}{{ d }}{% endmacro %}{% block e %}x{% endblock %}{{ f(a, *b)|g }}",
    ) {
        Ok(length) => assert!(rt; length == 25),
        Err(error) => assert!(rt; is_of_memory(error)),
    }
    match compile_expression::<Value>(rt.alloc(), "f(a, *b)|g") {
        Ok(code) => assert!(rt; code.len() == 6),
        Err(error) => assert!(rt; is_of_memory(error)),
    }
}
