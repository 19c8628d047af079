//! The lines and the spans of compiled code.
use super::marked;
use minijinja_compiler::compile::{compile, compile_expression_in};
use minijinja_compiler::instructions::Instructions;
use minijinja_compiler::syntax::SyntaxConfig;
use minijinja_compiler::tokens::Span;
use minijinja_compiler::value::Value;
use minijinja_test_rows::rows::{Subject, hold, parted};
use minijinja_test_rows::syntaxes::syntax_of;
use std::alloc::{AllocError, Global};
use std::test::Fail;

fn push_span(words: &mut String, span: Span) -> Result<(), AllocError> {
    let (start, start_col) = (span.start_line, span.start_col);
    let (end, end_col) = (span.end_line, span.end_col);
    write!(words, "@{start}:{start_col}-{end}:{end_col}")
}

/// Adds the line of an instruction, and its span, if it has one.
fn push_place(
    words: &mut String,
    code: &Instructions<'_, Value>,
    index: u32,
) -> Result<(), AllocError> {
    if let Some(line) = code.get_line(index) {
        write!(words, "{line}")?;
    }
    if let Some(span) = code.get_span(index) {
        push_span(words, span)?;
    }
    words.push_str(" ")
}

/// Templates: the line of each instruction, and where its span begins and ends, if it has one.
enum Places {}

impl Subject for Places {
    fn words(alloc: Global, text: &str) -> Result<String, Fail> {
        let compiled = compile::<Value>(alloc, text, "name", &SyntaxConfig::default())?;
        Ok(places_of(alloc, &compiled.instructions)?)
    }
}

/// The place of each instruction.
fn places_of(alloc: Global, code: &Instructions<'_, Value>) -> Result<String, AllocError> {
    let mut words = String::new(alloc);
    for index in 0..100 {
        if code.get(index).is_some() {
            push_place(&mut words, code, index)?;
        }
    }
    words.push_str("end")?;
    Ok(words)
}

/// The rows are what the upstream crate says of these texts.
#[test]
fn instructions_have_places(rt: HostRuntime) -> Result<(), Fail> {
    let rows = "
{{ a }}␊{{ b }} => 1@1:3-1:4 1@1:3-1:4 1 2@2:3-2:4 2@2:3-2:4 end
{% if a␊and b %}{{ c|d }}{% endif %}x => 1@1:6-2:5 1@1:6-2:5 2 2 2@2:13-2:14 2@2:13-2:14 2@2:13-2:14 2 end
{{ a.b }}{% set x = y %} => 1@1:3-1:6 1@1:3-1:6 1@1:3-1:6 1 1 end
{{ 1 +␊2 }}{{ f(a,␊b) }} => 1@1:3-2:1 1@1:3-2:1 2@2:7-3:2 3 3 3 end
{{ a }}␊{{ a }}x␊x => 1@1:3-1:4 1@1:3-1:4 1 2@2:3-2:4 2@2:3-2:4 2 end
{{ a.a }}␊{{ a }} => 1@1:3-1:6 1@1:3-1:6 1@1:3-1:6 1 2@2:3-2:4 2@2:3-2:4 end
{% for a in␊a %}{{ a }}␊{% for a in a %}{{ a }}{% endfor %}{% endfor %} => 2@2:0-2:1 2@2:0-2:1 2@2:0-2:1 2 2@2:7-2:8 2@2:7-2:8 2 3@3:12-3:13 3@3:12-3:13 3@3:12-3:13 3 3@3:19-3:20 3@3:19-3:20 3 3 3 3 end
x{{ a }}x␊{{ a␊+ a }}x => 1 1@1:4-1:5 1@1:4-1:5 1 2@2:3-3:3 3 3 3 3 end
{% if a %}a{% else %}a␊{% endif %}a => 1@1:6-1:7 1@1:6-1:7 1 1 1 2 end";
    hold::<Places>(rt.alloc(), rows)
}

/// Files in which an expression stands between `«` and `»`, after a syntax: the lines and the spans
/// of its instructions.
enum PlacesInFiles {}

impl Subject for PlacesInFiles {
    fn words(alloc: Global, text: &str) -> Result<String, Fail> {
        let (options, file) = parted(text, " | ");
        let syntax = syntax_of(alloc, options)?;
        let code = compile_expression_in::<Value>(alloc, file, marked(file)?, "app.conf", &syntax)?;
        if code.source() != file || code.name() != "app.conf" {
            return Err(Fail::from("another source"));
        }
        Ok(places_of(alloc, &code)?)
    }
}

/// Lines count in the file, and columns in its characters: `é` is one, and has two bytes.
#[test]
fn instructions_have_places_of_the_file(rt: HostRuntime) -> Result<(), Fail> {
    let rows = r#"
default | # délais␊host = "é"␊wait = «base * 2» * 3␊retry = 3␊ => 3@3:8-3:16 3@3:8-3:16 3@3:8-3:16 end
default | # délais␊host = "é"␊wait = 1␊retry = 3␊text = é «f(user)|g»; x = 1␊ => 5@5:10-5:17 5@5:10-5:17 5@5:18-5:19 end
default | # délais␊host = "é"␊wait = « a < b␊» => 3@3:8-3:14 3@3:8-3:14 3@3:8-3:14 end
default | # délais␊host = "é"␊wait = «a if␊ b» => 4 4 3 3 3 end
variable [[ ]] | # délais␊host = "é"␊wait = «a[b[0]]» => 3@3:8-3:15 3@3:10-3:14 3@3:10-3:14 3@3:10-3:14 3@3:8-3:15 end
"#;
    hold::<PlacesInFiles>(rt.alloc(), rows)
}
