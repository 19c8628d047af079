//! Texts of about 1 MiB, of the forms that a search that goes back would read in square time: a
//! test has a minute.
use minijinja_lexer::lexer::Tokenizer;
use minijinja_syntax::syntax::SyntaxConfig;
use minijinja_test_rows::rows::{Subject, hold, parted, repeated};
use minijinja_test_rows::syntaxes::syntax_of;
use std::alloc::Global;
use std::test::Fail;

/// How many tokens a template has, and where the last one ends. A refusal ends them.
fn count_tokens(alloc: Global, syntax: &SyntaxConfig, source: &str) -> (u32, u32) {
    let mut end = 0;
    if source.len() < 4_294_967_296 {
        let mut tokens = Tokenizer::new(alloc, source, "page", false, syntax);
        for count in 0..u32::MAX {
            match tokens.next_token() {
                Ok(Some((_, span))) => end = span.end_offset,
                Ok(None) | Err(_) => return (count, end),
            }
        }
    }
    (u32::MAX, end)
}

/// How many tokens a template in pieces has. The last ends where the text does.
fn count_in_pieces(alloc: Global, syntax: &SyntaxConfig, pieces: &str) -> Result<String, Fail> {
    let source = repeated(alloc, pieces)?;
    let (count, end) = count_tokens(alloc, syntax, source.as_str());
    if u64::from(end) == source.len() as u64 {
        Ok(count.to_string(alloc)?)
    } else {
        Ok(String::from_str(alloc, "another end")?)
    }
}

/// A template, after its options, in pieces: how many tokens it has.
enum Large {}

impl Subject for Large {
    fn words(alloc: Global, text: &str) -> Result<String, Fail> {
        let (options, pieces) = parted(text, " | ");
        let syntax = syntax_of(alloc, options)?;
        count_in_pieces(alloc, &syntax, pieces)
    }
}

#[test]
fn large_texts_are_read_in_linear_time(rt: HostRuntime) -> Result<(), Fail> {
    let rows = r#"
default | {# | 524288 * ␠x | #}{{ x }} => 3
default | {{ x }}{# | 524288 * {# | #}{{ x }} => 6
default | {% raw %} | 87382 * {% endrax %} | {% endraw %}{{ x }} => 4
default | 524288 * {␠ | {{ x }} => 4
default | a | 1048576 * ␠ | {{- x }} => 4
default | {{ x -}} | 1048576 * ␠ | {{ x }} => 6
lstrip_blocks | a␊ | 1048576 * ␠ | {% x %} => 4
lstrip_blocks | a | 1048576 * ␊ | {% x %} => 4
default | {{ ' | 1048576 * x | ' }} => 3
default | {{␠ | 1048576 * x | ␠}} => 3
"#;
    hold::<Large>(rt.alloc(), rows)
}

/// Half as large, since each place of such a syntax is looked at for each marker. A line has three
/// tokens.
#[test]
fn large_texts_of_lines_are_read_in_linear_time(rt: HostRuntime) -> Result<(), Fail> {
    let rows = r#"
line_statement #, line_comment ## | 131072 * # x␊ | # x => 393219
line_statement #, line_comment ## | 524288 * ␠ | # x => 3
"#;
    hold::<Large>(rt.alloc(), rows)
}
