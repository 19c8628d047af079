//! The tokens of texts, and where wrong texts are refused.
//!
//! The program's tests have the lines and columns of tokens.
use minijinja_lexer::lexer::Tokenizer;
use minijinja_syntax::error::Error;
use minijinja_syntax::syntax::SyntaxConfig;
use minijinja_syntax::tokens::{Span, Token};
use minijinja_test_rows::rows::{Subject, hold, parted, repeated};
use minijinja_test_rows::syntaxes::syntax_of;
use std::alloc::{AllocError, Global};
use std::test::Fail;

/// What a row shows of a text's tokens.
#[derive(Clone, Copy)]
enum View {
    /// Each token or refusal with the offsets where it begins and ends.
    Places,
    /// Each token as messages name it.
    Words,
    /// Each token so, with its lines, columns and offsets.
    Spans,
}

impl View {
    fn push_token(
        self,
        words: &mut String,
        token: &Token<'_>,
        span: Span,
    ) -> Result<(), AllocError> {
        match self {
            View::Places => write!(
                words,
                "{token:?} {}-{}, ",
                span.start_offset, span.end_offset
            ),
            View::Words => write!(words, "{token}, "),
            View::Spans => write!(
                words,
                "{token}{span:?} {}-{}, ",
                span.start_offset, span.end_offset
            ),
        }
    }
}

fn push_refusal(words: &mut String, error: &Error<'_>) -> Result<(), AllocError> {
    let span = error.span().unwrap_or_default();
    write!(
        words,
        "{} {}-{}",
        error.detail(),
        span.start_offset,
        span.end_offset
    )
}

/// Appends the next token, or why there is none, and returns whether there is one.
fn push_next(words: &mut String, tokens: &mut Tokenizer<'_, '_>, view: View) -> Result<bool, Fail> {
    match tokens.next_token() {
        Ok(Some((token, span))) => {
            view.push_token(words, &token, span)?;
            return Ok(true);
        }
        Ok(None) => words.push_str("end")?,
        Err(error) => push_refusal(words, &error)?,
    }
    Ok(false)
}

/// The tokens of a template or of an expression, one after another.
fn tokens(
    alloc: Global,
    syntax: &SyntaxConfig,
    source: &str,
    in_expr: bool,
    view: View,
) -> Result<String, Fail> {
    let mut words = String::new(alloc);
    if source.len() < 4_294_967_296 {
        let mut tokens = Tokenizer::new(alloc, source, "page", in_expr, syntax);
        for _ in 0..200 {
            if !push_next(&mut words, &mut tokens, view)? {
                break;
            }
        }
    }
    Ok(words)
}

/// Templates, each after its options.
enum Templates {}

impl Subject for Templates {
    fn words(alloc: Global, text: &str) -> Result<String, Fail> {
        let (options, source) = parted(text, " | ");
        tokens(
            alloc,
            &syntax_of(alloc, options)?,
            source,
            false,
            View::Places,
        )
    }
}

/// Expressions in the default syntax.
enum Expressions {}

impl Subject for Expressions {
    fn words(alloc: Global, text: &str) -> Result<String, Fail> {
        tokens(alloc, &SyntaxConfig::default(), text, true, View::Places)
    }
}

/// Templates in the default syntax.
enum Messages {}

impl Subject for Messages {
    fn words(alloc: Global, text: &str) -> Result<String, Fail> {
        tokens(alloc, &SyntaxConfig::default(), text, false, View::Words)
    }
}

#[test]
fn templates_are_cut_at_their_tags(rt: HostRuntime) -> Result<(), Fail> {
    let rows = r#"
comment {# -} | {#+-}  x => TemplateData("  x") 5-8, end
default | a {#-#} b => TemplateData("a") 0-1, TemplateData(" b") 7-9, end
default | {% raw %}{{ a }}{% endraw %} => TemplateData("{{ a }}") 9-16, end
default | {% raw -%}  a {%- endraw %}b => TemplateData("a") 10-14, TemplateData("b") 27-28, end
default | x{# a => TemplateData("x") 0-1, unexpected end of input, expected end of comment 5-6
default | {% raw %}x => unexpected end of input, expected end of raw block 10-11
default | {{ name -}}  x => VariableStart 0-2, Ident("name") 3-7, VariableEnd 8-11, TemplateData("x") 13-14, end
trim_blocks | {% set a = 1 %}␍␊x => BlockStart 0-2, Ident("set") 3-6, Ident("a") 7-8, Assign 9-10, Int(1) 11-12, BlockEnd 13-15, TemplateData("x") 17-18, end
lstrip_blocks | a␊  {% x %} {{ y }}␊␉{# c #}b {% z %} => TemplateData("a\n") 0-2, BlockStart 4-6, Ident("x") 7-8, BlockEnd 9-11, TemplateData(" ") 11-12, VariableStart 12-14, Ident("y") 15-16, VariableEnd 17-19, TemplateData("\n") 19-20, TemplateData("b ") 28-30, BlockStart 30-32, Ident("z") 33-34, BlockEnd 35-37, end
line_statement #, line_comment ## | # set a = 1␍␊x => BlockStart 0-1, Ident("set") 2-5, Ident("a") 6-7, Assign 8-9, Int(1) 10-11, BlockEnd 11-13, TemplateData("x") 13-14, end
line_statement #, line_comment ## | # a(␊ => BlockStart 0-1, Ident("a") 2-3, ParenOpen 3-4, BlockEnd 4-4, end
variable « » | «é» => VariableStart 0-2, Ident("é") 2-4, VariableEnd 4-6, end
variable {{ ␠} | {{ x- }y => VariableStart 0-2, Ident("x") 3-4, VariableEnd 4-7, TemplateData("y") 7-8, end
variable {{ ␠} | {{ x } => VariableStart 0-2, Ident("x") 3-4, BraceClose 5-6, end
"#;
    hold::<Templates>(rt.alloc(), rows)
}

/// A tag ends only where as many brackets were opened in it as were shut.
#[test]
fn tags_are_cut_into_tokens(rt: HostRuntime) -> Result<(), Fail> {
    let rows = r#"
default | {{ '\u0041' 'a\qb' }} => VariableStart 0-2, String("A") 3-11, invalid string escape 12-18
default | {{ {'}}': [1]} }} => VariableStart 0-2, BraceOpen 3-4, Str("}}") 4-8, Colon 8-9, BracketOpen 10-11, Int(1) 11-12, BracketClose 12-13, BraceClose 13-14, VariableEnd 15-17, end
default | {{ 18446744073709551616 'a\tb' 18446744073709551615 }} => VariableStart 0-2, Int128(18446744073709551616) 3-23, String("a\tb") 24-30, Int(18446744073709551615) 31-51, VariableEnd 52-54, end
default | {{ (}} => VariableStart 0-2, ParenOpen 3-4, BraceClose 4-5, BraceClose 5-6, end
default | {{ ]}} => VariableStart 0-2, BracketClose 3-4, BraceClose 4-5, BraceClose 5-6, end
default | {{ ~}} => VariableStart 0-2, Tilde 3-4, VariableEnd 4-6, end
default | {{ {}}} => VariableStart 0-2, BraceOpen 3-4, BraceClose 4-5, VariableEnd 5-7, end
"#;
    hold::<Templates>(rt.alloc(), rows)
}

#[test]
fn names_and_symbols_are_cut_at_their_longest(rt: HostRuntime) -> Result<(), Fail> {
    let rows = r#"
// ** == != >= <= + - * / % . , : ~ | = > < ( ) [ ] { } => FloorDiv 0-2, Pow 3-5, Eq 6-8, Ne 9-11, Gte 12-14, Lte 15-17, Plus 18-19, Minus 20-21, Mul 22-23, Div 24-25, Mod 26-27, Dot 28-29, Comma 30-31, Colon 32-33, Tilde 34-35, Pipe 36-37, Assign 38-39, Gt 40-41, Lt 42-43, ParenOpen 44-45, ParenClose 46-47, BracketOpen 48-49, BracketClose 50-51, BraceOpen 52-53, BraceClose 54-55, end
=== => Eq 0-2, Assign 2-3, end
] => BracketClose 0-1, end
! => unexpected character 0-1
a! => Ident("a") 0-1, unexpected character 1-2
$ => unexpected character 0-1
€ => unexpected character 0-1
_ => Ident("_") 0-1, end
é1_b.c => Ident("é1_b") 0-5, Dot 5-6, Ident("c") 6-7, end
a-b => Ident("a") 0-1, Minus 1-2, Ident("b") 2-3, end
a}} b => Ident("a") 0-1, VariableEnd 1-3, unexpected template data, expected end of input 3-4
"#;
    hold::<Expressions>(rt.alloc(), rows)
}

#[test]
fn strings_are_decoded(rt: HostRuntime) -> Result<(), Fail> {
    let rows = r#"
'' => Str("") 0-2, end
"'"a => Str("'") 0-3, Ident("a") 3-4, end
␠'é'␠ => Str("é") 1-5, end
'a\'b' c => String("a'b") 0-6, Ident("c") 7-8, end
'\\' => String("\\") 0-4, end
'\b\f\n\r\t' => String("\u{8}\u{c}\n\r\t") 0-12, end
'\/\"\'' => String("/\"'") 0-8, end
'é\u00e9x' => String("ééx") 0-11, end
'\ud83d\ude00' => String("😀") 0-14, end
'\uD83D\uDE00' => String("😀") 0-14, end
'\ud83d' => invalid string escape 0-8
'\ude00' => invalid string escape 0-8
'\ud83dx' => invalid string escape 0-9
'\ud83d\n' => invalid string escape 0-10
'\ud83d\u0041' => invalid string escape 0-14
'\ud83d\ud83d' => invalid string escape 0-14
'\x' => invalid string escape 0-4
'\é' => invalid string escape 0-5
'\u12' => invalid string escape 0-6
'\u+041' => invalid string escape 0-8
'a => unexpected end of string 2-3
'a\' => unexpected end of string 4-5
␠'\ => unexpected end of string 3-4
"#;
    hold::<Expressions>(rt.alloc(), rows)
}

#[test]
fn integers_are_read_and_floats_refused(rt: HostRuntime) -> Result<(), Fail> {
    let rows = r#"
0 => Int(0) 0-1, end
08 => Int(8) 0-2, end
1__2␠ => Int(12) 0-4, end
0b1_0 => Int(2) 0-5, end
0O17 => Int(15) 0-4, end
0xFf_F => Int(4095) 0-6, end
0x_1 => Int(1) 0-4, end
0b1a => Int(1) 0-3, Ident("a") 3-4, end
0b1e5 => Int(1) 0-3, Ident("e5") 3-5, end
0xe+1 => Int(14) 0-3, Plus 3-4, Int(1) 4-5, end
18446744073709551615 => Int(18446744073709551615) 0-20, end
18446744073709551616 => Int128(18446744073709551616) 0-20, end
340282366920938463463374607431768211455 => Int128(340282366920938463463374607431768211455) 0-39, end
340282366920938463463374607431768211456 => integer too large 39-40
0b2 => a digit is out of the number's radix 3-4
0o8 => a digit is out of the number's radix 3-4
0b => a number has no digits 2-3
0xg => a number has no digits 2-3
1_ => '_' may not occur at end of number 2-3
1_x => '_' may not occur at end of number 2-3
0x_ => '_' may not occur at end of number 3-4
1e => float literals are not supported 1-2
1E5 => float literals are not supported 1-2
12.5 => float literals are not supported 2-3
1. => float literals are not supported 1-2
1..2 => float literals are not supported 1-2
1.e5 => float literals are not supported 1-2
1.E- => float literals are not supported 1-2
1_.5 => float literals are not supported 2-3
1_e5 => float literals are not supported 2-3
1.e => Int(1) 0-1, Dot 1-2, Ident("e") 2-3, end
1._a => Int(1) 0-1, Dot 1-2, Ident("_a") 2-4, end
1.é => Int(1) 0-1, Dot 1-2, Ident("é") 2-4, end
0x1.5 => Int(1) 0-3, Dot 3-4, Int(5) 4-5, end
a.1.5 => Ident("a") 0-1, Dot 1-2, Int(1) 2-3, Dot 3-4, Int(5) 4-5, end
a.1.e5 => Ident("a") 0-1, Dot 1-2, Int(1) 2-3, Dot 3-4, Ident("e5") 4-6, end
a.1e5 => Ident("a") 0-1, Dot 1-2, float literals are not supported 3-4
"#;
    hold::<Expressions>(rt.alloc(), rows)
}

/// The words are those of the upstream program.
#[test]
fn tokens_are_named_in_messages(rt: HostRuntime) -> Result<(), Fail> {
    let rows = r#"
x{{ a 'b' 'b\n' 1 18446744073709551616 }}{% + - * / // ** % %} => template-data, start of variable block, identifier, string, string, integer, integer, end of variable block, start of block, `+`, `-`, `*`, `/`, `//`, `**`, `%`, end of block, end
{{ . , : ~ = | == != > >= < <= [ ] ( ) { } }} => start of variable block, `.`, `,`, `:`, `~`, `=`, `|`, `==`, `!=`, `>`, `>=`, `<`, `<=`, `[`, `]`, `(`, `)`, `{`, `}`, end of variable block, end
"#;
    hold::<Messages>(rt.alloc(), rows)
}

/// Templates in pieces: their tokens with lines, columns and offsets.
enum Spans {}

impl Subject for Spans {
    fn words(alloc: Global, text: &str) -> Result<String, Fail> {
        let source = repeated(alloc, text)?;
        let syntax = SyntaxConfig::default();
        tokens(alloc, &syntax, source.as_str(), false, View::Spans)
    }
}

/// Columns count characters, and offsets bytes. Lines and columns stop at 65535, and offsets do
/// not.
#[test]
fn lines_columns_and_offsets_are_counted(rt: HostRuntime) -> Result<(), Fail> {
    let rows = r#"
é{{ é }} => template-data @ 1:0-1:1 0-2, start of variable block @ 1:1-1:3 2-4, identifier @ 1:4-1:5 5-7, end of variable block @ 1:6-1:8 8-10, end
70000 * x | {{ y }} => template-data @ 1:0-1:65535 0-70000, start of variable block @ 1:65535-1:65535 70000-70002, identifier @ 1:65535-1:65535 70003-70004, end of variable block @ 1:65535-1:65535 70005-70007, end
65600 * ␊ | {{ x }} => template-data @ 1:0-65535:0 0-65600, start of variable block @ 65535:0-65535:2 65600-65602, identifier @ 65535:3-65535:4 65603-65604, end of variable block @ 65535:5-65535:7 65605-65607, end
"#;
    hold::<Spans>(rt.alloc(), rows)
}
