//! Rows of what a parser or a generator that calls itself would end the process at, and how deep
//! each form nests: a test has a minute.
use super::page_length;
use minijinja_compiler::lexer::Tokenizer;
use minijinja_compiler::syntax::SyntaxConfig;
use minijinja_test_rows::rows::{Subject, hold, parted, repeated};
use minijinja_test_rows::syntaxes::syntax_of;
use std::alloc::Global;
use std::test::Fail;

/// A template in pieces: how many instructions it has. Its tree and its code are dropped after
/// that.
enum Rows {}

impl Subject for Rows {
    fn words(alloc: Global, text: &str) -> Result<String, Fail> {
        let source = repeated(alloc, text)?;
        match page_length(alloc, source.as_str()) {
            Ok(length) => Ok(length.to_string(alloc)?),
            Err(_) => Ok(String::from_str(alloc, "refused")?),
        }
    }
}

#[test]
fn rows_of_operators_are_compiled(rt: HostRuntime) -> Result<(), Fail> {
    let rows = r#"
{{␠a | 100000 * +a | ␠}} => 200002
{{␠a | 100000 * ~a | ␠}} => 200002
{{␠a | 100000 * //a | ␠}} => 200002
{{␠a | 100000 * ␠and␠a | ␠}} => 200002
{{␠a | 100000 * ␠or␠a | ␠}} => 200002
{{␠a | 100000 * <a | ␠}} => 300004
{{␠a | 100000 * ␠in␠a | ␠}} => 300004
{{␠a | 100000 * **a | ␠}} => refused
{{␠ | 100000 * not␠ | a␠}} => refused
{{␠ | 100000 * - | a␠}} => refused
"#;
    hold::<Rows>(rt.alloc(), rows)
}

#[test]
fn rows_of_postfixes_are_compiled(rt: HostRuntime) -> Result<(), Fail> {
    let rows = r#"
{{␠a | 100000 * .b | ␠}} => 100002
{{␠a | 100000 * [b] | ␠}} => 200002
{{␠a | 100000 * [b:] | ␠}} => 400002
{{␠f | 100000 * (a) | ␠}} => 200001
{{␠f(x | 1999 * ,␠x | )␠}} => 2002
{{␠f(x | 2000 * ,␠x | )␠}} => refused
{{␠a | 100000 * .m(b) | ␠}} => 200002
{{␠a | 100000 * |f | ␠}} => 100002
{{␠a | 100000 * |f(b) | ␠}} => 200002
{{␠a | 100000 * ␠is␠t | ␠}} => 100002
{{␠a | 100000 * ␠if␠b | ␠}} => 400002
{{␠a | 100000 * ␠if␠b␠else␠c | ␠}} => refused
"#;
    hold::<Rows>(rt.alloc(), rows)
}

#[test]
fn rows_of_operators_on_constants_are_folded(rt: HostRuntime) -> Result<(), Fail> {
    let rows = r#"
{{␠1 | 100000 * +1 | ␠}} => 2
{{␠1 | 100000 * ␠and␠1 | ␠}} => 2
{{␠1 | 100000 * ==1 | ␠}} => 2
{{␠'a' | 1000 * ~'' | ␠}} => 2
{{␠ | 298 * not␠ | 1␠}} => 2
{{␠ | 298 * - | 1␠}} => 2
"#;
    hold::<Rows>(rt.alloc(), rows)
}

#[test]
fn many_statements_are_compiled(rt: HostRuntime) -> Result<(), Fail> {
    let rows = r#"
1000000 * {{a}} => 2000000
1000000 * {%set a=b%} => 2000000
1000000 * {%if a%}{%endif%} => 2000000
{%for a in b%} | 1000000 * {%break%} | {%endfor%} => 1000006
"#;
    hold::<Rows>(rt.alloc(), rows)
}

/// Rows of parts: those that nest are refused.
#[test]
fn rows_of_parts_of_statements_are_compiled(rt: HostRuntime) -> Result<(), Fail> {
    let rows = r#"
{%set a | 50000 * ,a | =b%} => 50003
{%set a | 50000 * .b | =c%} => 50002
{%set a | 50000 * |f | %}x{%endset%} => 50004
{%filter f | 50000 * |f | %}x{%endfilter%} => 50005
{%with a=b | 50000 * ,a=b | %}{%endwith%} => 100004
{%if a%} | 50000 * {%elif a%} | {%endif%} => refused
{%set␠ | 50000 * ( | a | 50000 * ) | =b%} => refused
"#;
    hold::<Rows>(rt.alloc(), rows)
}

/// Rows within macros, whose closures are looked for too, and of what only they and imports
/// have.
#[test]
fn rows_of_parts_in_macros_are_compiled(rt: HostRuntime) -> Result<(), Fail> {
    let rows = r#"
{%macro f(a | 50000 * ,a | )%}{%endmacro%} => 50007
{%macro f(a=b | 50000 * ,a=b | )%}{%endmacro%} => 300013
{%macro f()%}{{␠a | 50000 * +a | ␠}}{%endmacro%} => 100009
{%macro f()%}{{␠a | 50000 * .b | ␠}}{%endmacro%} => 50009
{%call f(a | 50000 * .b | )%}{%endcall%} => 50010
{%from a import b | 50000 * ,b | %} => 100009
10000 * {%macro f()%}{{a}}{%endmacro%} => 90000
100000 * {%include a%} => 200000
100000 * {%import a as b%} => 900000
"#;
    hold::<Rows>(rt.alloc(), rows)
}

/// Each of these nests as deep as it may, and then one deeper.
#[test]
fn expressions_nest_up_to_300_deep(rt: HostRuntime) -> Result<(), Fail> {
    let rows = r#"
{{␠a | 298 * **a | ␠}} => 598
{{␠a | 299 * **a | ␠}} => refused
{{␠ | 298 * not␠ | a␠}} => 300
{{␠ | 299 * not␠ | a␠}} => refused
{{␠ | 298 * - | a␠}} => 300
{{␠ | 299 * - | a␠}} => refused
{{␠a | 298 * ␠if␠b␠else␠c | ␠}} => 1194
{{␠a | 299 * ␠if␠b␠else␠c | ␠}} => refused
{%macro f()%}{{␠a | 297 * ␠if␠b␠else␠c | ␠}}{%endmacro%} => 1199
{%macro f()%}{{␠a | 298 * ␠if␠b␠else␠c | ␠}}{%endmacro%} => refused
"#;
    hold::<Rows>(rt.alloc(), rows)
}

#[test]
fn statements_nest_up_to_300_deep(rt: HostRuntime) -> Result<(), Fail> {
    let rows = r#"
299 * {%if a%} | x | 299 * {%endif%} => 599
300 * {%if a%} | x | 300 * {%endif%} => refused
{%if a%} | 298 * {%elif a%} | {%endif%} => 896
{%if a%} | 299 * {%elif a%} | {%endif%} => refused
{%if a%} | 298 * x{%elif a%} | {%else%}y{%endif%} => 1196
{%if a%} | 299 * x{%elif a%} | {%else%}y{%endif%} => refused
{%macro f()%}{%if a%} | 297 * {%elif a%} | {%endif%}{%endmacro%} => 900
{%macro f()%}{%if a%} | 298 * {%elif a%} | {%endif%}{%endmacro%} => refused
300 * {%macro f()%} | x | 300 * {%endmacro%} => 1801
301 * {%macro f()%} | x | 301 * {%endmacro%} => refused
298 * {%macro f(a=b)%} | x | 298 * {%endmacro%} => 3875
299 * {%macro f(a=b)%} | x | 299 * {%endmacro%} => refused
298 * {%call f()%} | x | 298 * {%endcall%} => 2980
299 * {%call f()%} | x | 299 * {%endcall%} => refused
"#;
    hold::<Rows>(rt.alloc(), rows)
}

#[test]
fn targets_nest_up_to_300_deep(rt: HostRuntime) -> Result<(), Fail> {
    let rows = r#"
{%set␠ | 299 * ( | a | 299 * ) | =b%} => 2
{%set␠ | 300 * ( | a | 300 * ) | =b%} => refused
{%set␠ | 299 * ( | a | 299 * ,) | =b%} => 301
{%set␠ | 298 * ( | a | 298 * ,(b,)) | =b%} => 896
{%set␠ | 299 * ( | a | 299 * ,(b,)) | =b%} => refused
{%for␠ | 299 * ( | a | 299 * ,) | ␠in b%}{%endfor%} => 305
{%for␠ | 300 * ( | a | 300 * ,) | ␠in b%}{%endfor%} => refused
{%with␠ | 299 * ( | a | 299 * ) | =b%}{%endwith%} => 4
{%with␠ | 300 * ( | a | 300 * ) | =b%}{%endwith%} => refused
{%macro f()%}{%set␠ | 298 * ( | a | 298 * ,) | =b%}{%endmacro%} => 307
{%macro f()%}{%set␠ | 299 * ( | a | 299 * ,) | =b%}{%endmacro%} => refused
"#;
    hold::<Rows>(rt.alloc(), rows)
}
