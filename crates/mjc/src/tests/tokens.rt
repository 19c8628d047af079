//! The lines that `mjc tokens` prints.
use super::words::Commands;
use super::{Short, output};
use minijinja_test_rows::rows::{Subject, hold};
use mjc_commands::run::run;
use std::alloc::Global;
use std::io;
use std::process::Abort;
use std::test::Fail;

/// Templates: their tokens.
enum Tokens {}

impl Subject for Tokens {
    fn words(alloc: Global, text: &str) -> Result<String, Fail> {
        output(alloc, &["tokens", "-"], &mut text.as_bytes())
    }
}

#[test]
fn prints_tokens(rt: HostRuntime) -> Result<(), Fail> {
    let rows = r#"
Hello {{ name }}! => 1:0-1:6 TemplateData("Hello ")␊1:6-1:8 VariableStart␊1:9-1:13 Ident("name")␊1:14-1:16 VariableEnd␊1:16-1:17 TemplateData("!")␊
␀ => ␀
{{ name -}}  x => 1:0-1:2 VariableStart␊1:3-1:7 Ident("name")␊1:8-1:11 VariableEnd␊1:13-1:14 TemplateData("x")␊
{% raw -%}  a {%- endraw %}b => 1:10-1:14 TemplateData("a")␊1:27-1:28 TemplateData("b")␊
{% raw %}{{ a }}{% endraw %} => 1:9-1:16 TemplateData("{{ a }}")␊
{{-1}} => 1:0-1:3 VariableStart␊1:3-1:4 Int(1)␊1:4-1:6 VariableEnd␊
a {#-#} b => 1:0-1:1 TemplateData("a")␊1:7-1:9 TemplateData(" b")␊
é{{ é }} => 1:0-1:1 TemplateData("é")␊1:1-1:3 VariableStart␊1:4-1:5 Ident("é")␊1:6-1:8 VariableEnd␊
{{ "a\n\"b" }} => 1:0-1:2 VariableStart␊1:3-1:11 String("a\n\"b")␊1:12-1:14 VariableEnd␊
{{ 'a' 18446744073709551616 }} => 1:0-1:2 VariableStart␊1:3-1:6 Str("a")␊1:7-1:27 Int128(18446744073709551616)␊1:28-1:30 VariableEnd␊
{{ a+b**2//1 }} => 1:0-1:2 VariableStart␊1:3-1:4 Ident("a")␊1:4-1:5 Plus␊1:5-1:6 Ident("b")␊1:6-1:8 Pow␊1:8-1:9 Int(2)␊1:9-1:11 FloorDiv␊1:11-1:12 Int(1)␊1:13-1:15 VariableEnd␊
"#;
    hold::<Tokens>(rt.alloc(), rows)
}

#[test]
fn prints_the_tokens_before_a_refusal(rt: HostRuntime) -> Result<(), Fail> {
    let rows = r#"
{{ a ? => 1:0-1:2 VariableStart␊1:3-1:4 Ident("a")␊! 1 mjc: SyntaxError at 1:5␊
"#;
    hold::<Tokens>(rt.alloc(), rows)
}

/// An end that begins with whitespace is met after a control byte alone. The words of an option may
/// begin as options do, and the last of a repeated one counts.
#[test]
fn heeds_options(rt: HostRuntime) -> Result<(), Fail> {
    let rows = r#"
tokens, --variable, «, », - < «x» => 1:0-1:1 VariableStart␊1:1-1:2 Ident("x")␊1:2-1:3 VariableEnd␊
tokens, --variable, «, », - < «é» => 1:0-1:1 VariableStart␊1:1-1:2 Ident("é")␊1:2-1:3 VariableEnd␊
tokens, --variable, {{, ␠}, - < {{ x- }y => 1:0-1:2 VariableStart␊1:3-1:4 Ident("x")␊1:4-1:7 VariableEnd␊1:7-1:8 TemplateData("y")␊
tokens, --trim-blocks, - < {% set a = 1 %}␍␊x => 1:0-1:2 BlockStart␊1:3-1:6 Ident("set")␊1:7-1:8 Ident("a")␊1:9-1:10 Assign␊1:11-1:12 Int(1)␊1:13-1:15 BlockEnd␊2:0-2:1 TemplateData("x")␊
tokens, --line-statement, #, - < # set a = 1␍␊x => 1:0-1:1 BlockStart␊1:2-1:5 Ident("set")␊1:6-1:7 Ident("a")␊1:8-1:9 Assign␊1:10-1:11 Int(1)␊1:11-2:0 BlockEnd␊2:0-2:1 TemplateData("x")␊
tokens, --variable, {%%, %%}, - < {%% x %%} => 1:0-1:3 VariableStart␊1:4-1:5 Ident("x")␊1:6-1:9 VariableEnd␊
tokens, --comment, {#, -}, - < {#+-}  x => 1:5-1:8 TemplateData("  x")␊
tokens, --lstrip-blocks, - < ␠␠{% x %} => 1:2-1:4 BlockStart␊1:5-1:6 Ident("x")␊1:7-1:9 BlockEnd␊
tokens, --keep-newline, - < a␊ => 1:0-2:0 TemplateData("a\n")␊
tokens, --block, --block, --, - < --block x -- => 1:0-1:7 BlockStart␊1:8-1:9 Ident("x")␊1:10-1:12 BlockEnd␊
tokens, --variable, <<, >>, --variable, [[, ]], - < <<[[ x ]] => 1:0-1:2 TemplateData("<<")␊1:2-1:4 VariableStart␊1:5-1:6 Ident("x")␊1:7-1:9 VariableEnd␊
"#;
    hold::<Commands>(rt.alloc(), rows)
}

#[test]
fn removes_lines_of_comments(rt: HostRuntime) -> Result<(), Fail> {
    let rows = r#"
tokens, --line-statement, #, --line-comment, ##, - < ## This block is␊## completely removed␊<ul>␊  # for item in [1, 2]␊    ## this is a comment that is also removed including leading whitespace␊    <li>{{ item }}␊  # endfor␊</ul> => 3:0-4:0 TemplateData("<ul>\n")␊4:2-4:3 BlockStart␊4:4-4:7 Ident("for")␊4:8-4:12 Ident("item")␊4:13-4:15 Ident("in")␊4:16-4:17 BracketOpen␊4:17-4:18 Int(1)␊4:18-4:19 Comma␊4:20-4:21 Int(2)␊4:21-4:22 BracketClose␊4:22-5:0 BlockEnd␊6:0-6:8 TemplateData("    <li>")␊6:8-6:10 VariableStart␊6:11-6:15 Ident("item")␊6:16-6:18 VariableEnd␊6:18-7:0 TemplateData("\n")␊7:2-7:3 BlockStart␊7:4-7:10 Ident("endfor")␊7:10-8:0 BlockEnd␊8:0-8:5 TemplateData("</ul>")␊
"#;
    hold::<Commands>(rt.alloc(), rows)
}

/// That many lines, and a tag after them.
fn lines_and_a_tag(alloc: Global, count: usize) -> Result<String, Fail> {
    let mut source = String::new(alloc);
    for _ in 0..count {
        source.push('\n')?;
    }
    source.push_str("{{ x }}")?;
    Ok(source)
}

#[test]
fn stops_counting_lines(rt: HostRuntime) -> Result<(), Fail> {
    let source = lines_and_a_tag(rt.alloc(), 65_600)?;
    let printed = Tokens::words(rt.alloc(), source.as_str())?;
    assert!(rt; printed.starts_with("1:0-65535:0 TemplateData(\"\\n\\n"));
    let tag =
        "\n65535:0-65535:2 VariableStart\n65535:3-65535:4 Ident(\"x\")\n65535:5-65535:7 VariableEnd\n";
    assert!(rt; printed.ends_with(tag));
    Ok(())
}

/// Where the tokens cannot be written, the refusal after them is not found.
#[test]
fn ends_at_a_failing_write_of_tokens(rt: HostRuntime) {
    let (mut out, mut err) = (Short::new(rt.alloc(), 0), Vec::new(rt.alloc()));
    let file = &mut "{{ a ?".as_bytes();
    let args = &["tokens", "-"];
    let status = run(rt.alloc(), args, file, &mut io::empty(), &mut out, &mut err);
    assert!(rt; status == 2 && err.as_slice() == b"mjc: cannot write\n".as_slice());
}
