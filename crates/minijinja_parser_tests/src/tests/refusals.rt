//! Texts that are wrong, and the words that say why: what was found, what was wanted, and which
//! statement is open.
use super::parse_page;
use minijinja_parser::parser::{parse, parse_expr};
use minijinja_syntax::error::Error;
use minijinja_test_rows::rows::{Subject, hold, parted};
use minijinja_test_rows::syntaxes::syntax_of;
use minijinja_value::value::Value;
use std::alloc::{AllocError, Global};
use std::process::Abort;
use std::test::Fail;

/// What is wrong, and the line and the column.
fn words_of(alloc: Global, error: Error<'_>) -> Result<String, AllocError> {
    let (line, column) = (error.line().unwrap_or(0), error.column().unwrap_or(0));
    format!(in alloc; "{}, {line}:{column}", error.detail())
}

/// Templates: why they are refused.
enum Templates {}

impl Subject for Templates {
    fn words(alloc: Global, text: &str) -> Result<String, Fail> {
        match parse_page(alloc, text) {
            Ok(_) => Ok(String::new(alloc)),
            Err(error) => Ok(words_of(alloc, error)?),
        }
    }
}

#[test]
fn what_was_found_is_named_in_expressions(rt: HostRuntime) -> Result<(), Fail> {
    let rows = r#"
{{ }} => unexpected end of variable block, expected expression, 1:3
{{ a => unexpected end of input, expected end of variable block, 1:3
{{ a b }} => unexpected `b`, expected end of variable block, 1:5
{{ a "b" }} => unexpected string, expected end of variable block, 1:5
{{ a -%} => unexpected `%`, expected expression, 1:6
{{ = }} => unexpected `=`, expected expression, 1:3
{{ (a }} => unexpected `}`, expected `)`, 1:6
{{ [a b] }} => unexpected `b`, expected `]`, 1:6
{{ {a} }} => unexpected `}`, expected `:`, 1:5
{{ {a: 1 b} }} => unexpected `b`, expected `}`, 1:9
{{ f(a b) }} => unexpected `b`, expected `)`, 1:7
{{ f(a.b=1) }} => unexpected `=`, expected `)`, 1:8
{{ f(a=1, b) }} => non-keyword arg after keyword arg, 1:10
{{ a. }} => unexpected end of variable block, expected identifier, 1:6
{{ a.) }} => unexpected `)`, expected identifier, 1:5
{{ a["b" }} => unexpected `}`, expected `]`, 1:9
{{ a| }} => unexpected end of variable block, expected identifier, 1:6
{{ a is 'b' }} => unexpected string, expected identifier, 1:8
{{ a not b }} => unexpected `b`, expected `in`, 1:9
{{ a if }} => unexpected end of variable block, expected expression, 1:8
{{ 1 ** }} => unexpected end of variable block, expected expression, 1:8
{{ a␊ // 12 34 }} => unexpected `34`, expected end of variable block, 2:7
"#;
    hold::<Templates>(rt.alloc(), rows)
}

#[test]
fn what_was_found_is_named_in_statements(rt: HostRuntime) -> Result<(), Fail> {
    let rows = r#"
{% %} => unexpected end of block, expected block keyword, 1:3
{% 5 %} => unexpected `5`, expected block keyword, 1:3
{% "if" %} => unexpected string, expected block keyword, 1:3
{% foo %} => unknown statement foo, 1:3
{% for x y %} => unexpected `y`, expected `in`, 1:9
{% for x, 1 in y %} => unexpected `1`, expected identifier, 1:10
{% for loop in y %} => cannot assign to reserved name loop, 1:7
{% if %} => unexpected end of block, expected expression, 1:6
{% if a => unexpected end of input, expected end of block, 1:6
{% if a }} => unexpected `}`, expected end of block, 1:8
{% if a %}{% elif %} => unexpected end of block, expected expression, 1:18
{% set 1 = 2 %} => unexpected `1`, expected identifier, 1:7
{% set x 1 %} => unexpected `1`, expected `=`, 1:9
{% with a = 1, %} => unexpected end of block, expected identifier, 1:15
{% with a -%} => unexpected end of block, expected `=`, 1:10
{% autoescape %} => unexpected end of block, expected expression, 1:14
{% filter %} => unexpected end of block, expected identifier, 1:10
{% block %} => unexpected end of block, expected identifier, 1:9
{% macro f %} => unexpected end of block, expected `(`, 1:11
{% macro f(a=1, b) %} => unexpected `)`, expected `=`, 1:17
{% call f %} => expected call expression, 1:8
{% do f %} => expected call expression, 1:6
{% break %} => 'break' must be placed inside a loop, 1:3
{% for x in y %}{% else %}{% continue %} => 'continue' must be placed inside a loop, 1:29
{% extends %} => unexpected end of block, expected expression, 1:11
{% include "a" ignore %} => unexpected end of block, expected `missing`, 1:22
{% import "a" %} => unexpected end of block, expected `as`, 1:14
{% import "a" as f() %} => cannot assign to this expression, 1:19
{% from "a" %} => unexpected end of block, expected `import`, 1:12
{% from "a" import b with %} => unexpected end of block, expected `context`, 1:26
"#;
    hold::<Templates>(rt.alloc(), rows)
}

/// Refusals that have words of their own.
#[test]
fn blocks_and_imports_are_refused_for_what_they_are(rt: HostRuntime) -> Result<(), Fail> {
    let rows = r#"
{% block a %}{% endblock %}{% block a %} => block a is defined twice, 1:36
{% macro f() %}{% block a %} => a block cannot stand in a macro, 1:18
{% call f() %}{% block a %} => a block cannot stand in a macro, 1:17
{% block a required %}x{% endblock %} => a required block has to be blank, 1:22
{% block a required %}{{ x }}{% endblock %} => a required block has to be blank, 1:22
{% block a %}{% endblock b %} => endblock names another block, b, 1:25
{% from "a" import _x %} => cannot import private name _x, 1:19
"#;
    hold::<Templates>(rt.alloc(), rows)
}

/// Bodies that do not end, or end by another word.
#[test]
fn the_open_statement_and_its_line_are_named(rt: HostRuntime) -> Result<(), Fail> {
    let rows = r#"
{% endif %} => unexpected endif, no statement is open, 1:3
a␊{% else %} => unexpected else, no statement is open, 2:3
{% if a %}{% endif %}{% endfor %} => unexpected endfor, no statement is open, 1:24
{% endraw %} => unexpected endraw, no statement is open, 1:3
{% if a %}x => unexpected end of input, expected endif for the if of line 1, 1:10
{% if a %}{% => unexpected end of input, expected endif for the if of line 1, 1:10
{% if a %}{% else %} => unexpected end of input, expected endif for the if of line 1, 1:18
␊␊{% if a %}{% endfor %} => expected endif for the if of line 3, found endfor, 3:13
{% if a %}{% else %}␊{% elif b %} => expected endif for the if of line 1, found elif, 2:3
{% if a %}{% foo %} => unknown statement foo, 1:13
{% if a %}{% 5 %} => unexpected `5`, expected block keyword, 1:13
{% for x in y %}␊{% endif %} => expected endfor for the for of line 1, found endif, 2:3
{% for x in y %}␊{% if x %}{% endfor %} => expected endif for the if of line 2, found endfor, 2:13
{% for x in y %}␊{% if x %}{% endif %} => unexpected end of input, expected endfor for the for of line 1, 2:19
{% for x in y %}{% else %}{% else %} => expected endfor for the for of line 1, found else, 1:29
{% set x %}{% endwith %} => expected endset for the set of line 1, found endwith, 1:14
{% with a = 1 %}{% elif %} => expected endwith for the with of line 1, found elif, 1:19
{% autoescape a %}{% endraw %} => expected endautoescape for the autoescape of line 1, found endraw, 1:21
{% filter f %}{% endset %} => expected endfilter for the filter of line 1, found endset, 1:17
{% block a %}{% endmacro %} => expected endblock for the block of line 1, found endmacro, 1:16
{% block a required %} {% if b %} => expected endblock for the block of line 1, found if, 1:26
{% macro f() %} => unexpected end of input, expected endmacro for the macro of line 1, 1:13
{% macro f() %}{% endcall %} => expected endmacro for the macro of line 1, found endcall, 1:18
{% call f() %}{% endmacro %} => expected endcall for the call of line 1, found endmacro, 1:17
"#;
    hold::<Templates>(rt.alloc(), rows)
}

/// Texts after their options: why they are refused.
enum TemplatesIn {}

impl Subject for TemplatesIn {
    fn words(alloc: Global, text: &str) -> Result<String, Fail> {
        let (options, source) = parted(text, " | ");
        let syntax = syntax_of(alloc, options)?;
        match parse::<Value>(alloc, source, "page", &syntax) {
            Ok(_) => Ok(String::new(alloc)),
            Err(error) => Ok(words_of(alloc, error)?),
        }
    }
}

/// Tags that end by what is no delimiter of the default syntax.
#[test]
fn the_end_of_a_tag_is_named_in_each_syntax(rt: HostRuntime) -> Result<(), Fail> {
    let rows = r#"
line_statement # | # for x y => unexpected `y`, expected `in`, 1:8
line_statement # | # for x␊ => unexpected end of block, expected `in`, 1:7
line_statement # | # for x => unexpected end of block, expected `in`, 1:7
line_statement # | # if a␊# endfor => expected endif for the if of line 1, found endfor, 2:2
variable «- -», block <- -> | «- a -» <- with x -> => unexpected end of block, expected `=`, 1:18
"#;
    hold::<TemplatesIn>(rt.alloc(), rows)
}

/// Expressions: why they are refused.
enum Expressions {}

impl Subject for Expressions {
    fn words(alloc: Global, text: &str) -> Result<String, Fail> {
        match parse_expr::<Value>(alloc, text) {
            Ok(_) => Ok(String::new(alloc)),
            Err(error) => Ok(words_of(alloc, error)?),
        }
    }
}

#[test]
fn what_follows_an_expression_is_named(rt: HostRuntime) -> Result<(), Fail> {
    let rows = r#"
a b => unexpected `b`, expected end of input, 1:2
a 'b' => unexpected string, expected end of input, 1:2
a, b => unexpected `,`, expected end of input, 1:1
a + => unexpected end of input, expected expression, 1:2
'\é' => invalid string escape, 1:0
"#;
    hold::<Expressions>(rt.alloc(), rows)
}
