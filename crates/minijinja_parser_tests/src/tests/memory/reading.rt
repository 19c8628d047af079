//! Calls that read a text: to tokens, to a tree and to names.
use crate::tests::parse_page;
use minijinja_lexer::lexer::Tokenizer;
use minijinja_meta::meta::{find_macro_closure, find_undeclared};
use minijinja_parser::parser::{Parser, TokenStream, parse_expr};
use minijinja_syntax::error::Error;
use minijinja_syntax::tokens::Token;
use minijinja_test_rows::memory::{Ballast, Refusable, is_refused_so, refused, refused_at_each};
use minijinja_test_rows::rows::parted;
use minijinja_test_rows::syntaxes::syntax_of;
use minijinja_tree::ast::Stmt;
use minijinja_value::value::Value;
use std::alloc::{AllocError, Global};
use std::collections::BTreeSet;
use std::test::Fail;

fn push_token(words: &mut String, token: Token<'_>) -> Result<(), AllocError> {
    write!(words, "{token}; ")
}

/// Appends the tokens that are left.
fn push_tokens<'s>(tokenizer: &mut Tokenizer<'s, '_>, words: &mut String) -> Result<(), Error<'s>> {
    for _ in 0..100 {
        match tokenizer.next_token()? {
            Some((token, _)) => push_token(words, token)?,
            None => return Ok(words.push_str("end")?),
        }
    }
    Ok(())
}

/// Texts after their options: their tokens. A refusal stands.
enum Tokenizes {}

impl Refusable for Tokenizes {
    fn attempt<'t>(
        alloc: Global,
        text: &'t str,
        ballast: &mut Ballast,
        words: &mut String,
    ) -> Result<(), Error<'t>> {
        let (options, source) = parted(text, " | ");
        let syntax = syntax_of(alloc, options)?;
        if source.len() >= 4_294_967_296 {
            return Ok(());
        }
        ballast.narrow();
        let mut tokenizer = Tokenizer::new(alloc, source, "page", false, &syntax);
        let Err(error) = push_tokens(&mut tokenizer, words) else {
            return Ok(());
        };
        ballast.give_back();
        let stands = is_refused_so(tokenizer.next_token(), error)
            && is_refused_so(tokenizer.next_token(), error);
        refused(error, stands, words)
    }
}

#[test]
fn tokens_are_refused_at_each_request(rt: HostRuntime) -> Result<(), Fail> {
    let rows = r#"
default | {{ a 'b\n' 18446744073709551616 'c\td' }} => start of variable block; identifier; string; integer; string; end of variable block; end
"#;
    refused_at_each::<Tokenizes>(rt.alloc(), rows)
}

fn push_viewed(words: &mut String, token: &Token<'_>) -> Result<(), AllocError> {
    write!(words, "{token}; ")
}

/// Appends the tokens that come.
fn push_stream<'s>(stream: &mut TokenStream<'s, '_>, words: &mut String) -> Result<(), Error<'s>> {
    for _ in 0..100 {
        match stream.current()? {
            Some((token, _)) => push_viewed(words, token)?,
            None => return Ok(words.push_str("end")?),
        }
        let _ = stream.next()?;
    }
    Ok(())
}

/// Expressions: their tokens. A refusal stands, in view and taken.
enum Streams {}

impl Refusable for Streams {
    fn attempt<'t>(
        alloc: Global,
        text: &'t str,
        ballast: &mut Ballast,
        words: &mut String,
    ) -> Result<(), Error<'t>> {
        let syntax = syntax_of(alloc, "default")?;
        if text.len() >= 4_294_967_296 {
            return Ok(());
        }
        ballast.narrow();
        let mut stream = TokenStream::new(alloc, text, "page", true, &syntax);
        let Err(error) = push_stream(&mut stream, words) else {
            return Ok(());
        };
        ballast.give_back();
        let stands = is_refused_so(stream.current(), error)
            && is_refused_so(stream.next(), error)
            && is_refused_so(stream.current(), error);
        refused(error, stands, words)
    }
}

#[test]
fn tokens_in_view_are_refused_at_each_request(rt: HostRuntime) -> Result<(), Fail> {
    let rows = r#"
'b\n' a 18446744073709551616 => string; identifier; integer; end
"#;
    refused_at_each::<Streams>(rt.alloc(), rows)
}

/// Appends how many parts a template has.
fn push_parts(words: &mut String, tree: &Stmt<'_, Value>) -> Result<(), AllocError> {
    match tree {
        Stmt::Template(template) => write!(words, "{} parts", template.node().children.len()),
        _ => words.push_str("no template"),
    }
}

/// Texts after their options: the parts of their tree. A refusal stands.
enum Parses {}

impl Refusable for Parses {
    fn attempt<'t>(
        alloc: Global,
        text: &'t str,
        ballast: &mut Ballast,
        words: &mut String,
    ) -> Result<(), Error<'t>> {
        let (options, source) = parted(text, " | ");
        let syntax = syntax_of(alloc, options)?;
        if source.len() >= 4_294_967_296 {
            return Ok(());
        }
        ballast.narrow();
        let mut parser = Parser::new(alloc, source, "page", false, &syntax);
        match parser.parse::<Value>() {
            Ok(tree) => Ok(push_parts(words, &tree)?),
            Err(error) => {
                ballast.give_back();
                let stands = is_refused_so(parser.parse::<Value>(), error)
                    && is_refused_so(parser.parse_standalone_expr::<Value>(), error);
                refused(error, stands, words)
            }
        }
    }
}

#[test]
fn templates_are_refused_at_each_request(rt: HostRuntime) -> Result<(), Fail> {
    let rows = r#"
default | {% for x in y if x %}{{ x }}{% endfor %} => 1 parts
default | {% macro f(a) %}{{ a }}{{ b }}{% endmacro %} => 1 parts
line_statement #, line_comment ## | ## This block is␊## completely removed␊<ul>␊  # for item in [1, 2]␊    ## this is a comment that is also removed including leading whitespace␊    <li>{{ item }}␊  # endfor␊</ul> => 3 parts
default | {% for x in y %}{{ x }}{% else %}n{% endfor %} => 1 parts
default | {% set x = foo %}{{ x }}{{ bar.baz }} => 3 parts
"#;
    refused_at_each::<Parses>(rt.alloc(), rows)
}

/// Expressions: what they are. A refusal stands.
enum ParsesExpression {}

impl Refusable for ParsesExpression {
    fn attempt<'t>(
        alloc: Global,
        text: &'t str,
        ballast: &mut Ballast,
        words: &mut String,
    ) -> Result<(), Error<'t>> {
        let syntax = syntax_of(alloc, "default")?;
        if text.len() >= 4_294_967_296 {
            return Ok(());
        }
        ballast.narrow();
        let mut parser = Parser::new(alloc, text, "page", true, &syntax);
        match parser.parse_standalone_expr::<Value>() {
            Ok(expr) => Ok(words.push_str(expr.description())?),
            Err(error) => {
                ballast.give_back();
                let stands = is_refused_so(parser.parse_standalone_expr::<Value>(), error)
                    && is_refused_so(parser.parse::<Value>(), error);
                refused(error, stands, words)
            }
        }
    }
}

#[test]
fn expressions_are_refused_at_each_request(rt: HostRuntime) -> Result<(), Fail> {
    let rows = r#"
foo.1.0 => expression
'a\n' + [b, {'c': 18446744073709551616}] => expression
'a\n' ? => SyntaxError
['a', '\q' => BadEscape
"#;
    refused_at_each::<ParsesExpression>(rt.alloc(), rows)
}

/// Appends a value, if it is known.
fn push_constant(words: &mut String, value: Option<Value>) -> Result<(), AllocError> {
    match value {
        Some(value) => write!(words, "{value}"),
        None => words.push_str("unknown"),
    }
}

/// Expressions: their value, if it is known.
enum Constants {}

impl Refusable for Constants {
    fn attempt<'t>(
        alloc: Global,
        text: &'t str,
        ballast: &mut Ballast,
        words: &mut String,
    ) -> Result<(), Error<'t>> {
        let expr = parse_expr::<Value>(alloc, text)?;
        ballast.narrow();
        push_constant(words, expr.as_const(alloc)?)?;
        Ok(())
    }
}

#[test]
fn constants_are_refused_at_each_request(rt: HostRuntime) -> Result<(), Fail> {
    let rows = r#"
'abcdefghijklmnopqrstuvwxyz' => "abcdefghijklmnopqrstuvwxyz"
[1, 'abcdefghijklmnopqrstuvwxyz', 2] => [1, "abcdefghijklmnopqrstuvwxyz", 2]
(1, 2) => (1, 2)
{'a': 1, 'b': 2} => {"a": 1, "b": 2}
'abcdefghijklmnopqr' ~ 'stuvwxyz' ~ 'abcdefghijklmnopqr' => "abcdefghijklmnopqrstuvwxyzabcdefghijklmnopqr"
"#;
    refused_at_each::<Constants>(rt.alloc(), rows)
}

/// Appends names, each after a space.
fn push_names(words: &mut String, names: &BTreeSet<String>) -> Result<(), AllocError> {
    for name in names {
        write!(words, " {name}")?;
    }
    Ok(())
}

/// Appends the names that a template needs, with the attributes that stand right after them if
/// `nested` is set.
fn push_undeclared(
    alloc: Global,
    words: &mut String,
    template: &Stmt<'_, Value>,
    nested: bool,
) -> Result<(), Error<'static>> {
    let names = find_undeclared(alloc, template, nested)?;
    Ok(push_names(words, &names)?)
}

/// Templates: the names that they need, plain and nested.
enum Undeclared {}

impl Refusable for Undeclared {
    fn attempt<'t>(
        alloc: Global,
        text: &'t str,
        ballast: &mut Ballast,
        words: &mut String,
    ) -> Result<(), Error<'t>> {
        let template = parse_page(alloc, text)?;
        ballast.narrow();
        words.push_str("plain")?;
        push_undeclared(alloc, words, &template, false)?;
        words.push_str(", nested")?;
        push_undeclared(alloc, words, &template, true)?;
        Ok(())
    }
}

#[test]
fn names_are_refused_at_each_request(rt: HostRuntime) -> Result<(), Fail> {
    let rows = r#"
{% set x = foo %}{{ x }}{{ bar.baz }} => plain bar foo, nested bar.baz foo
{% for x in loop.items if loop %}{{ loop }}{% endfor %} => plain loop, nested loop loop.items
{% with a = a %}{{ a }}{% endwith %} => plain a, nested a
{% set a.b = c %} => plain a c, nested a c
"#;
    refused_at_each::<Undeclared>(rt.alloc(), rows)
}

/// Appends the names that a statement needs if it is a macro.
fn push_closure(
    alloc: Global,
    words: &mut String,
    part: &Stmt<'_, Value>,
) -> Result<(), Error<'static>> {
    if let Stmt::Macro(declared) = part {
        for name in &find_macro_closure(alloc, declared.node())? {
            write!(words, "{name} ")?;
        }
    }
    Ok(())
}

/// Appends the names that each macro of a template needs.
fn push_closures(
    alloc: Global,
    words: &mut String,
    template: &Stmt<'_, Value>,
) -> Result<(), Error<'static>> {
    if let Stmt::Template(template) = template {
        for part in &template.node().children {
            push_closure(alloc, words, part)?;
        }
    }
    Ok(words.push_str("end")?)
}

/// Templates: the names that their macros need.
enum Closures {}

impl Refusable for Closures {
    fn attempt<'t>(
        alloc: Global,
        text: &'t str,
        ballast: &mut Ballast,
        words: &mut String,
    ) -> Result<(), Error<'t>> {
        let template = parse_page(alloc, text)?;
        ballast.narrow();
        push_closures(alloc, words, &template)?;
        Ok(())
    }
}

#[test]
fn closures_are_refused_at_each_request(rt: HostRuntime) -> Result<(), Fail> {
    let rows = "{% macro f(a) %}{{ a }}{{ b }}{% endmacro %} => b end";
    refused_at_each::<Closures>(rt.alloc(), rows)
}
