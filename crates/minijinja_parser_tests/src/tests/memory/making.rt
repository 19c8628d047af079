//! Calls that make values, nodes and syntaxes.
use minijinja_parser::parser::parse_expr;
use minijinja_syntax::error::Error;
use minijinja_syntax::syntax::{StartMarkerMatcher, SyntaxConfig};
use minijinja_syntax::tokens::Span;
use minijinja_test_rows::memory::{Ballast, Refusable, refused, refused_at_each};
use minijinja_test_rows::rows::parted;
use minijinja_test_rows::syntaxes::{set, syntax_of};
use minijinja_test_rows::words::push_word;
use minijinja_tree::ast::{Spanned, Var};
use minijinja_value::value::{TemplateValue, Value, ValueMap};
use std::alloc::{AllocError, Global};
use std::test::Fail;

/// Appends what a syntax has.
fn push_syntax(words: &mut String, syntax: &SyntaxConfig) -> Result<(), AllocError> {
    push_word(words, syntax.block_delimiters().0)?;
    push_word(words, syntax.block_delimiters().1)?;
    push_word(words, syntax.variable_delimiters().0)?;
    push_word(words, syntax.variable_delimiters().1)?;
    push_word(words, syntax.comment_delimiters().0)?;
    push_word(words, syntax.comment_delimiters().1)?;
    push_word(words, syntax.line_statement_prefix().unwrap_or("none"))?;
    words.push_str(syntax.line_comment_prefix().unwrap_or("none"))
}

/// Options one after another: the syntax with all of them. A refusal leaves the builder with those
/// before it.
enum Builds {}

impl Refusable for Builds {
    fn attempt<'t>(
        alloc: Global,
        text: &'t str,
        ballast: &mut Ballast,
        words: &mut String,
    ) -> Result<(), Error<'t>> {
        let (option, before) = parted(text, " | ");
        let mut builder = SyntaxConfig::builder();
        ballast.narrow();
        if let Err(error) = set(alloc, &mut builder, option) {
            ballast.give_back();
            push_syntax(words, &builder.build(alloc)?)?;
            let stands = words.as_str() == before;
            return refused(error, stands, words);
        }
        match builder.build(alloc) {
            Ok(syntax) => Ok(push_syntax(words, &syntax)?),
            Err(error) => {
                ballast.give_back();
                push_syntax(words, &builder.build(alloc)?)?;
                Err(error)
            }
        }
    }
}

#[test]
fn builders_are_refused_at_each_request(rt: HostRuntime) -> Result<(), Fail> {
    let rows = r#"
block abcdefghijklmnopqrstuvwxyzab cdefghijklmnopqrstuvwxyzabcd | {% %} {{ }} {# #} none none => abcdefghijklmnopqrstuvwxyzab cdefghijklmnopqrstuvwxyzabcd {{ }} {# #} none none
variable abcdefghijklmnopqrstuvwxyzab cdefghijklmnopqrstuvwxyzabcd | {% %} {{ }} {# #} none none => {% %} abcdefghijklmnopqrstuvwxyzab cdefghijklmnopqrstuvwxyzabcd {# #} none none
comment abcdefghijklmnopqrstuvwxyzab cdefghijklmnopqrstuvwxyzabcd | {% %} {{ }} {# #} none none => {% %} {{ }} abcdefghijklmnopqrstuvwxyzab cdefghijklmnopqrstuvwxyzabcd none none
line_statement abcdefghijklmnopqrstuvwxyzab | {% %} {{ }} {# #} none none => {% %} {{ }} {# #} abcdefghijklmnopqrstuvwxyzab none
line_comment abcdefghijklmnopqrstuvwxyzab | {% %} {{ }} {# #} none none => {% %} {{ }} {# #} none abcdefghijklmnopqrstuvwxyzab
"#;
    refused_at_each::<Builds>(rt.alloc(), rows)
}

/// A copy of a syntax, by way of a builder.
fn rebuilt(alloc: Global, syntax: &SyntaxConfig) -> Result<SyntaxConfig, Error<'static>> {
    syntax.to_builder(alloc)?.build(alloc)
}

/// A copy of a copy of a syntax.
fn copied(alloc: Global, syntax: &SyntaxConfig) -> Result<SyntaxConfig, Error<'static>> {
    Ok(rebuilt(alloc, syntax)?.try_clone()?)
}

/// Whether a matcher finds a marker of the syntax.
fn finds_marker(alloc: Global, syntax: &SyntaxConfig) -> Result<bool, Error<'static>> {
    let matcher = StartMarkerMatcher::new(alloc, syntax)?;
    Ok(matcher.find("ab#c", 1).is_some())
}

fn push_is_found(words: &mut String, is_found: bool) -> Result<(), AllocError> {
    write!(words, ", {is_found}")
}

/// Syntaxes: copies of them, and whether a copy finds a marker in a text.
enum Copies {}

impl Refusable for Copies {
    fn attempt<'t>(
        alloc: Global,
        text: &'t str,
        ballast: &mut Ballast,
        words: &mut String,
    ) -> Result<(), Error<'t>> {
        let syntax = syntax_of(alloc, text)?;
        ballast.narrow();
        let copy = copied(alloc, &syntax)?;
        push_syntax(words, &copy)?;
        push_is_found(words, finds_marker(alloc, &copy)?)?;
        Ok(())
    }
}

#[test]
fn copies_of_a_syntax_are_refused_at_each_request(rt: HostRuntime) -> Result<(), Fail> {
    let rows = r#"
comment # abcdefghijklmnopqrstuvwxyzab => {% %} {{ }} # abcdefghijklmnopqrstuvwxyzab none none, true
"#;
    refused_at_each::<Copies>(rt.alloc(), rows)
}

/// A value that some expressions have.
fn value_of(alloc: Global, text: &str) -> Result<Value, Error<'_>> {
    let value = parse_expr::<Value>(alloc, text)?.as_const(alloc)?;
    Ok(value.unwrap_or(Value::Undefined))
}

/// Two values as items.
fn both(alloc: Global, left: Value, right: Value) -> Result<Vec<Value>, AllocError> {
    let mut items = Vec::new(alloc);
    items.push(left)?;
    items.push(right)?;
    Ok(items)
}

/// Two values as a key with its value.
fn pair(alloc: Global, key: Value, value: Value) -> Result<Vec<(Value, Value)>, AllocError> {
    let mut pairs = Vec::new(alloc);
    pairs.push((key, value))?;
    Ok(pairs)
}

/// The result of a call that makes a value, for two values.
fn made(alloc: Global, call: &str, left: Value, right: Value) -> Result<Value, AllocError> {
    match call {
        "text" => Value::of_str(alloc, "abcdefghijklmnopqrstuvwxyz"),
        "copy" => left.try_clone(),
        "join" => left.concat(alloc, &right),
        "list" => Value::list(alloc, both(alloc, left, right)?),
        "tuple" => Value::tuple(alloc, both(alloc, left, right)?),
        "map" => Value::map(alloc, pair(alloc, left, right)?),
        "kwargs" => Value::kwargs(alloc, pair(alloc, left, right)?),
        _ => Value::of_u128(alloc, 1 << 100),
    }
}

fn push_value(words: &mut String, value: Value) -> Result<(), AllocError> {
    write!(words, "{value}")
}

/// Two values and a call: what it makes of them.
enum Makes {}

impl Refusable for Makes {
    fn attempt<'t>(
        alloc: Global,
        text: &'t str,
        ballast: &mut Ballast,
        words: &mut String,
    ) -> Result<(), Error<'t>> {
        let (call, operands) = parted(text, " | ");
        let (left, right) = parted(operands, " | ");
        let (left, right) = (value_of(alloc, left)?, value_of(alloc, right)?);
        ballast.narrow();
        push_value(words, made(alloc, call, left, right)?)?;
        Ok(())
    }
}

#[test]
fn values_are_refused_at_each_request(rt: HostRuntime) -> Result<(), Fail> {
    let rows = r#"
text | 1 | 2 => "abcdefghijklmnopqrstuvwxyz"
copy | ['a', 'abcdefghijklmnopqrstuvwxyz', 1] | 2 => ["a", "abcdefghijklmnopqrstuvwxyz", 1]
copy | {'a': 1} | 2 => {"a": 1}
join | 'abcdefghijklmnopqrstuvwxyz' | (1,) => "abcdefghijklmnopqrstuvwxyz(1,)"
list | 1 | 'a' => [1, "a"]
tuple | 1 | 'a' => (1, "a")
map | 'a' | 1 => {"a": 1}
kwargs | 'a' | 1 => kwargs{"a": 1}
"#;
    refused_at_each::<Makes>(rt.alloc(), rows)
}

/// A map of the given number of integers, each with itself.
fn are_squares(map: &ValueMap, count: u64) -> bool {
    for key in 0..count {
        if map.get(&Value::of_u64(key)) != Some(&Value::of_u64(key)) {
            return false;
        }
    }
    map.len() as u64 == count
}

/// A map that grows. A refusal leaves it as it was.
enum Inserts {}

impl Refusable for Inserts {
    fn attempt<'t>(
        alloc: Global,
        _text: &'t str,
        ballast: &mut Ballast,
        words: &mut String,
    ) -> Result<(), Error<'t>> {
        let mut map = ValueMap::new(alloc);
        ballast.narrow();
        for key in 0..20 {
            if let Err(error) = map.insert(Value::of_u64(key), Value::of_u64(key)) {
                ballast.give_back();
                return refused(Error::from(error), are_squares(&map, key), words);
            }
        }
        write!(words, "{}", are_squares(&map, 20))?;
        Ok(())
    }
}

#[test]
fn maps_are_refused_at_each_request(rt: HostRuntime) -> Result<(), Fail> {
    refused_at_each::<Inserts>(rt.alloc(), "a map => true")
}

/// A node.
enum Nodes {}

impl Refusable for Nodes {
    fn attempt<'t>(
        alloc: Global,
        text: &'t str,
        ballast: &mut Ballast,
        words: &mut String,
    ) -> Result<(), Error<'t>> {
        ballast.narrow();
        let node = Spanned::new(alloc, Var { id: text }, Span::default())?;
        words.push_str(node.node().id)?;
        Ok(())
    }
}

#[test]
fn nodes_are_refused_at_each_request(rt: HostRuntime) -> Result<(), Fail> {
    refused_at_each::<Nodes>(rt.alloc(), "x => x")
}
