//! What the parser accepts, how deep it goes, and what it answers after a tree and after a refusal.
ghost use Rattle.std.specs.Prelude.{◌<◌, ◌^◌, length};

use super::parse_page;
use minijinja_parser::parser::{Parser, TokenStream, parse_expr};
use minijinja_syntax::error::{Error, ErrorKind};
use minijinja_syntax::syntax::SyntaxConfig;
use minijinja_syntax::tokens::Span;
use minijinja_test_rows::refusal::{Refusal, refusal_of};
use minijinja_test_rows::rows::{Subject, hold, repeated};
use minijinja_tree::ast::Stmt;
use minijinja_value::value::Value;
use minijinja_well_formed::well_formed::WellFormed;
use std::alloc::{AllocError, Global};
use std::process::Abort;
use std::test::Fail;

/// The words of a refusal: its kind.
fn kind(alloc: Global, error: Error<'_>) -> Result<String, AllocError> {
    format!(in alloc; "{:?}", error.kind())
}

/// Appends where what an output shows begins.
fn push_output(words: &mut String, part: &Stmt<'_, Value>) -> Result<(), AllocError> {
    match part {
        Stmt::EmitExpr(output) => {
            let span = output.node().expr.span();
            write!(words, ", {}:{}", span.start_line, span.start_col)
        }
        _ => Ok(()),
    }
}

/// How many parts there are, and where what outputs show begins.
fn parts(alloc: Global, children: &[Stmt<'_, Value>]) -> Result<String, AllocError> {
    let mut words = format!(in alloc; "{} parts", children.len())?;
    for part in children {
        push_output(&mut words, part)?;
    }
    Ok(words)
}

/// The parts of a template, which is well formed.
fn template_words(alloc: Global, tree: &Stmt<'_, Value>) -> Result<String, Fail> {
    if !tree.is_well_formed() {
        return Ok(String::from_str(alloc, "ill formed")?);
    }
    match tree {
        Stmt::Template(template) => Ok(parts(alloc, &template.node().children)?),
        _ => Err(Fail::from("no template")),
    }
}

/// Templates: their parts.
enum Templates {}

impl Subject for Templates {
    fn words(alloc: Global, text: &str) -> Result<String, Fail> {
        match parse_page(alloc, text) {
            Ok(tree) => template_words(alloc, &tree),
            Err(error) => Ok(kind(alloc, error)?),
        }
    }
}

/// A name stands at its own tokens.
#[test]
fn accepts_each_kind_of_statement(rt: HostRuntime) -> Result<(), Fail> {
    let rows = r#"
␀ => 0 parts
a{% set x = a.b %}{{ x }}{{ "y" }}{{ 7 }} => 5 parts, 1:21, 1:28, 1:37
{{ x }}␊{{ x }} => 3 parts, 1:3, 2:3
a{% set x = 1 %}{{ x }} => 3 parts, 1:19
"#;
    hold::<Templates>(rt.alloc(), rows)
}

fn refused(alloc: Global, text: &str) -> Result<String, Fail> {
    match parse_expr::<Value>(alloc, text) {
        Ok(_) => Ok(String::new(alloc)),
        Err(error) => Ok(kind(alloc, error)?),
    }
}

/// Expressions: why they are refused.
enum Expressions {}

impl Subject for Expressions {
    fn words(alloc: Global, text: &str) -> Result<String, Fail> {
        refused(alloc, text)
    }
}

#[test]
fn accepts_each_form_of_expression(rt: HostRuntime) -> Result<(), Fail> {
    let rows = r#"
x
true
None
'a' "b"
12_3
340282366920938463463374607431768211455
()
(x)
(x,)
(x, y,)
[]
[x, y,]
{}
{'a': x, y: z,}
x.a
x.1
x.1.0
x[y]
x[:]
x[1:2]
x[::3]
f()
f(a, *b, c=d, **e,)
f((a)=1)
x|f
x|f(1)|g
x|a . b
x is f
x is not f
x is f(1)
x is f y
x is f - y
- x ** - y
a ** b ** c
a * b / c // d % e
a ~ b
a + b - c
a == b
a < b <= c != d
a in b
a not in b
not not a
a and b or c
a if b
a if b else c if d
1 if a is defined else 2
"#;
    hold::<Expressions>(rt.alloc(), rows)
}

/// Expressions in pieces: why they are refused.
enum LongExpressions {}

impl Subject for LongExpressions {
    fn words(alloc: Global, text: &str) -> Result<String, Fail> {
        refused(alloc, repeated(alloc, text)?.as_str())
    }
}

#[test]
fn nests_up_to_300_deep(rt: HostRuntime) -> Result<(), Fail> {
    let rows = r#"
149 * ( | x | 149 * )
150 * ( | x | 150 * ) => SyntaxError
298 * x[ | x | 298 * ]
299 * x[ | x | 299 * ] => SyntaxError
298 * not␠ | x
299 * not␠ | x => SyntaxError
298 * - | x
299 * - | x => SyntaxError
x | 298 * **x
x | 299 * **x => SyntaxError
x | 298 * ␠if␠x␠else␠x
x | 299 * ␠if␠x␠else␠x => SyntaxError
x | 400 * ␠if␠x
x | 400 * +x
"#;
    hold::<LongExpressions>(rt.alloc(), rows)
}

#[test]
fn takes_2000_arguments(rt: HostRuntime) -> Result<(), Fail> {
    let rows = r#"
f(x | 1999 * , x => SyntaxError
f(x | 1999 * , x | )
f(x | 2000 * , x | ) => SyntaxError
"#;
    hold::<LongExpressions>(rt.alloc(), rows)
}

fn of_template(parser: &mut Parser<'_, '_>) -> Option<Refusal> {
    match parser.parse::<Value>() {
        Ok(_) => None,
        Err(error) => Some(refusal_of(error)),
    }
}

fn of_expression(parser: &mut Parser<'_, '_>) -> Option<Refusal> {
    match parser.parse_standalone_expr::<Value>() {
        Ok(_) => None,
        Err(error) => Some(refusal_of(error)),
    }
}

/// The refusal of a template that both calls answer again.
fn standing_refusal(alloc: Global, source: &str) -> Option<Refusal>
    requires { length source.now < 2 ^ 32 }
{
    let syntax = SyntaxConfig::default();
    let mut parser = Parser::new(alloc, source, "page", false, &syntax);
    let first = of_template(&mut parser);
    if of_template(&mut parser) == first && of_expression(&mut parser) == first {
        first
    } else {
        None
    }
}

/// Templates: the kind of the refusal that stands.
enum Standing {}

impl Subject for Standing {
    fn words(alloc: Global, text: &str) -> Result<String, Fail> {
        if text.len() < 4_294_967_296
            && let Some(refusal) = standing_refusal(alloc, text)
        {
            return Ok(format!(in alloc; "{:?}", refusal.kind)?);
        }
        Ok(String::new(alloc))
    }
}

#[test]
fn a_refusal_stands(rt: HostRuntime) -> Result<(), Fail> {
    let rows = r#"
{% if a %} => SyntaxError
a {% set loop = a %} b => SyntaxError
{% ? => SyntaxError
{% '\q' %} => BadEscape
"#;
    hold::<Standing>(rt.alloc(), rows)
}

fn children_of(tree: &Stmt<'_, Value>) -> Option<usize> {
    match tree {
        Stmt::Template(template) => Some(template.node().children.len()),
        _ => None,
    }
}

/// How many parts the template has that is parsed next.
fn next_children(parser: &mut Parser<'_, '_>) -> Option<usize> {
    match parser.parse::<Value>() {
        Ok(tree) => children_of(&tree),
        Err(_) => None,
    }
}

fn assert_ends(rt: &impl Abort, parser: &mut Parser<'_, '_>) {
    assert!(rt; parser.filename() == "name");
    assert!(rt; next_children(parser) == Some(1));
    assert!(rt; next_children(parser) == Some(0));
    let refusal = of_expression(parser).map(|refusal| refusal.kind);
    assert!(rt; refusal == Some(ErrorKind::SyntaxError));
}

#[test]
fn after_a_tree_stands_the_empty_template(rt: HostRuntime) {
    let syntax = SyntaxConfig::default();
    let mut parser = Parser::new(rt.alloc(), "page", "name", false, &syntax);
    assert_ends(&rt, &mut parser);
}

/// Appends the token in view, if there is one, its place and that of the one before it, and takes
/// the token.
fn push_view(words: &mut String, stream: &mut TokenStream<'_, '_>) -> Result<(), Fail> {
    match stream.current() {
        Ok(Some((token, _))) => write!(words, "{token}")?,
        Ok(None) => words.push_str("end")?,
        Err(_) => words.push_str("refused")?,
    }
    let (span, last) = (stream.current_span(), stream.last_span());
    write!(words, "{span:?}, after{last:?}, ")?;
    let _ = stream.next();
    Ok(())
}

/// Two tokens and the end in view. Last comes the span from the start of the first token to the end
/// of the last.
fn tokens_in_view(alloc: Global, stream: &mut TokenStream<'_, '_>) -> Result<String, Fail> {
    let mut words = String::new(alloc);
    let first = stream.current_span();
    for _ in 0..3 {
        push_view(&mut words, stream)?;
    }
    write!(words, "all{:?}", stream.expand_span(first))?;
    Ok(words)
}

/// Templates of two tokens: each token in view.
enum Views {}

impl Subject for Views {
    fn words(alloc: Global, text: &str) -> Result<String, Fail> {
        if text.len() >= 4_294_967_296 {
            return Ok(String::new(alloc));
        }
        let syntax = SyntaxConfig::default();
        let mut stream = TokenStream::new(alloc, text, "page", false, &syntax);
        tokens_in_view(alloc, &mut stream)
    }
}

/// At the end stands the last token.
#[test]
fn the_next_token_is_in_view(rt: HostRuntime) -> Result<(), Fail> {
    let rows = "a␊{{ => template-data @ 1:0-2:0, after @ 0:0-0:0, \
        start of variable block @ 2:0-2:2, after @ 1:0-2:0, \
        end @ 2:0-2:2, after @ 2:0-2:2, all @ 1:0-2:2";
    hold::<Views>(rt.alloc(), rows)
}
