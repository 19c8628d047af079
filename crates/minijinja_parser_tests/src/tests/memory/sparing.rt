//! Calls that take no memory: they answer with none left.
use crate::tests::parse_page;
use minijinja_lexer::lexer::Tokenizer;
use minijinja_parser::parser::{Parser, TokenStream, parse_expr};
use minijinja_syntax::error::{Detail, Error, ErrorKind};
use minijinja_syntax::syntax::{StartMarkerMatcher, SyntaxConfig, SyntaxConfigBuilder};
use minijinja_syntax::tokens::{Span, Token};
use minijinja_test_rows::memory::{Ballast, Refusable, answered_without};
use minijinja_test_rows::syntaxes::syntax_of;
use minijinja_test_rows::words::{push_debug, push_word};
use minijinja_tree::ast::{CallType, Expr, Stmt};
use minijinja_value::value::{TemplateValue, Value, ValueMap};
use minijinja_well_formed::well_formed::WellFormed;
use std::alloc::{AllocError, Global};
use std::test::Fail;

/// Appends a token and where it stands.
fn push_place(words: &mut String, token: Token<'_>, span: Span) -> Result<(), AllocError> {
    write!(words, "{token}{span:?}; ")
}

/// Appends the tokens that are left, each with its place.
fn push_places<'s>(tokenizer: &mut Tokenizer<'s, '_>, words: &mut String) -> Result<(), Error<'s>> {
    for _ in 0..100 {
        match tokenizer.next_token()? {
            Some((token, span)) => push_place(words, token, span)?,
            None => return Ok(words.push_str("end")?),
        }
    }
    Ok(())
}

/// Appends the name and the length of a source.
fn push_source(words: &mut String, tokenizer: &Tokenizer<'_, '_>) -> Result<(), AllocError> {
    let length = tokenizer.source().len();
    write!(words, "{} {length}: ", tokenizer.filename())
}

/// Templates without escapes and large integers: their tokens, from a tokenizer.
enum Tokens {}

impl Refusable for Tokens {
    fn attempt<'t>(
        alloc: Global,
        text: &'t str,
        ballast: &mut Ballast,
        words: &mut String,
    ) -> Result<(), Error<'t>> {
        if text.len() >= 4_294_967_296 {
            return Ok(());
        }
        ballast.narrow();
        let syntax = SyntaxConfig::default();
        let mut tokenizer = Tokenizer::new(alloc, text, "page", false, &syntax);
        push_source(words, &tokenizer)?;
        push_places(&mut tokenizer, words)
    }
}

#[test]
fn tokens_need_no_memory(rt: HostRuntime) -> Result<(), Fail> {
    let rows = r#"
Hello {{ name }}! => page 17: template-data @ 1:0-1:6; start of variable block @ 1:6-1:8; identifier @ 1:9-1:13; end of variable block @ 1:14-1:16; template-data @ 1:16-1:17; end
{{ 'a' 18446744073709551615 -}} => page 31: start of variable block @ 1:0-1:2; string @ 1:3-1:6; integer @ 1:7-1:27; end of variable block @ 1:28-1:31; end
{{ 'a => page 5: start of variable block @ 1:0-1:2; SyntaxError
{{ '\q' => page 7: start of variable block @ 1:0-1:2; BadEscape
"#;
    answered_without::<Tokens>(rt.alloc(), rows)
}

/// Appends whether a token is in view, and takes it.
fn push_view<'s>(words: &mut String, stream: &mut TokenStream<'s, '_>) -> Result<(), Error<'s>> {
    let is_token = stream.current()?.is_some();
    push_word(words, is_token)?;
    drop(stream.next()?);
    Ok(())
}

/// Appends the place of the token taken last, and that of all since another.
fn push_spans(
    words: &mut String,
    stream: &TokenStream<'_, '_>,
    first: Span,
) -> Result<(), AllocError> {
    let (last, all) = (stream.last_span(), stream.expand_span(first));
    write!(words, "{last:?}{all:?}")
}

/// Templates of two tokens: what a stream has in view.
enum Views {}

impl Refusable for Views {
    fn attempt<'t>(
        alloc: Global,
        text: &'t str,
        ballast: &mut Ballast,
        words: &mut String,
    ) -> Result<(), Error<'t>> {
        if text.len() >= 4_294_967_296 {
            return Ok(());
        }
        ballast.narrow();
        let syntax = SyntaxConfig::default();
        let parser = Parser::new(alloc, text, "page", false, &syntax);
        let mut stream = TokenStream::new(alloc, text, "page", false, &syntax);
        let first = stream.current_span();
        push_word(words, parser.filename())?;
        push_word(words, stream.source())?;
        drop(stream.next()?);
        push_view(words, &mut stream)?;
        push_view(words, &mut stream)?;
        push_spans(words, &stream, first)?;
        Ok(())
    }
}

#[test]
fn tokens_in_view_need_no_memory(rt: HostRuntime) -> Result<(), Fail> {
    let rows = "a{{ => page a{{ true false  @ 1:1-1:3 @ 1:0-1:3";
    answered_without::<Views>(rt.alloc(), rows)
}

/// Appends what a syntax has.
fn push_syntax(words: &mut String, syntax: &SyntaxConfig) -> Result<(), AllocError> {
    push_word(words, syntax.block_delimiters().0)?;
    push_word(words, syntax.variable_delimiters().1)?;
    push_word(words, syntax.comment_delimiters().0)?;
    push_word(words, syntax.line_statement_prefix().unwrap_or("none"))?;
    push_word(words, syntax.line_comment_prefix().unwrap_or("none"))?;
    push_word(words, syntax.trim_blocks())?;
    push_word(words, syntax.lstrip_blocks())?;
    push_word(words, syntax.keep_trailing_newline())
}

/// Appends whether a syntax and its matcher find a marker.
fn push_found(
    words: &mut String,
    syntax: &SyntaxConfig,
    matcher: &StartMarkerMatcher,
) -> Result<(), AllocError> {
    let (found, same) = (syntax.find_marker("ab#c", 1), matcher.find("ab#c", 1));
    write!(words, "{} {}", found.is_some(), same.is_some())
}

/// Appends what the default syntax has.
fn push_default(words: &mut String) -> Result<(), AllocError> {
    push_syntax(words, &SyntaxConfig::default())
}

/// Appends what a syntax and the default one have, and whether the first and its matcher find a
/// marker.
fn push_both(
    words: &mut String,
    syntax: &SyntaxConfig,
    matcher: &StartMarkerMatcher,
) -> Result<(), AllocError> {
    push_syntax(words, syntax)?;
    push_default(words)?;
    push_found(words, syntax, matcher)
}

/// Appends what the syntax of a builder has.
fn push_built(
    alloc: Global,
    words: &mut String,
    builder: &SyntaxConfigBuilder,
) -> Result<(), Error<'static>> {
    let syntax = builder.build(alloc)?;
    Ok(push_syntax(words, &syntax)?)
}

/// A builder that has set each flag.
fn flagged() -> SyntaxConfigBuilder {
    let mut builder = SyntaxConfig::builder();
    builder.trim_blocks(true);
    builder.lstrip_blocks(true);
    builder.keep_trailing_newline(true);
    builder
}

/// Appends what the syntax of a builder has that has set each flag. To build it takes memory.
fn push_flagged(
    alloc: Global,
    words: &mut String,
    ballast: &mut Ballast,
) -> Result<(), Error<'static>> {
    let builder = flagged();
    ballast.give_back();
    push_built(alloc, words, &builder)
}

/// Appends what a syntax, the default one and that of a builder have, and whether the first and its
/// matcher find a marker. To make the matcher takes memory.
fn push_syntaxes(
    alloc: Global,
    words: &mut String,
    ballast: &mut Ballast,
    syntax: &SyntaxConfig,
) -> Result<(), Error<'static>> {
    let matcher = StartMarkerMatcher::new(alloc, syntax)?;
    ballast.narrow();
    push_both(words, syntax, &matcher)?;
    push_flagged(alloc, words, ballast)
}

/// Syntaxes: what they have, and where they find a marker. Each function above owns one of them:
/// the proof of one that owns them all takes minutes.
enum Syntaxes {}

impl Refusable for Syntaxes {
    fn attempt<'t>(
        alloc: Global,
        text: &'t str,
        ballast: &mut Ballast,
        words: &mut String,
    ) -> Result<(), Error<'t>> {
        let syntax = syntax_of(alloc, text)?;
        push_syntaxes(alloc, words, ballast, &syntax)
    }
}

#[test]
fn what_a_syntax_has_needs_no_memory(rt: HostRuntime) -> Result<(), Fail> {
    let rows = r#"
comment # }, trim_blocks => {% }} # none none true false false {% }} {# none none false false false true true{% }} {# none none true true true 
"#;
    answered_without::<Syntaxes>(rt.alloc(), rows)
}

/// Appends what a call calls.
fn push_callee(words: &mut String, callee: CallType<'_, '_, Value>) -> Result<(), AllocError> {
    match callee {
        CallType::Function(name) => write!(words, "function {name}"),
        CallType::Method(_, name) => write!(words, "method {name}"),
        CallType::Block(name) => write!(words, "block {name}"),
        CallType::Object(_) => words.push_str("object"),
    }
}

/// Appends the callee and the place of an expression that is a call.
fn push_call(words: &mut String, expr: &Expr<'_, Value>) -> Result<(), AllocError> {
    let Expr::Call(call) = expr else {
        return Ok(());
    };
    push_callee(words, call.node().identify_call())?;
    write!(words, "{:?}", call.span())
}

fn push_formed(words: &mut String, is_formed: bool, span: Span) -> Result<(), AllocError> {
    write!(words, "{is_formed}{span:?} ")
}

/// Appends what a template and an expression are, and what the expression calls.
fn push_tree(
    words: &mut String,
    template: &Stmt<'_, Value>,
    expr: &Expr<'_, Value>,
) -> Result<(), AllocError> {
    push_word(words, expr.description())?;
    push_word(words, expr.is_well_formed())?;
    push_formed(words, template.is_well_formed(), expr.span())?;
    push_call(words, expr)
}

/// Expressions: what they are called, whether they are well formed, and what they call.
enum Trees {}

impl Refusable for Trees {
    fn attempt<'t>(
        alloc: Global,
        text: &'t str,
        ballast: &mut Ballast,
        words: &mut String,
    ) -> Result<(), Error<'t>> {
        let expr = parse_expr::<Value>(alloc, text)?;
        let template = parse_page(alloc, "{% block a %}{% endblock %}")?;
        ballast.narrow();
        Ok(push_tree(words, &template, &expr)?)
    }
}

#[test]
fn what_a_tree_is_needs_no_memory(rt: HostRuntime) -> Result<(), Fail> {
    let rows = r#"
f(a, b=c) => call true true @ 1:0-1:9 function f @ 1:0-1:9
x.f() => call true true @ 1:1-1:5 method f @ 1:1-1:5
self.b() => call true true @ 1:4-1:8 block b @ 1:4-1:8
x[1]() => call true true @ 1:1-1:6 object @ 1:1-1:6
"#;
    answered_without::<Trees>(rt.alloc(), rows)
}

/// Appends what an error has.
fn push_error(words: &mut String, error: Error<'_>) -> Result<(), AllocError> {
    push_debug(words, error.kind())?;
    push_word(words, error.detail())?;
    push_debug(words, error.span())?;
    push_debug(words, error.line())?;
    push_word(words, error.name().unwrap_or("none"))?;
    push_word(words, error)
}

/// A name: what an error with it has.
enum Errors {}

impl Refusable for Errors {
    fn attempt<'t>(
        _alloc: Global,
        text: &'t str,
        ballast: &mut Ballast,
        words: &mut String,
    ) -> Result<(), Error<'t>> {
        ballast.narrow();
        let span = Span::default();
        let error = Error::new(
            ErrorKind::SyntaxError,
            Detail::TooDeep,
            Some(text),
            Some(span),
        );
        push_error(words, error)?;
        write!(words, "{:?}", Error::from(AllocError).kind())?;
        Ok(())
    }
}

#[test]
fn errors_need_no_memory(rt: HostRuntime) -> Result<(), Fail> {
    let rows =
        "a => SyntaxError template exceeds maximum recursion limits Some( @ 0:0-0:0) Some(0) \
        a syntax error: template exceeds maximum recursion limits (in a:0:0) OutOfMemory";
    answered_without::<Errors>(rt.alloc(), rows)
}

/// Appends what a value says of itself.
fn push_answers(words: &mut String, value: &Value) -> Result<(), AllocError> {
    push_word(words, value.is_true())?;
    push_debug(words, value.as_count())?;
    push_word(words, Value::none())?;
    push_word(words, Value::silent_undefined().is_undefined())?;
    push_word(words, value.equals(value))?;
    push_debug(words, value.order(value))
}

/// Appends whether two values are equal, and whether a new map is empty.
fn push_equal(words: &mut String, alloc: Global) -> Result<(), AllocError> {
    let (seven, yes) = (Value::of_u64(7), Value::of_bool(true));
    push_word(words, yes.equals(&seven))?;
    push_word(words, ValueMap::new(alloc).is_empty())
}

/// A text: what values that need no memory say.
enum Values {}

impl Refusable for Values {
    fn attempt<'t>(
        alloc: Global,
        text: &'t str,
        ballast: &mut Ballast,
        words: &mut String,
    ) -> Result<(), Error<'t>> {
        let known = parse_expr::<Value>(alloc, text)?.as_const(alloc)?;
        let value = known.unwrap_or(Value::Undefined);
        ballast.narrow();
        push_answers(words, &value)?;
        push_equal(words, alloc)?;
        push_word(words, value)?;
        write!(words, "{}", Value::of_u64(7))?;
        Ok(())
    }
}

#[test]
fn what_a_value_is_needs_no_memory(rt: HostRuntime) -> Result<(), Fail> {
    let rows = r#"
['abcdefghijklmnopqrstuvwxyz', 2] => true None none true true Some(Equal) false true ["abcdefghijklmnopqrstuvwxyz", 2] 7
"#;
    answered_without::<Values>(rt.alloc(), rows)
}
