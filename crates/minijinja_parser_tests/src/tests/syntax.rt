//! How syntaxes are built, and which start marker a search finds.
use minijinja_syntax::error::Error;
use minijinja_syntax::syntax::{StartMarker, StartMarkerMatcher, SyntaxConfig};
use minijinja_test_rows::rows::{Subject, hold, parted};
use minijinja_test_rows::syntaxes::syntax_of;
use std::alloc::{AllocError, Global};
use std::process::Abort;
use std::test::Fail;

/// The delimiters that a syntax shows.
fn delimiters_of(alloc: Global, syntax: &SyntaxConfig) -> Result<String, AllocError> {
    let (block, block_end) = syntax.block_delimiters();
    let (variable, variable_end) = syntax.variable_delimiters();
    let (comment, comment_end) = syntax.comment_delimiters();
    format!(in alloc;
        "block {block} {block_end}, variable {variable} {variable_end}, comment {comment} {comment_end}"
    )
}

fn push_prefix(words: &mut String, name: &str, prefix: Option<&str>) -> Result<(), AllocError> {
    match prefix {
        Some(prefix) => write!(words, ", {name} {prefix}"),
        None => Ok(()),
    }
}

fn push_flag(words: &mut String, name: &str, is_set: bool) -> Result<(), AllocError> {
    if is_set {
        write!(words, ", {name}")
    } else {
        Ok(())
    }
}

/// The options that a syntax shows.
fn options_of(alloc: Global, syntax: &SyntaxConfig) -> Result<String, AllocError> {
    let mut words = delimiters_of(alloc, syntax)?;
    push_prefix(&mut words, "line_statement", syntax.line_statement_prefix())?;
    push_prefix(&mut words, "line_comment", syntax.line_comment_prefix())?;
    push_flag(&mut words, "trim_blocks", syntax.trim_blocks())?;
    push_flag(&mut words, "lstrip_blocks", syntax.lstrip_blocks())?;
    push_flag(
        &mut words,
        "keep_trailing_newline",
        syntax.keep_trailing_newline(),
    )?;
    Ok(words)
}

fn shows(alloc: Global, syntax: &SyntaxConfig, options: &str) -> Result<bool, AllocError> {
    let shown = options_of(alloc, syntax)?;
    Ok(shown.as_str() == options)
}

/// A syntax that is built from one that is there.
fn rebuilt(alloc: Global, syntax: &SyntaxConfig) -> Result<SyntaxConfig, Error<'static>> {
    syntax.to_builder(alloc)?.build(alloc)
}

/// Whether a syntax shows these options, if there is one.
fn is_shown(
    alloc: Global,
    syntax: Result<SyntaxConfig, Error<'static>>,
    options: &str,
) -> Result<bool, Error<'static>> {
    let syntax = syntax?;
    Ok(shows(alloc, &syntax, options)?)
}

/// The options of a syntax, which a copy of it and one that is built from it show too.
fn options_with_copies(alloc: Global, syntax: &SyntaxConfig) -> Result<String, Fail> {
    let options = options_of(alloc, syntax)?;
    if is_shown(alloc, syntax.try_clone(), options.as_str())?
        && is_shown(alloc, rebuilt(alloc, syntax), options.as_str())?
    {
        Ok(options)
    } else {
        Ok(String::from_str(alloc, "a copy differs")?)
    }
}

/// The kind of a refusal, which names no place.
fn refusal(alloc: Global, error: Error<'_>) -> Result<String, AllocError> {
    if error.span().is_some() || error.name().is_some() {
        return String::from_str(alloc, "it names a place");
    }
    format!(in alloc; "{:?}", error.kind())
}

/// Options: those that their syntax shows, or why there is no such syntax.
enum Built {}

impl Subject for Built {
    fn words(alloc: Global, text: &str) -> Result<String, Fail> {
        match syntax_of(alloc, text) {
            Ok(syntax) => options_with_copies(alloc, &syntax),
            Err(error) => Ok(refusal(alloc, error)?),
        }
    }
}

#[test]
fn a_syntax_is_what_its_builder_was_given(rt: HostRuntime) -> Result<(), Fail> {
    let options = options_of(rt.alloc(), &SyntaxConfig::default())?;
    assert!(rt; options.as_str() == "block {% %}, variable {{ }}, comment {# #}");
    let rows = r#"
default => block {% %}, variable {{ }}, comment {# #}
line_statement #, line_comment ## => block {% %}, variable {{ }}, comment {# #}, line_statement #, line_comment ##
block \BLOCK{ }, variable \VAR{ }, comment \#{ }, trim_blocks, keep_trailing_newline => block \BLOCK{ }, variable \VAR{ }, comment \#{ }, trim_blocks, keep_trailing_newline
variable « », line_statement %, lstrip_blocks => block {% %}, variable « », comment {# #}, line_statement %, lstrip_blocks
block {{% %}}, line_comment //, trim_blocks, lstrip_blocks => block {{% %}}, variable {{ }}, comment {# #}, line_comment //, trim_blocks, lstrip_blocks
"#;
    hold::<Built>(rt.alloc(), rows)
}

/// Options that do not go together.
#[test]
fn empty_delimiters_and_equal_starts_are_refused(rt: HostRuntime) -> Result<(), Fail> {
    let rows = r#"
block ␀ %}, variable {{ }}, comment {# #} => InvalidDelimiter
block {% ␀, variable {{ }}, comment {# #} => InvalidDelimiter
block {% %}, variable ␀ }}, comment {# #} => InvalidDelimiter
block {% %}, variable {{ ␀, comment {# #} => InvalidDelimiter
block {% %}, variable {{ }}, comment ␀ #} => InvalidDelimiter
block {% %}, variable {{ }}, comment {# ␀ => InvalidDelimiter
block x }, variable x }, comment c }, line_statement d, line_comment e => InvalidDelimiter
block b }, variable x }, comment x }, line_statement d, line_comment e => InvalidDelimiter
block b }, variable x }, comment c }, line_statement x, line_comment e => InvalidDelimiter
block b }, variable x }, comment c }, line_statement d, line_comment x => InvalidDelimiter
block x }, variable a }, comment x }, line_statement d, line_comment e => InvalidDelimiter
block x }, variable a }, comment c }, line_statement x, line_comment e => InvalidDelimiter
block x }, variable a }, comment c }, line_statement d, line_comment x => InvalidDelimiter
block b }, variable a }, comment x }, line_statement x, line_comment e => InvalidDelimiter
block b }, variable a }, comment x }, line_statement d, line_comment x => InvalidDelimiter
block b }, variable a }, comment c }, line_statement x, line_comment x => InvalidDelimiter
"#;
    hold::<Built>(rt.alloc(), rows)
}

/// What is found: how many bytes on, which marker, and how many bytes it has.
type Found = Option<(usize, StartMarker, usize)>;

fn is_same(found: Found, other: Found) -> bool {
    found == other
}

/// Whether both syntaxes and a matcher of the first find the same marker there, if that is a place
/// of the text.
fn agree(
    syntax: &SyntaxConfig,
    matcher: &StartMarkerMatcher,
    other: &SyntaxConfig,
    source: &str,
    offset: usize,
) -> bool {
    if offset > source.len() {
        return false;
    }
    let found = syntax.find_marker(source, offset);
    is_same(matcher.find(source, offset), found)
        && is_same(other.find_marker(source, offset), found)
}

/// What is found in a text from a place on, in words.
fn marker_at(
    alloc: Global,
    syntax: &SyntaxConfig,
    source: &str,
    offset: usize,
) -> Result<String, AllocError> {
    if offset <= source.len()
        && let Some((at, marker, len)) = syntax.find_marker(source, offset)
    {
        return format!(in alloc; "{marker:?} {at} {len}");
    }
    String::from_str(alloc, "none")
}

/// Whether a matcher of a syntax finds there what a search without it does.
fn has_matcher(
    alloc: Global,
    syntax: &SyntaxConfig,
    source: &str,
    offset: usize,
) -> Result<bool, Error<'static>> {
    let matcher = StartMarkerMatcher::new(alloc, syntax)?;
    Ok(agree(syntax, &matcher, syntax, source, offset))
}

/// What is found in a text, in words, by a matcher too.
fn marker_found(
    alloc: Global,
    syntax: &SyntaxConfig,
    source: &str,
    offset: usize,
) -> Result<String, Fail> {
    if has_matcher(alloc, syntax, source, offset)? {
        Ok(marker_at(alloc, syntax, source, offset)?)
    } else {
        Ok(String::from_str(alloc, "a matcher finds another")?)
    }
}

/// A text after its options and the place from which it is searched: which marker is found, how
/// many bytes on, and how many it has.
enum Markers {}

impl Subject for Markers {
    fn words(alloc: Global, text: &str) -> Result<String, Fail> {
        let (options, rest) = parted(text, " | ");
        let (offset, source) = parted(rest, " | ");
        let offset = offset.parse::<usize>()?;
        let syntax = syntax_of(alloc, options)?;
        marker_found(alloc, &syntax, source, offset)
    }
}

#[test]
fn the_leftmost_and_then_the_longest_marker_is_found(rt: HostRuntime) -> Result<(), Fail> {
    let rows = r#"
default | 0 | a {{ b => Variable 2 2
default | 1 | {{ {% {# => Block 2 2
default | 0 | { { % }} => none
block \BLOCK{ }, variable \VAR{ }, comment \#{ } | 0 | a\BLOCK{x} => Block 1 7
line_statement #, line_comment ## | 0 | a # b␊ ␉# for => LineStatement 8 1
line_statement #, line_comment ## | 0 | x ## y => LineComment 2 2
line_statement #, line_comment ## | 1 | ## y => none
line_statement #, line_comment ## | 3 | a␍ # b => LineStatement 0 1
line_statement #, line_comment ## | 0 | # {# b => LineStatement 0 1
line_statement #, line_comment ## | 0 | a # {# b => Comment 4 2
"#;
    hold::<Markers>(rt.alloc(), rows)
}

/// The first place of a text at which two searches do not agree.
fn differs_at(
    syntax: &SyntaxConfig,
    matcher: &StartMarkerMatcher,
    other: &SyntaxConfig,
    source: &str,
) -> Option<usize> {
    for offset in 0..=source.len() {
        if source.is_char_boundary(offset) && !agree(syntax, matcher, other, source, offset) {
            return Some(offset);
        }
    }
    None
}

/// The first place of a text at which a search in this syntax and one in the default syntax do not
/// agree.
fn differs_from_default(
    alloc: Global,
    other: &SyntaxConfig,
    source: &str,
) -> Result<Option<usize>, Error<'static>> {
    let default = SyntaxConfig::default();
    let matcher = StartMarkerMatcher::new(alloc, &default)?;
    Ok(differs_at(&default, &matcher, other, source))
}

/// The first place of a text at which two searches do not agree. A prefix that does not stand in it
/// changes nothing but the way in which it is searched.
fn difference(alloc: Global, source: &str) -> Result<Option<usize>, Error<'static>> {
    let general = syntax_of(alloc, "line_comment \u{1}\u{2}")?;
    differs_from_default(alloc, &general, source)
}

/// A text: where two searches of it do not agree.
enum Searches {}

impl Subject for Searches {
    fn words(alloc: Global, text: &str) -> Result<String, Fail> {
        match difference(alloc, text)? {
            Some(offset) => Ok(offset.to_string(alloc)?),
            None => Ok(String::new(alloc)),
        }
    }
}

/// Texts that the tests of this program read, and others that begin as tags do.
#[test]
fn searches_agree_at_each_place(rt: HostRuntime) -> Result<(), Fail> {
    let rows = r#"
␀
{
}
a {{ b
{{ {% {#
{ { % }}
{{{
{%{#{{
{#{#{#
{{%
{{{{{{{{%{
x{
{{
{%
{#
Hello {{ name }}!
{% set x = a.b %}{{ x }}{{ "y" }}{{ 7 }}
a {#-#} b
{% raw %}{{ a }}{% endraw %}
{% raw -%}  a {%- endraw %}b
x{# a
{{ name -}}  x
{% set a = 1 %}␍␊x
a␊  {% x %} {{ y }}␊␉{# c #}b {% z %}
## This block is␊## completely removed␊<ul>␊  # for item in [1, 2]␊    <li>{{ item }}␊</ul>
# set a = 1␍␊x
{{ {'}}': [1]} }}
«é» {{ "é" }} € {% é %}
é{é%é#é{{
{{ 18446744073709551616 'a\tb' 18446744073709551615 }}
<html>{"a": {"b": [1, 2]}}</html>
{␊{␍␊{ %} #} }}
a␊{{ b␊ c }}
"#;
    hold::<Searches>(rt.alloc(), rows)?;
    hold::<Searches>(rt.alloc(), "\u{10ffff}{\u{10ffff}{{\u{10ffff}")
}
