//! Worked templates that are cut off at each place, and one with a character too many at each
//! place.
//!
//! Such a text is accepted, or it is refused as no template or for a bad escape, and a second
//! answer is the first one.
use minijinja_compiler::compile::compile;
use minijinja_compiler::error::ErrorKind;
use minijinja_compiler::lexer::Tokenizer;
use minijinja_compiler::syntax::SyntaxConfig;
use minijinja_compiler::value::Value;
use minijinja_test_rows::refusal::{Refusal, refusal_of};
use minijinja_test_rows::rows::{Subject, hold, parted, repeated};
use minijinja_test_rows::syntaxes::syntax_of;
use std::alloc::{AllocError, Global};
use std::test::Fail;

/// Takes the tokens that are left, and returns why there are no more. None where the text ends.
fn refusal_of_rest(tokens: &mut Tokenizer<'_, '_>) -> Option<Refusal> {
    for _ in 0..10_000 {
        match tokens.next_token() {
            Ok(Some(_)) => {}
            Ok(None) => return None,
            Err(error) => return Some(refusal_of(error)),
        }
    }
    None
}

/// Why the tokens of a template are refused, and why they are when they are asked for again.
fn refusals_of_tokens(
    alloc: Global,
    syntax: &SyntaxConfig,
    source: &str,
) -> (Option<Refusal>, Option<Refusal>) {
    if source.len() >= 4_294_967_296 {
        return (None, None);
    }
    let mut tokens = Tokenizer::new(alloc, source, "page", false, syntax);
    let first = refusal_of_rest(&mut tokens);
    (first, refusal_of_rest(&mut tokens))
}

/// Why a template is refused.
fn refusal_of_code(alloc: Global, syntax: &SyntaxConfig, source: &str) -> Option<Refusal> {
    match compile::<Value>(alloc, source, "page", syntax) {
        Ok(_) => None,
        Err(error) => Some(refusal_of(error)),
    }
}

/// Whether two answers are the same, and what they refuse is the text.
fn is_of_text(first: Option<Refusal>, second: Option<Refusal>) -> bool {
    let kind = first.map(|refusal| refusal.kind);
    let is_kind_of_text = matches!(
        kind,
        None | Some(ErrorKind::SyntaxError | ErrorKind::BadEscape)
    );
    is_kind_of_text && first == second
}

/// Whether a template is accepted. None where an answer is not as it has to be.
fn is_accepted(alloc: Global, syntax: &SyntaxConfig, source: &str) -> Option<bool> {
    let (of_tokens, of_tokens_again) = refusals_of_tokens(alloc, syntax, source);
    let of_code = refusal_of_code(alloc, syntax, source);
    let of_code_again = refusal_of_code(alloc, syntax, source);
    if is_of_text(of_tokens, of_tokens_again) && is_of_text(of_code, of_code_again) {
        Some(of_code.is_none())
    } else {
        None
    }
}

/// Appends the place of a text that is accepted, and marks one where an answer is wrong.
fn push_place(
    words: &mut String,
    place: usize,
    is_accepted: Option<bool>,
) -> Result<(), AllocError> {
    match is_accepted {
        Some(true) => write!(words, "{place} "),
        Some(false) => Ok(()),
        None => write!(words, "{place}? "),
    }
}

/// How long the beginnings of a template are that are accepted.
fn accepted_prefixes(alloc: Global, syntax: &SyntaxConfig, source: &str) -> Result<String, Fail> {
    let mut words = String::new(alloc);
    for place in 0..=source.len() {
        if let Some((prefix, _)) = source.split_at_checked(place) {
            push_place(&mut words, place, is_accepted(alloc, syntax, prefix))?;
        }
    }
    write!(words, "of {}", source.len())?;
    Ok(words)
}

/// Templates in pieces, each after its options: how long its beginnings are that are accepted, and
/// how long it is.
enum Prefixes {}

impl Subject for Prefixes {
    fn words(alloc: Global, text: &str) -> Result<String, Fail> {
        let (options, pieces) = parted(text, " | ");
        let syntax = syntax_of(alloc, options)?;
        let source = repeated(alloc, pieces)?;
        accepted_prefixes(alloc, &syntax, source.as_str())
    }
}

#[test]
fn cut_off_expressions_are_refused(rt: HostRuntime) -> Result<(), Fail> {
    let rows = r#"
default | Hello {{ name }}! => 0 1 2 3 4 5 6 7 16 17 of 17
default | ␀ => 0 of 0
default | {{ a and b }} => 0 1 13 of 13
default | {{ a < b < c }} => 0 1 15 of 15
default | {{ 1 > 2 > x }} => 0 1 15 of 15
default | {{ -2**2 }} => 0 1 11 of 11
default | {{ [1, 2] }} => 0 1 12 of 12
default | {{ [[1]] }} => 0 1 11 of 11
default | {{ 1 / 2 }} => 0 1 11 of 11
default | {{ f(b=x, *y) }} => 0 1 16 of 16
default | {{ f(b=x, y) }} => 0 1 of 15
default | {{ a is defined if b }} => 0 1 of 23
default | {{ 1 if a is defined else 2 }} => 0 1 30 of 30
default | {{ x|a . b }} => 0 1 13 of 13
default | {{-1}} => 0 1 6 of 6
default | {% raw %}{{ a }}{% endraw %} => 0 1 28 of 28
default | {{ 'a' ? }} => 0 1 of 11
default | {{ 1.5 }} => 0 1 of 9
default | {{ 1e5 }} => 0 1 of 9
default | {{ 1_ }} => 0 1 of 8
default | {{ 0b2 }} => 0 1 of 9
default | {{ 0x }} => 0 1 of 8
default | {{ 340282366920938463463374607431768211456 }} => 0 1 of 45
default | {{ '\q' }} => 0 1 of 10
default | {{ foo.1.0 }} => 0 1 13 of 13
default | {{␠ | 149 * ( | x | 149 * ) | ␠}} => 0 1 305 of 305
default | {{ ( }} => 0 1 of 7
default | {{ "a }} => 0 1 of 8
default | {% raw %}x => 0 1 of 10
default | {{ x => 0 1 of 4
"#;
    hold::<Prefixes>(rt.alloc(), rows)
}

#[test]
fn cut_off_statements_are_refused(rt: HostRuntime) -> Result<(), Fail> {
    let rows = r#"
default | {% if a %}x{% else %}y{% endif %} => 0 1 33 of 33
default | {% for x in y if x %}{{ x }}{% endfor %} => 0 1 40 of 40
default | {% for x in y %}{% with %}{% break %}{% endwith %}{% endfor %} => 0 1 62 of 62
default | {% for x in y %}{% set s %}a{% continue %}{% endset %}{% endfor %} => 0 1 66 of 66
default | {% for x in y %}{% else %}{% break %}{% endfor %} => 0 1 of 49
default | {% for a in b %}{% for x in y %}{% else %}{% break %}{% endfor %}{% endfor %} => 0 1 77 of 77
default | {% macro f(a, b=a) %}{% endmacro %} => 0 1 35 of 35
default | {% macro f(a) %}{{ a }}{{ b }}{% endmacro %} => 0 1 44 of 44
default | {% call f() %}x{% endcall %} => 0 1 28 of 28
default | {% import 'a' as m %} => 0 1 21 of 21
default | {% import 'a' as 42 %} => 0 1 of 22
default | {% import 'a' as (a, b) %} => 0 1 of 26
default | {% from 'a' import x as y, z %} => 0 1 31 of 31
default | {% block a %}xyz{% endblock %} => 0 1 30 of 30
default | {% include 'a' ignore missing %} => 0 1 32 of 32
default | {% for x in y %}{{ x }}{% else %}n{% endfor %} => 0 1 46 of 46
default | {% set x = foo %}{{ x }}{{ bar.baz }} => 0 1 17 18 24 25 37 of 37
default | {% for x in loop.items if loop %}{{ loop }}{% endfor %} => 0 1 55 of 55
default | {% with a = a %}{{ a }}{% endwith %} => 0 1 36 of 36
default | {% set a.b = c %} => 0 1 17 of 17
default | 30 * {% if a %} | x | 30 * {% endif %} => 0 1 631 of 631
"#;
    hold::<Prefixes>(rt.alloc(), rows)
}

/// Where there are other delimiters, other beginnings are data.
#[test]
fn cut_off_texts_of_other_syntaxes_are_refused(rt: HostRuntime) -> Result<(), Fail> {
    let rows = r#"
line_statement #, line_comment ## | ## This block is␊## completely removed␊<ul>␊  # for item in [1, 2]␊    ## this is a comment that is also removed including leading whitespace␊    <li>{{ item }}␊  # endfor␊</ul> => 0 2 3 4 5 6 7 8 9 10 11 12 13 14 15 16 17 19 20 21 22 23 24 25 26 27 28 29 30 31 32 33 34 35 36 37 38 39 40 41 42 43 44 45 46 171 172 173 174 175 176 177 of 177
line_statement #, line_comment ## | # if a␍␊x␍␊# endif => 0 18 of 18
comment {# -} | {#+-}  x => 0 1 5 6 7 8 of 8
trim_blocks, lstrip_blocks | <div>␊  {% if True %}␊    yay␊  {% endif %}␊</div> => 0 1 2 3 4 5 6 7 8 9 43 44 45 46 47 48 49 50 of 50
block \BLOCK{ }, variable \VAR{ }, comment \#{ } | \BLOCK{if a}\VAR{a}\BLOCK{endif} => 0 1 2 3 4 5 6 32 of 32
"#;
    hold::<Prefixes>(rt.alloc(), rows)
}

/// The places in a template at which a question mark may be inserted.
fn places_of_data(alloc: Global, source: &str) -> Result<String, Fail> {
    let mut words = String::new(alloc);
    for place in 0..=source.len() {
        if let Some((before, after)) = source.split_at_checked(place) {
            let longer = format!(in alloc; "{before}?{after}")?;
            let is_accepted = is_accepted(alloc, &SyntaxConfig::default(), longer.as_str());
            push_place(&mut words, place, is_accepted)?;
        }
    }
    write!(words, "of {}", source.len())?;
    Ok(words)
}

/// Templates: the places at which a question mark may be inserted, and how long they are.
enum Insertions {}

impl Subject for Insertions {
    fn words(alloc: Global, text: &str) -> Result<String, Fail> {
        places_of_data(alloc, text)
    }
}

#[test]
fn a_question_mark_stands_in_data_alone(rt: HostRuntime) -> Result<(), Fail> {
    let rows = "Hello {{ name }}! => 0 1 2 3 4 5 6 7 16 17 of 17";
    hold::<Insertions>(rt.alloc(), rows)
}
