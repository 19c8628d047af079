//! The names that macros need from outside.
use super::parse_page;
use minijinja_meta::meta::find_macro_closure;
use minijinja_syntax::error::Error;
use minijinja_test_rows::rows::{Subject, hold};
use minijinja_tree::ast::{Macro, Stmt};
use minijinja_value::value::Value;
use std::alloc::Global;
use std::collections::BTreeSet;
use std::test::Fail;

/// Appends names, each after a space.
fn push_names(words: &mut String, names: &BTreeSet<&str>) -> Result<(), Error<'static>> {
    for name in names {
        write!(words, " {name}")?;
    }
    Ok(())
}

/// Appends the names that a macro needs.
fn push_closure(
    alloc: Global,
    words: &mut String,
    declared: &Macro<'_, Value>,
) -> Result<(), Error<'static>> {
    let names = find_macro_closure(alloc, declared)?;
    push_names(words, &names)
}

/// Appends the names that a statement needs if it is a macro.
fn push_part(
    alloc: Global,
    words: &mut String,
    part: &Stmt<'_, Value>,
) -> Result<(), Error<'static>> {
    match part {
        Stmt::Macro(declared) => push_closure(alloc, words, declared.node()),
        _ => Ok(()),
    }
}

/// The names that each macro at the top of a template needs.
fn closures_of(alloc: Global, template: &Stmt<'_, Value>) -> Result<String, Fail> {
    let mut words = String::from_str(alloc, "of")?;
    if let Stmt::Template(template) = template {
        for child in &template.node().children {
            push_part(alloc, &mut words, child)?;
        }
    }
    Ok(words)
}

/// Templates, told by the names that their macros need.
enum Closures {}

impl Subject for Closures {
    fn words(alloc: Global, text: &str) -> Result<String, Fail> {
        let template = parse_page(alloc, text)?;
        closures_of(alloc, &template)
    }
}

/// The upstream program finds the same names.
#[test]
fn closures_are_what_is_used_before_it_is_there(rt: HostRuntime) -> Result<(), Fail> {
    let rows = r#"
{% macro f(a) %}{{ a }}{{ b }}{% endmacro %} => of b
{% macro f() %}{{ f() }}{{ caller() }}{{ self.b() }}{{ loop }}{% endmacro %} => of caller f loop self
{% macro f() %}{% macro g(x) %}{{ x }}{{ y }}{{ caller }}{% endmacro %}{{ g }}{% endmacro %} => of y
{% macro f() %}{% set x = 1 %}{{ x }}{% endmacro %} => of
{% macro f() %}{% if a %}{% set x = 1 %}{{ x }}{% else %}{{ x }}{% endif %}{% endmacro %} => of a x
{% macro f() %}{% for x in y %}{{ x }}{{ loop }}{% else %}{{ loop }}{% endfor %}{{ x }}{% endmacro %} => of loop x y
{% macro f() %}{{ Z }}{{ a }}{{ é }}{{ z }}{{ _ }}{% endmacro %} => of Z _ a z é
{% macro f() %}{{ a }}{{ a }}{% set a = 1 %}{{ a }}{% endmacro %} => of a
{% macro f() %}{{ x.y.z }}{{ x["k"] }}{{ g(h, i=j, *k, **l) }}{{ m|n(o) is p(q) }}{% endmacro %} => of g h j k l m o q x
{% macro f() %}{{ true }}{{ none }}{% endmacro %} => of
{% macro f() %}{% if a %}{% set x = a %}{% elif b %}{% set y = b %}{% elif x %}{% set z = x %}{% else %}{{ y }}{% set d = e %}{{ d }}{% endif %}{{ x }}{{ caller }}{% endmacro %} => of a b caller e x y
{% macro f() %}{% for x in xs if y %}{{ loop }}{{ x }}{% else %}{{ loop }}{{ x }}{% endfor %}{% endmacro %} => of loop x xs y
"#;
    hold::<Closures>(rt.alloc(), rows)
}

/// The upstream program misses some of these uses, or finds a store before the use.
#[test]
fn closures_are_in_order_of_execution(rt: HostRuntime) -> Result<(), Fail> {
    let rows = r#"
{% macro f(a, b=a) %}{% endmacro %} => of a
{% macro f(a, b=a) %}{{ b }}{{ c }}{% endmacro %} => of a c
{% macro f(a=b, b=1) %}{% endmacro %} => of
{% macro f() %}{% set x = x %}{% endmacro %} => of x
{% macro f() %}{% with a = a, b = a %}{% endwith %}{% endmacro %} => of a
{% macro f() %}{% for a in loop %}{% endfor %}{% endmacro %} => of loop
{% macro f() %}{% for a in b if loop %}{{ loop }}{% endfor %}{% endmacro %} => of b loop
{% macro f() %}{{ a[b:c:d] }}{% endmacro %} => of a b c d
{% macro f() %}{% include a %}{% extends b %}{% import c as d %}{% from e import g as h %}{{ d }}{{ g }}{{ h }}{% endmacro %} => of a b c e g
{% macro f() %}{% autoescape a %}{% endautoescape %}{% filter b(c) %}{% endfilter %}{% set d | e(g) %}{% endset %}{% endmacro %} => of a c g
{% macro f() %}{% set a.b = c %}{% endmacro %} => of a c
{% macro f() %}{% set x %}{% set y = 1 %}{% endset %}{{ x }}{{ y }}{% endmacro %} => of y
{% macro f() %}{% call(a, b=a) g(a) %}{{ a }}{{ caller }}{% endcall %}{{ caller }}{% endmacro %} => of a caller g
{% macro f() %}{% call self.b(c) %}{{ d }}{% endcall %}{% endmacro %} => of c d self
"#;
    hold::<Closures>(rt.alloc(), rows)
}
