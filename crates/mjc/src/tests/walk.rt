//! A walk over trees, from each node to the nodes right below it.
use minijinja_parser::parser::parse;
use minijinja_syntax::error::Error;
use minijinja_syntax::syntax::SyntaxConfig;
use minijinja_test_rows::rows::{Subject, hold};
use minijinja_tree::ast::{Expr, Stmt};
use minijinja_value::value::{TemplateValue, Value};
use minijinja_walk::walk::{Node, children};
use std::alloc::Global;
use std::test::Fail;

/// Templates: the names of their variables and targets, as a walk meets them.
enum Walks {}

impl Subject for Walks {
    fn words(alloc: Global, text: &str) -> Result<String, Fail> {
        let template = parse::<Value>(alloc, text, "page", &SyntaxConfig::default())?;
        Ok(names_met(alloc, &template)?)
    }
}

/// The name of each variable below a statement, in the order of the fields. It is generic, as what
/// it calls is, since a function with locals of large types takes long to prove.
fn names_met<V: TemplateValue>(
    alloc: Global,
    stmt: &Stmt<'_, V>,
) -> Result<String, Error<'static>> {
    let mut names = String::from_str(alloc, "names")?;
    let mut waiting = vec![in alloc; Node::Stmt(stmt)]?;
    for _ in 0..1_000 {
        let Some(node) = waiting.pop() else {
            break;
        };
        if let Node::Expr(Expr::Var(variable)) = &node {
            write!(names, " {}", variable.node().id)?;
        }
        let mut below = children(alloc, node)?;
        below.reverse();
        waiting.append(&mut below)?;
    }
    Ok(names)
}

#[test]
fn nodes_come_in_the_order_of_the_fields(rt: HostRuntime) -> Result<(), Fail> {
    let rows = r#"
{{ a + b }}{{ not c }}{{ d }}x => names a b c d
{{ a < b <= c }}{{ d is t(e) }}{{ f | g(h, i) }} => names a b c d e f h i
{{ a if b else c }}{{ d if e }} => names b a c e d
{{ a.b[c] }}{{ d[e:f:g] }}{{ h[:i] }} => names a c d e f g h i
{{ f(a, b=c, *d, **e) }}{{ g.h(i) }} => names f a c d e g i
{{ [a, b] }}{{ (c, d) }}{{ {e: f, g: h} }} => names a b c d e g f h
{% for a in b if c %}{{ d }}{% else %}{{ e }}{% endfor %} => names a b c d e
{% for a, b in c recursive %}{% break %}{% continue %}{% endfor %} => names a b c
{% if a %}{{ b }}{% elif c %}{{ d }}{% else %}{{ e }}{% endif %} => names a b c d e
{% with a = b, c = d %}{{ e }}{% endwith %} => names a b c d e
{% set a = b %}{% set c.d, e = f %} => names a b c e f
{% set a %}{{ b }}{% endset %}{% set c | d(e) %}{{ f }}{% endset %} => names a b c e f
{% autoescape a %}{{ b }}{% endautoescape %} => names a b
{% filter a(b) | c %}{{ d }}{% endfilter %} => names b d
{% block a %}{{ b }}{% endblock %}{% extends c %}{% include d ignore missing %} => names b c d
{% import a as b %}{% from c import d as e, f %} => names a b c d e f
{% macro a(b, c=d) %}{{ e }}{% endmacro %} => names b c d e
{% call(a, b=c) d(e) %}{{ f }}{% endcall %}{% do g(h) %} => names d e a b c f g h
"#;
    hold::<Walks>(rt.alloc(), rows)
}
