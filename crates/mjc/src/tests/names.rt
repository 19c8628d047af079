//! The names that templates need from outside.
use super::output;
use minijinja_test_rows::rows::{Subject, hold};
use std::alloc::Global;
use std::test::Fail;

/// Templates: what `names` prints.
enum Names {}

impl Subject for Names {
    fn words(alloc: Global, text: &str) -> Result<String, Fail> {
        output(alloc, &["names", "-"], &mut text.as_bytes())
    }
}

#[test]
fn plain_names_come_first(rt: HostRuntime) -> Result<(), Fail> {
    let rows = r#"
{{ 1 > 2 > x }} => plain x␊nested x␊
{% macro f(a, b=a) %}{% endmacro %} => plain a␊nested a␊
{% if a %}{% set x = 1 %}{% endif %}{{ x }} => plain a␊plain x␊nested a␊nested x␊
{{ x[a:b] }} => plain a␊plain b␊plain x␊nested a␊nested b␊nested x␊
{% macro f(a=b, c=a) %}{{ f }}{{ caller }}{% endmacro %} => plain a␊plain b␊nested a␊nested b␊
{{ a.b.c }}{{ a["k"].d }} => plain a␊nested a␊nested a.b.c␊
{% set x = foo %}{{ x }}{{ bar.baz }} => plain bar␊plain foo␊nested bar.baz␊nested foo␊
{% for x in loop.items if loop %}{{ loop }}{% endfor %} => plain loop␊nested loop␊nested loop.items␊
{% with a = a %}{{ a }}{% endwith %} => plain a␊nested a␊
{% set a.b = c %} => plain a␊plain c␊nested a␊nested c␊
{{ Z.y }}{{ é }}{{ a.b }}{{ a }}{{ _ }} => plain Z␊plain _␊plain a␊plain é␊nested Z.y␊nested _␊nested a␊nested a.b␊nested é␊
x => ␀
{{ self.b() }}{% block b %}{{ super() }}{{ loop }}{% endblock %} => plain loop␊nested loop␊
{% set d.e.f = 1 %} => plain d␊nested d.e␊
{% set loop = a %} => ! 1 mjc: SyntaxError at 1:7␊
"#;
    hold::<Names>(rt.alloc(), rows)
}
