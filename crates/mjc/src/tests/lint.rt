//! What a linter finds in templates.
use super::output;
use minijinja_test_rows::rows::{Subject, hold};
use std::alloc::Global;
use std::test::Fail;

/// Templates: what `lint` prints, and the status.
enum Lints {}

impl Subject for Lints {
    fn words(alloc: Global, text: &str) -> Result<String, Fail> {
        output(alloc, &["lint", "-"], &mut text.as_bytes())
    }
}

#[test]
fn names_from_outside_come_first_and_then_unused_macros(rt: HostRuntime) -> Result<(), Fail> {
    let rows = r#"
{% macro f() %}{{ a }}{% endmacro %}{{ b.a }}{{ a }} => free a at 1:18␊free b at 1:39␊macro f unused at 1:3␊! 3 ␀
{% macro f(a) %}{{ a }}{% endmacro %}{{ f(1) }}{{ a }} => free a at 1:50␊! 3 ␀
{% set x = 1 %}{{ x }} => ␀
␀ => ␀
{{ x => ! 1 mjc: SyntaxError at 1:3␊
{{ '\q' }} => ! 1 mjc: BadEscape at 1:3␊
{{ a[b] if c }} => free a at 1:3␊free b at 1:5␊free c at 1:11␊! 3 ␀
{{ x }}{% set x = x %}{{ x }} => free x at 1:3␊! 3 ␀
{% macro f() %}{{ f() }}{% endmacro %} => ␀
{% macro g() %}{% macro f() %}{% endmacro %}{% endmacro %}␊{% macro f() %}{% endmacro %} => macro g unused at 1:3␊macro f unused at 1:18␊macro f unused at 2:3␊! 3 ␀
{% set f = 1 %}{% macro f() %}{% endmacro %}{{ f }} => ␀
{% call f() %}{{ caller }}{% endcall %} => free f at 1:8␊! 3 ␀
"#;
    hold::<Lints>(rt.alloc(), rows)
}
