//! Trees that are made by hand, where several parts start in one place.
use minijinja_lint::lint::{Finding, lint};
use minijinja_nodes::expr_nodes::variable;
use minijinja_nodes::stmt_nodes::{declared, output, template};
use minijinja_syntax::error::Error;
use minijinja_syntax::tokens::Span;
use minijinja_tree::ast::Stmt;
use minijinja_value::value::{TemplateValue, Value};
use std::alloc::{AllocError, Global};
use std::test::Fail;

/// A place that is told from others that start at the same offset by the column in which it ends.
fn place(start_offset: u32, end_col: u16) -> Span {
    Span {
        start_offset,
        end_col,
        ..Span::default()
    }
}

/// Adds macros that do nothing.
fn push_macros<'s, V: TemplateValue>(
    alloc: Global,
    stmts: &mut Vec<Stmt<'s, V>>,
    macros: &[(&'s str, Span)],
) -> Result<(), AllocError> {
    for &(name, span) in macros {
        let stmt = declared(alloc, name, Vec::new(alloc), Vec::new(alloc), span)?;
        stmts.push(stmt)?;
    }
    Ok(())
}

/// Adds outputs of variables.
fn push_outputs<'s, V: TemplateValue>(
    alloc: Global,
    stmts: &mut Vec<Stmt<'s, V>>,
    variables: &[(&'s str, Span)],
) -> Result<(), AllocError> {
    for &(id, span) in variables {
        let stmt = output(alloc, variable(alloc, id, span)?, span)?;
        stmts.push(stmt)?;
    }
    Ok(())
}

/// What is found in a template of macros that do nothing, and then of outputs of variables. It is
/// generic, as what it calls is, since a function with locals of large types takes long to prove.
fn found_in<'s, V: TemplateValue>(
    alloc: Global,
    macros: &[(&'s str, Span)],
    variables: &[(&'s str, Span)],
) -> Result<Vec<Finding<'s>>, Error<'static>> {
    let mut stmts = Vec::new(alloc);
    push_macros::<V>(alloc, &mut stmts, macros)?;
    push_outputs(alloc, &mut stmts, variables)?;
    let template = template(alloc, stmts, place(0, 0))?;
    lint(alloc, &template)
}

/// Of mentions and of macro statements that start in one place, the ones that run first come first.
/// Each statement of a macro counts, and a macro is used where its name is mentioned after it.
#[test]
fn order_of_execution_decides_in_one_place(rt: HostRuntime) -> Result<(), Fail> {
    let macros = [
        ("f", place(8, 1)),
        ("f", place(6, 2)),
        ("g", place(6, 3)),
        ("h", place(6, 4)),
    ];
    let variables = [
        ("b", place(9, 5)),
        ("a", place(5, 6)),
        ("a", place(3, 7)),
        ("a", place(3, 8)),
        ("g", place(1, 9)),
    ];
    let expected = [
        Finding::Free("a", place(3, 7)),
        Finding::Free("b", place(9, 5)),
        Finding::UnusedMacro("f", place(6, 2)),
        Finding::UnusedMacro("h", place(6, 4)),
        Finding::UnusedMacro("f", place(8, 1)),
    ];
    let found = found_in::<Value>(rt.alloc(), &macros, &variables)?;
    assert_eq!(rt; found.as_slice(), expected.as_slice());
    Ok(())
}
