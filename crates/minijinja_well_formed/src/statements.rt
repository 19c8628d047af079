//! Tests that a tree is well formed, so that code can be generated from it.
ghost use Rattle.std.specs.Prelude.{◌≡◌, ◌&&◌, map, true};
ghost use Rattle.minijinja_tree.specs.Erasure.{expr_tree, optional_of, macro_tree, stmt_tree};
ghost use Rattle.minijinja_tree.specs.Tree.{stmts_of};
ghost use Rattle.minijinja_well_formed.specs.private.StatementTests as tests;

use crate::distinct::has_distinct_blocks;
use crate::expressions::{
    are_assignments, are_names, are_variables, have_arguments, is_call, is_chain_if_any,
    is_chain_of_filters, is_target, is_whole, is_whole_if_any,
};
use minijinja_tree::ast::{ForLoop, IfCond, Macro, Stmt};
use minijinja_value::value::TemplateValue;

/// Whether a tree is well formed.
pub(crate) fn is_formed<V: TemplateValue>(stmt: &Stmt<'_, V>) -> bool
    ensures { result ≡ tests.is_well_formed (stmt_tree V.contents stmt.now) }
{
    is_root(stmt) && has_distinct_blocks(stmt)
}

fn is_root<V: TemplateValue>(stmt: &Stmt<'_, V>) -> bool
    ensures { result ≡ tests.is_root (stmt_tree V.contents stmt.now) }
{
    match stmt {
        Stmt::Template(template) => are_inner(&template.node().children, false, false),
        _ => is_inner(stmt, false, false),
    }
}

#[cycle(inner)]
fn are_inner<V: TemplateValue>(stmts: &[Stmt<'_, V>], in_loop: bool, in_macro: bool) -> bool
    ensures { result ≡ tests.are_inner in_loop in_macro
        (stmts_of (map (stmt_tree V.contents) stmts.now)) }
{
    for stmt in stmts {
        if !is_inner(stmt, in_loop, in_macro) {
            return false;
        }
    }
    true
}

/// Whether a statement is well formed where it stands.
#[cycle(inner)]
fn is_inner<V: TemplateValue>(stmt: &Stmt<'_, V>, in_loop: bool, in_macro: bool) -> bool
    ensures { result ≡ tests.is_inner in_loop in_macro (stmt_tree V.contents stmt.now) }
{
    is_headed(stmt, in_loop, in_macro) && has_bodies(stmt, in_loop, in_macro)
}

/// Whether the bodies are well formed.
#[cycle(inner)]
fn has_bodies<V: TemplateValue>(stmt: &Stmt<'_, V>, in_loop: bool, in_macro: bool) -> bool
    ensures { result ≡ tests.has_bodies in_loop in_macro (stmt_tree V.contents stmt.now) }
{
    match stmt {
        Stmt::ForLoop(repeated) => has_loop_bodies(repeated.node(), in_loop, in_macro),
        Stmt::IfCond(condition) => has_branches(condition.node(), in_loop, in_macro),
        Stmt::WithBlock(block) => are_inner(&block.node().body, in_loop, in_macro),
        Stmt::SetBlock(block) => are_inner(&block.node().body, in_loop, in_macro),
        Stmt::AutoEscape(block) => are_inner(&block.node().body, in_loop, in_macro),
        Stmt::FilterBlock(block) => are_inner(&block.node().body, in_loop, in_macro),
        Stmt::Block(block) => are_inner(&block.node().body, false, in_macro),
        Stmt::Macro(declared) => has_macro_body(declared.node()),
        Stmt::CallBlock(block) => has_macro_body(block.node().macro_decl.node()),
        _ => true,
    }
}

#[cycle(inner)]
fn has_macro_body<V: TemplateValue>(declared: &Macro<'_, V>) -> bool
    ensures { result ≡ tests.has_macro_body (macro_tree V.contents declared.now) }
{
    are_inner(&declared.body, false, true)
}

/// Whether the bodies of a loop are well formed. The else body does not stand in the loop.
#[cycle(inner)]
fn has_loop_bodies<V: TemplateValue>(
    repeated: &ForLoop<'_, V>,
    in_loop: bool,
    in_macro: bool,
) -> bool
    ensures { result ≡ (tests.are_inner true in_macro
        (stmts_of (map (stmt_tree V.contents) repeated.now.body.items))
        && tests.are_inner in_loop in_macro
        (stmts_of (map (stmt_tree V.contents) repeated.now.else_body.items))) }
{
    are_inner(&repeated.body, true, in_macro) && are_inner(&repeated.else_body, in_loop, in_macro)
}

#[cycle(inner)]
fn has_branches<V: TemplateValue>(condition: &IfCond<'_, V>, in_loop: bool, in_macro: bool) -> bool
    ensures { result ≡
        (tests.are_inner in_loop in_macro
        (stmts_of (map (stmt_tree V.contents) condition.now.true_body.items))
        && tests.are_inner in_loop in_macro
        (stmts_of (map (stmt_tree V.contents) condition.now.false_body.items))) }
{
    are_inner(&condition.true_body, in_loop, in_macro)
        && are_inner(&condition.false_body, in_loop, in_macro)
}

/// Whether a statement is well formed, except its bodies.
fn is_headed<V: TemplateValue>(stmt: &Stmt<'_, V>, in_loop: bool, in_macro: bool) -> bool
    ensures { result ≡ tests.is_headed in_loop in_macro (stmt_tree V.contents stmt.now) }
{
    match stmt {
        Stmt::Template(_) => false,
        Stmt::EmitExpr(output) => is_whole(&output.node().expr),
        Stmt::EmitRaw(_) => true,
        Stmt::ForLoop(repeated) => has_head(repeated.node()),
        Stmt::IfCond(condition) => is_whole(&condition.node().expr),
        Stmt::WithBlock(block) => are_assignments(&block.node().assignments),
        Stmt::Set(assignment) => {
            let assignment = assignment.node();
            is_target(&assignment.target) && is_whole(&assignment.expr)
        }
        Stmt::SetBlock(block) => {
            let block = block.node();
            is_target(&block.target) && is_chain_if_any(&block.filter)
        }
        Stmt::AutoEscape(block) => is_whole(&block.node().enabled),
        Stmt::FilterBlock(block) => is_chain_of_filters(&block.node().filter),
        Stmt::Block(_) => !in_macro,
        Stmt::Extends(parent) => is_whole(&parent.node().name),
        Stmt::Include(included) => is_whole(&included.node().name),
        Stmt::Import(import) => {
            let import = import.node();
            is_whole(&import.expr) && is_target(&import.name)
        }
        Stmt::FromImport(import) => {
            let import = import.node();
            is_whole(&import.expr) && are_names(&import.names)
        }
        Stmt::Macro(declared) => is_macro_headed(declared.node()),
        Stmt::CallBlock(block) => {
            let block = block.node();
            is_call(block.call.node()) && is_macro_headed(block.macro_decl.node())
        }
        Stmt::Continue(_) => in_loop,
        Stmt::Break(_) => in_loop,
        Stmt::Do(statement) => is_call(statement.node().call.node()),
    }
}

/// Whether the arguments of a macro are variables, and its defaults are well formed and no more
/// than the arguments.
fn is_macro_headed<V: TemplateValue>(declared: &Macro<'_, V>) -> bool
    ensures { result ≡ tests.is_macro_headed (macro_tree V.contents declared.now) }
{
    are_variables(&declared.args) && have_arguments(&declared.defaults, &declared.args)
}

fn has_head<V: TemplateValue>(repeated: &ForLoop<'_, V>) -> bool
    ensures { result ≡ (tests.is_target (expr_tree V.contents repeated.now.target)
        && (tests.is_whole (expr_tree V.contents repeated.now.iter)
        && tests.is_whole_if_any (optional_of V.contents repeated.now.filter_expr))) }
{
    is_target(&repeated.target)
        && is_whole(&repeated.iter)
        && is_whole_if_any(&repeated.filter_expr)
}
