//! The walk through statements, in order of execution.
ghost use Rattle.std.specs.Prelude.{OnOk, map};
ghost use Rattle.minijinja_tree.specs.SpannedErasure.{args_of, bindings_of, expr_node, names_of, optional_of, stmt_node};
ghost use Rattle.minijinja_tree.specs.SpannedTrees as tree;
ghost use Rattle.minijinja_tree.specs.SpannedTrees.{stmts_of};
ghost use Rattle.minijinja_meta.specs.Mentions.{through, through_call, through_if_any, through_stmt, through_stmts, to_filter, to_target};
ghost use Rattle.minijinja_meta.specs.private.Scoped.{IsLogged};
ghost use Rattle.minijinja_meta.specs.private.Walked.{Walks};
ghost use Rattle.minijinja_meta.specs.private.Ways.{in_region, macro_node, nowhere, within_macro};

use crate::expressions::{arguments, expression, if_any};
use crate::targets::{assignments, imported, parameters, target};
use crate::walker::Walker;
use minijinja_tree::ast::{
    Block, Call, ForLoop, FromImport, IfCond, Import, Macro, Set, SetBlock, Stmt, WithBlock,
};
use minijinja_value::value::TemplateValue;
use std::alloc::AllocError;

/// Walks through statements in order. Text and outputs, of which a template mostly consists, are
/// not worth a call.
#[cycle(statements)]
pub fn statements<'a, 's, V: TemplateValue>(
    walker: &mut Walker<'a, 's, V>,
    stmts: &'a [Stmt<'s, V>],
) -> Result<(), AllocError>
    requires { IsLogged walker.old.scopes }
    ensures { OnOk result (Walks V.contents walker.old walker.new
        (through_stmts (stmts_of (map (stmt_node V.contents) stmts.now)))) }
{
    for stmt in stmts {
        match stmt {
            Stmt::EmitRaw(_) => {}
            Stmt::EmitExpr(output) => expression(walker, &output.node().expr)?,
            _ => statement(walker, stmt)?,
        }
    }
    Ok(())
}

/// Walks through a statement.
#[cycle(statements)]
pub fn statement<'a, 's, V: TemplateValue>(
    walker: &mut Walker<'a, 's, V>,
    stmt: &'a Stmt<'s, V>,
) -> Result<(), AllocError>
    requires { IsLogged walker.old.scopes }
    ensures { OnOk result (Walks V.contents walker.old walker.new
        (through_stmt (stmt_node V.contents stmt.now))) }
{
    match stmt {
        Stmt::Template(template) => {
            walker.stores("self")?;
            statements(walker, &template.node().children)
        }
        Stmt::EmitExpr(output) => expression(walker, &output.node().expr),
        Stmt::EmitRaw(_) => Ok(()),
        Stmt::ForLoop(repeated) => for_loop(walker, repeated.node()),
        Stmt::IfCond(condition) => branches(walker, condition.node()),
        Stmt::WithBlock(block) => with_block(walker, block.node()),
        Stmt::Set(assignment) => set(walker, assignment.node()),
        Stmt::SetBlock(block) => {
            body(walker, &block.node().body)?;
            kept(walker, block.node())
        }
        Stmt::AutoEscape(block) => {
            expression(walker, &block.node().enabled)?;
            body(walker, &block.node().body)
        }
        Stmt::FilterBlock(block) => {
            body(walker, &block.node().body)?;
            expression(walker, &block.node().filter)
        }
        Stmt::Block(block) => named_body(walker, block.node()),
        Stmt::Import(import) => import_all(walker, import.node()),
        Stmt::FromImport(import) => from_import(walker, import.node()),
        Stmt::Extends(parent) => expression(walker, &parent.node().name),
        Stmt::Include(included) => expression(walker, &included.node().name),
        Stmt::Macro(declared) => {
            walker.declares(declared.node().name, declared.span())?;
            within(walker, declared.node())
        }
        Stmt::CallBlock(block) => {
            called(walker, block.node().call.node())?;
            within(walker, block.node().macro_decl.node())
        }
        Stmt::Continue(_) => Ok(()),
        Stmt::Break(_) => Ok(()),
        Stmt::Do(statement) => called(walker, statement.node().call.node()),
    }
}

/// Walks through what is called, and through the arguments.
fn called<'a, 's, V: TemplateValue>(
    walker: &mut Walker<'a, 's, V>,
    call: &'a Call<'s, V>,
) -> Result<(), AllocError>
    requires { IsLogged walker.old.scopes }
    ensures { OnOk result (Walks V.contents walker.old walker.new
        (through_call (expr_node V.contents call.now.expr)
        (args_of V.contents call.now.args.items))) }
{
    expression(walker, &call.expr)?;
    arguments(walker, &call.args)
}

/// Walks through the test and the bodies of a condition.
#[cycle(statements)]
fn branches<'a, 's, V: TemplateValue>(
    walker: &mut Walker<'a, 's, V>,
    condition: &'a IfCond<'s, V>,
) -> Result<(), AllocError>
    requires { IsLogged walker.old.scopes }
    ensures { OnOk result (Walks V.contents walker.old walker.new
        (through_stmt (tree.if_cond (expr_node V.contents condition.now.expr)
        (stmts_of (map (stmt_node V.contents) condition.now.true_body.items))
        (stmts_of (map (stmt_node V.contents) condition.now.false_body.items)) nowhere))) }
{
    expression(walker, &condition.expr)?;
    body(walker, &condition.true_body)?;
    body(walker, &condition.false_body)
}

/// Walks through a body that is a region of its own.
#[cycle(statements)]
fn body<'a, 's, V: TemplateValue>(
    walker: &mut Walker<'a, 's, V>,
    stmts: &'a [Stmt<'s, V>],
) -> Result<(), AllocError>
    requires { IsLogged walker.old.scopes }
    ensures { OnOk result (Walks V.contents walker.old walker.new
        (in_region (through_stmts (stmts_of (map (stmt_node V.contents) stmts.now))))) }
{
    let mark = walker.mark();
    statements(walker, stmts)?;
    walker.end(mark);
    Ok(())
}

#[cycle(statements)]
fn for_loop<'a, 's, V: TemplateValue>(
    walker: &mut Walker<'a, 's, V>,
    repeated: &'a ForLoop<'s, V>,
) -> Result<(), AllocError>
    requires { IsLogged walker.old.scopes }
    ensures { OnOk result (Walks V.contents walker.old walker.new
        (through_stmt (tree.for_loop (expr_node V.contents repeated.now.target)
        (expr_node V.contents repeated.now.iter) (optional_of V.contents repeated.now.filter_expr)
        repeated.now.recursive (stmts_of (map (stmt_node V.contents) repeated.now.body.items))
        (stmts_of (map (stmt_node V.contents) repeated.now.else_body.items)) nowhere))) }
{
    expression(walker, &repeated.iter)?;
    filtered(walker, repeated)?;
    let mark = walker.mark();
    walker.stores("loop")?;
    target(walker, &repeated.target)?;
    statements(walker, &repeated.body)?;
    walker.end(mark);
    body(walker, &repeated.else_body)
}

/// Walks through the filter of a loop, which is a region of its own.
fn filtered<'a, 's, V: TemplateValue>(
    walker: &mut Walker<'a, 's, V>,
    repeated: &'a ForLoop<'s, V>,
) -> Result<(), AllocError>
    requires { IsLogged walker.old.scopes }
    ensures { OnOk result (Walks V.contents walker.old walker.new
        (to_filter (expr_node V.contents repeated.now.target)
        (optional_of V.contents repeated.now.filter_expr))) }
{
    let Some(condition) = &repeated.filter_expr else {
        return Ok(());
    };
    let mark = walker.mark();
    target(walker, &repeated.target)?;
    expression(walker, condition)?;
    walker.end(mark);
    Ok(())
}

#[cycle(statements)]
fn with_block<'a, 's, V: TemplateValue>(
    walker: &mut Walker<'a, 's, V>,
    block: &'a WithBlock<'s, V>,
) -> Result<(), AllocError>
    requires { IsLogged walker.old.scopes }
    ensures { OnOk result (Walks V.contents walker.old walker.new
        (through_stmt (tree.with_block (bindings_of V.contents block.now.assignments.items)
        (stmts_of (map (stmt_node V.contents) block.now.body.items)) nowhere))) }
{
    let mark = walker.mark();
    assignments(walker, &block.assignments)?;
    statements(walker, &block.body)?;
    walker.end(mark);
    Ok(())
}

fn set<'a, 's, V: TemplateValue>(
    walker: &mut Walker<'a, 's, V>,
    assignment: &'a Set<'s, V>,
) -> Result<(), AllocError>
    requires { IsLogged walker.old.scopes }
    ensures { OnOk result (Walks V.contents walker.old walker.new
        (through_stmt (tree.assignment (expr_node V.contents assignment.now.target)
        (expr_node V.contents assignment.now.expr) nowhere))) }
{
    expression(walker, &assignment.expr)?;
    target(walker, &assignment.target)
}

/// Walks through the filters and the target of a set block, after its body.
fn kept<'a, 's, V: TemplateValue>(
    walker: &mut Walker<'a, 's, V>,
    block: &'a SetBlock<'s, V>,
) -> Result<(), AllocError>
    requires { IsLogged walker.old.scopes }
    ensures { OnOk result (Walks V.contents walker.old walker.new
        (λ w. through_if_any (optional_of V.contents block.now.filter)
        (to_target (expr_node V.contents block.now.target) w))) }
{
    if_any(walker, block.filter.as_ref())?;
    target(walker, &block.target)
}

#[cycle(statements)]
fn named_body<'a, 's, V: TemplateValue>(
    walker: &mut Walker<'a, 's, V>,
    block: &'a Block<'s, V>,
) -> Result<(), AllocError>
    requires { IsLogged walker.old.scopes }
    ensures { OnOk result (Walks V.contents walker.old walker.new
        (through_stmt (tree.named_block block.now.name.now block.now.required
        (stmts_of (map (stmt_node V.contents) block.now.body.items)) nowhere))) }
{
    let mark = walker.mark();
    walker.stores("super")?;
    statements(walker, &block.body)?;
    walker.end(mark);
    Ok(())
}

fn import_all<'a, 's, V: TemplateValue>(
    walker: &mut Walker<'a, 's, V>,
    import: &'a Import<'s, V>,
) -> Result<(), AllocError>
    requires { IsLogged walker.old.scopes }
    ensures { OnOk result (Walks V.contents walker.old walker.new
        (through_stmt (tree.import_all (expr_node V.contents import.now.expr)
        (expr_node V.contents import.now.name) nowhere))) }
{
    expression(walker, &import.expr)?;
    target(walker, &import.name)
}

fn from_import<'a, 's, V: TemplateValue>(
    walker: &mut Walker<'a, 's, V>,
    import: &'a FromImport<'s, V>,
) -> Result<(), AllocError>
    requires { IsLogged walker.old.scopes }
    ensures { OnOk result (Walks V.contents walker.old walker.new
        (through_stmt (tree.from_import (expr_node V.contents import.now.expr)
        (names_of V.contents import.now.names.items) nowhere))) }
{
    expression(walker, &import.expr)?;
    imported(walker, &import.names)
}

/// Walks through a macro where it stands in a statement: a region of its own, in which `caller` is
/// stored.
#[cycle(statements)]
fn within<'a, 's, V: TemplateValue>(
    walker: &mut Walker<'a, 's, V>,
    declared: &'a Macro<'s, V>,
) -> Result<(), AllocError>
    requires { IsLogged walker.old.scopes }
    ensures { OnOk result (Walks V.contents walker.old walker.new
        (within_macro (macro_node V.contents declared.now nowhere))) }
{
    let mark = walker.mark();
    walker.stores("caller")?;
    parameters(walker, declared)?;
    statements(walker, &declared.body)?;
    walker.end(mark);
    Ok(())
}
