//! The children of statements.
ghost use Rattle.std.specs.Prelude.{◌∷◌, ◌++◌, OnOk, map};
ghost use Rattle.minijinja_tree.specs.SpannedErasure.{bindings_of, expr_node, names_of, optional_of, stmt_node};
ghost use Rattle.minijinja_tree.specs.SpannedTrees.{stmts_of};
ghost use Rattle.minijinja_walk.specs.Children as node;
ghost use Rattle.minijinja_walk.specs.Children.{body, if_any, imported, macro_children, pairs, stmt_children};
ghost use Rattle.minijinja_walk.specs.private.Added.{Adds, call_block_children, macro_node};

use crate::expressions::called;
use crate::parts::{all, body, if_any, imported, one, pairs, two};
use crate::walk::Node;
use minijinja_tree::ast::{
    CallBlock, Expr, ForLoop, FromImport, IfCond, Macro, SetBlock, Stmt, WithBlock,
};
use minijinja_value::value::TemplateValue;
use std::alloc::AllocError;

/// Adds the children of a statement.
pub fn statement<'a, 's, V: TemplateValue>(
    nodes: &mut Vec<Node<'a, 's, V>>,
    stmt: &'a Stmt<'s, V>,
) -> Result<(), AllocError>
    ensures { OnOk result (Adds V.contents nodes.old.items nodes.new.items
        (stmt_children (stmt_node V.contents stmt.now))) }
{
    match stmt {
        Stmt::Template(template) => body(nodes, &template.node().children),
        Stmt::EmitExpr(output) => one(nodes, &output.node().expr),
        Stmt::EmitRaw(_) => Ok(()),
        Stmt::ForLoop(repeated) => for_loop(nodes, repeated.node()),
        Stmt::IfCond(condition) => branches(nodes, condition.node()),
        Stmt::WithBlock(block) => with_block(nodes, block.node()),
        Stmt::Set(assignment) => two(nodes, &assignment.node().target, &assignment.node().expr),
        Stmt::SetBlock(block) => set_block(nodes, block.node()),
        Stmt::AutoEscape(block) => headed(nodes, &block.node().enabled, &block.node().body),
        Stmt::FilterBlock(block) => headed(nodes, &block.node().filter, &block.node().body),
        Stmt::Block(block) => body(nodes, &block.node().body),
        Stmt::Import(import) => two(nodes, &import.node().expr, &import.node().name),
        Stmt::FromImport(import) => from_import(nodes, import.node()),
        Stmt::Extends(parent) => one(nodes, &parent.node().name),
        Stmt::Include(included) => one(nodes, &included.node().name),
        Stmt::Macro(declared) => parts_of_macro(nodes, declared.node()),
        Stmt::CallBlock(block) => call_block(nodes, block.node()),
        Stmt::Continue(_) => Ok(()),
        Stmt::Break(_) => Ok(()),
        Stmt::Do(statement) => {
            let call = statement.node().call.node();
            called(nodes, &call.expr, &call.args)
        }
    }
}

/// Adds the target of a loop, what it goes over, its filter and its bodies.
fn for_loop<'a, 's, V: TemplateValue>(
    nodes: &mut Vec<Node<'a, 's, V>>,
    repeated: &'a ForLoop<'s, V>,
) -> Result<(), AllocError>
    ensures { OnOk result (Adds V.contents nodes.old.items nodes.new.items
        (node.expr (expr_node V.contents repeated.now.target)
        ∷ node.expr (expr_node V.contents repeated.now.iter)
        ∷ if_any (optional_of V.contents repeated.now.filter_expr)
        ++ body (stmts_of (map (stmt_node V.contents) repeated.now.body.items))
        ++ body (stmts_of (map (stmt_node V.contents) repeated.now.else_body.items)))) }
{
    two(nodes, &repeated.target, &repeated.iter)?;
    if_any(nodes, &repeated.filter_expr)?;
    body(nodes, &repeated.body)?;
    body(nodes, &repeated.else_body)
}

/// Adds the test and the bodies of a condition.
fn branches<'a, 's, V: TemplateValue>(
    nodes: &mut Vec<Node<'a, 's, V>>,
    condition: &'a IfCond<'s, V>,
) -> Result<(), AllocError>
    ensures { OnOk result (Adds V.contents nodes.old.items nodes.new.items
        (node.expr (expr_node V.contents condition.now.expr)
        ∷ body (stmts_of (map (stmt_node V.contents) condition.now.true_body.items))
        ++ body (stmts_of (map (stmt_node V.contents) condition.now.false_body.items)))) }
{
    headed(nodes, &condition.expr, &condition.true_body)?;
    body(nodes, &condition.false_body)
}

/// Adds the targets of a `with` block, each before its value, and its body.
fn with_block<'a, 's, V: TemplateValue>(
    nodes: &mut Vec<Node<'a, 's, V>>,
    block: &'a WithBlock<'s, V>,
) -> Result<(), AllocError>
    ensures { OnOk result (Adds V.contents nodes.old.items nodes.new.items
        (pairs (bindings_of V.contents block.now.assignments.items)
        ++ body (stmts_of (map (stmt_node V.contents) block.now.body.items)))) }
{
    pairs(nodes, &block.assignments)?;
    body(nodes, &block.body)
}

/// Adds the target of a set block, its filters and its body.
fn set_block<'a, 's, V: TemplateValue>(
    nodes: &mut Vec<Node<'a, 's, V>>,
    block: &'a SetBlock<'s, V>,
) -> Result<(), AllocError>
    ensures { OnOk result (Adds V.contents nodes.old.items nodes.new.items
        (node.expr (expr_node V.contents block.now.target)
        ∷ if_any (optional_of V.contents block.now.filter)
        ++ body (stmts_of (map (stmt_node V.contents) block.now.body.items)))) }
{
    one(nodes, &block.target)?;
    if_any(nodes, &block.filter)?;
    body(nodes, &block.body)
}

/// Adds an expression, and then a body.
fn headed<'a, 's, V: TemplateValue>(
    nodes: &mut Vec<Node<'a, 's, V>>,
    expr: &'a Expr<'s, V>,
    stmts: &'a [Stmt<'s, V>],
) -> Result<(), AllocError>
    ensures { OnOk result (Adds V.contents nodes.old.items nodes.new.items
        (node.expr (expr_node V.contents expr.now)
        ∷ body (stmts_of (map (stmt_node V.contents) stmts.now)))) }
{
    one(nodes, expr)?;
    body(nodes, stmts)
}

/// Adds the template of a `from` import, and then the names.
fn from_import<'a, 's, V: TemplateValue>(
    nodes: &mut Vec<Node<'a, 's, V>>,
    import: &'a FromImport<'s, V>,
) -> Result<(), AllocError>
    ensures { OnOk result (Adds V.contents nodes.old.items nodes.new.items
        (node.expr (expr_node V.contents import.now.expr)
        ∷ imported (names_of V.contents import.now.names.items))) }
{
    one(nodes, &import.expr)?;
    imported(nodes, &import.names)
}

/// Adds the arguments of a macro, their defaults, and its body.
fn parts_of_macro<'a, 's, V: TemplateValue>(
    nodes: &mut Vec<Node<'a, 's, V>>,
    declared: &'a Macro<'s, V>,
) -> Result<(), AllocError>
    ensures { OnOk result (Adds V.contents nodes.old.items nodes.new.items
        (macro_children (macro_node V.contents declared.now))) }
{
    all(nodes, &declared.args)?;
    all(nodes, &declared.defaults)?;
    body(nodes, &declared.body)
}

/// Adds what is called, the arguments, and the parts of the macro that is passed.
fn call_block<'a, 's, V: TemplateValue>(
    nodes: &mut Vec<Node<'a, 's, V>>,
    block: &'a CallBlock<'s, V>,
) -> Result<(), AllocError>
    ensures { OnOk result (Adds V.contents nodes.old.items nodes.new.items
        (call_block_children V.contents block.now)) }
{
    let call = block.call.node();
    called(nodes, &call.expr, &call.args)?;
    parts_of_macro(nodes, block.macro_decl.node())
}
