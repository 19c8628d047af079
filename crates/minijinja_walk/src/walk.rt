//! The nodes of a tree, and the children of each.
ghost use Rattle.std.specs.Prelude.{◌≡◌, IfErr, IfOk, OnOk};
ghost use Rattle.minijinja_syntax.specs.Errors.{IsOutOfMemory};
ghost use Rattle.minijinja_walk.specs.Children.{children_of};
ghost use Rattle.minijinja_walk.specs.Nodes.{tree_of, trees_of};
ghost use Rattle.minijinja_walk.specs.private.Added.{Adds};

use crate::expressions::expression;
use crate::statements::statement;
use minijinja_syntax::error::Error;
use minijinja_tree::ast::{Expr, Stmt};
use minijinja_value::value::{TemplateValue, Value};
use std::alloc::{AllocError, Global};

/// A node of a tree: an expression or a statement.
#[derive(Drop)]
pub enum Node<'a, 's, V: TemplateValue = Value> {
    Expr(&'a Expr<'s, V>),
    Stmt(&'a Stmt<'s, V>),
}

/// The nodes right below a node, in the order in which its fields are declared in `ast`, and those
/// of one list in order: of `a if b else c` these are `b`, `a` and `c`, and of `{% for x in xs %}{{
/// y }}{% endfor %}` the expressions `x` and `xs` and the output of `y`. A map has all its keys and
/// then all its values, a `with` block each target before its value, and a `from` import each name
/// before its alias. Targets are nodes like all other expressions.
///
/// An argument, a call and a macro that stand in another node are no nodes: their parts count as
/// that one's. So a `call` block has what is called, the arguments, and then the arguments, the
/// defaults and the body of its macro.
///
/// Refused memory is the only error. All nodes of a template are visited by this, where the bound,
/// which no tree of a text reaches, lets the prover see that the loop ends:
///
/// ```
/// let mut waiting = vec![in alloc; Node::Stmt(&template)]?;
/// for _ in 0..u32::MAX {
///     let Some(node) = waiting.pop() else { break };
///     waiting.append(&mut children(alloc, node)?)?;
/// }
/// ```
pub fn children<'a, 's, V: TemplateValue>(
    alloc: Global,
    node: Node<'a, 's, V>,
) -> Result<Vec<Node<'a, 's, V>>, Error<'static>>
    ensures children { IfOk result (λ v. trees_of V.contents v.items ≡ children_of
        (tree_of V.contents node.entry)) }
    ensures memory { IfErr result IsOutOfMemory }
{
    let mut nodes = Vec::new(alloc);
    add_children(&mut nodes, node)?;
    Ok(nodes)
}

/// Adds the nodes right below a node.
fn add_children<'a, 's, V: TemplateValue>(
    nodes: &mut Vec<Node<'a, 's, V>>,
    node: Node<'a, 's, V>,
) -> Result<(), AllocError>
    ensures { OnOk result (Adds V.contents nodes.old.items nodes.new.items
        (children_of (tree_of V.contents node.entry))) }
{
    match node {
        Node::Expr(expr) => expression(nodes, expr),
        Node::Stmt(stmt) => statement(nodes, stmt),
    }
}
