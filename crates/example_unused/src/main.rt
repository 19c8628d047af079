//! Prints the names that a template sets and never mentions: an example of a linter.
#![tactic(auto)]

use minijinja_compiler::ast::{Expr, Set, Stmt};
use minijinja_compiler::error::Error;
use minijinja_compiler::parser::parse;
use minijinja_compiler::syntax::SyntaxConfig;
use minijinja_compiler::tokens::Span;
use minijinja_walk::walk::{Node, children};
use std::alloc::Global;
use std::collections::{BTreeMap, BTreeSet};
use std::io::{self, Read};

/// Names that `{% set x = .. %}` stores, each with the place of one such target, and names that are
/// mentioned anywhere else.
#[derive(Drop)]
struct Names<'s> {
    stored: BTreeMap<&'s str, Span>,
    mentioned: BTreeSet<&'s str>,
}

/// Goes through the nodes of a template without a recursion: a vector has those that wait.
fn names_in<'s>(alloc: Global, template: &Stmt<'s>) -> Result<Names<'s>, Error<'static>> {
    let mut names = Names {
        stored: BTreeMap::new(alloc),
        mentioned: BTreeSet::new(alloc),
    };
    let mut waiting = vec![in alloc; Node::Stmt(template)]?;
    // No tree of a text has as many nodes.
    for _ in 0..u32::MAX {
        let Some(node) = waiting.pop() else {
            break;
        };
        match node {
            Node::Expr(Expr::Var(variable)) => {
                names.mentioned.insert(variable.node().id)?;
            }
            Node::Stmt(Stmt::Set(set)) => visit_set(set.node(), &mut names, &mut waiting)?,
            _ => waiting.append(&mut children(alloc, node)?)?,
        }
    }
    Ok(names)
}

/// Notes the name that is set, if it is a plain one, and has the other parts wait.
fn visit_set<'a, 's>(
    set: &'a Set<'s>,
    names: &mut Names<'s>,
    waiting: &mut Vec<Node<'a, 's>>,
) -> Result<(), Error<'static>> {
    match &set.target {
        Expr::Var(target) => {
            names.stored.insert(target.node().id, target.span())?;
        }
        target => waiting.push(Node::Expr(target))?,
    }
    Ok(waiting.push(Node::Expr(&set.expr))?)
}

/// Prints a line for each name that is stored and not mentioned.
fn lint(rt: &HostRuntime, source: &str) -> io::Result<()> {
    let alloc = rt.alloc();
    let template = match parse(alloc, source, "page.html", &SyntaxConfig::default()) {
        Ok(template) => template,
        Err(error) => return println!(rt; "{error}"),
    };
    match names_in(alloc, &template) {
        Err(error) => println!(rt; "{error}")?,
        Ok(names) => {
            for (name, span) in &names.stored {
                if !names.mentioned.contains(name) {
                    println!(rt; "{}:{}: unused `{name}`", span.start_line, span.start_col)?;
                }
            }
        }
    }
    Ok(())
}

fn main(rt: HostRuntime) -> io::Result<()> {
    let mut source = String::new(rt.alloc());
    rt.stdin().read_to_string(&mut source)?;
    lint(&rt, &source)
}
