//! The nodes of a template's tree. A node borrows from the source alone.
pub use minijinja_tree_expr::ast::{
    BinOp, BinOpKind, Call, CallArg, CallType, Compare, CompareOp, CompareOpKind, Const, Expr,
    Filter, GetAttr, GetItem, IfExpr, List, MOST_ARGUMENTS, Map, Slice, Spanned, Test, Tuple,
    UnaryOp, UnaryOpKind, Var,
};
use minijinja_value::value::{TemplateValue, Value};

/// A statement.
#[cycle(stmt)]
pub enum Stmt<'s, V: TemplateValue = Value> {
    Template(Spanned<Template<'s, V>>),
    EmitExpr(Spanned<EmitExpr<'s, V>>),
    EmitRaw(Spanned<EmitRaw<'s>>),
    ForLoop(Spanned<ForLoop<'s, V>>),
    IfCond(Spanned<IfCond<'s, V>>),
    WithBlock(Spanned<WithBlock<'s, V>>),
    Set(Spanned<Set<'s, V>>),
    SetBlock(Spanned<SetBlock<'s, V>>),
    AutoEscape(Spanned<AutoEscape<'s, V>>),
    FilterBlock(Spanned<FilterBlock<'s, V>>),
    Block(Spanned<Block<'s, V>>),
    Import(Spanned<Import<'s, V>>),
    FromImport(Spanned<FromImport<'s, V>>),
    Extends(Spanned<Extends<'s, V>>),
    Include(Spanned<Include<'s, V>>),
    Macro(Spanned<Macro<'s, V>>),
    CallBlock(Spanned<CallBlock<'s, V>>),
    Continue(Spanned<Continue>),
    Break(Spanned<Break>),
    Do(Spanned<Do<'s, V>>),
}

/// Written by hand, so that code which drops a statement calls this function, and the drops of all
/// kinds of nodes are proved here alone. A node that holds statements is moved off the heap before
/// it is dropped: dropping its box would pass the node's drop to a generic call, and so make a
/// function of the cycle for each of these kinds.
impl<'s, V: TemplateValue> Drop for Stmt<'s, V> {
    #[cycle(stmt)]
    fn drop(self) {
        match self {
            Stmt::Template(spanned) => {
                let _node = spanned.into_node();
            }
            Stmt::EmitExpr(_) => {}
            Stmt::EmitRaw(_) => {}
            Stmt::ForLoop(spanned) => {
                let _node = spanned.into_node();
            }
            Stmt::IfCond(spanned) => {
                let _node = spanned.into_node();
            }
            Stmt::WithBlock(spanned) => {
                let _node = spanned.into_node();
            }
            Stmt::Set(_) => {}
            Stmt::SetBlock(spanned) => {
                let _node = spanned.into_node();
            }
            Stmt::AutoEscape(spanned) => {
                let _node = spanned.into_node();
            }
            Stmt::FilterBlock(spanned) => {
                let _node = spanned.into_node();
            }
            Stmt::Block(spanned) => {
                let _node = spanned.into_node();
            }
            Stmt::Import(_) => {}
            Stmt::FromImport(_) => {}
            Stmt::Extends(_) => {}
            Stmt::Include(_) => {}
            Stmt::Macro(spanned) => {
                let _node = spanned.into_node();
            }
            Stmt::CallBlock(spanned) => {
                let _node = spanned.into_node();
            }
            Stmt::Continue(_) => {}
            Stmt::Break(_) => {}
            Stmt::Do(_) => {}
        }
    }
}

/// A whole template.
#[cycle(stmt)]
#[derive(Drop)]
pub struct Template<'s, V: TemplateValue = Value> {
    pub children: Vec<Stmt<'s, V>>,
}

/// The output of an expression: `{{ expr }}`.
#[derive(Drop)]
pub struct EmitExpr<'s, V: TemplateValue = Value> {
    pub expr: Expr<'s, V>,
}

/// The output of text outside of tags.
#[derive(Drop)]
pub struct EmitRaw<'s> {
    pub raw: &'s str,
}

/// A loop: `{% for target in iter %}`. It runs its body for the items that pass `filter_expr`, and
/// its else body where there are none.
#[cycle(stmt)]
#[derive(Drop)]
pub struct ForLoop<'s, V: TemplateValue = Value> {
    pub target: Expr<'s, V>,
    pub iter: Expr<'s, V>,
    pub filter_expr: Option<Expr<'s, V>>,
    pub recursive: bool,
    pub body: Vec<Stmt<'s, V>>,
    pub else_body: Vec<Stmt<'s, V>>,
}

/// A condition: `{% if expr %}`. An `elif` is a false body that holds one condition.
#[cycle(stmt)]
#[derive(Drop)]
pub struct IfCond<'s, V: TemplateValue = Value> {
    pub expr: Expr<'s, V>,
    pub true_body: Vec<Stmt<'s, V>>,
    pub false_body: Vec<Stmt<'s, V>>,
}

/// A scope with variables of its own: `{% with target = expr %}`.
#[cycle(stmt)]
#[derive(Drop)]
pub struct WithBlock<'s, V: TemplateValue = Value> {
    pub assignments: Vec<(Expr<'s, V>, Expr<'s, V>)>,
    pub body: Vec<Stmt<'s, V>>,
}

/// An assignment: `{% set target = expr %}`.
#[derive(Drop)]
pub struct Set<'s, V: TemplateValue = Value> {
    pub target: Expr<'s, V>,
    pub expr: Expr<'s, V>,
}

/// An assignment of the output of a body: `{% set target | filter %}`.
#[cycle(stmt)]
#[derive(Drop)]
pub struct SetBlock<'s, V: TemplateValue = Value> {
    pub target: Expr<'s, V>,
    pub filter: Option<Expr<'s, V>>,
    pub body: Vec<Stmt<'s, V>>,
}

/// A body that is escaped or not: `{% autoescape enabled %}`.
#[cycle(stmt)]
#[derive(Drop)]
pub struct AutoEscape<'s, V: TemplateValue = Value> {
    pub enabled: Expr<'s, V>,
    pub body: Vec<Stmt<'s, V>>,
}

/// Filters on the output of a body: `{% filter filter %}`.
#[cycle(stmt)]
#[derive(Drop)]
pub struct FilterBlock<'s, V: TemplateValue = Value> {
    pub filter: Expr<'s, V>,
    pub body: Vec<Stmt<'s, V>>,
}

/// A part that another template may override: `{% block name %}`. A required block has to be
/// overridden.
#[cycle(stmt)]
#[derive(Drop)]
pub struct Block<'s, V: TemplateValue = Value> {
    pub name: &'s str,
    pub required: bool,
    pub body: Vec<Stmt<'s, V>>,
}

/// The template whose blocks this one overrides: `{% extends name %}`.
#[derive(Drop)]
pub struct Extends<'s, V: TemplateValue = Value> {
    pub name: Expr<'s, V>,
}

/// A template that is included: `{% include name %}`.
#[derive(Drop)]
pub struct Include<'s, V: TemplateValue = Value> {
    pub name: Expr<'s, V>,
    pub ignore_missing: bool,
}

/// A template whose exports are stored to a target: `{% import expr as name %}`.
#[derive(Drop)]
pub struct Import<'s, V: TemplateValue = Value> {
    pub expr: Expr<'s, V>,
    pub name: Expr<'s, V>,
}

/// Names that are imported from a template, each with its alias, if it has one:
/// `{% from expr import names %}`.
#[derive(Drop)]
pub struct FromImport<'s, V: TemplateValue = Value> {
    pub expr: Expr<'s, V>,
    pub names: Vec<(Expr<'s, V>, Option<Expr<'s, V>>)>,
}

/// A macro: `{% macro name(args) %}`. The defaults are those of the last arguments.
#[cycle(stmt)]
#[derive(Drop)]
pub struct Macro<'s, V: TemplateValue = Value> {
    pub name: &'s str,
    pub args: Vec<Expr<'s, V>>,
    pub defaults: Vec<Expr<'s, V>>,
    pub body: Vec<Stmt<'s, V>>,
}

/// The output of a call to which a macro is passed: `{% call(args) call %}`.
#[cycle(stmt)]
#[derive(Drop)]
pub struct CallBlock<'s, V: TemplateValue = Value> {
    pub call: Spanned<Call<'s, V>>,
    pub macro_decl: Spanned<Macro<'s, V>>,
}

/// A call whose result is dropped: `{% do call %}`.
#[derive(Drop)]
pub struct Do<'s, V: TemplateValue = Value> {
    pub call: Spanned<Call<'s, V>>,
}

/// Goes on to the loop's next item: `{% continue %}`.
#[derive(Drop)]
pub struct Continue;

/// Leaves the loop: `{% break %}`.
#[derive(Drop)]
pub struct Break;
