//! Statements of their parts. Refused memory is the only error.
//!
//! Each kind of statement has the parts that it needs. Parts are taken out of where they stand, so
//! that no function has to drop those that it does not use.
#![tactic(auto, unfolding(minijinja_parser_stmt::specs::internal::Made::statement_tree))]

ghost use Rattle.std.specs.Prelude.{◌≡◌, IfOk, IsSome, Some, true};
ghost use Rattle.minijinja_tree_expr.specs.declared.ast.Expr.TheVariants as exprs;
ghost use Rattle.minijinja_tree.specs.SpannedErasure.{expr_node, stmt_node};
ghost use Rattle.minijinja_parser_stmt.specs.internal.Made.{HasParts, is_call, statement_tree};
ghost use Rattle.minijinja_parser_stmt.specs.declared.builder.Kind.TheVariants as kind;

use minijinja_nodes::stmt_nodes;
use minijinja_parser_stmt::builder::{Kind, StatementParts};
use minijinja_syntax::tokens::Span;
use minijinja_tree::ast::{Call, Expr, FromImport, Import, Set, Spanned, Stmt};
use minijinja_value::value::TemplateValue;
use std::alloc::{AllocError, Global};
use std::mem;

/// An assignment.
fn assignment<'s, V: TemplateValue>(
    alloc: Global,
    parts: &mut StatementParts<&'s str, Expr<'s, V>, Stmt<'s, V>>,
    span: Span,
) -> Result<Stmt<'s, V>, AllocError>
    requires kind { parts.old.kind ≡ kind.Set }
    requires target { IsSome parts.old.target }
    requires expr { IsSome parts.old.expr }
    ensures tree { IfOk result (λ s. stmt_node V.contents s ≡ statement_tree (λ x. x.now)
        (expr_node V.contents) (stmt_node V.contents) parts.old span) }
{
    let target = parts.target.take().unwrap();
    let expr = parts.expr.take().unwrap();
    stmt_nodes::assignment(alloc, Set { target, expr }, span)
}

/// A template.
fn template<'s, V: TemplateValue>(
    alloc: Global,
    parts: &mut StatementParts<&'s str, Expr<'s, V>, Stmt<'s, V>>,
    span: Span,
) -> Result<Stmt<'s, V>, AllocError>
    requires kind { parts.old.kind ≡ kind.Template }
    ensures tree { IfOk result (λ s. stmt_node V.contents s ≡ statement_tree (λ x. x.now)
        (expr_node V.contents) (stmt_node V.contents) parts.old span) }
{
    stmt_nodes::template(alloc, taken(alloc, &mut parts.body), span)
}

/// A loop.
fn for_loop<'s, V: TemplateValue>(
    alloc: Global,
    parts: &mut StatementParts<&'s str, Expr<'s, V>, Stmt<'s, V>>,
    span: Span,
) -> Result<Stmt<'s, V>, AllocError>
    requires kind { parts.old.kind ≡ kind.For }
    requires target { IsSome parts.old.target }
    requires expr { IsSome parts.old.expr }
    ensures tree { IfOk result (λ s. stmt_node V.contents s ≡ statement_tree (λ x. x.now)
        (expr_node V.contents) (stmt_node V.contents) parts.old span) }
{
    let target = parts.target.take().unwrap();
    let iter = parts.expr.take().unwrap();
    let filter = parts.filter.take();
    let body = taken(alloc, &mut parts.body);
    let else_body = taken(alloc, &mut parts.else_body);
    stmt_nodes::for_loop(
        alloc,
        target,
        iter,
        filter,
        parts.recursive,
        body,
        else_body,
        span,
    )
}

/// A condition.
fn if_cond<'s, V: TemplateValue>(
    alloc: Global,
    parts: &mut StatementParts<&'s str, Expr<'s, V>, Stmt<'s, V>>,
    span: Span,
) -> Result<Stmt<'s, V>, AllocError>
    requires kind { parts.old.kind ≡ kind.If }
    requires expr { IsSome parts.old.expr }
    ensures tree { IfOk result (λ s. stmt_node V.contents s ≡ statement_tree (λ x. x.now)
        (expr_node V.contents) (stmt_node V.contents) parts.old span) }
{
    let expr = parts.expr.take().unwrap();
    let body = taken(alloc, &mut parts.body);
    let else_body = taken(alloc, &mut parts.else_body);
    stmt_nodes::if_cond(alloc, expr, body, else_body, span)
}

/// A scope with assignments.
fn with_block<'s, V: TemplateValue>(
    alloc: Global,
    parts: &mut StatementParts<&'s str, Expr<'s, V>, Stmt<'s, V>>,
    span: Span,
) -> Result<Stmt<'s, V>, AllocError>
    requires kind { parts.old.kind ≡ kind.With }
    ensures tree { IfOk result (λ s. stmt_node V.contents s ≡ statement_tree (λ x. x.now)
        (expr_node V.contents) (stmt_node V.contents) parts.old span) }
{
    let assignments = taken(alloc, &mut parts.assignments);
    stmt_nodes::with_block(alloc, assignments, taken(alloc, &mut parts.body), span)
}

/// An assignment of the output of a body.
fn set_block<'s, V: TemplateValue>(
    alloc: Global,
    parts: &mut StatementParts<&'s str, Expr<'s, V>, Stmt<'s, V>>,
    span: Span,
) -> Result<Stmt<'s, V>, AllocError>
    requires kind { parts.old.kind ≡ kind.SetBlock }
    requires target { IsSome parts.old.target }
    ensures tree { IfOk result (λ s. stmt_node V.contents s ≡ statement_tree (λ x. x.now)
        (expr_node V.contents) (stmt_node V.contents) parts.old span) }
{
    let target = parts.target.take().unwrap();
    let body = taken(alloc, &mut parts.body);
    stmt_nodes::set_block(alloc, target, parts.filter.take(), body, span)
}

/// A body that is escaped or not.
fn auto_escape<'s, V: TemplateValue>(
    alloc: Global,
    parts: &mut StatementParts<&'s str, Expr<'s, V>, Stmt<'s, V>>,
    span: Span,
) -> Result<Stmt<'s, V>, AllocError>
    requires kind { parts.old.kind ≡ kind.AutoEscape }
    requires expr { IsSome parts.old.expr }
    ensures tree { IfOk result (λ s. stmt_node V.contents s ≡ statement_tree (λ x. x.now)
        (expr_node V.contents) (stmt_node V.contents) parts.old span) }
{
    let expr = parts.expr.take().unwrap();
    stmt_nodes::auto_escape(alloc, expr, taken(alloc, &mut parts.body), span)
}

/// Filters on the output of a body.
fn filter_block<'s, V: TemplateValue>(
    alloc: Global,
    parts: &mut StatementParts<&'s str, Expr<'s, V>, Stmt<'s, V>>,
    span: Span,
) -> Result<Stmt<'s, V>, AllocError>
    requires kind { parts.old.kind ≡ kind.FilterBlock }
    requires expr { IsSome parts.old.expr }
    ensures tree { IfOk result (λ s. stmt_node V.contents s ≡ statement_tree (λ x. x.now)
        (expr_node V.contents) (stmt_node V.contents) parts.old span) }
{
    let expr = parts.expr.take().unwrap();
    stmt_nodes::filter_block(alloc, expr, taken(alloc, &mut parts.body), span)
}

/// A block.
fn named_block<'s, V: TemplateValue>(
    alloc: Global,
    parts: &mut StatementParts<&'s str, Expr<'s, V>, Stmt<'s, V>>,
    span: Span,
) -> Result<Stmt<'s, V>, AllocError>
    requires kind { parts.old.kind ≡ kind.Block }
    requires name { IsSome parts.old.name }
    ensures tree { IfOk result (λ s. stmt_node V.contents s ≡ statement_tree (λ x. x.now)
        (expr_node V.contents) (stmt_node V.contents) parts.old span) }
{
    let name = parts.name.unwrap();
    let body = taken(alloc, &mut parts.body);
    stmt_nodes::named_block(alloc, name, parts.required, body, span)
}

/// The template whose blocks this one overrides.
fn extends<'s, V: TemplateValue>(
    alloc: Global,
    parts: &mut StatementParts<&'s str, Expr<'s, V>, Stmt<'s, V>>,
    span: Span,
) -> Result<Stmt<'s, V>, AllocError>
    requires kind { parts.old.kind ≡ kind.Extends }
    requires expr { IsSome parts.old.expr }
    ensures tree { IfOk result (λ s. stmt_node V.contents s ≡ statement_tree (λ x. x.now)
        (expr_node V.contents) (stmt_node V.contents) parts.old span) }
{
    stmt_nodes::extends(alloc, parts.expr.take().unwrap(), span)
}

/// A template that is included.
fn include<'s, V: TemplateValue>(
    alloc: Global,
    parts: &mut StatementParts<&'s str, Expr<'s, V>, Stmt<'s, V>>,
    span: Span,
) -> Result<Stmt<'s, V>, AllocError>
    requires kind { parts.old.kind ≡ kind.Include }
    requires expr { IsSome parts.old.expr }
    ensures tree { IfOk result (λ s. stmt_node V.contents s ≡ statement_tree (λ x. x.now)
        (expr_node V.contents) (stmt_node V.contents) parts.old span) }
{
    stmt_nodes::include(
        alloc,
        parts.expr.take().unwrap(),
        parts.ignore_missing,
        span,
    )
}

/// A template whose exports are stored to a target.
fn import_all<'s, V: TemplateValue>(
    alloc: Global,
    parts: &mut StatementParts<&'s str, Expr<'s, V>, Stmt<'s, V>>,
    span: Span,
) -> Result<Stmt<'s, V>, AllocError>
    requires kind { parts.old.kind ≡ kind.Import }
    requires target { IsSome parts.old.target }
    requires expr { IsSome parts.old.expr }
    ensures tree { IfOk result (λ s. stmt_node V.contents s ≡ statement_tree (λ x. x.now)
        (expr_node V.contents) (stmt_node V.contents) parts.old span) }
{
    let name = parts.target.take().unwrap();
    let expr = parts.expr.take().unwrap();
    stmt_nodes::import_all(alloc, Import { expr, name }, span)
}

/// Names that are imported from a template.
fn from_import<'s, V: TemplateValue>(
    alloc: Global,
    parts: &mut StatementParts<&'s str, Expr<'s, V>, Stmt<'s, V>>,
    span: Span,
) -> Result<Stmt<'s, V>, AllocError>
    requires kind { parts.old.kind ≡ kind.FromImport }
    requires expr { IsSome parts.old.expr }
    ensures tree { IfOk result (λ s. stmt_node V.contents s ≡ statement_tree (λ x. x.now)
        (expr_node V.contents) (stmt_node V.contents) parts.old span) }
{
    let expr = parts.expr.take().unwrap();
    let names = taken(alloc, &mut parts.names);
    stmt_nodes::from_import(alloc, FromImport { expr, names }, span)
}

/// A macro.
fn declared<'s, V: TemplateValue>(
    alloc: Global,
    parts: &mut StatementParts<&'s str, Expr<'s, V>, Stmt<'s, V>>,
    span: Span,
) -> Result<Stmt<'s, V>, AllocError>
    requires kind { parts.old.kind ≡ kind.Macro }
    requires name { IsSome parts.old.name }
    ensures tree { IfOk result (λ s. stmt_node V.contents s ≡ statement_tree (λ x. x.now)
        (expr_node V.contents) (stmt_node V.contents) parts.old span) }
{
    let name = parts.name.unwrap();
    let names = taken(alloc, &mut parts.names);
    stmt_nodes::declared(alloc, name, names, taken(alloc, &mut parts.body), span)
}

/// The output of a call to which a macro is passed.
fn call_block<'s, V: TemplateValue>(
    alloc: Global,
    parts: &mut StatementParts<&'s str, Expr<'s, V>, Stmt<'s, V>>,
    span: Span,
) -> Result<Stmt<'s, V>, AllocError>
    requires kind { parts.old.kind ≡ kind.CallBlock }
    requires call { is_call (expr_node V.contents) parts.old.expr ≡ true }
    ensures tree { IfOk result (λ s. stmt_node V.contents s ≡ statement_tree (λ x. x.now)
        (expr_node V.contents) (stmt_node V.contents) parts.old span) }
{
    let call = call_of(parts.expr.take());
    let names = taken(alloc, &mut parts.names);
    stmt_nodes::call_block(alloc, call, names, taken(alloc, &mut parts.body), span)
}

/// A call whose result is dropped.
fn do_call<'s, V: TemplateValue>(
    alloc: Global,
    parts: &mut StatementParts<&'s str, Expr<'s, V>, Stmt<'s, V>>,
    span: Span,
) -> Result<Stmt<'s, V>, AllocError>
    requires kind { parts.old.kind ≡ kind.Do }
    requires call { is_call (expr_node V.contents) parts.old.expr ≡ true }
    ensures tree { IfOk result (λ s. stmt_node V.contents s ≡ statement_tree (λ x. x.now)
        (expr_node V.contents) (stmt_node V.contents) parts.old span) }
{
    stmt_nodes::do_call(alloc, call_of(parts.expr.take()), span)
}

/// The call that an expression is.
#[tactic(auto, using(crate::proofs::Calls::some_expr, crate::proofs::Calls::some_node))]
fn call_of<'s, V: TemplateValue>(expr: Option<Expr<'s, V>>) -> Spanned<Call<'s, V>>
    requires { is_call (expr_node V.contents) expr ≡ true }
    ensures { expr.entry ≡ Some (exprs.Call result) }
{
    expr.unwrap().into_call().unwrap()
}

/// A list, which is replaced by an empty one.
fn taken<T: Drop>(alloc: Global, list: &mut Vec<T>) -> Vec<T>
    ensures { result.items ≡ list.old.items }
{
    mem::replace(list, Vec::new(alloc))
}

/// The statement that is made of the parts, which are taken out.
#[tactic(auto, unfolding(minijinja_parser_stmt::specs::internal::Made::HasParts, minijinja_parser_stmt::specs::internal::Made::statement_tree))]
#[inline(never)]
pub fn statement<'s, V: TemplateValue>(
    alloc: Global,
    parts: &mut StatementParts<&'s str, Expr<'s, V>, Stmt<'s, V>>,
    span: Span,
) -> Result<Stmt<'s, V>, AllocError>
    requires { HasParts (expr_node V.contents) parts.old }
    ensures tree { IfOk result (λ s. stmt_node V.contents s ≡ statement_tree (λ x. x.now)
        (expr_node V.contents) (stmt_node V.contents) parts.old span) }
{
    match parts.kind {
        Kind::Set => assignment(alloc, parts, span),
        Kind::Template => template(alloc, parts, span),
        Kind::For => for_loop(alloc, parts, span),
        Kind::If => if_cond(alloc, parts, span),
        Kind::With => with_block(alloc, parts, span),
        Kind::SetBlock => set_block(alloc, parts, span),
        Kind::AutoEscape => auto_escape(alloc, parts, span),
        Kind::FilterBlock => filter_block(alloc, parts, span),
        Kind::Block => named_block(alloc, parts, span),
        Kind::Extends => extends(alloc, parts, span),
        Kind::Include => include(alloc, parts, span),
        Kind::Import => import_all(alloc, parts, span),
        Kind::FromImport => from_import(alloc, parts, span),
        Kind::Macro => declared(alloc, parts, span),
        Kind::CallBlock => call_block(alloc, parts, span),
        Kind::Do => do_call(alloc, parts, span),
        Kind::Break => stmt_nodes::break_loop(alloc, span),
        Kind::Continue => stmt_nodes::continue_loop(alloc, span),
    }
}
