//! Makes the nodes of statements, each on the heap. Refused memory is the only error.
ghost use Rattle.std.specs.Prelude.{◌≡◌, codes, map, IfOk};
ghost use Rattle.std.specs.List.{filter_map};
ghost use Rattle.minijinja_tree.specs.Nodes.{node_of, span_of};
ghost use Rattle.minijinja_tree.specs.SpannedErasure.{any_tree, args_of, bindings_of, expr_node, names_of, params_of, stmt_node};
ghost use Rattle.minijinja_tree.specs.SpannedTrees as tree;
ghost use Rattle.minijinja_tree.specs.SpannedTrees.{macro_of, optional_of, stmts_of};

use crate::expr_nodes::spanned;
use minijinja_syntax::tokens::Span;
use minijinja_tree::ast::{
    AutoEscape, Block, Break, Call, CallBlock, Continue, Do, EmitExpr, EmitRaw, Expr, Extends,
    FilterBlock, ForLoop, FromImport, IfCond, Import, Include, Macro, Set, SetBlock, Spanned, Stmt,
    Template, WithBlock,
};
use minijinja_value::value::TemplateValue;
use std::alloc::{AllocError, Global};

/// The name of the macro of a call block.
const CALLER: &str = "caller";

/// Text as it stands in the source.
pub fn data<'s, V: TemplateValue>(
    alloc: Global,
    raw: &'s str,
    span: Span,
) -> Result<Stmt<'s, V>, AllocError>
    ensures tree { IfOk result (λ s. stmt_node V.contents s ≡ tree.data_text raw.now span) }
{
    Ok(Stmt::EmitRaw(spanned(alloc, EmitRaw { raw }, span)?))
}

/// The output of an expression.
pub fn output<'s, V: TemplateValue>(
    alloc: Global,
    expr: Expr<'s, V>,
    span: Span,
) -> Result<Stmt<'s, V>, AllocError>
    ensures tree { IfOk result
        (λ s. stmt_node V.contents s ≡ tree.output (expr_node V.contents expr.entry) span) }
{
    Ok(Stmt::EmitExpr(spanned(alloc, EmitExpr { expr }, span)?))
}

/// An assignment.
pub fn assignment<'s, V: TemplateValue>(
    alloc: Global,
    set: Set<'s, V>,
    span: Span,
) -> Result<Stmt<'s, V>, AllocError>
    ensures tree { IfOk result (λ s. stmt_node V.contents s ≡ tree.assignment
        (expr_node V.contents set.entry.target) (expr_node V.contents set.entry.expr) span) }
{
    Ok(Stmt::Set(spanned(alloc, set, span)?))
}

/// A template.
pub fn template<'s, V: TemplateValue>(
    alloc: Global,
    children: Vec<Stmt<'s, V>>,
    span: Span,
) -> Result<Stmt<'s, V>, AllocError>
    ensures tree { IfOk result (λ s. stmt_node V.contents s ≡ tree.template
        (stmts_of (map (stmt_node V.contents) children.entry.items)) span) }
{
    Ok(Stmt::Template(spanned(alloc, Template { children }, span)?))
}

/// A loop.
pub fn for_loop<'s, V: TemplateValue>(
    alloc: Global,
    target: Expr<'s, V>,
    iter: Expr<'s, V>,
    filter_expr: Option<Expr<'s, V>>,
    recursive: bool,
    body: Vec<Stmt<'s, V>>,
    else_body: Vec<Stmt<'s, V>>,
    span: Span,
) -> Result<Stmt<'s, V>, AllocError>
    ensures tree { IfOk result (λ s. stmt_node V.contents s ≡ tree.for_loop
        (expr_node V.contents target.entry) (expr_node V.contents iter.entry)
        (optional_of (any_tree V.contents filter_expr.entry)) recursive
        (stmts_of (map (stmt_node V.contents) body.entry.items))
        (stmts_of (map (stmt_node V.contents) else_body.entry.items)) span) }
{
    let node = ForLoop {
        target,
        iter,
        filter_expr,
        recursive,
        body,
        else_body,
    };
    Ok(Stmt::ForLoop(spanned(alloc, node, span)?))
}

/// A condition.
pub fn if_cond<'s, V: TemplateValue>(
    alloc: Global,
    expr: Expr<'s, V>,
    true_body: Vec<Stmt<'s, V>>,
    false_body: Vec<Stmt<'s, V>>,
    span: Span,
) -> Result<Stmt<'s, V>, AllocError>
    ensures tree { IfOk result (λ s. stmt_node V.contents s ≡ tree.if_cond
        (expr_node V.contents expr.entry)
        (stmts_of (map (stmt_node V.contents) true_body.entry.items))
        (stmts_of (map (stmt_node V.contents) false_body.entry.items)) span) }
{
    let node = IfCond {
        expr,
        true_body,
        false_body,
    };
    Ok(Stmt::IfCond(spanned(alloc, node, span)?))
}

/// A scope with assignments.
pub fn with_block<'s, V: TemplateValue>(
    alloc: Global,
    assignments: Vec<(Expr<'s, V>, Expr<'s, V>)>,
    body: Vec<Stmt<'s, V>>,
    span: Span,
) -> Result<Stmt<'s, V>, AllocError>
    ensures tree { IfOk result (λ s. stmt_node V.contents s ≡ tree.with_block
        (bindings_of V.contents assignments.entry.items)
        (stmts_of (map (stmt_node V.contents) body.entry.items)) span) }
{
    Ok(Stmt::WithBlock(spanned(alloc, WithBlock { assignments, body }, span)?))
}

/// An assignment of the output of a body.
pub fn set_block<'s, V: TemplateValue>(
    alloc: Global,
    target: Expr<'s, V>,
    filter: Option<Expr<'s, V>>,
    body: Vec<Stmt<'s, V>>,
    span: Span,
) -> Result<Stmt<'s, V>, AllocError>
    ensures tree { IfOk result (λ s. stmt_node V.contents s ≡ tree.set_block
        (expr_node V.contents target.entry) (optional_of (any_tree V.contents filter.entry))
        (stmts_of (map (stmt_node V.contents) body.entry.items)) span) }
{
    let node = SetBlock {
        target,
        filter,
        body,
    };
    Ok(Stmt::SetBlock(spanned(alloc, node, span)?))
}

/// A body that is escaped or not.
pub fn auto_escape<'s, V: TemplateValue>(
    alloc: Global,
    enabled: Expr<'s, V>,
    body: Vec<Stmt<'s, V>>,
    span: Span,
) -> Result<Stmt<'s, V>, AllocError>
    ensures tree { IfOk result (λ s. stmt_node V.contents s ≡ tree.auto_escape
        (expr_node V.contents enabled.entry)
        (stmts_of (map (stmt_node V.contents) body.entry.items)) span) }
{
    Ok(Stmt::AutoEscape(spanned(alloc, AutoEscape { enabled, body }, span)?))
}

/// Filters on the output of a body.
pub fn filter_block<'s, V: TemplateValue>(
    alloc: Global,
    filter: Expr<'s, V>,
    body: Vec<Stmt<'s, V>>,
    span: Span,
) -> Result<Stmt<'s, V>, AllocError>
    ensures tree { IfOk result (λ s. stmt_node V.contents s ≡ tree.filter_block
        (expr_node V.contents filter.entry)
        (stmts_of (map (stmt_node V.contents) body.entry.items)) span) }
{
    Ok(Stmt::FilterBlock(spanned(alloc, FilterBlock { filter, body }, span)?))
}

/// A block, which another template has to override where it is required.
pub fn named_block<'s, V: TemplateValue>(
    alloc: Global,
    name: &'s str,
    required: bool,
    body: Vec<Stmt<'s, V>>,
    span: Span,
) -> Result<Stmt<'s, V>, AllocError>
    ensures tree { IfOk result (λ s. stmt_node V.contents s ≡ tree.named_block name.now required
        (stmts_of (map (stmt_node V.contents) body.entry.items)) span) }
{
    let node = Block {
        name,
        required,
        body,
    };
    Ok(Stmt::Block(spanned(alloc, node, span)?))
}

/// The template whose blocks this one overrides.
pub fn extends<'s, V: TemplateValue>(
    alloc: Global,
    name: Expr<'s, V>,
    span: Span,
) -> Result<Stmt<'s, V>, AllocError>
    ensures tree { IfOk result
        (λ s. stmt_node V.contents s ≡ tree.extends (expr_node V.contents name.entry) span) }
{
    Ok(Stmt::Extends(spanned(alloc, Extends { name }, span)?))
}

/// A template that is included.
pub fn include<'s, V: TemplateValue>(
    alloc: Global,
    name: Expr<'s, V>,
    ignore_missing: bool,
    span: Span,
) -> Result<Stmt<'s, V>, AllocError>
    ensures tree { IfOk result (λ s. stmt_node V.contents s ≡ tree.include
        (expr_node V.contents name.entry) ignore_missing span) }
{
    let node = Include {
        name,
        ignore_missing,
    };
    Ok(Stmt::Include(spanned(alloc, node, span)?))
}

/// A template whose exports are stored to a target.
pub fn import_all<'s, V: TemplateValue>(
    alloc: Global,
    import: Import<'s, V>,
    span: Span,
) -> Result<Stmt<'s, V>, AllocError>
    ensures tree { IfOk result (λ s. stmt_node V.contents s ≡ tree.import_all
        (expr_node V.contents import.entry.expr) (expr_node V.contents import.entry.name) span) }
{
    Ok(Stmt::Import(spanned(alloc, import, span)?))
}

/// Names that are imported from a template.
pub fn from_import<'s, V: TemplateValue>(
    alloc: Global,
    import: FromImport<'s, V>,
    span: Span,
) -> Result<Stmt<'s, V>, AllocError>
    ensures tree { IfOk result (λ s. stmt_node V.contents s ≡ tree.from_import
        (expr_node V.contents import.entry.expr) (names_of V.contents import.entry.names.items)
        span) }
{
    Ok(Stmt::FromImport(spanned(alloc, import, span)?))
}

/// A macro, with its arguments and their defaults.
fn macro_node<'s, V: TemplateValue>(
    alloc: Global,
    name: &'s str,
    params: Vec<(Expr<'s, V>, Option<Expr<'s, V>>)>,
    body: Vec<Stmt<'s, V>>,
) -> Result<Macro<'s, V>, AllocError>
    ensures name { IfOk result (λ m. m.name.now ≡ name.now) }
    ensures args { IfOk result (λ m. m.args.items ≡ map (λ p. p.0) params.entry.items) }
    ensures defaults { IfOk result
        (λ m. m.defaults.items ≡ filter_map (λ p. p.1) params.entry.items) }
    ensures body { IfOk result (λ m. m.body.items ≡ body.entry.items) }
{
    let mut args = Vec::new(alloc);
    let mut defaults = Vec::new(alloc);
    for (arg, default) in params {
        args.push(arg)?;
        if let Some(default) = default {
            defaults.push(default)?;
        }
    }
    Ok(Macro {
        name,
        args,
        defaults,
        body,
    })
}

/// The declaration of a macro.
pub fn declared<'s, V: TemplateValue>(
    alloc: Global,
    name: &'s str,
    params: Vec<(Expr<'s, V>, Option<Expr<'s, V>>)>,
    body: Vec<Stmt<'s, V>>,
    span: Span,
) -> Result<Stmt<'s, V>, AllocError>
    ensures tree { IfOk result (λ s. stmt_node V.contents s ≡ tree.declare
        (macro_of name.now (params_of V.contents params.entry.items)
        (map (stmt_node V.contents) body.entry.items) span)) }
{
    let node = macro_node(alloc, name, params, body)?;
    Ok(Stmt::Macro(spanned(alloc, node, span)?))
}

/// The output of a call to which a macro is passed. The macro has the span of the statement.
pub fn call_block<'s, V: TemplateValue>(
    alloc: Global,
    call: Spanned<Call<'s, V>>,
    params: Vec<(Expr<'s, V>, Option<Expr<'s, V>>)>,
    body: Vec<Stmt<'s, V>>,
    span: Span,
) -> Result<Stmt<'s, V>, AllocError>
    ensures tree { IfOk result (λ s. stmt_node V.contents s ≡ tree.call_block
        (expr_node V.contents (node_of call.entry).expr)
        (args_of V.contents (node_of call.entry).args.items) (span_of call.entry)
        (macro_of (codes "caller") (params_of V.contents params.entry.items)
        (map (stmt_node V.contents) body.entry.items) span) span) }
{
    let node = macro_node(alloc, CALLER, params, body)?;
    let macro_decl = spanned(alloc, node, span)?;
    Ok(Stmt::CallBlock(spanned(alloc, CallBlock { call, macro_decl }, span)?))
}

/// A call whose result is dropped.
pub fn do_call<'s, V: TemplateValue>(
    alloc: Global,
    call: Spanned<Call<'s, V>>,
    span: Span,
) -> Result<Stmt<'s, V>, AllocError>
    ensures tree { IfOk result (λ s. stmt_node V.contents s ≡ tree.do_call
        (expr_node V.contents (node_of call.entry).expr)
        (args_of V.contents (node_of call.entry).args.items) (span_of call.entry) span) }
{
    Ok(Stmt::Do(spanned(alloc, Do { call }, span)?))
}

/// `break`.
pub fn break_loop<'s, V: TemplateValue>(
    alloc: Global,
    span: Span,
) -> Result<Stmt<'s, V>, AllocError>
    ensures tree { IfOk result (λ s. stmt_node V.contents s ≡ tree.break_loop span) }
{
    Ok(Stmt::Break(spanned(alloc, Break, span)?))
}

/// `continue`.
pub fn continue_loop<'s, V: TemplateValue>(
    alloc: Global,
    span: Span,
) -> Result<Stmt<'s, V>, AllocError>
    ensures tree { IfOk result (λ s. stmt_node V.contents s ≡ tree.continue_loop span) }
{
    Ok(Stmt::Continue(spanned(alloc, Continue, span)?))
}
