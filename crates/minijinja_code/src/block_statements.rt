//! Instructions of `with`, `set`, `filter` and `autoescape` blocks.
ghost use Rattle.std.specs.Prelude.{◌≡◌, map, OnOk};
ghost use Rattle.minijinja_tree.specs.Erasure.{expr_tree, optional_of, assignments_of, stmt_tree};
ghost use Rattle.minijinja_tree.specs.Tree as tree;
ghost use Rattle.minijinja_tree.specs.Tree.{stmts_of};
ghost use Rattle.minijinja_tree.specs.WellFormed.{IsTarget, IsWhole, IsChainOfFilters, IsChainIfAny, AreAssignments, AreInner};
ghost use Rattle.minijinja_tree.specs.SpannedErasure as node;
ghost use Rattle.minijinja_tree.specs.SpannedTrees as spanned;
ghost use Rattle.minijinja_semantics.specs.Layout as layout;
ghost use Rattle.minijinja_semantics.specs.Marks as marks;
ghost use Rattle.minijinja_emitter.specs.internal.AtEmitter.{made_of, margin_of};
ghost use Rattle.minijinja_code_parts.specs.internal.AtEnclosingLoop.{around_of, open_of};
ghost use Rattle.minijinja_code_parts.specs.internal.EnclosingLoops.{opening, Follows, FollowsStmt};
ghost use Rattle.minijinja_code_parts.specs.Hint.{all_data_bytes};

use crate::stmt::statements;
use minijinja_code_expr::expr::expression;
use minijinja_code_parts::block_parts::{begin_scope, end_filter_block, end_set_block};
use minijinja_code_parts::enclosing_loop::{EnclosingLoop, Open};
use minijinja_emitter::emit::Emitter;
use minijinja_emitter::memory::OutOfMemory;
use minijinja_instructions::instructions::{CaptureMode, Instruction};
use minijinja_syntax::tokens::Span;
use minijinja_tree::ast::{AutoEscape, FilterBlock, SetBlock, Stmt, WithBlock};
use minijinja_value::value::TemplateValue;

/// Adds a body, within what was opened for it.
#[cycle(stmt)]
fn body<'s, V: TemplateValue>(
    code: &mut Emitter<'s, V>,
    enclosing: &mut EnclosingLoop,
    entered: Open,
    stmts: &[Stmt<'s, V>],
) -> Result<(), OutOfMemory>
    requires { AreInner (around_of enclosing.old).in_loop
        (stmts_of (map (stmt_tree V.contents) stmts.now)) }
    ensures added { OnOk result (Follows
        (around_of enclosing.old) (made_of V.contents code.old)
        (around_of enclosing.new) (made_of V.contents code.new)
        (all_data_bytes (stmts_of (map (stmt_tree V.contents) stmts.now)))
        (layout.stmts V.functions (opening (open_of entered) (around_of enclosing.old)).opened
        (stmts_of (map (stmt_tree V.contents) stmts.now)))) }
    ensures marked { OnOk result (margin_of code.new ≡ marks.stmts V.functions
        (opening (open_of entered) (around_of enclosing.old)).opened
        (spanned.stmts_of (node.stmt_nodes V.contents stmts.now)) (margin_of code.old)) }
{
    enclosing.enter(entered)?;
    statements(code, enclosing, stmts)?;
    enclosing.leave();
    Ok(())
}

/// Adds a `with` block.
#[cycle(stmt)]
pub(crate) fn with_block<'s, V: TemplateValue>(
    code: &mut Emitter<'s, V>,
    enclosing: &mut EnclosingLoop,
    block: &WithBlock<'s, V>,
    span: Span,
) -> Result<(), OutOfMemory>
    requires assignments { AreAssignments (assignments_of V.contents block.now.assignments.items) }
    requires body { AreInner (around_of enclosing.old).in_loop
        (stmts_of (map (stmt_tree V.contents) block.now.body.items)) }
    ensures added { OnOk result (FollowsStmt V.functions
        (around_of enclosing.old) (made_of V.contents code.old)
        (around_of enclosing.new) (made_of V.contents code.new)
        (tree.with_block (assignments_of V.contents block.now.assignments.items)
        (stmts_of (map (stmt_tree V.contents) block.now.body.items)))) }
    ensures marked { OnOk result (margin_of code.new ≡ marks.stmt V.functions
        (around_of enclosing.old).opened
        (spanned.with_block (node.bindings_of V.contents block.now.assignments.items)
        (spanned.stmts_of (node.stmt_nodes V.contents block.now.body.items)) span)
        (margin_of code.old)) }
{
    code.on_line(span);
    begin_scope(code, &block.assignments)?;
    body(code, enclosing, Open::Scope, &block.body)?;
    code.add(Instruction::PopFrame)
}

/// Adds a `set` block: its output goes through filters to a target.
#[cycle(stmt)]
pub(crate) fn set_block<'s, V: TemplateValue>(
    code: &mut Emitter<'s, V>,
    enclosing: &mut EnclosingLoop,
    block: &SetBlock<'s, V>,
    span: Span,
) -> Result<(), OutOfMemory>
    requires target { IsTarget (expr_tree V.contents block.now.target) }
    requires chain { IsChainIfAny (optional_of V.contents block.now.filter) }
    requires body { AreInner (around_of enclosing.old).in_loop
        (stmts_of (map (stmt_tree V.contents) block.now.body.items)) }
    ensures added { OnOk result (FollowsStmt V.functions
        (around_of enclosing.old) (made_of V.contents code.old)
        (around_of enclosing.new) (made_of V.contents code.new)
        (tree.set_block (expr_tree V.contents block.now.target)
        (optional_of V.contents block.now.filter)
        (stmts_of (map (stmt_tree V.contents) block.now.body.items)))) }
    ensures marked { OnOk result (margin_of code.new ≡ marks.stmt V.functions
        (around_of enclosing.old).opened
        (spanned.set_block (node.expr_node V.contents block.now.target)
        (node.optional_of V.contents block.now.filter)
        (spanned.stmts_of (node.stmt_nodes V.contents block.now.body.items)) span)
        (margin_of code.old)) }
{
    code.on_line(span);
    code.add(Instruction::BeginCapture(CaptureMode::Capture))?;
    body(code, enclosing, Open::Capture, &block.body)?;
    end_set_block(code, block)
}

/// Adds an `autoescape` block.
#[cycle(stmt)]
pub(crate) fn auto_escape<'s, V: TemplateValue>(
    code: &mut Emitter<'s, V>,
    enclosing: &mut EnclosingLoop,
    block: &AutoEscape<'s, V>,
    span: Span,
) -> Result<(), OutOfMemory>
    requires enabled { IsWhole (expr_tree V.contents block.now.enabled) }
    requires body { AreInner (around_of enclosing.old).in_loop
        (stmts_of (map (stmt_tree V.contents) block.now.body.items)) }
    ensures added { OnOk result (FollowsStmt V.functions
        (around_of enclosing.old) (made_of V.contents code.old)
        (around_of enclosing.new) (made_of V.contents code.new)
        (tree.auto_escape (expr_tree V.contents block.now.enabled)
        (stmts_of (map (stmt_tree V.contents) block.now.body.items)))) }
    ensures marked { OnOk result (margin_of code.new ≡ marks.stmt V.functions
        (around_of enclosing.old).opened
        (spanned.auto_escape (node.expr_node V.contents block.now.enabled)
        (spanned.stmts_of (node.stmt_nodes V.contents block.now.body.items)) span)
        (margin_of code.old)) }
{
    code.on_line(span);
    expression(code, &block.enabled)?;
    code.add(Instruction::PushAutoEscape)?;
    body(code, enclosing, Open::AutoEscape, &block.body)?;
    code.add(Instruction::PopAutoEscape)
}

/// Adds a `filter` block: its output goes through filters.
#[cycle(stmt)]
pub(crate) fn filter_block<'s, V: TemplateValue>(
    code: &mut Emitter<'s, V>,
    enclosing: &mut EnclosingLoop,
    block: &FilterBlock<'s, V>,
    span: Span,
) -> Result<(), OutOfMemory>
    requires chain { IsChainOfFilters (expr_tree V.contents block.now.filter) }
    requires body { AreInner (around_of enclosing.old).in_loop
        (stmts_of (map (stmt_tree V.contents) block.now.body.items)) }
    ensures added { OnOk result (FollowsStmt V.functions
        (around_of enclosing.old) (made_of V.contents code.old)
        (around_of enclosing.new) (made_of V.contents code.new)
        (tree.filter_block (expr_tree V.contents block.now.filter)
        (stmts_of (map (stmt_tree V.contents) block.now.body.items)))) }
    ensures marked { OnOk result (margin_of code.new ≡ marks.stmt V.functions
        (around_of enclosing.old).opened
        (spanned.filter_block (node.expr_node V.contents block.now.filter)
        (spanned.stmts_of (node.stmt_nodes V.contents block.now.body.items)) span)
        (margin_of code.old)) }
{
    code.on_line(span);
    code.add(Instruction::BeginCapture(CaptureMode::Capture))?;
    body(code, enclosing, Open::Capture, &block.body)?;
    end_filter_block(code, &block.filter)
}
