//! Instructions of `for` loops.
ghost use Rattle.std.specs.Prelude.{◌≡◌, map, true, OnOk};
ghost use Rattle.minijinja_tree.specs.Erasure.{expr_tree, optional_of, stmt_tree};
ghost use Rattle.minijinja_tree.specs.Tree as tree;
ghost use Rattle.minijinja_tree.specs.Tree.{stmts_of};
ghost use Rattle.minijinja_tree.specs.WellFormed.{IsTarget, IsWhole, IsWholeIfAny, AreInner};
ghost use Rattle.minijinja_tree.specs.SpannedErasure as node;
ghost use Rattle.minijinja_tree.specs.SpannedTrees as spanned;
ghost use Rattle.minijinja_semantics.specs.Marks as marks;
ghost use Rattle.minijinja_code_parts.specs.internal.AtEnclosingLoop.{around_of};
ghost use Rattle.minijinja_emitter.specs.internal.AtEmitter.{made_of, margin_of};
ghost use Rattle.minijinja_code_parts.specs.internal.EnclosingLoops.{FollowsStmt};

use crate::stmt::statements;
use minijinja_code_parts::enclosing_loop::EnclosingLoop;
use minijinja_code_parts::loop_parts::{begin, end_before_else, turn_back};
use minijinja_emitter::emit::Emitter;
use minijinja_emitter::memory::OutOfMemory;
use minijinja_instructions::instructions::Instruction;
use minijinja_syntax::tokens::Span;
use minijinja_tree::ast::ForLoop;
use minijinja_value::value::TemplateValue;

/// Adds a loop: its items, its body and its else body.
#[cycle(stmt)]
pub(crate) fn for_loop<'s, V: TemplateValue>(
    code: &mut Emitter<'s, V>,
    enclosing: &mut EnclosingLoop,
    each: &ForLoop<'s, V>,
    span: Span,
) -> Result<(), OutOfMemory>
    requires target { IsTarget (expr_tree V.contents each.now.target) }
    requires items { IsWhole (expr_tree V.contents each.now.iter) }
    requires only { IsWholeIfAny (optional_of V.contents each.now.filter_expr) }
    requires body { AreInner true (stmts_of (map (stmt_tree V.contents) each.now.body.items)) }
    requires else_body { AreInner (around_of enclosing.old).in_loop
        (stmts_of (map (stmt_tree V.contents) each.now.else_body.items)) }
    ensures added { OnOk result (FollowsStmt V.functions
        (around_of enclosing.old) (made_of V.contents code.old)
        (around_of enclosing.new) (made_of V.contents code.new)
        (tree.for_loop tt (expr_tree V.contents each.now.target)
        (expr_tree V.contents each.now.iter)
        (optional_of V.contents each.now.filter_expr) each.now.recursive
        (stmts_of (map (stmt_tree V.contents) each.now.body.items))
        (stmts_of (map (stmt_tree V.contents) each.now.else_body.items)))) }
    ensures marked { OnOk result (margin_of code.new ≡ marks.stmt V.functions
        (around_of enclosing.old).opened
        (spanned.for_loop (node.expr_node V.contents each.now.target)
        (node.expr_node V.contents each.now.iter)
        (node.optional_of V.contents each.now.filter_expr) each.now.recursive
        (spanned.stmts_of (node.stmt_nodes V.contents each.now.body.items))
        (spanned.stmts_of (node.stmt_nodes V.contents each.now.else_body.items)) span)
        (margin_of code.old)) }
{
    code.on_line(span);
    let mut inner = begin(code, each, enclosing.data_bytes())?;
    statements(code, &mut inner, &each.body)?;
    turn_back(code, inner.iterate(), inner.breaks())?;
    enclosing.go_on(inner.data_bytes());
    if each.else_body.is_empty() {
        return code.add(Instruction::PopLoopFrame);
    }
    let came = end_before_else(code)?;
    statements(code, enclosing, &each.else_body)?;
    code.fill(came, Instruction::JumpIfFalse(code.here()));
    Ok(())
}
