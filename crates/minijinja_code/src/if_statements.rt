//! Instructions of `if` statements.
ghost use Rattle.std.specs.Prelude.{◌≡◌, map, OnOk};
ghost use Rattle.minijinja_tree.specs.Erasure.{expr_tree, stmt_tree};
ghost use Rattle.minijinja_tree.specs.Tree as tree;
ghost use Rattle.minijinja_tree.specs.Tree.{stmts_of};
ghost use Rattle.minijinja_tree.specs.WellFormed.{IsWhole, AreInner};
ghost use Rattle.minijinja_tree.specs.SpannedErasure as node;
ghost use Rattle.minijinja_tree.specs.SpannedTrees as spanned;
ghost use Rattle.minijinja_semantics.specs.Marks as marks;
ghost use Rattle.minijinja_code_parts.specs.internal.AtEnclosingLoop.{around_of};
ghost use Rattle.minijinja_emitter.specs.internal.AtEmitter.{made_of, margin_of};
ghost use Rattle.minijinja_code_parts.specs.internal.EnclosingLoops.{FollowsStmt};

use crate::stmt::statements;
use minijinja_code_expr::branches::{begin_else, end_else};
use minijinja_code_parts::enclosing_loop::EnclosingLoop;
use minijinja_code_parts::if_parts::begin;
use minijinja_emitter::emit::Emitter;
use minijinja_emitter::memory::OutOfMemory;
use minijinja_instructions::instructions::Instruction;
use minijinja_syntax::tokens::Span;
use minijinja_tree::ast::IfCond;
use minijinja_value::value::TemplateValue;

/// Adds an `if` statement: its test, its true body, and its false body if it has any statement.
#[cycle(stmt)]
pub(crate) fn condition<'s, V: TemplateValue>(
    code: &mut Emitter<'s, V>,
    enclosing: &mut EnclosingLoop,
    choice: &IfCond<'s, V>,
    span: Span,
) -> Result<(), OutOfMemory>
    requires test { IsWhole (expr_tree V.contents choice.now.expr) }
    requires yes { AreInner (around_of enclosing.old).in_loop
        (stmts_of (map (stmt_tree V.contents) choice.now.true_body.items)) }
    requires no { AreInner (around_of enclosing.old).in_loop
        (stmts_of (map (stmt_tree V.contents) choice.now.false_body.items)) }
    ensures added { OnOk result (FollowsStmt V.functions
        (around_of enclosing.old) (made_of V.contents code.old)
        (around_of enclosing.new) (made_of V.contents code.new)
        (tree.if_cond (expr_tree V.contents choice.now.expr)
        (stmts_of (map (stmt_tree V.contents) choice.now.true_body.items))
        (stmts_of (map (stmt_tree V.contents) choice.now.false_body.items)))) }
    ensures marked { OnOk result (margin_of code.new ≡ marks.stmt V.functions
        (around_of enclosing.old).opened
        (spanned.if_cond (node.expr_node V.contents choice.now.expr)
        (spanned.stmts_of (node.stmt_nodes V.contents choice.now.true_body.items))
        (spanned.stmts_of (node.stmt_nodes V.contents choice.now.false_body.items)) span)
        (margin_of code.old)) }
{
    code.on_line(span);
    let test = begin(code, &choice.expr)?;
    statements(code, enclosing, &choice.true_body)?;
    if choice.false_body.is_empty() {
        code.fill(test, Instruction::JumpIfFalse(code.here()));
        return Ok(());
    }
    let end = begin_else(code, test)?;
    statements(code, enclosing, &choice.false_body)?;
    end_else(code, end);
    Ok(())
}
