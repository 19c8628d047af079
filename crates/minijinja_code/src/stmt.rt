//! Instructions of statements.
ghost use Rattle.std.specs.Prelude.{◌≡◌, map, OnOk};
ghost use Rattle.minijinja_tree.specs.Erasure.{stmt_tree};
ghost use Rattle.minijinja_tree.specs.Tree.{stmts_of};
ghost use Rattle.minijinja_tree.specs.WellFormed.{AreInner};
ghost use Rattle.minijinja_tree.specs.SpannedErasure as node;
ghost use Rattle.minijinja_tree.specs.SpannedTrees as spanned;
ghost use Rattle.minijinja_semantics.specs.Marks as marks;
ghost use Rattle.minijinja_code_parts.specs.internal.AtEnclosingLoop.{around_of};
ghost use Rattle.minijinja_emitter.specs.internal.AtEmitter.{made_of, margin_of};
ghost use Rattle.minijinja_tree.specs.Nodes.{node_of, span_of};
ghost use Rattle.minijinja_code.specs.private.Statements.{MayStand, call_block_marks, call_block_tree, call_in, macro_in, macro_node};
ghost use Rattle.minijinja_code_parts.specs.internal.EnclosingLoops.{FollowsStmt, FollowsStmts};

use crate::block_statements::{auto_escape, filter_block, set_block, with_block};
use crate::if_statements::condition;
use crate::loop_statements::for_loop;
use crate::macro_statements::macro_value;
use minijinja_code_expr::calls::{begin_call, end_call};
use minijinja_code_parts::enclosing_loop::EnclosingLoop;
use minijinja_code_parts::loop_parts::{break_loop, continue_loop};
use minijinja_code_parts::modules::{extends, from_import, import_all, include};
use minijinja_code_parts::simple::{data_text, do_call, emit_expr, set};
use minijinja_emitter::emit::Emitter;
use minijinja_emitter::memory::OutOfMemory;
use minijinja_instructions::instructions::Instruction;
use minijinja_tree::ast::{CallBlock, Stmt};
use minijinja_value::value::TemplateValue;

/// Adds the code of statements in order.
#[cycle(stmt)]
pub fn statements<'s, V: TemplateValue>(
    code: &mut Emitter<'s, V>,
    enclosing: &mut EnclosingLoop,
    stmts: &[Stmt<'s, V>],
) -> Result<(), OutOfMemory>
    requires { AreInner (around_of enclosing.old).in_loop
        (stmts_of (map (stmt_tree V.contents) stmts.now)) }
    ensures added { OnOk result (FollowsStmts V.functions
        (around_of enclosing.old) (made_of V.contents code.old)
        (around_of enclosing.new) (made_of V.contents code.new)
        (stmts_of (map (stmt_tree V.contents) stmts.now))) }
    ensures marked { OnOk result (margin_of code.new ≡ marks.stmts V.functions
        (around_of enclosing.old).opened
        (spanned.stmts_of (node.stmt_nodes V.contents stmts.now)) (margin_of code.old)) }
{
    for stmt in stmts {
        statement(code, enclosing, stmt)?;
    }
    Ok(())
}

/// Adds the code of a template, or of a statement that stands in one.
#[cycle(stmt)]
#[inline(always)]
pub fn statement<'s, V: TemplateValue>(
    code: &mut Emitter<'s, V>,
    enclosing: &mut EnclosingLoop,
    stmt: &Stmt<'s, V>,
) -> Result<(), OutOfMemory>
    requires { MayStand (around_of enclosing.old).in_loop (stmt_tree V.contents stmt.now) }
    ensures added { OnOk result (FollowsStmt V.functions
        (around_of enclosing.old) (made_of V.contents code.old)
        (around_of enclosing.new) (made_of V.contents code.new) (stmt_tree V.contents stmt.now)) }
    ensures marked { OnOk result (margin_of code.new ≡ marks.stmt V.functions
        (around_of enclosing.old).opened (node.stmt_node V.contents stmt.now)
        (margin_of code.old)) }
{
    match stmt {
        Stmt::Template(template) => {
            code.on_line(template.span());
            statements(code, enclosing, &template.node().children)
        }
        Stmt::EmitRaw(data) => {
            code.on_line(data.span());
            data_text(code, enclosing, data.node())
        }
        Stmt::EmitExpr(output) => emit_expr(code, &output.node().expr),
        Stmt::Set(assignment) => {
            code.on_line(assignment.span());
            set(code, assignment.node())
        }
        Stmt::ForLoop(each) => for_loop(code, enclosing, each.node(), each.span()),
        Stmt::IfCond(choice) => condition(code, enclosing, choice.node(), choice.span()),
        Stmt::WithBlock(block) => with_block(code, enclosing, block.node(), block.span()),
        Stmt::SetBlock(block) => set_block(code, enclosing, block.node(), block.span()),
        Stmt::AutoEscape(block) => auto_escape(code, enclosing, block.node(), block.span()),
        Stmt::FilterBlock(block) => filter_block(code, enclosing, block.node(), block.span()),
        Stmt::Block(block) => {
            code.on_line(block.span());
            code.add(Instruction::CallBlock(block.node().name))
        }
        Stmt::Extends(parent) => {
            code.on_line(parent.span());
            extends(code, parent.node(), parent.span())
        }
        Stmt::Include(included) => {
            code.on_line(included.span());
            include(code, included.node(), included.span())
        }
        Stmt::Import(import) => import_all(code, import.node(), import.span()),
        Stmt::FromImport(import) => from_import(code, import.node(), import.span()),
        Stmt::Macro(declared) => {
            macro_value(code, enclosing, declared.node(), declared.span())?;
            code.add(Instruction::StoreLocal(declared.node().name))
        }
        Stmt::CallBlock(block) => call_block(code, enclosing, block.node()),
        Stmt::Do(called) => do_call(code, called.node()),
        Stmt::Break(node) => {
            code.on_line(node.span());
            break_loop(code, enclosing)
        }
        Stmt::Continue(node) => {
            code.on_line(node.span());
            continue_loop(code, enclosing)
        }
    }
}

/// Adds a call block: a call that takes a macro along, whose value is written. A call of a block
/// takes no macro along.
#[cycle(stmt)]
fn call_block<'s, V: TemplateValue>(
    code: &mut Emitter<'s, V>,
    enclosing: &mut EnclosingLoop,
    block: &CallBlock<'s, V>,
) -> Result<(), OutOfMemory>
    requires { MayStand (around_of enclosing.old).in_loop (call_block_tree V.contents block.now) }
    ensures added { OnOk result (FollowsStmt V.functions
        (around_of enclosing.old) (made_of V.contents code.old)
        (around_of enclosing.new) (made_of V.contents code.new)
        (call_block_tree V.contents block.now)) }
    ensures marked { OnOk result (margin_of code.new ≡ call_block_marks V.functions
        (node.expr_node V.contents (node_of (call_in block.now)).expr)
        (node.args_of V.contents (node_of (call_in block.now)).args.items)
        (span_of (call_in block.now))
        (marks.macro_value V.functions (macro_node V.contents (macro_in block.now)))
        (margin_of code.old)) }
{
    let call = block.call.node();
    let outer = code.open(block.call.span());
    if let Some(counts) = begin_call(code, call)? {
        let declared = &block.macro_decl;
        macro_value(code, enclosing, declared.node(), declared.span())?;
        end_call(code, call, counts)?;
    }
    code.close(outer);
    code.add(Instruction::Emit)
}
