//! Instructions of text, outputs, assignments and calls that are statements.
ghost use Rattle.std.specs.Prelude.{◌≡◌, [], length, OnOk};
ghost use Rattle.minijinja_tree.specs.Erasure.{args_of, expr_tree};
ghost use Rattle.minijinja_tree.specs.Nodes.{node_of, span_of};
ghost use Rattle.minijinja_tree.specs.Tree as tree;
ghost use Rattle.minijinja_tree.specs.WellFormed.{IsTarget, IsWhole};
ghost use Rattle.minijinja_semantics.specs.Calls.{written};
ghost use Rattle.minijinja_semantics.specs.Events as event;
ghost use Rattle.minijinja_tree.specs.SpannedErasure as node;
ghost use Rattle.minijinja_tree.specs.SpannedTrees as spanned;
ghost use Rattle.minijinja_semantics.specs.Layout as layout;
ghost use Rattle.minijinja_semantics.specs.Marks as marks;
ghost use Rattle.minijinja_semantics.specs.Marks.{◌⟫◌};
ghost use Rattle.minijinja_semantics.specs.Code as instr;
ghost use Rattle.minijinja_semantics.specs.Code.{DiscardTop};
ghost use Rattle.minijinja_semantics.specs.Pieces.{one, plain, ◌▸◌};
ghost use Rattle.minijinja_code_parts.specs.internal.AtEnclosingLoop.{around_of};
ghost use Rattle.minijinja_emitter.specs.internal.AtEmitter.{made_of, margin_of};
ghost use Rattle.minijinja_emitter.specs.internal.Making.{Adds};
ghost use Rattle.minijinja_code_parts.specs.internal.EnclosingLoops.{Follows};

use crate::enclosing_loop::EnclosingLoop;
use crate::targets::assign;
use minijinja_code_expr::expr::{call, expression};
use minijinja_code_expr::output::{Output, output_of};
use minijinja_emitter::emit::Emitter;
use minijinja_emitter::memory::OutOfMemory;
use minijinja_instructions::instructions::Instruction;
use minijinja_syntax::tokens::Span;
use minijinja_tree::ast::{Do, EmitRaw, Expr, Set};
use minijinja_value::value::TemplateValue;

/// Adds text that stands outside of tags, and counts its bytes.
pub fn data_text<'s, V: TemplateValue>(
    code: &mut Emitter<'s, V>,
    enclosing: &mut EnclosingLoop,
    text: &EmitRaw<'s>,
) -> Result<(), OutOfMemory>
    ensures added { OnOk result (Follows
        (around_of enclosing.old) (made_of V.contents code.old)
        (around_of enclosing.new) (made_of V.contents code.new)
        (length text.now.raw.now) (plain (one (instr.Do event.EmitRaw text.now.raw.now 0)))) }
    ensures marked { OnOk result (margin_of code.new ≡ marks.here 1 (margin_of code.old)) }
{
    enclosing.count(text.raw.len());
    code.add(Instruction::EmitRaw(text.raw))
}

/// Adds the code of an output.
#[inline(always)]
pub fn emit_expr<'s, V: TemplateValue>(
    code: &mut Emitter<'s, V>,
    expr: &Expr<'s, V>,
) -> Result<(), OutOfMemory>
    requires { IsWhole (expr_tree V.contents expr.now) }
    ensures added { OnOk result (Adds (made_of V.contents code.old) (made_of V.contents code.new)
        (layout.write V.functions
        (written (expr_tree V.contents expr.now))
        (layout.expr V.functions (expr_tree V.contents expr.now)))) }
    ensures marked { OnOk result (margin_of code.new ≡ marks.write V.functions
        (written (expr_tree V.contents expr.now)) (node.expr_node V.contents expr.now)
        (margin_of code.old)) }
{
    match expr {
        Expr::Var(variable) => emit_variable(code, variable.node().id, variable.span()),
        _ => emit_computed(code, expr),
    }
}

/// Adds the code of an output of a variable, which is what most outputs are.
#[inline(always)]
fn emit_variable<'s, V: TemplateValue>(
    code: &mut Emitter<'s, V>,
    name: &'s str,
    span: Span,
) -> Result<(), OutOfMemory>
    ensures added { OnOk result (Adds (made_of V.contents code.old) (made_of V.contents code.new)
        (one (instr.Do event.Lookup name.now 0) ▸ one (instr.Do event.Emit [] 1))) }
    ensures marked { OnOk result (margin_of code.new ≡ marks.within span
        (marks.on_line span ⟫ marks.here 1 ⟫ marks.here 1) (margin_of code.old)) }
{
    code.on_line(span);
    code.add_at(Instruction::Lookup(name), span)?;
    code.add_again(Instruction::Emit)
}

/// Adds the code of an output that may be a call. A call of `super` without arguments, of `loop`
/// with one positional argument, and of a block have instructions of their own.
fn emit_computed<'s, V: TemplateValue>(
    code: &mut Emitter<'s, V>,
    expr: &Expr<'s, V>,
) -> Result<(), OutOfMemory>
    requires { IsWhole (expr_tree V.contents expr.now) }
    ensures added { OnOk result (Adds (made_of V.contents code.old) (made_of V.contents code.new)
        (layout.write V.functions
        (written (expr_tree V.contents expr.now))
        (layout.expr V.functions (expr_tree V.contents expr.now)))) }
    ensures marked { OnOk result (margin_of code.new ≡ marks.write V.functions
        (written (expr_tree V.contents expr.now)) (node.expr_node V.contents expr.now)
        (margin_of code.old)) }
{
    let span = expr.span();
    match output_of(expr) {
        Output::Super => {
            code.on_line(span);
            code.add_at(Instruction::FastSuper, span)
        }
        Output::Recursion(items) => {
            code.on_line(span);
            expression(code, items)?;
            code.add_at(Instruction::FastRecurse, span)
        }
        Output::Block(name) => {
            code.on_line(span);
            code.add(Instruction::CallBlock(name))
        }
        Output::Plain => {
            let outer = code.open(span);
            expression(code, expr)?;
            code.add(Instruction::Emit)?;
            code.close(outer);
            Ok(())
        }
    }
}

/// Adds the value of an assignment, and then its target.
pub fn set<'s, V: TemplateValue>(
    code: &mut Emitter<'s, V>,
    assignment: &Set<'s, V>,
) -> Result<(), OutOfMemory>
    requires target { IsTarget (expr_tree V.contents assignment.now.target) }
    requires value { IsWhole (expr_tree V.contents assignment.now.expr) }
    ensures added { OnOk result (Adds (made_of V.contents code.old) (made_of V.contents code.new)
        (layout.expr V.functions (expr_tree V.contents assignment.now.expr)
        ▸ layout.target V.functions (expr_tree V.contents assignment.now.target))) }
    ensures marked { OnOk result (margin_of code.new ≡ marks.target V.functions
        (node.expr_node V.contents assignment.now.target) (marks.expr V.functions
        (node.expr_node V.contents assignment.now.expr) (margin_of code.old))) }
{
    expression(code, &assignment.expr)?;
    assign(code, &assignment.target)
}

/// Adds a call whose value is dropped.
pub fn do_call<'s, V: TemplateValue>(
    code: &mut Emitter<'s, V>,
    called: &Do<'s, V>,
) -> Result<(), OutOfMemory>
    requires { IsWhole (tree.call (expr_tree V.contents (node_of called.now.call).expr)
        (args_of V.contents (node_of called.now.call).args.items)) }
    ensures added { OnOk result (Adds (made_of V.contents code.old) (made_of V.contents code.new)
        (layout.expr V.functions (tree.call (expr_tree V.contents (node_of called.now.call).expr)
        (args_of V.contents (node_of called.now.call).args.items)) ▸ one DiscardTop)) }
    ensures marked { OnOk result (margin_of code.new ≡ marks.here 1 (marks.expr V.functions
        (spanned.call (node.expr_node V.contents (node_of called.now.call).expr)
        (node.args_of V.contents (node_of called.now.call).args.items) (span_of called.now.call))
        (margin_of code.old))) }
{
    call(code, called.call.node(), called.call.span())?;
    code.add(Instruction::DiscardTop)
}
