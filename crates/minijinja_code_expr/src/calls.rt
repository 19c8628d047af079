//! Instructions of calls that take a macro along.
ghost use Rattle.std.specs.Prelude.{◌≡◌, IfOk, OnOk};
ghost use Rattle.minijinja_tree.specs.Callees.{callee};
ghost use Rattle.minijinja_tree.specs.Erasure.{args_of, expr_tree};
ghost use Rattle.minijinja_tree.specs.SpannedErasure as node;
ghost use Rattle.minijinja_tree.specs.Tree as tree;
ghost use Rattle.minijinja_tree.specs.WellFormed.{IsWhole};
ghost use Rattle.minijinja_code_expr.specs.internal.Callers.{AreCounts, BeginsCall, TakesCaller, behind_caller, front_of};
ghost use Rattle.minijinja_semantics.specs.Marks as marks;
ghost use Rattle.minijinja_code_expr.specs.internal.NodeMarks as node_marks;
ghost use Rattle.minijinja_code_expr.specs.internal.NodeMarks.{call_begin, call_end};
ghost use Rattle.minijinja_emitter.specs.internal.AtEmitter.{made_of, margin_of};
ghost use Rattle.minijinja_emitter.specs.internal.Making.{Adds};

use crate::arguments::{Counts, end_arguments, up_to_caller};
use crate::expr::{capture_block, expression};
use minijinja_emitter::emit::Emitter;
use minijinja_emitter::memory::OutOfMemory;
use minijinja_instructions::instructions::Instruction;
use minijinja_tree::ast::{Call, CallType};
use minijinja_value::value::TemplateValue;

/// Adds a call up to the macro that it takes along, and returns the arguments so far, which
/// `end_call` needs. A call of a block takes no macro along: it is added as a whole, and `None` is
/// returned.
pub fn begin_call<'s, V: TemplateValue>(
    code: &mut Emitter<'s, V>,
    call: &Call<'s, V>,
) -> Result<Option<Counts>, OutOfMemory>
    requires { IsWhole (tree.call (expr_tree V.contents call.now.expr)
        (args_of V.contents call.now.args.items)) }
    ensures begun { IfOk result (λ counts. BeginsCall V.functions
        (expr_tree V.contents call.now.expr) (args_of V.contents call.now.args.items) counts
        (made_of V.contents code.old) (made_of V.contents code.new)) }
    ensures marked { OnOk result (margin_of code.new ≡ call_begin
        (callee (expr_tree V.contents call.now.expr))
        (marks.base V.functions (node.expr_node V.contents call.now.expr))
        (marks.expr V.functions (node.expr_node V.contents call.now.expr))
        (node_marks.up_to_caller V.functions (node.args_of V.contents call.now.args.items))
        (margin_of code.old)) }
{
    match call.identify_call() {
        CallType::Function(_) => {
            let counts = up_to_caller(code, &call.args, 0)?;
            Ok(Some(counts))
        }
        CallType::Method(object, _) => {
            expression(code, object)?;
            let counts = up_to_caller(code, &call.args, 1)?;
            Ok(Some(counts))
        }
        CallType::Block(name) => {
            capture_block(code, name)?;
            Ok(None)
        }
        CallType::Object(object) => {
            expression(code, object)?;
            let counts = up_to_caller(code, &call.args, 1)?;
            Ok(Some(counts))
        }
    }
}

/// Adds the end of a call after the macro that it takes along.
pub fn end_call<'s, V: TemplateValue>(
    code: &mut Emitter<'s, V>,
    call: &Call<'s, V>,
    counts: Counts,
) -> Result<(), OutOfMemory>
    requires whole { IsWhole (tree.call (expr_tree V.contents call.now.expr)
        (args_of V.contents call.now.args.items)) }
    requires takes { TakesCaller (callee (expr_tree V.contents call.now.expr)) }
    requires counts { AreCounts (args_of V.contents call.now.args.items)
        (front_of (callee (expr_tree V.contents call.now.expr))) counts }
    ensures added { OnOk result (Adds (made_of V.contents code.old) (made_of V.contents code.new)
        (behind_caller (callee (expr_tree V.contents call.now.expr))
        (args_of V.contents call.now.args.items))) }
    ensures marked { OnOk result (margin_of code.new ≡ call_end
        (callee (expr_tree V.contents call.now.expr))
        (node_marks.behind_caller (node.args_of V.contents call.now.args.items))
        (margin_of code.old)) }
{
    match call.identify_call() {
        CallType::Function(name) => {
            let count = end_arguments(code, &call.args, 0, counts)?;
            code.add(Instruction::CallFunction(name, count))
        }
        CallType::Method(_, name) => {
            let count = end_arguments(code, &call.args, 1, counts)?;
            code.add(Instruction::CallMethod(name, count))
        }
        CallType::Block(_) => unreachable!(),
        CallType::Object(_) => {
            let count = end_arguments(code, &call.args, 1, counts)?;
            code.add(Instruction::CallObject(count))
        }
    }
}
