//! The instructions before and after the bodies of `with`, `set` and `filter` blocks.
ghost use Rattle.std.specs.Prelude.{◌≡◌, [], OnOk};
ghost use Rattle.minijinja_tree.specs.Erasure.{expr_tree, optional_of, assignments_of};
ghost use Rattle.minijinja_tree.specs.WellFormed.{IsTarget, IsChainOfFilters, IsChainIfAny, AreAssignments};
ghost use Rattle.minijinja_semantics.specs.Code.{Do};
ghost use Rattle.minijinja_semantics.specs.Events as event;
ghost use Rattle.minijinja_tree.specs.SpannedErasure as node;
ghost use Rattle.minijinja_semantics.specs.Layout as layout;
ghost use Rattle.minijinja_semantics.specs.Marks as marks;
ghost use Rattle.minijinja_semantics.specs.Pieces.{one, ◌▸◌};
ghost use Rattle.minijinja_emitter.specs.internal.AtEmitter.{made_of, margin_of};
ghost use Rattle.minijinja_emitter.specs.internal.Making.{Adds};

use crate::targets::assign;
use minijinja_code_expr::expr::expression;
use minijinja_code_expr::filters::filters;
use minijinja_emitter::emit::Emitter;
use minijinja_emitter::memory::OutOfMemory;
use minijinja_instructions::instructions::Instruction;
use minijinja_tree::ast::{Expr, SetBlock};
use minijinja_value::value::TemplateValue;

/// Begins a scope, and assigns its variables one after another.
pub fn begin_scope<'s, V: TemplateValue>(
    code: &mut Emitter<'s, V>,
    assignments: &[(Expr<'s, V>, Expr<'s, V>)],
) -> Result<(), OutOfMemory>
    requires { AreAssignments (assignments_of V.contents assignments.now) }
    ensures added { OnOk result (Adds (made_of V.contents code.old) (made_of V.contents code.new)
        (one (Do event.PushWith [] 0)
        ▸ layout.assignments V.functions (assignments_of V.contents assignments.now))) }
    ensures marked { OnOk result (margin_of code.new ≡ marks.assignments V.functions
        (node.bindings_of V.contents assignments.now) (marks.here 1 (margin_of code.old))) }
{
    code.add(Instruction::PushWith)?;
    for (target, value) in assignments {
        expression(code, value)?;
        assign(code, target)?;
    }
    Ok(())
}

/// Ends the capture of a `set` block, and assigns what its filters make of it.
pub fn end_set_block<'s, V: TemplateValue>(
    code: &mut Emitter<'s, V>,
    block: &SetBlock<'s, V>,
) -> Result<(), OutOfMemory>
    requires target { IsTarget (expr_tree V.contents block.now.target) }
    requires chain { IsChainIfAny (optional_of V.contents block.now.filter) }
    ensures added { OnOk result (Adds (made_of V.contents code.old) (made_of V.contents code.new)
        (one (Do event.EndCapture [] 0)
        ▸ layout.filters V.functions (optional_of V.contents block.now.filter)
        ▸ layout.target V.functions (expr_tree V.contents block.now.target))) }
    ensures marked { OnOk result (margin_of code.new ≡ marks.target V.functions
        (node.expr_node V.contents block.now.target) (marks.filters V.functions
        (node.optional_of V.contents block.now.filter) (marks.here 1 (margin_of code.old)))) }
{
    code.add(Instruction::EndCapture)?;
    filters_if_any(code, &block.filter)?;
    assign(code, &block.target)
}

/// Adds the filters of a chain, if there is one; their operand is on top.
fn filters_if_any<'s, V: TemplateValue>(
    code: &mut Emitter<'s, V>,
    chain: &Option<Expr<'s, V>>,
) -> Result<(), OutOfMemory>
    requires { IsChainIfAny (optional_of V.contents chain.now) }
    ensures added { OnOk result (Adds (made_of V.contents code.old) (made_of V.contents code.new)
        (layout.filters V.functions (optional_of V.contents chain.now))) }
    ensures marked { OnOk result (margin_of code.new ≡ marks.filters V.functions
        (node.optional_of V.contents chain.now) (margin_of code.old)) }
{
    match chain {
        Some(chain) => filters(code, chain),
        None => Ok(()),
    }
}

/// Ends the capture of a `filter` block, and writes what its filters make of it.
pub fn end_filter_block<'s, V: TemplateValue>(
    code: &mut Emitter<'s, V>,
    chain: &Expr<'s, V>,
) -> Result<(), OutOfMemory>
    requires { IsChainOfFilters (expr_tree V.contents chain.now) }
    ensures added { OnOk result (Adds (made_of V.contents code.old) (made_of V.contents code.new)
        (one (Do event.EndCapture [] 0)
        ▸ layout.expr V.functions (expr_tree V.contents chain.now)
        ▸ one (Do event.Emit [] 1))) }
    ensures marked { OnOk result (margin_of code.new ≡ marks.here 1 (marks.expr V.functions
        (node.expr_node V.contents chain.now) (marks.here 1 (margin_of code.old)))) }
{
    code.add(Instruction::EndCapture)?;
    filters(code, chain)?;
    code.add(Instruction::Emit)
}
