//! Jumps around the part that a test does not choose.
ghost use Rattle.std.specs.Prelude.{◌≡◌, IfOk, OnOk};
ghost use Rattle.minijinja_semantics.specs.Marks as marks;
ghost use Rattle.minijinja_code_expr.specs.internal.Branching.{BeginsElse, ending_at};
ghost use Rattle.minijinja_emitter.specs.internal.AtEmitter.{made_of, margin_of};

use minijinja_emitter::emit::Emitter;
use minijinja_emitter::memory::OutOfMemory;
use minijinja_instructions::instructions::Instruction;
use minijinja_value::value::TemplateValue;

/// Begins what comes where a test is false, after what comes where it is true: the jump of the
/// test, whose place is `test`, leads there. Returns the reserved place of the jump past it.
pub fn begin_else<V: TemplateValue>(
    code: &mut Emitter<'_, V>,
    test: usize,
) -> Result<usize, OutOfMemory>
    ensures begun { IfOk result (λ end. BeginsElse test end (made_of V.contents code.old)
        (made_of V.contents code.new)) }
    ensures marked { OnOk result (margin_of code.new ≡ marks.here 1 (margin_of code.old)) }
{
    let end = code.reserve()?;
    code.fill(test, Instruction::JumpIfFalse(code.here()));
    Ok(end)
}

/// Ends what comes where a test is false: the jump past it leads to the end of the instructions.
pub fn end_else<V: TemplateValue>(code: &mut Emitter<'_, V>, end: usize)
    ensures ended { made_of V.contents code.new ≡ ending_at end (made_of V.contents code.old) }
    ensures marked { margin_of code.new ≡ margin_of code.old }
{
    code.fill(end, Instruction::Jump(code.here()));
}
