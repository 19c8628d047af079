//! What stands for a part that an expression leaves out.
ghost use Rattle.std.specs.Prelude.{◌≡◌, OnOk};
ghost use Rattle.minijinja_semantics.specs.Code.{Load};
ghost use Rattle.minijinja_semantics.specs.Marks as marks;
ghost use Rattle.minijinja_semantics.specs.Pieces.{one};
ghost use Rattle.minijinja_code_expr.specs.private.AbsentParts.{value_of};
ghost use Rattle.minijinja_emitter.specs.internal.AtEmitter.{made_of, margin_of};
ghost use Rattle.minijinja_emitter.specs.internal.Making.{Adds};

use minijinja_emitter::emit::Emitter;
use minijinja_emitter::memory::OutOfMemory;
use minijinja_instructions::instructions::Instruction;
use minijinja_value::value::TemplateValue;

/// The value that stands for a part that is absent: none for a bound of a slice, and for an else
/// part the undefined value that writes nothing.
#[derive(Clone, Copy)]
pub(crate) enum Absent {
    None,
    SilentUndefined,
}

/// Loads what stands for an absent part.
pub(crate) fn load_absent<V: TemplateValue>(
    code: &mut Emitter<'_, V>,
    absent: Absent,
) -> Result<(), OutOfMemory>
    ensures added { OnOk result (Adds (made_of V.contents code.old) (made_of V.contents code.new)
        (one (Load (value_of V.functions absent)))) }
    ensures marked { OnOk result (margin_of code.new ≡ marks.here 1 (margin_of code.old)) }
{
    match absent {
        Absent::None => code.add(Instruction::LoadConst(V::none())),
        Absent::SilentUndefined => code.add(Instruction::LoadConst(V::silent_undefined())),
    }
}
