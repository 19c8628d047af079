//! Instructions of constants, and of lists, tuples and maps of constants.
ghost use Rattle.std.specs.Prelude.{◌≡◌, Option, Some, IfOk, OnOk};
ghost use Rattle.minijinja_tree.specs.Erasure.{exprs_of};
ghost use Rattle.minijinja_tree.specs.Tree as tree;
ghost use Rattle.minijinja_tree.specs.Folding.{fold};
ghost use Rattle.minijinja_semantics.specs.Code.{Load};
ghost use Rattle.minijinja_semantics.specs.Marks as marks;
ghost use Rattle.minijinja_semantics.specs.Pieces.{one};
ghost use Rattle.minijinja_code_expr.specs.internal.NodeMarks.{added_if};
ghost use Rattle.minijinja_emitter.specs.internal.AtEmitter.{made_of, margin_of};
ghost use Rattle.minijinja_emitter.specs.internal.Making.{Adds};
ghost use Rattle.minijinja_code_expr.specs.internal.Parts.{AddsIf};

use minijinja_emitter::emit::Emitter;
use minijinja_emitter::memory::{OutOfMemory, memory_alone};
use minijinja_instructions::instructions::Instruction;
use minijinja_tree::ast::{Const, List, Map, Tuple};
use minijinja_value::value::TemplateValue;

/// Loads a copy of a constant.
pub(crate) fn load_constant<V: TemplateValue>(
    code: &mut Emitter<'_, V>,
    constant: &Const<V>,
) -> Result<(), OutOfMemory>
    ensures added { OnOk result (Adds (made_of V.contents code.old) (made_of V.contents code.new)
        (one (Load (V.contents constant.now.value)))) }
    ensures marked { OnOk result (margin_of code.new ≡ marks.here 1 (margin_of code.old)) }
{
    code.add(Instruction::LoadConst(constant.value.try_clone()?))
}

/// Loads a list if all its items are constants, and returns whether it did.
pub(crate) fn load_list<V: TemplateValue>(
    code: &mut Emitter<'_, V>,
    list: &List<'_, V>,
) -> Result<bool, OutOfMemory>
    ensures added { IfOk result (λ loaded. AddsIf loaded (fold V.functions
        (tree.list (exprs_of V.contents list.now.items.items))) (made_of V.contents code.old)
        (made_of V.contents code.new)) }
    ensures marked { IfOk result
        (λ loaded. margin_of code.new ≡ added_if loaded (margin_of code.old)) }
{
    match memory_alone(list.as_const(code.alloc()))? {
        Some(value) => load(code, value),
        None => Ok(false),
    }
}

/// Loads a tuple if all its items are constants, and returns whether it did.
pub(crate) fn load_tuple<V: TemplateValue>(
    code: &mut Emitter<'_, V>,
    tuple: &Tuple<'_, V>,
) -> Result<bool, OutOfMemory>
    ensures added { IfOk result (λ loaded. AddsIf loaded (fold V.functions
        (tree.tuple (exprs_of V.contents tuple.now.items.items))) (made_of V.contents code.old)
        (made_of V.contents code.new)) }
    ensures marked { IfOk result
        (λ loaded. margin_of code.new ≡ added_if loaded (margin_of code.old)) }
{
    match memory_alone(tuple.as_const(code.alloc()))? {
        Some(value) => load(code, value),
        None => Ok(false),
    }
}

/// Loads a map if all its keys and values are constants, and returns whether it did.
pub(crate) fn load_map<V: TemplateValue>(
    code: &mut Emitter<'_, V>,
    map: &Map<'_, V>,
) -> Result<bool, OutOfMemory>
    ensures added { IfOk result (λ loaded. AddsIf loaded (fold V.functions (tree.map
        (exprs_of V.contents map.now.keys.items) (exprs_of V.contents map.now.values.items)))
        (made_of V.contents code.old) (made_of V.contents code.new)) }
    ensures marked { IfOk result
        (λ loaded. margin_of code.new ≡ added_if loaded (margin_of code.old)) }
{
    match memory_alone(map.as_const(code.alloc()))? {
        Some(value) => load(code, value),
        None => Ok(false),
    }
}

/// Loads a constant, and returns true: the constant was loaded.
pub(crate) fn load<V: TemplateValue>(
    code: &mut Emitter<'_, V>,
    value: V,
) -> Result<bool, OutOfMemory>
    ensures added { IfOk result (λ loaded. (folds : Option V.Contents) →
        folds ≡ Some (V.contents value) → AddsIf loaded folds (made_of V.contents code.old)
        (made_of V.contents code.new)) }
    ensures marked { IfOk result
        (λ loaded. margin_of code.new ≡ added_if loaded (margin_of code.old)) }
{
    code.add(Instruction::LoadConst(value))?;
    Ok(true)
}
