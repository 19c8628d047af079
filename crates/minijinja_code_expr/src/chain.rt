//! Instructions of chains of comparisons; a chain of constants folds.
ghost use Rattle.std.specs.Prelude.{◌≡◌, ◌<◌, ◌+◌, ◌++◌, [], ◌∷◌, length, take, drop, ℕ, List, Option, IfOk, OnOk};
ghost use Rattle.minijinja_tree.specs.Erasure.{compare_op, compare_tree, comparisons_of};
ghost use Rattle.minijinja_tree.specs.WellFormed.{IsWhole};
ghost use Rattle.minijinja_semantics.specs.Code.{Instr, Load, CompareAndPreserve};
ghost use Rattle.minijinja_semantics.specs.Layout.{comparison};
ghost use Rattle.minijinja_semantics.specs.Marks as marks;
ghost use Rattle.minijinja_semantics.specs.Pieces.{one, ◌▸◌, leading_to};
ghost use Rattle.minijinja_instructions.specs.Instructions.{compared_by};
ghost use Rattle.minijinja_tree.specs.SpannedErasure.{all_compared, compare_node};
ghost use Rattle.minijinja_emitter.specs.internal.Margins.{replaced};
ghost use Rattle.minijinja_code_expr.specs.internal.NodeMarks.{FinishesMarks};
ghost use Rattle.minijinja_code_expr.specs.private.ChainMarks.{after_comparison, chain_end, last_comparison};
ghost use Rattle.minijinja_code_expr.specs.private.Comparing.{ahead, after_one, known, jumping, leaving, places_of, Closes, Holds, Leads};
ghost use Rattle.minijinja_code_expr.specs.internal.Leading.{Finishes};
ghost use Rattle.minijinja_emitter.specs.internal.AtEmitter.{made_of, margin_of};
ghost use Rattle.minijinja_emitter.specs.internal.Making.{followed, alone, between, hole, reach, Adds};

use crate::expr::expression;
use minijinja_emitter::emit::{Emitter, Site};
use minijinja_emitter::memory::OutOfMemory;
use minijinja_instructions::instructions::{CompareOp as Operator, Instruction};
use minijinja_tree::ast::{Compare, CompareOp, CompareOpKind};
use minijinja_tree::fold::without_fault;
use minijinja_value::value::TemplateValue;
use std::alloc::Global;

/// The places of the jumps out of a chain. The latest is a field of its own, so that one jump takes
/// no memory.
#[derive(Drop)]
struct Jumps {
    earlier: Vec<usize>,
    latest: Option<usize>,
}

impl Jumps {
    fn new(alloc: Global) -> Self
        ensures { places_of result ≡ [] }
    {
        Jumps {
            earlier: Vec::new(alloc),
            latest: None,
        }
    }

    /// Adds a place.
    fn push(&mut self, place: usize) -> Result<(), OutOfMemory>
        ensures { OnOk result (places_of self.new ≡ places_of self.old ++ place ∷ []) }
    {
        if let Some(previous) = self.latest {
            self.earlier.push(previous)?;
        }
        self.latest = Some(place);
        Ok(())
    }
}

/// Adds what comes after the first operand of a chain, whose code is at `start`. A chain of
/// constants folds: to true where all its comparisons hold, and to false as soon as one does not
/// hold, whatever comes after it.
#[cycle(expr)]
pub(crate) fn compare<'s, V: TemplateValue>(
    code: &mut Emitter<'s, V>,
    chain: &Compare<'s, V>,
    start: usize,
    site: Site,
) -> Result<(), OutOfMemory>
    requires { IsWhole (compare_tree V.contents chain.now) }
    ensures added { OnOk result (Finishes V.functions (compare_tree V.contents chain.now) start
        (made_of V.contents code.old) (made_of V.contents code.new)) }
    ensures marked { OnOk result (FinishesMarks V.functions (compare_tree V.contents chain.now)
        (compare_node V.contents chain.now site.node) start site.outer
        (made_of V.contents code.old) (margin_of code.old) (margin_of code.new)) }
{
    let mut jumps = Jumps::new(code.alloc());
    let mut last = first_constant(code, start);
    for i in 0..chain.ops.len() {
        add_comparison_before(code, &chain.ops, i, &mut jumps)?;
        let comparison = &chain.ops[i];
        let place = code.place();
        expression(code, &comparison.expr)?;
        match compare_constants(code, comparison.op, last, place)? {
            Some(true) => last = Some(place),
            Some(false) => return fold_to(code, start, false, site),
            None => last = None,
        }
    }
    if last.is_some() {
        return fold_to(code, start, true, site);
    }
    close(code, &chain.ops, &jumps)
}

/// The place of the operand at `start`, if it is a constant.
fn first_constant<V: TemplateValue>(code: &Emitter<'_, V>, start: usize) -> Option<usize>
    ensures { Holds (made_of V.contents code.now).code result (alone
        (between start (length (made_of V.contents code.now).code)
        (made_of V.contents code.now).code)) }
{
    match code.constant(start, code.place()) {
        Some(_) => Some(start),
        None => None,
    }
}

/// Whether a comparison holds of the constant at `last` and the one at `place`; `None` where one of
/// the two is no constant or the comparison faults.
fn compare_constants<V: TemplateValue>(
    code: &Emitter<'_, V>,
    op: CompareOpKind,
    last: Option<usize>,
    place: usize,
) -> Result<Option<bool>, OutOfMemory>
    requires { (value : Option V.Contents) × Holds (made_of V.contents code.now).code last value }
    ensures { IfOk result (λ holds. (value : Option V.Contents) → Holds
        (made_of V.contents code.now).code last value → holds ≡ known V.functions
        (compare_op op) value (alone (between place (length (made_of V.contents code.now).code)
        (made_of V.contents code.now).code))) }
{
    if let Some(last) = last {
        let end = code.place();
        if let Some(left) = code.constant(last, last + 1) {
            if let Some(right) = code.constant(place, end) {
                return Ok(without_fault(op.holds(code.alloc(), left, right))?);
            }
        }
    }
    Ok(None)
}

/// Replaces everything from `start` on by a truth value.
fn fold_to<V: TemplateValue>(
    code: &mut Emitter<'_, V>,
    start: usize,
    holds: bool,
    site: Site,
) -> Result<(), OutOfMemory>
    ensures replaced { OnOk result (made_of V.contents code.new ≡ record (made_of V.contents
        code.old) {
          code = take start (made_of V.contents code.old).code
              ++ Load (V.functions.of_bool holds) ∷ [];
        }) }
    ensures marked { OnOk result (margin_of code.new ≡ replaced start site (margin_of code.old)) }
{
    code.replace(start, V::of_bool(holds), site)
}

/// Adds the comparison before the one at an index, if there is one.
fn add_comparison_before<'s, V: TemplateValue>(
    code: &mut Emitter<'s, V>,
    ops: &[CompareOp<'s, V>],
    i: usize,
    jumps: &mut Jumps,
) -> Result<(), OutOfMemory>
    requires { i < length ops.now }
    ensures leads { OnOk result (Leads (made_of V.contents code.old) (places_of jumps.old)
        (ahead V.functions V.contents ops.now i) (made_of V.contents code.new) (places_of jumps.new)
        (after_one V.functions (comparisons_of V.contents (drop i ops.now)))) }
    ensures followed { OnOk result ((more : List (Instr V.Contents)) ×
        (made_of V.contents code.new ≡ followed (made_of V.contents code.old) more)) }
    ensures marked { OnOk result (margin_of code.new ≡ after_comparison i (margin_of code.old)) }
{
    if i == 0 {
        return Ok(());
    }
    add_comparison(code, ops[i - 1].op, jumps)?;
    Ok(())
}

/// Adds a comparison that keeps its right operand, and reserves the place of the jump out of the
/// chain.
fn add_comparison<V: TemplateValue>(
    code: &mut Emitter<'_, V>,
    op: CompareOpKind,
    jumps: &mut Jumps,
) -> Result<(), OutOfMemory>
    ensures places { OnOk result (places_of jumps.new ≡ places_of jumps.old ++
        (length (made_of V.contents code.old).code + 1) ∷ []) }
    ensures added { OnOk result (Adds (made_of V.contents code.old) (made_of V.contents code.new)
        (one (CompareAndPreserve (compare_op op)) ▸ one hole)) }
    ensures marked { OnOk result (margin_of code.new ≡ marks.here 2 (margin_of code.old)) }
{
    code.add(Instruction::CompareAndPreserve(operator(op)))?;
    jumps.push(code.reserve()?)?;
    Ok(())
}

/// Adds the last comparison of a chain and its end, to which the jumps of comparisons that fail
/// lead.
fn close<'s, V: TemplateValue>(
    code: &mut Emitter<'s, V>,
    ops: &[CompareOp<'s, V>],
    jumps: &Jumps,
) -> Result<(), OutOfMemory>
    ensures closed { OnOk result (Closes (made_of V.contents code.old) (places_of jumps.now)
        (ahead V.functions V.contents ops.now (length ops.now)) (made_of V.contents code.new)) }
    ensures marked { OnOk result (margin_of code.new ≡ chain_end V.contents ops.now
        (margin_of code.old)) }
{
    add_last(code, ops)?;
    let failed = leave(code)?;
    lead_out(code, jumps, failed);
    Ok(())
}

/// Adds the last comparison of a chain, which has no jump.
fn add_last<'s, V: TemplateValue>(
    code: &mut Emitter<'s, V>,
    ops: &[CompareOp<'s, V>],
) -> Result<(), OutOfMemory>
    ensures added { OnOk result ((failed : ℕ) → Adds (made_of V.contents code.old)
        (made_of V.contents code.new) (leading_to failed
        (ahead V.functions V.contents ops.now (length ops.now)))) }
    ensures marked { OnOk result (margin_of code.new ≡ last_comparison V.contents ops.now
        (margin_of code.old)) }
{
    match ops.last() {
        Some(last) => add_plain(code, last.op),
        None => Ok(()),
    }
}

/// Adds a comparison that keeps no operand.
fn add_plain<V: TemplateValue>(
    code: &mut Emitter<'_, V>,
    op: CompareOpKind,
) -> Result<(), OutOfMemory>
    ensures added { OnOk result (Adds (made_of V.contents code.old) (made_of V.contents code.new)
        (comparison (compare_op op))) }
    ensures marked { OnOk result (margin_of code.new ≡ marks.comparison (compare_op op)
        (margin_of code.old)) }
{
    match op {
        CompareOpKind::Eq => code.add(Instruction::Eq),
        CompareOpKind::Ne => code.add(Instruction::Ne),
        CompareOpKind::Lt => code.add(Instruction::Lt),
        CompareOpKind::Lte => code.add(Instruction::Lte),
        CompareOpKind::Gt => code.add(Instruction::Gt),
        CompareOpKind::Gte => code.add(Instruction::Gte),
        CompareOpKind::In => code.add(Instruction::In),
        CompareOpKind::NotIn => {
            code.add(Instruction::In)?;
            code.add(Instruction::Not)
        }
    }
}

/// Adds the end of a chain, and returns where the jumps of comparisons that fail lead.
fn leave<V: TemplateValue>(code: &mut Emitter<'_, V>) -> Result<u32, OutOfMemory>
    ensures failed { IfOk result
        (λ failed. failed ≡ reach (length (made_of V.contents code.old).code + 1)) }
    ensures added { OnOk result
        (Adds (made_of V.contents code.old) (made_of V.contents code.new) leaving) }
    ensures marked { OnOk result (margin_of code.new ≡ marks.here 3 (margin_of code.old)) }
{
    let jump = code.reserve()?;
    let failed = code.here();
    code.add(Instruction::Swap)?;
    code.add(Instruction::DiscardTop)?;
    let end = code.here();
    code.fill(jump, Instruction::Jump(end));
    Ok(failed)
}

/// Fills in the jumps out of the chain.
fn lead_out<V: TemplateValue>(code: &mut Emitter<'_, V>, jumps: &Jumps, target: u32)
    ensures led { made_of V.contents code.new ≡ jumping (places_of jumps.now) target
        (made_of V.contents code.old) }
    ensures marked { margin_of code.new ≡ margin_of code.old }
{
    if let Some(latest) = jumps.latest {
        code.fill(latest, Instruction::JumpIfFalseOrPop(target));
    }
    fill_jumps(code, &jumps.earlier, target);
}

/// Puts a jump out of the chain at each of these places.
fn fill_jumps<V: TemplateValue>(code: &mut Emitter<'_, V>, places: &[usize], target: u32)
    ensures filled { made_of V.contents code.new ≡ jumping places.now target
        (made_of V.contents code.old) }
    ensures marked { margin_of code.new ≡ margin_of code.old }
{
    for place in places {
        code.fill(*place, Instruction::JumpIfFalseOrPop(target));
    }
}

/// The operator of a comparison that is not the last of its chain.
fn operator(op: CompareOpKind) -> Operator
    ensures { compared_by result ≡ compare_op op }
{
    match op {
        CompareOpKind::Eq => Operator::Eq,
        CompareOpKind::Ne => Operator::Ne,
        CompareOpKind::Lt => Operator::Lt,
        CompareOpKind::Lte => Operator::Lte,
        CompareOpKind::Gt => Operator::Gt,
        CompareOpKind::Gte => Operator::Gte,
        CompareOpKind::In => Operator::In,
        CompareOpKind::NotIn => Operator::NotIn,
    }
}
