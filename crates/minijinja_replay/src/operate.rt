//! The instructions that compute and compare, with what they give.
ghost use Rattle.std.specs.Prelude.{◌≡◌, ◌+◌, ◌<◌, ◌^◌, IfOk, OnOk, Some};
ghost use Rattle.minijinja_value.specs.Outcomes.{IsOutcome};
ghost use Rattle.minijinja_tree.specs.Comparisons as Comparisons;
ghost use Rattle.minijinja_tree.specs.Operators as Operators;
ghost use Rattle.minijinja_semantics.specs.Code as code;
ghost use Rattle.minijinja_instructions.specs.Instructions.{compared_by};
ghost use Rattle.minijinja_replay.specs.private.AtMachine.{operator_of, Does};

use crate::machine::{Machine, Step, Stop};
use minijinja_instructions::instructions::CompareOp;
use minijinja_value::value::{OpError, TemplateValue};
use std::alloc::{AllocError, Global};
use std::cmp::Ordering;

/// An operator that makes one value of two, and asks nothing.
#[derive(Clone, Copy)]
pub(crate) enum Binary {
    Add,
    Sub,
    Mul,
    IntDiv,
    Rem,
    Pow,
    StringConcat,
    Eq,
    Ne,
    Lt,
    Lte,
    Gt,
    Gte,
    In,
}

impl<'c, 's, V: TemplateValue> Machine<'c, 's, V> {
    /// Replaces two operands by what an operator gives, or stops the run at its fault.
    pub(crate) fn operate(&mut self, operator: Binary) -> Result<Step<V::Fault>, AllocError>
        requires place { self.old.place + 1 < 2 ^ 32 }
        ensures step { IfOk result (Does V.functions V.contents V.fault_contents self.old (Some
            (code.Operate (operator_of operator))) self.new) }
        ensures same { OnOk result (self.new.code ≡ self.old.code) }
    {
        let Some((left, right)) = self.pop_two() else {
            return Ok(Step::Jammed);
        };
        match compute(self.alloc, operator, left, &right) {
            Ok(value) => self.push(value),
            Err(OpError::Fault(fault)) => Ok(Step::Stopped(Stop::OperatorFault(fault))),
            Err(OpError::OutOfMemory) => Err(AllocError),
        }
    }

    /// Replaces the topmost operand by its negation, or stops the run where it has none.
    pub(crate) fn neg(&mut self) -> Result<Step<V::Fault>, AllocError>
        requires place { self.old.place + 1 < 2 ^ 32 }
        ensures step { IfOk result (Does V.functions V.contents V.fault_contents self.old (Some
            code.Neg) self.new) }
        ensures same { OnOk result (self.new.code ≡ self.old.code) }
    {
        let Some(value) = self.pop() else {
            return Ok(Step::Jammed);
        };
        match value.neg(self.alloc) {
            Ok(value) => self.push(value),
            Err(OpError::Fault(fault)) => Ok(Step::Stopped(Stop::OperatorFault(fault))),
            Err(OpError::OutOfMemory) => Err(AllocError),
        }
    }

    /// Replaces the topmost operand by whether it is false.
    pub(crate) fn not(&mut self) -> Result<Step<V::Fault>, AllocError>
        requires place { self.old.place + 1 < 2 ^ 32 }
        ensures step { IfOk result (Does V.functions V.contents V.fault_contents self.old (Some
            code.Not) self.new) }
        ensures same { OnOk result (self.new.code ≡ self.old.code) }
    {
        let Some(value) = self.pop() else {
            return Ok(Step::Jammed);
        };
        self.push(V::of_bool(!value.is_true()))
    }

    /// Replaces the topmost operand by whether it is undefined.
    pub(crate) fn is_undefined(&mut self) -> Result<Step<V::Fault>, AllocError>
        requires place { self.old.place + 1 < 2 ^ 32 }
        ensures step { IfOk result (Does V.functions V.contents V.fault_contents self.old (Some
            code.IsUndefined) self.new) }
        ensures same { OnOk result (self.new.code ≡ self.old.code) }
    {
        let Some(value) = self.pop() else {
            return Ok(Step::Jammed);
        };
        self.push(V::of_bool(value.is_undefined()))
    }

    /// Replaces two operands by the upper one and whether their comparison holds, or stops the run
    /// at its fault.
    pub(crate) fn compare(&mut self, operator: CompareOp) -> Result<Step<V::Fault>, AllocError>
        requires place { self.old.place + 1 < 2 ^ 32 }
        ensures step { IfOk result (Does V.functions V.contents V.fault_contents self.old (Some
            (code.CompareAndPreserve (compared_by operator))) self.new) }
        ensures same { OnOk result (self.new.code ≡ self.old.code) }
    {
        let Some((left, right)) = self.pop_two() else {
            return Ok(Step::Jammed);
        };
        match holds(self.alloc, operator, &left, &right) {
            Ok(holds) => {
                self.operands.push(right)?;
                self.push(V::of_bool(holds))
            }
            Err(OpError::Fault(fault)) => Ok(Step::Stopped(Stop::OperatorFault(fault))),
            Err(OpError::OutOfMemory) => Err(AllocError),
        }
    }
}

/// What an operator gives of two values.
#[tactic(auto, unfolding(minijinja_tree_expr::specs::Operators::compute))]
fn compute<V: TemplateValue>(
    alloc: Global,
    operator: Binary,
    left: V,
    right: &V,
) -> Result<V, OpError<V::Fault>>
    ensures { IsOutcome V.contents V.fault_contents (Operators.compute V.functions (operator_of
        operator) (V.contents left) (V.contents right.now)) result }
{
    match operator {
        Binary::Add => left.add(alloc, right),
        Binary::Sub => left.sub(alloc, right),
        Binary::Mul => left.mul(alloc, right),
        Binary::IntDiv => left.int_div(alloc, right),
        Binary::Rem => left.rem(alloc, right),
        Binary::Pow => left.pow(alloc, right),
        Binary::StringConcat => Ok(left.concat(alloc, right)?),
        Binary::Eq => Ok(V::of_bool(left.equals(right))),
        Binary::Ne => Ok(V::of_bool(!left.equals(right))),
        Binary::Lt => Ok(V::of_bool(is_less(left.order(right)))),
        Binary::Lte => Ok(V::of_bool(is_at_most(left.order(right)))),
        Binary::Gt => Ok(V::of_bool(is_greater(left.order(right)))),
        Binary::Gte => Ok(V::of_bool(is_at_least(left.order(right)))),
        Binary::In => Ok(V::of_bool(right.contains(alloc, &left)?)),
    }
}

/// Whether a comparison of two values holds.
#[tactic(auto, unfolding(minijinja_tree_expr::specs::Comparisons::compares))]
fn holds<V: TemplateValue>(
    alloc: Global,
    operator: CompareOp,
    left: &V,
    right: &V,
) -> Result<bool, OpError<V::Fault>>
    ensures { IsOutcome (λ b. b) V.fault_contents (Comparisons.compares V.functions (compared_by
        operator) (V.contents left.now) (V.contents right.now)) result }
{
    match operator {
        CompareOp::Eq => Ok(left.equals(right)),
        CompareOp::Ne => Ok(!left.equals(right)),
        CompareOp::Lt => Ok(is_less(left.order(right))),
        CompareOp::Lte => Ok(is_at_most(left.order(right))),
        CompareOp::Gt => Ok(is_greater(left.order(right))),
        CompareOp::Gte => Ok(is_at_least(left.order(right))),
        CompareOp::In => right.contains(alloc, left),
        CompareOp::NotIn => match right.contains(alloc, left) {
            Ok(contained) => Ok(!contained),
            Err(error) => Err(error),
        },
    }
}

/// Whether the first stands before the second.
fn is_less(order: Option<Ordering>) -> bool
    ensures { result ≡ Comparisons.is_less order }
{
    matches!(order, Some(Ordering::Less))
}

/// Whether the first stands after the second.
fn is_greater(order: Option<Ordering>) -> bool
    ensures { result ≡ Comparisons.is_greater order }
{
    matches!(order, Some(Ordering::Greater))
}

/// Whether the first stands before the second, or at one place with it.
fn is_at_most(order: Option<Ordering>) -> bool
    ensures { result ≡ Comparisons.is_at_most order }
{
    matches!(order, Some(Ordering::Less | Ordering::Equal))
}

/// Whether the first stands after the second, or at one place with it.
fn is_at_least(order: Option<Ordering>) -> bool
    ensures { result ≡ Comparisons.is_at_least order }
{
    matches!(order, Some(Ordering::Greater | Ordering::Equal))
}
