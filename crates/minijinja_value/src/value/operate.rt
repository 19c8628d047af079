//! The operators of values.
ghost use Rattle.std.specs.Prelude.{◌≡◌, IfOk, ◌+ℤ◌, ◌-ℤ◌, ◌*ℤ◌};
ghost use Rattle.minijinja_value.specs.Outcomes.{IsOutcome, IsNotOutOfMemory};
ghost use Rattle.minijinja_value.specs.ValueFunctions as spec;
ghost use Rattle.minijinja_value.specs.ValueWords.{rendered};
ghost use Rattle.minijinja_value.specs.ValueViews.{contents_of};

use super::compare::{has_item, position_of_key};
use super::{Integer, OpError, Rendered, Text, Value, ValueFault};
use std::alloc::{AllocError, Global};

/// The texts of two values joined, in the memory of the first where it has some.
pub(super) fn concat(left: Value, alloc: Global, right: &Value) -> Result<Value, AllocError>
    ensures { IfOk result
        (λ v. contents_of v ≡ spec.concat (contents_of left) (contents_of right.now)) }
{
    let text = match left {
        Value::String(own) => own,
        other => rendered_text(alloc, &other)?,
    };
    let text = match right {
        Value::String(own) => text.followed_by(alloc, own.as_str())?,
        other => text.followed_by(alloc, rendered_text(alloc, other)?.as_str())?,
    };
    Ok(Value::String(text))
}

/// What a template prints for a value.
fn rendered_text(alloc: Global, value: &Value) -> Result<Text, AllocError>
    ensures { IfOk result (λ t. t ≡ rendered (contents_of value.now)) }
{
    Ok(Text::from_string(Rendered(value).to_string(alloc)?))
}

/// Whether an item is in a value.
pub(super) fn contains(value: &Value, item: &Value) -> Result<bool, OpError<ValueFault>>
    ensures outcome { IsOutcome (λ b. b) (λ f. f)
        (spec.contains (contents_of value.now) (contents_of item.now)) result }
    ensures needs_no_memory { IsNotOutOfMemory result }
{
    match value {
        Value::String(text) => match item {
            Value::String(part) => Ok(has_text(text.as_str(), part.as_str())),
            _ => Err(OpError::Fault(ValueFault::WrongType)),
        },
        Value::List(items) => Ok(has_item(items, item)),
        Value::Tuple(items) => Ok(has_item(items, item)),
        Value::Map(map) => Ok(position_of_key(&map.pairs, item).is_some()),
        Value::Kwargs(map) => Ok(position_of_key(&map.pairs, item).is_some()),
        _ => Err(OpError::Fault(ValueFault::WrongType)),
    }
}

/// Whether the part stands somewhere in the text.
fn has_text(text: &str, part: &str) -> bool
    ensures { result ≡ spec.has_text text.now part.now }
{
    text.contains(part)
}

/// The integer that a value holds, if it holds one.
fn as_integer(value: &Value) -> Option<Integer>
    ensures { result ≡ spec.as_integer (contents_of value.now) }
{
    match value {
        Value::Integer(number) => Some(*number),
        _ => None,
    }
}

/// The value of an integer in range, and an overflow for one that was not.
fn or_overflow(number: Option<Integer>) -> Result<Value, OpError<ValueFault>>
    ensures outcome { IsOutcome contents_of (λ f. f) (spec.or_overflow number) result }
    ensures needs_no_memory { IsNotOutOfMemory result }
{
    match number {
        Some(number) => Ok(Value::Integer(number)),
        None => Err(OpError::Fault(ValueFault::Overflow)),
    }
}

/// The value with the other sign.
pub(super) fn neg(value: &Value) -> Result<Value, OpError<ValueFault>>
    ensures outcome { IsOutcome contents_of (λ f. f) (spec.neg (contents_of value.now)) result }
    ensures needs_no_memory { IsNotOutOfMemory result }
{
    match as_integer(value) {
        Some(number) => or_overflow(number.checked_neg()),
        None => Err(OpError::Fault(ValueFault::WrongType)),
    }
}

/// The sum.
pub(super) fn add(left: &Value, right: &Value) -> Result<Value, OpError<ValueFault>>
    ensures outcome { IsOutcome contents_of (λ f. f) (spec.on_integers (λ a b. spec.ranged (a +ℤ b))
        (contents_of left.now) (contents_of right.now)) result }
    ensures needs_no_memory { IsNotOutOfMemory result }
{
    match (as_integer(left), as_integer(right)) {
        (Some(left), Some(right)) => or_overflow(left.checked_add(right)),
        _ => Err(OpError::Fault(ValueFault::WrongType)),
    }
}

/// The difference.
pub(super) fn sub(left: &Value, right: &Value) -> Result<Value, OpError<ValueFault>>
    ensures outcome { IsOutcome contents_of (λ f. f) (spec.on_integers (λ a b. spec.ranged (a -ℤ b))
        (contents_of left.now) (contents_of right.now)) result }
    ensures needs_no_memory { IsNotOutOfMemory result }
{
    match (as_integer(left), as_integer(right)) {
        (Some(left), Some(right)) => or_overflow(left.checked_sub(right)),
        _ => Err(OpError::Fault(ValueFault::WrongType)),
    }
}

/// The product.
pub(super) fn mul(left: &Value, right: &Value) -> Result<Value, OpError<ValueFault>>
    ensures outcome { IsOutcome contents_of (λ f. f) (spec.on_integers (λ a b. spec.ranged (a *ℤ b))
        (contents_of left.now) (contents_of right.now)) result }
    ensures needs_no_memory { IsNotOutOfMemory result }
{
    match (as_integer(left), as_integer(right)) {
        (Some(left), Some(right)) => or_overflow(left.checked_mul(right)),
        _ => Err(OpError::Fault(ValueFault::WrongType)),
    }
}

/// The quotient whose remainder is not negative.
pub(super) fn int_div(left: &Value, right: &Value) -> Result<Value, OpError<ValueFault>>
    ensures outcome { IsOutcome contents_of (λ f. f)
        (spec.on_integers spec.divided (contents_of left.now) (contents_of right.now)) result }
    ensures needs_no_memory { IsNotOutOfMemory result }
{
    match (as_integer(left), as_integer(right)) {
        (Some(left), Some(right)) => {
            if right.is_zero() {
                return Err(OpError::Fault(ValueFault::DivisionByZero));
            }
            or_overflow(left.checked_div_euclid(right))
        }
        _ => Err(OpError::Fault(ValueFault::WrongType)),
    }
}

/// The remainder that is not negative.
pub(super) fn rem(left: &Value, right: &Value) -> Result<Value, OpError<ValueFault>>
    ensures outcome { IsOutcome contents_of (λ f. f)
        (spec.on_integers spec.left_over (contents_of left.now) (contents_of right.now)) result }
    ensures needs_no_memory { IsNotOutOfMemory result }
{
    match (as_integer(left), as_integer(right)) {
        (Some(left), Some(right)) => {
            if right.is_zero() {
                return Err(OpError::Fault(ValueFault::DivisionByZero));
            }
            Ok(Value::Integer(left.rem_euclid(right)))
        }
        _ => Err(OpError::Fault(ValueFault::WrongType)),
    }
}

/// The power.
pub(super) fn pow(left: &Value, right: &Value) -> Result<Value, OpError<ValueFault>>
    ensures outcome { IsOutcome contents_of (λ f. f)
        (spec.on_integers spec.power (contents_of left.now) (contents_of right.now)) result }
    ensures needs_no_memory { IsNotOutOfMemory result }
{
    match (as_integer(left), as_integer(right)) {
        (Some(left), Some(right)) => match right.parts() {
            (false, exponent) => or_overflow(left.checked_pow(exponent)),
            (true, _) => Err(OpError::Fault(ValueFault::WrongType)),
        },
        _ => Err(OpError::Fault(ValueFault::WrongType)),
    }
}
