//! How maps are built, and values copied.
ghost use Rattle.std.specs.Prelude.{◌≡◌, IfOk, OnOk, OnErr};
ghost use Rattle.minijinja_value.specs.Outcomes.{map_pairs};
ghost use Rattle.minijinja_value.specs.ValueFunctions as spec;
ghost use Rattle.minijinja_value.specs.ValueViews.{contents_of, items_view, pairs_view, map_view};

use super::compare::position_of_key;
use super::{Value, ValueMap};
use std::alloc::{AllocError, Global};

/// Puts the pairs one after another: an equal key keeps its place and takes the new value.
pub(super) fn distinct(
    alloc: Global,
    pairs: Vec<(Value, Value)>,
) -> Result<Vec<(Value, Value)>, AllocError>
    ensures { IfOk result
        (λ made. pairs_view made.items ≡ spec.built (map_pairs contents_of pairs.items)) }
{
    let mut made = Vec::new(alloc);
    for (key, value) in pairs {
        put(&mut made, key, value)?;
    }
    Ok(made)
}

/// Puts a value for a key. An equal key keeps its place and takes the new value.
pub(super) fn put(
    made: &mut Vec<(Value, Value)>,
    key: Value,
    value: Value,
) -> Result<(), AllocError>
    ensures ok { OnOk result (pairs_view made.new.items
        ≡ spec.put (contents_of key) (contents_of value) (pairs_view made.old.items)) }
    ensures err { OnErr result (pairs_view made.new.items ≡ pairs_view made.old.items) }
{
    match position_of_key(made, &key) {
        Some(at) => made[at].1 = value,
        None => made.push((key, value))?,
    }
    Ok(())
}

/// A value with equal contents and memory of its own.
#[cycle(copy)]
pub(super) fn copy(value: &Value) -> Result<Value, AllocError>
    ensures { IfOk result (λ v. contents_of v ≡ contents_of value.now) }
{
    match value {
        Value::Undefined => Ok(Value::Undefined),
        Value::SilentUndefined => Ok(Value::SilentUndefined),
        Value::None => Ok(Value::None),
        Value::Bool(truth) => Ok(Value::Bool(*truth)),
        Value::Integer(number) => Ok(Value::Integer(*number)),
        Value::String(text) => Ok(Value::String(text.try_clone()?)),
        Value::List(items) => Ok(Value::List(copy_items(items)?)),
        Value::Tuple(items) => Ok(Value::Tuple(copy_items(items)?)),
        Value::Map(map) => Ok(Value::Map(copy_map(map)?)),
        Value::Kwargs(map) => Ok(Value::Kwargs(copy_map(map)?)),
    }
}

#[cycle(copy)]
fn copy_items(items: &Vec<Value>) -> Result<Vec<Value>, AllocError>
    ensures { IfOk result (λ v. items_view v.items ≡ items_view items.now.items) }
{
    let mut copies = Vec::with_capacity(*items.allocator(), items.len())?;
    for item in items {
        copies.push(copy(item)?)?;
    }
    Ok(copies)
}

#[cycle(copy)]
fn copy_map(map: &ValueMap) -> Result<ValueMap, AllocError>
    ensures { IfOk result (λ m. map_view m ≡ map_view map.now) }
{
    let mut copies = Vec::with_capacity(*map.pairs.allocator(), map.pairs.len())?;
    for (key, value) in &map.pairs {
        let key = copy(key)?;
        copies.push((key, copy(value)?))?;
    }
    Ok(ValueMap { pairs: copies })
}
