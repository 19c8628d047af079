//! When two values are equal, and their order.
ghost use Rattle.std.specs.Prelude.{◌≡◌, ◌&&◌, ◌==◌};
ghost use Rattle.minijinja_value.specs.ValueContents as contents;
ghost use Rattle.minijinja_value.specs.ValueComparison as spec;
ghost use Rattle.minijinja_value.specs.ValueViews.{contents_of, items_view, pairs_view};

use super::Value;
use std::cmp::Ordering;

/// Whether two values of one kind hold equal things, or both are undefined.
#[cycle(equals)]
pub(super) fn equals(left: &Value, right: &Value) -> bool
    ensures { result ≡ spec.equals (contents_of left.now) (contents_of right.now) }
{
    match left {
        Value::Undefined | Value::SilentUndefined => {
            matches!(right, Value::Undefined | Value::SilentUndefined)
        }
        Value::None => matches!(right, Value::None),
        Value::Bool(truth) => matches!(right, Value::Bool(other) if truth == other),
        Value::Integer(number) => matches!(right, Value::Integer(other) if number == other),
        Value::String(text) =>
            matches!(right, Value::String(other) if text.as_str() == other.as_str()),
        Value::List(items) => matches!(right, Value::List(others) if items_equal(items, others)),
        Value::Tuple(items) => matches!(right, Value::Tuple(others) if items_equal(items, others)),
        Value::Map(map) =>
            matches!(right, Value::Map(other) if pairs_equal(&map.pairs, &other.pairs)),
        Value::Kwargs(map) =>
            matches!(right, Value::Kwargs(other) if pairs_equal(&map.pairs, &other.pairs)),
    }
}

/// Whether there are as many items, each equal to that at its place.
#[cycle(equals)]
fn items_equal(items: &Vec<Value>, others: &Vec<Value>) -> bool
    ensures { result ≡ spec.items_equal (items_view items.now.items) (items_view others.now.items) }
{
    if items.len() != others.len() {
        return false;
    }
    for i in 0..items.len() {
        if !equals(&items[i], &others[i]) {
            return false;
        }
    }
    true
}

/// Whether there are as many pairs, each equal to one of the others.
#[cycle(equals)]
fn pairs_equal(pairs: &Vec<(Value, Value)>, others: &Vec<(Value, Value)>) -> bool
    ensures { result ≡ ((spec.pair_count (pairs_view pairs.now.items) == spec.pair_count
        (pairs_view others.now.items)) && spec.are_pairs_in (pairs_view pairs.now.items)
        (pairs_view others.now.items)) }
{
    if pairs.len() != others.len() {
        return false;
    }
    'pairs: for (key, value) in pairs {
        for (other_key, other_value) in others {
            if equals(key, other_key) && equals(value, other_value) {
                continue 'pairs;
            }
        }
        return false;
    }
    true
}

/// The order of two values, if they have one.
#[cycle(order)]
pub(super) fn order(left: &Value, right: &Value) -> Option<Ordering>
    ensures { result ≡ spec.order (contents_of left.now) (contents_of right.now) }
{
    match (left, right) {
        (Value::Bool(truth), Value::Bool(other)) => Some(truth.cmp(other)),
        (Value::Integer(number), Value::Integer(other)) => Some(number.cmp(other)),
        (Value::String(text), Value::String(other)) => Some(text.as_str().cmp(&other.as_str())),
        (Value::List(items), Value::List(others)) => items_order(items, others),
        (Value::Tuple(items), Value::Tuple(others)) => items_order(items, others),
        _ => None,
    }
}

/// The order by the first two items that are not equal, and then by the lengths.
#[cycle(order)]
fn items_order(items: &Vec<Value>, others: &Vec<Value>) -> Option<Ordering>
    ensures { result ≡ spec.items_order (items_view items.now.items) (items_view others.now.items) }
{
    let shorter = items.len().min(others.len());
    for i in 0..shorter {
        match order(&items[i], &others[i]) {
            Some(Ordering::Equal) => {}
            decided => return decided,
        }
    }
    Some(items.len().cmp(&others.len()))
}

/// Whether an item is equal to the value.
pub(super) fn has_item(items: &Vec<Value>, value: &Value) -> bool
    ensures { result ≡ spec.has_item (contents_of value.now) (items_view items.now.items) }
{
    for item in items {
        if equals(item, value) {
            return true;
        }
    }
    false
}

/// The place of the first key that is equal to the value.
pub(super) fn position_of_key(pairs: &Vec<(Value, Value)>, key: &Value) -> Option<usize>
    ensures { result ≡ spec.position_of_key (contents_of key.now) (pairs_view pairs.now.items) }
{
    for (i, pair) in pairs.iter().enumerate() {
        if equals(&pair.0, key) {
            return Some(i);
        }
    }
    None
}

/// Whether a value is this text.
fn is_text(value: &Value, key: &str) -> bool
    ensures { result ≡ spec.equals (contents_of value.now) (contents.text key.now) }
{
    matches!(value, Value::String(own) if own.as_str() == key)
}

/// The place of the first key that is this text.
pub(super) fn position_of_text(pairs: &Vec<(Value, Value)>, key: &str) -> Option<usize>
    ensures { result ≡ spec.position_of_key (contents.text key.now)
        (pairs_view pairs.now.items) }
{
    for (i, pair) in pairs.iter().enumerate() {
        if is_text(&pair.0, key) {
            return Some(i);
        }
    }
    None
}
