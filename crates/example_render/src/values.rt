//! Values: what is in them, what is made of them, and what operators give.
use minijinja_compiler::instructions::Instruction;
use minijinja_compiler::value::{TemplateValue, Text, Value, ValueMap};
use std::alloc::Global;
use std::cmp::Ordering;
use std::collections::BTreeMap;

/// What a text is, if the value is one.
pub fn text(value: &Value) -> Option<&str> {
    match value {
        Value::String(text) => Some(text.as_str()),
        _ => None,
    }
}

/// A text as a value.
pub fn string(text: String) -> Value {
    Value::String(Text::from_string(text))
}

/// The items of a list or a tuple. An undefined value has none.
pub fn items(value: &Value) -> Option<&[Value]> {
    match value {
        Value::List(items) | Value::Tuple(items) => Some(items),
        Value::Undefined | Value::SilentUndefined => Some(&[]),
        _ => None,
    }
}

/// What a map has under a name.
pub fn member<'v>(object: &'v Value, name: &str) -> Option<&'v Value> {
    match object {
        Value::Map(map) | Value::Kwargs(map) => map.get_str(name),
        _ => None,
    }
}

/// What a map has under a key, or a list at an index, or else undefined.
pub fn item<'v>(object: &'v Value, key: &Value, undefined: &'v Value) -> Option<&'v Value> {
    let found = match object {
        Value::Map(map) | Value::Kwargs(map) => map.get(key),
        Value::List(items) | Value::Tuple(items) => items.get(key.as_count()?),
        _ => return None,
    };
    Some(found.unwrap_or(undefined))
}

/// The values of a map, by the names that they have there. An undefined value has none.
pub fn by_name(alloc: Global, map: &Value) -> Option<BTreeMap<&str, &Value>> {
    let mut values = BTreeMap::new(alloc);
    if let Value::Map(map) | Value::Kwargs(map) = map {
        for (name, value) in map.iter() {
            values.insert(text(name)?, value).ok()?;
        }
    }
    Some(values)
}

/// What the machine keeps itself, and a value only names.
#[derive(Clone, Copy)]
pub enum Kind {
    Macro,
    Scope,
    /// A list that may grow.
    List,
}

impl Kind {
    fn name(self) -> &'static str {
        match self {
            Kind::Macro => "macro",
            Kind::Scope => "scope",
            Kind::List => "list",
        }
    }
}

/// A value that names what the machine keeps at a place. The names of keyword arguments are texts,
/// so no template has a value like this.
pub fn handle(alloc: Global, kind: Kind, place: usize) -> Option<Value> {
    let name = Value::of_str(alloc, kind.name()).ok()?;
    let mut map = ValueMap::new(alloc);
    map.insert(Value::of_u64(place as u64), name).ok()?;
    Some(Value::Kwargs(map))
}

/// The place of what a value names, if it is of a kind.
pub fn place_of(kind: Kind, value: &Value) -> Option<usize> {
    let Value::Kwargs(map) = value else {
        return None;
    };
    let (place, name) = map.pairs().first()?;
    if text(name)? != kind.name() {
        return None;
    }
    place.as_count()
}

/// Whether a value is keyword arguments.
pub fn is_named(value: &Value) -> bool {
    let Value::Kwargs(map) = value else {
        return false;
    };
    match map.pairs().first() {
        Some((name, _)) => text(name).is_some(),
        None => true,
    }
}

/// A list with one more item.
pub fn longer(alloc: Global, list: &Value, item: &Value) -> Option<Value> {
    let mut all = Vec::new(alloc);
    push_copies(&mut all, items(list)?)?;
    all.push(item.try_clone().ok()?).ok()?;
    Some(Value::List(all))
}

/// A list of the items of one and then of another.
fn joined(alloc: Global, left: &[Value], right: &[Value]) -> Option<Value> {
    let mut all = Vec::new(alloc);
    push_copies(&mut all, left)?;
    push_copies(&mut all, right)?;
    Some(Value::List(all))
}

/// Adds copies of values to a list.
pub fn push_copies(list: &mut Vec<Value>, values: &[Value]) -> Option<()> {
    for value in values {
        list.push(value.try_clone().ok()?).ok()?;
    }
    Some(())
}

/// The items of a list from a start to a stop, each of which may be none.
pub fn part(alloc: Global, list: &Value, start: &Value, stop: &Value) -> Option<Value> {
    let items = items(list)?;
    let stop = match stop {
        Value::None => items.len(),
        _ => stop.as_count()?.min(items.len()),
    };
    let start = match start {
        Value::None => 0,
        _ => start.as_count()?.min(stop),
    };
    joined(alloc, &items[start..stop], &[])
}

/// A map of copies of keys, each before its value.
pub fn pairs(alloc: Global, values: &[Value]) -> Option<ValueMap> {
    let mut map = ValueMap::new(alloc);
    for pair in values.chunks(2) {
        insert_copy(&mut map, pair.first()?, pair.last()?)?;
    }
    Some(map)
}

/// A map of the pairs of several.
pub fn merged(alloc: Global, maps: &[Value]) -> Option<ValueMap> {
    let mut all = ValueMap::new(alloc);
    for map in maps {
        insert_copies(&mut all, map, &[])?;
    }
    Some(all)
}

/// A map of the pairs of keyword arguments that no parameter takes. `caller` is none of them.
pub fn without(alloc: Global, named: &Value, parameters: &[Value]) -> Option<Value> {
    let mut others = ValueMap::new(alloc);
    insert_copies(&mut others, named, parameters)?;
    Some(Value::Map(others))
}

/// Inserts copies of the pairs of a map whose names are texts, but not those of some names.
fn insert_copies(all: &mut ValueMap, map: &Value, without: &[Value]) -> Option<()> {
    match map {
        Value::Map(map) | Value::Kwargs(map) => {
            for (name, value) in map.iter() {
                if !without.contains(name) {
                    insert_copy(all, name, value)?;
                }
            }
            Some(())
        }
        _ => Some(())
    }
}

fn insert_copy(map: &mut ValueMap, key: &Value, value: &Value) -> Option<()> {
    map.insert(key.try_clone().ok()?, value.try_clone().ok()?)
        .ok()
}

/// What an operator makes of two values.
pub fn answer(alloc: Global, operator: &Instruction, left: &Value, right: &Value) -> Option<Value> {
    match operator {
        Instruction::Add => sum(alloc, left, right),
        Instruction::Sub => left.sub(alloc, right).ok(),
        Instruction::Mul => product(alloc, left, right),
        Instruction::IntDiv => left.int_div(alloc, right).ok(),
        Instruction::Rem => left.rem(alloc, right).ok(),
        Instruction::Pow => left.pow(alloc, right).ok(),
        Instruction::StringConcat => left.try_clone().ok()?.concat(alloc, right).ok(),
        comparison => Some(Value::Bool(holds(alloc, comparison, left, right)?)),
    }
}

/// The sum of numbers, and the items of two lists.
fn sum(alloc: Global, left: &Value, right: &Value) -> Option<Value> {
    match (left, right) {
        (Value::List(left), Value::List(right)) => joined(alloc, left, right),
        _ => left.add(alloc, right).ok(),
    }
}

/// The product of numbers, and a text that many times.
fn product(alloc: Global, left: &Value, right: &Value) -> Option<Value> {
    match (left, right) {
        (Value::String(text), Value::Integer(_)) => {
            let count = right.as_count().unwrap_or(0);
            Some(string(text.as_str().repeat(alloc, count).ok()?))
        }
        _ => left.mul(alloc, right).ok(),
    }
}

fn holds(alloc: Global, comparison: &Instruction, left: &Value, right: &Value) -> Option<bool> {
    let order = left.order(right);
    match comparison {
        Instruction::In => right.contains(alloc, left).ok(),
        Instruction::Eq => Some(left.equals(right)),
        Instruction::Ne => Some(!left.equals(right)),
        Instruction::Lt => Some(order? == Ordering::Less),
        Instruction::Gt => Some(order? == Ordering::Greater),
        Instruction::Lte => Some(order? != Ordering::Greater),
        Instruction::Gte => Some(order? != Ordering::Less),
        _ => None,
    }
}
