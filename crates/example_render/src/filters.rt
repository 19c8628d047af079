//! Filters and tests. The first argument of each is what it is asked of.
use crate::texts::write_changed;
use crate::values::{by_name, items, member, push_copies, string, text};
use minijinja_compiler::value::{Rendered, TemplateValue, Value};
use std::alloc::Global;
use std::cmp::Ordering;

/// What a filter makes of its arguments.
pub fn filtered(alloc: Global, name: &str, arguments: &[Value]) -> Option<Value> {
    let value = arguments.first()?;
    match name {
        "default" => or_default(value, arguments)?.try_clone().ok(),
        "length" => Some(Value::of_u64(length(value)? as u64)),
        "max" => greatest(value)?.try_clone().ok(),
        "dictsort" | "items" | "list" | "map" | "selectattr" => {
            let mut list = Vec::new(alloc);
            fill(&mut list, name, value, arguments)?;
            Some(Value::List(list))
        }
        _ => {
            let mut out = String::new(alloc);
            write_filtered(&mut out, name, value, arguments)?;
            Some(string(out))
        }
    }
}

/// The value, or else the second argument where it is undefined, or also where it is false if the
/// third argument is true.
fn or_default<'v>(value: &'v Value, arguments: &'v [Value]) -> Option<&'v Value> {
    let is_missing = match arguments.get(2) {
        Some(all) if all.is_true() => !value.is_true(),
        _ => value.is_undefined(),
    };
    match is_missing {
        true => arguments.get(1),
        false => Some(value),
    }
}

/// How many characters a text has, or how many items.
fn length(value: &Value) -> Option<usize> {
    match value {
        Value::String(text) => Some(text.as_str().chars().count()),
        Value::Map(map) => Some(map.len()),
        _ => Some(items(value)?.len()),
    }
}

fn greatest(value: &Value) -> Option<&Value> {
    let items = items(value)?;
    let mut greatest = items.first()?;
    for item in items {
        if item.order(greatest)? == Ordering::Greater {
            greatest = item;
        }
    }
    Some(greatest)
}

/// Adds the items that a filter gives.
fn fill(list: &mut Vec<Value>, name: &str, value: &Value, arguments: &[Value]) -> Option<()> {
    match name {
        "dictsort" => push_sorted(list, value),
        "items" => push_pairs(list, value),
        "list" => push_copies(list, items(value)?),
        "map" => push_attributes(list, items(value)?, attribute_named(arguments)?),
        _ => push_selected(list, items(value)?, text(arguments.get(1)?)?),
    }
}

/// Adds the pairs of a map, in the order of the names.
fn push_sorted(list: &mut Vec<Value>, map: &Value) -> Option<()> {
    let alloc = *list.allocator();
    for (name, value) in &by_name(alloc, map)? {
        push_pair(list, &Value::of_str(alloc, name).ok()?, value)?;
    }
    Some(())
}

fn push_pairs(list: &mut Vec<Value>, map: &Value) -> Option<()> {
    if let Value::Map(map) = map {
        for (name, value) in map.iter() {
            push_pair(list, name, value)?;
        }
    }
    Some(())
}

fn push_pair(list: &mut Vec<Value>, name: &Value, value: &Value) -> Option<()> {
    let mut pair = Vec::new(*list.allocator());
    pair.push(name.try_clone().ok()?).ok()?;
    pair.push(value.try_clone().ok()?).ok()?;
    list.push(Value::Tuple(pair)).ok()
}

/// Adds an attribute of each item.
fn push_attributes(list: &mut Vec<Value>, items: &[Value], name: &str) -> Option<()> {
    for item in items {
        let copy = match member(item, name) {
            Some(value) => value.try_clone().ok()?,
            None => Value::Undefined,
        };
        list.push(copy).ok()?;
    }
    Some(())
}

/// Adds the items that have an attribute which is true.
fn push_selected(list: &mut Vec<Value>, items: &[Value], name: &str) -> Option<()> {
    for item in items {
        if let Some(value) = member(item, name)
            && value.is_true()
        {
            list.push(item.try_clone().ok()?).ok()?;
        }
    }
    Some(())
}

/// The keyword argument `attribute`.
fn attribute_named(arguments: &[Value]) -> Option<&str> {
    text(member(arguments.last()?, "attribute")?)
}

/// Writes the text that a filter gives.
fn write_filtered(out: &mut String, name: &str, value: &Value, arguments: &[Value]) -> Option<()> {
    match name {
        "join" => write_joined(out, items(value)?, arguments),
        "quote" | "tojson" => write!(out, "{value}").ok(),
        _ => write_text(out, name, value, arguments),
    }
}

/// Writes what a filter of texts makes of a value as it is written.
fn write_text(out: &mut String, name: &str, value: &Value, arguments: &[Value]) -> Option<()> {
    let text = Rendered(value).to_string(*out.allocator()).ok()?;
    write_changed(out, name, text.as_str(), arguments)
}

/// Writes items, or an attribute of each, with a text between them.
fn write_joined(out: &mut String, items: &[Value], arguments: &[Value]) -> Option<()> {
    let between = text(arguments.get(1)?)?;
    let attribute = attribute_named(arguments);
    for (index, item) in items.iter().enumerate() {
        if index > 0 {
            out.push_str(between).ok()?;
        }
        let shown = match attribute {
            Some(name) => member(item, name)?,
            None => item,
        };
        write!(out, "{}", Rendered(shown)).ok()?;
    }
    Some(())
}

/// Whether a test succeeds.
pub fn tested(alloc: Global, name: &str, arguments: &[Value]) -> Option<bool> {
    let value = arguments.first()?;
    match name {
        "defined" => Some(!value.is_undefined()),
        "divisibleby" => Some(!value.rem(alloc, arguments.get(1)?).ok()?.is_true()),
        "false" => Some(matches!(value, Value::Bool(false))),
        "integer" => Some(matches!(value, Value::Integer(_))),
        "mapping" => Some(matches!(value, Value::Map(_))),
        "none" => Some(matches!(value, Value::None)),
        "startingwith" => Some(text(value)?.starts_with(text(arguments.get(1)?)?)),
        "string" => Some(text(value).is_some()),
        "true" => Some(matches!(value, Value::Bool(true))),
        _ => None,
    }
}
