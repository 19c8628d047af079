//! Scopes, and variables in them. A namespace and what was imported are scopes too.
use crate::loops::Loop;
use crate::machine::Machine;
use crate::values::{Kind, by_name, handle, longer, member, place_of};
use minijinja_compiler::value::{TemplateValue, Value};
use std::collections::BTreeMap;

/// Variables, within those of another scope. A loop is a scope too.
/// A scope stays to the end of a run: a macro sees what is stored where it was made.
#[derive(Drop)]
pub struct Scope<'t, 's> {
    pub outer: Option<usize>,
    pub variables: BTreeMap<&'t str, &'t Value>,
    pub turns: Option<Loop<'t, 's>>,
}

impl<'t, 's> Machine<'t, 's> {
    /// Makes a scope within the innermost one, and goes on in it.
    pub fn open_scope(&mut self, turns: Option<Loop<'t, 's>>) -> Option<()> {
        let scope = Scope {
            outer: self.frame.scope,
            variables: BTreeMap::new(self.alloc),
            turns,
        };
        self.frame.scope = Some(self.scopes.len());
        self.scopes.push(scope).ok()
    }

    /// Goes on in the scope around the innermost one.
    pub fn close_scope(&mut self) -> Option<()> {
        self.frame.scope = self.scopes.get(self.frame.scope?)?.outer;
        Some(())
    }

    /// Pops a value and stores it in the innermost scope. A list that is empty then may grow.
    pub fn store(&mut self, name: &'t str) -> Option<()> {
        let value = self.operands.pop()?;
        let value = match value {
            Value::List(items) if items.is_empty() => self.growing(value)?,
            _ => value,
        };
        self.set(self.frame.scope?, name, value)
    }

    /// What names a list that may grow.
    fn growing(&mut self, list: &'t Value) -> Option<&'t Value> {
        let named = handle(self.alloc, Kind::List, self.lists.len())?;
        self.lists.push(list).ok()?;
        self.keep(named)
    }

    /// Pops an item and adds it to a list that may grow, for all variables that are that list.
    pub fn append(&mut self, list: &'t Value) -> Option<()> {
        let item = self.pop()?;
        let place = place_of(Kind::List, list)?;
        let longer = longer(self.alloc, *self.lists.get(place)?, item)?;
        let longer = self.keep(longer)?;
        if place < self.lists.len() {
            self.lists[place] = longer;
        }
        self.operands.push(self.undefined).ok()
    }

    /// Stores a value in a scope.
    pub fn set(&mut self, scope: usize, name: &'t str, value: &'t Value) -> Option<()> {
        let scope = self.scopes.get_mut(scope)?;
        scope.variables.insert(name, value).ok()?;
        Some(())
    }

    /// What the innermost scope has that has a variable of this name.
    pub fn variable(&self, name: &'t str) -> Option<&'t Value> {
        let mut place = self.frame.scope;
        for _ in 0..self.scopes.len() {
            let scope = self.scopes.get(place?)?;
            if let Some(value) = scope.variables.get(&name) {
                return Some(*value);
            }
            place = scope.outer;
        }
        None
    }

    /// What an object has under a name, or else undefined. An undefined value has nothing.
    pub fn attribute(&self, object: &'t Value, name: &'t str) -> Option<&'t Value> {
        if object.is_undefined() {
            return None;
        }
        let found = match place_of(Kind::Scope, object) {
            Some(place) => self.scopes.get(place)?.variables.get(&name).copied(),
            None => member(object, name),
        };
        Some(found.unwrap_or(self.undefined))
    }

    /// Pops a namespace and a value, and stores the value there.
    pub fn set_attribute(&mut self, name: &'t str) -> Option<()> {
        let scope = place_of(Kind::Scope, self.pop()?)?;
        let value = self.pop()?;
        self.set(scope, name, value)
    }

    /// A namespace of the pairs of a map.
    pub fn namespace(&mut self, map: &'t Value) -> Option<Value> {
        let scope = Scope {
            outer: None,
            variables: by_name(self.alloc, map)?,
            turns: None,
        };
        let place = self.scopes.len();
        self.scopes.push(scope).ok()?;
        handle(self.alloc, Kind::Scope, place)
    }
}
