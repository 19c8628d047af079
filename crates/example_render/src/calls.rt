//! Macros, functions and methods.
use crate::machine::{Frame, Machine};
use crate::values::{Kind, handle, is_named, item, items, member, place_of, without};
use minijinja_compiler::value::Value;

/// A macro: where it begins, in the scope that it was made in, and the list of the names of its
/// parameters.
#[derive(Clone, Copy)]
pub struct Macro<'t, 's> {
    start: Frame<'t, 's>,
    parameters: &'t Value,
}

impl<'t, 's> Machine<'t, 's> {
    /// Makes a macro, and pops its closure, which it does not need.
    pub fn build_macro(&mut self, entry: u32) -> Option<Value> {
        let (parameters, _) = (self.pop()?, self.pop()?);
        let mut start = self.frame;
        start.next = entry;
        let place = self.macros.len();
        self.macros.push(Macro { start, parameters }).ok()?;
        handle(self.alloc, Kind::Macro, place)
    }

    /// Begins the macro of a name, or else pushes what a function of the host gives.
    pub fn call_function(&mut self, name: &'t str, count: Option<u16>) -> Option<()> {
        let count = self.pop_count(count.map(usize::from))?;
        if let Some(called) = self.variable(name) {
            return self.call(called, count);
        }
        let value = self.call_host(name, count)?;
        let value = self.keep(value)?;
        self.operands.push(value).ok()
    }

    /// What a function of the host makes of its arguments, which are popped.
    fn call_host(&mut self, name: &str, count: usize) -> Option<Value> {
        match name {
            "namespace" => {
                let (_, named) = self.pop_named(count)?;
                self.namespace(named)
            }
            "code_of" => {
                let name = self.pop_many(count)?;
                self.code_of(name.first()?)
            }
            "remarks_of" => {
                let remarks = self.pop_many(count.checked_sub(1)?)?;
                self.operands.pop();
                Some(Value::List(remarks))
            }
            _ => None,
        }
    }

    /// Begins the macro of a name in what was imported, or does what a list or `loop` can do.
    pub fn call_method(&mut self, name: &'t str, count: Option<u16>) -> Option<()> {
        let count = self.pop_count(count.map(usize::from))?.checked_sub(1)?;
        let place = self.operands.len().checked_sub(count)?.checked_sub(1)?;
        let object = self.operands.remove(place);
        if place_of(Kind::Scope, object).is_some() {
            let called = self.attribute(object, name)?;
            return self.call(called, count);
        }
        match name {
            "append" => self.append(object),
            "cycle" => self.cycle(object, count),
            _ => None,
        }
    }

    /// Begins a macro over a value for each of its parameters, with the arguments that are left in
    /// `varargs` and `kwargs`. What it writes is captured.
    fn call(&mut self, called: &'t Value, count: usize) -> Option<()> {
        let called = *self.macros.get(place_of(Kind::Macro, called)?)?;
        let (count, named) = self.pop_named(count)?;
        let parameters = items(called.parameters)?;
        let others = self.pop_kept(count.saturating_sub(parameters.len()))?;
        self.push_named(parameters, count, named)?;
        self.callers.push(self.frame).ok()?;
        self.frame = called.start;
        self.open_scope(None)?;
        self.store_others(others, named, parameters)?;
        self.begin_capture()
    }

    /// Pushes a value for each parameter behind the first ones, by its name.
    fn push_named(&mut self, parameters: &[Value], first: usize, named: &'t Value) -> Option<()> {
        for parameter in parameters.iter().skip(first) {
            let value = item(named, parameter, self.undefined);
            self.operands.push(value.unwrap_or(self.undefined)).ok()?;
        }
        Some(())
    }

    /// Stores what no parameter of a macro takes.
    fn store_others(
        &mut self,
        others: &'t Value,
        named: &'t Value,
        parameters: &[Value],
    ) -> Option<()> {
        let scope = self.frame.scope?;
        let map = without(self.alloc, named, parameters)?;
        let map = self.keep(map)?;
        let caller = member(named, "caller").unwrap_or(self.undefined);
        self.set(scope, "varargs", others)?;
        self.set(scope, "kwargs", map)?;
        self.set(scope, "caller", caller)
    }

    /// Pops the keyword arguments, if there are any: how many others there are, and these.
    fn pop_named(&mut self, count: usize) -> Option<(usize, &'t Value)> {
        if count > 0
            && let Some(named) = self.operands.last().copied()
            && is_named(named)
        {
            self.operands.pop();
            return Some((count.saturating_sub(1), named));
        }
        Some((count, self.undefined))
    }
}
