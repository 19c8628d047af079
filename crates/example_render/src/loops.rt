//! Loops, and the variable `loop`.
use crate::machine::{Frame, Machine};
use crate::values::{items, member};
use minijinja_compiler::instructions::{LOOP_FLAG_RECURSIVE, LOOP_FLAG_WITH_LOOP_VAR};
use minijinja_compiler::value::{TemplateValue, Value, ValueMap};
use std::alloc::Global;

/// A loop: the items that it goes over, and how far it came.
#[derive(Clone, Copy)]
pub struct Loop<'t, 's> {
    items: &'t [Value],
    /// How many of the items came, with that of this turn.
    index: usize,
    flags: u8,
    /// Where its turns begin.
    start: Frame<'t, 's>,
    /// How many loops it was run from, as one that is run again.
    depth: usize,
    /// How many operands there were when it was run again.
    operands: Option<usize>,
}

impl<'t, 's> Machine<'t, 's> {
    /// Begins a loop over the items of a value, which is popped.
    pub fn open_loop(&mut self, flags: u8) -> Option<()> {
        let turns = Loop {
            items: items(self.pop()?)?,
            index: 0,
            flags,
            start: self.frame,
            depth: 0,
            operands: None,
        };
        self.open_scope(Some(turns))
    }

    /// Runs the innermost recursive loop again over the items of a value, which is popped.
    pub fn recurse(&mut self) -> Option<()> {
        let items = items(self.pop()?)?;
        let around = self.loop_around()?;
        if around.flags & LOOP_FLAG_RECURSIVE == 0 {
            return None;
        }
        let turns = Loop {
            items,
            index: 0,
            flags: around.flags,
            start: around.start,
            depth: around.depth.saturating_add(1),
            operands: Some(self.operands.len()),
        };
        self.callers.push(self.frame).ok()?;
        self.open_scope(Some(turns))?;
        self.frame = Frame {
            scope: self.frame.scope,
            ..around.start
        };
        Some(())
    }

    /// The innermost loop that has a variable.
    fn loop_around(&self) -> Option<Loop<'t, 's>> {
        let mut place = self.frame.scope;
        for _ in 0..self.scopes.len() {
            let scope = self.scopes.get(place?)?;
            if let Some(turns) = scope.turns
                && turns.flags & LOOP_FLAG_WITH_LOOP_VAR != 0
            {
                return Some(turns);
            }
            place = scope.outer;
        }
        None
    }

    /// Pushes the next item of the innermost loop, or jumps to the end.
    pub fn iterate(&mut self, end: u32) -> Option<()> {
        let scope = self.scopes.get_mut(self.frame.scope?)?;
        let mut turns = scope.turns?;
        let Some(item) = turns.items.get(turns.index) else {
            return self.jump(end);
        };
        turns.index = turns.index.saturating_add(1);
        scope.turns = Some(turns);
        scope.variables.clear();
        if turns.flags & LOOP_FLAG_WITH_LOOP_VAR != 0 {
            let about = about_loop(self.alloc, turns)?;
            let about = self.keep(about)?;
            self.set(self.frame.scope?, "loop", about)?;
        }
        self.operands.push(item).ok()
    }

    /// Whether no item came to the innermost loop.
    pub fn did_not_iterate(&self) -> Option<Value> {
        let turns = self.scopes.get(self.frame.scope?)?.turns?;
        Some(Value::Bool(turns.index == 0))
    }

    /// Ends the innermost loop. One that was run again goes on where that was asked for, and
    /// without what it says of its turns.
    pub fn close_loop(&mut self) -> Option<()> {
        let turns = self.scopes.get(self.frame.scope?)?.turns?;
        self.close_scope()?;
        if let Some(count) = turns.operands {
            self.operands.truncate(count);
            self.frame = self.callers.pop()?;
        }
        Some(())
    }

    /// That of the arguments, which are popped, whose turn it is.
    pub fn cycle(&mut self, about: &'t Value, count: usize) -> Option<()> {
        let turn = member(about, "index0")?.as_count()?.checked_rem(count)?;
        let start = self.operands.len().checked_sub(count)?;
        let value = *self.operands.get(start.saturating_add(turn))?;
        self.operands.truncate(start);
        self.operands.push(value).ok()
    }
}

/// The variable `loop` in a turn.
fn about_loop(alloc: Global, turns: Loop<'_, '_>) -> Option<Value> {
    let index = turns.index as u64;
    let length = turns.items.len() as u64;
    let depth = (turns.depth as u64).saturating_add(1);
    let mut about = ValueMap::new(alloc);
    insert(alloc, &mut about, "index", Value::of_u64(index))?;
    insert(
        alloc,
        &mut about,
        "index0",
        Value::of_u64(index.saturating_sub(1)),
    )?;
    insert(alloc, &mut about, "length", Value::of_u64(length))?;
    insert(alloc, &mut about, "depth", Value::of_u64(depth))?;
    insert(alloc, &mut about, "first", Value::Bool(index == 1))?;
    insert(alloc, &mut about, "last", Value::Bool(index == length))?;
    Some(Value::Map(about))
}

fn insert(alloc: Global, map: &mut ValueMap, name: &str, value: Value) -> Option<()> {
    map.insert(Value::of_str(alloc, name).ok()?, value).ok()
}
