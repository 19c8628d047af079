//! The machine: what it keeps of a run, and what each instruction does. A call returns none where
//! an instruction cannot be done, and the run ends there.
use crate::calls::Macro;
use crate::filters::{filtered, tested};
use crate::scopes::Scope;
use crate::values::{Kind, answer, handle, item, items, merged, pairs, part, place_of, string};
use anyhow::{Context, Result, bail};
use minijinja_compiler::compile::Compiled;
use minijinja_compiler::instructions::{Instruction, Instructions};
use minijinja_compiler::value::{Rendered, TemplateValue, Value, ValueMap};
use std::alloc::Global;
use std::cell::OnceCell;

/// How many instructions a run may do, and how many values it may make.
const MOST_STEPS: usize = 20_000;

/// Where a run is: the next instruction, and the innermost scope.
#[derive(Clone, Copy)]
pub struct Frame<'t, 's> {
    pub code: &'t Instructions<'s>,
    pub next: u32,
    pub scope: Option<usize>,
    /// The block that is running, with the place of its template among `pages`.
    pub block: Option<(&'s str, usize)>,
    pub page: usize,
    /// The template that is to run at the end of this one, by its place.
    pub parent: Option<usize>,
}

/// A run so far. What is innermost or newest is the last of each vector.
#[derive(Drop)]
pub struct Machine<'t, 's> {
    pub alloc: Global,
    pub templates: &'t [Compiled<'s>],
    /// A cell for each value that the run may make, and how many it made.
    pub cells: &'t [OnceCell<Value>],
    pub made: usize,
    pub undefined: &'t Value,
    pub frame: Frame<'t, 's>,
    pub callers: Vec<Frame<'t, 's>>,
    pub operands: Vec<&'t Value>,
    /// All scopes that were opened, macros that were made, and lists that may grow. A value names
    /// one of these by its place.
    pub scopes: Vec<Scope<'t, 's>>,
    pub macros: Vec<Macro<'t, 's>>,
    pub lists: Vec<&'t Value>,
    /// The templates of the pages that are open, by their places. Blocks override later ones.
    pub pages: Vec<usize>,
    /// The output, and what was written in each capture that is open.
    pub outputs: Vec<String>,
}

/// What the first template writes. It may include, import and extend the others, by their names.
pub fn render(alloc: Global, templates: &[Compiled<'_>]) -> Result<String> {
    let first = templates.first().context("there is no template")?;
    let mut cells = Vec::new(alloc);
    cells.resize_with(MOST_STEPS, OnceCell::new)?;
    let undefined = Value::Undefined;
    let mut machine = Machine {
        alloc,
        templates,
        cells: &cells,
        made: 0,
        undefined: &undefined,
        frame: Frame {
            code: &first.instructions,
            next: 0,
            scope: None,
            block: None,
            page: 0,
            parent: None,
        },
        callers: Vec::new(alloc),
        operands: Vec::new(alloc),
        scopes: Vec::new(alloc),
        macros: Vec::new(alloc),
        lists: Vec::new(alloc),
        pages: Vec::new(alloc),
        outputs: Vec::new(alloc),
    };
    match machine.run() {
        Some(text) => Ok(text),
        None => machine.error(),
    }
}

impl<'t, 's> Machine<'t, 's> {
    fn run(&mut self) -> Option<String> {
        self.open_scope(None)?;
        self.begin_capture()?;
        self.start(0)?;
        for _ in 0..MOST_STEPS {
            if self.is_over()? {
                return self.outputs.pop();
            }
        }
        None
    }

    /// What cannot be done.
    fn error(&self) -> Result<String> {
        let code = self.frame.code;
        let index = self.frame.next.saturating_sub(1);
        let (name, line) = (code.name(), code.get_line(index).unwrap_or(0));
        let instruction = code.get(index).context("the run cannot be begun")?;
        bail!("{name}:{line}: {instruction} cannot be done")
    }

    /// Does the next instruction, or goes on at the end of a list of them. True at the end of all.
    fn is_over(&mut self) -> Option<bool> {
        let frame = self.frame;
        if let Some(instruction) = frame.code.get(frame.next) {
            self.frame.next = frame.next.saturating_add(1);
            self.act(instruction)?;
        } else if let Some(parent) = frame.parent {
            self.outputs.pop()?;
            self.start(parent)?;
        } else if let Some(caller) = self.callers.pop() {
            if frame.block.is_none() {
                self.pages.truncate(frame.page);
            }
            self.frame = caller;
        } else {
            return Some(true);
        }
        Some(false)
    }

    fn act(&mut self, instruction: &'t Instruction<'s>) -> Option<()> {
        match instruction {
            Instruction::EmitRaw(text) => self.outputs.last_mut()?.push_str(text).ok(),
            Instruction::Emit => self.emit(),
            Instruction::BeginCapture(_) => self.begin_capture(),
            Instruction::PushAutoEscape => self.refuse_escaping(),
            Instruction::Enclose(_) | Instruction::PopAutoEscape => Some(()),
            Instruction::StoreLocal(name) => self.store(name),
            Instruction::SetAttr(name) => self.set_attribute(name),
            Instruction::PushWith => self.open_scope(None),
            Instruction::PopFrame => self.close_scope(),
            Instruction::PushLoop(flags) => self.open_loop(*flags),
            Instruction::PopLoopFrame => self.close_loop(),
            Instruction::DiscardTop => self.operands.pop().and(Some(())),
            Instruction::Swap => self.swap(),
            Instruction::UnpackList(count) => self.unpack(*count),
            Instruction::UnpackLists(count) => self.spread(*count),
            _ => self.lead(instruction),
        }
    }

    /// Does an instruction that leads elsewhere. Any other one pushes a value.
    fn lead(&mut self, instruction: &'t Instruction<'s>) -> Option<()> {
        match instruction {
            Instruction::Iterate(end) => self.iterate(*end),
            Instruction::FastRecurse => self.recurse(),
            Instruction::Jump(index) => self.jump(*index),
            Instruction::JumpIfFalse(index) => self.jump_if_false(*index),
            Instruction::JumpIfFalseOrPop(index) => self.jump_or_pop(false, *index),
            Instruction::JumpIfTrueOrPop(index) => self.jump_or_pop(true, *index),
            Instruction::CallFunction(name, count) => self.call_function(name, *count),
            Instruction::CallMethod(name, count) => self.call_method(name, *count),
            // What extends another template leaves its blocks to that one.
            Instruction::CallBlock(_) if self.frame.parent.is_some() => Some(()),
            Instruction::CallBlock(name) => self.write_block(name, self.frame.page),
            Instruction::FastSuper => self.write_super(),
            Instruction::LoadBlocks if self.frame.parent.is_none() => self.extend(),
            Instruction::Include(ignores_missing) => self.include(*ignores_missing),
            _ => {
                let value = self.found(instruction)?;
                self.operands.push(value).ok()
            }
        }
    }

    /// The value that an instruction pushes.
    fn found(&mut self, instruction: &'t Instruction<'s>) -> Option<&'t Value> {
        match instruction {
            Instruction::LoadConst(constant) => Some(constant),
            Instruction::Lookup(name) => Some(self.variable(name).unwrap_or(self.undefined)),
            Instruction::GetAttr(name) => {
                let object = self.pop()?;
                self.attribute(object, name)
            }
            Instruction::GetItem => {
                let (key, object) = (self.pop()?, self.pop()?);
                item(object, key, self.undefined)
            }
            Instruction::DupTop => self.operands.last().copied(),
            Instruction::GetClosure => Some(self.undefined),
            _ => {
                let value = self.made(instruction)?;
                self.keep(value)
            }
        }
    }

    /// The value that an instruction makes.
    fn made(&mut self, instruction: &'t Instruction<'s>) -> Option<Value> {
        match instruction {
            Instruction::Slice => self.pop_part(),
            Instruction::ApplyFilter(name, count, _) => self.filter(name, *count),
            Instruction::PerformTest(name, count, _) => self.test(name, *count),
            Instruction::PushDidNotIterate => self.did_not_iterate(),
            Instruction::ExportLocals => handle(self.alloc, Kind::Scope, self.frame.scope?),
            Instruction::BuildMacro(_, entry, _) => self.build_macro(*entry),
            Instruction::EndCapture => self.end_capture(),
            Instruction::Return => {
                self.frame = self.callers.pop()?;
                self.end_capture()
            }
            _ => self.built(instruction),
        }
    }

    /// The value that an instruction builds of operands.
    fn built(&mut self, instruction: &'t Instruction<'s>) -> Option<Value> {
        match instruction {
            Instruction::BuildList(count) => Some(Value::List(self.pop_list(*count)?)),
            Instruction::BuildTuple(count) => Some(Value::Tuple(self.pop_list(*count)?)),
            Instruction::BuildMap(count) => Some(Value::Map(self.pop_pairs(*count)?)),
            Instruction::BuildKwargs(count) => Some(Value::Kwargs(self.pop_pairs(*count)?)),
            Instruction::MergeKwargs(count) => Some(Value::Kwargs(self.pop_merged(*count)?)),
            _ => self.operate(instruction),
        }
    }

    /// What an operator makes of one value or of two.
    fn operate(&mut self, operator: &'t Instruction<'s>) -> Option<Value> {
        let right = self.pop()?;
        match operator {
            Instruction::Not => Some(Value::Bool(!right.is_true())),
            Instruction::Neg => right.neg(self.alloc).ok(),
            Instruction::IsUndefined => Some(Value::Bool(right.is_undefined())),
            _ => answer(self.alloc, operator, self.pop()?, right),
        }
    }

    fn filter(&mut self, name: &str, count: Option<u16>) -> Option<Value> {
        let arguments = self.pop_list(count.map(usize::from))?;
        filtered(self.alloc, name, &arguments)
    }

    fn test(&mut self, name: &str, count: Option<u16>) -> Option<Value> {
        let arguments = self.pop_list(count.map(usize::from))?;
        Some(Value::Bool(tested(self.alloc, name, &arguments)?))
    }

    /// Keeps a value to the end of the run.
    pub fn keep(&mut self, value: Value) -> Option<&'t Value> {
        let cell = self.cells.get(self.made)?;
        self.made = self.made.saturating_add(1);
        cell.set(value).ok()?;
        cell.get()
    }

    /// Pops an operand, which is what it names at present.
    pub fn pop(&mut self) -> Option<&'t Value> {
        let value = self.operands.pop()?;
        Some(self.present(value))
    }

    /// The list that a value names, if it names one that may grow, or else the value.
    fn present(&self, value: &'t Value) -> &'t Value {
        match place_of(Kind::List, value) {
            Some(place) => self.lists.get(place).copied().unwrap_or(value),
            None => value,
        }
    }

    /// How many arguments there are, the number of which is popped where it is not known.
    pub fn pop_count(&mut self, known: Option<usize>) -> Option<usize> {
        match known {
            Some(count) => Some(count),
            None => self.pop()?.as_count(),
        }
    }

    /// Copies of the topmost operands, which are popped.
    pub fn pop_many(&mut self, count: usize) -> Option<Vec<Value>> {
        let rest = self.operands.len().checked_sub(count)?;
        let copies = self.copies(rest);
        self.operands.truncate(rest);
        copies
    }

    /// Copies of the topmost operands, which are popped, in a list.
    pub fn pop_kept(&mut self, count: usize) -> Option<&'t Value> {
        let values = self.pop_many(count)?;
        self.keep(Value::List(values))
    }

    fn copies(&self, rest: usize) -> Option<Vec<Value>> {
        let mut copies = Vec::new(self.alloc);
        for value in self.operands.iter().skip(rest) {
            copies.push(self.present(value).try_clone().ok()?).ok()?;
        }
        Some(copies)
    }

    fn pop_list(&mut self, count: Option<usize>) -> Option<Vec<Value>> {
        let count = self.pop_count(count)?;
        self.pop_many(count)
    }

    /// Copies of the topmost keys, each below its value, which are popped.
    fn pop_pairs(&mut self, count: usize) -> Option<ValueMap> {
        let values = self.pop_many(count.checked_mul(2)?)?;
        pairs(self.alloc, &values)
    }

    /// The pairs of the topmost maps, which are popped.
    fn pop_merged(&mut self, count: usize) -> Option<ValueMap> {
        let maps = self.pop_many(count)?;
        merged(self.alloc, &maps)
    }

    /// A part of a list. A step is not supported.
    fn pop_part(&mut self) -> Option<Value> {
        let (step, stop) = (self.pop()?, self.pop()?);
        let (start, list) = (self.pop()?, self.pop()?);
        match step {
            Value::None => part(self.alloc, list, start, stop),
            _ => None,
        }
    }

    /// Pops a list and pushes its items, the first one on top.
    fn unpack(&mut self, count: usize) -> Option<()> {
        let items = items(self.pop()?)?;
        if items.len() != count {
            return None;
        }
        for item in items.iter().rev() {
            self.operands.push(item).ok()?;
        }
        Some(())
    }

    /// Pops lists and pushes their items in order, and how many these are.
    fn spread(&mut self, count: usize) -> Option<()> {
        let lists = self.pop_kept(count)?;
        let start = self.operands.len();
        for list in items(lists)? {
            for item in items(list)? {
                self.operands.push(item).ok()?;
            }
        }
        let count = self.operands.len().saturating_sub(start);
        let count = self.keep(Value::of_u64(count as u64))?;
        self.operands.push(count).ok()
    }

    fn swap(&mut self) -> Option<()> {
        let (right, left) = (self.pop()?, self.pop()?);
        self.operands.push(right).ok()?;
        self.operands.push(left).ok()
    }

    /// Goes on at an index.
    pub fn jump(&mut self, index: u32) -> Option<()> {
        self.frame.next = index;
        Some(())
    }

    fn jump_if_false(&mut self, index: u32) -> Option<()> {
        match self.pop()?.is_true() {
            true => Some(()),
            false => self.jump(index),
        }
    }

    /// Jumps if the top operand has this truth, otherwise pops it.
    fn jump_or_pop(&mut self, truth: bool, index: u32) -> Option<()> {
        let value = self.operands.last().copied()?;
        if self.present(value).is_true() == truth {
            return self.jump(index);
        }
        self.operands.pop().and(Some(()))
    }

    /// Writes a value as it is: a machine for HTML would escape it here.
    fn emit(&mut self) -> Option<()> {
        let value = self.pop()?;
        write!(self.outputs.last_mut()?, "{}", Rendered(value)).ok()
    }

    /// Pops what says whether output is escaped from now on, which cannot be done.
    fn refuse_escaping(&mut self) -> Option<()> {
        match self.pop()? {
            Value::Bool(true) => None,
            Value::String(kind) if kind.as_str() == "html" => None,
            _ => Some(()),
        }
    }

    /// Has what is written from now on kept apart.
    pub fn begin_capture(&mut self) -> Option<()> {
        self.outputs.push(String::new(self.alloc)).ok()
    }
    /// What was kept apart since the last capture began.
    fn end_capture(&mut self) -> Option<Value> {
        Some(string(self.outputs.pop()?))
    }
}
