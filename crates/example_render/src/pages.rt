//! Templates that others include, import and extend, blocks, and the code of templates.
use crate::machine::{Frame, Machine};
use crate::values::{items, string, text};
use minijinja_compiler::compile::Compiled;
use minijinja_compiler::instructions::Instructions;
use minijinja_compiler::value::Value;
use std::alloc::AllocError;

/// Writes a list of instructions, each with its index.
fn write_list(out: &mut String, code: &Instructions) -> Result<(), AllocError> {
    for (index, instruction) in code.iter().enumerate() {
        writeln!(out, "{index} {instruction}")?;
    }
    Ok(())
}

/// Writes the list of a template, those of its blocks, and a hint for the size of its output.
fn write_code(out: &mut String, template: &Compiled) -> Result<(), AllocError> {
    out.push_str("template\n")?;
    write_list(out, &template.instructions)?;
    for (name, code) in &template.blocks {
        writeln!(out, "block {name}")?;
        write_list(out, code)?;
    }
    write!(out, "hint {}", template.buffer_size_hint)
}

impl<'t, 's> Machine<'t, 's> {
    /// Goes on at the start of a template, whose blocks come behind those of the page so far.
    pub fn start(&mut self, template: usize) -> Option<()> {
        let code = &self.templates.get(template)?.instructions;
        self.frame = Frame {
            code,
            next: 0,
            parent: None,
            ..self.frame
        };
        self.pages.push(template).ok()
    }

    /// Writes the first block of a name, from a template on, in a scope of its own.
    pub fn write_block(&mut self, name: &'s str, from: usize) -> Option<()> {
        let (place, code) = self.block(name, from)?;
        self.callers.push(self.frame).ok()?;
        self.frame = Frame {
            code,
            next: 0,
            block: Some((name, place)),
            ..self.frame
        };
        self.open_scope(None)
    }

    /// Writes the block that the running one overrides.
    pub fn write_super(&mut self) -> Option<()> {
        let (name, place) = self.frame.block?;
        self.write_block(name, place.saturating_add(1))
    }

    fn block(&self, name: &'s str, from: usize) -> Option<(usize, &'t Instructions<'s>)> {
        for place in from..self.pages.len() {
            let template = self.templates.get(*self.pages.get(place)?)?;
            if let Some(code) = template.blocks.get(&name)
                && !code.is_required_block()
            {
                return Some((place, code));
            }
        }
        None
    }

    /// Writes the template of a name, or the first of several that there is, as a page of its own.
    pub fn include(&mut self, ignores_missing: bool) -> Option<()> {
        let names = self.pop()?;
        let found = match items(names) {
            Some(names) => self.first_template(names),
            None => self.template(names),
        };
        let Some(template) = found else {
            return ignores_missing.then_some(());
        };
        self.callers.push(self.frame).ok()?;
        self.frame.block = None;
        self.frame.page = self.pages.len();
        self.start(template)
    }

    /// Notes what the template extends. From here on nothing is written until its end.
    pub fn extend(&mut self) -> Option<()> {
        let name = self.pop()?;
        self.frame.parent = Some(self.template(name)?);
        self.begin_capture()
    }

    /// The code of the template of a name, as a text.
    pub fn code_of(&self, name: &Value) -> Option<Value> {
        let template = self.templates.get(self.template(name)?)?;
        let mut code = String::new(self.alloc);
        write_code(&mut code, template).ok()?;
        Some(string(code))
    }

    fn first_template(&self, names: &[Value]) -> Option<usize> {
        for name in names {
            if let Some(place) = self.template(name) {
                return Some(place);
            }
        }
        None
    }

    fn template(&self, name: &Value) -> Option<usize> {
        let name = text(name)?;
        for (place, template) in self.templates.iter().enumerate() {
            if template.instructions.name() == name {
                return Some(place);
            }
        }
        None
    }
}
