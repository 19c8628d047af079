//! The instructions of a unit that is being made, with the line and the span of each.
ghost use Rattle.std.specs.Prelude.{◌≡◌, ◌+◌, ◌≤◌, ◌++◌, ◌^◌, map, [], ◌∷◌, length, take, ◌<◌, slice_set, None, Some, IfNone, IfOk, IfSome, OnOk};
ghost use Rattle.std.specs.Option.{option_map};
ghost use Rattle.minijinja_semantics.specs.Code.{BuildMacro, Jump, Load};
ghost use Rattle.minijinja_semantics.specs.Jumps.{led_to, with_target};
ghost use Rattle.minijinja_semantics.specs.Marks.{again, alone_at, mark_now, on_line, shown};
ghost use Rattle.minijinja_semantics.specs.Marks as marks;
ghost use Rattle.minijinja_semantics.specs.Pieces.{start, one, id_of, noted};
ghost use Rattle.minijinja_instructions.specs.Instructions.{instr_of};
ghost use Rattle.minijinja_instructions.specs.MarkLists.{marks_in};
ghost use Rattle.minijinja_emitter.specs.internal.Constants.{Joins, TakesConstant, TakesConstants, both_loaded, last_loaded, without_last};
ghost use Rattle.minijinja_emitter.specs.internal.Making.{followed, here_of, place_in, reach, hole, alone, between, loaded_by, with_last, Adds};
ghost use Rattle.minijinja_emitter.specs.internal.Margins.{closed, opened, replaced, replaced_if, trimmed};

use crate::marked::MarkedList;
use crate::memory::OutOfMemory;
use crate::names::Names;
use minijinja_instructions::instructions::{Instruction, LocalId};
use minijinja_instructions::marks::MarkList;
use minijinja_syntax::tokens::Span;
use minijinja_value::value::TemplateValue;
use std::alloc::Global;

/// Where a node stands: its span, and the span that was open before it.
#[derive(Clone, Copy)]
pub struct Site {
    pub node: Span,
    pub outer: Span,
}

/// The instructions of a unit that is being made, with the line and the span of each, and the names
/// of filters and tests in them. How many there are is checked once, when the unit is complete.
#[derive(Drop)]
pub struct Emitter<'s, V: TemplateValue> {
    code: MarkedList<Instruction<'s, V>>,
    /// The line of what is added.
    line: u16,
    /// The innermost span that is open, one of zeros if none is.
    span: Span,
    filters: Names<'s>,
    tests: Names<'s>,
    alloc: Global,
}

impl<'s, V: TemplateValue> Emitter<'s, V> {
    ghost use Rattle.minijinja_emitter.specs.internal.AtEmitter.{made_of, margin_of};

    /// An emitter without instructions, before the first line and with no span open. It allocates
    /// nothing yet.
    pub fn new(alloc: Global) -> Self
        ensures here { here_of (made_of V.contents result) ≡ start }
        ensures margin { margin_of result ≡ marks.start }
    {
        Emitter {
            code: MarkedList::new(alloc),
            line: 0,
            span: Span::default(),
            filters: Names::new(alloc),
            tests: Names::new(alloc),
            alloc,
        }
    }

    /// The instructions, and the line and the span of each.
    pub fn into_parts(self) -> (Vec<Instruction<'s, V>>, MarkList)
        ensures code { map (instr_of V.contents) result.0.items ≡ (made_of V.contents
            self.entry).code }
        ensures marks { marks_in result.1 ≡ (margin_of self.entry).marks }
        ensures as_many { length (marks_in result.1) ≡ length result.0.items }
    {
        let Emitter { code, .. } = self;
        code.into_parts()
    }

    /// The allocator.
    pub fn alloc(&self) -> Global {
        self.alloc
    }

    /// How many instructions there are.
    pub fn place(&self) -> usize
        ensures { result ≡ length (made_of V.contents self.now).code }
    {
        self.code.list.len()
    }

    /// The place after the last instruction, as a jump to it names it.
    pub fn here(&self) -> u32
        ensures { result ≡ reach (length (made_of V.contents self.now).code) }
    {
        reached(self.code.list.len())
    }

    /// Reserves memory for `count` more instructions, with the line and the span of each, so that
    /// adding them moves none.
    pub fn make_room(&mut self, count: usize) -> Result<(), OutOfMemory>
        ensures made { made_of V.contents self.new ≡ made_of V.contents self.old }
        ensures marked { margin_of self.new ≡ margin_of self.old }
    {
        self.code.reserve(count)?;
        Ok(())
    }

    /// From here on, what is added stands on the line where a span begins.
    #[inline(always)]
    pub fn on_line(&mut self, span: Span)
        ensures made { made_of V.contents self.new ≡ made_of V.contents self.old }
        ensures marked { margin_of self.new ≡ on_line span (margin_of self.old) }
    {
        self.line = span.start_line;
    }

    /// From here on, what is added stands on this line.
    pub fn set_line(&mut self, line: u16)
        ensures made { made_of V.contents self.new ≡ made_of V.contents self.old }
        ensures marked { margin_of self.new ≡ record (margin_of self.old) { line = line } }
    {
        self.line = line;
    }

    /// Opens a span: from here on, what is added on the line where it begins comes from it. Returns
    /// the span that was open before, which `close` takes.
    #[inline(always)]
    pub fn open(&mut self, span: Span) -> Span
        ensures made { made_of V.contents self.new ≡ made_of V.contents self.old }
        ensures outer { result ≡ (margin_of self.old).span }
        ensures marked { margin_of self.new ≡ opened span (margin_of self.old) }
    {
        let outer = self.span;
        self.enter(span);
        outer
    }

    /// Opens a span, as `open` does, for a caller that knows the one that is open.
    #[inline(always)]
    pub fn enter(&mut self, span: Span)
        ensures made { made_of V.contents self.new ≡ made_of V.contents self.old }
        ensures marked { margin_of self.new ≡ opened span (margin_of self.old) }
    {
        self.line = span.start_line;
        self.span = span;
    }

    /// Closes the span that is open; `outer` is what was open before. The line stays.
    #[inline(always)]
    pub fn close(&mut self, outer: Span)
        ensures made { made_of V.contents self.new ≡ made_of V.contents self.old }
        ensures marked { margin_of self.new ≡ closed outer (margin_of self.old) }
    {
        self.span = outer;
    }

    /// The innermost span that is open, one of zeros if none is.
    #[inline(always)]
    pub fn span(&self) -> Span
        ensures { result ≡ (margin_of self.now).span }
    {
        self.span
    }

    /// The line of what is added.
    pub fn line(&self) -> u16
        ensures { result ≡ (margin_of self.now).line }
    {
        self.line
    }

    /// The span of what is added: the one that is open if it begins on the line in force, otherwise
    /// one of zeros.
    #[inline(always)]
    fn span_now(&self) -> Span
        ensures { record { line = Some (margin_of self.now).line; span = shown result }
            ≡ mark_now (margin_of self.now) }
    {
        if self.span.start_line == self.line {
            self.span
        } else {
            Span::default()
        }
    }

    /// Adds an instruction as it is.
    #[inline(always)]
    pub fn push(&mut self, instruction: Instruction<'s, V>) -> Result<(), OutOfMemory>
        ensures made { OnOk result (made_of V.contents self.new ≡ followed
            (made_of V.contents self.old) (instr_of V.contents instruction.entry ∷ [])) }
        ensures marked { OnOk result (margin_of self.new ≡ marks.here 1 (margin_of self.old)) }
    {
        let span = self.span_now();
        self.code.push(instruction, self.line, span)?;
        Ok(())
    }

    /// Adds an instruction as it is, which comes from this span whatever is open.
    #[inline(always)]
    pub fn push_at(
        &mut self,
        instruction: Instruction<'s, V>,
        span: Span,
    ) -> Result<(), OutOfMemory>
        ensures made { OnOk result (made_of V.contents self.new ≡ followed
            (made_of V.contents self.old) (instr_of V.contents instruction.entry ∷ [])) }
        ensures marked { OnOk result (margin_of self.new ≡ alone_at span (margin_of self.old)) }
    {
        self.code.push(instruction, span.start_line, span)?;
        Ok(())
    }

    /// Adds an instruction as it is, which has the line and the span of the one before it.
    #[inline(always)]
    pub fn push_again(&mut self, instruction: Instruction<'s, V>) -> Result<(), OutOfMemory>
        ensures made { OnOk result (made_of V.contents self.new ≡ followed
            (made_of V.contents self.old) (instr_of V.contents instruction.entry ∷ [])) }
        ensures marked { OnOk result (margin_of self.new ≡ again (margin_of self.old)) }
    {
        self.code.push_again(instruction)?;
        Ok(())
    }

    /// Adds an instruction that names no place.
    #[inline(always)]
    pub fn add(&mut self, instruction: Instruction<'s, V>) -> Result<(), OutOfMemory>
        requires { place_in (instr_of V.contents instruction) ≡ None }
        ensures added { OnOk result (Adds (made_of V.contents self.old) (made_of V.contents
            self.new)
            (one (instr_of V.contents instruction.entry))) }
        ensures marked { OnOk result (margin_of self.new ≡ marks.here 1 (margin_of self.old)) }
    {
        self.push(instruction)
    }

    /// Adds an instruction that names no place, and comes from this span whatever is open.
    #[inline(always)]
    pub fn add_at(&mut self, instruction: Instruction<'s, V>, span: Span) -> Result<(), OutOfMemory>
        requires { place_in (instr_of V.contents instruction) ≡ None }
        ensures added { OnOk result (Adds (made_of V.contents self.old) (made_of V.contents
            self.new)
            (one (instr_of V.contents instruction.entry))) }
        ensures marked { OnOk result (margin_of self.new ≡ alone_at span (margin_of self.old)) }
    {
        self.push_at(instruction, span)
    }

    /// Adds an instruction that names no place, and has the line and the span of the one before it.
    #[inline(always)]
    pub fn add_again(&mut self, instruction: Instruction<'s, V>) -> Result<(), OutOfMemory>
        requires { place_in (instr_of V.contents instruction) ≡ None }
        ensures added { OnOk result (Adds (made_of V.contents self.old) (made_of V.contents
            self.new)
            (one (instr_of V.contents instruction.entry))) }
        ensures marked { OnOk result (margin_of self.new ≡ again (margin_of self.old)) }
    {
        self.push_again(instruction)
    }

    /// Adds a jump to a place.
    pub fn jump_to(&mut self, place: usize) -> Result<(), OutOfMemory>
        ensures added { OnOk result (Adds (made_of V.contents self.old) (made_of V.contents
            self.new)
            (one (Jump place))) }
        ensures marked { OnOk result (margin_of self.new ≡ marks.here 1 (margin_of self.old)) }
    {
        self.push(Instruction::Jump(reached(place)))
    }

    /// Adds an instruction that makes a macro from its name, the place where its body begins, and
    /// its flags.
    pub fn make_macro(&mut self, name: &'s str, entry: usize, flags: u8) -> Result<(), OutOfMemory>
        ensures added { OnOk result (Adds (made_of V.contents self.old) (made_of V.contents
            self.new)
            (one (BuildMacro name.now entry flags))) }
        ensures marked { OnOk result (margin_of self.new ≡ marks.here 1 (margin_of self.old)) }
    {
        self.push(Instruction::BuildMacro(name, reached(entry), flags))
    }

    /// Reserves a place for an instruction that is not known yet, and returns the place.
    pub fn reserve(&mut self) -> Result<usize, OutOfMemory>
        ensures place { IfOk result (λ place. place ≡ length (made_of V.contents self.old).code) }
        ensures added { OnOk result
            (Adds (made_of V.contents self.old) (made_of V.contents self.new) (one hole)) }
        ensures marked { OnOk result (margin_of self.new ≡ marks.here 1 (margin_of self.old)) }
    {
        let place = self.code.list.len();
        self.push(Instruction::Swap)?;
        Ok(place)
    }

    /// Reserves a place for an instruction that has the line and the span of the one before it, and
    /// returns the place.
    pub fn reserve_again(&mut self) -> Result<usize, OutOfMemory>
        ensures place { IfOk result (λ place. place ≡ length (made_of V.contents self.old).code) }
        ensures added { OnOk result
            (Adds (made_of V.contents self.old) (made_of V.contents self.new) (one hole)) }
        ensures marked { OnOk result (margin_of self.new ≡ again (margin_of self.old)) }
    {
        let place = self.code.list.len();
        self.push_again(Instruction::Swap)?;
        Ok(place)
    }

    /// Replaces the instruction at a place.
    pub fn fill(&mut self, place: usize, instruction: Instruction<'s, V>)
        ensures filled { made_of V.contents self.new ≡ record (made_of V.contents self.old) {
          code = slice_set (made_of V.contents self.old).code place
              (instr_of V.contents instruction.entry);
        } }
        ensures marked { margin_of self.new ≡ margin_of self.old }
    {
        self.code.set(place, instruction);
    }

    /// Leads the jump at one place to another. What is no jump stays as it is.
    pub fn lead_to(&mut self, place: usize, target: u32)
        ensures led { made_of V.contents self.new ≡ record (made_of V.contents self.old) {
          code = with_target target (made_of V.contents self.old).code place;
        } }
        ensures marked { margin_of self.new ≡ margin_of self.old }
    {
        if let Some(jump) = self.jump_at(place, target) {
            self.code.set(place, jump);
        }
    }

    /// The jump at one place, if there is one, but leading to another.
    fn jump_at(&self, place: usize, target: u32) -> Option<Instruction<'s, V>>
        ensures some { IfSome result (λ jump. map (instr_of V.contents)
            (slice_set self.now.code.list.items place jump)
            ≡ with_target target (made_of V.contents self.now).code place) }
        ensures none { IfNone result (with_target target (made_of V.contents self.now).code place
            ≡ (made_of V.contents self.now).code) }
    {
        led(self.code.list.get(place)?, target)
    }

    /// The constant that the instructions from one place up to another load, if they do nothing
    /// else.
    pub fn constant(&self, from: usize, to: usize) -> Option<&V>
        ensures { to ≤ length (made_of V.contents self.now).code →
            option_map (λ v. V.contents v.now) result
            ≡ alone (between from to (made_of V.contents self.now).code) }
    {
        match self.code.list.get(from) {
            Some(instruction) if to == from + 1 => constant_of(instruction),
            _ => None,
        }
    }

    /// Removes everything from `place` on, and loads a constant there, which stands for the node at
    /// `site`.
    pub fn replace(&mut self, place: usize, value: V, site: Site) -> Result<(), OutOfMemory>
        ensures replaced { OnOk result (made_of V.contents self.new ≡ record
            (made_of V.contents self.old) {
              code = take place (made_of V.contents self.old).code
                  ++ Load (V.contents value) ∷ [];
            }) }
        ensures marked { OnOk result (margin_of self.new ≡ replaced place site
            (margin_of self.old)) }
    {
        if place < self.place() {
            self.cut(place);
        }
        self.stand_at(site);
        self.push(Instruction::LoadConst(value))
    }

    /// From here on, what is added stands on the line where a node begins, within what was open
    /// before it.
    fn stand_at(&mut self, site: Site)
        ensures made { made_of V.contents self.new ≡ made_of V.contents self.old }
        ensures marked { margin_of self.new ≡ on_line site.node (closed site.outer
            (margin_of self.old)) }
    {
        self.line = site.node.start_line;
        self.span = site.outer;
    }

    /// Joins the constant that the instructions from `place` on load with another one, and loads
    /// that instead, for the node at `site`. If they do anything else, nothing changes. Returns
    /// whether it joined them.
    pub fn join(&mut self, place: usize, right: &V, site: Site) -> Result<bool, OutOfMemory>
        ensures joined { IfOk result (λ joined. Joins V.functions place (V.contents right.now)
            joined
            (made_of V.contents self.old) (made_of V.contents self.new)) }
        ensures marked { IfOk result (λ joined. margin_of self.new ≡ replaced_if joined place site
            (margin_of self.old)) }
    {
        let Some(left) = self.take_constant(place) else {
            return Ok(false);
        };
        let joined = left.concat(self.alloc, right)?;
        self.replace(place, joined, site)?;
        Ok(true)
    }

    /// Removes the instructions from `place` on and returns the constant that they load, if they do
    /// nothing else.
    fn take_constant(&mut self, place: usize) -> Option<V>
        ensures taken { TakesConstant V.contents place (made_of V.contents self.old) result
            (made_of V.contents self.new) }
        ensures marked { margin_of self.new ≡ trimmed (length (made_of V.contents self.new).code)
            (margin_of self.old) }
    {
        if self.constant(place, self.place()).is_none() {
            return None;
        }
        self.pop_constant()
    }

    /// Removes the instructions from `start` on and returns the two constants that they load, from
    /// `start` and from `middle` on, if they do nothing else.
    pub fn take_constants(&mut self, start: usize, middle: usize) -> Option<(V, V)>
        ensures taken { middle ≤ length (made_of V.contents self.old).code →
            TakesConstants V.contents start middle (made_of V.contents self.old) result
            (made_of V.contents self.new) }
        ensures marked { margin_of self.new ≡ trimmed (length (made_of V.contents self.new).code)
            (margin_of self.old) }
    {
        if !self.are_constants(start, middle) {
            return None;
        }
        let right = self.pop_constant()?;
        let left = self.pop_constant()?;
        Some((left, right))
    }

    /// Whether the instructions from `start` and from `middle` on each load a constant and do
    /// nothing else.
    fn are_constants(&self, start: usize, middle: usize) -> bool
        ensures { middle ≤ length (made_of V.contents self.now).code →
            (result ≡ both_loaded start middle (made_of V.contents self.now).code) }
    {
        self.constant(start, middle).is_some() && self.constant(middle, self.place()).is_some()
    }

    /// Removes the last instruction, and returns the constant that it loads, if it loads one.
    fn pop_constant(&mut self) -> Option<V>
        ensures constant { option_map V.contents result
            ≡ last_loaded (made_of V.contents self.old).code }
        ensures rest { made_of V.contents self.new ≡ record (made_of V.contents self.old)
            { code = without_last (made_of V.contents self.old).code } }
        ensures marked { margin_of self.new ≡ trimmed (length (made_of V.contents self.new).code)
            (margin_of self.old) }
    {
        match self.code.pop() {
            Some(last) => into_constant(last),
            None => None,
        }
    }

    /// Removes everything from `place` on.
    pub fn cut(&mut self, place: usize)
        ensures cut { made_of V.contents self.new ≡ record (made_of V.contents self.old)
            { code = take place (made_of V.contents self.old).code } }
        ensures marked { margin_of self.new ≡ trimmed place (margin_of self.old) }
    {
        self.code.cut(place);
    }

    /// Removes everything from `place` on except the last instruction, which stands for the node at
    /// `site`.
    pub fn keep_last(&mut self, place: usize, site: Site) -> Result<(), OutOfMemory>
        ensures kept { OnOk result (place < length (made_of V.contents self.old).code →
            (made_of V.contents self.new ≡ record (made_of V.contents self.old)
            { code = with_last place (made_of V.contents self.old).code })) }
        ensures marked { OnOk result (place < length (made_of V.contents self.old).code →
            (margin_of self.new ≡ replaced place site (margin_of self.old))) }
    {
        if let Some(last) = self.code.pop() {
            self.cut(place);
            self.stand_at(site);
            self.push(last)?;
        }
        Ok(())
    }

    /// The id of a filter's name, which gets one if it has none yet.
    pub fn filter_id(&mut self, name: &'s str) -> Result<LocalId, OutOfMemory>
        ensures id { IfOk result (λ id. id ≡ id_of name.now (made_of V.contents self.old).filters) }
        ensures noted { OnOk result (made_of V.contents self.new ≡ record
            (made_of V.contents self.old)
            { filters = noted name.now (made_of V.contents self.old).filters }) }
        ensures marked { OnOk result (margin_of self.new ≡ margin_of self.old) }
    {
        self.filters.id(name)
    }

    /// The id of a test's name, which gets one if it has none yet.
    pub fn test_id(&mut self, name: &'s str) -> Result<LocalId, OutOfMemory>
        ensures id { IfOk result (λ id. id ≡ id_of name.now (made_of V.contents self.old).tests) }
        ensures noted { OnOk result (made_of V.contents self.new ≡ record
            (made_of V.contents self.old)
            { tests = noted name.now (made_of V.contents self.old).tests }) }
        ensures marked { OnOk result (margin_of self.new ≡ margin_of self.old) }
    {
        self.tests.id(name)
    }
}

/// A place, as a jump to it names it.
fn reached(place: usize) -> u32
    ensures { result ≡ reach place }
{
    place.min(u32::MAX as usize) as u32
}

/// The jump that leads to this place in the place of another, if an instruction is one.
fn led<'s, V: TemplateValue>(
    instruction: &Instruction<'s, V>,
    target: u32,
) -> Option<Instruction<'s, V>>
    ensures some { IfSome result (λ jump. instr_of V.contents jump
        ≡ led_to target (instr_of V.contents instruction.now)) }
    ensures none { IfNone result (led_to target (instr_of V.contents instruction.now)
        ≡ instr_of V.contents instruction.now) }
{
    match instruction {
        Instruction::Jump(_) => Some(Instruction::Jump(target)),
        Instruction::JumpIfFalse(_) => Some(Instruction::JumpIfFalse(target)),
        Instruction::JumpIfFalseOrPop(_) => Some(Instruction::JumpIfFalseOrPop(target)),
        Instruction::JumpIfTrueOrPop(_) => Some(Instruction::JumpIfTrueOrPop(target)),
        Instruction::Iterate(_) => Some(Instruction::Iterate(target)),
        _ => None,
    }
}

/// The constant that an instruction loads, if it loads one.
fn constant_of<'a, V: TemplateValue>(instruction: &'a Instruction<'_, V>) -> Option<&'a V>
    ensures { option_map (λ v. V.contents v.now) result
        ≡ loaded_by (instr_of V.contents instruction.now) }
{
    match instruction {
        Instruction::LoadConst(value) => Some(value),
        _ => None,
    }
}

/// Takes the constant out of an instruction that loads one.
fn into_constant<V: TemplateValue>(instruction: Instruction<'_, V>) -> Option<V>
    ensures { option_map V.contents result ≡ loaded_by (instr_of V.contents instruction.entry) }
{
    match instruction {
        Instruction::LoadConst(value) => Some(value),
        _ => None,
    }
}
