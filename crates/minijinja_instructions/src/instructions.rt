//! Instructions, and lists of them.
ghost use Rattle.std.specs.Prelude.{◌≡◌, ◌+◌, ◌≤◌, ◌<◌, ◌^◌, ◌==◌, ◌++◌, ◌∷◌, [], ◌↔◌, length, slice_get, vec_len, false, Some, IfOk, IfErr, OnOk, OnErr, IsErr, Option};
ghost use Rattle.std.specs.Option.{option_copied, option_copied_mut};
ghost use Rattle.std.specs.Slice.Iter.{iter_rest};
ghost use Rattle.std.specs.Iterator.Adapters.{IterYieldsInOrder, IterYieldsInReverse};
ghost use Rattle.minijinja_syntax.specs.Errors.{kind_of, IsOutOfMemory};
ghost use Rattle.minijinja_syntax.specs.declared.error.ErrorKind.TheVariants.{TooManyInstructions};
ghost use Rattle.minijinja_instructions.specs.MarkLists.{marks_in};

use crate::lists::reserve_one;
use crate::marks::MarkList;
use crate::references::referenced_names;
use minijinja_syntax::error::Error;
use minijinja_syntax::tokens::Span;
use minijinja_value::value::{TemplateValue, Value};
use std::alloc::Global;
use std::slice;

/// The number of a filter's or test's name among those of its list.
pub type LocalId = u8;

/// How many names of filters, and of tests, have a number of their own in a list. Later names have
/// 255.
pub const MAX_LOCALS: usize = 50;

/// The flag of a loop that has a variable of its own.
pub const LOOP_FLAG_WITH_LOOP_VAR: u8 = 1;

/// The flag of a loop that is recursive.
pub const LOOP_FLAG_RECURSIVE: u8 = 2;

/// The flag of a macro that asks for its caller.
pub const MACRO_CALLER: u8 = 2;

/// A comparison of a chain. `In` is whether the left value is in the right one.
#[derive(Clone, Copy, Debug, PartialEq, Eq)]
pub enum CompareOp {
    Eq,
    Ne,
    Lt,
    Lte,
    Gt,
    Gte,
    In,
    NotIn,
}

/// What happens to output while it is captured.
#[derive(Clone, Copy, Debug, PartialEq, Eq)]
pub enum CaptureMode {
    /// It is kept, and the end of the capture pushes it.
    Capture,
    /// It is dropped.
    Discard,
}

/// An instruction of a rendering machine. Its texts are slices of the source, and its jumps lead to
/// indexes of its list.
#[derive(Drop)]
pub enum Instruction<'s, V: TemplateValue = Value> {
    /// Writes text that stands outside of tags.
    EmitRaw(&'s str),
    /// Pops a value and stores it under a name.
    StoreLocal(&'s str),
    /// Pushes the value of a variable.
    Lookup(&'s str),
    /// Replaces the top operand by one of its attributes.
    GetAttr(&'s str),
    /// Pops an object and a value, and sets one of the object's attributes to the value.
    SetAttr(&'s str),
    /// Replaces an object and a key by the object's item.
    GetItem,
    /// Replaces an object, a start, a stop and a step by a slice of the object.
    Slice,
    /// Pushes a constant.
    LoadConst(V),
    /// Replaces the given number of pairs of a key and a value by a map.
    BuildMap(usize),
    /// Replaces the given number of pairs of a name and a value by a map of keyword arguments.
    BuildKwargs(usize),
    /// Replaces the given number of maps of keyword arguments by one.
    MergeKwargs(usize),
    /// Replaces the given number of values by a list, or for `None` as many as the count on top of
    /// them says.
    BuildList(Option<usize>),
    /// Replaces the given number of values by a tuple, or for `None` as many as the count on top of
    /// them says.
    BuildTuple(Option<usize>),
    /// Replaces a value by the given number of items of it, the first on top.
    UnpackList(usize),
    /// Replaces the given number of lists by their items and the count of these.
    UnpackLists(usize),
    /// Replaces two values by their sum.
    Add,
    /// Replaces two values by their difference.
    Sub,
    /// Replaces two values by their product.
    Mul,
    /// Replaces two values by their quotient.
    Div,
    /// Replaces two values by their quotient as an integer.
    IntDiv,
    /// Replaces two values by the remainder.
    Rem,
    /// Replaces two values by a power.
    Pow,
    /// Replaces a value by its negation.
    Neg,
    /// Replaces two values by whether they are equal.
    Eq,
    /// Replaces two values by whether they are not equal.
    Ne,
    /// Replaces two values by whether the first is greater.
    Gt,
    /// Replaces two values by whether the first is greater or equal.
    Gte,
    /// Replaces two values by whether the first is less.
    Lt,
    /// Replaces two values by whether the first is less or equal.
    Lte,
    /// Replaces a value by whether it is false.
    Not,
    /// Replaces two values by their joined texts.
    StringConcat,
    /// Replaces two values by whether the first is in the second.
    In,
    /// Replaces two values by the second and whether their comparison holds.
    CompareAndPreserve(CompareOp),
    /// Replaces the arguments by what a filter makes of them. Their number is `None` where a count
    /// on top of them says it.
    ApplyFilter(&'s str, Option<u16>, LocalId),
    /// Replaces the arguments by whether a test of them succeeds. Their number is `None` where a
    /// count on top of them says it.
    PerformTest(&'s str, Option<u16>, LocalId),
    /// Pops a value and writes it.
    Emit,
    /// Pops a value and begins a loop over its items, with these flags.
    PushLoop(u8),
    /// Begins a scope.
    PushWith,
    /// Pushes the next item of the innermost loop, or jumps to an index if there is none.
    Iterate(u32),
    /// Pushes whether no item came to the innermost loop.
    PushDidNotIterate,
    /// Ends a scope.
    PopFrame,
    /// Ends a loop.
    PopLoopFrame,
    /// Jumps to an index.
    Jump(u32),
    /// Pops a value, and jumps to an index if it is false.
    JumpIfFalse(u32),
    /// Jumps to an index if the top operand is false, otherwise pops it.
    JumpIfFalseOrPop(u32),
    /// Jumps to an index if the top operand is true, otherwise pops it.
    JumpIfTrueOrPop(u32),
    /// Pops a value, which says whether output is escaped from now on.
    PushAutoEscape,
    /// Ends what the last `PushAutoEscape` began: whether output is escaped is as it was before.
    PopAutoEscape,
    /// Begins to capture output.
    BeginCapture(CaptureMode),
    /// Ends the capture that began last, and pushes what it kept.
    EndCapture,
    /// Replaces the arguments by what a function gives. Their number is `None` where a count on top
    /// of them says it.
    CallFunction(&'s str, Option<u16>),
    /// Replaces an object and the arguments by what its method gives. The number counts the object
    /// too, and is `None` where a count on top of them says it.
    CallMethod(&'s str, Option<u16>),
    /// Replaces an object and the arguments by what a call of it gives. The number counts the
    /// object too, and is `None` where a count on top of them says it.
    CallObject(Option<u16>),
    /// Pushes the top operand again.
    DupTop,
    /// Pops the top operand.
    DiscardTop,
    /// Writes the block that the current one overrides.
    FastSuper,
    /// Pops a value and runs the recursive loop again over its items.
    FastRecurse,
    /// Swaps the two top operands.
    Swap,
    /// Writes a block.
    CallBlock(&'s str),
    /// Pops the name of a template, whose blocks the ones here override.
    LoadBlocks,
    /// Pops the name of a template and writes it; says whether a missing one is ignored.
    Include(bool),
    /// Pushes what the innermost scope has stored.
    ExportLocals,
    /// Adds a variable to the closure of the macro that is being made.
    Enclose(&'s str),
    /// Pushes that closure.
    GetClosure,
    /// Replaces a closure and the names of arguments by a macro, with its name, the index where
    /// what it runs begins, and its flags.
    BuildMacro(&'s str, u32, u8),
    /// Ends what a macro runs.
    Return,
    /// Replaces a value by whether it is undefined.
    IsUndefined,
}

/// A list of instructions, with the name and the text of the source that they come from, and the
/// line and the span of each. It has fewer than 2^32.
#[derive(Drop)]
pub struct InstructionList<'s, I> {
    pub(crate) instructions: Vec<I>,
    pub(crate) marks: MarkList,
    pub(crate) name: &'s str,
    pub(crate) source: &'s str,
    pub(crate) is_required_block: bool,
    ghost marked: { length (marks_in marks) ≡ vec_len instructions },
}

/// A list of the instructions of a unit of code.
pub type Instructions<'s, V = Value> = InstructionList<'s, Instruction<'s, V>>;

impl<'s, I> InstructionList<'s, I> {
    ghost use Rattle.std.specs.Borrow.{sem};
    ghost use Rattle.minijinja_semantics.specs.Marks.{at_line, at_span, last_mark, shown};
    ghost use Rattle.minijinja_instructions.specs.InstructionLists.{instructions_of, is_required, marks_of, name_of, source_of, HasNoPlaceOrName, IsAddError};
    ghost use Rattle.minijinja_instructions.specs.Lending.{lends_instruction};
    ghost use Rattle.minijinja_instructions.specs.Marks.{line_at, span_at};

    /// Makes an empty list, which allocates nothing yet.
    pub fn new(alloc: Global, name: &'s str, source: &'s str) -> Self
        ensures empty { instructions_of result ≡ [] }
        ensures marks { marks_of result ≡ [] }
        ensures required { is_required result ≡ false }
        ensures name { name_of result ≡ name.now }
        ensures source { source_of result ≡ source.now }
    {
        InstructionList {
            instructions: Vec::new(alloc),
            marks: MarkList::new(alloc),
            name,
            source,
            is_required_block: false,
        }
    }

    /// Whether it is the list of a block that another template has to override.
    pub fn is_required_block(&self) -> bool
        ensures { result ≡ is_required self.now }
    {
        self.is_required_block
    }

    /// Marks the list as that of a block that another template has to override, or as no such list.
    /// The compiler marks the lists of required blocks; a caller that makes lists itself does it by
    /// this:
    ///
    /// ```
    /// let mut title = Instructions::new(alloc, "page.html", "");
    /// title.mark_required_block(true);
    /// assert!(rt; title.is_required_block());
    /// ```
    pub fn mark_required_block(&mut self, required: bool)
        ensures required { is_required self.new ≡ required }
        ensures instructions { instructions_of self.new ≡ instructions_of self.old }
        ensures marks { marks_of self.new ≡ marks_of self.old }
        ensures name { name_of self.new ≡ name_of self.old }
        ensures source { source_of self.new ≡ source_of self.old }
    {
        self.is_required_block = required;
    }

    /// The name of the source.
    pub fn name(&self) -> &'s str
        ensures { result.now ≡ name_of self.now }
    {
        self.name
    }

    /// The text of the source.
    pub fn source(&self) -> &'s str
        ensures { result.now ≡ source_of self.now }
    {
        self.source
    }

    /// How many instructions there are.
    pub fn len(&self) -> usize
        ensures { result ≡ length (instructions_of self.now) }
    {
        self.instructions.len()
    }

    /// Whether there is none.
    pub fn is_empty(&self) -> bool
        ensures { result ≡ (length (instructions_of self.now) == 0) }
    {
        self.instructions.is_empty()
    }

    /// The instructions in order.
    pub fn iter(&self) -> slice::Iter<'_, I>
        ensures items { iter_rest result ≡ instructions_of self.now }
        ensures bound { length (iter_rest result) < 2 ^ 64 }
        ensures runs { IterYieldsInOrder I }
        ensures runs_back { IterYieldsInReverse I }
    {
        self.instructions.iter()
    }

    /// The instruction at an index, counted from 0, or none past the end of the list.
    pub fn get(&self, index: u32) -> Option<&I>
        ensures { option_copied result ≡ slice_get (instructions_of self.now) index }
    {
        self.instructions.get(index as usize)
    }

    /// A mutable reference to the instruction at an index, counted from 0, or none past the end of
    /// the list. A write changes this instruction alone.
    pub fn get_mut(&mut self, index: u32) -> Option<&mut I>
        ensures* writes_back { sem 𝓛 (lends_instruction I.row self.entry index result) }
        ensures value { option_copied_mut result ≡ slice_get (instructions_of self.old) index }
    {
        self.instructions.get_mut(index as usize)
    }

    /// The line of the instruction at an index, counted from 1, or none if it has none. Past the
    /// end it is the line of the last one.
    pub fn get_line(&self, index: u32) -> Option<usize>
        ensures { result ≡ line_at (marks_of self.now) index }
    {
        match self.marks.line(index as usize) {
            Some(line) => Some(line as usize),
            None => None,
        }
    }

    /// The span of the instruction at an index, or none if it has none. Past the end it is the span
    /// of the last one.
    pub fn get_span(&self, index: u32) -> Option<Span>
        ensures { result ≡ span_at (marks_of self.now) index }
    {
        self.marks.span(index as usize)
    }

    /// Adds an instruction and returns its index. It has the line and the span of the last one. It
    /// fails if memory is refused, and where the list would have 2^32 instructions; then the list
    /// is unchanged.
    pub fn add(&mut self, instruction: I) -> Result<u32, Error<'s>>
    where
        I: Drop,
        ensures added { IfOk result
            (λ _. instructions_of self.new ≡ instructions_of self.old ++ instruction ∷ []) }
        ensures marked { IfOk result (λ _. marks_of self.new ≡ marks_of self.old ++ last_mark
            (marks_of self.old) ∷ []) }
        ensures index { IfOk result (λ i. i ≡ length (instructions_of self.old)) }
        ensures unchanged { OnErr result (instructions_of self.new ≡ instructions_of self.old) }
        ensures same_marks { OnErr result (marks_of self.new ≡ marks_of self.old) }
        ensures causes { IfErr result IsAddError }
        ensures unplaced { IfErr result HasNoPlaceOrName }
        ensures too_many { IfErr result (λ e. kind_of e ≡ TooManyInstructions → 2 ^ 32 ≤ length
            (instructions_of self.old) + 1) }
        ensures full { 2 ^ 32 ≤ length (instructions_of self.old) + 1 → IfErr result
            (λ e. kind_of e ≡ TooManyInstructions) × IsErr result }
        ensures required { is_required self.new ≡ is_required self.old }
        ensures name { name_of self.new ≡ name_of self.old }
        ensures source { source_of self.new ≡ source_of self.old }
    {
        reserve_one(&mut self.instructions)?;
        let index = self.instructions.len();
        self.marks.again();
        self.instructions.push_reserved(instruction);
        Ok(index as u32)
    }

    /// Adds an instruction that stands on a line, counted from 1, and returns its index. It has no
    /// span. It fails if memory is refused, and where the list would have 2^32 instructions; then
    /// the list is unchanged.
    pub fn add_with_line(&mut self, instruction: I, line: u16) -> Result<u32, Error<'s>>
    where
        I: Drop,
        ensures added { IfOk result
            (λ _. instructions_of self.new ≡ instructions_of self.old ++ instruction ∷ []) }
        ensures marked { IfOk result
            (λ _. marks_of self.new ≡ marks_of self.old ++ at_line line ∷ []) }
        ensures index { IfOk result (λ i. i ≡ length (instructions_of self.old)) }
        ensures unchanged { OnErr result (instructions_of self.new ≡ instructions_of self.old) }
        ensures same_marks { OnErr result (marks_of self.new ≡ marks_of self.old) }
        ensures causes { IfErr result IsAddError }
        ensures unplaced { IfErr result HasNoPlaceOrName }
        ensures too_many { IfErr result (λ e. kind_of e ≡ TooManyInstructions → 2 ^ 32 ≤ length
            (instructions_of self.old) + 1) }
        ensures full { 2 ^ 32 ≤ length (instructions_of self.old) + 1 → IfErr result
            (λ e. kind_of e ≡ TooManyInstructions) × IsErr result }
        ensures required { is_required self.new ≡ is_required self.old }
        ensures name { name_of self.new ≡ name_of self.old }
        ensures source { source_of self.new ≡ source_of self.old }
    {
        self.add_marked(instruction, line, Span::default())
    }

    /// Adds an instruction that comes from a span, on whose first line it stands, and returns its
    /// index. A span of zeros is none. It fails if memory is refused, and where the list would have
    /// 2^32 instructions; then the list is unchanged.
    pub fn add_with_span(&mut self, instruction: I, span: Span) -> Result<u32, Error<'s>>
    where
        I: Drop,
        ensures added { IfOk result
            (λ _. instructions_of self.new ≡ instructions_of self.old ++ instruction ∷ []) }
        ensures marked { IfOk result
            (λ _. marks_of self.new ≡ marks_of self.old ++ at_span span ∷ []) }
        ensures index { IfOk result (λ i. i ≡ length (instructions_of self.old)) }
        ensures unchanged { OnErr result (instructions_of self.new ≡ instructions_of self.old) }
        ensures same_marks { OnErr result (marks_of self.new ≡ marks_of self.old) }
        ensures causes { IfErr result IsAddError }
        ensures unplaced { IfErr result HasNoPlaceOrName }
        ensures too_many { IfErr result (λ e. kind_of e ≡ TooManyInstructions → 2 ^ 32 ≤ length
            (instructions_of self.old) + 1) }
        ensures full { 2 ^ 32 ≤ length (instructions_of self.old) + 1 → IfErr result
            (λ e. kind_of e ≡ TooManyInstructions) × IsErr result }
        ensures required { is_required self.new ≡ is_required self.old }
        ensures name { name_of self.new ≡ name_of self.old }
        ensures source { source_of self.new ≡ source_of self.old }
    {
        self.add_marked(instruction, span.start_line, span)
    }

    /// Adds an instruction with a line and a span. All that may be refused comes before any change.
    fn add_marked(&mut self, instruction: I, line: u16, span: Span) -> Result<u32, Error<'s>>
    where
        I: Drop,
        ensures added { IfOk result
            (λ _. instructions_of self.new ≡ instructions_of self.old ++ instruction ∷ []) }
        ensures marked { IfOk result (λ _. marks_of self.new ≡ marks_of self.old ++
            (record { line = Some line; span = shown span }) ∷ []) }
        ensures index { IfOk result (λ i. i ≡ length (instructions_of self.old)) }
        ensures unchanged { OnErr result (instructions_of self.new ≡ instructions_of self.old) }
        ensures same_marks { OnErr result (marks_of self.new ≡ marks_of self.old) }
        ensures causes { IfErr result IsAddError }
        ensures unplaced { IfErr result HasNoPlaceOrName }
        ensures too_many { IfErr result (λ e. kind_of e ≡ TooManyInstructions → 2 ^ 32 ≤ length
            (instructions_of self.old) + 1) }
        ensures full { 2 ^ 32 ≤ length (instructions_of self.old) + 1 → IfErr result
            (λ e. kind_of e ≡ TooManyInstructions) × IsErr result }
        ensures required { is_required self.new ≡ is_required self.old }
        ensures name { name_of self.new ≡ name_of self.old }
        ensures source { source_of self.new ≡ source_of self.old }
    {
        reserve_one(&mut self.instructions)?;
        self.marks.reserve()?;
        let index = self.instructions.len();
        self.marks.put(line, span);
        self.instructions.push_reserved(instruction);
        Ok(index as u32)
    }
}

impl<'s, V: TemplateValue> InstructionList<'s, Instruction<'s, V>> {
    ghost use Rattle.std.specs.Prelude.{map};
    ghost use Rattle.minijinja_tree.specs.Tree.{Expr, Stmt, Stmts};
    ghost use Rattle.minijinja_semantics.specs.Layout.{block_code, expr_code, stmt_code};
    ghost use Rattle.minijinja_semantics.specs.MacroBodies.{all_macro_bodies, macro_bodies, referenced};
    ghost use Rattle.minijinja_semantics.specs.Pieces.{start};
    ghost use Rattle.minijinja_instructions.specs.Instructions.{code_of};

    /// The names that are referenced at an index, the last one first and each once. They are those
    /// of variables that are looked up or stored at the index or before it, those of functions that
    /// are called, and `loop` where a loop with this variable begins. Within the body of a macro
    /// they are those in the innermost one. Bodies of macros that ended before the index do not
    /// count. An index past the end counts as the last one, and an empty list has no names.
    ///
    /// This holds of the code of a template, of the body of a block and of an expression, as the
    /// compiler makes them. It fails only if memory is refused.
    pub fn get_referenced_names(&self, index: u32) -> Result<Vec<&'s str>, Error<'s>>
        ensures template { IfOk result (λ names. (t : Stmt V.Contents (Unit {0})) →
            code_of V.contents self.now ≡ stmt_code V.functions t start →
            map (λ x. x.now) names.items ≡ referenced (code_of V.contents self.now)
            (macro_bodies V.functions [] t start) index) }
        ensures block { IfOk result (λ names. (body : Stmts V.Contents (Unit {0})) →
            code_of V.contents self.now ≡ block_code V.functions body →
            map (λ x. x.now) names.items ≡ referenced (code_of V.contents self.now)
            (all_macro_bodies V.functions [] body start) index) }
        ensures expression { IfOk result (λ names. (e : Expr V.Contents) →
            code_of V.contents self.now ≡ expr_code V.functions e start →
            map (λ x. x.now) names.items ≡ referenced (code_of V.contents self.now) [] index) }
        ensures memory { IfErr result IsOutOfMemory }
    {
        let alloc = *self.instructions.allocator();
        Ok(referenced_names(alloc, &self.instructions, index as usize)?)
    }
}
