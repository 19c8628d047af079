//! `CodeGenerator`, which compiles trees to instructions.
ghost use Rattle.std.specs.Prelude.{◌≡◌, ◌+◌, ◌<◌, ◌≤◌, ◌^◌, ◌++◌, [], true, false, length, min, IfOk, IfErr, OnOk, IfNone, IfSome, Ok, Err, Some, None};
ghost use Rattle.std.specs.BTreeMap.{IsEmpty};
ghost use Rattle.minijinja_tree.specs.Erasure.{expr_tree, stmt_tree};
ghost use Rattle.minijinja_tree.specs.Tree.{blocks};
ghost use Rattle.minijinja_tree.specs.WellFormed.{IsTarget, IsWhole, IsWellFormed};
ghost use Rattle.minijinja_instructions.specs.Instructions.{code_of};
ghost use Rattle.minijinja_semantics.specs.Correct.{DoesExpr, DoesStmt};
ghost use Rattle.minijinja_syntax.specs.Errors.{kind_of};
ghost use Rattle.minijinja_syntax.specs.declared.error.ErrorKind.TheVariants.{TooManyInstructions};
ghost use Rattle.minijinja_code.specs.Generator.{HaveTooLong, OnlyWhereOneIsTooLong, OnlyWhereTooLong};
ghost use Rattle.minijinja_code.specs.BlockLists.{AddsLists};
ghost use Rattle.minijinja_code.specs.BlockMarks.{HaveMarks, marked_blocks};
ghost use Rattle.minijinja_code_parts.specs.Hint.{IsHint, data_bytes};
ghost use Rattle.minijinja_instructions.specs.InstructionLists.{HasNoPlaceOrName, IsAddError, is_required, marks_of, name_of, source_of};
ghost use Rattle.minijinja_semantics.specs.Places.{placed_stmt};
ghost use Rattle.minijinja_semantics.specs.Units.{DoUnits};
ghost use Rattle.minijinja_semantics.specs.Layout.{expr_code, past_expr, target_code, past_target, stmt_code, past_stmt};
ghost use Rattle.minijinja_code.specs.private.Statements.{stmt_piece};
ghost use Rattle.minijinja_tree.specs.SpannedErasure.{expr_node, stmt_node};
ghost use Rattle.minijinja_semantics.specs.Marks as marks;
ghost use Rattle.minijinja_code.specs.internal.AtGenerator.{generated, here_so_far, margin_so_far, counted_bytes, blocks_of, file_of, nothing_is_open, open_of, outer_spans, text_of, refusal_of};
ghost use Rattle.minijinja_emitter.specs.internal.AtEmitter.{made_of, margin_of};
ghost use Rattle.minijinja_emitter.specs.internal.Making.{Adds};
ghost use Rattle.minijinja_semantics.specs.Pieces.{start};

mod building;
mod lists;

use crate::codegen::building::Pending;
use crate::codegen::lists::{ListError, Lists, Source, add_lists};
use crate::stmt::statement;
use minijinja_code_expr::expr::expression;
use minijinja_code_parts::enclosing_loop::EnclosingLoop;
use minijinja_code_parts::targets::assign;
use minijinja_emitter::emit::Emitter;
use minijinja_emitter::memory::OutOfMemory;
use minijinja_instructions::instructions::Instructions;
use minijinja_instructions::lists::{LIMIT, listed, too_many};
use minijinja_syntax::error::Error;
use minijinja_syntax::tokens::Span;
use minijinja_tree::ast::{Expr, Stmt};
use minijinja_value::value::{TemplateValue, Value};
use std::alloc::{AllocError, Global};
use std::collections::BTreeMap;

/// Compiles trees, one after another, to one list of instructions, and each block in them to a list
/// of its own. Once a call has failed, every later call returns that error.
#[derive(Drop)]
pub struct CodeGenerator<'s, V: TemplateValue = Value> {
    source: Source<'s>,
    code: Emitter<'s, V>,
    /// What opening calls have left open, the innermost last.
    pending: Vec<Pending>,
    /// The spans that are open round the innermost one, which the emitter has; the first is one of
    /// zeros.
    spans: Vec<Span>,
    lists: Lists<'s, V>,
    raw_template_bytes: usize,
    refusal: Option<Error<'s>>,
}

impl<'s, V: TemplateValue> CodeGenerator<'s, V> {
    /// A generator with an empty list, for a source with this name and text. It allocates nothing
    /// yet.
    pub fn new(alloc: Global, file: &'s str, source: &'s str) -> Self
        ensures empty { generated V.contents result ≡ [] }
        ensures here { here_so_far V.contents result ≡ start }
        ensures margin { margin_so_far result ≡ marks.start }
        ensures bytes { counted_bytes result ≡ 0 }
        ensures refusal { refusal_of result ≡ None }
        ensures blocks { IsEmpty (blocks_of result) }
        ensures left_open { open_of result ≡ [] }
        ensures outer { outer_spans result ≡ [] }
        ensures name { file_of result ≡ file.now }
        ensures source { text_of result ≡ source.now }
    {
        CodeGenerator {
            source: Source {
                name: file,
                text: source,
            },
            code: Emitter::new(alloc),
            pending: Vec::new(alloc),
            spans: Vec::new(alloc),
            lists: BTreeMap::new(alloc),
            raw_template_bytes: 0,
            refusal: None,
        }
    }

    /// Adds the instructions of a statement, and the list of each block in it. It fails if memory
    /// is refused, or if a list would have 2^32 instructions or more; every later call then returns
    /// the same error.
    pub fn compile_stmt(&mut self, stmt: &Stmt<'s, V>) -> Result<(), Error<'s>>
        requires { IsWellFormed (stmt_tree V.contents stmt.now) }
        ensures added { OnOk result (generated V.contents self.new ≡ generated V.contents self.old
            ++ stmt_code V.functions (stmt_tree V.contents stmt.now)
            (here_so_far V.contents self.old)) }
        ensures past { OnOk result (here_so_far V.contents self.new ≡ past_stmt V.functions
            (stmt_tree V.contents stmt.now) (here_so_far V.contents self.old)) }
        // Each instruction has the line and the span of the part of the tree that it comes from.
        ensures marked { OnOk result (margin_so_far self.new ≡ marks.stmt V.functions []
            (stmt_node V.contents stmt.now) (margin_so_far self.old)) }
        // Run from their start, the instructions do what the statement means, on answers that
        // number, with the values in them, under 2^64.
        ensures does { OnOk result (DoesStmt V.functions (generated V.contents self.new)
            (length (generated V.contents self.old)) (length (generated V.contents self.new))
            (placed_stmt V.functions (stmt_tree V.contents stmt.now)
            (here_so_far V.contents self.old))) }
        // So do the instructions of each unit that is run by itself: a recursive loop, or the body
        // of a macro.
        ensures units { OnOk result (DoUnits V.functions (generated V.contents self.new)
            (stmt_tree V.contents stmt.now) (here_so_far V.contents self.old)) }
        ensures counted { OnOk result (counted_bytes self.new
            ≡ min usize.MAX (counted_bytes self.old + data_bytes (stmt_tree V.contents stmt.now))) }

        ensures few { OnOk result (length (generated V.contents self.new) < 2 ^ 32) }

        // It fails if memory is refused or a list is too long; every later call then returns that
        // error.
        ensures causes { IfNone (refusal_of self.old) (IfErr result IsAddError) }
        ensures unplaced { IfNone (refusal_of self.old) (IfErr result HasNoPlaceOrName) }
        ensures too_many { IfNone (refusal_of self.old) (IfErr result
            (λ e. OnlyWhereOneIsTooLong V.functions e (generated V.contents self.old
            ++ stmt_code V.functions (stmt_tree V.contents stmt.now)
            (here_so_far V.contents self.old)) (blocks (stmt_tree V.contents stmt.now)))) }
        ensures kept { IfErr result (λ e. refusal_of self.new ≡ Some e) }
        ensures again { IfSome (refusal_of self.old) (λ e. result ≡ Err e) }
        ensures ready { OnOk result (refusal_of self.new ≡ None) }

        // Each block in the statement has a list, under its name. Lists under other names stay as
        // they were.
        ensures blocks { OnOk result (AddsLists V.functions V.contents (text_of self.old)
            (file_of self.old) (blocks (stmt_tree V.contents stmt.now)) (blocks_of self.old)
            (blocks_of self.new)) }
        // That list has the lines and the spans of the block's body.
        ensures block_marks { OnOk result (HaveMarks V.functions
            (marked_blocks (stmt_node V.contents stmt.now)) (blocks_of self.new)) }
        ensures left_open { open_of self.new ≡ open_of self.old }
        ensures outer { outer_spans self.new ≡ outer_spans self.old }
        ensures name { file_of self.new ≡ file_of self.old }
        ensures source { text_of self.new ≡ text_of self.old }
    {
        if let Some(error) = self.refusal {
            return Err(error);
        }
        match compile_stmt(&mut self.code, stmt) {
            Ok(data_bytes) => {
                self.raw_template_bytes = self.raw_template_bytes.saturating_add(data_bytes);
                self.ended(Ok(()))?;
                self.add_lists(stmt)
            }
            Err(refused) => self.ended(Err(refused)),
        }
    }

    /// Adds the instructions of an expression, which leave its value on top of the operands. It
    /// fails as `compile_stmt` does.
    pub fn compile_expr(&mut self, expr: &Expr<'s, V>) -> Result<(), Error<'s>>
        requires { IsWhole (expr_tree V.contents expr.now) }
        ensures added { OnOk result (generated V.contents self.new ≡ generated V.contents self.old
            ++ expr_code V.functions (expr_tree V.contents expr.now)
            (here_so_far V.contents self.old)) }
        ensures few { OnOk result (length (generated V.contents self.new) < 2 ^ 32) }
        ensures past { OnOk result (here_so_far V.contents self.new ≡ past_expr V.functions
            (expr_tree V.contents expr.now) (here_so_far V.contents self.old)) }
        ensures marked { OnOk result (margin_so_far self.new ≡ marks.expr V.functions
            (expr_node V.contents expr.now) (margin_so_far self.old)) }
        // Run from their start, the instructions leave the value that the expression means, on
        // answers that number, with the values in them, under 2^64.
        ensures does { OnOk result (DoesExpr V.functions (generated V.contents self.new)
            (length (generated V.contents self.old)) (length (generated V.contents self.new))
            (expr_tree V.contents expr.now)) }
        ensures causes { IfNone (refusal_of self.old) (IfErr result IsAddError) }
        ensures unplaced { IfNone (refusal_of self.old) (IfErr result HasNoPlaceOrName) }
        ensures too_many { IfNone (refusal_of self.old) (IfErr result
            (λ e. OnlyWhereTooLong e (generated V.contents self.old ++ expr_code V.functions
            (expr_tree V.contents expr.now) (here_so_far V.contents self.old)))) }
        ensures kept { IfErr result (λ e. refusal_of self.new ≡ Some e) }
        ensures again { IfSome (refusal_of self.old) (λ e. result ≡ Err e) }
        ensures ready { OnOk result (refusal_of self.new ≡ None) }
        ensures counted { counted_bytes self.new ≡ counted_bytes self.old }
        ensures blocks { blocks_of self.new ≡ blocks_of self.old }
        ensures left_open { open_of self.new ≡ open_of self.old }
        ensures outer { outer_spans self.new ≡ outer_spans self.old }
        ensures name { file_of self.new ≡ file_of self.old }
        ensures source { text_of self.new ≡ text_of self.old }
    {
        if let Some(error) = self.refusal {
            return Err(error);
        }
        let outcome = expression(&mut self.code, expr);
        self.ended(outcome)
    }

    /// Adds the instructions that assign the value on top of the operands to a target. It fails as
    /// `compile_stmt` does.
    pub fn compile_assignment(&mut self, target: &Expr<'s, V>) -> Result<(), Error<'s>>
        requires { IsTarget (expr_tree V.contents target.now) }
        ensures added { OnOk result (generated V.contents self.new ≡ generated V.contents self.old
            ++ target_code V.functions (expr_tree V.contents target.now)
            (here_so_far V.contents self.old)) }
        ensures few { OnOk result (length (generated V.contents self.new) < 2 ^ 32) }
        ensures past { OnOk result (here_so_far V.contents self.new ≡ past_target V.functions
            (expr_tree V.contents target.now) (here_so_far V.contents self.old)) }
        ensures marked { OnOk result (margin_so_far self.new ≡ marks.target V.functions
            (expr_node V.contents target.now) (margin_so_far self.old)) }
        ensures causes { IfNone (refusal_of self.old) (IfErr result IsAddError) }
        ensures unplaced { IfNone (refusal_of self.old) (IfErr result HasNoPlaceOrName) }
        ensures too_many { IfNone (refusal_of self.old) (IfErr result
            (λ e. OnlyWhereTooLong e (generated V.contents self.old ++ target_code V.functions
            (expr_tree V.contents target.now) (here_so_far V.contents self.old)))) }
        ensures kept { IfErr result (λ e. refusal_of self.new ≡ Some e) }
        ensures again { IfSome (refusal_of self.old) (λ e. result ≡ Err e) }
        ensures ready { OnOk result (refusal_of self.new ≡ None) }
        ensures counted { counted_bytes self.new ≡ counted_bytes self.old }
        ensures blocks { blocks_of self.new ≡ blocks_of self.old }
        ensures left_open { open_of self.new ≡ open_of self.old }
        ensures outer { outer_spans self.new ≡ outer_spans self.old }
        ensures name { file_of self.new ≡ file_of self.old }
        ensures source { text_of self.new ≡ text_of self.old }
    {
        if let Some(error) = self.refusal {
            return Err(error);
        }
        let outcome = assign(&mut self.code, target);
        self.ended(outcome)
    }

    /// A size for the output buffer, in bytes: the least power of two that is at least twice the
    /// bytes of text outside of tags so far, and at most 2^63.
    pub fn buffer_size_hint(&self) -> usize
        ensures { IsHint (counted_bytes self.now) result }
    {
        (self.raw_template_bytes.min(LARGEST_HINT / 2) * 2).next_power_of_two()
    }

    /// Whether what was begun is complete: no call has failed, and what opening calls opened is
    /// closed.
    pub fn is_closed(&self) -> bool
        ensures { result ≡ nothing_is_open self.now }
    {
        self.refusal.is_none() && self.pending.is_empty()
    }

    /// The list of instructions, and the list of each block under its name. A generator of which a
    /// call has failed, or in which something is open, has none.
    pub fn finish(self) -> (Instructions<'s, V>, BTreeMap<&'s str, Instructions<'s, V>>)
        requires { nothing_is_open self ≡ true }
        ensures code { code_of V.contents result.0 ≡ generated V.contents self.entry }
        ensures marks { marks_of result.0 ≡ (margin_so_far self.entry).marks }
        // It is no list of a block, so it is none that has to be overridden.
        ensures required { is_required result.0 ≡ false }
        ensures blocks { result.1 ≡ blocks_of self.entry }
        ensures name { name_of result.0 ≡ file_of self.entry }
        ensures source { source_of result.0 ≡ text_of self.entry }
    {
        let CodeGenerator {
            source,
            code,
            lists,
            ..
        } = self;
        let (instructions, marks) = code.into_parts();
        let code = listed(instructions, marks, source.name, source.text, false);
        (code, lists)
    }

    /// Adds the list of each block of a statement; if that fails, keeps the error.
    fn add_lists(&mut self, stmt: &Stmt<'s, V>) -> Result<(), Error<'s>>
        requires ready { refusal_of self.old ≡ None }
        requires tree { IsWellFormed (stmt_tree V.contents stmt.now) }
        ensures added { OnOk result (AddsLists V.functions V.contents (text_of self.old)
            (file_of self.old) (blocks (stmt_tree V.contents stmt.now)) (blocks_of self.old)
            (blocks_of self.new)) }
        ensures marked { OnOk result (HaveMarks V.functions
            (marked_blocks (stmt_node V.contents stmt.now)) (blocks_of self.new)) }
        ensures too_many { IfErr result (λ e. kind_of e ≡ TooManyInstructions →
            HaveTooLong V.functions (blocks (stmt_tree V.contents stmt.now))) }
        ensures causes { IfErr result IsAddError }
        ensures unplaced { IfErr result HasNoPlaceOrName }
        ensures ready { OnOk result (refusal_of self.new ≡ None) }
        ensures kept { IfErr result (λ e. refusal_of self.new ≡ Some e) }

        ensures code { generated V.contents self.new ≡ generated V.contents self.old }
        ensures here { here_so_far V.contents self.new ≡ here_so_far V.contents self.old }
        ensures margin { margin_so_far self.new ≡ margin_so_far self.old }
        ensures counted { counted_bytes self.new ≡ counted_bytes self.old }
        ensures left_open { open_of self.new ≡ open_of self.old }
        ensures outer { outer_spans self.new ≡ outer_spans self.old }
        ensures name { file_of self.new ≡ file_of self.old }
        ensures source { text_of self.new ≡ text_of self.old }
    {
        let alloc = self.code.alloc();
        let error = match add_lists(&mut self.lists, alloc, self.source, stmt) {
            Ok(()) => return Ok(()),
            Err(ListError::TooMany) => too_many(),
            Err(ListError::OutOfMemory) => Error::from(AllocError),
        };
        self.keep(error);
        Err(error)
    }

    /// Keeps an error, which every later call returns.
    fn keep(&mut self, refusal: Error<'s>)
        ensures kept { refusal_of self.new ≡ Some refusal.entry }
        ensures code { generated V.contents self.new ≡ generated V.contents self.old }
        ensures here { here_so_far V.contents self.new ≡ here_so_far V.contents self.old }
        ensures margin { margin_so_far self.new ≡ margin_so_far self.old }
        ensures counted { counted_bytes self.new ≡ counted_bytes self.old }
        ensures blocks { blocks_of self.new ≡ blocks_of self.old }
        ensures left_open { open_of self.new ≡ open_of self.old }
        ensures outer { outer_spans self.new ≡ outer_spans self.old }
        ensures name { file_of self.new ≡ file_of self.old }
        ensures source { text_of self.new ≡ text_of self.old }
    {
        self.refusal = Some(refusal);
    }

    /// Ends a call that added instructions: it fails if memory was refused or if the list has
    /// become too long, and keeps the error.
    fn ended(&mut self, outcome: Result<(), OutOfMemory>) -> Result<(), Error<'s>>
        requires { refusal_of self.old ≡ None }
        ensures outcome { OnOk result (outcome ≡ Ok tt) }
        ensures few { OnOk result (length (generated V.contents self.old) < 2 ^ 32) }
        ensures too_many { IfErr result (λ e. kind_of e ≡ TooManyInstructions →
            (2 ^ 32 ≤ length (generated V.contents self.old)) × (outcome ≡ Ok tt)) }
        ensures causes { IfErr result IsAddError }
        ensures unplaced { IfErr result HasNoPlaceOrName }
        ensures ready { OnOk result (refusal_of self.new ≡ None) }
        ensures kept { IfErr result (λ e. refusal_of self.new ≡ Some e) }

        ensures code { generated V.contents self.new ≡ generated V.contents self.old }
        ensures here { here_so_far V.contents self.new ≡ here_so_far V.contents self.old }
        ensures margin { margin_so_far self.new ≡ margin_so_far self.old }
        ensures counted { counted_bytes self.new ≡ counted_bytes self.old }
        ensures blocks { blocks_of self.new ≡ blocks_of self.old }
        ensures left_open { open_of self.new ≡ open_of self.old }
        ensures outer { outer_spans self.new ≡ outer_spans self.old }
        ensures name { file_of self.new ≡ file_of self.old }
        ensures source { text_of self.new ≡ text_of self.old }
    {
        let error = match outcome {
            Ok(()) if self.code.place() < LIMIT => return Ok(()),
            Ok(()) => too_many(),
            Err(OutOfMemory) => Error::from(AllocError),
        };
        self.keep(error);
        Err(error)
    }
}

const LARGEST_HINT: usize = 1 << 63;

/// Adds the instructions of a statement, and returns the bytes of its data nodes.
fn compile_stmt<'s, V: TemplateValue>(
    code: &mut Emitter<'s, V>,
    stmt: &Stmt<'s, V>,
) -> Result<usize, OutOfMemory>
    requires { IsWellFormed (stmt_tree V.contents stmt.now) }
    ensures added { OnOk result (Adds (made_of V.contents code.old) (made_of V.contents code.new)
        (stmt_piece V.functions (stmt_tree V.contents stmt.now))) }
    ensures marked { OnOk result (margin_of code.new ≡ marks.stmt V.functions []
        (stmt_node V.contents stmt.now) (margin_of code.old)) }
    ensures counted { IfOk result
        (λ n. n ≡ min usize.MAX (data_bytes (stmt_tree V.contents stmt.now))) }
{
    make_room(code, stmt)?;
    let mut enclosing = EnclosingLoop::outside(code.alloc());
    statement(code, &mut enclosing, stmt)?;
    Ok(enclosing.data_bytes())
}

/// The most instructions to reserve memory for because of the bytes of a template or a block.
const MOST_ROOM: usize = 600;

/// How many instructions to reserve memory for, where these statements stand within a span: most
/// statements make at least two, and up to four where they are long; a text that is dense with tags
/// makes one for about three bytes.
fn room_for<V: TemplateValue>(statements: &[Stmt<'_, V>], whole: Span) -> usize {
    let bytes = own_bytes(statements, whole);
    let least = statements.len().saturating_mul(2);
    let of_long_ones = (bytes / 5).min(least.saturating_mul(2));
    let of_dense_text = (bytes / 3).min(MOST_ROOM);
    least.max(of_long_ones).max(of_dense_text)
}

/// The bytes of statements within a span, outside of blocks, which have lists of their own.
fn own_bytes<V: TemplateValue>(statements: &[Stmt<'_, V>], whole: Span) -> usize {
    let mut bytes = bytes_of(whole);
    for child in statements {
        if let Stmt::Block(block) = child {
            bytes = bytes.saturating_sub(bytes_of(block.span()));
        }
    }
    bytes
}

/// How many bytes stand within a span.
fn bytes_of(span: Span) -> usize {
    span.end_offset.saturating_sub(span.start_offset) as usize
}

/// Reserves memory for the code of a template.
fn make_room<'s, V: TemplateValue>(
    code: &mut Emitter<'s, V>,
    stmt: &Stmt<'s, V>,
) -> Result<(), OutOfMemory>
    ensures made { made_of V.contents code.new ≡ made_of V.contents code.old }
    ensures marked { margin_of code.new ≡ margin_of code.old }
{
    match stmt {
        Stmt::Template(template) => {
            code.make_room(room_for(&template.node().children, template.span()))
        }
        _ => Ok(()),
    }
}
