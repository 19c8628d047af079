//! The lists of instructions of blocks.
ghost use Rattle.std.specs.Prelude.{◌≡◌, ◌<◌, ◌≤◌, ◌^◌, ◌∷◌, [], false, length, map, All, IfErr, IfOk, OnOk};
ghost use Rattle.minijinja_tree.specs.Erasure.{stmt_tree};
ghost use Rattle.minijinja_tree.specs.Tree.{block_names, blocks, stmts_of};
ghost use Rattle.minijinja_tree.specs.WellFormed.{AreDistinct, AreInner};
ghost use Rattle.minijinja_tree.specs.declared.ast.Stmt.{size-Stmt};
ghost use Rattle.minijinja_instructions.specs.Instructions.{instr_of};
ghost use Rattle.minijinja_code.specs.BlockLists.{AddsLists};
ghost use Rattle.minijinja_code.specs.BlockMarks.{marked_blocks};
ghost use Rattle.minijinja_code.specs.Generator.{HaveTooLong};
ghost use Rattle.minijinja_code.specs.declared.codegen.lists.ListError.TheVariants.{TooMany};
ghost use Rattle.minijinja_code.specs.private.Lists.{AddsMarks, block_tree, bodies_of, marked_block, marked_bodies_of, own_block, own_marked};
ghost use Rattle.minijinja_code.specs.private.Statements.{StandsSomewhere};
ghost use Rattle.minijinja_emitter.specs.internal.Making.{capped};
ghost use Rattle.minijinja_tree.specs.Nodes.{node_of};
ghost use Rattle.minijinja_tree.specs.SpannedErasure.{stmt_node, stmt_nodes};
ghost use Rattle.minijinja_tree.specs.SpannedTrees as spanned;
ghost use Rattle.minijinja_semantics.specs.Layout as layout;
ghost use Rattle.minijinja_semantics.specs.Marks.{block_marks};
ghost use Rattle.minijinja_instructions.specs.MarkLists.{marks_in};

use crate::codegen::room_for;
use crate::stmt::statements;
use minijinja_code_parts::enclosing_loop::EnclosingLoop;
use minijinja_emitter::emit::Emitter;
use minijinja_emitter::memory;
use minijinja_instructions::instructions::{Instruction, Instructions};
use minijinja_instructions::lists::{LIMIT, listed};
use minijinja_instructions::marks::MarkList;
use minijinja_syntax::tokens::Span;
use minijinja_tree::ast::{Block, Spanned, Stmt};
use minijinja_value::value::TemplateValue;
use std::alloc::{AllocError, AllocFailed, Global};
use std::collections::BTreeMap;

/// The list of each block, under its name.
pub(super) type Lists<'s, V> = BTreeMap<&'s str, Instructions<'s, V>>;

/// The name and the text of a source.
#[derive(Clone, Copy)]
pub(super) struct Source<'s> {
    pub(super) name: &'s str,
    pub(super) text: &'s str,
}

/// Why the list of a block cannot be made.
#[derive(Clone, Copy)]
pub(super) enum ListError {
    /// Memory was refused.
    OutOfMemory,
    /// The list would have 2^32 instructions or more.
    TooMany,
}

impl From<AllocError> for ListError {
    ghost use Rattle.std.specs.Prelude.{◌≡◌};
    ghost use Rattle.minijinja_code.specs.declared.codegen.lists.ListError.TheVariants.{OutOfMemory};

    ghost from_gives = { λ _ r. r ≡ OutOfMemory };

    fn from(_error: AllocError) -> Self {
        ListError::OutOfMemory
    }
}

impl<T: Drop> From<AllocFailed<T>> for ListError {
    ghost use Rattle.std.specs.Prelude.{◌≡◌};
    ghost use Rattle.minijinja_code.specs.declared.codegen.lists.ListError.TheVariants.{OutOfMemory};

    ghost from_gives = { λ _ r. r ≡ OutOfMemory };

    fn from(_error: AllocFailed<T>) -> Self {
        ListError::OutOfMemory
    }
}

impl From<memory::OutOfMemory> for ListError {
    ghost use Rattle.std.specs.Prelude.{◌≡◌};
    ghost use Rattle.minijinja_code.specs.declared.codegen.lists.ListError.TheVariants.{OutOfMemory};

    ghost from_gives = { λ _ r. r ≡ OutOfMemory };

    fn from(_error: memory::OutOfMemory) -> Self {
        ListError::OutOfMemory
    }
}

/// Adds the list of each block of a statement: its own, if it is one, and those in its bodies.
pub(super) fn add_lists<'s, V: TemplateValue>(
    lists: &mut Lists<'s, V>,
    alloc: Global,
    source: Source<'s>,
    stmt: &Stmt<'s, V>,
) -> Result<(), ListError>
    requires stands { StandsSomewhere (stmt_tree V.contents stmt.now) }
    requires names { AreDistinct (block_names (stmt_tree V.contents stmt.now)) }
    ensures added { OnOk result (AddsLists V.functions V.contents source.entry.text.now
        source.entry.name.now (blocks (stmt_tree V.contents stmt.now)) lists.old lists.new) }
    ensures marked { OnOk result (AddsMarks V.functions
        (marked_blocks (stmt_node V.contents stmt.now)) lists.old lists.new) }
    ensures too_many { IfErr result (λ error. error ≡ TooMany → HaveTooLong V.functions
        (blocks (stmt_tree V.contents stmt.now))) }
{
    add_list_of(lists, alloc, source, stmt)?;
    let first = body(stmt);
    let second = else_body(stmt);
    for inner in first {
        if nests(inner) {
            add_lists(lists, alloc, source, inner)?;
        }
    }
    for inner in second {
        if nests(inner) {
            add_lists(lists, alloc, source, inner)?;
        }
    }
    Ok(())
}

/// Whether a statement has nested statements. Most have none, and so no blocks.
fn nests<V: TemplateValue>(stmt: &Stmt<'_, V>) -> bool
    ensures { result ≡ false → blocks (stmt_tree V.contents stmt.now) ≡ [] }
{
    match stmt {
        Stmt::Template(_) => true,
        Stmt::ForLoop(_) => true,
        Stmt::IfCond(_) => true,
        Stmt::WithBlock(_) => true,
        Stmt::SetBlock(_) => true,
        Stmt::AutoEscape(_) => true,
        Stmt::FilterBlock(_) => true,
        Stmt::Block(_) => true,
        Stmt::Macro(_) => true,
        Stmt::CallBlock(_) => true,
        Stmt::EmitExpr(_) => false,
        Stmt::EmitRaw(_) => false,
        Stmt::Set(_) => false,
        Stmt::Import(_) => false,
        Stmt::FromImport(_) => false,
        Stmt::Extends(_) => false,
        Stmt::Include(_) => false,
        Stmt::Continue(_) => false,
        Stmt::Break(_) => false,
        Stmt::Do(_) => false,
    }
}

/// The statements of a template, or the body of a statement: of an `if` the part for a true
/// condition, of a loop what runs for each item. It is empty where there is none.
fn body<'a, 's, V: TemplateValue>(stmt: &'a Stmt<'s, V>) -> &'a [Stmt<'s, V>]
    ensures is { stmts_of (map (stmt_tree V.contents) result.now)
        ≡ (bodies_of (stmt_tree V.contents stmt.now)).0 }
    ensures nodes { spanned.stmts_of (stmt_nodes V.contents result.now)
        ≡ (marked_bodies_of (stmt_node V.contents stmt.now)).0 }
    ensures smaller { All (λ inner. size-Stmt _ _ inner < size-Stmt _ _ stmt.now) result.now }
{
    match stmt {
        Stmt::Template(template) => &template.node().children,
        Stmt::ForLoop(each) => &each.node().body,
        Stmt::IfCond(choice) => &choice.node().true_body,
        Stmt::WithBlock(block) => &block.node().body,
        Stmt::SetBlock(block) => &block.node().body,
        Stmt::AutoEscape(block) => &block.node().body,
        Stmt::FilterBlock(block) => &block.node().body,
        Stmt::Block(block) => &block.node().body,
        Stmt::Macro(declared) => &declared.node().body,
        Stmt::CallBlock(block) => &block.node().macro_decl.node().body,
        Stmt::EmitExpr(_) => &[],
        Stmt::EmitRaw(_) => &[],
        Stmt::Set(_) => &[],
        Stmt::Import(_) => &[],
        Stmt::FromImport(_) => &[],
        Stmt::Extends(_) => &[],
        Stmt::Include(_) => &[],
        Stmt::Continue(_) => &[],
        Stmt::Break(_) => &[],
        Stmt::Do(_) => &[],
    }
}

/// The else body of a loop or of an `if`. It is empty where there is none.
fn else_body<'a, 's, V: TemplateValue>(stmt: &'a Stmt<'s, V>) -> &'a [Stmt<'s, V>]
    ensures is { stmts_of (map (stmt_tree V.contents) result.now)
        ≡ (bodies_of (stmt_tree V.contents stmt.now)).1 }
    ensures nodes { spanned.stmts_of (stmt_nodes V.contents result.now)
        ≡ (marked_bodies_of (stmt_node V.contents stmt.now)).1 }
    ensures smaller { All (λ inner. size-Stmt _ _ inner < size-Stmt _ _ stmt.now) result.now }
{
    match stmt {
        Stmt::Template(_) => &[],
        Stmt::ForLoop(each) => &each.node().else_body,
        Stmt::IfCond(choice) => &choice.node().false_body,
        Stmt::WithBlock(_) => &[],
        Stmt::SetBlock(_) => &[],
        Stmt::AutoEscape(_) => &[],
        Stmt::FilterBlock(_) => &[],
        Stmt::Block(_) => &[],
        Stmt::Macro(_) => &[],
        Stmt::CallBlock(_) => &[],
        Stmt::EmitExpr(_) => &[],
        Stmt::EmitRaw(_) => &[],
        Stmt::Set(_) => &[],
        Stmt::Import(_) => &[],
        Stmt::FromImport(_) => &[],
        Stmt::Extends(_) => &[],
        Stmt::Include(_) => &[],
        Stmt::Continue(_) => &[],
        Stmt::Break(_) => &[],
        Stmt::Do(_) => &[],
    }
}

/// Adds the list of a statement, if it is a block.
fn add_list_of<'s, V: TemplateValue>(
    lists: &mut Lists<'s, V>,
    alloc: Global,
    source: Source<'s>,
    stmt: &Stmt<'s, V>,
) -> Result<(), ListError>
    requires { StandsSomewhere (stmt_tree V.contents stmt.now) }
    ensures added { OnOk result (AddsLists V.functions V.contents source.entry.text.now
        source.entry.name.now (own_block (stmt_tree V.contents stmt.now)) lists.old lists.new) }
    ensures marked { OnOk result (AddsMarks V.functions
        (own_marked (stmt_node V.contents stmt.now)) lists.old lists.new) }
    ensures too_many { IfErr result (λ error. error ≡ TooMany → HaveTooLong V.functions
        (own_block (stmt_tree V.contents stmt.now))) }
{
    match stmt {
        Stmt::Block(block) => add_list(lists, alloc, source, block),
        _ => Ok(()),
    }
}

/// Adds the list of a block. It fails if memory is refused, or if the list would have 2^32
/// instructions or more.
fn add_list<'s, V: TemplateValue>(
    lists: &mut Lists<'s, V>,
    alloc: Global,
    source: Source<'s>,
    block: &Spanned<Block<'s, V>>,
) -> Result<(), ListError>
    requires { AreInner false (block_tree V.contents (node_of block.now)).body }
    ensures added { OnOk result (AddsLists V.functions V.contents source.entry.text.now
        source.entry.name.now (block_tree V.contents (node_of block.now) ∷ []) lists.old
        lists.new) }
    ensures marked { OnOk result (AddsMarks V.functions (marked_block V.contents block.now ∷ [])
        lists.old lists.new) }
    ensures too_many { IfErr result (λ error. error ≡ TooMany → 2 ^ 32 ≤ length
        (layout.block_code V.functions (block_tree V.contents (node_of block.now)).body)) }
{
    let span = block.span();
    let block = block.node();
    let (instructions, marks) = body_code(alloc, &block.body, span)?;
    if instructions.len() >= LIMIT {
        return Err(ListError::TooMany);
    }
    let list = listed(
        instructions,
        marks,
        source.name,
        source.text,
        block.required,
    );
    lists.insert(block.name, list)?;
    Ok(())
}

/// The instructions of a block's body, as a list of their own, and the line and the span of each.
/// The list begins on the line of the block, whose span this is.
fn body_code<'s, V: TemplateValue>(
    alloc: Global,
    body: &[Stmt<'s, V>],
    span: Span,
) -> Result<(Vec<Instruction<'s, V>>, MarkList), memory::OutOfMemory>
    requires { AreInner false (stmts_of (map (stmt_tree V.contents) body.now)) }
    ensures code { IfOk result (λ made. map (instr_of V.contents) made.0.items ≡ map capped
        (layout.block_code V.functions (stmts_of (map (stmt_tree V.contents) body.now)))) }
    ensures marks { IfOk result (λ made. marks_in made.1 ≡ block_marks V.functions span
        (spanned.stmts_of (stmt_nodes V.contents body.now))) }
    ensures as_many { IfOk result (λ made. length (marks_in made.1) ≡ length made.0.items) }
{
    let mut code = Emitter::new(alloc);
    code.on_line(span);
    code.make_room(room_for(body, span))?;
    let mut enclosing = EnclosingLoop::outside(alloc);
    statements(&mut code, &mut enclosing, body)?;
    Ok(code.into_parts())
}
