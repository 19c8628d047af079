//! Tests that no two blocks of a tree have the same name.
ghost use Rattle.std.specs.Prelude.{◌≡◌, ◌<◌, bytes_eq, count_by, map, min};
ghost use Rattle.minijinja_tree.specs.Erasure.{stmt_tree};
ghost use Rattle.minijinja_tree.specs.Tree.{all_block_names, block_names, stmts_of};
ghost use Rattle.minijinja_well_formed.specs.private.BlockNames as names;
ghost use Rattle.minijinja_well_formed.specs.private.Sizes.{body_size, stmt_size};
ghost use Rattle.minijinja_well_formed.specs.private.StatementTests as tests;

use minijinja_tree::ast::Stmt;
use minijinja_value::value::TemplateValue;

/// Whether no two blocks have the same name. It allocates nothing: it counts each name in the whole
/// tree.
pub(crate) fn has_distinct_blocks<V: TemplateValue>(root: &Stmt<'_, V>) -> bool
    ensures { result ≡ tests.are_distinct (block_names (stmt_tree V.contents root.now)) }
{
    is_named_once(root, root)
}

/// Whether the name of each block within a statement occurs once in the root.
#[cycle(named)]
fn is_named_once<'s, V: TemplateValue>(stmt: &Stmt<'s, V>, root: &Stmt<'s, V>) -> bool
    ensures { result ≡ tests.are_single (block_names (stmt_tree V.contents stmt.now))
        (block_names (stmt_tree V.contents root.now)) }
{
    is_single(stmt, root)
        && are_named_once(first_body(stmt), root)
        && are_named_once(second_body(stmt), root)
}

#[cycle(named)]
fn are_named_once<'s, V: TemplateValue>(stmts: &[Stmt<'s, V>], root: &Stmt<'s, V>) -> bool
    ensures { result ≡ tests.are_single
        (all_block_names (stmts_of (map (stmt_tree V.contents) stmts.now)))
        (block_names (stmt_tree V.contents root.now)) }
{
    for stmt in stmts {
        if !is_named_once(stmt, root) {
            return false;
        }
    }
    true
}

/// Whether the statement's own name, if it is a block, occurs once in the root.
fn is_single<'s, V: TemplateValue>(stmt: &Stmt<'s, V>, root: &Stmt<'s, V>) -> bool
    ensures { result ≡ tests.are_single (names.own (stmt_tree V.contents stmt.now))
        (block_names (stmt_tree V.contents root.now)) }
{
    match stmt {
        Stmt::Block(block) => times(root, block.node().name) == 1,
        _ => true,
    }
}

/// The number of blocks of a name, at most `usize::MAX`.
#[cycle(counted)]
fn times<V: TemplateValue>(stmt: &Stmt<'_, V>, name: &str) -> usize
    ensures { result ≡ min (count_by (bytes_eq name.now)
        (block_names (stmt_tree V.contents stmt.now))) usize.MAX }
{
    own_times(stmt, name)
        .saturating_add(all_times(first_body(stmt), name))
        .saturating_add(all_times(second_body(stmt), name))
}

#[cycle(counted)]
fn all_times<V: TemplateValue>(stmts: &[Stmt<'_, V>], name: &str) -> usize
    ensures { result ≡ min (count_by (bytes_eq name.now)
        (all_block_names (stmts_of (map (stmt_tree V.contents) stmts.now)))) usize.MAX }
{
    let mut count: usize = 0;
    for stmt in stmts {
        count = count.saturating_add(times(stmt, name));
    }
    count
}

/// One if the statement is a block of that name, and otherwise zero.
fn own_times<V: TemplateValue>(stmt: &Stmt<'_, V>, name: &str) -> usize
    ensures { result ≡ count_by (bytes_eq name.now) (names.own (stmt_tree V.contents stmt.now)) }
{
    match stmt {
        Stmt::Block(block) if block.node().name == name => 1,
        _ => 0,
    }
}

/// The body of a statement, or the first one of two.
fn first_body<'a, 's, V: TemplateValue>(stmt: &'a Stmt<'s, V>) -> &'a [Stmt<'s, V>]
    ensures body { stmts_of (map (stmt_tree V.contents) result.now) ≡ names.first_body
        (stmt_tree V.contents stmt.now) }
    ensures smaller { body_size result.now < stmt_size stmt.now }
{
    match stmt {
        Stmt::Template(template) => template.node().children.as_slice(),
        Stmt::ForLoop(repeated) => repeated.node().body.as_slice(),
        Stmt::IfCond(condition) => condition.node().true_body.as_slice(),
        Stmt::WithBlock(block) => block.node().body.as_slice(),
        Stmt::SetBlock(block) => block.node().body.as_slice(),
        Stmt::AutoEscape(block) => block.node().body.as_slice(),
        Stmt::FilterBlock(block) => block.node().body.as_slice(),
        Stmt::Block(block) => block.node().body.as_slice(),
        Stmt::Macro(declared) => declared.node().body.as_slice(),
        Stmt::CallBlock(block) => block.node().macro_decl.node().body.as_slice(),
        Stmt::EmitExpr(_) => &[],
        Stmt::EmitRaw(_) => &[],
        Stmt::Set(_) => &[],
        Stmt::Import(_) => &[],
        Stmt::FromImport(_) => &[],
        Stmt::Extends(_) => &[],
        Stmt::Include(_) => &[],
        Stmt::Continue(_) => &[],
        Stmt::Break(_) => &[],
        Stmt::Do(_) => &[],
    }
}

/// The second body of a statement, if it has two.
fn second_body<'a, 's, V: TemplateValue>(stmt: &'a Stmt<'s, V>) -> &'a [Stmt<'s, V>]
    ensures body { stmts_of (map (stmt_tree V.contents) result.now) ≡ names.second_body
        (stmt_tree V.contents stmt.now) }
    ensures smaller { body_size result.now < stmt_size stmt.now }
{
    match stmt {
        Stmt::ForLoop(repeated) => repeated.node().else_body.as_slice(),
        Stmt::IfCond(condition) => condition.node().false_body.as_slice(),
        _ => &[],
    }
}
