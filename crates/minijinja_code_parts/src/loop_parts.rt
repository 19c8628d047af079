//! The instructions before and after the bodies of loops, and those of `break` and `continue`.
ghost use Rattle.std.specs.Prelude.{◌≡◌, IsTrue, OnOk, IfOk};
ghost use Rattle.minijinja_tree.specs.Erasure.{expr_tree, optional_of};
ghost use Rattle.minijinja_tree.specs.Tree as tree;
ghost use Rattle.minijinja_tree.specs.WellFormed.{IsTarget, IsWhole, IsWholeIfAny};
ghost use Rattle.minijinja_semantics.specs.Code.{DupTop};
ghost use Rattle.minijinja_tree.specs.SpannedErasure as node;
ghost use Rattle.minijinja_tree.specs.SpannedTrees as spanned;
ghost use Rattle.minijinja_semantics.specs.Layout as layout;
ghost use Rattle.minijinja_semantics.specs.Marks as marks;
ghost use Rattle.minijinja_semantics.specs.Marks.{◌⟫◌};
ghost use Rattle.minijinja_code_parts.specs.private.LoopMarks.{begun, items_marks};
ghost use Rattle.minijinja_semantics.specs.Meaning.{loop_flags};
ghost use Rattle.minijinja_semantics.specs.Pieces.{one, ◌▸◌, leaving};
ghost use Rattle.minijinja_code_parts.specs.internal.AtEnclosingLoop.{around_of, opened_in};
ghost use Rattle.minijinja_code_parts.specs.internal.Loops.{Begins, BeginsOver, EndsBeforeElse, closed, leading_on, turned};
ghost use Rattle.minijinja_emitter.specs.internal.AtEmitter.{made_of, margin_of};
ghost use Rattle.minijinja_emitter.specs.internal.Making.{Adds};
ghost use Rattle.minijinja_code_parts.specs.internal.EnclosingLoops.{Follows};

use crate::enclosing_loop::{EnclosingLoop, Open};
use crate::targets::assign;
use minijinja_code_expr::expr::expression;
use minijinja_emitter::emit::Emitter;
use minijinja_emitter::memory::OutOfMemory;
use minijinja_instructions::instructions::{
    Instruction, LOOP_FLAG_RECURSIVE, LOOP_FLAG_WITH_LOOP_VAR,
};
use minijinja_syntax::tokens::Span;
use minijinja_tree::ast::{Expr, ForLoop};
use minijinja_value::value::TemplateValue;

/// Adds the items of a loop, begins the loop over them, and assigns an item to its target. Returns
/// the loop, for its body; `data_bytes` bytes of data nodes came before it.
pub fn begin<'s, V: TemplateValue>(
    code: &mut Emitter<'s, V>,
    each: &ForLoop<'s, V>,
    data_bytes: usize,
) -> Result<EnclosingLoop, OutOfMemory>
    requires target { IsTarget (expr_tree V.contents each.now.target) }
    requires items { IsWhole (expr_tree V.contents each.now.iter) }
    requires only { IsWholeIfAny (optional_of V.contents each.now.filter_expr) }
    ensures begun { IfOk result (λ enclosing. BeginsOver V.functions
        (expr_tree V.contents each.now.target) (expr_tree V.contents each.now.iter)
        (optional_of V.contents each.now.filter_expr) each.now.recursive data_bytes
        (made_of V.contents code.old) (made_of V.contents code.new) (around_of enclosing)) }
    ensures marked { OnOk result (margin_of code.new ≡ marks.target V.functions
        (node.expr_node V.contents each.now.target) (marks.looped_over V.functions
        (node.expr_node V.contents each.now.target) (node.expr_node V.contents each.now.iter)
        (node.optional_of V.contents each.now.filter_expr) (margin_of code.old))) }
{
    let outer = items(code, &each.target, &each.iter, &each.filter_expr)?;
    begin_turns(code, each.recursive, &each.target, data_bytes, outer)
}

/// Adds the items of a loop. If they have to pass a test, a loop of its own collects those that do,
/// and counts them. The span of the items stays open, for what begins the loop, unless there is a
/// test; returns the span that was open before.
fn items<'s, V: TemplateValue>(
    code: &mut Emitter<'s, V>,
    target: &Expr<'s, V>,
    iterable: &Expr<'s, V>,
    test: &Option<Expr<'s, V>>,
) -> Result<Span, OutOfMemory>
    requires target { IsTarget (expr_tree V.contents target.now) }
    requires iterable { IsWhole (expr_tree V.contents iterable.now) }
    requires test { IsWholeIfAny (optional_of V.contents test.now) }
    ensures outer { IfOk result (λ outer. outer ≡ (margin_of code.old).span) }
    ensures added { OnOk result (Adds (made_of V.contents code.old) (made_of V.contents code.new)
        (layout.passing V.functions (expr_tree V.contents target.now)
        (optional_of V.contents test.now)
        (layout.expr V.functions (expr_tree V.contents iterable.now)))) }
    ensures marked { OnOk result (margin_of code.new ≡ items_marks V.functions
        (node.expr_node V.contents target.now) (node.expr_node V.contents iterable.now)
        (node.optional_of V.contents test.now) (margin_of code.old)) }
{
    let outer = code.span();
    match test {
        Some(test) => passing_items(code, target, iterable, test)?,
        None => {
            code.enter(iterable.span());
            expression(code, iterable)?;
        }
    }
    Ok(outer)
}

/// Adds the items of a loop that pass a test: a loop of its own collects and counts them.
fn passing_items<'s, V: TemplateValue>(
    code: &mut Emitter<'s, V>,
    target: &Expr<'s, V>,
    iterable: &Expr<'s, V>,
    test: &Expr<'s, V>,
) -> Result<(), OutOfMemory>
    requires target { IsTarget (expr_tree V.contents target.now) }
    requires iterable { IsWhole (expr_tree V.contents iterable.now) }
    requires test { IsWhole (expr_tree V.contents test.now) }
    ensures added { OnOk result (Adds (made_of V.contents code.old) (made_of V.contents code.new)
        (layout.passing V.functions (expr_tree V.contents target.now)
        (tree.present (expr_tree V.contents test.now))
        (layout.expr V.functions (expr_tree V.contents iterable.now)))) }
    ensures marked { OnOk result (margin_of code.new ≡ items_marks V.functions
        (node.expr_node V.contents target.now) (node.expr_node V.contents iterable.now)
        (spanned.present (node.expr_node V.contents test.now)) (margin_of code.old)) }
{
    code.add(Instruction::LoadConst(V::of_u64(0)))?;
    let outer = code.open(iterable.span());
    expression(code, iterable)?;
    code.enter(test.span());
    code.add(Instruction::PushLoop(0))?;
    let iterate = code.reserve()?;
    keep_if(code, target, test)?;
    code.close(outer);
    turn_back(code, iterate, &[])?;
    code.add(Instruction::PopLoopFrame)?;
    code.add(Instruction::BuildList(None))
}

/// Keeps an item below the count and adds one to the count, if the test is true of the item;
/// otherwise drops the item.
fn keep_if<'s, V: TemplateValue>(
    code: &mut Emitter<'s, V>,
    target: &Expr<'s, V>,
    test: &Expr<'s, V>,
) -> Result<(), OutOfMemory>
    requires target { IsTarget (expr_tree V.contents target.now) }
    requires test { IsWhole (expr_tree V.contents test.now) }
    ensures added { OnOk result (Adds (made_of V.contents code.old) (made_of V.contents code.new)
        (one DupTop ▸ layout.target V.functions (expr_tree V.contents target.now)
        ▸ layout.expr V.functions (expr_tree V.contents test.now)
        ▸ layout.counting V.functions)) }
    ensures marked { OnOk result (margin_of code.new ≡ marks.here 6 (marks.expr V.functions
        (node.expr_node V.contents test.now) (marks.target V.functions
        (node.expr_node V.contents target.now) (marks.here 1 (margin_of code.old))))) }
{
    code.add(Instruction::DupTop)?;
    assign(code, target)?;
    expression(code, test)?;
    count_item(code)
}

/// Counts the item or drops it, as the value on top says.
fn count_item<V: TemplateValue>(code: &mut Emitter<'_, V>) -> Result<(), OutOfMemory>
    ensures added { OnOk result (Adds (made_of V.contents code.old) (made_of V.contents code.new)
        (layout.counting V.functions)) }
    ensures marked { OnOk result (margin_of code.new ≡ marks.here 6 (margin_of code.old)) }
{
    let test = code.reserve()?;
    code.add(Instruction::Swap)?;
    code.add(Instruction::LoadConst(V::of_u64(1)))?;
    code.add(Instruction::Add)?;
    let end = code.reserve()?;
    code.fill(test, Instruction::JumpIfFalse(code.here()));
    code.add(Instruction::DiscardTop)?;
    code.fill(end, Instruction::Jump(code.here()));
    Ok(())
}

/// Begins a loop over the items of the value on top, and assigns an item to its target. Returns the
/// loop, for its body; `data_bytes` bytes of data nodes came before it, and `outer` is the span
/// that was open before the items.
fn begin_turns<'s, V: TemplateValue>(
    code: &mut Emitter<'s, V>,
    recursive: bool,
    target: &Expr<'s, V>,
    data_bytes: usize,
    outer: Span,
) -> Result<EnclosingLoop, OutOfMemory>
    requires { IsTarget (expr_tree V.contents target.now) }
    ensures marked { OnOk result (margin_of code.new ≡ begun V.functions
        (node.expr_node V.contents target.now) outer (margin_of code.old)) }
    ensures begun { IfOk result (λ enclosing. Begins V.functions (expr_tree V.contents target.now)
        recursive
        data_bytes (made_of V.contents code.old) (made_of V.contents code.new) (around_of
        enclosing)) }
{
    code.add(Instruction::PushLoop(flags(recursive)))?;
    let iterate = code.reserve()?;
    code.close(outer);
    assign(code, target)?;
    Ok(EnclosingLoop::of_loop(code.alloc(), iterate, data_bytes))
}

/// The flags of a loop, which has a variable of its own.
fn flags(recursive: bool) -> u8
    ensures { result ≡ loop_flags recursive }
{
    if recursive {
        LOOP_FLAG_WITH_LOOP_VAR | LOOP_FLAG_RECURSIVE
    } else {
        LOOP_FLAG_WITH_LOOP_VAR
    }
}

/// Ends the body of a loop: it jumps back to where the loop asks for its next item. Where there is
/// none, and at each `break`, the loop goes on after that jump.
pub fn turn_back<V: TemplateValue>(
    code: &mut Emitter<'_, V>,
    iterate: usize,
    breaks: &[usize],
) -> Result<(), OutOfMemory>
    ensures turned { OnOk result (made_of V.contents code.new
        ≡ turned iterate breaks.now (made_of V.contents code.old)) }
    ensures marked { OnOk result (margin_of code.new ≡ marks.here 1 (margin_of code.old)) }
{
    code.jump_to(iterate)?;
    lead_on(code, breaks);
    code.fill(iterate, Instruction::Iterate(code.here()));
    Ok(())
}

/// Puts a jump to the end of the instructions at each of these places.
fn lead_on<V: TemplateValue>(code: &mut Emitter<'_, V>, places: &[usize])
    ensures led { made_of V.contents code.new ≡ leading_on places.now (made_of V.contents code.old) }
    ensures marked { margin_of code.new ≡ margin_of code.old }
{
    let end = code.here();
    for place in places {
        code.fill(*place, Instruction::Jump(end));
    }
}

/// Ends a loop before its else body, and reserves the place of the jump past that body, which is
/// returned.
pub fn end_before_else<V: TemplateValue>(code: &mut Emitter<'_, V>) -> Result<usize, OutOfMemory>
    ensures ended { IfOk result (λ place. EndsBeforeElse place (made_of V.contents code.old)
        (made_of V.contents code.new)) }
    ensures marked { OnOk result (margin_of code.new ≡ marks.here 3 (margin_of code.old)) }
{
    code.add(Instruction::PushDidNotIterate)?;
    code.add(Instruction::PopLoopFrame)?;
    code.reserve()
}

/// Leaves the loop: closes what is open in it, and reserves the place of the jump to its end.
pub fn break_loop<V: TemplateValue>(
    code: &mut Emitter<'_, V>,
    enclosing: &mut EnclosingLoop,
) -> Result<(), OutOfMemory>
    requires { IsTrue (around_of enclosing.old).in_loop }
    ensures added { OnOk result (Follows
        (around_of enclosing.old) (made_of V.contents code.old)
        (around_of enclosing.new) (made_of V.contents code.new)
        0 (leaving (λ x. x.break_to) (around_of enclosing.old).opened)) }
    ensures marked { OnOk result (margin_of code.new ≡ marks.here 1 (marks.here
        (marks.closing_count (around_of enclosing.old).opened) (margin_of code.old))) }
{
    close(code, enclosing.opened())?;
    let place = code.reserve()?;
    enclosing.break_at(place)
}

/// Goes on with the loop's next item, after closing what is open in the loop.
pub fn continue_loop<V: TemplateValue>(
    code: &mut Emitter<'_, V>,
    enclosing: &mut EnclosingLoop,
) -> Result<(), OutOfMemory>
    ensures added { OnOk result (Follows
        (around_of enclosing.old) (made_of V.contents code.old)
        (around_of enclosing.new) (made_of V.contents code.new)
        0 (leaving (λ x. x.continue_to) (around_of enclosing.old).opened)) }
    ensures marked { OnOk result (margin_of code.new ≡ marks.here 1 (marks.here
        (marks.closing_count (around_of enclosing.old).opened) (margin_of code.old))) }
{
    close(code, enclosing.opened())?;
    code.jump_to(enclosing.iterate())
}

/// Closes what is open, the last one first.
fn close<V: TemplateValue>(code: &mut Emitter<'_, V>, entered: &[Open]) -> Result<(), OutOfMemory>
    ensures added { OnOk result (Adds (made_of V.contents code.old) (made_of V.contents code.new)
        (closed (opened_in entered.now))) }
    ensures marked { OnOk result (margin_of code.new ≡ marks.here
        (marks.closing_count (opened_in entered.now)) (margin_of code.old)) }
{
    for opened in entered.iter().rev() {
        match *opened {
            Open::Scope => code.add(Instruction::PopFrame)?,
            Open::AutoEscape => code.add(Instruction::PopAutoEscape)?,
            Open::Capture => {
                code.add(Instruction::EndCapture)?;
                code.add(Instruction::DiscardTop)?;
            }
        }
    }
    Ok(())
}
