//! Instructions of operators; an operator on constants folds.
ghost use Rattle.std.specs.Prelude.{◌≡◌, ◌≤◌, None, Some, length, true, false, if◌then◌else◌, IfOk, OnOk};
ghost use Rattle.std.specs.Option.{option_map};
ghost use Rattle.minijinja_tree.specs.BinOps.{concat};
ghost use Rattle.minijinja_tree.specs.Erasure.{expr_tree, unary_op, bin_op};
ghost use Rattle.minijinja_tree.specs.Folding.{fold_binary};
ghost use Rattle.minijinja_tree.specs.Operators.{working};
ghost use Rattle.minijinja_tree.specs.Tree as tree;
ghost use Rattle.minijinja_tree.specs.WellFormed.{IsWhole};
ghost use Rattle.minijinja_semantics.specs.Jumps as Jumps;
ghost use Rattle.minijinja_semantics.specs.Layout.{unary_instr};
ghost use Rattle.minijinja_instructions.specs.Instructions.{instr_of};
ghost use Rattle.minijinja_code_expr.specs.internal.Leading.{Finishes, FinishesIf, before_right};
ghost use Rattle.minijinja_code_expr.specs.internal.Parts as spec;
ghost use Rattle.minijinja_emitter.specs.internal.AtEmitter.{made_of, margin_of};
ghost use Rattle.minijinja_emitter.specs.internal.Making.{Adds};
ghost use Rattle.minijinja_code_expr.specs.internal.Parts.{jump_of, operator_of};
ghost use Rattle.minijinja_code_expr.specs.private.Operating.{EndsBinary, known_between};
ghost use Rattle.minijinja_code_expr.specs.private.OperatorMarks.{EndsBinaryMarks, EndsUnaryMarks, Folds, before_right_marks};
ghost use Rattle.minijinja_emitter.specs.internal.Margins.{replaced_if};

use minijinja_emitter::emit::{Emitter, Site};
use minijinja_emitter::memory::OutOfMemory;
use minijinja_instructions::instructions::Instruction;
use minijinja_tree::ast::{BinOp, BinOpKind, Expr, UnaryOpKind};
use minijinja_tree::fold::without_fault;
use minijinja_value::value::TemplateValue;

/// Adds a unary operator after its operand, whose code is at `place`. With a constant operand it
/// folds: the result is loaded instead.
pub(crate) fn end_unary<V: TemplateValue>(
    code: &mut Emitter<'_, V>,
    op: UnaryOpKind,
    place: usize,
    site: Site,
) -> Result<(), OutOfMemory>
    ensures added { OnOk result ((e : tree.Expr V.Contents) → IsWhole e → Finishes V.functions
        (tree.unary (unary_op op) e) place (made_of V.contents code.old)
        (made_of V.contents code.new)) }
    ensures marked { OnOk result (EndsUnaryMarks V.functions (unary_op op) place site
        (made_of V.contents code.old) (margin_of code.old) (margin_of code.new)) }
{
    if let Some(operand) = code.constant(place, code.place()) {
        if let Some(value) = without_fault(op.fold(code.alloc(), operand))? {
            return code.replace(place, value, site);
        }
    }
    match op {
        UnaryOpKind::Not => code.add(Instruction::Not),
        // Of a chain of signs, each stands for itself.
        UnaryOpKind::Neg => code.add_at(Instruction::Neg, site.node),
    }
}

/// Joins the left side of a `~`, whose code is at `place`, with the right side, if both are
/// constants, without a copy of the right one. Returns whether it did; if not, nothing is added.
pub(crate) fn join_constant<'s, V: TemplateValue>(
    code: &mut Emitter<'s, V>,
    operation: &BinOp<'s, V>,
    place: usize,
    site: Site,
) -> Result<bool, OutOfMemory>
    ensures added { IfOk result (λ joined. IsWhole (expr_tree V.contents operation.now.left) →
        FinishesIf V.functions joined (tree.binary (bin_op operation.now.op)
        (expr_tree V.contents operation.now.left) (expr_tree V.contents operation.now.right)) place
        (made_of V.contents code.old) (made_of V.contents code.new)) }
    ensures marked { IfOk result (λ joined. margin_of code.new ≡ replaced_if joined place site
        (margin_of code.old)) }
    ensures folds { IfOk result (λ joined. joined ≡ true → IsWhole
        (expr_tree V.contents operation.now.left) → Folds V.functions
        (tree.binary (bin_op operation.now.op) (expr_tree V.contents operation.now.left)
        (expr_tree V.contents operation.now.right)) place (made_of V.contents code.old)) }
{
    match operation.op {
        BinOpKind::Concat => match &operation.right {
            Expr::Const(right) => code.join(place, &right.node().value, site),
            _ => Ok(false),
        },
        _ => Ok(false),
    }
}

/// Returns where the left side of an operator ends. For `and` and `or` the place of a jump is
/// reserved there.
pub(crate) fn begin_right<V: TemplateValue>(
    code: &mut Emitter<'_, V>,
    op: BinOpKind,
) -> Result<usize, OutOfMemory>
    ensures middle { IfOk result (λ middle. middle ≡ length (made_of V.contents code.old).code) }
    ensures added { OnOk result (Adds (made_of V.contents code.old) (made_of V.contents code.new)
        (before_right (working (bin_op op)))) }
    ensures marked { OnOk result (margin_of code.new ≡ before_right_marks (working (bin_op op))
        (margin_of code.old)) }
{
    if is_lazy(op) {
        code.reserve_again()
    } else {
        Ok(code.place())
    }
}

/// Adds what comes after the right side of an operator, whose left side is at `start` and whose
/// right side follows `middle`. With two constants it folds: the result is loaded instead.
pub(crate) fn end_binary<V: TemplateValue>(
    code: &mut Emitter<'_, V>,
    op: BinOpKind,
    start: usize,
    middle: usize,
    site: Site,
) -> Result<(), OutOfMemory>
    ensures added { OnOk result (EndsBinary V.functions (bin_op op) start middle
        (made_of V.contents code.old) (made_of V.contents code.new)) }
    ensures marked { OnOk result (EndsBinaryMarks V.functions (bin_op op) start middle site
        (made_of V.contents code.old) (margin_of code.old) (margin_of code.new)) }
{
    if is_lazy(op) {
        return end_lazy(code, op, start, middle, site);
    }
    if let BinOpKind::Concat = op {
        return end_concat(code, start, middle, site);
    }
    match fold_between(code, op, start, middle)? {
        Some(value) => code.replace(start, value, site),
        None => code.add(operator(op)),
    }
}

/// Adds what comes after the right side of a `~`. Two constants are joined in the memory of the
/// left one, so that a row of them takes linear time.
fn end_concat<V: TemplateValue>(
    code: &mut Emitter<'_, V>,
    start: usize,
    middle: usize,
    site: Site,
) -> Result<(), OutOfMemory>
    ensures added { OnOk result (EndsBinary V.functions concat start middle
        (made_of V.contents code.old) (made_of V.contents code.new)) }
    ensures marked { OnOk result (EndsBinaryMarks V.functions concat start middle site
        (made_of V.contents code.old) (margin_of code.old) (margin_of code.new)) }
{
    match code.take_constants(start, middle) {
        Some((left, right)) => {
            let joined = left.concat(code.alloc(), &right)?;
            code.replace(start, joined, site)
        }
        None => code.add(Instruction::StringConcat),
    }
}

/// Adds what comes after the right side of an `and` or `or`. Of two constants only the one that the
/// operator gives stays.
fn end_lazy<V: TemplateValue>(
    code: &mut Emitter<'_, V>,
    op: BinOpKind,
    start: usize,
    middle: usize,
    site: Site,
) -> Result<(), OutOfMemory>
    requires { spec.is_lazy (working (bin_op op)) ≡ true }
    ensures added { OnOk result (EndsBinary V.functions (bin_op op) start middle
        (made_of V.contents code.old) (made_of V.contents code.new)) }
    ensures marked { OnOk result (EndsBinaryMarks V.functions (bin_op op) start middle site
        (made_of V.contents code.old) (margin_of code.old) (margin_of code.new)) }
{
    let end = code.place();
    if let Some(left) = code.constant(start, middle) {
        if code.constant(middle.saturating_add(1), end).is_some() {
            if gives_right(op, left) {
                return code.keep_last(start, site);
            }
            code.cut(middle);
            return code.keep_last(start, site);
        }
    }
    code.fill(middle, lazy_jump(op, code.here()));
    Ok(())
}

/// The result of an operator on the constants at `start` and at `middle`, if both are constants and
/// it does not fault.
fn fold_between<V: TemplateValue>(
    code: &Emitter<'_, V>,
    op: BinOpKind,
    start: usize,
    middle: usize,
) -> Result<Option<V>, OutOfMemory>
    ensures { IfOk result (λ r. middle ≤ length (made_of V.contents code.now).code →
        option_map V.contents r ≡ known_between V.functions (working (bin_op op)) start middle
        (made_of V.contents code.now).code) }
{
    if let Some(left) = code.constant(start, middle) {
        if let Some(right) = code.constant(middle, code.place()) {
            return Ok(without_fault(op.fold_of(code.alloc(), left, right))?.flatten());
        }
    }
    Ok(None)
}

/// Whether an `and` or `or` gives its right side, after this left one.
fn gives_right<V: TemplateValue>(op: BinOpKind, left: &V) -> bool
    requires { spec.is_lazy (working (bin_op op)) ≡ true }
    ensures { (right : V.Contents) → fold_binary V.functions (working (bin_op op))
        (V.contents left.now) right
        ≡ Some (if result then right else V.contents left.now) }
{
    left.is_true() == matches!(op, BinOpKind::ScAnd)
}

/// Whether an operator is `and` or `or`, which take their right side only where the left one does
/// not decide.
fn is_lazy(op: BinOpKind) -> bool
    ensures { result ≡ spec.is_lazy (working (bin_op op)) }
{
    matches!(op, BinOpKind::ScAnd | BinOpKind::ScOr)
}

/// The jump of an `and` or `or` past its right side.
fn lazy_jump<'s, V: TemplateValue>(op: BinOpKind, target: u32) -> Instruction<'s, V>
    requires { spec.is_lazy (working (bin_op op)) ≡ true }
    ensures { instr_of V.contents result ≡ jump_of (working (bin_op op)) target }
{
    match op {
        BinOpKind::ScAnd => Instruction::JumpIfFalseOrPop(target),
        BinOpKind::ScOr => Instruction::JumpIfTrueOrPop(target),
        _ => unreachable!(),
    }
}

/// The instruction of an operator that is neither `and` nor `or`.
fn operator<'s, V: TemplateValue>(op: BinOpKind) -> Instruction<'s, V>
    requires { spec.is_lazy (working (bin_op op)) ≡ false }
    ensures is { instr_of V.contents result ≡ operator_of (working (bin_op op)) }
    ensures plain { Jumps.jump_target (instr_of V.contents result) ≡ None }
{
    match op {
        BinOpKind::Eq => Instruction::Eq,
        BinOpKind::Ne => Instruction::Ne,
        BinOpKind::Lt => Instruction::Lt,
        BinOpKind::Lte => Instruction::Lte,
        BinOpKind::Gt => Instruction::Gt,
        BinOpKind::Gte => Instruction::Gte,
        BinOpKind::Add => Instruction::Add,
        BinOpKind::Sub => Instruction::Sub,
        BinOpKind::Mul => Instruction::Mul,
        BinOpKind::Div => Instruction::Div,
        BinOpKind::FloorDiv => Instruction::IntDiv,
        BinOpKind::Rem => Instruction::Rem,
        BinOpKind::Pow => Instruction::Pow,
        BinOpKind::Concat => Instruction::StringConcat,
        BinOpKind::In => Instruction::In,
        BinOpKind::ScAnd | BinOpKind::ScOr => unreachable!(),
    }
}
