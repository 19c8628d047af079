//! Instructions of expressions.
ghost use Rattle.std.specs.Prelude.{◌≡◌, ◌≤◌, ℕ, OnOk, false, is_some};
ghost use Rattle.minijinja_tree.specs.Callees.{callee};
ghost use Rattle.minijinja_tree.specs.Erasure.{expr_tree, optional_of, args_of, bin_op};
ghost use Rattle.minijinja_tree.specs.WellFormed.{IsWhole, IsWholeIfAny, AreArguments, arg_count, most_arguments};
ghost use Rattle.minijinja_tree.specs.SpannedErasure.{expr_node};
ghost use Rattle.minijinja_tree.specs.SpannedErasure as node;
ghost use Rattle.minijinja_tree.specs.SpannedTrees as spanned;
ghost use Rattle.minijinja_tree.specs.Tree as tree;
ghost use Rattle.minijinja_semantics.specs.Layout as layout;
ghost use Rattle.minijinja_semantics.specs.Marks as marks;
ghost use Rattle.minijinja_code_expr.specs.internal.Calling.{captured};
ghost use Rattle.minijinja_code_expr.specs.private.AbsentParts.{value_of};
ghost use Rattle.minijinja_code_expr.specs.internal.Leading.{Finishes, IsLiteral, IsOperation, leading};
ghost use Rattle.minijinja_code_expr.specs.internal.NodeMarks.{FinishesMarks, begun, call_ending, ending, given_marks};
ghost use Rattle.minijinja_emitter.specs.internal.AtEmitter.{made_of, margin_of};
ghost use Rattle.minijinja_emitter.specs.internal.Making.{Adds};

use crate::absent::{Absent, load_absent};
use crate::arguments::arguments;
use crate::branches::{begin_else, end_else};
use crate::chain::compare;
use crate::leading::{
    begin, called_operand, has_leading_operand, is_called_on, leading_operand, test_of,
};
use crate::literals::{load_constant, load_list, load_map, load_tuple};
use crate::operators::{begin_right, end_binary, end_unary, join_constant};
use crate::pending::{PendingNode, PendingNodes};
use minijinja_emitter::emit::{Emitter, Site};
use minijinja_emitter::memory::OutOfMemory;
use minijinja_instructions::instructions::{CaptureMode, Instruction};
use minijinja_syntax::tokens::Span;
use minijinja_tree::ast::{BinOp, Call, CallType, Expr};
use minijinja_value::value::TemplateValue;

/// Adds the code of an expression. Before the leading operand of an if expression stand its test
/// and the reserved place of the test's jump. Most leading operands begin with no operand
/// themselves, so for one of them nothing is kept in a list.
#[cycle(expr)]
pub fn expression<'s, V: TemplateValue>(
    code: &mut Emitter<'s, V>,
    expr: &Expr<'s, V>,
) -> Result<(), OutOfMemory>
    requires { IsWhole (expr_tree V.contents expr.now) }
    ensures added { OnOk result (Adds (made_of V.contents code.old) (made_of V.contents code.new)
        (layout.expr V.functions (expr_tree V.contents expr.now))) }
    ensures marked { OnOk result (margin_of code.new ≡ marks.expr V.functions
        (expr_node V.contents expr.now) (margin_of code.old)) }
{
    if !has_leading_operand(expr) {
        return leaf(code, expr);
    }
    let outer = begin(code, expr);
    let place = match test_of(expr) {
        Some(test) => {
            expression(code, test)?;
            code.reserve()?
        }
        None => code.place(),
    };
    let operand = leading_operand(expr);
    if has_leading_operand(operand) {
        nested(code, operand)?;
    } else {
        leaf(code, operand)?;
    }
    finish(code, expr, place, outer)?;
    code.close(outer);
    Ok(())
}

/// Adds the code of an expression. A loop goes down the operands that nodes begin with, so that a
/// row of operators, attributes, filters or calls takes no more stack than one of them.
#[cycle(expr)]
#[inline(never)]
fn nested<'s, V: TemplateValue>(
    code: &mut Emitter<'s, V>,
    expr: &Expr<'s, V>,
) -> Result<(), OutOfMemory>
    requires { IsWhole (expr_tree V.contents expr.now) }
    ensures added { OnOk result (Adds (made_of V.contents code.old) (made_of V.contents code.new)
        (layout.expr V.functions (expr_tree V.contents expr.now))) }
    ensures marked { OnOk result (margin_of code.new ≡ marks.expr V.functions
        (expr_node V.contents expr.now) (margin_of code.old)) }
{
    let mut pending = PendingNodes::new(code.alloc());
    let mut part = expr;
    while has_leading_operand(part) {
        let outer = begin(code, part);
        let place = match test_of(part) {
            Some(test) => {
                expression(code, test)?;
                code.reserve()?
            }
            None => code.place(),
        };
        pending.push(PendingNode {
            node: part,
            place,
            outer,
        })?;
        part = leading_operand(part);
    }
    leaf(code, part)?;
    while let Some(last) = pending.pop() {
        finish(code, last.node, last.place, last.outer)?;
        code.close(last.outer);
    }
    Ok(())
}

/// Adds the code of an expression that does not begin with that of an operand. Most are variables
/// and constants, which open no span.
#[cycle(expr)]
#[inline(always)]
fn leaf<'s, V: TemplateValue>(
    code: &mut Emitter<'s, V>,
    expr: &Expr<'s, V>,
) -> Result<(), OutOfMemory>
    requires whole { IsWhole (expr_tree V.contents expr.now) }
    requires leads { is_some (leading (expr_tree V.contents expr.now)) ≡ false }
    ensures added { OnOk result (Adds (made_of V.contents code.old) (made_of V.contents code.new)
        (layout.expr V.functions (expr_tree V.contents expr.now))) }
    ensures marked { OnOk result (margin_of code.new ≡ marks.expr V.functions
        (expr_node V.contents expr.now) (margin_of code.old)) }
{
    match expr {
        Expr::Var(variable) => {
            code.on_line(variable.span());
            code.add(Instruction::Lookup(variable.node().id))
        }
        Expr::Const(constant) => {
            code.on_line(constant.span());
            load_constant(code, constant.node())
        }
        _ => {
            let outer = begin(code, expr);
            let place = code.place();
            finish(code, expr, place, outer)?;
            code.close(outer);
            Ok(())
        }
    }
}

/// Adds what comes after the leading operand of a node, or all of its code if it has none. `outer`
/// is the span that was open before the node.
#[cycle(expr)]
fn finish<'s, V: TemplateValue>(
    code: &mut Emitter<'s, V>,
    node: &Expr<'s, V>,
    place: usize,
    outer: Span,
) -> Result<(), OutOfMemory>
    requires { IsWhole (expr_tree V.contents node.now) }
    ensures added { OnOk result (Finishes V.functions (expr_tree V.contents node.now) place
        (made_of V.contents code.old) (made_of V.contents code.new)) }
    ensures marked { OnOk result (FinishesMarks V.functions (expr_tree V.contents node.now)
        (expr_node V.contents node.now) place outer (made_of V.contents code.old)
        (margin_of code.old) (margin_of code.new)) }
{
    match node {
        Expr::Var(variable) => code.add(Instruction::Lookup(variable.node().id)),
        Expr::Const(constant) => load_constant(code, constant.node()),
        Expr::List(_) => literal(code, node),
        Expr::Tuple(_) => literal(code, node),
        Expr::Map(_) => literal(code, node),
        Expr::Filter(filter) => {
            let filter = filter.node();
            let count = arguments(code, &filter.args, 1)?;
            apply_filter(code, filter.name, count)
        }
        Expr::Test(test) => {
            let test = test.node();
            let count = arguments(code, &test.args, 1)?;
            perform_test(code, test.name, count)
        }
        Expr::GetAttr(attribute) => code.add(Instruction::GetAttr(attribute.node().name)),
        Expr::GetItem(item) => {
            expression(code, &item.node().subscript_expr)?;
            code.add(Instruction::GetItem)
        }
        Expr::Call(call) => finish_call(code, call.node()),
        Expr::Slice(_) | Expr::UnaryOp(_) | Expr::BinOp(_) | Expr::Compare(_) | Expr::IfExpr(_) =>
            finish_operation(code, node, place, outer),
    }
}

/// Adds what comes after the leading operand of an operation: a slice, an operator, a chain of
/// comparisons or an if expression. `outer` is the span that was open before it.
#[cycle(expr)]
fn finish_operation<'s, V: TemplateValue>(
    code: &mut Emitter<'s, V>,
    node: &Expr<'s, V>,
    place: usize,
    outer: Span,
) -> Result<(), OutOfMemory>
    requires operation { IsOperation (expr_tree V.contents node.now) }
    requires whole { IsWhole (expr_tree V.contents node.now) }
    ensures added { OnOk result (Finishes V.functions (expr_tree V.contents node.now) place
        (made_of V.contents code.old) (made_of V.contents code.new)) }
    ensures marked { OnOk result (FinishesMarks V.functions (expr_tree V.contents node.now)
        (expr_node V.contents node.now) place outer (made_of V.contents code.old)
        (margin_of code.old) (margin_of code.new)) }
{
    match node {
        Expr::Slice(slice) => {
            let slice = slice.node();
            optional(code, &slice.start, Absent::None)?;
            optional(code, &slice.stop, Absent::None)?;
            optional(code, &slice.step, Absent::None)?;
            code.add(Instruction::Slice)
        }
        Expr::UnaryOp(operation) => {
            let node = operation.span();
            end_unary(code, operation.node().op, place, Site { node, outer })
        }
        Expr::BinOp(operation) => {
            let node = operation.span();
            finish_binary(code, operation.node(), place, Site { node, outer })
        }
        Expr::Compare(chain) => {
            let node = chain.span();
            compare(code, chain.node(), place, Site { node, outer })
        }
        Expr::IfExpr(choice) => {
            let end = begin_else(code, place)?;
            optional(code, &choice.node().false_expr, Absent::SilentUndefined)?;
            end_else(code, end);
            Ok(())
        }
        _ => unreachable!(),
    }
}

/// Adds the right side of an operator after its left side, whose code is at `place`, and the
/// operator. With two constants it folds.
#[cycle(expr)]
fn finish_binary<'s, V: TemplateValue>(
    code: &mut Emitter<'s, V>,
    operation: &BinOp<'s, V>,
    place: usize,
    site: Site,
) -> Result<(), OutOfMemory>
    requires left { IsWhole (expr_tree V.contents operation.now.left) }
    requires right { IsWhole (expr_tree V.contents operation.now.right) }
    ensures added { OnOk result (Finishes V.functions (tree.binary (bin_op operation.now.op)
        (expr_tree V.contents operation.now.left) (expr_tree V.contents operation.now.right)) place
        (made_of V.contents code.old) (made_of V.contents code.new)) }
    ensures marked { OnOk result (FinishesMarks V.functions (tree.binary (bin_op operation.now.op)
        (expr_tree V.contents operation.now.left) (expr_tree V.contents operation.now.right))
        (spanned.binary (bin_op operation.now.op) (expr_node V.contents operation.now.left)
        (expr_node V.contents operation.now.right) site.node) place site.outer
        (made_of V.contents code.old) (margin_of code.old) (margin_of code.new)) }
{
    let joined = join_constant(code, operation, place, site)?;
    if joined {
        return Ok(());
    }
    let middle = begin_right(code, operation.op)?;
    expression(code, &operation.right)?;
    end_binary(code, operation.op, place, middle, site)
}

/// Adds the arguments of a call after what it is made on, and the call.
#[cycle(expr)]
fn finish_call<'s, V: TemplateValue>(
    code: &mut Emitter<'s, V>,
    call: &Call<'s, V>,
) -> Result<(), OutOfMemory>
    requires whole { AreArguments (args_of V.contents call.now.args.items) }
    requires few { arg_count (args_of V.contents call.now.args.items) ≤ most_arguments }
    ensures added { OnOk result ((place : ℕ) → Finishes V.functions (tree.call
        (expr_tree V.contents call.now.expr) (args_of V.contents call.now.args.items)) place
        (made_of V.contents code.old) (made_of V.contents code.new)) }
    ensures marked { OnOk result (margin_of code.new ≡ call_ending
        (callee (expr_tree V.contents call.now.expr))
        (given_marks V.functions (node.args_of V.contents call.now.args.items))
        (margin_of code.old)) }
{
    match call.identify_call() {
        CallType::Function(name) => {
            let count = arguments(code, &call.args, 0)?;
            code.add(Instruction::CallFunction(name, count))
        }
        CallType::Method(_, name) => {
            let count = arguments(code, &call.args, 1)?;
            code.add(Instruction::CallMethod(name, count))
        }
        CallType::Block(name) => capture_block(code, name),
        CallType::Object(_) => {
            let count = arguments(code, &call.args, 1)?;
            code.add(Instruction::CallObject(count))
        }
    }
}

/// Adds a list, a tuple or a map: one constant where all its parts are constants, otherwise its
/// parts, of a map in pairs, and what puts them together.
#[cycle(expr)]
fn literal<'s, V: TemplateValue>(
    code: &mut Emitter<'s, V>,
    node: &Expr<'s, V>,
) -> Result<(), OutOfMemory>
    requires literal { IsLiteral (expr_tree V.contents node.now) }
    requires whole { IsWhole (expr_tree V.contents node.now) }
    ensures added { OnOk result ((place : ℕ) → Finishes V.functions (expr_tree V.contents node.now)
        place (made_of V.contents code.old) (made_of V.contents code.new)) }
    ensures marked { OnOk result (margin_of code.new ≡ ending V.functions
        (expr_node V.contents node.now) (margin_of code.old)) }
{
    match node {
        Expr::List(list) => {
            let list = list.node();
            if load_list(code, list)? {
                return Ok(());
            }
            for item in &list.items {
                expression(code, item)?;
            }
            code.add(Instruction::BuildList(Some(list.items.len())))
        }
        Expr::Tuple(tuple) => {
            let tuple = tuple.node();
            if load_tuple(code, tuple)? {
                return Ok(());
            }
            for item in &tuple.items {
                expression(code, item)?;
            }
            code.add(Instruction::BuildTuple(Some(tuple.items.len())))
        }
        Expr::Map(map) => {
            let map = map.node();
            if load_map(code, map)? {
                return Ok(());
            }
            for i in 0..map.keys.len() {
                expression(code, &map.keys[i])?;
                expression(code, &map.values[i])?;
            }
            code.add(Instruction::BuildMap(map.keys.len()))
        }
        _ => unreachable!(),
    }
}

/// Adds the code of an expression, or loads what stands for one that is absent.
#[cycle(expr)]
fn optional<'s, V: TemplateValue>(
    code: &mut Emitter<'s, V>,
    expr: &Option<Expr<'s, V>>,
    absent: Absent,
) -> Result<(), OutOfMemory>
    requires { IsWholeIfAny (optional_of V.contents expr.now) }
    ensures added { OnOk result (Adds (made_of V.contents code.old) (made_of V.contents code.new)
        (layout.optional V.functions (value_of V.functions absent) (optional_of V.contents
        expr.now))) }
    ensures marked { OnOk result (margin_of code.new ≡ marks.optional V.functions
        (node.optional_of V.contents expr.now) (margin_of code.old)) }
{
    match expr {
        Some(expr) => expression(code, expr),
        None => load_absent(code, absent),
    }
}

/// Adds the code of a call that stands by itself, with the call's span.
pub fn call<'s, V: TemplateValue>(
    code: &mut Emitter<'s, V>,
    call: &Call<'s, V>,
    span: Span,
) -> Result<(), OutOfMemory>
    requires { IsWhole (tree.call (expr_tree V.contents call.now.expr)
        (args_of V.contents call.now.args.items)) }
    ensures added { OnOk result (Adds (made_of V.contents code.old) (made_of V.contents code.new)
        (layout.expr V.functions (tree.call (expr_tree V.contents call.now.expr)
        (args_of V.contents call.now.args.items)))) }
    ensures marked { OnOk result (margin_of code.new ≡ marks.expr V.functions
        (spanned.call (expr_node V.contents call.now.expr)
        (node.args_of V.contents call.now.args.items) span) (margin_of code.old)) }
{
    let outer = code.open(span);
    parts_of_call(code, call)?;
    code.close(outer);
    Ok(())
}

/// Adds what a call is made on, its arguments, and the call.
fn parts_of_call<'s, V: TemplateValue>(
    code: &mut Emitter<'s, V>,
    call: &Call<'s, V>,
) -> Result<(), OutOfMemory>
    requires { IsWhole (tree.call (expr_tree V.contents call.now.expr)
        (args_of V.contents call.now.args.items)) }
    ensures added { OnOk result (Adds (made_of V.contents code.old) (made_of V.contents code.new)
        (layout.expr V.functions (tree.call (expr_tree V.contents call.now.expr)
        (args_of V.contents call.now.args.items)))) }
    ensures marked { OnOk result (margin_of code.new ≡ marks.call_of
        (callee (expr_tree V.contents call.now.expr))
        (marks.base V.functions (expr_node V.contents call.now.expr))
        (marks.expr V.functions (expr_node V.contents call.now.expr))
        (given_marks V.functions (node.args_of V.contents call.now.args.items))
        (margin_of code.old)) }
{
    if !is_called_on(call) {
        return finish_call(code, call);
    }
    expression(code, called_operand(call))?;
    finish_call(code, call)
}

/// Applies a filter, by its name, to its arguments; their number is `None` where it is on top of
/// them.
pub(crate) fn apply_filter<'s, V: TemplateValue>(
    code: &mut Emitter<'s, V>,
    name: &'s str,
    count: Option<u16>,
) -> Result<(), OutOfMemory>
    ensures added { OnOk result (Adds (made_of V.contents code.old) (made_of V.contents code.new)
        (layout.apply_filter name.now count)) }
    ensures marked { OnOk result (margin_of code.new ≡ marks.here 1 (margin_of code.old)) }
{
    let id = code.filter_id(name)?;
    code.add(Instruction::ApplyFilter(name, count, id))
}

/// Performs a test, by its name, on its arguments; their number is `None` where it is on top of
/// them.
fn perform_test<'s, V: TemplateValue>(
    code: &mut Emitter<'s, V>,
    name: &'s str,
    count: Option<u16>,
) -> Result<(), OutOfMemory>
    ensures added { OnOk result (Adds (made_of V.contents code.old) (made_of V.contents code.new)
        (layout.perform_test name.now count)) }
    ensures marked { OnOk result (margin_of code.new ≡ marks.here 1 (margin_of code.old)) }
{
    let id = code.test_id(name)?;
    code.add(Instruction::PerformTest(name, count, id))
}

/// Adds a call of a block whose output is its value.
pub(crate) fn capture_block<'s, V: TemplateValue>(
    code: &mut Emitter<'s, V>,
    name: &'s str,
) -> Result<(), OutOfMemory>
    ensures added { OnOk result (Adds (made_of V.contents code.old) (made_of V.contents code.new)
        (captured name.now)) }
    ensures marked { OnOk result (margin_of code.new ≡ marks.here 3 (margin_of code.old)) }
{
    code.add(Instruction::BeginCapture(CaptureMode::Capture))?;
    code.add(Instruction::CallBlock(name))?;
    code.add(Instruction::EndCapture)
}
