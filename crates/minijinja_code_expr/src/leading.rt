//! The operand that the code of a node begins with.
ghost use Rattle.std.specs.Prelude.{◌≡◌, ◌<◌, ◌≤◌, Some, IfSome, is_some, true};
ghost use Rattle.std.specs.Option.{option_map};
ghost use Rattle.minijinja_tree.specs.Callees.{callee};
ghost use Rattle.minijinja_tree.specs.Erasure.{expr_tree};
ghost use Rattle.minijinja_tree_expr.specs.declared.ast.Expr.{size-Expr};
ghost use Rattle.minijinja_tree.specs.SpannedErasure.{expr_node};
ghost use Rattle.minijinja_emitter.specs.internal.AtEmitter.{made_of, margin_of};
ghost use Rattle.minijinja_code_expr.specs.internal.Leading.{called_on, leading, test_in};
ghost use Rattle.minijinja_code_expr.specs.internal.NodeMarks.{begun, called_on_node, leading_node, test_node};

use minijinja_emitter::emit::Emitter;
use minijinja_syntax::tokens::Span;
use minijinja_tree::ast::{Call, CallType, Expr};
use minijinja_value::value::TemplateValue;

/// Begins a node: what is added from here on stands on the line where the node begins, and comes
/// from its span if the node opens it. Returns the span that was open before.
#[inline(always)]
pub(crate) fn begin<'s, V: TemplateValue>(code: &mut Emitter<'s, V>, node: &Expr<'s, V>) -> Span
    ensures made { made_of V.contents code.new ≡ made_of V.contents code.old }
    ensures outer { result ≡ (margin_of code.old).span }
    ensures marked { margin_of code.new ≡ begun (expr_node V.contents node.now)
        (margin_of code.old) }
{
    let outer = code.span();
    match node {
        Expr::Var(node) => code.on_line(node.span()),
        Expr::Const(node) => code.on_line(node.span()),
        Expr::UnaryOp(node) => code.on_line(node.span()),
        Expr::IfExpr(node) => code.on_line(node.span()),
        Expr::List(node) => code.on_line(node.span()),
        Expr::Tuple(node) => code.on_line(node.span()),
        Expr::Map(node) => code.on_line(node.span()),
        Expr::Slice(node) => code.enter(node.span()),
        Expr::BinOp(node) => code.enter(node.span()),
        Expr::Compare(node) => code.enter(node.span()),
        Expr::Filter(node) => code.enter(node.span()),
        Expr::Test(node) => code.enter(node.span()),
        Expr::GetAttr(node) => code.enter(node.span()),
        Expr::GetItem(node) => code.enter(node.span()),
        Expr::Call(node) => code.enter(node.span()),
    }
    outer
}

/// Whether a node has a leading operand, which its code begins with. That of an if expression is
/// its true part, after the test.
#[inline(always)]
pub(crate) fn has_leading_operand<V: TemplateValue>(node: &Expr<'_, V>) -> bool
    ensures { result ≡ is_some (leading (expr_tree V.contents node.now)) }
{
    match node {
        Expr::Call(call) => is_called_on(call.node()),
        Expr::Filter(filter) => filter.node().expr.is_some(),
        Expr::Var(_) => false,
        Expr::Const(_) => false,
        Expr::List(_) => false,
        Expr::Tuple(_) => false,
        Expr::Map(_) => false,
        Expr::Slice(_) => true,
        Expr::UnaryOp(_) => true,
        Expr::BinOp(_) => true,
        Expr::Compare(_) => true,
        Expr::IfExpr(_) => true,
        Expr::Test(_) => true,
        Expr::GetAttr(_) => true,
        Expr::GetItem(_) => true,
    }
}

/// Whether a call is made on something: a function and a block are called by their names.
pub(crate) fn is_called_on<V: TemplateValue>(call: &Call<'_, V>) -> bool
    ensures { result ≡ is_some (called_on (callee (expr_tree V.contents call.now.expr))) }
{
    match call.identify_call() {
        CallType::Method(_, _) => true,
        CallType::Object(_) => true,
        CallType::Function(_) => false,
        CallType::Block(_) => false,
    }
}

/// The leading operand of a node, which its code begins with; of an if expression the true part.
#[inline(always)]
pub(crate) fn leading_operand<'a, 's, V: TemplateValue>(node: &'a Expr<'s, V>) -> &'a Expr<'s, V>
    requires { is_some (leading (expr_tree V.contents node.now)) ≡ true }
    ensures operand { leading (expr_tree V.contents node.now) ≡ Some
        (expr_tree V.contents result.now) }
    ensures node { leading_node (expr_node V.contents node.now) ≡ Some
        (expr_node V.contents result.now) }
    ensures smaller { size-Expr _ _ result.now < size-Expr _ _ node.now }
{
    match node {
        Expr::Slice(slice) => &slice.node().expr,
        Expr::UnaryOp(operation) => &operation.node().expr,
        Expr::BinOp(operation) => &operation.node().left,
        Expr::Compare(chain) => &chain.node().expr,
        Expr::IfExpr(choice) => &choice.node().true_expr,
        Expr::Filter(filter) => match &filter.node().expr {
            Some(expr) => expr,
            None => unreachable!(),
        },
        Expr::Test(test) => &test.node().expr,
        Expr::GetAttr(attribute) => &attribute.node().expr,
        Expr::GetItem(item) => &item.node().expr,
        Expr::Call(call) => called_operand(call.node()),
        Expr::Var(_) => unreachable!(),
        Expr::Const(_) => unreachable!(),
        Expr::List(_) => unreachable!(),
        Expr::Tuple(_) => unreachable!(),
        Expr::Map(_) => unreachable!(),
    }
}

/// The object that a call is made on.
pub(crate) fn called_operand<'a, 's, V: TemplateValue>(call: &'a Call<'s, V>) -> &'a Expr<'s, V>
    requires { is_some (called_on (callee (expr_tree V.contents call.now.expr))) ≡ true }
    ensures operand { called_on (callee (expr_tree V.contents call.now.expr)) ≡ Some
        (expr_tree V.contents result.now) }
    ensures node { called_on_node (callee (expr_tree V.contents call.now.expr))
        (expr_node V.contents call.now.expr) ≡ Some (expr_node V.contents result.now) }
    ensures smaller { size-Expr _ _ result.now ≤ size-Expr _ _ call.now.expr }
{
    match call.identify_call() {
        CallType::Method(object, _) => object,
        CallType::Object(object) => object,
        CallType::Function(_) => unreachable!(),
        CallType::Block(_) => unreachable!(),
    }
}

/// The test of a node, if it is an if expression.
pub(crate) fn test_of<'a, 's, V: TemplateValue>(node: &'a Expr<'s, V>) -> Option<&'a Expr<'s, V>>
    ensures test { option_map (λ e. expr_tree V.contents e.now) result
        ≡ test_in (expr_tree V.contents node.now) }
    ensures node { option_map (λ e. expr_node V.contents e.now) result
        ≡ test_node (expr_node V.contents node.now) }
    ensures smaller { IfSome result (λ e. size-Expr _ _ e.now < size-Expr _ _ node.now) }
{
    match node {
        Expr::IfExpr(choice) => Some(&choice.node().test_expr),
        _ => None,
    }
}
