//! What an output writes.
ghost use Rattle.std.specs.Prelude.{◌≡◌, [], ◌∷◌, codes};
ghost use Rattle.minijinja_tree.specs.Callees.{callee};
ghost use Rattle.minijinja_tree.specs.Erasure.{expr_tree, args_of};
ghost use Rattle.minijinja_tree.specs.SpannedErasure as node;
ghost use Rattle.minijinja_semantics.specs.Calls.{written_function, written_call, written};
ghost use Rattle.minijinja_code_expr.specs.internal.Outputs.{ItemsAre, arguments_in, output_shown};

use minijinja_tree::ast::{Call, CallArg, CallType, Expr};
use minijinja_value::value::TemplateValue;

/// What an output writes: the block that this one overrides, the loop around it again on other
/// items, a block, or a value.
pub enum Output<'a, 's, V: TemplateValue> {
    Super,
    Recursion(&'a Expr<'s, V>),
    Block(&'s str),
    Plain,
}

/// What an output of an expression writes.
pub fn output_of<'a, 's, V: TemplateValue>(expr: &'a Expr<'s, V>) -> Output<'a, 's, V>
    ensures shown { output_shown V.contents result ≡ written (expr_tree V.contents expr.now) }
    ensures items { ItemsAre V.contents result
        (arguments_in (node.expr_node V.contents expr.now)) }
{
    match expr {
        Expr::Call(call) => output_of_call(call.node()),
        Expr::Var(_) => Output::Plain,
        Expr::Const(_) => Output::Plain,
        Expr::Slice(_) => Output::Plain,
        Expr::UnaryOp(_) => Output::Plain,
        Expr::BinOp(_) => Output::Plain,
        Expr::Compare(_) => Output::Plain,
        Expr::IfExpr(_) => Output::Plain,
        Expr::Filter(_) => Output::Plain,
        Expr::Test(_) => Output::Plain,
        Expr::GetAttr(_) => Output::Plain,
        Expr::GetItem(_) => Output::Plain,
        Expr::List(_) => Output::Plain,
        Expr::Tuple(_) => Output::Plain,
        Expr::Map(_) => Output::Plain,
    }
}

fn output_of_call<'a, 's, V: TemplateValue>(call: &'a Call<'s, V>) -> Output<'a, 's, V>
    ensures shown { output_shown V.contents result ≡ written_call
        (callee (expr_tree V.contents call.now.expr)) (args_of V.contents call.now.args.items) }
    ensures items { ItemsAre V.contents result
        (node.args_of V.contents call.now.args.items) }
{
    match call.identify_call() {
        CallType::Function(name) => output_of_function(name, &call.args),
        CallType::Block(name) => Output::Block(name),
        _ => Output::Plain,
    }
}

fn output_of_function<'a, 's, V: TemplateValue>(
    name: &'s str,
    args: &'a [CallArg<'s, V>],
) -> Output<'a, 's, V>
    ensures shown { output_shown V.contents result ≡ written_function name.now
        (args_of V.contents args.now) }
    ensures items { ItemsAre V.contents result (node.args_of V.contents args.now) }
{
    match args.len() {
        0 => {
            if name == "super" {
                return Output::Super;
            }
            Output::Plain
        }
        1 => {
            if name == "loop" {
                return output_of_loop(&args[0]);
            }
            Output::Plain
        }
        _ => Output::Plain,
    }
}

fn output_of_loop<'a, 's, V: TemplateValue>(arg: &'a CallArg<'s, V>) -> Output<'a, 's, V>
    ensures shown { output_shown V.contents result ≡ written_function (codes "loop")
        (args_of V.contents (arg.now ∷ [])) }
    ensures items { ItemsAre V.contents result (node.args_of V.contents (arg.now ∷ [])) }
{
    match arg {
        CallArg::Pos(items) => Output::Recursion(items),
        _ => Output::Plain,
    }
}
