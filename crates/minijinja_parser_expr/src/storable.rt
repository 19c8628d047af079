//! Tests that an imported template may be stored to an expression. Lists nest at most as deep as
//! expressions do, so the tests are recursive.
ghost use Rattle.std.specs.Prelude.{◌≡◌};
ghost use Rattle.minijinja_tree.specs.SpannedErasure.{expr_node, trees};
ghost use Rattle.minijinja_tree.specs.SpannedTrees.{exprs_of};
ghost use Rattle.minijinja_grammar.specs.internal.StmtForms as form;

use minijinja_tree::ast::Expr;
use minijinja_value::value::TemplateValue;

/// Whether it is a variable, an attribute, or a list of expressions that may be stored to.
#[cycle(storable)]
pub fn is_storable<V: TemplateValue>(expr: &Expr<'_, V>) -> bool
    ensures { result ≡ form.is_storable (expr_node V.contents expr.now) }
{
    match expr {
        Expr::Var(_) => true,
        Expr::GetAttr(_) => true,
        Expr::List(list) => are_storable(&list.node().items),
        _ => false,
    }
}

/// Whether all items may be stored to.
#[cycle(storable)]
fn are_storable<V: TemplateValue>(items: &[Expr<'_, V>]) -> bool
    ensures { result ≡ form.are_storable (exprs_of (trees V.contents items.now)) }
{
    for item in items {
        if !is_storable(item) {
            return false;
        }
    }
    true
}
