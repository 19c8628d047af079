//! Reads expressions of the forms that statements want.
ghost use Rattle.std.specs.Prelude.{◌≡◌};
ghost use Rattle.minijinja_tree.specs.SpannedErasure.{expr_node};
ghost use Rattle.minijinja_grammar.specs.internal.Forms.{reads};
ghost use Rattle.minijinja_parser_tokens.specs.internal.Forms.{expr_of};
ghost use Rattle.minijinja_parser_tokens.specs.internal.Forms as forms;
ghost use Rattle.minijinja_parser_tokens.specs.internal.Reads.{Reads};

use crate::rules::in_statements;
use crate::storable::is_storable;
use crate::tree_exprs::TreeExprs;
use minijinja_parser_tokens::forms::ExprForm;
use minijinja_parser_tokens::refusal::{Refusal, Wanted};
use minijinja_parser_tokens::token_stream::TokenStream;
use minijinja_parser_tokens::tokens::Tokens;
use minijinja_syntax::error::Expected;
use minijinja_tree::ast::Expr;
use minijinja_value::value::TemplateValue;

/// Whether an expression has the form.
#[tactic(auto, using(crate::proofs::Calls::is_call, crate::proofs::Calls::is_no_call))]
fn fits<V: TemplateValue>(form: ExprForm, expr: &Expr<'_, V>) -> bool
    ensures { result ≡ forms.fits form (expr_node V.contents expr.now) }
{
    match form {
        ExprForm::Call => matches!(expr, Expr::Call(_)),
        ExprForm::Storable => is_storable(expr),
        ExprForm::Full | ExprForm::Or | ExprForm::Value | ExprForm::Chain => true,
    }
}

/// What a refusal names as wanted, where an expression does not have the form.
fn wanted(form: ExprForm) -> Wanted {
    match form {
        ExprForm::Call => Wanted::Call,
        ExprForm::Storable => Wanted::Storable,
        ExprForm::Full | ExprForm::Or | ExprForm::Value | ExprForm::Chain => {
            Wanted::Part(Expected::Expression)
        }
    }
}

/// Reads an expression of the form, in which parts nest `depth` deep at most.
#[tactic(auto, using(crate::proofs::WantedForms::expression_is))]
pub fn expression<'s, 'c, V: TemplateValue>(
    nodes: TreeExprs<'s, 'c, V>,
    tokens: &mut TokenStream<'s, 'c>,
    form: ExprForm,
    depth: usize,
) -> Result<Expr<'s, V>, Refusal>
    ensures { Reads (expr_node V.contents) (reads (expr_of V.functions form depth) tokens.old.place)
        result tokens.new.place }
{
    let expr = in_statements::expression(nodes, tokens, form, depth)?;
    if !fits(form, &expr) {
        return Err(tokens.misfit(wanted(form)));
    }
    Ok(expr)
}
