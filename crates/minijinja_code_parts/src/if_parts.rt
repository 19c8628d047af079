//! The instructions before the true body of an `if` statement.
ghost use Rattle.std.specs.Prelude.{◌≡◌, IfOk, OnOk};
ghost use Rattle.minijinja_tree.specs.SpannedErasure as node;
ghost use Rattle.minijinja_semantics.specs.Marks as marks;
ghost use Rattle.minijinja_semantics.specs.Marks.{◌⟫◌};
ghost use Rattle.minijinja_tree.specs.Erasure.{expr_tree};
ghost use Rattle.minijinja_tree.specs.WellFormed.{IsWhole};
ghost use Rattle.minijinja_code_parts.specs.internal.IfParts.{Tests};
ghost use Rattle.minijinja_emitter.specs.internal.AtEmitter.{made_of, margin_of};

use minijinja_code_expr::expr::expression;
use minijinja_emitter::emit::Emitter;
use minijinja_emitter::memory::OutOfMemory;
use minijinja_tree::ast::Expr;
use minijinja_value::value::TemplateValue;

/// Adds a test and reserves the place of its jump, which is returned.
pub fn begin<'s, V: TemplateValue>(
    code: &mut Emitter<'s, V>,
    test: &Expr<'s, V>,
) -> Result<usize, OutOfMemory>
    requires { IsWhole (expr_tree V.contents test.now) }
    ensures tested { IfOk result (λ place. Tests V.functions (expr_tree V.contents test.now) place
        (made_of V.contents code.old) (made_of V.contents code.new)) }
    ensures marked { OnOk result (margin_of code.new ≡ marks.within
        (marks.span_of (node.expr_node V.contents test.now))
        (marks.expr V.functions (node.expr_node V.contents test.now) ⟫ marks.here 1)
        (margin_of code.old)) }
{
    let outer = code.open(test.span());
    expression(code, test)?;
    let place = code.reserve()?;
    code.close(outer);
    Ok(place)
}
