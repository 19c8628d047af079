//! Instructions of assignments.
ghost use Rattle.std.specs.Prelude.{◌≡◌, OnOk};
ghost use Rattle.minijinja_tree.specs.Erasure.{expr_tree};
ghost use Rattle.minijinja_tree.specs.WellFormed.{IsTarget};
ghost use Rattle.minijinja_tree.specs.SpannedErasure as node;
ghost use Rattle.minijinja_semantics.specs.Layout as layout;
ghost use Rattle.minijinja_semantics.specs.Marks as marks;
ghost use Rattle.minijinja_emitter.specs.internal.AtEmitter.{made_of, margin_of};
ghost use Rattle.minijinja_emitter.specs.internal.Making.{Adds};

use minijinja_code_expr::expr::expression;
use minijinja_emitter::emit::Emitter;
use minijinja_emitter::memory::OutOfMemory;
use minijinja_instructions::instructions::Instruction;
use minijinja_tree::ast::Expr;
use minijinja_value::value::TemplateValue;

/// Assigns the value on top to a target: to a name or an attribute, or to the targets of a list,
/// for which it is taken apart.
pub fn assign<'s, V: TemplateValue>(
    code: &mut Emitter<'s, V>,
    target: &Expr<'s, V>,
) -> Result<(), OutOfMemory>
    requires { IsTarget (expr_tree V.contents target.now) }
    ensures added { OnOk result (Adds (made_of V.contents code.old) (made_of V.contents code.new)
        (layout.target V.functions (expr_tree V.contents target.now))) }
    ensures marked { OnOk result (margin_of code.new ≡ marks.target V.functions
        (node.expr_node V.contents target.now) (margin_of code.old)) }
{
    match target {
        Expr::Var(variable) => code.add(Instruction::StoreLocal(variable.node().id)),
        Expr::GetAttr(attribute) => {
            let outer = code.open(attribute.span());
            let attribute = attribute.node();
            expression(code, &attribute.expr)?;
            code.add(Instruction::SetAttr(attribute.name))?;
            code.close(outer);
            Ok(())
        }
        Expr::List(list) => {
            let outer = code.open(list.span());
            let targets = &list.node().items;
            code.add(Instruction::UnpackList(targets.len()))?;
            for target in targets {
                assign(code, target)?;
            }
            code.close(outer);
            Ok(())
        }
        Expr::Const(_) => unreachable!(),
        Expr::Slice(_) => unreachable!(),
        Expr::UnaryOp(_) => unreachable!(),
        Expr::BinOp(_) => unreachable!(),
        Expr::Compare(_) => unreachable!(),
        Expr::IfExpr(_) => unreachable!(),
        Expr::Filter(_) => unreachable!(),
        Expr::Test(_) => unreachable!(),
        Expr::GetItem(_) => unreachable!(),
        Expr::Call(_) => unreachable!(),
        Expr::Tuple(_) => unreachable!(),
        Expr::Map(_) => unreachable!(),
    }
}
