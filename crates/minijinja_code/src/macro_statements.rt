//! Instructions of macros.
ghost use Rattle.std.specs.Prelude.{◌≡◌, OnOk};
ghost use Rattle.minijinja_tree.specs.Erasure.{macro_tree};
ghost use Rattle.minijinja_tree.specs.WellFormed.{IsMacro};
ghost use Rattle.minijinja_tree.specs.SpannedErasure as node;
ghost use Rattle.minijinja_tree.specs.SpannedTrees as spanned;
ghost use Rattle.minijinja_semantics.specs.Layout as layout;
ghost use Rattle.minijinja_semantics.specs.Marks as marks;
ghost use Rattle.minijinja_emitter.specs.internal.AtEmitter.{made_of, margin_of};
ghost use Rattle.minijinja_emitter.specs.internal.Making.{Adds};
ghost use Rattle.minijinja_code_parts.specs.Hint.{macro_bytes};
ghost use Rattle.minijinja_code_parts.specs.internal.AtEnclosingLoop.{around_of};
ghost use Rattle.minijinja_code_parts.specs.internal.EnclosingLoops.{Counted};

use crate::stmt::statements;
use minijinja_code_parts::enclosing_loop::EnclosingLoop;
use minijinja_code_parts::macro_parts::{build, take};
use minijinja_emitter::emit::Emitter;
use minijinja_emitter::memory::OutOfMemory;
use minijinja_instructions::instructions::Instruction;
use minijinja_syntax::tokens::Span;
use minijinja_tree::ast::Macro;
use minijinja_value::value::TemplateValue;

/// Adds a macro as a value: its body, past which a jump leads, and what makes the macro. No jump
/// leads out of the body.
#[cycle(stmt)]
pub(crate) fn macro_value<'s, V: TemplateValue>(
    code: &mut Emitter<'s, V>,
    enclosing: &mut EnclosingLoop,
    declared: &Macro<'s, V>,
    span: Span,
) -> Result<(), OutOfMemory>
    requires { IsMacro (macro_tree V.contents declared.now) }
    ensures added { OnOk result (Adds (made_of V.contents code.old) (made_of V.contents code.new)
        (layout.macro_value V.functions (macro_tree V.contents declared.now))) }
    ensures marked { OnOk result (margin_of code.new ≡ marks.macro_value V.functions
        (spanned.macro declared.now.name.now (node.trees V.contents declared.now.args.items)
        (node.trees V.contents declared.now.defaults.items)
        (spanned.stmts_of (node.stmt_nodes V.contents declared.now.body.items)) span)
        (margin_of code.old)) }
    ensures counted { OnOk result (Counted (macro_bytes (macro_tree V.contents declared.now))
        (around_of enclosing.old) (around_of enclosing.new)) }
{
    code.on_line(span);
    let jump = code.reserve()?;
    let entry = code.place();
    take(code, &declared.args, &declared.defaults)?;
    let mut inner = EnclosingLoop::outside(code.alloc());
    statements(code, &mut inner, &declared.body)?;
    enclosing.count(inner.data_bytes());
    code.add(Instruction::Return)?;
    code.fill(jump, Instruction::Jump(code.here()));
    build(code, declared, entry)
}
