//! Instructions of `extends`, `include`, `import` and `from`, which name another template.
ghost use Rattle.std.specs.Prelude.{◌≡◌, [], OnOk};
ghost use Rattle.minijinja_tree.specs.Erasure.{expr_tree, names_of, optional_of};
ghost use Rattle.minijinja_tree.specs.Tree.{stored_as};
ghost use Rattle.minijinja_tree.specs.WellFormed.{AreNames, IsTarget, IsWhole};
ghost use Rattle.minijinja_semantics.specs.Code.{DiscardTop, Do};
ghost use Rattle.minijinja_semantics.specs.Events as event;
ghost use Rattle.minijinja_tree.specs.SpannedErasure as node;
ghost use Rattle.minijinja_semantics.specs.Layout as layout;
ghost use Rattle.minijinja_semantics.specs.Marks as marks;
ghost use Rattle.minijinja_semantics.specs.Pieces.{one, ◌▸◌};
ghost use Rattle.minijinja_instructions.specs.Instructions.{captured_as};
ghost use Rattle.minijinja_emitter.specs.internal.AtEmitter.{made_of, margin_of};
ghost use Rattle.minijinja_emitter.specs.internal.Making.{Adds};

use crate::targets::assign;
use minijinja_code_expr::expr::expression;
use minijinja_emitter::emit::Emitter;
use minijinja_emitter::memory::OutOfMemory;
use minijinja_instructions::instructions::{CaptureMode, Instruction};
use minijinja_syntax::tokens::Span;
use minijinja_tree::ast::{Expr, Extends, FromImport, Import, Include};
use minijinja_value::value::TemplateValue;

/// Loads the template whose blocks this one overrides.
pub fn extends<'s, V: TemplateValue>(
    code: &mut Emitter<'s, V>,
    parent: &Extends<'s, V>,
    span: Span,
) -> Result<(), OutOfMemory>
    requires { IsWhole (expr_tree V.contents parent.now.name) }
    ensures added { OnOk result (Adds (made_of V.contents code.old) (made_of V.contents code.new)
        (layout.expr V.functions (expr_tree V.contents parent.now.name)
        ▸ one (Do event.LoadBlocks [] 1))) }
    ensures marked { OnOk result (margin_of code.new ≡ marks.alone_at span (marks.expr V.functions
        (node.expr_node V.contents parent.now.name) (margin_of code.old))) }
{
    expression(code, &parent.name)?;
    code.add_at(Instruction::LoadBlocks, span)
}

/// Writes another template.
pub fn include<'s, V: TemplateValue>(
    code: &mut Emitter<'s, V>,
    included: &Include<'s, V>,
    span: Span,
) -> Result<(), OutOfMemory>
    requires { IsWhole (expr_tree V.contents included.now.name) }
    ensures added { OnOk result (Adds (made_of V.contents code.old) (made_of V.contents code.new)
        (layout.expr V.functions (expr_tree V.contents included.now.name)
        ▸ one (Do (event.Include included.now.ignore_missing) [] 1))) }
    ensures marked { OnOk result (margin_of code.new ≡ marks.alone_at span (marks.expr V.functions
        (node.expr_node V.contents included.now.name) (margin_of code.old))) }
{
    expression(code, &included.name)?;
    code.add_at(Instruction::Include(included.ignore_missing), span)
}

/// Assigns all that another template stores to a target.
pub fn import_all<'s, V: TemplateValue>(
    code: &mut Emitter<'s, V>,
    import: &Import<'s, V>,
    span: Span,
) -> Result<(), OutOfMemory>
    requires name { IsWhole (expr_tree V.contents import.now.expr) }
    requires target { IsTarget (expr_tree V.contents import.now.name) }
    ensures added { OnOk result (Adds (made_of V.contents code.old) (made_of V.contents code.new)
        (layout.within V.functions event.Capture (expr_tree V.contents import.now.expr)
        ▸ one (Do event.EndCapture [] 0) ▸ one DiscardTop ▸ one (Do event.ExportLocals [] 0)
        ▸ one (Do event.PopFrame [] 0)
        ▸ layout.target V.functions (expr_tree V.contents import.now.name))) }
    ensures marked { OnOk result (margin_of code.new ≡ marks.target V.functions
        (node.expr_node V.contents import.now.name) (marks.here 4 (marks.alone_at span
        (marks.expr V.functions (node.expr_node V.contents import.now.expr) (marks.here 2
        (margin_of code.old)))))) }
{
    begin_import(code, CaptureMode::Capture, &import.expr, span)?;
    code.add(Instruction::EndCapture)?;
    code.add(Instruction::DiscardTop)?;
    code.add(Instruction::ExportLocals)?;
    code.add(Instruction::PopFrame)?;
    assign(code, &import.name)
}

/// Assigns names that another template stores.
pub fn from_import<'s, V: TemplateValue>(
    code: &mut Emitter<'s, V>,
    import: &FromImport<'s, V>,
    span: Span,
) -> Result<(), OutOfMemory>
    requires name { IsWhole (expr_tree V.contents import.now.expr) }
    requires names { AreNames (names_of V.contents import.now.names.items) }
    ensures added { OnOk result (Adds (made_of V.contents code.old) (made_of V.contents code.new)
        (layout.within V.functions event.Discard (expr_tree V.contents import.now.expr)
        ▸ layout.looking_up V.functions (names_of V.contents import.now.names.items)
        ▸ one (Do event.PopFrame [] 0)
        ▸ layout.storing_back V.functions (names_of V.contents import.now.names.items)
        ▸ one (Do event.EndCapture [] 0) ▸ one DiscardTop)) }
    ensures marked { OnOk result (margin_of code.new ≡ marks.here 2 (marks.storing_back V.functions
        (node.names_of V.contents import.now.names.items) (marks.here 1 (marks.looking_up
        V.functions (node.names_of V.contents import.now.names.items) (marks.alone_at span
        (marks.expr V.functions (node.expr_node V.contents import.now.expr) (marks.here 2
        (margin_of code.old)))))))) }
{
    begin_import(code, CaptureMode::Discard, &import.expr, span)?;
    look_up(code, &import.names)?;
    code.add(Instruction::PopFrame)?;
    store_back(code, &import.names)?;
    code.add(Instruction::EndCapture)?;
    code.add(Instruction::DiscardTop)
}

/// Runs another template in a scope of its own, where its output is captured.
fn begin_import<'s, V: TemplateValue>(
    code: &mut Emitter<'s, V>,
    mode: CaptureMode,
    name: &Expr<'s, V>,
    span: Span,
) -> Result<(), OutOfMemory>
    requires { IsWhole (expr_tree V.contents name.now) }
    ensures added { OnOk result (Adds (made_of V.contents code.old) (made_of V.contents code.new)
        (layout.within V.functions (captured_as mode) (expr_tree V.contents name.now))) }
    ensures marked { OnOk result (margin_of code.new ≡ marks.alone_at span (marks.expr V.functions
        (node.expr_node V.contents name.now) (marks.here 2 (margin_of code.old)))) }
{
    code.add(Instruction::BeginCapture(mode))?;
    code.add(Instruction::PushWith)?;
    expression(code, name)?;
    code.add_at(Instruction::Include(false), span)
}

/// Looks up names.
fn look_up<'s, V: TemplateValue>(
    code: &mut Emitter<'s, V>,
    names: &[(Expr<'s, V>, Option<Expr<'s, V>>)],
) -> Result<(), OutOfMemory>
    requires { AreNames (names_of V.contents names.now) }
    ensures added { OnOk result (Adds (made_of V.contents code.old) (made_of V.contents code.new)
        (layout.looking_up V.functions (names_of V.contents names.now))) }
    ensures marked { OnOk result (margin_of code.new ≡ marks.looking_up V.functions
        (node.names_of V.contents names.now) (margin_of code.old)) }
{
    for (name, _) in names {
        expression(code, name)?;
    }
    Ok(())
}

/// Stores values under the names that they have here, the last one, which is on top, first.
fn store_back<'s, V: TemplateValue>(
    code: &mut Emitter<'s, V>,
    names: &[(Expr<'s, V>, Option<Expr<'s, V>>)],
) -> Result<(), OutOfMemory>
    requires { AreNames (names_of V.contents names.now) }
    ensures added { OnOk result (Adds (made_of V.contents code.old) (made_of V.contents code.new)
        (layout.storing_back V.functions (names_of V.contents names.now))) }
    ensures marked { OnOk result (margin_of code.new ≡ marks.storing_back V.functions
        (node.names_of V.contents names.now) (margin_of code.old)) }
{
    let mut left = names.split_last();
    while let Some((name, before)) = left {
        store_name(code, name)?;
        left = before.split_last();
    }
    Ok(())
}

/// Stores the value on top under the name that an imported one has here.
fn store_name<'s, V: TemplateValue>(
    code: &mut Emitter<'s, V>,
    name: &(Expr<'s, V>, Option<Expr<'s, V>>),
) -> Result<(), OutOfMemory>
    requires { IsTarget (stored_as (
      expr_tree V.contents name.now.0,
      optional_of V.contents
          name.now.1,
    )) }
    ensures added { OnOk result (Adds (made_of V.contents code.old) (made_of V.contents code.new)
        (layout.target V.functions (stored_as (
          expr_tree V.contents name.now.0,
          optional_of
              V.contents name.now.1,
        )))) }
    ensures marked { OnOk result (margin_of code.new ≡ marks.target V.functions (marks.stored_as (
      node.expr_node V.contents name.now.0,
      node.optional_of V.contents name.now.1,
    )) (margin_of code.old)) }
{
    match &name.1 {
        Some(alias) => assign(code, alias),
        None => assign(code, &name.0),
    }
}
