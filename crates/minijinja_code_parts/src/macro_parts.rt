//! The instructions before and after the bodies of macros.
ghost use Rattle.std.specs.Prelude.{◌≡◌, length, map, reverse, IfOk, OnOk};
ghost use Rattle.minijinja_tree.specs.Erasure.{expr_tree, macro_tree};
ghost use Rattle.minijinja_tree.specs.Tree.{parameters, present, variable_names};
ghost use Rattle.minijinja_tree.specs.WellFormed.{AreAllWhole, AreVariables, IsVariable, IsWhole};
ghost use Rattle.minijinja_semantics.specs.Code.{Load};
ghost use Rattle.minijinja_tree.specs.SpannedErasure as node;
ghost use Rattle.minijinja_semantics.specs.Layout as layout;
ghost use Rattle.minijinja_semantics.specs.Marks as marks;
ghost use Rattle.minijinja_code_parts.specs.internal.MacroMarks.{TakesMarks};
ghost use Rattle.minijinja_semantics.specs.Macros.{argument_names, enclosed, macro_flags};
ghost use Rattle.minijinja_semantics.specs.Pieces.{one};
ghost use Rattle.minijinja_emitter.specs.internal.AtEmitter.{made_of, margin_of};
ghost use Rattle.minijinja_emitter.specs.internal.Making.{Adds};
ghost use Rattle.minijinja_code_parts.specs.internal.Macros.{TakesArgument, before_last, building, left_of};

use crate::targets::assign;
use minijinja_code_expr::expr::expression;
use minijinja_emitter::emit::Emitter;
use minijinja_emitter::memory::{OutOfMemory, memory_alone};
use minijinja_instructions::instructions::{Instruction, MACRO_CALLER};
use minijinja_meta::meta::find_macro_closure;
use minijinja_tree::ast::{Expr, Macro};
use minijinja_value::value::TemplateValue;
use std::alloc::Global;

/// Stores the values of the arguments, the last one first; it is on top. The defaults are those of
/// the last arguments.
pub fn take<'s, V: TemplateValue>(
    code: &mut Emitter<'s, V>,
    args: &[Expr<'s, V>],
    defaults: &[Expr<'s, V>],
) -> Result<(), OutOfMemory>
    requires args { AreVariables (map (expr_tree V.contents) args.now) }
    requires defaults { AreAllWhole (map (expr_tree V.contents) defaults.now) }
    ensures added { OnOk result (Adds (made_of V.contents code.old) (made_of V.contents code.new)
        (layout.taking V.functions (parameters (map (expr_tree V.contents) args.now)
        (map (expr_tree V.contents) defaults.now)))) }
    ensures marked { OnOk result (margin_of code.new ≡ marks.taking V.functions
        (reverse (node.trees V.contents args.now)) (reverse (node.trees V.contents defaults.now))
        (margin_of code.old)) }
{
    let mut left = args.split_last();
    let mut default = defaults.split_last();
    while let Some((arg, before)) = left {
        take_argument(code, arg, default)?;
        left = before.split_last();
        default = default_before(default);
    }
    Ok(())
}

/// Stores the value of an argument, or its default where the value is undefined; `default` has the
/// last default and those before it.
fn take_argument<'s, V: TemplateValue>(
    code: &mut Emitter<'s, V>,
    arg: &Expr<'s, V>,
    default: Option<(&Expr<'s, V>, &[Expr<'s, V>])>,
) -> Result<(), OutOfMemory>
    requires arg { IsVariable (expr_tree V.contents arg.now) }
    requires default { AreAllWhole (map (expr_tree V.contents) (left_of default)) }
    ensures added { OnOk result (TakesArgument V.functions (expr_tree V.contents arg.now)
        (map (expr_tree V.contents) (left_of default.entry))
        (map (expr_tree V.contents) (before_last default.entry))
        (made_of V.contents code.old) (made_of V.contents code.new)) }
    ensures marked { OnOk result (TakesMarks V.functions (node.expr_node V.contents arg.now)
        (node.trees V.contents (left_of default.entry))
        (node.trees V.contents (before_last default.entry)) (margin_of code.old)
        (margin_of code.new)) }
{
    match default {
        Some((default, _)) => {
            take_default(code, default)?;
            assign(code, arg)
        }
        None => assign(code, arg),
    }
}

/// The last of the defaults before the last one, and those before it.
fn default_before<'a, 's, V: TemplateValue>(
    default: Option<(&'a Expr<'s, V>, &'a [Expr<'s, V>])>,
) -> Option<(&'a Expr<'s, V>, &'a [Expr<'s, V>])>
    ensures { left_of result ≡ before_last default.entry }
{
    match default {
        Some((_, before)) => before.split_last(),
        None => None,
    }
}

/// Replaces the value on top by a default where it is undefined.
fn take_default<'s, V: TemplateValue>(
    code: &mut Emitter<'s, V>,
    default: &Expr<'s, V>,
) -> Result<(), OutOfMemory>
    requires { IsWhole (expr_tree V.contents default.now) }
    ensures added { OnOk result (Adds (made_of V.contents code.old) (made_of V.contents code.new)
        (layout.defaulting V.functions (present (expr_tree V.contents default.now)))) }
    ensures marked { OnOk result (margin_of code.new ≡ marks.expr V.functions
        (node.expr_node V.contents default.now) (marks.here 4 (margin_of code.old))) }
{
    code.add(Instruction::DupTop)?;
    code.add(Instruction::IsUndefined)?;
    let jump = code.reserve()?;
    code.add(Instruction::DiscardTop)?;
    expression(code, default)?;
    code.fill(jump, Instruction::JumpIfFalse(code.here()));
    Ok(())
}

/// Makes a macro, whose body begins at `entry`.
pub fn build<'s, V: TemplateValue>(
    code: &mut Emitter<'s, V>,
    declared: &Macro<'s, V>,
    entry: usize,
) -> Result<(), OutOfMemory>
    ensures added { OnOk result (Adds (made_of V.contents code.old) (made_of V.contents code.new)
        (building V.functions (macro_tree V.contents declared.now) entry)) }
    ensures marked { OnOk result (margin_of code.new ≡ marks.here 3 (marks.here (length
        (enclosed (macro_tree V.contents declared.now))) (margin_of code.old))) }
{
    let flags = enclose(code, declared)?;
    code.add(Instruction::GetClosure)?;
    load_names(code, &declared.args)?;
    code.make_macro(declared.name, entry, flags)
}

/// Encloses the variables that a macro needs from outside, and returns its flags. `caller` is not
/// enclosed, since it comes with each call: a flag says that the macro asks for it.
fn enclose<'s, V: TemplateValue>(
    code: &mut Emitter<'s, V>,
    declared: &Macro<'s, V>,
) -> Result<u8, OutOfMemory>
    ensures flags { IfOk result
        (λ flags. flags ≡ macro_flags (macro_tree V.contents declared.now)) }
    ensures added { OnOk result (Adds (made_of V.contents code.old) (made_of V.contents code.new)
        (layout.enclosing (enclosed (macro_tree V.contents declared.now)))) }
    ensures marked { OnOk result (margin_of code.new ≡ marks.here (length
        (enclosed (macro_tree V.contents declared.now))) (margin_of code.old)) }
{
    let closure = memory_alone(find_macro_closure(code.alloc(), declared))?;
    let mut flags = 0;
    for name in &closure {
        if *name == "caller" {
            flags = MACRO_CALLER;
            continue;
        }
        code.add(Instruction::Enclose(*name))?;
    }
    Ok(flags)
}

/// Loads the names of arguments, as a list.
fn load_names<'s, V: TemplateValue>(
    code: &mut Emitter<'s, V>,
    args: &[Expr<'s, V>],
) -> Result<(), OutOfMemory>
    ensures added { OnOk result (Adds (made_of V.contents code.old) (made_of V.contents code.new)
        (one (Load (argument_names V.functions (map (expr_tree V.contents) args.now))))) }
    ensures marked { OnOk result (margin_of code.new ≡ marks.here 1 (margin_of code.old)) }
{
    let names = names_of(code.alloc(), args)?;
    let list = V::list(code.alloc(), names)?;
    code.add(Instruction::LoadConst(list))
}

/// The names of variables, as values.
fn names_of<V: TemplateValue>(alloc: Global, args: &[Expr<'_, V>]) -> Result<Vec<V>, OutOfMemory>
    ensures { IfOk result (λ names. map V.contents names.items
        ≡ map V.functions.of_str (variable_names (map (expr_tree V.contents) args.now))) }
{
    let mut names = Vec::with_capacity(alloc, args.len())?;
    for arg in args {
        match arg {
            Expr::Var(variable) => {
                let name = V::of_str(alloc, variable.node().id)?;
                names.push(name)?;
            }
            _ => continue,
        }
    }
    Ok(names)
}
