//! Instructions of the arguments of calls.
ghost use Rattle.std.specs.Prelude.{◌≡◌, ◌+◌, ◌≤◌, ◌<◌, ◌^◌, IfOk, OnOk};
ghost use Rattle.minijinja_tree.specs.Erasure.{args_of};
ghost use Rattle.minijinja_tree.specs.Folding.{constant_keywords, fold_keywords};
ghost use Rattle.minijinja_tree.specs.WellFormed.{AreArguments, arg_count, most_arguments};
ghost use Rattle.minijinja_tree.specs.SpannedErasure as node;
ghost use Rattle.minijinja_semantics.specs.Layout as layout;
ghost use Rattle.minijinja_semantics.specs.Marks as marks;
ghost use Rattle.minijinja_semantics.specs.Layout.{batch_count, count_one, count_batch, count_positional, count_keyword, counted, list_batch, map_batch, map_count, merged, spreading};
ghost use Rattle.minijinja_semantics.specs.Code.{Load};
ghost use Rattle.minijinja_semantics.specs.Pieces.{one};
ghost use Rattle.minijinja_code_expr.specs.internal.Callers.{AreCounts, arguments_end, end_count};
ghost use Rattle.minijinja_code_expr.specs.internal.NodeMarks as node_marks;
ghost use Rattle.minijinja_code_expr.specs.internal.NodeMarks.{added_if, given_marks};
ghost use Rattle.minijinja_emitter.specs.internal.AtEmitter.{made_of, margin_of};
ghost use Rattle.minijinja_emitter.specs.internal.Making.{Adds};
ghost use Rattle.minijinja_code_expr.specs.internal.Parts.{count_of, operands, given, AddsIf};

use crate::expr::expression;
use crate::literals::load;
use minijinja_emitter::emit::Emitter;
use minijinja_emitter::memory::{OutOfMemory, memory_alone};
use minijinja_instructions::instructions::Instruction;
use minijinja_tree::ast::CallArg;
use minijinja_tree::constants::constant_kwargs;
use minijinja_value::value::TemplateValue;

/// How many batches of arguments are complete, and how many arguments of the next batch there are
/// so far.
#[derive(Clone, Copy)]
struct Count {
    batches: usize,
    waiting: usize,
}

impl Count {
    /// Counts one more argument.
    fn one(self) -> Self
        requires { (count_of self).waiting < 2 ^ 16 }
        ensures { count_of result ≡ count_one (count_of self) }
    {
        Count {
            batches: self.batches,
            waiting: self.waiting + 1,
        }
    }

    /// Closes the batch so far, if it has any arguments, and counts the batch of a `*` or `**`
    /// argument after it.
    fn batch(self) -> Self
        requires { (count_of self).batches < 2 ^ 16 }
        ensures { count_of result ≡ count_batch (count_of self) }
    {
        Count {
            batches: self.closed() + 1,
            waiting: 0,
        }
    }

    /// How many batches there are once the batch so far is closed, if it has any arguments.
    fn closed(self) -> usize
        requires { (count_of self).batches < 2 ^ 16 }
        ensures { result ≡ (count_of self).batches + batch_count (count_of self).waiting }
    {
        if self.waiting == 0 {
            self.batches
        } else {
            self.batches + 1
        }
    }
}

/// Adds the code of the arguments of a call, below which the call has `front` operands. Returns how
/// many operands the call has then, or `None` where their count is on top of the operands.
#[cycle(expr)]
pub(crate) fn arguments<'s, V: TemplateValue>(
    code: &mut Emitter<'s, V>,
    args: &[CallArg<'s, V>],
    front: usize,
) -> Result<Option<u16>, OutOfMemory>
    requires whole { AreArguments (args_of V.contents args.now) }
    requires few { arg_count (args_of V.contents args.now) ≤ most_arguments }
    requires front { front ≤ 1 }
    ensures count { IfOk result
        (λ n. n ≡ layout.argument_count (args_of V.contents args.now) front) }
    ensures added { OnOk result (Adds (made_of V.contents code.old) (made_of V.contents code.new)
        (given V.functions (args_of V.contents args.now) front)) }
    ensures marked { OnOk result (margin_of code.new ≡ given_marks V.functions
        (node.args_of V.contents args.now) front (margin_of code.old)) }
{
    if args.is_empty() {
        return Ok(Some(front as u16));
    }
    let count = positional_arguments(code, args, front)?;
    if count.waiting == front + args.len() {
        // Each is a positional one: no map comes after them, and there is nothing to spread.
        return Ok(Some(count.waiting as u16));
    }
    if load_keywords(code, args)? {
        return spread(code, count, 1);
    }
    let pairs = keyword_pairs(code, args)?;
    let map = merge(code, pairs)?;
    spread(code, count, map)
}

/// The arguments on the operands where a call takes a macro along, which is its last keyword
/// argument.
#[derive(Clone, Copy)]
pub struct Counts {
    positional: Count,
    keyword: Count,
}

/// Adds the arguments of a call, below which the call has `front` operands, up to the macro that it
/// takes along.
pub(crate) fn up_to_caller<'s, V: TemplateValue>(
    code: &mut Emitter<'s, V>,
    args: &[CallArg<'s, V>],
    front: usize,
) -> Result<Counts, OutOfMemory>
    requires whole { AreArguments (args_of V.contents args.now) }
    requires few { arg_count (args_of V.contents args.now) ≤ most_arguments }
    requires front { front ≤ 1 }
    ensures counts { IfOk result (AreCounts (args_of V.contents args.now) front) }
    ensures added { OnOk result (Adds (made_of V.contents code.old) (made_of V.contents code.new)
        (layout.up_to_caller V.functions (args_of V.contents args.now) front)) }
    ensures marked { OnOk result (margin_of code.new ≡ node_marks.up_to_caller V.functions
        (node.args_of V.contents args.now) front (margin_of code.old)) }
{
    let positional = positional_arguments(code, args, front)?;
    let keyword = keyword_pairs(code, args)?;
    load_name(code, "caller")?;
    Ok(Counts {
        positional,
        keyword: keyword.one(),
    })
}

/// Ends the arguments of a call after the macro that it takes along. Returns how many operands the
/// call has then, or `None` where their count is on top of the operands.
pub(crate) fn end_arguments<'s, V: TemplateValue>(
    code: &mut Emitter<'s, V>,
    args: &[CallArg<'s, V>],
    front: usize,
    counts: Counts,
) -> Result<Option<u16>, OutOfMemory>
    requires few { arg_count (args_of V.contents args.now) ≤ most_arguments }
    requires front { front ≤ 1 }
    requires counts { AreCounts (args_of V.contents args.now) front counts }
    ensures count { IfOk result (λ n. n ≡ end_count (args_of V.contents args.now) front) }
    ensures added { OnOk result (Adds (made_of V.contents code.old) (made_of V.contents code.new)
        (arguments_end (args_of V.contents args.now) front)) }
    ensures marked { OnOk result (margin_of code.new ≡ node_marks.behind_caller
        (node.args_of V.contents args.now) front (margin_of code.old)) }
{
    let map = merge(code, counts.keyword)?;
    spread(code, counts.positional, map)
}

/// Adds the code of the positional and `*` arguments, below which the call has `front` operands.
#[cycle(expr)]
fn positional_arguments<'s, V: TemplateValue>(
    code: &mut Emitter<'s, V>,
    args: &[CallArg<'s, V>],
    front: usize,
) -> Result<Count, OutOfMemory>
    requires whole { AreArguments (args_of V.contents args.now) }
    requires few { arg_count (args_of V.contents args.now) ≤ most_arguments }
    requires front { front ≤ 1 }
    ensures counted { IfOk result
        (λ c. count_of c ≡ count_positional (args_of V.contents args.now) (operands front)) }
    ensures added { OnOk result (Adds (made_of V.contents code.old) (made_of V.contents code.new)
        (layout.positional V.functions (args_of V.contents args.now) front)) }
    ensures marked { OnOk result (margin_of code.new ≡ marks.positional V.functions
        (node.args_of V.contents args.now) front (margin_of code.old)) }
{
    let mut count = Count {
        batches: 0,
        waiting: front,
    };
    for arg in args {
        match arg {
            CallArg::Pos(expr) => {
                expression(code, expr)?;
                count = count.one();
            }
            CallArg::PosSplat(expr) => {
                close_list(code, count.waiting)?;
                expression(code, expr)?;
                count = count.batch();
            }
            CallArg::Kwarg(_, _) | CallArg::KwargSplat(_) => continue,
        }
    }
    Ok(count)
}

/// Loads the map of the keyword arguments if they are constants, and returns whether it did.
fn load_keywords<V: TemplateValue>(
    code: &mut Emitter<'_, V>,
    args: &[CallArg<'_, V>],
) -> Result<bool, OutOfMemory>
    ensures added { IfOk result (λ loaded. AddsIf loaded (fold_keywords V.functions
        (constant_keywords V.functions (args_of V.contents args.now))) (made_of V.contents code.old)
        (made_of V.contents code.new)) }
    ensures marked { IfOk result
        (λ loaded. margin_of code.new ≡ added_if loaded (margin_of code.old)) }
{
    match memory_alone(constant_kwargs(code.alloc(), args))? {
        Some(map) => load(code, map),
        None => Ok(false),
    }
}

/// Adds the code of the names and values of the keyword arguments, and of the `**` arguments.
#[cycle(expr)]
fn keyword_pairs<'s, V: TemplateValue>(
    code: &mut Emitter<'s, V>,
    args: &[CallArg<'s, V>],
) -> Result<Count, OutOfMemory>
    requires whole { AreArguments (args_of V.contents args.now) }
    requires few { arg_count (args_of V.contents args.now) ≤ most_arguments }
    ensures counted { IfOk result
        (λ c. count_of c ≡ count_keyword (args_of V.contents args.now) (operands 0)) }
    ensures added { OnOk result (Adds (made_of V.contents code.old) (made_of V.contents code.new)
        (layout.keyword V.functions (args_of V.contents args.now) 0)) }
    ensures marked { OnOk result (margin_of code.new ≡ marks.keyword V.functions
        (node.args_of V.contents args.now) 0 (margin_of code.old)) }
{
    let mut count = Count {
        batches: 0,
        waiting: 0,
    };
    for arg in args {
        match arg {
            CallArg::Kwarg(name, expr) => {
                load_name(code, name)?;
                expression(code, expr)?;
                count = count.one();
            }
            CallArg::KwargSplat(expr) => {
                close_map(code, count.waiting)?;
                expression(code, expr)?;
                count = count.batch();
            }
            CallArg::Pos(_) | CallArg::PosSplat(_) => continue,
        }
    }
    Ok(count)
}

/// Loads the name of a keyword argument.
fn load_name<V: TemplateValue>(code: &mut Emitter<'_, V>, name: &str) -> Result<(), OutOfMemory>
    ensures added { OnOk result (Adds (made_of V.contents code.old) (made_of V.contents code.new)
        (one (Load (V.functions.of_str name.now)))) }
    ensures marked { OnOk result (margin_of code.new ≡ marks.here 1 (margin_of code.old)) }
{
    let name = V::of_str(code.alloc(), name)?;
    code.add(Instruction::LoadConst(name))
}

/// Merges the batches of keyword arguments into one map. Returns how many maps there are then: none
/// where there are no keyword arguments.
fn merge<V: TemplateValue>(code: &mut Emitter<'_, V>, count: Count) -> Result<usize, OutOfMemory>
    requires { (count_of count).batches < 2 ^ 16 }
    ensures count { IfOk result
        (λ n. n ≡ map_count (count_of count).batches (count_of count).waiting) }
    ensures added { OnOk result (Adds (made_of V.contents code.old) (made_of V.contents code.new)
        (merged (count_of count).batches (count_of count).waiting)) }
    ensures marked { OnOk result (margin_of code.new ≡ marks.merged (count_of count).batches
        (count_of count).waiting (margin_of code.old)) }
{
    close_map(code, count.waiting)?;
    if count.batches == 0 {
        return Ok(count.closed());
    }
    code.add(Instruction::MergeKwargs(count.closed()))?;
    Ok(1)
}

/// Spreads the batches into arguments, if there are any; `more` arguments come after the batch so
/// far. Returns how many arguments there are then, or `None` where their count is on top of the
/// operands.
fn spread<V: TemplateValue>(
    code: &mut Emitter<'_, V>,
    count: Count,
    more: usize,
) -> Result<Option<u16>, OutOfMemory>
    requires batches { (count_of count).batches < 2 ^ 16 }
    requires waiting { (count_of count).waiting + more < 2 ^ 16 }
    ensures count { IfOk result
        (λ n. n ≡ counted (count_of count).batches ((count_of count).waiting + more)) }
    ensures added { OnOk result (Adds (made_of V.contents code.old) (made_of V.contents code.new)
        (spreading (count_of count).batches ((count_of count).waiting + more))) }
    ensures marked { OnOk result (margin_of code.new ≡ marks.spreading (count_of count).batches
        ((count_of count).waiting + more) (margin_of code.old)) }
{
    let count = Count {
        batches: count.batches,
        waiting: count.waiting + more,
    };
    if count.batches == 0 {
        return Ok(Some(count.waiting as u16));
    }
    close_list(code, count.waiting)?;
    code.add(Instruction::UnpackLists(count.closed()))?;
    Ok(None)
}

/// Makes a list of the arguments of the batch so far, if it has any.
fn close_list<V: TemplateValue>(
    code: &mut Emitter<'_, V>,
    waiting: usize,
) -> Result<(), OutOfMemory>
    ensures added { OnOk result
        (Adds (made_of V.contents code.old) (made_of V.contents code.new) (list_batch waiting)) }
    ensures marked { OnOk result (margin_of code.new ≡ marks.here (batch_count waiting) (margin_of
        code.old)) }
{
    if waiting > 0 {
        code.add(Instruction::BuildList(Some(waiting)))?;
    }
    Ok(())
}

/// Makes a map of the pairs of the batch so far, if it has any.
fn close_map<V: TemplateValue>(code: &mut Emitter<'_, V>, waiting: usize) -> Result<(), OutOfMemory>
    ensures added { OnOk result
        (Adds (made_of V.contents code.old) (made_of V.contents code.new) (map_batch waiting)) }
    ensures marked { OnOk result (margin_of code.new ≡ marks.here (batch_count waiting) (margin_of
        code.old)) }
{
    if waiting > 0 {
        code.add(Instruction::BuildKwargs(waiting))?;
    }
    Ok(())
}
