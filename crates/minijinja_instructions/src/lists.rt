//! Functions that make lists of instructions, for the crates that generate code.
ghost use Rattle.std.specs.Prelude.{◌≡◌, ◌+◌, ◌≤◌, ◌<◌, ◌^◌, length, vec_len, vec_capacity, None, IfErr, OnOk, IsErr};
ghost use Rattle.minijinja_syntax.specs.Errors as Errors;
ghost use Rattle.minijinja_syntax.specs.Errors.{kind_of, span_of};
ghost use Rattle.minijinja_syntax.specs.declared.error.ErrorKind.TheVariants.{TooManyInstructions};
ghost use Rattle.minijinja_instructions.specs.InstructionLists.{instructions_of, is_required, marks_of, name_of, source_of, HasNoPlaceOrName, IsAddError};
ghost use Rattle.minijinja_instructions.specs.MarkLists.{marks_in};

use crate::instructions::{Instruction, InstructionList, Instructions};
use crate::marks::MarkList;
use minijinja_syntax::error::{Detail, Error, ErrorKind};
use minijinja_value::value::TemplateValue;

/// The number of instructions that a list does not reach.
pub const LIMIT: usize = 1 << 32;

/// The error for a list that would have 2^32 instructions or more.
pub fn too_many() -> Error<'static>
    ensures kind { kind_of result ≡ TooManyInstructions }
    ensures name { Errors.name_of result ≡ None }
    ensures span { span_of result ≡ None }
{
    Error::new(
        ErrorKind::TooManyInstructions,
        Detail::TooManyInstructions,
        None,
        None,
    )
}

/// Makes a list of these instructions with their lines and spans. It does not check their number:
/// the caller ensures that they are fewer than [`LIMIT`].
pub fn listed<'s, V: TemplateValue>(
    instructions: Vec<Instruction<'s, V>>,
    marks: MarkList,
    name: &'s str,
    source: &'s str,
    is_required_block: bool,
) -> Instructions<'s, V>
    requires { length (marks_in marks) ≡ length instructions.items }
    ensures instructions { instructions_of result ≡ instructions.entry.items }
    ensures marks { marks_of result ≡ marks_in marks }
    ensures required { is_required result ≡ is_required_block }
    ensures name { name_of result ≡ name.now }
    ensures source { source_of result ≡ source.now }
{
    InstructionList {
        instructions,
        marks,
        name,
        source,
        is_required_block,
    }
}

/// Makes room for one instruction more, unless memory runs out or there would be 2^32 of them.
pub(crate) fn reserve_one<I>(list: &mut Vec<I>) -> Result<(), Error<'static>>
    ensures same { list.new.items ≡ list.old.items }
    ensures len { vec_len list.new ≡ vec_len list.old }
    ensures room { OnOk result (vec_len list.new < vec_capacity list.new) }
    ensures fits { OnOk result (length list.old.items + 1 < 2 ^ 32) }
    ensures causes { IfErr result IsAddError }
    ensures unplaced { IfErr result HasNoPlaceOrName }
    ensures too_many { IfErr result
        (λ e. kind_of e ≡ TooManyInstructions → 2 ^ 32 ≤ length list.old.items + 1) }
    ensures full { 2 ^ 32 ≤ length list.old.items + 1 → IfErr result
        (λ e. kind_of e ≡ TooManyInstructions) × IsErr result }
{
    if list.len() + 1 >= LIMIT {
        return Err(too_many());
    }
    list.reserve(1)?;
    Ok(())
}
