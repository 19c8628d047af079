//! The printed forms of instructions.
ghost use Rattle.std.specs.Prelude.{◌≡◌};
ghost use Rattle.minijinja_instructions.specs.InstructionWords.{compare_words, capture_words, instruction_name, instruction_output, count_output};

use crate::instructions::{CaptureMode, CompareOp, Instruction};
use minijinja_value::value::{Quoted, TemplateValue};
use std::fmt;

/// The name of the instruction and, in parentheses, its parts: texts in quotes, numbers as
/// decimals, an absent count as `none`.
impl<V: TemplateValue + fmt::Display> fmt::Display for Instruction<'_, V> {
    ghost output = { instruction_output V.output };

    fn fmt<W: fmt::Write>(&self, f: &mut fmt::Formatter<W>) -> fmt::Result {
        let name = name_of(self);
        match self {
            Instruction::EmitRaw(text)
            | Instruction::StoreLocal(text)
            | Instruction::Lookup(text)
            | Instruction::GetAttr(text)
            | Instruction::SetAttr(text)
            | Instruction::CallBlock(text)
            | Instruction::Enclose(text) => write!(f, "{name}({})", Quoted(text)),
            Instruction::LoadConst(value) => write!(f, "{name}({value})"),
            Instruction::BuildMap(count)
            | Instruction::BuildKwargs(count)
            | Instruction::MergeKwargs(count)
            | Instruction::UnpackList(count)
            | Instruction::UnpackLists(count) => write!(f, "{name}({count})"),
            Instruction::BuildList(count) | Instruction::BuildTuple(count) => {
                write!(f, "{name}({})", OrNone(*count))
            }
            Instruction::CompareAndPreserve(op) => write!(f, "{name}({})", compare_words(*op)),
            Instruction::ApplyFilter(text, count, id) | Instruction::PerformTest(text, count, id) =>
                { write!(f, "{name}({}, {}, {id})", Quoted(text), OrNone(*count)) }
            Instruction::PushLoop(flags) => write!(f, "{name}({flags})"),
            Instruction::Iterate(index)
            | Instruction::Jump(index)
            | Instruction::JumpIfFalse(index)
            | Instruction::JumpIfFalseOrPop(index)
            | Instruction::JumpIfTrueOrPop(index) => write!(f, "{name}({index})"),
            Instruction::BeginCapture(mode) => write!(f, "{name}({})", capture_words(*mode)),
            Instruction::CallFunction(text, count) | Instruction::CallMethod(text, count) => {
                write!(f, "{name}({}, {})", Quoted(text), OrNone(*count))
            }
            Instruction::CallObject(count) => write!(f, "{name}({})", OrNone(*count)),
            Instruction::Include(ignores_missing) => write!(f, "{name}({ignores_missing})"),
            Instruction::BuildMacro(text, entry, flags) => {
                write!(f, "{name}({}, {entry}, {flags})", Quoted(text))
            }
            _ => f.write_str(name),
        }
    }
}

/// The name of an instruction, as it is printed.
fn name_of<V: TemplateValue>(instruction: &Instruction<'_, V>) -> &'static str
    ensures { result.now ≡ instruction_name instruction.now }
{
    match instruction {
        Instruction::EmitRaw(_) => "EmitRaw",
        Instruction::StoreLocal(_) => "StoreLocal",
        Instruction::Lookup(_) => "Lookup",
        Instruction::GetAttr(_) => "GetAttr",
        Instruction::SetAttr(_) => "SetAttr",
        Instruction::GetItem => "GetItem",
        Instruction::Slice => "Slice",
        Instruction::LoadConst(_) => "LoadConst",
        Instruction::BuildMap(_) => "BuildMap",
        Instruction::BuildKwargs(_) => "BuildKwargs",
        Instruction::MergeKwargs(_) => "MergeKwargs",
        Instruction::BuildList(_) => "BuildList",
        Instruction::BuildTuple(_) => "BuildTuple",
        Instruction::UnpackList(_) => "UnpackList",
        Instruction::UnpackLists(_) => "UnpackLists",
        Instruction::Add => "Add",
        Instruction::Sub => "Sub",
        Instruction::Mul => "Mul",
        Instruction::Div => "Div",
        Instruction::IntDiv => "IntDiv",
        Instruction::Rem => "Rem",
        Instruction::Pow => "Pow",
        Instruction::Neg => "Neg",
        Instruction::Eq => "Eq",
        Instruction::Ne => "Ne",
        Instruction::Gt => "Gt",
        Instruction::Gte => "Gte",
        Instruction::Lt => "Lt",
        Instruction::Lte => "Lte",
        Instruction::Not => "Not",
        Instruction::StringConcat => "StringConcat",
        Instruction::In => "In",
        Instruction::CompareAndPreserve(_) => "CompareAndPreserve",
        Instruction::ApplyFilter(_, _, _) => "ApplyFilter",
        Instruction::PerformTest(_, _, _) => "PerformTest",
        Instruction::Emit => "Emit",
        Instruction::PushLoop(_) => "PushLoop",
        Instruction::PushWith => "PushWith",
        Instruction::Iterate(_) => "Iterate",
        Instruction::PushDidNotIterate => "PushDidNotIterate",
        Instruction::PopFrame => "PopFrame",
        Instruction::PopLoopFrame => "PopLoopFrame",
        Instruction::Jump(_) => "Jump",
        Instruction::JumpIfFalse(_) => "JumpIfFalse",
        Instruction::JumpIfFalseOrPop(_) => "JumpIfFalseOrPop",
        Instruction::JumpIfTrueOrPop(_) => "JumpIfTrueOrPop",
        Instruction::PushAutoEscape => "PushAutoEscape",
        Instruction::PopAutoEscape => "PopAutoEscape",
        Instruction::BeginCapture(_) => "BeginCapture",
        Instruction::EndCapture => "EndCapture",
        Instruction::CallFunction(_, _) => "CallFunction",
        Instruction::CallMethod(_, _) => "CallMethod",
        Instruction::CallObject(_) => "CallObject",
        Instruction::DupTop => "DupTop",
        Instruction::DiscardTop => "DiscardTop",
        Instruction::FastSuper => "FastSuper",
        Instruction::FastRecurse => "FastRecurse",
        Instruction::Swap => "Swap",
        Instruction::CallBlock(_) => "CallBlock",
        Instruction::LoadBlocks => "LoadBlocks",
        Instruction::Include(_) => "Include",
        Instruction::ExportLocals => "ExportLocals",
        Instruction::Enclose(_) => "Enclose",
        Instruction::GetClosure => "GetClosure",
        Instruction::BuildMacro(_, _, _) => "BuildMacro",
        Instruction::Return => "Return",
        Instruction::IsUndefined => "IsUndefined",
    }
}

/// The name of a comparison, as it is printed.
fn compare_words(op: CompareOp) -> &'static str
    ensures { result.now ≡ compare_words op }
{
    match op {
        CompareOp::Eq => "Eq",
        CompareOp::Ne => "Ne",
        CompareOp::Lt => "Lt",
        CompareOp::Lte => "Lte",
        CompareOp::Gt => "Gt",
        CompareOp::Gte => "Gte",
        CompareOp::In => "In",
        CompareOp::NotIn => "NotIn",
    }
}

/// What happens to captured output, as it is printed.
fn capture_words(mode: CaptureMode) -> &'static str
    ensures { result.now ≡ capture_words mode }
{
    match mode {
        CaptureMode::Capture => "Capture",
        CaptureMode::Discard => "Discard",
    }
}

/// A count, or `none` where it stands on top of the operands that it counts.
#[derive(Clone, Copy)]
struct OrNone<N>(Option<N>);

impl<N: fmt::Display> fmt::Display for OrNone<N> {
    ghost output = { λ count. count_output N.output count.0 };

    fn fmt<W: fmt::Write>(&self, f: &mut fmt::Formatter<W>) -> fmt::Result {
        match &self.0 {
            Some(count) => write!(f, "{count}"),
            None => f.write_str("none"),
        }
    }
}
