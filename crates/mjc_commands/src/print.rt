//! Prints tokens, code, names, findings and runs, one of each, or one event of a run, on a line.
ghost use Rattle.std.specs.Prelude.{◌≡◌, ◌++◌, IfOk, OnOk, Some, codes, map, string_bytes};
ghost use Rattle.std.specs.BTreeSet.{keys};
ghost use Rattle.std.specs.Fmt.{WritesOnOk};
ghost use Rattle.std.specs.List.{flat_map};
ghost use Rattle.minijinja_syntax.specs.Tokens.{tok_of};
ghost use Rattle.minijinja_lint.specs.Findings.{remark_of};
ghost use Rattle.mjc_commands.specs.Printed.{block_words, code_words, ending_word, event_line, expression_words, finding_line, findings_words, list_words, name_line, names_words, run_words};
ghost use Rattle.mjc_commands.specs.PrintedTokens.{PrintsTokens, printed_token, token_line, token_name};
ghost use Rattle.mjc_commands.specs.Showing.{EndsBy};
ghost use Rattle.mjc_commands.specs.Watched.{IsWritten, Notes};

use crate::watched::Watched;
use minijinja_compiler::compile::Compiled;
use minijinja_compiler::error::Error;
use minijinja_compiler::instructions::Instructions;
use minijinja_compiler::lexer::Tokenizer;
use minijinja_compiler::tokens::{Span, Token};
use minijinja_compiler::value::{Quoted, Value, ValueFault};
use minijinja_lint::lint::Finding;
use minijinja_replay::replay::{Answer, End, Event, Run};
use std::collections::{BTreeMap, BTreeSet};
use std::fmt;
use std::io::{self, Write};

/// The printed form of a token: its name and, in parentheses, its part.
#[derive(Clone, Copy)]
pub struct PrintedToken<'t, 's>(pub &'t Token<'s>);

impl fmt::Display for PrintedToken<'_, '_> {
    ghost output = { λ t. Some (printed_token (tok_of t.0.now)) };

    fn fmt<W: fmt::Write>(&self, f: &mut fmt::Formatter<W>) -> fmt::Result {
        let name = name_of(self.0);
        match self.0 {
            Token::TemplateData(text) | Token::Ident(text) | Token::Str(text) => {
                write!(f, "{name}({})", Quoted(text))
            }
            Token::String(text) => write!(f, "{name}({})", Quoted(text)),
            Token::Int(number) => write!(f, "{name}({number})"),
            Token::Int128(number) => write!(f, "{name}({number})"),
            _ => f.write_str(name),
        }
    }
}

/// The name of a token, as it is printed.
fn name_of(token: &Token<'_>) -> &'static str
    ensures { result.now ≡ token_name (tok_of token.now) }
{
    match token {
        Token::TemplateData(_) => "TemplateData",
        Token::Ident(_) => "Ident",
        Token::Str(_) => "Str",
        Token::String(_) => "String",
        Token::Int(_) => "Int",
        Token::Int128(_) => "Int128",
        Token::VariableStart => "VariableStart",
        Token::VariableEnd => "VariableEnd",
        Token::BlockStart => "BlockStart",
        Token::BlockEnd => "BlockEnd",
        Token::Plus => "Plus",
        Token::Minus => "Minus",
        Token::Mul => "Mul",
        Token::Div => "Div",
        Token::FloorDiv => "FloorDiv",
        Token::Pow => "Pow",
        Token::Mod => "Mod",
        Token::Dot => "Dot",
        Token::Comma => "Comma",
        Token::Colon => "Colon",
        Token::Tilde => "Tilde",
        Token::Assign => "Assign",
        Token::Pipe => "Pipe",
        Token::Eq => "Eq",
        Token::Ne => "Ne",
        Token::Gt => "Gt",
        Token::Gte => "Gte",
        Token::Lt => "Lt",
        Token::Lte => "Lte",
        Token::BracketOpen => "BracketOpen",
        Token::BracketClose => "BracketClose",
        Token::ParenOpen => "ParenOpen",
        Token::ParenClose => "ParenClose",
        Token::BraceOpen => "BraceOpen",
        Token::BraceClose => "BraceClose",
    }
}

/// Writes a text.
pub fn print_text<W: Write>(out: &mut Watched<'_, W>, text: &str) -> io::Result<()>
    ensures notes { Notes out.old out.new result }
    ensures printed { OnOk result (IsWritten W.contents out.old out.new text.now) }
{
    write!(out, "{text}")?;
    out.flush()
}

/// Writes a token on a line, after its span.
fn print_token<W: Write>(out: &mut Watched<'_, W>, token: &Token<'_>, span: Span) -> io::Result<()>
    ensures notes { Notes out.old out.new result }
    ensures printed { OnOk result (IsWritten W.contents out.old out.new
        (token_line (tok_of token.now, span))) }
{
    let Span {
        start_line,
        start_col,
        end_line,
        end_col,
        ..
    } = span;
    writeln!(
        out,
        "{start_line}:{start_col}-{end_line}:{end_col} {}",
        PrintedToken(token)
    )
}

/// Writes each token on a line, and returns the refusal that ends the tokens, if there is one.
pub fn print_tokens<'s, W: Write>(
    out: &mut Watched<'_, W>,
    tokens: &mut Tokenizer<'s, '_>,
) -> io::Result<Option<Error<'s>>>
    ensures ends { IfOk result (EndsBy tokens.old.stream.ending) }
    ensures notes { Notes out.old out.new result }

    // All tokens are written, unless memory ran out, and then those before that.
    ensures printed { IfOk result (λ refusal. PrintsTokens W.contents out.old out.new
        tokens.old.stream.tokens refusal) }
{
    let refusal = loop {
        match tokens.next_token() {
            Ok(Some((token, span))) => print_token(out, &token, span)?,
            Ok(None) => break None,
            Err(error) => break Some(error),
        }
    };
    out.flush()?;
    Ok(refusal)
}

/// Writes each instruction on a line, after its index.
fn print_instructions<W: Write>(
    out: &mut Watched<'_, W>,
    instructions: &Instructions<'_, Value>,
) -> io::Result<()>
    ensures notes { Notes out.old out.new result }
    ensures printed { OnOk result (IsWritten W.contents out.old out.new
        (list_words instructions.now)) }
{
    for (index, instruction) in instructions.iter().enumerate() {
        writeln!(out, "{index} {instruction}")?;
    }
    Ok(())
}

/// Writes the code of a template, the code of its blocks in order of their names, and the hint.
pub fn print_code<W: Write>(out: &mut Watched<'_, W>, code: &Compiled<'_, Value>) -> io::Result<()>
    ensures notes { Notes out.old out.new result }
    ensures printed { OnOk result (IsWritten W.contents out.old out.new (code_words code.now)) }
{
    writeln!(out, "template")?;
    print_instructions(out, &code.instructions)?;
    print_blocks(out, &code.blocks)?;
    writeln!(out, "hint {}", code.buffer_size_hint)?;
    out.flush()
}

/// Writes the code of each block, after its name, in order of the names.
fn print_blocks<W: Write>(
    out: &mut Watched<'_, W>,
    blocks: &BTreeMap<&str, Instructions<'_, Value>>,
) -> io::Result<()>
    ensures notes { Notes out.old out.new result }
    ensures printed { OnOk result (IsWritten W.contents out.old out.new
        (flat_map block_words blocks.now.entries)) }
{
    for (name, instructions) in blocks {
        print_block(out, *name, instructions)?;
    }
    Ok(())
}

/// Writes the code of a block, after its name.
fn print_block<W: Write>(
    out: &mut Watched<'_, W>,
    name: &str,
    instructions: &Instructions<'_, Value>,
) -> io::Result<()>
    ensures notes { Notes out.old out.new result }
    ensures printed { OnOk result (IsWritten W.contents out.old out.new
        (codes "block " ++ name.now ++ codes "\n" ++ list_words instructions.now)) }
{
    writeln!(out, "block {name}")?;
    print_instructions(out, instructions)
}

/// Writes the names that a template needs from outside, the plain ones first, each on a line.
pub fn print_names<W: Write>(
    out: &mut Watched<'_, W>,
    plain: &BTreeSet<String>,
    nested: &BTreeSet<String>,
) -> io::Result<()>
    ensures notes { Notes out.old out.new result }
    ensures printed { OnOk result (IsWritten W.contents out.old out.new (names_words
        (map string_bytes (keys plain.now)) (map string_bytes (keys nested.now)))) }
{
    print_name_lines(out, "plain", plain)?;
    print_name_lines(out, "nested", nested)?;
    out.flush()
}

/// Writes each name on a line, after a word.
fn print_name_lines<W: Write>(
    out: &mut Watched<'_, W>,
    word: &str,
    names: &BTreeSet<String>,
) -> io::Result<()>
    ensures notes { Notes out.old out.new result }
    ensures printed { OnOk result (IsWritten W.contents out.old out.new
        (flat_map (name_line word.now) (map string_bytes (keys names.now)))) }
{
    for name in names {
        writeln!(out, "{word} {name}")?;
    }
    Ok(())
}

/// Writes what a linter found, each finding on a line, with its line from 1 and its column from 0.
pub fn print_findings<W: Write>(
    out: &mut Watched<'_, W>,
    findings: &[Finding<'_>],
) -> io::Result<()>
    ensures notes { Notes out.old out.new result }
    ensures printed { OnOk result (IsWritten W.contents out.old out.new
        (findings_words (map remark_of findings.now))) }
{
    for finding in findings {
        print_finding(out, *finding)?;
    }
    out.flush()
}

/// Writes a finding on a line.
fn print_finding<W: Write>(out: &mut Watched<'_, W>, finding: Finding<'_>) -> io::Result<()>
    ensures notes { Notes out.old out.new result }
    ensures printed { OnOk result (IsWritten W.contents out.old out.new
        (finding_line (remark_of finding.entry))) }
{
    match finding {
        Finding::Free(name, at) => {
            writeln!(out, "free {name} at {}:{}", at.start_line, at.start_col)
        }
        Finding::UnusedMacro(name, at) => {
            writeln!(
                out,
                "macro {name} unused at {}:{}",
                at.start_line, at.start_col
            )
        }
    }
}

/// Writes the code of an expression.
pub fn print_expression<W: Write>(
    out: &mut Watched<'_, W>,
    code: &Instructions<'_, Value>,
) -> io::Result<()>
    ensures notes { Notes out.old out.new result }
    ensures printed { OnOk result (IsWritten W.contents out.old out.new
        (expression_words code.now)) }
{
    writeln!(out, "expression")?;
    print_instructions(out, code)?;
    out.flush()
}

/// Writes an event on a line: its instruction, its operands, and its answer.
fn print_event<W: Write>(
    out: &mut Watched<'_, W>,
    code: &Instructions<'_, Value>,
    event: Event<Value>,
) -> io::Result<()>
    ensures notes { Notes out.old out.new result }
    ensures printed { OnOk result (IsWritten W.contents out.old out.new
        (event_line code.now event)) }
{
    let Some(instruction) = code.get(event.index) else {
        return Ok(());
    };
    let operands = Value::List(event.operands);
    match event.answer {
        Answer::Fault => writeln!(out, "{instruction} <- {operands} -> fault"),
        Answer::Values(values) => {
            let values = Value::List(values);
            writeln!(out, "{instruction} <- {operands} -> {values}")
        }
    }
}

/// Writes each event of a run of this code on a line, and last how the run ended and after how many
/// steps.
pub fn print_run<W: Write>(
    out: &mut Watched<'_, W>,
    code: &Instructions<'_, Value>,
    run: Run<Value>,
) -> io::Result<()>
    ensures notes { Notes out.old out.new result }
    ensures printed { OnOk result (IsWritten W.contents out.old out.new
        (run_words code.now run)) }
{
    for event in run.events {
        print_event(out, code, event)?;
    }
    writeln!(out, "{}, {} steps", ending_word(&run.ending), run.steps)?;
    out.flush()
}

/// How a run is over, in a word.
fn ending_word(ending: &End<ValueFault>) -> &'static str
    ensures { result.now ≡ ending_word ending.now }
{
    match ending {
        End::Finished => "finished",
        End::AnswerFault | End::OperatorFault(_) => "fault",
        End::Starved => "starved",
        End::Unfit => "unfit",
    }
}
