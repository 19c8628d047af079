//! `compile`, `compile_expression` and `compile_expression_in`: from a text to its instructions.
ghost use Rattle.std.specs.Prelude.{◌<◌, ◌≤◌, ◌^◌, codes, length, IfErr, IfOk, IsErrAnd};
ghost use Rattle.std.specs.Str.{IsCharBoundary};
ghost use Rattle.minijinja_parser.specs.Answers.{AnswersExprTokenizer, AnswersExprTokenizerAt, AnswersTokenizer, EscapesIn, IsNoExpr, IsNoExprAt, IsNoTemplate, IsShort, IsTooLong};
ghost use Rattle.minijinja_syntax.specs.Syntax.{default_syntax};
ghost use Rattle.minijinja_parser.specs.Derived.{IsDerived, IsExprDerived, IsExprDerivedIn, expr_place, expr_place_in, template_place};
ghost use Rattle.minijinja_parser.specs.Placing.{IsPlacedInText};
ghost use Rattle.minijinja_compiler.specs.Headline.{IsCompiled, IsCompiledExpr, IsCompiledExprIn, HasTooLongCode, HasTooLongExprCode, HasTooLongExprCodeAt, IsCompileCause, IsCompileUnplaced, IsRefusedUnder, IsTooMany, Succeeds};

use minijinja_code::codegen::CodeGenerator;
use minijinja_code::instructions::Instructions;
use minijinja_parser::parser::{EXPRESSION_NAME, parse, parse_expr, parse_expr_in};
use minijinja_syntax::error::Error;
use minijinja_syntax::syntax::SyntaxConfig;
use minijinja_value::value::{TemplateValue, Value};
use std::alloc::Global;
use std::collections::BTreeMap;
use std::ops::Range;

/// A compiled template. It borrows from the source text and nothing else.
#[derive(Drop)]
pub struct Compiled<'s, V: TemplateValue = Value> {
    /// The instructions of the template outside of its blocks.
    pub instructions: Instructions<'s, V>,
    /// The instructions of each block, under its name.
    pub blocks: BTreeMap<&'s str, Instructions<'s, V>>,
    /// A size for the output buffer, in bytes: the least power of two that is at least twice the
    /// bytes of text outside of tags, and at most 2^63.
    pub buffer_size_hint: usize,
}

/// Compiles the source text of a template; `filename` names it in errors and in the instructions.
///
/// A text of which the grammar derives no tree fails with `SyntaxError`, or `BadEscape`, and the
/// place in the text; no other text does. Besides that, it fails only if memory is refused
/// (`OutOfMemory`), if the source has 2^32 bytes or more (`SourceTooLong`), or if a list would have
/// 2^32 instructions or more (`TooManyInstructions`).
pub fn compile<'s, V: TemplateValue>(
    alloc: Global,
    source: &'s str,
    filename: &'s str,
    syntax: &SyntaxConfig,
) -> Result<Compiled<'s, V>, Error<'s>>
    // The grammar derives one tree of the text, the code is that of this tree, with the lines and
    // the spans of its nodes, and does what it means.
    ensures compiled { IfOk result
        (IsCompiled V.functions V.contents syntax.now source.now filename.now) }

    // It fails with a syntax error or a bad escape only if the grammar derives no tree of the text.
    // If there is a tree, it succeeds, or a limit stands against the text.
    ensures refused { IfErr result (IsNoTemplate V.functions syntax.now source.now) }
    ensures accepted { (t : _) → IsDerived V.functions syntax.now source.now t → Succeeds result }

    // A syntax error or a bad escape has a span: that of a token, or of the tokenizer's refusal.
    ensures placed { IfErr result (IsPlacedInText (template_place syntax.now source.now)) }

    // A bad escape is the one with which the tokens of the text end.
    ensures bad_escape { IfErr result (EscapesIn (template_place syntax.now source.now)) }

    // If the tokenizer fails and all tokens before that fit the grammar, its error is the one
    // returned.
    ensures first { IsShort source.now → AnswersTokenizer V.functions syntax.now source.now result }

    // The error has the source's name, unless memory was refused or the code is too long.
    ensures named { IfErr result (IsRefusedUnder filename.now) }

    // An error for memory has neither a place nor a name, and one for a length has no place.
    ensures unplaced { IfErr result IsCompileUnplaced }

    // A source is too long exactly if it has 2^32 bytes or more, and code only if some list of the
    // tree has 2^32 instructions or more.
    ensures too_long { 2 ^ 32 ≤ length source.now → IsErrAnd result IsTooLong }
    ensures too_long_only { IfErr result (λ e. IsTooLong e → 2 ^ 32 ≤ length source.now) }
    ensures too_many_only { IfErr result
        (λ e. IsTooMany e → HasTooLongCode V.functions syntax.now source.now) }
    ensures causes { IfErr result IsCompileCause }
{
    let template = parse(alloc, source, filename, syntax)?;
    let mut generator = CodeGenerator::new(alloc, filename, source);
    generator.compile_stmt(&template)?;
    let buffer_size_hint = generator.buffer_size_hint();
    let (instructions, blocks) = generator.finish();
    Ok(Compiled {
        instructions,
        blocks,
        buffer_size_hint,
    })
}

/// Compiles one expression in the default syntax. Its instructions leave its value on top of the
/// operands. The source is named `<expression>` in errors and in the instructions.
///
/// It fails as [`compile`] does.
pub fn compile_expression<'s, V: TemplateValue>(
    alloc: Global,
    source: &'s str,
) -> Result<Instructions<'s, V>, Error<'s>>
    // The grammar derives one tree of the text, the code is that of this tree, with the lines and
    // the spans of its nodes, and does what it means.
    ensures compiled { IfOk result (IsCompiledExpr V.functions V.contents source.now) }

    // It fails with a syntax error or a bad escape only if the grammar derives no tree of the text.
    // If there is a tree, it succeeds, or a limit stands against the text.
    ensures refused { IfErr result (IsNoExpr V.functions default_syntax source.now) }
    ensures accepted { (t : _) → IsExprDerived V.functions default_syntax source.now t →
        Succeeds result }

    // A syntax error or a bad escape has a span: that of a token, or of the tokenizer's refusal.
    ensures placed { IfErr result (IsPlacedInText (expr_place default_syntax source.now)) }

    // A bad escape is the one with which the tokens of the text end.
    ensures bad_escape { IfErr result (EscapesIn (expr_place default_syntax source.now)) }

    // If the tokenizer fails and all tokens before that fit the grammar, its error is the one
    // returned.
    ensures first { IsShort source.now → AnswersExprTokenizer V.functions source.now result }

    // The error has the source's name, unless memory was refused or the code is too long.
    ensures named { IfErr result (IsRefusedUnder (codes "<expression>")) }

    // An error for memory has neither a place nor a name, and one for a length has no place.
    ensures unplaced { IfErr result IsCompileUnplaced }

    // A source is too long exactly if it has 2^32 bytes or more, and code only if some list of the
    // tree has 2^32 instructions or more.
    ensures too_long { 2 ^ 32 ≤ length source.now → IsErrAnd result IsTooLong }
    ensures too_long_only { IfErr result (λ e. IsTooLong e → 2 ^ 32 ≤ length source.now) }
    ensures too_many_only { IfErr result
        (λ e. IsTooMany e → HasTooLongExprCode V.functions source.now) }
    ensures causes { IfErr result IsCompileCause }
{
    let expr = parse_expr(alloc, source)?;
    let mut generator = CodeGenerator::new(alloc, EXPRESSION_NAME, source);
    generator.compile_expr(&expr)?;
    let (instructions, _) = generator.finish();
    Ok(instructions)
}

/// Compiles one expression that stands in a larger file, in a syntax of choice: it takes the bytes
/// of `range`. Lines, columns and offsets, in errors and of the instructions, are those of the
/// file, which `filename` names, and the `source()` of the instructions is the whole file.
///
/// It takes time for what stands before `range`, whose lines are counted. Nothing is stripped from
/// the end of the expression, and a dot that stands right before it counts as one before a number.
///
/// ```
/// let file = "name = 'x'\nport = base + 1\n";
/// let port: Instructions<Value> =
///     compile_expression_in(alloc, file, 18..26, "app.conf", &SyntaxConfig::default())?;
/// // Lookup("base") on line 2, LoadConst(1), Add.
/// ```
///
/// It fails as [`compile`] does, and if the file, and not the range, has 2^32 bytes or more.
pub fn compile_expression_in<'s, V: TemplateValue>(
    alloc: Global,
    file: &'s str,
    range: Range<usize>,
    filename: &'s str,
    syntax: &SyntaxConfig,
) -> Result<Instructions<'s, V>, Error<'s>>
    // The range is one by which the file can be sliced.
    requires ordered { range.start ≤ range.end }
    requires start { IsCharBoundary file.now range.start }
    requires end { IsCharBoundary file.now range.end }

    // The grammar derives one tree of what stands in the range, the code is that of this tree, with
    // the lines and the spans that its nodes have in the file, and does what it means.
    ensures compiled { IfOk result (IsCompiledExprIn V.functions V.contents
        syntax.now file.now range.start range.end filename.now) }

    // It fails with a syntax error or a bad escape only if the grammar derives no tree of what
    // stands in the range. If there is a tree, it succeeds, or a limit stands against the text.
    ensures refused { IfErr result (IsNoExprAt V.functions
        (expr_place_in syntax.now file.now range.start range.end)) }
    ensures accepted { (t : _) →
        IsExprDerivedIn V.functions syntax.now file.now range.start range.end t → Succeeds result }

    // A syntax error or a bad escape has a span: that of a token, or of the tokenizer's refusal.
    ensures placed { IfErr result
        (IsPlacedInText (expr_place_in syntax.now file.now range.start range.end)) }

    // A bad escape is the one with which the tokens of the expression end.
    ensures bad_escape { IfErr result
        (EscapesIn (expr_place_in syntax.now file.now range.start range.end)) }

    // If the tokenizer fails and all tokens before that fit the grammar, its error is the one
    // returned.
    ensures first { IsShort file.now → AnswersExprTokenizerAt V.functions
        (expr_place_in syntax.now file.now range.start range.end) result }

    // The error has the file's name, unless memory was refused or the code is too long.
    ensures named { IfErr result (IsRefusedUnder filename.now) }

    // An error for memory has neither a place nor a name, and one for a length has no place.
    ensures unplaced { IfErr result IsCompileUnplaced }

    // A file is too long exactly if it has 2^32 bytes or more, and code only if that of the tree
    // has 2^32 instructions or more.
    ensures too_long { 2 ^ 32 ≤ length file.now → IsErrAnd result IsTooLong }
    ensures too_long_only { IfErr result (λ e. IsTooLong e → 2 ^ 32 ≤ length file.now) }
    ensures too_many_only { IfErr result (λ e. IsTooMany e → HasTooLongExprCodeAt V.functions
        (expr_place_in syntax.now file.now range.start range.end)) }
    ensures causes { IfErr result IsCompileCause }
{
    let expr = parse_expr_in(alloc, file, range, filename, syntax)?;
    let mut generator = CodeGenerator::new(alloc, filename, file);
    generator.compile_expr(&expr)?;
    let (code, _) = generator.finish();
    Ok(code)
}
