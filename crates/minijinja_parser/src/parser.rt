//! The parser: from the tokens of a source to its tree, or to an error.
ghost use Rattle.std.specs.Prelude.{◌≡◌, ◌≢◌, ◌<◌, ◌≤◌, ◌^◌, [], codes, length, take, IfErr, IfOk, IsErrAnd, None};
ghost use Rattle.std.specs.Str.{IsCharBoundary};
ghost use Rattle.minijinja_syntax.specs.Errors.{IsOutOfMemory, kind_of, span_of};
ghost use Rattle.minijinja_syntax.specs.Positions.{span_at};
ghost use Rattle.minijinja_syntax.specs.Streams.{refused};
ghost use Rattle.minijinja_syntax.specs.Syntax.{default_syntax};
ghost use Rattle.minijinja_syntax.specs.declared.error.ErrorKind.TheVariants.{OutOfMemory, SourceTooLong, SyntaxError};
ghost use Rattle.minijinja_lexer.specs.Stream.{IsNamed, IsTokenizerKind};
ghost use Rattle.minijinja_lexer.specs.TextTokens.{text_of, tokens_of_expression_at};
ghost use Rattle.minijinja_tree.specs.Erasure.{expr_tree, stmt_tree};
ghost use Rattle.minijinja_tree.specs.SpannedErasure.{expr_node, stmt_node};
ghost use Rattle.minijinja_tree.specs.Tree.{template};
ghost use Rattle.minijinja_tree.specs.WellFormed.{IsWellFormed, IsWhole};
ghost use Rattle.minijinja_grammar.specs.internal.Forms.{reads};
ghost use Rattle.minijinja_grammar.specs.internal.ExprForms.{expr_at};
ghost use Rattle.minijinja_grammar.specs.Derived.{max_depth};
ghost use Rattle.minijinja_grammar.specs.internal.TemplateForms.{template_at};
ghost use Rattle.minijinja_parser.specs.Answers.{AnswersExpr, AnswersExprAt, AnswersExprTokenizer, AnswersExprTokenizerAt, AnswersExprWithinLimits, AnswersTemplate, AnswersTemplateAt, AnswersTokenizer, AnswersTokenizerAt, EscapesIn, ExprHasPlacesAt, ExprStandsAt, HasPlacesAt, IsEmptyTemplate, IsExprAt, IsExprOf, IsNoExpr, IsNoExprAt, IsNoTemplate, IsNoTemplateAt, IsShort, IsTemplateAt, IsTemplateOf, IsTooLong, IsUnrefused, Repeats, StandsAt, WantsExpr};
ghost use Rattle.minijinja_parser.specs.Causes.{IsCause, IsUnplaced};
ghost use Rattle.minijinja_parser.specs.Derived.{expr_place, expr_place_in, template_place, tokens_of};
ghost use Rattle.minijinja_parser.specs.Parsing.{HasRefused, IsSpent};
ghost use Rattle.minijinja_parser.specs.Placing.{IsPlaced, IsPlacedInText};
ghost use Rattle.minijinja_parser_tokens.specs.TokenStreams.{Comes, no_place, stream_at};
ghost use Rattle.minijinja_parser.specs.private.Wholes.{Ends, IsErrorAt, ReadsWhole};

use crate::details::LastToken;
use minijinja_parser_expr::expressions::expression;
use minijinja_parser_expr::tree_exprs::TreeExprs;
use minijinja_parser_stmt_nodes::tree_stmts::template;
use minijinja_parser_tokens::forms::ExprForm;
use minijinja_parser_tokens::refusal::{Refusal, Wanted};
pub use minijinja_parser_tokens::token_stream::TokenStream;
use minijinja_parser_tokens::token_stream::{
    named, open_statement, set_refusal, tokenizer_refusal,
};
use minijinja_parser_tokens::tokens::Tokens;
use minijinja_syntax::error::{Detail, Error, ErrorKind, Expected};
use minijinja_syntax::syntax::SyntaxConfig;
use minijinja_tree::ast::{Expr, Stmt};
use minijinja_value::value::TemplateValue;
use std::alloc::{AllocError, Global};
use std::marker::Model;
use std::ops::Range;

/// How deep statements and expressions may nest.
const MAX_DEPTH: usize = 300;

/// The least length of a source that is too long, in bytes.
const SOURCE_LIMIT: usize = 1 << 32;

/// The name that errors give a source that is one expression.
pub const EXPRESSION_NAME: &str = "<expression>";

/// Parses one source.
#[derive(Drop)]
pub struct Parser<'s, 'c> {
    tokens: TokenStream<'s, 'c>,
    filename: &'s str,
    syntax: &'c SyntaxConfig,
    alloc: Global,
}

impl<'s, 'c> Model for Parser<'s, 'c> {
    ghost use Rattle.minijinja_parser_tokens.specs.TokenStreams.{Streaming};
    ghost use Rattle.minijinja_parser.specs.declared.parser.Parser.TheInside.{Inside};

    ghost Value = { Streaming };

    ghost view = { λ (a : Inside). record { filename = a.filename.now; place = a.tokens.place } };
}

impl<'s, 'c> Parser<'s, 'c> {
    /// A parser at the first token of a template, for `parse`, or, if `in_expr` is set, of one
    /// expression, for `parse_standalone_expr`. The source has fewer than 2^32 bytes.
    pub fn new(
        alloc: Global,
        source: &'s str,
        filename: &'s str,
        in_expr: bool,
        syntax: &'c SyntaxConfig,
    ) -> Self
        requires { IsShort source.now }
        ensures filename { result.filename ≡ filename.now }
        ensures source { result.place.source ≡ text_of syntax.now source.now }
        ensures last { result.place.last ≡ no_place }
        ensures names { result.place.names ≡ [] }
        ensures stream { Comes (tokens_of in_expr syntax.now source.now) (stream_at result.place) }
    {
        Parser {
            tokens: TokenStream::new(alloc, source, filename, in_expr, syntax),
            filename,
            syntax,
            alloc,
        }
    }

    /// A parser at the first token of one expression, for `parse_standalone_expr`. The expression
    /// takes the bytes of `range` in a larger file of fewer than 2^32 bytes.
    pub fn expression_in(
        alloc: Global,
        file: &'s str,
        range: Range<usize>,
        filename: &'s str,
        syntax: &'c SyntaxConfig,
    ) -> Self
        requires short { IsShort file.now }
        requires ordered { range.start ≤ range.end }
        requires start { IsCharBoundary file.now range.start }
        requires end { IsCharBoundary file.now range.end }
        ensures filename { result.filename ≡ filename.now }
        ensures source { result.place.source ≡ take range.end file.now }
        ensures last { result.place.last ≡
            span_at (take range.end file.now) range.start range.start }
        ensures names { result.place.names ≡ [] }
        ensures stream { Comes
            (tokens_of_expression_at syntax.now (take range.end file.now) range.start)
            (stream_at result.place) }
    {
        Parser {
            tokens: TokenStream::expression_in(alloc, file, range, filename, syntax),
            filename,
            syntax,
            alloc,
        }
    }

    /// The name of the source.
    pub fn filename(&self) -> &'s str
        ensures { result.now ≡ self.now.filename }
    {
        self.filename
    }

    /// What exactly is wrong with the token taken last, or with the end after it.
    fn detail(&self, wanted: Wanted, is_last: bool) -> Detail<'s> {
        let token = LastToken {
            text: self.last_word(),
            is_last,
            syntax: self.syntax,
            open: open_statement(&self.tokens),
        };
        token.detail(wanted)
    }

    /// The source of the token taken last.
    fn last_word(&self) -> &'s str {
        let span = self.tokens.last_span();
        let range = span.start_offset as usize..span.end_offset as usize;
        self.tokens.source().get(range).unwrap_or("")
    }

    /// A syntax error at the token taken last.
    fn syntax_error(&self, detail: Detail<'s>) -> Error<'s>
        ensures kind { kind_of result ≡ SyntaxError }
        ensures span { span_of result ≡ Some self.now.place.last }
        ensures named { IsNamed self.now.filename result }
    {
        Error::new(
            ErrorKind::SyntaxError,
            detail,
            Some(self.filename),
            Some(self.tokens.last_span()),
        )
    }

    /// The error for a refusal.
    #[tactic(auto, using(crate::proofs::Unplaced::of_parser))]
    fn error(&self, refusal: Refusal) -> Error<'s>
        ensures is { IsErrorAt self.now.place refusal result }
        ensures cause { IsTokenizerKind (kind_of result) }
        ensures named { kind_of result ≢ OutOfMemory → IsNamed self.now.filename result }
        ensures unplaced { IsUnplaced result }
    {
        match refusal {
            Refusal::OutOfMemory => Error::from(AllocError),
            Refusal::Ended(wanted) => match tokenizer_refusal(&self.tokens) {
                Some(error) => named(error, self.filename),
                None => self.syntax_error(self.detail(wanted, true)),
            },
            Refusal::Wrong(wanted) => self.syntax_error(self.detail(wanted, false)),
        }
    }

    /// The error for a refusal, which every later call returns too.
    fn refuse(&mut self, refusal: Refusal) -> Error<'s>
        ensures is { IsErrorAt self.old.place refusal result }
        ensures kept { HasRefused self.new.place (kind_of result) (span_of result) }
        ensures cause { IsTokenizerKind (kind_of result) }
        ensures named { kind_of result ≢ OutOfMemory → IsNamed self.old.filename result }
        ensures unplaced { IsUnplaced result }
        ensures filename { self.new.filename ≡ self.old.filename }
    {
        let error = self.error(refusal);
        set_refusal(&mut self.tokens, error);
        error
    }

    /// The error if the next token is refused.
    #[tactic(auto, using(crate::proofs::Unplaced::of_parser))]
    fn unrefused(&self) -> Result<(), Error<'s>>
        ensures none { IfOk result (λ _. IsUnrefused self.now.place) }
        ensures stands { IfErr result (λ e. HasRefused self.now.place (kind_of e) (span_of e)) }
        ensures cause { IfErr result (λ e. IsTokenizerKind (kind_of e)) }
        ensures named { IfErr result (λ e. kind_of e ≢ OutOfMemory → IsNamed self.now.filename e) }
        ensures unplaced { IfErr result IsUnplaced }
    {
        match tokenizer_refusal(&self.tokens) {
            Some(error) => Err(named(error, self.filename)),
            None => Ok(()),
        }
    }

    /// Takes the end of the tokens. A token or a refusal is an error.
    #[tactic(auto, using(crate::proofs::Wholes::none_taken, crate::proofs::Wholes::one_taken, crate::proofs::Wholes::never_wrong))]
    fn end(&mut self) -> Result<(), Refusal>
        ensures end { Ends self.old.place result self.new.place }
        ensures filename { self.new.filename ≡ self.old.filename }
    {
        let wanted = Wanted::Part(Expected::End);
        match self.tokens.take(wanted) {
            Ok(_) => Err(Refusal::Wrong(wanted)),
            Err(Refusal::Ended(_)) if tokenizer_refusal(&self.tokens).is_none() => Ok(()),
            Err(refusal) => Err(refusal),
        }
    }

    /// The maker of the nodes of the tree.
    fn nodes<V: TemplateValue>(&self) -> TreeExprs<'s, 'c, V> {
        TreeExprs::new(self.alloc, self.tokens.source(), self.syntax)
    }

    /// The template, up to the end of the tokens.
    fn whole_template<V: TemplateValue>(&mut self) -> Result<Stmt<'s, V>, Refusal>
        ensures read { ReadsWhole (stmt_node V.contents)
            (reads (template_at V.functions max_depth) self.old.place) result self.new.place }
        ensures filename { self.new.filename ≡ self.old.filename }
    {
        let nodes = self.nodes();
        let template = template(nodes, &mut self.tokens, MAX_DEPTH)?;
        self.end()?;
        Ok(template)
    }

    /// The expression, up to the end of the tokens.
    fn whole_expr<V: TemplateValue>(&mut self) -> Result<Expr<'s, V>, Refusal>
        ensures read { ReadsWhole (expr_node V.contents)
            (reads (expr_at V.functions max_depth) self.old.place) result self.new.place }
        ensures filename { self.new.filename ≡ self.old.filename }
    {
        let nodes = self.nodes();
        let expr = expression(nodes, &mut self.tokens, ExprForm::Full, MAX_DEPTH)?;
        self.end()?;
        Ok(expr)
    }

    /// The tree of the tokens that are left, as a template. After it none is left, and a later call
    /// returns the empty template. After an error each later call returns one of its kind and span.
    /// Errors: a syntax error or a bad escape, and memory that was refused.
    pub fn parse<V: TemplateValue>(&mut self) -> Result<Stmt<'s, V>, Error<'s>>
        // The result is derived from the tokens that are left.
        ensures found { IfOk result (IsTemplateAt V.functions V.contents self.old.place) }

        // From what is refused as a syntax error or for a bad escape nothing is derived.
        ensures refused { IfErr result (IsNoTemplateAt V.functions self.old.place) }

        // If a tree is derived, it is the only one and the result, unless memory ran out.
        ensures only { AnswersTemplateAt V.functions V.contents self.old.place result }

        ensures causes { IfErr result (λ e. IsTokenizerKind (kind_of e)) }

        // A refusal names the source, unless memory ran out.
        ensures named { IfErr result (λ e. kind_of e ≢ OutOfMemory → IsNamed self.old.filename e) }

        // Where memory ran out, it has neither name nor place.
        ensures unplaced { IfErr result IsUnplaced }

        ensures filename { self.new.filename ≡ self.old.filename }

        // A syntax error or a bad escape stands at a token, or it is the tokenizer's refusal.
        ensures placed { IfErr result (IsPlaced self.old.place) }

        // A bad escape is the one that the tokens end with.
        ensures bad_escape { IfErr result (EscapesIn self.old.place) }

        // The tokenizer's refusal is the result if all tokens before it fit.
        ensures first { AnswersTokenizerAt V.functions self.old.place result }

        ensures well_formed { IfOk result (λ s. IsWellFormed (stmt_tree V.contents s)) }

        // Each node goes from token to token, and a variable and data stand where their own tokens
        // do.
        ensures spans { IfOk result (StandsAt V.contents self.old.place) }

        // Each node stands where the derivation of the tree has it.
        ensures places { IfOk result (HasPlacesAt V.functions V.contents self.old.place) }

        // After a tree no token is left, and after an error each call returns it again.
        ensures spent { IfOk result (λ _. IsSpent self.new.place) }
        ensures kept { IfErr result (λ e. HasRefused self.new.place (kind_of e) (span_of e)) }
        ensures again { Repeats self.old.place result }

        // If no token is left, the result is the empty template, unless memory ran out.
        ensures empty { IsSpent self.old.place → IsEmptyTemplate V.contents result }
    {
        self.unrefused()?;
        match self.whole_template() {
            Ok(template) => Ok(template),
            Err(refusal) => Err(self.refuse(refusal)),
        }
    }

    /// The tree of the tokens that are left, as one expression. After it none is left, and a later
    /// call returns a syntax error. After an error each later call returns one of its kind and
    /// span.
    /// Errors: a syntax error or a bad escape, and memory that was refused.
    pub fn parse_standalone_expr<V: TemplateValue>(&mut self) -> Result<Expr<'s, V>, Error<'s>>
        // The result is derived from the tokens that are left.
        ensures found { IfOk result (IsExprAt V.functions V.contents self.old.place) }

        // From what is refused as a syntax error or for a bad escape nothing is derived.
        ensures refused { IfErr result (IsNoExprAt V.functions self.old.place) }

        // If a tree is derived, it is the only one and the result, unless memory ran out.
        ensures only { AnswersExprAt V.functions V.contents self.old.place result }

        ensures causes { IfErr result (λ e. IsTokenizerKind (kind_of e)) }

        // A refusal names the source, unless memory ran out.
        ensures named { IfErr result (λ e. kind_of e ≢ OutOfMemory → IsNamed self.old.filename e) }

        // Where memory ran out, it has neither name nor place.
        ensures unplaced { IfErr result IsUnplaced }

        ensures filename { self.new.filename ≡ self.old.filename }

        // A syntax error or a bad escape stands at a token, or it is the tokenizer's refusal.
        ensures placed { IfErr result (IsPlaced self.old.place) }

        // A bad escape is the one that the tokens end with.
        ensures bad_escape { IfErr result (EscapesIn self.old.place) }

        // The tokenizer's refusal is the result if all tokens before it fit.
        ensures first { AnswersExprTokenizerAt V.functions self.old.place result }

        ensures well_formed { IfOk result (λ x. IsWhole (expr_tree V.contents x)) }

        // Each node goes from token to token, and a variable stands where its own token does.
        ensures spans { IfOk result (ExprStandsAt V.contents self.old.place) }

        // Each node stands where the derivation of the tree has it.
        ensures places { IfOk result (ExprHasPlacesAt V.functions V.contents self.old.place) }

        // After a tree no token is left, and after an error each call returns it again.
        ensures spent { IfOk result (λ _. IsSpent self.new.place) }
        ensures kept { IfErr result (λ e. HasRefused self.new.place (kind_of e) (span_of e)) }
        ensures again { Repeats self.old.place result }

        // If no token is left, there is no expression.
        ensures nothing { IsSpent self.old.place → IsErrAnd result WantsExpr }
    {
        self.unrefused()?;
        match self.whole_expr() {
            Ok(expr) => Ok(expr),
            Err(refusal) => Err(self.refuse(refusal)),
        }
    }
}

/// The error for a source that is too long.
#[tactic(auto, using(crate::proofs::Unplaced::of_length))]
fn too_long<'s>(filename: &'s str) -> Error<'s>
    ensures kind { kind_of result ≡ SourceTooLong }
    ensures unplaced { IsUnplaced result }
    ensures named { IsNamed filename.now result }
{
    Error::new(
        ErrorKind::SourceTooLong,
        Detail::SourceTooLong,
        Some(filename),
        None,
    )
}

/// The tree of a template, which errors name `filename`.
/// Errors: a syntax error or a bad escape, memory that was refused, and a source of 2^32 bytes or
/// more.
pub fn parse<'s, V: TemplateValue>(
    alloc: Global,
    source: &'s str,
    filename: &'s str,
    syntax: &SyntaxConfig,
) -> Result<Stmt<'s, V>, Error<'s>>
    // The result is derived from the source.
    ensures found { IfOk result (IsTemplateOf V.functions V.contents syntax.now source.now) }

    // What is refused as a syntax error or for a bad escape is not derived, whatever the tree.
    ensures refused { IfErr result (IsNoTemplate V.functions syntax.now source.now) }

    // If a tree is derived, it is the only one and the result, unless memory ran out or the source
    // is too long.
    ensures only { AnswersTemplate V.functions V.contents syntax.now source.now result }

    // A source is too long exactly from 2^32 bytes on.
    ensures too_long { 2 ^ 32 ≤ length source.now → IsErrAnd result IsTooLong }
    ensures too_long_only { IfErr result (λ e. IsTooLong e → 2 ^ 32 ≤ length source.now) }

    // A syntax error or a bad escape has a span: that of a token, or of the tokenizer's refusal.
    ensures placed { IfErr result (IsPlacedInText (template_place syntax.now source.now)) }

    // A bad escape is the one that the tokens end with.
    ensures bad_escape { IfErr result (EscapesIn (template_place syntax.now source.now)) }
    // The tokenizer's refusal is the result if all tokens before it fit.
    ensures first { IsShort source.now → AnswersTokenizer V.functions syntax.now source.now result }

    ensures causes { IfErr result IsCause }

    // A refusal names the source, unless memory ran out.
    ensures named { IfErr result (λ e. kind_of e ≢ OutOfMemory → IsNamed filename.now e) }

    // Where memory ran out, it has neither name nor place, and where the source is too long, no
    // place.
    ensures unplaced { IfErr result IsUnplaced }

    ensures well_formed { IfOk result (λ s. IsWellFormed (stmt_tree V.contents s)) }
    ensures spans { IfOk result (StandsAt V.contents (template_place syntax.now source.now)) }

    // Each node stands where the derivation of the tree has it.
    ensures places { IfOk result (HasPlacesAt V.functions V.contents
        (template_place syntax.now source.now)) }
{
    if source.len() >= SOURCE_LIMIT {
        return Err(too_long(filename));
    }
    let mut parser = Parser::new(alloc, source, filename, false, syntax);
    parser.parse()
}

/// The tree of one expression, in the default syntax. Errors name the source `<expression>`.
/// Errors: a syntax error or a bad escape, memory that was refused, and a source of 2^32 bytes or
/// more.
pub fn parse_expr<'s, V: TemplateValue>(
    alloc: Global,
    source: &'s str,
) -> Result<Expr<'s, V>, Error<'s>>
    // The result is derived from the source.
    ensures found { IfOk result (IsExprOf V.functions V.contents default_syntax source.now) }

    // What is refused as a syntax error or for a bad escape is not derived, whatever the tree.
    ensures refused { IfErr result (IsNoExpr V.functions default_syntax source.now) }

    // If a tree is derived, it is the only one and the result, unless memory ran out or the source
    // is too long.
    ensures only { AnswersExpr V.functions V.contents default_syntax source.now result }

    // A source is too long exactly from 2^32 bytes on.
    ensures too_long { 2 ^ 32 ≤ length source.now → IsErrAnd result IsTooLong }
    ensures too_long_only { IfErr result (λ e. IsTooLong e → 2 ^ 32 ≤ length source.now) }

    // A syntax error or a bad escape has a span: that of a token, or of the tokenizer's refusal.
    ensures placed { IfErr result (IsPlacedInText (expr_place default_syntax source.now)) }

    // A bad escape is the one that the tokens end with.
    ensures bad_escape { IfErr result (EscapesIn (expr_place default_syntax source.now)) }
    // The tokenizer's refusal is the result if all tokens before it fit.
    ensures first { IsShort source.now → AnswersExprTokenizer V.functions source.now result }

    ensures causes { IfErr result IsCause }

    // A refusal names the source, unless memory ran out.
    ensures named { IfErr result (λ e. kind_of e ≢ OutOfMemory → IsNamed (codes "<expression>") e) }

    // Where memory ran out, it has neither name nor place, and where the source is too long, no
    // place.
    ensures unplaced { IfErr result IsUnplaced }

    ensures well_formed { IfOk result (λ x. IsWhole (expr_tree V.contents x)) }
    ensures spans { IfOk result (ExprStandsAt V.contents (expr_place default_syntax source.now)) }

    // Each node stands where the derivation of the tree has it.
    ensures places { IfOk result (ExprHasPlacesAt V.functions V.contents
        (expr_place default_syntax source.now)) }
{
    if source.len() >= SOURCE_LIMIT {
        return Err(too_long(EXPRESSION_NAME));
    }
    let syntax = SyntaxConfig::default();
    let mut parser = Parser::new(alloc, source, EXPRESSION_NAME, true, &syntax);
    parser.parse_standalone_expr()
}

/// The tree of one expression that stands in a larger file: it takes the bytes of `range`. Lines,
/// columns and offsets are those of the file, also in errors, which name it `filename`.
///
/// It takes time for what stands before `range`, whose lines are counted. Nothing is stripped from
/// the end of the expression, and a dot that stands right before it counts as one before a number.
///
/// ```
/// let file = "name = 'x'\nport = base + 1\n";
/// let port: Expr<Value> = parse_expr_in(alloc, file, 18..26, "app.conf", &syntax)?;
/// // `base` stands on line 2, in columns 7 to 11.
/// ```
///
/// Errors: a syntax error or a bad escape, memory that was refused, and a file of 2^32 bytes or
/// more.
pub fn parse_expr_in<'s, V: TemplateValue>(
    alloc: Global,
    file: &'s str,
    range: Range<usize>,
    filename: &'s str,
    syntax: &SyntaxConfig,
) -> Result<Expr<'s, V>, Error<'s>>
    // The range is one by which the file can be sliced.
    requires ordered { range.start ≤ range.end }
    requires start { IsCharBoundary file.now range.start }
    requires end { IsCharBoundary file.now range.end }

    // The result is derived from what stands in the range.
    ensures found { IfOk result (IsExprAt V.functions V.contents
        (expr_place_in syntax.now file.now range.start range.end)) }

    // What is refused as a syntax error or for a bad escape is not derived, whatever the tree.
    ensures refused { IfErr result (IsNoExprAt V.functions
        (expr_place_in syntax.now file.now range.start range.end)) }

    // If a tree is derived, it is the only one and the result, unless memory ran out or the file is
    // too long.
    ensures only { AnswersExprWithinLimits V.functions V.contents
        (expr_place_in syntax.now file.now range.start range.end) result }

    // A file is too long exactly from 2^32 bytes on.
    ensures too_long { 2 ^ 32 ≤ length file.now → IsErrAnd result IsTooLong }
    ensures too_long_only { IfErr result (λ e. IsTooLong e → 2 ^ 32 ≤ length file.now) }

    // A syntax error or a bad escape has a span: that of a token, or of the tokenizer's refusal.
    ensures placed { IfErr result
        (IsPlacedInText (expr_place_in syntax.now file.now range.start range.end)) }

    // A bad escape is the one that the tokens end with.
    ensures bad_escape { IfErr result
        (EscapesIn (expr_place_in syntax.now file.now range.start range.end)) }
    // The tokenizer's refusal is the result if all tokens before it fit.
    ensures first { IsShort file.now → AnswersExprTokenizerAt V.functions
        (expr_place_in syntax.now file.now range.start range.end) result }

    ensures causes { IfErr result IsCause }

    // A refusal names the file, unless memory ran out.
    ensures named { IfErr result (λ e. kind_of e ≢ OutOfMemory → IsNamed filename.now e) }

    // Where memory ran out, it has neither name nor place, and where the file is too long, no
    // place.
    ensures unplaced { IfErr result IsUnplaced }

    ensures well_formed { IfOk result (λ x. IsWhole (expr_tree V.contents x)) }
    ensures spans { IfOk result (ExprStandsAt V.contents
        (expr_place_in syntax.now file.now range.start range.end)) }

    // Each node stands where the derivation of the tree has it.
    ensures places { IfOk result (ExprHasPlacesAt V.functions V.contents
        (expr_place_in syntax.now file.now range.start range.end)) }
{
    if file.len() >= SOURCE_LIMIT {
        return Err(too_long(filename));
    }
    let mut parser = Parser::expression_in(alloc, file, range, filename, syntax);
    parser.parse_standalone_expr()
}
