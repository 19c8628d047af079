//! The tokens of a text, of which the next one can be looked at before it is taken.
ghost use Rattle.std.specs.Prelude.{◌≡◌, ◌≢◌, ◌<◌, ◌≤◌, ◌^◌, [], length, take, IfErr, IfSome, if◌then◌else◌};
ghost use Rattle.std.specs.Str.{IsCharBoundary};
ghost use Rattle.minijinja_syntax.specs.Errors.{IsOutOfMemory, kind_of, span_of};
ghost use Rattle.minijinja_lexer.specs.Stream.{IsNamed, IsTokenizerKind};
ghost use Rattle.minijinja_lexer.specs.TextTokens.{text_of, tokens_of_template, tokens_of_expression, tokens_of_expression_at};
ghost use Rattle.minijinja_syntax.specs.Positions.{span_at};
ghost use Rattle.minijinja_syntax.specs.Streams.{refused};
ghost use Rattle.minijinja_syntax.specs.declared.error.ErrorKind.TheVariants.{OutOfMemory};
ghost use Rattle.minijinja_grammar.specs.internal.Forms.{start_at};
ghost use Rattle.minijinja_parser_tokens.specs.private.Refused.{Refused, ended_at};
ghost use Rattle.minijinja_grammar.specs.internal.ExprForms.{expanded};
ghost use Rattle.minijinja_parser_tokens.specs.TokenStreams.{AnswersAhead, Comes, IsNamedUnder, Shows, StandsBetweenChars, last_after, no_place, stream_at};

use minijinja_lexer::lexer::Tokenizer;
use minijinja_syntax::error::{Error, ErrorKind, OpenStatement};
use minijinja_syntax::syntax::SyntaxConfig;
use minijinja_syntax::tokens::{Span, Token};
use std::alloc::Global;
use std::collections::BTreeSet;
use std::marker::Model;
use std::mem;
use std::ops::Range;

/// The tokens of a text. The next one can be looked at before it is taken.
#[derive(Drop)]
pub struct TokenStream<'s, 'c> {
    pub(crate) tokenizer: Tokenizer<'s, 'c>,
    pub(crate) current: Result<Option<(Token<'s>, Span)>, Error<'s>>,
    pub(crate) last_span: Span,
    /// The names of the blocks so far.
    pub(crate) names: BTreeSet<&'s str>,
    /// The statement in whose body a word was wanted last, for the words of refusals.
    pub(crate) open: Option<OpenStatement>,
}

impl<'s, 'c> Model for TokenStream<'s, 'c> {
    ghost use Rattle.minijinja_parser_tokens.specs.TokenStreams.{Streaming};

    ghost Value = { Streaming };

    ghost use Rattle.minijinja_parser_tokens.specs.private.AtTokenStream.{streaming, IsStream};

    ghost view = { streaming };

    ghost invariant = { IsStream };
}

impl<'s, 'c> TokenStream<'s, 'c> {
    /// The tokens of a template, or of one expression if `in_expr` is set. The source has fewer
    /// than 2^32 bytes. Errors name it `filename`.
    pub fn new(
        alloc: Global,
        source: &'s str,
        filename: &'s str,
        in_expr: bool,
        syntax: &'c SyntaxConfig,
    ) -> Self
        requires { length source.now < 2 ^ 32 }
        ensures filename { result.filename ≡ filename.now }
        ensures source { result.place.source ≡ text_of syntax.now source.now }
        ensures stream { Comes (if in_expr then tokens_of_expression syntax.now source.now else
            tokens_of_template syntax.now source.now) (stream_at result.place) }
        ensures last { result.place.last ≡ no_place }
        ensures names { result.place.names ≡ [] }
    {
        let tokenizer = Tokenizer::new(alloc, source, filename, in_expr, syntax);
        TokenStream::of_tokenizer(alloc, tokenizer, Span::default())
    }

    /// The tokens of one expression, which takes the bytes of `range` in a larger file of fewer
    /// than 2^32 bytes; they are those of [`Tokenizer::expression_in`]. Before the first is taken,
    /// the last one taken is an empty one where the range begins. Errors name the file `filename`.
    pub fn expression_in(
        alloc: Global,
        file: &'s str,
        range: Range<usize>,
        filename: &'s str,
        syntax: &'c SyntaxConfig,
    ) -> Self
        requires short { length file.now < 2 ^ 32 }
        requires ordered { range.start ≤ range.end }
        requires start { IsCharBoundary file.now range.start }
        requires end { IsCharBoundary file.now range.end }
        ensures filename { result.filename ≡ filename.now }
        ensures source { result.place.source ≡ take range.end file.now }
        ensures stream { Comes
            (tokens_of_expression_at syntax.now (take range.end file.now) range.start)
            (stream_at result.place) }
        ensures last { result.place.last ≡
            span_at (take range.end file.now) range.start range.start }
        ensures names { result.place.names ≡ [] }
    {
        let (tokenizer, begin) = Tokenizer::expression_in(alloc, file, range, filename, syntax);
        TokenStream::of_tokenizer(alloc, tokenizer, begin)
    }

    /// The tokens that a tokenizer has yet to return, after one that stands at `last_span`.
    fn of_tokenizer(alloc: Global, mut tokenizer: Tokenizer<'s, 'c>, last_span: Span) -> Self
        ensures filename { result.filename ≡ tokenizer.entry.filename }
        ensures source { result.place.source ≡ tokenizer.entry.source }
        ensures stream { Comes tokenizer.entry.stream (stream_at result.place) }
        ensures last { result.place.last ≡ last_span }
        ensures names { result.place.names ≡ [] }
    {
        let current = tokenizer.next_token();
        TokenStream {
            tokenizer,
            current,
            last_span,
            names: BTreeSet::new(alloc),
            open: None,
        }
    }

    /// Takes and returns the next token: `None` at the end and from then on. After a refusal it
    /// returns that refusal again.
    /// Errors: those of [`Tokenizer::next_token`].
    pub fn next(&mut self) -> Result<Option<(Token<'s>, Span)>, Error<'s>>
        ensures answers { AnswersAhead (stream_at self.old.place) result (stream_at self.new.place) }
        ensures between { StandsBetweenChars self.old.place.source result }
        ensures cause { IfErr result (λ e. IsTokenizerKind (kind_of e)) }
        ensures memory { IfErr result (λ e. kind_of e ≡ OutOfMemory → IsOutOfMemory e) }
        // A refusal has the name that the stream was made with, unless memory was refused.
        ensures named { IsNamedUnder self.old.filename result }
        ensures filename { self.new.filename ≡ self.old.filename }
        ensures last { self.new.place.last ≡ last_after result self.old.place.last }
        ensures source { self.new.place.source ≡ self.old.place.source }
        ensures names { self.new.place.names ≡ self.old.place.names }
    {
        if let Err(error) = &self.current {
            return Err(*error);
        }
        let following = self.tokenizer.next_token();
        let taken = mem::replace(&mut self.current, following);
        if let Ok(Some((_, span))) = &taken {
            self.last_span = *span;
        }
        taken
    }

    /// What [`TokenStream::next`] would return.
    pub fn current(&self) -> Result<Option<(&Token<'s>, Span)>, Error<'s>>
        ensures shows { Shows (stream_at self.now.place) result }
        ensures cause { IfErr result (λ e. IsTokenizerKind (kind_of e)) }
        ensures memory { IfErr result (λ e. kind_of e ≡ OutOfMemory → IsOutOfMemory e) }
        ensures named { IsNamedUnder self.now.filename result }
    {
        match &self.current {
            Ok(Some((token, span))) => Ok(Some((token, *span))),
            Ok(None) => Ok(None),
            Err(error) => Err(*error),
        }
    }

    /// The source, without what is stripped at its end.
    pub fn source(&self) -> &'s str
        ensures { result.now ≡ self.now.place.source }
    {
        self.tokenizer.source()
    }

    /// Where the last token taken stands: zeros before any, and in a larger file where the range of
    /// the expression begins.
    pub fn last_span(&self) -> Span
        ensures { result ≡ self.now.place.last }
    {
        self.last_span
    }

    /// Where the next token stands, or the last one if none comes.
    pub fn current_span(&self) -> Span
        ensures { result ≡ start_at self.now.place }
    {
        match &self.current {
            Ok(Some((_, span))) => *span,
            _ => self.last_span,
        }
    }

    /// The span from the start of this one to the end of the last token taken.
    pub fn expand_span(&self, span: Span) -> Span
        ensures { result ≡ expanded span self.now.place.last }
    {
        span.to(self.last_span)
    }
}

/// The statement in whose body the first word of a statement, or the word that ends a body, was
/// wanted last.
pub fn open_statement(tokens: &TokenStream<'_, '_>) -> Option<OpenStatement> {
    tokens.open
}

/// The refusal of the tokenizer, if it comes next.
pub fn tokenizer_refusal<'s>(tokens: &TokenStream<'s, '_>) -> Option<Error<'s>>
    ensures stands { Refused tokens.now.place result }
    ensures cause { IfSome result (λ e. IsTokenizerKind (kind_of e)) }
    ensures memory { IfSome result (λ e. kind_of e ≡ OutOfMemory → IsOutOfMemory e) }
{
    match &tokens.current {
        Err(error) => Some(*error),
        _ => None,
    }
}

/// Drops the tokens that are left. From now on this refusal is what comes, under the name of the
/// source.
pub fn set_refusal<'s>(tokens: &mut TokenStream<'s, '_>, error: Error<'s>)
    requires cause { IsTokenizerKind (kind_of error) }
    requires memory { kind_of error ≡ OutOfMemory → IsOutOfMemory error }
    ensures { tokens.new.place ≡ ended_at tokens.old.place
        (refused (kind_of error.entry) (span_of error.entry)) }
{
    tokens.current = Err(named(error, tokens.tokenizer.filename()));
}

/// The refusal with the name of its source, unless memory was refused.
pub fn named<'s>(refusal: Error<'s>, filename: &'s str) -> Error<'s>
    requires { kind_of refusal ≡ OutOfMemory → IsOutOfMemory refusal }
    ensures kind { kind_of result ≡ kind_of refusal.entry }
    ensures span { span_of result ≡ span_of refusal.entry }
    ensures named { kind_of result ≢ OutOfMemory → IsNamed filename.now result }
    ensures memory { kind_of result ≡ OutOfMemory → IsOutOfMemory result }
{
    if refusal.kind() == ErrorKind::OutOfMemory {
        return refusal;
    }
    Error::new(
        refusal.kind(),
        refusal.detail(),
        Some(filename),
        refusal.span(),
    )
}
