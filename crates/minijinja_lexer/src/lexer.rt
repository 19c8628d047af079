//! The public tokenizer. A clause sees the tokens to come.
ghost use Rattle.std.specs.Prelude.{◌≡◌, ◌≢◌, ◌<◌, ◌≤◌, ◌^◌, length, take, IfErr, IfOk, IfSome, Ok, Some, if◌then◌else◌};
ghost use Rattle.std.specs.Str.{IsCharBoundary};
ghost use Rattle.minijinja_syntax.specs.Errors.{IsOutOfMemory, kind_of};
ghost use Rattle.minijinja_syntax.specs.Positions.{span_at};
ghost use Rattle.minijinja_syntax.specs.Tokens.{tok_of};
ghost use Rattle.minijinja_syntax.specs.declared.error.ErrorKind.TheVariants.{OutOfMemory};
ghost use Rattle.minijinja_lexer.specs.Slices.{IsBetweenChars, IsTokenText};
ghost use Rattle.minijinja_lexer.specs.Stream.{Answers, IsNamed, IsTokenizerKind};
ghost use Rattle.minijinja_lexer.specs.private.EndBytes.{AreEndBytes};
ghost use Rattle.minijinja_lexer.specs.private.States.{StateFits, Steps, Takes, stream_from};
ghost use Rattle.minijinja_lexer.specs.TextTokens.{text_of, tokens_of_template, tokens_of_expression, tokens_of_expression_at};

use crate::cursor::Cursor;
use crate::fault::{finish, refuse, refuse_for_memory};
use crate::inside::step_inside;
use crate::outside::step_outside;
use crate::source::text_of;
use crate::step::{State, Step};
use crate::tag_part::{EndBytes, Tag, end_bytes};
use minijinja_syntax::error::Error;
pub use minijinja_syntax::syntax::StartMarker;
use minijinja_syntax::syntax::SyntaxConfig;
use minijinja_syntax::tokens::{Span, Token};
use std::alloc::Global;
use std::marker::Model;
use std::ops::Range;

/// The next step from a state.
fn next_step<'s>(
    alloc: Global,
    syntax: &SyntaxConfig,
    ends: EndBytes,
    cursor: &mut Cursor<'s>,
    state: &mut State,
) -> Step<'s>
    requires ends { AreEndBytes syntax.now ends }
    requires state { StateFits cursor.old state.old }
    ensures text { cursor.new.text ≡ cursor.old.text }
    ensures steps { Steps syntax.now (stream_from syntax.now cursor.old state.old) state.new result
        cursor.new }
    ensures takes { Takes syntax.now cursor.old.text result }
{
    match *state {
        State::Outside => step_outside(syntax, cursor, state),
        State::Inside {
            tag,
            opened,
            shut,
            whole,
        } => step_inside(alloc, syntax, ends, cursor, state, tag, opened, shut, whole),
        State::Over => Step::Over,
        State::Failed(fault, span) => Step::Failed(fault, span),
        State::NoMemory => Step::NoMemory,
    }
}

/// Sets the result to a token. Mostly it was a token before, and then only that is written.
#[inline(always)]
fn give<'s>(answer: &mut Result<Option<(Token<'s>, Span)>, Error<'s>>, token: Token<'s>, span: Span)
    ensures { answer.new ≡ Ok (Some (token.entry, span)) }
{
    match answer {
        Ok(Some(slot)) => *slot = (token, span),
        _ => *answer = Ok(Some((token, span))),
    }
}

/// Cuts a text into tokens that borrow from it.
#[derive(Drop)]
pub struct Tokenizer<'s, 'c> {
    filename: &'s str,
    cursor: Cursor<'s>,
    state: State,
    syntax: &'c SyntaxConfig,
    /// Those of `syntax`.
    ends: EndBytes,
    alloc: Global,
}

impl<'s, 'c> Model for Tokenizer<'s, 'c> {
    ghost use Rattle.minijinja_lexer.specs.Stream.{Lexing};

    ghost Value = { Lexing };

    ghost use Rattle.minijinja_lexer.specs.private.AtTokenizer.{tokenizer_view, IsTokenizer};

    ghost view = { tokenizer_view };

    ghost invariant = { IsTokenizer };
}

impl<'s, 'c> Tokenizer<'s, 'c> {
    /// A tokenizer of a template, or of one expression. It keeps the allocator for tokens that need
    /// memory.
    #[tactic(auto, unfolding(crate::specs::TextTokens::tokens_of_template, crate::specs::TextTokens::tokens_of_expression, crate::specs::TextTokens::tokens_of_expression_at))]
    pub fn new(
        alloc: Global,
        input: &'s str,
        filename: &'s str,
        in_expr: bool,
        syntax: &'c SyntaxConfig,
    ) -> Self
        requires { length input.now < 2 ^ 32 }
        ensures syntax { result.syntax ≡ syntax.now }
        ensures filename { result.filename ≡ filename.now }
        ensures source { result.source ≡ text_of syntax.now input.now }
        ensures stream { result.stream ≡ (if in_expr then tokens_of_expression syntax.now input.now
            else tokens_of_template syntax.now input.now) }
    {
        let state = if in_expr {
            State::Inside {
                tag: Tag::Variable,
                opened: 0,
                shut: 0,
                whole: true,
            }
        } else {
            State::Outside
        };
        Tokenizer {
            filename,
            cursor: Cursor::new(text_of(syntax, input)),
            state,
            syntax,
            ends: end_bytes(syntax),
            alloc,
        }
    }

    /// A tokenizer of one expression, which takes the bytes of `range` in a larger file, and where
    /// it begins, as an empty span. Spans are places in the file, and nothing is stripped from the
    /// end of the expression. The lines before it are counted, which takes time in proportion to
    /// what stands there.
    ///
    /// With the range `7..15` of `port = base + 1`, for instance, the tokens are those of
    /// `base + 1`, and the first stands in columns 7 to 11. A dot that stands right before `range`
    /// counts as one before a number.
    #[tactic(auto, unfolding(crate::specs::TextTokens::tokens_of_expression_at))]
    pub fn expression_in(
        alloc: Global,
        file: &'s str,
        range: Range<usize>,
        filename: &'s str,
        syntax: &'c SyntaxConfig,
    ) -> (Self, Span)
        requires short { length file.now < 2 ^ 32 }
        requires ordered { range.start ≤ range.end }
        requires start { IsCharBoundary file.now range.start }
        requires end { IsCharBoundary file.now range.end }
        ensures syntax { result.0.syntax ≡ syntax.now }
        ensures filename { result.0.filename ≡ filename.now }
        ensures source { result.0.source ≡ take range.end file.now }
        ensures stream { result.0.stream ≡
            tokens_of_expression_at syntax.now (take range.end file.now) range.start }
        ensures begin { result.1 ≡ span_at (take range.end file.now) range.start range.start }
    {
        let mut cursor = Cursor::new(&file[..range.end]);
        let begin = cursor.span(range.start, range.start);
        let tokenizer = Tokenizer {
            filename,
            cursor,
            state: State::Inside {
                tag: Tag::Variable,
                opened: 0,
                shut: 0,
                whole: true,
            },
            syntax,
            ends: end_bytes(syntax),
            alloc,
        };
        (tokenizer, begin)
    }

    /// The name of the source.
    pub fn filename(&self) -> &'s str
        ensures { result.now ≡ self.now.filename }
    {
        self.filename
    }

    /// The text: the source after its end was stripped.
    pub fn source(&self) -> &'s str
        ensures { result.now ≡ self.now.source }
    {
        self.cursor.text()
    }

    /// The next token and its span, `None` at the end, or a refusal. After the end or a refusal
    /// each call returns that again. A decoded string and an integer from 2^64 on need memory:
    /// where it is refused, that is the refusal.
    pub fn next_token(&mut self) -> Result<Option<(Token<'s>, Span)>, Error<'s>>
        ensures answers { Answers self.old.stream result self.new.stream }
        // The text may be cut where a token begins and where it ends.
        ensures between { IfOk result
            (λ token. IfSome token (λ t. IsBetweenChars self.old.source t.1)) }
        // A name, a string without escapes and data outside of raw blocks is the slice at the span.
        ensures text { IfOk result (λ token. IfSome token
            (λ t. IsTokenText self.old.syntax self.old.source (tok_of t.0) t.1)) }
        ensures cause { IfErr result (λ e. IsTokenizerKind (kind_of e)) }
        ensures memory { IfErr result (λ e. kind_of e ≡ OutOfMemory → IsOutOfMemory e) }
        ensures named { IfErr result (λ e. kind_of e ≢ OutOfMemory → IsNamed self.old.filename e) }
        ensures syntax { self.new.syntax ≡ self.old.syntax }
        ensures filename { self.new.filename ≡ self.old.filename }
        ensures source { self.new.source ≡ self.old.source }
    {
        let mut answer = Ok(None);
        self.next_token_into(&mut answer);
        answer
    }

    /// Like [`Tokenizer::next_token`], but the result is made in place of `answer`, whose old value
    /// is dropped. So a token is not copied.
    pub fn next_token_into(&mut self, answer: &mut Result<Option<(Token<'s>, Span)>, Error<'s>>)
        ensures answers { Answers self.old.stream answer.new self.new.stream }
        ensures between { IfOk answer.new
            (λ token. IfSome token (λ t. IsBetweenChars self.old.source t.1)) }
        ensures text { IfOk answer.new (λ token. IfSome token
            (λ t. IsTokenText self.old.syntax self.old.source (tok_of t.0) t.1)) }
        ensures cause { IfErr answer.new (λ e. IsTokenizerKind (kind_of e)) }
        ensures memory { IfErr answer.new (λ e. kind_of e ≡ OutOfMemory → IsOutOfMemory e) }
        ensures named { IfErr answer.new
            (λ e. kind_of e ≢ OutOfMemory → IsNamed self.old.filename e) }
        ensures syntax { self.new.syntax ≡ self.old.syntax }
        ensures filename { self.new.filename ≡ self.old.filename }
        ensures source { self.new.source ≡ self.old.source }
    {
        let step = next_step(
            self.alloc,
            self.syntax,
            self.ends,
            &mut self.cursor,
            &mut self.state,
        );
        match step {
            Step::Token(token, span) => give(answer, token, span),
            Step::Over => finish(&mut self.state, answer),
            Step::Failed(fault, span) => {
                refuse(fault, self.filename, span, &mut self.state, answer);
            }
            Step::NoMemory => refuse_for_memory(&mut self.state, answer),
        }
    }
}
