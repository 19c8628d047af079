//! How rules look at the next token and take it.
//!
//! Looking cannot fail: at a refusal of the tokenizer there is no next token, and taking one
//! returns that none is left.
ghost use Rattle.std.specs.Prelude.{◌≡◌, ◌≢◌, IfOk, Some};
ghost use Rattle.std.specs.Bool.{OnTrue};
ghost use Rattle.std.specs.Option.{option_map};
ghost use Rattle.minijinja_syntax.specs.Streams.{spanned_tok};
ghost use Rattle.minijinja_syntax.specs.Tokens.{Tok, tok_of};
ghost use Rattle.minijinja_lexer.specs.Slices.{IsBetweenChars};
ghost use Rattle.minijinja_lexer.specs.Stream.{out_of_memory};
ghost use Rattle.minijinja_tree.specs.Erasure.{compare_op};
ghost use Rattle.minijinja_grammar.specs.Places.{Place};
ghost use Rattle.minijinja_grammar.specs.Ahead.{comes};
ghost use Rattle.minijinja_grammar.specs.internal.Forms.{one, reads, start_at};
ghost use Rattle.minijinja_grammar.specs.internal.ExprForms.{expanded, ident_and_span, next};
ghost use Rattle.minijinja_grammar.specs.Words.{is};
ghost use Rattle.minijinja_parser_tokens.specs.internal.Forms.{new_ident_and_span};
ghost use Rattle.minijinja_parser_tokens.specs.internal.Levels.{compare_op_at, next_compare, next_operator};
ghost use Rattle.minijinja_parser_tokens.specs.internal.Marks.{begins, keyword_view, mark_tok};
ghost use Rattle.minijinja_parser_tokens.specs.internal.Reads.{Misfits, Reads, eaten, next_ident, next_int, next_str, skipped};
ghost use Rattle.minijinja_parser_tokens.specs.TokenStreams.{stream_at};
ghost use Rattle.minijinja_grammar.specs.internal.StmtForms.{keyword_and_span};

use crate::marks::{Mark, Part, begins_part, compare_operator, is_mark};
use crate::operators::{Level, Operator, operator_of};
use crate::refusal::{Refusal, Wanted};
use crate::token_stream::TokenStream;
use crate::words::{Keyword, keyword_of};
use minijinja_syntax::error::{ErrorKind, Expected, OpenStatement};
use minijinja_syntax::tokens::{Span, Token};
use minijinja_tree::ast::CompareOpKind;
use std::mem;

/// Tokens to read.
pub trait Tokens {
    /// A token that was taken.
    type Token: Drop;

    // The tokens that are left, and a token, as the grammar has them.
    ghost place: { Self → Place };

    ghost tok: { Self.Token → Tok };

    /// Where the next token stands, or the last one if none comes.
    fn current_span(&self) -> Span
        ensures { result ≡ start_at (place self.now) };

    /// Where the last token taken stands: zeros before any.
    fn last_span(&self) -> Span
        ensures { result ≡ (place self.now).last };

    /// The span from its start to the end of the last token taken.
    fn expand_span(&self, span: Span) -> Span
        ensures { result ≡ expanded span (place self.now).last };

    /// Whether the next token is this one.
    fn at(&self, mark: Mark) -> bool
        ensures { result ≡ comes (is (mark_tok mark)) (place self.now).tokens };

    /// Whether the next token begins the part.
    fn begins(&self, part: Part) -> bool
        ensures { result ≡ comes (begins part) (place self.now).tokens };

    /// The operator that the next token is or begins, if it is of this level or a tighter one.
    fn operator(&self, level: Level) -> Option<Operator>
        ensures { result ≡ next_operator level (place self.now).tokens };

    /// The refusal of what comes: no token is left, or the next one does not fit.
    fn misfit(&self, wanted: Wanted) -> Refusal
        ensures { Misfits (place self.now) result };

    /// Takes the next token, which a refusal calls `wanted`.
    fn take(&mut self, wanted: Wanted) -> Result<(Self::Token, Span), Refusal>
        ensures { Reads (λ t. (tok t.0, t.1)) (reads (one Some) (place self.old)) result
            (place self.new) };

    /// Takes the next token, which a refusal calls `wanted`, and returns where it stands.
    fn skip(&mut self, wanted: Wanted) -> Result<Span, Refusal>
        ensures { Reads (λ s. s) (skipped (place self.old)) result (place self.new) };

    /// Takes the next token, which has to be this one.
    fn expect(&mut self, mark: Mark) -> Result<Span, Refusal>
        ensures { Reads (λ s. s) (reads (next (mark_tok mark)) (place self.old)) result
            (place self.new) };

    /// Takes the next token if it is this one, and returns whether it was.
    fn eat(&mut self, mark: Mark) -> Result<bool, Refusal>
        ensures { Reads (λ b. b) (eaten (mark_tok mark) (place self.old)) result (place self.new) };

    /// Takes the next token, which has to be the word that ends a body. The statement that is open
    /// is for the words of a refusal.
    fn end_word(&mut self, word: Mark, open: Option<OpenStatement>) -> Result<Span, Refusal>
        ensures { Reads (λ s. s) (reads (next (mark_tok word)) (place self.old)) result
            (place self.new) };

    /// Takes the next token, which has to be the first word of a statement. The statement that is
    /// open is for the words of a refusal.
    fn keyword(&mut self, open: Option<OpenStatement>) -> Result<(Keyword, Span), Refusal>
        ensures { Reads (λ k. (keyword_view k.0, k.1)) (reads (one keyword_and_span)
            (place self.old)) result (place self.new) };

    /// Takes the operator of a comparison, of one token or two.
    fn compare_operator(&mut self) -> Result<CompareOpKind, Refusal>
        ensures { Reads compare_op (compare_op_at (place self.old)) result (place self.new) };
}

impl<'s, 'c> TokenStream<'s, 'c> {
    /// Whether the tokenizer did not run out of memory for the next token.
    fn is_ready(&self) -> bool
        ensures { OnTrue result (stream_at self.now.place ≢ out_of_memory) }
    {
        match &self.current {
            Err(error) => error.kind() != ErrorKind::OutOfMemory,
            _ => true,
        }
    }

    /// The comparison that the next token is, if it is one by itself.
    fn comparison_in_view(&self) -> Option<CompareOpKind>
        ensures { option_map compare_op result ≡ next_compare self.now.place.tokens }
    {
        match &self.current {
            Ok(Some((token, _))) => compare_operator(token),
            _ => None,
        }
    }

    /// The next token, if it is an identifier.
    pub fn ident_in_view(&self) -> Option<&'s str>
        ensures { option_map (λ x. x.now) result ≡ next_ident self.now.place.tokens }
    {
        match &self.current {
            Ok(Some((Token::Ident(name), _))) => Some(name),
            _ => None,
        }
    }

    /// The next token, if it is a string without escapes.
    pub fn str_in_view(&self) -> Option<&'s str>
        ensures { option_map (λ x. x.now) result ≡ next_str self.now.place.tokens }
    {
        match &self.current {
            Ok(Some((Token::Str(text), _))) => Some(text),
            _ => None,
        }
    }

    /// The next token, if it is a number of at most 64 bits.
    pub fn int_in_view(&self) -> Option<u64>
        ensures { result ≡ next_int self.now.place.tokens }
    {
        match &self.current {
            Ok(Some((Token::Int(value), _))) => Some(*value),
            _ => None,
        }
    }
}

impl<'s, 'c> Tokens for TokenStream<'s, 'c> {
    type Token = Token<'s>;

    ghost place = { λ s. s.place };

    ghost tok = { tok_of };

    fn current_span(&self) -> Span {
        TokenStream::current_span(self)
    }

    fn last_span(&self) -> Span {
        TokenStream::last_span(self)
    }

    fn expand_span(&self, span: Span) -> Span {
        TokenStream::expand_span(self, span)
    }

    fn at(&self, mark: Mark) -> bool {
        match &self.current {
            Ok(Some((token, _))) => is_mark(token, mark),
            _ => false,
        }
    }

    fn begins(&self, part: Part) -> bool {
        match &self.current {
            Ok(Some((token, _))) => begins_part(token, part),
            _ => false,
        }
    }

    fn operator(&self, level: Level) -> Option<Operator> {
        let Ok(Some((token, _))) = &self.current else {
            return None;
        };
        let operator = operator_of(token)?;
        if operator.level().rank() < level.rank() {
            return None;
        }
        Some(operator)
    }

    #[tactic(auto, unfolding(minijinja_grammar::specs::internal::Forms::reads))]
    fn misfit(&self, wanted: Wanted) -> Refusal {
        match &self.current {
            Ok(Some(_)) => Refusal::Wrong(wanted),
            _ => Refusal::Ended(wanted),
        }
    }

    /// Fails at once if memory is refused for the token after the one that is taken.
    #[tactic(auto, unfolding(minijinja_grammar::specs::internal::Forms::reads))]
    #[inline(always)]
    fn take(&mut self, wanted: Wanted) -> Result<(Token<'s>, Span), Refusal>
        ensures read { Reads spanned_tok (reads (one Some) self.old.place) result self.new.place }
        ensures between { IfOk result (λ t. IsBetweenChars self.old.place.source t.1) }
    {
        let Ok(Some((_, span))) = &self.current else {
            return Err(Refusal::Ended(wanted));
        };
        self.last_span = *span;
        let Ok(Some(taken)) = mem::replace(&mut self.current, Ok(None)) else {
            return Err(Refusal::Ended(wanted));
        };
        self.tokenizer.next_token_into(&mut self.current);
        if !self.is_ready() {
            return Err(Refusal::OutOfMemory);
        }
        Ok(taken)
    }

    /// Fails at once if memory is refused for the token after the one that is taken, as `take`
    /// does.
    #[tactic(auto, unfolding(minijinja_grammar::specs::internal::Forms::reads))]
    #[inline(always)]
    fn skip(&mut self, wanted: Wanted) -> Result<Span, Refusal>
        ensures read { Reads (λ s. s) (skipped self.old.place) result self.new.place }
        ensures between { IfOk result (λ s. IsBetweenChars self.old.place.source s) }
    {
        let Ok(Some((_, span))) = &self.current else {
            return Err(Refusal::Ended(wanted));
        };
        self.last_span = *span;
        self.tokenizer.next_token_into(&mut self.current);
        if !self.is_ready() {
            return Err(Refusal::OutOfMemory);
        }
        Ok(self.last_span)
    }

    #[tactic(auto, using(crate::proofs::Taking::next_is))]
    #[inline(always)]
    fn expect(&mut self, mark: Mark) -> Result<Span, Refusal> {
        let fits = self.at(mark);
        let span = self.skip(Wanted::Mark(mark))?;
        if !fits {
            return Err(Refusal::Wrong(Wanted::Mark(mark)));
        }
        Ok(span)
    }

    #[tactic(auto, using(crate::proofs::Taking::eaten_is))]
    fn eat(&mut self, mark: Mark) -> Result<bool, Refusal> {
        if !self.at(mark) {
            return Ok(false);
        }
        self.skip(Wanted::Mark(mark))?;
        Ok(true)
    }

    fn end_word(&mut self, word: Mark, open: Option<OpenStatement>) -> Result<Span, Refusal> {
        self.open = open;
        self.expect(word)
    }

    #[tactic(auto, using(crate::proofs::Taking::keyword_is))]
    fn keyword(&mut self, open: Option<OpenStatement>) -> Result<(Keyword, Span), Refusal> {
        self.open = open;
        let (word, span) = ident(self, Wanted::Part(Expected::BlockKeyword))?;
        match keyword_of(word) {
            Some(keyword) => Ok((keyword, span)),
            None => Err(Refusal::Wrong(Wanted::Statement)),
        }
    }

    #[tactic(auto, using(crate::proofs::Comparisons::compare_op_is))]
    fn compare_operator(&mut self) -> Result<CompareOpKind, Refusal> {
        let comparison = self.comparison_in_view();
        let negated = self.at(Mark::Not);
        self.skip(Wanted::Mark(Mark::In))?;
        if let Some(op) = comparison {
            return Ok(op);
        }
        if !negated {
            return Err(Refusal::Wrong(Wanted::Mark(Mark::In)));
        }
        self.expect(Mark::In)?;
        Ok(CompareOpKind::NotIn)
    }
}

/// Takes an identifier, which a refusal calls `wanted`.
#[tactic(auto, using(crate::proofs::Taking::ident_is))]
pub fn ident<'s>(
    tokens: &mut TokenStream<'s, '_>,
    wanted: Wanted,
) -> Result<(&'s str, Span), Refusal>
    ensures read { Reads (λ t. (t.0.now, t.1)) (reads (one ident_and_span) tokens.old.place) result
        tokens.new.place }
    ensures between { IfOk result (λ t. IsBetweenChars tokens.old.place.source t.1) }
{
    let name = tokens.ident_in_view();
    let span = tokens.skip(wanted)?;
    match name {
        Some(name) => Ok((name, span)),
        None => Err(Refusal::Wrong(wanted)),
    }
}

/// Takes an identifier, which a refusal calls `wanted`, as the name of a block, which no block
/// before has.
#[tactic(auto, using(crate::proofs::Naming::new_ident_is))]
pub fn new_ident<'s>(
    tokens: &mut TokenStream<'s, '_>,
    wanted: Wanted,
) -> Result<(&'s str, Span), Refusal>
    ensures { Reads (λ t. (t.0.now, t.1)) (reads new_ident_and_span tokens.old.place) result
        tokens.new.place }
{
    let (name, span) = ident(tokens, wanted)?;
    if !tokens.names.insert(name)? {
        return Err(tokens.misfit(Wanted::NewName));
    }
    Ok((name, span))
}
