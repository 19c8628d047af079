//! Laws of the definitions of cuts, expressions and tokens.
ghost use Rattle.std.specs.Prelude.{◌≡◌, ℕ, false, List, ◌++◌, length, map, min, take};
ghost use Rattle.std.specs.Str.{IsUtf8, IsCharBoundary};
ghost use Rattle.minijinja_syntax.specs.Positions.{column_after};
ghost use Rattle.minijinja_syntax.specs.Texts.{Text};
ghost use Rattle.minijinja_syntax.specs.Syntax.{Syntax, IsBuildable};
ghost use Rattle.minijinja_lexer.specs.Columns.{chars_since_newline};
ghost use Rattle.minijinja_lexer.specs.Cut.{Inner, Segment, inner_at, cut_at};
ghost use Rattle.minijinja_lexer.specs.Relation.{IsCut, IsExpression};
ghost use Rattle.minijinja_lexer.specs.Slices.{AreSlices, AreCutSlices, AreInOrder};
ghost use Rattle.minijinja_lexer.specs.Standing.{refusal_behind, token_behind};
ghost use Rattle.minijinja_lexer.specs.TokenAt.{is_behind_dot};
ghost use Rattle.minijinja_lexer.specs.TextTokens.{text_of, tokens_of_template, tokens_of_expression, tokens_of_expression_at};
ghost use Rattle.minijinja_lexer.specs.Tags.{Variable};

/// A text has one cut.
pub fn one_cut()
    ensures { (s : Syntax) (text : Text) (gs hs : List Segment) → IsBuildable s → IsCut s text 0 gs
        → IsCut s text 0 hs → gs ≡ hs }
{}

/// The computed cut is one.
pub fn some_cut()
    ensures { (s : Syntax) (text : Text) → IsBuildable s → IsCut s text 0 (cut_at s text 0) }
{}

/// A text has one reading as an expression.
pub fn one_expression()
    ensures { (s : Syntax) (text : Text) (i j : Inner) → IsBuildable s → IsExpression s text i →
        IsExpression s text j → i ≡ j }
{}

/// The computed reading is one.
pub fn some_expression()
    ensures { (s : Syntax) (text : Text) → IsExpression s text (inner_at s text Variable 0 0 0) }
{}

/// The text of a token is the slice of the text at its span, or a part of that for a raw block. The
/// span's lines and columns are those of its offsets.
pub fn are_slices()
    ensures template { (s : Syntax) (source : Text) → AreCutSlices s (text_of s source)
        (cut_at s (text_of s source) 0) (tokens_of_template s source).tokens }
    ensures expression { (s : Syntax) (source : Text) → AreSlices (text_of s source)
        (tokens_of_expression s source).tokens }
    ensures expression_at { (s : Syntax) (text : Text) (at : ℕ) → AreSlices text
        (tokens_of_expression_at s text at).tokens }
{}

/// Spans are in order and do not overlap. Those of an expression in a larger text begin at its
/// place or after it.
pub fn are_in_order()
    ensures template { (s : Syntax) (source : Text) → IsBuildable s → AreInOrder 0
        (tokens_of_template s source).tokens }
    ensures expression { (s : Syntax) (source : Text) → IsBuildable s → AreInOrder 0
        (tokens_of_expression s source).tokens }
    ensures expression_at { (s : Syntax) (text : Text) (at : ℕ) → IsBuildable s → AreInOrder at
        (tokens_of_expression_at s text at).tokens }
{}

/// A column counts the characters since the last newline, and stops at 65535.
pub fn columns_count_chars()
    ensures { (text : Text) (at : ℕ) → IsUtf8 text → IsCharBoundary text at → column_after
        (take at text) ≡ min 65535 (chars_since_newline (take at text)) }
{}

/// An expression at the end of a larger text has the tokens that it has by itself, as many bytes
/// further on as stand before it, in the lines and columns of the larger text. If it is refused by
/// itself, it is refused there as many bytes further on. The exception is an expression right after
/// a dot, which counts for a number at its front.
pub fn expressions_stand_anywhere()
    ensures tokens { (s : Syntax) (front text : Text) → is_behind_dot (front ++ text) (length front)
        ≡ false → (tokens_of_expression_at s (front ++ text) (length front)).tokens
        ≡ map (token_behind front text) (tokens_of_expression_at s text 0).tokens }
    ensures ending { (s : Syntax) (front text : Text) → is_behind_dot (front ++ text) (length front)
        ≡ false → refusal_behind 0 (tokens_of_expression_at s (front ++ text) (length front)).ending
        ≡ refusal_behind (length front) (tokens_of_expression_at s text 0).ending }
{}
