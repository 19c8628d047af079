//! The nodes that the rules of expressions make. The rules are generic over the type that holds the
//! tokens and over the types of the tree.
ghost use Rattle.std.specs.Prelude.{◌≡◌, IfOk};
ghost use Rattle.std.specs.Option.{option_map};
ghost use Rattle.minijinja_syntax.specs.Texts.{Text};
ghost use Rattle.minijinja_value.specs.Values.{Functions};
ghost use Rattle.minijinja_tree.specs.CompareOps.{CompareOp};
ghost use Rattle.minijinja_tree.specs.Erasure.{compare_op};
ghost use Rattle.minijinja_tree.specs.SpannedTrees.{Arg, Expr};
ghost use Rattle.minijinja_grammar.specs.internal.Forms.{nothing};
ghost use Rattle.minijinja_grammar.specs.internal.ExprForms as form;
ghost use Rattle.minijinja_grammar.specs.internal.ExprForms.{name_of_variable};
ghost use Rattle.minijinja_parser_expr.specs.private.Made.{argument_of, node_tree};
ghost use Rattle.minijinja_parser_expr.specs.private.Nests.{Parses};
ghost use Rattle.minijinja_parser_expr.specs.private.Primaries as primaries;

use minijinja_parser_tokens::refusal::Refusal;
use minijinja_parser_tokens::tokens::Tokens;
use minijinja_syntax::tokens::Span;
use minijinja_tree::ast::{BinOpKind, CompareOpKind, UnaryOpKind};
use std::alloc::{AllocError, Global};

/// An argument of a call, a filter or a test, as it is read.
#[derive(Drop)]
pub enum Argument<N, E> {
    /// `expr`
    Positional(E),
    /// `name=expr`
    Keyword(N, E),
    /// `*expr`
    Starred(E),
    /// `**expr`
    DoubleStarred(E),
}

/// The parts of a node, over names, expressions, arguments and comparisons.
#[derive(Drop)]
pub enum Node<N, E, A, K> {
    /// An expression and its subscript.
    Item(E, E),
    /// An expression, and start, stop and step.
    Slice(E, Option<E>, Option<E>, Option<E>),
    UnaryOp(UnaryOpKind, E),
    BinOp(BinOpKind, E, E),
    /// A chain of two comparisons or more.
    Compare(E, Vec<K>),
    /// The test, the true part and the false part.
    IfExpr(E, E, Option<E>),
    /// The operand, which the innermost filter of a set or filter block lacks.
    Filter(N, Option<E>, Vec<A>),
    Test(N, E, Vec<A>),
    Call(E, Vec<A>),
    List(Vec<E>),
    Tuple(Vec<E>),
    /// Keys and values.
    Map(Vec<E>, Vec<E>),
}

/// Makes nodes, and reads those in which no expression is nested.
pub trait ExprBuilder: Copy {
    /// The tokens that are read.
    type Input: Tokens;

    /// A name as it stands in the source.
    type Name: Copy + Drop;

    /// An expression.
    type Expr: Drop;

    /// An argument of a call, a filter or a test.
    type Arg: Drop;

    /// One comparison of a chain.
    type Comparison: Drop;

    // What values hold, and what their operators give.
    ghost Contents: { Type 0 };

    ghost FaultContents: { Type 0 };

    ghost functions: { Functions Contents FaultContents };

    // What is made, as the grammar has it.
    ghost text: { Self.Name → Text };

    ghost tree: { Self.Expr → Expr Contents };

    ghost arg: { Self.Arg → Arg Contents };

    ghost compared: { Self.Comparison → CompareOp × Expr Contents };

    /// Where nodes are allocated.
    fn alloc(&self) -> Global;

    /// Reads a constant, a text or a variable.
    fn atom(&self, tokens: &mut Self::Input) -> Result<Self::Expr, Refusal>
        ensures { Parses Self.Input.place tree (primaries.atom functions) tokens.old result
            tokens.new };

    /// Reads what follows the `.` after an operand: the name of an attribute, or the number of an
    /// item.
    fn member(
        &self,
        tokens: &mut Self::Input,
        expr: Self::Expr,
        from: Span,
    ) -> Result<Self::Expr, Refusal>
        ensures { Parses Self.Input.place tree (form.member nothing functions (tree expr) from)
            tokens.old result tokens.new };

    /// Reads the name of a filter or a test.
    fn name(&self, tokens: &mut Self::Input) -> Result<Self::Name, Refusal>
        ensures { Parses Self.Input.place text form.name tokens.old result tokens.new };

    /// The name, if the expression is a variable.
    fn variable_name(expr: &Self::Expr) -> Option<Self::Name>
        ensures { option_map text result ≡ name_of_variable (tree expr.now) };

    /// Makes an argument.
    fn argument(argument: Argument<Self::Name, Self::Expr>) -> Self::Arg
        ensures { arg result ≡ argument_of text tree argument };

    /// Makes one comparison of a chain.
    fn against(op: CompareOpKind, expr: Self::Expr) -> Self::Comparison
        ensures { compared result ≡ (compare_op op, tree expr) };

    /// Makes a node. Refused memory is the only error.
    fn node(
        &self,
        node: Node<Self::Name, Self::Expr, Self::Arg, Self::Comparison>,
        span: Span,
    ) -> Result<Self::Expr, AllocError>
        ensures { IfOk result (λ e. tree e ≡ node_tree text tree arg compared node span) };
}
