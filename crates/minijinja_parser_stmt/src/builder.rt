//! What the rules of templates make of tokens, as a trait.
//!
//! The rules depend neither on what holds the tokens, nor on how expressions are read, nor on the
//! types of the tree.
ghost use Rattle.std.specs.Prelude.{◌≡◌, [], false, IfOk, None};
ghost use Rattle.std.specs.Option.{option_map};
ghost use Rattle.minijinja_syntax.specs.Texts.{Text};
ghost use Rattle.minijinja_value.specs.Values.{Functions};
ghost use Rattle.minijinja_tree.specs.SpannedTrees as form;
ghost use Rattle.minijinja_tree.specs.SpannedTrees.{Expr, Stmt};
ghost use Rattle.minijinja_parser_tokens.specs.internal.Forms.{expr_of, ident_of};
ghost use Rattle.minijinja_parser_stmt.specs.internal.Made.{HasParts, opening_of, opening_tok, statement_tree, target_tree};
ghost use Rattle.minijinja_parser_stmt.specs.private.Parses.{Parses};

use minijinja_parser_tokens::forms::{ExprForm, IdentForm};
use minijinja_parser_tokens::refusal::{Refusal, Wanted};
use minijinja_parser_tokens::tokens::Tokens;
use minijinja_syntax::tokens::Span;
use std::alloc::{AllocError, Global};

/// What a part of a template begins with.
#[derive(Clone, Copy)]
pub enum Opening<N> {
    /// Text outside of tags, which is the whole part.
    Data(N),
    /// The start of an output.
    Output,
    /// The start of a statement.
    Statement,
}

/// The parts of a target, over names and expressions.
#[derive(Drop)]
pub enum Target<N, E> {
    /// A name.
    Name(N),
    /// An attribute of a target.
    Attribute(E, N),
    /// Targets in parentheses or with a comma.
    List(Vec<E>),
}

/// The kinds of statements that are made of [`StatementParts`]. Data and outputs, which most parts
/// of a template are, are made without.
#[derive(Clone, Copy)]
pub enum Kind {
    Set,
    Template,
    For,
    If,
    With,
    SetBlock,
    AutoEscape,
    FilterBlock,
    Block,
    Extends,
    Include,
    Import,
    FromImport,
    Macro,
    CallBlock,
    Do,
    Break,
    Continue,
}

/// The parts of a statement. Each kind has some of them. An enum with a variant for each kind would
/// cost the prover more than it can do where the rules are called for one type.
#[derive(Drop)]
pub struct StatementParts<N, E, S> {
    pub kind: Kind,
    /// A name.
    pub name: Option<N>,
    pub target: Option<E>,
    /// The value, test, iterable or call, the chain of filters of a filter block, or the name of a
    /// template.
    pub expr: Option<E>,
    /// The test that an item of a loop has to pass, or the filters of a set block.
    pub filter: Option<E>,
    /// Targets with their values.
    pub assignments: Vec<(E, E)>,
    /// Names that are imported, with their aliases, or the arguments of a macro, with their
    /// defaults.
    pub names: Vec<(E, Option<E>)>,
    pub body: Vec<S>,
    pub else_body: Vec<S>,
    /// Whether a loop is recursive.
    pub recursive: bool,
    /// Whether a block is required.
    pub required: bool,
    /// Whether a template that is included may be missing.
    pub ignore_missing: bool,
}

/// A statement of that kind, without parts.
pub(crate) fn of_kind<N: Copy + Drop, E: Drop, S: Drop>(
    alloc: Global,
    kind: Kind,
) -> StatementParts<N, E, S>
    ensures kind { result.kind ≡ kind }
    ensures name { result.name ≡ None }
    ensures target { result.target ≡ None }
    ensures expr { result.expr ≡ None }
    ensures filter { result.filter ≡ None }
    ensures assignments { result.assignments.items ≡ [] }
    ensures names { result.names.items ≡ [] }
    ensures body { result.body.items ≡ [] }
    ensures else_body { result.else_body.items ≡ [] }
    ensures recursive { result.recursive ≡ false }
    ensures required { result.required ≡ false }
    ensures ignore_missing { result.ignore_missing ≡ false }
{
    StatementParts {
        kind,
        name: None,
        target: None,
        expr: None,
        filter: None,
        assignments: Vec::new(alloc),
        names: Vec::new(alloc),
        body: Vec::new(alloc),
        else_body: Vec::new(alloc),
        recursive: false,
        required: false,
        ignore_missing: false,
    }
}

/// Makes statements, and reads the parts of them in which no statement is nested.
pub trait StmtBuilder: Copy {
    /// The tokens.
    type Input: Tokens;

    /// A text as it stands in the source.
    type Name: Copy + Drop;

    /// An expression.
    type Expr: Drop;

    /// A statement.
    type Stmt: Drop;

    // What values hold, and what their operators give.
    ghost Contents: { Type 0 };

    ghost FaultContents: { Type 0 };

    ghost functions: { Functions Contents FaultContents };

    // What is made, as the grammar has it.
    ghost text: { Self.Name → Text };

    ghost tree: { Self.Expr → Expr Contents };

    ghost stmt: { Self.Stmt → Stmt Contents };

    /// The allocator of lists of expressions and statements.
    fn alloc(&self) -> Global;

    /// An expression of that form, in which expressions and primaries nest `depth` deep at most.
    fn expr(
        &self,
        tokens: &mut Self::Input,
        form: ExprForm,
        depth: usize,
    ) -> Result<Self::Expr, Refusal>
        ensures { Parses Self.Input.place tree (expr_of functions form depth) tokens.old result
            tokens.new };

    /// An identifier of that form, which a refusal calls `wanted`.
    fn ident(
        &self,
        tokens: &mut Self::Input,
        form: IdentForm,
        wanted: Wanted,
    ) -> Result<(Self::Name, Span), Refusal>
        ensures { Parses Self.Input.place (λ t. (text t.0, t.1)) (ident_of form) tokens.old result
            tokens.new };

    /// The letters of a name.
    fn letters(name: &Self::Name) -> &str
        ensures { result.now ≡ text name.now };

    /// A target of these parts. Refused memory is the only error.
    fn target(
        &self,
        target: Target<Self::Name, Self::Expr>,
        span: Span,
    ) -> Result<Self::Expr, AllocError>
        ensures { IfOk result (λ e. tree e ≡ target_tree text tree target span) };

    /// What part of a template the token begins, if it begins one.
    fn opening(token: &<Self::Input as Tokens>::Token) -> Option<Opening<Self::Name>>
        ensures { option_map (opening_tok text) result ≡ opening_of
            (Self.Input.tok token.now) };

    /// Text outside of tags. Refused memory is the only error.
    fn data(&self, raw: Self::Name, span: Span) -> Result<Self::Stmt, AllocError>
        ensures { IfOk result (λ s. stmt s ≡ form.data_text (text raw) span) };

    /// The output of an expression. Refused memory is the only error.
    fn output(&self, expr: Self::Expr, span: Span) -> Result<Self::Stmt, AllocError>
        ensures { IfOk result (λ s. stmt s ≡ form.output (tree expr) span) };

    /// A statement of these parts. Refused memory is the only error.
    fn statement(
        &self,
        parts: StatementParts<Self::Name, Self::Expr, Self::Stmt>,
        span: Span,
    ) -> Result<Self::Stmt, AllocError>
        requires { HasParts tree parts }
        ensures { IfOk result (λ s. stmt s ≡ statement_tree text tree stmt parts span) };
}
