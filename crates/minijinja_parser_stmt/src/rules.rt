//! The rules of templates, a function each.
//!
//! They take the parser of nested statements as a parameter, so that each is proved by itself.
ghost use Rattle.minijinja_grammar.specs.internal.StmtForms.{stmt_at, within};
ghost use Rattle.minijinja_parser_stmt.specs.private.Parses.{Nests, Parses, context_of};

use crate::builder::StmtBuilder;
use minijinja_parser_tokens::refusal::Refusal;
use minijinja_syntax::error::OpenStatement;
use std::marker::PhantomData;

mod blocks;
pub mod bodies;
mod if_stmts;
mod loops;
mod macros;
mod modules;
mod scopes;
pub mod statements;
mod targets;

/// Where a statement stands.
#[derive(Clone, Copy)]
pub struct Context {
    /// Whether it stands in the body of a loop, in the same block, macro or call block.
    pub in_loop: bool,
    /// Whether it stands in a macro or a call block.
    pub in_macro: bool,
    /// The statement in whose body it stands. Only the words of refusals depend on it.
    pub open: Option<OpenStatement>,
}

/// What nests in a statement.
#[derive(Clone, Copy)]
pub enum Nested {
    /// A statement, from its first word on.
    Statement,
    /// The `if` of an `elif`, after that word.
    ElseIf,
}

/// The rules of a statement in which statements and expressions nest `depth` deep at most.
#[derive(Clone, Copy)]
pub struct StmtRules<S, F> {
    /// The maker of statements.
    pub builder: S,
    /// Where the statement stands.
    pub context: Context,
    /// How deep statements and expressions may nest.
    pub depth: usize,
    /// The parser of what nests in the statement.
    pub nested: F,
}

impl<
    S: StmtBuilder,
    F: Copy
        + for<'x> Fn(
            S,
            &'x mut S::Input,
            PhantomData<S::Stmt>,
            Context,
            Nested,
            usize,
        ) -> Result<S::Stmt, Refusal>,
> StmtRules<S, F> {
    /// A nested statement.
    fn stmt(&self, tokens: &mut S::Input) -> Result<S::Stmt, Refusal>
        requires { Nests S.Input.place S.stmt S.functions self.now.depth F.pre F.post
            self.now.nested }
        ensures { Parses S.Input.place S.stmt
            (stmt_at S.functions (context_of self.now.context) self.now.depth) tokens.old result
            tokens.new }
    {
        (self.nested)(
            self.builder,
            tokens,
            PhantomData,
            self.context,
            Nested::Statement,
            self.depth,
        )
    }

    /// The `if` of an `elif`, after that word.
    fn else_if(&self, tokens: &mut S::Input) -> Result<S::Stmt, Refusal>
        requires { Nests S.Input.place S.stmt S.functions self.now.depth F.pre F.post
            self.now.nested }
        ensures { Parses S.Input.place S.stmt ((within S.functions self.now.depth).if_
            (context_of self.now.context) (S.Input.place tokens.old).last) tokens.old result
            tokens.new }
    {
        (self.nested)(
            self.builder,
            tokens,
            PhantomData,
            self.context,
            Nested::ElseIf,
            self.depth,
        )
    }
}
