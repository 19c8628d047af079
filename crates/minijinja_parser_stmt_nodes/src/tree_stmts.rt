//! Makes the statements of a tree, by the rules of templates.
#![tactic(auto, unfolding(crate::specs::private::AnyParts::parts_tree, crate::specs::private::AnyParts::AreComplete))]

ghost use Rattle.std.specs.Prelude.{◌≡◌, IfOk};
ghost use Rattle.std.specs.Option.{option_map};
ghost use Rattle.minijinja_syntax.specs.Tokens.{tok_of};
ghost use Rattle.minijinja_tree.specs.SpannedErasure.{expr_node, stmt_node};
ghost use Rattle.minijinja_tree.specs.SpannedTrees as tree;
ghost use Rattle.minijinja_grammar.specs.internal.Forms.{reads};
ghost use Rattle.minijinja_grammar.specs.internal.TemplateForms.{template_at};
ghost use Rattle.minijinja_parser_tokens.specs.internal.Forms.{expr_of, ident_of};
ghost use Rattle.minijinja_parser_tokens.specs.internal.Reads.{Reads};
ghost use Rattle.minijinja_parser_stmt.specs.internal.Made.{HasParts, opening_of, opening_tok, statement_tree, target_tree};
ghost use Rattle.minijinja_parser_stmt_nodes.specs.private.AnyParts.{AreComplete, parts_tree};

use crate::of_parts;
use minijinja_nodes::{expr_nodes, stmt_nodes};
use minijinja_parser_expr::expressions::expression;
use minijinja_parser_expr::tree_exprs::TreeExprs;
use minijinja_parser_stmt::builder::{Opening, StatementParts, StmtBuilder, Target};
use minijinja_parser_stmt::rules::statements;
use minijinja_parser_tokens::forms::{ExprForm, IdentForm};
use minijinja_parser_tokens::refusal::{Refusal, Wanted};
use minijinja_parser_tokens::token_stream::TokenStream;
use minijinja_parser_tokens::tokens::{ident, new_ident};
use minijinja_syntax::tokens::{Span, Token};
use minijinja_tree::ast::{Expr, Stmt};
use minijinja_value::value::TemplateValue;
use std::alloc::{AllocError, Global};
use std::marker::PhantomData;

/// What a statement is made of. Most statements are data or an output, and these have one part.
#[derive(Drop)]
pub enum AnyParts<N, E, S> {
    /// Text as it stands in the source.
    Data(N),
    /// What is written.
    Output(E),
    /// The parts of any other statement.
    Other(StatementParts<N, E, S>),
}

/// What is made of the parts of a statement. The rules are called for any such type, and not for
/// the type of statements: all that they ask of what is made is compared at each type that they are
/// called for, and at that type it costs more than can be checked.
pub trait OfParts<'s, V: TemplateValue>: Drop {
    // What it is in a tree, with values seen as what they hold.
    ghost node: { (C : Type 0) → (V → C) → Self → tree.Stmt C };

    /// The statement of these parts. Refused memory is the only error.
    fn of_parts(
        alloc: Global,
        parts: AnyParts<&'s str, Expr<'s, V>, Self>,
        span: Span,
    ) -> Result<Self, AllocError>
        requires { AreComplete (expr_node V.contents) parts }
        ensures { IfOk result (λ s. node V.Contents V.contents s ≡ parts_tree (λ x. x.now)
            (expr_node V.contents) (node V.Contents V.contents) parts.entry span) };
}

impl<'s, V: TemplateValue> OfParts<'s, V> for Stmt<'s, V> {
    ghost node = { λ C contents s. stmt_node contents s };

    // Where it is inlined, it is known which parts they are, and no room for the others is made.
    #[inline(always)]
    fn of_parts(
        alloc: Global,
        parts: AnyParts<&'s str, Expr<'s, V>, Stmt<'s, V>>,
        span: Span,
    ) -> Result<Stmt<'s, V>, AllocError>
        requires { AreComplete (expr_node V.contents) parts }
        ensures { IfOk result (λ s. stmt_node V.contents s ≡ parts_tree (λ x. x.now)
            (expr_node V.contents) (stmt_node V.contents) parts.entry span) }
    {
        match parts {
            AnyParts::Data(raw) => stmt_nodes::data(alloc, raw, span),
            AnyParts::Output(expr) => stmt_nodes::output(alloc, expr, span),
            AnyParts::Other(mut parts) => of_parts::statement(alloc, &mut parts, span),
        }
    }
}

/// Puts the statements of the tree of a text on the heap.
#[derive_where(Clone, Copy)]
pub struct TreeStmts<'s, 'c, V, S> {
    /// Puts the nodes of expressions there.
    pub nodes: TreeExprs<'s, 'c, V>,
    /// What statements are made.
    pub made: PhantomData<S>,
}

impl<'s, 'c, V: TemplateValue, S: OfParts<'s, V>> StmtBuilder for TreeStmts<'s, 'c, V, S> {
    type Input = TokenStream<'s, 'c>;

    type Name = &'s str;

    type Expr = Expr<'s, V>;

    type Stmt = S;

    ghost Contents = { V.Contents };

    ghost FaultContents = { V.FaultContents };

    ghost functions = { V.functions };

    ghost text = { λ x. x.now };

    ghost tree = { expr_node V.contents };

    ghost stmt = { S.node V.Contents V.contents };

    fn alloc(&self) -> Global {
        self.nodes.alloc
    }

    fn expr(
        &self,
        tokens: &mut TokenStream<'s, 'c>,
        form: ExprForm,
        depth: usize,
    ) -> Result<Expr<'s, V>, Refusal>
        ensures { Reads (expr_node V.contents) (reads (expr_of V.functions form depth)
            tokens.old.place)
            result tokens.new.place }
    {
        expression(self.nodes, tokens, form, depth)
    }

    fn ident(
        &self,
        tokens: &mut TokenStream<'s, 'c>,
        form: IdentForm,
        wanted: Wanted,
    ) -> Result<(&'s str, Span), Refusal>
        ensures { Reads (λ t. (t.0.now, t.1)) (reads (ident_of form) tokens.old.place) result
            tokens.new.place }
    {
        match form {
            IdentForm::Any => ident(tokens, wanted),
            IdentForm::New => new_ident(tokens, wanted),
        }
    }

    fn letters<'a>(name: &'a &'s str) -> &'a str
        ensures { result.now ≡ name.now.now }
    {
        *name
    }

    fn opening(token: &Token<'s>) -> Option<Opening<&'s str>>
        ensures { option_map (opening_tok (λ x. x.now)) result ≡ opening_of (tok_of token.now) }
    {
        match token {
            Token::TemplateData(raw) => Some(Opening::Data(*raw)),
            Token::VariableStart => Some(Opening::Output),
            Token::BlockStart => Some(Opening::Statement),
            _ => None,
        }
    }

    fn target(
        &self,
        target: Target<&'s str, Expr<'s, V>>,
        span: Span,
    ) -> Result<Expr<'s, V>, AllocError>
        ensures { IfOk result (λ e. expr_node V.contents e ≡ target_tree (λ x. x.now)
            (expr_node V.contents) target.entry span) }
    {
        let alloc = self.nodes.alloc;
        match target {
            Target::Name(name) => expr_nodes::variable(alloc, name, span),
            Target::Attribute(expr, name) => expr_nodes::attribute(alloc, expr, name, span),
            Target::List(items) => expr_nodes::list(alloc, items, span),
        }
    }

    fn data(&self, raw: &'s str, span: Span) -> Result<S, AllocError>
        ensures { IfOk result (λ s. S.node V.Contents V.contents s ≡ tree.data_text raw.now span) }
    {
        S::of_parts(self.nodes.alloc, AnyParts::Data(raw), span)
    }

    fn output(&self, expr: Expr<'s, V>, span: Span) -> Result<S, AllocError>
        ensures { IfOk result (λ s. S.node V.Contents V.contents s
            ≡ tree.output (expr_node V.contents expr.entry) span) }
    {
        S::of_parts(self.nodes.alloc, AnyParts::Output(expr), span)
    }

    fn statement(
        &self,
        parts: StatementParts<&'s str, Expr<'s, V>, S>,
        span: Span,
    ) -> Result<S, AllocError>
        requires { HasParts (expr_node V.contents) parts }
        ensures { IfOk result (λ s. S.node V.Contents V.contents s ≡ statement_tree (λ x. x.now)
            (expr_node V.contents) (S.node V.Contents V.contents) parts.entry span) }
    {
        S::of_parts(self.nodes.alloc, AnyParts::Other(parts), span)
    }
}

/// Reads a template, of statements of any such type.
fn template_of<'s, 'c, V: TemplateValue, S: OfParts<'s, V>>(
    nodes: TreeExprs<'s, 'c, V>,
    tokens: &mut TokenStream<'s, 'c>,
    depth: usize,
) -> Result<S, Refusal>
    ensures { Reads (S.node V.Contents V.contents)
        (reads (template_at V.functions depth) tokens.old.place) result tokens.new.place }
{
    let made = PhantomData;
    statements::template(TreeStmts { nodes, made }, tokens, depth)
}

/// Reads a template, in which statements and expressions nest `depth` deep at most.
pub fn template<'s, 'c, V: TemplateValue>(
    nodes: TreeExprs<'s, 'c, V>,
    tokens: &mut TokenStream<'s, 'c>,
    depth: usize,
) -> Result<Stmt<'s, V>, Refusal>
    ensures { Reads (stmt_node V.contents) (reads (template_at V.functions depth) tokens.old.place)
        result
        tokens.new.place }
{
    template_of(nodes, tokens, depth)
}
