//! Makes the nodes of a tree of expressions, by the rules of the grammar.
ghost use Rattle.std.specs.Prelude.{◌≡◌, IfOk};
ghost use Rattle.std.specs.Option.{option_map};
ghost use Rattle.minijinja_tree.specs.Erasure.{compare_op};
ghost use Rattle.minijinja_tree.specs.SpannedErasure.{arg_view, compared, expr_node};
ghost use Rattle.minijinja_grammar.specs.internal.Forms.{nothing, reads};
ghost use Rattle.minijinja_grammar.specs.internal.ExprForms as form;
ghost use Rattle.minijinja_grammar.specs.internal.ExprForms.{name_of_variable};
ghost use Rattle.minijinja_parser_expr.specs.private.Made.{argument_of, node_tree};
ghost use Rattle.minijinja_parser_expr.specs.private.Primaries as primaries;
ghost use Rattle.minijinja_parser_tokens.specs.internal.Reads.{Reads};

use crate::atoms;
use crate::builder::{Argument, ExprBuilder, Node};
use minijinja_nodes::expr_nodes;
use minijinja_parser_tokens::marks::Mark;
use minijinja_parser_tokens::refusal::{Refusal, Wanted};
use minijinja_parser_tokens::token_stream::TokenStream;
use minijinja_parser_tokens::tokens::{Tokens, ident};
use minijinja_syntax::error::Expected;
use minijinja_syntax::syntax::SyntaxConfig;
use minijinja_syntax::tokens::Span;
use minijinja_tree::ast::{CallArg, CompareOp, CompareOpKind, Expr};
use minijinja_value::value::TemplateValue;
use std::alloc::{AllocError, Global};
use std::marker::PhantomData;

/// Makes the nodes of the tree of a text, over the text's values.
#[derive_where(Clone, Copy)]
pub struct TreeExprs<'s, 'c, V> {
    /// Where nodes are allocated.
    pub alloc: Global,
    // The two carry the lifetimes of what is read. The borrow checker does not cover functions over
    // a `PhantomData` of two lifetimes.
    source: &'s str,
    syntax: &'c SyntaxConfig,
    values: PhantomData<V>,
}

impl<'s, 'c, V> TreeExprs<'s, 'c, V> {
    /// Nodes that are allocated there, of this source in this syntax.
    pub fn new(alloc: Global, source: &'s str, syntax: &'c SyntaxConfig) -> Self
        ensures { result.alloc ≡ alloc }
    {
        TreeExprs {
            alloc,
            source,
            syntax,
            values: PhantomData,
        }
    }
}

impl<'s, 'c, V: TemplateValue> ExprBuilder for TreeExprs<'s, 'c, V> {
    type Input = TokenStream<'s, 'c>;

    type Name = &'s str;

    type Expr = Expr<'s, V>;

    type Arg = CallArg<'s, V>;

    type Comparison = CompareOp<'s, V>;

    ghost Contents = { V.Contents };

    ghost FaultContents = { V.FaultContents };

    ghost functions = { V.functions };

    ghost text = { λ x. x.now };

    ghost tree = { expr_node V.contents };

    ghost arg = { arg_view V.contents };

    ghost compared = { compared V.contents };

    fn alloc(&self) -> Global {
        self.alloc
    }

    #[tactic(auto, using(crate::proofs::Primaries::atom_is))]
    fn atom(&self, tokens: &mut TokenStream<'s, 'c>) -> Result<Expr<'s, V>, Refusal>
        ensures { Reads (expr_node V.contents) (reads (primaries.atom V.functions)
            tokens.old.place) result
            tokens.new.place }
    {
        if let Some(name) = tokens.ident_in_view() {
            let from = tokens.skip(Wanted::Part(Expected::Expression))?;
            return Ok(atoms::word(self.alloc, name, from)?);
        }
        atoms::literal(self.alloc, tokens)
    }

    #[tactic(auto, using(crate::proofs::Members::member_is))]
    fn member(
        &self,
        tokens: &mut TokenStream<'s, 'c>,
        expr: Expr<'s, V>,
        from: Span,
    ) -> Result<Expr<'s, V>, Refusal>
        ensures { Reads (expr_node V.contents) (reads (form.member nothing V.functions
            (expr_node V.contents expr.entry) from) tokens.old.place) result tokens.new.place }
    {
        let Some(name) = tokens.ident_in_view() else {
            return atoms::numbered(self.alloc, tokens, expr, from);
        };
        tokens.skip(Wanted::Part(Expected::Identifier))?;
        let span = tokens.expand_span(from);
        Ok(expr_nodes::attribute(self.alloc, expr, name, span)?)
    }

    /// The text from the first part of the name to its last.
    #[tactic(auto, using(crate::proofs::Names::name_is, crate::proofs::Names::still_between))]
    fn name(&self, tokens: &mut TokenStream<'s, 'c>) -> Result<&'s str, Refusal>
        ensures { Reads (λ x. x.now) (reads form.name tokens.old.place) result tokens.new.place }
    {
        let (name, first) = ident(tokens, Wanted::Part(Expected::Identifier))?;
        if !tokens.at(Mark::Dot) {
            return Ok(name);
        }
        let last = atoms::name_parts(tokens, first)?;
        Ok(atoms::source_between(tokens.source(), first, last))
    }

    fn variable_name(expr: &Expr<'s, V>) -> Option<&'s str>
        ensures { option_map (λ x. x.now) result ≡ name_of_variable
            (expr_node V.contents expr.now) }
    {
        match expr {
            Expr::Var(variable) => Some(variable.node().id),
            _ => None,
        }
    }

    fn argument(argument: Argument<&'s str, Expr<'s, V>>) -> CallArg<'s, V>
        ensures { arg_view V.contents result ≡ argument_of (λ x. x.now) (expr_node V.contents)
            argument.entry }
    {
        match argument {
            Argument::Positional(expr) => CallArg::Pos(expr),
            Argument::Keyword(name, expr) => CallArg::Kwarg(name, expr),
            Argument::Starred(expr) => CallArg::PosSplat(expr),
            Argument::DoubleStarred(expr) => CallArg::KwargSplat(expr),
        }
    }

    fn against(op: CompareOpKind, expr: Expr<'s, V>) -> CompareOp<'s, V>
        ensures { compared V.contents result ≡ (compare_op op, expr_node V.contents expr.entry) }
    {
        CompareOp { op, expr }
    }

    fn node(
        &self,
        node: Node<&'s str, Expr<'s, V>, CallArg<'s, V>, CompareOp<'s, V>>,
        span: Span,
    ) -> Result<Expr<'s, V>, AllocError>
        ensures { IfOk result (λ e. expr_node V.contents e ≡ node_tree (λ x. x.now)
            (expr_node V.contents) (arg_view V.contents) (compared V.contents) node.entry span) }
    {
        let alloc = self.alloc;
        match node {
            Node::Item(expr, subscript_expr) => expr_nodes::item(alloc, expr, subscript_expr, span),
            Node::Slice(expr, start, stop, step) => {
                expr_nodes::slice(alloc, expr, start, stop, step, span)
            }
            Node::UnaryOp(op, expr) => expr_nodes::unary(alloc, op, expr, span),
            Node::BinOp(op, left, right) => expr_nodes::binary(alloc, op, left, right, span),
            Node::Compare(expr, ops) => expr_nodes::compare(alloc, expr, ops, span),
            Node::IfExpr(test_expr, true_expr, false_expr) => {
                expr_nodes::if_expr(alloc, test_expr, true_expr, false_expr, span)
            }
            Node::Filter(name, expr, args) => expr_nodes::filter(alloc, name, expr, args, span),
            Node::Test(name, expr, args) => expr_nodes::test(alloc, name, expr, args, span),
            Node::Call(expr, args) => expr_nodes::call(alloc, expr, args, span),
            Node::List(items) => expr_nodes::list(alloc, items, span),
            Node::Tuple(items) => expr_nodes::tuple(alloc, items, span),
            Node::Map(keys, values) => expr_nodes::map(alloc, keys, values, span),
        }
    }
}
