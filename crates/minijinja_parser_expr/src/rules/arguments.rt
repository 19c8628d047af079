//! The arguments of calls, filters and tests.
ghost use Rattle.std.specs.Prelude.{◌≡◌, ◌&&◌, List, [], length, map, IfSome, is_none, if◌then◌else◌};
ghost use Rattle.minijinja_grammar.specs.internal.Forms.{reads};
ghost use Rattle.minijinja_grammar.specs.internal.ExprForms as form;
ghost use Rattle.minijinja_grammar.specs.internal.ExprForms.{expr_at, has_named, is_allowed};
ghost use Rattle.minijinja_parser_expr.specs.private.Made.{argument_of};
ghost use Rattle.minijinja_parser_expr.specs.private.Nests.{Nests, Parses};
ghost use Rattle.minijinja_tree.specs.SpannedTrees.{Arg};

use crate::builder::{Argument, ExprBuilder};
use crate::rules::{ExprRules, Nest};
use minijinja_parser_tokens::marks::{Mark, Part};
use minijinja_parser_tokens::refusal::{Refusal, Wanted};
use minijinja_parser_tokens::tokens::Tokens;
use minijinja_tree::ast::MOST_ARGUMENTS;
use std::marker::PhantomData;

/// The capacity of a list of arguments before its first one is read. Most lists have no more.
const ROOM_AT_FIRST: usize = 3;

/// Whether the argument is a keyword argument or a `**`.
fn is_named<N: ExprBuilder>(arg: &Argument<N::Name, N::Expr>) -> bool
    ensures { result ≡ form.is_named (argument_of N.text N.tree arg.now) }
{
    matches!(arg, Argument::Keyword(_, _) | Argument::DoubleStarred(_))
}

fn is_plain<N: ExprBuilder>(arg: &Argument<N::Name, N::Expr>) -> bool
    ensures { result ≡ form.is_plain (argument_of N.text N.tree arg.now) }
{
    matches!(arg, Argument::Positional(_))
}

/// What is wrong with one more argument, after `count` arguments, where `named` says whether one of
/// them is a keyword argument or a `**`.
fn fault<N: ExprBuilder>(
    arg: &Argument<N::Name, N::Expr>,
    count: usize,
    named: bool,
) -> Option<Wanted>
    ensures none { (xs : List (Arg N.Contents)) → length xs ≡ count → has_named xs ≡ named →
        is_none result ≡ is_allowed xs (argument_of N.text N.tree arg.now) }
    ensures which { IfSome result (λ w. w ≡ (if form.is_plain (argument_of N.text N.tree arg.now) &&
        named then Wanted.Keyword else Wanted.FewerArguments)) }
{
    if named && is_plain::<N>(arg) {
        return Some(Wanted::Keyword);
    }
    if count >= MOST_ARGUMENTS {
        return Some(Wanted::FewerArguments);
    }
    None
}

impl<
    N: ExprBuilder,
    F: Copy
        + for<'x> Fn(
            N,
            &'x mut N::Input,
            PhantomData<N::Expr>,
            Nest,
            usize,
        ) -> Result<N::Expr, Refusal>,
> ExprRules<N, F> {
    /// Reads the arguments in parentheses, after the opening one.
    #[tactic(auto, unfolding(minijinja_grammar::specs::internal::Forms::reads, minijinja_grammar::specs::internal::ExprForms::args))]
    pub(crate) fn args(&self, tokens: &mut N::Input) -> Result<Vec<N::Arg>, Refusal>
        requires { Nests N.Input.place N.tree N.functions self.now.depth F.pre F.post
            self.now.parser }
        ensures { Parses N.Input.place (λ v. map N.arg v.items) (form.args (expr_at N.functions
            self.now.depth)) tokens.old result tokens.new }
    {
        let args = self.arg_items(tokens)?;
        tokens.expect(Mark::ParenClose)?;
        Ok(args)
    }

    /// Reads the arguments between the parentheses.
    #[tactic(auto, using(crate::proofs::CallArgs::arg_items_more, crate::proofs::CallArgs::arg_items_done))]
    fn arg_items(&self, tokens: &mut N::Input) -> Result<Vec<N::Arg>, Refusal>
        requires { Nests N.Input.place N.tree N.functions self.now.depth F.pre F.post
            self.now.parser }
        ensures { Parses N.Input.place (λ v. map N.arg v.items) (form.arg_items (expr_at N.functions
            self.now.depth) []) tokens.old result tokens.new }
    {
        if !tokens.begins(Part::Arg) {
            return Ok(Vec::new(self.builder.alloc()));
        }
        let mut args = Vec::with_capacity(self.builder.alloc(), ROOM_AT_FIRST)?;
        let mut named = false;
        while tokens.begins(Part::Arg) {
            let arg = self.arg(tokens)?;
            if let Some(fault) = fault::<N>(&arg, args.len(), named) {
                return Err(tokens.misfit(fault));
            }
            named = named || is_named::<N>(&arg);
            args.push(N::argument(arg))?;
            if !tokens.eat(Mark::Comma)? {
                return Ok(args);
            }
        }
        Ok(args)
    }

    /// Reads an argument.
    fn arg(&self, tokens: &mut N::Input) -> Result<Argument<N::Name, N::Expr>, Refusal>
        requires { Nests N.Input.place N.tree N.functions self.now.depth F.pre F.post
            self.now.parser }
        ensures { Parses N.Input.place (argument_of N.text N.tree) (form.arg (expr_at N.functions
            self.now.depth)) tokens.old result tokens.new }
    {
        if tokens.eat(Mark::Mul)? {
            return Ok(Argument::Starred(self.nested(tokens)?));
        }
        if tokens.eat(Mark::Pow)? {
            return Ok(Argument::DoubleStarred(self.nested(tokens)?));
        }
        let expr = self.nested(tokens)?;
        self.rest_of_arg(tokens, expr)
    }

    /// Reads the rest of an argument, after its first expression.
    fn rest_of_arg(
        &self,
        tokens: &mut N::Input,
        expr: N::Expr,
    ) -> Result<Argument<N::Name, N::Expr>, Refusal>
        requires { Nests N.Input.place N.tree N.functions self.now.depth F.pre F.post
            self.now.parser }
        ensures { Parses N.Input.place (argument_of N.text N.tree) (form.rest_of_arg (expr_at
            N.functions self.now.depth) (N.tree expr)) tokens.old result tokens.new }
    {
        if !tokens.eat(Mark::Assign)? {
            return Ok(Argument::Positional(expr));
        }
        let Some(name) = N::variable_name(&expr) else {
            return Err(tokens.misfit(Wanted::Mark(Mark::ParenClose)));
        };
        Ok(Argument::Keyword(name, self.nested(tokens)?))
    }

    /// Reads the arguments of a filter, if there are any.
    #[tactic(auto, using(crate::proofs::Following::maybe_args_is))]
    pub(crate) fn maybe_args(&self, tokens: &mut N::Input) -> Result<Vec<N::Arg>, Refusal>
        requires { Nests N.Input.place N.tree N.functions self.now.depth F.pre F.post
            self.now.parser }
        ensures { Parses N.Input.place (λ v. map N.arg v.items) (form.maybe_args (expr_at
            N.functions self.now.depth)) tokens.old result tokens.new }
    {
        if !tokens.eat(Mark::ParenOpen)? {
            return Ok(Vec::new(self.builder.alloc()));
        }
        self.args(tokens)
    }
}
