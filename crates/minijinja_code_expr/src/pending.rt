//! Nodes that wait for the operand that their code begins with.
ghost use Rattle.std.specs.Prelude.{◌≡◌, ◌+◌, [], ◌∷◌, ◌++◌, length, OnOk, IfNone, IfSome};
ghost use Rattle.minijinja_code_expr.specs.private.PendingNodes.{pending_of};

use minijinja_emitter::memory::OutOfMemory;
use minijinja_syntax::tokens::Span;
use minijinja_tree::ast::Expr;
use minijinja_value::value::TemplateValue;
use std::alloc::Global;

/// A node that waits for its leading operand, and the place where its code begins or where the jump
/// of its test is, and the span that was open before it.
#[derive(Drop)]
pub(crate) struct PendingNode<'a, 's, V: TemplateValue> {
    pub(crate) node: &'a Expr<'s, V>,
    pub(crate) place: usize,
    pub(crate) outer: Span,
}

/// Nodes that wait for their leading operands, the innermost last. Most expressions have at most
/// one, so one takes no memory.
#[derive(Drop)]
pub(crate) struct PendingNodes<'a, 's, V: TemplateValue> {
    first: Option<PendingNode<'a, 's, V>>,
    others: Vec<PendingNode<'a, 's, V>>,
}

impl<'a, 's, V: TemplateValue> PendingNodes<'a, 's, V> {
    /// No nodes.
    pub(crate) fn new(alloc: Global) -> Self
        ensures { pending_of result ≡ [] }
    {
        PendingNodes {
            first: None,
            others: Vec::new(alloc),
        }
    }

    /// Adds a node.
    #[inline(always)]
    pub(crate) fn push(&mut self, node: PendingNode<'a, 's, V>) -> Result<(), OutOfMemory>
        ensures { OnOk result (pending_of self.new ≡ pending_of self.old ++ node.entry ∷ []) }
    {
        if self.first.is_none() && self.others.is_empty() {
            self.first = Some(node);
        } else {
            self.others.push(node)?;
        }
        Ok(())
    }

    /// Removes the node that was added last.
    #[inline(always)]
    pub(crate) fn pop(&mut self) -> Option<PendingNode<'a, 's, V>>
        ensures last { IfSome result (λ last. pending_of self.old ≡ pending_of self.new ++ last ∷
            []) }
        ensures fewer { IfSome result
            (λ _. length (pending_of self.new) + 1 ≡ length (pending_of self.old)) }
        ensures none { IfNone result (pending_of self.old ≡ []) }
    {
        match self.others.pop() {
            Some(last) => Some(last),
            None => self.first.take(),
        }
    }
}
