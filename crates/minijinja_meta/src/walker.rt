//! What a walk through a tree has found so far.
ghost use Rattle.std.specs.Prelude.{◌≡◌, IfOk, OnOk, length};
ghost use Rattle.minijinja_tree.specs.SpannedErasure.{expr_node};
ghost use Rattle.minijinja_meta.specs.Mentions as way;
ghost use Rattle.minijinja_meta.specs.Mentions.{attributes_of, through};
ghost use Rattle.minijinja_meta.specs.private.Scoped.{IsLogged};
ghost use Rattle.minijinja_meta.specs.private.Walked.{Forgets, IsNew, Leaves, Takes, Walks, log};

use crate::mentions::{Occurrence, Occurrences};
use crate::scopes::Scopes;
use minijinja_syntax::tokens::Span;
use minijinja_tree::ast::Expr;
use minijinja_value::value::TemplateValue;
use std::alloc::{AllocError, Global};

/// What a walk has found so far, and what it returns to later.
#[derive(Drop)]
pub struct Walker<'a, 's, V: TemplateValue> {
    pub found: Vec<Occurrence<'a, 's, V>>,
    pub macros: Vec<(&'s str, Span)>,
    pub scopes: Scopes<'s>,
    /// Expressions whose long side is being walked through, the innermost last: their other parts
    /// are walked through next.
    pub waiting: Vec<&'a Expr<'s, V>>,
    /// Whether only names are wanted: then a name that was found free counts as stored, so that it
    /// is not found again before the region ends.
    pub names_only: bool,
}

impl<'a, 's, V: TemplateValue> Walker<'a, 's, V> {
    /// A walker that has met nothing.
    pub fn new(alloc: Global, names_only: bool) -> Self
        ensures { IsNew result names_only }
    {
        Walker {
            found: Vec::new(alloc),
            macros: Vec::new(alloc),
            scopes: Scopes::new(alloc),
            waiting: Vec::new(alloc),
            names_only,
        }
    }

    /// Notes a variable that occurs, in the chain of attributes that are taken right on it.
    #[inline(never)]
    pub fn occurs(
        &mut self,
        name: &'s str,
        span: Span,
        chain: &'a Expr<'s, V>,
    ) -> Result<(), AllocError>
        requires logged { IsLogged self.old.scopes }
        requires chain { (w : way.Way) → through (expr_node V.contents chain.now) w ≡ way.occurs
            (record {
              name = name.now;
              attributes = attributes_of (expr_node V.contents chain.now);
              span = span;
            }) w }
        ensures { OnOk result (Walks V.contents self.old self.new
            (through (expr_node V.contents chain.now))) }
    {
        let is_free = !self.scopes.has(name);
        if self.names_only && !is_free {
            return Ok(());
        }
        self.found.push(Occurrence {
            name,
            span,
            chain,
            is_free,
        })?;
        if self.names_only {
            self.scopes.store(name)?;
        }
        Ok(())
    }

    /// Notes a name that is stored.
    pub fn stores(&mut self, name: &'s str) -> Result<(), AllocError>
        requires { IsLogged self.old.scopes }
        ensures { OnOk result (Walks V.contents self.old self.new (way.stores name.now)) }
    {
        self.scopes.store(name)
    }

    /// Notes a macro statement, which stores the macro's name.
    pub fn declares(&mut self, name: &'s str, span: Span) -> Result<(), AllocError>
        requires { IsLogged self.old.scopes }
        ensures { OnOk result (Walks V.contents self.old self.new
            (λ w. way.declares name.now span (way.stores name.now w))) }
    {
        self.macros.push((name, span))?;
        self.scopes.store(name)
    }

    /// Where a region begins.
    pub fn mark(&self) -> usize
        ensures { result ≡ length (log self.now) }
    {
        self.scopes.mark()
    }

    /// Ends the region that began at the mark.
    pub fn end(&mut self, mark: usize)
        requires { IsLogged self.old.scopes }
        ensures { Forgets self.old self.new mark }
    {
        self.scopes.end(mark);
    }

    /// Leaves the parts of an expression for after its long side. It is returned, and the one that
    /// was left before it waits.
    pub fn leaves(
        &mut self,
        before: Option<&'a Expr<'s, V>>,
        expr: &'a Expr<'s, V>,
    ) -> Result<Option<&'a Expr<'s, V>>, AllocError>
        ensures { IfOk result (Leaves self.old self.new before.entry expr.entry) }
    {
        if let Some(before) = before {
            self.waiting.push(before)?;
        }
        Ok(Some(expr))
    }

    /// The expression that was left last, if one is left after the mark.
    pub fn left_after(&mut self, mark: usize) -> Option<&'a Expr<'s, V>>
        ensures { Takes self.old self.new mark result }
    {
        if self.waiting.len() > mark {
            self.waiting.pop()
        } else {
            None
        }
    }

    /// What was found.
    pub fn finish(self) -> Occurrences<'a, 's, V>
        ensures found { result.found ≡ self.entry.found }
        ensures macros { result.macros ≡ self.entry.macros }
    {
        let Walker { found, macros, .. } = self;
        Occurrences { found, macros }
    }
}
