//! The names that are stored where a region is still open.
ghost use Rattle.std.specs.Prelude.{◌≡◌, ◌-◌, IfOk, OnOk, [], length, take};
ghost use Rattle.minijinja_meta.specs.Mentions.{is_among};
ghost use Rattle.minijinja_meta.specs.private.Scoped.{IsLogged, Stores, log};

use std::alloc::{AllocError, Global};
use std::collections::BTreeSet;

/// The names that are stored where a region is still open.
#[derive(Drop)]
pub struct Scopes<'s> {
    /// The stored names, each after its length in bytes, since most names differ in length, and
    /// numbers are compared sooner than texts.
    stored: BTreeSet<(usize, &'s str)>,
    /// The stored names in the order in which they were stored, so that those of the innermost
    /// region come last.
    log: Vec<&'s str>,
}

impl<'s> Scopes<'s> {
    /// Scopes in which nothing is stored.
    pub fn new(alloc: Global) -> Self
        ensures logged { IsLogged result }
        ensures none { log result ≡ [] }
    {
        Scopes {
            stored: BTreeSet::new(alloc),
            log: Vec::new(alloc),
        }
    }

    /// Whether the name is stored.
    pub fn has(&self, name: &'s str) -> bool
        requires { IsLogged self.now }
        ensures { result ≡ is_among name.now (log self.now) }
    {
        self.stored.contains(&(name.len(), name))
    }

    /// Stores a name.
    pub fn store(&mut self, name: &'s str) -> Result<(), AllocError>
        requires { IsLogged self.old }
        ensures { OnOk result (Stores self.old self.new name.now) }
    {
        if self.stored.insert((name.len(), name))? {
            self.log.push(name)?;
        }
        Ok(())
    }

    /// Where a region begins.
    pub fn mark(&self) -> usize
        ensures { result ≡ length (log self.now) }
    {
        self.log.len()
    }

    /// Ends the region that began at the mark: names that were stored in it are no longer stored.
    pub fn end(&mut self, mark: usize)
        requires { IsLogged self.old }
        ensures logged { IsLogged self.new }
        ensures log { log self.new ≡ take mark (log self.old) }
    {
        while self.log.len() > mark {
            self.forget_last();
        }
    }

    /// Removes the name that was stored last.
    fn forget_last(&mut self)
        requires { IsLogged self.old }
        ensures logged { IsLogged self.new }
        ensures log { log self.new ≡ take (length (log self.old) - 1) (log self.old) }
    {
        let Some(name) = self.log.pop() else {
            return;
        };
        self.stored.remove(&(name.len(), name));
    }
}
