//! Names of filters and tests that have an id.
ghost use Rattle.std.specs.Prelude.{◌≡◌, ◌≤◌, vec_len, IfOk, OnOk};

use crate::memory::OutOfMemory;
use minijinja_instructions::instructions::{LocalId, MAX_LOCALS};
use std::alloc::Global;

/// The names of filters, or of tests, that have an id of their own, in the order of their first
/// use.
#[derive(Drop)]
pub(crate) struct Names<'s> {
    names: Vec<&'s str>,
    ghost few: { vec_len names ≤ 50 },
}

/// The id of every name for which no id of its own is left.
const NO_ID: LocalId = 255;

impl<'s> Names<'s> {
    ghost use Rattle.std.specs.Prelude.{[]};
    ghost use Rattle.minijinja_emitter.specs.internal.AtEmitter.{texts_of};
    ghost use Rattle.minijinja_semantics.specs.Pieces.{id_of, noted};

    /// No names. It allocates nothing yet.
    pub(crate) fn new(alloc: Global) -> Self
        ensures { texts_of result ≡ [] }
    {
        Names {
            names: Vec::new(alloc),
        }
    }

    /// The id of a name, which gets one if it has none yet and there is one left.
    pub(crate) fn id(&mut self, name: &'s str) -> Result<LocalId, OutOfMemory>
        ensures id { IfOk result (λ id. id ≡ id_of name.now (texts_of self.old)) }
        ensures noted { OnOk result (texts_of self.new ≡ noted name.now (texts_of self.old)) }
    {
        for (i, known) in self.names.iter().enumerate() {
            if name == *known {
                return Ok(i as LocalId);
            }
        }
        let id = self.names.len();
        if id >= MAX_LOCALS {
            return Ok(NO_ID);
        }
        self.names.push(name)?;
        Ok(id as LocalId)
    }
}
