//! The loop around the statement that is being compiled.
ghost use Rattle.std.specs.Prelude.{◌≡◌, ◌++◌, [], ◌∷◌, drop, false, true, OnOk};
ghost use Rattle.minijinja_code_parts.specs.internal.AtEnclosingLoop.{around_of, open_of, opened_in};
ghost use Rattle.minijinja_code_parts.specs.internal.EnclosingLoops.{opening, counting};

use minijinja_emitter::memory::OutOfMemory;
use std::alloc::Global;

/// What a statement may stand in that has to be closed where `break` or `continue` leaves it.
#[derive(Clone, Copy)]
pub enum Open {
    /// A scope of variables.
    Scope,
    /// An `autoescape` block.
    AutoEscape,
    /// A capture of output.
    Capture,
}

/// The innermost loop around the statement that is being compiled, if there is one, and what has
/// been compiled within it.
#[derive(Drop)]
pub struct EnclosingLoop {
    /// Whether there is a loop around it.
    in_loop: bool,
    /// The place where the loop asks for its next item.
    iterate: usize,
    /// What is open within the loop, the innermost last.
    opened: Vec<Open>,
    /// The places of jumps to the end of the loop, which is not known yet.
    breaks: Vec<usize>,
    /// The bytes of data nodes so far.
    data_bytes: usize,
}

impl EnclosingLoop {
    /// Outside of all loops. It allocates nothing yet.
    pub fn outside(alloc: Global) -> Self
        ensures { around_of result ≡ record {
          in_loop = false;
          iterate = 0;
          opened = [];
          breaks = [];
          bytes = 0;
        } }
    {
        EnclosingLoop {
            in_loop: false,
            iterate: 0,
            opened: Vec::new(alloc),
            breaks: Vec::new(alloc),
            data_bytes: 0,
        }
    }

    /// Within a loop that asks for its next item at a place, after `data_bytes` bytes of data
    /// nodes. It allocates nothing yet.
    pub(crate) fn of_loop(alloc: Global, iterate: usize, data_bytes: usize) -> Self
        ensures { around_of result ≡ record {
          in_loop = true;
          iterate = iterate;
          opened = [];
          breaks = [];
          bytes = data_bytes;
        } }
    {
        EnclosingLoop {
            in_loop: true,
            iterate,
            opened: Vec::new(alloc),
            breaks: Vec::new(alloc),
            data_bytes,
        }
    }

    /// The place where the loop asks for its next item.
    pub fn iterate(&self) -> usize
        ensures { result ≡ (around_of self.now).iterate }
    {
        self.iterate
    }

    /// The places of jumps to the end of the loop.
    pub fn breaks(&self) -> &[usize]
        ensures { result.now ≡ (around_of self.now).breaks }
    {
        &self.breaks
    }

    /// Notes the place of a jump to the end of the loop.
    pub(crate) fn break_at(&mut self, place: usize) -> Result<(), OutOfMemory>
        ensures { OnOk result (around_of self.new ≡ record (around_of self.old) {
          breaks = (around_of self.old).breaks ++ place ∷ [];
        }) }
    {
        self.breaks.push(place)?;
        Ok(())
    }

    /// What is open within the loop, the innermost last.
    pub(crate) fn opened(&self) -> &[Open]
        ensures { opened_in result.now ≡ (around_of self.now).opened }
    {
        &self.opened
    }

    /// Notes that something was opened.
    pub fn enter(&mut self, entered: Open) -> Result<(), OutOfMemory>
        ensures { OnOk result
            (around_of self.new ≡ opening (open_of entered) (around_of self.old)) }
    {
        self.opened.push(entered)?;
        Ok(())
    }

    /// Notes that the innermost is closed.
    pub fn leave(&mut self)
        ensures { around_of self.new ≡ record (around_of self.old) {
          opened = drop 1 (around_of self.old).opened;
        } }
    {
        self.opened.pop();
    }

    /// The bytes of data nodes so far.
    pub fn data_bytes(&self) -> usize
        ensures { result ≡ (around_of self.now).bytes }
    {
        self.data_bytes
    }

    /// Counts the bytes of a data node.
    pub fn count(&mut self, bytes: usize)
        ensures { around_of self.new ≡ counting bytes (around_of self.old) }
    {
        self.data_bytes = self.data_bytes.saturating_add(bytes);
    }

    /// Sets the bytes of data nodes so far, after a loop within this one.
    pub fn go_on(&mut self, data_bytes: usize)
        ensures { around_of self.new ≡ record (around_of self.old) { bytes = data_bytes } }
    {
        self.data_bytes = data_bytes;
    }
}
