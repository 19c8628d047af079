//! The refusal of memory, which is the only error while code is made.
ghost use Rattle.std.specs.Prelude.{◌≡◌, IfErr, IfOk, Ok};
ghost use Rattle.minijinja_syntax.specs.Errors.{IsOutOfMemory};

use minijinja_syntax::error::Error;
use std::alloc::{AllocError, AllocFailed};

/// Memory was refused.
#[derive(Clone, Copy)]
pub struct OutOfMemory;

impl From<AllocError> for OutOfMemory {
    fn from(_error: AllocError) -> Self {
        OutOfMemory
    }
}

impl<T: Drop> From<AllocFailed<T>> for OutOfMemory {
    fn from(_error: AllocFailed<T>) -> Self {
        OutOfMemory
    }
}

/// The outcome of a call that refuses memory alone, such as folding an expression.
pub fn memory_alone<T>(outcome: Result<T, Error<'static>>) -> Result<T, OutOfMemory>
    requires { IfErr outcome IsOutOfMemory }
    ensures { IfOk result (λ value. outcome.entry ≡ Ok value) }
{
    match outcome {
        Ok(value) => Ok(value),
        Err(_) => Err(OutOfMemory),
    }
}
