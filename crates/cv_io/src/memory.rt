//! Want of memory, the one failure that no caller can rule out.
ghost use Rattle.std.specs.Prelude.{⊤};

use std::alloc::{AllocError, AllocFailed};
use thiserror::Error;

/// Want of memory.
#[derive(Clone, Copy, PartialEq, Eq, Debug, Error)]
#[error("out of memory")]
pub struct Memory;

impl From<AllocError> for Memory {
    fn from(_wanted: AllocError) -> Memory {
        Memory
    }
}

impl<T: Drop> From<AllocFailed<T>> for Memory {
    fn from(_wanted: AllocFailed<T>) -> Memory {
        Memory
    }
}
