//! Why there are no paths.
ghost use Rattle.std.specs.Prelude.{◌≡◌};
ghost use Rattle.inner_paths.specs.declared.fault.PathFault.TheVariants as faults;

use cv_io::{Memory, Text};
use std::alloc::{AllocError, AllocFailed};
use thiserror::Error;

/// Why the paths of a topology weren't made.
#[derive(PartialEq, Eq, Debug, Drop, Error)]
pub enum PathFault {
    /// Outside ports of one virtual switch lie on these two physical switches, and no path of cables
    /// leads from the first to the second.
    #[error("there is no path between two switches of one virtual switch")]
    Unreachable { from: Text, to: Text },
    #[error("out of memory")]
    Memory,
}

impl From<Memory> for PathFault {
    ghost from_gives = { λ _ fault. fault ≡ faults.Memory };

    fn from(_wanted: Memory) -> PathFault {
        PathFault::Memory
    }
}

impl From<AllocError> for PathFault {
    ghost from_gives = { λ _ fault. fault ≡ faults.Memory };

    fn from(_wanted: AllocError) -> PathFault {
        PathFault::Memory
    }
}

impl<T: Drop> From<AllocFailed<T>> for PathFault {
    ghost from_gives = { λ _ fault. fault ≡ faults.Memory };

    fn from(_wanted: AllocFailed<T>) -> PathFault {
        PathFault::Memory
    }
}
