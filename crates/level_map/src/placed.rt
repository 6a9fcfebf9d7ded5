ghost use Rattle.level_map.specs.declared.placed.PlaceFault.TheVariants.{Memory};
ghost use Rattle.std.specs.Prelude.{◌≡◌};

use std::alloc::AllocFailed;
use thiserror::Error;

/// The level of a rank that was placed.
#[derive(Clone, Copy, Debug, PartialEq, Eq)]
pub enum Placed {
    /// The rank has this level, and each other rank that which it had.
    Kept { level: u32 },
    /// The rank has this level, and all ranks were renumbered.
    Renumbered { level: u32 },
}

/// Why a rank was not placed.
#[derive(Clone, Copy, Debug, PartialEq, Eq, Error)]
pub enum PlaceFault {
    /// The rank is new, and as many ranks are there as there may be.
    #[error("{ranks} ranks are there, and there may be {limit}")]
    Full { ranks: u32, limit: u32 },
    #[error("out of memory")]
    Memory,
}

impl<T: Drop> From<AllocFailed<T>> for PlaceFault {
    ghost from_gives = { λ _ fault. fault ≡ Memory };

    fn from(_wanted: AllocFailed<T>) -> PlaceFault {
        PlaceFault::Memory
    }
}
