//! Why bytes are no body of statistics.
ghost use Rattle.std.specs.Prelude.{◌≡◌};
ghost use Rattle.of10_stats.specs.declared.fault.StatsFault.TheVariants as faults;

use cv_io::Memory;
use thiserror::Error;

/// The first thing that is wrong with the form of a body, in the order in which it is looked for; or
/// want of memory.
#[derive(Clone, Copy, PartialEq, Eq, Debug, Error)]
pub enum StatsFault {
    /// No statistics have its type.
    #[error("no statistics have the type {kind}")]
    BadStat { kind: u16 },
    /// So many bytes behind the flags are no body of its type.
    #[error("{length} bytes are no body of statistics of type {kind}")]
    BadLen { kind: u16, length: u32 },
    #[error("out of memory")]
    Memory,
}

impl From<Memory> for StatsFault {
    ghost from_gives = { λ _ fault. fault ≡ faults.Memory };

    fn from(_wanted: Memory) -> StatsFault {
        StatsFault::Memory
    }
}
