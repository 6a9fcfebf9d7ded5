//! Why a message is refused.
ghost use Rattle.std.specs.Prelude.{◌≡◌};
ghost use Rattle.member_table.specs.declared.fault.TableFault.TheVariants as faults;

use cv_io::Memory;
use thiserror::Error;

/// Why a message is refused, in the order in which causes are looked for; or want of memory.
#[derive(Clone, Copy, PartialEq, Eq, Debug, Error)]
pub enum TableFault {
    /// An entry of equal rank, that isn't identical, overlaps; the least serial number of such.
    #[error("the entry {with} has the same rank and overlaps")]
    Overlap { with: u64 },
    /// The table has as many entries as it may have, and no identical one.
    #[error("the table holds its limit of {limit} entries")]
    Entries { limit: u32 },
    #[error("out of memory")]
    Memory,
}

impl From<Memory> for TableFault {
    ghost from_gives = { λ _ fault. fault ≡ faults.Memory };

    fn from(_wanted: Memory) -> TableFault {
        TableFault::Memory
    }
}
