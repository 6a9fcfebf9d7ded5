//! Why a plan is no topology.
ghost use Rattle.std.specs.Prelude.{◌≡◌};
ghost use Rattle.virtual_topology.specs.declared.fault.TopologyFault.TheVariants as faults;

use cv_io::{Memory, Text};
use std::alloc::{AllocError, AllocFailed};
use thiserror::Error;

/// What is wrong with a plan, in the order in which faults are looked for; or want of memory.
#[derive(PartialEq, Eq, Debug, Drop, Error)]
pub enum TopologyFault {
    /// A port has two cables, is two outside ports or one with a cable, has two links, or its number
    /// stands twice in a virtual switch; the second use.
    #[error("a port is used twice")]
    PortTwice { name: Text },
    /// A place that isn't there.
    #[error("there is no such port")]
    Unknown { name: Text },
    /// A link's end that is no link port, a link port without a link, or a cable or link whose ends are
    /// on one switch.
    #[error("a link or a cable can't be so")]
    LinkShape { name: Text },
    /// Links join the virtual switch to outside ports on two physical switches.
    #[error("linked virtual switches lie on two physical switches")]
    Mixed { name: Text },
    /// There are more switches, ports, cables or links than may be.
    #[error("there are more than {limit}")]
    TooMany { name: Text, limit: u32 },
    #[error("out of memory")]
    Memory,
}

impl From<Memory> for TopologyFault {
    ghost from_gives = { λ _ fault. fault ≡ faults.Memory };

    fn from(_wanted: Memory) -> TopologyFault {
        TopologyFault::Memory
    }
}

impl From<AllocError> for TopologyFault {
    ghost from_gives = { λ _ fault. fault ≡ faults.Memory };

    fn from(_wanted: AllocError) -> TopologyFault {
        TopologyFault::Memory
    }
}

impl<T: Drop> From<AllocFailed<T>> for TopologyFault {
    ghost from_gives = { λ _ fault. fault ≡ faults.Memory };

    fn from(_wanted: AllocFailed<T>) -> TopologyFault {
        TopologyFault::Memory
    }
}
