//! Why a policy file is refused.
ghost use Rattle.std.specs.Prelude.{◌≡◌};
ghost use Rattle.policies.specs.declared.fault.PolicyFault.TheVariants as faults;

use cv_io::{Memory, Text};
use inner_paths::PathFault;
use policy_expr::ExprFault;
use std::alloc::{AllocError, AllocFailed};
use thiserror::Error;
use virtual_topology::TopologyFault;

/// What is wrong with a policy file, in the order in which faults are looked for, each in the whole file
/// before the next; or want of memory. The name is that of a top key, as `hops`, of a key of an item, as
/// `member[0].bits`, or of a virtual switch.
#[derive(Debug, Drop, Error)]
pub enum PolicyFault {
    #[error("the file is longer than 1048576 bytes")]
    Long,
    #[error("the file is no TOML document, or is not in UTF-8")]
    Syntax,
    #[error("{name}: there is no such key here in this version of the policy file")]
    Key { name: Text },
    #[error("{name}: this key has to be given")]
    Missing { name: Text },
    #[error("{name}: this value can't stand here")]
    Value { name: Text },
    #[error("the expression of virtual switch {name}: {fault}")]
    Expr { name: Text, fault: ExprFault },
    #[error("{fault}")]
    Topology { fault: TopologyFault },
    #[error("the outside ports of a virtual switch: {fault}")]
    Paths { fault: PathFault },
    #[error("virtual switch {name} needs {needed} levels of priority, of {limit}")]
    TooWide { name: Text, needed: u64, limit: u64 },
    #[error("out of memory")]
    Memory,
}

impl From<Memory> for PolicyFault {
    ghost from_gives = { λ _ fault. fault ≡ faults.Memory };

    fn from(_wanted: Memory) -> PolicyFault {
        PolicyFault::Memory
    }
}

impl From<AllocError> for PolicyFault {
    ghost from_gives = { λ _ fault. fault ≡ faults.Memory };

    fn from(_wanted: AllocError) -> PolicyFault {
        PolicyFault::Memory
    }
}

impl<T: Drop> From<AllocFailed<T>> for PolicyFault {
    ghost from_gives = { λ _ fault. fault ≡ faults.Memory };

    fn from(_wanted: AllocFailed<T>) -> PolicyFault {
        PolicyFault::Memory
    }
}
