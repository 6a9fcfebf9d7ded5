//! Why a member's message isn't planned.
ghost use Rattle.std.specs.Prelude.{◌≡◌};
ghost use Rattle.member_state.specs.declared.fault.FlowFault.TheVariants as faults;

use cv_io::Memory;
use grants::Denial;
use thiserror::Error;

/// A FLOW_MOD is refused by a rule; or want of memory.
#[derive(Clone, Copy, PartialEq, Eq, Debug, Error)]
pub enum FlowFault {
    #[error("{0}")]
    Denied(Denial),
    #[error("out of memory")]
    Memory,
}

impl From<Memory> for FlowFault {
    ghost from_gives = { λ _ fault. fault ≡ faults.Memory };

    fn from(_wanted: Memory) -> FlowFault {
        FlowFault::Memory
    }
}

impl From<Denial> for FlowFault {
    ghost from_gives = { λ denial fault. fault ≡ faults.Denied denial };

    fn from(denial: Denial) -> FlowFault {
        FlowFault::Denied(denial)
    }
}
