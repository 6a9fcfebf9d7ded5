//! Why a list of actions could not be read.
ghost use Rattle.std.specs.Prelude.{◌≡◌};
ghost use Rattle.of10_actions.specs.declared.fault.ActionFault.TheVariants as faults;

use cv_io::Memory;
use thiserror::Error;

/// What is wrong with the first action at fault, and the byte at which it begins; or want of memory.
/// The first four are the codes of OFPET_BAD_ACTION (section 5.4.4).
#[derive(Clone, Copy, PartialEq, Eq, Debug, Error)]
pub enum ActionFault {
    /// No action has its type.
    #[error("an unknown type at byte {at}")]
    BadType { at: u32 },
    /// Its length isn't its type's, or goes past the end.
    #[error("a bad length at byte {at}")]
    BadLen { at: u32 },
    /// A vid above 4095 or a pcp above 7.
    #[error("an argument out of range at byte {at}")]
    BadArgument { at: u32 },
    /// It is a vendor's.
    #[error("an action of a vendor at byte {at}")]
    BadVendor { at: u32 },
    #[error("out of memory")]
    Memory,
}

impl From<Memory> for ActionFault {
    ghost from_gives = { λ _ fault. fault ≡ faults.Memory };

    fn from(_wanted: Memory) -> ActionFault {
        ActionFault::Memory
    }
}
