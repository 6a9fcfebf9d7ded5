//! Why a frame is no message.
ghost use Rattle.std.specs.Prelude.{◌≡◌};
ghost use Rattle.of10_msgs.specs.declared.fault.FormFault.TheVariants as faults;

use cv_io::Memory;
use of10_actions::ActionFault;
use thiserror::Error;

/// The first thing that is wrong with the form of a frame, in the order in which it is looked for;
/// or want of memory.
#[derive(Clone, Copy, PartialEq, Eq, Debug, Error)]
pub enum FormFault {
    /// The version isn't 1, and the message is no HELLO.
    #[error("the version {version} is not 1")]
    BadVersion { version: u8 },
    /// No message has its type.
    #[error("no message has the type {kind}")]
    BadType { kind: u8 },
    /// No message of its type has its length.
    #[error("a message of type {kind} cannot have {length} bytes")]
    BadLen { kind: u8, length: u16 },
    /// Its list of actions is at fault.
    #[error("in the actions: {fault}")]
    Action { fault: ActionFault },
    /// It is a vendor's.
    #[error("a message of a vendor")]
    BadVendor,
    #[error("out of memory")]
    Memory,
}

impl From<Memory> for FormFault {
    ghost from_gives = { λ _ fault. fault ≡ faults.Memory };

    fn from(_wanted: Memory) -> FormFault {
        FormFault::Memory
    }
}
