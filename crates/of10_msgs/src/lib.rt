//! The messages of OpenFlow 1.0 (section 5 of the OpenFlow Switch Specification 1.0.0), from bytes
//! and to bytes.
#![tactic(auto)]

pub mod command;
pub mod fault;
pub mod field;
pub mod kind;
pub mod laws;
pub mod message;
pub mod number;
pub mod reading;
pub mod sender;
pub mod writing;

pub use command::Command;
pub use fault::FormFault;
pub use kind::Kind;
pub use message::{Body, FlowMod, MATCH, Message, PacketOut, PhyPort};
pub use reading::read_message;
pub use sender::{Sender, read_of_controller};
pub use writing::{fits, write_message};
