//! What the machine is told, and what it answers; and events as records of bytes, as one proxy hands them to another.
#![tactic(auto)]

pub mod event;
pub mod laws;
mod reading;
pub mod worked;
mod writing;

pub use event::{Event, PolicyRefusal, Reply};
pub use reading::{EventFault, read_event};
pub use writing::write_event;
