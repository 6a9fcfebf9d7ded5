//! OpenFlow messages on a stream: the header that each begins with, the cut of a stream into
//! frames, each of them one message, and the ERROR message (sections 5.1 and 5.4.4 of the OpenFlow
//! Switch Specification 1.0.0).
#![tactic(auto)]

pub mod framer;
pub mod laws;
pub mod stream;
pub mod wire;

pub use framer::{FrameFault, Framer};
pub use stream::frames_of;
pub use wire::{HEADER, VERSION, error, header, is_frame, length_of, xid_of};
