//! The bodies of statistics messages (section 5.3.5 of the OpenFlow Switch Specification 1.0.0), from
//! bytes and to bytes.
#![tactic(auto)]

pub mod fault;
pub mod kind;
pub mod laws;
pub mod parts;
pub mod reading;
pub mod reply;
pub mod request;
pub mod writing;

pub use fault::StatsFault;
pub use kind::StatsKind;
pub use reading::{read_reply, read_request};
pub use reply::{FlowStat, PortStat, ReplyBody, StatsReply};
pub use request::StatsRequest;
pub use writing::{write_reply, write_request};
