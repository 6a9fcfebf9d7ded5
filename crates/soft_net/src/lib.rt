//! Switches in memory (OpenFlow Switch Specification 1.0.0): one switch, which applies FLOW_MODs, answers
//! BARRIER_REQUEST and STATS_REQUEST for FLOW and PORT, counts, and says what it makes of a packet; and a net of
//! them, which carries packets over cables. Timeouts, buffers, CHECK_OVERLAP and the numbers that stand for
//! several ports aren't done.
#![tactic(auto)]

mod answer;
mod cabled;
mod cabling;
mod changing;
mod counting;
mod dress;
mod entry;
mod hearing;
mod laws;
mod net;
mod passed;
mod passing;
mod selecting;
mod selection;
mod stations;
mod switch;
mod table;
mod tag;

pub use answer::Answer;
pub use cabled::{NetAnswer, NetHit, NetPacket, NetPassed};
pub use dress::Dress;
pub use entry::{Key, SoftEntry};
pub use laws::{holding, using};
pub use net::{Heard, Net};
pub use passed::{Hit, Packet, Passed};
pub use selection::Selection;
pub use switch::SoftSwitch;
pub use table::Table;
