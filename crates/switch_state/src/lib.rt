//! What is known of a switch in its round, and what it is sent: batches as messages with their xids, barriers,
//! removals, ports that are down, requests for statistics and packets.
#![tactic(auto)]

pub mod barrier;
pub mod known;
pub mod laws;
pub mod messages;
mod outstanding;
pub mod removal;
mod sending;
pub mod worked;

pub use barrier::Barrier;
pub use known::Known;
pub use messages::echo_reply;
pub use removal::Removal;
