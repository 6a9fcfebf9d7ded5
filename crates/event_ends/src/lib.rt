//! How an event ends: what waits for nothing any more settles, what changed is told, and what is said is put and moved
//! in.
#![tactic(auto)]

pub mod audit_lines;
pub mod boxes;
pub mod doubts;
pub mod forgetting;
pub mod moving;
pub mod overfilled;
pub mod putting;
pub mod requests;
pub mod settling;
pub mod telling;
pub mod telling_ports;
pub mod telling_removals;
