//! Paths between the physical switches of a topology, and the VLAN numbers by which packets for an
//! outside port are told apart on them.
#![tactic(auto)]

mod cut;
mod distance;
mod fault;
mod hop;
mod paths;
mod table;
mod tag;
mod worked;

pub use fault::PathFault;
pub use paths::Paths;
pub use worked::worked_examples;
