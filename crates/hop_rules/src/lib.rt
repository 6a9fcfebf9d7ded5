//! The rules of the nodes of the ports of virtual switches, through hops over links, kept as the rules of
//! the virtual switches change. A change recomposes only what descends from it: at each node the rules
//! that come are joined with those that they could meet, found by an index, and what goes is found by
//! what it was made of.
#![tactic(auto)]

mod building;
pub mod delta;
pub mod exits;
pub mod given;
mod joining;
pub mod laws;
mod level;
mod listing;
mod meeting;
pub mod node;
mod parts;
mod standing;
pub mod table;
mod telling;
pub mod turning;

pub use delta::PortDelta;
pub use exits::{Exit, LinkEnd};
pub use given::Given;
pub use joining::Around;
pub use node::{Node, Turn};
pub use table::HopTable;
pub use turning::change_node;
