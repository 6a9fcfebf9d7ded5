//! Virtual topologies: physical switches and the cables between them, virtual switches whose outside
//! ports are physical ports, and the links between virtual switches.
#![tactic(auto)]

mod check;
mod fault;
mod known;
mod limits;
pub mod maps;
mod mixed;
mod plan;
mod standing;
mod text;
mod topology;
mod used;
mod uses;
mod wires;
mod worked;

pub use fault::TopologyFault;
pub use limits::{MOST_PAIRS, MOST_PORTS, MOST_SWITCHES};
pub use maps::Rows;
pub use plan::{PairItem, PortPlace, SwitchItem, TopologyPlan, VirtualItem, VirtualPort};
pub use topology::Topology;
pub use worked::worked_examples;
