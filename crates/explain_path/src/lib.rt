//! Why a packet goes where it goes: the evaluations of its walk, the members that each asks, what of
//! their tables it meets, and whether that is used.
#![tactic(auto)]

mod asking;
mod explaining;
pub mod laws;
pub mod trace;
pub mod worked;

pub use explaining::explain;
pub use packet_map::{Walked, World};
pub use trace::{HopTrace, LeafTrace, Trace};
