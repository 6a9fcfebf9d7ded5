//! The gate before a switch's table. An entry whose match names all twelve fields is passed over
//! where another entry of its switch holds its header at a greater priority, since a switch might put
//! either above the other. The gate holds all entries that are to stand on a switch, the candidates,
//! and tells after each change which of those that pass left and which came. What stands in the way
//! of an entry is found by an index of matches.
#![tactic(auto)]

mod bucket;
mod buckets;
mod delta;
mod finder;
pub mod gate;
mod key;
pub mod laws;
mod log;
mod pool;
mod state;
mod touched;
pub mod worked;

pub use gate::{Gate, GateDelta};
pub use switch_meaning::PhysEntry;
