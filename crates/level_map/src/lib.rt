//! Levels of ranks. A table of b bits has 2^b levels: 0 for what lies outside, 1 for a miss, and from 2
//! on one for each distinct rank of its entries, in their order.
#![tactic(auto)]

pub mod laws;
mod map;
mod placed;
mod ranked;
mod sorted;

pub use map::LevelMap;
pub use placed::{PlaceFault, Placed};
