//! Polls of switches and members' barriers that wait for the answers of switches.
#![tactic(auto)]

mod changing;
mod looking;
pub mod parts;
mod ports;
mod state;
mod waitings;

pub use parts::Parts;
pub use state::{Asker, Doubt, Part, Purpose, Waiting};
pub use waitings::{Waitings, make};
