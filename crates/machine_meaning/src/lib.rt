//! What the machine means: its state, one step and a run as definitions, worked examples, and the laws.
#![tactic(auto)]

pub mod laws;
pub mod said;
pub mod state;
pub mod worked;

pub use said::{Asked, Down, Letter, Sent};
pub use state::{Config, Owed};
