//! Rules are put on physical switches: the entry of a rule, with the tags and next hops that carry its
//! packets to ports of other switches, and the entries that stand there whatever the tables of members
//! have. What lies where is looked up in a topology and its paths.
#![tactic(auto)]

mod actions;
pub mod joining;
pub mod laws;
mod look;
pub mod placing;
pub mod standing;
mod transit;
pub mod worked;

pub use joining::wiring;
pub use placing::place;
pub use standing::fixed;
pub use switch_meaning::PhysEntry;
