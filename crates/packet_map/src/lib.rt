//! The ways of packets over the policy, by the members' present tables: what leaves at which port, and
//! which member is told. Each member's table is asked by its best entry, and nothing is composed.
#![tactic(auto)]

pub mod acted;
pub mod answer;
mod emitting;
mod evaluation;
pub mod hop;
pub mod laws;
mod sending;
mod walking;
pub mod worked;
pub mod world;

pub use acted::Acted;
pub use answer::{Answer, Member};
pub use hop::{arriving, coming_by};
pub use policy_meaning::{PortOut, Told, Walked};
pub use sending::sent;
pub use walking::tellings;
pub use world::World;
