//! The machine: one event in, one reply out, for any policy.
#![tactic(auto)]

mod crowding;
mod drafting;
mod glances;
pub mod hyper;
pub mod machine;
mod opening;
mod overtaking;
mod starting;
mod stepping;
mod takings;
mod views;
pub mod worlds;

pub use events::{Event, PolicyRefusal, Reply};
pub use hyper::Hyper;
pub use machine::Meaning;
pub use machine_drafts::session::{Member, Switch};
pub use machine_drafts::setup::Setup;
pub use machine_meaning::{Config, Owed};
pub use waitings::{Asker, Doubt, Part, Purpose, Waiting};
pub use worlds::Tables;
