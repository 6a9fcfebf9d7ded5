//! Settings of policies: what agreement reads of a policy.
#![tactic(auto)]

mod laws;
mod network;
mod settings;
mod wires;

pub use laws::{policies_agree, policies_are_ready, settings_are_sound, topologies_are_sound};
pub use network::virtual_switch;
pub use settings::setting;
pub use wires::wiring;
