//! The change of a switch's table, as it is written: from what is wanted there, or from what is told of it, as which
//! entries go and come. Both give the change that the machine means.
#![tactic(auto)]

mod between;
mod change;
mod entries;
pub mod laws;
mod numbering;
mod parting;
mod rows;
mod told;

pub use between::change_between;
pub use change::{Change, can_send};
pub use told::change_told;
