//! A store of what is found by names: composed rules by the leaves of their ancestry, or by what they
//! are made of. Each stands under an id; what bears a name is found by links in order, not by a look
//! at all that is held.
#![tactic(auto)]

pub mod filed;
mod kept;
pub mod links;
pub mod store;

pub use filed::{ByLeaves, Filed};
pub use links::Link;
pub use store::Store;
