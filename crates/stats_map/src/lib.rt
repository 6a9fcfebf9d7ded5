//! Counts of members' entries: the packets and bytes of all entries that were ever made of them, as the
//! switches reported. What stands on switches is held, and what is deleted and not yet reported; of all
//! else only totals. What an event makes of them is drafted apart, in `Pending`, and then made at once.
#![tactic(auto)]

pub mod changes;
mod cookies;
mod copies;
pub mod counts;
pub mod laws;
mod overlay;
pub mod pending;
mod rooms;
mod row;
mod slot_sums;
mod slots;
mod sum;
mod sums;

pub use changes::Changes;
pub use counts::{Counts, Known};
pub use pending::Pending;
