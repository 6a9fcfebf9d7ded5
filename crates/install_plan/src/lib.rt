//! What stands on a switch of the entries that are put there: of each match and priority the one with
//! the smallest ancestry, under its cookie. A change gives the batch that makes the new table of the
//! old one, and costs what changes.
#![tactic(auto)]

mod choosing;
mod finder;
pub mod installed;
mod key;
mod listing;
mod numbering;
mod slot;
mod slots;
pub mod written;

pub use installed::Installed;
pub use written::{Batch, Written};
