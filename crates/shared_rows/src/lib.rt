//! The rows that stand on a switch, by rising key, in short runs that copies share: a copy takes a pointer for each
//! run, and a change of one row writes one run anew.
#![tactic(auto)]

mod keys;
pub mod rows;
mod runs;
pub mod worked;

pub use keys::cmp_keys;
pub use rows::{Rows, Taken};
