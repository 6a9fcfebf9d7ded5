//! What is to stand on switches: behind the gate of each its table. A change of the entries that are put there
//! gives a batch, and can be taken back without memory.
#![tactic(auto)]

pub mod laws;
pub mod switch_table;
pub mod tables;

pub use switch_table::SwitchTable;
pub use tables::{SwitchBatch, change_all, undo_all};
