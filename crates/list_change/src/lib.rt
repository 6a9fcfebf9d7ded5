//! Laws of change: what two operands make of each other, one list's change as a change of what is made of
//! it, and a change without what is in both of its lists. Nothing here knows what the items are.
#![tactic(auto)]

pub mod laws;
pub mod netting;

pub use netting::{Both, Netted, Place, net};
