//! What an event composes: each switch is written the change to what is wanted of it, from scratch or from what
//! is kept.
#![tactic(auto)]

pub mod composed;
pub mod composing;
pub mod keeping;
pub mod sources;
pub mod turning;
pub mod unchanged;
