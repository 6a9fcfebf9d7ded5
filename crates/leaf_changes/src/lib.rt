//! How the rules of a member change with what is planned for its table: which leaves go, and which rules come.
#![tactic(auto)]

mod anew;
mod coming;
mod delta;
pub mod laws;
mod making;
mod numbers;
pub mod plans;

pub use delta::leaf_delta;
