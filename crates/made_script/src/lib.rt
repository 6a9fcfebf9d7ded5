//! Scripts of any length, made of a seed: the switch and both members of the policy of benchmarks come
//! up, and the members then add entries in turn, of nets and ports that a generator draws.
#![tactic(auto)]

mod drawing;
mod messages;
pub mod script;
pub mod summary;
pub mod worked;

pub use script::Made;
pub use summary::{Summary, summary_line};
