//! A replay: the lines of a script as events of the machine, and the report of what each puts into outboxes and audit.
//! And the form `make`: a made script is replayed over the policy of benchmarks, and what it gave is counted.
#![tactic(auto)]

mod bench_policy;
mod explaining;
mod hearing;
pub mod kind;
pub mod lines;
mod made_counts;
mod making;
pub mod player;
pub mod sessions;
pub mod streams;
mod telling;
pub mod worked;

pub use kind::Kind;
pub use making::make;
pub use player::{LINE, Player};
pub use sessions::{Found, Named};
pub use streams::Stream;
