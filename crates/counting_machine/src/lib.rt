//! Two small machines under the lock of `policy_lock`: one adds up the numbers that it is told, the
//! other keeps notes. The lock's tests and its benchmark post to them, and they show how a machine
//! meets the lock's trait. Beside them stands a sink that counts lines, for tests of what is written.
#![tactic(auto)]

mod counter;
mod lines;
mod notebook;
mod posts;

pub use counter::Counter;
pub use lines::Lines;
pub use notebook::{Note, Notebook};
pub use posts::{post, post_ones};
