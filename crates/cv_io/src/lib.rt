//! What every crate stands on: lists that contracts see as lists, texts of ASCII, want of memory, and the names of
//! sessions and of the leaves of a policy.
#![tactic(auto)]

pub mod leaf;
pub mod list;
pub mod memory;
pub mod steps;
pub mod text;

pub use leaf::{Leaf, Named, Session, Who};
pub use list::{Bytes, Duplicate, List};
pub use memory::Memory;
pub use steps::Steps;
pub use text::{NotAscii, Text};
