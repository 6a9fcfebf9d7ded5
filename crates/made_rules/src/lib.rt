//! The rules that one node of a policy made, each with the names of what it is made of, and a change of
//! them in two steps. The first adds what comes and wants memory; the second lets go what goes and wants
//! none. Until then the change can be taken back. A rule that is made again of other rules stays under
//! its id, and the change doesn't tell of it.
#![tactic(auto)]

pub mod change;
pub mod laws;
pub mod made;
pub mod named;
pub mod old;
pub mod parting;
mod plan;
pub mod stay;

pub use change::Change;
pub use made::{Made, Origin};
pub use named::made_of;
pub use old::{Old, olds};
