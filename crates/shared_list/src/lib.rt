//! Lists in short runs that copies share: a copy takes a pointer for each run, and a change writes one run anew.
#![tactic(auto)]

mod changing;
pub mod list;
mod searching;
pub mod wanted;

pub use list::SharedList;
pub use wanted::Wanted;
