//! The words of the command line: what they ask for, as the kit's `clap` matches them once the product's own test has
//! found them of a form.
#![tactic(auto)]

pub mod asking;
pub mod command;
mod forms;
mod meaning;
mod parser;

pub use asking::asked;
pub use command::Command;
