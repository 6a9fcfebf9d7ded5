//! What the program `covisor` does, over files, an input, an output, connections, works and a clock that its caller
//! makes: `run`.
#![tactic(auto)]

mod ending;
mod forms;
pub mod laws;
mod line_notes;
mod lines;
mod live;
mod noting;
mod opening;
mod program;
mod replay;
mod status;
mod stop;
mod telling;
mod writing;

pub use program::{MEMORY, run};
