//! Sessions: how the connection of a controller or of a switch is opened, the loop that posts what the peer sends, and
//! the loop that writes what is to be sent to it.
//!
//! Each is generic over the desk that it posts to ([`Desk`]), over where bytes come from and go to, and over the clock.
//! A proxy runs two loops for each connection beside one another: [`run_reader`] and [`run_writer`].
#![tactic(auto)]

pub mod desk;
pub mod ends;
mod greeting;
mod hearing;
mod incoming;
mod leaving;
mod opening;
mod reader;
mod worked;
mod writer;
mod writing;

pub use desk::{Desk, Heard, Post, Taken};
pub use ends::{Greeted, OpenEnd, ReadEnd, WriteEnd};
pub use opening::{open_member, open_switch};
pub use reader::run_reader;
pub use worked::worked_examples;
pub use writer::run_writer;
pub use writing::write_all;
