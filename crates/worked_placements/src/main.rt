//! Worked examples of what is put on switches: the entries of rules and those that stand whatever the rules are, over
//! three policies, and an entry for one packet that gives way to another and comes back. The stored run compares what
//! is printed with what was worked by hand.
#![tactic(auto)]

mod gating;
mod networks;
mod placing;

use cv_io::Memory;
use std::io::{self, ErrorKind};

fn wanted(_memory: Memory) -> io::Error {
    io::Error::from(ErrorKind::OutOfMemory)
}

fn main(rt: HostRuntime) -> io::Result<()> {
    placing::show_row(&rt)?;
    placing::show_linked(&rt)?;
    placing::show_half(&rt)?;
    gating::show_table(&rt)
}
