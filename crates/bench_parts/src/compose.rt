//! The rules of two members under an operator, kept as entries of the left one come and go, or composed anew. It
//! prints how many rules came and went. `bench/compose_run` measures its time and memory.
mod asked;
mod members;
mod phases;

use asked::{Asked, FEW};
use std::env::Args;
use std::io;
use std::marker::Brand;
use std::sync::ledger::Blank;
use std::thread::Threads;

pub(crate) const USAGE: &str =
    "usage: bench_parts compose plus|seq|over exact|prefix|wild RULES count|add|both|anew TURNS";

/// Does what is asked for, and prints how many rules came and went.
fn show<R: Threads + Sync>(host: &HostRuntime, rt: &R, asked: &Asked) -> io::Result<()> {
    match phases::counted::<_, Brand>(rt, host.alloc(), asked, Blank::new(1)) {
        Ok(tally) => println!(host; "came={} went={}", tally.came, tally.went),
        Err(memory) => println!(host; "{memory}"),
    }
}

/// Does what the words ask for.
pub(crate) fn run<R: Threads + Sync>(
    host: &HostRuntime,
    rt: &R,
    words: &mut Args,
) -> io::Result<()> {
    match asked::read(words) {
        Some(asked) => show(host, rt, &asked),
        None => println!(host; "{USAGE}"),
    }
}

/// Does it with few entries.
pub(crate) fn run_few<R: Threads + Sync>(host: &HostRuntime, rt: &R) -> io::Result<()> {
    show(host, rt, &FEW)
}
