//! Puts entries on a switch, changes some, installs all anew or reports their numbers, and prints the
//! counts. `bench/install_run` measures its time.
mod asked;
mod entries;
mod phases;
mod tally;

use asked::{Asked, FEW};
use std::env::Args;
use std::io;

pub(crate) const USAGE: &str =
    "usage: bench_parts install [ENTRIES none|one|hundred|undo|whole|report|best ROUNDS PRIORITIES]";

/// Does what is asked for, and prints the counts.
fn show(rt: &HostRuntime, asked: &Asked) -> io::Result<()> {
    match phases::run(rt.alloc(), asked) {
        Ok(made) => println!(rt;
            "entries={} deletes={} adds={} cookies={} reported={}",
            asked.entries, made.deletes, made.adds, made.cookies, made.reported
        ),
        Err(fault) => println!(rt; "{fault}"),
    }
}

/// Does what the words ask for.
pub(crate) fn run(rt: &HostRuntime, words: &mut Args) -> io::Result<()> {
    match asked::read(words) {
        Some(asked) => show(rt, &asked),
        None => println!(rt; "{USAGE}"),
    }
}

/// Does it with few entries.
pub(crate) fn run_few(rt: &HostRuntime) -> io::Result<()> {
    show(rt, &FEW)
}
