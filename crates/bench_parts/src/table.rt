//! Adds entries to a table, gives them other actions, takes them out, and prints the counts.
//! `bench/table_run` measures its time.
mod asked;
mod counts;
mod messages;
mod phases;

use asked::{Asked, FEW};
use std::env::Args;
use std::io;

pub(crate) const USAGE: &str =
    "usage: bench_parts table [ENTRIES add|modify|delete|all PRIORITIES], at most 4096";

/// Does what is asked for, and prints the counts.
fn show(rt: &HostRuntime, asked: &Asked) -> io::Result<()> {
    match phases::run(rt.alloc(), asked) {
        Ok((made, left)) => println!(rt;
            "entries={} added={} modified={} deleted={} left={left} serials={}",
            asked.entries, made.added, made.modified, made.deleted, made.serials
        ),
        Err(fault) => println!(rt; "{fault}"),
    }
}

/// Does what the words ask for.
pub(crate) fn run(rt: &HostRuntime, words: &mut Args) -> io::Result<()> {
    match asked::read(words) {
        Some(asked) => show(rt, &asked),
        None => println!(rt; "{USAGE}"),
    }
}

/// Does it with few entries.
pub(crate) fn run_few(rt: &HostRuntime) -> io::Result<()> {
    show(rt, &FEW)
}
