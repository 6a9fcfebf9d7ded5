//! Follows headers through a policy of one, four or twelve members, and prints what they give.
//! `bench/packet_map_run` measures its time.
mod asked;
mod fault;
mod network;
mod tables;
mod walks;

use asked::{Asked, FEW};
use std::env::Args;
use std::io;

pub(crate) const USAGE: &str =
    "usage: bench_parts map [1|4|12 ENTRIES HEADERS], at most 4096 entries";

/// Follows so many headers, and prints what they give.
fn show(rt: &HostRuntime, asked: &Asked) -> io::Result<()> {
    match walks::run(rt.alloc(), asked) {
        Ok(made) => println!(rt;
            "members={} entries={} headers={} outs={} ports={} told={}",
            asked.members.count(),
            asked.entries,
            asked.headers,
            made.outs,
            made.ports,
            made.told
        ),
        Err(fault) => println!(rt; "{fault}"),
    }
}

/// Does what the words ask for.
pub(crate) fn run(rt: &HostRuntime, words: &mut Args) -> io::Result<()> {
    match asked::read(words) {
        Some(asked) => show(rt, &asked),
        None => println!(rt; "{USAGE}"),
    }
}

/// Follows a few headers.
pub(crate) fn run_few(rt: &HostRuntime) -> io::Result<()> {
    show(rt, &FEW)
}
