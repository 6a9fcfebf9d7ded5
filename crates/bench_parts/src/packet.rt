//! Reads or rewrites four frames so many times, and prints the sum of what that gives. `bench/packet_run`
//! measures its time.
mod frames;
mod work;

use std::env::Args;
use std::io;

pub(crate) const USAGE: &str = "usage: bench_parts packet read|rewrite TIMES";

/// What the words ask for.
#[derive(Clone, Copy)]
enum Asked {
    Read(u32),
    Rewrite(u32),
}

const FEW: Asked = Asked::Rewrite(1000);

fn read_words(words: &mut Args) -> Option<Asked> {
    let (Some(job), Some(times), None) = (words.next(), words.next(), words.next()) else {
        return None;
    };
    let times = times.parse().ok()?;
    match job.as_str() {
        "read" => Some(Asked::Read(times)),
        "rewrite" => Some(Asked::Rewrite(times)),
        _ => None,
    }
}

/// Reads or rewrites, and prints what that gives.
fn show(rt: &HostRuntime, asked: Asked) -> io::Result<()> {
    match asked {
        Asked::Read(times) => println!(rt; "read times={times} sum={}", work::read(times)),
        Asked::Rewrite(times) => match work::rewrite(rt.alloc(), times) {
            Ok(sum) => println!(rt; "rewrite times={times} sum={sum}"),
            Err(memory) => println!(rt; "{memory}"),
        },
    }
}

/// Does what the words ask for.
pub(crate) fn run(rt: &HostRuntime, words: &mut Args) -> io::Result<()> {
    match read_words(words) {
        Some(asked) => show(rt, asked),
        None => println!(rt; "{USAGE}"),
    }
}

/// Rewrites a few times.
pub(crate) fn run_few(rt: &HostRuntime) -> io::Result<()> {
    show(rt, FEW)
}
