//! Posts to a counting machine from several threads, under the lock of `policy_lock` or under a
//! `Mutex` of std, and prints what the machine has added up. `bench/lock_run` measures its time.
mod under_lock;
mod under_mutex;
mod words;

use std::env::Args;
use std::io;
use std::sync::Wait;
use std::thread::Threads;
use words::{FEW, Way, Work};

pub(crate) const USAGE: &str =
    "usage: bench_parts lock lock|mutex THREADS POSTS, of which THREADS is 1 to 64";

/// Posts as is asked for, and prints what the machine has added up.
fn show<R: Wait + Threads + Sync>(host: &HostRuntime, rt: &R, work: &Work) -> io::Result<()> {
    let (name, sum) = match work.way {
        Way::Lock => (
            "lock",
            under_lock::sum(rt, host.alloc(), work.threads, work.posts),
        ),
        Way::Mutex => (
            "mutex",
            under_mutex::sum(rt, host.alloc(), work.threads, work.posts),
        ),
    };
    match sum {
        Ok(sum) => println!(host;
            "{name} threads={} posts={} sum={sum}",
            work.threads, work.posts
        ),
        Err(memory) => println!(host; "{name} {memory}"),
    }
}

/// Does what the words ask for.
pub(crate) fn run<R: Wait + Threads + Sync>(
    host: &HostRuntime,
    rt: &R,
    words: &mut Args,
) -> io::Result<()> {
    match words::read(words) {
        Some(work) => show(host, rt, &work),
        None => println!(host; "{USAGE}"),
    }
}

/// Posts a few times under the lock.
pub(crate) fn run_few<R: Wait + Threads + Sync>(host: &HostRuntime, rt: &R) -> io::Result<()> {
    show(host, rt, &FEW)
}
