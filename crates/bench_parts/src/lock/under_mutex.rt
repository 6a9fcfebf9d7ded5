//! The same posts under a `Mutex` of std.
ghost use Rattle.std.specs.Prelude.{◌≡◌, ◌<◌, ◌≤◌};

use counting_machine::Counter;
use cv_io::{Memory, Steps};
use policy_lock::Machine;
use std::alloc::Global;
use std::marker::Brand;
use std::sync::ledger::{Blank, Ledger};
use std::sync::{Mutex, Wait};
use std::thread;
use std::thread::Threads;

// Shows the number to the machine, as a post does.
fn add<R: Threads + Sync>(rt: &R, counter: &mut Counter, number: u64) -> Result<u64, Memory> {
    add_on::<R, Brand>(rt, counter, number, Blank::new(1))
}

fn add_on<R: Threads + Sync, G: Ledger>(
    rt: &R,
    counter: &mut Counter,
    number: u64,
    blank: Blank,
) -> Result<u64, Memory>
    requires { (blank.name ≡ G.name) × (blank.parts ≡ G.parts) × (0 < blank.parts) }
{
    let mut steps = Steps::<G>::new(blank);
    match counter.glance(&number) {
        Some(reply) => Ok(reply),
        None => counter.step(rt, &number, &mut steps),
    }
}

fn run<R: Wait + Threads + Sync>(rt: &R, counter: &Mutex<Counter>, posts: u64) {
    for _ in 0..posts {
        let mut held = counter.lock(rt);
        let _ = add(rt, &mut held, 1);
    }
}

/// Each of so many threads posts so many ones.
pub fn sum<R: Wait + Threads + Sync>(
    rt: &R,
    alloc: Global,
    threads: u32,
    posts: u64,
) -> Result<u64, Memory>
    requires { (0 < threads) × (threads ≤ 64) }
{
    let counter = Mutex::new(Counter { sum: 0 });
    let mut jobs = vec![in alloc; posts; threads as usize]?;
    thread::for_each_mut(
        rt,
        jobs.as_mut_slice(),
        threads as usize,
        &|_, posts: &mut u64| run(rt, &counter, *posts),
    );
    let held = counter.lock(rt);
    Ok(held.sum)
}
