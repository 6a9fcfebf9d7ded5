//! The posts under the lock.
ghost use Rattle.std.specs.Prelude.{◌<◌, ◌≤◌, All};
ghost use Rattle.policy_lock.specs.Seat.{IsSeatOf};

use counting_machine::{Counter, post, post_ones};
use cv_io::{List, Memory};
use policy_lock::{PolicyLock, Seat, open};
use std::alloc::Global;
use std::collections::VecDeque;
use std::sync::Wait;
use std::thread;
use std::thread::Threads;

// A thread's work: its seat, and the lock that it is a seat of.
#[derive(Drop)]
struct Job<'a> {
    lock: &'a PolicyLock<Counter>,
    seat: Seat<Counter>,
    ghost theirs: { IsSeatOf lock.now seat },
}

impl<'a> Job<'a> {
    fn run<R: Wait + Threads + Sync>(&mut self, rt: &R, posts: u64) {
        let _ = post_ones(rt, self.lock, &mut self.seat, posts);
    }

    // What the machine has added up.
    fn sum<R: Wait + Threads + Sync>(&mut self, rt: &R) -> Result<u64, Memory> {
        Ok(post(rt, self.lock, &mut self.seat, 0)?.reply)
    }
}

// A job for each seat.
fn jobs<'a>(
    alloc: Global,
    lock: &'a PolicyLock<Counter>,
    seats: List<Seat<Counter>>,
) -> Result<Vec<Job<'a>>, Memory>
    requires { All (IsSeatOf lock.now) seats }
{
    let mut jobs = Vec::with_capacity(alloc, seats.len())?;
    let mut seats = VecDeque::from(seats.into_vec());
    while let Some(seat) = seats.pop_front() {
        jobs.push(Job { lock, seat })?;
    }
    Ok(jobs)
}

/// Each of so many threads posts so many ones.
pub fn sum<R: Wait + Threads + Sync>(
    rt: &R,
    alloc: Global,
    threads: u32,
    posts: u64,
) -> Result<u64, Memory>
    requires { (0 < threads) × (threads ≤ 64) }
{
    let (lock, seats) = open(alloc, Counter { sum: 0 }, threads)?;
    let mut jobs = jobs(alloc, &lock, seats)?;
    thread::for_each_mut(
        rt,
        jobs.as_mut_slice(),
        threads as usize,
        &|_, job: &mut Job| job.run(rt, posts),
    );
    match jobs.pop() {
        Some(mut job) => job.sum(rt),
        None => Ok(0),
    }
}
