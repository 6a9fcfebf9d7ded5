//! What the works came to.
ghost use Rattle.std.specs.Prelude.{◌≡◌, ◌<◌, [], length, map, vec_capacity, vec_len};
ghost use Rattle.std.specs.List.{list_any};
ghost use Rattle.serving.specs.Works.{failed_of, has_failed, has_wanted, pass_of, wanted_of};

use crate::staff::Job;
use cv_io::List;
use endpoint_works::{Received, Sent, Task};
use lock_desk::Host;
use outside::{Clock, Dial};
use policy_lock::Seat;
use std::collections::VecDeque;
use std::sync::Wait;
use std::thread::Threads;

/// What the works of the endpoints came to.
#[derive(Drop)]
pub(crate) struct Gathered<H: Host> {
    /// Their seats, in their order, and room for one more.
    pub seats: Vec<Seat<H::Machine>>,
    /// A dial failed.
    pub failed: bool,
    /// Memory was wanted for a connection.
    pub wanted: bool,
}

/// What one work came to.
#[derive(Drop)]
struct Ended<H: Host> {
    seat: Seat<H::Machine>,
    failed: bool,
    wanted: bool,
}

/// Takes the works apart.
pub(crate) fn gather<R: Wait + Threads + Sync, H: Host, D: Dial + Drop, C: Clock + Drop>(
    tasks: List<Job<'_, R, H, D, C>>,
    room: Vec<Seat<H::Machine>>,
) -> Gathered<H>
where
    D::In: Drop,
    D::Out: Drop,
    requires empty { room.items ≡ [] }
    requires room { length tasks < vec_capacity room }
    ensures seats { result.seats.items ≡ map pass_of tasks.entry }
    ensures room { vec_len result.seats < vec_capacity result.seats }
    ensures failed { result.failed ≡ list_any failed_of tasks.entry }
    ensures wanted { result.wanted ≡ list_any wanted_of tasks.entry }
{
    let mut seats = room;
    let (mut failed, mut wanted) = (false, false);
    let mut tasks = VecDeque::from(tasks.into_vec());
    while let Some(task) = tasks.pop_front() {
        let ended = take_apart(task);
        seats.push_reserved(ended.seat);
        failed = failed || ended.failed;
        wanted = wanted || ended.wanted;
    }
    Gathered {
        seats,
        failed,
        wanted,
    }
}

/// Takes a work apart.
fn take_apart<R: Wait + Threads + Sync, H: Host, D: Dial + Drop, C: Clock + Drop>(
    task: Job<'_, R, H, D, C>,
) -> Ended<H>
where
    D::In: Drop,
    D::Out: Drop,
    ensures seat { result.seat ≡ pass_of task.entry }
    ensures failed { result.failed ≡ failed_of task.entry }
    ensures wanted { result.wanted ≡ wanted_of task.entry }
{
    match task {
        Task::Reader { reader } => Ended {
            failed: failed_in(reader.end),
            wanted: wanted_in(reader.end),
            seat: reader.pass,
        },
        Task::Writer { writer } => Ended {
            failed: false,
            wanted: matches!(writer.end, Some(Sent { wanted: true, .. })),
            seat: writer.pass,
        },
    }
}

/// Whether a work that has ended met a dial that failed.
fn failed_in(end: Option<Received>) -> bool
    ensures { result ≡ has_failed end }
{
    match end {
        Some(end) => end.failed,
        None => false,
    }
}

/// Whether it wanted memory.
fn wanted_in(end: Option<Received>) -> bool
    ensures { result ≡ has_wanted end }
{
    match end {
        Some(end) => end.wanted,
        None => false,
    }
}
