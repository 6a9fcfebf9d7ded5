//! The works of a run.
ghost use Rattle.std.specs.Prelude.{◌≡◌, ◌<◌, ◌*◌, IfOk, length};
ghost use Rattle.serving.specs.Works.{AreTeams, IsReaderFor, IsWriterFor};

use crate::dialling::Line;
use cv_io::{Duplicate, List, Memory};
use endpoint_works::{Dialled, Handover, Others, Reader, Task, Writer};
use lock_desk::{Bells, Host, LockDesk};
use outside::{Clock, Dial, Sink};
use policy_lock::{PolicyLock, Seat};
use std::alloc::Global;
use std::collections::VecDeque;
use std::sync::Wait;
use std::thread::Threads;

/// A work of an endpoint: its desk is the lock.
pub(crate) type Job<'a, R, H, D, C> = Task<'a, R, LockDesk<'a, R, H>, Dialled<D>, C>;

/// What the works of a run share.
#[derive(Drop)]
pub(crate) struct Office<'a, R, H: Host, K: Drop, C> {
    pub rt: &'a R,
    pub alloc: Global,
    pub lock: &'a PolicyLock<H::Machine>,
    pub bells: &'a Bells,
    pub others: &'a Others,
    /// Each work has a copy of it.
    pub clock: &'a C,
    /// Between the two works of each line.
    pub handovers: &'a [Handover<K>],
}

impl<'a, R: Wait + Threads + Sync, H: Host, K: Sink + Drop, C: Clock> Office<'a, R, H, K, C> {
    pub(crate) fn new(
        rt: &'a R,
        alloc: Global,
        lock: &'a PolicyLock<H::Machine>,
        bells: &'a Bells,
        others: &'a Others,
        clock: &'a C,
        handovers: &'a [Handover<K>],
    ) -> Self
        ensures lock { result.lock.now ≡ lock.now }
        ensures clock { result.clock.now ≡ clock.now }
        ensures handovers { result.handovers.now ≡ handovers.now }
    {
        Office {
            rt,
            alloc,
            lock,
            bells,
            others,
            clock,
            handovers,
        }
    }

    /// The lock as a desk that admits the seat.
    pub(crate) fn desk(&self, seat: &Seat<H::Machine>) -> LockDesk<'a, R, H>
        ensures lock { result.lock.now ≡ self.now.lock.now }
        ensures since { result.since.value ≡ seat.now }
    {
        LockDesk::new(self.rt, self.lock, self.bells, seat)
    }

    /// The place between the two works of the line of this number.
    fn handover(&self, number: usize) -> &'a Handover<K>
        requires { number < length self.now.handovers.now }
    {
        &self.handovers[number]
    }
}

/// The work that takes the connections of the line of this number, and reads from them.
fn reader<'a, R: Wait + Threads + Sync, H: Host, D: Dial + Drop, C: Clock>(
    office: &Office<'a, R, H, D::Out, C>,
    number: usize,
    line: Line<D>,
    seat: Seat<H::Machine>,
) -> Reader<'a, R, LockDesk<'a, R, H>, Dialled<D>>
where
    D::In: Drop,
    D::Out: Drop,
    requires { number < length office.now.handovers.now }
    ensures pass { result.pass ≡ seat }
    ensures lock { result.desk.lock.now ≡ office.now.lock.now }
    ensures since { result.desk.since.value ≡ seat }
    ensures side { result.side ≡ line.side }
    ensures dial { result.arrivals.dial ≡ line.dial }
{
    let Line { side, dial } = line;
    Reader {
        rt: office.rt,
        alloc: office.alloc,
        others: office.others,
        handover: office.handover(number),
        desk: office.desk(&seat),
        pass: seat,
        side,
        arrivals: Dialled { dial },
        end: None,
    }
}

/// The work that writes to them.
fn writer<'a, R: Wait + Threads + Sync, H: Host, K: Sink + Drop, C: Clock>(
    office: &Office<'a, R, H, K, C>,
    number: usize,
    seat: Seat<H::Machine>,
    clock: C,
) -> Writer<'a, R, LockDesk<'a, R, H>, K, C>
    requires { number < length office.now.handovers.now }
    ensures pass { result.pass ≡ seat }
    ensures lock { result.desk.lock.now ≡ office.now.lock.now }
    ensures since { result.desk.since.value ≡ seat }
    ensures clock { result.clock ≡ clock }
{
    Writer {
        rt: office.rt,
        others: office.others,
        handover: office.handover(number),
        desk: office.desk(&seat),
        pass: seat,
        clock,
        end: None,
    }
}

/// The works, two for each line; each has the next seat.
pub(crate) fn hire<
    'a,
    R: Wait + Threads + Sync,
    H: Host,
    D: Dial + Drop,
    C: Clock + Duplicate + Drop,
>(
    office: &Office<'a, R, H, D::Out, C>,
    lines: List<Line<D>>,
    seats: List<Seat<H::Machine>>,
) -> Result<List<Job<'a, R, H, D, C>>, Memory>
where
    D::In: Drop,
    D::Out: Drop,
    requires handovers { length office.now.handovers.now ≡ length lines }
    requires seats { length seats ≡ 2 * length lines }
    ensures { IfOk result (AreTeams (IsReaderFor office.now.lock.now)
        (IsWriterFor office.now.lock.now office.now.clock.now) lines seats) }
{
    let mut tasks = List::with_capacity(office.alloc, seats.len())?;
    let mut lines = VecDeque::from(lines.into_vec());
    let mut seats = VecDeque::from(seats.into_vec());
    let mut number = 0;
    while let Some(line) = lines.pop_front() {
        let clock = office.clock.copy()?;
        let Some(first) = seats.pop_front() else {
            unreachable!()
        };
        let Some(second) = seats.pop_front() else {
            unreachable!()
        };
        tasks.push(Task::Reader {
            reader: reader(office, number, line, first),
        })?;
        tasks.push(Task::Writer {
            writer: writer(office, number, second, clock),
        })?;
        number += 1;
    }
    Ok(tasks)
}
