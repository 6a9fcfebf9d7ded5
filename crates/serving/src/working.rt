//! The works at work.
ghost use Rattle.std.specs.Prelude.{◌≡◌, ◌<◌, ◌+◌, ◌*◌, All, IfOk, OnErr, [], length, vec_capacity};
ghost use Rattle.std.specs.Thread.{IsSync};
ghost use Rattle.outside.specs.Works.{AllChanged, AllReady};
ghost use Rattle.endpoint_works.specs.Audits.{IsDrained, audit};
ghost use Rattle.endpoint_works.specs.Sides.{IsServedSide};
ghost use Rattle.endpoint_works.specs.Tasks.{HasWrittenAudit};
ghost use Rattle.policy_lock.specs.Seat.{IsSeatOf};
ghost use Rattle.serving.specs.Working.{HaveWorked};

use crate::dialling::Line;
use crate::gathering::gather;
use crate::staff::{Office, hire};
use cv_io::{Duplicate, List, Memory};
use endpoint_works::{AuditEnd, Others, write_audit};
use lock_desk::Host;
use outside::{Clock, Dial, ScopeSpawner, Sink, Spawner, Work};
use policy_lock::{Machine, Seat};
use sessions::Desk;
use std::sync::Wait;
use std::thread::{Threads, join_mut};

/// What the works came to.
#[derive(Drop)]
pub(crate) struct Worked<H: Host> {
    /// Their seats, in the order in which they were given.
    pub seats: List<Seat<H::Machine>>,
    /// A dial failed.
    pub failed: bool,
    /// Memory was wanted for a connection.
    pub wanted: bool,
    /// How the writing of the audit ended.
    pub end: Result<AuditEnd, Memory>,
}

/// Has two works for each line, and one for the audit, done beside one another. Each has the next seat.
pub(crate) fn work<
    'a,
    R: Wait + Threads + Sync,
    H: Host + Send,
    D: Dial + Drop + Send,
    K: Sink + Send,
    C: Clock + Duplicate + Drop + Send,
>(
    office: &Office<'a, R, H, D::Out, C>,
    lines: List<Line<D>>,
    seats: List<Seat<H::Machine>>,
    room: Vec<Seat<H::Machine>>,
    out: &mut K,
) -> Result<Worked<H>, Memory>
where
    D::In: Drop + Send,
    D::Out: Drop + Send,
    requires handovers { length office.now.handovers.now ≡ length lines }
    requires seats { length seats ≡ 2 * length lines + 1 }
    requires theirs { All (IsSeatOf office.now.lock.now) seats }
    requires sides { All (λ line. IsServedSide (H.knows office.now.lock.now.start) line.side) lines }
    requires empty { room.items ≡ [] }
    requires room { 2 * length lines < vec_capacity room }
    ensures worked { IfOk result (λ worked. HaveWorked ⟦<H::Machine as Machine>⟧ office.now.lock.now
        D.left D.is_reliable (C.may office.now.clock.now) worked.failed worked.wanted lines seats worked.seats
        (K.held out.old) (K.held out.new) (K.faults out.old) (K.faults out.new) worked.end) }
    ensures memory { OnErr result (K.held out.new ≡ K.held out.old) }
    ensures silent { OnErr result (K.faults out.new ≡ K.faults out.old) }
{
    let mut clock = office.clock.copy()?;
    let mut seats = seats;
    let Some(mut seat) = seats.pop() else {
        unreachable!()
    };
    let mut tasks = hire(office, lines, seats)?;
    let desk = office.desk(&seat);
    let end = all_at_work(
        office.rt,
        &desk,
        &mut seat,
        out,
        office.others,
        &mut clock,
        &mut tasks,
    );
    let gathered = gather(tasks, room);
    let mut seats = gathered.seats;
    seats.push_reserved(seat);
    Ok(Worked {
        seats: List::from_vec(seats),
        failed: gathered.failed,
        wanted: gathered.wanted,
        end,
    })
}

/// Writes the audit while the works of the endpoints are done.
fn all_at_work<
    R: Wait + Threads + Sync,
    D: Desk + Sync,
    K: Sink + Send,
    C: Clock + Send,
    W: Work + Send,
>(
    rt: &R,
    desk: &D,
    pass: &mut D::Pass,
    out: &mut K,
    others: &Others,
    clock: &mut C,
    works: &mut List<W>,
) -> Result<AuditEnd, Memory>
where
    D::Pass: Send,
    requires pass { D.admits desk.now pass.old }
    requires ready { AllReady W.ready works.old }
    ensures pass { D.admits desk.now pass.new }
    ensures written { HasWrittenAudit (D.posts pass.old) (K.held out.old) (K.held out.new)
        (K.faults out.old) (K.faults out.new) (D.posts pass.new) result }
    ensures drained { IfOk result (IsDrained (D.ended pass.new audit) (D.waits pass.new audit)) }
    ensures done { AllChanged W.changes works.old works.new }
{
    let mut audit = || -> Result<AuditEnd, Memory>
        requires { IsSync R.row × IsSync D.row × D.admits desk.now pass.now }
        ensures { D.admits desk.entry.now pass.exit.now
            × HasWrittenAudit (D.posts pass.entry.now) (K.held out.entry.now) (K.held out.exit.now)
            (K.faults out.entry.now) (K.faults out.exit.now) (D.posts pass.exit.now) result
            × IfOk result (IsDrained (D.ended pass.exit.now audit) (D.waits pass.exit.now audit)) }
    { write_audit(rt, desk, pass, out, others, clock) };
    let mut endpoints = ||
        requires { IsSync R.row × AllReady W.ready works.now }
        ensures { AllChanged W.changes works.entry.now works.exit.now }
    { do_all(rt, works) };
    let (end, ()) = join_mut(rt, &mut audit, &mut endpoints);
    end
}

/// Does all works beside one another.
fn do_all<R: Threads + Sync, W: Work + Send>(rt: &R, works: &mut List<W>)
    requires { AllReady W.ready works.old }
    ensures { AllChanged W.changes works.old works.new }
{
    if ScopeSpawner::new().all(rt, works).is_err() {
        unreachable!()
    }
}
