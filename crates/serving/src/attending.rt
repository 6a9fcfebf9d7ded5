//! Attending to the endpoints that were dialled.
ghost use Rattle.std.specs.Prelude.{◌≡◌, ◌≢◌, ◌<◌, ◌+◌, ◌*◌, ◌^◌, ◌||◌, [], All, Bool, IfOk, List, OnErr, Option};
ghost use Rattle.std.specs.Prelude.{ℕ, is_err, length, map, true, vec_capacity};
ghost use Rattle.std.specs.List.{IsDistinct};
ghost use Rattle.outside.specs.Connections.{Connection};
ghost use Rattle.outside.specs.Outside.{Rose, RoseBy};
ghost use Rattle.outside.specs.declared.links.Endpoint.{Endpoint};
ghost use Rattle.endpoint_works.specs.Sides.{IsServedSide};
ghost use Rattle.policy_lock.specs.History.{same_number};
ghost use Rattle.policy_lock.specs.Number.{Numbered, missing, numbers};
ghost use Rattle.policy_lock.specs.Seat.{IsSeatOf};
ghost use Rattle.serving.specs.Attending.{IsSilent, is_cut_off, settled};
ghost use Rattle.serving.specs.Histories.{lines_taken};
ghost use Rattle.serving.specs.Lines.{AreLinesOf};
ghost use Rattle.serving.specs.Runs.{Serves};
ghost use Rattle.serving.specs.declared.place.Place.{Place};

use crate::closing::{Rest, write_rest};
use crate::dialling::Lines;
use crate::run::Served;
use crate::staff::Office;
use crate::working::work;
use cv_io::{Duplicate, List, Memory};
use endpoint_works::{AuditEnd, Handover, Others};
use lock_desk::{Bells, Host};
use outside::{Clock, Dial, Sink};
use policy_lock::{Machine, PolicyLock, Seat};
use std::alloc::Global;
use std::sync::Wait;
use std::thread::Threads;

/// Has the works of the endpoints done, closes the lock with their seats, and writes what still waits of the audit.
pub(crate) fn attend<
    H: Host + Send,
    R: Wait + Threads + Sync,
    D: Dial + Drop + Send,
    K: Sink + Send,
    C: Clock + Duplicate + Drop + Send,
>(
    rt: &R,
    alloc: Global,
    lock: PolicyLock<H::Machine>,
    bells: Bells,
    seats: List<Seat<H::Machine>>,
    lines: Lines<D>,
    handovers: Vec<Handover<D::Out>>,
    room: Vec<Seat<H::Machine>>,
    out: &mut K,
    clock: &C,
) -> Result<Served, Memory>
where
    D::In: Drop + Send,
    D::Out: Drop + Send,
    requires few { 2 * length lines.lines + 1 < 2 ^ 32 }
    requires handovers { length handovers.items ≡ length lines.lines }
    requires seats { length seats ≡ 2 * length lines.lines + 1 }
    requires theirs { All (IsSeatOf lock) seats }
    requires all { missing (numbers seats) ≡ 0 }
    requires once { IsDistinct same_number (map (λ (n : Numbered). n.0) (numbers seats)) }
    requires silent { All IsSilent seats }
    requires sides { All (λ line. IsServedSide (H.knows lock.start) line.side) lines.lines }
    requires empty { room.items ≡ [] }
    requires room { 2 * length lines.lines < vec_capacity room }
    ensures serves { IfOk result (λ served. (told : Endpoint → Option (List Connection)) (reliable : Endpoint → Bool)
        (places : List Place) (faults risen : ℕ) → RoseBy lines.undialled faults risen
        → AreLinesOf told reliable D.left D.is_reliable lines.undialled places lines.lines
        → Serves ⟦<H::Machine as Machine>⟧ lock.start told reliable (C.may clock.now) lines_taken places
        (K.held out.old) (K.held out.new)
        faults risen served) }
    ensures link { IfOk result (λ served. served ≡ Served.Link → lines.undialled ≡ 0
        → All (λ line. D.is_reliable line.dial ≡ true) lines.lines → ⊥) }
    ensures spawn { IfOk result (λ served. served ≢ Served.Spawn) }
    ensures write { IfOk result (λ served. served ≡ Served.Write → Rose (K.faults out.old) (K.faults out.new)) }
    ensures memory { OnErr result (K.held out.new ≡ K.held out.old) }
    ensures quiet { IfOk result (λ served. served ≢ Served.Write → K.faults out.new ≡ K.faults out.old) }
    ensures silent { OnErr result (K.faults out.new ≡ K.faults out.old) }
{
    let Lines { lines, undialled } = lines;
    let others = Others::new(2 * lines.len() as u64);
    let office = Office::<R, H, _, C>::new(
        rt,
        alloc,
        &lock,
        &bells,
        &others,
        clock,
        handovers.as_slice(),
    );
    let worked = work(&office, lines, seats, room, out)?;
    let Ok(mut machine) = lock.close(worked.seats) else {
        unreachable!()
    };
    if is_cut(&worked.end) {
        return Ok(Served::Write);
    }
    let rest = write_rest::<H, R, K>(rt, &mut machine, out);
    let lost = worked.end.is_err();
    Ok(settle(rest, undialled > 0, worked.failed, worked.wanted, lost))
}

/// Whether a line of the audit could not be written.
fn is_cut(end: &Result<AuditEnd, Memory>) -> bool
    ensures { result ≡ is_cut_off end.now }
{
    matches!(end, Ok(AuditEnd::WriteFault))
}

/// How a run ended whose audit was written so far: where an endpoint could not be dialled, or a dial failed, or memory
/// was wanted for a connection, or the audit's work ended for want of it.
fn settle(rest: Rest, undialled: bool, failed: bool, wanted: bool, lost: bool) -> Served
    ensures { result ≡ settled rest (undialled || failed) (wanted || lost) }
{
    match rest {
        Rest::WriteFault => Served::Write,
        Rest::Memory => Served::Memory,
        Rest::Written if undialled || failed => Served::Link,
        Rest::Written if wanted || lost => Served::Memory,
        Rest::Written => Served::Done,
    }
}
