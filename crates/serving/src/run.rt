//! A run: every endpoint is served.
ghost use Rattle.std.specs.Prelude.{◌≡◌, ◌≢◌, ◌<◌, ◌+◌, ◌*◌, ◌^◌, All, IfOk, OnErr, length, true};
ghost use Rattle.outside.specs.Outside.{Rose};
ghost use Rattle.endpoint_works.specs.Sides.{IsServedSide};
ghost use Rattle.serving.specs.Histories.{lines_taken};
ghost use Rattle.serving.specs.Runs.{Serves};

use crate::attending::attend;
use crate::dialling::dial_all;
use crate::place::Place;
use cv_io::{Duplicate, List, Memory};
use endpoint_works::Handover;
use lock_desk::{Bells, Host};
use outside::{Clock, Dial, Links, Sink, Spawner};
use policy_lock::{Machine, open};
use std::alloc::Global;
use std::sync::Wait;
use std::thread::Threads;

/// How serving ended. Where several apply it is the first of `Spawn`, `Write`, `Link` and `Memory`, but that `Link`
/// tells of an audit that is written whole.
#[derive(Clone, Copy, PartialEq, Eq, Debug)]
pub enum Served {
    /// Every dial gave all its connections, and every line of the audit is written.
    Done,
    /// An endpoint could not be dialled, or its dial failed. The others were served to their end, and every line of the
    /// audit is written.
    Link,
    /// The works could not be run.
    Spawn,
    /// The audit could not be written.
    Write,
    /// Want of memory.
    Memory,
}

/// Serves every endpoint until its dial gives no more connections, and writes the audit to `out`, a line each.
///
/// Two works for each endpoint that can be dialled, and one for the audit, post to one lock over the machine: their
/// calls stand in the one history of that lock. It waits for them.
pub fn serve<
    H: Host + Send,
    R: Wait + Threads + Sync,
    K: Sink + Send,
    L: Links,
    P: Spawner,
    C: Clock + Duplicate + Drop + Send,
>(
    rt: &R,
    alloc: Global,
    machine: H::Machine,
    places: List<Place>,
    out: &mut K,
    links: &mut L,
    spawner: &mut P,
    clock: &C,
) -> Served
where
    L::Dial: Drop,
    <L::Dial as Dial>::In: Drop + Send,
    <L::Dial as Dial>::Out: Drop + Send,
    requires served { All (λ place. IsServedSide (H.knows (H.Machine.meaning machine)) place.side) places }
    requires few { 2 * length places + 1 < 2 ^ 32 }
    ensures serves { Serves ⟦<H::Machine as Machine>⟧ (H.Machine.meaning machine) (L.told links.old)
        (L.is_reliable links.old) (C.may clock.now) lines_taken places (K.held out.old) (K.held out.new)
        (L.faults links.old) (L.faults links.new) result }
    ensures link { result ≡ Served.Link → All (λ place. L.is_reliable links.old place.end ≡ true) places
        → Rose (L.faults links.old) (L.faults links.new) }
    ensures spawn { result ≡ Served.Spawn → Rose (P.faults spawner.old) (P.faults spawner.new) }
    ensures write { result ≡ Served.Write → Rose (K.faults out.old) (K.faults out.new) }
    ensures quiet { result ≢ Served.Write → K.faults out.new ≡ K.faults out.old }
{
    match try_serve::<H, R, K, L, P, C>(rt, alloc, machine, places, out, links, spawner, clock) {
        Ok(served) => served,
        Err(Memory) => Served::Memory,
    }
}

/// The same, but that want of memory before the works begin is an error.
fn try_serve<
    H: Host + Send,
    R: Wait + Threads + Sync,
    K: Sink + Send,
    L: Links,
    P: Spawner,
    C: Clock + Duplicate + Drop + Send,
>(
    rt: &R,
    alloc: Global,
    machine: H::Machine,
    places: List<Place>,
    out: &mut K,
    links: &mut L,
    spawner: &mut P,
    clock: &C,
) -> Result<Served, Memory>
where
    L::Dial: Drop,
    <L::Dial as Dial>::In: Drop + Send,
    <L::Dial as Dial>::Out: Drop + Send,
    requires served { All (λ place. IsServedSide (H.knows (H.Machine.meaning machine)) place.side) places }
    requires few { 2 * length places + 1 < 2 ^ 32 }
    ensures serves { IfOk result (Serves ⟦<H::Machine as Machine>⟧ (H.Machine.meaning machine) (L.told links.old)
        (L.is_reliable links.old) (C.may clock.now) lines_taken places (K.held out.old) (K.held out.new)
        (L.faults links.old) (L.faults links.new)) }
    ensures link { IfOk result (λ served. served ≡ Served.Link
        → All (λ place. L.is_reliable links.old place.end ≡ true) places
        → Rose (L.faults links.old) (L.faults links.new)) }
    ensures spawn { IfOk result (λ served. served ≡ Served.Spawn
        → Rose (P.faults spawner.old) (P.faults spawner.new)) }
    ensures write { IfOk result (λ served. served ≡ Served.Write → Rose (K.faults out.old) (K.faults out.new)) }
    ensures memory { OnErr result (K.held out.new ≡ K.held out.old) }
    ensures quiet { IfOk result (λ served. served ≢ Served.Write → K.faults out.new ≡ K.faults out.old) }
    ensures silent { OnErr result (K.faults out.new ≡ K.faults out.old) }
{
    let lines = dial_all(alloc, links, places)?;
    let count = lines.lines.len();
    let handovers = handovers(alloc, count)?;
    let bells = Bells::new(alloc)?;
    let room = Vec::with_capacity(alloc, 2 * count + 1)?;
    let (lock, seats) = open(alloc, machine, 2 * count as u32 + 1)?;
    if spawner.admit().is_err() {
        return Ok(Served::Spawn);
    }
    attend::<H, R, L::Dial, K, C>(
        rt, alloc, lock, bells, seats, lines, handovers, room, out, clock,
    )
}

/// A place between the two works of each endpoint.
fn handovers<K: Drop>(alloc: Global, count: usize) -> Result<Vec<Handover<K>>, Memory>
    ensures { IfOk result (λ all. length all.items ≡ count) }
{
    let mut all = Vec::with_capacity(alloc, count)?;
    for _ in 0..count {
        all.push(Handover::new())?;
    }
    Ok(all)
}
