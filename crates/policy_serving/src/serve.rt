//! Serving a policy.
ghost use Rattle.std.specs.Prelude.{◌≡◌, ◌≢◌, ◌<◌, ◌+◌, ◌*◌, ◌^◌, All, IfOk, length, true};
ghost use Rattle.outside.specs.Outside.{Rose};
ghost use Rattle.endpoint_works.specs.Sides.{IsServedSide};
ghost use Rattle.event_composes.specs.Meanings.{data_in};
ghost use Rattle.policy_serving.specs.Proxies.{HasOne};
ghost use Rattle.policy_serving.specs.Places.{places_of};
ghost use Rattle.policy_serving.specs.Served.{IsOpening, ServesPolicy};

use crate::endpoints::places;
use crate::laws::{places_are_few, places_are_served};
use crate::promises::audit_is_kept;
use crate::proxy::Proxy;
use cv_io::{Duplicate, List, Memory};
use hyper_core::Hyper;
use outside::{Clock, Dial, Links, Sink, Spawner};
use policies::Policy;
use policy_lock::Machine;
use serving::{Place, Served, serve};
use std::alloc::Global;
use std::sync::Wait;
use std::thread::Threads;

/// Serves every endpoint of a policy until its dial gives no more connections, and writes the audit to `out`, a line
/// each: see [`serving::serve`].
pub fn serve_policy<
    R: Wait + Threads + Sync,
    K: Sink + Send,
    L: Links,
    P: Spawner,
    C: Clock + Duplicate + Drop + Send,
>(
    rt: &R,
    alloc: Global,
    policy: Policy,
    out: &mut K,
    links: &mut L,
    spawner: &mut P,
    clock: &C,
) -> Served
where
    L::Dial: Drop,
    <L::Dial as Dial>::In: Drop + Send,
    <L::Dial as Dial>::Out: Drop + Send,
    ensures serves { ServesPolicy ⟦<Hyper as Machine>⟧ (L.told links.old) (L.is_reliable links.old) (C.may clock.now)
        policy (K.held out.old) (K.held out.new) (L.faults links.old) (L.faults links.new) result }
    ensures link { result ≡ Served.Link → All (λ place. L.is_reliable links.old place.end ≡ true) (places_of policy)
        → Rose (L.faults links.old) (L.faults links.new) }
    ensures spawn { result ≡ Served.Spawn → Rose (P.faults spawner.old) (P.faults spawner.new) }
    ensures write { result ≡ Served.Write → Rose (K.faults out.old) (K.faults out.new) }
    ensures quiet { result ≢ Served.Write → K.faults out.new ≡ K.faults out.old }
{
    audit_is_kept();
    match opened(rt, alloc, policy) {
        Ok((machine, places)) => {
            serve::<Proxy, R, K, L, P, C>(rt, alloc, machine, places, out, links, spawner, clock)
        }
        Err(Memory) => Served::Memory,
    }
}

/// The machine of a policy, and its endpoints, each of which it serves.
fn opened<R: Threads + Sync>(
    rt: &R,
    alloc: Global,
    policy: Policy,
) -> Result<(Hyper, List<Place>), Memory>
    ensures opening { IfOk result (λ opened. IsOpening policy (data_in opened.0)) }
    ensures places { IfOk result (λ opened. opened.1 ≡ places_of policy) }
    ensures served { IfOk result
        (λ opened. All (λ place. IsServedSide (HasOne (data_in opened.0)) place.side) opened.1) }
    ensures few { IfOk result (λ opened. 2 * length opened.1 + 1 < 2 ^ 32) }
{
    places_are_served();
    places_are_few();
    policy.is_sound();
    let places = places(alloc, &policy)?;
    let machine = Hyper::open(rt, alloc, policy)?;
    Ok((machine, places))
}
