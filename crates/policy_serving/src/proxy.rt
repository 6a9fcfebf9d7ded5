//! The machine of the proxy as sessions post to it.
ghost use Rattle.policy_serving.specs.Proxies.{HasOne, HasTold};
ghost use Rattle.policy_serving.specs.Hosting.{earlier, goes, hears, opens, stays, stays_told, takes, tells, ticks};
ghost use Rattle.policy_serving.specs.Hosting.{told};

use cv_io::Memory;
use events::{Event, Reply};
use hyper_core::Hyper;
use lock_desk::Host;
use policy_lock::{PolicyLock, Receipt, Seat};
use std::sync::Wait;
use std::thread::Threads;

/// The proxy: `Hyper` as a machine of sessions. It knows the members and the switches of its policy.
#[derive(Clone, Copy, PartialEq, Eq, Debug)]
pub struct Proxy {}

impl Host for Proxy {
    type Machine = Hyper;

    ghost knows = { HasOne };

    ghost is_at = { HasTold };

    fn post<R: Wait + Threads + Sync>(
        rt: &R,
        lock: &PolicyLock<Hyper>,
        seat: &mut Seat<Hyper>,
        event: Event,
    ) -> Result<Receipt<Reply>, Memory> {
        lock_desk::post(rt, lock, seat, event)
    }

    fn stirred(lock: &PolicyLock<Hyper>) -> u64 {
        lock.stirred()
    }

    fn is_crowded(lock: &PolicyLock<Hyper>) -> bool {
        lock.is_crowded()
    }

    ghost stays_known = { stays };

    ghost opens = { opens };

    ghost hears = { hears };

    ghost goes = { goes };

    ghost ticks = { ticks };

    ghost told = { told };

    ghost tells = { tells };

    ghost stays_told = { stays_told };

    ghost earlier = { earlier };

    ghost takes = { takes };
}
