//! The desk over a lock.
ghost use Rattle.std.specs.Prelude.{◌≡◌};

use crate::answers::{heard, taken};
use crate::bells::{Bells, is_among};
use crate::host::Host;
use cv_io::{Bytes, Memory, Session, Who};
use endpoint_works::LaterDesk;
use events::{Event, Reply};
use outside::Clock;
use policy_lock::{Machine, PolicyLock, Seat};
use sessions::{Desk, Heard, Taken};
use std::snapshot::Snapshot;
use std::sync::Wait;
use std::sync::atomic::{AtomicU64, Ordering};
use std::thread::Threads;

// How long seconds are put off, in milliseconds.
const LATE: u64 = 30_000;

/// The lock over a machine of sessions, as these see it. A pass is a seat of the lock.
#[derive(Drop)]
pub struct LockDesk<'a, R, H: Host> {
    pub rt: &'a R,
    pub lock: &'a PolicyLock<H::Machine>,
    pub bells: &'a Bells,
    /// How often the session's bell had rung as it was last looked what waits for it.
    pub heard: AtomicU64,
    /// For how many milliseconds at least it has rested since a second was put off.
    pub late: AtomicU64,
    /// The seat as it once was: the desk admits it alone, and so contracts know that it has seen no less since.
    pub since: Snapshot<Seat<H::Machine>>,
}

impl<'a, R, H: Host> LockDesk<'a, R, H> {
    /// The desk that admits the seat from here on.
    pub fn new(
        rt: &'a R,
        lock: &'a PolicyLock<H::Machine>,
        bells: &'a Bells,
        seat: &Seat<H::Machine>,
    ) -> Self
        ensures lock { result.lock.now ≡ lock.now }
        ensures since { result.since.value ≡ seat.now }
    {
        LockDesk {
            rt,
            lock,
            bells,
            heard: AtomicU64::new(0),
            late: AtomicU64::new(0),
            since: Snapshot::of(seat),
        }
    }
}

impl<R: Wait + Threads + Sync, H: Host> Desk for LockDesk<'_, R, H> {
    ghost use Rattle.std.specs.Thread.{IsSync};
    ghost use Rattle.policy_lock.specs.Seat.{IsSeatOf};
    ghost use Rattle.lock_desk.specs.Passes.{HasEnded, IsSince, Shows, Waits, own_posts};

    type Pass = Seat<H::Machine>;

    // Who the machine knew as the lock was opened.
    ghost serves = { λ desk who. H.knows desk.lock.now.start who };

    // A method of a trait learns from the bounds of its block that the runtime is one, but not that threads may share
    // it, so the pass says that.
    ghost admits = { λ desk seat.
        IsSync R.row × IsSeatOf desk.lock.now seat × IsSince desk.since.value seat };

    // The seat's own calls.
    ghost posts = { λ seat. own_posts seat.pass };

    ghost ended = { λ seat session at. HasEnded ⟦<H::Machine as Machine>⟧ seat.pass session at };

    ghost waits = { λ seat session at. Waits ⟦<H::Machine as Machine>⟧ seat.pass session at };

    ghost shows = { λ seat second. Shows ⟦<H::Machine as Machine>⟧ H.is_at seat.pass second };

    fn up(&self, seat: &mut Seat<H::Machine>, who: Who, arp: bool) -> Result<Session, Memory> {
        let receipt = H::post(self.rt, self.lock, seat, Event::Up { who, arp })?;
        self.bells.ring_all(H::stirred(self.lock));
        let Reply::Opened { round } = receipt.reply else {
            unreachable!()
        };
        let session = Session { who, round };
        self.wake(&session);
        Ok(session)
    }

    fn hear(
        &self,
        seat: &mut Seat<H::Machine>,
        session: &Session,
        frame: Bytes,
    ) -> Result<Heard, Memory> {
        let event = Event::Msg {
            session: *session,
            frame,
        };
        let receipt = H::post(self.rt, self.lock, seat, event)?;
        self.bells.ring_all(H::stirred(self.lock));
        if matches!(receipt.reply, Reply::Closed) {
            self.wake(session);
        }
        Ok(heard(receipt))
    }

    fn gone(&self, seat: &mut Seat<H::Machine>, session: &Session) -> Result<Heard, Memory> {
        let event = Event::Gone { session: *session };
        let receipt = H::post(self.rt, self.lock, seat, event)?;
        self.bells.ring_all(H::stirred(self.lock));
        self.wake(session);
        Ok(heard(receipt))
    }

    fn tick(&self, seat: &mut Seat<H::Machine>, second: u64) -> Result<(), Memory> {
        let _receipt = H::post(self.rt, self.lock, seat, Event::Tick { second })?;
        self.bells.ring_all(H::stirred(self.lock));
        Ok(())
    }

    fn take(&self, seat: &mut Seat<H::Machine>, session: &Session) -> Result<Taken, Memory> {
        if let Some(bell) = self.bells.of(&session.who) {
            self.heard.store(bell.rung(), Ordering::SeqCst);
        }
        let event = Event::Take { session: *session };
        let receipt = H::post(self.rt, self.lock, seat, event)?;
        Ok(taken(receipt))
    }

    /// No second may be posted while a switch is crowded, to which it may add, but for one each 30 seconds.
    fn may_tick(&self) -> bool {
        let may = !H::is_crowded(self.lock) || self.late.load(Ordering::SeqCst) >= LATE;
        if may {
            self.late.store(0, Ordering::SeqCst);
        }
        may
    }

    /// It sleeps until the session's bell rings, for half a second at most.
    fn rest<C: Clock>(&self, session: &Session, clock: &mut C, turns: u32) {
        let Some(bell) = self.bells.of(&session.who) else {
            clock.rest(turns);
            return;
        };
        bell.lie_down();
        if !is_among(H::stirred(self.lock), &session.who) {
            let slept = bell.sleep(self.rt, self.heard.load(Ordering::SeqCst));
            self.late.fetch_add(slept, Ordering::SeqCst);
        } else if turns > 0 {
            // it waits, and yet it could not be taken
            clock.rest(turns);
        }
    }

    fn wake(&self, session: &Session) {
        if let Some(bell) = self.bells.of(&session.who) {
            bell.ring();
        }
    }

    ghost earlier = { λ seat second before shown le s began. H.earlier _ second before (shown s began) le };
}

impl<R: Wait + Threads + Sync, H: Host> LaterDesk for LockDesk<'_, R, H> {
    ghost use Rattle.lock_desk.specs.Passes.{IsSince};

    ghost later = { IsSince };

    fn from_here(&self, seat: &Seat<H::Machine>) -> Self {
        LockDesk {
            rt: self.rt,
            lock: self.lock,
            bells: self.bells,
            heard: AtomicU64::new(0),
            late: AtomicU64::new(0),
            since: Snapshot::of(seat),
        }
    }
}
