//! How the work that takes connections hands them to the work that writes to them.
ghost use Rattle.std.specs.Prelude.{◌≡◌, false};
ghost use Rattle.endpoint_works.specs.Sides.{is_audit};

use cv_io::Session;
use std::sync::{Condvar, Mutex, Wait};

/// What is written to: the sink of a connection, and the session whose messages it gets.
#[derive(Drop)]
pub struct Hand<K> {
    pub sink: K,
    pub session: Session,
    ghost of_endpoint: { is_audit session.who ≡ false },
}

/// What lies between the two works.
#[derive(Drop)]
struct Slot<K> {
    hand: Option<Hand<K>>,
    closed: bool,
}

/// The place where one work puts a connection, and the other takes it.
#[derive(Drop)]
pub struct Handover<K> {
    slot: Mutex<Slot<K>>,
    moved: Condvar,
}

impl<K: Drop> Handover<K> {
    /// A place at which nothing lies.
    pub fn new() -> Self {
        Handover {
            slot: Mutex::new(Slot {
                hand: None,
                closed: false,
            }),
            moved: Condvar::new(),
        }
    }

    /// Puts a connection, once the one before was taken.
    pub fn give<R: Wait>(&self, rt: &R, hand: Hand<K>) {
        let mut slot = self
            .moved
            .wait_while(rt, self.slot.lock(rt), |slot| slot.hand.is_some());
        slot.hand = Some(hand);
        self.moved.notify_all();
    }

    /// No further connection comes.
    pub fn close<R: Wait>(&self, rt: &R) {
        let mut slot = self.slot.lock(rt);
        slot.closed = true;
        self.moved.notify_all();
    }

    /// Takes the next connection. `None` where none comes any more.
    pub fn take<R: Wait>(&self, rt: &R) -> Option<Hand<K>> {
        let mut slot = self.moved.wait_while(rt, self.slot.lock(rt), |slot| {
            slot.hand.is_none() && !slot.closed
        });
        let hand = slot.hand.take();
        self.moved.notify_all();
        hand
    }
}
