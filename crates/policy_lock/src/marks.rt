//! Words beside the machine. No proof speaks of them.
use std::sync::Wait;
use std::sync::atomic::{AtomicU64, Ordering};
use std::time::Duration;

// How often a seat sleeps in vain, another having been faster each time, before it asks for its turn. A sleep lasts a
// millisecond at most, so beside short events a seat waits some 8 milliseconds at most before others give way. With
// fewer sleeps threads would hand the machine on by sleeping and waking where many are busy.
const PATIENCE: u32 = 8;

/// What waits in a machine, for whom sleeps outside.
#[derive(Clone, Copy, PartialEq, Eq, Debug)]
pub struct Marks {
    /// A bit for each session for which something waits.
    pub stirred: u64,
    /// Much waits for a switch.
    pub crowded: bool,
}

impl Marks {
    /// Nothing waits.
    pub fn none() -> Marks {
        Marks {
            stirred: 0,
            crowded: false,
        }
    }
}

/// What a lock has beside its machine.
#[derive(Drop)]
pub(crate) struct Words {
    /// How many seats sleep until the machine is given back.
    pub(crate) asleep: AtomicU64,
    /// 1 from a wake until a seat comes out of its sleep.
    pub(crate) waking: AtomicU64,
    /// How many seats ask for their turn.
    asking: AtomicU64,
    /// It stays 0. Who posts an event that is held sleeps on it.
    resting: AtomicU64,
    /// The marks of the machine as it was last given back.
    stirred: AtomicU64,
    crowded: AtomicU64,
}

impl Words {
    pub(crate) fn new() -> Words {
        Words {
            asleep: AtomicU64::new(0),
            waking: AtomicU64::new(0),
            asking: AtomicU64::new(0),
            resting: AtomicU64::new(0),
            stirred: AtomicU64::new(0),
            crowded: AtomicU64::new(0),
        }
    }

    /// A seat that waits goes to sleep, and has slept so often before. With the last sleep that it bears it begins to
    /// ask for its turn. How often it has slept then, counted up to that.
    pub(crate) fn tire(&self, sleeps: u32) -> u32 {
        if sleeps == PATIENCE - 1 {
            self.asking.fetch_add(1, Ordering::SeqCst);
        }
        sleeps.saturating_add(1).min(PATIENCE)
    }

    /// A seat that slept so often has its turn, and asks no longer.
    pub(crate) fn serve(&self, sleeps: u32) {
        if sleeps == PATIENCE {
            self.asking.fetch_sub(1, Ordering::SeqCst);
        }
    }

    /// A seat asks for its turn.
    pub(crate) fn is_asked(&self) -> bool {
        self.asking.load(Ordering::SeqCst) > 0
    }

    pub(crate) fn rest<R: Wait>(&self, rt: &R, turn: Duration) {
        self.resting.park_timeout(rt, 0, turn);
    }

    pub(crate) fn mark(&self, marks: Marks) {
        self.stirred.store(marks.stirred, Ordering::SeqCst);
        self.crowded
            .store(u64::from(marks.crowded), Ordering::SeqCst);
    }

    pub(crate) fn marks(&self) -> Marks {
        Marks {
            stirred: self.stirred.load(Ordering::SeqCst),
            crowded: self.crowded.load(Ordering::SeqCst) != 0,
        }
    }
}
