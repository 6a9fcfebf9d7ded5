//! Bells, by which who rests for a session is woken.
use cv_io::{List, Memory, Who};
use std::alloc::Global;
use std::sync::Wait;
use std::sync::atomic::{AtomicU64, Ordering};
use std::time::Duration;

// Members come first, then switches, then the audit.
const MEMBERS: u32 = 32;

const SWITCHES: u32 = 16;

const BELLS: u32 = MEMBERS + SWITCHES + 1;

// The longest sleep, in milliseconds.
const LONGEST: u64 = 500;

/// A bell for each member and switch, and one for the audit. No contract rests on bells: a rest may end at any time.
#[derive(Drop)]
pub struct Bells {
    bells: List<Bell>,
}

/// Who sleeps by it sets `asleep`, and then looks whether something waits; who adds what waits looks at `asleep` behind
/// that. So one of both sees the other.
#[derive(Drop)]
pub(crate) struct Bell {
    /// How often it has rung.
    rung: AtomicU64,
    /// 1 where somebody may have fallen asleep since it rang.
    asleep: AtomicU64,
}

/// The place of a session's bell, and of its bit among those of the machine. None where the session can have none.
fn place_of(who: &Who) -> Option<u32> {
    match who {
        Who::Member(index) if *index < MEMBERS => Some(*index),
        Who::Switch(index) if *index < SWITCHES => Some(MEMBERS + *index),
        Who::Audit => Some(MEMBERS + SWITCHES),
        _ => None,
    }
}

/// Whether the session is among these.
pub(crate) fn is_among(stirred: u64, who: &Who) -> bool {
    match place_of(who) {
        Some(place) => stirred.wrapping_shr(place) % 2 == 1,
        None => false,
    }
}

impl Bells {
    pub fn new(alloc: Global) -> Result<Bells, Memory> {
        let mut bells = List::with_capacity(alloc, BELLS as usize)?;
        for _ in 0..BELLS {
            bells.push(Bell::new())?;
        }
        Ok(Bells { bells })
    }

    /// The bell of a session.
    pub(crate) fn of(&self, who: &Who) -> Option<&Bell> {
        self.bells.get(place_of(who)? as usize)
    }

    /// Rings for each of these sessions for which somebody may sleep.
    pub(crate) fn ring_all(&self, stirred: u64) {
        let mut left = stirred;
        for _ in 0..stirred.count_ones() {
            if let Some(bell) = self.bells.get(left.trailing_zeros() as usize) {
                bell.ring_sleepers();
            }
            left &= left.wrapping_sub(1);
        }
    }
}

impl Bell {
    fn new() -> Bell {
        Bell {
            rung: AtomicU64::new(0),
            asleep: AtomicU64::new(0),
        }
    }

    /// How often it has rung.
    pub(crate) fn rung(&self) -> u64 {
        self.rung.load(Ordering::SeqCst)
    }

    /// Rings. Whoever has counted its rings before doesn't fall asleep.
    pub(crate) fn ring(&self) {
        self.rung.fetch_add(1, Ordering::SeqCst);
        if self.asleep.swap(0, Ordering::SeqCst) > 0 {
            self.rung.wake_all();
        }
    }

    fn ring_sleepers(&self) {
        if self.asleep.load(Ordering::SeqCst) > 0 {
            self.ring();
        }
    }

    /// Says that somebody is about to fall asleep.
    pub(crate) fn lie_down(&self) {
        self.asleep.store(1, Ordering::SeqCst);
    }

    /// Sleeps until it rings, if it has rung so often and not more, for 500 milliseconds at most. Tells how many
    /// milliseconds that were, or 1 where it has rung.
    pub(crate) fn sleep<R: Wait>(&self, rt: &R, rung: u64) -> u64 {
        // What a sleep compares is the low half of the word.
        let low = (rung % (1 << 32)) as u32;
        self.rung
            .park_timeout(rt, low, Duration::from_millis(LONGEST));
        if self.rung() == rung { LONGEST } else { 1 }
    }
}
