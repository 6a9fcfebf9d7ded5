//! Lines that are told sparingly.
ghost use Rattle.std.specs.Prelude.{◌≡◌, ◌≤◌, IfSome, IsNone, if◌then◌else◌, is_some};
ghost use Rattle.tcp_links.specs.Sparing.{one_more};

use std::time::{Clock, Instant};

/// Occurrences of a kind, of which at most so many are told in so many seconds.
#[derive(Clone, Copy, Debug)]
pub(crate) struct Sparing {
    most: u32,
    seconds: u64,
    /// Since when those are counted that were told, if any was.
    since: Option<Instant>,
    told: u32,
    /// How many there were since the last one that was told.
    times: u64,
    ghost within: { told ≤ most },
}

impl Sparing {
    /// At most so many are to be told in so many seconds.
    pub(crate) fn new(most: u32, seconds: u64) -> Sparing {
        Sparing {
            most,
            seconds,
            since: None,
            told: 0,
            times: 0,
        }
    }

    /// One more. `Some` where it is to be told, with how many there were since the last one that was.
    pub(crate) fn count<R: Clock>(&mut self, rt: &R) -> Option<u64>
        ensures told { IfSome result (λ times. times ≡ one_more self.old.times) }
        ensures times { self.new.times ≡ if is_some result then 0 else one_more self.old.times }
        ensures full { IsNone result → self.new.told ≡ self.new.most }
        ensures same { (self.new.most ≡ self.old.most) × (self.new.seconds ≡ self.old.seconds) }
    {
        self.times = self.times.saturating_add(1);
        if self.is_past(rt) {
            self.since = Instant::now(rt).ok();
            self.told = 0;
        }
        if self.told >= self.most {
            return None;
        }
        self.told += 1;
        let times = self.times;
        self.times = 0;
        Some(times)
    }

    /// Whether the seconds are over.
    fn is_past<R: Clock>(&self, rt: &R) -> bool {
        match self.since {
            Some(since) => match since.elapsed(rt) {
                Ok(passed) => passed.as_secs() >= self.seconds,
                Err(_) => false,
            },
            None => true,
        }
    }
}
