//! How long an address isn't tried.
ghost use Rattle.std.specs.Prelude.{◌≡◌, ◌≤◌};
ghost use Rattle.tcp_links.specs.Pauses.{pause_after};

use crate::limits::{LASTING, LONGEST_PAUSE, PAUSE};

/// How many seconds pass between a connection to an address and the next one: one, and after each connection that
/// lasted below ten seconds twice as many, up to sixteen.
#[derive(Clone, Copy, PartialEq, Eq, Debug)]
pub struct Pauses {
    pub seconds: u64,
    ghost most: { seconds ≤ 16 },
}

impl Pauses {
    pub const fn new() -> Pauses
        ensures { result.seconds ≡ 1 }
    {
        Pauses { seconds: PAUSE }
    }

    /// The pause after a connection that lasted so many seconds.
    pub fn after(self, lasted: u64) -> Pauses
        ensures { result.seconds ≡ pause_after self.seconds lasted }
    {
        if lasted < LASTING {
            return Pauses {
                seconds: (2 * self.seconds).min(LONGEST_PAUSE),
            };
        }
        Pauses { seconds: PAUSE }
    }
}
