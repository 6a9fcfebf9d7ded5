//! The sums of one leaf.
ghost use Rattle.std.specs.Prelude.{◌≡◌, ◌+◌};
ghost use Rattle.switch_meaning.specs.Counts.{capped};
ghost use Rattle.stats_map.specs.InsideSums.{Allows, changed_by, left_of, no_sum};

use cv_io::{Duplicate, Memory};

/// Packets and bytes.
#[derive(Clone, Copy, PartialEq, Eq, Debug)]
pub struct Tally {
    pub packets: u64,
    pub bytes: u64,
}

/// What cookies that don't matter any more counted for a leaf, and what those that matter count.
#[derive(Clone, Copy, Debug)]
pub struct Sum {
    /// The total of those that don't matter any more.
    pub packets: u64,
    pub bytes: u64,
    /// Whether it goes with the last cookie that names the leaf.
    pub forgotten: bool,
    /// How many cookies that matter name the leaf, and the sums of their numbers.
    pub live: usize,
    pub live_packets: u128,
    pub live_bytes: u128,
}

/// What happens to the sum of a leaf.
#[derive(Clone, Copy, Debug)]
pub enum Event {
    /// One more cookie names the leaf; nothing was reported of it.
    Begun,
    /// A cookie that names it has other numbers.
    Moved { old: Tally, new: Tally },
    /// A cookie that names it doesn't matter any more: its numbers go into the total.
    Ended { numbers: Tally },
    /// The leaf isn't counted any more, as soon as no cookie names it.
    Forgotten,
}

impl Duplicate for Sum {
    fn copy(&self) -> Result<Sum, Memory> {
        Ok(*self)
    }
}

/// A sum of two numbers, which stands still at the greatest one of 64 bits.
fn capped_sum(total: u64, live: u128) -> u64
    ensures { result ≡ capped (total + live) }
{
    match u64::try_from(live) {
        Ok(live) => total.saturating_add(live),
        Err(_) => u64::MAX,
    }
}

impl Sum {
    /// No cookie counted so far.
    pub fn new() -> Sum
        ensures { result ≡ no_sum }
    {
        Sum {
            packets: 0,
            bytes: 0,
            forgotten: false,
            live: 0,
            live_packets: 0,
            live_bytes: 0,
        }
    }

    /// The packets and bytes of all cookies.
    pub fn count(&self) -> (u64, u64)
        ensures packets { result.0 ≡ capped (self.now.packets + self.now.live_packets) }
        ensures bytes { result.1 ≡ capped (self.now.bytes + self.now.live_bytes) }
    {
        (
            capped_sum(self.packets, self.live_packets),
            capped_sum(self.bytes, self.live_bytes),
        )
    }

    /// The sum, if it isn't forgotten or a cookie names the leaf.
    fn left(self) -> Option<Sum>
        ensures { result ≡ left_of self }
    {
        if self.forgotten && self.live == 0 {
            None
        } else {
            Some(self)
        }
    }

    /// The sum after what happens to it, if it is still wanted.
    pub fn after(self, event: &Event) -> Option<Sum>
        requires { Allows event.now self }
        ensures { result ≡ changed_by event.now self }
    {
        match event {
            Event::Begun => Some(Sum {
                live: self.live + 1,
                ..self
            }),
            Event::Moved { old, new } => Some(Sum {
                live_packets: self.live_packets - u128::from(old.packets) + u128::from(new.packets),
                live_bytes: self.live_bytes - u128::from(old.bytes) + u128::from(new.bytes),
                ..self
            }),
            Event::Ended { numbers } => Sum {
                packets: self.packets.saturating_add(numbers.packets),
                bytes: self.bytes.saturating_add(numbers.bytes),
                forgotten: self.forgotten,
                live: self.live - 1,
                live_packets: self.live_packets - u128::from(numbers.packets),
                live_bytes: self.live_bytes - u128::from(numbers.bytes),
            }
            .left(),
            Event::Forgotten => Sum {
                forgotten: true,
                ..self
            }
            .left(),
        }
    }
}
