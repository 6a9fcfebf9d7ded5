//! The key of an entry, in the order in which entries are written.
ghost use Rattle.std.specs.Prelude.{◌≡◌};
ghost use Rattle.of10_match.specs.Ranges.{IsMatch};
ghost use Rattle.install_plan.specs.InsideSlots.{key_of};

use switch_meaning::PhysEntry;

/// A priority, and a match as its bytes: keys are ordered by both.
#[derive(Clone, Copy, PartialEq, Eq, PartialOrd, Ord, Debug)]
pub struct Key {
    pub priority: u16,
    pub bytes: [u8; 40],
}

impl Key {
    pub fn of(entry: &PhysEntry) -> Key
        ensures value { result ≡ key_of entry.now }
        ensures in_range { IsMatch entry.now.m }
    {
        // The proof learns that the match is in range.
        let _ = &entry.m.in_port;
        Key {
            priority: entry.priority,
            bytes: entry.m.write(),
        }
    }
}
