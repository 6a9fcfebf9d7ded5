//! How many connections an endpoint may still have.
ghost use Rattle.std.specs.Prelude.{◌≡◌, ◌-◌, ◌≤◌, ◌<◌, IsTrue};

/// The rounds of an endpoint: how many connections it may have in all, and how many of them are left.
#[derive(Clone, Copy, PartialEq, Eq, Debug)]
pub struct Rounds {
    pub total: u32,
    pub left: u32,
    ghost within: { left ≤ total },
}

/// The parts of all rounds of which it is told that only one is left.
const PARTS: [u32; 9] = [
    10,
    100,
    1_000,
    10_000,
    100_000,
    1_000_000,
    10_000_000,
    100_000_000,
    1_000_000_000,
];

impl Rounds {
    pub fn new(total: u32) -> Rounds
        ensures total { result.total ≡ total }
        ensures left { result.left ≡ total }
    {
        Rounds { total, left: total }
    }

    /// One connection is had.
    pub fn spend(self) -> Rounds
        ensures total { result.total ≡ self.total }
        ensures left { result.left ≡ self.left - 1 }
    {
        Rounds {
            total: self.total,
            left: self.left.saturating_sub(1),
        }
    }

    /// How many were had.
    pub fn had(self) -> u32
        ensures { result ≡ self.total - self.left }
    {
        self.total - self.left
    }

    /// Whether some are left, and exactly a tenth of all, or a hundredth, and so on, rounded down.
    pub fn is_few(self) -> bool
        ensures some { IsTrue result → 0 < self.left }
    {
        self.left > 0
            && PARTS
                .iter()
                .any(|part| self.total.checked_div(*part) == Some(self.left))
    }
}
