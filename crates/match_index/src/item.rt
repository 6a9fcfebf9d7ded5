//! What an index holds.
ghost use Rattle.std.specs.Prelude.{◌≡◌, Option};
ghost use Rattle.match_index.specs.Items.{is_before as is_before_of, before as before_of};

use of10_match::Match;

/// A match under an id, with a rank.
#[derive(Clone, Copy, PartialEq, Eq, Debug)]
pub struct Item {
    pub id: u64,
    pub rank: u32,
    pub normal: Match,
}

impl Item {
    pub(crate) fn of(id: u64, rank: u32, m: &Match) -> Item
        ensures { result ≡ record { id = id; rank = rank; normal = m.now } }
    {
        Item {
            id,
            rank,
            normal: *m,
        }
    }

    /// Whether it comes before another: by a higher rank, and at equal ranks by a lesser id.
    pub fn is_before(&self, other: &Item) -> bool
        ensures { result ≡ is_before_of self.now other.now }
    {
        other.rank < self.rank || self.rank == other.rank && self.id < other.id
    }
}

/// The one of two that comes before the other, where both are there.
pub(crate) fn before(a: Option<Item>, b: Option<Item>) -> Option<Item>
    ensures { result ≡ before_of a b }
{
    match (a, b) {
        (Some(x), Some(y)) => Some(if y.is_before(&x) { y } else { x }),
        (None, b) => b,
        (a, None) => a,
    }
}
