//! Which entries of a table are asked for.
ghost use Rattle.std.specs.Prelude.{◌≡◌};
ghost use Rattle.member_table.specs.InsideWanting.{is_wanted};

use crate::entry::Entry;
use of10_match::Match;

/// Asks for the entries whose match the filter covers and that have an OUTPUT to the port. All must be looked at.
#[derive(Clone, Copy, PartialEq, Eq, Debug)]
pub struct Wanted {
    pub filter: Match,
    pub port: u16,
}

impl Wanted {
    /// Whether the entry is one of them.
    pub fn holds(&self, entry: &Entry) -> bool
        ensures { result ≡ is_wanted self.now entry.now }
    {
        self.filter.covers(&entry.normal) && entry.outputs_to(self.port)
    }
}
