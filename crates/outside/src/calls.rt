//! Which calls of a form in memory are to fail.
ghost use Rattle.std.specs.Prelude.{◌≡◌, ◌≤◌, ◌↔◌, IsTrue, if◌then◌else◌};
ghost use Rattle.outside.specs.Outside.{Rose, is_listed, next_count};

use cv_io::List;
use std::alloc::Global;
use thiserror::Error;

/// A call of the outside that failed. Its count of faults tells how many did.
#[derive(Clone, Copy, PartialEq, Eq, Debug, Error)]
#[error("the outside failed")]
pub struct Failed;

/// Whether a count rose, or stands at its greatest value, where a rise can't be seen.
pub fn has_risen(before: u64, now: u64) -> bool
    ensures { IsTrue result ↔ Rose before now }
{
    before < now || now == u64::MAX
}

/// A count of calls, and of those that failed because they were listed.
#[derive(Drop, Debug)]
pub(crate) struct Calls {
    pub(crate) fails: List<u64>,
    pub(crate) made: u64,
    pub(crate) faults: u64,
}

impl Calls {
    pub(crate) fn new(fails: List<u64>) -> Self
        ensures { result ≡ record { fails = fails; made = 0; faults = 0 } }
    {
        Calls {
            fails,
            made: 0,
            faults: 0,
        }
    }

    /// Counts a call, and tells whether it is to fail.
    pub(crate) fn make(&mut self) -> bool
        ensures told { result ≡ is_listed self.old.fails (next_count self.old.made) }
        ensures made { self.new ≡ record self.old { made = next_count self.old.made } }
    {
        self.made = self.made.saturating_add(1);
        self.fails.as_slice().contains(&self.made)
    }

    /// Counts a call, and tells whether it fails, which is a fault.
    pub(crate) fn count(&mut self) -> bool
        ensures told { result ≡ is_listed self.old.fails (next_count self.old.made) }
        ensures made { self.new.made ≡ next_count self.old.made }
        ensures faults { self.new.faults ≡ (if result then next_count self.old.faults else self.old.faults) }
        ensures fails { self.new.fails ≡ self.old.fails }
        ensures never_falls { self.old.faults ≤ self.new.faults }
    {
        let fails = self.make();
        if fails {
            self.fault();
        }
        fails
    }

    /// Counts a fault.
    pub(crate) fn fault(&mut self)
        ensures counted { self.new ≡ record self.old { faults = next_count self.old.faults } }
        ensures never_falls { self.old.faults ≤ self.new.faults }
    {
        self.faults = self.faults.saturating_add(1);
    }
}
