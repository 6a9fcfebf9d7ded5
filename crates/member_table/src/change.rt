//! What a message changes in a table, and whose time is up.
ghost use Rattle.std.specs.Prelude.{◌≡◌, []};
ghost use Rattle.member_table.specs.Planning.{removing};

use crate::entry::Entry;
use cv_io::List;
use of10_actions::Action;
use std::alloc::Global;

/// Other actions for an entry.
#[derive(PartialEq, Eq, Debug, Drop)]
pub struct Modified {
    pub serial: u64,
    pub actions: List<Action>,
}

/// What a message changes: the entry that comes, the serial numbers of those that go, and those that
/// get other actions. An entry that comes takes the place of the identical one, if there is one, whose
/// number is then among those that go.
#[derive(PartialEq, Eq, Debug, Drop)]
pub struct Change {
    pub added: Option<Entry>,
    pub removed: List<u64>,
    pub modified: List<Modified>,
}

impl Change {
    /// The change by which entries go.
    pub fn removal(alloc: Global, serials: List<u64>) -> Change
        ensures { result ≡ removing serials }
    {
        Change {
            added: None,
            removed: serials,
            modified: List::new(alloc),
        }
    }
}

/// The serial numbers of the entries whose time is up, rising: those that have stood too long, and of
/// the others those whose count hasn't risen for too long.
#[derive(PartialEq, Eq, Debug, Drop)]
pub struct Due {
    pub hard: List<u64>,
    pub idle: List<u64>,
}

impl Due {
    /// No one's.
    pub(crate) fn none(alloc: Global) -> Due
        ensures { result ≡ record { hard = []; idle = [] } }
    {
        Due {
            hard: List::new(alloc),
            idle: List::new(alloc),
        }
    }
}
