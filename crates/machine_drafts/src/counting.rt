//! Counts of a member's entries, as statistics ask for them.
ghost use Rattle.std.specs.Prelude.{◌≡◌, IfOk};
ghost use Rattle.stats_map.specs.Counting.{count};
ghost use Rattle.stats_map.specs.Told.{told};
ghost use Rattle.machine_meaning.specs.Counted.{leaf_at};

use cv_io::{Leaf, Memory};
use member_replies::EntryCounts;
use stats_map::Pending;

/// The leaf of a member's entry by its serial number. There is one of each number that tables give.
pub fn leaf_of(member: u32, serial: u64) -> Result<Leaf, Memory>
    ensures { IfOk result (λ leaf. leaf ≡ leaf_at member serial) }
{
    if serial > u64::MAX - 2 {
        return Err(Memory);
    }
    Ok(Leaf {
        member,
        kind: 2 + serial,
    })
}

/// The counts of the entries of one member.
#[derive(Clone, Copy)]
pub struct MemberCounts<'a> {
    pub counts: &'a Pending<'a>,
    pub member: u32,
}

impl<'a> EntryCounts for MemberCounts<'a> {
    ghost numbers = { λ a serial. count (told a.counts.now.now) (leaf_at a.member serial) };

    fn count(&self, serial: u64) -> (u64, u64) {
        self.counts.count(&Leaf {
            member: self.member,
            kind: 2 + serial,
        })
    }
}
