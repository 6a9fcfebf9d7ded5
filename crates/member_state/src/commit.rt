//! What is planned is made.
ghost use Rattle.std.specs.Prelude.{◌≡◌, ◌∷◌, [], IfOk, map};
ghost use Rattle.level_map.specs.InsidePlaces.{RanksRise};
ghost use Rattle.member_state.specs.InsideRanks.{without_unused};
ghost use Rattle.member_state.specs.Plans.{IsReady, after_planned, touched_among};
ghost use Rattle.member_state.specs.States.{held_by};

use crate::planned::Planned;
use crate::state::MemberState;
use cv_io::{Duplicate, Memory};
use level_map::LevelMap;
use member_table::Table;

/// Says of entries that their counts were seen to have risen.
fn touch_each(table: &mut Table, serials: &[u64], now: u64)
    ensures { table.new.table
        ≡ record table.old.table { entries = map (touched_among serials.now now) table.old.table.entries } }
{
    for serial in serials {
        table.touch(*serial, now);
    }
}

/// Unless an entry comes, finds anew when the next timeout passes: entries may have gone.
fn look_ahead_unless(table: &mut Table, comes: bool, now: u64)
    ensures { table.new ≡ table.old }
{
    if !comes {
        table.look_ahead(now);
    }
}

/// Takes a rank's level, if no entry has the rank.
fn drop_unused(table: &Table, levels: &mut LevelMap, rank: u32)
    requires { RanksRise 0 levels.old.ranked }
    ensures { levels.new ≡ without_unused table.now.table.entries (rank ∷ []) levels.old }
{
    if !table.has_rank(rank) {
        levels.drop_rank(rank);
    }
}

/// Takes the levels of those of some ranks that no entry has.
fn drop_all_unused(table: &Table, levels: &mut LevelMap, ranks: &[u32])
    requires { RanksRise 0 levels.old.ranked }
    ensures { levels.new ≡ without_unused table.now.table.entries ranks.now levels.old }
{
    for rank in ranks {
        drop_unused(table, levels, *rank);
    }
}

/// Makes what is planned in a table with levels.
fn make(table: &mut Table, levels: &mut LevelMap, planned: Planned, now: u64)
    requires { IsReady (held_by table.old levels.old) planned }
    ensures { (held_by table.new levels.new).state ≡ after_planned (held_by table.old levels.old).state planned now }
{
    let Planned {
        change,
        ranks,
        dropped,
        touched,
        levels: placed,
    } = planned;
    let comes = change.added.is_some();
    table.commit(change);
    table.drop_serials(dropped);
    touch_each(table, touched.as_slice(), now);
    look_ahead_unless(table, comes, now);
    *levels = placed;
    drop_all_unused(table, levels, ranks.as_slice());
}

impl MemberState {
    /// Makes what is planned, at the moment of the event. It takes no memory.
    pub fn commit(&mut self, planned: Planned, now: u64)
        requires { IsReady self.old planned }
        ensures { self.new.state ≡ after_planned self.old.state planned now }
    {
        make(&mut self.table, &mut self.levels, planned, now);
    }

    /// The state after what is planned at a moment, as a copy: what is drafted is read there.
    pub fn drafted(&self, planned: &Planned, now: u64) -> Result<MemberState, Memory>
        requires { IsReady self.now planned.now }
        ensures { IfOk result (λ x. x.state ≡ after_planned self.now.state planned.now now) }
    {
        let mut copied = self.copy()?;
        copied.commit(planned.copied(self.alloc)?, now);
        Ok(copied)
    }
}
