//! Where levels change, all entries come anew.
ghost use Rattle.std.specs.Prelude.{◌≡◌, ◌++◌, IfOk, IsTrue, map, option_map, slice_get};
ghost use Rattle.std.specs.List.{AllByRecursion};
ghost use Rattle.of10_actions.specs.Ports.{AreRising};
ghost use Rattle.level_map.specs.Placing.{placing};
ghost use Rattle.member_table.specs.declared.entry.Entry.{Entry as EntryOf};
ghost use Rattle.member_state.specs.Changes.{levels_with};
ghost use Rattle.member_state.specs.Leaves.{leaf_of};
ghost use Rattle.member_state.specs.Plans.{IsReady, after_planned};
ghost use Rattle.leaf_changes.specs.Plans.{KeepsLevels};
ghost use Rattle.leaf_changes.specs.Told.{IsFitting};
ghost use Rattle.leaf_changes.specs.Touched.{touched_in};

use crate::numbers::touched;
use cv_io::{Duplicate, List, Memory};
use grants::Grant;
use level_map::{LevelMap, PlaceFault, Placed};
use member_state::{MemberState, Planned};
use member_table::{Entry, Table};
use policy_meaning::LeafEntry;

/// Whether a rank finds its level between those of the others, which keep theirs.
fn fits_between(levels: &LevelMap, rank: u32) -> Result<bool, Memory>
    ensures { IfOk result (λ fits. IsTrue fits → KeepsLevels levels.now (placing levels.now rank).1) }
{
    let mut levels = levels.copy()?;
    match levels.place(rank) {
        Ok(Placed::Kept { .. }) => Ok(true),
        Ok(Placed::Renumbered { .. }) => Ok(false),
        Err(PlaceFault::Full { .. }) => Ok(false),
        Err(PlaceFault::Memory) => Err(Memory),
    }
}

/// Whether each rank keeps its level where an entry comes, if one does. No entry is looked at: a rank that had no level
/// is placed in a copy of the levels, as when the message was judged.
pub(crate) fn keeps_levels(levels: &LevelMap, added: &Option<Entry>) -> Result<bool, Memory>
    ensures { IfOk result (λ keeps. IsTrue keeps → KeepsLevels levels.now (levels_with added.now levels.now)) }
{
    let Some(entry) = added else {
        return Ok(true);
    };
    if levels.level(entry.rank).is_some() {
        return Ok(true);
    }
    fits_between(levels, entry.rank)
}

/// The number of the entry at a place of a table.
fn number_at(table: &Table, place: usize) -> Option<u64>
    ensures { result ≡ option_map (λ (e : EntryOf). e.serial) (slice_get table.now.table.entries place) }
{
    match table.at(place) {
        Some(entry) => Some(entry.serial),
        None => None,
    }
}

/// The numbers of all entries, before and then.
pub(crate) fn all_numbers(kept: &MemberState, planned: &Planned) -> Result<List<u64>, Memory>
    ensures { IfOk result (λ serials. serials
        ≡ touched_in planned.now ++ map (λ (e : EntryOf). e.serial) kept.now.state.table.entries) }
{
    let mut serials = touched(planned)?;
    let table = kept.table();
    for place in 0..table.len() {
        serials.push_some(number_at(table, place))?;
    }
    Ok(serials)
}

/// All entries after what is planned.
pub(crate) fn all_entries(
    member: u32,
    grant: &Grant,
    kept: &MemberState,
    planned: &Planned,
    now: u64,
) -> Result<List<LeafEntry>, Memory>
    requires ready { IsReady kept.now planned.now }
    requires rising { AreRising grant.now.ports }
    ensures entries { IfOk result (λ entries. entries
        ≡ (leaf_of member grant.now (after_planned kept.now.state planned.now now)).entries) }
    ensures fitting { IfOk result (AllByRecursion (IsFitting planned.now.levels.size)) }
{
    let after = kept.drafted(planned, now)?;
    // The proof learns what is true of every state.
    let _ = after.table();
    let table = after.leaf_table(member, grant)?;
    Ok(table.entries)
}
