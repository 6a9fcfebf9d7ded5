//! The entries that come or get other actions.
ghost use Rattle.std.specs.Prelude.{◌≡◌, IfOk, IfSome, filter_map, map, option_map};
ghost use Rattle.std.specs.List.{AllByRecursion};
ghost use Rattle.of10_actions.specs.Actions.{AreInRange};
ghost use Rattle.of10_actions.specs.Ports.{AreRising};
ghost use Rattle.member_table.specs.Changes.{CanCommit, IsInRange, is_among};
ghost use Rattle.member_table.specs.Tables.{with_actions as with_actions_of};
ghost use Rattle.member_table.specs.declared.entry.Entry.{Entry as EntryOf};
ghost use Rattle.member_state.specs.Leaves.{leaf_by};
ghost use Rattle.member_state.specs.States.{held_table};
ghost use Rattle.leaf_changes.specs.Touched.{changed_in, coming_in, goes as goes_in, staying};

use cv_io::{Duplicate, List, Memory};
use level_map::LevelMap;
use member_state::{MemberState, Planned, leaf_entry};
use member_table::{Entry, Modified};
use of10_actions::{Action, PortView};
use policy_meaning::LeafEntry;
use std::alloc::Global;

/// Whether the entry of a number goes after another came.
fn is_dropped(planned: &Planned, serial: u64) -> bool
    ensures { result ≡ is_among planned.now.dropped serial }
{
    planned.dropped.as_slice().contains(&serial)
}

/// Whether the entry of a number goes, before another comes or afterwards.
fn goes(planned: &Planned, serial: u64) -> bool
    ensures { result ≡ goes_in planned.now serial }
{
    planned.change.removed.as_slice().contains(&serial) || is_dropped(planned, serial)
}

/// An entry with other actions.
fn with_actions(entry: &Entry, actions: &List<Action>) -> Result<Entry, Memory>
    ensures { IfOk result (λ e. e ≡ with_actions_of actions.now entry.now) }
{
    let mut changed = entry.copy()?;
    changed.actions = actions.copy()?;
    Ok(changed)
}

/// The entry that gets other actions, with them, if it is there and stays.
fn changed(
    alloc: Global,
    member: u32,
    ports: &PortView,
    kept: &MemberState,
    planned: &Planned,
    one: &Modified,
) -> Result<Option<LeafEntry>, Memory>
    requires in_range { AreInRange one.now.actions }
    requires rising { AreRising ports.now }
    ensures { IfOk result (λ e. e ≡ option_map (leaf_by planned.now.levels member ports.now)
        (changed_in kept.now.state.table.entries planned.now one.now)) }
{
    if goes(planned, one.serial) {
        return Ok(None);
    }
    match kept.table().get(one.serial) {
        Some(entry) => {
            let entry = with_actions(entry, &one.actions)?;
            Ok(Some(leaf_entry(alloc, &planned.levels, member, ports, &entry)?))
        }
        None => Ok(None),
    }
}

/// The entry that comes, if one does and stays.
fn added(
    alloc: Global,
    member: u32,
    ports: &PortView,
    planned: &Planned,
) -> Result<Option<LeafEntry>, Memory>
    requires in_range { IfSome planned.now.change.added (λ (e : EntryOf). AreInRange e.actions) }
    requires rising { AreRising ports.now }
    ensures { IfOk result (λ e. e ≡ option_map (leaf_by planned.now.levels member ports.now)
        (staying planned.now.dropped planned.now.change.added)) }
{
    let Some(entry) = &planned.change.added else {
        return Ok(None);
    };
    if is_dropped(planned, entry.serial) {
        return Ok(None);
    }
    Ok(Some(leaf_entry(alloc, &planned.levels, member, ports, entry)?))
}

/// The entries that get other actions, as they are then.
fn all_changed(
    alloc: Global,
    member: u32,
    ports: &PortView,
    kept: &MemberState,
    planned: &Planned,
) -> Result<List<LeafEntry>, Memory>
    requires in_range { AllByRecursion IsInRange planned.now.change.modified }
    requires rising { AreRising ports.now }
    ensures { IfOk result (λ entries. entries ≡ map (leaf_by planned.now.levels member ports.now)
        (filter_map (changed_in kept.now.state.table.entries planned.now) planned.now.change.modified)) }
{
    let mut entries = List::new(alloc);
    for one in planned.change.modified.as_slice() {
        entries.push_some(changed(alloc, member, ports, kept, planned, one)?)?;
    }
    Ok(entries)
}

/// The entries that come or get other actions, as they are then.
pub(crate) fn coming(
    alloc: Global,
    member: u32,
    ports: &PortView,
    kept: &MemberState,
    planned: &Planned,
) -> Result<List<LeafEntry>, Memory>
    requires ready { CanCommit (held_table kept.now) planned.now.change }
    requires rising { AreRising ports.now }
    ensures { IfOk result (λ entries. entries ≡ map (leaf_by planned.now.levels member ports.now)
        (coming_in kept.now.state.table.entries planned.now)) }
{
    let mut entries = all_changed(alloc, member, ports, kept, planned)?;
    entries.push_some(added(alloc, member, ports, planned)?)?;
    Ok(entries)
}
