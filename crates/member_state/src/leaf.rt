//! A member's table as composition reads it.
ghost use Rattle.std.specs.Prelude.{◌≡◌, IfOk, map, option_map, slice_get};
ghost use Rattle.of10_actions.specs.Actions.{AreInRange};
ghost use Rattle.of10_actions.specs.Ports.{AreRising};
ghost use Rattle.member_state.specs.Leaves.{leaf_by, leaf_of, levels_of};
ghost use Rattle.member_state.specs.States.{held_by};

use crate::state::MemberState;
use cv_io::{Duplicate, List, Memory};
use grants::Grant;
use level_map::LevelMap;
use member_table::{Entry, Table};
use of10_actions::PortView;
use of10_actions::meaning::effects;
use policy_meaning::{LeafEntry, LeafTable};
use std::alloc::Global;

/// The level of a rank, or 0 where it has none.
fn level_of(levels: &LevelMap, rank: u32) -> u64
    ensures { result ≡ (levels_of levels.now).level rank }
{
    match levels.level(rank) {
        Some(level) => u64::from(level),
        None => 0,
    }
}

/// An entry with its level, and what its actions do for the member of this number at its ports.
pub fn leaf_entry(
    alloc: Global,
    levels: &LevelMap,
    member: u32,
    ports: &PortView,
    entry: &Entry,
) -> Result<LeafEntry, Memory>
    requires in_range { AreInRange entry.now.actions }
    requires rising { AreRising ports.now }
    ensures { IfOk result (λ e. e ≡ leaf_by levels.now member ports.now entry.now) }
{
    Ok(LeafEntry {
        serial: entry.serial,
        rank: entry.rank,
        m: entry.normal,
        level: level_of(levels, entry.rank),
        effects: effects(alloc, &entry.actions, ports, member)?,
    })
}

/// The entry at a place of a table.
fn leaf_at(
    alloc: Global,
    levels: &LevelMap,
    member: u32,
    ports: &PortView,
    table: &Table,
    place: usize,
) -> Result<Option<LeafEntry>, Memory>
    requires { AreRising ports.now }
    ensures { IfOk result (λ e.
        e ≡ option_map (leaf_by levels.now member ports.now) (slice_get table.now.table.entries place)) }
{
    // The proof learns what is true of every table.
    let _ = table.len();
    match table.at(place) {
        Some(entry) => Ok(Some(leaf_entry(alloc, levels, member, ports, entry)?)),
        None => Ok(None),
    }
}

/// The entries of a table.
fn leaf_entries(
    alloc: Global,
    levels: &LevelMap,
    member: u32,
    ports: &PortView,
    table: &Table,
) -> Result<List<LeafEntry>, Memory>
    requires { AreRising ports.now }
    ensures { IfOk result (λ entries. entries ≡ map (leaf_by levels.now member ports.now) table.now.table.entries) }
{
    let mut entries = List::with_capacity(alloc, table.len())?;
    for place in 0..table.len() {
        entries.push_some(leaf_at(alloc, levels, member, ports, table, place)?)?;
    }
    Ok(entries)
}

/// The leaf table of the member of this number with this grant.
fn leaf_of_table(
    alloc: Global,
    levels: &LevelMap,
    member: u32,
    g: &Grant,
    table: &Table,
) -> Result<LeafTable, Memory>
    requires { AreRising g.now.ports }
    ensures { IfOk result (λ t. t ≡ leaf_of member g.now (held_by table.now levels.now).state) }
{
    let mut visible = g.ports.outside.copy()?;
    visible.extend_from_slice(g.ports.links.as_slice())?;
    Ok(LeafTable {
        member,
        size: u64::from(levels.size()),
        region: g.regions.copied()?,
        visible,
        misses: g.misses,
        entries: leaf_entries(alloc, levels, member, &g.ports, table)?,
    })
}

impl MemberState {
    /// The table with its levels, as composition reads it, of the member of this number with this grant.
    pub fn leaf_table(&self, member: u32, g: &Grant) -> Result<LeafTable, Memory>
        requires { AreRising g.now.ports }
        ensures { IfOk result (λ t. t ≡ leaf_of member g.now self.now.state) }
    {
        leaf_of_table(self.alloc, &self.levels, member, g, &self.table)
    }
}
