//! A FLOW_MOD is refused or planned.
ghost use Rattle.std.specs.Prelude.{◌≡◌, Some, None, IfOk, IfErr, OnOk, option_map};
ghost use Rattle.of10_actions.specs.Actions.{AreInRange};
ghost use Rattle.level_map.specs.Placing.{placing};
ghost use Rattle.member_table.specs.Changes.{CanCommit, committed};
ghost use Rattle.member_table.specs.Planning.{change_of};
ghost use Rattle.member_table.specs.Refusals.{refusal};
ghost use Rattle.member_table.specs.Tables.{after};
ghost use Rattle.member_table.specs.declared.entry.Entry.{Entry as EntryOf};
ghost use Rattle.member_state.specs.Changes.{accepted, levels_with as levels_with_of};
ghost use Rattle.member_state.specs.Denials.{IsFaultOf, budget_row, denial, table_row};
ghost use Rattle.member_state.specs.Plans.{IsReady, after_planned};
ghost use Rattle.member_state.specs.States.{IsKept, held_by};

use crate::entries::ranks_of;
use crate::fault::FlowFault;
use crate::planned::Planned;
use crate::state::MemberState;
use cv_io::Duplicate;
use grants::{Denial, Detail, Grant, check_flow};
use level_map::{LevelMap, PlaceFault};
use member_table::{Change, Entry, Table, TableFault};
use of10_actions::PortView;
use of10_msgs::FlowMod;
use std::alloc::Global;

/// What the table refuses, as a denial.
fn fault_of(fault: TableFault) -> FlowFault
    ensures { IsFaultOf (table_row (Some fault)) result }
{
    match fault {
        TableFault::Overlap { with } => FlowFault::Denied(Denial::of(Detail::Overlap { with })),
        TableFault::Entries { limit } => FlowFault::Denied(Denial::of(Detail::Entries { limit })),
        TableFault::Memory => FlowFault::Memory,
    }
}

/// What a message changes in a table, or why the table refuses it.
fn plan(table: &mut Table, m: &FlowMod, now: u64) -> Result<Change, FlowFault>
    requires { AreInRange m.now.actions }
    ensures change { IfOk result (λ change. change ≡ change_of table.old.table m.now now) }
    ensures planned { IfOk result (λ change. committed table.old.table change ≡ after table.old.table m.now now) }
    ensures ready { IfOk result (CanCommit table.new) }
    ensures accepted { OnOk result (table_row (refusal table.old.table m.now) ≡ None) }
    ensures fault { IfErr result (IsFaultOf (table_row (refusal table.old.table m.now))) }
    ensures table { table.new.table ≡ table.old.table }
{
    match table.plan(m, now) {
        Ok(change) => Ok(change),
        Err(fault) => Err(fault_of(fault)),
    }
}

/// The levels with one for the rank of the entry that comes, or why there is none.
fn levels_with(levels: &LevelMap, added: &Option<Entry>) -> Result<LevelMap, FlowFault>
    ensures placed { IfOk result (λ placed. placed ≡ levels_with_of added.now levels.now) }
    ensures accepted { OnOk result (budget_row levels.now (option_map (λ (e : EntryOf). e.rank) added.now) ≡ None) }
    ensures fault { IfErr result (IsFaultOf (budget_row levels.now (option_map (λ (e : EntryOf). e.rank) added.now))) }
{
    let mut levels = levels.copy()?;
    if let Some(entry) = added {
        place(&mut levels, entry.rank)?;
    }
    Ok(levels)
}

/// Gives a rank its level, or says that there is none.
fn place(levels: &mut LevelMap, rank: u32) -> Result<(), FlowFault>
    ensures placed { OnOk result (levels.new ≡ (placing levels.old rank).1) }
    ensures accepted { OnOk result (budget_row levels.old (Some rank) ≡ None) }
    ensures fault { IfErr result (IsFaultOf (budget_row levels.old (Some rank))) }
{
    match levels.place(rank) {
        Ok(_) => Ok(()),
        Err(PlaceFault::Full { ranks, limit }) => {
            Err(FlowFault::Denied(Denial::of(Detail::Budget { ranks, limit })))
        }
        Err(PlaceFault::Memory) => Err(FlowFault::Memory),
    }
}

/// The first rule that refuses a message, or what it changes in a table with these levels.
fn judged(
    alloc: Global,
    table: &mut Table,
    levels: &LevelMap,
    g: &Grant,
    v: &PortView,
    m: &FlowMod,
    now: u64,
) -> Result<Planned, FlowFault>
    requires in_range { AreInRange m.now.actions }
    requires kept { IsKept (held_by table.old levels.now).state }
    ensures accepted { OnOk result (denial g.now v.now (held_by table.old levels.now).state m.now ≡ None) }
    ensures change { IfOk result (λ p. p.change ≡ change_of table.old.table m.now now) }
    ensures planned { IfOk result (λ p.
        after_planned (held_by table.old levels.now).state p now
        ≡ accepted m.now now (held_by table.old levels.now).state) }
    ensures ready { IfOk result (IsReady (held_by table.new levels.now)) }
    ensures fault { IfErr result (IsFaultOf (denial g.now v.now (held_by table.old levels.now).state m.now)) }
    ensures table { table.new.table ≡ table.old.table }
{
    check_flow(g, v, m)?;
    let change = plan(table, m, now)?;
    let placed = levels_with(levels, &change.added)?;
    let ranks = ranks_of(alloc, table, change.removed.as_slice())?;
    // The proof learns what is true of every table.
    let _ = table.len();
    Ok(Planned::of(alloc, change, ranks, placed))
}

impl MemberState {
    /// Judges a FLOW_MOD of a member with this grant at a virtual switch of which `v` holds all ports: the first rule
    /// that refuses it, or what it changes. It takes all memory that the change needs, and changes nothing yet.
    pub fn judge(
        &mut self,
        g: &Grant,
        v: &PortView,
        m: &FlowMod,
        now: u64,
    ) -> Result<Planned, FlowFault>
        requires { AreInRange m.now.actions }
        ensures accepted { OnOk result (denial g.now v.now self.old.state m.now ≡ None) }
        ensures change { IfOk result (λ p. p.change ≡ change_of self.old.state.table m.now now) }
        ensures planned { IfOk result (λ p. after_planned self.old.state p now ≡ accepted m.now now self.old.state) }
        ensures ready { IfOk result (IsReady self.new) }
        ensures fault { IfErr result (IsFaultOf (denial g.now v.now self.old.state m.now)) }
        ensures state { self.new.state ≡ self.old.state }
    {
        judged(self.alloc, &mut self.table, &self.levels, g, v, m, now)
    }
}
