//! What else is planned: entries whose time is up, and those that settle.
ghost use Rattle.std.specs.Prelude.{◌≡◌, ℕ, IfOk, OnOk, OnErr};
ghost use Rattle.member_table.specs.Timeouts.{is_hard_due, is_idle_due};
ghost use Rattle.member_state.specs.Changes.{expired, rising_serials, without};
ghost use Rattle.member_state.specs.InsideRanks.{removal_planned};
ghost use Rattle.member_state.specs.Plans.{IsReady, after_planned};
ghost use Rattle.member_state.specs.States.{held_by};

use crate::entries::{rank_of, ranks_of};
use crate::planned::Planned;
use crate::state::MemberState;
use cv_io::{Duplicate, List, Memory};
use level_map::LevelMap;
use member_table::{Change, Due, Table};
use std::alloc::Global;

/// The numbers of the entries whose time is up, rising.
fn due_in(table: &Table, now: u64) -> Result<Due, Memory>
    ensures hard { IfOk result (λ due. due.hard ≡ rising_serials (is_hard_due now) table.now.table.entries) }
    ensures idle { IfOk result (λ due. due.idle ≡ rising_serials (is_idle_due now) table.now.table.entries) }
{
    // The proof learns what is true of every table.
    let _ = table.len();
    table.due(now)
}

/// Plans that the entries of some numbers go.
fn removal(
    alloc: Global,
    table: &Table,
    levels: &LevelMap,
    serials: List<u64>,
) -> Result<Planned, Memory>
    ensures { IfOk result (λ p. p ≡ removal_planned (held_by table.now levels.now).state serials) }
{
    let ranks = ranks_of(alloc, table, serials.as_slice())?;
    let levels = levels.copy()?;
    Ok(Planned::of(alloc, Change::removal(alloc, serials), ranks, levels))
}

impl MemberState {
    /// The serial numbers of the entries whose time is up at a moment, rising.
    pub fn due(&self, now: u64) -> Result<Due, Memory>
        ensures hard { IfOk result (λ due. due.hard ≡ rising_serials (is_hard_due now) self.now.state.table.entries) }
        ensures idle { IfOk result (λ due. due.idle ≡ rising_serials (is_idle_due now) self.now.state.table.entries) }
    {
        due_in(&self.table, now)
    }

    /// Plans nothing yet.
    pub fn stay(&self) -> Result<Planned, Memory>
        ensures planned { IfOk result (λ p. (now : ℕ) → after_planned self.now.state p now ≡ self.now.state) }
        ensures ready { IfOk result (IsReady self.now) }
    {
        // The proof learns what is true of every table.
        let _ = self.table.len();
        removal(self.alloc, &self.table, &self.levels, List::new(self.alloc))
    }

    /// Plans that the entries go that have stood for their hard timeouts, as `due` lists them.
    pub fn expire(&self, hard: List<u64>, now: u64) -> Result<Planned, Memory>
        requires { hard ≡ rising_serials (is_hard_due now) self.now.state.table.entries }
        ensures planned { IfOk result (λ p. after_planned self.now.state p now ≡ expired now self.now.state) }
        ensures ready { IfOk result (IsReady self.now) }
    {
        // The proof learns what is true of every table.
        let _ = self.table.len();
        removal(self.alloc, &self.table, &self.levels, hard)
    }

    /// Plans that the entry of a number goes too, once the change is made.
    pub fn plan_drop(&self, planned: &mut Planned, serial: u64) -> Result<(), Memory>
        ensures dropped { OnOk result ((now : ℕ) →
            after_planned self.now.state planned.new now
            ≡ without serial (after_planned self.now.state planned.old now)) }
        ensures ready { IsReady self.now planned.old → IsReady self.now planned.new }
        ensures memory { OnErr result ((now : ℕ) →
            after_planned self.now.state planned.new now ≡ after_planned self.now.state planned.old now) }
    {
        let rank = rank_of(&self.table, serial);
        // The proof learns what is true of every table.
        let _ = self.table.len();
        planned.drop(serial, rank)
    }
}
