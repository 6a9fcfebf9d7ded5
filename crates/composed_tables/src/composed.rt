//! The composed part of a setting: its rules, and what is to stand on each switch.
ghost use Rattle.std.specs.Prelude.{◌≡◌, ◌+◌, ◌<◌, ◌≤◌, ◌^◌, [], ℕ, IfOk, IfSome, IsSome, None, OnErr, OnOk, Some};
ghost use Rattle.std.specs.Prelude.{is_some};
ghost use Rattle.std.specs.Prelude.{length, map, slice_get, true};
ghost use Rattle.std.specs.List.{range_with_len};
ghost use Rattle.agreement.specs.Entries.{entries_of as entries_of_of};
ghost use Rattle.agreement.specs.Fitting.{IsFittingSetting};
ghost use Rattle.agreement.specs.declared.state.Setting.{Setting as SettingOf};
ghost use Rattle.install_plan.specs.Tables.{IsTable, entry_of};
ghost use Rattle.composed_tables.specs.Composing.{AreMoved, AreTables, Changes, IsGood, IsMovedFrom, IsOf};
ghost use Rattle.composed_tables.specs.Composing.{IsStandingOf, IsWholeAt, WasOf};
ghost use Rattle.switch_tables.specs.Turning.{AreBatches, AreKept, AreTurned, HaveNow, IsUndoneAt, StandAsBefore};
ghost use Rattle.switch_tables.specs.Turning.{up_of};
ghost use Rattle.composed_tables.specs.Placing.{entry_delta};
ghost use Rattle.composed_tables.specs.Rules.{AreRulesOf, AreTied, CanTake, IsReadyFor, RulesOf};
ghost use Rattle.composed_tables.specs.Steps.{building_steps, setting_steps};
ghost use Rattle.switch_tables.specs.Tables.{HasNow};

use crate::placing::entry_deltas;
use crate::rules::Rules;
use agreement::{Setting, entries_of};
use cv_io::{Duplicate, List, Memory, Steps};
use hop_rules::PortDelta;
use incr_compile::LeafDelta;
use install_plan::{Batch, Written};
use policy_meaning::VirtualSwitch;
use std::alloc::Global;
use std::marker::Model;
use std::sync::ledger::Ledger;
use std::thread::Threads;
use switch_meaning::Wiring;
use switch_tables::{SwitchBatch, SwitchTable, change_all, undo_all};
use virtual_topology::Topology;

/// Where ports lie, the virtual switches and their composed rules, and what is to stand on each switch. The
/// rules are given up where memory is wanting, and made anew from the setting.
#[derive(Drop)]
pub struct Composed {
    alloc: Global,
    wiring: Wiring,
    switches: List<VirtualSwitch>,
    rules: Option<Rules>,
    tables: List<SwitchTable>,
}

impl Model for Composed {
    ghost use Rattle.std.specs.Prelude.{◌<◌, ◌^◌, IfSome, length};
    ghost use Rattle.std.specs.Coded.{codes};
    ghost use Rattle.incr_compile.specs.contracts.tree.Tree as e;
    ghost use Rattle.policy_meaning.specs.Switches.{switch_code};
    ghost use Rattle.composed_tables.specs.Composing.{ComposedOf};
    ghost use Rattle.composed_tables.specs.Rules.{AreTied};

    ghost Value = { ComposedOf };

    ghost coded = { Prim.hlevel (codes, switch_code, e.the_row.coded) };

    ghost view = { λ a. record { wiring = a.wiring; switches = a.switches; rules = a.rules; tables = a.tables } };

    ghost invariant = { λ a. (IfSome a.rules AreTied) × ((length a.switches < 2 ^ 32) × (length a.tables < 2 ^ 32)) };
}

/// A switch that is to have these entries, and nothing standing before.
fn table_of(alloc: Global, setting: &Setting, n: u32) -> Result<SwitchTable, Memory>
    requires fits { IsFittingSetting setting.now }
    requires good { IsGood setting.now }
    ensures { IfOk result (HasNow (entries_of_of setting.now n)) }
{
    let come = entries_of(alloc, setting, n)?;
    let gone = List::new(alloc);
    let mut table = SwitchTable::new(alloc);
    match table.change(&gone, &come, 1) {
        Ok(_) => Ok(table),
        Err(memory) => {
            drop(table);
            Err(memory)
        }
    }
}

/// What is to stand on each switch of a setting.
fn tables_of(alloc: Global, setting: &Setting) -> Result<List<SwitchTable>, Memory>
    requires fits { IsFittingSetting setting.now }
    requires good { IsGood setting.now }
    requires few { length setting.now.switches < 2 ^ 32 }
    ensures now { IfOk result (HaveNow (entries_of_of setting.now)) }
    ensures count { IfOk result (λ tables. length tables ≡ length setting.now.switches) }
{
    let mut tables = List::new(alloc);
    for n in 0..setting.switches.len() {
        let table = table_of(alloc, setting, n as u32)?;
        tables.push(table)?;
    }
    Ok(tables)
}

/// What is to stand on each switch changes with the rules of ports.
fn turn_tables(
    alloc: Global,
    tables: &mut List<SwitchTable>,
    wiring: &Wiring,
    switches: &List<VirtualSwitch>,
    deltas: &[PortDelta],
    ups: &[bool],
    next: u64,
) -> Result<List<SwitchBatch>, Memory>
    requires few { length switches.now < 2 ^ 32 }
    requires many { length tables.old < 2 ^ 32 }
    requires ups { length ups.now ≡ length tables.old }
    ensures long { length tables.new ≡ length tables.old }
    ensures count { IfOk result (λ batches. length batches ≡ length tables.old) }
    ensures turned { IfOk result (AreTurned (length tables.old)
        (map (entry_delta wiring.now switches.now deltas.now) (range_with_len 0 (length tables.old)))
        next tables.old tables.new) }
    ensures ups { IfOk result (λ batches. map up_of batches ≡ ups.now) }
    ensures memory { OnErr result (AreKept tables.old tables.new) }
{
    let count = tables.len() as u32;
    let all = entry_deltas(alloc, wiring, switches, deltas, count)?;
    let batches = change_all(alloc, tables.as_mut_slice(), all.as_slice(), ups, next)?;
    Ok(batches)
}

/// All that stands on a switch, with new cookies from a number on.
fn whole_nth(tables: &mut List<SwitchTable>, n: usize, next: u64) -> Result<Batch, Memory>
    requires { n < length tables.old }
    ensures whole { IfOk result (λ batch. IsWholeAt n batch tables.old tables.new) }
    ensures memory { OnErr result (tables.new ≡ tables.old) }
{
    let slots = tables.as_mut_slice();
    let batch = slots[n].whole(next)?;
    Ok(batch)
}

/// The rules of a virtual switch change with a member, and with them what is to stand on each switch.
fn turn_all<G: Ledger>(
    alloc: Global,
    rules: &mut Rules,
    tables: &mut List<SwitchTable>,
    wiring: &Wiring,
    switches: &List<VirtualSwitch>,
    v: u32,
    delta: LeafDelta,
    ups: &[bool],
    next: u64,
    steps: &mut Steps<G>,
) -> Result<List<SwitchBatch>, Memory>
    requires tied { AreTied rules.old }
    requires can { CanTake rules.old v delta }
    requires few { length switches.now < 2 ^ 32 }
    requires many { length tables.old < 2 ^ 32 }
    requires ups { length ups.now ≡ length tables.old }
    ensures long { length tables.new ≡ length tables.old }
    ensures moved { IfOk result
        (AreMoved v delta wiring.now switches.now next rules.old rules.new tables.old tables.new) }
    ensures ups { IfOk result (λ batches. map up_of batches ≡ ups.now) }
    ensures steps { (before after : SettingOf) → AreRulesOf before rules.old → Changes v delta before after
        → steps.new ≤ steps.old + setting_steps rules.old.hops.plan before after }
    ensures memory { OnErr result (AreKept tables.old tables.new) }
{
    let deltas = rules.apply(alloc, v, delta, steps)?;
    let batches = turn_tables(
        alloc,
        tables,
        wiring,
        switches,
        deltas.as_slice(),
        ups,
        next,
    )?;
    Ok(batches)
}

/// The rules are given up. What lets go of a value by a call has one step where its parts would have many.
fn give_up(rules: &mut Option<Rules>)
    ensures { rules.new ≡ None }
{
    drop(rules.take());
}

/// The rules are made anew.
fn put_rules(rules: &mut Option<Rules>, made: Rules)
    ensures { rules.new ≡ Some made }
{
    drop(rules.replace(made));
}

/// So they do where the rules are there; where memory is wanting they are given up.
fn turn_some<G: Ledger>(
    alloc: Global,
    rules: &mut Option<Rules>,
    tables: &mut List<SwitchTable>,
    wiring: &Wiring,
    switches: &List<VirtualSwitch>,
    v: u32,
    delta: LeafDelta,
    ups: &[bool],
    next: u64,
    steps: &mut Steps<G>,
) -> Result<List<SwitchBatch>, Memory>
    requires tied { IfSome rules.old AreTied }
    requires can { (r : RulesOf) → rules.old ≡ Some r → CanTake r v delta }
    requires few { length switches.now < 2 ^ 32 }
    requires many { length tables.old < 2 ^ 32 }
    requires ups { length ups.now ≡ length tables.old }
    ensures long { length tables.new ≡ length tables.old }
    ensures tied { IfSome rules.new AreTied }
    ensures moved { IfOk result
        (IsMovedFrom v delta wiring.now switches.now next rules.old rules.new tables.old tables.new) }
    ensures ups { IfOk result (λ batches. map up_of batches ≡ ups.now) }
    ensures none { OnErr result (rules.new ≡ None) }
    ensures steps { (r : RulesOf) → rules.old ≡ Some r → (before after : SettingOf) → AreRulesOf before r
        → Changes v delta before after → steps.new ≤ steps.old + setting_steps r.hops.plan before after }
    ensures memory { OnErr result (AreKept tables.old tables.new) }
{
    let Some(there) = rules else {
        return Err(Memory);
    };
    let turned = turn_all(
        alloc, there, tables, wiring, switches, v, delta, ups, next, steps,
    );
    if turned.is_err() {
        give_up(rules);
    }
    turned
}

/// The last change of each switch is taken back. It takes no memory.
fn undo_tables(tables: &mut List<SwitchTable>)
    ensures long { length tables.new ≡ length tables.old }
    ensures undone { (n : ℕ) → IsUndoneAt n tables.old tables.new }
{
    undo_all(tables.as_mut_slice());
}

/// What stands on a switch is a table.
fn is_table(table: &SwitchTable)
    ensures { IsTable table.now.installed.now }
{
    table.is_table();
}

/// So it is on each switch.
fn are_tables(tables: &List<SwitchTable>)
    ensures { AreTables tables.now }
{
    for table in tables.as_slice() {
        is_table(table);
    }
}

impl Composed {
    /// That of a setting, from scratch.
    pub fn build<R: Threads + Sync, G: Ledger>(
        rt: &R,
        alloc: Global,
        topology: &Topology,
        setting: &Setting,
        steps: &mut Steps<G>,
    ) -> Result<Composed, Memory>
        requires fits { IsFittingSetting setting.now }
        requires good { IsGood setting.now }
        requires ready { IsReadyFor topology.now setting.now }
        requires few { length setting.now.switches < 2 ^ 32 }
        ensures of { IfOk result (IsOf setting.now) }
        ensures compiled { IfOk result (λ c. is_some c.rules ≡ true) }
        ensures plan { IfOk result (λ c. (r : RulesOf) → c.rules ≡ Some r → r.hops.plan ≡ topology.now) }
        // Whatever the result.
        ensures steps { steps.new ≤ steps.old + building_steps topology.now setting.now }
    {
        let tables = tables_of(alloc, setting)?;
        let wiring = setting.wiring.copy()?;
        let switches = setting.network.switches.copy()?;
        // They come last, so that no failure has to let go of them.
        let rules = Rules::build(rt, alloc, topology, setting, steps)?;
        Ok(Composed {
            alloc,
            wiring,
            switches,
            rules: Some(rules),
            tables,
        })
    }

    /// Whether the rules are there; if not, [`Composed::restore`] makes them anew.
    pub fn is_compiled(&self) -> bool
        ensures { result ≡ is_some self.now.rules }
    {
        self.rules.is_some()
    }

    /// The rules are made anew, from the setting of which the rest is.
    pub fn restore<R: Threads + Sync, G: Ledger>(
        &mut self,
        rt: &R,
        topology: &Topology,
        setting: &Setting,
        steps: &mut Steps<G>,
    ) -> Result<(), Memory>
        requires fits { IsFittingSetting setting.now }
        requires ready { IsReadyFor topology.now setting.now }
        requires of { IsOf setting.now self.old }
        ensures of { IsOf setting.now self.new }
        ensures compiled { OnOk result (is_some self.new.rules ≡ true) }
        ensures tables { self.new.tables ≡ self.old.tables }
        ensures plan { OnOk result ((r : RulesOf) → self.new.rules ≡ Some r → r.hops.plan ≡ topology.now) }
        ensures memory { OnErr result (self.new ≡ self.old) }
        // Whatever the result.
        ensures steps { steps.new ≤ steps.old + building_steps topology.now setting.now }
    {
        let rules = Rules::build(rt, self.alloc, topology, setting, steps)?;
        put_rules(&mut self.rules, rules);
        Ok(())
    }

    /// A member of a virtual switch changes its rules. What is told is the batch of each switch: those of
    /// switches that are up have cookies from a number on. Where memory is wanting the tables are as before,
    /// and the rules are given up.
    pub fn apply<G: Ledger>(
        &mut self,
        v: u32,
        delta: LeafDelta,
        ups: &[bool],
        next: u64,
        steps: &mut Steps<G>,
    ) -> Result<List<SwitchBatch>, Memory>
        requires compiled { is_some self.old.rules ≡ true }
        requires can { (r : RulesOf) → self.old.rules ≡ Some r → CanTake r v delta }
        requires ups { length ups.now ≡ length self.old.tables }
        ensures of { (before after : SettingOf) → IsGood before → IsGood after → IsOf before self.old
            → Changes v delta before after → OnOk result (IsOf after self.new) }
        ensures was { (before : SettingOf) → IsOf before self.old → OnOk result (WasOf before self.new) }
        ensures compiled { OnOk result (is_some self.new.rules ≡ true) }
        ensures batches { IfOk result (AreBatches next self.old.tables self.new.tables) }
        ensures ups { IfOk result (λ batches. map up_of batches ≡ ups.now) }
        ensures memory { (before : SettingOf) → IsOf before self.old → OnErr result (IsOf before self.new) }
        ensures memory_standing { OnErr result (StandAsBefore self.old.tables self.new.tables) }
        ensures plan { (r s : RulesOf) → self.old.rules ≡ Some r → self.new.rules ≡ Some s → s.hops.plan ≡ r.hops.plan }
        // Whatever the result, by the settings before and after.
        ensures steps { (r : RulesOf) → self.old.rules ≡ Some r → (before after : SettingOf) → IsOf before self.old
            → Changes v delta before after → steps.new ≤ steps.old + setting_steps r.hops.plan before after }
    {
        let batches = turn_some(
            self.alloc,
            &mut self.rules,
            &mut self.tables,
            &self.wiring,
            &self.switches,
            v,
            delta,
            ups,
            next,
            steps,
        )?;
        Ok(batches)
    }

    /// How many switches there are. What is true of what stands on each is said here.
    pub fn count(&self) -> usize
        ensures count { result ≡ length self.now.tables }
        ensures tables { AreTables self.now.tables }
    {
        are_tables(&self.tables);
        self.tables.len()
    }

    /// What stands on a switch, by rising key: what is installed of the entries of the setting.
    pub fn standing(&self, n: usize) -> Result<List<Written>, Memory>
        requires { n < length self.now.tables }
        ensures { (s : SettingOf) → IsGood s → IsOf s self.now → IfOk result (IsStandingOf s n) }
    {
        let slots = self.tables.as_slice();
        let standing = slots[n].standing()?;
        Ok(standing)
    }

    /// A switch comes up: all that stands, with new cookies from a number on.
    pub fn whole(&mut self, n: usize, next: u64) -> Result<Batch, Memory>
        requires { n < length self.old.tables }
        ensures of { (s : SettingOf) → IsOf s self.old → IsOf s self.new }
        ensures was { (s : SettingOf) → WasOf s self.old → WasOf s self.new }
        ensures rules { self.new.rules ≡ self.old.rules }
        ensures deletes { IfOk result (λ batch. batch.deletes ≡ []) }
        ensures standing { (s : SettingOf) → IsGood s → IsOf s self.old
            → IfOk result (λ batch. IsStandingOf s n batch.adds) }
        ensures memory { OnErr result (self.new ≡ self.old) }
    {
        let batch = whole_nth(&mut self.tables, n, next)?;
        Ok(batch)
    }

    /// All that stands is as before the last change, and the rules are given up. It takes no memory.
    pub fn undo(&mut self)
        ensures of { (s : SettingOf) → WasOf s self.old → IsOf s self.new }
        ensures compiled { self.new.rules ≡ None }
    {
        give_up(&mut self.rules);
        undo_tables(&mut self.tables);
    }
}
