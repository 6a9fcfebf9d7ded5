//! The rules of the ports of virtual switches.
ghost use Rattle.std.specs.Prelude.{◌≡◌, ◌+◌, ◌<◌, ◌≤◌, ◌^◌, ◌++◌, ◌∷◌, [], Contains, IfOk, IsPermutation, List, OnErr};
ghost use Rattle.std.specs.Prelude.{OnOk, ℕ};
ghost use Rattle.std.specs.Prelude.{false, length, map, true};
ghost use Rattle.std.specs.List.{AllByRecursion};
ghost use Rattle.list_change.specs.Changes.{Apart};
ghost use Rattle.policy_meaning.specs.Hops.{hop_size};
ghost use Rattle.policy_meaning.specs.declared.network.Place.{Place};
ghost use Rattle.policy_meaning.specs.declared.rule.Rule.{Rule};
ghost use Rattle.hop_rules.specs.Counts.{change_steps};
ghost use Rattle.hop_rules.specs.Links.{ends as ends_of};
ghost use Rattle.hop_rules.specs.Kept.{IsKept, rules_of, with_rules};
ghost use Rattle.hop_rules.specs.Tables.{AreDeltas, AreOfPorts, IsHanded, MayCome, TableOf, empty_table, fabric};
ghost use Rattle.hop_rules.specs.Tables.{is_whole};
ghost use Rattle.hop_rules.specs.Tables.{own_ports, port_rules, rules_at as rules_held};

use crate::building::{last_nodes, level_of, levels_below, none_given, outside_stands, whole_at};
use crate::delta::PortDelta;
use crate::exits::ends;
use crate::parts::Parts;
use crate::telling::{port_deltas, rules_at, whole_delta};
use cv_io::{Duplicate, List, Memory, Steps};
use op_compose::RuleDelta;
use policy_meaning::{Place, Rule};
use std::alloc::Global;
use std::marker::Model;
use std::sync::ledger::Ledger;
use virtual_topology::Topology;

/// The rules of the outside ports of virtual switches, through at most `hops` evaluations.
#[derive(Drop)]
pub struct HopTable {
    alloc: Global,
    topology: Topology,
    /// How many levels the rules of each virtual switch have.
    sizes: List<u64>,
    hops: u32,
    /// Of which virtual switches the rules stand for all ports at once.
    whole: List<bool>,
    parts: Parts,
    /// Want of memory stopped a change halfway.
    is_lost: bool,
}

impl Model for HopTable {
    ghost use Rattle.std.specs.Prelude.{◌≡◌, false};
    ghost use Rattle.hop_rules.specs.Kept.{IsKept, rules_of};
    ghost use Rattle.hop_rules.specs.Tables.{TableOf};

    ghost Value = { TableOf };

    ghost view = { λ t. record {
      plan = t.topology;
      sizes = t.sizes;
      hops = t.hops;
      whole = t.whole;
      rules = rules_of t.parts.given;
      lost = t.is_lost;
    } };

    ghost invariant = { λ t. t.is_lost ≡ false
        → IsKept (record {
          plan = t.topology;
          sizes = t.sizes;
          hops = t.hops;
          whole = t.whole;
          rules = rules_of t.parts.given;
          lost = t.is_lost;
        }) t.parts };
}

/// The parts of a table without rules.
fn parts_of(
    alloc: Global,
    topology: &Topology,
    sizes: &[u64],
    hops: u32,
    whole: &[bool],
) -> Result<Parts, Memory>
    requires hop { 0 < hops }
    requires sizes { length sizes.now ≡ length topology.now.virtuals }
    requires whole { length whole.now ≡ length topology.now.virtuals }
    requires fits { (v : ℕ) → hop_size (fabric (empty_table topology.now sizes.now hops whole.now)) hops v < 2 ^ 64 }
    ensures kept { IfOk result
        (λ parts. IsKept (with_rules (empty_table topology.now sizes.now hops whole.now) parts.given) parts) }
    ensures empty { IfOk result (λ parts. rules_of parts.given ≡ map (λ v. []) sizes.now) }
{
    // That there are few virtual switches.
    let _plan = topology.plan();
    let all = ends(alloc, topology)?;
    let ends = all.as_slice();
    let given = none_given(alloc, ends, sizes.len())?;
    let last = last_nodes(alloc, ends)?;
    let rising = levels_below(alloc, hops, ends, given.as_slice(), sizes)?;
    let outside = topology.outside_ports();
    let stands = outside_stands(alloc, outside, whole, rising.peers.as_slice())?;
    let top = level_of(alloc, stands, false)?;
    Ok(Parts {
        given,
        last,
        levels: rising.levels,
        top,
    })
}

impl HopTable {
    /// The table of a topology, without rules: the size of each virtual switch is that of its
    /// expression, and `whole` says of which its rules stand for all ports at once.
    pub fn new(
        alloc: Global,
        topology: Topology,
        sizes: List<u64>,
        hops: u32,
        whole: List<bool>,
    ) -> Result<HopTable, Memory>
        requires hop { 0 < hops }
        requires sizes { length sizes ≡ length topology.virtuals }
        requires whole { length whole ≡ length topology.virtuals }
        requires fits { (v : ℕ) → hop_size (fabric (empty_table topology sizes hops whole)) hops v < 2 ^ 64 }
        ensures { IfOk result
            (λ t. t ≡ record (empty_table topology sizes hops whole) { rules = map (λ v. []) sizes }) }
    {
        match parts_of(alloc, &topology, sizes.as_slice(), hops, whole.as_slice()) {
            Ok(parts) => Ok(HopTable {
                alloc,
                topology,
                sizes,
                hops,
                whole,
                parts,
                is_lost: false,
            }),
            Err(memory) => {
                drop(topology);
                Err(memory)
            }
        }
    }

    /// Whether want of memory stopped a change halfway: then the table is to be made anew.
    pub fn is_lost(&self) -> bool
        ensures { result ≡ self.now.lost }
    {
        self.is_lost
    }

    /// The rules of an outside port of a virtual switch that isn't whole, in no order that counts.
    pub fn rules(&self, v: u32, port: u16) -> Result<List<Rule>, Memory>
        requires lost { self.now.lost ≡ false }
        ensures { Contains (own_ports self.now) (record { v = v; port = port })
            → IfOk result (IsPermutation (port_rules self.now (record { v = v; port = port }))) }
    {
        rules_at(self.alloc, &self.parts.top, Place { v, port })
    }

    /// The rules of a virtual switch that isn't whole change, and those of the ports with them.
    fn change<G: Ledger>(
        &mut self,
        v: u32,
        delta: &RuleDelta,
        steps: &mut Steps<G>,
    ) -> Result<List<PortDelta>, Memory>
        requires lost { self.old.lost ≡ false }
        requires there { v < length self.old.sizes }
        requires come { AllByRecursion (MayCome self.old v) delta.now.come }
        ensures handed { OnOk result (IsHanded self.old self.new v delta.now.gone delta.now.come) }
        ensures ports { IfOk result (AreDeltas self.old self.new) }
        ensures others { IfOk result (AreOfPorts self.old) }
        ensures steps { (after : TableOf) → IsHanded self.old after v delta.now.gone delta.now.come
            → Apart delta.now.gone delta.now.come → steps.new ≤ steps.old
            + change_steps (fabric self.old) (fabric after) (ends_of self.old.plan) (own_ports self.old) self.old.hops }
        ensures memory { OnErr result (self.new.lost ≡ true) }
    {
        self.is_lost = true;
        let tolds = self.parts.change(self.alloc, v, delta, steps)?;
        let deltas = port_deltas(self.alloc, &self.parts.top, tolds)?;
        self.is_lost = false;
        Ok(deltas)
    }

    /// The rules of a virtual switch change, and those of the ports with them; those of a whole one are
    /// handed on, with port 0. Want of memory leaves a table that is lost, but where it is whole.
    pub fn apply<G: Ledger>(
        &mut self,
        v: u32,
        delta: &RuleDelta,
        steps: &mut Steps<G>,
    ) -> Result<List<PortDelta>, Memory>
        requires lost { self.old.lost ≡ false }
        requires there { v < length self.old.sizes }
        requires gone { is_whole self.old v ≡ false
            → (kept : List Rule) × IsPermutation (rules_held self.old v) (delta.now.gone ++ kept) }
        requires come { is_whole self.old v ≡ false → AllByRecursion (MayCome self.old v) delta.now.come }
        ensures whole { is_whole self.old v ≡ true → IfOk result (λ deltas. deltas
            ≡ record { v = v; port = 0; gone = delta.now.gone; come = delta.now.come } ∷ []) }
        ensures unmoved { is_whole self.old v ≡ true → self.new ≡ self.old }
        ensures handed { is_whole self.old v ≡ false
            → OnOk result (IsHanded self.old self.new v delta.now.gone delta.now.come) }
        ensures ports { is_whole self.old v ≡ false → IfOk result (AreDeltas self.old self.new) }
        ensures others { is_whole self.old v ≡ false → IfOk result (AreOfPorts self.old) }
        // Whatever the result, by any table that the change makes of this one.
        ensures steps { is_whole self.old v ≡ false → (after : TableOf)
            → IsHanded self.old after v delta.now.gone delta.now.come
            → Apart delta.now.gone delta.now.come → steps.new ≤ steps.old
            + change_steps (fabric self.old) (fabric after) (ends_of self.old.plan) (own_ports self.old) self.old.hops }
        ensures still { is_whole self.old v ≡ true → steps.new ≡ steps.old }
        ensures memory { is_whole self.old v ≡ false → OnErr result (self.new.lost ≡ true) }
    {
        if whole_at(self.whole.as_slice(), v) {
            return whole_delta(self.alloc, v, delta);
        }
        self.change(v, delta, steps)
    }
}

impl Duplicate for HopTable {
    fn copy(&self) -> Result<HopTable, Memory> {
        let sizes = self.sizes.copied()?;
        let whole = self.whole.copied()?;
        let topology = self.topology.copy()?;
        match self.parts.copy() {
            Ok(parts) => Ok(HopTable {
                alloc: self.alloc,
                topology,
                sizes,
                hops: self.hops,
                whole,
                parts,
                is_lost: self.is_lost,
            }),
            // By a call it is one step of the proof to let go of it, and many by its parts.
            Err(memory) => {
                drop(topology);
                Err(memory)
            }
        }
    }
}
