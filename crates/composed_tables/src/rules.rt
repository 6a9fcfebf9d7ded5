//! The composed rules: those of the expression of each virtual switch, and those of its ports through hops.
ghost use Rattle.std.specs.Prelude.{◌≡◌, ◌+◌, ◌<◌, ◌≤◌, ◌^◌, ◌++◌, ◌∷◌, [], ℕ, All, false, IfOk, IsPermutation, IsTrue};
ghost use Rattle.std.specs.Prelude.{List};
ghost use Rattle.std.specs.Prelude.{OnOk, Some, length, map, slice_get, slice_index_or, sum_by};
ghost use Rattle.std.specs.List.{AllByRecursion};
ghost use Rattle.agreement.specs.Fitting.{IsFittingSetting};
ghost use Rattle.agreement.specs.declared.state.Setting.{Setting as SettingOf};
ghost use Rattle.alg_priority.specs.Levels.{capped};
ghost use Rattle.hop_rules.specs.Counts.{change_steps};
ghost use Rattle.hop_rules.specs.Links.{ends};
ghost use Rattle.hop_rules.specs.Tables.{IsHanded, TableOf, empty_table, fabric, is_whole, own_ports};
ghost use Rattle.hop_rules.specs.Tables.{rules_at as rules_kept};
ghost use Rattle.incr_compile.specs.Compiling.{IsOf as IsTreeWith, MemberChanges, policy_in};
ghost use Rattle.incr_compile.specs.Costs.{steps_of};
ghost use Rattle.incr_compile.specs.Trees.{IsTree, tree_of};
ghost use Rattle.incr_compile.specs.declared.tree.Tree.{Tree};
ghost use Rattle.list_change.specs.Changes.{Apart};
ghost use Rattle.of10_match.specs.Normal.{IsNormal};
ghost use Rattle.policy_meaning.specs.Fitting.{IsFittingTable, levels_of};
ghost use Rattle.policy_meaning.specs.Hops.{hop_size};
ghost use Rattle.policy_meaning.specs.Switches.{SwitchOf};
ghost use Rattle.policy_meaning.specs.declared.rule.Rule.{Rule as RuleOf};
ghost use Rattle.composed_tables.specs.Composing.{AreExact, Changes, rules_in};
ghost use Rattle.composed_tables.specs.Rules.{ArePortDeltas, AreRulesOf, AreSound, AreTied, AreTreesOf, CanChangeAt};
ghost use Rattle.composed_tables.specs.Rules.{CanCompile};
ghost use Rattle.composed_tables.specs.Rules.{AreHandedOver, IsAdded, IsEmptyTable, IsHandedOver};
ghost use Rattle.composed_tables.specs.Steps.{HasFirst, building_steps, compile_steps, first_fabric, first_steps};
ghost use Rattle.composed_tables.specs.Steps.{hop_steps, setting_steps};
ghost use Rattle.composed_tables.specs.Rules.{CanTake, IsChangedAt, IsFitting, IsReadyFor, IsTreeOf};

use agreement::Setting;
use cv_io::{Duplicate, List, Memory, Steps};
use hop_rules::{HopTable, PortDelta};
use incr_compile::{Compiled, LeafDelta};
use of10_match::Match;
use op_compose::RuleDelta;
use policy_meaning::{Network, Rule, VirtualSwitch, expression_size};
use std::alloc::Global;
use std::marker::Model;
use std::sync::ledger::Ledger;
use std::thread::Threads;
use virtual_topology::Topology;

/// A compiled expression for each virtual switch, and the rules of their ports.
#[derive(Drop)]
pub struct Rules {
    trees: List<Compiled>,
    /// How many levels the rules of each virtual switch have.
    sizes: List<u64>,
    /// Of which of them rules are for all ports at once.
    whole: List<bool>,
    hops: HopTable,
}

impl Model for Rules {
    ghost use Rattle.composed_tables.specs.Rules.{RulesOf};
    ghost use Rattle.incr_compile.specs.contracts.tree.Tree as e;
    ghost use Rattle.std.specs.Coded.{codes};

    ghost Value = { RulesOf };

    ghost coded = { Prim.hlevel (codes, e.the_row.coded) };

    ghost view = { λ a. record { trees = a.trees; sizes = a.sizes; whole = a.whole; hops = a.hops } };
}

/// Whether each field of a match stands with the fields that it needs.
fn is_normal(m: &Match) -> bool
    ensures { IsTrue result → IsNormal m.now }
{
    m.normal() == *m
}

/// Whether a rule's level is below so many, and its match normal.
fn is_fitting(size: u64, rule: &Rule) -> bool
    ensures { IsTrue result → IsFitting size rule.now }
{
    rule.level < size && is_normal(&rule.m)
}

/// Whether rules' levels are below so many, and their matches normal. Rules that come of a sound setting are such;
/// a law that says so makes the test superfluous.
fn are_fitting(size: u64, rules: &List<Rule>) -> bool
    ensures { IsTrue result → AllByRecursion (IsFitting size) rules.now }
{
    for rule in rules.as_slice() {
        if !is_fitting(size, rule) {
            return false;
        }
    }
    true
}

/// The list has room for a compiled expression. Where the tree would be dropped, the proof learns that it is sound.
fn with_room(trees: &mut List<Compiled>, tree: Compiled) -> Result<Compiled, Memory>
    ensures same { IfOk result (λ t. t ≡ tree) }
    ensures sound { IfOk result (λ t. IsTree (tree_of t)) }
    ensures kept { trees.new ≡ trees.old }
{
    trees.reserve(1)?;
    Ok(tree)
}

/// Appends the compiled expression of a virtual switch.
fn add_tree<R: Threads + Sync, G: Ledger>(
    rt: &R,
    alloc: Global,
    trees: &mut List<Compiled>,
    network: &Network,
    v: usize,
    x: &VirtualSwitch,
    steps: &mut Steps<G>,
) -> Result<(), Memory>
    requires can { CanCompile network.now }
    requires there { slice_get network.now.switches v ≡ Some x.now }
    ensures added { OnOk result (IsAdded network.now.tables x.now trees.old trees.new) }
    ensures steps { steps.new ≤ steps.old + compile_steps network.now.tables x.now }
{
    let ports = x.ports(alloc)?;
    let tree = Compiled::build(rt, alloc, &x.expr, &network.tables, &ports, steps)?;
    let sound = with_room(trees, tree)?;
    trees.push(sound)?;
    Ok(())
}

/// The compiled expressions of all virtual switches.
fn compile_all<R: Threads + Sync, G: Ledger>(
    rt: &R,
    alloc: Global,
    network: &Network,
    steps: &mut Steps<G>,
) -> Result<List<Compiled>, Memory>
    requires { CanCompile network.now }
    ensures count { IfOk result (λ trees. length trees ≡ length network.now.switches) }
    ensures trees { IfOk result (AreTreesOf network.now) }
    ensures sound { IfOk result AreSound }
    ensures steps { steps.new ≤ steps.old + sum_by (compile_steps network.now.tables) network.now.switches }
{
    let mut trees = List::new(alloc);
    let switches = network.switches.as_slice();
    for v in 0..switches.len() {
        add_tree(rt, alloc, &mut trees, network, v, &switches[v], steps)?;
    }
    Ok(trees)
}

/// How many levels the rules of each virtual switch have.
fn sizes(alloc: Global, network: &Network) -> Result<List<u64>, Memory>
    requires { All IsFittingTable network.now.tables }
    ensures { IfOk result (λ sizes. sizes ≡ map (λ (x : SwitchOf). capped
        (levels_of network.now.tables x.expr)) network.now.switches) }
{
    let mut sizes = List::new(alloc);
    for x in network.switches.as_slice() {
        sizes.push(expression_size(&network.tables, &x.expr))?;
    }
    Ok(sizes)
}

/// Of which virtual switches rules are for all ports at once.
fn wholes(alloc: Global, network: &Network) -> Result<List<bool>, Memory>
    ensures { IfOk result (λ wholes. wholes ≡ map (λ (x : SwitchOf). x.whole) network.now.switches) }
{
    let mut wholes = List::new(alloc);
    for x in network.switches.as_slice() {
        wholes.push(x.whole)?;
    }
    Ok(wholes)
}

/// How many levels the rules of a virtual switch have, and one past the last.
fn size_at(sizes: &List<u64>, v: u32) -> u64
    ensures { result ≡ slice_index_or sizes.now v 1 }
{
    match sizes.get(v as usize) {
        Some(size) => *size,
        None => 1,
    }
}

/// Whether rules are for all ports of a virtual switch at once; past the last they aren't.
fn whole_at(whole: &List<bool>, v: u32) -> bool
    ensures { result ≡ slice_index_or whole.now v false }
{
    match whole.get(v as usize) {
        Some(is_whole) => *is_whole,
        None => false,
    }
}

/// What changed for all ports of a virtual switch at once.
fn whole_delta(alloc: Global, v: u32, told: RuleDelta) -> Result<List<PortDelta>, Memory>
    ensures { IfOk result (λ deltas. deltas ≡ record { v = v; port = 0; gone = told.gone; come = told.come } ∷ []) }
{
    let mut deltas = List::new(alloc);
    deltas.push(PortDelta {
        v,
        port: 0,
        gone: told.gone,
        come: told.come,
    })?;
    Ok(deltas)
}

/// The rules of a virtual switch that isn't whole change, and those of ports with them.
fn change_ports<G: Ledger>(
    hops: &mut HopTable,
    sizes: &List<u64>,
    v: u32,
    told: &RuleDelta,
    steps: &mut Steps<G>,
) -> Result<List<PortDelta>, Memory>
    requires kept { hops.old.lost ≡ false }
    requires sizes { sizes.now ≡ hops.old.sizes }
    requires there { v < length hops.old.sizes }
    requires parted { is_whole hops.old v ≡ false }
    requires gone { (kept : List RuleOf) × IsPermutation (rules_kept hops.old v) (told.now.gone ++ kept) }
    ensures handed { OnOk result (IsHanded hops.old hops.new v told.now.gone told.now.come) }
    ensures deltas { IfOk result (ArePortDeltas hops.old hops.new) }
    ensures steps { (after : TableOf) → IsHanded hops.old after v told.now.gone told.now.come
        → Apart told.now.gone told.now.come → steps.new ≤ steps.old
        + change_steps (fabric hops.old) (fabric after) (ends hops.old.plan) (own_ports hops.old) hops.old.hops }
{
    let size = size_at(sizes, v);
    if !are_fitting(size, &told.come) {
        return Err(Memory);
    }
    let deltas = hops.apply(v, told, steps)?;
    Ok(deltas)
}

/// All rules of a virtual switch are handed over.
fn hand_over<G: Ledger>(
    alloc: Global,
    hops: &mut HopTable,
    sizes: &List<u64>,
    whole: &List<bool>,
    trees: &[Compiled],
    v: u32,
    steps: &mut Steps<G>,
) -> Result<(), Memory>
    requires there { v < length trees.now }
    requires few { length trees.now < 2 ^ 32 }
    requires count { length sizes.now ≡ length trees.now }
    requires wholes { length whole.now ≡ length trees.now }
    requires kept { hops.old.lost ≡ false }
    requires sizes_are { hops.old.sizes ≡ sizes.now }
    requires wholes_are { hops.old.whole ≡ whole.now }
    requires none { rules_kept hops.old v ≡ [] }
    ensures handed { OnOk result (IsHandedOver v trees.now hops.old hops.new) }
    ensures steps { (s : SettingOf) → AreSound trees.now → HasFirst s v hops.old → AreRulesOf s
        (record { trees = trees.now; sizes = sizes.now; whole = whole.now; hops = hops.old })
        → steps.new ≤ steps.old + hop_steps hops.old.plan s (first_fabric s.network v)
        (first_fabric s.network (v + 1)) }
{
    if whole_at(whole, v) {
        return Ok(());
    }
    let gone = List::new(alloc);
    let come = trees[v as usize].rules()?;
    let told = RuleDelta { gone, come };
    change_ports(hops, sizes, v, &told, steps)?;
    Ok(())
}

/// The rules of all virtual switches are handed over.
fn hand_over_all<G: Ledger>(
    alloc: Global,
    hops: &mut HopTable,
    sizes: &List<u64>,
    whole: &List<bool>,
    trees: &[Compiled],
    steps: &mut Steps<G>,
) -> Result<(), Memory>
    requires few { length trees.now < 2 ^ 32 }
    requires count { length sizes.now ≡ length trees.now }
    requires wholes { length whole.now ≡ length trees.now }
    requires empty { IsEmptyTable sizes.now whole.now hops.old }
    ensures handed { OnOk result (AreHandedOver trees.now hops.old hops.new) }
    ensures steps { (s : SettingOf) → AreSound trees.now → AreRulesOf s
        (record { trees = trees.now; sizes = sizes.now; whole = whole.now; hops = hops.old })
        → steps.new ≤ steps.old + first_steps hops.old.plan s (length trees.now) }
{
    for v in 0..trees.len() {
        hand_over(alloc, hops, sizes, whole, trees, v as u32, steps)?;
    }
    Ok(())
}

/// The table of hops of a setting, without rules.
fn empty_hops(
    alloc: Global,
    topology: &Topology,
    sizes: &List<u64>,
    whole: &List<bool>,
    hops: u32,
) -> Result<HopTable, Memory>
    requires hop { 0 < hops }
    requires sizes { length sizes.now ≡ length topology.now.virtuals }
    requires wholes { length whole.now ≡ length topology.now.virtuals }
    requires fits { (v : ℕ) → hop_size (fabric (empty_table topology.now sizes.now hops whole.now)) hops v < 2 ^ 64 }
    ensures empty { IfOk result (IsEmptyTable sizes.now whole.now) }
    ensures plan { IfOk result (λ t. t.plan ≡ topology.now) }
    ensures hops { IfOk result (λ t. t.hops ≡ hops) }
{
    let own_sizes = sizes.copied()?;
    let own_whole = whole.copied()?;
    // It comes last, so that no failure has to let go of it.
    let plan = topology.copy()?;
    let table = HopTable::new(alloc, plan, own_sizes, hops, own_whole)?;
    Ok(table)
}

impl Rules {
    /// The composed rules of a setting of this topology, from scratch.
    pub fn build<R: Threads + Sync, G: Ledger>(
        rt: &R,
        alloc: Global,
        topology: &Topology,
        setting: &Setting,
        steps: &mut Steps<G>,
    ) -> Result<Rules, Memory>
        requires fits { IsFittingSetting setting.now }
        requires ready { IsReadyFor topology.now setting.now }
        ensures tied { IfOk result AreTied }
        ensures rules { IfOk result (AreRulesOf setting.now) }
        ensures plan { IfOk result (λ r. r.hops.plan ≡ topology.now) }
        // Whatever the result.
        ensures steps { steps.new ≤ steps.old + building_steps topology.now setting.now }
    {
        let network = &setting.network;
        let trees = compile_all(rt, alloc, network, steps)?;
        let sizes = sizes(alloc, network)?;
        let whole = wholes(alloc, network)?;
        let mut hops = empty_hops(alloc, topology, &sizes, &whole, setting.hops)?;
        match hand_over_all(alloc, &mut hops, &sizes, &whole, trees.as_slice(), steps) {
            Ok(()) => Ok(Rules {
                trees,
                sizes,
                whole,
                hops,
            }),
            Err(memory) => {
                drop(hops);
                Err(memory)
            }
        }
    }

    /// A member of a virtual switch changes its rules. What is told is what went and came at the entrances.
    pub fn apply<G: Ledger>(
        &mut self,
        alloc: Global,
        v: u32,
        delta: LeafDelta,
        steps: &mut Steps<G>,
    ) -> Result<List<PortDelta>, Memory>
        requires tied { AreTied self.old }
        requires can { CanTake self.old v delta }
        ensures tied { OnOk result (AreTied self.new) }
        ensures rules { (before after : SettingOf) → AreRulesOf before self.old
            → Changes v delta before after → OnOk result (AreRulesOf after self.new) }
        ensures exact { (before after : SettingOf) → AreRulesOf before self.old → Changes v delta before after
            → IfOk result (AreExact before.network.switches (rules_in before) (rules_in after)) }
        ensures plan { OnOk result (self.new.hops.plan ≡ self.old.hops.plan) }
        // Whatever the result.
        ensures steps { (before after : SettingOf) → AreRulesOf before self.old → Changes v delta before after
            → steps.new ≤ steps.old + setting_steps self.old.hops.plan before after }
    {
        let told = change_tree(&mut self.trees, v, delta, steps)?;
        if whole_at(&self.whole, v) {
            let all = whole_delta(alloc, v, told)?;
            return Ok(all);
        }
        let deltas = change_ports(&mut self.hops, &self.sizes, v, &told, steps)?;
        Ok(deltas)
    }
}

/// The compiled expression of a virtual switch changes with a member.
fn change_tree<G: Ledger>(
    trees: &mut List<Compiled>,
    v: u32,
    delta: LeafDelta,
    steps: &mut Steps<G>,
) -> Result<RuleDelta, Memory>
    requires { CanChangeAt trees.old v delta }
    ensures changed { IfOk result (IsChangedAt v delta trees.old trees.new) }
    ensures steps { (t : Tree) → slice_get trees.old v ≡ Some t
        → (sizes : ℕ → ℕ) → (before after : ℕ → List RuleOf) → MemberChanges delta before after
        → IsTreeWith sizes before (tree_of t)
        → steps.new ≤ steps.old + steps_of sizes before after (policy_in (tree_of t)) }
{
    let mut tree = trees.remove(v as usize);
    match tree.apply(delta, steps) {
        Ok(told) => {
            let sound = with_room(trees, tree)?;
            trees.insert(v as usize, sound)?;
            Ok(told)
        }
        Err(memory) => {
            drop(tree);
            Err(memory)
        }
    }
}
