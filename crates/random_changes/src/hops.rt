//! Changes of the rules of the ports of two virtual switches that links join, against those from scratch.
ghost use Rattle.std.specs.Prelude.{◌≡◌, ◌==◌, ◌<◌, ◌∷◌, ℕ, [], IfOk, IsPermutation, List as ListOf, OnOk, ◌++◌, false};
ghost use Rattle.std.specs.Prelude.{option_to_list};
ghost use Rattle.std.specs.List.{AllByRecursion};
ghost use Rattle.policy_meaning.specs.declared.rule.Rule.{Rule as RuleOf};
ghost use Rattle.fitting_changes.specs.Composers.{FitsIn};
ghost use Rattle.random_changes.specs.Holding.{AreHeld, IsHolding};

use crate::draws::{Onward, Placed, drawn, next};
use crate::folding::{Count, are, same, told};
use crate::members::{Change, SIZE, place};
use crate::nets::{HOPS, PLACES, network, scratch, topology};
use cv_io::{Duplicate, Leaf, List, Memory, Steps};
use fitting_changes::fits_in;
use hop_rules::{HopTable, PortDelta};
use of10_actions::{Effects, Tail};
use of10_match::Match;
use op_compose::{RuleDelta, leaf};
use policy_meaning::{Network, Rule, listed};
use std::alloc::Global;
use std::mem;
use std::sync::ledger::{Blank, Ledger};
use virtual_topology::Topology;

/// The rules of ports of two virtual switches before any rule comes.
fn empty(
    alloc: Global,
    topology: Topology,
    sizes: List<u64>,
    whole: List<bool>,
) -> Result<HopTable, Memory>
    requires sizes { sizes ≡ 8 ∷ 8 ∷ [] }
    requires whole { whole ≡ false ∷ false ∷ [] }
    ensures { IfOk result (λ t. AreHeld t [] []) }
{
    if topology.plan().virtuals.len() != 2 {
        drop(topology);
        return Err(Memory);
    }
    HopTable::new(alloc, topology, sizes, HOPS, whole)
}

/// The network of the policy, and the rules of its ports before any rule comes.
fn start(alloc: Global) -> Result<(Network, HopTable), Memory>
    ensures { IfOk result (λ made. AreHeld made.1 [] []) }
{
    let sizes = List::from_slice(alloc, &[SIZE, SIZE])?;
    let whole = List::from_slice(alloc, &[false, false])?;
    let topology = topology(alloc)?;
    match network(alloc, &topology) {
        Ok(network) => beside(network, empty(alloc, topology, sizes, whole)),
        Err(memory) => {
            drop(topology);
            Err(memory)
        }
    }
}

/// Both, if the second could be made.
fn beside(network: Network, table: Result<HopTable, Memory>) -> Result<(Network, HopTable), Memory>
    requires { IfOk table (λ t. AreHeld t [] []) }
    ensures { IfOk result (λ made. AreHeld made.1 [] []) }
{
    match table {
        Ok(table) => Ok((network, table)),
        Err(memory) => {
            drop(network);
            Err(memory)
        }
    }
}

/// The rule at a place goes, if it is there.
fn take(held: &mut List<Rule>, place: Option<usize>) -> Option<Rule>
    ensures { IsPermutation held.old (option_to_list result ++ held.new) }
{
    let place = place?;
    if place >= held.len() {
        return None;
    }
    Some(held.remove(place))
}

/// A rule, if it fits.
fn fitting(rule: Option<Rule>) -> Option<Rule>
    ensures { AllByRecursion (FitsIn 8) (option_to_list result) }
{
    let rule = rule?;
    if !fits_in(SIZE, &rule) {
        drop(rule);
        return None;
    }
    Some(rule)
}

/// A rule comes, if there is one.
fn put(held: &mut List<Rule>, rule: &Option<Rule>) -> Result<(), Memory>
    ensures { OnOk result (IsPermutation held.new (option_to_list rule.now ++ held.old)) }
{
    match rule {
        Some(rule) => held.push(rule.copy()?),
        None => Ok(()),
    }
}

/// One rule goes and one comes, if there are such.
fn delta_of(alloc: Global, goes: Option<Rule>, comes: Option<Rule>) -> Result<RuleDelta, Memory>
    ensures gone { IfOk result (λ delta. delta.gone ≡ option_to_list goes) }
    ensures come { IfOk result (λ delta. delta.come ≡ option_to_list comes) }
{
    let mut come = List::new(alloc);
    come.push_some(comes)?;
    let mut gone = List::new(alloc);
    gone.push_some(goes)?;
    Ok(RuleDelta { gone, come })
}

/// The rules of a virtual switch change, and those of ports with them.
fn turn<G: Ledger>(
    alloc: Global,
    table: &mut HopTable,
    v: u32,
    held: &mut List<Rule>,
    change: Change,
    steps: &mut Steps<G>,
) -> Result<List<PortDelta>, Memory>
    requires { IsHolding table.old v held.old }
    ensures own { OnOk result (IsHolding table.new v held.new) }
    ensures others { OnOk result ((u : ℕ) → (rules : ListOf RuleOf) → (u == v) ≡ false → IsHolding table.old u rules
        → IsHolding table.new u rules) }
{
    let Change { goes, comes } = change;
    let comes = fitting(comes);
    let goes = take(held, goes);
    put(held, &comes)?;
    let delta = delta_of(alloc, goes, comes)?;
    let deltas = table.apply(v, &delta, steps);
    drop(delta);
    deltas
}

/// The same of either of the two.
fn turn_either<G: Ledger>(
    alloc: Global,
    table: &mut HopTable,
    first: &mut List<Rule>,
    second: &mut List<Rule>,
    v: u32,
    change: Change,
    steps: &mut Steps<G>,
) -> Result<List<PortDelta>, Memory>
    requires { AreHeld table.old first.old second.old }
    ensures { OnOk result (AreHeld table.new first.new second.new) }
{
    if v == 0 {
        turn(alloc, table, 0, first, change, steps)
    } else {
        turn(alloc, table, 1, second, change, steps)
    }
}

/// The same of a copy, which stands in the place of the table then.
fn turn_copy<G: Ledger>(
    alloc: Global,
    table: &mut HopTable,
    first: &mut List<Rule>,
    second: &mut List<Rule>,
    v: u32,
    change: Change,
    steps: &mut Steps<G>,
) -> Result<List<PortDelta>, Memory>
    requires { AreHeld table.old first.old second.old }
    ensures { OnOk result (AreHeld table.new first.new second.new) }
{
    let copied = table.copy()?;
    drop(mem::replace(table, copied));
    turn_either(alloc, table, first, second, v, change, steps)
}

/// Whether a rule is one of a port of a virtual switch.
fn is_at(v: u32, port: u16, rule: &Rule) -> bool {
    match rule.ancestry.get(0) {
        Some(leaf) => leaf.member == v && rule.m.in_port == Some(port),
        None => false,
    }
}

/// Whether all these rules are.
fn are_at(v: u32, port: u16, rules: &[Rule]) -> bool {
    for rule in rules {
        if !is_at(v, port, rule) {
            return false;
        }
    }
    true
}

/// Whether what is told to have changed at a port was of it, and what went was there. It is known then.
fn told_at(seen: &mut List<Rule>, delta: PortDelta) -> Result<bool, Memory> {
    let PortDelta {
        v,
        port,
        gone,
        come,
    } = delta;
    let is_there = are_at(v, port, gone.as_slice()) && are_at(v, port, come.as_slice());
    let is_told = told(seen, gone, come)?;
    Ok(is_there && is_told)
}

/// The same of all ports.
fn all_told(seen: &mut List<Rule>, deltas: List<PortDelta>) -> Result<bool, Memory> {
    let mut are_told = true;
    for delta in deltas.into_vec() {
        are_told = told_at(seen, delta)? && are_told;
    }
    Ok(are_told)
}

/// The rules of all ports, in their order.
fn rules_of(alloc: Global, table: &HopTable) -> Result<List<Rule>, Memory>
    requires { table.now.lost ≡ false }
{
    let mut rules = List::new(alloc);
    for at in PLACES {
        rules.append(table.rules(at.v, at.port)?)?;
    }
    listed(rules)
}

/// Whether the ports have these rules.
fn has(alloc: Global, table: &HopTable, wanted: &List<Rule>) -> Result<bool, Memory>
    requires { table.now.lost ≡ false }
{
    let rules = rules_of(alloc, table)?;
    Ok(same(rules, wanted))
}

/// Whether the rules of all ports, and those that are known by what was told, are those from scratch.
fn is_scratch(
    alloc: Global,
    table: &HopTable,
    network: &Network,
    seen: &List<Rule>,
) -> Result<bool, Memory>
    requires { table.now.lost ≡ false }
{
    let wanted = scratch(alloc, network)?;
    let known = are(seen, &wanted);
    let held = has(alloc, table, &wanted);
    drop(wanted);
    Ok(known? && held?)
}

/// Whether the rules are those from scratch after a change.
fn follows<G: Ledger>(
    alloc: Global,
    table: &mut HopTable,
    first: &mut List<Rule>,
    second: &mut List<Rule>,
    network: &mut Network,
    seen: &mut List<Rule>,
    placed: &Placed,
    steps: &mut Steps<G>,
) -> Result<bool, Memory>
    requires { AreHeld table.old first.old second.old }
    ensures { OnOk result (AreHeld table.new first.new second.new) }
{
    let change = place(alloc, &mut network.tables, placed)?;
    let deltas = turn_copy(alloc, table, first, second, placed.member, change, steps)?;
    let are_told = all_told(seen, deltas)?;
    Ok(are_told && is_scratch(alloc, table, network, seen)?)
}

/// Makes so many changes, up to the first after which rules differ, and counts the rules that are compared.
fn fold<G: Ledger>(
    alloc: Global,
    changes: u32,
    table: &mut HopTable,
    first: &mut List<Rule>,
    second: &mut List<Rule>,
    network: &mut Network,
    seen: &mut List<Rule>,
    steps: &mut Steps<G>,
) -> Result<Count, Memory>
    requires { AreHeld table.old first.old second.old }
{
    let mut state = 19;
    let mut rules = 0_usize;
    for turn in 0..changes {
        let v = (next(&mut state) % 2) as u32;
        let placed = drawn(&mut state, v, Onward::Links);
        if !follows(alloc, table, first, second, network, seen, &placed, steps)? {
            return Ok(Count {
                rules,
                differs: Some(turn),
            });
        }
        rules = rules.wrapping_add(seen.len());
    }
    Ok(Count {
        rules,
        differs: None,
    })
}

/// The rule of what no entry of a member holds comes.
fn miss(alloc: Global, member: u32) -> Result<Change, Memory> {
    let outs = List::new(alloc);
    let tail = Tail::Nothing;
    let leaf_of = Leaf { member, kind: 1 };
    let rule = leaf(
        alloc,
        Match::everything(),
        1,
        false,
        Effects { outs, tail },
        leaf_of,
    )?;
    Ok(Change {
        goes: None,
        comes: Some(rule),
    })
}

/// The rules of misses come to both virtual switches.
fn turn_misses<G: Ledger>(
    alloc: Global,
    table: &mut HopTable,
    first: &mut List<Rule>,
    second: &mut List<Rule>,
    steps: &mut Steps<G>,
) -> Result<(), Memory>
    requires { AreHeld table.old first.old second.old }
    ensures { OnOk result (AreHeld table.new first.new second.new) }
{
    let change = miss(alloc, 0)?;
    drop(turn_either(alloc, table, first, second, 0, change, steps)?);
    let change = miss(alloc, 1)?;
    drop(turn_either(alloc, table, first, second, 1, change, steps)?);
    Ok(())
}

/// What came of so many changes, where no entry came yet.
fn fold_all<G: Ledger>(
    alloc: Global,
    changes: u32,
    table: &mut HopTable,
    first: &mut List<Rule>,
    second: &mut List<Rule>,
    network: &mut Network,
    steps: &mut Steps<G>,
) -> Result<Count, Memory>
    requires { AreHeld table.old first.old second.old }
{
    turn_misses(alloc, table, first, second, steps)?;
    let mut seen = rules_of(alloc, table)?;
    let count = fold(
        alloc, changes, table, first, second, network, &mut seen, steps,
    );
    drop(seen);
    count
}

/// The same, where no rule came yet.
fn counted<G: Ledger>(
    alloc: Global,
    changes: u32,
    table: &mut HopTable,
    network: &mut Network,
    steps: &mut Steps<G>,
) -> Result<Count, Memory>
    requires { AreHeld table.old [] [] }
{
    let mut first = List::new(alloc);
    let mut second = List::new(alloc);
    let count = fold_all(
        alloc,
        changes,
        table,
        &mut first,
        &mut second,
        network,
        steps,
    );
    drop(first);
    drop(second);
    count
}

/// What came of so many changes of the network of the policy.
pub fn folded<G: Ledger>(alloc: Global, changes: u32, blank: Blank) -> Result<Count, Memory>
    requires { (blank.name ≡ G.name) × (blank.parts ≡ G.parts) × (0 < blank.parts) }
{
    let mut steps = Steps::<G>::new(blank);
    let (mut network, mut table) = start(alloc)?;
    let count = counted(alloc, changes, &mut table, &mut network, &mut steps);
    drop(table);
    drop(network);
    count
}
