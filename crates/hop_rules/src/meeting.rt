//! What rules make that come to the nodes to which links lead.
ghost use Rattle.std.specs.Prelude.{◌≡◌, ◌+◌, ◌*◌, ◌≤◌, ◌<◌, ◌^◌, ◌++◌, ◌∷◌, [], OnOk, IsPermutation, List, ℕ};
ghost use Rattle.std.specs.Prelude.{count_by, filter_map, map, option_to_list, true};
ghost use Rattle.std.specs.List.{AllByRecursion};
ghost use Rattle.policy_meaning.specs.declared.rule.Rule.{Rule};
ghost use Rattle.rule_ancestry.specs.Holding.{Held};
ghost use Rattle.made_rules.specs.Rules.{rules_in};
ghost use Rattle.hop_rules.specs.Handed.{AreListed};
ghost use Rattle.hop_rules.specs.Nodes.{CanMeet, IsSetUp, arrival, could, held_at, hop_way, leads_over, leads_there};
ghost use Rattle.hop_rules.specs.Nodes.{leads_to as leads_to_of, made_right};
ghost use Rattle.hop_rules.specs.Turns.{right_cost};
ghost use Rattle.hop_rules.specs.Under.{AreFound, held_under, under};

use crate::given::Given;
use crate::joining::{Around, Numbered, add_pair};
use crate::node::Node;
use crate::standing::{leaving, standing};
use cv_io::{Memory, Steps};
use made_rules::Made;
use policy_meaning::Rule;
use std::alloc::Global;
use std::sync::ledger::Ledger;

/// Whether what has this tail goes on, from a port, over the link of a place.
fn leads_to(given: &Given, port: u16, rule: &Rule, place: u32) -> bool
    ensures { result ≡ leads_to_of given.now.exits port rule.now.tail place }
{
    match leaving(given.exits(), port, &rule.tail) {
        Some(departure) => departure.exit.place == place,
        None => false,
    }
}

/// Appends what a rule of the virtual switch makes with one to which the link of a place leads.
fn add_met<'a, G: Ledger>(
    alloc: Global,
    around: Around<'a>,
    here: Numbered<'a>,
    place: u32,
    there: Numbered<'a>,
    fresh: &mut Vec<Made>,
    steps: &mut Steps<G>,
) -> Result<(), Memory>
    requires own { (own : ℕ) × (here.rule.now.level < own) × (own * around.size < 2 ^ 64) }
    requires below { there.rule.now.level < around.size }
    ensures pushed { OnOk result (fresh.new.items ≡ fresh.old.items
        ++ option_to_list ((hop_way around.entry.at around.entry.size around.entry.given.now.exits).pair
        (record { id = here.entry.id; item = here.entry.rule.now })
        (arrival place (record { id = there.entry.id; item = there.entry.rule.now })))) }
    ensures steps { steps.new ≤ steps.old
        + count_by (leads_over around.entry.at around.entry.given.now.exits place)
        (record { id = here.entry.id; item = here.entry.rule.now } ∷ []) }
{
    if !leads_to(around.given, around.at.port, here.rule, place) {
        return Ok(());
    }
    let stood = standing(alloc, around.at, here.rule)?;
    match stood {
        Some(rule) => {
            let stands = Numbered {
                id: here.id,
                rule: &rule,
            };
            add_pair(alloc, around.size, stands, place, there, fresh, steps)
        }
        None => Ok(()),
    }
}

/// Appends what the rule of the virtual switch of an id makes with one to which the link of a place
/// leads.
fn add_met_at<'a, G: Ledger>(
    alloc: Global,
    around: Around<'a>,
    id: usize,
    place: u32,
    there: Numbered<'a>,
    fresh: &mut Vec<Made>,
    steps: &mut Steps<G>,
) -> Result<(), Memory>
    requires around { (own : ℕ) × IsSetUp own around.size around.given.now around.below.now }
    requires below { there.rule.now.level < around.size }
    ensures pushed { OnOk result (fresh.new.items ≡ fresh.old.items
        ++ filter_map (λ h. (hop_way around.entry.at around.entry.size around.entry.given.now.exits).pair h
        (arrival place (record { id = there.entry.id; item = there.entry.rule.now })))
        (held_under around.entry.given.now.rules id)) }
    ensures steps { steps.new ≤ steps.old
        + count_by (leads_over around.entry.at around.entry.given.now.exits place)
        (held_under around.entry.given.now.rules id) }
{
    match around.given.rule(id) {
        Some(rule) => {
            let here = Numbered { id, rule };
            add_met(alloc, around, here, place, there, fresh, steps)
        }
        None => Ok(()),
    }
}

/// Appends what the rules of the virtual switch of these ids make with one to which the link of a place
/// leads.
fn add_each_met<'a, G: Ledger>(
    alloc: Global,
    around: Around<'a>,
    ids: &[usize],
    place: u32,
    there: Numbered<'a>,
    fresh: &mut Vec<Made>,
    steps: &mut Steps<G>,
) -> Result<(), Memory>
    requires around { (own : ℕ) × IsSetUp own around.size around.given.now around.below.now }
    requires below { there.rule.now.level < around.size }
    ensures pushed { OnOk result (fresh.new.items ≡ fresh.old.items
        ++ filter_map (λ h. (hop_way around.entry.at around.entry.size around.entry.given.now.exits).pair h
        (arrival place (record { id = there.entry.id; item = there.entry.rule.now })))
        (under around.entry.given.now.rules ids.now)) }
    ensures steps { steps.new ≤ steps.old
        + count_by (leads_over around.entry.at around.entry.given.now.exits place)
        (under around.entry.given.now.rules ids.now) }
{
    for id in ids {
        add_met_at(alloc, around, *id, place, there, fresh, steps)?;
    }
    Ok(())
}

/// Appends what a rule to which the link of a place leads makes with the listed rules of the virtual
/// switch.
fn add_by_right<'a, G: Ledger>(
    alloc: Global,
    around: Around<'a>,
    place: u32,
    there: Numbered<'a>,
    fresh: &mut Vec<Made>,
    steps: &mut Steps<G>,
) -> Result<(), Memory>
    requires around { (own : ℕ) × IsSetUp own around.size around.given.now around.below.now }
    requires there { CanMeet around.size around.given.now.exits place there.rule.now }
    ensures pushed { (kept : List (Held Rule)) → AreListed around.entry.given.now kept
        → AreFound around.entry.given.now.rules kept
        → OnOk result (IsPermutation fresh.new.items (fresh.old.items
        ++ filter_map (λ h. (hop_way around.entry.at around.entry.size around.entry.given.now.exits).pair h
        (arrival place (record { id = there.entry.id; item = there.entry.rule.now }))) kept)) }
    ensures steps { (kept : List (Held Rule)) → AreListed around.entry.given.now kept
        → AreFound around.entry.given.now.rules kept
        → steps.new ≤ steps.old + count_by (λ h. could around.entry.at around.entry.given.now.exits h
        (arrival place (record { id = there.entry.id; item = there.entry.rule.now }))) kept }
{
    let ids = around.given.meeting(&there.rule.m)?;
    add_each_met(alloc, around, &ids, place, there, fresh, steps)
}

/// Appends what the rule of an id makes in a node to which the link of a place leads.
fn add_by_right_at<'a, G: Ledger>(
    alloc: Global,
    around: Around<'a>,
    place: u32,
    node: &Node,
    id: usize,
    fresh: &mut Vec<Made>,
    steps: &mut Steps<G>,
) -> Result<(), Memory>
    requires around { (own : ℕ) × IsSetUp own around.size around.given.now around.below.now }
    requires there { AllByRecursion (λ (b : Held Rule). CanMeet around.size around.given.now.exits place b.item)
        (rules_in node.now.held) }
    ensures pushed { (kept : List (Held Rule)) → AreListed around.entry.given.now kept
        → AreFound around.entry.given.now.rules kept
        → OnOk result (IsPermutation fresh.new.items (fresh.old.items
        ++ made_right around.entry.at around.entry.size around.entry.given.now.exits kept
        (map (arrival place) (held_under (rules_in node.now.held) id)))) }
    ensures steps { (kept : List (Held Rule)) → AreListed around.entry.given.now kept
        → AreFound around.entry.given.now.rules kept
        → steps.new ≤ steps.old + right_cost around.entry.at around.entry.given.now.exits kept
        (map (arrival place) (held_under (rules_in node.now.held) id)) }
{
    match node.rule(id) {
        Some(rule) => {
            let there = Numbered { id, rule };
            add_by_right(alloc, around, place, there, fresh, steps)
        }
        None => Ok(()),
    }
}

/// Appends what the rules of these ids make in a node to which the link of a place leads.
fn add_each_by_right<'a, G: Ledger>(
    alloc: Global,
    around: Around<'a>,
    place: u32,
    node: &Node,
    come: &[usize],
    fresh: &mut Vec<Made>,
    steps: &mut Steps<G>,
) -> Result<(), Memory>
    requires around { (own : ℕ) × IsSetUp own around.size around.given.now around.below.now }
    requires there { AllByRecursion (λ (b : Held Rule). CanMeet around.size around.given.now.exits place b.item)
        (rules_in node.now.held) }
    ensures pushed { (kept : List (Held Rule)) → AreListed around.entry.given.now kept
        → AreFound around.entry.given.now.rules kept
        → OnOk result (IsPermutation fresh.new.items (fresh.old.items
        ++ made_right around.entry.at around.entry.size around.entry.given.now.exits kept
        (map (arrival place) (under (rules_in node.now.held) come.now)))) }
    ensures steps { (kept : List (Held Rule)) → AreListed around.entry.given.now kept
        → AreFound around.entry.given.now.rules kept
        → steps.new ≤ steps.old + right_cost around.entry.at around.entry.given.now.exits kept
        (map (arrival place) (under (rules_in node.now.held) come.now)) }
{
    for id in come {
        add_by_right_at(alloc, around, place, node, *id, fresh, steps)?;
    }
    Ok(())
}

/// Appends what the rules of these ids make that came where the link of a place leads.
pub(crate) fn add_all_by_right<'a, G: Ledger>(
    alloc: Global,
    around: Around<'a>,
    place: u32,
    come: &[usize],
    fresh: &mut Vec<Made>,
    steps: &mut Steps<G>,
) -> Result<(), Memory>
    requires around { (own : ℕ) × IsSetUp own around.size around.given.now around.below.now }
    requires exit { leads_there place around.given.now.exits ≡ true }
    ensures pushed { (kept : List (Held Rule)) → AreListed around.entry.given.now kept
        → AreFound around.entry.given.now.rules kept
        → OnOk result (IsPermutation fresh.new.items (fresh.old.items
        ++ made_right around.entry.at around.entry.size around.entry.given.now.exits kept
        (map (arrival place) (under (rules_in (held_at around.entry.below.now place)) come.now)))) }
    ensures steps { (kept : List (Held Rule)) → AreListed around.entry.given.now kept
        → AreFound around.entry.given.now.rules kept
        → steps.new ≤ steps.old + right_cost around.entry.at around.entry.given.now.exits kept
        (map (arrival place) (under (rules_in (held_at around.entry.below.now place)) come.now)) }
{
    match around.below.get(place as usize) {
        Some(node) => add_each_by_right(alloc, around, place, node, come, fresh, steps),
        None => Ok(()),
    }
}
