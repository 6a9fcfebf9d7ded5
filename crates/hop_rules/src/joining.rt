//! What rules make at the node of a port.
ghost use Rattle.std.specs.Prelude.{◌≡◌, ◌+◌, ◌*◌, ◌≤◌, ◌<◌, ◌^◌, ◌++◌, ◌∷◌, [], OnOk, Some, IsPermutation, List, ℕ};
ghost use Rattle.std.specs.Prelude.{count_by, filter_map, length, option_map, option_to_list, true};
ghost use Rattle.std.specs.List.{AllByRecursion};
ghost use Rattle.alg_priority.specs.Levels.{concat_level};
ghost use Rattle.of10_match.specs.Matching.{overlaps};
ghost use Rattle.op_compose.specs.Composition.{Joins, joined};
ghost use Rattle.op_compose.specs.declared.op.Op.TheVariants.{Hop};
ghost use Rattle.policy_meaning.specs.Hops.{hop_lone};
ghost use Rattle.policy_meaning.specs.declared.rule.Rule.{Rule};
ghost use Rattle.rule_ancestry.specs.Holding.{Held};
ghost use Rattle.list_change.specs.Pairing.{by_one};
ghost use Rattle.made_rules.specs.Rules.{rules_in};
ghost use Rattle.hop_rules.specs.Nodes.{CanMake, IsAt, IsOwn, IsSetUp, arrivals, arrived as arrived_of, could};
ghost use Rattle.hop_rules.specs.Nodes.{held_at, hop_way};
ghost use Rattle.hop_rules.specs.Nodes.{made_alone, made_left, made_of_pair, own as own_of, pair_with};
ghost use Rattle.hop_rules.specs.Standing.{asked as asked_of, leaving as leaving_of, standing as standing_of};
ghost use Rattle.hop_rules.specs.Turns.{left_cost};
ghost use Rattle.hop_rules.specs.Under.{held_under, under};
ghost use Rattle.hop_rules.specs.declared.exits.Exit.{Exit};

use crate::given::Given;
use crate::node::Node;
use crate::standing::{Departure, asked, leaving, standing};
use cv_io::{Leaf, List, Memory, Steps};
use made_rules::{Made, Origin};
use op_compose::{Op, Side, join, lift};
use policy_meaning::{Place, Rule};
use std::alloc::Global;
use std::sync::ledger::Ledger;

/// The name, among what a rule is made of, of a rule of the virtual switch: a leaf of its nodes.
pub(crate) fn own(id: usize) -> Origin
    ensures { result ≡ own_of id }
{
    Origin::Leaf(Leaf {
        member: 0,
        kind: id as u64,
    })
}

/// The name of a rule to which the link of a place leads.
pub(crate) fn arrived(place: u32, id: usize) -> Origin
    ensures { result ≡ arrived_of place id }
{
    Origin::Rule { operand: place, id }
}

/// A rule and its id.
#[derive(Clone, Copy)]
pub(crate) struct Numbered<'a> {
    pub(crate) id: usize,
    pub(crate) rule: &'a Rule,
}

/// What a node makes rules of: the rules of the virtual switch, and those of the nodes to which links
/// lead, which have `size` levels.
#[derive(Clone, Copy)]
pub struct Around<'a> {
    pub at: Place,
    pub size: u64,
    pub given: &'a Given,
    pub below: &'a [Node],
}

/// Appends the rule that a rule which stands at the node makes alone. This is one step.
fn add_alone<'a, G: Ledger>(
    alloc: Global,
    size: u64,
    here: Numbered<'a>,
    fresh: &mut Vec<Made>,
    steps: &mut Steps<G>,
) -> Result<(), Memory>
    requires level { concat_level here.rule.now.level 0 size < 2 ^ 64 }
    ensures pushed { OnOk result (fresh.new.items ≡ fresh.old.items
        ++ made_alone here.entry.id (hop_lone size here.entry.rule.now) ∷ []) }
    ensures step { steps.new ≡ steps.old + 1 }
{
    let rule = lift(Op::Hop, Side::Left, here.rule, size, steps)?;
    let origins = List::from_slice(alloc, &[own(here.id)])?;
    fresh.push(Made { rule, origins })?;
    Ok(())
}

/// Appends the rule, if there is one, that a rule which stands at the node makes with one to which the
/// link of a place leads. This is one step.
pub(crate) fn add_pair<'a, G: Ledger>(
    alloc: Global,
    size: u64,
    here: Numbered<'a>,
    place: u32,
    there: Numbered<'a>,
    fresh: &mut Vec<Made>,
    steps: &mut Steps<G>,
) -> Result<(), Memory>
    requires joins { Joins Hop here.rule.now.tail }
    requires level { concat_level here.rule.now.level there.rule.now.level size < 2 ^ 64 }
    ensures pushed { OnOk result (fresh.new.items ≡ fresh.old.items
        ++ option_to_list (option_map (made_of_pair here.entry.id
        (record { place = place; held = record { id = there.entry.id; item = there.entry.rule.now } }))
        (joined Hop size here.entry.rule.now there.entry.rule.now))) }
    ensures step { steps.new ≡ steps.old + 1 }
{
    if let Some(rule) = join(Op::Hop, here.rule, there.rule, size, steps)? {
        let origins = List::from_slice(alloc, &[own(here.id), arrived(place, there.id)])?;
        fresh.push(Made { rule, origins })?;
    }
    Ok(())
}

/// Appends what a rule which stands at the node makes with the one of an id where its link leads.
fn add_pair_at<'a, G: Ledger>(
    alloc: Global,
    size: u64,
    here: Numbered<'a>,
    departure: &Departure,
    there: &Node,
    id: usize,
    fresh: &mut Vec<Made>,
    steps: &mut Steps<G>,
) -> Result<(), Memory>
    requires leaving { (exits : List Exit) × (port : ℕ)
        × (leaving_of exits port here.rule.now.tail ≡ Some departure.now) }
    requires arriving { AllByRecursion (λ (b : Held Rule). IsAt size departure.now.exit.peer.port b.item)
        (rules_in there.now.held) }
    requires own { (own : ℕ) × IsOwn own here.rule.now × (own * size < 2 ^ 64) }
    ensures pushed { OnOk result (fresh.new.items ≡ fresh.old.items
        ++ filter_map (pair_with size here.entry.id here.entry.rule.now departure.now)
        (held_under (rules_in there.now.held) id)) }
    ensures steps { steps.new ≤ steps.old + 1 }
{
    match there.rule(id) {
        Some(rule) => {
            let there = Numbered { id, rule };
            add_pair(alloc, size, here, departure.exit.place, there, fresh, steps)
        }
        None => Ok(()),
    }
}

/// Appends what a rule which stands at the node makes with those of these ids where its link leads.
fn add_each_pair<'a, G: Ledger>(
    alloc: Global,
    size: u64,
    here: Numbered<'a>,
    departure: &Departure,
    there: &Node,
    ids: &[usize],
    fresh: &mut Vec<Made>,
    steps: &mut Steps<G>,
) -> Result<(), Memory>
    requires leaving { (exits : List Exit) × (port : ℕ)
        × (leaving_of exits port here.rule.now.tail ≡ Some departure.now) }
    requires arriving { AllByRecursion (λ (b : Held Rule). IsAt size departure.now.exit.peer.port b.item)
        (rules_in there.now.held) }
    requires own { (own : ℕ) × IsOwn own here.rule.now × (own * size < 2 ^ 64) }
    ensures pushed { OnOk result (fresh.new.items ≡ fresh.old.items
        ++ filter_map (pair_with size here.entry.id here.entry.rule.now departure.now)
        (under (rules_in there.now.held) ids.now)) }
    ensures steps { steps.new ≤ steps.old + length ids.now }
{
    for id in ids {
        add_pair_at(alloc, size, here, departure, there, *id, fresh, steps)?;
    }
    Ok(())
}

/// Appends what a rule which stands at the node makes with those that it could meet where its link
/// leads.
fn add_pairs<'a, G: Ledger>(
    alloc: Global,
    size: u64,
    here: Numbered<'a>,
    departure: &Departure,
    there: &Node,
    fresh: &mut Vec<Made>,
    steps: &mut Steps<G>,
) -> Result<(), Memory>
    requires leaving { (exits : List Exit) × (port : ℕ)
        × (leaving_of exits port here.rule.now.tail ≡ Some departure.now) }
    requires read { there.now.read ≡ true }
    requires arriving { AllByRecursion (λ (b : Held Rule). IsAt size departure.now.exit.peer.port b.item)
        (rules_in there.now.held) }
    requires own { (own : ℕ) × IsOwn own here.rule.now × (own * size < 2 ^ 64) }
    ensures pushed { OnOk result (IsPermutation fresh.new.items (fresh.old.items
        ++ filter_map (pair_with size here.entry.id here.entry.rule.now departure.now) (rules_in there.now.held))) }
    ensures steps { steps.new ≤ steps.old
        + count_by (λ (b : Held Rule). overlaps (asked_of here.entry.rule.now.m departure.now) b.item.m)
        (rules_in there.now.held) }
{
    let ids = there.meeting(&asked(&here.rule.m, departure))?;
    add_each_pair(alloc, size, here, departure, there, &ids, fresh, steps)
}

/// Appends what a rule makes which stands at the node and leads over a link.
fn add_over<'a, G: Ledger>(
    alloc: Global,
    around: Around<'a>,
    here: Numbered<'a>,
    departure: &Departure,
    fresh: &mut Vec<Made>,
    steps: &mut Steps<G>,
) -> Result<(), Memory>
    requires around { CanMake around.size around.given.now around.below.now here.rule.now }
    requires leaving { leaving_of around.given.now.exits around.at.port here.rule.now.tail ≡ Some departure.now }
    ensures pushed { OnOk result (IsPermutation fresh.new.items (fresh.old.items
        ++ filter_map (pair_with around.entry.size here.entry.id here.entry.rule.now departure.now)
        (rules_in (held_at around.entry.below.now departure.now.exit.place)))) }
    ensures steps { steps.new ≤ steps.old
        + count_by (λ (b : Held Rule). overlaps (asked_of here.entry.rule.now.m departure.now) b.item.m)
        (rules_in (held_at around.entry.below.now departure.now.exit.place)) }
{
    match around.below.get(departure.exit.place as usize) {
        Some(there) => add_pairs(alloc, around.size, here, departure, there, fresh, steps),
        None => Ok(()),
    }
}

/// Appends what a rule makes which stands at the node: alone, or over a link.
fn add_stood<'a, G: Ledger>(
    alloc: Global,
    around: Around<'a>,
    here: Numbered<'a>,
    fresh: &mut Vec<Made>,
    steps: &mut Steps<G>,
) -> Result<(), Memory>
    requires { CanMake around.size around.given.now around.below.now here.rule.now }
    ensures pushed { (a : Rule) → standing_of around.entry.at a ≡ Some here.entry.rule.now
        → OnOk result (IsPermutation fresh.new.items (fresh.old.items
        ++ by_one (hop_way around.entry.at around.entry.size around.entry.given.now.exits)
        (arrivals around.entry.below.now around.entry.given.now.exits) (record { id = here.entry.id; item = a }))) }
    ensures steps { (a : Rule) → standing_of around.entry.at a ≡ Some here.entry.rule.now
        → steps.new ≤ steps.old + (1
        + count_by (could around.entry.at around.entry.given.now.exits (record { id = here.entry.id; item = a }))
        (arrivals around.entry.below.now around.entry.given.now.exits)) }
{
    match leaving(around.given.exits(), around.at.port, &here.rule.tail) {
        None => add_alone(alloc, around.size, here, fresh, steps),
        Some(departure) => add_over(alloc, around, here, &departure, fresh, steps),
    }
}

/// Appends what a rule of the virtual switch makes.
fn add_by_left<'a, G: Ledger>(
    alloc: Global,
    around: Around<'a>,
    here: Numbered<'a>,
    fresh: &mut Vec<Made>,
    steps: &mut Steps<G>,
) -> Result<(), Memory>
    requires { CanMake around.size around.given.now around.below.now here.rule.now }
    ensures pushed { OnOk result (IsPermutation fresh.new.items (fresh.old.items
        ++ by_one (hop_way around.entry.at around.entry.size around.entry.given.now.exits)
        (arrivals around.entry.below.now around.entry.given.now.exits)
        (record { id = here.entry.id; item = here.entry.rule.now }))) }
    ensures steps { steps.new ≤ steps.old
        + (1 + count_by (could around.entry.at around.entry.given.now.exits
        (record { id = here.entry.id; item = here.entry.rule.now }))
        (arrivals around.entry.below.now around.entry.given.now.exits)) }
{
    let stood = standing(alloc, around.at, here.rule)?;
    match stood {
        Some(rule) => {
            let stands = Numbered {
                id: here.id,
                rule: &rule,
            };
            add_stood(alloc, around, stands, fresh, steps)
        }
        None => Ok(()),
    }
}

/// Appends what the rule of the virtual switch of an id makes.
fn add_by_left_at<'a, G: Ledger>(
    alloc: Global,
    around: Around<'a>,
    id: usize,
    fresh: &mut Vec<Made>,
    steps: &mut Steps<G>,
) -> Result<(), Memory>
    requires { (own : ℕ) × IsSetUp own around.size around.given.now around.below.now }
    ensures pushed { OnOk result (IsPermutation fresh.new.items (fresh.old.items
        ++ made_left around.entry.at around.entry.size around.entry.given.now.exits
        (arrivals around.entry.below.now around.entry.given.now.exits)
        (held_under around.entry.given.now.rules id))) }
    ensures steps { steps.new ≤ steps.old
        + left_cost around.entry.at around.entry.given.now.exits
        (arrivals around.entry.below.now around.entry.given.now.exits) (held_under around.entry.given.now.rules id) }
{
    match around.given.rule(id) {
        Some(rule) => {
            let here = Numbered { id, rule };
            add_by_left(alloc, around, here, fresh, steps)
        }
        None => Ok(()),
    }
}

/// Appends what the rules of the virtual switch of these ids make.
pub(crate) fn add_all_by_left<'a, G: Ledger>(
    alloc: Global,
    around: Around<'a>,
    come: &[usize],
    fresh: &mut Vec<Made>,
    steps: &mut Steps<G>,
) -> Result<(), Memory>
    requires { (own : ℕ) × IsSetUp own around.size around.given.now around.below.now }
    ensures pushed { OnOk result (IsPermutation fresh.new.items (fresh.old.items
        ++ made_left around.entry.at around.entry.size around.entry.given.now.exits
        (arrivals around.entry.below.now around.entry.given.now.exits)
        (under around.entry.given.now.rules come.now))) }
    ensures steps { steps.new ≤ steps.old
        + left_cost around.entry.at around.entry.given.now.exits
        (arrivals around.entry.below.now around.entry.given.now.exits)
        (under around.entry.given.now.rules come.now) }
{
    for id in come {
        add_by_left_at(alloc, around, *id, fresh, steps)?;
    }
    Ok(())
}
