//! The rules of a node change, as those change of which it makes them.
ghost use Rattle.std.specs.Prelude.{◌≡◌, ◌+◌, ◌≤◌, ◌++◌, ℕ, IfOk, OnErr, OnOk, IsPermutation, List, map, true};
ghost use Rattle.std.specs.List.{AllByRecursion};
ghost use Rattle.rule_ancestry.specs.Holding.{Held};
ghost use Rattle.policy_meaning.specs.declared.rule.Rule.{Rule};
ghost use Rattle.hop_rules.specs.Handed.{AreListed};
ghost use Rattle.hop_rules.specs.Nodes.{IsMadeOf, IsSetUp, NodeOf, arrivals, arrived as arrived_of, leads_there};
ghost use Rattle.hop_rules.specs.Nodes.{made_left, made_right, own as own_of};
ghost use Rattle.hop_rules.specs.Turns.{AreTurned, IsOwnTurn, IsTold, came_there, come_at, gone_at, left_cost};
ghost use Rattle.hop_rules.specs.Turns.{lost_there, right_cost, stayed};
ghost use Rattle.hop_rules.specs.Under.{AreFound, under};
ghost use Rattle.hop_rules.specs.declared.exits.Exit.{Exit};

use crate::exits::Exit;
use crate::joining::{Around, add_all_by_left, arrived, own};
use crate::meeting::add_all_by_right;
use crate::node::{Node, Turn};
use cv_io::{Memory, Steps};
use made_rules::{Made, Origin};
use std::alloc::Global;
use std::sync::ledger::Ledger;

/// Appends the names of rules to which the link of a place leads.
fn add_arrived(lost: &mut Vec<Origin>, place: u32, gone: &[usize]) -> Result<(), Memory>
    ensures { OnOk result (lost.new.items ≡ lost.old.items ++ map (arrived_of place) gone.now) }
{
    for id in gone {
        lost.push(arrived(place, *id))?;
    }
    Ok(())
}

/// The ids of the rules that went where the link of a place leads.
fn gone_there(turns: &[Turn], place: u32) -> &[usize]
    ensures { result.now ≡ gone_at turns.now place }
{
    match turns.get(place as usize) {
        Some(turn) => turn.gone.as_slice(),
        None => &[],
    }
}

/// The ids of the rules that came where the link of a place leads.
fn come_there(turns: &[Turn], place: u32) -> &[usize]
    ensures { result.now ≡ come_at turns.now place }
{
    match turns.get(place as usize) {
        Some(turn) => turn.come.as_slice(),
        None => &[],
    }
}

/// The names of what goes: of rules of the virtual switch, and of rules to which its exits lead.
fn lost_origins(
    alloc: Global,
    exits: &[Exit],
    gone: &[usize],
    turns: &[Turn],
) -> Result<Vec<Origin>, Memory>
    ensures { IfOk result (λ lost. lost.items ≡ map own_of gone.now ++ lost_there turns.now exits.now) }
{
    let mut lost = Vec::new(alloc);
    for id in gone {
        lost.push(own(*id))?;
    }
    for exit in exits {
        add_arrived(&mut lost, exit.place, gone_there(turns, exit.place))?;
    }
    Ok(lost)
}

/// Appends what the rules make that come to the nodes to which these exits lead.
fn add_by_exits<'a, G: Ledger>(
    alloc: Global,
    around: Around<'a>,
    exits: &[Exit],
    turns: &[Turn],
    fresh: &mut Vec<Made>,
    steps: &mut Steps<G>,
) -> Result<(), Memory>
    requires around { (own : ℕ) × IsSetUp own around.size around.given.now around.below.now }
    requires exits { AllByRecursion (λ (e : Exit). leads_there e.place around.given.now.exits ≡ true) exits.now }
    ensures pushed { (kept : List (Held Rule)) → AreListed around.entry.given.now kept
        → AreFound around.entry.given.now.rules kept
        → OnOk result (IsPermutation fresh.new.items (fresh.old.items
        ++ made_right around.entry.at around.entry.size around.entry.given.now.exits kept
        (came_there around.entry.below.now turns.now exits.now))) }
    ensures steps { (kept : List (Held Rule)) → AreListed around.entry.given.now kept
        → AreFound around.entry.given.now.rules kept
        → steps.new ≤ steps.old + right_cost around.entry.at around.entry.given.now.exits kept
        (came_there around.entry.below.now turns.now exits.now) }
{
    for exit in exits {
        let come = come_there(turns, exit.place);
        add_all_by_right(alloc, around, exit.place, come, fresh, steps)?;
    }
    Ok(())
}

/// What the rules that come to a node make: those of the virtual switch, and those to which its exits
/// lead.
fn made_fresh<'a, G: Ledger>(
    alloc: Global,
    around: Around<'a>,
    come: &[usize],
    turns: &[Turn],
    steps: &mut Steps<G>,
) -> Result<Vec<Made>, Memory>
    requires { (own : ℕ) × IsSetUp own around.size around.given.now around.below.now }
    ensures made { (kept : List (Held Rule)) → AreListed around.entry.given.now kept
        → AreFound around.entry.given.now.rules kept
        → IfOk result (λ fresh. IsPermutation fresh.items
        (made_left around.entry.at around.entry.size around.entry.given.now.exits
        (arrivals around.entry.below.now around.entry.given.now.exits) (under around.entry.given.now.rules come.now)
        ++ made_right around.entry.at around.entry.size around.entry.given.now.exits kept
        (came_there around.entry.below.now turns.now around.entry.given.now.exits))) }
    ensures steps { (kept : List (Held Rule)) → AreListed around.entry.given.now kept
        → AreFound around.entry.given.now.rules kept
        → steps.new ≤ steps.old + (left_cost around.entry.at around.entry.given.now.exits
        (arrivals around.entry.below.now around.entry.given.now.exits) (under around.entry.given.now.rules come.now)
        + right_cost around.entry.at around.entry.given.now.exits kept
        (came_there around.entry.below.now turns.now around.entry.given.now.exits)) }
{
    let mut fresh = Vec::new(alloc);
    add_all_by_left(alloc, around, come, &mut fresh, steps)?;
    add_by_exits(
        alloc,
        around,
        around.given.exits(),
        turns,
        &mut fresh,
        steps,
    )?;
    Ok(fresh)
}

/// A node's rules change, as those did of which it makes them. What goes is handed out.
pub fn change_node<'a, G: Ledger>(
    alloc: Global,
    around: Around<'a>,
    node: &mut Node,
    own_turn: &Turn,
    turns: &[Turn],
    steps: &mut Steps<G>,
) -> Result<(Turn, Vec<Made>), Memory>
    requires { (own : ℕ) × IsSetUp own around.size around.given.now around.below.now }
    // What the node held were the rules that it is to make of what was there; now they are those that it
    // is to make of what is there.
    ensures made { (xs : List (Held Rule)) → (before : List NodeOf) → IsOwnTurn xs around.entry.given.now own_turn.now
        → AreTurned before around.entry.below.now turns.now around.entry.given.now.exits
        → IsMadeOf around.entry.at around.entry.size around.entry.given.now.exits xs before node.old.held
        → OnOk result (IsMadeOf around.entry.at around.entry.size around.entry.given.now.exits
        around.entry.given.now.rules around.entry.below.now node.new.held) }
    ensures told { IfOk result (λ turned. IsTold node.old.held node.new.held turned.0 turned.1.items) }
    ensures steps { (xs : List (Held Rule)) → IsOwnTurn xs around.entry.given.now own_turn.now
        → steps.new ≤ steps.old + (left_cost around.entry.at around.entry.given.now.exits
        (arrivals around.entry.below.now around.entry.given.now.exits)
        (under around.entry.given.now.rules own_turn.now.come)
        + right_cost around.entry.at around.entry.given.now.exits (stayed around.entry.given.now own_turn.now.come)
        (came_there around.entry.below.now turns.now around.entry.given.now.exits)) }
    ensures read { node.new.read ≡ node.old.read }
    ensures memory { OnErr result (node.new ≡ node.old) }
{
    let exits = around.given.exits();
    let lost = lost_origins(alloc, exits, own_turn.gone.as_slice(), turns)?;
    let fresh = made_fresh(alloc, around, own_turn.come.as_slice(), turns, steps)?;
    node.change(&lost, fresh)
}
