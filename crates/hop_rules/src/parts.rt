//! The rules of virtual switches and the nodes made of them, for each number of hops.
ghost use Rattle.std.specs.Prelude.{◌≡◌, ◌+◌, ◌≤◌, ◌<◌, ◌==◌, ℕ, false, IfOk, List, OnOk, length, map};
ghost use Rattle.std.specs.List.{AllByRecursion};
ghost use Rattle.list_change.specs.Changes.{Apart};
ghost use Rattle.policy_meaning.specs.Hops.{Fabric};
ghost use Rattle.policy_meaning.specs.declared.rule.Rule.{Rule};
ghost use Rattle.hop_rules.specs.Climbing.{CanClimb, HasClimbed, IsBelow, IsHandedOver, came_to};
ghost use Rattle.hop_rules.specs.Counts.{change_steps, steps_from};
ghost use Rattle.hop_rules.specs.Handed.{AreListed, AreUnlisted, GivenOf};
ghost use Rattle.hop_rules.specs.Kept.{IsKept, IsThrough};
ghost use Rattle.hop_rules.specs.Levels.{given_at};
ghost use Rattle.hop_rules.specs.Links.{ends};
ghost use Rattle.hop_rules.specs.Nodes.{NodeOf};
ghost use Rattle.hop_rules.specs.Tables.{IsHanded, MayCome, TableOf, fabric, own_ports};
ghost use Rattle.hop_rules.specs.Turns.{no_turn};
ghost use Rattle.hop_rules.specs.Under.{Rises};
ghost use Rattle.hop_rules.specs.declared.exits.LinkEnd.{LinkEnd};
ghost use Rattle.hop_rules.specs.declared.level.Stand.{Stand};
ghost use Rattle.hop_rules.specs.declared.level.Told.{Told};
ghost use Rattle.hop_rules.specs.declared.node.Turn.{Turn};

use crate::given::Given;
use crate::level::{Event, Level, Told, change_level};
use crate::node::{Node, Turn};
use cv_io::{Duplicate, List, Memory, Steps};
use op_compose::RuleDelta;
use std::alloc::Global;
use std::sync::ledger::Ledger;

/// What a table keeps: the rules of each virtual switch; the nodes of the ports at which links arrive,
/// those of no hop left apart from those of each number of hops but the greatest; and the nodes of the
/// outside ports.
#[derive(Drop)]
pub struct Parts {
    pub given: List<Given>,
    pub last: List<Node>,
    pub levels: List<Level>,
    pub top: Level,
}

/// The turns of nodes alone.
fn turns_of(alloc: Global, tolds: List<Told>) -> Result<Vec<Turn>, Memory>
    ensures { IfOk result (λ turns. turns.items ≡ map (λ (t : Told). t.turn) tolds) }
{
    let mut turns = Vec::with_capacity(alloc, tolds.len())?;
    for told in tolds.into_vec() {
        turns.push(told.turn)?;
    }
    Ok(turns)
}

/// Nothing changed of these nodes.
fn still(alloc: Global, nodes: &[Node]) -> Result<Vec<Turn>, Memory>
    ensures { IfOk result (λ turns. AllByRecursion (λ t. t ≡ no_turn) turns.items) }
{
    let mut turns = Vec::with_capacity(alloc, nodes.len())?;
    for _node in nodes {
        turns.push(Turn::none(alloc))?;
    }
    Ok(turns)
}

/// The rules of the nodes of each level change in turn, from the one above `below` up to that of the
/// outside ports, of which it is told.
fn climb<G: Ledger>(
    alloc: Global,
    given: &[Given],
    below: &[Node],
    levels: &mut [Level],
    top: &mut Level,
    event: &Event,
    turns: &[Turn],
    steps: &mut Steps<G>,
) -> Result<List<Told>, Memory>
    requires { CanClimb given.now below.now levels.old top.old event.now turns.now }
    ensures count { OnOk result (length levels.new ≡ length levels.old) }
    ensures climbed { (f : Fabric) → (rules : ℕ → List Rule) → (es : List LinkEnd) → (n : ℕ) → (old : List GivenOf)
        → (before : List NodeOf)
        → IsBelow f rules es n old given.now before below.now levels.old top.old event.now turns.now
        → IfOk result (HasClimbed f rules es n given.now below.now levels.new top.old top.new) }
    ensures steps { (f : Fabric) → (rules : ℕ → List Rule) → (es : List LinkEnd) → (n : ℕ) → (old : List GivenOf)
        → (before : List NodeOf)
        → IsBelow f rules es n old given.now before below.now levels.old top.old event.now turns.now
        → steps.new ≤ steps.old + steps_from f (record f { rules = rules }) es (came_to given.now event.now)
        (map (λ (s : Stand). s.at) top.old.stands) n (length levels.old) }
{
    match levels.split_first_mut() {
        None => change_level(alloc, given, below, top, event, turns, steps),
        Some((level, rest)) => {
            let tolds = change_level(alloc, given, below, level, event, turns, steps)?;
            let turns = turns_of(alloc, tolds)?;
            let nodes = level.nodes.as_slice();
            climb(alloc, given, nodes, rest, top, event, &turns, steps)
        }
    }
}

/// The rules of a virtual switch change; those that come aren't listed yet.
fn hand_over(alloc: Global, given: &mut [Given], v: u32, delta: &RuleDelta) -> Result<Event, Memory>
    requires there { v < length given.old }
    requires listed { (u : ℕ) → AreListed (given_at given.old u) (given_at given.old u).rules }
    requires rising { (u : ℕ) → Rises (given_at given.old u).rules }
    ensures { IfOk result (IsHandedOver given.old given.new v delta.now.gone delta.now.come) }
{
    let one = &mut given[v as usize];
    let turn = one.turn(delta.gone.as_slice(), delta.come.as_slice())?;
    Ok(Event {
        v,
        turn,
        still: Turn::none(alloc),
    })
}

/// The rules of a virtual switch that came are listed.
fn list_come(given: &mut [Given], event: &Event) -> Result<(), Memory>
    requires there { event.now.v < length given.old }
    requires unlisted { AreUnlisted (given_at given.old event.now.v) event.now.turn.come }
    ensures listed { OnOk result (AreListed (given_at given.new event.now.v) (given_at given.new event.now.v).rules) }
    ensures others { (u : ℕ) → (u == event.now.v) ≡ false → given_at given.new u ≡ given_at given.old u }
    ensures rules { (u : ℕ) → (given_at given.new u).rules ≡ (given_at given.old u).rules }
    ensures exits { (u : ℕ) → (given_at given.new u).exits ≡ (given_at given.old u).exits }
    ensures count { length given.new ≡ length given.old }
{
    let one = &mut given[event.v as usize];
    one.list(event.turn.come.as_slice())
}

impl Parts {
    /// The rules of a virtual switch change, and those of the ports with them: the nodes of few hops
    /// first, so that each finds the change of those to which its links lead.
    pub(crate) fn change<G: Ledger>(
        &mut self,
        alloc: Global,
        v: u32,
        delta: &RuleDelta,
        steps: &mut Steps<G>,
    ) -> Result<List<Told>, Memory>
        requires there { v < length self.old.given }
        requires kept { (t : TableOf) × IsKept t self.old × AllByRecursion (MayCome t v) delta.now.come }
        ensures through { (t : TableOf) → IsKept t self.old → AllByRecursion (MayCome t v) delta.now.come
            → IfOk result (IsThrough t self.old self.new v delta.now.gone delta.now.come) }
        ensures steps { (t : TableOf) → IsKept t self.old → AllByRecursion (MayCome t v) delta.now.come
            → (after : TableOf) → IsHanded t after v delta.now.gone delta.now.come → Apart delta.now.gone delta.now.come
            → steps.new ≤ steps.old + change_steps (fabric t) (fabric after) (ends t.plan) (own_ports t) t.hops }
    {
        let event = hand_over(alloc, self.given.as_mut_slice(), v, delta)?;
        let turns = still(alloc, self.last.as_slice())?;
        let tolds = climb(
            alloc,
            self.given.as_slice(),
            self.last.as_slice(),
            self.levels.as_mut_slice(),
            &mut self.top,
            &event,
            &turns,
            steps,
        )?;
        list_come(self.given.as_mut_slice(), &event)?;
        Ok(tolds)
    }
}

impl Duplicate for Parts {
    fn copy(&self) -> Result<Parts, Memory> {
        Ok(Parts {
            given: self.given.copy()?,
            last: self.last.copy()?,
            levels: self.levels.copy()?,
            top: self.top.copy()?,
        })
    }
}
