//! The nodes of one number of hops, and how they change.
ghost use Rattle.std.specs.Prelude.{◌≡◌, ◌==◌, ◌+◌, ◌<◌, ◌≤◌, IfOk, List, OnOk, length, sum_by};
ghost use Rattle.std.specs.List.{AllByRecursion};
ghost use Rattle.hop_rules.specs.Handed.{GivenOf};
ghost use Rattle.hop_rules.specs.Levels.{AreTurnedAt, AreTurnedNodes, IsEvent, IsMadeAt, IsReadyAt, IsTurned};
ghost use Rattle.hop_rules.specs.Levels.{node_cost};
ghost use Rattle.hop_rules.specs.Levels.{turn_at};
ghost use Rattle.hop_rules.specs.Nodes.{NodeOf};
ghost use Rattle.hop_rules.specs.Turns.{IsTold};

use crate::given::Given;
use crate::joining::Around;
use crate::node::{Node, Turn};
use crate::turning::change_node;
use cv_io::{Duplicate, List, Memory, Steps};
use made_rules::Made;
use policy_meaning::Place;
use std::alloc::Global;
use std::sync::ledger::Ledger;

/// A port, and how many levels the rules have of the nodes to which links lead from its virtual switch.
#[derive(Clone, Copy, PartialEq, Eq, Debug)]
pub struct Stand {
    pub at: Place,
    pub size: u64,
}

/// The nodes of some ports, for one number of hops.
#[derive(Drop)]
pub struct Level {
    pub stands: List<Stand>,
    pub nodes: List<Node>,
}

/// What changed of the rules of all virtual switches: of one of them; of the others nothing did.
#[derive(Drop)]
pub struct Event {
    pub v: u32,
    pub turn: Turn,
    pub still: Turn,
}

/// What changed of the rules of a node, and what went.
#[derive(Drop)]
pub struct Told {
    pub turn: Turn,
    pub left: List<Made>,
}

impl Event {
    /// What changed of the rules of a virtual switch.
    fn turn_of(&self, v: u32) -> &Turn
        ensures { result.now ≡ turn_at self.now v }
    {
        if v == self.v { &self.turn } else { &self.still }
    }
}

/// The rules of the node of a port change, as those did of which it makes them.
fn change_at<G: Ledger>(
    alloc: Global,
    given: &[Given],
    below: &[Node],
    stand: &Stand,
    node: &mut Node,
    event: &Event,
    turns: &[Turn],
    steps: &mut Steps<G>,
) -> Result<Told, Memory>
    requires { IsReadyAt given.now below.now stand.now }
    ensures made { (old : List GivenOf) → (before : List NodeOf) → IsEvent old given.now event.now
        → AreTurnedAt given.now before below.now turns.now stand.now → IsMadeAt old before stand.now node.old.held
        → OnOk result (IsMadeAt given.now below.now stand.now node.new.held) }
    ensures told { IfOk result (λ told. IsTold node.old.held node.new.held told.turn told.left) }
    ensures steps { (old : List GivenOf) → IsEvent old given.now event.now
        → steps.new ≤ steps.old + node_cost given.now below.now event.now turns.now stand.now }
    ensures read { node.new.read ≡ node.old.read }
{
    let around = Around {
        at: stand.at,
        size: stand.size,
        given: &given[stand.at.v as usize],
        below,
    };
    let own_turn = event.turn_of(stand.at.v);
    let (turn, left) = change_node(alloc, around, node, own_turn, turns, steps)?;
    Ok(Told {
        turn,
        left: List::from_vec(left),
    })
}

/// The rules of the nodes of some ports change, as those of the virtual switches and of the level below
/// did.
fn change_nodes<G: Ledger>(
    alloc: Global,
    given: &[Given],
    below: &[Node],
    stands: &[Stand],
    nodes: &mut [Node],
    event: &Event,
    turns: &[Turn],
    steps: &mut Steps<G>,
) -> Result<List<Told>, Memory>
    requires count { length nodes.old ≡ length stands.now }
    requires ready { AllByRecursion (IsReadyAt given.now below.now) stands.now }
    ensures turned { IfOk result
        (AreTurnedNodes given.now below.now event.now turns.now stands.now nodes.old nodes.new) }
    ensures steps { (old : List GivenOf) → IsEvent old given.now event.now
        → steps.new ≤ steps.old + sum_by (node_cost given.now below.now event.now turns.now) stands.now }
{
    let mut tolds = List::with_capacity(alloc, stands.len())?;
    for (place, stand) in stands.iter().enumerate() {
        let node = &mut nodes[place];
        let told = change_at(alloc, given, below, stand, node, event, turns, steps)?;
        tolds.push(told)?;
    }
    Ok(tolds)
}

/// The rules of the nodes of a level change, as those of the virtual switches and of the level below
/// did.
pub(crate) fn change_level<G: Ledger>(
    alloc: Global,
    given: &[Given],
    below: &[Node],
    level: &mut Level,
    event: &Event,
    turns: &[Turn],
    steps: &mut Steps<G>,
) -> Result<List<Told>, Memory>
    requires count { length level.old.nodes ≡ length level.old.stands }
    requires ready { AllByRecursion (IsReadyAt given.now below.now) level.old.stands }
    ensures turned { IfOk result (IsTurned given.now below.now event.now turns.now level.old level.new) }
    ensures steps { (old : List GivenOf) → IsEvent old given.now event.now
        → steps.new ≤ steps.old + sum_by (node_cost given.now below.now event.now turns.now) level.old.stands }
{
    let stands = level.stands.as_slice();
    let nodes = level.nodes.as_mut_slice();
    change_nodes(alloc, given, below, stands, nodes, event, turns, steps)
}

impl Duplicate for Stand {
    fn copy(&self) -> Result<Stand, Memory> {
        Ok(*self)
    }
}

impl Duplicate for Level {
    fn copy(&self) -> Result<Level, Memory> {
        Ok(Level {
            stands: self.stands.copied()?,
            nodes: self.nodes.copy()?,
        })
    }
}
