//! What is told of the nodes of outside ports.
ghost use Rattle.std.specs.Prelude.{◌≡◌, ◌<◌, ◌++◌, ◌∷◌, [], Contains, IfNone, IfOk, IfSome, List, OnOk, length, map};
ghost use Rattle.rule_ancestry.specs.Holding.{item_of};
ghost use Rattle.made_rules.specs.Rules.{rule_of, rules_in};
ghost use Rattle.hop_rules.specs.Levels.{stand_at};
ghost use Rattle.hop_rules.specs.Nodes.{held_at};
ghost use Rattle.hop_rules.specs.Telling.{IsOfPort, delta_if, delta_of, deltas_from, is_still, rules_held};
ghost use Rattle.hop_rules.specs.Telling.{rules_under as rules_under_of};
ghost use Rattle.hop_rules.specs.Under.{held_under};
ghost use Rattle.hop_rules.specs.declared.level.Stand.{Stand};

use crate::delta::PortDelta;
use crate::level::{Level, Stand, Told};
use crate::node::{Node, Turn};
use cv_io::{Duplicate, List, Memory};
use made_rules::Made;
use op_compose::RuleDelta;
use policy_meaning::{Place, Rule};
use std::alloc::Global;

/// Appends the rule of an id, if there is one.
fn add_rule_at(rules: &mut List<Rule>, node: &Node, id: usize) -> Result<(), Memory>
    ensures { OnOk result (rules.new ≡ rules.old ++ map item_of (held_under (rules_in node.now.held) id)) }
{
    match node.rule(id) {
        Some(rule) => rules.push(rule.copy()?),
        None => Ok(()),
    }
}

/// The rules of these ids.
fn rules_under(alloc: Global, node: &Node, ids: &[usize]) -> Result<List<Rule>, Memory>
    ensures { IfOk result (λ rules. rules ≡ rules_under_of node.now.held ids.now) }
{
    let mut rules = List::with_capacity(alloc, ids.len())?;
    for id in ids {
        add_rule_at(&mut rules, node, *id)?;
    }
    Ok(rules)
}

/// The rules of a node.
fn rules_of(alloc: Global, node: &Node) -> Result<List<Rule>, Memory>
    ensures { IfOk result (λ rules. rules ≡ rules_held node.now.held) }
{
    let ids = node.ids()?;
    rules_under(alloc, node, &ids)
}

/// The place among these of a port, if it is one of them.
fn place_of(stands: &[Stand], at: Place) -> Option<usize>
    ensures there { IfSome result (λ place. place < length stands.now) }
    ensures found { IfSome result (λ place. (stand_at stands.now place).at ≡ at) }
    ensures none { IfNone result (Contains (map (λ (s : Stand). s.at) stands.now) at → ⊥) }
{
    for (place, stand) in stands.iter().enumerate() {
        if stand.at == at {
            return Some(place);
        }
    }
    None
}

/// The rules of a port of a level, none where it is no port of it.
pub(crate) fn rules_at(alloc: Global, level: &Level, at: Place) -> Result<List<Rule>, Memory>
    requires { length level.now.nodes ≡ length level.now.stands }
    ensures { Contains (map (λ (s : Stand). s.at) level.now.stands) at → IfOk result (IsOfPort level.now at) }
{
    match place_of(level.stands.as_slice(), at) {
        Some(place) => rules_of(alloc, &level.nodes.as_slice()[place]),
        None => Ok(List::new(alloc)),
    }
}

/// Made rules alone.
fn rules_alone(alloc: Global, left: List<Made>) -> Result<List<Rule>, Memory>
    ensures { IfOk result (λ rules. rules ≡ map rule_of left) }
{
    let mut rules = List::with_capacity(alloc, left.len())?;
    for made in left.into_vec() {
        rules.push(made.rule)?;
    }
    Ok(rules)
}

/// What changed at a port.
fn port_delta(alloc: Global, at: Place, node: &Node, told: Told) -> Result<PortDelta, Memory>
    ensures { IfOk result (λ delta. delta ≡ delta_of at node.now.held told) }
{
    let come = rules_under(alloc, node, told.turn.come.as_slice())?;
    Ok(PortDelta {
        v: at.v,
        port: at.port,
        gone: rules_alone(alloc, told.left)?,
        come,
    })
}

/// Whether nothing went and nothing came.
fn is_none(turn: &Turn) -> bool
    ensures { result ≡ is_still turn.now }
{
    turn.gone.is_empty() && turn.come.is_empty()
}

/// Appends what changed at a port, if something did.
fn add_delta(
    alloc: Global,
    deltas: &mut List<PortDelta>,
    at: Place,
    node: &Node,
    told: Told,
) -> Result<(), Memory>
    ensures { OnOk result (deltas.new ≡ deltas.old ++ delta_if at node.now.held told) }
{
    if is_none(&told.turn) {
        return Ok(());
    }
    deltas.push(port_delta(alloc, at, node, told)?)
}

/// Appends what changed at the port of a number, if something did.
fn add_delta_at(
    alloc: Global,
    deltas: &mut List<PortDelta>,
    level: &Level,
    number: usize,
    told: Told,
) -> Result<(), Memory>
    requires stands { number < length level.now.stands }
    requires nodes { number < length level.now.nodes }
    ensures { OnOk result (deltas.new ≡ deltas.old
        ++ delta_if (stand_at level.now.stands number).at (held_at level.now.nodes number) told) }
{
    let stands = level.stands.as_slice();
    let nodes = level.nodes.as_slice();
    add_delta(alloc, deltas, stands[number].at, &nodes[number], told)
}

/// What changed at the ports of a level at which something did.
pub(crate) fn port_deltas(
    alloc: Global,
    level: &Level,
    tolds: List<Told>,
) -> Result<List<PortDelta>, Memory>
    requires nodes { length level.now.nodes ≡ length level.now.stands }
    requires tolds { length tolds ≡ length level.now.stands }
    ensures { IfOk result (λ deltas. deltas ≡ deltas_from level.now.stands level.now.nodes 0 tolds) }
{
    let mut deltas = List::new(alloc);
    let mut number = 0;
    for told in tolds.into_vec() {
        add_delta_at(alloc, &mut deltas, level, number, told)?;
        number += 1;
    }
    Ok(deltas)
}

/// The change of the rules of a whole virtual switch, handed on.
pub(crate) fn whole_delta(
    alloc: Global,
    v: u32,
    delta: &RuleDelta,
) -> Result<List<PortDelta>, Memory>
    ensures { IfOk result (λ deltas. deltas ≡ record { v = v; port = 0; gone = delta.now.gone; come = delta.now.come }
        ∷ []) }
{
    let mut deltas = List::new(alloc);
    deltas.push(PortDelta {
        v,
        port: 0,
        gone: delta.gone.copy()?,
        come: delta.come.copy()?,
    })?;
    Ok(deltas)
}
