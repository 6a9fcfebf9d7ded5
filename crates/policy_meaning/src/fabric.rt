//! The rules of virtual switches and of the nodes of their ports, from scratch.
ghost use Rattle.std.specs.Prelude.{◌≡◌, ◌+◌, ◌*◌, ◌<◌, ◌≤◌, ◌^◌, ◌++◌, All, IfOk, OnOk, IfSome, filter_map, map};
ghost use Rattle.std.specs.Prelude.{slice_get};
ghost use Rattle.alg_priority.specs.Levels.{capped};
ghost use Rattle.policy_meaning.specs.Fitting.{IsFittingTable, levels_of};
ghost use Rattle.policy_meaning.specs.Hops.{hop_size as hop_size_of, hops_on, last_rule as last_rule_of, node};
ghost use Rattle.policy_meaning.specs.Hops.{peers_size as peers_size_of};
ghost use Rattle.of10_match.specs.Matching.{at_port};
ghost use Rattle.policy_meaning.specs.LeafRules.{rule_met as rule_met_of};
ghost use Rattle.policy_meaning.specs.Networks.{entering as entering_of, fabric_of, switch_rules as switch_rules_of};

use crate::hops::{add_hops, at_node, hop_lone};
use crate::leaf::LeafTable;
use crate::leaf_rules::rule_met;
use crate::network::{Link, Network, Onward, VirtualSwitch, leads};
use crate::rule::Rule;
use crate::scratch::{expression_rules, expression_size};
use alg_priority::size_concat;
use cv_io::{List, Memory};
use of10_actions::Tail;
use of10_match::Match;
use std::alloc::Global;

/// Rules that are put on a physical switch, and the port at which packets come to them, or none for all
/// ports.
#[derive(PartialEq, Eq, Debug, Drop)]
pub struct Entering {
    pub port: Option<u16>,
    pub rules: List<Rule>,
}

/// The rules of a virtual switch, whatever the port: those of its expression.
pub fn switch_rules(
    alloc: Global,
    tables: &List<LeafTable>,
    switch: &VirtualSwitch,
) -> Result<List<Rule>, Memory>
    requires tables { All IsFittingTable tables.now }
    requires size { levels_of tables.now switch.now.expr < 2 ^ 64 }
    ensures { IfOk result (λ rules. rules ≡ switch_rules_of tables.now (Some switch.now)) }
{
    let ports = switch.ports(alloc)?;
    Ok(expression_rules(alloc, tables, &ports, &switch.expr)?.rules)
}

/// How many levels the rules of a node have, at most the greatest u64; those of a virtual switch that
/// isn't there have one.
#[cycle(sizes)]
pub fn hop_size(network: &Network, hops: u32, v: u32) -> u64
    requires { All IsFittingTable network.now.tables }
    ensures { result ≡ capped (hop_size_of (fabric_of network.now) hops v) }
{
    if hops == 0 {
        return 1;
    }
    match network.switches.get(v as usize) {
        None => 1,
        Some(switch) => size_concat(
            expression_size(&network.tables, &switch.expr),
            peers_size(network, hops - 1, &switch.links),
        ),
    }
}

/// The greatest of the sizes of the nodes to which links lead, and at least 1, at most the greatest u64.
#[cycle(sizes)]
fn peers_size(network: &Network, hops: u32, links: &List<Link>) -> u64
    requires { All IsFittingTable network.now.tables }
    ensures { result ≡ capped (peers_size_of (hop_size_of (fabric_of network.now) hops) links.now) }
{
    let mut greatest = 1;
    for link in links.as_slice() {
        greatest = hop_size(network, hops, link.peer.v).max(greatest);
    }
    greatest
}

/// The rule of a packet that has no hop left.
fn last_rule(alloc: Global) -> Rule
    ensures { result ≡ last_rule_of }
{
    Rule {
        m: Match::everything(),
        level: 0,
        touched: true,
        outs: List::new(alloc),
        tail: Tail::Nothing,
        ancestry: List::new(alloc),
    }
}

/// Rules, narrowed to a port.
fn met_at(alloc: Global, port: u16, rules: &List<Rule>) -> Result<List<Rule>, Memory>
    ensures { IfOk result (λ met. met ≡ filter_map (λ a. rule_met_of a (at_port port)) rules.now) }
{
    let mut met = List::new(alloc);
    for rule in rules.as_slice() {
        met.push_some(rule_met(rule, &Match::at_port(port))?)?;
    }
    Ok(met)
}

/// Appends the rules that a rule at its node makes which goes on so, or ends.
#[cycle(nodes)]
fn add_onward(
    alloc: Global,
    network: &Network,
    hops: u32,
    size: u64,
    rules: &mut List<Rule>,
    onward: &Option<Onward>,
    here: &Rule,
) -> Result<(), Memory>
    requires tables { All IsFittingTable network.now.tables }
    requires peer { IfSome onward.now (λ (on : Onward). hop_size_of (fabric_of network.now) hops on.place.v ≤ size) }
    requires room { (here.now.level + 1) * size < 2 ^ 64 }
    ensures { OnOk result (rules.new ≡ rules.old ++ hops_on onward.now (node (fabric_of network.now) hops) size
        here.now) }
{
    match onward {
        None => rules.push(hop_lone(size, here)?),
        Some(on) => {
            let there = node_rules(alloc, network, hops, on.place.v, on.place.port)?;
            add_hops(rules, size, &on.rewrite, here, &there)
        }
    }
}

/// The rules of the node of a port of a virtual switch, for so many hops: of the switch's rules at the
/// port, those that go on over a link joined with those of the node there, and those that end.
#[cycle(nodes)]
pub fn node_rules(
    alloc: Global,
    network: &Network,
    hops: u32,
    v: u32,
    port: u16,
) -> Result<List<Rule>, Memory>
    requires tables { All IsFittingTable network.now.tables }
    requires size { hop_size_of (fabric_of network.now) hops v < 2 ^ 64 }
    ensures { IfOk result (λ rules. rules ≡ node (fabric_of network.now) hops v port) }
{
    let mut rules = List::new(alloc);
    if hops == 0 {
        rules.push(last_rule(alloc))?;
        return Ok(rules);
    }
    let Some(switch) = network.switches.get(v as usize) else {
        return Ok(rules);
    };
    let size = peers_size(network, hops - 1, &switch.links);
    let all = switch_rules(alloc, &network.tables, switch)?;
    let met = met_at(alloc, port, &all)?;
    for rule in met.as_slice() {
        let onward = leads(&rule.tail, &switch.links, port);
        let here = at_node(alloc, v, port, rule)?;
        add_onward(alloc, network, hops - 1, size, &mut rules, &onward, &here)?;
    }
    Ok(rules)
}

/// The rules of the nodes of these ports of a virtual switch, for so many hops.
fn at_each_port(
    alloc: Global,
    network: &Network,
    hops: u32,
    v: u32,
    ports: &List<u16>,
) -> Result<List<Entering>, Memory>
    requires tables { All IsFittingTable network.now.tables }
    requires size { hop_size_of (fabric_of network.now) hops v < 2 ^ 64 }
    ensures { IfOk result (λ entering. entering
        ≡ map (λ p. record { port = Some p; rules = node (fabric_of network.now) hops v p }) ports.now) }
{
    let mut entering = List::with_capacity(alloc, ports.len())?;
    for port in ports.as_slice() {
        entering.push(Entering {
            port: Some(*port),
            rules: node_rules(alloc, network, hops, v, *port)?,
        })?;
    }
    Ok(entering)
}

/// The rules that are put on a physical switch for a virtual switch: of each outside port those of its
/// node, for at least one hop, and of a whole virtual switch those of its expression, once for all ports.
pub fn entering_rules(
    alloc: Global,
    network: &Network,
    hops: u32,
    v: u32,
) -> Result<List<Entering>, Memory>
    requires tables { All IsFittingTable network.now.tables }
    requires hop { 0 < hops }
    requires size { hop_size_of (fabric_of network.now) hops v < 2 ^ 64 }
    ensures { IfOk result (λ rules. rules ≡ entering_of network.now hops v (slice_get network.now.switches v)) }
{
    let Some(switch) = network.switches.get(v as usize) else {
        return Ok(List::new(alloc));
    };
    if !switch.whole {
        return at_each_port(alloc, network, hops, v, &switch.outside);
    }
    let mut entering = List::new(alloc);
    entering.push(Entering {
        port: None,
        rules: switch_rules(alloc, &network.tables, switch)?,
    })?;
    Ok(entering)
}
