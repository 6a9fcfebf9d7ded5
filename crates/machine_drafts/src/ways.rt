//! The physical switches of a virtual switch.
ghost use Rattle.std.specs.Prelude.{◌≡◌, ◌==◌, ◌&&◌, ◌||◌, ◌++◌, [], ◌∷◌, if◌then◌else◌, IfOk, OnOk, length};
ghost use Rattle.std.specs.List.{list_any};
ghost use Rattle.grants.specs.Ports.{is_one_of as is_one_of_of};
ghost use Rattle.policy_setting.specs.Wirings.{wiring as wiring_of};
ghost use Rattle.switch_meaning.specs.Fixed.{arrivals, step as step_of};
ghost use Rattle.switch_meaning.specs.declared.wiring.Outside.{Outside as OutsideOf};
ghost use Rattle.switch_meaning.specs.declared.wiring.SwitchPort.{SwitchPort};
ghost use Rattle.machine_meaning.specs.Ways.{group_of, is_between as is_between_of, is_linked as is_linked_of};
ghost use Rattle.machine_meaning.specs.Ways.{is_next as is_next_of};
ghost use Rattle.machine_meaning.specs.Ways.{leads_over as leads_over_of, lies_on as lies_on_of};
ghost use Rattle.machine_meaning.specs.Ways.{links_to as links_to_of};
ghost use Rattle.machine_meaning.specs.Ways.{is_switch_by, switches_by, switches_in};
ghost use Rattle.machine_meaning.specs.Ways.{with_next as with_next_of};

use cv_io::{List, Memory};
use std::alloc::Global;
use switch_meaning::{Outside, SwitchPort, Wiring};
use virtual_topology::{Topology, VirtualPort};

/// Whether a number is among these.
fn is_one_of(numbers: &[u32], number: u32) -> bool
    ensures { result ≡ is_one_of_of numbers.now number }
{
    numbers.iter().any(|other| *other == number)
}

/// Whether a link leads from the port of a virtual switch to another virtual switch.
fn links_to(topology: &Topology, u: u32, v: u32, port: &VirtualPort) -> bool
    ensures { result ≡ links_to_of topology.now u v port.now }
{
    match topology.peer(v, port.port) {
        Some((peer, _)) => peer == u,
        None => false,
    }
}

/// Whether a link leads from one of these ports of a virtual switch to another virtual switch.
fn some_links_to(topology: &Topology, u: u32, v: u32, ports: &[VirtualPort]) -> bool
    ensures { result ≡ list_any (links_to_of topology.now u v) ports.now }
{
    ports.iter().any(|port| links_to(topology, u, v, port))
}

/// Whether a link leads from a virtual switch to another.
fn is_linked(topology: &Topology, u: u32, v: u32) -> bool
    ensures { result ≡ is_linked_of topology.now u v }
{
    match topology.plan().virtuals.get(v as usize) {
        Some(item) => some_links_to(topology, u, v, item.ports.as_slice()),
        None => false,
    }
}

/// Whether a link leads from one of these virtual switches to another.
fn is_next(topology: &Topology, group: &[u32], u: u32) -> bool
    ensures { result ≡ is_next_of topology.now group.now u }
{
    group.iter().any(|v| is_linked(topology, u, *v))
}

/// How many virtual switches there are.
pub fn virtual_count(topology: &Topology) -> u32
    ensures { result ≡ length topology.now.virtuals }
{
    topology.plan().virtuals.len() as u32
}

/// How many physical switches there are.
fn switch_count(topology: &Topology) -> u32
    ensures { result ≡ length topology.now.switches }
{
    topology.plan().switches.len() as u32
}

/// Appends a number, if it is wanted.
fn push_if(numbers: &mut List<u32>, wanted: bool, number: u32) -> Result<(), Memory>
    ensures { OnOk result (numbers.new ≡ numbers.old ++ (if wanted then number ∷ [] else [])) }
{
    if !wanted {
        return Ok(());
    }
    numbers.push(number)
}

/// Whether a virtual switch is one of these, or a link leads to it from one of these.
fn is_in_next(topology: &Topology, group: &[u32], u: u32) -> bool
    ensures { result ≡ (is_one_of_of group.now u || is_next_of topology.now group.now u) }
{
    is_one_of(group, u) || is_next(topology, group, u)
}

/// These virtual switches, with those to which one link leads from them.
fn with_next(alloc: Global, topology: &Topology, group: &[u32]) -> Result<List<u32>, Memory>
    ensures { IfOk result (λ wider. wider ≡ with_next_of topology.now group.now) }
{
    let mut wider = List::new(alloc);
    let count = virtual_count(topology);
    for u in 0..count {
        push_if(&mut wider, is_in_next(topology, group, u), u)?;
    }
    Ok(wider)
}

/// The virtual switches to which links lead from one, directly or through others, and itself.
fn group(alloc: Global, topology: &Topology, v: u32) -> Result<List<u32>, Memory>
    ensures { IfOk result (λ group. group ≡ group_of topology.now v) }
{
    let mut group = List::new(alloc);
    group.push(v)?;
    let count = virtual_count(topology);
    for _link in 0..count {
        let wider = with_next(alloc, topology, group.as_slice())?;
        group = wider;
    }
    Ok(group)
}

/// Whether one of these virtual switches has an outside port on the switch.
fn lies_on(topology: &Topology, group: &[u32], n: u32) -> bool
    ensures { result ≡ lies_on_of topology.now group.now n }
{
    topology
        .outside_ports()
        .iter()
        .any(|joint| is_one_of(group, joint.0.0) && joint.1.0 == n)
}

/// Where a packet comes to over the first cable of its way from one switch to another.
fn step(wiring: &Wiring, from: u32, to: u32) -> Option<SwitchPort>
    ensures { result ≡ step_of wiring.now from to }
{
    match wiring.next_hop(from, to) {
        Some(port) => wiring.far_end(SwitchPort { switch: from, port }),
        None => None,
    }
}

/// Whether the way from one switch to another comes to a switch, over at most so many cables.
fn comes_to(wiring: &Wiring, cables: usize, n: u32, from: u32, to: u32) -> bool
    ensures { result ≡ list_any (λ (s : SwitchPort). s.switch == n) (arrivals wiring.now cables from to) }
{
    if cables == 0 || from == to {
        return false;
    }
    match step(wiring, from, to) {
        Some(at) => at.switch == n || comes_to(wiring, cables - 1, n, at.switch, to),
        None => false,
    }
}

/// Whether the way from a switch to an outside port of the virtual switch comes to a switch.
fn leads_on(wiring: &Wiring, v: u32, n: u32, from: u32, goal: &Outside) -> bool
    ensures { result ≡ ((goal.now.v == v) && leads_over_of wiring.now n from goal.now.at.switch) }
{
    goal.v == v && comes_to(wiring, wiring.cables.len(), n, from, goal.at.switch)
}

/// Whether a way from a switch to some outside port of the virtual switch comes to a switch.
fn some_leads_on(wiring: &Wiring, v: u32, n: u32, from: u32) -> bool
    ensures { result ≡ list_any (λ (b : OutsideOf). (b.v == v) && leads_over_of wiring.now n from b.at.switch)
        wiring.now.outside }
{
    wiring
        .outside
        .as_slice()
        .iter()
        .any(|goal| leads_on(wiring, v, n, from, goal))
}

/// Whether a way from an outside port of the virtual switch to another comes to a switch.
fn leads_from(wiring: &Wiring, v: u32, n: u32, start: &Outside) -> bool
    ensures { result ≡ ((start.now.v == v) && list_any (λ (b : OutsideOf). (b.v == v)
        && leads_over_of wiring.now n start.now.at.switch b.at.switch) wiring.now.outside) }
{
    start.v == v && some_leads_on(wiring, v, n, start.at.switch)
}

/// Whether a way between two outside ports of the virtual switch comes to a switch.
fn is_between(wiring: &Wiring, v: u32, n: u32) -> bool
    ensures { result ≡ is_between_of wiring.now v n }
{
    wiring
        .outside
        .as_slice()
        .iter()
        .any(|start| leads_from(wiring, v, n, start))
}

/// Whether a switch is one of the virtual switch of this group.
fn is_switch_of(topology: &Topology, wiring: &Wiring, group: &[u32], v: u32, n: u32) -> bool
    ensures { result ≡ is_switch_by topology.now wiring.now group.now v n }
{
    lies_on(topology, group, n) || is_between(wiring, v, n)
}

/// The switches of the virtual switch of this group, rising.
fn switches_among(
    alloc: Global,
    topology: &Topology,
    wiring: &Wiring,
    group: &[u32],
    v: u32,
) -> Result<List<u32>, Memory>
    ensures { IfOk result (λ switches. switches ≡ switches_by topology.now wiring.now group.now v) }
{
    let mut switches = List::new(alloc);
    let count = switch_count(topology);
    for n in 0..count {
        push_if(
            &mut switches,
            is_switch_of(topology, wiring, group, v, n),
            n,
        )?;
    }
    Ok(switches)
}

/// The switches of a virtual switch, rising.
pub fn switches_of(
    alloc: Global,
    topology: &Topology,
    wiring: &Wiring,
    v: u32,
) -> Result<List<u32>, Memory>
    requires { wiring.now ≡ wiring_of topology.now }
    ensures { IfOk result (λ switches. switches ≡ switches_in topology.now v) }
{
    let group = group(alloc, topology, v)?;
    let switches = switches_among(alloc, topology, wiring, group.as_slice(), v)?;
    Ok(switches)
}
