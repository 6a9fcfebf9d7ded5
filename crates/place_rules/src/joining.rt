//! The wiring of a topology, with its paths.
ghost use Rattle.std.specs.Prelude.{◌≡◌, ◌<◌, ◌++◌, IfOk, IfSome, OnOk, length, map};
ghost use Rattle.std.specs.List.{All};
ghost use Rattle.place_rules.specs.Joined.{cable_from, hop_from, hops_from, outside_from, port_at, wiring_of};
ghost use Rattle.virtual_topology.specs.Wires.{cable_joints};
ghost use Rattle.switch_meaning.specs.Fixed.{AreTagsInRange};
ghost use Rattle.switch_meaning.specs.declared.wiring.Outside.{Outside};

use cv_io::{List, Memory};
use inner_paths::Paths;
use std::alloc::Global;
use switch_meaning::{Cable, NextHop, Outside, SwitchPort, Wiring};
use virtual_topology::Topology;

/// Where the outside ports lie and their tags, the cables, and the next hops, as plain data.
pub fn wiring(alloc: Global, topology: &Topology, paths: &Paths) -> Result<Wiring, Memory>
    requires { paths.now ≡ topology.now }
    ensures is { IfOk result (λ wiring. wiring ≡ wiring_of topology.now) }
    ensures tags { IfOk result AreTagsInRange }
{
    Ok(Wiring {
        outside: outside(alloc, topology, paths)?,
        cables: cables(alloc, topology)?,
        next_hops: next_hops(alloc, topology, paths)?,
    })
}

type Joint = ((u32, u16), (u32, u16));

fn spot(at: (u32, u16)) -> SwitchPort
    ensures { result ≡ port_at at }
{
    SwitchPort {
        switch: at.0,
        port: at.1,
    }
}

/// The outside ports of all virtual switches.
fn outside(alloc: Global, topology: &Topology, paths: &Paths) -> Result<List<Outside>, Memory>
    requires { paths.now ≡ topology.now }
    ensures is { IfOk result (λ list. list ≡ (wiring_of topology.now).outside) }
    ensures tags { IfOk result (All (λ (o : Outside). IfSome o.tag (λ t. t < 4096))) }
{
    let mut list = List::new(alloc);
    for joint in topology.outside_ports() {
        list.push(outside_of(paths, joint))?;
    }
    Ok(list)
}

fn outside_of(paths: &Paths, joint: &Joint) -> Outside
    ensures { result ≡ outside_from paths.now joint.now }
{
    let (v, port) = joint.0;
    Outside {
        v,
        port,
        at: spot(joint.1),
        tag: paths.tag(v, port),
    }
}

/// The cables, each once.
fn cables(alloc: Global, topology: &Topology) -> Result<List<Cable>, Memory>
    ensures { IfOk result (λ list. list ≡ map cable_from (cable_joints topology.now)) }
{
    let ways = topology.cable_ways();
    let count = ways.len() / 2;
    let mut list = List::new(alloc);
    for place in 0..count {
        list.push(cable_of(&ways[2 * place]))?;
    }
    Ok(list)
}

fn cable_of(way: &Joint) -> Cable
    ensures { result ≡ cable_from way.now }
{
    Cable {
        one: spot(way.0),
        other: spot(way.1),
    }
}

/// The next hops between all switches.
fn next_hops(alloc: Global, topology: &Topology, paths: &Paths) -> Result<List<NextHop>, Memory>
    requires { paths.now ≡ topology.now }
    ensures { IfOk result (λ list. list ≡ (wiring_of topology.now).next_hops) }
{
    let count = topology.plan().switches.len() as u32;
    let mut list = List::new(alloc);
    for from in 0..count {
        push_hops(&mut list, paths, from, count)?;
    }
    Ok(list)
}

/// Appends the next hops from one switch to all.
fn push_hops(list: &mut List<NextHop>, paths: &Paths, from: u32, count: u32) -> Result<(), Memory>
    requires { count ≡ length paths.now.switches }
    ensures { OnOk result (list.new ≡ list.old ++ hops_from paths.now from) }
{
    for to in 0..count {
        list.push_some(hop_of(paths, from, to))?;
    }
    Ok(())
}

fn hop_of(paths: &Paths, from: u32, to: u32) -> Option<NextHop>
    ensures { result ≡ hop_from paths.now from to }
{
    let port = paths.next_hop(from, to)?;
    Some(NextHop { from, to, port })
}
