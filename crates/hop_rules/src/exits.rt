//! Where links lead from virtual switches.
ghost use Rattle.std.specs.Prelude.{◌≡◌, ◌<◌, ◌^◌, IfOk, flat_map, length};
ghost use Rattle.std.specs.List.{enumerate_from};
ghost use Rattle.hop_rules.specs.Links.{end as end_of, ends as ends_of, exit_at as exit_at_of, exits as exits_of};
ghost use Rattle.hop_rules.specs.Links.{port_ends as port_ends_of};

use cv_io::{List, Memory};
use policy_meaning::Place;
use std::alloc::Global;
use virtual_topology::{Topology, VirtualItem, VirtualPort};

/// A link port of a virtual switch, and the port to which it leads.
#[derive(Clone, Copy, PartialEq, Eq, Debug)]
pub struct LinkEnd {
    pub v: u32,
    pub port: u16,
    pub peer: Place,
}

/// A link port of a known virtual switch, the port to which it leads, and the place of this end among
/// the ends of all links.
#[derive(Clone, Copy, PartialEq, Eq, Debug)]
pub struct Exit {
    pub port: u16,
    pub peer: Place,
    pub place: u32,
}

/// The end of a link at a port, if one leads from it.
fn end(topology: &Topology, v: u32, port: &VirtualPort) -> Option<LinkEnd>
    ensures { result ≡ end_of topology.now v port.now }
{
    let (u, peer) = topology.peer(v, port.port)?;
    Some(LinkEnd {
        v,
        port: port.port,
        peer: Place { v: u, port: peer },
    })
}

/// The ends of links at the ports of a virtual switch.
fn port_ends(
    alloc: Global,
    topology: &Topology,
    v: u32,
    item: &VirtualItem,
) -> Result<List<LinkEnd>, Memory>
    ensures { IfOk result (λ ends. ends ≡ port_ends_of topology.now (v, item.now)) }
{
    let mut ends = List::new(alloc);
    for port in item.ports.as_slice() {
        ends.push_some(end(topology, v, port))?;
    }
    Ok(ends)
}

/// The ends of links at these virtual switches.
fn ends_among(
    alloc: Global,
    topology: &Topology,
    virtuals: &[VirtualItem],
) -> Result<List<LinkEnd>, Memory>
    requires { length virtuals.now < 2 ^ 32 }
    ensures { IfOk result (λ ends. ends ≡ flat_map (port_ends_of topology.now) (enumerate_from 0 virtuals.now)) }
{
    let mut ends = List::new(alloc);
    for (v, item) in virtuals.iter().enumerate() {
        ends.append(port_ends(alloc, topology, v as u32, item)?)?;
    }
    Ok(ends)
}

/// The ends of all links, by virtual switch.
pub fn ends(alloc: Global, topology: &Topology) -> Result<List<LinkEnd>, Memory>
    ensures { IfOk result (λ ends. ends ≡ ends_of topology.now) }
{
    ends_among(alloc, topology, topology.plan().virtuals.as_slice())
}

/// The end of a link at this place as an exit of a virtual switch, if it is one.
fn exit_at(v: u32, place: u32, end: &LinkEnd) -> Option<Exit>
    ensures { result ≡ exit_at_of v (place, end.now) }
{
    if end.v != v {
        return None;
    }
    Some(Exit {
        port: end.port,
        peer: end.peer,
        place,
    })
}

/// The exits of a virtual switch. More ends than 2^32 - 1 are answered as want of memory.
pub fn exits(alloc: Global, ends: &[LinkEnd], v: u32) -> Result<List<Exit>, Memory>
    ensures { IfOk result (λ exits. exits ≡ exits_of ends.now v) }
{
    if ends.len() > u32::MAX as usize {
        return Err(Memory);
    }
    let mut exits = List::new(alloc);
    for (place, end) in ends.iter().enumerate() {
        exits.push_some(exit_at(v, place as u32, end))?;
    }
    Ok(exits)
}
