//! The virtual switches of a topology.
ghost use Rattle.std.specs.Prelude.{◌≡◌, IfOk, filter, filter_map, map};
ghost use Rattle.policy_expr.specs.Policy.{policy_of};
ghost use Rattle.policy_setting.specs.Networks.{is_of, link as link_of, outside_ports as outside_ports_of};
ghost use Rattle.policy_setting.specs.Networks.{place as place_of, virtual_switch as virtual_switch_of};

use cv_io::{List, Memory};
use policy_expr::Expr;
use policy_meaning::{Link, Place, VirtualSwitch};
use std::alloc::Global;
use virtual_topology::{Topology, VirtualItem, VirtualPort};

/// The outside ports of a virtual switch.
fn outside_ports(
    alloc: Global,
    joints: &[((u32, u16), (u32, u16))],
    v: u32,
) -> Result<List<u16>, Memory>
    ensures { IfOk result (λ ports. ports ≡ map (λ j. j.0.1) (filter (is_of v) joints.now)) }
{
    let mut ports = List::new(alloc);
    for ((u, port), _) in joints {
        if *u == v {
            ports.push(*port)?;
        }
    }
    Ok(ports)
}

/// The link of a port, if one leads from it.
fn link(topology: &Topology, v: u32, port: &VirtualPort) -> Option<Link>
    ensures { result ≡ link_of topology.now v port.now }
{
    let (u, peer) = topology.peer(v, port.port)?;
    Some(Link {
        port: port.port,
        peer: Place { v: u, port: peer },
    })
}

fn links(
    alloc: Global,
    topology: &Topology,
    v: u32,
    ports: &[VirtualPort],
) -> Result<List<Link>, Memory>
    ensures { IfOk result (λ links. links ≡ filter_map (link_of topology.now v) ports.now) }
{
    let mut links = List::new(alloc);
    for port in ports {
        links.push_some(link(topology, v, port))?;
    }
    Ok(links)
}

/// A virtual switch of this number; `seen` says that its members see all its ports.
pub fn virtual_switch(
    alloc: Global,
    topology: &Topology,
    expr: Expr,
    seen: bool,
    v: u32,
    item: &VirtualItem,
) -> Result<VirtualSwitch, Memory>
    ensures { IfOk result (λ x. x ≡ virtual_switch_of topology.now (policy_of expr) seen (v, item.now)) }
{
    let outside = outside_ports(alloc, topology.outside_ports(), v)?;
    let links = links(alloc, topology, v, item.ports.as_slice())?;
    Ok(VirtualSwitch {
        expr,
        outside,
        links,
        spread: topology.is_spread(v),
        whole: topology.is_lone(v) && seen,
    })
}
