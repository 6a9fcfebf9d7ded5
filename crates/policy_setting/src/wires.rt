//! The wiring of a topology.
ghost use Rattle.std.specs.Prelude.{◌≡◌, ◌++◌, IfOk, OnOk, filter_map, map};
ghost use Rattle.std.specs.List.{range_with_len};
ghost use Rattle.policy_setting.specs.Wirings.{cable as cable_of, every_second, hop, hops_among, outside as outside_of};
ghost use Rattle.policy_setting.specs.Wirings.{switch_port as switch_port_of, wiring as wiring_of};

use cv_io::{List, Memory};
use inner_paths::Paths;
use std::alloc::Global;
use switch_meaning::{Cable, NextHop, Outside, SwitchPort, Wiring};
use virtual_topology::Topology;

/// A port of a physical switch by numbers.
fn switch_port(spot: (u32, u16)) -> SwitchPort
    ensures { result ≡ switch_port_of spot }
{
    SwitchPort {
        switch: spot.0,
        port: spot.1,
    }
}

/// An outside port, the physical port that it is, and its tag.
fn outside(paths: &Paths, joint: ((u32, u16), (u32, u16))) -> Outside
    ensures { result ≡ outside_of paths.now joint }
{
    let (spot, at) = joint;
    Outside {
        v: spot.0,
        port: spot.1,
        at: switch_port(at),
        tag: paths.tag(spot.0, spot.1),
    }
}

fn outsides(
    alloc: Global,
    paths: &Paths,
    joints: &[((u32, u16), (u32, u16))],
) -> Result<List<Outside>, Memory>
    ensures { IfOk result (λ os. os ≡ map (outside_of paths.now) joints.now) }
{
    let mut outsides = List::new(alloc);
    for joint in joints {
        outsides.push(outside(paths, *joint))?;
    }
    Ok(outsides)
}

fn cable(joint: ((u32, u16), (u32, u16))) -> Cable
    ensures { result ≡ cable_of joint }
{
    Cable {
        one: switch_port(joint.0),
        other: switch_port(joint.1),
    }
}

/// Appends each second way as a cable, from the first on.
fn push_cables(ways: &[((u32, u16), (u32, u16))], cables: &mut List<Cable>) -> Result<(), Memory>
    ensures { OnOk result (cables.new ≡ cables.old ++ map cable_of (every_second ways.now)) }
{
    match ways {
        [first, _, rest @ ..] => {
            cables.push(cable(*first))?;
            push_cables(rest, cables)
        }
        _ => Ok(()),
    }
}

/// The next hop from a switch to another, if there is one.
fn hop_between(paths: &Paths, from: u32, to: u32) -> Option<NextHop>
    ensures { result ≡ hop paths.now from to }
{
    match paths.next_hop(from, to) {
        Some(port) => Some(NextHop { from, to, port }),
        None => None,
    }
}

/// Appends the next hops from a switch to the first so many.
fn push_hops(paths: &Paths, from: u32, count: u32, hops: &mut List<NextHop>) -> Result<(), Memory>
    ensures { OnOk result (hops.new ≡ hops.old ++ filter_map (hop paths.now from) (range_with_len 0 count)) }
{
    for to in 0..count {
        hops.push_some(hop_between(paths, from, to))?;
    }
    Ok(())
}

/// The next hops between the first so many switches.
fn hops(alloc: Global, paths: &Paths, count: u32) -> Result<List<NextHop>, Memory>
    ensures { IfOk result (λ hs. hs ≡ hops_among paths.now count) }
{
    let mut hops = List::new(alloc);
    for from in 0..count {
        push_hops(paths, from, count, &mut hops)?;
    }
    Ok(hops)
}

#[tactic(auto, using(crate::proofs::Growing::each_second))]
/// The wiring of a topology with its paths.
pub fn wiring(alloc: Global, topology: &Topology, paths: &Paths) -> Result<Wiring, Memory>
    requires { paths.now ≡ topology.now }
    ensures { IfOk result (λ w. w ≡ wiring_of topology.now) }
{
    let outside = outsides(alloc, paths, topology.outside_ports())?;
    let mut cables = List::new(alloc);
    push_cables(topology.cable_ways(), &mut cables)?;
    let next_hops = hops(alloc, paths, topology.plan().switches.len() as u32)?;
    Ok(Wiring {
        outside,
        cables,
        next_hops,
    })
}
