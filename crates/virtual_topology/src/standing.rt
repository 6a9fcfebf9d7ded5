//! How virtual switches lie on physical ones.
ghost use Rattle.std.specs.Prelude.{◌≡◌, ◌<◌, ◌^◌, IfOk, length};
ghost use Rattle.std.specs.List.{list_any};
ghost use Rattle.virtual_topology.specs.Made.{standing_of, standings_of};
ghost use Rattle.virtual_topology.specs.Wires.{both_ways as both_ways_of, is_link, is_lone_with};
ghost use Rattle.virtual_topology.specs.Wires.{is_shared as is_shared_of, item_joints as item_joints_of};
ghost use Rattle.virtual_topology.specs.Wires.{lie_apart as lie_apart_of, touches};

use crate::known::Known;
use crate::plan::{VirtualItem, VirtualPort};
use crate::wires::{Joint, item_joints, lie_apart};
use cv_io::{Duplicate, Memory};
use std::alloc::Global;

/// How a virtual switch lies.
#[derive(Clone, Copy, PartialEq, Eq, Debug)]
pub struct Standing {
    /// Its outside ports lie on several physical switches.
    pub spread: bool,
    /// It is alone on its one physical switch.
    pub lone: bool,
}

impl Duplicate for Standing {
    fn copy(&self) -> Result<Standing, Memory> {
        Ok(*self)
    }
}

fn has_link_port(ports: &[VirtualPort]) -> bool
    ensures { result ≡ list_any is_link ports.now }
{
    ports.iter().any(|port| port.at.is_none())
}

/// Whether a cable ends at a physical switch.
fn has_cable(ways: &[Joint], switch: u32) -> bool
    ensures { result ≡ list_any (touches switch) ways.now }
{
    ways.iter().any(|way| way.0.0 == switch)
}

/// Whether another virtual switch than this has an outside port on a physical switch.
fn is_shared(outside: &[Joint], number: u32, switch: u32) -> bool
    ensures { result ≡ list_any (is_shared_of number switch) outside.now }
{
    outside
        .iter()
        .any(|joint| joint.1.0 == switch && joint.0.0 != number)
}

/// Whether nothing else has to do with the physical switch of these outside ports of a virtual switch.
fn is_lone(
    cable_ways: &[Joint],
    outside: &[Joint],
    number: u32,
    item: &VirtualItem,
    own: &[Joint],
) -> bool
    ensures { (cables : _) → cable_ways.now ≡ both_ways_of cables
        → result ≡ is_lone_with cables outside.now number item.now own.now }
{
    match own {
        [] => false,
        [first, ..] => {
            !lie_apart(own)
                && !has_link_port(item.ports.as_slice())
                && !has_cable(cable_ways, first.1.0)
                && !is_shared(outside, number, first.1.0)
        }
    }
}

/// How a virtual switch lies.
fn standing_at<'a>(
    alloc: Global,
    known: &Known<'a>,
    cable_ways: &[Joint],
    outside: &[Joint],
    number: u32,
    item: &'a VirtualItem,
) -> Result<Standing, Memory>
    ensures { IfOk result (λ s. (cables : _) → cable_ways.now ≡ both_ways_of cables
        → s ≡ standing_of known.now cables outside.now (number, item.now)) }
{
    let own = item_joints(alloc, known, number, item)?;
    Ok(Standing {
        spread: lie_apart(&own),
        lone: is_lone(cable_ways, outside, number, item, &own),
    })
}

/// How all virtual switches lie.
pub(crate) fn standings<'a>(
    alloc: Global,
    known: &Known<'a>,
    cable_ways: &[Joint],
    outside: &[Joint],
    virtuals: &'a [VirtualItem],
) -> Result<Vec<Standing>, Memory>
    requires { length virtuals.now < 2 ^ 32 }
    ensures { IfOk result (λ v. (cables : _) → cable_ways.now ≡ both_ways_of cables
        → v.items ≡ standings_of known.now cables outside.now virtuals.now) }
{
    let mut standings = Vec::with_capacity(alloc, virtuals.len())?;
    for (number, item) in virtuals.iter().enumerate() {
        standings.push(standing_at(alloc, known, cable_ways, outside, number as u32, item)?)?;
    }
    Ok(standings)
}
