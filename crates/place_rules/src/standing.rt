//! The entries that are put on a switch whatever the tables of members have.
ghost use Rattle.std.specs.Prelude.{◌≡◌, IfOk};
ghost use Rattle.place_rules.specs.Joined.{wiring_of};
ghost use Rattle.place_rules.specs.Placed.{fixed_of, is_whole_at as is_whole_at_of, is_whole_of};
ghost use Rattle.place_rules.specs.Placed.{ports_of as ports_of_of};
ghost use Rattle.switch_meaning.specs.Fixed.{drops as drops_of};

use crate::joining::wiring;
use crate::transit::push_transits;
use cv_io::{List, Memory};
use inner_paths::Paths;
use std::alloc::Global;
use switch_meaning::{PhysEntry, Wiring, drops, guards};
use virtual_topology::Topology;

/// The guards of a switch, its transit entries, and its drop entries: where one of the virtual switches
/// that are whole, by number, lies on it, a drop entry for each port that is no outside port.
pub fn fixed(
    alloc: Global,
    topology: &Topology,
    paths: &Paths,
    switch: u32,
    whole: &List<bool>,
) -> Result<List<PhysEntry>, Memory>
    requires { paths.now ≡ topology.now }
    ensures { IfOk result (λ entries. entries ≡ fixed_of topology.now whole.now switch) }
{
    let wiring = wiring(alloc, topology, paths)?;
    let mut entries = guards(alloc, &wiring, switch)?;
    push_transits(alloc, &mut entries, topology, paths, &wiring, switch)?;
    if is_whole(topology, whole, switch) {
        entries.append(dropping(alloc, topology, &wiring, switch)?)?;
    }
    Ok(entries)
}

/// A drop entry for each port of a switch that is no outside port.
fn dropping(
    alloc: Global,
    topology: &Topology,
    wiring: &Wiring,
    switch: u32,
) -> Result<List<PhysEntry>, Memory>
    ensures { IfOk result (λ entries. entries ≡ drops_of wiring.now switch (ports_of_of topology.now switch)) }
{
    match topology.plan().switches.get(switch as usize) {
        Some(item) => drops(alloc, wiring, switch, &item.ports),
        None => Ok(List::new(alloc)),
    }
}

/// Whether the switch is all of a virtual switch.
fn is_whole(topology: &Topology, whole: &List<bool>, switch: u32) -> bool
    ensures { result ≡ is_whole_of topology.now whole.now switch }
{
    topology
        .outside_ports()
        .iter()
        .any(|outside| is_whole_at(whole, switch, outside))
}

/// Whether an outside port is one of a virtual switch that is whole, on this switch.
fn is_whole_at(whole: &List<bool>, switch: u32, outside: &((u32, u16), (u32, u16))) -> bool
    ensures { result ≡ is_whole_at_of whole.now switch outside.now }
{
    let v = outside.0.0;
    whole.get(v as usize).copied().unwrap_or(false) && outside.1.0 == switch
}
