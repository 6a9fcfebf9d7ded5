//! Switches of one virtual switch without a path between them.
ghost use Rattle.std.specs.Prelude.{◌≡◌, ◌<◌, length};
ghost use Rattle.std.specs.List.{enumerate_from};
ghost use Rattle.inner_paths.specs.Cuts.{cut_between, cut_fault, cut_from, cut_of, lies_on as lies_on_of};
ghost use Rattle.inner_paths.specs.Distances.{distance};
ghost use Rattle.inner_paths.specs.Tables.{IsTable};
ghost use Rattle.virtual_topology.specs.Faults.{Answers, first_answer};

use crate::fault::PathFault;
use crate::table::entry;
use cv_io::{Duplicate, List};
use virtual_topology::{SwitchItem, Topology};

/// Whether an outside port of a virtual switch lies on a physical one.
fn lies_on(topology: &Topology, v: u32, switch: u32) -> bool
    ensures { result ≡ lies_on_of topology.now v switch }
{
    topology
        .outside_ports()
        .iter()
        .any(|joint| joint.0.0 == v && joint.1.0 == switch)
}

/// A path leads from one switch to another, if both are of a virtual switch.
fn check_pair(
    topology: &Topology,
    distances: &List<List<Option<u32>>>,
    v: u32,
    from: u32,
    from_item: &SwitchItem,
    to: u32,
    to_item: &SwitchItem,
) -> Result<(), PathFault>
    requires distances { IsTable (length topology.now.switches) (length topology.now.switches)
        (λ to from. distance topology.now from to) distances.now }
    requires from { from < length topology.now.switches }
    requires to { to < length topology.now.switches }
    ensures { Answers PathFault.Memory result (cut_between topology.now v (from, from_item.now) (to, to_item.now)) }
{
    if !lies_on(topology, v, from) || !lies_on(topology, v, to) {
        return Ok(());
    }
    match entry(distances, to, from) {
        Some(_) => Ok(()),
        None => Err(PathFault::Unreachable {
            from: from_item.name.copy()?,
            to: to_item.name.copy()?,
        }),
    }
}

fn check_from(
    topology: &Topology,
    distances: &List<List<Option<u32>>>,
    v: u32,
    from: u32,
    from_item: &SwitchItem,
) -> Result<(), PathFault>
    requires distances { IsTable (length topology.now.switches) (length topology.now.switches)
        (λ to from. distance topology.now from to) distances.now }
    requires from { from < length topology.now.switches }
    ensures { Answers PathFault.Memory result (cut_from topology.now v (from, from_item.now)) }
{
    let switches = topology.plan().switches.as_slice();
    for (to, to_item) in switches.iter().enumerate() {
        check_pair(topology, distances, v, from, from_item, to as u32, to_item)?;
    }
    Ok(())
}

fn check_virtual(
    topology: &Topology,
    distances: &List<List<Option<u32>>>,
    v: u32,
) -> Result<(), PathFault>
    requires distances { IsTable (length topology.now.switches) (length topology.now.switches)
        (λ to from. distance topology.now from to) distances.now }
    ensures { Answers PathFault.Memory result (cut_of topology.now v) }
{
    let switches = topology.plan().switches.as_slice();
    for (from, from_item) in switches.iter().enumerate() {
        check_from(topology, distances, v, from as u32, from_item)?;
    }
    Ok(())
}

/// Paths lead between the physical switches of each virtual switch.
pub(crate) fn check_reach(
    topology: &Topology,
    distances: &List<List<Option<u32>>>,
) -> Result<(), PathFault>
    requires distances { IsTable (length topology.now.switches) (length topology.now.switches)
        (λ to from. distance topology.now from to) distances.now }
    ensures { Answers PathFault.Memory result (cut_fault topology.now) }
{
    let count = topology.plan().virtuals.len() as u32;
    for v in 0..count {
        check_virtual(topology, distances, v)?;
    }
    Ok(())
}
