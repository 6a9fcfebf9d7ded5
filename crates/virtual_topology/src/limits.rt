//! Limits on the size of a plan.
ghost use Rattle.std.specs.Prelude.{◌≡◌, ◌<◌, ◌^◌, length};
ghost use Rattle.std.specs.List.{enumerate_from};
ghost use Rattle.virtual_topology.specs.Faults.{Answers, crowded, first_answer, too_many, too_many_at, too_many_of};
ghost use Rattle.virtual_topology.specs.Faults.{too_many_pairs};

use crate::fault::TopologyFault;
use crate::plan::{PairItem, SwitchItem, TopologyPlan, VirtualItem};
use crate::text::place_text;
use cv_io::{Duplicate, Text};
use std::alloc::Global;

/// The most switches, physical or virtual.
pub const MOST_SWITCHES: u32 = 16;

/// The most ports of a switch.
pub const MOST_PORTS: u32 = 64;

/// The most cables, and the most links.
pub const MOST_PAIRS: u32 = 64;

/// The switch is one of those that there may be, and has as many ports as it may have.
fn check_switch(number: usize, name: &Text, ports: usize) -> Result<(), TopologyFault>
    ensures { Answers TopologyFault.Memory result (too_many number name.now ports) }
{
    let limit = if number >= MOST_SWITCHES as usize {
        MOST_SWITCHES
    } else if ports > MOST_PORTS as usize {
        MOST_PORTS
    } else {
        return Ok(());
    };
    Err(TopologyFault::TooMany {
        name: name.copy()?,
        limit,
    })
}

fn check_pairs(alloc: Global, pairs: &[PairItem]) -> Result<(), TopologyFault>
    ensures { Answers TopologyFault.Memory result (too_many_pairs pairs.now) }
{
    match pairs.get(MOST_PAIRS as usize) {
        None => Ok(()),
        Some(pair) => Err(TopologyFault::TooMany {
            name: place_text(alloc, &pair.a)?,
            limit: MOST_PAIRS,
        }),
    }
}

fn check_switches(switches: &[SwitchItem]) -> Result<(), TopologyFault>
    ensures { Answers TopologyFault.Memory result (first_answer too_many_at (enumerate_from 0 switches.now)) }
{
    for (number, item) in switches.iter().enumerate() {
        check_switch(number, &item.name, item.ports.len())?;
    }
    Ok(())
}

fn check_virtuals(virtuals: &[VirtualItem]) -> Result<(), TopologyFault>
    ensures { Answers TopologyFault.Memory result (first_answer too_many_of (enumerate_from 0 virtuals.now)) }
{
    for (number, item) in virtuals.iter().enumerate() {
        check_switch(number, &item.name, item.ports.len())?;
    }
    Ok(())
}

/// The plan keeps the limits.
pub(crate) fn check_limits(alloc: Global, plan: &TopologyPlan) -> Result<(), TopologyFault>
    ensures { Answers TopologyFault.Memory result (crowded plan.now) }
{
    check_switches(plan.switches.as_slice())?;
    check_pairs(alloc, plan.cables.as_slice())?;
    check_virtuals(plan.virtuals.as_slice())?;
    check_pairs(alloc, plan.links.as_slice())
}
