//! Rows for each switch.
ghost use Rattle.std.specs.Prelude.{◌≡◌, ◌<◌, ◌≤◌, None, IfOk, length};
ghost use Rattle.inner_paths.specs.Distances.{distance};
ghost use Rattle.inner_paths.specs.Hops.{hop_between};
ghost use Rattle.inner_paths.specs.Tables.{IsRow, IsTable, entry_of};

use crate::distance::distances;
use crate::hop::nearest;
use cv_io::{List, Memory};
use std::alloc::Global;
use virtual_topology::Topology;

/// What a table has for a pair of switches.
pub(crate) fn entry<T: Copy>(table: &List<List<Option<T>>>, to: u32, from: u32) -> Option<T>
    ensures { result ≡ entry_of table.now to from }
{
    let row = table.get(to as usize)?;
    row.get(from as usize).copied().unwrap_or(None)
}

/// The port by which packets from one switch to another leave the first.
fn hop(topology: &Topology, distances: &[Option<u32>], from: u32, to: u32) -> Option<u16>
    requires { IsRow (length topology.now.switches) (λ s. distance topology.now s to) distances.now }
    ensures { result ≡ hop_between topology.now from to }
{
    if from == to {
        return None;
    }
    let (_, port) = nearest(topology.cable_ways(), distances, from)?;
    Some(port)
}

/// The ports by which packets to a switch leave each of the switches.
fn hops(
    alloc: Global,
    topology: &Topology,
    distances: &[Option<u32>],
    count: u32,
    to: u32,
) -> Result<Vec<Option<u16>>, Memory>
    requires count { count ≡ length topology.now.switches }
    requires row { IsRow (length topology.now.switches) (λ s. distance topology.now s to) distances.now }
    ensures { IfOk result (λ v. IsRow count (λ s. hop_between topology.now s to) v.items) }
{
    let mut hops = Vec::new(alloc);
    for from in 0..count {
        hops.push(hop(topology, distances, from, to))?;
    }
    Ok(hops)
}

/// The distances between switches, and the ports that lead from one to another.
#[derive(Drop)]
pub(crate) struct Tables {
    pub distances: List<List<Option<u32>>>,
    pub hops: List<List<Option<u16>>>,
}

pub(crate) fn make_tables(alloc: Global, topology: &Topology) -> Result<Tables, Memory>
    ensures distances { IfOk result
        (λ t. IsTable (length topology.now.switches) (length topology.now.switches)
        (λ to from. distance topology.now from to) t.distances) }
    ensures hops { IfOk result
        (λ t. IsTable (length topology.now.switches) (length topology.now.switches)
        (λ to from. hop_between topology.now from to) t.hops) }
{
    let count = topology.plan().switches.len() as u32;
    let mut tables = Tables {
        distances: List::new(alloc),
        hops: List::new(alloc),
    };
    for to in 0..count {
        let row = distances(alloc, topology.cable_ways(), count, to)?;
        let hops = hops(alloc, topology, &row, count, to)?;
        tables.hops.push(List::from_vec(hops))?;
        tables.distances.push(List::from_vec(row))?;
    }
    Ok(tables)
}

/// The same table.
pub(crate) fn copied<T: Copy>(
    alloc: Global,
    table: &List<List<Option<T>>>,
) -> Result<List<List<Option<T>>>, Memory>
    ensures { IfOk result (λ copied. copied ≡ table.now) }
{
    let mut copied = List::with_capacity(alloc, table.len())?;
    for row in table.as_slice() {
        copied.push(List::from_slice(alloc, row.as_slice())?)?;
    }
    Ok(copied)
}
