//! The VLAN numbers of outside ports.
ghost use Rattle.std.specs.Prelude.{◌≡◌, ◌<◌, ◌≤◌, ◌+◌, IfOk, OnOk, ◌++◌, if◌then◌else◌, length, option_to_list};
ghost use Rattle.inner_paths.specs.Tags.{place_of as place_of_port, stands_before as stands_before_of};
ghost use Rattle.inner_paths.specs.Tags.{tag_row as tag_row_of, tag_rows as tag_rows_of};
ghost use Rattle.virtual_topology.specs.Wires.{outside_joints};

use cv_io::Memory;
use std::alloc::Global;
use virtual_topology::Topology;

/// An outside port with its tag.
type Tagged = ((u32, u16), u16);

/// Whether an outside port is of a spread virtual switch and stands before a port.
fn stands_before(topology: &Topology, v: u32, port: u16, outside: &((u32, u16), (u32, u16))) -> bool
    ensures { result ≡ stands_before_of topology.now v port outside.now }
{
    let (own, own_port) = outside.0;
    topology.is_spread(own) && (own < v || own == v && own_port < port)
}

/// 1 where it is so, else 0.
fn one_if(is_so: bool) -> u16
    ensures { result ≡ (if is_so then 1 else 0) }
{
    if is_so { 1 } else { 0 }
}

/// The place of a port among the outside ports of all spread virtual switches, from 1.
fn place_of(topology: &Topology, v: u32, port: u16) -> u16
    ensures { result ≡ place_of_port topology.now v port }
{
    let mut place = 1;
    for outside in topology.outside_ports() {
        place += one_if(stands_before(topology, v, port, outside));
    }
    place
}

/// An outside port with its tag, if its virtual switch is spread.
fn tag_row(topology: &Topology, outside: &((u32, u16), (u32, u16))) -> Option<Tagged>
    ensures { result ≡ tag_row_of topology.now outside.now }
{
    let (v, port) = outside.0;
    if topology.is_spread(v) {
        Some((outside.0, place_of(topology, v, port)))
    } else {
        None
    }
}

fn push_some(list: &mut Vec<Tagged>, item: Option<Tagged>) -> Result<(), Memory>
    ensures { OnOk result (list.new.items ≡ list.old.items ++ option_to_list item) }
{
    if let Some(item) = item {
        list.push(item)?;
    }
    Ok(())
}

/// The outside ports that have tags, with these.
pub(crate) fn tag_rows(alloc: Global, topology: &Topology) -> Result<Vec<Tagged>, Memory>
    ensures { IfOk result (λ v. v.items ≡ tag_rows_of topology.now) }
{
    let mut rows = Vec::new(alloc);
    for outside in topology.outside_ports() {
        push_some(&mut rows, tag_row(topology, outside))?;
    }
    Ok(rows)
}
