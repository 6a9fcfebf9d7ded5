//! The numbers of ports that switches tell a poll.
ghost use Rattle.std.specs.Prelude.{◌≡◌, OnErr, OnOk, filter_map, fold};
ghost use Rattle.waitings.specs.Lists.{changed_first};
ghost use Rattle.waitings.specs.Ports.{purpose_told, taking_ports, told_of as told_of_of, with_told as with_told_of};
ghost use Rattle.waitings.specs.Waitings.{waits_for_ports};

use crate::state::{Purpose, Waiting};
use cv_io::{List, Memory};
use of10_stats::PortStat;
use std::alloc::Global;
use virtual_topology::Topology;

/// What a switch tells of a port, where that is an outside port of the virtual switch, by its number there.
fn told_of(topology: &Topology, switch: u32, v: u32, stat: &PortStat) -> Option<PortStat>
    ensures { result ≡ told_of_of topology.now switch v stat.now }
{
    match topology.entering(switch, stat.port_no) {
        Some((u, port_no)) if u == v => Some(PortStat { port_no, ..*stat }),
        _ => None,
    }
}

/// What was told last of a port stands.
fn put_told(told: &mut Vec<PortStat>, stat: PortStat) -> Result<(), Memory>
    ensures { OnOk result (told.new.items ≡ with_told_of told.old.items stat) }
{
    told.retain(|other| other.port_no != stat.port_no);
    told.push(stat)?;
    Ok(())
}

/// More is told.
fn tell(
    told: &mut List<PortStat>,
    topology: &Topology,
    switch: u32,
    v: u32,
    stats: &[PortStat],
) -> Result<(), Memory>
    ensures told { OnOk result
        (told.new ≡ fold with_told_of told.old (filter_map (told_of_of topology.now switch v) stats.now)) }
    ensures memory { OnErr result (told.new ≡ told.old) }
{
    let mut known = told.copied()?.into_vec();
    for stat in stats {
        if let Some(stat) = told_of(topology, switch, v, stat) {
            put_told(&mut known, stat)?;
        }
    }
    *told = List::from_vec(known);
    Ok(())
}

impl Purpose {
    /// A poll of ports is told more.
    fn tell_ports(
        &mut self,
        topology: &Topology,
        switch: u32,
        v: u32,
        stats: &[PortStat],
    ) -> Result<(), Memory>
        ensures told { OnOk result
            (self.new ≡ purpose_told (filter_map (told_of_of topology.now switch v) stats.now) self.old) }
        ensures memory { OnErr result (self.new ≡ self.old) }
    {
        match self {
            Purpose::Port { told, .. } => tell(told, topology, switch, v, stats),
            _ => Ok(()),
        }
    }
}

impl Waiting {
    /// A poll of ports takes a part.
    fn take_ports(
        &mut self,
        alloc: Global,
        topology: &Topology,
        switch: u32,
        xid: u32,
        more: bool,
        stats: &[PortStat],
    ) -> Result<(), Memory>
        ensures taken { OnOk result (self.new ≡ taking_ports topology.now switch xid more stats.now self.old) }
        ensures memory { OnErr result (self.new ≡ self.old) }
    {
        let parts = self.parts_unless(alloc, more, switch, xid)?;
        self.purpose.tell_ports(topology, switch, self.v, stats)?;
        self.parts = parts;
        Ok(())
    }
}

/// The oldest poll of ports that waits for this part takes it.
pub(crate) fn take_ports(
    alloc: Global,
    list: &mut [Waiting],
    topology: &Topology,
    switch: u32,
    xid: u32,
    more: bool,
    stats: &[PortStat],
) -> Result<(), Memory>
    ensures taken { OnOk result
        (list.new ≡ changed_first (waits_for_ports switch xid)
        (taking_ports topology.now switch xid more stats.now) list.old) }
    ensures memory { OnErr result (list.new ≡ list.old) }
{
    for waiting in list.iter_mut() {
        if waiting.waits_for_ports(switch, xid) {
            return waiting.take_ports(alloc, topology, switch, xid, more, stats);
        }
    }
    Ok(())
}
