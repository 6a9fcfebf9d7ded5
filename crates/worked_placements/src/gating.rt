//! An entry for one packet, which gives way to an entry of greater priority that holds the packet.
use crate::wanted;
use cv_io::{Duplicate, List, Memory};
use install_plan::{Batch, Written};
use of10_match::{IPV4, Match, Prefix, TCP};
use std::alloc::Global;
use std::io;
use switch_meaning::PhysEntry;
use switch_tables::SwitchTable;

/// All twelve fields of a TCP packet to 10.0.0.2.
fn one_packet() -> Match {
    Match {
        in_port: Some(1),
        dl_src: Some(1),
        dl_dst: Some(2),
        dl_vlan: Some(5),
        dl_vlan_pcp: Some(3),
        dl_type: Some(IPV4),
        nw_tos: Some(0),
        nw_proto: Some(TCP),
        nw_src: Some(Prefix::from(0x0a00_0001)),
        nw_dst: Some(Prefix::from(0x0a00_0002)),
        tp_src: Some(8),
        tp_dst: Some(80),
    }
}

/// IPv4 packets to 10.0.0.2.
fn to_host() -> Match {
    Match {
        dl_type: Some(IPV4),
        nw_dst: Some(Prefix::from(0x0a00_0002)),
        ..Match::everything()
    }
}

/// One of the two entries, or neither.
#[derive(Clone, Copy)]
enum Entry {
    Neither,
    /// The router's, for the one packet.
    Packet,
    /// The access list's.
    Host,
}

fn placed(alloc: Global, m: Match, priority: u16) -> PhysEntry {
    PhysEntry {
        m,
        priority,
        actions: List::new(alloc),
        ancestry: List::new(alloc),
    }
}

fn list(alloc: Global, entry: Entry) -> Result<List<PhysEntry>, Memory> {
    let mut list = List::new(alloc);
    match entry {
        Entry::Neither => {}
        Entry::Packet => list.push(placed(alloc, one_packet(), 5))?,
        Entry::Host => list.push(placed(alloc, to_host(), 13))?,
    }
    Ok(list)
}

fn changed(
    alloc: Global,
    table: &mut SwitchTable,
    gone: Entry,
    come: Entry,
    next: u64,
) -> Result<Batch, Memory> {
    let gone = list(alloc, gone)?;
    let come = list(alloc, come)?;
    table.change(&gone, &come, next)
}

fn show_written(rt: &HostRuntime, name: &str, rows: &List<Written>) -> io::Result<()> {
    for row in rows.as_slice() {
        let (m, priority, cookie) = (row.entry.m, row.entry.priority, row.cookie);
        println!(rt; "{name}: {m} priority={priority} cookie={cookie}")?;
    }
    Ok(())
}

fn show_batch(rt: &HostRuntime, batch: &Batch) -> io::Result<()> {
    show_written(rt, "delete", &batch.deletes)?;
    show_written(rt, "add", &batch.adds)
}

fn show_change(
    rt: &HostRuntime,
    table: &mut SwitchTable,
    gone: Entry,
    come: Entry,
    next: u64,
) -> io::Result<()> {
    let batch = changed(rt.alloc(), table, gone, come, next).map_err(wanted)?;
    show_batch(rt, &batch)
}

fn show_changes(rt: &HostRuntime, table: &mut SwitchTable) -> io::Result<()> {
    show_change(rt, table, Entry::Neither, Entry::Packet, 2)?;
    show_change(rt, table, Entry::Neither, Entry::Host, 3)?;
    show_change(rt, table, Entry::Host, Entry::Neither, 4)
}

/// What stands in a copy of the table.
fn copied(table: &SwitchTable) -> Result<List<Written>, Memory> {
    let copied = table.copy()?;
    let standing = copied.standing();
    drop(copied);
    standing
}

/// A router's entry for one packet gives way to an access list's for its goal, and comes back.
pub fn show_table(rt: &HostRuntime) -> io::Result<()> {
    let mut table = SwitchTable::new(rt.alloc());
    let shown = show_changes(rt, &mut table);
    let standing = copied(&table);
    drop(table);
    shown?;
    show_written(rt, "stands", &standing.map_err(wanted)?)
}
