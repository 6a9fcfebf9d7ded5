//! What stands on a switch, and the batches that make it.
use cv_io::{Duplicate, Leaf, List, Memory};
use install_plan::{Batch, Installed, Written};
use of10_actions::Action;
use of10_match::{Header, IPV4, Match, Prefix, TCP, UNTAGGED};
use std::alloc::Global;
use std::test::Fail;
use switch_meaning::PhysEntry;

/// IPv4 packets of a port to 10.0.0.0/24 or to 10.0.0.1/32.
fn to_net(port: u16, host: bool) -> Match {
    let net = Prefix {
        addr: 0x0a00_0000,
        len: 24,
    };
    Match {
        in_port: Some(port),
        dl_type: Some(0x0800),
        nw_dst: Some(if host { Prefix::from(0x0a00_0001) } else { net }),
        ..Match::everything()
    }
}

/// The entry of a pair of leaves of a monitor and a router.
fn pair(
    alloc: Global,
    m: Match,
    priority: u16,
    to: u16,
    kinds: (u64, u64),
) -> Result<PhysEntry, Fail> {
    let (first, second) = kinds;
    let ancestry = [
        Leaf {
            member: 0,
            kind: first,
        },
        Leaf {
            member: 1,
            kind: second,
        },
    ];
    let output = Action::Output {
        port: to,
        max_len: 0,
    };
    let actions = List::from_slice(alloc, &[output])?;
    Ok(PhysEntry {
        m,
        priority,
        actions,
        ancestry: List::from_slice(alloc, &ancestry)?,
    })
}

/// The pair of these leaves, for packets of a port to the host or to the net.
fn add(
    alloc: Global,
    entries: &mut List<PhysEntry>,
    (port, host): (u16, bool),
    (priority, to): (u16, u16),
    kinds: (u64, u64),
) -> Result<(), Fail> {
    entries.push(pair(alloc, to_net(port, host), priority, to, kinds)?)?;
    Ok(())
}

/// The pairs of the monitor's entry for the net, at one port.
fn add_net(alloc: Global, entries: &mut List<PhysEntry>, port: u16) -> Result<(), Fail> {
    add(alloc, entries, (port, false), (9, 5), (3, 3))?;
    add(alloc, entries, (port, true), (11, 6), (3, 4))?;
    add(alloc, entries, (port, false), (6, 0xfffd), (3, 1))
}

/// The pairs of the monitor's entry for the net, at each port.
fn of_net(alloc: Global) -> Result<List<PhysEntry>, Fail> {
    let mut entries = List::new(alloc);
    for port in [4, 2, 3, 1] {
        add_net(alloc, &mut entries, port)?;
    }
    Ok(entries)
}

/// The pairs of its entry for the host, at one port.
fn add_host(alloc: Global, entries: &mut List<PhysEntry>, port: u16) -> Result<(), Fail> {
    add(alloc, entries, (port, true), (11, 5), (4, 3))?;
    add(alloc, entries, (port, true), (13, 6), (4, 4))?;
    add(alloc, entries, (port, false), (6, 5), (1, 3))
}

/// The pairs of its entry for the host, at each port.
fn of_host(alloc: Global) -> Result<List<PhysEntry>, Fail> {
    let mut entries = List::new(alloc);
    for port in [4, 2, 3, 1] {
        add_host(alloc, &mut entries, port)?;
    }
    Ok(entries)
}

/// Priority, port and cookie.
type Row = (u16, u16, u64);

/// Priority, port and cookie of each row.
fn shown(alloc: Global, rows: &List<Written>) -> Result<List<Row>, Fail> {
    let mut shown = List::new(alloc);
    for row in rows.as_slice() {
        let port = row.entry.m.in_port.unwrap_or(0);
        shown.push((row.entry.priority, port, row.cookie))?;
    }
    Ok(shown)
}

/// What a batch deletes and what it adds.
fn rows(alloc: Global, batch: &Batch) -> Result<(List<Row>, List<Row>), Fail> {
    let deletes = shown(alloc, &batch.deletes)?;
    Ok((deletes, shown(alloc, &batch.adds)?))
}

fn come_host(alloc: Global, table: &mut Installed) -> Result<Batch, Fail> {
    let host = of_host(alloc)?;
    Ok(table.change(&List::new(alloc), &host, 1)?)
}

fn come_net(alloc: Global, table: &mut Installed) -> Result<Batch, Fail> {
    let net = of_net(alloc)?;
    Ok(table.change(&List::new(alloc), &net, 13)?)
}

/// The net's pairs go. The batch is the result.
pub fn go_net(alloc: Global, table: &mut Installed) -> Result<Batch, Fail> {
    let net = of_net(alloc)?;
    Ok(table.change(&net, &List::new(alloc), 21)?)
}

/// All pairs come, with cookies from 1 on. The second change's batch is the result.
fn fill(alloc: Global, table: &mut Installed) -> Result<Batch, Fail> {
    drop(come_host(alloc, table)?);
    come_net(alloc, table)
}

/// A table of all pairs.
pub fn full(alloc: Global) -> Result<Installed, Fail> {
    let mut table = Installed::new(alloc);
    drop(fill(alloc, &mut table)?);
    Ok(table)
}

/// What the second change deletes and adds.
fn filled(alloc: Global) -> Result<(List<Row>, List<Row>), Fail> {
    let mut table = Installed::new(alloc);
    let batch = fill(alloc, &mut table)?;
    rows(alloc, &batch)
}

/// Whether these rows were deleted, and those added.
fn are_rows(rows: &(List<Row>, List<Row>), deletes: &[Row], adds: &[Row]) -> (bool, bool) {
    (rows.0.as_slice() == deletes, rows.1.as_slice() == adds)
}

/// The rows that the net's pairs take from the host's, and those of the net's pairs.
const TAKEN: [Row; 4] = [(11, 1, 5), (11, 2, 6), (11, 3, 7), (11, 4, 8)];

const OF_NET: [Row; 8] = [
    (9, 1, 13),
    (9, 2, 14),
    (9, 3, 15),
    (9, 4, 16),
    (11, 1, 17),
    (11, 2, 18),
    (11, 3, 19),
    (11, 4, 20),
];

fn is_filled(alloc: Global) -> Result<(bool, bool), Fail> {
    let rows = filled(alloc)?;
    let same = are_rows(&rows, &TAKEN, &OF_NET);
    drop(rows);
    Ok(same)
}

/// What the second change added: pairs of the net where none has their key, and where their ancestry
/// is the smaller one.
#[test]
fn a_smaller_ancestry_takes_the_key(rt: HostRuntime) -> Result<(), Fail> {
    let same = is_filled(rt.alloc())?;
    assert_eq!(rt; same, (true, true));
    Ok(())
}

/// What is deleted and added as the net's pairs go.
fn gone(alloc: Global, table: &mut Installed) -> Result<(List<Row>, List<Row>), Fail> {
    let batch = go_net(alloc, table)?;
    rows(alloc, &batch)
}

/// The rows of the host's pairs whose keys are free again.
const FREED: [Row; 4] = [(11, 1, 21), (11, 2, 22), (11, 3, 23), (11, 4, 24)];

/// Whether the net's pairs are deleted from a table, and those added whose keys are free.
fn is_gone(alloc: Global, table: &mut Installed) -> Result<(bool, bool), Fail> {
    let rows = gone(alloc, table)?;
    let same = are_rows(&rows, &OF_NET, &FREED);
    drop(rows);
    Ok(same)
}

fn is_gone_from_full(alloc: Global) -> Result<(bool, bool), Fail> {
    let mut table = full(alloc)?;
    let same = is_gone(alloc, &mut table);
    drop(table);
    same
}

/// The net's pairs go: eight deletes, and four adds of the pairs whose keys are free.
#[test]
fn a_key_goes_to_the_next_ancestry(rt: HostRuntime) -> Result<(), Fail> {
    let same = is_gone_from_full(rt.alloc())?;
    assert_eq!(rt; same, (true, true));
    Ok(())
}

/// Whether a change that was undone is made again as before.
fn is_made_again(alloc: Global, table: &mut Installed) -> Result<bool, Fail> {
    let first = go_net(alloc, table)?;
    table.undo();
    let second = go_net(alloc, table)?;
    Ok(first == second)
}

fn is_full_made_again(alloc: Global) -> Result<bool, Fail> {
    let mut table = full(alloc)?;
    let same = is_made_again(alloc, &mut table);
    drop(table);
    same
}

/// What is taken back is changed again as before.
#[test]
fn an_undone_change_is_made_again(rt: HostRuntime) -> Result<(), Fail> {
    let same = is_full_made_again(rt.alloc())?;
    assert!(rt; same);
    Ok(())
}

/// How many entries the installation adds.
fn count_adds(table: &mut Installed) -> Result<usize, Memory> {
    Ok(table.whole(100)?.adds.len())
}

/// How many entries are added, after which it is taken back.
fn count_of_full(alloc: Global) -> Result<usize, Fail> {
    let mut table = full(alloc)?;
    let count = count_adds(&mut table);
    table.undo();
    drop(table);
    Ok(count?)
}

/// The installation numbers all that stands, and can be taken back.
#[test]
fn all_is_installed(rt: HostRuntime) -> Result<(), Fail> {
    let count = count_of_full(rt.alloc())?;
    assert_eq!(rt; count, 16);
    Ok(())
}

/// A TCP packet of port 2 to a host of the net, or to the one host.
fn to(host: u32) -> Header {
    Header {
        in_port: 2,
        dl_src: 1,
        dl_dst: 2,
        dl_vlan: UNTAGGED,
        dl_vlan_pcp: 0,
        dl_type: IPV4,
        nw_tos: 0,
        nw_proto: TCP,
        nw_src: 0x0a00_0105,
        nw_dst: 0x0a00_0000 | host % 256,
        tp_src: 4000,
        tp_dst: 80,
    }
}

/// Priority and cookie of what a switch uses for a packet, zeros where it has nothing.
fn used(table: &Installed, header: &Header) -> Result<(u16, u64), Fail> {
    Ok(match table.best(header)? {
        Some(best) => (best.entry.priority, best.cookie),
        None => (0, 0),
    })
}

/// What is used for the host, and for another of the net.
fn used_of_both(table: &Installed) -> Result<((u16, u64), (u16, u64)), Fail> {
    let host = used(table, &to(1))?;
    Ok((host, used(table, &to(9))?))
}

/// The priorities of what a full table uses for them.
fn used_of_full(alloc: Global) -> Result<(u16, u16), Fail> {
    let table = full(alloc)?;
    let both = used_of_both(&table);
    drop(table);
    let (host, net) = both?;
    Ok((host.0, net.0))
}

/// What an empty table uses for the host.
fn used_of_empty(alloc: Global) -> Result<(u16, u64), Fail> {
    let empty = Installed::new(alloc);
    let used = used(&empty, &to(1));
    drop(empty);
    used
}

/// Of the entries that hold a packet the one of the greatest priority is used.
#[test]
fn the_greatest_priority_is_used(rt: HostRuntime) -> Result<(), Fail> {
    let full = used_of_full(rt.alloc())?;
    assert_eq!(rt; full, (13, 9));
    let empty = used_of_empty(rt.alloc())?;
    assert_eq!(rt; empty, (0, 0));
    Ok(())
}
