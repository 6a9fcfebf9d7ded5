//! The flow table of one member: its commands, its timeouts, and what is found in it.
ghost use Rattle.std.specs.Prelude.{IfOk};
ghost use Rattle.of10_actions.specs.Actions.{AreInRange};

use cv_io::{Duplicate, List};
use member_table::{Due, Entry, Table, TableFault};
use of10_actions::{Action, port};
use of10_match::Header;
use of10_match::ofp_match::{OfpMatch, wildcard};
use of10_msgs::{FlowMod, MATCH};
use std::alloc::Global;
use std::test::Fail;

const ADD: u16 = 0;

const MODIFY: u16 = 1;

const MODIFY_STRICT: u16 = 2;

const DELETE: u16 = 3;

const DELETE_STRICT: u16 = 4;

/// The match of an in_port, or of everything.
fn from_port(in_port: Option<u16>) -> [u8; MATCH] {
    let named = if in_port.is_some() {
        wildcard::ALL - 1
    } else {
        wildcard::ALL
    };
    OfpMatch {
        wildcards: named,
        in_port: in_port.unwrap_or(0),
        dl_src: 0,
        dl_dst: 0,
        dl_vlan: 0,
        dl_vlan_pcp: 0,
        dl_type: 0,
        nw_tos: 0,
        nw_proto: 0,
        nw_src: 0,
        nw_dst: 0,
        tp_src: 0,
        tp_dst: 0,
    }
    .to_bytes()
}

/// A message that sends packets of a match to a port.
fn message(
    alloc: Global,
    command: u16,
    priority: u16,
    m: [u8; MATCH],
    output: u16,
    out_port: u16,
) -> Result<FlowMod, Fail>
    ensures { IfOk result (λ m. AreInRange m.actions) }
{
    let to = Action::Output {
        port: output,
        max_len: 0,
    };
    Ok(FlowMod {
        m,
        cookie: u64::from(priority),
        command,
        idle_timeout: 0,
        hard_timeout: 0,
        priority,
        buffer_id: 0xffff_ffff,
        out_port,
        flags: 0,
        actions: List::from_slice(alloc, &[to])?,
    })
}

/// Plans a message and makes the change.
fn apply(table: &mut Table, m: &FlowMod, now: u64) -> Result<(), TableFault>
    requires { AreInRange m.now.actions }
{
    let change = table.plan(m, now)?;
    table.commit(change);
    Ok(())
}

/// An entry as its number and the port that it sends to.
fn one_shown(alloc: Global, entry: &Entry) -> Result<String, Fail> {
    let to = match entry.actions.get(0) {
        Some(Action::Output { port, .. }) => *port,
        _ => 0,
    };
    Ok(format!(in alloc; " {}>{to}", entry.serial)?)
}

/// The entries as their numbers and the ports that they send to.
fn shown(alloc: Global, table: &Table) -> Result<String, Fail> {
    let mut text = String::new(alloc);
    for place in 0..table.len() {
        if let Some(entry) = table.at(place) {
            text.push_str(one_shown(alloc, entry)?.as_str())?;
        }
    }
    Ok(text)
}

const SIX: &[(u16, Option<u16>, u16)] = &[
    (10, Some(1), 1),
    (10, Some(2), 2),
    (20, Some(1), 3),
    (30, None, 4),
    (5, Some(3), 1),
    (5, Some(4), port::FLOOD),
];

/// Adds an entry of a priority and an in_port, which sends to a port.
fn add(alloc: Global, table: &mut Table, row: (u16, Option<u16>, u16)) -> Result<(), Fail> {
    let (priority, in_port, output) = row;
    let m = message(alloc, ADD, priority, from_port(in_port), output, port::NONE)?;
    Ok(apply(table, &m, 7)?)
}

/// Adds the six entries.
fn add_six(alloc: Global, table: &mut Table) -> Result<(), Fail> {
    for row in SIX {
        add(alloc, table, *row)?;
    }
    Ok(())
}

/// A message to the six entries in a table of six: the command, the priority, the in_port and the
/// out_port.
#[derive(Clone, Copy)]
struct Row(u16, u16, Option<u16>, u16);

/// Changes a table by the message of a row, and shows it, or why the message is refused.
fn changed(alloc: Global, table: &mut Table, row: Row) -> Result<String, Fail> {
    let Row(command, priority, in_port, out_port) = row;
    let m = message(alloc, command, priority, from_port(in_port), 9, out_port)?;
    match apply(table, &m, 8) {
        Ok(()) => shown(alloc, table),
        Err(fault) => Ok(format!(in alloc; "{fault}")?),
    }
}

/// Adds the six entries, and changes them.
fn six_changed(alloc: Global, table: &mut Table, row: Row) -> Result<String, Fail> {
    add_six(alloc, table)?;
    changed(alloc, table, row)
}

/// What a message makes of the six entries.
fn shown_after(alloc: Global, row: Row) -> Result<String, Fail> {
    let mut table = Table::new(alloc, 6);
    let shown = six_changed(alloc, &mut table, row);
    drop(table);
    shown
}

const ROWS: &[(Row, &str)] = &[
    (
        Row(ADD, 10, Some(2), port::NONE),
        " 1>1 7>9 3>3 4>4 5>1 6>65531",
    ),
    (
        Row(MODIFY, 0, Some(1), port::NONE),
        " 1>9 2>2 3>9 4>4 5>1 6>65531",
    ),
    (
        Row(MODIFY_STRICT, 20, Some(1), port::NONE),
        " 1>1 2>2 3>9 4>4 5>1 6>65531",
    ),
    (Row(DELETE, 0, None, 1), " 2>2 3>3 4>4 6>65531"),
    (
        Row(DELETE_STRICT, 30, None, port::NONE),
        " 1>1 2>2 3>3 5>1 6>65531",
    ),
    (
        Row(ADD, 10, None, port::NONE),
        "the entry 1 has the same rank and overlaps",
    ),
    (
        Row(ADD, 10, Some(5), port::NONE),
        "the table holds its limit of 6 entries",
    ),
];

#[test]
fn five_commands_over_six_entries(rt: HostRuntime) -> Result<(), Fail> {
    for (row, want) in ROWS {
        let got = shown_after(rt.alloc(), *row)?;
        assert_eq!(rt; got.as_str(), *want);
    }
    Ok(())
}

/// Adds an entry at 100, of a priority, an idle and a hard timeout.
fn add_timed(alloc: Global, table: &mut Table, row: (u16, u16, u16)) -> Result<(), Fail> {
    let (priority, idle_timeout, hard_timeout) = row;
    let mut m = message(alloc, ADD, priority, from_port(None), 1, port::NONE)?;
    m.idle_timeout = idle_timeout;
    m.hard_timeout = hard_timeout;
    Ok(apply(table, &m, 100)?)
}

/// The priority, the idle and the hard timeout of three entries.
const TIMED: &[(u16, u16, u16)] = &[(1, 0, 10), (2, 5, 0), (4, 5, 5)];

/// Adds the three entries at 100.
fn add_three(alloc: Global, table: &mut Table) -> Result<(), Fail> {
    for row in TIMED {
        add_timed(alloc, table, *row)?;
    }
    Ok(())
}

/// The numbers that are due, by their hard timeouts and by their idle ones.
fn due(alloc: Global, table: &Table, now: u64) -> Result<String, Fail> {
    let Due { hard, idle } = table.due(now)?;
    Ok(format!(in alloc; "{:?} {:?}", hard.as_slice(), idle.as_slice())?)
}

/// The same of three entries in the table, once the second has had a packet.
fn three_due(alloc: Global, table: &mut Table, touched: u64, now: u64) -> Result<String, Fail> {
    add_three(alloc, table)?;
    table.touch(2, touched);
    due(alloc, table, now)
}

/// The same, in a table of its own.
fn due_shown(alloc: Global, touched: u64, now: u64) -> Result<String, Fail> {
    let mut table = Table::new(alloc, 3);
    let shown = three_due(alloc, &mut table, touched, now);
    drop(table);
    shown
}

/// When the second entry has its packet, the time, and what is due then.
const TIMES: &[(u64, u64, &str)] = &[
    (100, 104, "[] []"),
    (100, 105, "[3] [2]"),
    (106, 110, "[1, 3] []"),
];

#[test]
fn timeouts_are_due_at_their_second(rt: HostRuntime) -> Result<(), Fail> {
    for (touched, now, want) in TIMES {
        let got = due_shown(rt.alloc(), *touched, *now)?;
        assert_eq!(rt; got.as_str(), *want);
    }
    Ok(())
}

/// A packet of ARP that comes by port 1.
fn packet() -> Header {
    Header {
        in_port: 1,
        dl_src: 1,
        dl_dst: 2,
        dl_vlan: 65535,
        dl_vlan_pcp: 0,
        dl_type: 0x0806,
        nw_tos: 0,
        nw_proto: 1,
        nw_src: 3,
        nw_dst: 4,
        tp_src: 0,
        tp_dst: 0,
    }
}

/// What is found in a table: the best entry of the packet, whether rank 30 is there, and the priority
/// of the entry of number 5.
fn found(alloc: Global, table: &Table) -> Result<String, Fail> {
    let best = table.best(&packet()).unwrap_or(0);
    let priority = table.get(5).map_or(0, |entry| entry.priority);
    Ok(format!(in alloc; "{best} {} {priority}", table.has_rank(30))?)
}

/// Adds the six entries, and says what is found in a copy of them without one.
fn found_in_copy(alloc: Global, table: &mut Table, serial: u64) -> Result<String, Fail> {
    add_six(alloc, table)?;
    let mut copied = table.copy()?;
    copied.drop_serial(serial);
    let found = found(alloc, &copied);
    drop(copied);
    found
}

/// What is found in a copy of the six entries without one of them.
fn found_without(alloc: Global, serial: u64) -> Result<String, Fail> {
    let mut table = Table::new(alloc, 6);
    let found = found_in_copy(alloc, &mut table, serial);
    drop(table);
    found
}

/// The number of the entry that is left out, and what is found then.
const WITHOUT: &[(u64, &str)] = &[(0, "4 true 5"), (4, "3 false 5"), (5, "4 true 0")];

#[test]
fn entries_are_found(rt: HostRuntime) -> Result<(), Fail> {
    for (serial, want) in WITHOUT {
        let got = found_without(rt.alloc(), *serial)?;
        assert_eq!(rt; got.as_str(), *want);
    }
    Ok(())
}
