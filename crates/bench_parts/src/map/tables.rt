//! The members' tables.
ghost use Rattle.std.specs.Prelude.{◌<◌, ◌≤◌, IfOk};
ghost use Rattle.of10_actions.specs.Actions.{AreInRange};

use super::asked::Asked;
use super::fault::Fault;
use crate::nets::net;
use cv_io::{List, Memory};
use member_table::{Table, TableFault};
use of10_actions::{Action, port};
use of10_match::{Match, TCP};
use of10_msgs::{Command, FlowMod};
use std::alloc::Global;

/// How many entries a table may have.
const LIMIT: u32 = 4096;

/// How many priorities there are.
const PRIORITIES: u32 = 64;

/// Packets to the net of this number: of one port or of any, and of TCP or of any protocol.
fn to_net(number: u32) -> Match {
    Match {
        in_port: if number % 2 == 0 { Some(1) } else { None },
        dl_type: Some(0x0800),
        nw_proto: if number % 4 < 2 { Some(TCP) } else { None },
        nw_dst: Some(net(number)),
        ..Match::everything()
    }
}

/// The TCP port is set, and the packet passed on.
fn passing(alloc: Global, number: u32) -> Result<List<Action>, Memory>
    ensures { IfOk result AreInRange }
{
    let set = Action::SetTpDst {
        port: (8000 + number % 1000) as u16,
    };
    let pass = Action::Output {
        port: port::NORMAL,
        max_len: 0,
    };
    List::from_slice(alloc, &[set, pass])
}

/// The packet is sent to a port.
fn sending(alloc: Global, port: u16) -> Result<List<Action>, Memory>
    ensures { IfOk result AreInRange }
{
    let send = Action::Output { port, max_len: 0 };
    List::from_slice(alloc, &[send])
}

/// One of the four ports, or for each sixteenth entry the controller.
fn goal(number: u32) -> u16 {
    if number % 16 == 15 {
        port::CONTROLLER
    } else {
        (1 + number % 4) as u16
    }
}

/// What the entry of this number does: that of a member that passes packets on, or of another one.
fn actions(alloc: Global, number: u32, passes: bool) -> Result<List<Action>, Memory>
    ensures { IfOk result AreInRange }
{
    if passes {
        passing(alloc, number)
    } else {
        sending(alloc, goal(number))
    }
}

/// The message that adds the entry of this number.
fn message(alloc: Global, number: u32, passes: bool) -> Result<FlowMod, Memory>
    ensures { IfOk result (λ m. AreInRange m.actions) }
{
    let priority = (number % PRIORITIES) as u16 + 100;
    Ok(FlowMod {
        m: to_net(number).write(),
        cookie: u64::from(number),
        command: Command::Add.number(),
        idle_timeout: 0,
        hard_timeout: 0,
        priority,
        buffer_id: 0xffff_ffff,
        out_port: port::NONE,
        flags: 0,
        actions: actions(alloc, number, passes)?,
    })
}

/// Puts an entry into a table.
fn put(table: &mut Table, m: &FlowMod) -> Result<(), TableFault>
    requires { AreInRange m.now.actions }
{
    let change = table.plan(m, 0)?;
    table.commit(change);
    Ok(())
}

/// Puts so many entries into a table.
fn fill(alloc: Global, table: &mut Table, entries: u32, passes: bool) -> Result<(), TableFault> {
    for number in 0..entries {
        put(table, &message(alloc, number, passes)?)?;
    }
    Ok(())
}

fn table(alloc: Global, entries: u32, passes: bool) -> Result<Table, TableFault> {
    let mut table = Table::new(alloc, LIMIT);
    fill(alloc, &mut table, entries, passes)?;
    Ok(table)
}

/// The table of each member.
pub fn tables(alloc: Global, asked: &Asked) -> Result<List<Table>, Fault> {
    let count = asked.members.count();
    let mut tables = List::with_capacity(alloc, count as usize)?;
    for member in 0..count {
        tables.push(table(alloc, asked.entries, asked.members.passes(member))?)?;
    }
    Ok(tables)
}
