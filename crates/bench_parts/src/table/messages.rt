//! The messages that are sent.
ghost use Rattle.std.specs.Prelude.{◌<◌, IfOk};
ghost use Rattle.of10_actions.specs.Actions.{AreInRange};

use crate::nets::net;
use cv_io::{List, Memory};
use of10_actions::{Action, port};
use of10_match::Match;
use of10_msgs::{Command, FlowMod};
use std::alloc::Global;

/// Packets to the net of this number.
fn to_net(number: u16) -> Match {
    Match {
        dl_type: Some(0x0800),
        nw_dst: Some(net(u32::from(number))),
        ..Match::everything()
    }
}

/// A command for packets of a match at a priority, which sends them to the port of the command's number
/// and one.
fn message(
    alloc: Global,
    command: Command,
    priority: u16,
    packets: Match,
) -> Result<FlowMod, Memory>
    ensures { IfOk result (λ m. AreInRange m.actions) }
{
    let to = Action::Output {
        port: command.number().wrapping_add(1),
        max_len: 0,
    };
    Ok(FlowMod {
        m: packets.write(),
        cookie: u64::from(priority),
        command: command.number(),
        idle_timeout: 0,
        hard_timeout: 0,
        priority,
        buffer_id: 0xffff_ffff,
        out_port: port::NONE,
        flags: 0,
        actions: List::from_slice(alloc, &[to])?,
    })
}

/// A command for the entry of this number, whose priority is one of so many.
pub fn to_one(
    alloc: Global,
    command: Command,
    number: u16,
    priorities: u16,
) -> Result<FlowMod, Memory>
    requires { 0 < priorities }
    ensures { IfOk result (λ m. AreInRange m.actions) }
{
    let priority = (number % priorities).wrapping_add(100);
    message(alloc, command, priority, to_net(number))
}

/// A command for every entry.
pub fn to_all(alloc: Global, command: Command) -> Result<FlowMod, Memory>
    ensures { IfOk result (λ m. AreInRange m.actions) }
{
    message(alloc, command, 0, Match::everything())
}
