//! Messages are checked.
ghost use Rattle.std.specs.Prelude.{◌≡◌, false, OnOk};
ghost use Rattle.std.specs.List.{list_any};
ghost use Rattle.of10_match.specs.Wildcards.{normal_of};
ghost use Rattle.grants.specs.Denials.{Answers};
ghost use Rattle.grants.specs.Granted.{IsGranted, IsGrantedOut};
ghost use Rattle.grants.specs.Rows.{buffer_row, command_row, emergency_row, entry_rows, first_of, flow_denial};
ghost use Rattle.grants.specs.Rows.{is_delete as is_delete_of, is_port_wrong as is_port_wrong_of};
ghost use Rattle.grants.specs.Rows.{is_to_table as is_to_table_of, kind_row, out_denial, packet_rows, when};

use crate::actions::check_actions;
use crate::bits::has_bit;
use crate::denial::{Denial, Detail, Why};
use crate::grant::{Grant, in_region, sees};
use crate::matches::{check_fields, check_in_port, check_region};
use of10_actions::port::{MAX, TABLE};
use of10_actions::{Action, PortView};
use of10_match::{Header, Match};
use of10_msgs::number::NO_BUFFER;
use of10_msgs::{FlowMod, PacketOut};

/// Refuses where a test holds.
pub(crate) fn deny_if(test: bool, detail: Detail) -> Result<(), Denial>
    ensures { Answers (when test detail) result }
{
    if test {
        Err(Denial::of(detail))
    } else {
        Ok(())
    }
}

/// The place of the flag EMERG.
const EMERG: u8 = 2;

/// The command of a FLOW_MOD is one.
fn check_command(command: u16) -> Result<(), Denial>
    ensures { Answers (command_row command) result }
{
    deny_if(command > 4, Detail::G1 { command })
}

/// An entry isn't for the emergency table.
fn check_flags(flags: u16) -> Result<(), Denial>
    ensures { Answers (emergency_row flags) result }
{
    deny_if(has_bit(u32::from(flags), EMERG), Detail::G2Emerg)
}

/// No buffer is named.
fn check_buffer(buffer: u32) -> Result<(), Denial>
    ensures { Answers (buffer_row buffer) result }
{
    deny_if(buffer != NO_BUFFER, Detail::G3 { buffer })
}

/// Whether a command is a DELETE.
fn is_delete(command: u16) -> bool
    ensures { result ≡ is_delete_of command }
{
    command == 3 || command == 4
}

/// What an entry may ask for and do.
fn check_entry(g: &Grant, v: &PortView, m: &Match, actions: &[Action]) -> Result<(), Denial>
    ensures { Answers (first_of (entry_rows g.now v.now m.now actions.now)) result }
{
    check_fields(g, m)?;
    check_region(g, m)?;
    check_in_port(g, m.in_port)?;
    check_actions(true, g, v, actions)
}

/// Whether a grant lets a FLOW_MOD through, at a virtual switch of which `v` holds all ports; the first
/// rule of G1 to G10 that refuses it. A DELETE meets G1 alone.
pub fn check_flow(g: &Grant, v: &PortView, m: &FlowMod) -> Result<(), Denial>
    ensures denied { Answers (flow_denial g.now v.now m.now) result }
    ensures granted { OnOk result (is_delete_of m.now.command ≡ false
        → IsGranted g.now v.now (normal_of m.now.m) m.now.actions) }
{
    check_command(m.command)?;
    if is_delete(m.command) {
        return Ok(());
    }
    check_flags(m.flags)?;
    check_buffer(m.buffer_id)?;
    let normal = of10_match::read(&m.m).normal;
    check_entry(g, v, &normal, m.actions.as_slice())
}

/// Whether an action is an output to TABLE.
fn is_to_table(action: &Action) -> bool
    ensures { result ≡ is_to_table_of action.now }
{
    matches!(action, Action::Output { port: TABLE, .. })
}

/// Whether one of these is an output to TABLE.
fn has_table(actions: &[Action]) -> bool
    ensures { result ≡ list_any is_to_table_of actions.now }
{
    actions.iter().any(|action| is_to_table(action))
}

/// Whether the in_port of a PACKET_OUT isn't visible, or is no port where TABLE needs one.
fn is_port_wrong(g: &Grant, m: &PacketOut) -> bool
    ensures { result ≡ is_port_wrong_of g.now m.now }
{
    if m.in_port < MAX {
        !sees(&g.ports, m.in_port)
    } else {
        has_table(m.actions.as_slice())
    }
}

/// A packet may be sent.
fn check_packet(g: &Grant, m: &PacketOut, h: &Header) -> Result<(), Denial>
    ensures { Answers (first_of (packet_rows g.now m.now h.now)) result }
{
    deny_if(!g.packet_out, Detail::G11 { why: Why::Grant })?;
    deny_if(is_port_wrong(g, m), Detail::G11 { why: Why::Port })?;
    deny_if(!in_region(g, h), Detail::G11 { why: Why::Region })
}

/// Whether a grant lets a PACKET_OUT through whose data has this header, at a virtual switch of which `v`
/// holds all ports; the first rule of G3 and G7 to G11 that refuses it.
pub fn check_out(g: &Grant, v: &PortView, m: &PacketOut, h: &Header) -> Result<(), Denial>
    ensures denied { Answers (out_denial g.now v.now m.now h.now) result }
    ensures granted { OnOk result (IsGrantedOut g.now v.now m.now h.now) }
{
    check_buffer(m.buffer_id)?;
    check_actions(false, g, v, m.actions.as_slice())?;
    check_packet(g, m, h)
}

/// Whether messages of a type are served at all: G2 refuses PORT_MOD and the messages on queues.
pub fn check_kind(kind: u8) -> Result<(), Denial>
    ensures { Answers (kind_row kind) result }
{
    deny_if(kind == 15 || kind == 20, Detail::G2Kind { kind })
}
