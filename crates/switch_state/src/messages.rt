//! The messages that a switch is sent.
ghost use Rattle.std.specs.Prelude.{◌≡◌, ◌+◌, ◌<◌, ◌^◌, IfOk, length};
ghost use Rattle.of10_msgs.specs.Commands.{command_number};
ghost use Rattle.of10_stats.specs.Ranges.{CanWriteRequest};
ghost use Rattle.switch_state.specs.Messages.{addition as addition_of, delete_all as delete_all_of};
ghost use Rattle.switch_state.specs.Messages.{delete_strict as delete_strict_of, echo_reply as echo_reply_of};
ghost use Rattle.switch_state.specs.Messages.{flow_mod as flow_mod_of, flow_request as flow_request_of};
ghost use Rattle.switch_state.specs.Messages.{packet_out as packet_out_of, port_request as port_request_of};
ghost use Rattle.switch_state.specs.Messages.{stats_request as stats_request_of};

use cv_io::{Bytes, List, Memory};
use install_plan::Written;
use of10_actions::Action;
use of10_frames::HEADER;
use of10_match::Match;
use of10_msgs::number::{NO_BUFFER, SEND_FLOW_REM};
use of10_msgs::{Body, Command, FlowMod, Message, PacketOut, write_message};
use of10_stats::{StatsRequest, write_request};
use std::alloc::Global;
use switch_meaning::PhysEntry;

/// The port of no port (OFPP_NONE), which stands for all.
const NONE: u16 = 0xffff;

/// The table of all tables.
const ALL_TABLES: u8 = 0xff;

/// A FLOW_MOD as it is written to switches.
fn flow_mod(
    m: &Match,
    cookie: u64,
    command: Command,
    priority: u16,
    flags: u16,
    actions: List<Action>,
) -> FlowMod
    ensures { result ≡ flow_mod_of m.now cookie (command_number command) priority flags actions }
{
    FlowMod {
        m: m.write(),
        cookie,
        command: command.number(),
        idle_timeout: 0,
        hard_timeout: 0,
        priority,
        buffer_id: NO_BUFFER,
        out_port: NONE,
        flags,
        actions,
    }
}

/// The deletion of every entry.
pub(crate) fn delete_all(alloc: Global) -> Body
    ensures { result ≡ delete_all_of }
{
    let everything = Match::everything();
    Body::FlowMod(flow_mod(&everything, 0, Command::Delete, 0, 0, List::new(alloc)))
}

/// The deletion of an entry that stands.
pub(crate) fn delete_strict(alloc: Global, written: &Written) -> Body
    ensures { result ≡ delete_strict_of written.now }
{
    let Written { entry, cookie } = written;
    Body::FlowMod(flow_mod(
        &entry.m,
        *cookie,
        Command::DeleteStrict,
        entry.priority,
        0,
        List::new(alloc),
    ))
}

/// The addition of an entry, of which the switch is to tell when it goes.
pub(crate) fn addition(written: Written) -> Body
    ensures { result ≡ addition_of written }
{
    let Written { entry, cookie } = written;
    let PhysEntry {
        m,
        priority,
        actions,
        ..
    } = entry;
    Body::FlowMod(flow_mod(&m, cookie, Command::Add, priority, SEND_FLOW_REM, actions))
}

/// A request for statistics, as a body.
fn stats_request(alloc: Global, request: &StatsRequest) -> Result<Body, Memory>
    requires { CanWriteRequest request.now }
    ensures { IfOk result (λ body. body ≡ stats_request_of request.now) }
{
    let message = write_request(alloc, request, 0)?;
    let body = Bytes::from_slice(alloc, &message.as_slice()[HEADER..])?;
    Ok(Body::StatsRequest { body })
}

/// The request for the numbers of all entries of a switch.
pub(crate) fn flow_request(alloc: Global) -> Result<Body, Memory>
    ensures { IfOk result (λ body. body ≡ flow_request_of) }
{
    let request = StatsRequest::Flow {
        m: Match::everything().write(),
        table_id: ALL_TABLES,
        out_port: NONE,
    };
    stats_request(alloc, &request)
}

/// The request for the numbers of all ports of a switch.
pub(crate) fn port_request(alloc: Global) -> Result<Body, Memory>
    ensures { IfOk result (λ body. body ≡ port_request_of) }
{
    stats_request(alloc, &StatsRequest::Port { port_no: NONE })
}

/// A packet that is to leave by a port.
pub(crate) fn packet_out(alloc: Global, port: u16, bytes: Bytes) -> Result<Body, Memory>
    ensures { IfOk result (λ body. body ≡ packet_out_of port bytes) }
{
    let mut actions = List::new(alloc);
    actions.push(Action::Output { port, max_len: 0 })?;
    Ok(Body::PacketOut(PacketOut {
        buffer_id: NO_BUFFER,
        in_port: NONE,
        actions,
        bytes,
    }))
}

/// The answer to an ECHO_REQUEST. It has the request's xid, and takes none of the round.
pub fn echo_reply(alloc: Global, xid: u32, bytes: Bytes) -> Result<Bytes, Memory>
    requires { 8 + length bytes < 2 ^ 16 }
    ensures { IfOk result (λ message. message ≡ echo_reply_of xid bytes) }
{
    write_message(
        alloc,
        &Message {
            xid,
            body: Body::EchoReply { bytes },
        },
    )
}
