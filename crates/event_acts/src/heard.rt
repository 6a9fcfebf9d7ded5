//! What a frame of a switch tells, as the machine takes it.
ghost use Rattle.std.specs.Prelude.{◌≡◌, ◌≤◌, ◌<◌, ◌^◌, IfOk, length};
ghost use Rattle.of10_frames.specs.Frames.{IsFrame};
ghost use Rattle.of10_msgs.specs.Ranges.{CanWrite};
ghost use Rattle.of10_msgs.specs.Reading.{reading};
ghost use Rattle.of10_stats.specs.Reading.{reply_in};
ghost use Rattle.event_acts.specs.Heard.{IsHeard, body_heard, heard_in, part_heard, read_heard, reply_heard};
ghost use Rattle.machine_meaning.specs.SwitchMessages.{is_ignored as is_ignored_of};
ghost use Rattle.machine_meaning.specs.SwitchMessages.{is_passed_over as is_passed_over_of};

use cv_io::{Bytes, List, Memory};
use of10_frames::VERSION;
use of10_msgs::{Body, FormFault, Kind, Message, PhyPort, Sender, read_message};
use of10_stats::{FlowStat, PortStat, ReplyBody, StatsFault, StatsReply, read_reply};
use std::alloc::Global;

/// What a frame of a switch tells.
#[derive(Debug, Drop)]
pub enum Heard {
    /// Nothing that the machine looks at.
    Nothing,
    /// It can't be read.
    IllFormed,
    Error,
    EchoRequest {
        xid: u32,
        bytes: Bytes,
    },
    PacketIn {
        total_len: u16,
        in_port: u16,
        bytes: Bytes,
    },
    /// An entry was removed, with its last numbers.
    FlowRemoved {
        cookie: u64,
        packets: u64,
        bytes: u64,
    },
    PortStatus {
        reason: u8,
        port: PhyPort,
    },
    /// A part of an answer to a poll of entries.
    Flows {
        xid: u32,
        more: bool,
        entries: List<FlowStat>,
    },
    /// A part of an answer to a poll of ports.
    Ports {
        xid: u32,
        more: bool,
        ports: List<PortStat>,
    },
    BarrierReply {
        xid: u32,
    },
}

/// Whether a type is a vendor's, or one that only controllers send.
fn is_passed_over(kind: Option<Kind>) -> bool
    ensures { result ≡ is_passed_over_of kind }
{
    match kind {
        None => false,
        Some(Kind::Vendor) => true,
        Some(kind) => matches!(kind.sender(), Sender::Controller),
    }
}

/// Whether a frame is passed over, whatever its length and its body.
fn is_ignored(frame: &[u8]) -> bool
    requires { IsFrame frame.now }
    ensures { result ≡ is_ignored_of frame.now }
{
    frame[0] == VERSION && is_passed_over(Kind::from_number(frame[1]))
}

/// What a part of an answer tells.
fn in_part(xid: u32, reply: StatsReply) -> Heard
    ensures heard { result ≡ part_heard xid reply.more reply.body }
    ensures fits { IsHeard result }
{
    let more = reply.more;
    match reply.body {
        ReplyBody::Flow { entries } => Heard::Flows { xid, more, entries },
        ReplyBody::Port { ports } => Heard::Ports { xid, more, ports },
        _ => Heard::Nothing,
    }
}

/// What an answer to a poll tells.
fn in_reply(alloc: Global, xid: u32, body: &Bytes) -> Result<Heard, Memory>
    requires room { 4 ≤ length body.now }
    requires short { length body.now < 2 ^ 32 }
    ensures heard { IfOk result (λ heard. heard ≡ reply_heard xid (reply_in body.now)) }
    ensures fits { IfOk result IsHeard }
{
    match read_reply(alloc, body.as_slice()) {
        Ok(reply) => Ok(in_part(xid, reply)),
        Err(StatsFault::Memory) => Err(Memory),
        Err(_) => Ok(Heard::IllFormed),
    }
}

/// What a message tells.
#[tactic(auto, using(crate::proofs::Bodies::lengths))]
fn in_body(alloc: Global, xid: u32, body: Body) -> Result<Heard, Memory>
    requires { CanWrite body }
    ensures heard { IfOk result (λ heard. heard ≡ body_heard xid body) }
    ensures fits { IfOk result IsHeard }
{
    match body {
        Body::Error { .. } => Ok(Heard::Error),
        Body::EchoRequest { bytes } => Ok(Heard::EchoRequest { xid, bytes }),
        Body::PacketIn {
            total_len,
            in_port,
            bytes,
            ..
        } => {
            Ok(Heard::PacketIn {
                total_len,
                in_port,
                bytes,
            })
        }
        Body::FlowRemoved {
            cookie,
            packet_count,
            byte_count,
            ..
        } => {
            Ok(Heard::FlowRemoved {
                cookie,
                packets: packet_count,
                bytes: byte_count,
            })
        }
        Body::PortStatus { reason, port } => Ok(Heard::PortStatus { reason, port }),
        Body::StatsReply { body } => in_reply(alloc, xid, &body),
        Body::BarrierReply => Ok(Heard::BarrierReply { xid }),
        _other => Ok(Heard::Nothing),
    }
}

/// What a frame tells that isn't passed over.
fn in_frame(alloc: Global, frame: &[u8]) -> Result<Heard, Memory>
    requires { IsFrame frame.now }
    ensures heard { IfOk result (λ heard. heard ≡ read_heard (reading frame.now)) }
    ensures fits { IfOk result IsHeard }
{
    match read_message(alloc, frame) {
        Ok(Message { xid, body }) => in_body(alloc, xid, body),
        Err(FormFault::Memory) => Err(Memory),
        Err(_) => Ok(Heard::IllFormed),
    }
}

/// What a frame tells.
pub fn read_frame(alloc: Global, frame: &[u8]) -> Result<Heard, Memory>
    requires { IsFrame frame.now }
    ensures heard { IfOk result (λ heard. heard ≡ heard_in frame.now) }
    ensures fits { IfOk result IsHeard }
{
    if is_ignored(frame) {
        return Ok(Heard::Nothing);
    }
    in_frame(alloc, frame)
}
