//! From frames to messages.
ghost use Rattle.std.specs.Prelude.{◌≡◌, ◌+◌, ◌*◌, ◌≤◌, ◌<◌, ◌^◌, ◌-◌, ◌/◌, IfOk, Some, true, length};
ghost use Rattle.of10_actions.specs.Reading.{reading as actions_in};
ghost use Rattle.of10_frames.specs.Frames.{IsFrame};
ghost use Rattle.of10_msgs.specs.Kinds.{is_among, lengths_of};
ghost use Rattle.of10_msgs.specs.Ranges.{IsMessage};
ghost use Rattle.of10_msgs.specs.Spelling.{Spells};
ghost use Rattle.of10_msgs.specs.Reading.{Gives, body_at, flow_mod_of, flow_removed_of, listed, packet_out_at};
ghost use Rattle.of10_msgs.specs.Reading.{packet_out_of, port_at as port_of, ports_at as ports_of, reading, typed};

use crate::fault::FormFault;
use crate::field::{array_at, match_at, rest_at};
use crate::kind::Kind;
use crate::message::{Body, FlowMod, Message, PacketOut, PhyPort};
use cv_io::{List, Memory};
use of10_actions::number::{u16_at, u32_at, u48_at, u64_at};
use of10_actions::{Action, ActionFault, read_list};
use of10_frames::{VERSION, length_of};
use std::alloc::Global;

/// How many bytes a port takes.
const PORT: usize = 48;

/// The message of a frame, or the first fault. Padding isn't looked at, and each match that is read
/// has zeros for it.
pub fn read_message(alloc: Global, frame: &[u8]) -> Result<Message, FormFault>
    requires { IsFrame frame.now }
    // Which message or which fault it is.
    ensures exact { Gives result (reading frame.now) }
    // What is read is spelled so, and can be written.
    ensures found { IfOk result (λ m. Spells m frame.now × IsMessage m) }
{
    read_frame(alloc, frame)
}

fn read_frame(alloc: Global, frame: &[u8]) -> Result<Message, FormFault>
    requires { IsFrame frame.now }
    ensures { Gives result (reading frame.now) }
{
    let version = frame[0];
    let number = frame[1];
    if version != VERSION && number != Kind::Hello.number() {
        return Err(FormFault::BadVersion { version });
    }
    match Kind::from_number(number) {
        None => Err(FormFault::BadType { kind: number }),
        Some(kind) => read_kind(alloc, kind, frame),
    }
}

/// The message of a type.
fn read_kind(alloc: Global, kind: Kind, frame: &[u8]) -> Result<Message, FormFault>
    requires { IsFrame frame.now }
    ensures { Gives result (typed (Some kind) frame.now) }
{
    let length = length_of(frame);
    if !kind.lengths().has(usize::from(length)) {
        return Err(FormFault::BadLen {
            kind: frame[1],
            length,
        });
    }
    let body = read_body(alloc, kind, frame)?;
    Ok(Message {
        xid: u32_at(frame, 4),
        body,
    })
}

/// The body of a message of a type that may have the frame's length.
fn read_body(alloc: Global, kind: Kind, frame: &[u8]) -> Result<Body, FormFault>
    requires long { is_among (lengths_of kind) (length frame.now) ≡ true }
    requires fits { length frame.now < 2 ^ 16 }
    ensures { Gives result (body_at kind frame.now) }
{
    let body = match kind {
        Kind::Vendor => return Err(FormFault::BadVendor),
        Kind::Hello => Body::Hello {
            bytes: rest_at(alloc, frame, 8)?,
        },
        Kind::Error => Body::Error {
            kind: u16_at(frame, 8),
            code: u16_at(frame, 10),
            bytes: rest_at(alloc, frame, 12)?,
        },
        Kind::EchoRequest => Body::EchoRequest {
            bytes: rest_at(alloc, frame, 8)?,
        },
        Kind::EchoReply => Body::EchoReply {
            bytes: rest_at(alloc, frame, 8)?,
        },
        Kind::FeaturesRequest => Body::FeaturesRequest,
        Kind::FeaturesReply => read_features_reply(alloc, frame)?,
        Kind::GetConfigRequest => Body::GetConfigRequest,
        Kind::GetConfigReply => Body::GetConfigReply {
            flags: u16_at(frame, 8),
            miss_send_len: u16_at(frame, 10),
        },
        Kind::SetConfig => Body::SetConfig {
            flags: u16_at(frame, 8),
            miss_send_len: u16_at(frame, 10),
        },
        Kind::PacketIn => Body::PacketIn {
            buffer_id: u32_at(frame, 8),
            total_len: u16_at(frame, 12),
            in_port: u16_at(frame, 14),
            reason: frame[16],
            bytes: rest_at(alloc, frame, 18)?,
        },
        Kind::FlowRemoved => read_flow_removed(frame),
        Kind::PortStatus => Body::PortStatus {
            reason: frame[8],
            port: port_at(frame, 16),
        },
        Kind::PacketOut => return read_packet_out(alloc, u16_at(frame, 14), frame),
        Kind::FlowMod => return read_flow_mod(alloc, frame),
        Kind::PortMod => Body::PortMod {
            bytes: rest_at(alloc, frame, 8)?,
        },
        Kind::StatsRequest => Body::StatsRequest {
            body: rest_at(alloc, frame, 8)?,
        },
        Kind::StatsReply => Body::StatsReply {
            body: rest_at(alloc, frame, 8)?,
        },
        Kind::BarrierRequest => Body::BarrierRequest,
        Kind::BarrierReply => Body::BarrierReply,
        Kind::QueueGetConfigRequest => Body::QueueGetConfigRequest {
            bytes: rest_at(alloc, frame, 8)?,
        },
        Kind::QueueGetConfigReply => Body::QueueGetConfigReply {
            bytes: rest_at(alloc, frame, 8)?,
        },
    };
    Ok(body)
}

#[tactic(auto, unfolding(crate::specs::Reading::features_reply_of))]
fn read_features_reply(alloc: Global, frame: &[u8]) -> Result<Body, Memory>
    requires { is_among (lengths_of Kind.FeaturesReply) (length frame.now) ≡ true }
    ensures { IfOk result (λ body. body_at Kind.FeaturesReply frame.now ≡ Ok body) }
{
    Ok(Body::FeaturesReply {
        datapath_id: u64_at(frame, 8),
        n_buffers: u32_at(frame, 16),
        n_tables: frame[20],
        capabilities: u32_at(frame, 24),
        actions: u32_at(frame, 28),
        ports: ports_at(alloc, (frame.len() - 32) / PORT, frame)?,
    })
}

/// So many ports of a FEATURES_REPLY.
fn ports_at(alloc: Global, count: usize, frame: &[u8]) -> Result<List<PhyPort>, Memory>
    requires { 32 + 48 * count ≤ length frame.now }
    ensures { IfOk result (λ ports. ports ≡ ports_of count 32 frame.now) }
{
    let mut ports = List::with_capacity(alloc, count)?;
    for place in 0..count {
        ports.push(port_at(frame, 32 + PORT * place))?;
    }
    Ok(ports)
}

#[tactic(auto, unfolding(crate::specs::Reading::port_at))]
fn port_at(frame: &[u8], at: usize) -> PhyPort
    requires { at + 48 ≤ length frame.now }
    ensures { result ≡ port_of at frame.now }
{
    PhyPort {
        port_no: u16_at(frame, at),
        hw_addr: u48_at(frame, at + 2),
        name: array_at(frame, at + 8),
        config: u32_at(frame, at + 24),
        state: u32_at(frame, at + 28),
        curr: u32_at(frame, at + 32),
        advertised: u32_at(frame, at + 36),
        supported: u32_at(frame, at + 40),
        peer: u32_at(frame, at + 44),
    }
}

#[tactic(auto, unfolding(crate::specs::Reading::flow_removed_of))]
fn read_flow_removed(frame: &[u8]) -> Body
    requires { length frame.now ≡ 88 }
    ensures { result ≡ flow_removed_of frame.now }
{
    Body::FlowRemoved {
        m: match_at(frame, 8),
        cookie: u64_at(frame, 48),
        priority: u16_at(frame, 56),
        reason: frame[58],
        duration_sec: u32_at(frame, 60),
        duration_nsec: u32_at(frame, 64),
        idle_timeout: u16_at(frame, 68),
        packet_count: u64_at(frame, 72),
        byte_count: u64_at(frame, 80),
    }
}

#[tactic(auto, unfolding(crate::specs::Reading::packet_out_at))]
fn read_packet_out(alloc: Global, actions_len: u16, frame: &[u8]) -> Result<Body, FormFault>
    requires room { 16 ≤ length frame.now }
    requires fits { length frame.now < 2 ^ 16 }
    ensures { Gives result (packet_out_at actions_len frame.now) }
{
    let end = 16 + usize::from(actions_len);
    if frame.len() < end {
        return Err(FormFault::BadLen {
            kind: Kind::PacketOut.number(),
            length: frame.len() as u16,
        });
    }
    let actions = read_actions(alloc, &frame[16..end])?;
    Ok(Body::PacketOut(packet_out(alloc, actions, end, frame)?))
}

#[tactic(auto, unfolding(crate::specs::Reading::packet_out_of))]
fn packet_out(
    alloc: Global,
    actions: List<Action>,
    end: usize,
    frame: &[u8],
) -> Result<PacketOut, Memory>
    requires room { 16 ≤ end }
    requires there { end ≤ length frame.now }
    ensures { IfOk result (λ out. out ≡ packet_out_of actions (end - 16) frame.now) }
{
    Ok(PacketOut {
        buffer_id: u32_at(frame, 8),
        in_port: u16_at(frame, 12),
        actions,
        bytes: rest_at(alloc, frame, end)?,
    })
}

fn read_flow_mod(alloc: Global, frame: &[u8]) -> Result<Body, FormFault>
    requires room { 72 ≤ length frame.now }
    requires fits { length frame.now < 2 ^ 16 }
    ensures { Gives result (body_at Kind.FlowMod frame.now) }
{
    let (_, bytes) = frame.split_at(72);
    let actions = read_actions(alloc, bytes)?;
    Ok(Body::FlowMod(flow_mod(actions, frame)))
}

#[tactic(auto, unfolding(crate::specs::Reading::flow_mod_of))]
fn flow_mod(actions: List<Action>, frame: &[u8]) -> FlowMod
    requires { 72 ≤ length frame.now }
    ensures { result ≡ flow_mod_of actions frame.now }
{
    FlowMod {
        m: match_at(frame, 8),
        cookie: u64_at(frame, 48),
        command: u16_at(frame, 56),
        idle_timeout: u16_at(frame, 58),
        hard_timeout: u16_at(frame, 60),
        priority: u16_at(frame, 62),
        buffer_id: u32_at(frame, 64),
        out_port: u16_at(frame, 68),
        flags: u16_at(frame, 70),
        actions,
    }
}

/// The actions of a message, or their fault as the message's.
fn read_actions(alloc: Global, bytes: &[u8]) -> Result<List<Action>, FormFault>
    requires { length bytes.now < 2 ^ 32 }
    ensures { Gives result (listed (actions_in bytes.now)) }
{
    match read_list(alloc, bytes) {
        Ok(actions) => Ok(actions),
        Err(ActionFault::Memory) => Err(FormFault::Memory),
        Err(fault) => Err(FormFault::Action { fault }),
    }
}
