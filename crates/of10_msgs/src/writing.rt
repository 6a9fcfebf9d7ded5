//! From messages to bytes.
ghost use Rattle.std.specs.Prelude.{◌≡◌, ◌↔◌, ◌++◌, ◌∷◌, ◌-◌, ◌<◌, ◌^◌, [], All, IfOk, IsTrue, OnOk, length, min};
ghost use Rattle.std.specs.List.{flat_map};
ghost use Rattle.byteorder.specs.Endian.{big_bytes};
ghost use Rattle.of10_actions.specs.Spelling.{spellings};
ghost use Rattle.of10_msgs.specs.Ranges.{CanWrite, FitsTypes, FlowModFits, HasAddress, IsClear, IsInRange};
ghost use Rattle.of10_msgs.specs.Ranges.{PacketOutFits, PortFits};
ghost use Rattle.of10_msgs.specs.Reading.{reading};
ghost use Rattle.of10_msgs.specs.Spelling.{body_bytes, flow_mod_fields as flow_mod_fields_of};
ghost use Rattle.of10_msgs.specs.Spelling.{packet_out_fields as packet_out_fields_of, port_bytes, spelling};

use crate::field::cleared;
use crate::message::{Body, FlowMod, MATCH, Message, PacketOut, PhyPort};
use byteorder::{BigEndian, ByteOrder};
use cv_io::{Bytes, List, Memory};
use of10_actions::{are_in_range, list_length, write_actions};
use of10_frames::{HEADER, header};
use std::alloc::Global;

/// Whether the message can be written: its length is one of its type's, and its parts are in range.
pub fn fits(m: &Message) -> bool
    ensures { IsTrue result ↔ CanWrite m.now.body }
{
    let length = body_length(&m.body).saturating_add(HEADER);
    length < 65_536 && m.body.kind().lengths().has(length) && is_in_range(&m.body)
}

/// Whether Ethernet addresses, matches and actions are in their ranges.
fn is_in_range(body: &Body) -> bool
    ensures { IsTrue result ↔ IsInRange body.now }
{
    match body {
        Body::FeaturesReply { ports, .. } => {
            ports.as_slice().iter().all(|port| has_address(port))
        }
        Body::PortStatus { port, .. } => has_address(port),
        Body::FlowRemoved { m, .. } => is_clear(m),
        Body::PacketOut(p) => are_in_range(&p.actions),
        Body::FlowMod(f) => is_clear(&f.m) && are_in_range(&f.actions),
        _ => true,
    }
}

fn has_address(port: &PhyPort) -> bool
    ensures { IsTrue result ↔ HasAddress port.now }
{
    port.hw_addr < 1 << 48
}

/// Whether the padding of a match is zero.
fn is_clear(m: &[u8; MATCH]) -> bool
    ensures { IsTrue result ↔ IsClear m.now }
{
    cleared(*m) == *m
}

/// The bytes of a message, with zero padding. `fits` tells which can be written.
pub fn write_message(alloc: Global, m: &Message) -> Result<Bytes, Memory>
    requires { CanWrite m.now.body }
    ensures written { IfOk result (λ bytes. bytes ≡ spelling m.now) }
    ensures reads_back { IfOk result (λ bytes. reading bytes ≡ Ok m.now) }
{
    let Message { xid, .. } = *m;
    let length = HEADER + body_length(&m.body);
    let mut out = Bytes::with_capacity(alloc, length)?;
    out.extend_from_slice(&header(m.body.kind().number(), length as u16, xid))?;
    write_body(&m.body, &mut out)?;
    Ok(out)
}

/// How many bytes follow the header, at most the greatest usize.
#[tactic(auto, unfolding(crate::specs::Spelling::body_bytes, crate::specs::Spelling::flow_mod_fields, crate::specs::Spelling::packet_out_fields, crate::specs::Spelling::port_bytes))]
fn body_length(body: &Body) -> usize
    ensures { result ≡ min (length (body_bytes body.now)) (2 ^ 64 - 1) }
{
    match body {
        Body::FeaturesRequest
        | Body::GetConfigRequest
        | Body::BarrierRequest
        | Body::BarrierReply => 0,
        Body::GetConfigReply { .. } | Body::SetConfig { .. } => 4,
        Body::Hello { bytes }
        | Body::EchoRequest { bytes }
        | Body::EchoReply { bytes }
        | Body::PortMod { bytes }
        | Body::StatsRequest { body: bytes }
        | Body::StatsReply { body: bytes }
        | Body::QueueGetConfigRequest { bytes }
        | Body::QueueGetConfigReply { bytes } => bytes.len(),
        Body::Error { bytes, .. } => bytes.len().saturating_add(4),
        Body::FeaturesReply { ports, .. } => ports_length(ports).saturating_add(24),
        Body::PacketIn { bytes, .. } => bytes.len().saturating_add(10),
        Body::FlowRemoved { m, .. } => match_length(m) + 40,
        Body::PortStatus { port, .. } => 8 + port_length(port),
        Body::PacketOut(p) => list_length(&p.actions)
            .saturating_add(p.bytes.len())
            .saturating_add(8),
        Body::FlowMod(f) => list_length(&f.actions).saturating_add(match_length(&f.m) + 24),
    }
}

fn match_length(m: &[u8; MATCH]) -> usize
    ensures value { result ≡ length m.now }
    ensures size { length m.now ≡ 40 }
{
    m.len()
}

/// How many bytes ports take, at most the greatest usize.
fn ports_length(ports: &List<PhyPort>) -> usize
    ensures { result ≡ min (length (flat_map port_bytes ports.now)) (2 ^ 64 - 1) }
{
    let mut total: usize = 0;
    for port in ports.as_slice() {
        total = total.saturating_add(port_length(port));
    }
    total
}

#[tactic(auto, unfolding(crate::specs::Spelling::port_bytes))]
fn port_length(port: &PhyPort) -> usize
    ensures value { result ≡ length (port_bytes port.now) }
    ensures size { result ≡ 48 }
{
    32 + port.name.len()
}

/// Appends what follows the header.
#[tactic(auto, unfolding(crate::specs::Spelling::body_bytes))]
fn write_body(body: &Body, out: &mut Bytes) -> Result<(), Memory>
    requires in_range { IsInRange body.now }
    requires fits { length (body_bytes body.now) < 2 ^ 16 }
    ensures written { OnOk result (out.new ≡ out.old ++ body_bytes body.now) }
    // True of every body of the type; the laws of the grammar ask for it.
    ensures types { OnOk result (FitsTypes body.now) }
{
    match body {
        Body::FeaturesRequest
        | Body::GetConfigRequest
        | Body::BarrierRequest
        | Body::BarrierReply => Ok(()),
        Body::Hello { bytes }
        | Body::EchoRequest { bytes }
        | Body::EchoReply { bytes }
        | Body::PortMod { bytes }
        | Body::StatsRequest { body: bytes }
        | Body::StatsReply { body: bytes }
        | Body::QueueGetConfigRequest { bytes }
        | Body::QueueGetConfigReply { bytes } => out.extend_from_slice(bytes.as_slice()),
        Body::Error { kind, code, bytes } => {
            out.extend_from_slice(&two_u16(*kind, *code))?;
            out.extend_from_slice(bytes.as_slice())
        }
        Body::GetConfigReply {
            flags,
            miss_send_len,
        }
        | Body::SetConfig {
            flags,
            miss_send_len,
        } => out.extend_from_slice(&two_u16(*flags, *miss_send_len)),
        Body::FeaturesReply {
            datapath_id,
            n_buffers,
            n_tables,
            capabilities,
            actions,
            ports,
        } => {
            out.extend_from_slice(&features_head(*datapath_id, *n_buffers, *n_tables))?;
            out.extend_from_slice(&two_u32(*capabilities, *actions))?;
            write_ports(ports, out)?;
            Ok(())
        }
        Body::PacketIn {
            buffer_id,
            total_len,
            in_port,
            reason,
            bytes,
        } => {
            out.extend_from_slice(&packet_in_head(*buffer_id, *total_len, *in_port, *reason))?;
            out.extend_from_slice(bytes.as_slice())
        }
        Body::FlowRemoved {
            m,
            cookie,
            priority,
            reason,
            duration_sec,
            duration_nsec,
            idle_timeout,
            packet_count,
            byte_count,
        } => {
            out.extend_from_slice(m)?;
            out.extend_from_slice(&removed_entry(*cookie, *priority, *reason))?;
            out.extend_from_slice(&removed_times(*duration_sec, *duration_nsec, *idle_timeout))?;
            out.extend_from_slice(&two_u64(*packet_count, *byte_count))?;
            Ok(())
        }
        Body::PortStatus { reason, port } => {
            out.extend_from_slice(&[*reason, 0, 0, 0, 0, 0, 0, 0])?;
            write_port(port, out)
        }
        Body::PacketOut(p) => write_packet_out(p, out),
        Body::FlowMod(f) => write_flow_mod(f, out),
    }
}

/// Appends the ports of a FEATURES_REPLY.
fn write_ports(ports: &List<PhyPort>, out: &mut Bytes) -> Result<(), Memory>
    requires { All HasAddress ports.now }
    ensures written { OnOk result (out.new ≡ out.old ++ flat_map port_bytes ports.now) }
    ensures types { OnOk result (All PortFits ports.now) }
{
    for port in ports.as_slice() {
        write_port(port, out)?;
    }
    Ok(())
}

#[tactic(auto, unfolding(crate::specs::Spelling::port_bytes))]
fn write_port(port: &PhyPort, out: &mut Bytes) -> Result<(), Memory>
    requires { HasAddress port.now }
    ensures written { OnOk result (out.new ≡ out.old ++ port_bytes port.now) }
    ensures types { OnOk result (PortFits port.now) }
{
    out.extend_from_slice(&port_head(port.port_no, port.hw_addr))?;
    out.extend_from_slice(&port.name)?;
    out.extend_from_slice(&two_u32(port.config, port.state))?;
    out.extend_from_slice(&two_u32(port.curr, port.advertised))?;
    out.extend_from_slice(&two_u32(port.supported, port.peer))?;
    Ok(())
}

#[tactic(auto, unfolding(crate::specs::Spelling::body_bytes))]
fn write_packet_out(p: &PacketOut, out: &mut Bytes) -> Result<(), Memory>
    requires in_range { IsInRange (Body.PacketOut p.now) }
    requires fits { length (spellings p.now.actions) < 2 ^ 16 }
    ensures written { OnOk result (out.new ≡ out.old ++ body_bytes (Body.PacketOut p.now)) }
    ensures types { OnOk result (PacketOutFits p.now) }
{
    out.extend_from_slice(&packet_out_fields(p, list_length(&p.actions) as u16))?;
    write_actions(&p.actions, out)?;
    out.extend_from_slice(p.bytes.as_slice())
}

#[tactic(auto, unfolding(crate::specs::Spelling::body_bytes))]
fn write_flow_mod(f: &FlowMod, out: &mut Bytes) -> Result<(), Memory>
    requires { IsInRange (Body.FlowMod f.now) }
    ensures written { OnOk result (out.new ≡ out.old ++ body_bytes (Body.FlowMod f.now)) }
    ensures types { OnOk result (FlowModFits f.now) }
{
    out.extend_from_slice(&f.m)?;
    out.extend_from_slice(&flow_mod_fields(f))?;
    write_actions(&f.actions, out)
}

#[tactic(auto, unfolding(crate::specs::Spelling::flow_mod_fields))]
fn flow_mod_fields(f: &FlowMod) -> [u8; 24]
    ensures value { result ≡ flow_mod_fields_of f.now }
    ensures long { (f.now.cookie < 2 ^ 64) × (f.now.buffer_id < 2 ^ 32) × (f.now.command < 2 ^ 16)
        × (f.now.priority < 2 ^ 16) }
    ensures short { (f.now.idle_timeout < 2 ^ 16) × (f.now.hard_timeout < 2 ^ 16) × (f.now.out_port < 2 ^ 16)
        × (f.now.flags < 2 ^ 16) }
{
    let FlowMod {
        cookie,
        command,
        idle_timeout,
        hard_timeout,
        priority,
        buffer_id,
        out_port,
        flags,
        ..
    } = *f;
    let mut bytes = [0; 24];
    BigEndian::write_u64(&mut bytes, cookie);
    BigEndian::write_u16(&mut bytes[8..], command);
    BigEndian::write_u16(&mut bytes[10..], idle_timeout);
    BigEndian::write_u16(&mut bytes[12..], hard_timeout);
    BigEndian::write_u16(&mut bytes[14..], priority);
    BigEndian::write_u32(&mut bytes[16..], buffer_id);
    BigEndian::write_u16(&mut bytes[20..], out_port);
    BigEndian::write_u16(&mut bytes[22..], flags);
    bytes
}

#[tactic(auto, unfolding(crate::specs::Spelling::packet_out_fields))]
fn packet_out_fields(p: &PacketOut, actions_len: u16) -> [u8; 8]
    ensures value { result ≡ packet_out_fields_of p.now actions_len }
    ensures types { (p.now.buffer_id < 2 ^ 32) × (p.now.in_port < 2 ^ 16) }
{
    let PacketOut {
        buffer_id,
        in_port,
        ..
    } = *p;
    let mut bytes = [0; 8];
    BigEndian::write_u32(&mut bytes, buffer_id);
    BigEndian::write_u16(&mut bytes[4..], in_port);
    BigEndian::write_u16(&mut bytes[6..], actions_len);
    bytes
}

/// A FEATURES_REPLY up to its capabilities.
fn features_head(datapath_id: u64, n_buffers: u32, n_tables: u8) -> [u8; 16]
    ensures { result ≡ big_bytes 8 datapath_id ++ (big_bytes 4 n_buffers ++ n_tables ∷ 0 ∷ 0 ∷ 0 ∷ []) }
{
    let mut bytes = [0; 16];
    BigEndian::write_u64(&mut bytes, datapath_id);
    BigEndian::write_u32(&mut bytes[8..], n_buffers);
    bytes[12] = n_tables;
    bytes
}

/// A PACKET_IN up to its data.
fn packet_in_head(buffer_id: u32, total_len: u16, in_port: u16, reason: u8) -> [u8; 10]
    ensures { result ≡ big_bytes 4 buffer_id ++ (big_bytes 2 total_len ++ (big_bytes 2 in_port ++ reason ∷ 0 ∷ [])) }
{
    let mut bytes = [0; 10];
    BigEndian::write_u32(&mut bytes, buffer_id);
    BigEndian::write_u16(&mut bytes[4..], total_len);
    BigEndian::write_u16(&mut bytes[6..], in_port);
    bytes[8] = reason;
    bytes
}

/// What a FLOW_REMOVED says of the entry, after its match.
fn removed_entry(cookie: u64, priority: u16, reason: u8) -> [u8; 12]
    ensures { result ≡ big_bytes 8 cookie ++ (big_bytes 2 priority ++ reason ∷ 0 ∷ []) }
{
    let mut bytes = [0; 12];
    BigEndian::write_u64(&mut bytes, cookie);
    BigEndian::write_u16(&mut bytes[8..], priority);
    bytes[10] = reason;
    bytes
}

/// How long the entry of a FLOW_REMOVED was there, and its timeout.
fn removed_times(duration_sec: u32, duration_nsec: u32, idle_timeout: u16) -> [u8; 12]
    ensures { result ≡ big_bytes 4 duration_sec
        ++ (big_bytes 4 duration_nsec ++ (big_bytes 2 idle_timeout ++ 0 ∷ 0 ∷ [])) }
{
    let mut bytes = [0; 12];
    BigEndian::write_u32(&mut bytes, duration_sec);
    BigEndian::write_u32(&mut bytes[4..], duration_nsec);
    BigEndian::write_u16(&mut bytes[8..], idle_timeout);
    bytes
}

/// A port's number and Ethernet address.
fn port_head(port_no: u16, hw_addr: u64) -> [u8; 8]
    requires { hw_addr < 2 ^ 48 }
    ensures { result ≡ big_bytes 2 port_no ++ big_bytes 6 hw_addr }
{
    let mut bytes = [0; 8];
    BigEndian::write_u16(&mut bytes, port_no);
    BigEndian::write_u48(&mut bytes[2..], hw_addr);
    bytes
}

fn two_u16(first: u16, second: u16) -> [u8; 4]
    ensures { result ≡ big_bytes 2 first ++ big_bytes 2 second }
{
    let mut bytes = [0; 4];
    BigEndian::write_u16(&mut bytes, first);
    BigEndian::write_u16(&mut bytes[2..], second);
    bytes
}

fn two_u32(first: u32, second: u32) -> [u8; 8]
    ensures { result ≡ big_bytes 4 first ++ big_bytes 4 second }
{
    let mut bytes = [0; 8];
    BigEndian::write_u32(&mut bytes, first);
    BigEndian::write_u32(&mut bytes[4..], second);
    bytes
}

fn two_u64(first: u64, second: u64) -> [u8; 16]
    ensures { result ≡ big_bytes 8 first ++ big_bytes 8 second }
{
    let mut bytes = [0; 16];
    BigEndian::write_u64(&mut bytes, first);
    BigEndian::write_u64(&mut bytes[8..], second);
    bytes
}
