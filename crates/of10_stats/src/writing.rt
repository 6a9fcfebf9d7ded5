//! From requests and replies to messages.
ghost use Rattle.std.specs.Prelude.{◌≡◌, ◌≤◌, ◌<◌, ◌*◌, ◌+◌, ◌^◌, ◌++◌, ◌∷◌, [], All, false, IfOk, OnOk, length, map};
ghost use Rattle.std.specs.Prelude.{replicate};
ghost use Rattle.std.specs.List.{flat_map, sum_by};
ghost use Rattle.byteorder.specs.Endian.{big_bytes};
ghost use Rattle.of10_frames.specs.Wire.{header_bytes};
ghost use Rattle.of10_msgs.specs.Kinds.{number_of as message_number};
ghost use Rattle.of10_stats.specs.Kinds.{number_of, request_kind};
ghost use Rattle.of10_stats.specs.Parts.{bytes_of, part_replies, parts, replies_of};
ghost use Rattle.of10_stats.specs.Ranges.{CanWriteBody, CanWriteEntry, CanWriteReply, CanWriteRequest, widths};
ghost use Rattle.of10_stats.specs.Spelling.{body_bytes, entry_bytes, entry_size, joined, more_flag, port_bytes};
ghost use Rattle.of10_stats.specs.Spelling.{reply_message, request_match, request_message, request_padding};
ghost use Rattle.of10_stats.specs.Spelling.{request_with, start};

use crate::kind::StatsKind;
use crate::parts::{HEAD, part_length};
use crate::reply::{FlowStat, NAME, PortStat, ReplyBody, StatsReply};
use crate::request::StatsRequest;
use byteorder::{BigEndian, ByteOrder};
use cv_io::{Bytes, List, Memory};
use of10_frames::{HEADER, header};
use of10_msgs::Kind;
use std::alloc::Global;

/// The STATS_REQUEST message of a request, with zero padding and flags.
pub fn write_request(alloc: Global, r: &StatsRequest, xid: u32) -> Result<Bytes, Memory>
    requires { CanWriteRequest r.now }
    ensures { IfOk result (λ message. message ≡ request_message xid r.now) }
{
    let kind = r.kind();
    let length = HEAD + kind.request_length();
    let mut out = Bytes::with_capacity(alloc, length)?;
    out.extend_from_slice(&head(Kind::StatsRequest, kind, false, length as u16, xid))?;
    match r {
        StatsRequest::Desc | StatsRequest::Table => {}
        StatsRequest::Flow {
            m,
            table_id,
            out_port,
        }
        | StatsRequest::Aggregate {
            m,
            table_id,
            out_port,
        } => {
            out.extend_from_slice(m)?;
            out.extend_from_slice(&filter_end(*table_id, *out_port))?;
        }
        StatsRequest::Port { port_no } => out.extend_from_slice(&port_start(*port_no))?,
    }
    Ok(out)
}

/// The STATS_REPLY messages of a reply, with zero padding. FLOW entries are cut into parts, in order: each
/// takes as many as fit 2048 bytes, and at least one where there is any, and all but the last say that
/// more follow. Every other reply is one message.
pub fn write_reply(alloc: Global, r: &StatsReply, xid: u32) -> Result<List<Bytes>, Memory>
    requires { CanWriteReply r.now }
    ensures { IfOk result (λ messages. messages ≡ map (reply_message xid) (replies_of r.now.body)) }
{
    let mut messages = List::new(alloc);
    match &r.body {
        ReplyBody::Flow { entries } => {
            write_parts(alloc, entries.as_slice(), xid, &mut messages)?;
        }
        body => messages.push(write_whole(alloc, body, xid)?)?,
    }
    Ok(messages)
}

/// A reply in one message.
fn write_whole(alloc: Global, body: &ReplyBody, xid: u32) -> Result<Bytes, Memory>
    requires writable { CanWriteBody body.now }
    requires fits { 12 + length (body_bytes body.now) < 2 ^ 16 }
    ensures { IfOk result (λ message. message ≡ reply_message xid (record { more = false; body = body.now })) }
{
    let length = HEAD + body_length(body);
    let mut out = Bytes::with_capacity(alloc, length)?;
    out.extend_from_slice(&head(Kind::StatsReply, body.kind(), false, length as u16, xid))?;
    write_body(body, &mut out)?;
    Ok(out)
}

/// The parts of a FLOW reply, each a message.
fn write_parts(
    alloc: Global,
    entries: &[FlowStat],
    xid: u32,
    messages: &mut List<Bytes>,
) -> Result<(), Memory>
    requires { All CanWriteEntry entries.now }
    ensures { OnOk result (messages.new ≡ messages.old ++ map (reply_message xid) (part_replies (parts entries.now))) }
{
    let mut left = entries;
    loop {
        let (part, behind) = left.split_at(part_length(left));
        messages.push(write_part(alloc, part, !behind.is_empty(), xid)?)?;
        if behind.is_empty() {
            return Ok(());
        }
        left = behind;
    }
}

/// One part of a FLOW reply.
fn write_part(alloc: Global, part: &[FlowStat], more: bool, xid: u32) -> Result<Bytes, Memory>
    requires { 12 + bytes_of part.now < 2 ^ 16 }
    ensures { IfOk result (λ message. message ≡ reply_message xid
        (record { more = more; body = ReplyBody.Flow part.now })) }
{
    let length = HEAD + entries_length(part);
    let mut out = Bytes::with_capacity(alloc, length)?;
    out.extend_from_slice(&head(Kind::StatsReply, StatsKind::Flow, more, length as u16, xid))?;
    write_entries(part, &mut out)?;
    Ok(out)
}

/// How many bytes entries take.
fn entries_length(entries: &[FlowStat]) -> usize
    requires { bytes_of entries.now < 2 ^ 64 }
    ensures { result ≡ bytes_of entries.now }
{
    let mut total = 0;
    for entry in entries {
        total += entry.length();
    }
    total
}

/// How many bytes texts take.
fn texts_length(texts: &List<Bytes>) -> usize
    requires { length (joined texts.now) < 2 ^ 64 }
    ensures { result ≡ length (joined texts.now) }
{
    let mut total = 0;
    for text in texts.as_slice() {
        total += text.len();
    }
    total
}

/// How many bytes follow the flags.
fn body_length(body: &ReplyBody) -> usize
    requires { length (body_bytes body.now) < 2 ^ 16 }
    ensures { result ≡ length (body_bytes body.now) }
{
    match body {
        ReplyBody::Desc { texts } => texts_length(texts),
        ReplyBody::Flow { entries } => entries_length(entries.as_slice()),
        ReplyBody::Aggregate { .. } => 24,
        ReplyBody::Table { name, .. } => 32 + name_length(name),
        ReplyBody::Port { ports } => 104 * ports.len(),
    }
}

fn name_length(name: &[u8; NAME]) -> usize
    ensures { result ≡ length name.now }
{
    name.len()
}

/// Appends what follows the flags.
fn write_body(body: &ReplyBody, out: &mut Bytes) -> Result<(), Memory>
    requires { length (body_bytes body.now) < 2 ^ 16 }
    ensures { OnOk result (out.new ≡ out.old ++ body_bytes body.now) }
{
    match body {
        ReplyBody::Desc { texts } => write_texts(texts, out),
        ReplyBody::Flow { entries } => write_entries(entries.as_slice(), out),
        ReplyBody::Aggregate {
            packets,
            bytes,
            flows,
        } => {
            out.extend_from_slice(&two_u64(*packets, *bytes))?;
            out.extend_from_slice(&two_u32(*flows, 0))?;
            Ok(())
        }
        ReplyBody::Table {
            table_id,
            name,
            wildcards,
            max_entries,
            active,
            lookup,
            matched,
        } => {
            out.extend_from_slice(&[*table_id, 0, 0, 0])?;
            out.extend_from_slice(name)?;
            out.extend_from_slice(&two_u32(*wildcards, *max_entries))?;
            out.extend_from_slice(&one_u32(*active))?;
            out.extend_from_slice(&two_u64(*lookup, *matched))?;
            Ok(())
        }
        ReplyBody::Port { ports } => write_ports(ports.as_slice(), out),
    }
}

fn write_texts(texts: &List<Bytes>, out: &mut Bytes) -> Result<(), Memory>
    ensures { OnOk result (out.new ≡ out.old ++ joined texts.now) }
{
    for text in texts.as_slice() {
        out.extend_from_slice(text.as_slice())?;
    }
    Ok(())
}

fn write_entries(entries: &[FlowStat], out: &mut Bytes) -> Result<(), Memory>
    requires { bytes_of entries.now < 2 ^ 16 }
    ensures { OnOk result (out.new ≡ out.old ++ flat_map entry_bytes entries.now) }
{
    for entry in entries {
        write_entry(entry, out)?;
    }
    Ok(())
}

#[tactic(auto, unfolding(crate::specs::Spelling::entry_with))]
fn write_entry(entry: &FlowStat, out: &mut Bytes) -> Result<(), Memory>
    requires { entry_size entry.now < 2 ^ 16 }
    ensures { OnOk result (out.new ≡ out.old ++ entry_bytes entry.now) }
{
    out.extend_from_slice(&entry_start(entry.length() as u16, entry.table_id))?;
    out.extend_from_slice(&entry.m)?;
    out.extend_from_slice(&two_u32(entry.duration_sec, entry.duration_nsec))?;
    out.extend_from_slice(&ranks(entry.priority, entry.idle, entry.hard))?;
    out.extend_from_slice(&two_u64(entry.cookie, entry.packets))?;
    out.extend_from_slice(&one_u64(entry.bytes))?;
    out.extend_from_slice(entry.actions.as_slice())?;
    Ok(())
}

fn write_ports(ports: &[PortStat], out: &mut Bytes) -> Result<(), Memory>
    ensures { OnOk result (out.new ≡ out.old ++ flat_map port_bytes ports.now) }
{
    for port in ports {
        write_port(port, out)?;
    }
    Ok(())
}

#[tactic(auto, unfolding(crate::specs::Spelling::port_with))]
fn write_port(port: &PortStat, out: &mut Bytes) -> Result<(), Memory>
    ensures { OnOk result (out.new ≡ out.old ++ port_bytes port.now) }
{
    out.extend_from_slice(&port_start(port.port_no))?;
    out.extend_from_slice(&two_u64(port.rx_packets, port.tx_packets))?;
    out.extend_from_slice(&two_u64(port.rx_bytes, port.tx_bytes))?;
    out.extend_from_slice(&two_u64(port.rx_dropped, port.tx_dropped))?;
    out.extend_from_slice(&two_u64(port.rx_errors, port.tx_errors))?;
    out.extend_from_slice(&two_u64(port.rx_frame_err, port.rx_over_err))?;
    out.extend_from_slice(&two_u64(port.rx_crc_err, port.collisions))?;
    Ok(())
}

/// A message up to what its statistics tell.
fn head(message: Kind, kind: StatsKind, more: bool, length: u16, xid: u32) -> [u8; HEAD]
    ensures { result ≡ header_bytes (message_number message) length xid ++ start (number_of kind) (more_flag more) }
{
    let mut bytes = [0; HEAD];
    bytes[..HEADER].copy_from_slice(&header(message.number(), length, xid));
    BigEndian::write_u16(&mut bytes[8..10], kind.number());
    BigEndian::write_u16(&mut bytes[10..], u16::from(more));
    bytes
}

/// A request's table and port, behind its match.
fn filter_end(table_id: u8, out_port: u16) -> [u8; 4]
    ensures { result ≡ table_id ∷ (0 ∷ big_bytes 2 out_port) }
{
    let mut bytes = [table_id, 0, 0, 0];
    BigEndian::write_u16(&mut bytes[2..], out_port);
    bytes
}

/// A port's number, in eight bytes.
fn port_start(port_no: u16) -> [u8; 8]
    ensures { result ≡ big_bytes 2 port_no ++ replicate 6 0 }
{
    let mut bytes = [0; 8];
    BigEndian::write_u16(&mut bytes, port_no);
    bytes
}

/// An entry's length and table.
fn entry_start(length: u16, table_id: u8) -> [u8; 4]
    ensures { result ≡ big_bytes 2 length ++ table_id ∷ 0 ∷ [] }
{
    let mut bytes = [0, 0, table_id, 0];
    BigEndian::write_u16(&mut bytes, length);
    bytes
}

/// An entry's priority and timeouts, and padding.
fn ranks(priority: u16, idle: u16, hard: u16) -> [u8; 12]
    ensures { result ≡ big_bytes 2 priority ++ (big_bytes 2 idle ++ (big_bytes 2 hard ++ replicate 6 0)) }
{
    let mut bytes = [0; 12];
    BigEndian::write_u16(&mut bytes, priority);
    BigEndian::write_u16(&mut bytes[2..], idle);
    BigEndian::write_u16(&mut bytes[4..], hard);
    bytes
}

fn one_u32(number: u32) -> [u8; 4]
    ensures { result ≡ big_bytes 4 number }
{
    let mut bytes = [0; 4];
    BigEndian::write_u32(&mut bytes, number);
    bytes
}

fn two_u32(first: u32, second: u32) -> [u8; 8]
    ensures { result ≡ big_bytes 4 first ++ big_bytes 4 second }
{
    let mut bytes = [0; 8];
    BigEndian::write_u32(&mut bytes, first);
    BigEndian::write_u32(&mut bytes[4..], second);
    bytes
}

fn one_u64(number: u64) -> [u8; 8]
    ensures { result ≡ big_bytes 8 number }
{
    let mut bytes = [0; 8];
    BigEndian::write_u64(&mut bytes, number);
    bytes
}

fn two_u64(first: u64, second: u64) -> [u8; 16]
    ensures { result ≡ big_bytes 8 first ++ big_bytes 8 second }
{
    let mut bytes = [0; 16];
    BigEndian::write_u64(&mut bytes, first);
    BigEndian::write_u64(&mut bytes[8..], second);
    bytes
}
