//! From bytes to requests and replies.
ghost use Rattle.std.specs.Prelude.{◌≡◌, ◌≤◌, ◌<◌, ◌^◌, IfOk, length, length as count_of};
ghost use Rattle.of10_actions.specs.Reading.{u16_at as u16_of};
ghost use Rattle.of10_stats.specs.Kinds.{request_length};
ghost use Rattle.of10_stats.specs.Ranges.{widths};
ghost use Rattle.of10_stats.specs.Reading.{Gives, body_at, entry_at, entry_of, items_at, port_at, port_of, reply_in};
ghost use Rattle.of10_stats.specs.Reading.{request_at, request_in, request_of, table_of, texts_of};
ghost use Rattle.of10_stats.specs.Spelling.{entry_size, port_size};

use crate::fault::StatsFault;
use crate::kind::StatsKind;
use crate::reply::{FlowStat, PortStat, ReplyBody, StatsReply};
use crate::request::StatsRequest;
use cv_io::{Bytes, List, Memory};
use of10_actions::number::{u16_at, u32_at, u64_at};
use of10_msgs::field::{array_at, match_at};
use std::alloc::Global;

/// How many bytes type and flags take.
const START: usize = 4;

/// The least length of an entry, without actions.
const ENTRY: usize = 88;

/// How many bytes a port takes.
const PORT: usize = 104;

/// The widths of the five texts that describe a switch.
const WIDTHS: [usize; 5] = [256, 256, 256, 32, 256];

/// The request of a STATS_REQUEST's body from its type on, or the first fault. Flags and padding aren't
/// looked at.
pub fn read_request(body: &[u8]) -> Result<StatsRequest, StatsFault>
    requires room { 4 ≤ length body.now }
    requires fits { length body.now < 2 ^ 32 }
    ensures { result ≡ request_in body.now }
{
    let number = u16_at(body, 0);
    let Some(kind) = StatsKind::from_number(number) else {
        return Err(StatsFault::BadStat { kind: number });
    };
    let (_, rest) = body.split_at(START);
    request_at(kind, rest).ok_or(StatsFault::BadLen {
        kind: number,
        length: rest.len() as u32,
    })
}

/// The request of a type; None where it has another length.
fn request_at(kind: StatsKind, rest: &[u8]) -> Option<StatsRequest>
    ensures { result ≡ request_at kind rest.now }
{
    if rest.len() == kind.request_length() {
        Some(request_of(kind, rest))
    } else {
        None
    }
}

fn request_of(kind: StatsKind, rest: &[u8]) -> StatsRequest
    requires { length rest.now ≡ request_length kind }
    ensures { result ≡ request_of kind rest.now }
{
    match kind {
        StatsKind::Desc => StatsRequest::Desc,
        StatsKind::Flow => StatsRequest::Flow {
            m: match_at(rest, 0),
            table_id: rest[40],
            out_port: u16_at(rest, 42),
        },
        StatsKind::Aggregate => StatsRequest::Aggregate {
            m: match_at(rest, 0),
            table_id: rest[40],
            out_port: u16_at(rest, 42),
        },
        StatsKind::Table => StatsRequest::Table,
        StatsKind::Port => StatsRequest::Port {
            port_no: u16_at(rest, 0),
        },
    }
}

/// The reply of a STATS_REPLY's body from its type on, or the first fault. Padding and the flags other
/// than MORE aren't looked at, and each match that is read has zeros for its padding.
pub fn read_reply(alloc: Global, body: &[u8]) -> Result<StatsReply, StatsFault>
    requires room { 4 ≤ length body.now }
    requires fits { length body.now < 2 ^ 32 }
    ensures { Gives result (reply_in body.now) }
{
    let number = u16_at(body, 0);
    let Some(kind) = StatsKind::from_number(number) else {
        return Err(StatsFault::BadStat { kind: number });
    };
    let more = u16_at(body, 2) % 2 == 1;
    let (_, rest) = body.split_at(START);
    match body_at(alloc, kind, rest)? {
        Some(body) => Ok(StatsReply { more, body }),
        None => Err(StatsFault::BadLen {
            kind: number,
            length: rest.len() as u32,
        }),
    }
}

/// What a reply of a type tells; None where it hasn't a length of its type.
fn body_at(alloc: Global, kind: StatsKind, rest: &[u8]) -> Result<Option<ReplyBody>, Memory>
    ensures { IfOk result (λ body. body ≡ body_at kind rest.now) }
{
    match kind {
        StatsKind::Desc => {
            if rest.len() == 1056 {
                let texts = texts_of(alloc, rest)?;
                Ok(Some(ReplyBody::Desc { texts }))
            } else {
                Ok(None)
            }
        }
        StatsKind::Flow => {
            let entries = entries_in(alloc, rest)?;
            Ok(entries.map(|entries| ReplyBody::Flow { entries }))
        }
        StatsKind::Aggregate => Ok(aggregate_at(rest)),
        StatsKind::Table => Ok(table_at(rest)),
        StatsKind::Port => {
            let ports = ports_in(alloc, rest)?;
            Ok(ports.map(|ports| ReplyBody::Port { ports }))
        }
    }
}

/// The five texts that describe a switch.
fn texts_of(alloc: Global, rest: &[u8]) -> Result<List<Bytes>, Memory>
    requires { length rest.now ≡ 1056 }
    ensures { IfOk result (λ texts. texts ≡ texts_of widths rest.now) }
{
    let mut texts = List::with_capacity(alloc, WIDTHS.len())?;
    let mut left = rest;
    for width in WIDTHS {
        let (text, behind) = left.split_at(width);
        texts.push(Bytes::from_slice(alloc, text)?)?;
        left = behind;
    }
    Ok(texts)
}

fn aggregate_at(rest: &[u8]) -> Option<ReplyBody>
    ensures { result ≡ body_at StatsKind.Aggregate rest.now }
{
    if rest.len() != 24 {
        return None;
    }
    Some(ReplyBody::Aggregate {
        packets: u64_at(rest, 0),
        bytes: u64_at(rest, 8),
        flows: u32_at(rest, 16),
    })
}

#[tactic(auto, unfolding(crate::specs::Reading::table_of))]
fn table_at(rest: &[u8]) -> Option<ReplyBody>
    ensures { result ≡ body_at StatsKind.Table rest.now }
{
    if rest.len() != 64 {
        return None;
    }
    Some(ReplyBody::Table {
        table_id: rest[0],
        name: array_at(rest, 4),
        wildcards: u32_at(rest, 36),
        max_entries: u32_at(rest, 40),
        active: u32_at(rest, 44),
        lookup: u64_at(rest, 48),
        matched: u64_at(rest, 56),
    })
}

/// The entries of a FLOW reply; None where the length of one is below 88 or goes past the end.
fn entries_in(alloc: Global, bytes: &[u8]) -> Result<Option<List<FlowStat>>, Memory>
    ensures { IfOk result (λ entries. entries ≡ items_at entry_at entry_size 0 bytes.now) }
{
    let mut entries = List::new(alloc);
    let mut at = 0;
    while at < bytes.len() {
        let (_, rest) = bytes.split_at(at);
        let Some(entry) = entry_at(alloc, rest)? else {
            return Ok(None);
        };
        at += entry.length();
        entries.push(entry)?;
    }
    Ok(Some(entries))
}

/// The entry at the front of bytes, where it is whole.
fn entry_at(alloc: Global, bytes: &[u8]) -> Result<Option<FlowStat>, Memory>
    ensures { IfOk result (λ entry. entry ≡ entry_at bytes.now) }
{
    if bytes.len() < ENTRY {
        return Ok(None);
    }
    let length = usize::from(u16_at(bytes, 0));
    if length < ENTRY || bytes.len() < length {
        return Ok(None);
    }
    Ok(Some(entry_of(alloc, bytes, length)?))
}

#[tactic(auto, unfolding(crate::specs::Reading::entry_of))]
fn entry_of(alloc: Global, bytes: &[u8], length: usize) -> Result<FlowStat, Memory>
    requires says { length ≡ u16_of 0 bytes.now }
    requires least { 88 ≤ length }
    requires room { length ≤ count_of bytes.now }
    ensures { IfOk result (λ entry. entry ≡ entry_of bytes.now) }
{
    Ok(FlowStat {
        table_id: bytes[2],
        m: match_at(bytes, 4),
        duration_sec: u32_at(bytes, 44),
        duration_nsec: u32_at(bytes, 48),
        priority: u16_at(bytes, 52),
        idle: u16_at(bytes, 54),
        hard: u16_at(bytes, 56),
        cookie: u64_at(bytes, 64),
        packets: u64_at(bytes, 72),
        bytes: u64_at(bytes, 80),
        actions: Bytes::from_slice(alloc, &bytes[ENTRY..length])?,
    })
}

/// The ports of a PORT reply; None where the bytes are no whole number of ports.
fn ports_in(alloc: Global, bytes: &[u8]) -> Result<Option<List<PortStat>>, Memory>
    ensures { IfOk result (λ ports. ports ≡ items_at port_at port_size 0 bytes.now) }
{
    let mut ports = List::with_capacity(alloc, bytes.len() / PORT)?;
    let mut at = 0;
    while at < bytes.len() {
        let (_, rest) = bytes.split_at(at);
        let Some(port) = port_at(rest) else {
            return Ok(None);
        };
        at += PORT;
        ports.push(port)?;
    }
    Ok(Some(ports))
}

/// The port at the front of bytes, where it is whole.
fn port_at(bytes: &[u8]) -> Option<PortStat>
    ensures { result ≡ port_at bytes.now }
{
    if bytes.len() < PORT {
        None
    } else {
        Some(port_of(bytes))
    }
}

fn port_of(bytes: &[u8]) -> PortStat
    requires { 104 ≤ length bytes.now }
    ensures { result ≡ port_of bytes.now }
{
    PortStat {
        port_no: u16_at(bytes, 0),
        rx_packets: u64_at(bytes, 8),
        tx_packets: u64_at(bytes, 16),
        rx_bytes: u64_at(bytes, 24),
        tx_bytes: u64_at(bytes, 32),
        rx_dropped: u64_at(bytes, 40),
        tx_dropped: u64_at(bytes, 48),
        rx_errors: u64_at(bytes, 56),
        tx_errors: u64_at(bytes, 64),
        rx_frame_err: u64_at(bytes, 72),
        rx_over_err: u64_at(bytes, 80),
        rx_crc_err: u64_at(bytes, 88),
        collisions: u64_at(bytes, 96),
    }
}
