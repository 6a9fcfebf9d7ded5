//! Statistics of the virtual switch, its table and its ports (section 5.3.5 of the standard).
ghost use Rattle.std.specs.Prelude.{◌≡◌, ◌≤◌, ◌∷◌, [], IfOk, filter, map, option_to_list};
ghost use Rattle.byteorder.specs.Endian.{big_bytes};
ghost use Rattle.hex.specs.Hex.{encode_lower};
ghost use Rattle.member_replies.specs.Ports.{HasFewPorts, filled as filled_to};
ghost use Rattle.member_replies.specs.Statistics.{description, is_asked, later as later_of, messages, ports, tables};
ghost use Rattle.member_replies.specs.Statistics.{texts_of, told_of, unknown as unknown_of};

use crate::filling::filled;
use crate::ports::visible;
use byteorder::{BigEndian, ByteOrder};
use cv_io::{Bytes, List, Memory, Text};
use member_table::Table;
use of10_actions::{PortView, port};
use of10_stats::{PortStat, ReplyBody, StatsReply, write_reply};
use std::alloc::Global;

/// The DESC reply of a virtual switch: its datapath id and its name.
pub fn desc_reply(alloc: Global, xid: u32, dpid: u64, name: &Text) -> Result<List<Bytes>, Memory>
    ensures { IfOk result (λ sent. sent ≡ messages xid (description dpid name.now)) }
{
    let described = texts(alloc, dpid, name)?;
    let reply = StatsReply {
        more: false,
        body: ReplyBody::Desc { texts: described },
    };
    write_reply(alloc, &reply, xid)
}

/// The five texts of a description.
fn texts(alloc: Global, dpid: u64, name: &Text) -> Result<List<Bytes>, Memory>
    ensures { IfOk result (λ texts. texts ≡ texts_of dpid name.now) }
{
    let mut texts = List::with_capacity(alloc, 5)?;
    texts.push(text::<256>(alloc, b"CoVisor")?)?;
    texts.push(text::<256>(alloc, b"virtual switch")?)?;
    texts.push(text::<256>(alloc, b"of10 profile 1")?)?;
    texts.push(serial_number(alloc, dpid)?)?;
    texts.push(text::<256>(alloc, name.as_bytes())?)?;
    Ok(texts)
}

/// A text of a width.
fn text<const N: usize>(alloc: Global, bytes: &[u8]) -> Result<Bytes, Memory>
    requires { N ≤ 256 }
    ensures { IfOk result (λ text. text ≡ filled_to N bytes.now) }
{
    Bytes::from_slice(alloc, &filled::<N>(bytes))
}

/// A datapath id in 16 hexadecimal digits, in the place of the serial number.
fn serial_number(alloc: Global, dpid: u64) -> Result<Bytes, Memory>
    ensures { IfOk result (λ text. text ≡ filled_to 32 (encode_lower (big_bytes 8 dpid))) }
{
    let mut number = [0; 8];
    BigEndian::write_u64(&mut number, dpid);
    let digits = hex::encode(alloc, &number[..])?;
    text::<32>(alloc, digits.as_bytes())
}

/// The TABLE reply of a virtual switch, whose one table may have so many entries.
pub fn table_reply(
    alloc: Global,
    xid: u32,
    limit: u32,
    table: &Table,
) -> Result<List<Bytes>, Memory>
    ensures { IfOk result (λ sent. sent ≡ messages xid (tables limit table.now.table.entries)) }
{
    let reply = StatsReply {
        more: false,
        body: ReplyBody::Table {
            table_id: 0,
            name: filled(b"covisor"),
            wildcards: 0x003f_ffff,
            max_entries: limit,
            active: table.len().min(u32::MAX as usize) as u32,
            lookup: 0,
            matched: 0,
        },
    };
    write_reply(alloc, &reply, xid)
}

/// The PORT reply: the visible ports that are asked for, with what was told last of each, by its number
/// at the virtual switch. Of the others all numbers are ones.
pub fn port_reply(
    alloc: Global,
    xid: u32,
    number: u16,
    view: &PortView,
    told: &[PortStat],
) -> Result<List<Bytes>, Memory>
    requires { HasFewPorts view.now }
    ensures { IfOk result (λ sent. sent ≡ messages xid (ports number view.now told.now)) }
{
    let all = visible(alloc, view)?;
    let mut ports = List::with_capacity(alloc, all.len())?;
    for port in all.as_slice() {
        ports.push_some(stat_if_asked(number, told, *port))?;
    }
    let reply = StatsReply {
        more: false,
        body: ReplyBody::Port { ports },
    };
    write_reply(alloc, &reply, xid)
}

/// A port's statistics, if they are asked for.
fn stat_if_asked(number: u16, told: &[PortStat], port: u16) -> Option<PortStat>
    ensures { option_to_list result ≡ map (told_of told.now) (filter (is_asked number) (port ∷ [])) }
{
    if number == port::NONE || port == number {
        Some(latest(told, port))
    } else {
        None
    }
}

/// What was told last of a port.
fn latest(told: &[PortStat], port: u16) -> PortStat
    ensures { result ≡ told_of told.now port }
{
    let mut known = unknown(port);
    for stat in told {
        known = later(known, *stat, port);
    }
    known
}

/// What is told of a port, where it is this one's, and else what was known.
fn later(known: PortStat, stat: PortStat, port: u16) -> PortStat
    ensures { result ≡ later_of port known stat }
{
    if stat.port_no == port { stat } else { known }
}

/// A port of which nothing is known.
fn unknown(port: u16) -> PortStat
    ensures { result ≡ unknown_of port }
{
    PortStat {
        port_no: port,
        rx_packets: u64::MAX,
        tx_packets: u64::MAX,
        rx_bytes: u64::MAX,
        tx_bytes: u64::MAX,
        rx_dropped: u64::MAX,
        tx_dropped: u64::MAX,
        rx_errors: u64::MAX,
        tx_errors: u64::MAX,
        rx_frame_err: u64::MAX,
        rx_over_err: u64::MAX,
        rx_crc_err: u64::MAX,
        collisions: u64::MAX,
    }
}
