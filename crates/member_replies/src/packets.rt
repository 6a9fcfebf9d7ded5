//! What members are told of packets and of entries that went (sections 5.4.1 and 5.4.2 of the standard).
ghost use Rattle.std.specs.Prelude.{◌≡◌, ◌<◌, ◌+◌, ◌^◌, IfOk, length};
ghost use Rattle.of10_msgs.specs.Spelling.{spelling};
ghost use Rattle.member_replies.specs.Packets.{flow_removed as removal, packet_in as telling, seconds_of};
ghost use Rattle.member_replies.specs.Packets.{written_match};

use cv_io::{Bytes, Memory};
use member_table::Entry;
use of10_msgs::field::cleared;
use of10_msgs::number::NO_BUFFER;
use of10_msgs::{Body, MATCH, Message, write_message};
use std::alloc::Global;

/// The PACKET_IN of a packet that is in no buffer: its length, its port, the reason, and its bytes.
pub fn packet_in(
    alloc: Global,
    total_len: u16,
    in_port: u16,
    reason: u8,
    bytes: Bytes,
) -> Result<Bytes, Memory>
    requires { 18 + length bytes < 2 ^ 16 }
    ensures { IfOk result (λ message. message
        ≡ spelling (record { xid = 0; body = telling total_len in_port reason bytes })) }
{
    let body = Body::PacketIn {
        buffer_id: NO_BUFFER,
        total_len,
        in_port,
        reason,
        bytes,
    };
    write_message(alloc, &Message { xid: 0, body })
}

/// The match of an entry as it was written, with zeros for its padding.
pub(crate) fn match_of(entry: &Entry) -> [u8; MATCH]
    ensures value { result ≡ written_match entry.now }
    ensures size { length result ≡ 40 }
{
    cleared(entry.raw)
}

/// For how many seconds an entry has stood.
pub(crate) fn seconds(entry: &Entry, moment: u64) -> u32
    ensures { result ≡ seconds_of entry.now moment }
{
    moment.saturating_sub(entry.added).min(u64::from(u32::MAX)) as u32
}

/// The FLOW_REMOVED of an entry that was removed at a moment, with its packets and bytes.
pub fn flow_removed(
    alloc: Global,
    entry: &Entry,
    reason: u8,
    moment: u64,
    packets: u64,
    bytes: u64,
) -> Result<Bytes, Memory>
    ensures { IfOk result (λ message. message
        ≡ spelling
        (record { xid = 0; body = removal entry.now reason moment (record { packets = packets; bytes = bytes }) })) }
{
    let body = Body::FlowRemoved {
        m: match_of(entry),
        cookie: entry.cookie,
        priority: entry.priority,
        reason,
        duration_sec: seconds(entry, moment),
        duration_nsec: 0,
        idle_timeout: entry.idle,
        packet_count: packets,
        byte_count: bytes,
    };
    write_message(alloc, &Message { xid: 0, body })
}
