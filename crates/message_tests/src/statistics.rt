//! Messages of statistics, read and written, and why others are refused.
ghost use Rattle.std.specs.Prelude.{◌≡◌, ◌≤◌, ◌<◌, All, IfOk, length};
ghost use Rattle.of10_stats.specs.Ranges.{CanWriteBody, CanWriteEntry, CanWriteReply, CanWriteRequest};

use cv_io::{Bytes, List, Memory};
use of10_frames::xid_of;
use of10_stats::{
    FlowStat, ReplyBody, StatsFault, StatsReply, StatsRequest, read_reply, read_request,
    write_reply, write_request,
};
use std::alloc::Global;
use std::process::Abort;
use std::test::*;

mod vectors;

/// The bytes of a message, with these set.
fn message(alloc: Global, digits: &str, places: &[u8]) -> Result<Vec<u8>, Fail> {
    let mut frame = hex::decode(alloc, digits)?;
    for place in places {
        if let Some(byte) = frame.get_mut(usize::from(*place)) {
            *byte = 0xff;
        }
    }
    Ok(frame)
}

/// The request of a message.
fn request_of(frame: &[u8]) -> Result<StatsRequest, StatsFault>
    requires room { 12 ≤ length frame.now }
    requires fits { length frame.now ≤ 65535 }
    ensures { IfOk result CanWriteRequest }
{
    let (_, body) = frame.split_at(8);
    read_request(body)
}

/// The reply of a message.
fn reply_of(alloc: Global, frame: &[u8]) -> Result<StatsReply, StatsFault>
    requires room { 12 ≤ length frame.now }
    requires fits { length frame.now ≤ 65535 }
    ensures { IfOk result (λ reply. CanWriteBody reply.body) }
{
    let (_, body) = frame.split_at(8);
    read_reply(alloc, body)
}

/// Whether a request is written as these bytes.
fn is_request_written(
    alloc: Global,
    request: &StatsRequest,
    xid: u32,
    want: &[u8],
) -> Result<bool, Memory>
    requires { CanWriteRequest request.now }
{
    let written = write_request(alloc, request, xid)?;
    let same = written.as_slice() == want;
    drop(written);
    Ok(same)
}

/// Reads a request, and writes it as these bytes.
fn is_request(
    rt: &(impl Abort + AllocGlobal),
    plain: &[u8],
    frame: &[u8],
    want: &StatsRequest,
) -> Result<(), Fail> {
    assert!(rt; frame.len() >= 12);
    assert!(rt; frame.len() <= 65535);
    let request = request_of(frame)?;
    assert_eq!(rt; request, *want);
    let same = is_request_written(rt.alloc(), &request, xid_of(frame), plain)?;
    assert!(rt; same);
    Ok(())
}

/// Reads a request whose padding is set, and writes it with zeros there.
fn request_again(
    rt: &(impl Abort + AllocGlobal),
    digits: &str,
    places: &[u8],
    want: &StatsRequest,
) -> Result<(), Fail> {
    let plain = hex::decode(rt.alloc(), digits)?;
    let frame = message(rt.alloc(), digits, places)?;
    is_request(rt, &plain, &frame, want)
}

#[test]
fn requests(rt: HostRuntime) -> Result<(), Fail> {
    for (digits, padding, want) in &vectors::REQUESTS {
        request_again(&rt, digits, &[], want)?;
        request_again(&rt, digits, padding, want)?;
    }
    Ok(())
}

/// Whether there is one message, of these bytes.
fn is_one(messages: &List<Bytes>, want: &[u8]) -> bool {
    match messages.as_slice() {
        [message] => message.as_slice() == want,
        _ => false,
    }
}

/// Whether a reply is written as one message, of these bytes.
fn is_written(alloc: Global, reply: &StatsReply, xid: u32, want: &[u8]) -> Result<bool, Memory>
    requires { CanWriteReply reply.now }
{
    let written = write_reply(alloc, reply, xid)?;
    let same = is_one(&written, want);
    drop(written);
    Ok(same)
}

/// A reply is written as one message, of these bytes.
fn writes_one(
    rt: &(impl Abort + AllocGlobal),
    reply: &StatsReply,
    xid: u32,
    want: &[u8],
) -> Result<(), Fail>
    requires { CanWriteBody reply.now.body }
{
    assert!(rt; !reply.more);
    let same = is_written(rt.alloc(), reply, xid, want)?;
    assert!(rt; same);
    Ok(())
}

/// Reads a reply of one message whose padding is set, and writes it with zeros there.
fn reply_again(
    rt: &(impl Abort + AllocGlobal),
    plain: &[u8],
    frame: &[u8],
) -> Result<StatsReply, Fail> {
    assert!(rt; frame.len() >= 12);
    assert!(rt; frame.len() <= 65535);
    let reply = reply_of(rt.alloc(), frame)?;
    match writes_one(rt, &reply, xid_of(frame), plain) {
        Ok(()) => Ok(reply),
        Err(fault) => {
            drop(reply);
            Err(fault)
        }
    }
}

/// What is read with its padding set is this reply.
fn is_reply(
    rt: &(impl Abort + AllocGlobal),
    plain: &[u8],
    frame: &[u8],
    want: &StatsReply,
) -> Result<(), Fail> {
    let reply = reply_again(rt, plain, frame)?;
    let same = reply == *want;
    drop(reply);
    assert!(rt; same, "at {plain:?}");
    Ok(())
}

#[test]
fn replies(rt: HostRuntime) -> Result<(), Fail> {
    for (digits, padding) in &vectors::REPLIES {
        let plain = hex::decode(rt.alloc(), digits)?;
        let frame = message(rt.alloc(), digits, padding)?;
        let reply = reply_again(&rt, &plain, &plain)?;
        let same = is_reply(&rt, &plain, &frame, &reply);
        drop(reply);
        same?;
    }
    Ok(())
}

/// The entry of the vectors.
fn entry(alloc: Global) -> Result<FlowStat, Memory>
    ensures { IfOk result CanWriteEntry }
{
    Ok(FlowStat {
        table_id: 2,
        m: vectors::M,
        duration_sec: 0x01020304,
        duration_nsec: 0x05060708,
        priority: 0x1112,
        idle: 0x1314,
        hard: 0x1516,
        cookie: 0x2122232425262728,
        packets: 0x3132333435363738,
        bytes: 0x4142434445464748,
        actions: Bytes::from_slice(alloc, &[0, 0, 0, 8, 0, 2, 0xff, 0xff])?,
    })
}

/// A reply with so many entries.
fn entries(alloc: Global, count: usize) -> Result<StatsReply, Memory>
    ensures { IfOk result CanWriteReply }
{
    let mut entries = List::new(alloc);
    for _ in 0..count {
        entries.push(entry(alloc)?)?;
    }
    Ok(StatsReply {
        more: false,
        body: ReplyBody::Flow { entries },
    })
}

/// Whether all entries of a message are this one.
fn are_entries(entries: &[u8], entry: &[u8]) -> bool {
    for found in entries.chunks_exact(96) {
        if found != entry {
            return false;
        }
    }
    true
}

/// Checks a message: its length, its lower byte of flags, and its entries.
fn part_is(
    rt: &(impl Abort + AllocGlobal),
    message: &Bytes,
    want: (usize, u8),
) -> Result<(), Fail> {
    let bytes = message.as_slice();
    assert!(rt; bytes.len() >= 12);
    assert_eq!(rt; (bytes.len(), bytes[11]), want);
    let entry = hex::decode(rt.alloc(), vectors::ENTRY)?;
    let same = are_entries(&bytes[12..], &entry);
    drop(entry);
    assert!(rt; same);
    Ok(())
}

/// The messages of a reply with so many entries.
fn written(alloc: Global, count: usize) -> Result<List<Bytes>, Memory> {
    let reply = entries(alloc, count)?;
    let messages = write_reply(alloc, &reply, 9);
    drop(reply);
    messages
}

/// For so many entries of 96 bytes: how many parts there are, and what one of them is like.
#[test]
fn parts(rt: HostRuntime) -> Result<(), Fail> {
    for (count, parts, place, want) in [
        (0, 1, 0, (12, 0)),
        (21, 1, 0, (2028, 0)),
        (22, 2, 0, (2028, 1)),
        (22, 2, 1, (108, 0)),
    ] {
        let messages = written(rt.alloc(), count)?;
        assert_eq!(rt; messages.len(), parts);
        let part = messages.get(place).ok_or("there is no such part")?;
        part_is(&rt, part, want)?;
    }
    Ok(())
}

/// Appends a text of a width, filled with zeros.
fn push_text(frame: &mut Vec<u8>, text: &str, width: usize) -> Result<(), Fail> {
    frame.extend_from_slice(text.as_bytes())?;
    for _ in text.len()..width {
        frame.push(0)?;
    }
    Ok(())
}

/// Texts and their widths.
const TEXTS: [(&str, usize); 5] = [
    ("Maker", 256),
    ("Hardware", 256),
    ("Software", 256),
    ("77", 32),
    ("A switch", 256),
];

/// The texts that describe a switch, of 1056 bytes.
fn description(alloc: Global) -> Result<Vec<u8>, Fail> {
    let mut frame = hex::decode(alloc, "0111042c0000001200000000")?;
    for (text, width) in &TEXTS {
        push_text(&mut frame, text, *width)?;
    }
    Ok(frame)
}

/// How many texts a reply has.
fn count_texts(reply: &StatsReply) -> usize {
    match &reply.body {
        ReplyBody::Desc { texts } => texts.len(),
        _ => 0,
    }
}

#[test]
fn texts(rt: HostRuntime) -> Result<(), Fail> {
    let frame = description(rt.alloc())?;
    let reply = reply_again(&rt, &frame, &frame)?;
    let texts = count_texts(&reply);
    drop(reply);
    assert_eq!(rt; texts, 5);
    Ok(())
}

/// The faults of a body, as a request's and as a reply's.
fn faults_of(
    rt: &(impl Abort + AllocGlobal),
    digits: &str,
) -> Result<(Option<StatsFault>, Option<StatsFault>), Fail> {
    let body = hex::decode(rt.alloc(), digits)?;
    assert!(rt; body.len() >= 4 && body.len() <= 65535);
    let request = read_request(&body).err();
    let reply = read_reply(rt.alloc(), &body).err();
    drop(body);
    Ok((request, reply))
}

/// The fault of a request's and of a reply's body.
fn refused(
    rt: &(impl Abort + AllocGlobal),
    digits: &str,
    request: Option<StatsFault>,
    reply: Option<StatsFault>,
) -> Result<(), Fail> {
    let faults = faults_of(rt, digits)?;
    assert_eq!(rt; faults, (request, reply), "at {digits}");
    Ok(())
}

const fn length(kind: u16, length: u32) -> Option<StatsFault> {
    Some(StatsFault::BadLen { kind, length })
}

#[test]
fn faults(rt: HostRuntime) -> Result<(), Fail> {
    let unknown = Some(StatsFault::BadStat { kind: 5 });
    let vendor = Some(StatsFault::BadStat { kind: 65535 });
    for (digits, request, reply) in [
        ("0005000000", unknown, unknown),
        ("ffff0000", vendor, vendor),
        ("00000000", None, length(0, 0)),
        ("00010000", length(1, 0), None),
        ("000200000000", length(2, 2), length(2, 2)),
        ("0004000000000000", length(4, 4), length(4, 4)),
    ] {
        refused(&rt, digits, request, reply)?;
    }
    Ok(())
}

/// The body of a reply of one entry that says its length, where so many bytes are there.
fn body_of_entry(alloc: Global, says: u8, there: u32) -> Result<Bytes, Memory> {
    let mut body = Bytes::from_slice(alloc, &[0, 1, 0, 0, 0, says])?;
    for _ in 2..there {
        body.push(0)?;
    }
    Ok(body)
}

/// The fault of a reply's body, if it has one.
fn fault_of_body(alloc: Global, body: &[u8]) -> Option<StatsFault> {
    if body.len() < 4 || body.len() > 65535 {
        return None;
    }
    read_reply(alloc, body).err()
}

/// The fault of the reply of such an entry.
fn fault_of_entry(alloc: Global, says: u8, there: u32) -> Result<Option<StatsFault>, Fail> {
    let body = body_of_entry(alloc, says, there)?;
    let fault = fault_of_body(alloc, body.as_slice());
    drop(body);
    Ok(fault)
}

/// An entry's length is at least 88, and isn't past the end.
#[test]
fn entry_lengths(rt: HostRuntime) -> Result<(), Fail> {
    for (says, there, want) in [
        (87, 88, length(1, 88)),
        (88, 87, length(1, 87)),
        (88, 88, None),
        (89, 88, length(1, 88)),
        (88, 90, length(1, 90)),
    ] {
        let fault = fault_of_entry(rt.alloc(), says, there)?;
        assert_eq!(rt; fault, want, "at {says}");
    }
    Ok(())
}
