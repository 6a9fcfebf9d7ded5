//! The works of an endpoint.
ghost use Rattle.std.specs.Prelude.{⊤};
ghost use Rattle.endpoint_works.specs.Sides.{IsServedSide};

use super::desks::{Book, Log, letters};
use cv_io::{Bytes, List, Memory, Text};
use endpoint_works::{
    Dialled, Handover, Received, RoundEnd, Sent, Side, receive, send, serve_round,
};
use outside::{Endpoint, Links, MemClock, MemDial, MemEnd, MemLinks, MemSink, MemSource};
use sessions::{OpenEnd, ReadEnd};
use std::alloc::Global;
use std::sync::Wait;
use std::test::*;

const HELLO: &[u8] = &[1, 0, 0, 8, 0, 0, 0, 0];

// A BARRIER_REQUEST.
const BARRIER: &[u8] = &[1, 18, 0, 8, 0, 0, 0, 10];

// The FEATURES_REPLY of datapath id 5.
const FEATURES: &[u8] = &[
    1, 6, 0, 32, 0, 0, 0, 0, 0, 0, 0, 0, 0, 0, 0, 5, 0, 0, 1, 0, 1, 0, 0, 0, 0, 0, 0, 0, 0, 0, 0, 0,
];

fn joined(alloc: Global, parts: &[&[u8]]) -> Result<Bytes, Memory> {
    let mut bytes = Bytes::new(alloc);
    for part in parts {
        bytes.extend_from_slice(part)?;
    }
    Ok(bytes)
}

/// The round of a connection whose peer sends these bytes and then nothing: how it ends.
fn end_of<R: Wait>(
    rt: &R,
    alloc: Global,
    pass: &mut Log,
    side: &Side,
    sent: Bytes,
) -> Result<RoundEnd, Memory>
    requires { IsServedSide (λ _. ⊤) side.now }
{
    let mut source = MemSource::new(sent, List::new(alloc));
    let sink = MemSink::new(Bytes::new(alloc), List::new(alloc));
    let handover = Handover::new();
    serve_round(
        rt,
        alloc,
        &Book {},
        pass,
        side,
        &mut source,
        sink,
        &handover,
    )
}

/// The same, and what is posted.
fn round<R: Wait>(
    rt: &R,
    alloc: Global,
    side: &Side,
    sent: &[&[u8]],
) -> Result<(RoundEnd, Bytes), Memory>
    requires { IsServedSide (λ _. ⊤) side.now }
{
    let sent = joined(alloc, sent)?;
    let mut pass = Log::new(alloc, 0);
    let end = end_of(rt, alloc, &mut pass, side, sent);
    let posts = letters(alloc, &pass.posts);
    drop(pass);
    Ok((end?, posts?))
}

const MEMBER: Side = Side::Member { index: 0 };

/// What a peer sends, how its round ends, and what is posted.
#[derive(Clone, Copy)]
struct Row {
    sent: &'static [&'static [u8]],
    end: RoundEnd,
    posts: &'static [u8],
}

fn unopened(sent: &'static [&'static [u8]], end: OpenEnd) -> Row {
    Row {
        sent,
        end: RoundEnd::Unopened { end },
        posts: b"",
    }
}

fn read(sent: &'static [&'static [u8]], end: ReadEnd, posts: &'static [u8]) -> Row {
    Row {
        sent,
        end: RoundEnd::Read { end },
        posts,
    }
}

fn is_so<R: Wait>(rt: &R, alloc: Global, side: &Side, row: &Row) -> Result<bool, Memory>
    requires { IsServedSide (λ _. ⊤) side.now }
{
    let (end, posts) = round(rt, alloc, side, row.sent)?;
    Ok(end == row.end && posts.as_slice() == row.posts)
}

#[test]
fn members_end(rt: HostRuntime) -> Result<(), Fail> {
    let rows = [
        unopened(&[], OpenEnd::Ended),
        unopened(&[&[1, 0, 0]], OpenEnd::Ended),
        unopened(&[BARRIER], OpenEnd::NoHello),
        unopened(&[&[1, 0, 0, 7]], OpenEnd::Short { length: 7 }),
        read(&[HELLO, BARRIER, BARRIER], ReadEnd::Ended, b"ummg"),
        read(&[HELLO, BARRIER, &[1, 18, 0, 8, 0]], ReadEnd::Ended, b"umg"),
        read(
            &[HELLO, &[1, 18, 0, 3]],
            ReadEnd::Short { length: 3 },
            b"ug",
        ),
    ];
    for row in rows.iter() {
        assert!(rt; is_so(&rt, rt.alloc(), &MEMBER, row)?);
    }
    Ok(())
}

#[test]
fn switches_end(rt: HostRuntime) -> Result<(), Fail> {
    let side = Side::Switch {
        dpids: List::from_slice(rt.alloc(), &[9, 5])?,
    };
    let known = read(&[HELLO, FEATURES, BARRIER], ReadEnd::Ended, b"umg");
    assert!(rt; is_so(&rt, rt.alloc(), &side, &known)?);
    let side = Side::Switch {
        dpids: List::new(rt.alloc()),
    };
    let other = unopened(&[HELLO, FEATURES], OpenEnd::Unknown { dpid: 5 });
    assert!(rt; is_so(&rt, rt.alloc(), &side, &other)?);
    Ok(())
}

fn endpoint(alloc: Global) -> Endpoint {
    Endpoint::Member {
        index: 0,
        address: Text::new(alloc),
        rounds: 1,
    }
}

/// What the peer of one connection sends: a HELLO and a request.
fn one_input(alloc: Global) -> Result<List<Bytes>, Memory> {
    let mut inputs = List::new(alloc);
    inputs.push(joined(alloc, &[HELLO, BARRIER])?)?;
    Ok(inputs)
}

/// The endpoint of these connections alone.
fn one_end(alloc: Global, inputs: List<Bytes>) -> Result<List<MemEnd>, Memory> {
    let end = MemEnd {
        end: endpoint(alloc),
        inputs,
        fails: List::new(alloc),
    };
    let mut ends = List::new(alloc);
    ends.push(end)?;
    Ok(ends)
}

/// The dial of an endpoint with one connection.
fn one_connection(alloc: Global) -> Result<Dialled<MemDial>, Memory> {
    let ends = one_end(alloc, one_input(alloc)?)?;
    let mut links = MemLinks::new(alloc, ends, List::new(alloc));
    match links.dial(&endpoint(alloc)) {
        Ok(dial) => Ok(Dialled { dial }),
        Err(_) => Err(Memory),
    }
}

/// The work that takes the connection.
fn first<R: Wait>(
    rt: &R,
    alloc: Global,
    handover: &Handover<MemSink>,
) -> Result<(Received, Bytes), Memory> {
    let mut arrivals = one_connection(alloc)?;
    let mut pass = Log::new(alloc, 0);
    let end = receive(
        rt,
        alloc,
        &Book {},
        &mut pass,
        &MEMBER,
        &mut arrivals,
        handover,
    );
    handover.close(rt);
    drop(arrivals);
    let posts = letters(alloc, &pass.posts);
    drop(pass);
    Ok((end, posts?))
}

fn one_message(alloc: Global) -> Result<List<Bytes>, Memory> {
    let mut messages = List::new(alloc);
    messages.push(joined(alloc, &[HELLO])?)?;
    Ok(messages)
}

/// The work that writes to it, for which one message waits.
fn second<R: Wait>(
    rt: &R,
    alloc: Global,
    handover: &Handover<MemSink>,
) -> Result<(Sent, Bytes), Memory> {
    let seconds = List::from_slice(alloc, &[4])?;
    let messages = one_message(alloc)?;
    let mut clock = MemClock::new(seconds);
    let mut pass = Log::waiting(alloc, messages, 1);
    let end = send(rt, &Book {}, &mut pass, handover, &mut clock);
    let posts = letters(alloc, &pass.posts);
    drop(pass);
    Ok((end, posts?))
}

#[test]
fn two_works_serve_an_endpoint(rt: HostRuntime) -> Result<(), Fail> {
    let handover = Handover::new();
    let (received, posts) = first(&rt, rt.alloc(), &handover)?;
    assert!(rt; !received.failed && !received.wanted);
    assert!(rt; posts.as_slice() == b"umg".as_slice());
    let (sent, posts) = second(&rt, rt.alloc(), &handover)?;
    assert!(rt; !sent.cut && !sent.wanted);
    assert!(rt; posts.as_slice() == b"kt".as_slice());
    Ok(())
}
