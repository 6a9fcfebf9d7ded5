//! How connections are opened.
ghost use Rattle.std.specs.Prelude.{◌≡◌, ◌<◌, ◌≤◌, ◌^◌, OnOk, IfOk, IfErr, length};
ghost use Rattle.sessions.specs.Greetings.{hello_message};
ghost use Rattle.sessions.specs.Opening.{IsGreeted, IsKnown, IsNoSwitch, IsNotGreeted, IsNotOpened};
ghost use Rattle.sessions.specs.InsideOpening.{IsNamed, IsNoFirst, IsNotNamed};
ghost use Rattle.sessions.specs.Streams.{Appends};

use crate::ends::{Greeted, OpenEnd};
use crate::greeting::{
    GREETING, HELLO, answer, dpid_of, is_features, is_hello, matches_arp, place_of, send,
};
use crate::incoming::{chunk, next_frame};
use cv_io::List;
use of10_frames::Framer;
use outside::{Sink, Source};
use std::alloc::Global;
use std::sync::Wait;

/// How many frames of a switch may come before its features.
const PASSED: u32 = 64;

/// Opens the connection of a controller: writes a HELLO, and reads until the first frame, which is one too. The framer
/// keeps what was read behind it.
///
/// It may wait for the source and for the sink.
pub fn open_member<R: Wait, S: Source, K: Sink>(
    rt: &R,
    alloc: Global,
    framer: &mut Framer,
    source: &mut S,
    sink: &mut K,
) -> Result<(), OpenEnd>
    ensures opened { OnOk result (IsGreeted (S.remaining source.old) (S.remaining source.new) framer.old framer.new) }
    ensures written { OnOk result (Appends (K.held sink.old) (K.held sink.new) hello_message) }
    ensures end { IfErr result (IsNotOpened (S.remaining source.old) (S.remaining source.new) framer.old framer.new
        (S.faults source.old) (S.faults source.new) (S.is_reliable source.old)) }
    ensures part { IfErr result (IsNotGreeted (K.held sink.old) (K.held sink.new)
        (K.faults sink.old) (K.faults sink.new) (K.wants sink.old) (K.wants sink.new) (K.is_reliable sink.old)) }
    ensures source { S.is_reliable source.new ≡ S.is_reliable source.old }
    ensures sink { K.is_reliable sink.new ≡ K.is_reliable sink.old }
{
    send(sink, &HELLO)?;
    let mut place = chunk(alloc)?;
    first_hello(rt, framer, source, place.as_mut_slice())
}

/// Opens the connection of a switch: writes a HELLO and a FEATURES_REQUEST, reads a HELLO, and then on to the
/// FEATURES_REPLY, which tells by its datapath id which of the known switches it is. Until it comes ECHO_REQUESTs are
/// answered, and other frames passed over. The framer keeps what was read behind it.
///
/// It may wait for the source and for the sink.
pub fn open_switch<R: Wait, S: Source, K: Sink>(
    rt: &R,
    alloc: Global,
    dpids: &List<u64>,
    framer: &mut Framer,
    source: &mut S,
    sink: &mut K,
) -> Result<Greeted, OpenEnd>
    requires { length dpids.now < 2 ^ 32 }
    ensures opened { IfOk result (IsKnown (S.remaining source.old) (S.remaining source.new) framer.old framer.new
        (K.held sink.old) (K.held sink.new) dpids.now) }
    ensures end { IfErr result (IsNoSwitch (S.remaining source.old) (S.remaining source.new) framer.old framer.new
        (K.held sink.old) (K.held sink.new) dpids.now
        (S.faults source.old) (S.faults source.new) (S.is_reliable source.old)
        (K.faults sink.old) (K.faults sink.new) (K.wants sink.old) (K.wants sink.new) (K.is_reliable sink.old)) }
    ensures source { S.is_reliable source.new ≡ S.is_reliable source.old }
    ensures sink { K.is_reliable sink.new ≡ K.is_reliable sink.old }
{
    let mut place = chunk(alloc)?;
    introduced(rt, dpids, framer, source, sink, place.as_mut_slice())
}

// Reads the first frame, which is a HELLO.
fn first_hello<R: Wait, S: Source>(
    rt: &R,
    framer: &mut Framer,
    source: &mut S,
    place: &mut [u8],
) -> Result<(), OpenEnd>
    requires { 0 < length place.old }
    ensures opened { OnOk result (IsGreeted (S.remaining source.old) (S.remaining source.new) framer.old framer.new) }
    ensures end { IfErr result (IsNoFirst (S.remaining source.old) (S.remaining source.new) framer.old framer.new
        (S.faults source.old) (S.faults source.new) (S.is_reliable source.old)) }
    ensures quiet { OnOk result (S.faults source.new ≡ S.faults source.old) }
    ensures reliable { S.is_reliable source.new ≡ S.is_reliable source.old }
{
    let frame = next_frame(rt, framer, source, place)?;
    if is_hello(frame.as_slice()) {
        Ok(())
    } else {
        Err(OpenEnd::NoHello)
    }
}

// Greets a switch, and reads up to its features.
fn introduced<R: Wait, S: Source, K: Sink>(
    rt: &R,
    dpids: &List<u64>,
    framer: &mut Framer,
    source: &mut S,
    sink: &mut K,
    place: &mut [u8],
) -> Result<Greeted, OpenEnd>
    requires place { 0 < length place.old }
    requires few { length dpids.now < 2 ^ 32 }
    ensures opened { IfOk result (IsKnown (S.remaining source.old) (S.remaining source.new) framer.old framer.new
        (K.held sink.old) (K.held sink.new) dpids.now) }
    ensures end { IfErr result (IsNoSwitch (S.remaining source.old) (S.remaining source.new) framer.old framer.new
        (K.held sink.old) (K.held sink.new) dpids.now
        (S.faults source.old) (S.faults source.new) (S.is_reliable source.old)
        (K.faults sink.old) (K.faults sink.new) (K.wants sink.old) (K.wants sink.new) (K.is_reliable sink.old)) }
    ensures source { S.is_reliable source.new ≡ S.is_reliable source.old }
    ensures sink { K.is_reliable sink.new ≡ K.is_reliable sink.old }
{
    send(sink, &GREETING)?;
    first_hello(rt, framer, source, place)?;
    for _ in 0..PASSED {
        let frame = next_frame(rt, framer, source, place)?;
        if is_features(frame.as_slice()) {
            return named(dpids.as_slice(), frame.as_slice());
        }
        answer(sink, frame)?;
    }
    Err(OpenEnd::NoFeatures)
}

// The switch that a FEATURES_REPLY names.
fn named(dpids: &[u64], reply: &[u8]) -> Result<Greeted, OpenEnd>
    requires reply { 32 ≤ length reply.now }
    requires few { length dpids.now < 2 ^ 32 }
    ensures known { IfOk result (IsNamed dpids.now reply.now) }
    ensures unknown { IfErr result (IsNotNamed dpids.now reply.now) }
{
    let dpid = dpid_of(reply);
    match place_of(dpids, dpid) {
        Some(place) => Ok(Greeted {
            switch: place as u32,
            arp: matches_arp(reply),
        }),
        None => Err(OpenEnd::Unknown { dpid }),
    }
}
