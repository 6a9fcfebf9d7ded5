//! One connection of an endpoint.
ghost use Rattle.std.specs.Prelude.{◌≡◌, [], IfErr, IfOk, OnErr};
ghost use Rattle.endpoint_works.specs.Rounds.{RoundPosts, RoundWants};
ghost use Rattle.endpoint_works.specs.Sides.{IsFew, IsOpenedFor, IsServedSide, IsUnopened, seen};
ghost use Rattle.sessions.specs.Streams.{SinkFailed};

use crate::handover::{Hand, Handover};
use crate::side::Side;
use cv_io::{Memory, Who};
use of10_frames::Framer;
use outside::{Sink, Source, has_risen};
use sessions::{Desk, OpenEnd, ReadEnd, open_member, open_switch, run_reader};
use std::alloc::Global;
use std::sync::Wait;

/// What became of a connection.
#[derive(Clone, Copy, PartialEq, Eq, Debug)]
pub enum RoundEnd {
    /// It wasn't opened.
    Unopened { end: OpenEnd },
    /// Its session was read to an end.
    Read { end: ReadEnd },
}

/// Opens a connection, posts that its session comes up, hands its sink over, and reads its source to an end. A sink
/// that fails for want of memory is want of memory.
pub fn serve_round<R: Wait, D: Desk, S: Source, K: Sink + Drop>(
    rt: &R,
    alloc: Global,
    desk: &D,
    pass: &mut D::Pass,
    side: &Side,
    source: &mut S,
    mut sink: K,
    handover: &Handover<K>,
) -> Result<RoundEnd, Memory>
    requires pass { D.admits desk.now pass.old }
    requires side { IsServedSide (D.serves desk.now) side.now }
    ensures pass { D.admits desk.now pass.new }
    ensures posted { IfOk result (RoundPosts side.now (S.remaining source.old) (S.remaining source.new)
        (K.held sink) (K.is_reliable sink) (D.posts pass.old) (D.posts pass.new) (D.ended pass.new)
        (S.faults source.old) (S.faults source.new) (S.is_reliable source.old)) }
    ensures memory { OnErr result (RoundWants side.now (S.remaining source.old) (S.remaining source.new)
        (K.held sink) (K.is_reliable sink) (D.posts pass.old) (D.posts pass.new)) }
{
    let mut framer = Framer::new(alloc);
    let wants = sink.wants();
    let (who, arp) = match open(rt, alloc, side, &mut framer, source, &mut sink) {
        Ok(opened) => opened,
        Err(OpenEnd::Memory) => return Err(Memory),
        Err(OpenEnd::WriteFault) if has_risen(wants, sink.wants()) => return Err(Memory),
        Err(end) => return Ok(RoundEnd::Unopened { end }),
    };
    let session = desk.up(pass, who, arp)?;
    handover.give(rt, Hand { sink, session });
    let end = run_reader(rt, alloc, desk, pass, &session, &mut framer, source)?;
    Ok(RoundEnd::Read { end })
}

/// Opens a connection: who is at its other end, and whether it matches ARP addresses.
fn open<R: Wait, S: Source, K: Sink>(
    rt: &R,
    alloc: Global,
    side: &Side,
    framer: &mut Framer,
    source: &mut S,
    sink: &mut K,
) -> Result<(Who, bool), OpenEnd>
    requires framer { framer.old ≡ [] }
    requires few { IsFew side.now }
    ensures opened { IfOk result (λ up. IsOpenedFor (S.remaining source.old) (S.remaining source.new) framer.new
        (seen (K.held sink.old) (K.held sink.new) (K.faults sink.old) (K.faults sink.new)
        (K.wants sink.old) (K.wants sink.new) (K.is_reliable sink.old)) side.now up.0 up.1) }
    ensures end { IfErr result (IsUnopened (S.remaining source.old) (S.remaining source.new) framer.new
        (seen (K.held sink.old) (K.held sink.new) (K.faults sink.old) (K.faults sink.new)
        (K.wants sink.old) (K.wants sink.new) (K.is_reliable sink.old)) side.now
        (S.faults source.old) (S.faults source.new) (S.is_reliable source.old)) }
    ensures failed { IfErr result (λ end. end ≡ OpenEnd.WriteFault → SinkFailed (K.faults sink.old) (K.faults sink.new)
        (K.wants sink.old) (K.wants sink.new) (K.is_reliable sink.old)) }
    ensures reliable { S.is_reliable source.new ≡ S.is_reliable source.old }
{
    match side {
        Side::Member { index } => {
            open_member(rt, alloc, framer, source, sink)?;
            Ok((Who::Member(*index), false))
        }
        Side::Switch { dpids } => {
            let greeted = open_switch(rt, alloc, dpids, framer, source, sink)?;
            Ok((Who::Switch(greeted.switch), greeted.arp))
        }
    }
}
