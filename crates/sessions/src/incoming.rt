//! The next frame of a source.
ghost use Rattle.std.specs.Prelude.{◌≡◌, ◌++◌, ◌<◌, ◌≤◌, IfOk, IfErr, IfSome, Ok, None, OnErr, OnOk, length};
ghost use Rattle.outside.specs.Outside.{TakesNext};
ghost use Rattle.of10_frames.specs.Frames.{IsFrame, IsUnfinished};
ghost use Rattle.sessions.specs.InsideReading.{IsKeptStop, IsReadStop};
ghost use Rattle.sessions.specs.Reading.{HasNext, HasStopped, read_end};

use crate::ends::{OpenEnd, ReadEnd};
use cv_io::{Bytes, Memory};
use of10_frames::{FrameFault, Framer};
use outside::{Failed, Source};
use std::alloc::Global;
use std::sync::Wait;

/// How many bytes are asked of a source at once.
const CHUNK: usize = 16_384;

/// Why there is no next frame.
#[derive(Clone, Copy)]
pub(crate) enum Stop {
    Ended,
    Short { length: u16 },
    ReadFault,
    Memory,
}

impl Stop {
    pub(crate) fn end(self) -> Result<ReadEnd, Memory>
        ensures { result ≡ read_end self }
    {
        match self {
            Stop::Ended => Ok(ReadEnd::Ended),
            Stop::Short { length } => Ok(ReadEnd::Short { length }),
            Stop::ReadFault => Ok(ReadEnd::ReadFault),
            Stop::Memory => Err(Memory),
        }
    }
}

impl From<Memory> for Stop {
    ghost use Rattle.sessions.specs.declared.incoming.Stop.TheVariants as stops;

    ghost from_gives = { λ _ stop. stop ≡ stops.Memory };

    fn from(_wanted: Memory) -> Stop {
        Stop::Memory
    }
}

impl From<Stop> for OpenEnd {
    ghost use Rattle.sessions.specs.InsideReading.{open_end};

    ghost from_gives = { λ stop end. end ≡ open_end stop };

    fn from(stop: Stop) -> OpenEnd {
        match stop {
            Stop::Ended => OpenEnd::Ended,
            Stop::Short { length } => OpenEnd::Short { length },
            Stop::ReadFault => OpenEnd::ReadFault,
            Stop::Memory => OpenEnd::Memory,
        }
    }
}

/// A place that a source may read into.
pub(crate) fn chunk(alloc: Global) -> Result<Bytes, Memory>
    ensures { IfOk result (λ place. 0 < length place) }
{
    Ok(Bytes::from_vec(vec![in alloc; 0; CHUNK]?))
}

/// The next frame, as soon as it is whole. Where it is not kept it is read for, into the place.
pub(crate) fn next_frame<R: Wait, S: Source>(
    rt: &R,
    framer: &mut Framer,
    source: &mut S,
    place: &mut [u8],
) -> Result<Bytes, Stop>
    requires { 0 < length place.old }
    ensures frame { IfOk result (HasNext (S.remaining source.old) (S.remaining source.new) framer.old framer.new) }
    ensures stop { IfErr result (HasStopped (S.remaining source.old) (S.remaining source.new) framer.old framer.new
        (S.faults source.old) (S.faults source.new) (S.is_reliable source.old)) }
    ensures quiet { OnOk result (S.faults source.new ≡ S.faults source.old) }
    ensures reliable { S.is_reliable source.new ≡ S.is_reliable source.old }
{
    for _ in rt.forever() {
        if let Some(frame) = kept_frame(framer)? {
            return Ok(frame);
        }
        let read = read_more(source, place)?;
        framer.feed(&place[..read])?;
    }
    unreachable!()
}

// The next frame of those that are kept whole.
fn kept_frame(framer: &mut Framer) -> Result<Option<Bytes>, Stop>
    ensures frame { IfOk result (λ next. IfSome next (λ frame. IsFrame frame × (framer.old ≡ frame ++ framer.new))) }
    ensures none { (result ≡ Ok None) → IsUnfinished framer.old × (framer.new ≡ framer.old) }
    ensures kept { OnErr result (framer.new ≡ framer.old) }
    ensures stop { IfErr result (IsKeptStop framer.old) }
{
    match framer.next() {
        Ok(next) => Ok(next),
        Err(FrameFault::Short { length }) => Err(Stop::Short { length }),
        Err(FrameFault::Memory) => Err(Stop::Memory),
    }
}

// Reads some more bytes, at least one.
fn read_more<S: Source>(source: &mut S, place: &mut [u8]) -> Result<usize, Stop>
    requires { 0 < length place.old }
    ensures some { IfOk result (λ n. (0 < n) × (n ≤ length place.new)) }
    ensures bytes { IfOk result (λ n. TakesNext (S.remaining source.old) (S.remaining source.new) n place.new) }
    ensures quiet { IfOk result (λ n. S.faults source.new ≡ S.faults source.old) }
    ensures stop { IfErr result (IsReadStop (S.remaining source.old) (S.remaining source.new)
        (S.faults source.old) (S.faults source.new) (S.is_reliable source.old)) }
    ensures reliable { S.is_reliable source.new ≡ S.is_reliable source.old }
{
    match source.read(place) {
        Ok(0) => Err(Stop::Ended),
        Ok(read) => Ok(read),
        Err(Failed) => Err(Stop::ReadFault),
    }
}
