//! Whole streams.
ghost use Rattle.std.specs.Prelude.{IfOk, OnOk};
ghost use Rattle.std.specs.List.{flat_map};
ghost use Rattle.of10_frames.specs.Frames.{IsTheCut};
ghost use Rattle.of10_frames.specs.InsideStream.{AddsFrames};

use crate::framer::{FrameFault, Framer};
use cv_io::{Bytes, List, Memory};
use std::alloc::Global;

/// Takes out every frame up to bytes that don't begin with a whole one.
fn take_frames(framer: &mut Framer, frames: &mut List<Bytes>) -> Result<(), Memory>
    ensures { OnOk result (AddsFrames framer.old framer.new frames.old frames.new) }
{
    loop {
        match framer.next() {
            Ok(Some(frame)) => frames.push(frame)?,
            Ok(None) | Err(FrameFault::Short { .. }) => return Ok(()),
            Err(FrameFault::Memory) => return Err(Memory),
        }
    }
}

/// The frames of a stream that comes in these pieces, and a framer that keeps the rest.
pub fn frames_of(alloc: Global, pieces: &[Bytes]) -> Result<(List<Bytes>, Framer), Memory>
    // The pieces together are these frames, then a rest that doesn't begin with a whole frame. No
    // other frames are, so it doesn't matter how the stream was cut into pieces.
    ensures { IfOk result (λ all. IsTheCut (flat_map (λ piece. piece) pieces.now) all.0 all.1) }
{
    let mut framer = Framer::new(alloc);
    let mut frames = List::new(alloc);
    for piece in pieces {
        framer.feed(piece.as_slice())?;
        take_frames(&mut framer, &mut frames)?;
    }
    Ok((frames, framer))
}
