//! A stream that comes in pieces, cut into frames.
ghost use Rattle.std.specs.Prelude.{◌≡◌, ◌++◌, ◌↔◌, [], IfOk, IfSome, IfErr, OnOk, OnErr, length};
ghost use Rattle.of10_frames.specs.Wire.{length_field};
ghost use Rattle.of10_frames.specs.Frames.{IsFrame, IsShort, IsUnfinished, IsCause};

use crate::wire::{HEADER, length_of};
use cv_io::{Bytes, Memory};
use std::alloc::Global;
use std::marker::Model;
use thiserror::Error;

/// Why a frame could not be given out.
#[derive(Clone, Copy, PartialEq, Eq, Debug, Error)]
pub enum FrameFault {
    /// The next header gives a length that is less than its own.
    #[error("a header gives the length {length}, which is below 8")]
    Short { length: u16 },
    #[error("out of memory")]
    Memory,
}

impl From<Memory> for FrameFault {
    ghost use Rattle.of10_frames.specs.declared.framer.FrameFault.TheVariants.{Memory};

    ghost from_gives = { λ _ fault. fault ≡ Memory };

    fn from(_wanted: Memory) -> FrameFault {
        FrameFault::Memory
    }
}

/// A stream of frames: takes its bytes in pieces of any length, and gives out each frame that is
/// whole. Contracts see it as the bytes that it keeps, those that were fed and not yet given out.
///
/// Each byte is moved a bounded number of times on its way: what was given out is dropped from the
/// buffer only where it is at least half of it.
#[derive(Drop, Debug)]
pub struct Framer {
    buffer: Vec<u8>,
    given: usize,
}

impl Model for Framer {
    ghost use Rattle.std.specs.Prelude.{List, ℕ, ◌≤◌, drop, vec_len};

    ghost Value = { List ℕ };

    ghost view = { λ framer. drop framer.given framer.buffer.items };

    ghost invariant = { λ framer. framer.given ≤ vec_len framer.buffer };
}

impl Framer {
    /// A framer that keeps nothing. It takes no memory until it is fed.
    pub fn new(alloc: Global) -> Self
        ensures { result ≡ [] }
    {
        Framer {
            buffer: Vec::new(alloc),
            given: 0,
        }
    }

    /// Takes the next piece of the stream.
    pub fn feed(&mut self, piece: &[u8]) -> Result<(), Memory>
        ensures fed { OnOk result (self.new ≡ self.old ++ piece.now) }
        ensures memory { OnErr result (self.new ≡ self.old) }
    {
        if self.given >= self.buffer.len() - self.given {
            self.buffer.drain(..self.given);
            self.given = 0;
        }
        self.buffer.extend_from_slice(piece)?;
        Ok(())
    }

    /// Takes out the next frame. None where the kept bytes hold no whole frame yet. A fault leaves
    /// the framer as it is.
    pub fn next(&mut self) -> Result<Option<Bytes>, FrameFault>
        // The bytes that were kept are the frame, then those that are kept now.
        ensures frame { IfOk result (λ next.
            IfSome next (λ frame. IsFrame frame × (self.old ≡ frame ++ self.new))) }

        ensures none { (result ≡ Ok None) ↔ IsUnfinished self.old }
        ensures short { IsShort self.old → result ≡ Err (FrameFault.Short (length_field self.old)) }
        ensures cause { IfErr result (λ fault. IsCause fault self.old) }

        ensures kept { (result ≡ Ok None) → self.new ≡ self.old }
        ensures err { OnErr result (self.new ≡ self.old) }
    {
        let kept = &self.buffer[self.given..];
        if kept.len() < 4 {
            return Ok(None);
        }
        let length = length_of(kept);
        let size = usize::from(length);
        if size < HEADER {
            return Err(FrameFault::Short { length });
        }
        if kept.len() < size {
            return Ok(None);
        }
        let frame = Bytes::from_slice(*self.buffer.allocator(), &kept[..size])?;
        self.given += size;
        Ok(Some(frame))
    }
}
