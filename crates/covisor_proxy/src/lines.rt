//! The lines of a script, which is read a chunk at a time and never held whole.
ghost use Rattle.std.specs.Prelude.{◌≡◌, [], IfOk, OnErr, OnOk, Some, None, length, false, ◌≤◌, ◌<◌, MatchOption};
ghost use Rattle.outside.specs.Outside.{Rose};
ghost use Rattle.covisor_proxy.specs.Chunks.{Gave, GoesOn, IsAtEnd, before_feed};

use cv_io::{Bytes, Memory};
use outside::{Failed, Source};
use std::alloc::Global;
use std::marker::Model;

/// How many bytes are asked of the source at once.
const CHUNK: usize = 65_536;

/// How far the present line is read.
#[derive(Clone, Copy, PartialEq, Eq, Debug)]
pub(crate) enum Taken {
    /// Its line feed was read.
    Whole,
    /// More bytes are wanted.
    Part,
}

/// A reader of lines.
#[derive(Drop)]
pub(crate) struct Lines {
    chunk: Vec<u8>,
    /// What of the chunk isn't taken into a line yet.
    start: usize,
    end: usize,
    line: Bytes,
}

impl Model for Lines {
    ghost use Rattle.std.specs.Prelude.{◌≤◌, ◌≡◌, slice_range};
    ghost use Rattle.std.specs.Vec.{vec_len};
    ghost use Rattle.covisor_proxy.specs.Chunks.{LinesOf};

    ghost Value = { LinesOf };

    ghost view = { λ s. record { line = s.line; unread = slice_range s.chunk.items s.start s.end } };

    ghost invariant = { λ s. (s.start ≤ s.end) × (s.end ≤ vec_len s.chunk) × (vec_len s.chunk ≡ 65536) };
}

impl Lines {
    pub(crate) fn new(alloc: Global) -> Result<Lines, Memory>
        ensures { IfOk result (λ lines. lines ≡ record { line = []; unread = [] }) }
    {
        Ok(Lines {
            chunk: vec![in alloc; 0; CHUNK]?,
            start: 0,
            end: 0,
            line: Bytes::new(alloc),
        })
    }

    /// The bytes of the present line, without its line feed.
    pub(crate) fn line(&self) -> &[u8]
        ensures { result.now ≡ self.now.line }
    {
        self.line.as_slice()
    }

    /// Begins the next line.
    pub(crate) fn clear(&mut self)
        ensures { self.new ≡ record self.old { line = [] } }
    {
        self.line.clear();
    }

    /// Takes bytes of the chunk into the present line, up to its line feed.
    pub(crate) fn take(&mut self) -> Result<Taken, Memory>
        ensures { IfOk result (λ taken. GoesOn taken self.old self.new) }
    {
        let unread = &self.chunk.as_slice()[self.start..self.end];
        match feed_in(unread) {
            Some(place) => {
                self.line.extend_from_slice(&unread[..place])?;
                self.start += place + 1;
                Ok(Taken::Whole)
            }
            None => {
                self.line.extend_from_slice(unread)?;
                self.start = self.end;
                Ok(Taken::Part)
            }
        }
    }

    /// Reads the next chunk in place of the present one; false at the end of the script.
    pub(crate) fn fill<S: Source>(&mut self, input: &mut S) -> Result<bool, Failed>
        ensures gave { OnOk result (Gave (S.remaining input.old) (S.remaining input.new) self.new.unread) }
        ensures ended { IfOk result (λ going. going ≡ false
            → IsAtEnd (S.remaining input.new) × (self.new.unread ≡ [])) }
        ensures line { self.new.line ≡ self.old.line }
        ensures kept { OnErr result (S.remaining input.new ≡ S.remaining input.old) }
        ensures quiet { OnOk result (S.faults input.new ≡ S.faults input.old) }
        ensures fault { OnErr result (Rose (S.faults input.old) (S.faults input.new)) }
    {
        let read = input.read(self.chunk.as_mut_slice())?;
        self.start = 0;
        self.end = read;
        Ok(read > 0)
    }
}

/// The place of the first line feed.
fn feed_in(bytes: &[u8]) -> Option<usize>
    ensures { MatchOption result (length bytes.now ≤ before_feed bytes.now)
        (λ place. (place ≡ before_feed bytes.now) × (place < length bytes.now)) }
{
    bytes.iter().position(|byte| *byte == b'\n')
}
