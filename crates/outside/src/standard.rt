//! Sources and sinks over the readers and writers of std, as files, standard input and output. They
//! tell of the bytes what the reader or the writer told as they were made.
ghost use Rattle.std.specs.Prelude.{◌≡◌, IsSome};
ghost use Rattle.std.specs.Io.{ReadsAtMost, WritesAtMost};
ghost use Rattle.std.specs.Io.KnownBytes.{ReadConsumes, WriteAppends};

use crate::calls::Failed;
use crate::sink::Sink;
use crate::source::Source;
use std::io::{self, ErrorKind, Read, Write};
use std::snapshot::Snapshot;

/// A read, which is tried again where it is interrupted.
fn read_again<R: Read>(reader: &mut R, into: &mut [u8]) -> io::Result<usize>
    ensures bound { ReadsAtMost result into.new }
    ensures bytes { ReadConsumes (R.remaining reader.old) (R.remaining reader.new) result into.new }
{
    for _ in 0..u64::MAX {
        match reader.read(into) {
            Err(fault) if fault.kind() == ErrorKind::Interrupted => {}
            result => return result,
        }
    }
    Err(io::Error::from(ErrorKind::TimedOut))
}

/// A write, which is tried again where it is interrupted.
fn write_again<W: Write>(writer: &mut W, piece: &[u8]) -> io::Result<usize>
    ensures bound { WritesAtMost result piece.now }
    ensures bytes { WriteAppends (W.contents writer.old) (W.contents writer.new) result piece.now }
{
    for _ in 0..u64::MAX {
        match writer.write(piece) {
            Err(fault) if fault.kind() == ErrorKind::Interrupted => {}
            result => return result,
        }
    }
    Err(io::Error::from(ErrorKind::TimedOut))
}

/// A source over a reader of std. A read that is interrupted is tried again.
#[derive(Drop)]
pub struct Incoming<R: Read> {
    reader: R,
    faults: u64,
    begun: Snapshot<R>,
    ghost told: { IsSome (R.remaining begun.value) → IsSome (R.remaining reader) },
}

impl<R: Read> Incoming<R> {
    pub fn new(reader: R) -> Self
        ensures reader { result.reader ≡ reader }
        ensures begun { result.begun.value ≡ reader }
        ensures faults { result.faults ≡ 0 }
    {
        let begun = Snapshot::of(&reader);
        Incoming {
            reader,
            faults: 0,
            begun,
        }
    }
}

impl<R: Read> Source for Incoming<R> {
    ghost use Rattle.std.specs.Prelude.{false};
    ghost use Rattle.outside.specs.Outside.{if_told};

    ghost remaining = { λ s. if_told (R.remaining s.begun.value) (R.remaining s.reader) };

    ghost faults = { λ s. s.faults };

    ghost is_reliable = { λ _. false };

    fn read(&mut self, into: &mut [u8]) -> Result<usize, Failed> {
        match read_again(&mut self.reader, into) {
            Ok(taken) => Ok(taken),
            Err(_) => {
                self.faults = self.faults.saturating_add(1);
                Err(Failed)
            }
        }
    }
}

/// A sink over a writer of std. A write that is interrupted is tried again, and one that takes
/// nothing is a failure.
#[derive(Drop)]
pub struct Outgoing<W: Write> {
    writer: W,
    faults: u64,
    begun: Snapshot<W>,
    ghost told: { IsSome (W.contents begun.value) → IsSome (W.contents writer) },
}

impl<W: Write> Outgoing<W> {
    pub fn new(writer: W) -> Self
        ensures writer { result.writer ≡ writer }
        ensures begun { result.begun.value ≡ writer }
        ensures faults { result.faults ≡ 0 }
    {
        let begun = Snapshot::of(&writer);
        Outgoing {
            writer,
            faults: 0,
            begun,
        }
    }
}

impl<W: Write> Sink for Outgoing<W> {
    ghost use Rattle.std.specs.Prelude.{false};
    ghost use Rattle.outside.specs.Outside.{if_told};

    ghost held = { λ s. if_told (W.contents s.begun.value) (W.contents s.writer) };

    ghost faults = { λ s. s.faults };

    ghost wants = { λ _. 0 };

    ghost is_reliable = { λ _. false };

    fn wants(&self) -> u64 {
        0
    }

    fn write(&mut self, piece: &[u8]) -> Result<usize, Failed> {
        match write_again(&mut self.writer, piece) {
            Ok(taken) if taken > 0 => Ok(taken),
            _ => {
                self.faults = self.faults.saturating_add(1);
                Err(Failed)
            }
        }
    }
}
