//! The loop that writes to a peer.
use super::desks::{Book, Call, Log, SESSION};
use cv_io::{Bytes, List, Memory};
use outside::{Clock, Failed, MemClock, MemSink, Sink};
use sessions::{WriteEnd, run_writer};
use std::alloc::Global;
use std::sync::Wait;
use std::test::*;

/// A writer over a sink whose calls fail so, at these seconds: how it ends, and what is written.
fn written<R: Wait>(
    rt: &R,
    alloc: Global,
    pass: &mut Log,
    fails: &[u64],
    seconds: &[u64],
) -> Result<(WriteEnd, Bytes), Memory> {
    let seconds = List::from_slice(alloc, seconds)?;
    let fails = List::from_slice(alloc, fails)?;
    let mut clock = MemClock::new(seconds);
    let mut sink = MemSink::new(Bytes::new(alloc), fails);
    let end = run_writer(rt, &Book {}, pass, &SESSION, &mut sink, &mut clock)?;
    Ok((end, sink.held))
}

/// The same, and the calls of the desk.
fn write<R: Wait>(
    rt: &R,
    alloc: Global,
    mut pass: Log,
    fails: &[u64],
    seconds: &[u64],
) -> Result<(WriteEnd, Bytes, List<Call>), Memory> {
    let written = written(rt, alloc, &mut pass, fails, seconds);
    let calls = pass.into_calls();
    let (end, held) = written?;
    Ok((end, held, calls))
}

#[test]
fn a_writer_that_waits(rt: HostRuntime) -> Result<(), Fail> {
    let pass = Log::new(rt.alloc(), 0, 3);
    let (end, held, calls) = write(&rt, rt.alloc(), pass, &[], &[5, 5, 6])?;
    assert_eq!(rt; end, WriteEnd::Closed { at: 7 });
    let want = [
        Call::Take,
        Call::Tick(5),
        Call::Take,
        Call::Take,
        Call::Tick(6),
        Call::Take,
    ];
    assert!(rt; calls.as_slice() == want.as_slice());
    assert!(rt; held.is_empty());
    Ok(())
}

/// A clock that notes whether each rest is told how many went before it.
#[derive(Drop)]
struct Resting {
    rests: u32,
    told: bool,
}

impl Clock for Resting {
    ghost use Rattle.std.specs.Prelude.{◌≡◌};

    ghost greatest = { λ _. 0 };

    ghost may = { λ _ moment. moment ≡ 0 };

    fn now(&mut self) -> u64 {
        0
    }

    fn rest(&mut self, turns: u32) {
        self.told = self.told && turns == self.rests;
        self.rests = self.rests.saturating_add(1);
    }
}

#[test]
fn a_rest_is_told_how_many_went_before(rt: HostRuntime) -> Result<(), Fail> {
    let mut pass = Log::new(rt.alloc(), 0, 3);
    let mut sink = MemSink::new(Bytes::new(rt.alloc()), List::new(rt.alloc()));
    let mut clock = Resting {
        rests: 0,
        told: true,
    };
    let end = run_writer(&rt, &Book {}, &mut pass, &SESSION, &mut sink, &mut clock);
    drop(pass);
    assert_eq!(rt; end?, WriteEnd::Closed { at: 7 });
    assert!(rt; clock.told && clock.rests == 3);
    Ok(())
}

/// A sink that collects, and notes how many writes went before each time that it is to send what it has.
#[derive(Drop)]
struct Collecting {
    writes: u32,
    sent: List<u32>,
}

impl Sink for Collecting {
    ghost use Rattle.std.specs.Prelude.{None, false};
    ghost use Rattle.outside.specs.Outside.{MOST};

    ghost held = { λ _. None };

    ghost faults = { λ _. MOST };

    ghost wants = { λ _. 0 };

    ghost is_reliable = { λ _. false };

    fn wants(&self) -> u64 {
        0
    }

    fn write(&mut self, piece: &[u8]) -> Result<usize, Failed> {
        self.writes = self.writes.saturating_add(1);
        Ok(piece.len())
    }

    fn flush(&mut self) -> Result<(), Failed> {
        match self.sent.push(self.writes) {
            Ok(()) => Ok(()),
            Err(_) => Err(Failed),
        }
    }
}

#[test]
fn what_was_collected_is_sent_where_nothing_waits(rt: HostRuntime) -> Result<(), Fail> {
    let mut pass = Log::waiting(rt.alloc(), messages(rt.alloc(), &[b"abc", b"de"])?);
    pass.empties = 1;
    let mut sink = Collecting {
        writes: 0,
        sent: List::new(rt.alloc()),
    };
    let mut clock = MemClock::new(List::new(rt.alloc()));
    let end = run_writer(&rt, &Book {}, &mut pass, &SESSION, &mut sink, &mut clock);
    drop(pass);
    assert_eq!(rt; end?, WriteEnd::Closed { at: 7 });
    assert!(rt; sink.sent.as_slice() == [2].as_slice());
    Ok(())
}

fn messages(alloc: Global, messages: &[&[u8]]) -> Result<List<Bytes>, Memory> {
    let mut list = List::new(alloc);
    for message in messages {
        list.push(Bytes::from_slice(alloc, message)?)?;
    }
    Ok(list)
}

/// Whether a writer of three messages, over a sink of which this call fails, ends so, writes this, and calls the desk
/// so at last.
fn writes<R: Wait>(
    rt: &R,
    alloc: Global,
    fails: u64,
    want: WriteEnd,
    written: &[u8],
    last: Call,
) -> Result<bool, Memory> {
    let pass = Log::waiting(alloc, messages(alloc, &[b"abc", b"", b"de"])?);
    let (end, held, calls) = write(rt, alloc, pass, &[fails], &[])?;
    Ok(end == want && held.as_slice() == written && calls.as_slice().last() == Some(&last))
}

#[test]
fn messages_are_written(rt: HostRuntime) -> Result<(), Fail> {
    let ended = WriteEnd::Closed { at: 7 };
    let fault = WriteEnd::WriteFault;
    assert!(rt; writes(&rt, rt.alloc(), 0, ended, b"abcde", Call::Take)?);
    assert!(rt; writes(&rt, rt.alloc(), 2, fault, b"abc", Call::Gone)?);
    Ok(())
}

/// A sink that takes a byte at a call.
#[derive(Drop)]
struct Narrow {
    sink: MemSink,
}

impl Sink for Narrow {
    ghost use Rattle.std.specs.Prelude.{None, false};

    ghost held = { λ _. None };

    ghost faults = { λ narrow. narrow.sink.faults };

    ghost wants = { λ narrow. narrow.sink.wants };

    ghost is_reliable = { λ _. false };

    fn wants(&self) -> u64 {
        self.sink.wants()
    }

    fn write(&mut self, piece: &[u8]) -> Result<usize, Failed> {
        self.sink.write(&piece[..1])
    }
}

/// A writer over a sink that takes a byte at a call, of which one call fails: how it ends, and what is written.
fn narrowed<R: Wait>(
    rt: &R,
    alloc: Global,
    pass: &mut Log,
    fails: u64,
) -> Result<(WriteEnd, Bytes), Memory> {
    let fails = List::from_slice(alloc, &[fails])?;
    let mut clock = MemClock::new(List::new(alloc));
    let mut sink = Narrow {
        sink: MemSink::new(Bytes::new(alloc), fails),
    };
    let end = run_writer(rt, &Book {}, pass, &SESSION, &mut sink, &mut clock)?;
    Ok((end, sink.sink.held))
}

/// Whether a writer of four messages over it ends by the call that fails, writes this, and posts at last that the
/// session went.
fn narrows<R: Wait>(rt: &R, alloc: Global, fails: u64, want: &[u8]) -> Result<bool, Memory> {
    let mut pass = Log::waiting(alloc, messages(alloc, &[b"abc", b"", b"de", b"fghijk"])?);
    let written = narrowed(rt, alloc, &mut pass, fails);
    let calls = pass.into_calls();
    let (end, held) = written?;
    Ok(
        end == WriteEnd::WriteFault
            && held.as_slice() == want
            && calls.as_slice().last() == Some(&Call::Gone),
    )
}

// Before the Nth call N - 1 bytes were written, wherever that is in a message.
#[test]
fn sinks_that_fail_later(rt: HostRuntime) -> Result<(), Fail> {
    let all = b"abcdefghijk";
    for written in 0..10usize {
        let fails = written as u64 + 1;
        assert!(rt;
            narrows(&rt, rt.alloc(), fails, &all[..written])?,
            "call {fails}"
        );
    }
    Ok(())
}
