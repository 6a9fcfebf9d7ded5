//! The loop that posts what a peer sends.
use super::desks::{Book, Call, Log, SESSION};
use cv_io::{Bytes, List, Memory};
use of10_frames::Framer;
use outside::{Failed, MemSource, Source};
use sessions::{ReadEnd, run_reader};
use std::alloc::Global;
use std::sync::Wait;
use std::test::*;

const BARRIER: &[u8] = &[1, 18, 0, 8, 0, 0, 0, 10];

fn framer_of(alloc: Global, kept: &[u8]) -> Result<Framer, Memory> {
    let mut framer = Framer::new(alloc);
    framer.feed(kept)?;
    Ok(framer)
}

/// A reader over a source of these bytes whose calls fail so, after the framer keeps some: how it ends.
fn end_of<R: Wait>(
    rt: &R,
    alloc: Global,
    pass: &mut Log,
    kept: &[u8],
    sent: &[u8],
    fails: &[u64],
) -> Result<ReadEnd, Memory> {
    let sent = Bytes::from_slice(alloc, sent)?;
    let fails = List::from_slice(alloc, fails)?;
    let mut framer = framer_of(alloc, kept)?;
    let mut source = MemSource::new(sent, fails);
    run_reader(
        rt,
        alloc,
        &Book {},
        pass,
        &SESSION,
        &mut framer,
        &mut source,
    )
}

/// The same where so many frames are heard: how it ends, how much is posted, and the calls of the desk.
fn read<R: Wait>(
    rt: &R,
    alloc: Global,
    kept: &[u8],
    sent: &[u8],
    fails: &[u64],
    hears: u32,
) -> Result<(ReadEnd, usize, List<Call>), Memory> {
    let mut pass = Log::new(alloc, hears, 0);
    let end = end_of(rt, alloc, &mut pass, kept, sent, fails);
    let posts = pass.posts.len();
    let calls = pass.into_calls();
    Ok((end?, posts, calls))
}

/// Whether a reader of these bytes that are kept and sent ends so, with these calls of a desk that hears all.
fn reads<R: Wait>(
    rt: &R,
    alloc: Global,
    kept: &[u8],
    sent: &[u8],
    fails: &[u64],
    want: ReadEnd,
    calls: &[Call],
) -> Result<bool, Memory> {
    let (end, _, called) = read(rt, alloc, kept, sent, fails, 9)?;
    Ok(end == want && called.as_slice() == calls)
}

const HEARD: &[Call] = &[Call::Hear, Call::Gone];

const NOT_HEARD: &[Call] = &[Call::Gone];

#[test]
fn a_desk_that_closes(rt: HostRuntime) -> Result<(), Fail> {
    let two = [1, 18, 0, 8, 0, 0, 0, 10, 1, 18, 0, 8, 0, 0, 0, 10];
    let (end, posts, calls) = read(&rt, rt.alloc(), &[], &two, &[], 1)?;
    assert_eq!(rt; end, ReadEnd::Closed { at: 7 });
    assert!(rt; calls.as_slice() == [Call::Hear, Call::Hear].as_slice());
    assert_eq!(rt; posts, 1);
    Ok(())
}

#[test]
fn sources_that_end(rt: HostRuntime) -> Result<(), Fail> {
    let alloc = rt.alloc();
    let sent = [1, 18, 0, 8, 0, 0, 0, 10, 1, 18, 0];
    assert!(rt; reads(&rt, alloc, &[], &sent, &[], ReadEnd::Ended, HEARD)?);
    // a frame of 80 bytes, cut at each place
    let mut frame = [0u8; 80];
    frame[..4].copy_from_slice(&[1, 14, 0, 80]);
    for cut in 0..80usize {
        assert!(rt;
            reads(
                &rt,
                alloc,
                &[],
                &frame[..cut],
                &[],
                ReadEnd::Ended,
                NOT_HEARD
            )?
        );
    }
    Ok(())
}

#[test]
fn short_lengths(rt: HostRuntime) -> Result<(), Fail> {
    for length in 0..8u8 {
        let sent = [1, 18, 0, 8, 0, 0, 0, 10, 1, 18, 0, length];
        let want = ReadEnd::Short {
            length: u16::from(length),
        };
        assert!(rt; reads(&rt, rt.alloc(), &[], &sent, &[], want, HEARD)?);
    }
    Ok(())
}

// The first read gives all, and the second fails: what was whole is posted.
#[test]
fn a_source_that_fails(rt: HostRuntime) -> Result<(), Fail> {
    let (alloc, fault) = (rt.alloc(), ReadEnd::ReadFault);
    assert!(rt; reads(&rt, alloc, &[], BARRIER, &[2], fault, HEARD)?);
    assert!(rt; reads(&rt, alloc, &[], BARRIER, &[1], fault, NOT_HEARD)?);
    Ok(())
}

/// A source that gives three bytes at a call.
#[derive(Drop)]
struct Dripping {
    source: MemSource,
}

impl Source for Dripping {
    ghost use Rattle.std.specs.Prelude.{None, false};

    ghost remaining = { λ _. None };

    ghost faults = { λ dripping. dripping.source.faults };

    ghost is_reliable = { λ _. false };

    fn read(&mut self, into: &mut [u8]) -> Result<usize, Failed> {
        let most = into.len().min(3);
        self.source.read(&mut into[..most])
    }
}

/// Four frames that come three bytes at a call, of which one call fails.
fn four_frames(alloc: Global, fails: u64) -> Result<Dripping, Memory> {
    let mut bytes = Bytes::new(alloc);
    for _ in 0..4 {
        bytes.extend_from_slice(BARRIER)?;
    }
    let fails = List::from_slice(alloc, &[fails])?;
    Ok(Dripping {
        source: MemSource::new(bytes, fails),
    })
}

/// How a reader of them ends.
fn end_of_dripping<R: Wait>(
    rt: &R,
    alloc: Global,
    pass: &mut Log,
    fails: u64,
) -> Result<ReadEnd, Memory> {
    let mut source = four_frames(alloc, fails)?;
    let mut framer = Framer::new(alloc);
    run_reader(
        rt,
        alloc,
        &Book {},
        pass,
        &SESSION,
        &mut framer,
        &mut source,
    )
}

/// Whether it ends by the call that fails, with these calls of a desk that hears all.
fn drips<R: Wait>(rt: &R, alloc: Global, fails: u64, calls: &[Call]) -> Result<bool, Memory> {
    let mut pass = Log::new(alloc, 9, 0);
    let end = end_of_dripping(rt, alloc, &mut pass, fails);
    let called = pass.into_calls();
    Ok(end? == ReadEnd::ReadFault && called.as_slice() == calls)
}

const HEARD_TWO: &[Call] = &[Call::Hear, Call::Hear, Call::Gone];

const HEARD_THREE: &[Call] = &[Call::Hear, Call::Hear, Call::Hear, Call::Gone];

// Before the Nth call 3 (N - 1) bytes were read: of frames of eight bytes those that are whole are posted.
#[test]
fn sources_that_fail_later(rt: HostRuntime) -> Result<(), Fail> {
    for (fails, calls) in [
        (1, NOT_HEARD),
        (2, NOT_HEARD),
        (3, NOT_HEARD),
        (4, HEARD),
        (5, HEARD),
        (6, HEARD),
        (7, HEARD_TWO),
        (8, HEARD_TWO),
        (9, HEARD_THREE),
        (10, HEARD_THREE),
    ] {
        assert!(rt; drips(&rt, rt.alloc(), fails, calls)?, "call {fails}");
    }
    Ok(())
}

// A frame is whole wherever it was cut between what the framer keeps and what is read.
#[test]
fn kept_bytes_come_first(rt: HostRuntime) -> Result<(), Fail> {
    for cut in 0..9usize {
        let (kept, sent) = (&BARRIER[..cut], &BARRIER[cut..]);
        assert!(rt; reads(&rt, rt.alloc(), kept, sent, &[], ReadEnd::Ended, HEARD)?);
    }
    Ok(())
}
