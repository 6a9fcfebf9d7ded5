//! How a connection is opened.
use cv_io::{Bytes, List, Memory};
use of10_frames::Framer;
use outside::{MemSink, MemSource};
use sessions::{Greeted, OpenEnd, open_member, open_switch};
use std::alloc::Global;
use std::sync::Wait;
use std::test::*;

const HELLO: &[u8] = &[1, 0, 0, 8, 0, 0, 0, 0];

const LATER_HELLO: &[u8] = &[4, 0, 0, 8, 0, 0, 0, 1];

const EARLIER_HELLO: &[u8] = &[0, 0, 0, 8, 0, 0, 0, 1];

const SHORT: &[u8] = &[1, 0, 0, 7];

/// FEATURES_REPLYs that are passed over: one without its fixed part, and one of a later version.
const CUT_FEATURES: &[u8] = &[1, 6, 0, 8, 0, 0, 0, 0];

const LATER_FEATURES: &[u8] = &[4, 6, 0, 8, 0, 0, 0, 0];

const ECHO: &[u8] = &[1, 2, 0, 10, 0, 0, 0, 9, 0xaa, 0xbb];

const ECHOED: &[u8] = &[1, 3, 0, 10, 0, 0, 0, 9, 0xaa, 0xbb];

const GREETING: &[u8] = &[1, 0, 0, 8, 0, 0, 0, 0, 1, 5, 0, 8, 0, 0, 0, 0];

/// The FEATURES_REPLY of datapath id 1, with capabilities 0x87, of no ports.
const FEATURES: &[u8] = &[
    1, 6, 0, 32, 0, 0, 0, 0, 0, 0, 0, 0, 0, 0, 0, 1, 0, 0, 1, 0, 1, 0, 0, 0, 0, 0, 0, 0x87, 0, 0,
    0x0f, 0xff,
];

/// Of datapath id 9, without the capability to match ARP addresses.
const STRANGE: &[u8] = &[
    1, 6, 0, 32, 0, 0, 0, 0, 0, 0, 0, 0, 0, 0, 0, 9, 0, 0, 1, 0, 1, 0, 0, 0, 0, 0, 0, 0x07, 0, 0,
    0x0f, 0xff,
];

fn bytes_of(alloc: Global, parts: &[&[u8]]) -> Result<Bytes, Memory> {
    let mut bytes = Bytes::new(alloc);
    for part in parts {
        bytes.extend_from_slice(part)?;
    }
    Ok(bytes)
}

/// The opening of a switch that sends these bytes, where 1 and 2 are known: how it went, and what the switch was sent.
fn switch<R: Wait>(
    rt: &R,
    alloc: Global,
    sent: Bytes,
    read_fails: &[u64],
    write_fails: &[u64],
) -> Result<(Result<Greeted, OpenEnd>, Bytes), Memory> {
    let dpids = List::from_slice(alloc, &[1, 2])?;
    let read_fails = List::from_slice(alloc, read_fails)?;
    let write_fails = List::from_slice(alloc, write_fails)?;
    let mut framer = Framer::new(alloc);
    let mut source = MemSource::new(sent, read_fails);
    let mut sink = MemSink::new(Bytes::new(alloc), write_fails);
    let opened = open_switch(rt, alloc, &dpids, &mut framer, &mut source, &mut sink);
    Ok((opened, sink.held))
}

/// The same of a controller.
fn member<R: Wait>(
    rt: &R,
    alloc: Global,
    sent: Bytes,
    read_fails: &[u64],
    write_fails: &[u64],
) -> Result<(Result<(), OpenEnd>, Bytes), Memory> {
    let read_fails = List::from_slice(alloc, read_fails)?;
    let write_fails = List::from_slice(alloc, write_fails)?;
    let mut framer = Framer::new(alloc);
    let mut source = MemSource::new(sent, read_fails);
    let mut sink = MemSink::new(Bytes::new(alloc), write_fails);
    let opened = open_member(rt, alloc, &mut framer, &mut source, &mut sink);
    Ok((opened, sink.held))
}

/// Whether a switch that sends these bytes is opened so, and is sent these.
fn opens<R: Wait>(
    rt: &R,
    alloc: Global,
    sent: &[&[u8]],
    want: Result<Greeted, OpenEnd>,
    written: &[&[u8]],
) -> Result<bool, Memory> {
    let (opened, held) = switch(rt, alloc, bytes_of(alloc, sent)?, &[], &[])?;
    Ok(opened == want && held == bytes_of(alloc, written)?)
}

#[test]
fn known_switches(rt: HostRuntime) -> Result<(), Fail> {
    let a = rt.alloc();
    let known = Ok(Greeted {
        switch: 0,
        arp: true,
    });
    let unknown = Err(OpenEnd::Unknown { dpid: 9 });
    assert!(rt; opens(&rt, a, &[HELLO, FEATURES], known, &[GREETING])?);
    assert!(rt; opens(&rt, a, &[LATER_HELLO, HELLO, FEATURES], known, &[GREETING])?);
    assert!(rt; opens(&rt, a, &[HELLO, ECHO, FEATURES], known, &[GREETING, ECHOED])?);
    assert!(rt; opens(&rt, a, &[HELLO, STRANGE], unknown, &[GREETING])?);
    Ok(())
}

#[test]
fn other_peers(rt: HostRuntime) -> Result<(), Fail> {
    let short = OpenEnd::Short { length: 7 };
    let rows: [(&[&[u8]], OpenEnd); 8] = [
        (&[], OpenEnd::Ended),
        (&[HELLO], OpenEnd::Ended),
        (&[&HELLO[..5]], OpenEnd::Ended),
        (&[HELLO, CUT_FEATURES, LATER_FEATURES], OpenEnd::Ended),
        (&[SHORT], short),
        (&[HELLO, SHORT], short),
        (&[ECHO, HELLO], OpenEnd::NoHello),
        (&[EARLIER_HELLO], OpenEnd::NoHello),
    ];
    for (sent, end) in &rows {
        assert!(rt; opens(&rt, rt.alloc(), sent, Err(*end), &[GREETING])?);
    }
    Ok(())
}

/// A frame, and then another so often.
fn repeated(alloc: Global, first: &[u8], frame: &[u8], count: u32) -> Result<Bytes, Memory> {
    let mut bytes = Bytes::from_slice(alloc, first)?;
    for _ in 0..count {
        bytes.extend_from_slice(frame)?;
    }
    Ok(bytes)
}

/// Whether a switch that sends so many requests before its features is opened so, and has them answered.
fn answers<R: Wait>(
    rt: &R,
    alloc: Global,
    count: u32,
    want: Result<(), OpenEnd>,
) -> Result<bool, Memory> {
    let answered = repeated(alloc, GREETING, ECHOED, count)?;
    let mut sent = repeated(alloc, HELLO, ECHO, count)?;
    sent.extend_from_slice(FEATURES)?;
    let (opened, held) = switch(rt, alloc, sent, &[], &[])?;
    Ok(opened.map(|_| ()) == want && held == answered)
}

#[test]
fn sixty_four_frames(rt: HostRuntime) -> Result<(), Fail> {
    assert!(rt; answers(&rt, rt.alloc(), 63, Ok(()))?);
    assert!(rt; answers(&rt, rt.alloc(), 64, Err(OpenEnd::NoFeatures))?);
    Ok(())
}

#[test]
fn switches_that_close(rt: HostRuntime) -> Result<(), Fail> {
    let alloc = rt.alloc();
    let whole = bytes_of(alloc, &[HELLO, FEATURES])?;
    for cut in 0..40usize {
        let sent = Bytes::from_slice(alloc, &whole.as_slice()[..cut.min(whole.len())])?;
        let (opened, held) = switch(&rt, alloc, sent, &[], &[])?;
        assert_eq!(rt; opened, Err(OpenEnd::Ended));
        assert!(rt; held.as_slice() == GREETING);
    }
    Ok(())
}

/// Whether a controller that sends these bytes is opened so, and is sent a HELLO.
fn greets<R: Wait>(
    rt: &R,
    alloc: Global,
    sent: &[&[u8]],
    want: Result<(), OpenEnd>,
) -> Result<bool, Memory> {
    let (opened, held) = member(rt, alloc, bytes_of(alloc, sent)?, &[], &[])?;
    Ok(opened == want && held.as_slice() == HELLO)
}

#[test]
fn controllers(rt: HostRuntime) -> Result<(), Fail> {
    let rows: [(&[&[u8]], Result<(), OpenEnd>); 7] = [
        (&[], Err(OpenEnd::Ended)),
        (&[&HELLO[..7]], Err(OpenEnd::Ended)),
        (&[SHORT], Err(OpenEnd::Short { length: 7 })),
        (&[ECHO], Err(OpenEnd::NoHello)),
        (&[HELLO], Ok(())),
        (&[LATER_HELLO], Ok(())),
        (&[HELLO, ECHO], Ok(())),
    ];
    for (sent, want) in &rows {
        assert!(rt; greets(&rt, rt.alloc(), sent, *want)?);
    }
    Ok(())
}

/// Whether a controller that sends a HELLO isn't opened where these calls fail, and is sent this.
fn member_fails<R: Wait>(
    rt: &R,
    alloc: Global,
    read_fails: &[u64],
    write_fails: &[u64],
    want: OpenEnd,
    written: &[u8],
) -> Result<bool, Memory> {
    let sent = bytes_of(alloc, &[HELLO])?;
    let (opened, held) = member(rt, alloc, sent, read_fails, write_fails)?;
    Ok(opened == Err(want) && held.as_slice() == written)
}

/// Whether a switch that sends these bytes isn't opened where these calls fail, and is greeted.
fn switch_fails<R: Wait>(
    rt: &R,
    alloc: Global,
    sent: &[&[u8]],
    read_fails: &[u64],
    write_fails: &[u64],
    want: OpenEnd,
) -> Result<bool, Memory> {
    let sent = bytes_of(alloc, sent)?;
    let (opened, held) = switch(rt, alloc, sent, read_fails, write_fails)?;
    Ok(opened == Err(want) && held.as_slice() == GREETING)
}

#[test]
fn faults(rt: HostRuntime) -> Result<(), Fail> {
    let alloc = rt.alloc();
    let (read, write) = (OpenEnd::ReadFault, OpenEnd::WriteFault);
    assert!(rt; member_fails(&rt, alloc, &[1], &[], read, HELLO)?);
    assert!(rt; member_fails(&rt, alloc, &[], &[1], write, &[])?);
    assert!(rt; switch_fails(&rt, alloc, &[HELLO, FEATURES], &[1], &[], read)?);
    // the answer to the echo is not written
    assert!(rt; switch_fails(&rt, alloc, &[HELLO, ECHO, FEATURES], &[], &[2], write)?);
    Ok(())
}
