//! Streams that are cut into frames, and the ERROR message.
use cv_io::{Bytes, List};
use of10_frames::{FrameFault, Framer, error, frames_of, header, is_frame};
use std::alloc::Global;
use std::process::Abort;
use std::test::*;

/// A BARRIER_REQUEST of transaction id 10.
const BARRIER: [u8; 8] = [0x01, 0x12, 0x00, 0x08, 0x00, 0x00, 0x00, 0x0a];

/// A HELLO, and a SET_CONFIG of 12 bytes after it.
const TWO: [u8; 20] = [
    1, 0, 0, 8, 0, 0, 0, 0, 1, 9, 0, 12, 0, 0, 0, 1, 0, 0, 0xff, 0xff,
];

#[test]
fn headers(rt: HostRuntime) {
    assert_eq!(rt; header(0x12, 8, 10), BARRIER);
    assert_eq!(rt;
        header(14, 0x0150, 0x0102_0304),
        [1, 14, 1, 0x50, 1, 2, 3, 4]
    );
    for (bytes, whole) in [
        (&BARRIER[..], true),
        (&BARRIER[..7], false),
        (&TWO[..8], true),
        (&TWO[..], false),
        (&TWO[8..], true),
        (&[1, 0, 0, 4][..], false),
        (&[][..], false),
    ] {
        assert_eq!(rt; is_frame(bytes), whole, "at {bytes:?}");
    }
}

/// Whether no frame is whole yet.
fn is_waiting(framer: &mut Framer) -> bool {
    matches!(framer.next(), Ok(None))
}

/// A frame comes once its last byte is there.
fn feed_in_two(rt: &impl Abort, framer: &mut Framer) -> Result<(), Fail> {
    framer.feed(&BARRIER[..7])?;
    assert!(rt; is_waiting(framer));
    framer.feed(&BARRIER[7..])?;
    let frame = framer.next()?.ok_or("the frame is whole")?;
    assert_eq!(rt; frame.as_slice(), BARRIER.as_slice());
    assert!(rt; is_waiting(framer));
    Ok(())
}

#[test]
fn cut_after_seven_bytes(rt: HostRuntime) -> Result<(), Fail> {
    let mut framer = Framer::new(rt.alloc());
    let fed = feed_in_two(&rt, &mut framer);
    drop(framer);
    fed
}

/// The length of the next frame, where it is too short.
fn short_length(framer: &mut Framer) -> Option<u16> {
    match framer.next() {
        Err(FrameFault::Short { length }) => Some(length),
        _ => None,
    }
}

/// What two looks at the bytes find.
fn short_lengths_of(alloc: Global, bytes: &[u8]) -> Result<[Option<u16>; 2], Fail> {
    let mut framer = Framer::new(alloc);
    framer.feed(bytes)?;
    let lengths = [short_length(&mut framer), short_length(&mut framer)];
    drop(framer);
    Ok(lengths)
}

#[test]
fn short_lengths(rt: HostRuntime) -> Result<(), Fail> {
    for (bytes, want) in [
        (&[1, 0, 0, 7, 0, 0, 0, 0][..], Some(7)),
        (&[1, 0, 0, 0, 0, 0, 0, 0][..], Some(0)),
        (&[1, 0, 0, 7][..], Some(7)),
        (&[1, 0, 0][..], None),
        (&[1, 0, 0, 9, 0, 0, 0, 0][..], None),
    ] {
        let lengths = short_lengths_of(rt.alloc(), bytes)?;
        assert_eq!(rt; lengths, [want, want], "at {bytes:?}");
    }
    Ok(())
}

fn add(alloc: Global, pieces: &mut List<Bytes>, piece: &[u8]) -> Result<(), Fail> {
    pieces.push(Bytes::from_slice(alloc, piece)?)?;
    Ok(())
}

/// The stream in pieces of at most so many bytes.
fn pieces(alloc: Global, stream: &[u8], most: usize) -> Result<List<Bytes>, Fail> {
    let mut pieces = List::new(alloc);
    for piece in stream.chunks(most.max(1)) {
        add(alloc, &mut pieces, piece)?;
    }
    Ok(pieces)
}

/// Whether the frames are those of the two messages.
fn are_two(frames: &[Bytes]) -> bool {
    match frames {
        [first, second] => first.as_slice() == &TWO[..8] && second.as_slice() == &TWO[8..],
        _ => false,
    }
}

/// Whether the stream is cut into the two frames, and nothing more, in such pieces.
fn is_cut_in_two(alloc: Global, most: usize) -> Result<(bool, bool), Fail> {
    let cut = pieces(alloc, &TWO, most)?;
    let (frames, mut rest) = frames_of(alloc, cut.as_slice())?;
    Ok((are_two(frames.as_slice()), is_waiting(&mut rest)))
}

#[test]
fn any_pieces(rt: HostRuntime) -> Result<(), Fail> {
    for most in 1..21 {
        let cut = is_cut_in_two(rt.alloc(), most)?;
        assert_eq!(rt; cut, (true, true), "in pieces of {most}");
    }
    Ok(())
}

/// How many frames the stream has, in such pieces.
fn count_frames(alloc: Global, stream: &[u8], most: usize) -> Result<usize, Fail> {
    let cut = pieces(alloc, stream, most)?;
    let (frames, _rest) = frames_of(alloc, cut.as_slice())?;
    Ok(frames.len())
}

#[test]
fn long_streams(rt: HostRuntime) -> Result<(), Fail> {
    let mut stream = Bytes::new(rt.alloc());
    for _ in 0..20_000u32 {
        stream.extend_from_slice(&BARRIER)?;
    }
    for most in [1, 160_000] {
        let count = count_frames(rt.alloc(), stream.as_slice(), most)?;
        assert_eq!(rt; count, 20_000);
    }
    Ok(())
}

/// A refused ADD of transaction id 33, up to its priority.
const REFUSED_ADD: [u8; 64] = [
    0x01, 0x0e, 0x00, 0x50, 0x00, 0x00, 0x00, 0x21, 0x00, 0x38, 0x18, 0xef, 0x00, 0x00, 0x00, 0x00,
    0x00, 0x00, 0x00, 0x00, 0x00, 0x00, 0x00, 0x00, 0x00, 0x00, 0x00, 0x00, 0x00, 0x00, 0x08, 0x00,
    0x00, 0x00, 0x00, 0x00, 0x0a, 0x00, 0x00, 0x00, 0x00, 0x00, 0x00, 0x00, 0x00, 0x00, 0x00, 0x00,
    0x00, 0x00, 0x00, 0x00, 0x00, 0x00, 0x00, 0x00, 0x00, 0x00, 0x00, 0x00, 0x00, 0x00, 0x00, 0x64,
];

#[test]
fn errors_of_long_messages(rt: HostRuntime) -> Result<(), Fail> {
    let mut refused = Bytes::from_slice(rt.alloc(), &REFUSED_ADD)?;
    refused.extend_from_slice(&[0xff; 16])?;
    let message = error(rt.alloc(), 3, 1, refused.as_slice())?;
    assert_eq!(rt; message.len(), 76);
    assert_eq!(rt;
        &message.as_slice()[..12],
        [
            0x01, 0x01, 0x00, 0x4c, 0x00, 0x00, 0x00, 0x21, 0x00, 0x03, 0x00, 0x01
        ]
        .as_slice()
    );
    assert_eq!(rt; &message.as_slice()[12..], REFUSED_ADD.as_slice());
    Ok(())
}

#[test]
fn errors_of_short_messages(rt: HostRuntime) -> Result<(), Fail> {
    let short = error(rt.alloc(), 1, 0x0102, &BARRIER)?;
    assert_eq!(rt;
        short.as_slice(),
        [
            1, 1, 0, 20, 0, 0, 0, 10, 0, 1, 1, 2, 1, 0x12, 0, 8, 0, 0, 0, 10
        ]
        .as_slice()
    );
    Ok(())
}
