//! Messages, read and written, and why others are refused.
ghost use Rattle.std.specs.Prelude.{IfOk};
ghost use Rattle.of10_msgs.specs.Ranges.{CanWrite};

use cv_io::{Bytes, List};
use of10_actions::{Action, ActionFault};
use of10_frames::{header, is_frame};
use of10_msgs::number::NO_BUFFER;
use of10_msgs::{
    Body, Command, FlowMod, FormFault, MATCH, Message, fits, read_message, read_of_controller,
    write_message,
};
use std::alloc::Global;
use std::process::Abort;
use std::test::*;

mod vectors;

/// The message of bytes that are one frame.
fn read(rt: &(impl Abort + AllocGlobal), frame: &[u8]) -> Result<Message, FormFault>
    ensures { IfOk result (λ m. CanWrite m.body) }
{
    assert!(rt; is_frame(frame));
    read_message(rt.alloc(), frame)
}

/// Whether a message is written as these bytes.
fn is_written(alloc: Global, message: &Message, want: &[u8]) -> Result<bool, Fail>
    requires { CanWrite message.now.body }
{
    let written = write_message(alloc, message)?;
    let same = written.as_slice() == want;
    drop(written);
    Ok(same)
}

/// A message is written as these bytes.
fn writes(
    rt: &(impl Abort + AllocGlobal),
    message: &Message,
    want: &[u8],
    name: &str,
) -> Result<(), Fail>
    requires { CanWrite message.now.body }
{
    let same = is_written(rt.alloc(), message, want)?;
    assert!(rt; same, "at {name}");
    Ok(())
}

/// Reads a message, and writes it as these bytes. A vendor's is refused.
fn reads_and_writes(
    rt: &(impl Abort + AllocGlobal),
    name: &str,
    frame: &[u8],
    want: &[u8],
) -> Result<(), Fail> {
    match read(rt, frame) {
        Ok(message) => {
            let written = writes(rt, &message, want, name);
            drop(message);
            written
        }
        Err(fault) => {
            assert_eq!(rt; fault, FormFault::BadVendor);
            assert_eq!(rt; name, "VENDOR");
            Ok(())
        }
    }
}

/// Reads a message whose bytes at these places are set, and writes it back with zeros there.
fn there_and_back(
    rt: &(impl Abort + AllocGlobal),
    name: &str,
    digits: &str,
    places: &[u8],
) -> Result<(), Fail> {
    let plain = hex::decode(rt.alloc(), digits)?;
    let mut frame = plain.clone()?;
    for place in places {
        if let Some(byte) = frame.get_mut(usize::from(*place)) {
            *byte = 0xff;
        }
    }
    reads_and_writes(rt, name, &frame, &plain)
}

#[test]
fn another_implementation(rt: HostRuntime) -> Result<(), Fail> {
    for (name, digits, padding) in &vectors::MESSAGES {
        there_and_back(&rt, name, digits, &[])?;
        there_and_back(&rt, name, digits, padding)?;
    }
    Ok(())
}

/// The ADD of one entry, of 80 bytes.
const ADD: &str =
    "010e005000000007003020ee000100000000000000000000000000000000080000000000000000000a0000010000000000000000000000000000000000008000ffffffffffff00000000000800020000";

/// The message of the same bytes.
fn addition(alloc: Global, m: [u8; MATCH]) -> Result<Message, Fail> {
    let mut actions = List::new(alloc);
    actions.push(Action::Output {
        port: 2,
        max_len: 0,
    })?;
    Ok(Message {
        xid: 7,
        body: Body::FlowMod(FlowMod {
            m,
            cookie: 0,
            command: Command::Add.number(),
            idle_timeout: 0,
            hard_timeout: 0,
            priority: 0x8000,
            buffer_id: NO_BUFFER,
            out_port: 0xffff,
            flags: 0,
            actions,
        }),
    })
}

/// The frame is read as this message, and the message is written as the frame.
fn is_read_and_written(
    rt: &(impl Abort + AllocGlobal),
    frame: &[u8],
    message: &Message,
) -> Result<(), Fail> {
    let found = read(rt, frame)?;
    assert_eq!(rt; found, *message);
    drop(found);
    assert!(rt; fits(message));
    writes(rt, message, frame, "FLOW_MOD")
}

#[test]
fn one_flow_mod(rt: HostRuntime) -> Result<(), Fail> {
    let frame = hex::decode(rt.alloc(), ADD)?;
    assert!(rt; frame.len() == 80);
    let mut m = [0; MATCH];
    m.copy_from_slice(&frame[8..48]);
    let message = addition(rt.alloc(), m)?;
    let written = is_read_and_written(&rt, &frame, &message);
    drop(message);
    written
}

#[test]
fn what_a_controller_may_send(rt: HostRuntime) -> Result<(), Fail> {
    for (kind, refused) in [(6, true), (10, true), (21, true), (14, false), (18, false)] {
        let frame = [1, kind, 0, 8, 0, 0, 0, 1];
        assert!(rt; is_frame(&frame));
        let fault = read_of_controller(rt.alloc(), &frame).err();
        assert_eq!(rt;
            fault == Some(FormFault::BadType { kind }),
            refused,
            "type {kind}"
        );
    }
    assert_eq!(rt; Command::from_number(3), Some(Command::Delete));
    assert_eq!(rt; Command::from_number(5), None);
    Ok(())
}

/// The ADD whose action has type 12, which there is none of.
const ADD_OF_TYPE_12: &str =
    "010e005000000007003020ee000100000000000000000000000000000000080000000000000000000a0000010000000000000000000000000000000000008000ffffffffffff0000000c000800020000";

const REFUSALS: [(&str, Option<FormFault>); 6] = [
    ("0400000800000000", None),
    (
        "0405000800000000",
        Some(FormFault::BadVersion { version: 4 }),
    ),
    ("0116000800000000", Some(FormFault::BadType { kind: 22 })),
    ("0104000c0000000000002320", Some(FormFault::BadVendor)),
    (
        "010d001800000000ffffffffffff00090000000800010000",
        Some(FormFault::BadLen {
            kind: 13,
            length: 24,
        }),
    ),
    (
        ADD_OF_TYPE_12,
        Some(FormFault::Action {
            fault: ActionFault::BadType { at: 0 },
        }),
    ),
];

/// The fault of a message.
fn fault_of(rt: &(impl Abort + AllocGlobal), digits: &str) -> Result<Option<FormFault>, Fail> {
    let frame = hex::decode(rt.alloc(), digits)?;
    Ok(read(rt, &frame).err())
}

#[test]
fn refusals(rt: HostRuntime) -> Result<(), Fail> {
    for (digits, want) in &REFUSALS {
        let fault = fault_of(&rt, digits)?;
        assert_eq!(rt; fault, *want, "at {digits}");
    }
    Ok(())
}

/// The least length of each type, and the step of the lengths above it; 0 where there is none.
const LENGTHS: [(usize, usize); 22] = [
    (8, 1),
    (12, 1),
    (8, 1),
    (8, 1),
    (12, 1),
    (8, 0),
    (32, 48),
    (8, 0),
    (12, 0),
    (12, 0),
    (18, 1),
    (88, 0),
    (64, 0),
    (16, 1),
    (72, 1),
    (32, 0),
    (12, 1),
    (12, 1),
    (8, 0),
    (8, 0),
    (12, 0),
    (16, 1),
];

/// Whether a message of zeros of this type is refused for its length.
fn is_too_short_or_long(
    rt: &(impl Abort + AllocGlobal),
    kind: u8,
    length: u16,
) -> Result<bool, Fail> {
    let mut frame = Bytes::from_slice(rt.alloc(), &header(kind, length, 0))?;
    for _ in 8..length {
        frame.push(0)?;
    }
    let fault = read(rt, frame.as_slice()).err();
    Ok(fault == Some(FormFault::BadLen { kind, length }))
}

fn has(least: usize, step: usize, length: u16) -> bool {
    let long = usize::from(length);
    let above = long.saturating_sub(least);
    long >= least && (above == 0 || step > 0 && above % step == 0)
}

#[test]
fn lengths(rt: HostRuntime) -> Result<(), Fail> {
    for (number, (least, step)) in LENGTHS.iter().enumerate() {
        let kind = number as u8;
        for length in 8..130u16 {
            let refused = is_too_short_or_long(&rt, kind, length)?;
            assert_eq!(rt; refused, !has(*least, *step, length), "type {kind}");
        }
    }
    Ok(())
}
