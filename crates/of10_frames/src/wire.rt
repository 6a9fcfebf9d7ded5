//! The header that every message begins with, and the ERROR message.
ghost use Rattle.std.specs.Prelude.{◌≡◌, ◌≤◌, ◌<◌, ◌^◌, ◌↔◌, IfOk, IsTrue, length, drop};
ghost use Rattle.byteorder.specs.Endian.{big_number};
ghost use Rattle.of10_frames.specs.Wire.{header_bytes, error_head_bytes, error_bytes, length_field, xid_field};
ghost use Rattle.of10_frames.specs.Frames.{IsFrame};

use byteorder::{BigEndian, ByteOrder};
use cv_io::{Bytes, Memory};
use std::alloc::Global;

/// The version of the protocol, OpenFlow 1.0.
pub const VERSION: u8 = 1;

/// How many bytes a header takes.
pub const HEADER: usize = 8;

/// The type of the ERROR message.
const ERROR: u8 = 1;

/// How many bytes of an ERROR stand before those of the refused message.
const ERROR_HEAD: usize = 12;

/// How many bytes of a refused message an ERROR carries at most.
const REFUSED: usize = 64;

/// The header of a message of OpenFlow 1.0 (section 5.1 of the specification): its type, its length
/// in bytes with the header, and its transaction id.
pub fn header(kind: u8, length: u16, xid: u32) -> [u8; HEADER]
    ensures { result ≡ header_bytes kind length xid }
{
    let mut bytes = [VERSION, kind, 0, 0, 0, 0, 0, 0];
    BigEndian::write_u16(&mut bytes[2..4], length);
    BigEndian::write_u32(&mut bytes[4..], xid);
    bytes
}

/// The length that a header gives, which stands in its bytes 2 and 3.
pub fn length_of(header: &[u8]) -> u16
    requires { 4 ≤ length header.now }
    ensures { result ≡ length_field header.now }
{
    BigEndian::read_u16(&header[2..])
}

/// The transaction id that a header gives, which stands in its last four bytes.
pub fn xid_of(header: &[u8]) -> u32
    requires { HEADER ≤ length header.now }
    ensures { result ≡ xid_field header.now }
{
    BigEndian::read_u32(&header[4..])
}

/// Whether the bytes are exactly one whole frame.
pub fn is_frame(bytes: &[u8]) -> bool
    ensures { IsTrue result ↔ IsFrame bytes.now }
{
    bytes.len() >= HEADER && usize::from(length_of(bytes)) == bytes.len()
}

/// What stands in an ERROR before the bytes of the refused message.
fn error_head(kind: u16, code: u16, length: u16, xid: u32) -> [u8; ERROR_HEAD]
    ensures { result ≡ error_head_bytes kind code length xid }
{
    let mut head = [0; ERROR_HEAD];
    head[..HEADER].copy_from_slice(&header(ERROR, length, xid));
    BigEndian::write_u16(&mut head[8..10], kind);
    BigEndian::write_u16(&mut head[10..], code);
    head
}

/// The ERROR message (section 5.4.4 of the specification) that refuses a message: its type and
/// code, the transaction id of the refused message, and that message's first 64 bytes, or all of a
/// shorter one.
pub fn error(alloc: Global, kind: u16, code: u16, refused: &[u8]) -> Result<Bytes, Memory>
    requires { HEADER ≤ length refused.now }
    ensures { IfOk result (λ message. message ≡ error_bytes kind code refused.now) }
{
    let told = &refused[..REFUSED.min(refused.len())];
    let length = ERROR_HEAD + told.len();
    let head = error_head(kind, code, length as u16, xid_of(refused));
    let mut message = Bytes::with_capacity(alloc, length)?;
    message.extend_from_slice(&head)?;
    message.extend_from_slice(told)?;
    Ok(message)
}
