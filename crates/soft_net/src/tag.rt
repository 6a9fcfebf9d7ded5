//! The tag of a frame (IEEE 802.1Q): four bytes behind the addresses.
ghost use Rattle.std.specs.Prelude.{◌≡◌, ◌++◌, IfOk, OnOk};
ghost use Rattle.byteorder.specs.Endian.{big_bytes};
ghost use Rattle.soft_net.specs.Tags.{behind as behind_of, tag_in, tag_bytes as tag_bytes_of, with_tag as with_tag_of};

use byteorder::{BigEndian, ByteOrder};
use cv_io::{Bytes, Memory};
use std::alloc::Global;

/// How many bytes the addresses take, behind which a tag stands.
const ADDRESSES: usize = 12;

/// How many bytes a tag takes.
const TAG: usize = 4;

/// The type of a tag.
const TYPE: u16 = 0x8100;

/// What the tag of a frame says, if the frame has a whole one.
pub(crate) fn tag_of(frame: &[u8]) -> Option<u16>
    ensures { result ≡ tag_in frame.now }
{
    if frame.len() >= ADDRESSES + TAG && BigEndian::read_u16(&frame[ADDRESSES..]) == TYPE {
        Some(BigEndian::read_u16(&frame[14..]))
    } else {
        None
    }
}

/// The frame with this tag in the place of its own, or without one.
pub(crate) fn with_tag(alloc: Global, frame: &[u8], tag: Option<u16>) -> Result<Bytes, Memory>
    ensures { IfOk result (λ tagged. tagged ≡ with_tag_of tag frame.now) }
{
    let (addresses, _) = frame.split_at(frame.len().min(ADDRESSES));
    let mut tagged = Bytes::from_slice(alloc, addresses)?;
    put_tag(&mut tagged, tag)?;
    tagged.extend_from_slice(behind(frame))?;
    Ok(tagged)
}

/// Appends a tag, if there is one.
fn put_tag(frame: &mut Bytes, tag: Option<u16>) -> Result<(), Memory>
    ensures { OnOk result (frame.new ≡ frame.old ++ tag_bytes_of tag) }
{
    match tag {
        Some(tag) => frame.extend_from_slice(&tag_bytes(tag)),
        None => Ok(()),
    }
}

/// What follows the addresses and the tag.
fn behind(frame: &[u8]) -> &[u8]
    ensures { result.now ≡ behind_of frame.now }
{
    let start = match tag_of(frame) {
        Some(_) => ADDRESSES + TAG,
        None => ADDRESSES,
    };
    let (_, rest) = frame.split_at(frame.len().min(start));
    rest
}

fn tag_bytes(tag: u16) -> [u8; TAG]
    ensures { result ≡ big_bytes 2 0x8100 ++ big_bytes 2 tag }
{
    let mut bytes = [0; TAG];
    BigEndian::write_u16(&mut bytes, TYPE);
    BigEndian::write_u16(&mut bytes[2..], tag);
    bytes
}
