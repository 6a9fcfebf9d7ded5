//! Numbers at places of a frame, the highest byte first.
ghost use Rattle.std.specs.Prelude.{◌≡◌, ◌≤◌, ◌<◌, ◌+◌, ◌^◌, length, slice_index, IfSome};
ghost use Rattle.pkt_bytes.specs.Numbers.{number_at, put_if};

use byteorder::{BigEndian, ByteOrder};

pub(crate) fn u16_at(bytes: &[u8], place: usize) -> u16
    requires { place + 2 ≤ length bytes.now }
    ensures { result ≡ number_at place 2 bytes.now }
{
    BigEndian::read_u16(&bytes[place..])
}

pub(crate) fn u32_at(bytes: &[u8], place: usize) -> u32
    requires { place + 4 ≤ length bytes.now }
    ensures { result ≡ number_at place 4 bytes.now }
{
    BigEndian::read_u32(&bytes[place..])
}

pub(crate) fn u48_at(bytes: &[u8], place: usize) -> u64
    requires { place + 6 ≤ length bytes.now }
    ensures value { result ≡ number_at place 6 bytes.now }
    ensures fits { result < 2 ^ 48 }
{
    BigEndian::read_u48(&bytes[place..])
}

#[tactic(auto, unfolding(crate::specs::Numbers::put))]
pub(crate) fn put_u8(bytes: &mut [u8], place: usize, value: Option<u8>)
    requires { place + 1 ≤ length bytes.old }
    ensures { bytes.new ≡ put_if place 1 value bytes.old }
{
    if let Some(value) = value {
        bytes[place] = value;
    }
}

pub(crate) fn put_u16(bytes: &mut [u8], place: usize, value: Option<u16>)
    requires { place + 2 ≤ length bytes.old }
    ensures { bytes.new ≡ put_if place 2 value bytes.old }
{
    if let Some(value) = value {
        BigEndian::write_u16(&mut bytes[place..], value);
    }
}

pub(crate) fn put_u32(bytes: &mut [u8], place: usize, value: Option<u32>)
    requires { place + 4 ≤ length bytes.old }
    ensures { bytes.new ≡ put_if place 4 value bytes.old }
{
    if let Some(value) = value {
        BigEndian::write_u32(&mut bytes[place..], value);
    }
}

pub(crate) fn put_u48(bytes: &mut [u8], place: usize, value: Option<u64>)
    requires there { place + 6 ≤ length bytes.old }
    requires fits { IfSome value (λ v. v < 2 ^ 48) }
    ensures { bytes.new ≡ put_if place 6 value bytes.old }
{
    if let Some(value) = value {
        BigEndian::write_u48(&mut bytes[place..], value);
    }
}
