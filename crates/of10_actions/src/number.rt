//! Numbers at places of bytes, the highest byte first.
ghost use Rattle.std.specs.Prelude.{◌≡◌, ◌+◌, ◌≤◌, length};
ghost use Rattle.of10_actions.specs.Reading.{u16_at as u16_of, u32_at as u32_of, u48_at as u48_of, u64_at as u64_of};

use byteorder::{BigEndian, ByteOrder};

pub fn u16_at(bytes: &[u8], at: usize) -> u16
    requires { at + 2 ≤ length bytes.now }
    ensures { result ≡ u16_of at bytes.now }
{
    BigEndian::read_u16(&bytes[at..])
}

pub fn u32_at(bytes: &[u8], at: usize) -> u32
    requires { at + 4 ≤ length bytes.now }
    ensures { result ≡ u32_of at bytes.now }
{
    BigEndian::read_u32(&bytes[at..])
}

/// A number of six bytes, as an Ethernet address.
pub fn u48_at(bytes: &[u8], at: usize) -> u64
    requires { at + 6 ≤ length bytes.now }
    ensures value { result ≡ u48_of at bytes.now }
{
    BigEndian::read_u48(&bytes[at..])
}

pub fn u64_at(bytes: &[u8], at: usize) -> u64
    requires { at + 8 ≤ length bytes.now }
    ensures { result ≡ u64_of at bytes.now }
{
    BigEndian::read_u64(&bytes[at..])
}
