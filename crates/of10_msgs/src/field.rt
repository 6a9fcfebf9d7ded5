//! The fields of a frame, by their places.
ghost use Rattle.std.specs.Prelude.{◌≡◌, ◌+◌, ◌≤◌, IfOk, length, drop};
ghost use Rattle.of10_msgs.specs.Reading.{match_at as match_of, span};
ghost use Rattle.of10_msgs.specs.Spelling.{clear_match};

use crate::message::MATCH;
use cv_io::{Bytes, Memory};
use std::alloc::Global;

/// So many bytes from a place on.
pub fn array_at<const N: usize>(frame: &[u8], at: usize) -> [u8; N]
    requires { at + N ≤ length frame.now }
    ensures { result ≡ span at N frame.now }
{
    let mut bytes = [0; N];
    bytes.copy_from_slice(&frame[at..at + N]);
    bytes
}

/// The match at a place, with its padding cleared.
pub fn match_at(frame: &[u8], at: usize) -> [u8; MATCH]
    requires { at + 40 ≤ length frame.now }
    ensures { result ≡ match_of at frame.now }
{
    cleared(array_at(frame, at))
}

/// The match with zeros for its padding.
pub fn cleared(m: [u8; MATCH]) -> [u8; MATCH]
    ensures { result ≡ clear_match m }
{
    let mut m = m;
    m[21] = 0;
    m[26] = 0;
    m[27] = 0;
    m
}

/// All bytes from a place on.
pub fn rest_at(alloc: Global, frame: &[u8], at: usize) -> Result<Bytes, Memory>
    requires { at ≤ length frame.now }
    ensures { IfOk result (λ bytes. bytes ≡ drop at frame.now) }
{
    Bytes::from_slice(alloc, &frame[at..])
}
