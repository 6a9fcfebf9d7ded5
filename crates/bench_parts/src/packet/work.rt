//! The work that is measured.

use super::frames::{FRAMES, LENGTH};
use cv_io::{Bytes, Memory};
use of10_actions::Rewrite;
use of10_match::Header;
use pkt_bytes::header_of;
use std::alloc::Global;

/// A byte of an address of IPv4 in most of the frames.
const VARIED: usize = 29;

/// Frames that differ from turn to turn.
fn vary(frame: &mut [u8; LENGTH], turn: u32) {
    frame[VARIED] = (turn % 256) as u8;
}

/// The sum of a header's numbers.
fn sum_of(header: &Header) -> u64 {
    u64::from(header.in_port)
        .wrapping_add(header.dl_src)
        .wrapping_add(header.dl_dst)
        .wrapping_add(u64::from(header.dl_vlan))
        .wrapping_add(u64::from(header.dl_vlan_pcp))
        .wrapping_add(u64::from(header.dl_type))
        .wrapping_add(u64::from(header.nw_tos))
        .wrapping_add(u64::from(header.nw_proto))
        .wrapping_add(u64::from(header.nw_src))
        .wrapping_add(u64::from(header.nw_dst))
        .wrapping_add(u64::from(header.tp_src))
        .wrapping_add(u64::from(header.tp_dst))
}

/// Reads each frame so many times.
pub fn read(times: u32) -> u64 {
    let mut frames = FRAMES;
    let mut sum: u64 = 0;
    for turn in 0..times {
        for frame in frames.iter_mut() {
            vary(frame, turn);
            sum = sum.wrapping_add(sum_of(&header_of(frame, 1)));
        }
    }
    sum
}

/// A rewrite of every field.
fn every_field() -> Rewrite {
    Rewrite {
        dl_src: Some(0x0a00_0000_00bb),
        dl_dst: Some(0x0a00_0000_00aa),
        nw_src: Some(0x0a01_0203),
        nw_dst: Some(0xcb00_7105),
        nw_tos: Some(0xb8),
        tp_src: Some(40000),
        tp_dst: Some(8080),
    }
}

/// Two bytes of a frame that checksums stand in.
fn checked_bytes(frame: &Bytes) -> u64 {
    let bytes = frame.as_slice();
    let header = bytes.get(25).copied().unwrap_or(0);
    let transport = bytes.get(41).copied().unwrap_or(0);
    u64::from(header) * 256 + u64::from(transport)
}

/// Rewrites each frame so many times.
pub fn rewrite(alloc: Global, times: u32) -> Result<u64, Memory> {
    let mut frames = FRAMES;
    let r = every_field();
    let mut sum: u64 = 0;
    for turn in 0..times {
        for frame in frames.iter_mut() {
            vary(frame, turn);
            let written = pkt_bytes::rewrite(alloc, frame, &r)?;
            sum = sum.wrapping_add(checked_bytes(&written));
        }
    }
    Ok(sum)
}
