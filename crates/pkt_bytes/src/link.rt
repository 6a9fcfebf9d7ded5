//! The Ethernet header of a frame.
ghost use Rattle.std.specs.Prelude.{◌≡◌, ◌≤◌, ◌<◌, ◌+◌, length};
ghost use Rattle.of10_match.specs.Ranges.{IsVlan};
ghost use Rattle.pkt_bytes.specs.Link as spec;

use crate::numbers::{u16_at, u48_at};
use of10_match::UNTAGGED;

/// How many bytes the addresses and the type or length take.
pub(crate) const ETHERNET: usize = 14;

/// The place of the type or length.
const TYPE: usize = 12;

/// How many bytes a tag takes.
const TAG: usize = 4;

/// The type of a tag of IEEE 802.1Q.
const TAGGED: u16 = 0x8100;

/// A number below is the length of a frame of IEEE 802.3.
const FIRST_TYPE: u16 = 0x0600;

/// How many bytes of LLC and SNAP stand in front of a type, and which these are for Ethernet.
const SNAP: usize = 6;

const SNAP_BYTES: u64 = 0xaaaa_0300_0000;

/// The dl_type of a frame that has a length and no type.
const NO_TYPE: u16 = 0x05ff;

/// What a frame carries.
#[derive(Clone, Copy)]
pub struct Payload {
    pub dl_type: u16,
    /// Where it begins.
    pub place: usize,
}

/// What a frame says in front of its payload.
#[derive(Clone, Copy)]
pub struct Link {
    pub dl_vlan: u16,
    pub dl_vlan_pcp: u8,
    pub payload: Payload,
}

/// Whether a SNAP header of a type of Ethernet stands at a place.
fn is_snap(bytes: &[u8], place: usize) -> bool
    requires { place < 64 }
    ensures { result ≡ spec.is_snap place bytes.now }
{
    place + SNAP <= bytes.len() && u48_at(bytes, place) == SNAP_BYTES
}

/// What follows the length of a frame.
fn payload_behind_length(bytes: &[u8], place: usize) -> Payload
    requires { place < 32 }
    ensures value { result ≡ spec.payload_behind_length place bytes.now }
    ensures near { result.place ≤ place + 8 }
{
    if !is_snap(bytes, place) {
        return Payload {
            dl_type: NO_TYPE,
            place,
        };
    }
    let place = place + SNAP;
    if bytes.len() < place + 2 {
        return Payload { dl_type: 0, place };
    }
    Payload {
        dl_type: u16_at(bytes, place),
        place: place + 2,
    }
}

/// What follows the type or length at a place.
#[tactic(auto, unfolding(crate::specs::Link::payload_at))]
fn payload_at(bytes: &[u8], place: usize) -> Payload
    requires near { place < 17 }
    requires there { place + 2 ≤ length bytes.now }
    ensures value { result ≡ spec.payload_at place bytes.now }
    ensures near { result.place < 32 }
{
    let dl_type = u16_at(bytes, place);
    let place = place + 2;
    if dl_type < FIRST_TYPE {
        payload_behind_length(bytes, place)
    } else {
        Payload { dl_type, place }
    }
}

impl Link {
    /// What a frame says that has at least an Ethernet header.
    #[tactic(auto, unfolding(crate::specs::Link::link_of))]
    pub fn of(bytes: &[u8]) -> Link
        requires { 14 ≤ length bytes.now }
        ensures value { result ≡ spec.link_of bytes.now }
        ensures dl_vlan { IsVlan result.dl_vlan }
        ensures dl_vlan_pcp { result.dl_vlan_pcp < 8 }
        ensures near { result.payload.place < 32 }
    {
        if u16_at(bytes, TYPE) != TAGGED {
            return Link {
                dl_vlan: UNTAGGED,
                dl_vlan_pcp: 0,
                payload: payload_at(bytes, TYPE),
            };
        }
        if bytes.len() < ETHERNET + TAG {
            return Link {
                dl_vlan: 0,
                dl_vlan_pcp: 0,
                payload: Payload {
                    dl_type: 0,
                    place: ETHERNET,
                },
            };
        }
        let tag = u16_at(bytes, ETHERNET);
        Link {
            dl_vlan: tag & 0xfff,
            dl_vlan_pcp: (tag >> 13) as u8,
            payload: payload_at(bytes, TYPE + TAG),
        }
    }
}
