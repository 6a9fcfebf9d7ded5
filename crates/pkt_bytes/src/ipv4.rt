//! Packets of IPv4.
ghost use Rattle.std.specs.Prelude.{◌≡◌, ◌≤◌, ◌<◌, ◌+◌, length, IfSome};
ghost use Rattle.pkt_bytes.specs.Ipv4 as spec;

use crate::link::Link;
use crate::numbers::u16_at;
use of10_match::{ICMP, IPV4, TCP, UDP};

/// How many bytes a header without options takes.
const SHORTEST: usize = 20;

/// Whether a packet is a fragment, and which.
#[derive(Clone, Copy)]
pub enum Fragment {
    /// No fragment.
    Whole,
    /// The first of several.
    First,
    /// One that begins behind the first byte.
    Later,
}

/// Where the parts of a packet stand whose header is whole.
#[derive(Clone, Copy)]
pub struct Ipv4 {
    /// Where the header begins.
    pub place: usize,
    /// Where it ends, with its options.
    pub transport: usize,
    pub protocol: u8,
    pub fragment: Fragment,
}

/// The ports of a packet, or the type and code of ICMP.
#[derive(Clone, Copy)]
pub struct Ports {
    pub src: u16,
    pub dst: u16,
}

impl Fragment {
    /// What the flags and the offset say.
    fn of(word: u16) -> Fragment
        ensures { result ≡ spec.fragment_of word }
    {
        if word & 0x3fff == 0 {
            Fragment::Whole
        } else if word & 0x1fff == 0 {
            Fragment::First
        } else {
            Fragment::Later
        }
    }

    fn is_whole(self) -> bool
        ensures { result ≡ spec.is_whole self }
    {
        matches!(self, Fragment::Whole)
    }

    /// Whether the packet has the start of what is cut into fragments.
    pub(crate) fn is_start(self) -> bool
        ensures { result ≡ spec.is_start self }
    {
        !matches!(self, Fragment::Later)
    }
}

impl Ipv4 {
    /// The packet at a place, where its header is there with its options.
    #[tactic(auto, unfolding(crate::specs::Ipv4::ipv4_at))]
    pub fn at(bytes: &[u8], place: usize) -> Option<Ipv4>
        requires { place < 32 }
        ensures value { result ≡ spec.ipv4_at place bytes.now }
        ensures header { IfSome result (λ ip. ip.place + 20 ≤ ip.transport) }
        ensures near { IfSome result (λ ip. ip.transport < 128) }
        ensures there { IfSome result (λ ip. ip.transport ≤ length bytes.now) }
    {
        if bytes.len() < place + SHORTEST {
            return None;
        }
        let transport = place + 4 * usize::from(bytes[place] & 0x0f);
        if transport < place + SHORTEST || bytes.len() < transport {
            return None;
        }
        Some(Ipv4 {
            place,
            transport,
            protocol: bytes[place + 9],
            fragment: Fragment::of(u16_at(bytes, place + 6)),
        })
    }

    /// The packet that a frame carries which has at least an Ethernet header.
    pub fn of(bytes: &[u8]) -> Option<Ipv4>
        requires { 14 ≤ length bytes.now }
        ensures value { result ≡ spec.ipv4_of bytes.now }
        ensures header { IfSome result (λ ip. ip.place + 20 ≤ ip.transport) }
        ensures near { IfSome result (λ ip. ip.transport < 128) }
        ensures there { IfSome result (λ ip. ip.transport ≤ length bytes.now) }
    {
        let payload = Link::of(bytes).payload;
        if payload.dl_type != IPV4 {
            return None;
        }
        Ipv4::at(bytes, payload.place)
    }

    /// Whether the ports of TCP or UDP are there.
    pub(crate) fn has_ports(self, bytes: &[u8]) -> bool
        requires { self.transport < 128 }
        ensures { result ≡ spec.has_ports self bytes.now }
    {
        self.fragment.is_whole()
            && ((self.protocol == TCP || self.protocol == UDP) && self.transport + 4 <= bytes.len())
    }

    fn has_icmp(self, bytes: &[u8]) -> bool
        requires { self.transport < 128 }
        ensures { result ≡ spec.has_icmp self bytes.now }
    {
        self.fragment.is_whole() && (self.protocol == ICMP && self.transport + 2 <= bytes.len())
    }

    /// The ports of TCP or UDP, or the type and code of ICMP; zeros where they are not there and in fragments.
    #[tactic(auto, unfolding(crate::specs::Ipv4::ports_of))]
    pub(crate) fn ports(self, bytes: &[u8]) -> Ports
        requires { self.transport < 128 }
        ensures { result ≡ spec.ports_of self bytes.now }
    {
        if self.has_ports(bytes) {
            Ports {
                src: u16_at(bytes, self.transport),
                dst: u16_at(bytes, self.transport + 2),
            }
        } else if self.has_icmp(bytes) {
            Ports {
                src: u16::from(bytes[self.transport]),
                dst: u16::from(bytes[self.transport + 1]),
            }
        } else {
            Ports { src: 0, dst: 0 }
        }
    }
}
