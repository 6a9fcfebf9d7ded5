//! From a frame to the header that matches look at.
ghost use Rattle.std.specs.Prelude.{◌≡◌, ◌≤◌, ◌<◌, ◌+◌, length};
ghost use Rattle.of10_match.specs.Ranges.{IsVlan};
ghost use Rattle.pkt_bytes.specs.Headers.{header_in, link_header, no_header, with_arp, with_ipv4, with_payload};
ghost use Rattle.std.specs.Prelude.{Some};

use crate::ipv4::Ipv4;
use crate::link::{ETHERNET, Link, Payload};
use crate::numbers::{u32_at, u48_at};
use of10_match::{ARP, Header, IPV4, UNTAGGED};

/// How many bytes of ARP over Ethernet and IPv4 are read.
const ARP_LENGTH: usize = 28;

/// The header of a frame that came by a port (section 3.4 of the specification). What a layer that is cut
/// short would say is zero, and so are the ports of a fragment. A second tag is not read.
pub fn header_of(bytes: &[u8], in_port: u16) -> Header
    ensures { result ≡ header_in in_port bytes.now }
{
    if bytes.len() < ETHERNET {
        return empty(in_port);
    }
    let link = Link::of(bytes);
    add_payload(link.payload, bytes, ethernet(link, in_port, bytes))
}

/// The header of a frame without a whole Ethernet header.
fn empty(in_port: u16) -> Header
    ensures { result ≡ no_header in_port }
{
    Header {
        in_port,
        dl_src: 0,
        dl_dst: 0,
        dl_vlan: UNTAGGED,
        dl_vlan_pcp: 0,
        dl_type: 0,
        nw_tos: 0,
        nw_proto: 0,
        nw_src: 0,
        nw_dst: 0,
        tp_src: 0,
        tp_dst: 0,
    }
}

/// The header of a frame without its payload.
fn ethernet(link: Link, in_port: u16, bytes: &[u8]) -> Header
    requires there { 14 ≤ length bytes.now }
    requires dl_vlan { IsVlan link.dl_vlan }
    requires dl_vlan_pcp { link.dl_vlan_pcp < 8 }
    ensures { result ≡ link_header link in_port bytes.now }
{
    Header {
        dl_dst: u48_at(bytes, 0),
        dl_src: u48_at(bytes, 6),
        dl_vlan: link.dl_vlan,
        dl_vlan_pcp: link.dl_vlan_pcp,
        dl_type: link.payload.dl_type,
        ..empty(in_port)
    }
}

/// The header with what the payload says.
fn add_payload(payload: Payload, bytes: &[u8], header: Header) -> Header
    requires { payload.place < 32 }
    ensures { result ≡ with_payload payload bytes.now header }
{
    if payload.dl_type == IPV4 {
        match Ipv4::at(bytes, payload.place) {
            Some(ip) => add_ipv4(ip, bytes, header),
            None => header,
        }
    } else if payload.dl_type == ARP && payload.place + ARP_LENGTH <= bytes.len() {
        add_arp(payload.place, bytes, header)
    } else {
        header
    }
}

/// The header with what IPv4 and its transport say.
fn add_ipv4(ip: Ipv4, bytes: &[u8], header: Header) -> Header
    requires header { ip.place + 20 ≤ ip.transport }
    requires near { ip.transport < 128 }
    requires there { ip.transport ≤ length bytes.now }
    ensures { result ≡ with_ipv4 (Some ip) bytes.now header }
{
    let ports = ip.ports(bytes);
    Header {
        nw_tos: bytes[ip.place + 1] & 0xfc,
        nw_proto: ip.protocol,
        nw_src: u32_at(bytes, ip.place + 12),
        nw_dst: u32_at(bytes, ip.place + 16),
        tp_src: ports.src,
        tp_dst: ports.dst,
        ..header
    }
}

/// The header with what ARP says.
fn add_arp(place: usize, bytes: &[u8], header: Header) -> Header
    requires near { place < 32 }
    requires there { place + 28 ≤ length bytes.now }
    ensures { result ≡ with_arp place bytes.now header }
{
    Header {
        nw_proto: bytes[place + 7],
        nw_src: u32_at(bytes, place + 14),
        nw_dst: u32_at(bytes, place + 24),
        ..header
    }
}
