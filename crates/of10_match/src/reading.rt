//! Reading the 40 bytes of an `ofp_match`.
ghost use Rattle.std.specs.Prelude.{◌==◌, ◌≡◌, ◌<◌, ◌↔◌, ◌%◌, ◌/◌, ◌^◌, IfSome, IsTrue};
ghost use Rattle.of10_match.specs.OfpMatchFields.{fields_in};
ghost use Rattle.of10_match.specs.Normal.{IsNormal};
ghost use Rattle.of10_match.specs.Ranges.{IsPrefix, IsVlan};
ghost use Rattle.of10_match.specs.Wildcards.{is_clear as is_clear_of, is_exact as is_exact_of, named as named_of};
ghost use Rattle.of10_match.specs.Wildcards.{normal_of, prefix_by, vlan_of};

use crate::header::{Match, Prefix};
use crate::normal::{Read, UNTAGGED};
use crate::ofp_match::{OfpMatch, wildcard};

/// Reads the 40 bytes of an `ofp_match`. A field is kept where its wildcard bit is clear and the
/// fields that it needs stand in the same match (section 3.4): nw_src, nw_dst and nw_proto beside a
/// dl_type of IPv4 or ARP, nw_tos beside IPv4, tp_src and tp_dst beside IPv4 and a protocol of ICMP,
/// TCP or UDP, and dl_vlan_pcp beside a VLAN number.
pub fn read(bytes: &[u8; 40]) -> Read
    ensures value { result.normal ≡ normal_of bytes.now }
    ensures normal { IsNormal result.normal }
    ensures exact { IsTrue result.exact ↔ ((fields_in bytes.now).wildcards % 2 ^ 22 ≡ 0) }
{
    let written = OfpMatch::from_bytes(bytes);
    Read {
        normal: written.named().normal(),
        exact: written.is_exact(),
    }
}

impl OfpMatch {
    /// Whether the field with this wildcard bit is named.
    fn is_clear(self, bit: u32) -> bool
        requires { bit < 32 }
        ensures { result ≡ is_clear_of self.wildcards bit }
    {
        (self.wildcards >> bit) & 1 == 0
    }

    fn is_exact(self) -> bool
        ensures { result ≡ is_exact_of self }
    {
        self.wildcards & wildcard::ALL == 0
    }

    /// The fields that the wildcards name, with the bits that count.
    fn named(self) -> Match
        requires dl_src { self.dl_src < 2 ^ 48 }
        requires dl_dst { self.dl_dst < 2 ^ 48 }
        ensures { result ≡ named_of self }
    {
        Match {
            in_port: self.is_clear(wildcard::IN_PORT).then_some(self.in_port),
            dl_src: self.is_clear(wildcard::DL_SRC).then_some(self.dl_src),
            dl_dst: self.is_clear(wildcard::DL_DST).then_some(self.dl_dst),
            dl_vlan: self
                .is_clear(wildcard::DL_VLAN)
                .then_some(vlan(self.dl_vlan)),
            dl_vlan_pcp: self
                .is_clear(wildcard::DL_VLAN_PCP)
                .then_some(self.dl_vlan_pcp & 7),
            dl_type: self.is_clear(wildcard::DL_TYPE).then_some(self.dl_type),
            nw_tos: self
                .is_clear(wildcard::NW_TOS)
                .then_some(self.nw_tos & 0xfc),
            nw_proto: self.is_clear(wildcard::NW_PROTO).then_some(self.nw_proto),
            nw_src: prefix((self.wildcards >> wildcard::NW_SRC) & 63, self.nw_src),
            nw_dst: prefix((self.wildcards >> wildcard::NW_DST) & 63, self.nw_dst),
            tp_src: self.is_clear(wildcard::TP_SRC).then_some(self.tp_src),
            tp_dst: self.is_clear(wildcard::TP_DST).then_some(self.tp_dst),
        }
    }
}

/// A VLAN number has twelve bits.
fn vlan(written: u16) -> u16
    ensures value { result ≡ vlan_of written }
    ensures in_range { IsVlan result }
{
    if written == UNTAGGED {
        written
    } else {
        written & 0xfff
    }
}

/// The prefix of an address that leaves out its `left_out` low bits; it names nothing from 32 on.
pub(crate) fn prefix(left_out: u32, addr: u32) -> Option<Prefix>
    ensures value { result ≡ prefix_by left_out addr }
    ensures in_range { IfSome result IsPrefix }
{
    if left_out < 32 {
        Some(Prefix {
            addr: (addr >> left_out) << left_out,
            len: 32 - left_out as u8,
        })
    } else {
        None
    }
}
