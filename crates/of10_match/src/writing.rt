//! Writing a match as the 40 bytes of an `ofp_match`.
ghost use Rattle.std.specs.Prelude.{◌≡◌, ◌<◌, ◌≤◌, ◌↔◌, ◌^◌, IsTrue};
ghost use Rattle.of10_match.specs.Normal.{IsNormal};
ghost use Rattle.of10_match.specs.OfpMatchFields.{fields_in};
ghost use Rattle.of10_match.specs.Order.{by_bytes};
ghost use Rattle.of10_match.specs.Wildcards.{address_of, bit_of, match_bytes, named, normal_of};
ghost use Rattle.of10_match.specs.Wildcards.{open_bits as open_bits_of, wildcards_of};

use crate::header::{Match, Prefix};
use crate::ofp_match::{OfpMatch, wildcard};
use std::cmp::Ordering;

impl Match {
    /// The 40 bytes of the match as an `ofp_match`. Fields that it does not name have their
    /// wildcard bits set and zero bytes, and an address that it does not name has the count 32.
    pub fn write(&self) -> [u8; 40]
        ensures value { result ≡ match_bytes self.now }
        ensures wildcards { (fields_in result).wildcards ≡ wildcards_of self.now }
        ensures names { named (fields_in result) ≡ self.now }
        ensures reads_back { IsNormal self.now → normal_of result ≡ self.now }
    {
        OfpMatch {
            wildcards: self.wildcards(),
            in_port: self.in_port.unwrap_or(0),
            dl_src: self.dl_src.unwrap_or(0),
            dl_dst: self.dl_dst.unwrap_or(0),
            dl_vlan: self.dl_vlan.unwrap_or(0),
            dl_vlan_pcp: self.dl_vlan_pcp.unwrap_or(0),
            dl_type: self.dl_type.unwrap_or(0),
            nw_tos: self.nw_tos.unwrap_or(0),
            nw_proto: self.nw_proto.unwrap_or(0),
            nw_src: address(self.nw_src),
            nw_dst: address(self.nw_dst),
            tp_src: self.tp_src.unwrap_or(0),
            tp_dst: self.tp_dst.unwrap_or(0),
        }
        .to_bytes()
    }

    /// Compares the bytes of two matches, the order in which their entries are sent.
    pub fn cmp_bytes(&self, other: &Match) -> Ordering
        ensures value { result ≡ by_bytes self.now other.now }
        ensures equal { (result ≡ Ordering.Equal) ↔ (self.now ≡ other.now) }
    {
        self.write().cmp(&other.write())
    }

    fn wildcards(&self) -> u32
        ensures { result ≡ wildcards_of self.now }
    {
        bit(wildcard::IN_PORT, self.in_port)
            + bit(wildcard::DL_VLAN, self.dl_vlan)
            + bit(wildcard::DL_SRC, self.dl_src)
            + bit(wildcard::DL_DST, self.dl_dst)
            + bit(wildcard::DL_TYPE, self.dl_type)
            + bit(wildcard::NW_PROTO, self.nw_proto)
            + bit(wildcard::TP_SRC, self.tp_src)
            + bit(wildcard::TP_DST, self.tp_dst)
            + (open_bits(self.nw_src) << wildcard::NW_SRC)
            + (open_bits(self.nw_dst) << wildcard::NW_DST)
            + bit(wildcard::DL_VLAN_PCP, self.dl_vlan_pcp)
            + bit(wildcard::NW_TOS, self.nw_tos)
    }
}

/// The wildcard bit at a place, set where the field is absent.
fn bit<T: Copy>(place: u32, field: Option<T>) -> u32
    requires { place < 32 }
    ensures value { result ≡ bit_of place field }
    ensures bound { result ≤ 2 ^ place }
{
    if field.is_none() { 1 << place } else { 0 }
}

fn open_bits(prefix: Option<Prefix>) -> u32
    ensures value { result ≡ open_bits_of prefix }
    ensures bound { result ≤ 32 }
{
    match prefix {
        Some(prefix) => prefix.open_bits(),
        None => 32,
    }
}

fn address(prefix: Option<Prefix>) -> u32
    ensures { result ≡ address_of prefix }
{
    match prefix {
        Some(prefix) => prefix.addr,
        None => 0,
    }
}
