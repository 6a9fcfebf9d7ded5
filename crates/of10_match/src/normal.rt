//! Normal matches, in which each field stands beside those that it needs.
ghost use Rattle.std.specs.Prelude.{◌≡◌, ◌≤◌};
ghost use Rattle.of10_match.specs.Normal.{has_ports as has_ports_of, is_ip as is_ip_of};
ghost use Rattle.of10_match.specs.Normal.{is_ip_or_arp as is_ip_or_arp_of, is_tagged as is_tagged_of, IsNormal};
ghost use Rattle.of10_match.specs.Normal.{kept as kept_of, normal as normal_fields};
ghost use Rattle.of10_match.specs.Numbers.{rank_by};

use crate::header::Match;

/// The dl_vlan of a packet without a tag.
pub const UNTAGGED: u16 = 65535;

/// The dl_type of IPv4.
pub const IPV4: u16 = 0x0800;

/// The dl_type of ARP.
pub const ARP: u16 = 0x0806;

/// The nw_proto of ICMP.
pub const ICMP: u8 = 1;

/// The nw_proto of TCP.
pub const TCP: u8 = 6;

/// The nw_proto of UDP.
pub const UDP: u8 = 17;

/// The rank of entries without a wildcard, above every priority (section 3.4).
pub const EXACT_RANK: u32 = 65_536;

/// The rank of an entry: its priority, unless it has no wildcard.
pub fn rank(exact: bool, priority: u16) -> u32
    ensures value { result ≡ rank_by exact priority }
    ensures range { result ≤ 65536 }
{
    if exact {
        EXACT_RANK
    } else {
        u32::from(priority)
    }
}

/// What the 40 bytes of an `ofp_match` say.
#[derive(Clone, Copy, PartialEq, Eq, Debug)]
pub struct Read {
    /// The fields that are named and whose prerequisite stands.
    pub normal: Match,
    /// Whether every wildcard bit that was written is clear, also those of fields that are ignored.
    pub exact: bool,
}

fn is_ip(dl_type: Option<u16>) -> bool
    ensures { result ≡ is_ip_of dl_type }
{
    dl_type == Some(IPV4)
}

fn is_ip_or_arp(dl_type: Option<u16>) -> bool
    ensures { result ≡ is_ip_or_arp_of dl_type }
{
    matches!(dl_type, Some(IPV4 | ARP))
}

fn has_ports(nw_proto: Option<u8>) -> bool
    ensures { result ≡ has_ports_of nw_proto }
{
    matches!(nw_proto, Some(ICMP | TCP | UDP))
}

fn is_tagged(dl_vlan: Option<u16>) -> bool
    ensures { result ≡ is_tagged_of dl_vlan }
{
    dl_vlan.is_some_and(|vlan| vlan != UNTAGGED)
}

fn kept<T: Copy>(stands: bool, field: Option<T>) -> Option<T>
    ensures { result ≡ kept_of stands field }
{
    if stands { field } else { None }
}

impl Match {
    /// The match without the fields whose prerequisite does not stand in it.
    pub fn normal(&self) -> Match
        ensures value { result ≡ normal_fields self.now }
        ensures normal { IsNormal result }
        ensures same { IsNormal self.now → result ≡ self.now }
    {
        let is_ip_or_arp = is_ip_or_arp(self.dl_type);
        let has_ports = is_ip(self.dl_type) && has_ports(self.nw_proto);
        Match {
            dl_vlan_pcp: kept(is_tagged(self.dl_vlan), self.dl_vlan_pcp),
            nw_tos: kept(is_ip(self.dl_type), self.nw_tos),
            nw_proto: kept(is_ip_or_arp, self.nw_proto),
            nw_src: kept(is_ip_or_arp, self.nw_src),
            nw_dst: kept(is_ip_or_arp, self.nw_dst),
            tp_src: kept(has_ports, self.tp_src),
            tp_dst: kept(has_ports, self.tp_dst),
            ..*self
        }
    }
}
