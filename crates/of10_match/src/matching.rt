//! Which headers a match holds, and what two matches hold together.
ghost use Rattle.std.specs.Prelude.{ℕ, ◌≡◌, ◌≤◌, ◌-◌, ◌/◌, ◌^◌, IsTrue, ◌↔◌, IfSome, IsSome, Some, is_some};
ghost use Rattle.of10_match.specs.Fields.{HeaderOf};
ghost use Rattle.of10_match.specs.Matching.{agree_by, agree_prefix as agree_prefix_of, asks_by};
ghost use Rattle.of10_match.specs.Matching.{asks_prefix as asks_prefix_of, at_port as at_port_of, both as both_of};
ghost use Rattle.of10_match.specs.Matching.{covers as covers_of, everything as everything_of, fits_by};
ghost use Rattle.of10_match.specs.Matching.{fits_prefix as fits_prefix_of, holds as holds_of};
ghost use Rattle.of10_match.specs.Matching.{is_address as is_address_of, is_longer as is_longer_of};
ghost use Rattle.of10_match.specs.Matching.{is_one_header as is_one_header_of, longer as longer_of, meet as meet_of};
ghost use Rattle.of10_match.specs.Matching.{overlaps as overlaps_of, top_bits as top_bits_of};
ghost use Rattle.of10_match.specs.Sets.{Covers, IsMeet, Overlap};
ghost use Rattle.of10_match.specs.Normal.{IsNormal};

use crate::header::{Header, Match, Prefix};

/// The prefix that holds one address alone.
impl From<u32> for Prefix {
    ghost from_gives = { λ addr result. result ≡ record { addr = addr; len = 32 } };

    fn from(addr: u32) -> Prefix {
        Prefix { addr, len: 32 }
    }
}

impl Prefix {
    /// How many low bits of an address the prefix leaves open.
    pub(crate) fn open_bits(&self) -> u32
        ensures { result ≡ 32 - self.now.len }
    {
        32 - u32::from(self.len.min(32))
    }

    /// The bits of an address that the prefix names.
    fn top_bits(&self, addr: u32) -> u32
        ensures { result ≡ top_bits_of self.now.len addr }
    {
        addr.checked_shr(self.open_bits()).unwrap_or(0)
    }

    /// Whether the address begins with the prefix.
    pub fn holds(&self, addr: u32) -> bool
        ensures { result ≡ fits_prefix_of (Some self.now) addr }
    {
        self.top_bits(self.addr) == self.top_bits(addr)
    }

    /// Whether it names as many bits as the other, or more.
    fn is_longer(&self, other: &Prefix) -> bool
        ensures { result ≡ is_longer_of self.now other.now }
    {
        self.open_bits() <= other.open_bits()
    }
}

/// Whether a field that is asked for is the header's.
fn fits<T: PartialEq + Copy>(asked: Option<T>, value: T) -> bool
    ensures { result ≡ fits_by T.eq asked value }
{
    match asked {
        Some(v) => v == value,
        None => true,
    }
}

/// Whether a prefix that is asked for begins the header's address.
fn fits_prefix(asked: Option<Prefix>, addr: u32) -> bool
    ensures { result ≡ fits_prefix_of asked addr }
{
    match asked {
        Some(p) => p.holds(addr),
        None => true,
    }
}

/// Whether no two values are asked of one field.
fn agree<T: PartialEq + Copy>(a: Option<T>, b: Option<T>) -> bool
    ensures { result ≡ agree_by T.eq a b }
{
    match (a, b) {
        (Some(v), Some(w)) => v == w,
        _ => true,
    }
}

/// Whether the longer of two prefixes begins with the shorter.
fn agree_prefix(a: Option<Prefix>, b: Option<Prefix>) -> bool
    ensures { result ≡ agree_prefix_of a b }
{
    match (a, b) {
        (Some(p), Some(q)) => {
            let shorter = if q.is_longer(&p) { p } else { q };
            shorter.top_bits(p.addr) == shorter.top_bits(q.addr)
        }
        _ => true,
    }
}

/// The longer of two prefixes, of which nothing is the shortest.
fn longer(a: Option<Prefix>, b: Option<Prefix>) -> Option<Prefix>
    ensures { result ≡ longer_of a b }
{
    match (a, b) {
        (None, b) => b,
        (Some(p), None) => Some(p),
        (Some(p), Some(q)) => Some(if q.is_longer(&p) { q } else { p }),
    }
}

/// Whether `b` asks for what `a` asks for.
fn asks<T: PartialEq + Copy>(a: Option<T>, b: Option<T>) -> bool
    ensures { result ≡ asks_by T.eq a b }
{
    match (a, b) {
        (Some(v), Some(w)) => v == w,
        (Some(_), None) => false,
        (None, _) => true,
    }
}

/// Whether the whole address is asked for.
fn is_address(asked: Option<Prefix>) -> bool
    ensures { result ≡ is_address_of asked }
{
    asked.is_some_and(|prefix| prefix.len == 32)
}

/// Whether `b` begins with `a`.
fn asks_prefix(a: Option<Prefix>, b: Option<Prefix>) -> bool
    ensures { result ≡ asks_prefix_of a b }
{
    match (a, b) {
        (Some(p), Some(q)) => q.is_longer(&p) && p.top_bits(p.addr) == p.top_bits(q.addr),
        (Some(_), None) => false,
        (None, _) => true,
    }
}

impl Match {
    /// The match that holds every header.
    pub fn everything() -> Match
        ensures value { result ≡ everything_of }
        ensures holds_all { (h : HeaderOf) → IsTrue (holds_of result h) }
    {
        Match {
            in_port: None,
            dl_src: None,
            dl_dst: None,
            dl_vlan: None,
            dl_vlan_pcp: None,
            dl_type: None,
            nw_tos: None,
            nw_proto: None,
            nw_src: None,
            nw_dst: None,
            tp_src: None,
            tp_dst: None,
        }
    }

    /// The match of all headers that come by a port.
    pub fn at_port(port: u16) -> Match
        ensures { result ≡ at_port_of port }
    {
        Match {
            in_port: Some(port),
            ..Match::everything()
        }
    }

    /// Whether the match names all twelve fields, with whole addresses.
    pub fn is_one_header(&self) -> bool
        ensures { result ≡ is_one_header_of self.now }
    {
        self.in_port.is_some()
            && self.dl_src.is_some()
            && self.dl_dst.is_some()
            && self.dl_vlan.is_some()
            && self.dl_vlan_pcp.is_some()
            && self.dl_type.is_some()
            && self.nw_tos.is_some()
            && self.nw_proto.is_some()
            && is_address(self.nw_src)
            && is_address(self.nw_dst)
            && self.tp_src.is_some()
            && self.tp_dst.is_some()
    }

    /// Whether each field that the match names is the header's, or a prefix of it.
    pub fn holds(&self, header: &Header) -> bool
        ensures { result ≡ holds_of self.now header.now }
    {
        fits(self.in_port, header.in_port)
            && fits(self.dl_src, header.dl_src)
            && fits(self.dl_dst, header.dl_dst)
            && fits(self.dl_vlan, header.dl_vlan)
            && fits(self.dl_vlan_pcp, header.dl_vlan_pcp)
            && fits(self.dl_type, header.dl_type)
            && fits(self.nw_tos, header.nw_tos)
            && fits(self.nw_proto, header.nw_proto)
            && fits_prefix(self.nw_src, header.nw_src)
            && fits_prefix(self.nw_dst, header.nw_dst)
            && fits(self.tp_src, header.tp_src)
            && fits(self.tp_dst, header.tp_dst)
    }

    /// Whether some header is in both matches.
    pub fn overlaps(&self, other: &Match) -> bool
        ensures value { result ≡ overlaps_of self.now other.now }
        ensures exact { IsTrue result ↔ Overlap self.now other.now }
        ensures meets { result ≡ is_some (meet_of self.now other.now) }
    {
        agree(self.in_port, other.in_port)
            && agree(self.dl_src, other.dl_src)
            && agree(self.dl_dst, other.dl_dst)
            && agree(self.dl_vlan, other.dl_vlan)
            && agree(self.dl_vlan_pcp, other.dl_vlan_pcp)
            && agree(self.dl_type, other.dl_type)
            && agree(self.nw_tos, other.nw_tos)
            && agree(self.nw_proto, other.nw_proto)
            && agree_prefix(self.nw_src, other.nw_src)
            && agree_prefix(self.nw_dst, other.nw_dst)
            && agree(self.tp_src, other.tp_src)
            && agree(self.tp_dst, other.tp_dst)
    }

    /// Whether every header of the other match is in this one.
    pub fn covers(&self, other: &Match) -> bool
        ensures value { result ≡ covers_of self.now other.now }
        ensures exact { IsTrue result ↔ Covers self.now other.now }
    {
        asks(self.in_port, other.in_port)
            && asks(self.dl_src, other.dl_src)
            && asks(self.dl_dst, other.dl_dst)
            && asks(self.dl_vlan, other.dl_vlan)
            && asks(self.dl_vlan_pcp, other.dl_vlan_pcp)
            && asks(self.dl_type, other.dl_type)
            && asks(self.nw_tos, other.nw_tos)
            && asks(self.nw_proto, other.nw_proto)
            && asks_prefix(self.nw_src, other.nw_src)
            && asks_prefix(self.nw_dst, other.nw_dst)
            && asks(self.tp_src, other.tp_src)
            && asks(self.tp_dst, other.tp_dst)
    }

    /// The match of the headers that are in both, or `None` where there is no such header.
    pub fn meet(&self, other: &Match) -> Option<Match>
        ensures value { result ≡ meet_of self.now other.now }
        ensures some { IsSome result ↔ Overlap self.now other.now }
        ensures headers { IfSome result (IsMeet self.now other.now) }
        ensures normal { IsNormal self.now → IsNormal other.now → IfSome result IsNormal }
        ensures commutes { result ≡ meet_of other.now self.now }
    {
        if self.overlaps(other) {
            Some(self.both(other))
        } else {
            None
        }
    }

    /// The fields that either of two matches names that overlap.
    fn both(&self, other: &Match) -> Match
        requires { IsTrue (overlaps_of self.now other.now) }
        ensures value { result ≡ both_of self.now other.now }
        ensures commutes { result ≡ both_of other.now self.now }
    {
        Match {
            in_port: self.in_port.or(other.in_port),
            dl_src: self.dl_src.or(other.dl_src),
            dl_dst: self.dl_dst.or(other.dl_dst),
            dl_vlan: self.dl_vlan.or(other.dl_vlan),
            dl_vlan_pcp: self.dl_vlan_pcp.or(other.dl_vlan_pcp),
            dl_type: self.dl_type.or(other.dl_type),
            nw_tos: self.nw_tos.or(other.nw_tos),
            nw_proto: self.nw_proto.or(other.nw_proto),
            nw_src: longer(self.nw_src, other.nw_src),
            nw_dst: longer(self.nw_dst, other.nw_dst),
            tp_src: self.tp_src.or(other.tp_src),
            tp_dst: self.tp_dst.or(other.tp_dst),
        }
    }
}
