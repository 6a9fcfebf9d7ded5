//! Which fields a match names.
ghost use Rattle.std.specs.Prelude.{◌≡◌, IfSome, Option};
ghost use Rattle.of10_match.specs.Normal.{kept as kept_of};
ghost use Rattle.of10_match.specs.Ranges.{IsMatch, IsPrefix};
ghost use Rattle.of10_match.specs.Wildcards.{prefix_by};
ghost use Rattle.match_index.specs.InsideShapes.{implies as implies_of, is_named_by as is_named_by_of, kept_by};
ghost use Rattle.match_index.specs.InsideShapes.{length_of, shape_of, shortened as shortened_of};

use of10_match::{Match, Prefix};

/// Which fields a match names, and how many bits of the addresses, 0 for none.
#[derive(Clone, Copy, PartialEq, Eq, Debug)]
pub struct Shape {
    pub in_port: bool,
    pub dl_src: bool,
    pub dl_dst: bool,
    pub dl_vlan: bool,
    pub dl_vlan_pcp: bool,
    pub dl_type: bool,
    pub nw_tos: bool,
    pub nw_proto: bool,
    pub nw_src: u8,
    pub nw_dst: u8,
    pub tp_src: bool,
    pub tp_dst: bool,
}

/// How many bits a prefix names.
fn length(prefix: Option<Prefix>) -> u8
    ensures { result ≡ length_of prefix }
{
    match prefix {
        Some(prefix) => prefix.len,
        None => 0,
    }
}

/// The prefix of an address that leaves out its `left_out` low bits; it names nothing from 32 on.
pub(crate) fn prefix(left_out: u32, addr: u32) -> Option<Prefix>
    ensures value { result ≡ prefix_by left_out addr }
    ensures in_range { IfSome result IsPrefix }
{
    if left_out < 32 {
        Some(Prefix {
            addr: (addr >> left_out) << left_out,
            len: 32 - left_out as u8,
        })
    } else {
        None
    }
}

/// The first `len` bits of a prefix; nothing where they are none.
fn shortened(len: u8, whole: Option<Prefix>) -> Option<Prefix>
    ensures value { result ≡ shortened_of len whole }
    ensures in_range { IfSome result IsPrefix }
{
    match whole {
        Some(whole) => prefix(32 - u32::from(len.min(32)), whole.addr),
        None => None,
    }
}

fn kept<T: Copy>(stands: bool, field: Option<T>) -> Option<T>
    ensures { result ≡ kept_of stands field }
{
    if stands { field } else { None }
}

/// Whether a field is named, if it must be.
fn implies(must: bool, named: bool) -> bool
    ensures { result ≡ implies_of must named }
{
    !must || named
}

impl Shape {
    pub fn of(m: &Match) -> Shape
        ensures value { result ≡ shape_of m.now }
        ensures in_range { IsMatch m.now }
    {
        Shape {
            in_port: m.in_port.is_some(),
            dl_src: m.dl_src.is_some(),
            dl_dst: m.dl_dst.is_some(),
            dl_vlan: m.dl_vlan.is_some(),
            dl_vlan_pcp: m.dl_vlan_pcp.is_some(),
            dl_type: m.dl_type.is_some(),
            nw_tos: m.nw_tos.is_some(),
            nw_proto: m.nw_proto.is_some(),
            nw_src: length(m.nw_src),
            nw_dst: length(m.nw_dst),
            tp_src: m.tp_src.is_some(),
            tp_dst: m.tp_dst.is_some(),
        }
    }

    /// Whether the match names all that the shape names.
    pub fn is_named_by(&self, m: &Match) -> bool
        ensures { result ≡ is_named_by_of self.now m.now }
    {
        implies(self.in_port, m.in_port.is_some())
            && implies(self.dl_src, m.dl_src.is_some())
            && implies(self.dl_dst, m.dl_dst.is_some())
            && implies(self.dl_vlan, m.dl_vlan.is_some())
            && implies(self.dl_vlan_pcp, m.dl_vlan_pcp.is_some())
            && implies(self.dl_type, m.dl_type.is_some())
            && implies(self.nw_tos, m.nw_tos.is_some())
            && implies(self.nw_proto, m.nw_proto.is_some())
            && self.nw_src <= length(m.nw_src)
            && self.nw_dst <= length(m.nw_dst)
            && implies(self.tp_src, m.tp_src.is_some())
            && implies(self.tp_dst, m.tp_dst.is_some())
    }

    /// The match without what the shape doesn't name.
    pub fn keep(&self, m: &Match) -> Match
        ensures { result ≡ kept_by self.now m.now }
    {
        Match {
            in_port: kept(self.in_port, m.in_port),
            dl_src: kept(self.dl_src, m.dl_src),
            dl_dst: kept(self.dl_dst, m.dl_dst),
            dl_vlan: kept(self.dl_vlan, m.dl_vlan),
            dl_vlan_pcp: kept(self.dl_vlan_pcp, m.dl_vlan_pcp),
            dl_type: kept(self.dl_type, m.dl_type),
            nw_tos: kept(self.nw_tos, m.nw_tos),
            nw_proto: kept(self.nw_proto, m.nw_proto),
            nw_src: shortened(self.nw_src, m.nw_src),
            nw_dst: shortened(self.nw_dst, m.nw_dst),
            tp_src: kept(self.tp_src, m.tp_src),
            tp_dst: kept(self.tp_dst, m.tp_dst),
        }
    }
}
