//! Headers and matches.
use std::marker::Model;

/// The twelve numbers of a packet that OpenFlow 1.0 matches (section 3.1). Ethernet addresses are below
/// 2^48, dl_vlan is below 4096, or 65535 for a packet without a tag, dl_vlan_pcp is below 8 and
/// nw_tos a multiple of 4.
#[derive(Clone, Copy, PartialEq, Eq, Hash, Debug)]
pub struct Header {
    pub in_port: u16,
    pub dl_src: u64,
    pub dl_dst: u64,
    pub dl_vlan: u16,
    pub dl_vlan_pcp: u8,
    pub dl_type: u16,
    pub nw_tos: u8,
    pub nw_proto: u8,
    pub nw_src: u32,
    pub nw_dst: u32,
    pub tp_src: u16,
    pub tp_dst: u16,
}

impl Model for Header {
    ghost use Rattle.of10_match.specs.Fields.{HeaderOf};

    ghost Value = { HeaderOf };

    ghost use Rattle.of10_match.specs.Ranges.{header_view, header_inside, HeaderInRange};

    ghost view = { header_view };

    ghost invariant = { HeaderInRange };

    ghost inverse = { header_inside };
}

/// The first `len` bits of an address; the further bits are zero.
#[derive(Clone, Copy, PartialEq, Eq, Hash, Debug)]
pub struct Prefix {
    pub addr: u32,
    pub len: u8,
}

/// For each field nothing, or the value that it asks of a header, in the ranges of a header. An
/// address is asked for by a prefix of 1 to 32 bits.
#[derive(Clone, Copy, PartialEq, Eq, Hash, Debug)]
pub struct Match {
    pub in_port: Option<u16>,
    pub dl_src: Option<u64>,
    pub dl_dst: Option<u64>,
    pub dl_vlan: Option<u16>,
    pub dl_vlan_pcp: Option<u8>,
    pub dl_type: Option<u16>,
    pub nw_tos: Option<u8>,
    pub nw_proto: Option<u8>,
    pub nw_src: Option<Prefix>,
    pub nw_dst: Option<Prefix>,
    pub tp_src: Option<u16>,
    pub tp_dst: Option<u16>,
}

impl Model for Match {
    ghost use Rattle.of10_match.specs.Fields.{MatchOf};

    ghost Value = { MatchOf };

    ghost use Rattle.of10_match.specs.Ranges.{match_view, match_inside, MatchInRange};

    ghost view = { match_view };

    ghost invariant = { MatchInRange };

    ghost inverse = { match_inside };
}
