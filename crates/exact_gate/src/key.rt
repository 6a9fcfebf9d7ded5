//! The match and priority of an entry.
ghost use Rattle.std.specs.Prelude.{◌≡◌, Some, None, if◌then◌else◌};
ghost use Rattle.of10_match.specs.Matching.{is_one_header};
ghost use Rattle.exact_gate.specs.InsideKeys.{header_of};
ghost use Rattle.exact_gate.specs.Standing.{key_of};

use of10_match::{Header, Match};
use switch_meaning::PhysEntry;

/// The match and priority of an entry: what other entries pass it over by, or it others.
#[derive(Clone, Copy, PartialEq, Eq, Hash, Debug)]
pub struct Key {
    pub m: Match,
    pub priority: u16,
}

impl Key {
    pub fn of(entry: &PhysEntry) -> Key
        ensures { result ≡ key_of entry.now }
    {
        Key {
            m: entry.m,
            priority: entry.priority,
        }
    }

    /// The one header that the match holds, where it names all twelve fields.
    pub fn header(&self) -> Option<Header>
        ensures { result ≡ (if is_one_header self.now.m then Some (header_of self.now.m) else None) }
    {
        if self.m.is_one_header() {
            Some(named(&self.m))
        } else {
            None
        }
    }
}

/// The header of the values that a match names, and zeros.
fn named(m: &Match) -> Header
    ensures { result ≡ header_of m.now }
{
    Header {
        in_port: m.in_port.unwrap_or(0),
        dl_src: m.dl_src.unwrap_or(0),
        dl_dst: m.dl_dst.unwrap_or(0),
        dl_vlan: m.dl_vlan.unwrap_or(0),
        dl_vlan_pcp: m.dl_vlan_pcp.unwrap_or(0),
        dl_type: m.dl_type.unwrap_or(0),
        nw_tos: m.nw_tos.unwrap_or(0),
        nw_proto: m.nw_proto.unwrap_or(0),
        nw_src: m.nw_src.map_or(0, |prefix| prefix.addr),
        nw_dst: m.nw_dst.map_or(0, |prefix| prefix.addr),
        tp_src: m.tp_src.unwrap_or(0),
        tp_dst: m.tp_dst.unwrap_or(0),
    }
}
