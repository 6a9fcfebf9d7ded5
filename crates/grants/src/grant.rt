//! Grants, and what a member sees by them.
ghost use Rattle.std.specs.Prelude.{◌≡◌};
ghost use Rattle.std.specs.List.{list_all};
ghost use Rattle.grants.specs.Ports.{in_region as in_region_of, is_one_of as is_one_of_of};
ghost use Rattle.grants.specs.Ports.{meets_region as meets_region_of, sees as sees_of, sees_all as sees_all_of};

use cv_io::{Duplicate, List, Memory};
use of10_actions::PortView;
use of10_match::{Header, Match};

/// What a member may do.
#[derive(PartialEq, Eq, Debug, Drop)]
pub struct Grant {
    /// The fields that its matches may name, each by its bit (`Field`).
    pub fields: u32,
    /// The longest prefix of nw_src, in bits.
    pub src_max: u8,
    /// The longest prefix of nw_dst, in bits.
    pub dst_max: u8,
    /// The kinds of action that it may take, each by its bit (`Kind`).
    pub actions: u32,
    /// Its visible ports.
    pub ports: PortView,
    /// The boxes of its region: normal matches without in_port, of which it has the headers.
    pub regions: List<Match>,
    /// Whether it is told of packets that no entry of its table holds.
    pub misses: bool,
    /// Whether it may send packets.
    pub packet_out: bool,
}

impl Duplicate for Grant {
    fn copy(&self) -> Result<Grant, Memory> {
        Ok(Grant {
            fields: self.fields,
            src_max: self.src_max,
            dst_max: self.dst_max,
            actions: self.actions,
            ports: self.ports.copy()?,
            regions: self.regions.copied()?,
            misses: self.misses,
            packet_out: self.packet_out,
        })
    }
}

/// Whether a number is among these.
pub(crate) fn is_one_of(ports: &[u16], port: u16) -> bool
    ensures { result ≡ is_one_of_of ports.now port }
{
    ports.iter().any(|other| *other == port)
}

/// Whether a number is that of a visible port.
pub fn sees(view: &PortView, port: u16) -> bool
    ensures { result ≡ sees_of view.now port }
{
    is_one_of(view.outside.as_slice(), port) || is_one_of(view.links.as_slice(), port)
}

/// Whether each of these ports is visible.
fn sees_each(view: &PortView, ports: &[u16]) -> bool
    ensures { result ≡ list_all (sees_of view.now) ports.now }
{
    ports.iter().all(|port| sees(view, *port))
}

/// Whether a member sees each port of its virtual switch, of which `v` holds all ports.
pub fn sees_all(g: &Grant, v: &PortView) -> bool
    ensures { result ≡ sees_all_of g.now v.now }
{
    sees_each(&g.ports, v.outside.as_slice()) && sees_each(&g.ports, v.links.as_slice())
}

/// Whether the region of a grant holds a header.
pub fn in_region(g: &Grant, h: &Header) -> bool
    ensures { result ≡ in_region_of g.now h.now }
{
    g.regions.as_slice().iter().any(|region| region.holds(h))
}

/// Whether the region of a grant has a header that the match holds.
pub(crate) fn meets_region(g: &Grant, m: &Match) -> bool
    ensures { result ≡ meets_region_of g.now m.now }
{
    g.regions.as_slice().iter().any(|region| region.overlaps(m))
}
