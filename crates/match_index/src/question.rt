//! What is asked of an index.
ghost use Rattle.std.specs.Prelude.{◌≡◌, Option};
ghost use Rattle.match_index.specs.Questions.{asks as asks_of, exact as exact_of, probe as probe_of};
ghost use Rattle.match_index.specs.InsideShapes.{place_in as place_in_of};

use crate::item::Item;
use crate::shape::Shape;
use of10_match::{Header, Match, Prefix};

/// Which entries are asked for.
#[derive(Clone, Copy, PartialEq, Eq, Debug)]
pub enum Question {
    /// Those whose match holds the header.
    Holding { header: Header },
    /// Those whose match overlaps this one.
    Meeting { m: Match },
    /// Those whose match this one covers.
    Covered { m: Match },
    /// Those of this rank whose match is another one that overlaps.
    InWay { rank: u32, m: Match },
}

/// The match that holds one header alone.
fn exact(header: &Header) -> Match
    ensures { result ≡ exact_of header.now }
{
    Match {
        in_port: Some(header.in_port),
        dl_src: Some(header.dl_src),
        dl_dst: Some(header.dl_dst),
        dl_vlan: Some(header.dl_vlan),
        dl_vlan_pcp: Some(header.dl_vlan_pcp),
        dl_type: Some(header.dl_type),
        nw_tos: Some(header.nw_tos),
        nw_proto: Some(header.nw_proto),
        nw_src: Some(Prefix::from(header.nw_src)),
        nw_dst: Some(Prefix::from(header.nw_dst)),
        tp_src: Some(header.tp_src),
        tp_dst: Some(header.tp_dst),
    }
}

impl Question {
    /// Whether the item is asked for.
    pub fn asks(&self, item: &Item) -> bool
        ensures { result ≡ asks_of self.now item.now }
    {
        match self {
            Question::Holding { header } => item.normal.holds(header),
            Question::Meeting { m } => m.overlaps(&item.normal),
            Question::Covered { m } => m.covers(&item.normal),
            Question::InWay { rank, m } => {
                *rank == item.rank && m.overlaps(&item.normal) && *m != item.normal
            }
        }
    }

    /// A match that overlaps that of each item that is asked for.
    fn probe(&self) -> Match
        ensures { result ≡ probe_of self.now }
    {
        match self {
            Question::Holding { header } => exact(header),
            Question::Meeting { m } => *m,
            Question::Covered { m } => *m,
            Question::InWay { m, .. } => *m,
        }
    }

    /// The one match of a shape that can be asked for, where the question names all of the shape.
    pub(crate) fn place_in(&self, shape: &Shape) -> Option<Match>
        ensures { result ≡ place_in_of shape.now (probe_of self.now) }
    {
        let probe = self.probe();
        if shape.is_named_by(&probe) {
            Some(shape.keep(&probe))
        } else {
            None
        }
    }
}
