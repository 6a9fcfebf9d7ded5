//! Actions.
ghost use Rattle.std.specs.Prelude.{◌≡◌, ◌↔◌, IsTrue};
ghost use Rattle.of10_actions.specs.Actions.{AreInRange, IsInRange};
ghost use Rattle.of10_actions.specs.Effects.{set_by};
ghost use Rattle.of10_actions.specs.Kinds.{type_of};

use crate::kind::Kind;
use crate::rewrite::Rewrite;
use cv_io::{Duplicate, List, Memory};

/// One action (`ofp_action_header` and what follows it). A vid is below 4096, a pcp below 8, a tos a
/// multiple of 4, and an Ethernet address below 2^48.
#[derive(Clone, Copy, PartialEq, Eq, Debug)]
pub enum Action {
    Output { port: u16, max_len: u16 },
    SetVlanVid { vid: u16 },
    SetVlanPcp { pcp: u8 },
    StripVlan,
    SetDlSrc { address: u64 },
    SetDlDst { address: u64 },
    SetNwSrc { address: u32 },
    SetNwDst { address: u32 },
    SetNwTos { tos: u8 },
    SetTpSrc { port: u16 },
    SetTpDst { port: u16 },
    Enqueue { port: u16, queue: u32 },
}

impl Duplicate for Action {
    fn copy(&self) -> Result<Action, Memory> {
        Ok(*self)
    }
}

impl Action {
    /// The type of the action.
    pub fn kind(&self) -> Kind
        ensures { result ≡ type_of self.now }
    {
        match *self {
            Action::Output { .. } => Kind::Output,
            Action::SetVlanVid { .. } => Kind::SetVlanVid,
            Action::SetVlanPcp { .. } => Kind::SetVlanPcp,
            Action::StripVlan => Kind::StripVlan,
            Action::SetDlSrc { .. } => Kind::SetDlSrc,
            Action::SetDlDst { .. } => Kind::SetDlDst,
            Action::SetNwSrc { .. } => Kind::SetNwSrc,
            Action::SetNwDst { .. } => Kind::SetNwDst,
            Action::SetNwTos { .. } => Kind::SetNwTos,
            Action::SetTpSrc { .. } => Kind::SetTpSrc,
            Action::SetTpDst { .. } => Kind::SetTpDst,
            Action::Enqueue { .. } => Kind::Enqueue,
        }
    }

    /// Whether the action's numbers are in their ranges.
    pub fn is_in_range(&self) -> bool
        ensures { IsTrue result ↔ IsInRange self.now }
    {
        match *self {
            Action::SetVlanVid { vid } => vid < 4096,
            Action::SetVlanPcp { pcp } => pcp < 8,
            Action::SetDlSrc { address } | Action::SetDlDst { address } => address < 1 << 48,
            Action::SetNwTos { tos } => tos % 4 == 0,
            _ => true,
        }
    }

    /// The fields that the action sets. Only the seven that a rewrite has are looked at.
    pub fn rewrite(&self) -> Rewrite
        requires { IsInRange self.now }
        ensures { result ≡ set_by self.now }
    {
        let nothing = Rewrite::new();
        match *self {
            Action::SetDlSrc { address } => Rewrite {
                dl_src: Some(address),
                ..nothing
            },
            Action::SetDlDst { address } => Rewrite {
                dl_dst: Some(address),
                ..nothing
            },
            Action::SetNwSrc { address } => Rewrite {
                nw_src: Some(address),
                ..nothing
            },
            Action::SetNwDst { address } => Rewrite {
                nw_dst: Some(address),
                ..nothing
            },
            Action::SetNwTos { tos } => Rewrite {
                nw_tos: Some(tos),
                ..nothing
            },
            Action::SetTpSrc { port } => Rewrite {
                tp_src: Some(port),
                ..nothing
            },
            Action::SetTpDst { port } => Rewrite {
                tp_dst: Some(port),
                ..nothing
            },
            _ => nothing,
        }
    }
}

/// Whether the numbers of all actions are in their ranges.
pub fn are_in_range(actions: &List<Action>) -> bool
    ensures { IsTrue result ↔ AreInRange actions.now }
{
    actions.as_slice().iter().all(|action| action.is_in_range())
}
