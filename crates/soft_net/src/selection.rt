//! Which entries a message means.
ghost use Rattle.std.specs.Prelude.{◌≡◌, false, true};
ghost use Rattle.soft_net.specs.Changes.{selection_in};

use crate::entry::Key;
use of10_match::{Match, read};
use of10_msgs::FlowMod;

/// Which entries a message means (section 4.6).
#[derive(Clone, Copy, PartialEq, Eq, Debug)]
pub enum Selection {
    /// The one of this match and priority.
    Strict(Key),
    /// Each whose match this one covers.
    Covered(Match),
}

impl Selection {
    /// The entry of a FLOW_MOD's match and priority.
    pub(crate) fn strict(m: &FlowMod) -> Selection
        ensures { result ≡ selection_in true m.now }
    {
        Selection::Strict(Key {
            m: read(&m.m).normal,
            priority: m.priority,
        })
    }

    /// The entries that a FLOW_MOD's match covers.
    pub(crate) fn covered_by(m: &FlowMod) -> Selection
        ensures { result ≡ selection_in false m.now }
    {
        Selection::Covered(read(&m.m).normal)
    }
}
