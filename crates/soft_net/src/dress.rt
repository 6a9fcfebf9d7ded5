//! What the actions of an entry have set of a packet so far.
ghost use Rattle.std.specs.Prelude.{◌≡◌, ◌<◌, ◌^◌, IfOk};
ghost use Rattle.of10_actions.specs.Actions.{IsInRange};
ghost use Rattle.soft_net.specs.Passing.{bare, dressed, set as set_of, tag_after as tag_after_of};

use crate::tag::{tag_of, with_tag};
use cv_io::{Bytes, Memory};
use of10_actions::{Action, Rewrite};
use pkt_bytes::rewrite;
use std::alloc::Global;

/// What has been set of a packet so far: fields, and the tag that it has now.
#[derive(Clone, Copy, PartialEq, Eq, Debug)]
pub struct Dress {
    pub rewrite: Rewrite,
    pub tag: Option<u16>,
}

impl Dress {
    /// Nothing is set, and the tag is the frame's.
    pub(crate) fn of(frame: &[u8]) -> Dress
        ensures { result ≡ bare frame.now }
    {
        Dress {
            rewrite: Rewrite::new(),
            tag: tag_of(frame),
        }
    }

    /// What is set after an action (section 5.2.4).
    pub(crate) fn set(self, action: &Action) -> Dress
        requires { IsInRange action.now }
        ensures { result ≡ set_of action.now self }
    {
        Dress {
            rewrite: self.rewrite.then(&action.rewrite()),
            tag: tag_after(action, self.tag),
        }
    }

    /// The bytes of the packet as it is now: first its fields are rewritten, and then the tag is put.
    pub(crate) fn on(&self, alloc: Global, frame: &[u8]) -> Result<Bytes, Memory>
        ensures { IfOk result (λ bytes. bytes ≡ dressed self.now frame.now) }
    {
        let rewritten = rewrite(alloc, frame, &self.rewrite)?;
        with_tag(alloc, rewritten.as_slice(), self.tag)
    }
}

/// The tag after an action. A packet without one gets one where its VLAN number or priority is set, with
/// zero for the other.
fn tag_after(action: &Action, tag: Option<u16>) -> Option<u16>
    requires { IsInRange action.now }
    ensures { result ≡ tag_after_of action.now tag }
{
    match *action {
        Action::SetVlanVid { vid } => Some(tag.unwrap_or(0) / 4096 * 4096 + vid),
        Action::SetVlanPcp { pcp } => Some(u16::from(pcp) * 8192 + tag.unwrap_or(0) % 8192),
        Action::StripVlan => None,
        _ => tag,
    }
}
