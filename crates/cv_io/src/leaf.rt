//! Names: of sessions, and of the leaves of a policy.
ghost use Rattle.std.specs.Prelude.{◌≡◌, List};
ghost use Rattle.cv_io.specs.declared.leaf.Leaf.{Leaf};

use crate::list::{Duplicate, List};
use crate::memory::Memory;
use std::alloc::Global;

/// Whose outbox or session: a member or a switch by its number in the policy, or the audit.
#[derive(Clone, Copy, PartialEq, Eq, Debug)]
pub enum Who {
    Member(u32),
    Switch(u32),
    Audit,
}

/// One round of a member or a switch, from its coming up to its end. The audit's round is 0.
#[derive(Clone, Copy, PartialEq, Eq, Debug)]
pub struct Session {
    pub who: Who,
    pub round: u64,
}

/// A leaf of a composed rule: a member, and of its table 0 for what lies outside its grant, 1 for
/// a miss, or 2 and the serial number of an entry.
#[derive(Clone, Copy, PartialEq, Eq, PartialOrd, Ord, Debug)]
pub struct Leaf {
    pub member: u32,
    pub kind: u64,
}

impl Duplicate for Leaf {
    fn copy(&self) -> Result<Leaf, Memory> {
        Ok(*self)
    }

    fn copies(alloc: Global, items: &[Leaf]) -> Result<List<Leaf>, Memory> {
        List::from_slice(alloc, items)
    }
}

impl Duplicate for Session {
    fn copy(&self) -> Result<Session, Memory> {
        Ok(*self)
    }

    fn copies(alloc: Global, items: &[Session]) -> Result<List<Session>, Memory> {
        List::from_slice(alloc, items)
    }
}

/// What is made of leaves.
pub trait Named: Duplicate {
    // The leaves that it was made of.
    ghost leaves: { Self → List Leaf };

    /// The leaves that it was made of, in the order of the policy's expression.
    fn ancestry(&self) -> &List<Leaf>
        ensures { result.now ≡ leaves self.now };
}
