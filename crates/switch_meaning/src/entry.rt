//! Entries: of a switch's table, and as they are put there.
ghost use Rattle.std.specs.Prelude.{◌≡◌};
ghost use Rattle.switch_meaning.specs.Keys.{flow_of};

use cv_io::{Duplicate, Leaf, List, Memory};
use of10_actions::{Action, Out};
use of10_match::Match;

/// An entry of a switch's table.
#[derive(PartialEq, Eq, Debug, Drop)]
pub struct FlowEntry {
    pub m: Match,
    pub priority: u16,
    pub actions: List<Action>,
}

/// What a FLOW_MOD does to a switch's table, of the commands that are written to switches
/// (`ofp_flow_mod_command`, section 5.3.3 of the OpenFlow Switch Specification 1.0.0).
#[derive(PartialEq, Eq, Debug, Drop)]
pub enum Change {
    /// Puts the entry in the place of one with an equal match and priority.
    Add(FlowEntry),
    /// Removes the entry with an equal match and priority.
    DeleteStrict { m: Match, priority: u16 },
    /// Removes each entry whose match this one covers.
    Delete { m: Match },
}

/// A rule that no further rule goes on from: what of it is put on a switch.
#[derive(PartialEq, Eq, Debug, Drop)]
pub struct FlatRule {
    pub m: Match,
    pub level: u64,
    pub outs: List<Out>,
    pub ancestry: List<Leaf>,
}

/// Where the rules of a virtual switch are put.
#[derive(Clone, Copy, PartialEq, Eq, Debug)]
pub struct Site {
    pub v: u32,
    /// The physical switch.
    pub switch: u32,
    /// Whether the virtual switch is spread over several physical switches.
    pub spread: bool,
    /// Whether it is all of its physical switch, so that one rule stands for all ports.
    pub whole: bool,
}

/// An entry as it is put on a switch, with the leaves that its rule was made of.
#[derive(PartialEq, Eq, Debug, Drop)]
pub struct PhysEntry {
    pub m: Match,
    pub priority: u16,
    pub actions: List<Action>,
    pub ancestry: List<Leaf>,
}

/// What makes one table of another: the entries that are deleted, and after them those that are
/// added, each in the order in which they are sent.
#[derive(PartialEq, Eq, Debug, Drop)]
pub struct Difference {
    pub deletes: List<PhysEntry>,
    pub adds: List<PhysEntry>,
}

impl PhysEntry {
    /// The entry as a switch has it.
    pub fn into_flow(self) -> FlowEntry
        ensures { result ≡ flow_of self }
    {
        FlowEntry {
            m: self.m,
            priority: self.priority,
            actions: self.actions,
        }
    }
}

impl Duplicate for FlowEntry {
    fn copy(&self) -> Result<FlowEntry, Memory> {
        Ok(FlowEntry {
            m: self.m,
            priority: self.priority,
            actions: self.actions.copy()?,
        })
    }
}

impl Duplicate for PhysEntry {
    fn copy(&self) -> Result<PhysEntry, Memory> {
        Ok(PhysEntry {
            m: self.m,
            priority: self.priority,
            actions: self.actions.copy()?,
            ancestry: self.ancestry.copy()?,
        })
    }
}
