//! What an event changes in a member's state, before it is changed.
ghost use Rattle.std.specs.Prelude.{◌≡◌, ℕ, [], IfOk, OnOk, OnErr};
ghost use Rattle.member_state.specs.Changes.{touched as touched_of};
ghost use Rattle.member_state.specs.InsideRanks.{HasMoreRanks, drop_planned, rank_if_added};
ghost use Rattle.member_state.specs.Plans.{IsReady, after_planned};
ghost use Rattle.member_state.specs.States.{HeldState, MemberStateOf};

use cv_io::{Duplicate, List, Memory};
use level_map::LevelMap;
use member_table::{Change, Entry, Modified};
use std::alloc::Global;

/// What an event changes in a member's state. It is made by `MemberState::commit`, without memory.
#[derive(Debug, Drop)]
pub struct Planned {
    /// The entries that come and go, and those that get other actions.
    pub change: Change,
    /// The ranks of entries that go: those of which none is left lose their levels.
    pub ranks: List<u32>,
    /// The serial numbers of entries that go afterwards.
    pub dropped: List<u64>,
    /// The serial numbers of entries whose counts were seen to have risen.
    pub touched: List<u64>,
    /// The levels, with one for the rank of the entry that comes.
    pub levels: LevelMap,
}

impl Planned {
    /// A change, with the ranks of the entries that go, and the levels with one for the entry that comes.
    pub(crate) fn of(alloc: Global, change: Change, ranks: List<u32>, levels: LevelMap) -> Planned
        ensures { result ≡ record { change = change; ranks = ranks; dropped = []; touched = []; levels = levels } }
    {
        Planned {
            change,
            ranks,
            dropped: List::new(alloc),
            touched: List::new(alloc),
            levels,
        }
    }

    /// The rank of the entry that comes, if it has the number.
    pub(crate) fn rank_added(&self, serial: u64) -> Option<u32>
        ensures { result ≡ rank_if_added serial self.now.change.added }
    {
        match &self.change.added {
            Some(entry) if entry.serial == serial => Some(entry.rank),
            _ => None,
        }
    }

    /// Plans that the entry of a number, whose rank is this one if a table has it, goes too.
    pub(crate) fn drop(&mut self, serial: u64, rank: Option<u32>) -> Result<(), Memory>
        ensures dropped { OnOk result (self.new ≡ drop_planned serial rank self.old) }
        ensures memory { OnErr result (HasMoreRanks self.old self.new) }
    {
        let added = self.rank_added(serial);
        self.ranks.push_some(rank)?;
        self.ranks.push_some(added)?;
        self.dropped.push(serial)
    }

    /// Plans that the count of the entry of a number was seen to have risen.
    pub fn touch(&mut self, serial: u64) -> Result<(), Memory>
        ensures touched { OnOk result ((x : MemberStateOf) (now : ℕ) →
            after_planned x self.new now ≡ touched_of serial now (after_planned x self.old now)) }
        ensures ready { (h : HeldState) → IsReady h self.old → IsReady h self.new }
        ensures memory { OnErr result (self.new ≡ self.old) }
    {
        self.touched.push(serial)
    }
}

/// A copy of an entry, if there is one.
fn copy_added(added: &Option<Entry>) -> Result<Option<Entry>, Memory>
    ensures { IfOk result (λ copied. copied ≡ added.now) }
{
    match added {
        Some(entry) => Ok(Some(entry.copy()?)),
        None => Ok(None),
    }
}

/// A copy of other actions for entries.
fn copy_modified(alloc: Global, modified: &[Modified]) -> Result<List<Modified>, Memory>
    ensures { IfOk result (λ copied. copied ≡ modified.now) }
{
    let mut copied = List::with_capacity(alloc, modified.len())?;
    for one in modified {
        copied.push(Modified {
            serial: one.serial,
            actions: one.actions.copy()?,
        })?;
    }
    Ok(copied)
}

/// A copy of what a message changes. What holds actions comes last, so that fewer failures have to drop it.
fn copy_change(alloc: Global, change: &Change) -> Result<Change, Memory>
    ensures { IfOk result (λ copied. copied ≡ change.now) }
{
    Ok(Change {
        removed: change.removed.copied()?,
        modified: copy_modified(alloc, change.modified.as_slice())?,
        added: copy_added(&change.added)?,
    })
}

impl Planned {
    /// A copy.
    pub(crate) fn copied(&self, alloc: Global) -> Result<Planned, Memory>
        ensures { IfOk result (λ copied. copied ≡ self.now) }
    {
        Ok(Planned {
            ranks: self.ranks.copied()?,
            dropped: self.dropped.copied()?,
            touched: self.touched.copied()?,
            levels: self.levels.copy()?,
            change: copy_change(alloc, &self.change)?,
        })
    }
}
