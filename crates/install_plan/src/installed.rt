//! The entries of a switch.
ghost use Rattle.std.specs.Prelude.{◌≡◌, ◌==◌, [], false, IfOk, OnErr, OnOk, length, map};
ghost use Rattle.std.specs.List.{Contains, list_any};

use crate::choosing::{first_among, written};
use crate::finder::Finder;
use crate::key::Key;
use crate::listing::{copied, count, listed};
use crate::numbering::{number_all, number_whole};
use crate::slot::Slot;
use crate::slots::{admit, keep_all, put_into, restore_all, save, take_from};
use crate::written::{Batch, Written};
use cv_io::{Duplicate, List, Memory};
use of10_match::Header;
use std::alloc::Global;
use std::collections::BTreeMap;
use std::marker::Model;
use switch_meaning::PhysEntry;

/// The entries that are put on a switch, and those of them that stand there: of each key the one with
/// the smallest ancestry, under its cookie.
#[derive(Drop)]
pub struct Installed {
    alloc: Global,
    slots: BTreeMap<Key, Slot>,
    /// It knows the keys of all slots, also of those that are empty.
    finder: Finder,
    /// The slots that changed since the table was kept, as they were then.
    saved: BTreeMap<Key, Slot>,
}

impl Model for Installed {
    ghost use Rattle.install_plan.specs.Tables.{InstalledOf};
    ghost use Rattle.install_plan.specs.InsideFinder.{AreKnown};
    ghost use Rattle.install_plan.specs.InsideSlots.{AreKept, as_is, as_saved, table_by};

    ghost Value = { InstalledOf };

    ghost view = { λ a. record {
      now = table_by as_is a.slots.entries;
      before = table_by (as_saved a.saved.entries) a.slots.entries;
    } };

    ghost invariant = { λ a. AreKept a.slots.entries a.saved.entries × AreKnown a.finder a.slots.entries };
}

impl Installed {
    ghost use Rattle.install_plan.specs.Best.{IsBest};
    ghost use Rattle.install_plan.specs.Tables.{Adds, Exchanges, IsBatch, IsTable, entry_of, numbered, same_place};

    /// No entries. It takes no memory.
    pub fn new(alloc: Global) -> Installed
        ensures now { result.now ≡ record { entries = []; standing = [] } }
        ensures before { result.before ≡ result.now }
    {
        Installed {
            alloc,
            slots: BTreeMap::new(alloc),
            finder: Finder::new(alloc),
            saved: BTreeMap::new(alloc),
        }
    }

    /// What is true of every table is said here. It counts nothing.
    pub fn is_table(&self)
        ensures now { IsTable self.now.now }
        ensures before { IsTable self.now.before }
    {
        // The proof learns it of the type.
        let _slots = &self.slots;
    }

    /// How many entries stand.
    pub fn len(&self) -> usize
        ensures { result ≡ length self.now.now.standing }
    {
        count(&self.slots)
    }

    pub fn is_empty(&self) -> bool
        ensures { result ≡ (length self.now.now.standing == 0) }
    {
        count(&self.slots) == 0
    }

    /// What stands, by rising key.
    pub fn standing(&self) -> Result<List<Written>, Memory>
        ensures { IfOk result (λ list. list ≡ self.now.now.standing) }
    {
        listed(self.alloc, &self.slots)
    }

    /// A copy of the entry that the switch uses for a header: of those that stand there and hold it the
    /// one of the highest rank, and of one rank that of the least cookie. An index of the matches finds
    /// those that hold it.
    pub fn best(&self, header: &Header) -> Result<Option<Written>, Memory>
        ensures { IfOk result (IsBest header.now self.now.now.standing) }
    {
        let keys = self.finder.holding(self.alloc, header)?;
        match first_among(&self.slots, keys.as_slice(), header) {
            Some(first) => written(&self.slots, &first.key),
            None => Ok(None),
        }
    }

    /// Takes an entry out, where it is there.
    fn take_out(&mut self, gone: &PhysEntry) -> Result<(), Memory>
        ensures taken { Contains self.old.now.entries gone.now
            → OnOk result (Adds gone.now self.new.now.entries self.old.now.entries) }
        ensures before { self.new.before ≡ self.old.before }
    {
        let key = Key::of(gone);
        save(&self.slots, &mut self.saved, &key)?;
        take_from(&mut self.slots, &key, gone);
        Ok(())
    }

    /// Puts an entry in, or in the place of one that has its key and ancestry.
    fn put_in(&mut self, come: &PhysEntry) -> Result<(), Memory>
        ensures added { list_any (same_place come.now) self.old.now.entries ≡ false
            → OnOk result (Adds come.now self.old.now.entries self.new.now.entries) }
        ensures before { self.new.before ≡ self.old.before }
    {
        let key = Key::of(come);
        let copied = come.copy()?;
        admit(self.alloc, &mut self.slots, &mut self.finder, &key, &come.m)?;
        save(&self.slots, &mut self.saved, &key)?;
        put_into(&mut self.slots, &key, copied)
    }

    /// Takes entries out, and puts others in.
    fn exchange(&mut self, gone: &List<PhysEntry>, come: &List<PhysEntry>) -> Result<(), Memory>
        ensures entries { OnOk result (Exchanges gone.now come.now self.old.now self.new.now) }
        ensures before { self.new.before ≡ self.old.before }
    {
        for entry in gone.as_slice() {
            self.take_out(entry)?;
        }
        for entry in come.as_slice() {
            self.put_in(entry)?;
        }
        Ok(())
    }

    /// Takes entries out, puts others in, and gives the batch of what changed.
    fn draft(
        &mut self,
        gone: &List<PhysEntry>,
        come: &List<PhysEntry>,
        next: u64,
    ) -> Result<Batch, Memory>
        ensures entries { OnOk result (Exchanges gone.now come.now self.old.now self.new.now) }
        ensures batch { IfOk result (IsBatch self.old.before self.new.now next) }
        ensures before { self.new.before ≡ self.old.before }
    {
        self.exchange(gone, come)?;
        number_all(self.alloc, &mut self.slots, &self.saved, next)
    }

    /// Forgets how the table was before: it can be taken back to what it is now.
    pub fn keep(&mut self)
        ensures { self.new ≡ record { now = self.old.now; before = self.old.now } }
    {
        keep_all(&mut self.slots, &mut self.finder, &mut self.saved);
    }

    /// Makes the table what it was as it was last kept: before the last change, and before what was
    /// installed since. It takes no memory.
    pub fn undo(&mut self)
        ensures { self.new ≡ record { now = self.old.before; before = self.old.before } }
    {
        restore_all(&mut self.slots, &mut self.finder, &mut self.saved);
    }

    /// Takes entries out that were handed over, puts others in, and gives the batch that makes the new
    /// table of the old one, with cookies from a number on. An entry that isn't there is passed over,
    /// and one with the key and ancestry of another takes its place.
    pub fn change(
        &mut self,
        gone: &List<PhysEntry>,
        come: &List<PhysEntry>,
        next: u64,
    ) -> Result<Batch, Memory>
        ensures entries { OnOk result (Exchanges gone.now come.now self.old.now self.new.now) }
        ensures batch { IfOk result (IsBatch self.old.now self.new.now next) }
        ensures before { self.new.before ≡ self.old.now }
        ensures memory { OnErr result (self.new.now ≡ self.old.now) }
    {
        self.keep();
        match self.draft(gone, come, next) {
            Ok(batch) => Ok(batch),
            Err(memory) => {
                self.undo();
                Err(memory)
            }
        }
    }

    /// The installation: all that stands, with new cookies from a number on.
    pub fn whole(&mut self, next: u64) -> Result<Batch, Memory>
        ensures entries { self.new.now.entries ≡ self.old.now.entries }
        ensures deletes { IfOk result (λ batch. batch.deletes ≡ []) }
        ensures adds { IfOk result (λ batch. batch.adds ≡ numbered next (map entry_of self.old.now.standing)) }
        ensures standing { IfOk result (λ batch. self.new.now.standing ≡ batch.adds) }
        ensures before { self.new.before ≡ self.old.before }
        ensures memory { OnErr result (self.new ≡ self.old) }
    {
        let adds = number_whole(self.alloc, &mut self.slots, &mut self.saved, next)?;
        Ok(Batch {
            deletes: List::new(self.alloc),
            adds,
        })
    }
}

impl Duplicate for Installed {
    fn copy(&self) -> Result<Installed, Memory> {
        Ok(Installed {
            alloc: self.alloc,
            slots: copied(self.alloc, &self.slots)?,
            finder: self.finder.copied(self.alloc)?,
            saved: copied(self.alloc, &self.saved)?,
        })
    }
}
