//! The entries of one key.
ghost use Rattle.std.specs.Prelude.{◌≡◌, ◌≤◌, [], false, true, OnErr, OnOk, drop, length, option_map, take};
ghost use Rattle.std.specs.List.{AllByRecursion, Contains, list_any};
ghost use Rattle.std.specs.List.Sorted.{IsStrictlySortedBy};
ghost use Rattle.std.specs.List.{slice_get};
ghost use Rattle.std.specs.Option.{option_copied, option_map_or};
ghost use Rattle.switch_meaning.specs.Same.{same_entry};
ghost use Rattle.std.specs.Ordering.{is_eq, is_lt};
ghost use Rattle.cv_io.specs.Leaves.{ancestry_cmp};
ghost use Rattle.of10_match.specs.Ranges.{IsMatch};
ghost use Rattle.switch_meaning.specs.declared.entry.PhysEntry.{PhysEntry as EntryOf};
ghost use Rattle.install_plan.specs.InsideNumbering.{head};
ghost use Rattle.install_plan.specs.InsideSlots.{Fits, by_ancestry, key_of};
ghost use Rattle.install_plan.specs.Tables.{Adds};

use cv_io::{Duplicate, Leaf, List, Memory};
use std::alloc::Global;
use switch_meaning::{PhysEntry, is_same};

/// The entries of one key by rising ancestry, of which the first stands on the switch, and its cookie.
#[derive(Drop, Debug)]
pub struct Slot {
    pub entries: List<PhysEntry>,
    pub cookie: u64,
}

/// How many of the entries have a smaller ancestry.
fn place_of(entries: &[PhysEntry], ancestry: &List<Leaf>) -> usize
    requires { IsStrictlySortedBy by_ancestry entries.now }
    ensures bound { result ≤ length entries.now }
    ensures before { AllByRecursion (λ (d : EntryOf). is_lt (ancestry_cmp d.ancestry ancestry.now) ≡ true)
        (take result entries.now) }
    ensures after { AllByRecursion (λ (d : EntryOf). is_lt (ancestry_cmp d.ancestry ancestry.now) ≡ false)
        (drop result entries.now) }
{
    entries.partition_point(|entry| { entry.ancestry.as_slice().cmp(ancestry.as_slice()).is_lt() })
}

/// Whether the entry stands at the place.
fn is_at(entries: &List<PhysEntry>, place: usize, entry: &PhysEntry) -> bool
    ensures { result ≡ option_map_or (λ (d : EntryOf). same_entry d entry.now) (slice_get entries.now place) false }
{
    match entries.get(place) {
        Some(other) => is_same(other, entry),
        None => false,
    }
}

/// Whether an entry with the ancestry stands at the place.
fn has_ancestry(entries: &List<PhysEntry>, place: usize, ancestry: &List<Leaf>) -> bool
    ensures { result ≡ option_map_or (λ (d : EntryOf). is_eq (ancestry_cmp d.ancestry ancestry.now))
        (slice_get entries.now place) false }
{
    match entries.get(place) {
        Some(other) => other.ancestry.as_slice().cmp(ancestry.as_slice()).is_eq(),
        None => false,
    }
}

impl Slot {
    pub fn new(alloc: Global) -> Slot
        ensures { result ≡ record { entries = []; cookie = 0 } }
    {
        Slot {
            entries: List::new(alloc),
            cookie: 0,
        }
    }

    /// The entry that stands.
    pub fn top(&self) -> Option<&PhysEntry>
        ensures { option_copied result ≡ head self.now.entries }
    {
        self.entries.get(0)
    }

    /// Takes an entry out, where it is there.
    pub fn take_out(&mut self, entry: &PhysEntry)
        requires { Fits (key_of entry.now, self.old) }
        ensures taken { Contains self.old.entries entry.now → Adds entry.now self.new.entries self.old.entries }
        ensures fits { Fits (key_of entry.now, self.new) }
    {
        let place = place_of(self.entries.as_slice(), &entry.ancestry);
        if is_at(&self.entries, place, entry) {
            self.entries.remove(place);
        }
    }

    /// Puts an entry in its place, or in the place of one that has its ancestry.
    pub fn put_in(&mut self, entry: PhysEntry) -> Result<(), Memory>
        requires fits { Fits (key_of entry, self.old) }
        requires in_range { IsMatch entry.m }
        ensures added { list_any (λ (d : EntryOf). is_eq (by_ancestry entry d)) self.old.entries ≡ false
            → OnOk result (Adds entry self.old.entries self.new.entries) }
        ensures fits { Fits (key_of entry, self.new) }
        ensures memory { OnErr result (self.new ≡ self.old) }
    {
        let place = place_of(self.entries.as_slice(), &entry.ancestry);
        if has_ancestry(&self.entries, place, &entry.ancestry) {
            self.entries.set(place, entry);
            return Ok(());
        }
        self.entries.insert(place, entry)
    }
}

impl Duplicate for Slot {
    fn copy(&self) -> Result<Slot, Memory> {
        Ok(Slot {
            entries: self.entries.copy()?,
            cookie: self.cookie,
        })
    }
}
