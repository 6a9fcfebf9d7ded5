//! Entries in the order of insertion.
ghost use Rattle.std.specs.Prelude.{◌≡◌, ◌==◌, ◌<◌, ◌≤◌, ◌+◌, ◌-◌, ◌&&◌, ℕ, Bool, List, [], None, cond, is_some};
ghost use Rattle.std.specs.Prelude.{nat_eq, OnOk, IfOk, length, find, filter, map, not, false, true, if◌then◌else◌};
ghost use Rattle.std.specs.Prelude.{vec_len, vec_capacity};
ghost use Rattle.std.specs.List.{list_any, slice_get};
ghost use Rattle.std.specs.Option.{option_and_then, option_copied, option_map_or};
ghost use Rattle.indexmap.specs.IndexMap.{get, spare};
ghost use Rattle.member_table.specs.Changes.{is_number, stays};
ghost use Rattle.member_table.specs.InsideOrders.{IsIndexed, numbered, unnumbered};
ghost use Rattle.member_table.specs.Timeouts.{serials_of};
ghost use Rattle.member_table.specs.InsideWanting.{is_wanted as is_wanted_of};
ghost use Rattle.member_table.specs.Entries.{has_serial, identity_of, is_at, put as put_of, same_identity};
ghost use Rattle.member_table.specs.declared.entry.Entry.{Entry as EntryOf};

use crate::entry::{Entry, Identity};
use crate::places::place_of;
use crate::wanted::Wanted;
use cv_io::{List, Memory};
use indexmap::IndexMap;
use of10_actions::Action;
use std::alloc::{AllocError, Global};
use std::marker::Model;

/// The entries of a table in the order of insertion. One map finds an entry by its serial number, and
/// another the number by the entry's identity. The order is that of the numbers alone: so little is
/// moved where one is taken out.
#[derive(Drop)]
pub struct Order {
    serials: Vec<u64>,
    entries: IndexMap<u64, Entry>,
    numbers: IndexMap<Identity, u64>,
}

impl Model for Order {
    ghost use Rattle.std.specs.Prelude.{◌-◌, min, nat_eq, vec_capacity, vec_len};
    ghost use Rattle.indexmap.specs.IndexMap.{get, spare};
    ghost use Rattle.member_table.specs.Entries.{same_identity};
    ghost use Rattle.member_table.specs.InsideOrders.{OrderOf, IsInStep, listed};

    ghost Value = { OrderOf };

    ghost view = { λ a. record {
      entries = listed (get nat_eq a.entries) a.serials.items;
      room = min (vec_capacity a.serials - vec_len a.serials) (min (spare a.entries) (spare a.numbers));
    } };

    ghost invariant = { λ a. IsInStep a.serials.items (get nat_eq a.entries) (get same_identity a.numbers) };
}

/// Puts a number in the place of another, or last.
fn number(serials: &mut Vec<u64>, replaced: Option<u64>, serial: u64)
    requires { vec_len serials.old < vec_capacity serials.old }
    ensures numbers { serials.new.items ≡ numbered replaced serial serials.old.items }
    ensures room { vec_capacity serials.old - vec_len serials.old ≤ vec_capacity serials.new - vec_len serials.new + 1 }
{
    let place = match replaced {
        Some(old) => place_of(serials, &old),
        None => None,
    };
    match place {
        Some(place) => {
            serials[place] = serial;
        }
        None => {
            serials.push(serial).unwrap();
        }
    }
}

/// Takes out the entry of a number, if one is given.
fn take(entries: &mut IndexMap<u64, Entry>, replaced: Option<u64>) -> Option<Entry>
    ensures taken { result ≡ option_and_then (get nat_eq entries.old) replaced }
    ensures others { (q : ℕ) → get nat_eq entries.new q ≡ cond (is_number replaced q) None (get nat_eq entries.old q) }
    ensures room { spare entries.old ≤ spare entries.new }
{
    match replaced {
        Some(serial) => entries.swap_remove(&serial),
        None => None,
    }
}

/// Takes out the entry of a number, and its identity.
fn take_one(entries: &mut IndexMap<u64, Entry>, numbers: &mut IndexMap<Identity, u64>, serial: u64)
    ensures indexed { (es : List EntryOf) → IsIndexed (get nat_eq entries.old) (get same_identity numbers.old) es
        → IsIndexed (get nat_eq entries.new) (get same_identity numbers.new)
        (filter (λ e. not (has_serial serial e)) es) }
    ensures entries_room { spare entries.old ≤ spare entries.new }
    ensures numbers_room { spare numbers.old ≤ spare numbers.new }
{
    if let Some(entry) = entries.swap_remove(&serial) {
        numbers.swap_remove(&entry.identity());
    }
}

/// Takes out the entries of some numbers, and their identities, but for one.
fn take_all(
    entries: &mut IndexMap<u64, Entry>,
    numbers: &mut IndexMap<Identity, u64>,
    mut serials: List<u64>,
    place: Option<u64>,
)
    ensures indexed { (es : List EntryOf) → IsIndexed (get nat_eq entries.old) (get same_identity numbers.old) es
        → IsIndexed (get nat_eq entries.new) (get same_identity numbers.new) (filter (stays serials place) es) }
    ensures entries_room { spare entries.old ≤ spare entries.new }
    ensures numbers_room { spare numbers.old ≤ spare numbers.new }
{
    while let Some(serial) = serials.pop() {
        if place != Some(serial) {
            take_one(entries, numbers, serial);
        }
    }
}

/// Keeps the numbers that have entries.
fn keep_known(serials: &mut Vec<u64>, entries: &IndexMap<u64, Entry>)
    ensures numbers { serials.new.items ≡ filter (λ s. is_some (get nat_eq entries.now s)) serials.old.items }
    ensures length { vec_len serials.new ≤ vec_len serials.old }
    ensures capacity { vec_capacity serials.new ≡ vec_capacity serials.old }
{
    serials.retain(|serial| entries.contains_key(serial));
}

/// Takes a number out. The others keep their order.
fn forget(serials: &mut Vec<u64>, serial: u64)
    ensures numbers { serials.new.items ≡ unnumbered serial serials.old.items }
    ensures room { vec_capacity serials.old - vec_len serials.old ≤ vec_capacity serials.new - vec_len serials.new }
{
    if let Some(place) = place_of(serials, &serial) {
        serials.remove(place);
    }
}

impl Order {
    pub fn new(alloc: Global) -> Order
        ensures { result.entries ≡ [] }
    {
        Order {
            serials: Vec::new(alloc),
            entries: IndexMap::new(alloc),
            numbers: IndexMap::new(alloc),
        }
    }

    /// Makes room for so many more entries.
    pub fn reserve(&mut self, more: usize) -> Result<(), Memory>
        ensures entries { self.new.entries ≡ self.old.entries }
        ensures room { OnOk result (more ≤ self.new.room) }
        ensures kept { self.old.room ≤ self.new.room }
    {
        self.serials.reserve(more)?;
        self.entries.reserve(more)?;
        self.numbers.reserve(more)?;
        Ok(())
    }

    pub fn len(&self) -> usize
        ensures { result ≡ length self.now.entries }
    {
        self.serials.len()
    }

    /// The entry at a place of the order, from 0.
    pub fn at(&self, place: usize) -> Option<&Entry>
        ensures { option_copied result ≡ slice_get self.now.entries place }
    {
        match self.serials.get(place) {
            Some(serial) => self.entries.get(serial),
            None => None,
        }
    }

    /// The entry of a serial number.
    pub fn get(&self, serial: u64) -> Option<&Entry>
        ensures { option_copied result ≡ find (has_serial serial) self.now.entries }
    {
        self.entries.get(&serial)
    }

    /// The entry of an identity.
    pub fn identical(&self, identity: &Identity) -> Option<&Entry>
        ensures { option_copied result ≡ find (is_at identity.now) self.now.entries }
    {
        match self.numbers.get(identity) {
            Some(serial) => self.entries.get(serial),
            None => None,
        }
    }

    /// Puts an entry in the place of the identical one, else last, and gives the one that it replaces.
    pub fn put(&mut self, entry: Entry) -> Option<Entry>
        requires room { 0 < self.old.room }
        requires serial { list_any (has_serial entry.serial) self.old.entries ≡ false }
        ensures entries { self.new.entries ≡ put_of entry self.old.entries }
        ensures replaced { result ≡ find (is_at (identity_of entry)) self.old.entries }
        ensures room { self.old.room ≤ self.new.room + 1 }
    {
        let serial = entry.serial;
        let replaced = self.numbers.insert(entry.identity(), serial).unwrap();
        number(&mut self.serials, replaced, serial);
        let old = take(&mut self.entries, replaced);
        self.entries.insert(serial, entry).unwrap();
        old
    }

    /// Takes an entry out. The others keep their order.
    pub fn remove(&mut self, serial: u64) -> Option<Entry>
        ensures entries { self.new.entries ≡ filter (λ e. not (has_serial serial e)) self.old.entries }
        ensures removed { result ≡ find (has_serial serial) self.old.entries }
        ensures room { self.old.room ≤ self.new.room }
    {
        let entry = self.entries.swap_remove(&serial)?;
        self.numbers.swap_remove(&entry.identity());
        forget(&mut self.serials, serial);
        Some(entry)
    }

    /// Takes entries out in one pass, but the one whose place is taken. The others keep their order.
    pub fn remove_all(&mut self, serials: List<u64>, place: Option<u64>)
        ensures entries { self.new.entries ≡ filter (stays serials place) self.old.entries }
        ensures room { self.old.room ≤ self.new.room }
    {
        take_all(&mut self.entries, &mut self.numbers, serials, place);
        keep_known(&mut self.serials, &self.entries);
    }

    /// Gives an entry other actions; false where there is no such entry.
    pub fn set_actions(&mut self, serial: u64, actions: List<Action>) -> bool
        ensures entries { self.new.entries
            ≡ map (λ e. if has_serial serial e then record e { actions = actions } else e) self.old.entries }
        ensures found { result ≡ list_any (has_serial serial) self.old.entries }
        ensures room { self.old.room ≤ self.new.room }
    {
        match self.entries.get_index_of(&serial) {
            Some(place) => {
                self.entries[place].actions = actions;
                true
            }
            None => false,
        }
    }

    /// Sets when an entry's count was last seen to have risen; false where there is no such entry.
    pub fn set_last(&mut self, serial: u64, now: u64) -> bool
        ensures entries { self.new.entries ≡ map (λ e. if has_serial serial e then record e { last = now } else e)
            self.old.entries }
        ensures found { result ≡ list_any (has_serial serial) self.old.entries }
        ensures room { self.old.room ≤ self.new.room }
    {
        match self.entries.get_index_of(&serial) {
            Some(place) => {
                self.entries[place].last = now;
                true
            }
            None => false,
        }
    }

    /// Whether a number is that of an entry that is asked for.
    fn is_wanted(&self, serial: u64, wanted: &Wanted) -> bool
        ensures { result ≡ option_map_or (is_wanted_of wanted.now) (find (has_serial serial) self.now.entries) false }
    {
        match self.get(serial) {
            Some(entry) => wanted.holds(entry),
            None => false,
        }
    }

    /// The numbers of the entries that are asked for, in their order.
    pub fn wanted(&self, alloc: Global, wanted: &Wanted) -> Result<Vec<u64>, AllocError>
        ensures { IfOk result (λ v. v.items ≡ serials_of (is_wanted_of wanted.now) self.now.entries) }
    {
        wanted_among(alloc, self, &self.serials, wanted)
    }
}

/// Those of some numbers whose entry is asked for.
fn wanted_among(
    alloc: Global,
    order: &Order,
    serials: &[u64],
    wanted: &Wanted,
) -> Result<Vec<u64>, AllocError>
    ensures { IfOk result
        (λ v. v.items
        ≡ filter (λ s. option_map_or (is_wanted_of wanted.now) (find (has_serial s) order.now.entries) false)
        serials.now) }
{
    serials
        .iter()
        .copied()
        .filter(|serial| order.is_wanted(*serial, wanted))
        .collect(alloc)
}
