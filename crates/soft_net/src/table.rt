//! The flow table of a switch in memory.
ghost use Rattle.std.specs.Prelude.{◌≡◌, ◌<◌, ◌+◌, ◌^◌, ◌++◌, [], IfOk, OnOk, OnErr, IfSome, IfNone, filter, find, map};
ghost use Rattle.std.specs.Prelude.{is_some, option_map};
ghost use Rattle.std.specs.List.{list_any};
ghost use Rattle.std.specs.Option.{option_copied};
ghost use Rattle.switch_meaning.specs.Choosing.{chosen_entry};
ghost use Rattle.soft_net.specs.Entries.{IsAsWritten, flows, has_serial, is_at};
ghost use Rattle.soft_net.specs.InsideTables.{AreRising, HasLess, less_entries};
ghost use Rattle.soft_net.specs.Tables.{best_entry, is_meant, is_selected, serials_of, with_entry, without};

use crate::entry::{Key, SoftEntry};
use crate::selection::Selection;
use cv_io::{List, Memory};
use indexmap::IndexMap;
use match_index::Index;
use of10_match::{Header, Match};
use std::alloc::Global;
use std::collections::BTreeMap;
use std::marker::Model;

/// Entries by their numbers, which rise in the order in which they were added, so that the map has
/// that order. One map finds the number of a key, and the index those of entries by their matches.
#[derive(Drop)]
pub struct Table {
    alloc: Global,
    next: u64,
    pub(crate) entries: BTreeMap<u64, SoftEntry>,
    keys: IndexMap<Key, u64>,
    index: Index,
}

impl Model for Table {
    ghost use Rattle.std.specs.BTreeMap.{values};
    ghost use Rattle.indexmap.specs.IndexMap.{get};
    ghost use Rattle.soft_net.specs.Entries.{same_key};
    ghost use Rattle.soft_net.specs.InsideTables.{IsKept, entries_in};
    ghost use Rattle.soft_net.specs.Tables.{TableOf};

    ghost Value = { TableOf };

    ghost view = { λ a. record { entries = entries_in a.entries.entries; next = a.next } };

    ghost invariant = { λ a. IsKept a.entries.entries (get same_key a.keys) a.index.items a.next };
}

/// Takes the entry that a new one replaces out, if there is one.
fn drop_old(entries: &mut BTreeMap<u64, SoftEntry>, index: &mut Index, old: Option<u64>)
    ensures entries { entries.new.entries ≡ less_entries old entries.old.entries }
    ensures items { HasLess old index.old.items index.new.items }
{
    if let Some(old) = old {
        entries.remove(&old);
        index.remove(old);
    }
}

impl Table {
    /// A table without entries, which takes no memory.
    pub fn new(alloc: Global) -> Table
        ensures { result ≡ record { entries = []; next = 0 } }
    {
        Table {
            alloc,
            next: 0,
            entries: BTreeMap::new(alloc),
            keys: IndexMap::new(alloc),
            index: Index::new(alloc),
        }
    }

    /// The number of the next entry.
    pub fn next(&self) -> u64
        ensures { result ≡ self.now.next }
    {
        self.next
    }

    /// The entry of a number.
    pub fn get(&self, serial: u64) -> Option<&SoftEntry>
        ensures entry { option_copied result ≡ find (has_serial serial) self.now.entries }
        ensures written { IfSome (option_copied result) IsAsWritten }
    {
        self.entries.get(&serial)
    }

    /// The entry that handles the packets of a header: of those that hold it the one of the highest
    /// rank, and of these the one that was added first.
    pub fn best(&self, header: &Header) -> Option<&SoftEntry>
        ensures entry { option_copied result ≡ best_entry self.now.entries header.now }
        ensures written { IfSome (option_copied result) IsAsWritten }
    {
        match self.index.best(header) {
            Some(top) => self.get(top.id),
            None => None,
        }
    }

    /// The numbers of the entries that are meant, rising. That numbers rise in every table is said here.
    pub fn meant(&self, selection: &Selection) -> Result<List<u64>, Memory>
        ensures rising { AreRising self.now.entries }
        ensures serials { IfOk result (λ serials. serials
            ≡ serials_of (filter (is_meant selection.now) self.now.entries)) }
    {
        match selection {
            Selection::Strict(key) => self.at(key),
            Selection::Covered(m) => self.index.covered(m),
        }
    }

    /// The number of the entry of a key.
    fn at(&self, key: &Key) -> Result<List<u64>, Memory>
        ensures { IfOk result (λ serials. serials ≡ serials_of (filter (is_at key.now) self.now.entries)) }
    {
        match self.keys.get(key) {
            Some(serial) => List::from_slice(self.alloc, &[*serial]),
            None => Ok(List::new(self.alloc)),
        }
    }

    /// Puts an entry in, last, and takes out the one with its key. The table stays as it was where memory is
    /// wanted.
    pub fn put(&mut self, entry: SoftEntry) -> Result<(), Memory>
        requires serial { entry.serial ≡ self.old.next }
        requires next { self.old.next + 1 < 2 ^ 64 }
        requires written { IsAsWritten entry }
        ensures put { OnOk result (self.new ≡ with_entry self.old entry) }
        ensures memory { OnErr result (self.new ≡ self.old) }
    {
        self.index.reserve(1)?;
        self.keys.reserve(1)?;
        let key = entry.key();
        let item = entry.item();
        self.entries.insert(item.id, entry)?;
        self.index.put(item.id, item.rank, &item.normal);
        let replaced = self.keys.insert(key, item.id).unwrap();
        drop_old(&mut self.entries, &mut self.index, replaced);
        self.next += 1;
        Ok(())
    }

    /// Takes the entry of a number out, where it is there. It takes no memory.
    pub fn take(&mut self, serial: u64) -> Option<SoftEntry>
        ensures table { self.new ≡ without serial self.old }
        ensures entry { result ≡ find (has_serial serial) self.old.entries }
    {
        match self.entries.remove(&serial) {
            Some(entry) => {
                self.keys.swap_remove(&entry.key());
                self.index.remove(serial);
                Some(entry)
            }
            None => None,
        }
    }
}
