//! The matches of a table's entries, found by what they hold and overlap.
ghost use Rattle.std.specs.Prelude.{◌≡◌, ◌==◌, ◌<◌, ◌≤◌, ◌+◌, ◌++◌, ◌∷◌, [], not, false, IfOk, OnOk, filter, find};
ghost use Rattle.std.specs.Prelude.{option_map};
ghost use Rattle.std.specs.List.{list_any};
ghost use Rattle.match_index.specs.InsideGroups.{SameItems};
ghost use Rattle.match_index.specs.Items.{IsLeast, IsTop, has_id};
ghost use Rattle.match_index.specs.Questions.{is_holding, is_in_way};
ghost use Rattle.member_table.specs.InsideRanking.{Exchanges, ranked_of, remains};

use crate::entry::{Entry, Identity};
use crate::rank_counts::{add, forget, has};
use cv_io::{Duplicate, Memory};
use indexmap::IndexMap;
use match_index::{Index, Item};
use of10_match::Header;
use std::alloc::Global;
use std::marker::Model;

/// What the ranking keeps of an entry: its rank and its match, under its serial number.
pub fn item_of(entry: &Entry) -> Item
    ensures { result ≡ ranked_of entry.now }
{
    Item {
        id: entry.serial,
        rank: entry.rank,
        normal: entry.normal,
    }
}

/// The matches of a table's entries under their serial numbers. An index finds those that hold a
/// header or overlap a match; the counts of the ranks tell which ranks there are.
#[derive(Drop)]
pub struct Ranks {
    index: Index,
    /// How many matches each rank has.
    counts: IndexMap<u32, u64>,
}

impl Model for Ranks {
    ghost use Rattle.std.specs.Prelude.{min, nat_eq};
    ghost use Rattle.indexmap.specs.IndexMap.{get, spare};
    ghost use Rattle.member_table.specs.InsideRanking.{AreCounted, RanksOf};

    ghost Value = { RanksOf };

    ghost view = { λ a. record { items = a.index.items; room = min a.index.room (spare a.counts) } };

    ghost invariant = { λ a. AreCounted (get nat_eq a.counts) a.index.items };
}

impl Ranks {
    pub fn new(alloc: Global) -> Ranks
        ensures { result.items ≡ [] }
    {
        Ranks {
            index: Index::new(alloc),
            counts: IndexMap::new(alloc),
        }
    }

    /// The same matches.
    pub fn copied(&self, alloc: Global) -> Result<Ranks, Memory>
        ensures { IfOk result (λ copied. copied.items ≡ self.now.items) }
    {
        Ok(Ranks {
            index: self.index.copy()?,
            counts: self.counts.clone()?,
        })
    }

    /// Makes room for so many more.
    pub fn reserve(&mut self, more: usize) -> Result<(), Memory>
        ensures items { self.new.items ≡ self.old.items }
        ensures room { OnOk result (more ≤ self.new.room) }
        ensures kept { self.old.room ≤ self.new.room }
    {
        self.index.reserve(more)?;
        self.counts.reserve(more)?;
        Ok(())
    }

    /// Adds a match under a new serial number.
    pub fn insert(&mut self, item: &Item)
        requires room { 0 < self.old.room }
        requires new_id { list_any (has_id item.now.id) self.old.items ≡ false }
        ensures items { self.new.items ≡ self.old.items ++ item.now ∷ [] }
        ensures room { self.old.room ≤ self.new.room + 1 }
    {
        self.index.put(item.id, item.rank, &item.normal);
        // The proof learns that the count has room.
        let _ = self.index.len();
        add(&mut self.counts, item.rank);
    }

    /// The rank of the match of a serial number.
    fn rank(&self, serial: u64) -> Option<u32>
        ensures { result ≡ option_map (λ e. e.rank) (find (has_id serial) self.now.items) }
    {
        match self.index.get(serial) {
            Some(item) => Some(item.rank),
            None => None,
        }
    }

    /// Takes the match of a serial number out, where it is there.
    pub fn remove(&mut self, serial: u64)
        ensures items { SameItems (filter (λ r. not (has_id serial r)) self.old.items) self.new.items }
        ensures room { self.old.room ≤ self.new.room }
    {
        // The proof learns that no two have one serial number.
        let _ = self.index.len();
        if let Some(rank) = self.rank(serial) {
            self.index.remove(serial);
            forget(&mut self.counts, rank);
        }
    }

    /// Adds the match of an entry, and takes out that of the entry that it replaces.
    pub fn exchange(&mut self, replaced: Option<Entry>, item: &Item)
        requires room { 0 < self.old.room }
        requires new_id { list_any (has_id item.now.id) self.old.items ≡ false }
        ensures items { Exchanges replaced item.now self.old.items self.new.items }
        ensures room { self.old.room ≤ self.new.room + 1 }
    {
        if let Some(old) = replaced {
            self.remove(old.serial);
        }
        self.insert(item);
    }

    /// Takes out the matches of these serial numbers, but the one whose place is taken.
    pub fn remove_all(&mut self, serials: &[u64], place: Option<u64>)
        ensures items { SameItems (filter (remains serials.now place) self.old.items) self.new.items }
        ensures room { self.old.room ≤ self.new.room }
    {
        for serial in serials {
            if place != Some(*serial) {
                self.remove(*serial);
            }
        }
    }

    /// Whether a match has the rank.
    pub fn has(&self, rank: u32) -> bool
        ensures { result ≡ list_any (λ r. rank == r.rank) self.now.items }
    {
        has(&self.counts, rank)
    }

    /// The least serial number of a match that overlaps a new one of its rank and isn't the same.
    pub fn in_way(&self, new: &Identity) -> Option<u64>
        ensures { IsLeast (is_in_way new.now.rank new.now.normal) self.now.items result }
    {
        self.index.first_in_way(new.rank, &new.normal)
    }

    /// The match of the highest rank that holds the header.
    pub fn highest(&self, header: &Header) -> Option<Item>
        ensures { IsTop (is_holding header.now) self.now.items result }
    {
        self.index.best(header)
    }
}
