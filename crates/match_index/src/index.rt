//! The index.
ghost use Rattle.std.specs.Prelude.{◌≡◌, ◌==◌, ◌<◌, ◌+◌, ◌-◌, ◌++◌, ◌∷◌, [], max, false, map, find, option_to_list};
ghost use Rattle.std.specs.Prelude.{IfOk, OnOk, OnErr, IsPermutation, IsSorted, length};
ghost use Rattle.std.specs.List.{IsDistinct, list_any};
ghost use Rattle.std.specs.Option.{option_copied};
ghost use Rattle.std.specs.Ordering.{nat_cmp};

use crate::group::Group;
use crate::groups::{list_of, remove_from, settle, top_of};
use crate::item::Item;
use crate::question::Question;
use crate::search::take_out;
use cv_io::{List, Memory};
use indexmap::IndexMap;
use of10_match::{Header, Match};
use std::alloc::Global;
use std::marker::Model;

/// Matches under ids, each with a rank, found by what they hold, overlap or cover.
#[derive(Drop)]
pub struct Index {
    pub(crate) alloc: Global,
    /// How many more can be put in without memory.
    pub(crate) room: usize,
    pub(crate) held: IndexMap<u64, Item>,
    /// Those that are in no group yet, since that may take memory.
    late: Vec<Item>,
    groups: Vec<Group>,
}

impl Model for Index {
    ghost use Rattle.std.specs.Prelude.{◌-◌, ◌≤◌, vec_capacity, vec_len};
    ghost use Rattle.indexmap.specs.IndexMap.{spare, values};
    ghost use Rattle.match_index.specs.Items.{IndexOf};
    ghost use Rattle.match_index.specs.InsideGroups.{AreKept};

    ghost Value = { IndexOf };

    ghost view = { λ a. record { items = values a.held; room = a.room } };

    ghost invariant = { λ a. AreKept a.held.entries a.late.items a.groups.items × (a.room ≤ spare a.held)
        × (a.room ≤ vec_capacity a.late - vec_len a.late) };
}

impl Index {
    ghost use Rattle.match_index.specs.Items.{IndexOf, IsLeast, IsTop, has_id, ids_of};
    ghost use Rattle.match_index.specs.Questions.{asks, is_covered, is_holding, is_in_way, is_meeting};

    /// An index without items, which takes no memory.
    pub fn new(alloc: Global) -> Index
        ensures { result ≡ record { items = []; room = 0 } }
    {
        Index {
            alloc,
            room: 0,
            held: IndexMap::new(alloc),
            late: Vec::new(alloc),
            groups: Vec::new(alloc),
        }
    }

    /// How many items there are. No two have one id.
    pub fn len(&self) -> usize
        ensures count { result ≡ length self.now.items }
        ensures once { IsDistinct ◌==◌ (map (λ e. e.id) self.now.items) }
    {
        self.held.len()
    }

    pub fn is_empty(&self) -> bool
        ensures { result ≡ (length self.now.items == 0) }
    {
        self.held.is_empty()
    }

    /// The item of an id.
    pub fn get(&self, id: u64) -> Option<&Item>
        ensures { option_copied result ≡ find (has_id id) self.now.items }
    {
        self.held.get(&id)
    }

    /// Whether there is an item of the id.
    pub fn has(&self, id: u64) -> bool
        ensures { result ≡ list_any (has_id id) self.now.items }
    {
        self.held.get_index_of(&id).is_some()
    }

    /// Makes room for so many more items.
    pub fn reserve(&mut self, more: usize) -> Result<(), Memory>
        ensures items { self.new.items ≡ self.old.items }
        ensures room { OnOk result (self.new.room ≡ max more self.old.room) }
        ensures memory { OnErr result (self.new.room ≡ self.old.room) }
    {
        settle(&mut self.late, &mut self.groups, self.alloc)?;
        if self.room < more {
            self.held.reserve(more)?;
            self.late.reserve(more)?;
            self.room = more;
        }
        Ok(())
    }

    /// Puts a match in under a new id, where there is room. It takes no memory.
    pub fn put(&mut self, id: u64, rank: u32, m: &Match)
        requires room { 0 < self.old.room }
        requires new_id { list_any (has_id id) self.old.items ≡ false }
        ensures items { self.new.items ≡ self.old.items ++ record { id = id; rank = rank; normal = m.now } ∷ [] }
        ensures room { self.new.room + 1 ≡ self.old.room }
    {
        self.held.insert(id, Item::of(id, rank, m)).unwrap();
        self.late.push(Item::of(id, rank, m)).unwrap();
        self.room -= 1;
    }

    /// Inserts a match under a new id, with rank 0.
    pub fn insert(&mut self, id: u64, m: &Match) -> Result<(), Memory>
        requires { list_any (has_id id) self.old.items ≡ false }
        ensures items { OnOk result (self.new.items ≡ self.old.items
            ++ record { id = id; rank = 0; normal = m.now } ∷ []) }
        ensures room { OnOk result (self.new.room ≡ self.old.room - 1) }
        ensures memory { OnErr result (self.new ≡ self.old) }
    {
        self.insert_ranked(id, 0, m)
    }

    /// Inserts a match under a new id, with a rank.
    pub fn insert_ranked(&mut self, id: u64, rank: u32, m: &Match) -> Result<(), Memory>
        requires { list_any (has_id id) self.old.items ≡ false }
        ensures items { OnOk result (self.new.items ≡ self.old.items
            ++ record { id = id; rank = rank; normal = m.now } ∷ []) }
        ensures room { OnOk result (self.new.room ≡ self.old.room - 1) }
        ensures memory { OnErr result (self.new ≡ self.old) }
    {
        self.reserve(1)?;
        self.put(id, rank, m);
        Ok(())
    }

    /// Takes the item of an id out; false where there is none. It takes no memory.
    pub fn remove(&mut self, id: u64) -> bool
        ensures found { result ≡ list_any (has_id id) self.old.items }
        ensures items { IsPermutation self.old.items
            (option_to_list (find (has_id id) self.old.items) ++ self.new.items) }
        ensures room { self.new.room ≡ self.old.room }
    {
        match self.held.swap_remove(&id) {
            Some(item) => {
                if !take_out(&mut self.late, &item) {
                    remove_from(&mut self.groups, &item);
                }
                true
            }
            None => false,
        }
    }

    /// The item of the highest rank, and of those of the least id, whose match holds the header. It
    /// takes no memory.
    pub fn best(&self, header: &Header) -> Option<Item>
        ensures { IsTop (is_holding header.now) self.now.items result }
    {
        self.top(&Question::Holding { header: *header })
    }

    /// The least id of an item of the rank whose match is another one that overlaps. It takes no
    /// memory.
    pub fn first_in_way(&self, rank: u32, m: &Match) -> Option<u64>
        ensures { IsLeast (is_in_way rank m.now) self.now.items result }
    {
        match self.top(&Question::InWay { rank, m: *m }) {
            Some(item) => Some(item.id),
            None => None,
        }
    }

    /// The ids of the items whose match holds the header, rising.
    pub fn holding(&self, header: &Header) -> Result<List<u64>, Memory>
        ensures ids { IfOk result (IsPermutation (ids_of (is_holding header.now) self.now.items)) }
        ensures rising { IfOk result (IsSorted nat_cmp) }
    {
        self.listed(&Question::Holding { header: *header })
    }

    /// The ids of the items whose match overlaps, rising.
    pub fn meeting(&self, m: &Match) -> Result<List<u64>, Memory>
        ensures ids { IfOk result (IsPermutation (ids_of (is_meeting m.now) self.now.items)) }
        ensures rising { IfOk result (IsSorted nat_cmp) }
    {
        self.listed(&Question::Meeting { m: *m })
    }

    /// The ids of the items whose match is covered, rising.
    pub fn covered(&self, m: &Match) -> Result<List<u64>, Memory>
        ensures ids { IfOk result (IsPermutation (ids_of (is_covered m.now) self.now.items)) }
        ensures rising { IfOk result (IsSorted nat_cmp) }
    {
        self.listed(&Question::Covered { m: *m })
    }

    /// The first of those that are asked for.
    fn top(&self, question: &Question) -> Option<Item>
        ensures { IsTop (asks question.now) self.now.items result }
    {
        top_of(&self.late, &self.groups, question)
    }

    /// The ids of those that are asked for, rising.
    fn listed(&self, question: &Question) -> Result<List<u64>, Memory>
        ensures ids { IfOk result (IsPermutation (ids_of (asks question.now) self.now.items)) }
        ensures rising { IfOk result (IsSorted nat_cmp) }
    {
        let mut ids = Vec::new(self.alloc);
        list_of(&self.late, &self.groups, question, &mut ids)?;
        ids.sort()?;
        Ok(List::from_vec(ids))
    }
}
