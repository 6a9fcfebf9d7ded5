//! The indexes of keys: of all, and of those whose matches name all twelve fields.
ghost use Rattle.std.specs.Prelude.{◌≡◌, ◌++◌, ◌∷◌, [], true, false, flat_map, IfOk, OnErr, OnOk};
ghost use Rattle.std.specs.List.{list_any};
ghost use Rattle.exact_gate.specs.Finding.{Reaches, is_over, key_found as key_found_of, keys_found};
ghost use Rattle.exact_gate.specs.Finding.{lower_key as lower_key_of};
ghost use Rattle.match_index.specs.Items.{AddsTo, has_id, same_item};
ghost use Rattle.match_index.specs.declared.item.Item.{Item};

use crate::key::Key;
use cv_io::{Duplicate, List, Memory};
use match_index::{Index, Item};
use std::alloc::Global;
use std::marker::Model;

/// Keys under numbers, found by what their matches hold and cover.
#[derive(Drop)]
pub struct Finder {
    all: Index,
    exact: Index,
}

impl Model for Finder {
    ghost use Rattle.std.specs.Prelude.{List};
    ghost use Rattle.exact_gate.specs.InsideBuckets.{AreExact};
    ghost use Rattle.match_index.specs.declared.item.Item.{Item};

    ghost Value = { List Item };

    ghost view = { λ a. a.all.items };

    ghost invariant = { λ a. AreExact a.all.items a.exact.items };
}

impl Finder {
    pub fn new(alloc: Global) -> Finder
        ensures { result ≡ [] }
    {
        Finder {
            all: Index::new(alloc),
            exact: Index::new(alloc),
        }
    }

    /// Puts a key in under a new number.
    pub fn insert(&mut self, id: u64, key: &Key) -> Result<(), Memory>
        requires { list_any (has_id id) self.old ≡ false }
        ensures added { OnOk result
            (self.new ≡ self.old ++ record { id = id; rank = key.now.priority; normal = key.now.m } ∷ []) }
        ensures memory { OnErr result (self.new ≡ self.old) }
    {
        let rank = u32::from(key.priority);
        self.exact.reserve(1)?;
        self.all.insert_ranked(id, rank, &key.m)?;
        if key.m.is_one_header() {
            self.exact.put(id, rank, &key.m);
        }
        Ok(())
    }

    /// Takes a key out from under its number.
    pub fn remove(&mut self, id: u64, key: &Key)
        requires { list_any (same_item (record { id = id; rank = key.now.priority; normal = key.now.m })) self.old
            ≡ true }
        ensures { AddsTo (record { id = id; rank = key.now.priority; normal = key.now.m }) self.new self.old }
    {
        // Each id stands once.
        let _ = self.all.len();
        let _ = self.exact.len();
        self.all.remove(id);
        if key.m.is_one_header() {
            self.exact.remove(id);
        }
    }

    /// Whether entries of this key are passed over: its match names all twelve fields, and a key of a
    /// greater priority holds its header.
    pub fn is_passed(&self, key: &Key) -> bool
        ensures { result ≡ list_any (is_over key.now) self.now }
    {
        match key.header() {
            None => false,
            Some(header) => match self.all.best(&header) {
                None => false,
                Some(item) => u32::from(key.priority) < item.rank,
            },
        }
    }

    /// The keys of less priority whose matches name all twelve fields, and are covered by this one's.
    pub fn reached(&self, alloc: Global, key: &Key) -> Result<List<Key>, Memory>
        ensures { IfOk result (Reaches key.now self.now) }
    {
        let _ = self.exact.len();
        let ids = self.exact.covered(&key.m)?;
        keys_of(alloc, &self.exact, key.priority, &ids)
    }
}

/// The keys under these numbers that have less priority.
fn keys_of(
    alloc: Global,
    index: &Index,
    priority: u16,
    ids: &List<u64>,
) -> Result<List<Key>, Memory>
    ensures { IfOk result (λ keys. keys ≡ flat_map (keys_found index.now.items priority) ids.now) }
{
    let mut keys = List::new(alloc);
    for id in ids.as_slice() {
        keys.push_some(key_found(index, priority, *id))?;
    }
    Ok(keys)
}

/// The key under a number, if it has less priority.
fn key_found(index: &Index, priority: u16, id: u64) -> Option<Key>
    ensures { result ≡ key_found_of index.now.items priority id }
{
    let item = index.get(id)?;
    lower_key(priority, item)
}

/// The key of an item, if it has less priority.
fn lower_key(priority: u16, item: &Item) -> Option<Key>
    ensures { result ≡ lower_key_of priority item.now }
{
    if item.rank < u32::from(priority) {
        Some(Key {
            m: item.normal,
            priority: item.rank as u16,
        })
    } else {
        None
    }
}

impl Duplicate for Finder {
    fn copy(&self) -> Result<Finder, Memory> {
        Ok(Finder {
            all: self.all.copy()?,
            exact: self.exact.copy()?,
        })
    }
}
