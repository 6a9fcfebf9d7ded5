//! The keys of slots, found by the headers that their matches hold.
ghost use Rattle.std.specs.Prelude.{◌≡◌, ◌<◌, ◌^◌, [], false, flat_map, IfOk, OnOk, IsSome, None, if◌then◌else◌};
ghost use Rattle.std.specs.BTreeMap.{is_at};
ghost use Rattle.of10_match.specs.Ranges.{IsMatch};
ghost use Rattle.of10_match.specs.Wildcards.{match_bytes};
ghost use Rattle.install_plan.specs.InsideFinder.{AreHeld, key_if_small, key_under as key_under_of, keys_under};
ghost use Rattle.install_plan.specs.InsideFinder.{number_at};
ghost use Rattle.install_plan.specs.InsideSlots.{order};
ghost use Rattle.install_plan.specs.declared.key.Key.{Key as KeyOf};

use crate::key::Key;
use crate::listing::copied;
use cv_io::{Duplicate, List, Memory};
use match_index::{Index, Item};
use of10_match::{Header, Match};
use std::alloc::Global;
use std::collections::BTreeMap;
use std::marker::Model;

/// Keys under numbers of their own, and an index of their matches under these numbers.
#[derive(Drop)]
pub struct Finder {
    index: Index,
    numbers: BTreeMap<Key, u64>,
    /// The next key's number.
    next: u64,
}

impl Model for Finder {
    ghost use Rattle.install_plan.specs.InsideFinder.{AreIndexed, Numbers};

    ghost Value = { Numbers };

    ghost view = { λ a. a.numbers.entries };

    ghost invariant = { λ a. AreIndexed a.numbers.entries a.index.items a.next };
}

/// The key of a match, where its rank is a priority.
fn key_of(item: &Item) -> Option<Key>
    ensures { result ≡ key_if_small item.now }
{
    if item.rank < 0x1_0000 {
        Some(Key {
            priority: item.rank as u16,
            bytes: item.normal.write(),
        })
    } else {
        None
    }
}

/// The key of the match of a number, if there is one.
fn key_under(index: &Index, number: u64) -> Option<Key>
    ensures { result ≡ key_under_of index.now.items number }
{
    key_of(index.get(number)?)
}

/// The keys of the matches of some numbers.
fn keys_of(alloc: Global, index: &Index, numbers: &List<u64>) -> Result<List<Key>, Memory>
    ensures { IfOk result (λ keys. keys ≡ flat_map (keys_under index.now.items) numbers.now) }
{
    let mut keys = List::new(alloc);
    for number in numbers.as_slice() {
        keys.push_some(key_under(index, *number))?;
    }
    Ok(keys)
}

/// A priority as a rank.
fn rank(priority: u16) -> u32
    ensures value { result ≡ priority }
    ensures small { result < 2 ^ 16 }
{
    u32::from(priority)
}

/// Takes out the number of a key, if it has one.
fn take(numbers: &mut BTreeMap<Key, u64>, key: &Key) -> Option<u64>
    ensures value { result ≡ number_at key.now numbers.old.entries }
    ensures others { (q : KeyOf) → number_at q numbers.new.entries
        ≡ (if is_at (order key.now) q then None else number_at q numbers.old.entries) }
{
    numbers.remove(key)
}

impl Finder {
    /// No keys. It takes no memory.
    pub fn new(alloc: Global) -> Finder
        ensures { result ≡ [] }
    {
        Finder {
            index: Index::new(alloc),
            numbers: BTreeMap::new(alloc),
            next: 0,
        }
    }

    /// Gives a key a number, where it has none. The match is the key's.
    pub fn insert(&mut self, key: &Key, m: &Match) -> Result<(), Memory>
        requires key { key.now.bytes ≡ match_bytes m.now }
        requires in_range { IsMatch m.now }
        ensures there { OnOk result (IsSome (number_at key.now self.new)) }
        ensures still { (q : KeyOf) → IsSome (number_at q self.old) → IsSome (number_at q self.new) }
    {
        if self.numbers.contains_key(key) {
            return Ok(());
        }
        if self.next == u64::MAX {
            return Err(Memory);
        }
        self.index.reserve(1)?;
        self.numbers.insert(*key, self.next)?;
        self.index.put(self.next, rank(key.priority), m);
        self.next += 1;
        Ok(())
    }

    /// Takes a key's number back, where it has one.
    pub fn remove(&mut self, key: &Key)
        ensures gone { number_at key.now self.new ≡ None }
        ensures others { (q : KeyOf) → is_at (order key.now) q ≡ false → IsSome (number_at q self.old)
            → IsSome (number_at q self.new) }
    {
        // The proof learns that no two matches stand under one number.
        let _ = self.index.len();
        if let Some(number) = take(&mut self.numbers, key) {
            self.index.remove(number);
        }
    }

    /// The keys whose matches hold a header.
    pub fn holding(&self, alloc: Global, header: &Header) -> Result<List<Key>, Memory>
        ensures { IfOk result (AreHeld self.now header.now) }
    {
        let _ = self.index.len();
        let numbers = self.index.holding(header)?;
        keys_of(alloc, &self.index, &numbers)
    }

    /// The same keys.
    pub fn copied(&self, alloc: Global) -> Result<Finder, Memory>
        ensures { IfOk result (λ copied. copied ≡ self.now) }
    {
        Ok(Finder {
            index: self.index.copy()?,
            numbers: copied(alloc, &self.numbers)?,
            next: self.next,
        })
    }
}
