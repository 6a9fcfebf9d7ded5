//! The candidates, found by their match and priority.
ghost use Rattle.std.specs.Prelude.{◌≡◌, ◌||◌, ◌&&◌, [], true, not, IfOk, OnErr, OnOk};
ghost use Rattle.std.specs.List.{IsDistinct, list_any};
ghost use Rattle.exact_gate.specs.Finding.{tops};
ghost use Rattle.exact_gate.specs.Standing.{key_of, one_key, standing as standing_of, stands_in};
ghost use Rattle.switch_meaning.specs.Same.{same_entry};
ghost use Rattle.switch_meaning.specs.declared.entry.PhysEntry.{PhysEntry};

use crate::bucket::Bucket;
use crate::buckets::{copied, insert_at, put, remove_at};
use crate::finder::Finder;
use crate::key::Key;
use cv_io::{Duplicate, List, Memory};
use indexmap::IndexMap;
use std::alloc::Global;
use std::marker::Model;
use switch_meaning::PhysEntry;

/// Candidates, each once, in no order.
#[derive(Drop)]
pub struct Pool {
    alloc: Global,
    buckets: IndexMap<Key, Bucket>,
    finder: Finder,
    /// The number of the next bucket.
    next: u64,
}

impl Model for Pool {
    ghost use Rattle.std.specs.Prelude.{List};
    ghost use Rattle.exact_gate.specs.InsideBuckets.{AreBuckets, AreKnown, in_buckets};
    ghost use Rattle.switch_meaning.specs.declared.entry.PhysEntry.{PhysEntry};

    ghost Value = { List PhysEntry };

    ghost view = { λ a. in_buckets a.buckets.entries };

    ghost invariant = { λ a. AreBuckets a.buckets.entries × AreKnown a.buckets.entries a.finder a.next };
}

impl Pool {
    pub fn new(alloc: Global) -> Pool
        ensures { result ≡ [] }
    {
        Pool {
            alloc,
            buckets: IndexMap::new(alloc),
            finder: Finder::new(alloc),
            next: 0,
        }
    }

    /// Each candidate stands once. It does nothing.
    pub fn stands_once(&self)
        ensures { IsDistinct same_entry self.now }
    {
        let _ = &self.buckets;
    }

    /// Whether the candidate is there.
    pub fn has(&self, entry: &PhysEntry) -> bool
        ensures { result ≡ stands_in self.now entry.now }
    {
        match self.buckets.get(&Key::of(entry)) {
            Some(bucket) => bucket.has(entry),
            None => false,
        }
    }

    /// Adds a candidate, unless it is there.
    pub fn insert(&mut self, entry: &PhysEntry) -> Result<(), Memory>
        ensures entries { OnOk result ((e : PhysEntry)
            → stands_in self.new e ≡ (stands_in self.old e || same_entry e entry.now)) }
        ensures memory { OnErr result (self.new ≡ self.old) }
    {
        let key = Key::of(entry);
        match self.buckets.get_index_of(&key) {
            Some(place) => insert_at(&mut self.buckets, place, entry),
            None => {
                if self.next == u64::MAX {
                    return Err(Memory);
                }
                let bucket = Bucket::of(self.alloc, self.next, entry)?;
                self.buckets.reserve(1)?;
                self.finder.insert(self.next, &key)?;
                put(&mut self.buckets, key, bucket);
                self.next += 1;
                Ok(())
            }
        }
    }

    /// Takes a candidate out, if it is there.
    pub fn remove(&mut self, entry: &PhysEntry)
        ensures { (e : PhysEntry) → stands_in self.new e ≡ (stands_in self.old e && not (same_entry e entry.now)) }
    {
        let place = match self.buckets.get_index_of(&Key::of(entry)) {
            Some(place) => place,
            None => return,
        };
        if !self.buckets[place].is_only(entry) {
            remove_at(&mut self.buckets, place, entry);
            return;
        }
        match self.buckets.swap_remove_index(place) {
            Some(taken) => self.finder.remove(taken.1.id(), &taken.0),
            None => {}
        }
    }

    /// The candidates of a key, where they pass.
    pub fn standing(&self, key: &Key) -> Result<List<PhysEntry>, Memory>
        ensures { IfOk result (λ list. list ≡ standing_of self.now key.now) }
    {
        let bucket = match self.buckets.get(key) {
            Some(bucket) => bucket,
            None => return Ok(List::new(self.alloc)),
        };
        if self.finder.is_passed(key) {
            return Ok(List::new(self.alloc));
        }
        PhysEntry::copies(self.alloc, bucket.as_slice())
    }

    /// The keys of candidates that those of this key pass over, and maybe others.
    pub fn reached(&self, key: &Key) -> Result<List<Key>, Memory>
        ensures { IfOk result (λ keys. (e : PhysEntry) → stands_in self.now e ≡ true
            → tops key.now.m key.now.priority e.m e.priority ≡ true → list_any (one_key (key_of e)) keys ≡ true) }
    {
        self.finder.reached(self.alloc, key)
    }
}

impl Duplicate for Pool {
    fn copy(&self) -> Result<Pool, Memory> {
        Ok(Pool {
            alloc: self.alloc,
            buckets: copied(self.alloc, &self.buckets)?,
            finder: self.finder.copy()?,
            next: self.next,
        })
    }
}
