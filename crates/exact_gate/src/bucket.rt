//! The candidates of one match and priority.
ghost use Rattle.std.specs.Prelude.{◌≡◌, ◌==◌, [], ◌∷◌, length, IfOk, OnErr, OnOk};
ghost use Rattle.std.specs.List.{list_all};
ghost use Rattle.exact_gate.specs.Standing.{inserted, removed, stands_in};
ghost use Rattle.switch_meaning.specs.Same.{same_entry};

use cv_io::{Duplicate, Memory};
use std::alloc::Global;
use std::marker::Model;
use switch_meaning::{PhysEntry, is_same};

/// The candidates of one match and priority, and the number under which the indexes know them.
#[derive(Drop, Debug)]
pub struct Bucket {
    id: u64,
    entries: Vec<PhysEntry>,
}

impl Model for Bucket {
    ghost use Rattle.exact_gate.specs.InsideBuckets.{BucketOf};

    ghost Value = { BucketOf };

    ghost view = { λ a. record { id = a.id; entries = a.entries.items } };
}

impl Bucket {
    /// One candidate alone.
    pub fn of(alloc: Global, id: u64, entry: &PhysEntry) -> Result<Bucket, Memory>
        ensures { IfOk result (λ bucket. bucket ≡ record { id = id; entries = entry.now ∷ [] }) }
    {
        let mut entries = Vec::new(alloc);
        entries.push(entry.copy()?)?;
        Ok(Bucket { id, entries })
    }

    pub fn id(&self) -> u64
        ensures { result ≡ self.now.id }
    {
        self.id
    }

    pub fn as_slice(&self) -> &[PhysEntry]
        ensures { result.now ≡ self.now.entries }
    {
        self.entries.as_slice()
    }

    /// Whether the candidate is there.
    pub fn has(&self, entry: &PhysEntry) -> bool
        ensures { result ≡ stands_in self.now.entries entry.now }
    {
        self.entries.iter().any(|other| is_same(entry, other))
    }

    /// Whether each candidate is this one.
    pub fn is_only(&self, entry: &PhysEntry) -> bool
        ensures { result ≡ list_all (same_entry entry.now) self.now.entries }
    {
        self.entries.iter().all(|other| is_same(entry, other))
    }

    /// Adds a candidate, unless it is there.
    pub fn insert(&mut self, entry: &PhysEntry) -> Result<(), Memory>
        ensures inserted { OnOk result (self.new ≡ record self.old { entries = inserted self.old.entries entry.now }) }
        ensures memory { OnErr result (self.new ≡ self.old) }
    {
        if self.has(entry) {
            return Ok(());
        }
        self.entries.push(entry.copy()?)?;
        Ok(())
    }

    /// Takes a candidate out, if it is there.
    pub fn remove(&mut self, entry: &PhysEntry)
        ensures { self.new ≡ record self.old { entries = removed self.old.entries entry.now } }
    {
        take_out(&mut self.entries, entry);
    }
}

/// Leaves out the entries that are the same as one.
fn take_out(entries: &mut Vec<PhysEntry>, entry: &PhysEntry)
    ensures { entries.new.items ≡ removed entries.old.items entry.now }
{
    entries.retain(|other| !is_same(entry, other));
}

impl Duplicate for Bucket {
    fn copy(&self) -> Result<Bucket, Memory> {
        let alloc = *self.entries.allocator();
        Ok(Bucket {
            id: self.id,
            entries: PhysEntry::copies(alloc, self.entries.as_slice())?.into_vec(),
        })
    }
}
