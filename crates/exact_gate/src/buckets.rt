//! Buckets by their keys.
ghost use Rattle.std.specs.Prelude.{◌≡◌, ◌<◌, ◌||◌, ◌&&◌, ◌++◌, ◌∷◌, [], false, not, map, take, ◌+◌, IfOk, OnErr, OnOk};
ghost use Rattle.std.specs.Prelude.{None, Some, IfSome, slice_get};
ghost use Rattle.std.specs.List.{list_all};
ghost use Rattle.indexmap.specs.IndexMap.{IsUnique, get, index_map_len, index_of, spare, values};
ghost use Rattle.exact_gate.specs.InsideBuckets.{AreBuckets, BucketOf, in_buckets, item_of};
ghost use Rattle.exact_gate.specs.Standing.{key_of, one_key, stands_in};
ghost use Rattle.switch_meaning.specs.Same.{same_entry};
ghost use Rattle.switch_meaning.specs.declared.entry.PhysEntry.{PhysEntry};

use crate::bucket::Bucket;
use crate::key::Key;
use cv_io::{Duplicate, Memory};
use indexmap::IndexMap;
use std::alloc::Global;
use switch_meaning::PhysEntry;

/// Adds a candidate to the bucket of its key, which stands at the place.
pub fn insert_at(
    buckets: &mut IndexMap<Key, Bucket>,
    place: usize,
    entry: &PhysEntry,
) -> Result<(), Memory>
    requires within { place < index_map_len buckets.old }
    requires at { index_of one_key buckets.old (key_of entry.now) ≡ Some place }
    ensures entries { OnOk result ((e : PhysEntry)
        → stands_in (in_buckets buckets.new.entries) e
        ≡ (stands_in (in_buckets buckets.old.entries) e || same_entry e entry.now)) }
    ensures items { map item_of buckets.new.entries ≡ map item_of buckets.old.entries }
    ensures buckets { AreBuckets buckets.old.entries → AreBuckets buckets.new.entries }
    ensures memory { OnErr result (buckets.new.entries ≡ buckets.old.entries) }
{
    buckets[place].insert(entry)
}

/// Takes a candidate out of the bucket of its key, which stands at the place and has another one.
pub fn remove_at(buckets: &mut IndexMap<Key, Bucket>, place: usize, entry: &PhysEntry)
    requires within { place < index_map_len buckets.old }
    requires at { index_of one_key buckets.old (key_of entry.now) ≡ Some place }
    requires more { IfSome (slice_get (values buckets.old) place)
        (λ (b : BucketOf). list_all (same_entry entry.now) b.entries ≡ false) }
    ensures entries { AreBuckets buckets.old.entries → (e : PhysEntry)
        → stands_in (in_buckets buckets.new.entries) e
        ≡ (stands_in (in_buckets buckets.old.entries) e && not (same_entry e entry.now)) }
    ensures items { map item_of buckets.new.entries ≡ map item_of buckets.old.entries }
    ensures buckets { AreBuckets buckets.old.entries → AreBuckets buckets.new.entries }
{
    buckets[place].remove(entry);
}

/// Copies of buckets, in their order.
pub fn copied(
    alloc: Global,
    buckets: &IndexMap<Key, Bucket>,
) -> Result<IndexMap<Key, Bucket>, Memory>
    ensures { IfOk result (λ copied. copied.entries ≡ buckets.now.entries) }
{
    let mut copied = IndexMap::new(alloc);
    for place in 0..buckets.len() {
        copy_at(&mut copied, buckets, place)?;
    }
    Ok(copied)
}

/// Appends a copy of the bucket at a place.
fn copy_at(
    copied: &mut IndexMap<Key, Bucket>,
    buckets: &IndexMap<Key, Bucket>,
    place: usize,
) -> Result<(), Memory>
    requires within { place < index_map_len buckets.now }
    requires once { IsUnique one_key buckets.now }
    requires so_far { copied.old.entries ≡ take place buckets.now.entries }
    ensures { OnOk result (copied.new.entries ≡ take (place + 1) buckets.now.entries) }
{
    match buckets.get_index(place) {
        Some(pair) => {
            copied.insert(*pair.0, pair.1.copy()?)?;
            Ok(())
        }
        None => Ok(()),
    }
}

/// Puts a bucket under a new key, where there is room. It takes no memory.
pub fn put(buckets: &mut IndexMap<Key, Bucket>, key: Key, bucket: Bucket)
    requires room { 0 < spare buckets.old }
    requires absent { get one_key buckets.old key ≡ None }
    ensures entries { buckets.new.entries ≡ buckets.old.entries ++ (key, bucket) ∷ [] }
    ensures unique { IsUnique one_key buckets.new }
{
    buckets.insert(key, bucket).unwrap();
}
