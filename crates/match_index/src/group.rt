//! The items whose matches have one shape.
ghost use Rattle.std.specs.Prelude.{◌≡◌, ◌<◌, ◌++◌, ◌∷◌, [], Some, true, IfOk, OnOk, OnErr, slice_get};
ghost use Rattle.std.specs.List.{list_any};
ghost use Rattle.of10_match.specs.Ranges.{IsMatch};
ghost use Rattle.of10_match.specs.Same.{same_match};
ghost use Rattle.indexmap.specs.IndexMap.{get, index_map_len, index_of, values};
ghost use Rattle.match_index.specs.InsideGroups.{AreBuckets, SameItems, in_buckets};
ghost use Rattle.match_index.specs.InsideShapes.{shape_of};
ghost use Rattle.match_index.specs.Items.{AddsTo, IsTop, ids_of, same_item};
ghost use Rattle.match_index.specs.Questions.{asks};

use crate::bucket::Bucket;
use crate::item::{Item, before};
use crate::question::Question;
use crate::search::{list_among, top_among};
use crate::shape::Shape;
use cv_io::Memory;
use indexmap::IndexMap;
use of10_match::Match;
use std::alloc::Global;
use std::marker::Model;

/// The items whose matches name the same fields, by their matches.
#[derive(Drop)]
pub struct Group {
    shape: Shape,
    buckets: IndexMap<Match, Bucket>,
}

impl Model for Group {
    ghost use Rattle.match_index.specs.InsideGroups.{AreBuckets, GroupOf, in_buckets};

    ghost Value = { GroupOf };

    ghost view = { λ a. record { shape = a.shape; items = in_buckets a.buckets.entries } };

    ghost invariant = { λ a. AreBuckets a.shape a.buckets.entries };
}

/// The first of those that are asked for in all buckets.
fn top_of_all(buckets: &IndexMap<Match, Bucket>, question: &Question) -> Option<Item>
    ensures { IsTop (asks question.now) (in_buckets buckets.now.entries) result }
{
    let mut top = None;
    for bucket in buckets.values() {
        top = before(top, top_among(bucket.as_slice(), question));
    }
    top
}

/// Appends the ids of those that are asked for in all buckets.
fn list_all(
    buckets: &IndexMap<Match, Bucket>,
    question: &Question,
    ids: &mut Vec<u64>,
) -> Result<(), Memory>
    ensures { OnOk result (ids.new.items ≡ ids.old.items ++ ids_of (asks question.now)
        (in_buckets buckets.now.entries)) }
{
    for bucket in buckets.values() {
        list_among(bucket.as_slice(), question, ids)?;
    }
    Ok(())
}

/// Adds an item to the bucket of its match, which stands at the place.
fn push_at(buckets: &mut IndexMap<Match, Bucket>, place: usize, item: Item) -> Result<(), Memory>
    requires within { place < index_map_len buckets.old }
    requires at { index_of same_match buckets.old item.normal ≡ Some place }
    ensures added { OnOk result (AddsTo item (in_buckets buckets.old.entries) (in_buckets buckets.new.entries)) }
    ensures memory { OnErr result (buckets.new.entries ≡ buckets.old.entries) }
    ensures buckets { (shape : Shape) → AreBuckets shape buckets.old.entries → AreBuckets shape buckets.new.entries }
{
    buckets[place].push(item)
}

/// Takes an item out of the bucket of its match, which stands at the place.
fn remove_at(buckets: &mut IndexMap<Match, Bucket>, place: usize, item: &Item)
    requires within { place < index_map_len buckets.old }
    requires at { slice_get (values buckets.old) place ≡ get same_match buckets.old item.now.normal }
    ensures taken { (shape : Shape) → AreBuckets shape buckets.old.entries
        → list_any (same_item item.now) (in_buckets buckets.old.entries) ≡ true
        → AddsTo item.now (in_buckets buckets.new.entries) (in_buckets buckets.old.entries) }
    ensures buckets { (shape : Shape) → AreBuckets shape buckets.old.entries → AreBuckets shape buckets.new.entries }
    ensures len { index_map_len buckets.new ≡ index_map_len buckets.old }
{
    buckets[place].remove(item);
}

/// Takes out the bucket at a place, where it is empty.
fn drop_empty(buckets: &mut IndexMap<Match, Bucket>, place: usize)
    requires { place < index_map_len buckets.old }
    ensures items { SameItems (in_buckets buckets.new.entries) (in_buckets buckets.old.entries) }
    ensures buckets { (shape : Shape) → AreBuckets shape buckets.old.entries → AreBuckets shape buckets.new.entries }
{
    if buckets[place].is_empty() {
        buckets.swap_remove_index(place);
    }
}

impl Group {
    /// The group of one item.
    pub fn of(alloc: Global, item: Item) -> Result<Group, Memory>
        ensures shape { IfOk result (λ group. group.shape ≡ shape_of item.normal) }
        ensures items { IfOk result (λ group. group.items ≡ item ∷ []) }
    {
        let mut buckets = IndexMap::new(alloc);
        buckets.insert(item.normal, Bucket::of(alloc, item)?)?;
        Ok(Group {
            shape: Shape::of(&item.normal),
            buckets,
        })
    }

    pub fn shape(&self) -> Shape
        ensures { result ≡ self.now.shape }
    {
        self.shape
    }

    /// Whether there is no bucket left.
    pub fn is_empty(&self) -> bool
        ensures { result ≡ true → self.now.items ≡ [] }
    {
        self.buckets.is_empty()
    }

    /// Whether the item is there.
    pub fn has(&self, item: &Item) -> bool
        ensures { result ≡ list_any (same_item item.now) self.now.items }
    {
        match self.buckets.get(&item.normal) {
            Some(bucket) => bucket.has(item),
            None => false,
        }
    }

    /// Adds an item of the group's shape.
    pub fn insert(&mut self, alloc: Global, item: Item) -> Result<(), Memory>
        requires shape { shape_of item.normal ≡ self.old.shape }
        requires in_range { IsMatch item.normal }
        ensures added { OnOk result (AddsTo item self.old.items self.new.items) }
        ensures memory { OnErr result (self.new ≡ self.old) }
    {
        match self.buckets.get_index_of(&item.normal) {
            Some(place) => push_at(&mut self.buckets, place, item),
            None => {
                self.buckets.insert(item.normal, Bucket::of(alloc, item)?)?;
                Ok(())
            }
        }
    }

    /// Takes an item out that is there.
    pub fn remove(&mut self, item: &Item)
        requires { list_any (same_item item.now) self.old.items ≡ true }
        ensures { AddsTo item.now self.new.items self.old.items }
    {
        if let Some(place) = self.buckets.get_index_of(&item.normal) {
            remove_at(&mut self.buckets, place, item);
            drop_empty(&mut self.buckets, place);
        }
    }

    /// The first of those that are asked for.
    pub fn top(&self, question: &Question) -> Option<Item>
        ensures { IsTop (asks question.now) self.now.items result }
    {
        match question.place_in(&self.shape) {
            Some(place) => match self.buckets.get(&place) {
                Some(bucket) => top_among(bucket.as_slice(), question),
                None => None,
            },
            None => top_of_all(&self.buckets, question),
        }
    }

    /// Appends the ids of those that are asked for.
    pub fn list(&self, question: &Question, ids: &mut Vec<u64>) -> Result<(), Memory>
        ensures { OnOk result (ids.new.items ≡ ids.old.items ++ ids_of (asks question.now) self.now.items) }
    {
        match question.place_in(&self.shape) {
            Some(place) => match self.buckets.get(&place) {
                Some(bucket) => list_among(bucket.as_slice(), question, ids),
                None => Ok(()),
            },
            None => list_all(&self.buckets, question, ids),
        }
    }
}
