//! The groups of an index, and the items that are in none of them yet.
ghost use Rattle.std.specs.Prelude.{◌≡◌, ◌++◌, ◌-◌, ◌<◌, ◌≤◌, true, OnOk, OnErr, position, vec_len, vec_capacity};
ghost use Rattle.std.specs.List.{list_any};
ghost use Rattle.match_index.specs.InsideGroups.{SameItems, in_groups};
ghost use Rattle.match_index.specs.InsideShapes.{same_shape};
ghost use Rattle.match_index.specs.Items.{AddsTo, IsTop, ids_of, same_item};
ghost use Rattle.match_index.specs.Questions.{asks};

use crate::group::Group;
use crate::item::{Item, before};
use crate::question::Question;
use crate::search::{list_among, top_among};
use crate::shape::Shape;
use cv_io::Memory;
use std::alloc::Global;

/// Where the group of a shape stands.
fn place_of_shape(groups: &[Group], shape: &Shape) -> Option<usize>
    ensures { result ≡ position (λ g. same_shape g.shape shape.now) groups.now }
{
    groups.iter().position(|group| group.shape() == *shape)
}

/// Where the group of an item stands.
fn place_of_item(groups: &[Group], item: &Item) -> Option<usize>
    ensures { result ≡ position (λ g. list_any (same_item item.now) g.items) groups.now }
{
    groups.iter().position(|group| group.has(item))
}

/// Adds an item to the group of its shape, or to a new one.
fn insert_into(groups: &mut Vec<Group>, alloc: Global, item: &Item) -> Result<(), Memory>
    ensures added { OnOk result (AddsTo item.now (in_groups groups.old.items) (in_groups groups.new.items)) }
    ensures memory { OnErr result (SameItems (in_groups groups.old.items) (in_groups groups.new.items)) }
{
    match place_of_shape(groups, &Shape::of(&item.normal)) {
        Some(place) => groups[place].insert(alloc, *item),
        None => {
            groups.push(Group::of(alloc, *item)?)?;
            Ok(())
        }
    }
}

/// Takes out the group at a place, where it is empty.
fn drop_empty(groups: &mut Vec<Group>, place: usize)
    requires { place < vec_len groups.old }
    ensures { SameItems (in_groups groups.new.items) (in_groups groups.old.items) }
{
    if groups[place].is_empty() {
        groups.swap_remove(place);
    }
}

/// Takes an item out that is there.
pub fn remove_from(groups: &mut Vec<Group>, item: &Item)
    requires { list_any (same_item item.now) (in_groups groups.old.items) ≡ true }
    ensures { AddsTo item.now (in_groups groups.new.items) (in_groups groups.old.items) }
{
    if let Some(place) = place_of_item(groups, item) {
        groups[place].remove(item);
        drop_empty(groups, place);
    }
}

/// Moves the items that came late to their groups.
pub fn settle(late: &mut Vec<Item>, groups: &mut Vec<Group>, alloc: Global) -> Result<(), Memory>
    ensures same { SameItems (late.old.items ++ in_groups groups.old.items)
        (late.new.items ++ in_groups groups.new.items) }
    ensures room { vec_capacity late.old - vec_len late.old ≤ vec_capacity late.new - vec_len late.new }
{
    while let Some(item) = late.pop() {
        if let Err(memory) = insert_into(groups, alloc, &item) {
            late.push(item).unwrap();
            return Err(memory);
        }
    }
    Ok(())
}

/// The first of those that are asked for.
pub fn top_of(late: &[Item], groups: &[Group], question: &Question) -> Option<Item>
    ensures { IsTop (asks question.now) (late.now ++ in_groups groups.now) result }
{
    let mut top = top_among(late, question);
    for group in groups {
        top = before(top, group.top(question));
    }
    top
}

/// Appends the ids of those that are asked for.
pub fn list_of(
    late: &[Item],
    groups: &[Group],
    question: &Question,
    ids: &mut Vec<u64>,
) -> Result<(), Memory>
    ensures { OnOk result (ids.new.items ≡ ids.old.items ++ ids_of (asks question.now)
        (late.now ++ in_groups groups.now)) }
{
    list_among(late, question, ids)?;
    for group in groups {
        group.list(question, ids)?;
    }
    Ok(())
}
