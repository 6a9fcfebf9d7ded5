//! Questions that are asked of all items of a list.
ghost use Rattle.std.specs.Prelude.{◌≡◌, ◌-◌, ◌≤◌, ◌++◌, true, false, OnOk, position, vec_capacity, vec_len};
ghost use Rattle.std.specs.List.{list_any};
ghost use Rattle.match_index.specs.Items.{AddsTo, IsTop, ids_of, same_item};
ghost use Rattle.match_index.specs.Questions.{asks};

use crate::item::{Item, before};
use crate::question::Question;
use cv_io::Memory;

/// The first of those that are asked for.
pub fn top_among(items: &[Item], question: &Question) -> Option<Item>
    ensures { IsTop (asks question.now) items.now result }
{
    let mut top = None;
    for item in items {
        if question.asks(item) {
            top = before(top, Some(*item));
        }
    }
    top
}

/// Appends the ids of those that are asked for.
pub fn list_among(items: &[Item], question: &Question, ids: &mut Vec<u64>) -> Result<(), Memory>
    ensures { OnOk result (ids.new.items ≡ ids.old.items ++ ids_of (asks question.now) items.now) }
{
    for item in items {
        if question.asks(item) {
            ids.push(item.id)?;
        }
    }
    Ok(())
}

/// Where an item stands first.
fn place_of(items: &[Item], item: &Item) -> Option<usize>
    ensures { result ≡ position (same_item item.now) items.now }
{
    items.iter().position(|other| *item == *other)
}

/// Takes an item out; false where it isn't there.
pub fn take_out(items: &mut Vec<Item>, item: &Item) -> bool
    ensures found { result ≡ list_any (same_item item.now) items.old.items }
    ensures taken { result ≡ true → AddsTo item.now items.new.items items.old.items }
    ensures missing { result ≡ false → items.new.items ≡ items.old.items }
    ensures room { vec_capacity items.old - vec_len items.old ≤ vec_capacity items.new - vec_len items.new }
{
    match place_of(items, item) {
        Some(place) => {
            items.swap_remove(place);
            true
        }
        None => false,
    }
}
