//! The sums of leaves in their slots. What happens to a sum there takes no memory.
ghost use Rattle.std.specs.Prelude.{◌≡◌, true, IsSome, IfSome, OnOk};
ghost use Rattle.std.specs.List.{list_any};
ghost use Rattle.std.specs.Map.{keys_of};
ghost use Rattle.cv_io.specs.Leaves.{leaf_cmp, same_leaf};
ghost use Rattle.cv_io.specs.declared.leaf.Leaf.{Leaf as LeafOf};
ghost use Rattle.stats_map.specs.InsideSums.{Allows, AllowsEach, HappenedTo, HaveMore, sum_at};
ghost use Rattle.stats_map.specs.Slots.{AreDrawn, HasKey};
ghost use Rattle.stats_map.specs.Pending.{HappenedAt, HaveSlots, slot_sums};

use crate::slots::draw;
use crate::sum::{Event, Sum};
use crate::sums::is_first;
use cv_io::{Leaf, Memory};
use std::collections::BTreeMap;

/// Draws leaves.
pub fn draw_leaves(
    base: &BTreeMap<Leaf, Sum>,
    slots: &mut BTreeMap<Leaf, Option<Sum>>,
    leaves: &[Leaf],
) -> Result<(), Memory>
    ensures drawn { AreDrawn leaf_cmp base.now.entries slots.old.entries slots.new.entries }
    ensures there { OnOk result (HaveSlots leaves.now slots.new.entries) }
{
    for leaf in leaves {
        draw(base, slots, leaf)?;
    }
    Ok(())
}

/// Makes a sum for a leaf that has none.
fn open_slot(slots: &mut BTreeMap<Leaf, Option<Sum>>, leaf: &Leaf)
    ensures more { HaveMore (slot_sums slots.old.entries) (slot_sums slots.new.entries) }
    ensures keys { keys_of slots.new.entries ≡ keys_of slots.old.entries }
    ensures there { HasKey leaf_cmp leaf.now slots.old.entries
        → IsSome (sum_at leaf.now (slot_sums slots.new.entries)) }
{
    let Some(slot) = slots.get_mut(leaf) else {
        return;
    };
    if slot.is_none() {
        *slot = Some(Sum::new());
    }
}

/// Makes sums for the leaves of a list that have none.
pub fn open_slots(slots: &mut BTreeMap<Leaf, Option<Sum>>, leaves: &[Leaf])
    requires { HaveSlots leaves.now slots.old.entries }
    ensures more { HaveMore (slot_sums slots.old.entries) (slot_sums slots.new.entries) }
    ensures keys { keys_of slots.new.entries ≡ keys_of slots.old.entries }
    ensures there { (leaf : LeafOf) → list_any (same_leaf leaf) leaves.now ≡ true
        → IsSome (sum_at leaf (slot_sums slots.new.entries)) }
{
    for leaf in leaves {
        open_slot(slots, leaf);
    }
}

/// What happens to the sum of one leaf.
fn change_slot(slots: &mut BTreeMap<Leaf, Option<Sum>>, leaf: &Leaf, event: &Event)
    requires { IfSome (sum_at leaf.now (slot_sums slots.old.entries)) (Allows event.now) }
    ensures sums { HappenedAt event.now leaf.now (slot_sums slots.old.entries) (slot_sums slots.new.entries) }
    ensures keys { keys_of slots.new.entries ≡ keys_of slots.old.entries }
{
    let Some(slot) = slots.get_mut(leaf) else {
        return;
    };
    let Some(sum) = *slot else {
        return;
    };
    *slot = sum.after(event);
}

/// What happens to the sums of some leaves, to each once.
pub fn change_slots(slots: &mut BTreeMap<Leaf, Option<Sum>>, leaves: &[Leaf], event: &Event)
    requires { AllowsEach event.now leaves.now (slot_sums slots.old.entries) }
    ensures sums { HappenedTo event.now leaves.now (slot_sums slots.old.entries) (slot_sums slots.new.entries) }
    ensures keys { keys_of slots.new.entries ≡ keys_of slots.old.entries }
{
    for place in 0..leaves.len() {
        if is_first(leaves, place) {
            change_slot(slots, &leaves[place], event);
        }
    }
}
