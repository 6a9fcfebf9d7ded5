//! The sums of leaves.
ghost use Rattle.std.specs.Prelude.{◌≡◌, ◌<◌, not, true, IsSome, OnOk, IfSome, Some, None, length, option_and_then};
ghost use Rattle.std.specs.Prelude.{take, if◌then◌else◌};
ghost use Rattle.std.specs.List.{list_any, slice_index_or};
ghost use Rattle.cv_io.specs.Leaves.{same_leaf};
ghost use Rattle.cv_io.specs.declared.leaf.Leaf.{Leaf as LeafOf};
ghost use Rattle.stats_map.specs.InsideSums.{Allows, AllowsEach, HappenedTo, HaveMore, changed_by, sum_at};
ghost use Rattle.stats_map.specs.declared.sum.Sum.{Sum as SumOf};

use crate::sum::{Event, Sum};
use cv_io::{Leaf, List, Memory};
use std::collections::BTreeMap;

/// Makes a sum for a leaf that has none.
fn add_leaf(sums: &mut BTreeMap<Leaf, Sum>, leaf: &Leaf) -> Result<(), Memory>
    ensures more { HaveMore sums.old.entries sums.new.entries }
    ensures there { OnOk result (IsSome (sum_at leaf.now sums.new.entries)) }
{
    if !sums.contains_key(leaf) {
        sums.insert(*leaf, Sum::new())?;
    }
    Ok(())
}

/// Makes sums for the leaves of a list that have none.
pub fn add_leaves(sums: &mut BTreeMap<Leaf, Sum>, ancestry: &List<Leaf>) -> Result<(), Memory>
    ensures more { HaveMore sums.old.entries sums.new.entries }
    ensures there { OnOk result ((leaf : LeafOf) → list_any (same_leaf leaf) ancestry.now ≡ true
        → IsSome (sum_at leaf sums.new.entries)) }
{
    for leaf in ancestry.as_slice() {
        add_leaf(sums, leaf)?;
    }
    Ok(())
}

/// Whether the leaf at a place stands at no earlier one.
pub fn is_first(ancestry: &[Leaf], place: usize) -> bool
    requires { place < length ancestry.now }
    ensures { (d : LeafOf)
        → result ≡ not (list_any (same_leaf (slice_index_or ancestry.now place d)) (take place ancestry.now)) }
{
    !ancestry[..place].contains(&ancestry[place])
}

/// What happens to the sum of one leaf.
fn change_one(sums: &mut BTreeMap<Leaf, Sum>, leaf: &Leaf, event: &Event)
    requires { IfSome (sum_at leaf.now sums.old.entries) (Allows event.now) }
    ensures { (q : LeafOf)
        → sum_at q sums.new.entries
        ≡ (if same_leaf leaf.now q then option_and_then (changed_by event.now) (sum_at leaf.now sums.old.entries)
        else sum_at q sums.old.entries) }
{
    let Some(sum) = sums.get_mut(leaf) else {
        return;
    };
    match sum.after(event) {
        Some(next) => *sum = next,
        None => {
            sums.remove(leaf);
        }
    }
}

/// What happens to the sums of some leaves, to each once.
pub fn change_each(sums: &mut BTreeMap<Leaf, Sum>, leaves: &[Leaf], event: &Event)
    requires { AllowsEach event.now leaves.now sums.old.entries }
    ensures { HappenedTo event.now leaves.now sums.old.entries sums.new.entries }
{
    for place in 0..leaves.len() {
        if is_first(leaves, place) {
            change_one(sums, &leaves[place], event);
        }
    }
}
