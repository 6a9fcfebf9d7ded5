//! Changes of counts.
ghost use Rattle.std.specs.Prelude.{◌≡◌, OnErr, OnOk};
ghost use Rattle.cv_io.specs.Leaves.{leaf_cmp};
ghost use Rattle.stats_map.specs.Counting.{place_cmp};
ghost use Rattle.stats_map.specs.Slots.{HasRoom, IsSameElsewhere, overlaid, without};

use crate::rooms::{add_rooms, fill, take_out};
use crate::row::Row;
use crate::sum::Sum;
use cv_io::{Leaf, Memory};
use std::alloc::Global;
use std::collections::BTreeMap;

/// What is to be changed of counts.
#[derive(Drop)]
pub struct Changes {
    /// The cookies that are written, and none where one ends.
    pub(crate) live: BTreeMap<(u32, u64), Option<Row>>,
    /// The sums of leaves that change.
    pub(crate) sums: BTreeMap<Leaf, Option<Sum>>,
}

/// Makes the changes in what is held. Where memory runs out all is as before.
pub fn make_in(
    alloc: Global,
    live: &mut BTreeMap<(u32, u64), Row>,
    sums: &mut BTreeMap<Leaf, Sum>,
    changes: Changes,
) -> Result<(), Memory>
    ensures live { OnOk result (live.new.entries ≡ overlaid place_cmp changes.live.entries live.old.entries) }
    ensures sums { OnOk result (sums.new.entries ≡ overlaid leaf_cmp changes.sums.entries sums.old.entries) }
    ensures no_live { OnErr result (live.new.entries ≡ live.old.entries) }
    ensures no_sums { OnErr result (sums.new.entries ≡ sums.old.entries) }
{
    let mut places = Vec::new(alloc);
    let mut leaves = Vec::new(alloc);
    // The proof learns that the keys rise.
    let _places = live.len();
    let _leaves = sums.len();
    if let Err(memory) = add_all_rooms(live, sums, &changes, &mut places, &mut leaves) {
        take_out(live, places);
        take_out(sums, leaves);
        return Err(memory);
    }
    let _more_places = live.len();
    let _more_leaves = sums.len();
    let Changes {
        live: cookies,
        sums: totals,
    } = changes;
    fill(live, cookies);
    fill(sums, totals);
    Ok(())
}

/// Makes room for the changes.
fn add_all_rooms(
    live: &mut BTreeMap<(u32, u64), Row>,
    sums: &mut BTreeMap<Leaf, Sum>,
    changes: &Changes,
    places: &mut Vec<(u32, u64)>,
    leaves: &mut Vec<Leaf>,
) -> Result<(), Memory>
    ensures live { without place_cmp places.new.items live.new.entries
        ≡ without place_cmp places.old.items live.old.entries }
    ensures sums { without leaf_cmp leaves.new.items sums.new.entries
        ≡ without leaf_cmp leaves.old.items sums.old.entries }
    ensures live_room { OnOk result (HasRoom place_cmp changes.now.live.entries live.new.entries) }
    ensures sums_room { OnOk result (HasRoom leaf_cmp changes.now.sums.entries sums.new.entries) }
    ensures live_else { IsSameElsewhere place_cmp changes.now.live.entries live.old.entries live.new.entries }
    ensures sums_else { IsSameElsewhere leaf_cmp changes.now.sums.entries sums.old.entries sums.new.entries }
{
    add_rooms(live, &changes.live, places)?;
    add_rooms(sums, &changes.sums, leaves)
}
