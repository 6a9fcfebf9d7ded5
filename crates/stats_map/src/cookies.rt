//! The cookies that matter, with the sums of their leaves.
ghost use Rattle.std.specs.Prelude.{◌≡◌, ◌<◌, [], ◌∷◌, MatchOption, None, Some, OnErr, OnOk, is_some, length};
ghost use Rattle.std.specs.BTreeMap.{is_at};
ghost use Rattle.std.specs.Map.{lookup, values_of};
ghost use Rattle.switch_meaning.specs.Counts.{Cookie};
ghost use Rattle.stats_map.specs.Counting.{downed, ended, installed, of_switch, place_cmp, renumbered, with_numbers};
ghost use Rattle.stats_map.specs.InsideSums.{AreSums, IsFirstOf, seen};

use crate::row::Row;
use crate::sum::{Event, Sum, Tally};
use crate::sums::{add_leaves, change_each};
use cv_io::{Duplicate, Leaf, List, Memory};
use std::collections::BTreeMap;

/// A cookie is written, where there is none.
pub fn begin_at(
    live: &mut BTreeMap<(u32, u64), Row>,
    sums: &mut BTreeMap<Leaf, Sum>,
    place: (u32, u64),
    ancestry: &List<Leaf>,
) -> Result<(), Memory>
    requires { AreSums (values_of live.old.entries) sums.old.entries }
    ensures sums { AreSums (values_of live.new.entries) sums.new.entries }
    ensures installed { OnOk result (seen live.new.entries sums.new.entries
        ≡ installed place ancestry.now (seen live.old.entries sums.old.entries)) }
    ensures memory { OnErr result (seen live.new.entries sums.new.entries ≡ seen live.old.entries sums.old.entries) }
{
    if live.contains_key(&place) {
        return Ok(());
    }
    // The proof learns that there are fewer than 2^63.
    let _ = live.len();
    add_leaves(sums, ancestry)?;
    live.insert(place, Row::new(ancestry.copy()?))?;
    change_each(sums, ancestry.as_slice(), &Event::Begun);
    Ok(())
}

/// A cookie has other numbers, if it matters.
pub fn renumber_at(
    live: &mut BTreeMap<(u32, u64), Row>,
    sums: &mut BTreeMap<Leaf, Sum>,
    place: &(u32, u64),
    packets: u64,
    bytes: u64,
) -> bool
    requires { AreSums (values_of live.old.entries) sums.old.entries }
    ensures sums { AreSums (values_of live.new.entries) sums.new.entries }
    ensures found { result ≡ is_some (lookup (is_at (place_cmp place.now)) live.old.entries) }
    ensures numbers { MatchOption (lookup (is_at (place_cmp place.now)) live.old.entries)
        (seen live.new.entries sums.new.entries ≡ seen live.old.entries sums.old.entries)
        (λ c. seen live.new.entries sums.new.entries
        ≡ renumbered place.now (with_numbers (record { packets = packets; bytes = bytes }) c)
        (seen live.old.entries sums.old.entries)) }
{
    // The proof learns that there are fewer than 2^63.
    let _ = live.len();
    let Some(row) = live.get_mut(place) else {
        return false;
    };
    let old = row.numbers();
    let new = Tally { packets, bytes };
    let event = Event::Moved { old, new };
    change_each(sums, row.ancestry().as_slice(), &event);
    row.renumber(packets, bytes);
    true
}

/// A cookie doesn't matter any more, if it did.
pub fn end_at(
    live: &mut BTreeMap<(u32, u64), Row>,
    sums: &mut BTreeMap<Leaf, Sum>,
    place: &(u32, u64),
)
    requires { AreSums (values_of live.old.entries) sums.old.entries }
    ensures sums { AreSums (values_of live.new.entries) sums.new.entries }
    ensures ended { MatchOption (lookup (is_at (place_cmp place.now)) live.old.entries)
        (seen live.new.entries sums.new.entries ≡ seen live.old.entries sums.old.entries)
        (λ c. seen live.new.entries sums.new.entries ≡ ended place.now c (seen live.old.entries sums.old.entries)) }
    ensures fewer { MatchOption (lookup (is_at (place_cmp place.now)) live.old.entries)
        (live.new.entries ≡ live.old.entries) (λ c. length live.new.entries < length live.old.entries) }
{
    let Some(row) = live.remove(place) else {
        return;
    };
    let numbers = row.numbers();
    let event = Event::Ended { numbers };
    change_each(sums, row.ancestry().as_slice(), &event);
}

/// The first cookie of a switch.
fn first_of(live: &BTreeMap<(u32, u64), Row>, switch: u32) -> Option<(u32, u64)>
    ensures { MatchOption result (of_switch switch live.now.entries ≡ []) (IsFirstOf switch live.now.entries) }
{
    let Some((place, _)) = live.range((switch, 0)..).next() else {
        return None;
    };
    if place.0 == switch {
        Some(*place)
    } else {
        None
    }
}

/// No cookie of a switch matters any more.
pub fn end_all(live: &mut BTreeMap<(u32, u64), Row>, sums: &mut BTreeMap<Leaf, Sum>, switch: u32)
    requires { AreSums (values_of live.old.entries) sums.old.entries }
    ensures sums { AreSums (values_of live.new.entries) sums.new.entries }
    ensures ended { seen live.new.entries sums.new.entries ≡ downed switch (seen live.old.entries sums.old.entries) }
{
    while let Some(place) = first_of(live, switch) {
        end_at(live, sums, &place);
    }
}
