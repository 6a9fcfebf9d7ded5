//! What stands is listed, and slots are copied.
ghost use Rattle.std.specs.Prelude.{◌≡◌, ◌≤◌, IfOk, length, option_to_list};
ghost use Rattle.install_plan.specs.InsideSlots.{as_is, table_by, top};

use crate::key::Key;
use crate::numbering::push_top;
use crate::slot::Slot;
use crate::written::Written;
use cv_io::{Duplicate, List, Memory};
use std::alloc::Global;
use std::collections::BTreeMap;

/// How many entries stand of a slot: none or one.
fn standing_of(slot: &Slot) -> usize
    ensures count { result ≡ length (option_to_list (top slot.now)) }
    ensures bound { result ≤ 1 }
{
    if slot.entries.is_empty() { 0 } else { 1 }
}

/// How many entries stand.
pub fn count(slots: &BTreeMap<Key, Slot>) -> usize
    ensures { result ≡ length (table_by as_is slots.now.entries).standing }
{
    let mut count = 0;
    for slot in slots.values() {
        count += standing_of(slot);
    }
    count
}

/// What stands, by rising key.
pub fn listed(alloc: Global, slots: &BTreeMap<Key, Slot>) -> Result<List<Written>, Memory>
    ensures { IfOk result (λ list. list ≡ (table_by as_is slots.now.entries).standing) }
{
    let mut list = List::new(alloc);
    for slot in slots.values() {
        push_top(&mut list, slot)?;
    }
    Ok(list)
}

/// The same values under the same keys.
pub fn copied<V: Duplicate + Drop>(
    alloc: Global,
    map: &BTreeMap<Key, V>,
) -> Result<BTreeMap<Key, V>, Memory>
    ensures { IfOk result (λ copied. copied.entries ≡ map.now.entries) }
{
    let mut copied = BTreeMap::new(alloc);
    for (key, value) in map.iter() {
        copied.insert(*key, value.copy()?)?;
    }
    Ok(copied)
}
