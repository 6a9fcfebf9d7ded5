//! A map, and slots: what is to be changed of it. A key is drawn into the slots with the value that it has;
//! what has a slot is changed without memory.
ghost use Rattle.std.specs.Prelude.{◌≡◌, OnOk, Option};
ghost use Rattle.std.specs.Option.{option_copied};
ghost use Rattle.stats_map.specs.Slots.{AreDrawn, HasKey, IsSameBut, slot_or, value_at};

use cv_io::{Duplicate, Memory};
use std::collections::BTreeMap;

/// The value that a key gets.
pub fn value_of<'a, K: Ord, V>(
    base: &'a BTreeMap<K, V>,
    slots: &'a BTreeMap<K, Option<V>>,
    key: &K,
) -> Option<&'a V>
    ensures { option_copied result
        ≡ slot_or (value_at K.cmp key.now slots.now.entries) (value_at K.cmp key.now base.now.entries) }
{
    match slots.get(key) {
        Some(slot) => slot.as_ref(),
        None => base.get(key),
    }
}

/// Draws a key.
pub fn draw<K: Ord + Copy + Drop, V: Duplicate + Drop>(
    base: &BTreeMap<K, V>,
    slots: &mut BTreeMap<K, Option<V>>,
    key: &K,
) -> Result<(), Memory>
    ensures drawn { AreDrawn K.cmp base.now.entries slots.old.entries slots.new.entries }
    ensures there { OnOk result (HasKey K.cmp key.now slots.new.entries) }
    ensures other { IsSameBut K.cmp key.now slots.old.entries slots.new.entries }
{
    if slots.contains_key(key) {
        return Ok(());
    }
    let Some(value) = base.get(key) else {
        slots.insert(*key, None)?;
        return Ok(());
    };
    let value = value.copy()?;
    slots.insert(*key, Some(value))?;
    Ok(())
}
