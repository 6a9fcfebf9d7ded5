//! Slots are made what a map has. All memory is taken first: a key that gets a value and has none is put in, and
//! taken out again where memory runs out. What is then left to do takes none.
ghost use Rattle.std.specs.Prelude.{◌≡◌, OnOk, Option, Some};
ghost use Rattle.stats_map.specs.Slots.{HasKey, HasRoom, IsSameBut, IsSameElsewhere, overlaid, with_slot, without};

use cv_io::{Duplicate, Memory};
use std::collections::BTreeMap;

/// Makes room for what a key gets.
fn add_room<K: Ord + Copy + Drop, V: Duplicate + Drop>(
    map: &mut BTreeMap<K, V>,
    key: &K,
    slot: &Option<V>,
    made: &mut Vec<K>,
) -> Result<(), Memory>
    ensures undone { without K.cmp made.new.items map.new.entries ≡ without K.cmp made.old.items map.old.entries }
    ensures room { OnOk result ((v : V) → slot.now ≡ Some v → HasKey K.cmp key.now map.new.entries) }
    ensures stay { (q : K) → HasKey K.cmp q map.old.entries → HasKey K.cmp q map.new.entries }
    ensures other { IsSameBut K.cmp key.now map.old.entries map.new.entries }
{
    let Some(value) = slot else {
        return Ok(());
    };
    if map.contains_key(key) {
        return Ok(());
    }
    let value = value.copy()?;
    made.push(*key)?;
    map.insert(*key, value)?;
    Ok(())
}

/// Makes room for what all keys get.
pub fn add_rooms<K: Ord + Copy + Drop, V: Duplicate + Drop>(
    map: &mut BTreeMap<K, V>,
    slots: &BTreeMap<K, Option<V>>,
    made: &mut Vec<K>,
) -> Result<(), Memory>
    ensures undone { without K.cmp made.new.items map.new.entries ≡ without K.cmp made.old.items map.old.entries }
    ensures room { OnOk result (HasRoom K.cmp slots.now.entries map.new.entries) }
    ensures other { IsSameElsewhere K.cmp slots.now.entries map.old.entries map.new.entries }
{
    for (key, slot) in slots.iter() {
        add_room(map, key, slot, made)?;
    }
    Ok(())
}

/// Takes out what was put in to make room.
pub fn take_out<K: Ord + Copy + Drop, V: Drop>(map: &mut BTreeMap<K, V>, mut made: Vec<K>)
    ensures { map.new.entries ≡ without K.cmp made.items map.old.entries }
{
    while let Some(key) = made.pop() {
        map.remove(&key);
    }
}

/// Gives a key what its slot has. A key that stands takes no memory.
fn put<K: Ord + Copy + Drop, V: Drop>(map: &mut BTreeMap<K, V>, key: K, slot: Option<V>)
    requires { (v : V) → slot ≡ Some v → HasKey K.cmp key map.old.entries }
    ensures { map.new.entries ≡ with_slot K.cmp key slot map.old.entries }
{
    match slot {
        Some(value) => {
            let _ = map.insert(key, value);
        }
        None => {
            map.remove(&key);
        }
    }
}

/// Gives all keys what their slots have.
pub fn fill<K: Ord + Copy + Drop, V: Drop>(
    map: &mut BTreeMap<K, V>,
    mut slots: BTreeMap<K, Option<V>>,
)
    requires { HasRoom K.cmp slots.entries map.old.entries }
    ensures { map.new.entries ≡ overlaid K.cmp slots.entries map.old.entries }
{
    while let Some(last) = slots.pop_last() {
        let (key, slot) = last;
        put(map, key, slot);
    }
}
