//! Slots under their keys, and as they were saved.
ghost use Rattle.std.specs.Prelude.{◌≡◌, [], false, IfSome, IsSome, MatchOption, OnOk, Some, is_ok};
ghost use Rattle.std.specs.List.{AllByRecursion};
ghost use Rattle.of10_match.specs.Ranges.{IsMatch};
ghost use Rattle.of10_match.specs.Wildcards.{match_bytes};
ghost use Rattle.std.specs.BTreeMap.{is_at};
ghost use Rattle.std.specs.Map.{set_value};
ghost use Rattle.install_plan.specs.InsideSlots.{AreKept, Fits, IsPutInto, IsTakenFrom, Slots, as_is, as_saved, key_of};
ghost use Rattle.install_plan.specs.InsideSlots.{order, restored, slot_at, table_by, without_empty};
ghost use Rattle.install_plan.specs.InsideFinder.{AreKnown};
ghost use Rattle.install_plan.specs.InsideNumbering.{AreAllSaved};
ghost use Rattle.install_plan.specs.declared.key.Key.{Key as KeyOf};

use crate::finder::Finder;
use crate::key::Key;
use crate::slot::Slot;
use cv_io::{Duplicate, Memory};
use of10_match::Match;
use std::alloc::Global;
use std::collections::BTreeMap;
use switch_meaning::PhysEntry;

/// Makes a slot for a key that has none.
fn open(alloc: Global, slots: &mut BTreeMap<Key, Slot>, key: &Key) -> Result<(), Memory>
    ensures there { OnOk result (IsSome (slot_at key.now slots.new.entries)) }
    ensures kept { (saved : Slots) → AreKept slots.old.entries saved → AreKept slots.new.entries saved }
    ensures only { (q : KeyOf) → is_at (order key.now) q ≡ false → IsSome (slot_at q slots.new.entries)
        → IsSome (slot_at q slots.old.entries) }
    ensures now { table_by as_is slots.new.entries ≡ table_by as_is slots.old.entries }
    ensures before { (saved : Slots) → AreKept slots.old.entries saved
        → table_by (as_saved saved) slots.new.entries ≡ table_by (as_saved saved) slots.old.entries }
{
    if !slots.contains_key(key) {
        slots.insert(*key, Slot::new(alloc))?;
    }
    Ok(())
}

/// Makes a slot for the key of a match that has none, and makes the key known.
pub fn admit(
    alloc: Global,
    slots: &mut BTreeMap<Key, Slot>,
    finder: &mut Finder,
    key: &Key,
    m: &Match,
) -> Result<(), Memory>
    requires key { key.now.bytes ≡ match_bytes m.now }
    requires in_range { IsMatch m.now }
    ensures there { OnOk result (IsSome (slot_at key.now slots.new.entries)) }
    ensures kept { (saved : Slots) → AreKept slots.old.entries saved → AreKept slots.new.entries saved }
    ensures known { AreKnown finder.old slots.old.entries → AreKnown finder.new slots.new.entries }
    ensures now { table_by as_is slots.new.entries ≡ table_by as_is slots.old.entries }
    ensures before { (saved : Slots) → AreKept slots.old.entries saved
        → table_by (as_saved saved) slots.new.entries ≡ table_by (as_saved saved) slots.old.entries }
{
    if slots.contains_key(key) {
        return Ok(());
    }
    finder.insert(key, m)?;
    open(alloc, slots, key)
}

/// Saves a slot under its key, where none is saved.
fn save_slot(saved: &mut BTreeMap<Key, Slot>, key: &Key, slot: &Slot) -> Result<(), Memory>
    ensures there { OnOk result (IsSome (slot_at key.now saved.new.entries)) }
    ensures still { (q : KeyOf) → IsSome (slot_at q saved.old.entries) → IsSome (slot_at q saved.new.entries) }
    ensures kept { (slots : Slots) → slot_at key.now slots ≡ Some slot.now → AreKept slots saved.old.entries
        → AreKept slots saved.new.entries }
    ensures before { (slots : Slots) → slot_at key.now slots ≡ Some slot.now → AreKept slots saved.old.entries
        → table_by (as_saved saved.new.entries) slots ≡ table_by (as_saved saved.old.entries) slots }
{
    if !saved.contains_key(key) {
        saved.insert(*key, slot.copy()?)?;
    }
    Ok(())
}

/// Saves the slot of a key, where none is saved.
pub fn save(
    slots: &BTreeMap<Key, Slot>,
    saved: &mut BTreeMap<Key, Slot>,
    key: &Key,
) -> Result<(), Memory>
    ensures there { IsSome (slot_at key.now slots.now.entries)
        → OnOk result (IsSome (slot_at key.now saved.new.entries)) }
    ensures still { (q : KeyOf) → IsSome (slot_at q saved.old.entries) → IsSome (slot_at q saved.new.entries) }
    ensures kept { AreKept slots.now.entries saved.old.entries → AreKept slots.now.entries saved.new.entries }
    ensures before { AreKept slots.now.entries saved.old.entries
        → table_by (as_saved saved.new.entries) slots.now.entries
        ≡ table_by (as_saved saved.old.entries) slots.now.entries }
{
    if saved.contains_key(key) {
        return Ok(());
    }
    if let Some(slot) = slots.get(key) {
        saved.insert(*key, slot.copy()?)?;
    }
    Ok(())
}

/// Saves all slots that aren't saved yet.
pub fn save_all(slots: &BTreeMap<Key, Slot>, saved: &mut BTreeMap<Key, Slot>) -> Result<(), Memory>
    requires { AreKept slots.now.entries saved.old.entries }
    ensures there { OnOk result (AreAllSaved saved.new.entries slots.now.entries) }
    ensures kept { AreKept slots.now.entries saved.new.entries }
    ensures before { table_by (as_saved saved.new.entries) slots.now.entries
        ≡ table_by (as_saved saved.old.entries) slots.now.entries }
{
    for (key, slot) in slots.iter() {
        save_slot(saved, key, slot)?;
    }
    Ok(())
}

/// Puts a slot in the place of the one of a key.
fn write(slots: &mut BTreeMap<Key, Slot>, key: &Key, slot: Slot)
    requires { IsSome (slot_at key.now slots.old.entries) }
    ensures { slots.new.entries ≡ set_value (is_at (order key.now)) slots.old.entries slot }
{
    if let Some(place) = slots.get_mut(key) {
        *place = slot;
    }
}

/// Makes a slot what it was, or takes it out if it was empty.
fn restore(slots: &mut BTreeMap<Key, Slot>, finder: &mut Finder, key: &Key, old: Slot)
    requires { IsSome (slot_at key.now slots.old.entries) }
    ensures slots { slots.new.entries ≡ restored key.now old slots.old.entries }
    ensures known { AreKnown finder.old slots.old.entries → AreKnown finder.new slots.new.entries }
{
    if old.entries.is_empty() {
        slots.remove(key);
        finder.remove(key);
    } else {
        write(slots, key, old);
    }
}

/// Makes all slots what they were as they were saved.
pub fn restore_all(
    slots: &mut BTreeMap<Key, Slot>,
    finder: &mut Finder,
    saved: &mut BTreeMap<Key, Slot>,
)
    requires kept { AreKept slots.old.entries saved.old.entries }
    requires known { AreKnown finder.old slots.old.entries }
    ensures known { AreKnown finder.new slots.new.entries }
    ensures kept { AreKept slots.new.entries saved.new.entries }
    ensures saved { saved.new.entries ≡ [] }
    ensures now { table_by as_is slots.new.entries ≡ table_by (as_saved saved.old.entries) slots.old.entries }
{
    while let Some((key, old)) = saved.pop_first() {
        restore(slots, finder, &key, old);
    }
}

/// Takes the slot of a key out, if it is empty.
fn drop_empty(slots: &mut BTreeMap<Key, Slot>, finder: &mut Finder, key: &Key)
    ensures slots { slots.new.entries ≡ without_empty key.now slots.old.entries }
    ensures known { AreKnown finder.old slots.old.entries → AreKnown finder.new slots.new.entries }
{
    if let Some(slot) = slots.get(key) {
        if slot.entries.is_empty() {
            slots.remove(key);
            finder.remove(key);
        }
    }
}

/// Forgets how the slots were, and takes out those that are empty now.
pub fn keep_all(
    slots: &mut BTreeMap<Key, Slot>,
    finder: &mut Finder,
    saved: &mut BTreeMap<Key, Slot>,
)
    requires kept { AreKept slots.old.entries saved.old.entries }
    requires known { AreKnown finder.old slots.old.entries }
    ensures known { AreKnown finder.new slots.new.entries }
    ensures kept { AreKept slots.new.entries saved.new.entries }
    ensures saved { saved.new.entries ≡ [] }
    ensures now { table_by as_is slots.new.entries ≡ table_by as_is slots.old.entries }
{
    for (key, _) in saved.iter() {
        drop_empty(slots, finder, key);
    }
    saved.clear();
}

/// Takes an entry out of the slot of its key, where it is there.
pub fn take_from(slots: &mut BTreeMap<Key, Slot>, key: &Key, entry: &PhysEntry)
    requires key { key.now ≡ key_of entry.now }
    requires fit { AllByRecursion Fits slots.old.entries }
    ensures { MatchOption (slot_at key.now slots.old.entries) (slots.new.entries ≡ slots.old.entries)
        (IsTakenFrom entry.now slots.old.entries slots.new.entries) }
{
    if let Some(slot) = slots.get_mut(key) {
        slot.take_out(entry);
    }
}

/// Puts an entry into the slot of its key.
pub fn put_into(slots: &mut BTreeMap<Key, Slot>, key: &Key, entry: PhysEntry) -> Result<(), Memory>
    requires there { IsSome (slot_at key.now slots.old.entries) }
    requires key { key.now ≡ key_of entry }
    requires in_range { IsMatch entry.m }
    requires fit { AllByRecursion Fits slots.old.entries }
    ensures { IfSome (slot_at key.now slots.old.entries)
        (IsPutInto (is_ok result) entry slots.old.entries slots.new.entries) }
{
    match slots.get_mut(key) {
        Some(slot) => slot.put_in(entry),
        None => Ok(()),
    }
}
