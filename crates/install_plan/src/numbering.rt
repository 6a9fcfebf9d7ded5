//! The batch of the slots that changed.
ghost use Rattle.std.specs.Prelude.{◌≡◌, ◌∷◌, ◌++◌, [], None, Some, IsSome, IfOk, OnOk, OnErr, map, option_map};
ghost use Rattle.std.specs.Prelude.{option_to_list};
ghost use Rattle.std.specs.BTreeMap.{is_at};
ghost use Rattle.std.specs.Map.{set_value};
ghost use Rattle.std.specs.Option.{option_copied};
ghost use Rattle.install_plan.specs.InsideSlots.{AreKept, Slots, as_is, as_saved, key_of, order, slot_at, table_by};
ghost use Rattle.install_plan.specs.InsideSlots.{top};
ghost use Rattle.install_plan.specs.InsideNumbering.{IsNumberedAt, come, cookie_for, entries_at, gone, head};
ghost use Rattle.install_plan.specs.InsideNumbering.{is_same_head, numbered_at, past};
ghost use Rattle.install_plan.specs.Tables.{IsBatch, entry_of, numbered};
ghost use Rattle.install_plan.specs.declared.key.Key.{Key as KeyOf};

use crate::key::Key;
use crate::slot::Slot;
use crate::slots::save_all;
use crate::written::{Batch, Written};
use cv_io::{Duplicate, List, Memory};
use std::alloc::Global;
use std::collections::BTreeMap;
use switch_meaning::{PhysEntry, is_same};

/// Whether the same entry stands of both.
fn is_same_top(old: &Slot, now: &Slot) -> bool
    ensures { result ≡ is_same_head (head old.now.entries) (head now.now.entries) }
{
    match (old.top(), now.top()) {
        (Some(old), Some(now)) => is_same(old, now),
        _ => false,
    }
}

/// Appends a copy of what stands of a slot.
pub fn push_top(deletes: &mut List<Written>, slot: &Slot) -> Result<(), Memory>
    ensures { OnOk result (deletes.new ≡ deletes.old ++ option_to_list (top slot.now)) }
{
    match slot.top() {
        Some(entry) => deletes.push(Written {
            entry: entry.copy()?,
            cookie: slot.cookie,
        }),
        None => Ok(()),
    }
}

/// Appends a copy of an entry, if there is one, under a new cookie, and gives the next one.
fn push_numbered(
    adds: &mut List<Written>,
    entry: Option<&PhysEntry>,
    next: u64,
) -> Result<u64, Memory>
    ensures adds { OnOk result (adds.new ≡ adds.old ++ numbered next (option_to_list (option_copied entry.entry))) }
    ensures next { IfOk result (λ after. after ≡ past (option_copied entry.entry) next) }
{
    let Some(entry) = entry else {
        return Ok(next);
    };
    adds.push(Written {
        entry: entry.copy()?,
        cookie: next,
    })?;
    Ok(next.saturating_add(1))
}

/// Adds the change of one slot to a batch, and gives the next cookie.
fn number_slot(slot: &mut Slot, old: &Slot, next: u64, batch: &mut Batch) -> Result<u64, Memory>
    ensures deletes { OnOk result (batch.new.deletes ≡ batch.old.deletes
        ++ option_to_list (gone old.now slot.old.entries)) }
    ensures adds { OnOk result (batch.new.adds ≡ batch.old.adds
        ++ numbered next (option_to_list (come old.now slot.old.entries))) }
    ensures next { IfOk result (λ after. after ≡ past (come old.now slot.old.entries) next) }
    ensures cookie { OnOk result (slot.new.cookie ≡ cookie_for old.now slot.old.entries next) }
    ensures entries { slot.new.entries ≡ slot.old.entries }
{
    slot.cookie = old.cookie;
    if is_same_top(old, slot) {
        return Ok(next);
    }
    slot.cookie = next;
    push_top(&mut batch.deletes, old)?;
    push_numbered(&mut batch.adds, slot.top(), next)
}

/// Adds the change of a key to a batch, and gives the next cookie.
fn number_at(
    slots: &mut BTreeMap<Key, Slot>,
    key: &Key,
    old: &Slot,
    next: u64,
    batch: &mut Batch,
) -> Result<u64, Memory>
    requires { IsSome (slot_at key.now slots.old.entries) }
    ensures deletes { OnOk result (batch.new.deletes ≡ batch.old.deletes
        ++ option_to_list (gone old.now (entries_at slots.old.entries key.now))) }
    ensures adds { OnOk result (batch.new.adds ≡ batch.old.adds
        ++ numbered next (option_to_list (come old.now (entries_at slots.old.entries key.now)))) }
    ensures next { IfOk result (λ after. after ≡ past (come old.now (entries_at slots.old.entries key.now)) next) }
    ensures slot { OnOk result (slots.new.entries
        ≡ numbered_at key.now (cookie_for old.now (entries_at slots.old.entries key.now) next) slots.old.entries) }
    ensures entries { IsNumberedAt key.now slots.old.entries slots.new.entries }
{
    match slots.get_mut(key) {
        Some(slot) => number_slot(slot, old, next, batch),
        None => Ok(next),
    }
}

/// The batch of the slots that changed, under cookies from a number on.
pub fn number_all(
    alloc: Global,
    slots: &mut BTreeMap<Key, Slot>,
    saved: &BTreeMap<Key, Slot>,
    next: u64,
) -> Result<Batch, Memory>
    requires { AreKept slots.old.entries saved.now.entries }
    ensures only { (q : KeyOf) → IsSome (slot_at q slots.new.entries) → IsSome (slot_at q slots.old.entries) }
    ensures kept { AreKept slots.new.entries saved.now.entries }
    ensures entries { (table_by as_is slots.new.entries).entries ≡ (table_by as_is slots.old.entries).entries }
    ensures before { table_by (as_saved saved.now.entries) slots.new.entries
        ≡ table_by (as_saved saved.now.entries) slots.old.entries }
    ensures batch { IfOk result
        (IsBatch (table_by (as_saved saved.now.entries) slots.old.entries) (table_by as_is slots.new.entries) next) }
{
    let mut batch = Batch {
        deletes: List::new(alloc),
        adds: List::new(alloc),
    };
    let mut cookie = next;
    for (key, old) in saved.iter() {
        cookie = number_at(slots, key, old, cookie, &mut batch)?;
    }
    Ok(batch)
}

/// What stands of all slots, under cookies from a number on.
fn tops(alloc: Global, slots: &BTreeMap<Key, Slot>, next: u64) -> Result<List<Written>, Memory>
    ensures { IfOk result (λ adds. adds ≡ numbered next (map entry_of (table_by as_is slots.now.entries).standing)) }
{
    let mut adds = List::with_capacity(alloc, slots.len())?;
    let mut cookie = next;
    for slot in slots.values() {
        cookie = push_numbered(&mut adds, slot.top(), cookie)?;
    }
    Ok(adds)
}

/// Gives what stands new cookies from a number on, and lists it. All slots are saved as they were.
pub fn number_whole(
    alloc: Global,
    slots: &mut BTreeMap<Key, Slot>,
    saved: &mut BTreeMap<Key, Slot>,
    next: u64,
) -> Result<List<Written>, Memory>
    requires { AreKept slots.old.entries saved.old.entries }
    ensures only { (q : KeyOf) → IsSome (slot_at q slots.new.entries) → IsSome (slot_at q slots.old.entries) }
    ensures kept { AreKept slots.new.entries saved.new.entries }
    ensures entries { (table_by as_is slots.new.entries).entries ≡ (table_by as_is slots.old.entries).entries }
    ensures before { table_by (as_saved saved.new.entries) slots.new.entries
        ≡ table_by (as_saved saved.old.entries) slots.old.entries }
    ensures adds { IfOk result
        (λ adds. adds ≡ numbered next (map entry_of (table_by as_is slots.old.entries).standing)) }
    ensures standing { IfOk result (λ adds. (table_by as_is slots.new.entries).standing ≡ adds) }
    ensures memory { OnErr result (table_by as_is slots.new.entries ≡ table_by as_is slots.old.entries) }
{
    save_all(slots, saved)?;
    let adds = tops(alloc, slots, next)?;
    for written in adds.as_slice() {
        give(slots, written);
    }
    Ok(adds)
}

/// Gives what stands of a key a cookie.
fn give(slots: &mut BTreeMap<Key, Slot>, written: &Written)
    requires { IsSome (slot_at (key_of written.now.entry) slots.old.entries) }
    ensures { slots.new.entries ≡ numbered_at (key_of written.now.entry) written.now.cookie slots.old.entries }
{
    if let Some(slot) = slots.get_mut(&Key::of(&written.entry)) {
        slot.cookie = written.cookie;
    }
}
