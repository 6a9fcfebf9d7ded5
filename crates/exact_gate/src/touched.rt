//! The keys whose entries a change may let pass or not.
ghost use Rattle.std.specs.Prelude.{◌≡◌, ◌||◌, true, IfOk, OnOk};
ghost use Rattle.std.specs.List.{All};
ghost use Rattle.exact_gate.specs.InsideChanges.{IsNoted, noted};
ghost use Rattle.exact_gate.specs.Standing.{one_key};
ghost use Rattle.exact_gate.specs.declared.key.Key.{Key};

use crate::key::Key;
use crate::pool::Pool;
use cv_io::{List, Memory};
use indexmap::IndexSet;
use std::alloc::Global;
use switch_meaning::PhysEntry;

/// Adds a key to those that are noted.
fn note(keys: &mut IndexSet<Key>, key: Key) -> Result<(), Memory>
    ensures { OnOk result ((k : Key) → noted keys.new.keys k ≡ (noted keys.old.keys k || one_key k key)) }
{
    keys.insert(key)?;
    Ok(())
}

/// Adds keys.
fn note_all(keys: &mut IndexSet<Key>, more: &List<Key>) -> Result<(), Memory>
    ensures { OnOk result ((k : Key) → noted keys.new.keys k ≡ (noted keys.old.keys k || noted more.now k)) }
{
    for key in more.as_slice() {
        note(keys, *key)?;
    }
    Ok(())
}

/// Adds the key of an entry, and those of the candidates that it passes over.
fn note_entry(keys: &mut IndexSet<Key>, pool: &Pool, entry: &PhysEntry) -> Result<(), Memory>
    ensures more { OnOk result ((k : Key) → noted keys.old.keys k ≡ true → noted keys.new.keys k ≡ true) }
    ensures noted { OnOk result (IsNoted pool.now keys.new.keys entry.now) }
{
    let key = Key::of(entry);
    note(keys, key)?;
    note_all(keys, &pool.reached(&key)?)
}

/// Adds the keys of entries, and those of the candidates that they pass over.
fn note_entries(keys: &mut IndexSet<Key>, pool: &Pool, entries: &[PhysEntry]) -> Result<(), Memory>
    ensures more { OnOk result ((k : Key) → noted keys.old.keys k ≡ true → noted keys.new.keys k ≡ true) }
    ensures noted { OnOk result (All (IsNoted pool.now keys.new.keys) entries.now) }
{
    for entry in entries {
        note_entry(keys, pool, entry)?;
    }
    Ok(())
}

/// The keys of entries that go or come, and those of the candidates that they pass over.
pub fn touched_keys(
    alloc: Global,
    pool: &Pool,
    gone: &[PhysEntry],
    come: &[PhysEntry],
) -> Result<IndexSet<Key>, Memory>
    ensures gone { IfOk result (λ keys. All (IsNoted pool.now keys.keys) gone.now) }
    ensures come { IfOk result (λ keys. All (IsNoted pool.now keys.keys) come.now) }
{
    let mut keys = IndexSet::new(alloc);
    note_entries(&mut keys, pool, gone)?;
    note_entries(&mut keys, pool, come)?;
    Ok(keys)
}
