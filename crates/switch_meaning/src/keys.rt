//! The entries that a switch has, of all that are put there: one for each key.
ghost use Rattle.std.specs.Prelude.{◌≡◌, IfOk};
ghost use Rattle.std.specs.List.{list_any};
ghost use Rattle.switch_meaning.specs.Keys.{displaces as displaces_of, installed as installed_of};
ghost use Rattle.switch_meaning.specs.Keys.{one_per_key as one_per_key_of, passes_over as passes_over_of};
ghost use Rattle.switch_meaning.specs.Keys.{passing as passing_of};
ghost use Rattle.switch_meaning.specs.declared.entry.PhysEntry.{PhysEntry};

use crate::entry::PhysEntry;
use cv_io::{Duplicate, List, Memory};
use std::alloc::Global;

/// Of several entries with one key the one with the smallest ancestry.
pub fn one_per_key(alloc: Global, entries: &List<PhysEntry>) -> Result<List<PhysEntry>, Memory>
    ensures { IfOk result (λ kept. kept ≡ one_per_key_of entries.now) }
{
    let mut kept = List::new(alloc);
    for entry in entries.as_slice() {
        if !is_displaced(entries, entry) {
            kept.push(entry.copy()?)?;
        }
    }
    Ok(kept)
}

/// The entries that a switch has, of all that are put there.
pub fn installed(alloc: Global, entries: &List<PhysEntry>) -> Result<List<PhysEntry>, Memory>
    ensures { IfOk result (λ kept. kept ≡ installed_of entries.now) }
{
    let left = passing(alloc, entries)?;
    one_per_key(alloc, &left)
}

/// The entries that none passes over.
fn passing(alloc: Global, entries: &List<PhysEntry>) -> Result<List<PhysEntry>, Memory>
    ensures { IfOk result (λ kept. kept ≡ passing_of entries.now) }
{
    let mut kept = List::new(alloc);
    for entry in entries.as_slice() {
        if !is_passed(entries, entry) {
            kept.push(entry.copy()?)?;
        }
    }
    Ok(kept)
}

/// Whether an entry passes this one over.
fn is_passed(entries: &List<PhysEntry>, entry: &PhysEntry) -> bool
    ensures { result ≡ list_any (λ (d : PhysEntry). passes_over_of d entry.now) entries.now }
{
    entries
        .as_slice()
        .iter()
        .any(|other| passes_over(other, entry))
}

/// Whether the second entry names all twelve fields, and the first holds its header at a greater
/// priority.
fn passes_over(first: &PhysEntry, second: &PhysEntry) -> bool
    ensures { result ≡ passes_over_of first.now second.now }
{
    second.m.is_one_header() && second.priority < first.priority && first.m.covers(&second.m)
}

/// Whether an entry of the same key has a smaller ancestry.
fn is_displaced(entries: &List<PhysEntry>, entry: &PhysEntry) -> bool
    ensures { result ≡ list_any (λ (d : PhysEntry). displaces_of d entry.now) entries.now }
{
    entries
        .as_slice()
        .iter()
        .any(|other| displaces(other, entry))
}

/// Whether the first entry has the key of the second, and a smaller ancestry.
fn displaces(first: &PhysEntry, second: &PhysEntry) -> bool
    ensures { result ≡ displaces_of first.now second.now }
{
    first.m == second.m
        && first.priority == second.priority
        && first
            .ancestry
            .as_slice()
            .cmp(second.ancestry.as_slice())
            .is_lt()
}
