//! What passed before a change and doesn't now, and the other way round.
ghost use Rattle.std.specs.Prelude.{◌≡◌, ◌++◌, [], ◌∷◌, if◌then◌else◌, map, flat_map, IfOk, OnOk};
ghost use Rattle.exact_gate.specs.InsideChanges.{come_of, left_of, touched_of};
ghost use Rattle.exact_gate.specs.Standing.{stands_in as stands_in_of, without as without_of};

use crate::key::Key;
use crate::pool::Pool;
use cv_io::{Duplicate, List, Memory};
use std::alloc::Global;
use switch_meaning::{PhysEntry, is_same};

/// The candidates that passed before a change and don't now, and those that pass now and didn't
/// before.
#[derive(PartialEq, Eq, Debug, Drop)]
pub struct GateDelta {
    pub gone: List<PhysEntry>,
    pub come: List<PhysEntry>,
}

/// A key, and its entries that passed before a change.
#[derive(Drop)]
pub struct Touched {
    pub key: Key,
    pub before: List<PhysEntry>,
}

/// The keys, each with its entries that pass.
pub fn with_before(alloc: Global, pool: &Pool, keys: &[Key]) -> Result<List<Touched>, Memory>
    ensures { IfOk result (λ list. list ≡ map (touched_of pool.now) keys.now) }
{
    let mut list = List::new(alloc);
    for key in keys {
        list.push(Touched {
            key: *key,
            before: pool.standing(key)?,
        })?;
    }
    Ok(list)
}

/// Appends the entries of the first list that don't stand in the second.
fn append_without(
    list: &mut List<PhysEntry>,
    entries: &List<PhysEntry>,
    others: &List<PhysEntry>,
) -> Result<(), Memory>
    ensures { OnOk result (list.new ≡ list.old ++ without_of entries.now others.now) }
{
    for entry in entries.as_slice() {
        append_unless(list, stands_in(others, entry), entry)?;
    }
    Ok(())
}

/// Appends an entry, unless it is to stay out.
fn append_unless(
    list: &mut List<PhysEntry>,
    stays_out: bool,
    entry: &PhysEntry,
) -> Result<(), Memory>
    ensures { OnOk result (list.new ≡ list.old ++ (if stays_out then [] else entry.now ∷ [])) }
{
    if !stays_out {
        list.push(entry.copy()?)?;
    }
    Ok(())
}

/// Whether the entry stands in the list.
fn stands_in(entries: &List<PhysEntry>, entry: &PhysEntry) -> bool
    ensures { result ≡ stands_in_of entries.now entry.now }
{
    entries.as_slice().iter().any(|other| is_same(entry, other))
}

/// The entries of keys that passed before and don't now.
fn left(alloc: Global, pool: &Pool, touched: &List<Touched>) -> Result<List<PhysEntry>, Memory>
    ensures { IfOk result (λ list. list ≡ flat_map (left_of pool.now) touched.now) }
{
    let mut list = List::new(alloc);
    for one in touched.as_slice() {
        append_without(&mut list, &one.before, &pool.standing(&one.key)?)?;
    }
    Ok(list)
}

/// The entries of keys that pass now and didn't before.
fn come(alloc: Global, pool: &Pool, touched: &List<Touched>) -> Result<List<PhysEntry>, Memory>
    ensures { IfOk result (λ list. list ≡ flat_map (come_of pool.now) touched.now) }
{
    let mut list = List::new(alloc);
    for one in touched.as_slice() {
        append_without(&mut list, &pool.standing(&one.key)?, &one.before)?;
    }
    Ok(list)
}

/// What a change made of the entries of keys that pass.
pub fn delta(alloc: Global, pool: &Pool, touched: &List<Touched>) -> Result<GateDelta, Memory>
    ensures gone { IfOk result (λ delta. delta.gone ≡ flat_map (left_of pool.now) touched.now) }
    ensures come { IfOk result (λ delta. delta.come ≡ flat_map (come_of pool.now) touched.now) }
{
    Ok(GateDelta {
        gone: left(alloc, pool, touched)?,
        come: come(alloc, pool, touched)?,
    })
}
