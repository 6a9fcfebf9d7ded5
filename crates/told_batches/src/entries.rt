//! Entries by rising key, and a search among them.
ghost use Rattle.std.specs.Prelude.{◌≡◌, IfOk, IsSorted};
ghost use Rattle.std.specs.List.{list_any};
ghost use Rattle.switch_meaning.specs.Batches.{by_key as by_key_of, key_cmp};
ghost use Rattle.switch_meaning.specs.Same.{same_entry};

use cv_io::{List, Memory};
use shared_rows::cmp_keys;
use switch_meaning::{PhysEntry, is_same};

/// The entries by rising key, those of one key in the order in which they are listed.
pub(crate) fn by_key(entries: List<PhysEntry>) -> Result<List<PhysEntry>, Memory>
    ensures { IfOk result (λ sorted. sorted ≡ by_key_of entries) }
{
    let mut sorted = entries.into_vec();
    sorted.sort_by(|first, second| cmp_keys(first, second))?;
    Ok(List::from_vec(sorted))
}

/// Whether one of these entries is the same as this one.
fn is_among(entries: &[PhysEntry], entry: &PhysEntry) -> bool
    ensures { result ≡ list_any (same_entry entry.now) entries.now }
{
    entries.iter().any(|other| is_same(entry, other))
}

/// Whether one of some entries, which stand by rising key, is the same as this one: those of its key are searched for.
pub(crate) fn has(sorted: &[PhysEntry], entry: &PhysEntry) -> bool
    ensures { IsSorted key_cmp sorted.now → result ≡ list_any (same_entry entry.now) sorted.now }
{
    let before = sorted.partition_point(|other| cmp_keys(other, entry).is_lt());
    let behind = &sorted[before..];
    let many = behind.partition_point(|other| cmp_keys(other, entry).is_le());
    is_among(&behind[..many], entry)
}
