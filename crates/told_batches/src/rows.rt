//! Rows by key, and their entries.
ghost use Rattle.std.specs.Prelude.{◌≡◌, IfOk, map};
ghost use Rattle.install_plan.specs.Tables.{entry_of};
ghost use Rattle.machine_meaning.specs.Batches.{by_key as by_key_of};

use cv_io::{Duplicate, List, Memory};
use install_plan::Written;
use shared_rows::cmp_keys;
use std::alloc::Global;
use switch_meaning::PhysEntry;

/// The rows by rising key.
pub(crate) fn by_key(rows: List<Written>) -> Result<List<Written>, Memory>
    ensures { IfOk result (λ sorted. sorted ≡ by_key_of rows) }
{
    let mut sorted = rows.into_vec();
    sorted.sort_by(|first, second| cmp_keys(&first.entry, &second.entry))?;
    Ok(List::from_vec(sorted))
}

/// The entries of rows, without their cookies.
pub(crate) fn entries_in(alloc: Global, rows: &[Written]) -> Result<List<PhysEntry>, Memory>
    ensures { IfOk result (λ entries. entries ≡ map entry_of rows.now) }
{
    let mut entries = List::with_capacity(alloc, rows.len())?;
    for written in rows {
        entries.push(written.entry.copy()?)?;
    }
    Ok(entries)
}
