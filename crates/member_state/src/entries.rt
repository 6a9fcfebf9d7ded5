//! Entries of a table by their numbers.
ghost use Rattle.std.specs.Prelude.{◌≡◌, IfOk, filter, find, option_map, option_to_list};
ghost use Rattle.member_table.specs.Entries.{has_serial};
ghost use Rattle.member_table.specs.declared.entry.Entry.{Entry as EntryOf};
ghost use Rattle.member_state.specs.Changes.{entries_of, is_told};
ghost use Rattle.member_state.specs.Plans.{ranks_of as ranks_of_numbers};

use crate::state::MemberState;
use cv_io::{Duplicate, List, Memory};
use member_table::{Entry, Table};
use std::alloc::Global;

/// The rank of the entry of a number.
pub fn rank_of(table: &Table, serial: u64) -> Option<u32>
    ensures { result ≡ option_map (λ (e : EntryOf). e.rank) (find (has_serial serial) table.now.table.entries) }
{
    match table.get(serial) {
        Some(entry) => Some(entry.rank),
        None => None,
    }
}

/// The ranks of the entries of some numbers.
pub fn ranks_of(alloc: Global, table: &Table, serials: &[u64]) -> Result<List<u32>, Memory>
    ensures { IfOk result (λ ranks. ranks ≡ ranks_of_numbers table.now.table.entries serials.now) }
{
    let mut ranks = List::with_capacity(alloc, serials.len())?;
    for serial in serials {
        ranks.push_some(rank_of(table, *serial))?;
    }
    Ok(ranks)
}

/// Whether the member asks to be told when an entry is removed.
fn asks(entry: &Entry) -> bool
    ensures { result ≡ is_told entry.now }
{
    entry.flags % 2 == 1
}

/// A copy of the entry of a number, if the member asks to be told when it is removed.
fn told(table: &Table, serial: u64) -> Result<Option<Entry>, Memory>
    ensures { IfOk result (λ entry.
        option_to_list entry ≡ filter is_told (option_to_list (find (has_serial serial) table.now.table.entries))) }
{
    let Some(entry) = table.get(serial) else {
        return Ok(None);
    };
    if !asks(entry) {
        return Ok(None);
    }
    Ok(Some(entry.copy()?))
}

/// Copies of those of the entries of some numbers of whose removal the member asks to be told.
fn told_among(alloc: Global, table: &Table, serials: &[u64]) -> Result<List<Entry>, Memory>
    ensures { IfOk result (λ entries. entries ≡ filter is_told (entries_of table.now.table.entries serials.now)) }
{
    let mut entries = List::new(alloc);
    for serial in serials {
        entries.push_some(told(table, *serial)?)?;
    }
    Ok(entries)
}

impl MemberState {
    /// Copies of those of the entries of some numbers of whose removal the member asks to be told.
    pub fn told_of(&self, serials: &[u64]) -> Result<List<Entry>, Memory>
        ensures { IfOk result (λ entries.
            entries ≡ filter is_told (entries_of self.now.state.table.entries serials.now)) }
    {
        told_among(self.alloc, &self.table, serials)
    }
}
