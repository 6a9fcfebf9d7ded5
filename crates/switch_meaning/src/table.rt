//! A switch's table after a change.
ghost use Rattle.std.specs.Prelude.{◌≡◌, ◌++◌, IfOk, OnOk};
ghost use Rattle.switch_meaning.specs.Tables.{has_key as has_key_of, put_in as put_in_of};
ghost use Rattle.switch_meaning.specs.Tables.{table_after as table_after_of, takes_out as takes_out_of};

use crate::entry::{Change, FlowEntry};
use cv_io::{List, Memory};
use of10_match::Match;

/// The table of a switch after a change.
pub fn table_after(table: List<FlowEntry>, change: Change) -> Result<List<FlowEntry>, Memory>
    ensures { IfOk result (λ after. after ≡ table_after_of table change) }
{
    let mut entries = table.into_vec();
    entries.retain(|entry| !takes_out(&change, entry));
    put_in(&mut entries, change)?;
    Ok(List::from_vec(entries))
}

/// Appends the entries that the change puts into the table.
fn put_in(entries: &mut Vec<FlowEntry>, change: Change) -> Result<(), Memory>
    ensures { OnOk result (entries.new.items ≡ entries.old.items ++ put_in_of change) }
{
    match change {
        Change::Add(entry) => entries.push(entry)?,
        Change::DeleteStrict { .. } => {}
        Change::Delete { .. } => {}
    }
    Ok(())
}

/// Whether the change takes the entry out of its table.
fn takes_out(change: &Change, entry: &FlowEntry) -> bool
    ensures { result ≡ takes_out_of change.now entry.now }
{
    match change {
        Change::Add(added) => has_key(&added.m, added.priority, entry),
        Change::DeleteStrict { m, priority } => has_key(m, *priority, entry),
        Change::Delete { m } => m.covers(&entry.m),
    }
}

/// Whether the entry has this match and priority.
fn has_key(m: &Match, priority: u16, entry: &FlowEntry) -> bool
    ensures { result ≡ has_key_of m.now priority entry.now }
{
    *m == entry.m && priority == entry.priority
}
