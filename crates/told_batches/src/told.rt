//! The change of a switch's table that is told, as which entries go and come: deleted ones are written under the
//! cookies under which they stand, added ones under new ones.
ghost use Rattle.std.specs.Prelude.{◌≡◌, ◌++◌, IfOk, List, filter, map, not};
ghost use Rattle.install_plan.specs.Tables.{entry_of};
ghost use Rattle.policy_meaning.specs.LeafFact.{EachPair};
ghost use Rattle.shared_rows.specs.Rows.{IsLower, Rise, by_key as by_key_of};
ghost use Rattle.switch_meaning.specs.declared.entry.PhysEntry.{PhysEntry as PhysEntryOf};
ghost use Rattle.machine_meaning.specs.Batches.{batch_between, coming, next_after, standing_after};
ghost use Rattle.told_batches.specs.Told.{AreListed, IsToldOf, has_key_in};

use crate::change::Change;
use crate::numbering::number_all;
use crate::rows::entries_in;
use cv_io::{Duplicate, List, Memory};
use install_plan::{Batch, Written};
use shared_rows::{Rows, Taken};
use std::alloc::Global;

/// The rows that go, and those that stay.
#[derive(Drop)]
struct Left {
    going: List<Written>,
    staying: Rows,
}

/// The rows that stand and have the keys of these, which are listed in the order in which they stand; and the others.
fn part(alloc: Global, standing: &Rows, gone: &[Written]) -> Result<Left, Memory>
    ensures going { EachPair IsLower standing.now → AreListed (map entry_of gone.now) standing.now
        → IfOk result (λ left. left.going ≡ filter (has_key_in (map entry_of gone.now)) standing.now) }
    ensures staying { EachPair IsLower standing.now → AreListed (map entry_of gone.now) standing.now
        → IfOk result (λ left. left.staying
        ≡ filter (λ w. not (has_key_in (map entry_of gone.now) w)) standing.now) }
{
    let mut going = List::new(alloc);
    let mut staying = standing.copy()?;
    for one in gone {
        let Taken { rows, row } = staying.without(&one.entry)?;
        staying = rows;
        going.push_some(row)?;
    }
    Ok(Left { going, staying })
}

/// Rows with others, each in its place by key.
fn put_all(rows: Rows, come: &[Written]) -> Result<Rows, Memory>
    ensures { Rise rows → IfOk result (λ all. all ≡ by_key_of (rows ++ come.now)) }
{
    let mut all = rows;
    for row in come {
        all = all.with(row.copy()?)?;
    }
    Ok(all)
}

/// The change that is told of a switch, from what stands there, with cookies from the next one on. Of the rows that
/// neither go nor come those in the same runs as one that does are copied; those in other runs are not, and of such a
/// run no more than the first row is looked at.
pub fn change_told(
    alloc: Global,
    next: u64,
    standing: &Rows,
    told: &Batch,
) -> Result<Change, Memory>
    ensures batch { (wanted : List PhysEntryOf) → IsToldOf standing.now wanted told.now
        → IfOk result (λ c. c.batch ≡ batch_between next standing.now wanted) }
    ensures standing { (wanted : List PhysEntryOf) → IsToldOf standing.now wanted told.now
        → IfOk result (λ c. c.standing ≡ standing_after next standing.now wanted) }
    ensures next { (wanted : List PhysEntryOf) → IsToldOf standing.now wanted told.now
        → IfOk result (λ c. c.next ≡ next_after next (coming next standing.now wanted)) }
{
    let left = part(alloc, standing, told.deletes.as_slice())?;
    let entries = entries_in(alloc, told.adds.as_slice())?;
    let come = number_all(alloc, next, entries)?;
    let after = put_all(left.staying, come.entries.as_slice())?;
    Ok(Change {
        batch: Batch {
            deletes: left.going,
            adds: come.entries,
        },
        standing: after,
        next: come.next,
    })
}
