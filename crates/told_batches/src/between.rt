//! The change of a switch's table to one that is wanted.
ghost use Rattle.std.specs.Prelude.{◌≡◌, IfOk, filter, not};
ghost use Rattle.install_plan.specs.declared.written.Written.{Written as WrittenOf};
ghost use Rattle.machine_meaning.specs.Batches.{batch_between, coming as coming_of, is_among as is_among_of};
ghost use Rattle.machine_meaning.specs.Batches.{next_after, standing_after, staying};
ghost use Rattle.switch_meaning.specs.Batches.{missing as missing_of};

use crate::change::{Change, change_of};
use crate::entries::{by_key, has};
use crate::numbering::{Numbered, number_all};
use crate::parting::Parted;
use crate::rows::entries_in;
use cv_io::{Duplicate, List, Memory};
use install_plan::Written;
use shared_rows::Rows;
use std::alloc::Global;
use switch_meaning::PhysEntry;

/// The rows that stand and are to go or to change, and those that stay.
fn part(alloc: Global, standing: &[Written], wanted: &List<PhysEntry>) -> Result<Parted, Memory>
    ensures going { IfOk result (λ p.
        p.going ≡ filter (λ (w : WrittenOf). not (is_among_of wanted.now w)) standing.now) }
    ensures staying { IfOk result (λ p. p.staying ≡ staying standing.now wanted.now) }
{
    let sorted = by_key(wanted.copy()?)?;
    let mut parted = Parted::new(alloc);
    for written in standing {
        parted.push(has(sorted.as_slice(), &written.entry), written)?;
    }
    Ok(parted)
}

/// The entries of a table that another has not.
fn missing(
    alloc: Global,
    other: List<PhysEntry>,
    table: &List<PhysEntry>,
) -> Result<List<PhysEntry>, Memory>
    ensures { IfOk result (λ left. left ≡ missing_of other table.now) }
{
    let sorted = by_key(other)?;
    let mut left = List::new(alloc);
    for entry in table.as_slice() {
        if !has(sorted.as_slice(), entry) {
            left.push(entry.copy()?)?;
        }
    }
    Ok(left)
}

/// The entries that come or changed, with cookies from the next one on.
fn coming(
    alloc: Global,
    next: u64,
    standing: &[Written],
    wanted: &List<PhysEntry>,
) -> Result<Numbered, Memory>
    ensures entries { IfOk result (λ n. n.entries ≡ coming_of next standing.now wanted.now) }
    ensures next { IfOk result (λ n. n.next ≡ next_after next (coming_of next standing.now wanted.now)) }
{
    let before = entries_in(alloc, standing)?;
    let come = missing(alloc, before, wanted)?;
    number_all(alloc, next, by_key(come)?)
}

/// What makes rows that stand what is wanted there, with cookies from the next one on.
fn change_of_rows(
    alloc: Global,
    next: u64,
    standing: &[Written],
    wanted: &List<PhysEntry>,
) -> Result<Change, Memory>
    ensures batch { IfOk result (λ c. c.batch ≡ batch_between next standing.now wanted.now) }
    ensures standing { IfOk result (λ c. c.standing ≡ standing_after next standing.now wanted.now) }
    ensures next { IfOk result (λ c. c.next ≡ next_after next (coming_of next standing.now wanted.now)) }
{
    let parted = part(alloc, standing, wanted)?;
    let come = coming(alloc, next, standing, wanted)?;
    change_of(alloc, parted, come)
}

/// What makes what stands on a switch what is wanted there, with cookies from the next one on. Both are sorted by key,
/// and each row and entry is searched for among those of the other side.
pub fn change_between(
    alloc: Global,
    next: u64,
    standing: &Rows,
    wanted: &List<PhysEntry>,
) -> Result<Change, Memory>
    ensures batch { IfOk result (λ c. c.batch ≡ batch_between next standing.now wanted.now) }
    ensures standing { IfOk result (λ c. c.standing ≡ standing_after next standing.now wanted.now) }
    ensures next { IfOk result (λ c. c.next ≡ next_after next (coming_of next standing.now wanted.now)) }
{
    let rows = standing.listed()?;
    change_of_rows(alloc, next, rows.as_slice(), wanted)
}
