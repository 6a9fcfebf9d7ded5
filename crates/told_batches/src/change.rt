//! The change of a switch's table.
ghost use Rattle.std.specs.Prelude.{◌≡◌, ◌++◌, IfOk, IsTrue};
ghost use Rattle.switch_state.specs.Fitting.{CanAdd, CanSend};
ghost use Rattle.machine_meaning.specs.Batches.{by_key as by_key_of};

use crate::numbering::Numbered;
use crate::parting::Parted;
use crate::rows::by_key;
use cv_io::{Duplicate, Memory};
use install_plan::{Batch, Written};
use of10_actions::{are_in_range, list_length};
use shared_rows::Rows;
use std::alloc::Global;

/// What is written to a switch, what stands there then, and the next cookie after it.
#[derive(Drop)]
pub struct Change {
    pub batch: Batch,
    pub standing: Rows,
    pub next: u64,
}

/// What goes is deleted, and what comes stands beside what stays.
pub(crate) fn change_of(alloc: Global, parted: Parted, come: Numbered) -> Result<Change, Memory>
    ensures batch { IfOk result (λ c. c.batch ≡ record { deletes = by_key_of parted.going; adds = come.entries }) }
    ensures standing { IfOk result (λ c. c.standing ≡ by_key_of (parted.staying ++ come.entries)) }
    ensures next { IfOk result (λ c. c.next ≡ come.next) }
{
    let mut after = parted.staying;
    after.append(come.entries.copy()?)?;
    let sorted = by_key(after)?;
    let standing = Rows::of(alloc, sorted)?;
    Ok(Change {
        batch: Batch {
            deletes: by_key(parted.going)?,
            adds: come.entries,
        },
        standing,
        next: come.next,
    })
}

/// Whether an entry can be added: its actions are in range, and fit a message.
fn can_add(written: &Written) -> bool
    ensures { IsTrue result → CanAdd written.now }
{
    are_in_range(&written.entry.actions) && list_length(&written.entry.actions) < 65_464
}

/// Whether each addition of a batch can be written. Those of a policy's setting can: composed lists are short, and
/// what members set is in range. A law that says so of each sound state makes this test superfluous.
pub fn can_send(batch: &Batch) -> bool
    ensures { IsTrue result → CanSend batch.now }
{
    batch.adds.as_slice().iter().all(can_add)
}
