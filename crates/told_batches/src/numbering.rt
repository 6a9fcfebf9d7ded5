//! Entries that come, under new cookies.
ghost use Rattle.std.specs.Prelude.{◌≡◌, IfOk};
ghost use Rattle.install_plan.specs.Tables.{numbered as numbered_of};
ghost use Rattle.machine_meaning.specs.Batches.{next_after};

use cv_io::{List, Memory};
use install_plan::Written;
use std::alloc::Global;
use switch_meaning::PhysEntry;

/// Entries under their cookies, and the next cookie.
#[derive(Debug, Drop)]
pub(crate) struct Numbered {
    pub(crate) entries: List<Written>,
    pub(crate) next: u64,
}

/// Entries under cookies from a number on.
pub(crate) fn number_all(
    alloc: Global,
    next: u64,
    entries: List<PhysEntry>,
) -> Result<Numbered, Memory>
    ensures entries { IfOk result (λ n. n.entries ≡ numbered_of next entries) }
    ensures next { IfOk result (λ n. n.next ≡ next_after next (numbered_of next entries)) }
{
    let mut numbered = List::new(alloc);
    let mut cookie = next;
    for entry in entries.into_vec() {
        numbered.push(Written { entry, cookie })?;
        cookie = cookie.saturating_add(1);
    }
    Ok(Numbered {
        entries: numbered,
        next: cookie,
    })
}
