//! The numbers of the entries that change, and their leaves.
ghost use Rattle.std.specs.Prelude.{◌≡◌, ◌∷◌, [], IfOk, filter, map, option_to_list};
ghost use Rattle.leaf_changes.specs.Leaves.{leaf_at};
ghost use Rattle.leaf_changes.specs.Touched.{has_kind, number_of as number_in, touched_in};

use cv_io::{Leaf, List, Memory};
use member_state::Planned;
use member_table::Entry;
use std::alloc::Global;

/// The kind of an entry's leaf is this more than its number: lower kinds are of headers outside, and of misses.
const FIRST_KIND: u64 = 2;

/// The number of an entry, if there is one.
fn number_of(entry: &Option<Entry>) -> Option<u64>
    ensures { result ≡ number_in entry.now }
{
    match entry {
        Some(entry) => Some(entry.serial),
        None => None,
    }
}

/// The numbers of the entries that go, get other actions, or come.
pub(crate) fn touched(planned: &Planned) -> Result<List<u64>, Memory>
    ensures { IfOk result (λ serials. serials ≡ touched_in planned.now) }
{
    let mut serials = planned.change.removed.copied()?;
    serials.extend_from_slice(planned.dropped.as_slice())?;
    for one in planned.change.modified.as_slice() {
        serials.push(one.serial)?;
    }
    serials.push_some(number_of(&planned.change.added))?;
    Ok(serials)
}

/// The leaf of an entry; a number that is too large for one is no entry's.
fn leaf(member: u32, serial: u64) -> Option<Leaf>
    ensures { option_to_list result ≡ map (leaf_at member) (filter has_kind (serial ∷ [])) }
{
    if serial >= u64::MAX - 1 {
        return None;
    }
    Some(Leaf {
        member,
        kind: FIRST_KIND + serial,
    })
}

/// The leaves of entries.
pub(crate) fn leaves(alloc: Global, member: u32, serials: &[u64]) -> Result<List<Leaf>, Memory>
    ensures { IfOk result (λ leaves. leaves ≡ map (leaf_at member) (filter has_kind serials.now)) }
{
    let mut leaves = List::with_capacity(alloc, serials.len())?;
    for serial in serials {
        leaves.push_some(leaf(member, *serial))?;
    }
    Ok(leaves)
}
