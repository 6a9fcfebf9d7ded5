//! Copies of cookies and of sums.
ghost use Rattle.std.specs.Prelude.{◌≡◌, IfOk};

use crate::row::Row;
use crate::sum::Sum;
use cv_io::{Duplicate, Leaf, Memory};
use std::alloc::Global;
use std::collections::BTreeMap;

/// The same cookies.
pub fn copied_cookies(
    alloc: Global,
    live: &BTreeMap<(u32, u64), Row>,
) -> Result<BTreeMap<(u32, u64), Row>, Memory>
    ensures { IfOk result (λ copied. copied.entries ≡ live.now.entries) }
{
    let mut copied = BTreeMap::new(alloc);
    for (place, row) in live.iter() {
        copied.insert(*place, row.copy()?)?;
    }
    Ok(copied)
}

/// The same sums.
pub fn copied_sums(alloc: Global, sums: &BTreeMap<Leaf, Sum>) -> Result<BTreeMap<Leaf, Sum>, Memory>
    ensures { IfOk result (λ copied. copied.entries ≡ sums.now.entries) }
{
    let mut copied = BTreeMap::new(alloc);
    for (leaf, sum) in sums.iter() {
        copied.insert(*leaf, *sum)?;
    }
    Ok(copied)
}
