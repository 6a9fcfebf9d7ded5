//! Joining lists.
ghost use Rattle.std.specs.Prelude.{◌≡◌, ◌++◌, IfOk};

use cv_io::{Duplicate, List, Memory};

/// Copies of the items of one list and then of another.
pub(crate) fn joined<T: Duplicate + Drop>(
    first: &List<T>,
    second: &List<T>,
) -> Result<List<T>, Memory>
    ensures { IfOk result (λ list. list ≡ first.now ++ second.now) }
{
    let mut list = first.copy()?;
    list.append(second.copy()?)?;
    Ok(list)
}
