//! Keys of entries: a priority and a match.
ghost use Rattle.std.specs.Prelude.{◌≡◌};
ghost use Rattle.switch_meaning.specs.Batches.{key_cmp};
ghost use Rattle.switch_meaning.specs.Keys.{same_key};

use std::cmp::Ordering;
use switch_meaning::PhysEntry;

/// By rising priority, and then by the bytes of the match.
pub fn cmp_keys(first: &PhysEntry, second: &PhysEntry) -> Ordering
    ensures { result ≡ key_cmp first.now second.now }
{
    // The bytes of matches are dear, and are asked for only where priorities are equal.
    match first.priority.cmp(&second.priority) {
        Ordering::Equal => first.m.cmp_bytes(&second.m),
        apart => apart,
    }
}

/// Whether two entries have one key.
pub(crate) fn is_same_key(first: &PhysEntry, second: &PhysEntry) -> bool
    ensures { result ≡ same_key first.now second.now }
{
    first.priority == second.priority && first.m == second.m
}
