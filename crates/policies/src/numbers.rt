//! Places in lists as numbers.
ghost use Rattle.std.specs.Prelude.{◌≡◌, IfOk};
ghost use Rattle.policies.specs.Widths.{number_at as number_at_of};

use cv_io::Memory;

/// The number of a place. One above 2^32 - 1 is answered as want of memory.
pub fn number(place: usize) -> Result<u32, Memory>
    ensures { IfOk result (λ number. number ≡ place) }
{
    match u32::try_from(place) {
        Ok(number) => Ok(number),
        Err(_) => Err(Memory),
    }
}

/// The number at a place, 1 beyond the end.
pub(crate) fn number_at(numbers: &[u64], place: usize) -> u64
    ensures { result ≡ number_at_of numbers.now place }
{
    match numbers.get(place) {
        Some(number) => *number,
        None => 1,
    }
}
