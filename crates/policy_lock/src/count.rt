//! Which seats are missing among some.
ghost use Rattle.std.specs.Prelude.{◌≡◌, ◌-◌, ◌^◌, ◌∷◌, ◌↔◌, [], min, IsTrue};
ghost use Rattle.policy_lock.specs.Number.{has_number, missing_children, missing, numbers};

use crate::lock::Seat;
use crate::machine::Machine;

/// How many seats are missing: the first one, and those that were split off one of these.
pub fn missing<M: Machine>(seats: &[Seat<M>]) -> u32
    ensures { result ≡ min (missing (numbers seats.now)) (2 ^ 32 - 1) }
{
    let mut count: u32 = if has_first(seats) { 0 } else { 1 };
    for seat in seats {
        let below = missing_children(seats, seat.number.as_slice(), seat.children);
        count = count.saturating_add(below);
    }
    count
}

// How many of the seats that were split off a number are not among all.
fn missing_children<M: Machine>(all: &[Seat<M>], number: &[u64], children: u64) -> u32
    ensures { result ≡ min (missing_children (numbers all.now) number.now children) (2 ^ 32 - 1) }
{
    let mut count: u32 = 0;
    for k in 0..children {
        if !has_child(all, k, number) {
            count = count.saturating_add(1);
        }
    }
    count
}

fn has_first<M: Machine>(seats: &[Seat<M>]) -> bool
    ensures { result ≡ has_number [] (numbers seats.now) }
{
    for seat in seats {
        if seat.number.is_empty() {
            return true;
        }
    }
    false
}

fn has_child<M: Machine>(seats: &[Seat<M>], k: u64, number: &[u64]) -> bool
    ensures { result ≡ has_number (k ∷ number.now) (numbers seats.now) }
{
    for seat in seats {
        if is_child(seat.number.as_slice(), k, number) {
            return true;
        }
    }
    false
}

fn is_child(number: &[u64], k: u64, parent: &[u64]) -> bool
    ensures { IsTrue result ↔ (number.now ≡ k ∷ parent.now) }
{
    match number.split_first() {
        Some((first, rest)) => *first == k && rest == parent,
        None => false,
    }
}
