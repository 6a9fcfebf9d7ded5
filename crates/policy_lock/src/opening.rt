//! The beginning of a lock.
ghost use Rattle.std.specs.Prelude.{◌≡◌, ◌<◌, ◌+◌, All, IfOk, []};
ghost use Rattle.policy_lock.specs.Seat.{IsSeatOf};
ghost use Rattle.policy_lock.specs.Number.{missing, numbers};
ghost use Rattle.policy_lock.specs.Opening.{new_seat, opening_seats};

use crate::held::Held;
use crate::lock::{PolicyLock, Seat};
use crate::machine::Machine;
use crate::marks::Words;
use atomic_table::{Refused, Table};
use cv_io::{List, Memory};
use std::alloc::Global;
use std::snapshot::Snapshot;

/// Puts the machine under a lock, and gives so many seats, none of which has seen anything: the first
/// one, and seats that were split off it. The lock closes once these are back, with those that were
/// split off them since.
pub fn open<M: Machine>(
    alloc: Global,
    machine: M,
    seats: u32,
) -> Result<(PolicyLock<M>, List<Seat<M>>), Memory>
    requires { 0 < seats }
    ensures start { IfOk result (λ opened. opened.0.start ≡ M.meaning machine) }
    ensures seats { IfOk result (λ opened. opened.1 ≡ opening_seats opened.0 seats) }
    ensures theirs { IfOk result (λ opened. All (IsSeatOf opened.0) opened.1) }
    ensures all { IfOk result (λ opened. missing (numbers opened.1) ≡ 0) }
{
    let (lock, first) = PolicyLock::new(alloc, machine)?;
    match lock.family(alloc, first, seats - 1) {
        Ok(all) => Ok((lock, all)),
        Err(memory) => {
            drop(lock);
            Err(memory)
        }
    }
}

impl<M: Machine> PolicyLock<M> {
    // A lock over the machine, and its first seat.
    fn new(alloc: Global, machine: M) -> Result<(PolicyLock<M>, Seat<M>), Memory>
        ensures start { IfOk result (λ opened. opened.0.start ≡ M.meaning machine) }
        ensures first { IfOk result (λ opened. opened.1 ≡ new_seat opened.0 [] 0) }
    {
        let about = Snapshot::of(&machine);
        let locked = Held::new(alloc, machine)?;
        let mut slots = Vec::with_capacity(alloc, 1)?;
        slots.push_reserved(Some(locked));
        match Table::new(alloc, &[0], slots, &about) {
            Ok((table, token)) => Ok((
                PolicyLock {
                    table,
                    words: Words::new(),
                },
                Seat {
                    token,
                    number: List::new(alloc),
                    children: 0,
                },
            )),
            Err(Refused { slots: _ }) => Err(Memory),
        }
    }

    // A lock's first seat, and so many that are split off it.
    fn family(&self, alloc: Global, mut first: Seat<M>, count: u32) -> Result<List<Seat<M>>, Memory>
        requires { first ≡ new_seat self.now [] 0 }
        ensures { IfOk result (λ all. all ≡ opening_seats self.now (count + 1)) }
    {
        let mut all = Vec::with_capacity(alloc, count as usize)?;
        for _ in 0..count {
            let seat = self.split(alloc, &mut first)?;
            all.push(seat)?;
        }
        all.insert(0, first)?;
        Ok(List::from_vec(all))
    }
}
