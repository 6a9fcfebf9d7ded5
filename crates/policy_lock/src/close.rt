//! The end of a lock.
ghost use Rattle.std.specs.Prelude.{◌≡◌, ◌<◌, ◌-◌, ◌^◌, All, min, OnOk, IfOk, IfErr};
ghost use Rattle.policy_lock.specs.Seat.{IsSeatOf};
ghost use Rattle.policy_lock.specs.Number.{missing, numbers};
ghost use Rattle.policy_lock.specs.Close.{IsClosed};

use crate::count::missing;
use crate::lock::{PolicyLock, Seat};
use crate::locked::Locked;
use crate::machine::Machine;
use crate::rule::Gather;
use cv_io::List;
use std::collections::VecDeque;

/// Not all seats were given. The lock and the seats come back.
#[derive(Drop)]
pub struct Open<M: Machine> {
    pub lock: PolicyLock<M>,
    pub seats: List<Seat<M>>,
    /// How many seats are missing, as far as the given ones tell: the first seat, and those that were
    /// split off a given one.
    pub missing: u32,
}

impl<M: Machine> PolicyLock<M> {
    /// Ends the lock and gives the machine that the one history made, where all its seats are given.
    /// Whether they are depends on their numbers alone, and on how many seats were split off each.
    pub fn close(self, seats: List<Seat<M>>) -> Result<M, Open<M>>
        requires { All (λ seat. seat.lock ≡ self.id) seats }
        ensures closed { IfOk result (λ machine. IsClosed ⟦<M as Machine>⟧ self.start seats machine) }
        ensures began { OnOk result (All (IsSeatOf self) seats) }
        ensures all { OnOk result (missing (numbers seats) ≡ 0) }
        ensures back { IfErr result (λ back. (back.lock ≡ self) × (back.seats ≡ seats)) }
        ensures some { IfErr result (λ _. 0 < missing (numbers seats)) }
        ensures missing { IfErr result (λ back.
            back.missing ≡ min (missing (numbers seats)) (2 ^ 32 - 1)) }
    {
        let missing = missing(seats.as_slice());
        if missing > 0 {
            return Err(Open {
                lock: self,
                seats,
                missing,
            });
        }
        let mut queue = VecDeque::from(seats.into_vec());
        let Some(first) = queue.pop_front() else {
            unreachable!()
        };
        let Seat {
            token: mut keeper,
            number: _,
            children: _,
        } = first;
        while let Some(seat) = queue.pop_front() {
            let Seat {
                token,
                number: _,
                children: _,
            } = seat;
            self.table.shared.join_seat::<Gather>(&mut keeper, token);
        }
        let PolicyLock { table, words: _ } = self;
        let mut closed = table.close_with(keeper);
        let Some(locked) = closed.take(0) else {
            unreachable!()
        };
        closed.free();
        let Locked {
            machine,
            checkpoint: _,
            before: _,
            events: _,
            state: _,
        } = locked.into_inner();
        Ok(machine)
    }
}
