//! What follows a place of the history.
ghost use Rattle.std.specs.Prelude.{◌≡◌, ◌≤◌, length, take, IfOk};
ghost use Rattle.policy_lock.specs.After.{IsAfter};
ghost use Rattle.policy_lock.specs.History.{IsLegal};
ghost use Rattle.policy_lock.specs.Locked.{IsStoredAfter};
ghost use Rattle.policy_lock.specs.Seat.{IsSeatOf, IsSameSeat, IsLater};

use crate::lock::{PolicyLock, Seat};
use crate::locked::Locked;
use crate::machine::Machine;
use cv_io::{List, Memory};
use std::alloc::Global;
use std::sync::Wait;

// The most events that are answered at once.
const PIECE: usize = 256;

/// What follows a place of the history.
#[derive(Drop)]
pub enum After<E: Drop> {
    /// The events of the entries that follow, at least one and at most 256.
    Events { list: List<E> },
    /// None do: the history has `at` entries.
    Waiting { at: u64 },
    /// They are no longer stored: the stored events are those after `first` entries.
    Past { first: u64 },
}

impl<M: Machine> Locked<M> {
    /// What is stored after a place.
    pub fn after(&self, place: u64) -> Result<After<M::Event>, Memory>
        ensures { IfOk result (λ after. IsStoredAfter ⟦<M as Machine>⟧ self.now place after) }
    {
        if place < self.before {
            return Ok(After::Past { first: self.before });
        }
        let skipped = (place - self.before) as usize;
        if skipped >= self.events.len() {
            return Ok(After::Waiting { at: place });
        }
        let list = copies::<M>(*self.events.allocator(), &self.events[skipped..])?;
        Ok(After::Events { list })
    }
}

// Copies of the first events, at most 256.
fn copies<M: Machine>(alloc: Global, events: &[M::Event]) -> Result<List<M::Event>, Memory>
    ensures { IfOk result (λ list. list ≡ take 256 events.now) }
{
    let piece = first_of(events);
    let mut list = List::with_capacity(alloc, piece.len())?;
    for event in piece {
        list.push(M::copy_event(event)?)?;
    }
    Ok(list)
}

fn first_of<T>(items: &[T]) -> &[T]
    ensures { result.now ≡ take 256 items.now }
{
    &items[..PIECE.min(items.len())]
}

impl<M: Machine> PolicyLock<M> {
    /// The events of the entries that follow a place, which the seat has seen: at most 256, and no
    /// longer those before the last checkpoint. The seat has then seen the whole history.
    ///
    /// It waits while another seat holds the machine.
    pub fn after<R: Wait>(
        &self,
        rt: &R,
        seat: &mut Seat<M>,
        place: u64,
    ) -> Result<After<M::Event>, Memory>
        requires seat { IsSeatOf self.now seat.old }
        requires place { place ≤ length seat.old.pass.seen }
        ensures seat { IsSameSeat seat.old seat.new }
        ensures later { IsLater seat.old.pass seat.new.pass }
        ensures legal { IsLegal ⟦<M as Machine>⟧ self.now.start seat.new.pass.seen }
        ensures after { IfOk result (λ after. IsAfter seat.new.pass.seen place after) }
    {
        let (word, locked) = self.take(rt, &mut seat.token);
        let after = locked.after(place);
        self.give_back(&mut seat.token, word, locked);
        after
    }
}
