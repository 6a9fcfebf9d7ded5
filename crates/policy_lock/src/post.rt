//! A post: the one call that may wait.
ghost use Rattle.std.specs.Prelude.{IfOk, OnErr};
ghost use Rattle.policy_lock.specs.History.{IsLegal};
ghost use Rattle.policy_lock.specs.Seat.{IsSeatOf, IsSameSeat};
ghost use Rattle.policy_lock.specs.Post.{IsPosted, IsUncommitted};

use crate::lock::{PolicyLock, Receipt, Seat};
use crate::locked::Applied;
use crate::machine::Machine;
use crate::rule::Commit;
use cv_io::{Memory, Steps};
use std::sync::Wait;
use std::sync::ledger::Ledger;
use std::thread::Threads;

impl<M: Machine> PolicyLock<M> {
    /// Gives the event to the machine, once no other seat holds it. An event that
    /// [`Machine::glance`] answers changes nothing and is no entry. Any other is the next entry of the
    /// history, under the seat's number. Without memory nothing was committed.
    ///
    /// It waits while another seat holds the machine, for a millisecond at most where one asks for its
    /// turn, and for some 30 seconds at most while [`Machine::holds`] says so. After 2^63 - 1 entries it
    /// waits for ever.
    pub fn post<R: Wait + Threads + Sync, G: Ledger>(
        &self,
        rt: &R,
        seat: &mut Seat<M>,
        event: M::Event,
        steps: &mut Steps<G>,
    ) -> Result<Receipt<M::Reply>, Memory>
        requires { IsSeatOf self.now seat.old }
        ensures seat { IsSameSeat seat.old seat.new }
        ensures legal { IsLegal ⟦<M as Machine>⟧ self.now.start seat.new.pass.seen }
        ensures posted { IfOk result (λ receipt.
            IsPosted ⟦<M as Machine>⟧ self.now.start seat.old.pass seat.new.pass
            event receipt.place receipt.reply steps.old steps.new) }
        ensures memory { OnErr result (
            IsUncommitted ⟦<M as Machine>⟧ self.now.start seat.old.pass seat.new.pass
            event steps.old steps.new) }
    {
        self.give_way(rt);
        let mut past = None;
        let (word, mut locked) = self.take_for(rt, &mut seat.token, &event);
        let applied = locked.apply(rt, event, steps, &mut past);
        self.words.mark(locked.marks());
        match applied {
            Ok(Applied::Done(reply)) => {
                drop(self.table.shared.exchange(&mut seat.token, 0, Some(locked)));
                self.table
                    .shared
                    .store::<Commit>(&mut seat.token, 0, word + 2);
                self.wake();
                Ok(Receipt {
                    place: word / 2 + 1,
                    reply,
                })
            }
            Ok(Applied::Idle(reply)) => {
                self.give_back(&mut seat.token, word, locked);
                Ok(Receipt {
                    place: word / 2,
                    reply,
                })
            }
            Err(memory) => {
                self.give_back(&mut seat.token, word, locked);
                Err(memory)
            }
        }
    }
}
