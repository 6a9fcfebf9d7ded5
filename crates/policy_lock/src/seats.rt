//! What seats do without the machine: they look, split and meet.
ghost use Rattle.std.specs.Prelude.{◌≡◌, ◌≤◌, ◌∷◌, [], length, IfOk, OnOk, OnErr};
ghost use mathlib.Core.List.{IsPrefix};
ghost use Rattle.policy_lock.specs.History.{IsLegal, calls_by, longer};
ghost use Rattle.policy_lock.specs.Seat.{IsSeatOf, IsSameSeat, IsLater, with_pass, child, parent};
ghost use Rattle.policy_lock.specs.Look.{WasAsLong};

use crate::lock::{PolicyLock, Seat};
use crate::machine::Machine;
use crate::rule::{Born, Hear, Look, Note};
use cv_io::{List, Memory};
use std::alloc::{AllocError, Global};

impl<M: Machine> PolicyLock<M> {
    /// How many entries the history has. It goes on from what the seat has seen.
    pub fn look(&self, seat: &mut Seat<M>) -> u64
        requires { IsSeatOf self.now seat.old }
        ensures same { seat.new ≡ seat.old }
        ensures had { WasAsLong ⟦<M as Machine>⟧ self.now.start seat.old.pass result }
        ensures legal { IsLegal ⟦<M as Machine>⟧ self.now.start seat.new.pass.seen }
    {
        self.table.shared.load::<Look>(&mut seat.token, 0) / 2
    }

    /// A new seat. It has seen what the other has, and has a number of its own, under which nothing
    /// was posted.
    pub fn split(&self, alloc: Global, seat: &mut Seat<M>) -> Result<Seat<M>, Memory>
        requires { IsSeatOf self.now seat.old }
        ensures born { IfOk result (λ new. new ≡ with_pass seat.old (child seat.old.pass)) }
        ensures calls { IfOk result (λ new. calls_by new.pass.number new.pass.seen ≡ []) }
        ensures seat { OnOk result (seat.new ≡ with_pass seat.old (parent seat.old.pass)) }
        ensures memory { OnErr result (seat.new ≡ seat.old) }
    {
        if seat.children == u64::MAX {
            return Err(Memory);
        }
        let number = number_below(alloc, seat.children, seat.number.as_slice())?;
        self.table.shared.load::<Look>(&mut seat.token, 0);
        let token = self.table.shared.split_seat::<Born>(&mut seat.token);
        seat.children += 1;
        Ok(Seat {
            token,
            number: List::from_vec(number),
            children: 0,
        })
    }

    /// Two seats tell each other what they have seen. Then both have seen the longer of their two
    /// histories, which the shorter one begins.
    pub fn meet(&self, a: &mut Seat<M>, b: &mut Seat<M>)
        requires { IsSeatOf self.now a.old × IsSeatOf self.now b.old }
        ensures seats { IsSameSeat a.old a.new × IsSameSeat b.old b.new }
        ensures first { a.new.pass.seen ≡ longer a.old.pass.seen b.old.pass.seen }
        ensures second { b.new.pass.seen ≡ longer a.old.pass.seen b.old.pass.seen }
        ensures later { IsLater a.old.pass a.new.pass × IsLater b.old.pass b.new.pass }
    {
        self.hear(a, b);
        self.hear(b, a);
    }

    // The first seat hears what the second has seen.
    fn hear(&self, a: &mut Seat<M>, b: &mut Seat<M>)
        requires { IsSeatOf self.now a.old × IsSeatOf self.now b.old }
        ensures other { b.new ≡ b.old }
        ensures seat { IsSameSeat a.old a.new }
        ensures seen { a.new.pass.seen ≡ longer a.old.pass.seen b.old.pass.seen }
        ensures later { IsLater a.old.pass a.new.pass }
        ensures told { IsPrefix b.old.pass.seen a.new.pass.seen }
    {
        let shared = &self.table.shared;
        let note = shared.split_seat::<Note>(&mut b.token);
        shared.join_seat::<Note>(&mut a.token, note);
        shared.load::<Hear>(&mut a.token, 0);
    }
}

fn number_below(alloc: Global, child: u64, number: &[u64]) -> Result<Vec<u64>, AllocError>
    ensures { IfOk result (λ below. below.items ≡ child ∷ number.now) }
{
    let mut below = Vec::with_capacity(alloc, 1)?;
    below.push_reserved(child);
    below.extend_from_slice(number)?;
    Ok(below)
}
