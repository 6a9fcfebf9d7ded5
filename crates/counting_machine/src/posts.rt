//! Posts to a machine.
ghost use Rattle.std.specs.Prelude.{◌≡◌, ◌<◌, ℕ, IfOk, OnOk, OnErr};
ghost use Rattle.policy_lock.specs.History.{IsLegal};
ghost use Rattle.policy_lock.specs.Post.{IsPosted};
ghost use Rattle.policy_lock.specs.Seat.{IsSeatOf, IsSameSeat, IsLater};
ghost use Rattle.counting_machine.specs.Ones.{HasPostedOnes};

use crate::counter::Counter;
use cv_io::{Memory, Steps};
use policy_lock::{Machine, PolicyLock, Receipt, Seat};
use std::marker::Brand;
use std::sync::Wait;
use std::sync::ledger::{Blank, Ledger};
use std::thread::Threads;

/// Posts an event, with a count of steps of its own.
pub fn post<M: Machine, R: Wait + Threads + Sync>(
    rt: &R,
    lock: &PolicyLock<M>,
    seat: &mut Seat<M>,
    event: M::Event,
) -> Result<Receipt<M::Reply>, Memory>
    requires { IsSeatOf lock.now seat.old }
    ensures seat { IsSameSeat seat.old seat.new }
    ensures legal { IsLegal ⟦<M as Machine>⟧ lock.now.start seat.new.pass.seen }
    ensures posted { IfOk result (λ receipt. (steps : ℕ) × IsPosted ⟦<M as Machine>⟧
        lock.now.start seat.old.pass seat.new.pass event receipt.place receipt.reply 0 steps) }
    ensures memory { OnErr result (IsLater seat.old.pass seat.new.pass) }
{
    post_on::<M, R, Brand>(rt, lock, seat, event, Blank::new(1))
}

fn post_on<M: Machine, R: Wait + Threads + Sync, G: Ledger>(
    rt: &R,
    lock: &PolicyLock<M>,
    seat: &mut Seat<M>,
    event: M::Event,
    blank: Blank,
) -> Result<Receipt<M::Reply>, Memory>
    requires seat { IsSeatOf lock.now seat.old }
    requires ledger { (blank.name ≡ G.name) × (blank.parts ≡ G.parts) × (0 < blank.parts) }
    ensures seat { IsSameSeat seat.old seat.new }
    ensures legal { IsLegal ⟦<M as Machine>⟧ lock.now.start seat.new.pass.seen }
    ensures posted { IfOk result (λ receipt. (steps : ℕ) × IsPosted ⟦<M as Machine>⟧
        lock.now.start seat.old.pass seat.new.pass event receipt.place receipt.reply 0 steps) }
    ensures memory { OnErr result (IsLater seat.old.pass seat.new.pass) }
{
    let mut steps = Steps::<G>::new(blank);
    let receipt = lock.post(rt, seat, event, &mut steps)?;
    Ok(receipt)
}

/// Posts a 1 so many times, or up to the first post that wants memory.
pub fn post_ones<R: Wait + Threads + Sync>(
    rt: &R,
    lock: &PolicyLock<Counter>,
    seat: &mut Seat<Counter>,
    count: u64,
) -> Result<(), Memory>
    requires { IsSeatOf lock.now seat.old }
    ensures seat { IsSameSeat seat.old seat.new }
    ensures posted { OnOk result (HasPostedOnes seat.old.pass seat.new.pass count) }
    ensures memory { OnErr result ((k : ℕ) × (k < count) × HasPostedOnes seat.old.pass seat.new.pass k) }
{
    for _ in 0..count {
        post(rt, lock, seat, 1)?;
    }
    Ok(())
}
