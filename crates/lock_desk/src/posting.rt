//! One post.
ghost use Rattle.std.specs.Prelude.{◌≡◌, ◌<◌, ℕ, IfOk, OnErr};
ghost use mathlib.Core.List.{IsPrefix};
ghost use Rattle.policy_lock.specs.Post.{IsPosted};
ghost use Rattle.policy_lock.specs.Seat.{IsSeatOf, IsSameSeat, IsLater};

use cv_io::{Memory, Steps};
use policy_lock::{Machine, PolicyLock, Receipt, Seat};
use std::marker::Brand;
use std::sync::Wait;
use std::sync::ledger::{Blank, Ledger};
use std::thread::Threads;

/// Posts an event, with a count of steps of its own.
pub fn post<M: Machine, R: Wait + Threads + Sync>(
    rt: &R,
    lock: &PolicyLock<M>,
    seat: &mut Seat<M>,
    event: M::Event,
) -> Result<Receipt<M::Reply>, Memory>
    requires { IsSeatOf lock.now seat.old }
    ensures seat { IsSameSeat seat.old seat.new }
    ensures posted { IfOk result (λ receipt. (steps : ℕ) × IsPosted ⟦<M as Machine>⟧
        lock.now.start seat.old.pass seat.new.pass event receipt.place receipt.reply 0 steps) }
    ensures memory { OnErr result (IsLater seat.old.pass seat.new.pass) }
    ensures seen { IsPrefix seat.old.pass.seen seat.new.pass.seen }
{
    post_on::<M, R, Brand>(rt, lock, seat, event, Blank::new(1))
}

fn post_on<M: Machine, R: Wait + Threads + Sync, G: Ledger>(
    rt: &R,
    lock: &PolicyLock<M>,
    seat: &mut Seat<M>,
    event: M::Event,
    blank: Blank,
) -> Result<Receipt<M::Reply>, Memory>
    requires seat { IsSeatOf lock.now seat.old }
    requires ledger { (blank.name ≡ G.name) × (blank.parts ≡ G.parts) × (0 < blank.parts) }
    ensures seat { IsSameSeat seat.old seat.new }
    ensures posted { IfOk result (λ receipt. (steps : ℕ) × IsPosted ⟦<M as Machine>⟧
        lock.now.start seat.old.pass seat.new.pass event receipt.place receipt.reply 0 steps) }
    ensures memory { OnErr result (IsLater seat.old.pass seat.new.pass) }
    ensures seen { IsPrefix seat.old.pass.seen seat.new.pass.seen }
{
    let mut steps = Steps::<G>::new(blank);
    let receipt = lock.post(rt, seat, event, &mut steps)?;
    Ok(receipt)
}
