//! What lies under the lock.
ghost use Rattle.std.specs.Prelude.{◌≡◌, ◌≤◌, ◌%◌, length, fold};

use crate::machine::Machine;
use std::marker::PhantomData;

/// The machine, and how it came from a checkpoint.
#[derive(Drop)]
pub struct Locked<M: Machine> {
    pub machine: M,
    pub checkpoint: M,
    /// How many entries of the history stand before the checkpoint.
    pub before: u64,
    /// The events of the entries since.
    pub events: Vec<M::Event>,
    // With it the check knows that two states are equal in one way only.
    pub state: PhantomData<M::State>,
    ghost replays: { M.meaning machine ≡ fold M.next (M.meaning checkpoint) events.items },
    ghost few: { length events.items ≤ 16384 },
    ghost rounds: { before % 16384 ≡ 0 },
}

/// What a new checkpoint takes the place of: it is let go of once the machine is given back.
#[derive(Drop)]
pub struct Past<M: Machine> {
    pub checkpoint: M,
    pub events: Vec<M::Event>,
}

/// What became of an event.
pub enum Applied<R> {
    /// It is idle, and changed nothing.
    Idle(R),
    /// The machine took it, and it was stored.
    Done(R),
}
