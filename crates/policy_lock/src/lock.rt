//! The lock and its seats.
use crate::held::Held;
use crate::machine::Machine;
use crate::marks::Words;
use crate::rule::Law;
use crate::view::View;
use atomic_table::Table;
use cv_io::List;
use std::alloc::Global;
use std::marker::Model;
use std::snapshot::Snapshot;

/// A token of the lock's table.
pub type Token<M> = atomic_table::Seat<
    Option<Held<M>>,
    View<<M as Machine>::Event, <M as Machine>::Reply, <M as Machine>::State>,
>;

/// A machine under a lock.
///
/// Contracts see which lock it is, and what its machine meant when it was opened.
#[derive(Drop)]
pub struct PolicyLock<M: Machine> {
    pub(crate) table: Table<
        Option<Held<M>>,
        View<M::Event, M::Reply, M::State>,
        Snapshot<M>,
        Law<M>,
        Global,
    >,
    pub(crate) words: Words,
}

impl<M: Machine> Model for PolicyLock<M> {
    ghost use Rattle.std.specs.Prelude.{◌≡◌};
    ghost use Rattle.policy_lock.specs.Seat.{LockOf};

    ghost Value = { LockOf M.State };

    ghost view = { λ lock. record { id = lock.table.shared.table_id; start = M.meaning lock.table.shared.key.value } };

    ghost invariant = { λ lock. (lock.table.shared.table_id.words ≡ 1) × (lock.table.shared.table_id.slots ≡ 1) };
}

impl<M: Machine> PolicyLock<M> {
    /// The machine's [`Marks::stirred`](crate::Marks) as it was last given back. No promise rests on it.
    pub fn stirred(&self) -> u64 {
        self.words.marks().stirred
    }

    /// The machine's [`Marks::crowded`](crate::Marks) as it was last given back. No promise rests on it.
    pub fn is_crowded(&self) -> bool {
        self.words.marks().crowded
    }
}

/// The right to post to a lock. Between calls it holds nothing, so a seat that is dropped stops no
/// one; but then the lock can't be closed.
///
/// Contracts see which lock it is of, and its pass: its number and the history that it has seen.
#[derive(Drop)]
pub struct Seat<M: Machine> {
    pub(crate) token: atomic_table::Seat<Option<Held<M>>, View<M::Event, M::Reply, M::State>>,
    pub(crate) number: List<u64>,
    pub(crate) children: u64,
}

impl<M: Machine> Model for Seat<M> {
    ghost use Rattle.std.specs.Prelude.{◌≡◌};
    ghost use Rattle.policy_lock.specs.Seat.{SeatOf};
    ghost use Rattle.policy_lock.specs.View.{IsAtRest};

    ghost Value = { SeatOf M.Event M.Reply M.State };

    ghost view = { λ seat. record { lock = seat.token.table_id; pass = seat.token.me.0.pass } };

    ghost invariant = { λ seat. IsAtRest seat.token.me × (seat.token.me.0.pass.number ≡ seat.number)
        × (seat.token.me.0.pass.children ≡ seat.children) };
}

/// What a post answers.
#[derive(Drop)]
pub struct Receipt<R: Drop> {
    /// The entry's place in the history, from 1. For an idle event, which is no entry, how many
    /// entries there were.
    pub place: u64,
    pub reply: R,
}
