//! The rule of the lock's table, and its steps.
ghost use Rattle.policy_lock.specs.Rule.{Kept};
ghost use Rattle.policy_lock.specs.View.{first_view, born, bearer, note, told, gathered, spent};
ghost use Rattle.policy_lock.specs.Play.{Takes, Commits, GivesBack, Looks, Hears};

use crate::held::Held;
use crate::machine::Machine;
use crate::view::View;
use atomic_table::{Join, Play, Split, TableRule};
use std::marker::PhantomData;
use std::snapshot::Snapshot;

/// The rule. The key of a table is the machine that the lock was opened over.
pub struct Law<M> {
    machine: PhantomData<M>,
}

impl<M: Machine> TableRule<Option<Held<M>>, View<M::Event, M::Reply, M::State>, Snapshot<M>>
    for Law<M> {
    ghost holds = { λ key. Kept ⟦<M as Machine>⟧ (M.meaning key.value) };

    ghost first = { λ key. first_view (M.meaning key.value) };
}

/// The word goes from 2n to 2n + 1, and the taker holds.
pub struct Take;

impl<M: Machine> Play<Option<Held<M>>, View<M::Event, M::Reply, M::State>> for Take {
    ghost then = { Takes ⟦<M as Machine>⟧ };
}

/// From 2n + 1 to 2n + 2: the holder's event is the entry n + 1.
pub struct Commit;

impl<M: Machine> Play<Option<Held<M>>, View<M::Event, M::Reply, M::State>> for Commit {
    ghost then = { Commits ⟦<M as Machine>⟧ };
}

/// From 2n + 1 to 2n, with no new entry.
pub struct GiveBack;

impl<M: Machine> Play<Option<Held<M>>, View<M::Event, M::Reply, M::State>> for GiveBack {
    ghost then = { GivesBack ⟦<M as Machine>⟧ };
}

/// A look at the word.
pub struct Look;

impl<M: Machine> Play<Option<Held<M>>, View<M::Event, M::Reply, M::State>> for Look {
    ghost then = { Looks ⟦<M as Machine>⟧ };
}

/// A look at the word, at which the seat takes in what a note told it.
pub struct Hear;

impl<M: Machine> Play<Option<Held<M>>, View<M::Event, M::Reply, M::State>> for Hear {
    ghost then = { Hears ⟦<M as Machine>⟧ };
}

/// A new seat is split off.
pub struct Born;

impl<E, R, S> Split<View<E, R, S>> for Born {
    ghost left = { bearer };

    ghost right = { born };
}

/// A note of what the seat has seen is split off, and handed to another seat.
pub struct Note;

impl<E, R, S> Split<View<E, R, S>> for Note {
    ghost left = { λ v. v };

    ghost right = { note };
}

impl<E, R, S> Join<View<E, R, S>> for Note {
    ghost both = { told };

    ghost spent = { spent };
}

/// A seat is gathered, to close the lock.
pub struct Gather;

impl<E, R, S> Join<View<E, R, S>> for Gather {
    ghost both = { gathered };

    ghost spent = { spent };
}
