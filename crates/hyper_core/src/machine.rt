//! The machine as the lock has it: one that many post events to.
ghost use Rattle.std.specs.Prelude.{◌≡◌, true};
ghost use Rattle.event_composes.specs.Meanings.{MeaningsAreStates, NextIsStep, data_in, idle_stays, is_idle, next_data};
ghost use Rattle.event_composes.specs.Meanings.{reply_to};
ghost use Rattle.event_composes.specs.Costs.{StillTakesNone, cost_in, most_in};

use crate::hyper::Hyper;
use cv_io::{Duplicate, Memory, Steps};
use events::{Event, Reply};
use policy_lock::{Machine, Marks};
use std::marker::{Model, PhantomData};
use std::sync::ledger::Ledger;
use std::thread::Threads;

/// What a machine means: its policy and its state, as plain data. It is a type for contracts.
#[derive(Drop)]
pub struct Meaning {
    nothing: PhantomData<()>,
}

impl Model for Meaning {
    ghost use Rattle.event_composes.specs.Meanings.{StateData, lefts_code, no_data};

    ghost Value = { StateData };

    ghost use Rattle.std.specs.Coded.{codes};
    ghost use Rattle.policy_expr.specs.Stored.{policy_code};

    ghost coded = { Prim.hlevel (codes, policy_code, lefts_code) };

    ghost view = { λ _. no_data };
}

impl Machine for Hyper {
    type Event = Event;

    type Reply = Reply;

    type State = Meaning;

    ghost meaning = { data_in };

    ghost next = { next_data };

    ghost reply = { reply_to };

    ghost idle = { is_idle };

    // Its composed part is kept.
    ghost ready = { λ m. m.compiled ≡ true };

    ghost cost = { cost_in };

    ghost most = { most_in };

    fn step<R: Threads + Sync, G: Ledger>(
        &mut self,
        rt: &R,
        event: &Event,
        steps: &mut Steps<G>,
    ) -> Result<Reply, Memory> {
        Hyper::step(self, rt, event, steps)
    }

    fn glance(&self, event: &Event) -> Option<Reply> {
        Hyper::glance(self, event)
    }

    fn holds(&self, event: &Event, turns: u32) -> bool {
        Hyper::holds(self, event, turns)
    }

    fn marks(&self) -> Marks {
        Hyper::marks(self)
    }

    fn copy(&self) -> Result<Hyper, Memory> {
        Hyper::copy(self)
    }

    fn copy_event(event: &Event) -> Result<Event, Memory> {
        event.copy()
    }

    ghost idle_stays = { idle_stays };
}

/// What a machine means is its policy and its state.
pub fn meanings_are_states()
    ensures { MeaningsAreStates }
{}

/// Whatever a machine means, the reply to an event and the next meaning are those of the step.
pub fn next_is_step()
    ensures { NextIsStep }
{}

/// An event that changes no member's table, replaces no expression and closes no session as slow takes no step where
/// the composed part is kept.
pub fn still_events_take_none()
    ensures { StillTakesNone }
{}
