//! The locked value as it is handed from seat to seat.
ghost use Rattle.std.specs.Prelude.{◌≡◌, ◌<◌, ◌+◌, ◌^◌, [], length, OnOk, IfOk};
ghost use Rattle.policy_lock.specs.Locked.{Stands, SameCheckpoint, NewCheckpoint, Costs, IsApplied, IsStoredAfter};

use crate::after::After;
use crate::locked::{Applied, Locked, Past};
use crate::machine::Machine;
use crate::marks::Marks;
use cv_io::{Memory, Steps};
use std::alloc::Global;
use std::sync::ledger::Ledger;
use std::thread::Threads;

/// The locked value, on the heap: who takes it moves a pointer.
#[derive(Drop)]
pub struct Held<M: Machine> {
    pub boxed: Box<Locked<M>, Global>,
}

impl<M: Machine> Held<M> {
    /// The machine, before any history.
    pub fn new(alloc: Global, machine: M) -> Result<Held<M>, Memory>
        ensures { IfOk result (λ held. Stands ⟦<M as Machine>⟧ (M.meaning machine) held.boxed.value []) }
    {
        Ok(Held {
            boxed: Box::new(alloc, Locked::new(alloc, machine)?)?,
        })
    }

    pub fn into_inner(self) -> Locked<M>
        ensures { result ≡ self.boxed.value }
    {
        let Held { boxed } = self;
        Box::into_inner(boxed)
    }

    /// As [`Locked::apply`].
    pub fn apply<R: Threads + Sync, G: Ledger>(
        &mut self,
        rt: &R,
        event: M::Event,
        steps: &mut Steps<G>,
        past: &mut Option<Past<M>>,
    ) -> Result<Applied<M::Reply>, Memory>
        requires { self.old.boxed.value.before + 16384 < 2 ^ 64 }
        ensures cost { Costs ⟦<M as Machine>⟧ self.old.boxed.value event steps.old steps.new }
        ensures applied { IsApplied ⟦<M as Machine>⟧ self.old.boxed.value event self.new.boxed.value result }
    {
        self.boxed.apply(rt, event, steps, past)
    }

    /// As [`Machine::holds`].
    pub fn holds(&self, event: &M::Event, turns: u32) -> bool {
        self.boxed.machine.holds(event, turns)
    }

    /// As [`Machine::marks`].
    pub fn marks(&self) -> Marks {
        self.boxed.machine.marks()
    }

    /// As [`Locked::after`].
    pub fn after(&self, place: u64) -> Result<After<M::Event>, Memory>
        ensures { IfOk result (λ after. IsStoredAfter ⟦<M as Machine>⟧ self.now.boxed.value place after) }
    {
        self.boxed.after(place)
    }
}
