//! What a post does to the locked value.
ghost use Rattle.std.specs.Prelude.{◌≡◌, ◌<◌, ◌+◌, ◌^◌, [], length, OnOk, IfOk, OnErr};
ghost use Rattle.policy_lock.specs.Locked.{Stands, StandsAs, SameCheckpoint, NewCheckpoint, Costs, IsApplied};

use crate::locked::{Applied, Locked, Past};
use crate::machine::Machine;
use cv_io::{Memory, Steps};
use std::alloc::Global;
use std::marker::PhantomData;
use std::mem::replace;
use std::sync::ledger::Ledger;
use std::thread::Threads;

// The most events that are stored.
const STORED: usize = 16_384;

impl<M: Machine> Locked<M> {
    /// The machine, before any history.
    pub fn new(alloc: Global, machine: M) -> Result<Locked<M>, Memory>
        ensures { IfOk result (λ locked. Stands ⟦<M as Machine>⟧ (M.meaning machine) locked []) }
    {
        let checkpoint = machine.copy()?;
        Ok(Locked {
            machine,
            checkpoint,
            before: 0,
            events: Vec::new(alloc),
            state: PhantomData,
        })
    }

    // Where as many events are stored as may be, a copy of the machine becomes the checkpoint, and what it takes the
    // place of is handed out.
    fn make_room(&mut self, past: &mut Option<Past<M>>) -> Result<(), Memory>
        requires { self.old.before + 16384 < 2 ^ 64 }
        ensures same { StandsAs ⟦<M as Machine>⟧ self.old self.new }
        ensures room { OnOk result (length self.new.events.items < 16384) }
        ensures keeps { length self.old.events.items < 16384 → self.new ≡ self.old }
        ensures moves { length self.old.events.items ≡ 16384 →
            OnOk result (NewCheckpoint ⟦<M as Machine>⟧ self.old self.new) }
        ensures memory { OnErr result (self.new ≡ self.old) }
    {
        if self.events.len() < STORED {
            return Ok(());
        }
        let copied = self.machine.copy()?;
        *past = Some(self.start_anew(copied));
        Ok(())
    }

    // A copy of the machine becomes the checkpoint. What it takes the place of is handed out.
    fn start_anew(&mut self, copied: M) -> Past<M>
        requires few { self.old.before + 16384 < 2 ^ 64 }
        requires full { length self.old.events.items ≡ 16384 }
        requires same { M.meaning copied ≡ M.meaning self.old.machine }
        ensures same { StandsAs ⟦<M as Machine>⟧ self.old self.new }
        ensures room { self.new.events.items ≡ [] }
        ensures moves { NewCheckpoint ⟦<M as Machine>⟧ self.old self.new }
    {
        let alloc = *self.events.allocator();
        let checkpoint = replace(&mut self.checkpoint, copied);
        let events = replace(&mut self.events, Vec::new(alloc));
        self.before += STORED as u64;
        Past { checkpoint, events }
    }

    /// Shows the event to the machine, which takes it unless it is idle. A checkpoint is made only
    /// where 16,384 events are stored, and there always where memory is not wanting; `past` is then
    /// what it took the place of.
    pub fn apply<R: Threads + Sync, G: Ledger>(
        &mut self,
        rt: &R,
        event: M::Event,
        steps: &mut Steps<G>,
        past: &mut Option<Past<M>>,
    ) -> Result<Applied<M::Reply>, Memory>
        requires { self.old.before + 16384 < 2 ^ 64 }
        ensures cost { Costs ⟦<M as Machine>⟧ self.old event steps.old steps.new }
        ensures applied { IsApplied ⟦<M as Machine>⟧ self.old event self.new result }
        ensures keeps { length self.old.events.items < 16384 →
            SameCheckpoint ⟦<M as Machine>⟧ self.old self.new }
        ensures moves { length self.old.events.items ≡ 16384 →
            OnOk result (NewCheckpoint ⟦<M as Machine>⟧ self.old self.new) }
    {
        self.make_room(past)?;
        if let Some(reply) = self.machine.glance(&event) {
            return Ok(Applied::Idle(reply));
        }
        self.events.reserve(1)?;
        let reply = self.machine.step(rt, &event, steps)?;
        self.events.push_reserved(event);
        Ok(Applied::Done(reply))
    }
}
