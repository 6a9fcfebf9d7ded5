//! The machine.
ghost use Rattle.std.specs.Prelude.{◌==◌};
ghost use Rattle.counting_machine.specs.Count.{counted, zero_stays};

use cv_io::{Memory, Steps};
use policy_lock::Machine;
use std::sync::ledger::Ledger;
use std::thread::Threads;

/// Adds up the numbers that it is told, modulo 2^64, and answers each with the sum so far. A 0 is
/// idle. Each number is one step.
#[derive(Drop)]
pub struct Counter {
    pub sum: u64,
}

impl Machine for Counter {
    type Event = u64;

    type Reply = u64;

    type State = u64;

    ghost meaning = { λ counter. counter.sum };

    ghost next = { counted };

    ghost reply = { counted };

    ghost idle = { λ sum number. number == 0 };

    ghost ready = { λ _. Unit {0} };

    ghost cost = { λ _ _. 1 };

    ghost most = { λ _ _. 1 };

    fn step<R: Threads + Sync, G: Ledger>(
        &mut self,
        rt: &R,
        event: &u64,
        steps: &mut Steps<G>,
    ) -> Result<u64, Memory> {
        steps.tick();
        self.sum = self.sum.wrapping_add(*event);
        Ok(self.sum)
    }

    fn glance(&self, event: &u64) -> Option<u64> {
        (*event == 0).then_some(self.sum)
    }

    fn copy(&self) -> Result<Counter, Memory> {
        Ok(Counter { sum: self.sum })
    }

    fn copy_event(event: &u64) -> Result<u64, Memory> {
        Ok(*event)
    }

    ghost idle_stays = { zero_stays };
}
