//! The machine as it opens, with its composed part.
ghost use Rattle.std.specs.Prelude.{◌≡◌, IfOk, Some};
ghost use Rattle.event_composes.specs.Kept.{IsKept};
ghost use Rattle.event_composes.specs.Settled.{IsSettledState};
ghost use Rattle.machine_drafts.specs.Machines.{HasAll, state_in_held};
ghost use Rattle.machine_meaning.specs.States.{opening};

use crate::starting::open as open_held;
use composed_tables::Composed;
use cv_io::Memory;
use event_composes::keeping::build_first;
use machine_drafts::held::Held;
use machine_drafts::setup::Setup;
use std::marker::Brand;
use std::sync::ledger::Blank;
use std::thread::Threads;

/// What a machine holds as it opens, and the composed part of that.
#[derive(Drop)]
pub(crate) struct Opened {
    pub(crate) held: Held,
    pub(crate) composed: Composed,
}

/// Opens a machine. The steps of composition belong to no event.
pub(crate) fn open<R: Threads + Sync>(rt: &R, setup: &Setup) -> Result<Opened, Memory>
    ensures opening { IfOk result (λ opened. state_in_held opened.held ≡ opening setup.now) }
    ensures all { IfOk result (λ opened. HasAll setup.now opened.held) }
    ensures settled { IfOk result (λ opened. IsSettledState setup.now (state_in_held opened.held)) }
    ensures kept { IfOk result (λ opened.
        IsKept setup.now (state_in_held opened.held) (Some opened.composed)) }
{
    let held = open_held(setup)?;
    match build_first::<R, Brand>(rt, setup, &held, Blank::new(1)) {
        Ok(composed) => Ok(Opened { held, composed }),
        Err(memory) => {
            drop(held);
            Err(memory)
        }
    }
}
