//! A poll begins: the switches of a virtual switch that are up are asked for their numbers.
ghost use Rattle.std.specs.Prelude.{◌≡◌, ◌<◌, OnOk, length};
ghost use Rattle.machine_drafts.specs.Outcomes.{bases, draft_in};
ghost use Rattle.machine_meaning.specs.Polls.{begin_poll as begin_poll_of, begin_waiting as begin_waiting_of};

use crate::looking::unwritten_parts;
use crate::outcome::Outcome;
use crate::setup::Setup;
use cv_io::Memory;
use machine_meaning::Asked;
use waitings::{Parts, Purpose, Waiting};

/// These parts are waited for, for a purpose.
pub fn begin_waiting(
    draft: &mut Outcome<'_>,
    v: u32,
    parts: Parts,
    purpose: Purpose,
) -> Result<(), Memory>
    ensures drafted { OnOk result (draft_in draft.new ≡ begin_waiting_of v parts purpose (draft_in draft.old)) }
    ensures bases { OnOk result (bases draft.new ≡ bases draft.old) }
{
    draft.waiting.begin(Waiting { v, parts, purpose })
}

/// The poll of a virtual switch begins, for a purpose.
pub fn begin_poll(
    setup: &Setup,
    draft: &mut Outcome<'_>,
    v: u32,
    purpose: Purpose,
) -> Result<(), Memory>
    requires { v < length setup.now.virtuals }
    ensures drafted { OnOk result (draft_in draft.new ≡ begin_poll_of setup.now v purpose (draft_in draft.old)) }
    ensures bases { OnOk result (bases draft.new ≡ bases draft.old) }
{
    let ports = purpose.is_of_ports();
    let parts = unwritten_parts(
        setup.alloc(),
        draft.switches.as_slice(),
        setup.switches_of(v),
    )?;
    begin_waiting(draft, v, parts, purpose)?;
    draft.asked.push(Asked { v, ports })
}
