//! What changed since an event began is told, and requests and packets are sent.
ghost use Rattle.std.specs.Prelude.{◌≡◌, ◌<◌, ◌^◌, OnOk, length};
ghost use Rattle.machine_drafts.specs.InsideRequests.{AreSendable};
ghost use Rattle.machine_drafts.specs.Outcomes.{IsBefore, bases, draft_in};
ghost use Rattle.machine_meaning.specs.States.{State};
ghost use Rattle.machine_meaning.specs.Telling.{tell as tell_of};

use crate::forgetting::forget;
use crate::requests::request_all;
use crate::telling_ports::tell_ports;
use crate::telling_removals::tell_removals;
use cv_io::Memory;
use machine_drafts::outcome::Outcome;
use machine_drafts::setup::Setup;

/// Requests and packets are sent, members are told of ports and of removed entries, and what matters no more is
/// forgotten.
pub fn tell(setup: &Setup, draft: &mut Outcome<'_>) -> Result<(), Memory>
    requires few { length draft.old.members < 2 ^ 32 }
    requires sendable { AreSendable draft.old.sent }
    ensures drafted { OnOk result ((before : State) → IsBefore (bases draft.old) before
        → draft_in draft.new ≡ tell_of setup.now before (draft_in draft.old)) }
    ensures bases { OnOk result (bases draft.new ≡ bases draft.old) }
{
    request_all(setup, draft)?;
    tell_ports(setup, draft)?;
    tell_removals(setup.alloc(), draft)?;
    forget(draft)?;
    Ok(())
}
