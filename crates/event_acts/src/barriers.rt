//! A member's barrier waits for those of switches.
ghost use Rattle.std.specs.Prelude.{◌≡◌, ◌<◌, OnOk, length};
ghost use Rattle.machine_meaning.specs.Barriers.{barrier_asked as barrier_asked_of};
ghost use Rattle.machine_drafts.specs.Outcomes.{bases, draft_in};

use cv_io::Memory;
use machine_drafts::answering::answer;
use machine_drafts::looking::unanswered_parts;
use machine_drafts::outcome::Outcome;
use machine_drafts::polls::begin_waiting;
use machine_drafts::setup::Setup;
use member_replies::barrier_reply;
use waitings::{Asker, Purpose};

/// A BARRIER_REQUEST of the member of a number at a virtual switch: it waits for the barriers that the switches of the
/// virtual switch haven't answered, or is answered at once.
pub fn barrier_asked(
    setup: &Setup,
    draft: &mut Outcome<'_>,
    n: u32,
    v: u32,
    xid: u32,
) -> Result<(), Memory>
    requires { v < length setup.now.virtuals }
    ensures drafted { OnOk result (draft_in draft.new ≡ barrier_asked_of setup.now n v xid (draft_in draft.old)) }
    ensures bases { OnOk result (bases draft.new ≡ bases draft.old) }
{
    let alloc = setup.alloc();
    let parts = unanswered_parts(alloc, draft.switches.as_slice(), setup.switches_of(v))?;
    if parts.is_empty() {
        return answer(draft, n, barrier_reply(alloc, xid)?);
    }
    let asker = Asker { member: n, xid };
    begin_waiting(draft, v, parts, Purpose::Barrier { asker })
}
