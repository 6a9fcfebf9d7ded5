//! A switch reports the removal of an entry, a change of a port, or that a barrier is passed.
ghost use Rattle.std.specs.Prelude.{◌≡◌, ◌<◌, IfOk, None, OnOk, Some, length, slice_get};
ghost use Rattle.switch_meaning.specs.Counts.{Numbers};
ghost use Rattle.switch_state.specs.Reports.{answered_number, barrier_reply as barrier_reply_of};
ghost use Rattle.switch_state.specs.Reports.{flow_removed as flow_removed_of, port_status as port_status_of};
ghost use Rattle.switch_state.specs.Reports.{removal as removal_of};
ghost use Rattle.machine_meaning.specs.Barriers.{barrier_replied as barrier_replied_of, with_known};
ghost use Rattle.event_acts.specs.CookieCounts.{HasLast};
ghost use Rattle.machine_meaning.specs.Lists.{changed_at};
ghost use Rattle.machine_drafts.specs.Outcomes.{bases, draft_in, standing_in, switch_bases, switches_in};
ghost use Rattle.machine_meaning.specs.Removals.{port_reported as port_reported_of, with_removal};
ghost use Rattle.machine_meaning.specs.Removals.{removal_reported as removal_reported_of};
ghost use Rattle.machine_meaning.specs.States.{SwitchOf};

use crate::rounds::end_switch;
use cv_io::Memory;
use machine_drafts::outcome::Outcome;
use machine_drafts::switch_draft::SwitchDraft;
use of10_msgs::PhyPort;
use script_text::DownCause;
use std::alloc::Global;
use switch_state::Removal;

/// The switch of a number answers a barrier. Its number in the round, if one of that xid waits.
fn answer_barrier(switches: &mut [SwitchDraft<'_>], n: u32, xid: u32) -> Result<Option<u64>, Memory>
    requires { n < length switches.old }
    ensures number { IfOk result (λ number. (x : SwitchOf)
        → slice_get (switches_in switches.old) n ≡ Some x → number ≡ answered_number xid x.known) }
    ensures known { OnOk result (switches_in switches.new
        ≡ changed_at n (with_known (barrier_reply_of xid)) (switches_in switches.old)) }
    ensures none { IfOk result (λ number. number ≡ None → switches_in switches.new ≡ switches_in switches.old) }
    ensures standing { OnOk result (standing_in switches.new ≡ standing_in switches.old) }
    ensures bases { OnOk result (switch_bases switches.new ≡ switch_bases switches.old) }
{
    let place = n as usize;
    let number = switches[place].barrier_reply(xid)?;
    Ok(number)
}

/// The removal of a cookie is noted at the switch of a number.
fn note_removal(switches: &mut [SwitchDraft<'_>], n: u32, cookie: u64) -> Result<(), Memory>
    requires { n < length switches.old }
    ensures known { OnOk result (switches_in switches.new
        ≡ changed_at n (with_known (flow_removed_of cookie)) (switches_in switches.old)) }
    ensures standing { OnOk result (standing_in switches.new ≡ standing_in switches.old) }
    ensures bases { OnOk result (switch_bases switches.new ≡ switch_bases switches.old) }
{
    let place = n as usize;
    switches[place].flow_removed(cookie)?;
    Ok(())
}

/// The state of a port is noted at the switch of a number.
fn note_port(
    switches: &mut [SwitchDraft<'_>],
    n: u32,
    reason: u8,
    port: &PhyPort,
) -> Result<(), Memory>
    requires { n < length switches.old }
    ensures known { OnOk result (switches_in switches.new
        ≡ changed_at n (with_known (port_status_of reason port.now)) (switches_in switches.old)) }
    ensures standing { OnOk result (standing_in switches.new ≡ standing_in switches.old) }
    ensures bases { OnOk result (switch_bases switches.new ≡ switch_bases switches.old) }
{
    let place = n as usize;
    switches[place].port_status(reason, port)?;
    Ok(())
}

/// What a removal of this cookie is at the switch of a number.
fn removal_at(switches: &[SwitchDraft<'_>], n: u32, cookie: u64) -> Removal
    requires { n < length switches.now }
    ensures { (x : SwitchOf) → slice_get (switches_in switches.now) n ≡ Some x → result ≡ removal_of x.known cookie }
{
    switches[n as usize].known().removal(cookie)
}

/// A BARRIER_REPLY of a switch answers the oldest barrier of its xid; without one it is ignored.
pub fn barrier_replied(draft: &mut Outcome<'_>, n: u32, xid: u32) -> Result<(), Memory>
    requires { n < length draft.old.switches }
    ensures drafted { OnOk result ((x : SwitchOf) → slice_get (switches_in draft.old.switches) n ≡ Some x
        → draft_in draft.new ≡ barrier_replied_of n x xid (draft_in draft.old)) }
    ensures bases { OnOk result (bases draft.new ≡ bases draft.old) }
{
    let number = answer_barrier(draft.switches.as_mut_slice(), n, xid)?;
    match number {
        Some(number) => draft.waiting.barrier_passed(n, number),
        None => Ok(()),
    }
}

/// A removal that is taken ends what is counted of its cookie.
fn take_removal(draft: &mut Outcome<'_>, n: u32, cookie: u64) -> Result<(), Memory>
    requires { n < length draft.old.switches }
    ensures drafted { OnOk result ((numbers : Numbers) → HasLast n cookie numbers (draft_in draft.old).state.counts
        → draft_in draft.new
        ≡ record (draft_in draft.old) { state = with_removal n cookie numbers (draft_in draft.old).state }) }
    ensures bases { OnOk result (bases draft.new ≡ bases draft.old) }
{
    note_removal(draft.switches.as_mut_slice(), n, cookie)?;
    draft.counts.end(n, cookie)?;
    Ok(())
}

/// A FLOW_REMOVED of a switch: one that is taken ends what is counted of its cookie, and one of a cookie that wasn't
/// deleted ends the round. Its numbers are those that the cookie has.
pub fn removal_reported(
    alloc: Global,
    draft: &mut Outcome<'_>,
    n: u32,
    cookie: u64,
) -> Result<(), Memory>
    requires { n < length draft.old.switches }
    ensures drafted { OnOk result ((x : SwitchOf) (numbers : Numbers)
        → slice_get (switches_in draft.old.switches) n ≡ Some x
        → (removal_of x.known cookie ≡ Removal.Taken → HasLast n cookie numbers (draft_in draft.old).state.counts)
        → draft_in draft.new ≡ removal_reported_of n x cookie numbers (draft_in draft.old)) }
    ensures bases { OnOk result (bases draft.new ≡ bases draft.old) }
{
    match removal_at(draft.switches.as_slice(), n, cookie) {
        Removal::Ignored => Ok(()),
        Removal::Taken => take_removal(draft, n, cookie),
        Removal::Strange => end_switch(alloc, draft, n, DownCause::Removal),
    }
}

/// A PORT_STATUS of a switch.
pub fn port_reported(
    draft: &mut Outcome<'_>,
    n: u32,
    reason: u8,
    port: &PhyPort,
) -> Result<(), Memory>
    requires { n < length draft.old.switches }
    ensures drafted { OnOk result (draft_in draft.new ≡ port_reported_of n reason port.now (draft_in draft.old)) }
    ensures bases { OnOk result (bases draft.new ≡ bases draft.old) }
{
    note_port(draft.switches.as_mut_slice(), n, reason, port)?;
    Ok(())
}
