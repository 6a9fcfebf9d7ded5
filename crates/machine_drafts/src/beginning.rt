//! The draft of an event begins with the state as it stands.
ghost use Rattle.std.specs.Prelude.{◌≡◌, IfOk, map};
ghost use Rattle.machine_meaning.specs.Drafts.{untouched};
ghost use Rattle.machine_drafts.specs.Machines.{at_moment, bases_of, state_in_held};
ghost use Rattle.machine_drafts.specs.MemberDrafts.{standing_member};
ghost use Rattle.machine_drafts.specs.Outcomes.{bases, draft_in};
ghost use Rattle.machine_drafts.specs.SwitchDrafts.{standing_switch};

use crate::exprs_draft::Exprs;
use crate::held::Held;
use crate::member_draft::MemberDraft;
use crate::outcome::Outcome;
use crate::owing::Owing;
use crate::session::{Member, Switch};
use crate::switch_draft::SwitchDraft;
use cv_io::{List, Memory};
use events::Reply;
use stats_map::Pending;
use std::alloc::Global;
use waitings::Waitings;

/// Members stay as they are.
fn stay_members<'a>(
    alloc: Global,
    members: &'a [Member],
    now: u64,
) -> Result<List<MemberDraft<'a>>, Memory>
    ensures { IfOk result (λ drafts. drafts ≡ map (standing_member now) members.now) }
{
    let mut drafts = List::new(alloc);
    for member in members {
        drafts.push(MemberDraft::stay(alloc, member, now))?;
    }
    Ok(drafts)
}

/// Switches stay as they are.
fn stay_switches<'a>(alloc: Global, switches: &'a [Switch]) -> Result<List<SwitchDraft<'a>>, Memory>
    ensures { IfOk result (λ drafts. drafts ≡ map standing_switch switches.now) }
{
    let mut drafts = List::new(alloc);
    for switch in switches {
        drafts.push(SwitchDraft::stay(switch))?;
    }
    Ok(drafts)
}

/// An event at a moment has changed nothing yet, and said nothing.
pub fn begin_outcome<'a>(alloc: Global, held: &'a Held, now: u64) -> Result<Outcome<'a>, Memory>
    ensures draft { IfOk result (λ o. draft_in o ≡ untouched (at_moment now (state_in_held held.now))) }
    ensures bases { IfOk result (λ o. bases o ≡ bases_of now held.now) }
{
    let exprs = Exprs::stay(alloc, &held.exprs);
    let members = stay_members(alloc, held.members.as_slice(), now)?;
    let switches = stay_switches(alloc, held.switches.as_slice())?;
    let counts = Pending::of(&held.counts);
    let waiting = Waitings::stay(alloc, &held.waiting);
    let owed = Owing::stay(&held.owed);
    Ok(Outcome {
        moment: now,
        exprs,
        members,
        switches,
        counts,
        waiting,
        owed,
        next_cookie: held.next_cookie,
        audit: &held.audit,
        reply: Reply::Done,
        begun: None,
        asked: List::new(alloc),
        sent: List::new(alloc),
        answers: List::new(alloc),
        ports: List::new(alloc),
        settled: List::new(alloc),
        removed: List::new(alloc),
        told: List::new(alloc),
        batches: List::new(alloc),
        polls: List::new(alloc),
        packets: List::new(alloc),
        echoes: List::new(alloc),
        policies: List::new(alloc),
        denials: List::new(alloc),
        downs: List::new(alloc),
        slows: List::new(alloc),
        notes: List::new(alloc),
    })
}
