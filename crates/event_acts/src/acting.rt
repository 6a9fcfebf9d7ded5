//! What an event itself does.
ghost use Rattle.std.specs.Prelude.{◌≡◌, ◌<◌, ◌^◌, IfOk, OnOk, length};
ghost use Rattle.of10_frames.specs.Frames.{IsFrame};
ghost use Rattle.machine_meaning.specs.Acting.{act_on, sends};
ghost use Rattle.machine_meaning.specs.MemberMessages.{hears_member as hears_member_of};
ghost use Rattle.event_acts.specs.Acts.{IsJudgedFor, WasJudgedAt, WasJudgedFor, WasJudgedFrom};
ghost use Rattle.event_acts.specs.Heard.{IsHeard};
ghost use Rattle.machine_drafts.specs.InsideRequests.{AreSendable};
ghost use Rattle.machine_drafts.specs.InsideTicking.{AreFresh};
ghost use Rattle.machine_drafts.specs.Machines.{state_in_held};
ghost use Rattle.machine_drafts.specs.Moments.{IsOfEvent};
ghost use Rattle.machine_drafts.specs.Outcomes.{AreTimely, bases, draft_in};
ghost use Rattle.event_acts.specs.Overtaking.{AreTakenOver, IsHeardOf, IsWhole, sent_heard};

use crate::coming::{comes_up, goes};
use crate::heard::Heard;
use crate::judging::Judged;
use crate::judging_members::judge_member;
use crate::member_messages::hears_member;
use crate::replacing::replace;
use crate::switch_messages::hears_switch;
use crate::ticking::tick;
use cv_io::{Memory, Who};
use events::Event;
use machine_drafts::held::Held;
use machine_drafts::outcome::Outcome;
use machine_drafts::setup::Setup;

/// Judges the frame of an event, if a member sent one. It takes all memory that a change of the member's table needs,
/// and changes nothing.
pub fn judge_event(setup: &Setup, held: &mut Held, event: &Event) -> Result<Option<Judged>, Memory>
    requires { IsWhole event.now }
    ensures judged { IfOk result (IsJudgedFor setup.now held.new event.now) }
    ensures state { state_in_held held.new ≡ state_in_held held.old }
{
    let Event::Msg { session, frame } = event else {
        return Ok(None);
    };
    let Who::Member(n) = session.who else {
        return Ok(None);
    };
    let now = held.moment;
    judge_member(setup, held.members.as_mut_slice(), n, frame.as_slice(), now)
}

/// A frame of the member of a number, as it was judged. Nothing comes of a frame of nobody.
fn hears_judged(
    setup: &Setup,
    draft: &mut Outcome<'_>,
    n: u32,
    frame: &[u8],
    judged: Option<Judged>,
) -> Result<(), Memory>
    requires frame { IsFrame frame.now }
    requires judged { WasJudgedAt setup.now draft.old n frame.now judged }
    ensures drafted { OnOk result (draft_in draft.new ≡ hears_member_of setup.now n frame.now (draft_in draft.old)) }
    ensures bases { OnOk result (bases draft.new ≡ bases draft.old) }
    ensures sendable { AreSendable draft.old.sent → OnOk result (AreSendable draft.new.sent) }
{
    match judged {
        Some(judged) => hears_member(setup, draft, n, frame, judged),
        None => Ok(()),
    }
}

/// A session sends a frame: a member's was judged, and a switch's was heard.
fn hears(
    setup: &Setup,
    draft: &mut Outcome<'_>,
    who: Who,
    frame: &[u8],
    judged: Option<Judged>,
    heard: &Heard,
) -> Result<(), Memory>
    requires frame { IsFrame frame.now }
    requires judged { WasJudgedFrom setup.now draft.old who frame.now judged }
    requires tells { heard.now ≡ sent_heard who frame.now }
    requires fits { IsHeard heard.now }
    requires last { AreTakenOver who heard.now (draft_in draft.old).state }
    ensures drafted { OnOk result (draft_in draft.new ≡ sends setup.now who frame.now (draft_in draft.old)) }
    ensures bases { OnOk result (bases draft.new ≡ bases draft.old) }
    ensures sendable { AreSendable draft.old.sent → OnOk result (AreSendable draft.new.sent) }
{
    match who {
        Who::Member(n) => hears_judged(setup, draft, n, frame, judged),
        Who::Switch(n) => {
            drop(judged);
            hears_switch(setup, draft, n, heard)
        }
        Who::Audit => {
            drop(judged);
            Ok(())
        }
    }
}

/// What an event does; a taking only takes. The draft has just begun, at the moment of the event.
pub fn act(
    setup: &Setup,
    draft: &mut Outcome<'_>,
    event: &Event,
    judged: Option<Judged>,
    heard: &Heard,
) -> Result<(), Memory>
    requires few { length draft.old.members < 2 ^ 32 }
    requires fresh { AreFresh draft.old.members }
    requires timely { AreTimely (bases draft.old) }
    requires moment { IsOfEvent event.now (bases draft.old) }
    requires whole { IsWhole event.now }
    requires judged { WasJudgedFor setup.now draft.old event.now judged }
    requires heard { IsHeardOf event.now heard.now (draft_in draft.old).state }
    ensures drafted { OnOk result (draft_in draft.new ≡ act_on setup.now event.now (draft_in draft.old)) }
    ensures bases { OnOk result (bases draft.new ≡ bases draft.old) }
    ensures sendable { AreSendable draft.old.sent → OnOk result (AreSendable draft.new.sent) }
{
    match event {
        Event::Up { who, arp } => {
            drop(judged);
            comes_up(setup, draft, *who, *arp)
        }
        Event::Msg { session, frame } => {
            hears(setup, draft, session.who, frame.as_slice(), judged, heard)
        }
        Event::Gone { session } => {
            drop(judged);
            goes(setup, draft, session.who)
        }
        Event::Tick { .. } => {
            drop(judged);
            tick(setup, draft)
        }
        Event::Take { .. } => {
            drop(judged);
            Ok(())
        }
        Event::Policy { v, text } => {
            drop(judged);
            replace(setup, draft, *v, text)
        }
    }
}
