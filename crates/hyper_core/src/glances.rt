//! Events that change nothing are answered at once.
ghost use Rattle.std.specs.Prelude.{◌≡◌, map, option_map, slice_get};
ghost use Rattle.std.specs.Option.{option_copied};
ghost use Rattle.outbox.specs.Outboxes.{OutboxOf};
ghost use Rattle.machine_meaning.specs.Glances.{closed_unless as closed_unless_of, glance_of, is_frame as is_frame_of};
ghost use Rattle.machine_meaning.specs.Glances.{is_present as is_present_of, unless_taken as unless_taken_of};
ghost use Rattle.machine_drafts.specs.Machines.{state_in_held};
ghost use Rattle.machine_meaning.specs.Replacing.{is_expression_for as is_expression_for_of};
ghost use Rattle.machine_meaning.specs.Sessions.{outbox_of};
ghost use Rattle.machine_meaning.specs.States.{MemberOf, SwitchOf};
ghost use Rattle.machine_meaning.specs.Takings.{takes as takes_of};
ghost use Rattle.machine_drafts.specs.Views.{member_of, switch_of};

use crate::takings::reply_of;
use cv_io::{Bytes, Session, Text, Who};
use events::{Event, Reply};
use machine_drafts::held::Held;
use machine_drafts::session::{Member, Switch};
use machine_drafts::setup::Setup;
use of10_frames::length_of;
use outbox::Outbox;

/// The outbox of a member, if there is one.
fn member_outbox(members: &[Member], n: u32) -> Option<&Outbox>
    ensures { option_copied result
        ≡ option_map (λ (x : MemberOf). x.outbox) (slice_get (map member_of members.now) n) }
{
    match members.get(n as usize) {
        Some(x) => Some(&x.outbox),
        None => None,
    }
}

/// The outbox of a switch, if there is one.
fn switch_outbox(switches: &[Switch], n: u32) -> Option<&Outbox>
    ensures { option_copied result
        ≡ option_map (λ (x : SwitchOf). x.outbox) (slice_get (map switch_of switches.now) n) }
{
    match switches.get(n as usize) {
        Some(x) => Some(&x.outbox),
        None => None,
    }
}

/// Whether the bytes are one whole frame.
fn is_whole(frame: &Bytes) -> bool
    ensures { result ≡ is_frame_of frame.now }
{
    frame.len() >= 8 && usize::from(length_of(frame.as_slice())) == frame.len()
}

/// Closed, unless the test holds.
fn closed_unless(test: bool) -> Option<Reply>
    ensures { result ≡ closed_unless_of test }
{
    if test { None } else { Some(Reply::Closed) }
}

/// Whether there is such a virtual switch, and the text isn't longer than an expression may be.
fn is_expression_for(setup: &Setup, v: u32, text: &Text) -> bool
    ensures { result ≡ is_expression_for_of setup.now v text.now }
{
    (v as usize) < setup.topology().plan().virtuals.len() && text.len() <= 1024
}

/// The outbox of a session, if the policy has it.
pub(crate) fn outbox_for(held: &Held, who: Who) -> Option<&Outbox>
    ensures { option_copied result ≡ outbox_of (state_in_held held.now) who }
{
    match who {
        Who::Member(n) => member_outbox(held.members.as_slice(), n),
        Who::Switch(n) => switch_outbox(held.switches.as_slice(), n),
        Who::Audit => None,
    }
}

/// Whether a session is up in its round.
pub(crate) fn is_present(held: &Held, session: &Session) -> bool
    ensures { result ≡ is_present_of (state_in_held held.now) session.now }
{
    match outbox_for(held, session.who) {
        Some(outbox) => outbox.is_open(session.round),
        None => false,
    }
}

/// What a taking from the audit answers that finds nothing.
fn glance_at_audit(held: &Held, round: u64) -> Option<Reply>
    ensures { result
        ≡ unless_taken_of (takes_of (state_in_held held.now) (record { who = Who.Audit; round = round })) }
{
    if round != 0 {
        return Some(Reply::Closed);
    }
    if held.audit.is_empty() {
        return Some(Reply::Empty);
    }
    None
}

/// What a taking answers that finds nothing.
fn glance_at_taking(held: &Held, session: &Session) -> Option<Reply>
    ensures { result ≡ unless_taken_of (takes_of (state_in_held held.now) session.now) }
{
    if session.who == Who::Audit {
        return glance_at_audit(held, session.round);
    }
    match outbox_for(held, session.who) {
        None => Some(Reply::Closed),
        Some(outbox) => match outbox.glance(session.round) {
            Some(taking) => Some(reply_of(taking)),
            None => None,
        },
    }
}

/// The reply of an event that changes nothing, and None for every other.
pub(crate) fn glance(setup: &Setup, held: &Held, event: &Event) -> Option<Reply>
    ensures { result ≡ glance_of setup.now (state_in_held held.now) event.now }
{
    match event {
        Event::Up { who, .. } => closed_unless(outbox_for(held, *who).is_some()),
        Event::Msg { session, frame } => closed_unless(
            is_whole(frame) && is_present(held, session),
        ),
        Event::Gone { session } => closed_unless(is_present(held, session)),
        Event::Tick { second } => {
            if *second <= held.moment {
                Some(Reply::Done)
            } else {
                None
            }
        }
        Event::Take { session } => glance_at_taking(held, session),
        Event::Policy { v, text } => closed_unless(is_expression_for(setup, *v, text)),
    }
}
