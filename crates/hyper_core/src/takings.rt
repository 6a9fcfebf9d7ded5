//! The first message that waits for a session, or the first line of the audit, is taken.
ghost use Rattle.std.specs.Prelude.{◌≡◌, length, map, option_map, slice_get};
ghost use Rattle.outbox.specs.Outboxes.{OutboxOf, taken};
ghost use Rattle.machine_meaning.specs.Lists.{changed_at};
ghost use Rattle.machine_drafts.specs.Machines.{state_in_held};
ghost use Rattle.machine_meaning.specs.States.{MemberOf, State, SwitchOf};
ghost use Rattle.machine_meaning.specs.Takings.{audit_outbox, left_by, reply_of as reply_of_of, takes as takes_of};
ghost use Rattle.machine_meaning.specs.Takings.{takes_by, taking_from};
ghost use Rattle.machine_drafts.specs.Views.{member_of, standing_of, switch_of};

use cv_io::{Session, Who};
use events::Reply;
use machine_drafts::held::Held;
use machine_drafts::session::{Member, Switch};
use outbox::{Letters, Taking};

/// The reply to a taking.
pub(crate) fn reply_of(taking: Taking) -> Reply
    ensures { result ≡ reply_of_of taking }
{
    match taking {
        Taking::Taken(message) => Reply::Taken { message },
        Taking::Empty => Reply::Empty,
        Taking::Closed => Reply::Closed,
    }
}

/// Takes the first message that waits for a member.
fn take_member(members: &mut [Member], n: u32, round: u64) -> Reply
    ensures reply { result
        ≡ taking_from (option_map (λ (x : MemberOf). x.outbox) (slice_get (map member_of members.old) n)) round }
    ensures left { map member_of members.new
        ≡ changed_at n (λ (x : MemberOf). record x { outbox = taken x.outbox round }) (map member_of members.old) }
{
    let n = n as usize;
    if n >= members.len() {
        return Reply::Closed;
    }
    reply_of(members[n].outbox.take(round))
}

/// Takes the first message that waits for a switch.
fn take_switch(switches: &mut [Switch], n: u32, round: u64) -> Reply
    ensures reply { result
        ≡ taking_from (option_map (λ (x : SwitchOf). x.outbox) (slice_get (map switch_of switches.old) n)) round }
    ensures left { map switch_of switches.new
        ≡ changed_at n (λ (x : SwitchOf). record x { outbox = taken x.outbox round }) (map switch_of switches.old) }
    ensures standing { map standing_of switches.new ≡ map standing_of switches.old }
{
    let n = n as usize;
    if n >= switches.len() {
        return Reply::Closed;
    }
    reply_of(switches[n].outbox.take(round))
}

/// Takes the first line of the audit.
fn take_line(audit: &mut Letters, round: u64) -> Reply
    ensures reply { (s : State) → s.audit ≡ audit.old → result ≡ takes_by s Who.Audit round }
    ensures left { (s : State) → s.audit ≡ audit.old → audit.new ≡ (taken (audit_outbox s) round).waiting }
{
    if round != 0 {
        return Reply::Closed;
    }
    match audit.pop() {
        Some(message) => Reply::Taken { message },
        None => Reply::Empty,
    }
}

/// Takes the first message that waits for a session.
pub(crate) fn take(held: &mut Held, session: Session) -> Reply
    ensures reply { result ≡ takes_of (state_in_held held.old) session }
    ensures left { state_in_held held.new ≡ left_by session.who session.round (state_in_held held.old) }
    ensures members { length held.new.members ≡ length held.old.members }
    ensures switches { length held.new.switches ≡ length held.old.switches }
{
    match session.who {
        Who::Member(n) => take_member(held.members.as_mut_slice(), n, session.round),
        Who::Switch(n) => take_switch(held.switches.as_mut_slice(), n, session.round),
        Who::Audit => take_line(&mut held.audit, session.round),
    }
}
