//! Sessions that are put more than they may be are closed as slow.
ghost use Rattle.std.specs.Prelude.{◌≡◌, ◌<◌, ◌^◌, IfOk, OnOk, length};
ghost use Rattle.std.specs.List.{enumerate_from};
ghost use Rattle.event_ends.specs.Boxes.{is_overfilled_member as is_overfilled_member_of, numbers_where};
ghost use Rattle.event_ends.specs.Boxes.{is_overfilled_switch as is_overfilled_switch_of};
ghost use Rattle.event_ends.specs.Closings.{closing_of};
ghost use Rattle.machine_meaning.specs.Phases.{both, is_empty as is_empty_of, nobody};
ghost use Rattle.machine_meaning.specs.Sessions.{is_member as is_member_of, is_switch as is_switch_of};

use crate::boxes::Addressed;
use cv_io::{List, Memory, Who};
use machine_drafts::member_draft::MemberDraft;
use machine_drafts::switch_draft::SwitchDraft;
use std::alloc::Global;

/// Sessions, by their numbers.
#[derive(Drop)]
pub struct Closing {
    pub switches: List<u32>,
    pub members: List<u32>,
}

impl Closing {
    /// No session.
    pub fn nobody(alloc: Global) -> Closing
        ensures { closing_of result ≡ nobody }
    {
        Closing {
            switches: List::new(alloc),
            members: List::new(alloc),
        }
    }

    /// No session is one of these.
    pub fn is_empty(&self) -> bool
        ensures { result ≡ is_empty_of (closing_of self.now) }
    {
        self.switches.is_empty() && self.members.is_empty()
    }

    /// Others too.
    pub fn join(&mut self, more: Closing) -> Result<(), Memory>
        ensures { OnOk result (closing_of self.new ≡ both (closing_of self.old) (closing_of more)) }
    {
        self.switches.append(more.switches)?;
        self.members.append(more.members)
    }
}

/// Who is this member.
fn is_member(n: u32, who: Option<Who>) -> bool
    ensures { result ≡ is_member_of n who }
{
    match who {
        Some(Who::Member(k)) => k == n,
        _ => false,
    }
}

/// Who is this switch.
fn is_switch(n: u32, who: Option<Who>) -> bool
    ensures { result ≡ is_switch_of n who }
{
    match who {
        Some(Who::Switch(k)) => k == n,
        _ => false,
    }
}

/// Whether a member whose round this event didn't begin is put more than it may be.
fn is_overfilled_member(n: u32, addressed: &Addressed<MemberDraft<'_>>, begun: Option<Who>) -> bool
    ensures { result ≡ is_overfilled_member_of begun (n, addressed.now) }
{
    addressed.draft.is_up()
        && !is_member(n, begun)
        && addressed.draft.outbox().is_full()
        && !addressed.letters.is_empty()
}

/// Whether a switch whose round this event didn't begin is put more than it may be.
fn is_overfilled_switch(n: u32, addressed: &Addressed<SwitchDraft<'_>>, begun: Option<Who>) -> bool
    ensures { result ≡ is_overfilled_switch_of begun (n, addressed.now) }
{
    addressed.draft.is_up()
        && !is_switch(n, begun)
        && addressed.draft.outbox().is_full()
        && !addressed.letters.is_empty()
}

/// The members that are put more than they may be.
fn overfilled_members(
    alloc: Global,
    members: &[Addressed<MemberDraft<'_>>],
    begun: Option<Who>,
) -> Result<List<u32>, Memory>
    requires { length members.now < 2 ^ 32 }
    ensures { IfOk result (λ numbers.
        numbers ≡ numbers_where (is_overfilled_member_of begun) (enumerate_from 0 members.now)) }
{
    let mut numbers = List::new(alloc);
    for (n, member) in members.iter().enumerate() {
        if is_overfilled_member(n as u32, member, begun) {
            numbers.push(n as u32)?;
        }
    }
    Ok(numbers)
}

/// The switches that are put more than they may be.
fn overfilled_switches(
    alloc: Global,
    switches: &[Addressed<SwitchDraft<'_>>],
    begun: Option<Who>,
) -> Result<List<u32>, Memory>
    requires { length switches.now < 2 ^ 32 }
    ensures { IfOk result (λ numbers.
        numbers ≡ numbers_where (is_overfilled_switch_of begun) (enumerate_from 0 switches.now)) }
{
    let mut numbers = List::new(alloc);
    for (n, switch) in switches.iter().enumerate() {
        if is_overfilled_switch(n as u32, switch, begun) {
            numbers.push(n as u32)?;
        }
    }
    Ok(numbers)
}

/// The sessions that are put more than they may be.
pub fn overfilled(
    alloc: Global,
    members: &[Addressed<MemberDraft<'_>>],
    switches: &[Addressed<SwitchDraft<'_>>],
    begun: Option<Who>,
) -> Result<Closing, Memory>
    requires few_members { length members.now < 2 ^ 32 }
    requires few_switches { length switches.now < 2 ^ 32 }
    ensures members { IfOk result (λ closing.
        closing.members ≡ numbers_where (is_overfilled_member_of begun) (enumerate_from 0 members.now)) }
    ensures switches { IfOk result (λ closing.
        closing.switches ≡ numbers_where (is_overfilled_switch_of begun) (enumerate_from 0 switches.now)) }
{
    Ok(Closing {
        members: overfilled_members(alloc, members, begun)?,
        switches: overfilled_switches(alloc, switches, begun)?,
    })
}
