//! Sessions of the members and switches of a draft, by their numbers.
ghost use Rattle.std.specs.Prelude.{◌≡◌};
ghost use Rattle.machine_drafts.specs.InsideSessions.{is_member_up as is_member_up_of, is_switch_up as is_switch_up_of};
ghost use Rattle.machine_drafts.specs.InsideSessions.{member_round as member_round_of, switch_round as switch_round_of};
ghost use Rattle.machine_meaning.specs.Lists.{changed_at};
ghost use Rattle.machine_drafts.specs.Outcomes.{member_bases, members_in, moments_of};
ghost use Rattle.machine_drafts.specs.Outcomes.{standing_in, switch_bases, switches_in};
ghost use Rattle.machine_meaning.specs.Rounds.{begun_member, begun_switch, emptied_at, ended_member, ended_switch};

use crate::member_draft::MemberDraft;
use crate::switch_draft::SwitchDraft;
use std::alloc::Global;

/// The member of a number is up.
pub fn is_member_up(members: &[MemberDraft<'_>], n: u32) -> bool
    ensures { result ≡ is_member_up_of (members_in members.now) n }
{
    match members.get(n as usize) {
        Some(member) => member.is_up(),
        None => false,
    }
}

/// The round of the member of a number.
pub fn member_round(members: &[MemberDraft<'_>], n: u32) -> u64
    ensures { result ≡ member_round_of (members_in members.now) n }
{
    match members.get(n as usize) {
        Some(member) => member.round(),
        None => 0,
    }
}

/// The switch of a number is up.
pub fn is_switch_up(switches: &[SwitchDraft<'_>], n: u32) -> bool
    ensures { result ≡ is_switch_up_of (switches_in switches.now) n }
{
    match switches.get(n as usize) {
        Some(switch) => switch.is_up(),
        None => false,
    }
}

/// The round of the switch of a number.
pub fn switch_round(switches: &[SwitchDraft<'_>], n: u32) -> u64
    ensures { result ≡ switch_round_of (switches_in switches.now) n }
{
    match switches.get(n as usize) {
        Some(switch) => switch.round(),
        None => 0,
    }
}

/// The round of the member of a number ends.
pub fn close_member(members: &mut [MemberDraft<'_>], n: u32)
    ensures now { members_in members.new ≡ changed_at n ended_member (members_in members.old) }
    ensures bases { member_bases members.new ≡ member_bases members.old }
    ensures moments { moments_of members.new ≡ moments_of members.old }
{
    let place = n as usize;
    if place >= members.len() {
        return;
    }
    members[place].close();
}

/// The next round of the member of a number begins.
pub fn open_member(members: &mut [MemberDraft<'_>], n: u32)
    ensures now { members_in members.new ≡ changed_at n begun_member (members_in members.old) }
    ensures bases { member_bases members.new ≡ member_bases members.old }
    ensures moments { moments_of members.new ≡ moments_of members.old }
{
    let place = n as usize;
    if place >= members.len() {
        return;
    }
    members[place].open();
}

/// The round of the switch of a number ends.
pub fn close_switch(alloc: Global, switches: &mut [SwitchDraft<'_>], n: u32)
    ensures now { switches_in switches.new ≡ changed_at n ended_switch (switches_in switches.old) }
    ensures standing { standing_in switches.new ≡ emptied_at n (standing_in switches.old) }
    ensures bases { switch_bases switches.new ≡ switch_bases switches.old }
{
    let place = n as usize;
    if place >= switches.len() {
        return;
    }
    switches[place].close(alloc);
}

/// The next round of the switch of a number begins, in which this cookie is the first that can be written.
pub fn open_switch(alloc: Global, switches: &mut [SwitchDraft<'_>], n: u32, first: u64)
    ensures now { switches_in switches.new ≡ changed_at n (begun_switch first) (switches_in switches.old) }
    ensures standing { standing_in switches.new ≡ emptied_at n (standing_in switches.old) }
    ensures bases { switch_bases switches.new ≡ switch_bases switches.old }
{
    let place = n as usize;
    if place >= switches.len() {
        return;
    }
    switches[place].open(alloc, first);
}
