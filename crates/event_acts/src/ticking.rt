//! The clock shows another second.
ghost use Rattle.std.specs.Prelude.{◌≡◌, ◌++◌, ◌<◌, ◌^◌, IfOk, OnOk, Some};
ghost use Rattle.std.specs.Prelude.{filter, flat_map, length, map, not, slice_get};
ghost use Rattle.std.specs.List.{AllByRecursion, enumerate_from};
ghost use Rattle.member_state.specs.Changes.{expired, rising_serials};
ghost use Rattle.member_table.specs.Timeouts.{is_idle_due};
ghost use Rattle.waitings.specs.Waitings.{is_in_doubt};
ghost use Rattle.machine_drafts.specs.InsideTicking.{AreFresh, doubts_on, doubts_on_member, owed_at};
ghost use Rattle.machine_meaning.specs.Lists.{changed_at};
ghost use Rattle.machine_drafts.specs.MemberDrafts.{IsUnplanned, MemberDraftOf};
ghost use Rattle.machine_drafts.specs.Outcomes.{AreTimely, bases, draft_in, member_bases, members_in, moments_of};
ghost use Rattle.machine_drafts.specs.Outcomes.{state_in};
ghost use Rattle.machine_meaning.specs.Removing.{owed_for, with_kept, without_expired};
ghost use Rattle.machine_meaning.specs.Ticking.{doubt as doubt_of_all, doubt_at as doubt_at_of, doubt_on};
ghost use Rattle.machine_meaning.specs.Ticking.{doubts_at as doubts_at_of};
ghost use Rattle.machine_meaning.specs.Ticking.{doubts_in, ticks};

use crate::flow_mods::owe_all;
use cv_io::{List, Memory};
use machine_drafts::counting::leaf_of;
use machine_drafts::member_draft::MemberDraft;
use machine_drafts::outcome::Outcome;
use machine_drafts::owing::Owing;
use machine_drafts::polls::begin_poll;
use machine_drafts::setup::Setup;
use policies::MemberItem;
use waitings::{Doubt, Purpose};

/// The reason of entries that have stood for their hard timeouts.
const HARD_TIMEOUT: u8 = 1;

/// The entries of the member of a number that have stood for their hard timeouts go. The FLOW_REMOVEDs that it asks for
/// are owed.
fn expire_at(
    members: &mut [MemberDraft<'_>],
    owed: &mut Owing<'_>,
    n: u32,
    now: u64,
) -> Result<(), Memory>
    requires there { n < length members.old }
    requires fresh { (x : MemberDraftOf) → slice_get members.old n ≡ Some x → IsUnplanned x }
    requires timely { (x : MemberDraftOf) → slice_get members.old n ≡ Some x → x.moment ≡ now }
    ensures now { OnOk result (members_in members.new
        ≡ changed_at n (with_kept (expired now)) (members_in members.old)) }
    ensures bases { OnOk result (member_bases members.new ≡ member_bases members.old) }
    ensures moments { OnOk result (moments_of members.new ≡ moments_of members.old) }
    ensures owed { OnOk result (owed.new.now ≡ owed.old.now ++ owed_at now n (members_in members.old)) }
    ensures base { owed.new.base ≡ owed.old.base }
{
    let told = members[n as usize].expire()?;
    owe_all(owed, n, HARD_TIMEOUT, now, told)?;
    Ok(())
}

/// The entries of each member that have stood for their hard timeouts go.
fn expire_all(members: &mut [MemberDraft<'_>], owed: &mut Owing<'_>, now: u64) -> Result<(), Memory>
    requires few { length members.old < 2 ^ 32 }
    requires fresh { AreFresh members.old }
    requires timely { AllByRecursion (λ moment. moment ≡ now) (moments_of members.old) }
    ensures now { OnOk result (members_in members.new ≡ map (with_kept (expired now)) (members_in members.old)) }
    ensures bases { OnOk result (member_bases members.new ≡ member_bases members.old) }
    ensures moments { OnOk result (moments_of members.new ≡ moments_of members.old) }
    ensures owed { OnOk result (owed.new.now
        ≡ owed.old.now ++ flat_map (owed_for now) (enumerate_from 0 (members_in members.old))) }
    ensures base { owed.new.base ≡ owed.old.base }
{
    for n in 0..members.len() {
        expire_at(members, owed, n as u32, now)?;
    }
    Ok(())
}

/// Entries that have stood for their hard timeouts go.
fn expire(draft: &mut Outcome<'_>) -> Result<(), Memory>
    requires few { length draft.old.members < 2 ^ 32 }
    requires fresh { AreFresh draft.old.members }
    requires timely { AreTimely (bases draft.old) }
    ensures drafted { OnOk result (draft_in draft.new
        ≡ record (draft_in draft.old) { state = without_expired (state_in draft.old) }) }
    ensures bases { OnOk result (bases draft.new ≡ bases draft.old) }
{
    let now = draft.moment;
    expire_all(draft.members.as_mut_slice(), &mut draft.owed, now)?;
    Ok(())
}

/// A doubt on an entry of a member, with its packets.
fn doubt_of(draft: &Outcome<'_>, n: u32, serial: u64) -> Result<Doubt, Memory>
    ensures { IfOk result (λ doubt. doubt ≡ doubt_on (state_in draft.now) n serial) }
{
    let (packets, _) = draft.counts.count(&leaf_of(n, serial)?);
    Ok(Doubt {
        member: n,
        serial,
        packets,
    })
}

/// Appends doubts on those of these entries of a member on which no poll decides.
fn add_doubts(
    draft: &Outcome<'_>,
    n: u32,
    serials: &[u64],
    doubts: &mut List<Doubt>,
) -> Result<(), Memory>
    ensures { OnOk result (doubts.new ≡ doubts.old ++ map (doubt_on (state_in draft.now) n)
        (filter (λ serial. not (is_in_doubt (state_in draft.now).waiting n serial)) serials.now)) }
{
    for serial in serials {
        if !draft.waiting.is_in_doubt(n, *serial) {
            doubts.push(doubt_of(draft, n, *serial)?)?;
        }
    }
    Ok(())
}

/// The entries of a member whose idle timeouts have passed, by their numbers.
fn idle_of(member: &MemberDraft<'_>, now: u64) -> Result<List<u64>, Memory>
    ensures { IfOk result (λ idle. idle ≡ rising_serials (is_idle_due now) member.now.now.kept.table.entries) }
{
    let kept = member.kept()?;
    let due = kept.state().due(now);
    drop(kept);
    Ok(due?.idle)
}

/// Appends doubts on the entries of a member whose idle timeouts have passed, and on which no poll decides.
fn add_doubts_of(
    draft: &Outcome<'_>,
    member: &MemberDraft<'_>,
    n: u32,
    doubts: &mut List<Doubt>,
) -> Result<(), Memory>
    ensures { OnOk result (doubts.new ≡ doubts.old ++ doubts_in (state_in draft.now) (n, member.now.now)) }
{
    let idle = idle_of(member, draft.moment)?;
    add_doubts(draft, n, idle.as_slice(), doubts)?;
    Ok(())
}

/// And those on the entries of the member of a number.
fn add_doubts_on(draft: &Outcome<'_>, n: u32, doubts: &mut List<Doubt>) -> Result<(), Memory>
    ensures { OnOk result (doubts.new ≡ doubts.old ++ doubts_on (state_in draft.now) n) }
{
    match draft.members.get(n as usize) {
        Some(member) => add_doubts_of(draft, member, n, doubts),
        None => Ok(()),
    }
}

/// And if it is one of the virtual switch.
fn add_doubts_if(
    draft: &Outcome<'_>,
    v: u32,
    n: u32,
    m: &MemberItem,
    doubts: &mut List<Doubt>,
) -> Result<(), Memory>
    ensures { OnOk result (doubts.new ≡ doubts.old ++ doubts_on_member (state_in draft.now) v n m.now) }
{
    if m.grant.ports.v == v {
        return add_doubts_on(draft, n, doubts);
    }
    Ok(())
}

/// The doubts on entries of the members of a virtual switch.
fn doubts_at(setup: &Setup, draft: &Outcome<'_>, v: u32) -> Result<List<Doubt>, Memory>
    ensures { IfOk result (λ doubts. doubts ≡ doubts_at_of setup.now (state_in draft.now) v) }
{
    let mut doubts = List::new(setup.alloc());
    for (n, member) in setup.members().iter().enumerate() {
        add_doubts_if(draft, v, n as u32, member, &mut doubts)?;
    }
    Ok(doubts)
}

/// Where entries of members of a virtual switch may have idled, one poll decides on them.
fn doubt_at(setup: &Setup, draft: &mut Outcome<'_>, v: u32) -> Result<(), Memory>
    requires { v < length setup.now.virtuals }
    ensures drafted { OnOk result (draft_in draft.new ≡ doubt_at_of setup.now (draft_in draft.old) v) }
    ensures bases { OnOk result (bases draft.new ≡ bases draft.old) }
{
    let doubts = doubts_at(setup, draft, v)?;
    if doubts.is_empty() {
        return Ok(());
    }
    begin_poll(setup, draft, v, Purpose::Idle { doubts })
}

/// Entries that may have idled come into doubt. Virtual switches are polled in the order of the file.
fn doubt(setup: &Setup, draft: &mut Outcome<'_>) -> Result<(), Memory>
    ensures drafted { OnOk result (draft_in draft.new ≡ doubt_of_all setup.now (draft_in draft.old)) }
    ensures bases { OnOk result (bases draft.new ≡ bases draft.old) }
{
    // The proof learns that there are at most 16.
    let _ = setup.topology().plan();
    for (v, _item) in setup.policy().virtuals.as_slice().iter().enumerate() {
        doubt_at(setup, draft, v as u32)?;
    }
    Ok(())
}

/// A second is told, which is the moment of the draft: entries that have stood for their hard timeouts go, and those
/// that may have idled come into doubt.
pub fn tick(setup: &Setup, draft: &mut Outcome<'_>) -> Result<(), Memory>
    requires few { length draft.old.members < 2 ^ 32 }
    requires fresh { AreFresh draft.old.members }
    requires timely { AreTimely (bases draft.old) }
    ensures drafted { OnOk result (draft_in draft.new ≡ ticks setup.now draft.old.moment (draft_in draft.old)) }
    ensures bases { OnOk result (bases draft.new ≡ bases draft.old) }
{
    expire(draft)?;
    doubt(setup, draft)?;
    Ok(())
}
