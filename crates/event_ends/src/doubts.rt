//! Entries that may have idled: a poll tells whether their counts rose.
ghost use Rattle.std.specs.Prelude.{◌≡◌, ◌∷◌, ◌++◌, ◌<◌, [], IfOk, OnOk, find, length, slice_get};
ghost use Rattle.std.specs.List.{AllByRecursion};
ghost use Rattle.member_state.specs.Changes.{is_told as is_told_of, touched, without};
ghost use Rattle.member_table.specs.Entries.{has_serial};
ghost use Rattle.event_ends.specs.InsideSettling.{decided_in};
ghost use Rattle.machine_meaning.specs.Lists.{changed_at};
ghost use Rattle.machine_drafts.specs.Outcomes.{AreTimely, bases, draft_in, member_bases, members_in, moments_of};
ghost use Rattle.machine_meaning.specs.Removing.{owing, with_kept};
ghost use Rattle.machine_meaning.specs.Settling.{all_decided, entries_at};

use cv_io::{Duplicate, Memory};
use machine_drafts::counting::leaf_of;
use machine_drafts::member_draft::MemberDraft;
use machine_drafts::outcome::Outcome;
use machine_drafts::owing::Owing;
use machine_meaning::Owed;
use member_table::{Entry, Table};
use waitings::Doubt;

/// The reason of entries that idled.
const IDLE_TIMEOUT: u8 = 0;

/// The flag of entries of whose removal the member asks to be told (OFPFF_SEND_FLOW_REM).
fn is_told(entry: &Entry) -> bool
    ensures { result ≡ is_told_of entry.now }
{
    entry.flags % 2 == 1
}

/// A copy of the entry of a number of a table.
fn entry_in(table: &Table, serial: u64) -> Result<Option<Entry>, Memory>
    ensures { IfOk result (λ entry. entry ≡ find (has_serial serial) table.now.table.entries) }
{
    match table.get(serial) {
        Some(entry) => Ok(Some(entry.copy()?)),
        None => Ok(None),
    }
}

/// A copy of the entry of a number of a member, as the event leaves it so far.
fn entry_of(member: &MemberDraft<'_>, serial: u64) -> Result<Option<Entry>, Memory>
    ensures { IfOk result (λ entry. entry ≡ find (has_serial serial) member.now.now.kept.table.entries) }
{
    let kept = member.kept()?;
    let entry = entry_in(kept.state().table(), serial);
    drop(kept);
    entry
}

/// A copy of the entry that is in doubt, if it is still there.
fn entry_at(members: &[MemberDraft<'_>], doubt: &Doubt) -> Result<Option<Entry>, Memory>
    ensures { IfOk result (λ entry. entry
        ≡ find (has_serial doubt.now.serial) (entries_at (slice_get (members_in members.now) doubt.now.member))) }
{
    match members.get(doubt.member as usize) {
        Some(member) => entry_of(member, doubt.serial),
        None => Ok(None),
    }
}

/// The FLOW_REMOVED of an entry that idled is owed, if the member asks for it.
fn owe(owed: &mut Owing<'_>, member: u32, moment: u64, entry: Entry) -> Result<(), Memory>
    ensures base { owed.new.base ≡ owed.old.base }
    ensures now { OnOk result (owed.new.now ≡ owed.old.now ++ owing member 0 moment (entry ∷ [])) }
{
    if !is_told(&entry) {
        return Ok(());
    }
    owed.owe(Owed {
        member,
        entry,
        reason: IDLE_TIMEOUT,
        moment,
    })
}

/// The count of the entry that is in doubt was seen to have risen at the moment of the event.
fn touch_at(members: &mut [MemberDraft<'_>], doubt: &Doubt, now: u64) -> Result<(), Memory>
    requires { AllByRecursion (λ moment. moment ≡ now) (moments_of members.old) }
    ensures now { OnOk result (members_in members.new
        ≡ changed_at doubt.now.member (with_kept (touched doubt.now.serial now)) (members_in members.old)) }
    ensures bases { OnOk result (member_bases members.new ≡ member_bases members.old) }
    ensures moments { OnOk result (moments_of members.new ≡ moments_of members.old) }
{
    let place = doubt.member as usize;
    if place >= members.len() {
        return Ok(());
    }
    members[place].touch(doubt.serial)?;
    Ok(())
}

/// The entry that is in doubt goes.
fn drop_at(members: &mut [MemberDraft<'_>], doubt: &Doubt) -> Result<(), Memory>
    ensures now { OnOk result (members_in members.new
        ≡ changed_at doubt.now.member (with_kept (without doubt.now.serial)) (members_in members.old)) }
    ensures bases { OnOk result (member_bases members.new ≡ member_bases members.old) }
    ensures moments { OnOk result (moments_of members.new ≡ moments_of members.old) }
{
    let place = doubt.member as usize;
    if place >= members.len() {
        return Ok(());
    }
    members[place].drop(doubt.serial)?;
    Ok(())
}

/// An entry whose count rose hasn't idled; one whose count didn't is removed; one that went has no doubt any more.
fn decide(draft: &mut Outcome<'_>, doubt: &Doubt) -> Result<(), Memory>
    requires { AreTimely (bases draft.old) }
    ensures drafted { OnOk result (draft_in draft.new ≡ decided_in (draft_in draft.old) doubt.now) }
    ensures bases { OnOk result (bases draft.new ≡ bases draft.old) }
{
    let now = draft.moment;
    let Some(entry) = entry_at(draft.members.as_slice(), doubt)? else {
        return Ok(());
    };
    let leaf = leaf_of(doubt.member, doubt.serial)?;
    let (packets, _) = draft.counts.count(&leaf);
    if doubt.packets < packets {
        touch_at(draft.members.as_mut_slice(), doubt, now)?;
        return Ok(());
    }
    drop_at(draft.members.as_mut_slice(), doubt)?;
    owe(&mut draft.owed, doubt.member, now, entry)?;
    Ok(())
}

/// The doubts of a poll are worked off in their order.
pub fn decide_all(draft: &mut Outcome<'_>, doubts: &[Doubt]) -> Result<(), Memory>
    requires { AreTimely (bases draft.old) }
    ensures drafted { OnOk result (draft_in draft.new ≡ all_decided doubts.now (draft_in draft.old)) }
    ensures bases { OnOk result (bases draft.new ≡ bases draft.old) }
{
    for doubt in doubts {
        decide(draft, doubt)?;
    }
    Ok(())
}
