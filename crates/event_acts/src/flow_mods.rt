//! An accepted FLOW_MOD of a member.
ghost use Rattle.std.specs.Prelude.{◌≡◌, ◌++◌, ◌<◌, IfOk, OnOk, Some, filter, map, slice_get};
ghost use Rattle.member_state.specs.Changes.{accepted, is_told, removed_by};
ghost use Rattle.grants.specs.Rows.{is_delete as is_delete_of};
ghost use Rattle.member_table.specs.Planning.{change_of};
ghost use Rattle.member_table.specs.declared.entry.Entry.{Entry as EntryOf};
ghost use Rattle.machine_meaning.specs.FlowMods.{flow_mod as flow_mod_of};
ghost use Rattle.event_acts.specs.InsideHearing.{IsPlannedAt};
ghost use Rattle.machine_meaning.specs.Lists.{changed_at};
ghost use Rattle.machine_drafts.specs.MemberDrafts.{MemberDraftOf};
ghost use Rattle.machine_drafts.specs.Outcomes.{bases, draft_in, member_bases, members_in, moments_of};
ghost use Rattle.machine_meaning.specs.Removing.{with_kept};

use cv_io::{List, Memory};
use machine_drafts::member_draft::MemberDraft;
use machine_drafts::outcome::Outcome;
use machine_drafts::owing::Owing;
use machine_meaning::Owed;
use member_state::{MemberState, Planned};
use member_table::Entry;
use of10_msgs::FlowMod;
use std::alloc::Global;

/// The reason of entries that a message removes.
const DELETE: u8 = 2;

/// Whether a command is a DELETE.
fn is_delete(command: u16) -> bool
    ensures { result ≡ is_delete_of command }
{
    command == 3 || command == 4
}

/// Copies of the entries that a message removes and of whose removal the member asks to be told.
fn told_removed(
    alloc: Global,
    kept: &MemberState,
    change: &FlowMod,
    planned: &Planned,
    now: u64,
) -> Result<List<Entry>, Memory>
    requires { planned.now.change ≡ change_of kept.now.state.table change.now now }
    ensures { IfOk result (λ told. told ≡ filter is_told (removed_by change.now kept.now.state)) }
{
    if !is_delete(change.command) {
        return Ok(List::new(alloc));
    }
    kept.told_of(planned.change.removed.as_slice())
}

/// FLOW_REMOVEDs of entries of a member are owed.
pub fn owe_all(
    owed: &mut Owing<'_>,
    n: u32,
    reason: u8,
    moment: u64,
    entries: List<Entry>,
) -> Result<(), Memory>
    ensures base { owed.new.base ≡ owed.old.base }
    ensures now { OnOk result (owed.new.now ≡ owed.old.now
        ++ map (λ (e : EntryOf). record { member = n; entry = e; reason = reason; moment = moment }) entries) }
{
    for entry in entries.into_vec() {
        owed.owe(Owed {
            member: n,
            entry,
            reason,
            moment,
        })?;
    }
    Ok(())
}

/// What was planned for a message becomes the plan of the member of a number.
fn plan_at(members: &mut [MemberDraft<'_>], n: u32, change: &FlowMod, planned: Planned, now: u64)
    requires { IsPlannedAt members.old now n change.now planned }
    ensures now { members_in members.new ≡ changed_at n (with_kept (accepted change.now now)) (members_in members.old) }
    ensures bases { member_bases members.new ≡ member_bases members.old }
    ensures moments { moments_of members.new ≡ moments_of members.old }
{
    // The proof learns what is true of every table.
    let _ = members[n as usize].table_before().len();
    members[n as usize].plan(planned);
}

/// Copies of the entries that a message of the member of a number removes and of whose removal it asks to be told.
fn told_at(
    alloc: Global,
    members: &[MemberDraft<'_>],
    n: u32,
    change: &FlowMod,
    planned: &Planned,
    now: u64,
) -> Result<List<Entry>, Memory>
    requires { IsPlannedAt members.now now n change.now planned.now }
    ensures { (x : MemberDraftOf) → slice_get members.now n ≡ Some x
        → IfOk result (λ told. told ≡ filter is_told (removed_by change.now x.now.kept)) }
{
    let kept = members[n as usize].kept()?;
    let told = told_removed(alloc, kept.state(), change, planned, now);
    drop(kept);
    told
}

/// A FLOW_MOD of the member of a number, with what it plans: removed entries are owed, with the reason DELETE.
pub fn flow_mod(
    alloc: Global,
    draft: &mut Outcome<'_>,
    n: u32,
    change: &FlowMod,
    planned: Planned,
) -> Result<(), Memory>
    requires { IsPlannedAt draft.old.members draft.old.moment n change.now planned }
    ensures drafted { (x : MemberDraftOf) → slice_get draft.old.members n ≡ Some x
        → OnOk result (draft_in draft.new ≡ flow_mod_of n x.now change.now (draft_in draft.old)) }
    ensures bases { OnOk result (bases draft.new ≡ bases draft.old) }
{
    let now = draft.moment;
    let told = told_at(alloc, draft.members.as_slice(), n, change, &planned, now)?;
    owe_all(&mut draft.owed, n, DELETE, now, told)?;
    plan_at(draft.members.as_mut_slice(), n, change, planned, now);
    Ok(())
}
