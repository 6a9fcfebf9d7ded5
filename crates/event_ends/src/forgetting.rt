//! What was counted of entries that matter no more is forgotten.
ghost use Rattle.std.specs.Prelude.{◌≡◌, ◌<◌, ◌^◌, OnOk, fold, length, slice_get};
ghost use Rattle.std.specs.List.{enumerate_from, list_any};
ghost use Rattle.member_table.specs.Entries.{has_serial};
ghost use Rattle.stats_map.specs.Told.{told};
ghost use Rattle.machine_drafts.specs.InsideForgetting.{forget_member as forget_member_of};
ghost use Rattle.machine_drafts.specs.InsideForgetting.{forget_owed as forget_owed_of, is_owed as is_owed_of};
ghost use Rattle.machine_drafts.specs.InsideForgetting.{forget_serial as forget_serial_of};
ghost use Rattle.machine_drafts.specs.Outcomes.{IsBefore, bases, draft_in, members_in};
ghost use Rattle.machine_meaning.specs.Settling.{entries_at};
ghost use Rattle.machine_meaning.specs.States.{State};
ghost use Rattle.machine_meaning.specs.Telling.{forget as forget_of};

use cv_io::Memory;
use machine_drafts::counting::leaf_of;
use machine_drafts::member_draft::{MemberDraft, is_there};
use machine_drafts::outcome::Outcome;
use machine_meaning::Owed;
use member_table::Table;
use stats_map::Pending;

/// The FLOW_REMOVED of the entry of a member is owed.
fn is_owed(owed: &[Owed], n: u32, serial: u64) -> bool
    ensures { result ≡ list_any (is_owed_of n serial) owed.now }
{
    owed.iter()
        .any(|one| n == one.member && serial == one.entry.serial)
}

/// The leaf of an entry that went is forgotten, if the table had it, unless its FLOW_REMOVED is owed.
fn forget_serial(
    counts: &mut Pending<'_>,
    table: &Table,
    owed: &[Owed],
    n: u32,
    serial: u64,
) -> Result<(), Memory>
    ensures base { counts.new.base ≡ counts.old.base }
    ensures told { OnOk result (told counts.new.now
        ≡ forget_serial_of table.now.table.entries owed.now n (told counts.old.now) serial) }
{
    if !is_there(table, serial) || is_owed(owed, n, serial) {
        return Ok(());
    }
    counts.forget(&leaf_of(n, serial)?)
}

/// And those of several.
fn forget_serials(
    counts: &mut Pending<'_>,
    table: &Table,
    owed: &[Owed],
    n: u32,
    serials: &[u64],
) -> Result<(), Memory>
    ensures base { counts.new.base ≡ counts.old.base }
    ensures told { OnOk result (told counts.new.now
        ≡ fold (forget_serial_of table.now.table.entries owed.now n) (told counts.old.now) serials.now) }
{
    for serial in serials {
        forget_serial(counts, table, owed, n, *serial)?;
    }
    Ok(())
}

/// The leaves of the entries of a member as they stood are forgotten, unless they still matter. An entry that is there
/// does, so only those that went are looked at.
fn forget_member(
    counts: &mut Pending<'_>,
    member: &MemberDraft<'_>,
    owed: &[Owed],
    n: u32,
) -> Result<(), Memory>
    ensures base { counts.new.base ≡ counts.old.base }
    ensures told { OnOk result (told counts.new.now ≡ forget_member_of owed.now (told counts.old.now) (n, member.now)) }
{
    let table = member.table_before();
    let lost = member.lost();
    forget_serials(counts, table, owed, n, lost.removed)?;
    forget_serials(counts, table, owed, n, lost.dropped)
}

/// And those of all members.
fn forget_members(
    counts: &mut Pending<'_>,
    members: &[MemberDraft<'_>],
    owed: &[Owed],
) -> Result<(), Memory>
    requires { length members.now < 2 ^ 32 }
    ensures base { counts.new.base ≡ counts.old.base }
    ensures told { OnOk result (told counts.new.now
        ≡ fold (forget_member_of owed.now) (told counts.old.now) (enumerate_from 0 members.now)) }
{
    for (n, member) in members.iter().enumerate() {
        forget_member(counts, member, owed, n as u32)?;
    }
    Ok(())
}

/// Whether the member of a number has an entry of this serial number.
fn has_entry(members: &[MemberDraft<'_>], n: u32, serial: u64) -> bool
    ensures { result ≡ list_any (has_serial serial) (entries_at (slice_get (members_in members.now) n)) }
{
    match members.get(n as usize) {
        Some(member) => member.has(serial),
        None => false,
    }
}

/// The leaf of an entry whose FLOW_REMOVED was owed is forgotten, unless it still matters.
fn forget_owed(
    counts: &mut Pending<'_>,
    members: &[MemberDraft<'_>],
    owed: &[Owed],
    one: &Owed,
) -> Result<(), Memory>
    ensures base { counts.new.base ≡ counts.old.base }
    ensures told { OnOk result (told counts.new.now
        ≡ forget_owed_of (members_in members.now) owed.now (told counts.old.now) one.now) }
{
    let serial = one.entry.serial;
    if is_owed(owed, one.member, serial) {
        return Ok(());
    }
    if has_entry(members, one.member, serial) {
        return Ok(());
    }
    counts.forget(&leaf_of(one.member, serial)?)
}

/// And those of all that was owed.
fn forget_all_owed(
    counts: &mut Pending<'_>,
    members: &[MemberDraft<'_>],
    owed: &[Owed],
    before: &[Owed],
) -> Result<(), Memory>
    ensures base { counts.new.base ≡ counts.old.base }
    ensures told { OnOk result (told counts.new.now
        ≡ fold (forget_owed_of (members_in members.now) owed.now) (told counts.old.now) before.now) }
{
    for one in before {
        forget_owed(counts, members, owed, one)?;
    }
    Ok(())
}

/// The leaves that mattered as the event began, and don't any more, are forgotten.
pub fn forget(draft: &mut Outcome<'_>) -> Result<(), Memory>
    requires { length draft.old.members < 2 ^ 32 }
    ensures drafted { OnOk result ((before : State) → IsBefore (bases draft.old) before
        → draft_in draft.new ≡ forget_of before (draft_in draft.old)) }
    ensures bases { OnOk result (bases draft.new ≡ bases draft.old) }
{
    let members = draft.members.as_slice();
    forget_members(&mut draft.counts, members, draft.owed.as_slice())?;
    if draft.owed.is_unchanged() {
        return Ok(());
    }
    let old = draft.owed.before();
    forget_all_owed(&mut draft.counts, members, draft.owed.as_slice(), old)?;
    Ok(())
}
