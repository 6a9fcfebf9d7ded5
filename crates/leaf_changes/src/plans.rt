//! Plans by which entries go or are touched, as `MemberState` makes them, with what is known of them in order to tell
//! their changes.
ghost use Rattle.std.specs.Prelude.{◌≡◌, ℕ, IfOk, OnOk, OnErr, find, option_map};
ghost use Rattle.member_table.specs.Entries.{has_serial};
ghost use Rattle.member_table.specs.Timeouts.{is_hard_due};
ghost use Rattle.member_table.specs.declared.entry.Entry.{Entry as EntryOf};
ghost use Rattle.member_state.specs.Changes.{expired, rising_serials, touched as touched_of, without};
ghost use Rattle.member_state.specs.InsideRanks.{HasMoreRanks, drop_planned, rank_if_added, removal_planned};
ghost use Rattle.member_state.specs.Plans.{IsReady, after_planned};
ghost use Rattle.member_state.specs.States.{HeldState, MemberStateOf};
ghost use Rattle.leaf_changes.specs.Plans.{IsPlanOf};

use cv_io::{Duplicate, List, Memory};
use member_state::{MemberState, Planned};
use member_table::{Change, Entry};
use std::alloc::Global;

/// The rank of the entry of a number.
fn rank_of(kept: &MemberState, serial: u64) -> Option<u32>
    ensures { result ≡ option_map (λ (e : EntryOf). e.rank) (find (has_serial serial) kept.now.state.table.entries) }
{
    match kept.table().get(serial) {
        Some(entry) => Some(entry.rank),
        None => None,
    }
}

/// The rank of the entry that comes, if it has the number.
fn rank_added(added: &Option<Entry>, serial: u64) -> Option<u32>
    ensures { result ≡ rank_if_added serial added.now }
{
    match added {
        Some(entry) if entry.serial == serial => Some(entry.rank),
        _ => None,
    }
}

/// Plans that the entries of some numbers go.
fn removal(alloc: Global, kept: &MemberState, serials: List<u64>) -> Result<Planned, Memory>
    ensures { IfOk result (λ p. p ≡ removal_planned kept.now.state serials) }
{
    let mut ranks = List::with_capacity(alloc, serials.len())?;
    for serial in serials.as_slice() {
        ranks.push_some(rank_of(kept, *serial))?;
    }
    let levels = kept.levels().copy()?;
    Ok(Planned {
        change: Change::removal(alloc, serials),
        ranks,
        dropped: List::new(alloc),
        touched: List::new(alloc),
        levels,
    })
}

/// Plans nothing yet.
pub fn stay(alloc: Global, kept: &MemberState) -> Result<Planned, Memory>
    ensures planned { IfOk result (λ p. (now : ℕ) → after_planned kept.now.state p now ≡ kept.now.state) }
    ensures ready { IfOk result (IsReady kept.now) }
    ensures plan { IfOk result (IsPlanOf kept.now.state) }
{
    // The proof learns what is true of every state.
    let _ = kept.table();
    removal(alloc, kept, List::new(alloc))
}

/// Plans that the entries go that have stood for their hard timeouts, as `MemberState::due` lists them.
pub fn expire(
    alloc: Global,
    kept: &MemberState,
    hard: List<u64>,
    now: u64,
) -> Result<Planned, Memory>
    requires { hard ≡ rising_serials (is_hard_due now) kept.now.state.table.entries }
    ensures planned { IfOk result (λ p. after_planned kept.now.state p now ≡ expired now kept.now.state) }
    ensures ready { IfOk result (IsReady kept.now) }
    ensures plan { IfOk result (IsPlanOf kept.now.state) }
{
    // The proof learns what is true of every state.
    let _ = kept.table();
    removal(alloc, kept, hard)
}

/// Adds that the entry of a number, whose rank is this one if a table has it, goes too.
fn add_drop(planned: &mut Planned, serial: u64, rank: Option<u32>) -> Result<(), Memory>
    ensures dropped { OnOk result (planned.new ≡ drop_planned serial rank planned.old) }
    ensures memory { OnErr result (HasMoreRanks planned.old planned.new) }
{
    let added = rank_added(&planned.change.added, serial);
    planned.ranks.push_some(rank)?;
    planned.ranks.push_some(added)?;
    planned.dropped.push(serial)
}

/// Plans that the entry of a number goes too, once the change is made.
pub fn plan_drop(kept: &MemberState, planned: &mut Planned, serial: u64) -> Result<(), Memory>
    ensures dropped { OnOk result ((now : ℕ) →
        after_planned kept.now.state planned.new now
        ≡ without serial (after_planned kept.now.state planned.old now)) }
    ensures ready { IsReady kept.now planned.old → IsReady kept.now planned.new }
    ensures plan { IsPlanOf kept.now.state planned.old → IsPlanOf kept.now.state planned.new }
    ensures memory { OnErr result ((now : ℕ) →
        after_planned kept.now.state planned.new now ≡ after_planned kept.now.state planned.old now) }
{
    // The proof learns what is true of every state.
    let _ = kept.table();
    let rank = rank_of(kept, serial);
    add_drop(planned, serial, rank)
}

/// Plans that the count of the entry of a number was seen to have risen.
pub fn touch(planned: &mut Planned, serial: u64) -> Result<(), Memory>
    ensures touched { OnOk result ((x : MemberStateOf) (now : ℕ) →
        after_planned x planned.new now ≡ touched_of serial now (after_planned x planned.old now)) }
    ensures ready { (h : HeldState) → IsReady h planned.old → IsReady h planned.new }
    ensures plan { (x : MemberStateOf) → IsPlanOf x planned.old → IsPlanOf x planned.new }
    ensures memory { OnErr result (planned.new ≡ planned.old) }
{
    planned.touched.push(serial)
}
