//! Where what is wanted of switches comes from: a setting, or what is kept, with what was told of its last change.
ghost use Rattle.std.specs.Prelude.{◌≡◌, ◌<◌, ◌+◌, IfOk, IsPermutation, List, length, map, true};
ghost use Rattle.agreement.specs.Entries.{entries_of as entries_of_of};
ghost use Rattle.agreement.specs.Fitting.{IsFittingSetting};
ghost use Rattle.agreement.specs.declared.state.Setting.{Setting as SettingOf};
ghost use Rattle.composed_tables.specs.Composing.{IsGood, IsOf};
ghost use Rattle.install_plan.specs.Tables.{entry_of};
ghost use Rattle.switch_meaning.specs.Keys.{installed as installed_of};
ghost use Rattle.switch_meaning.specs.declared.entry.PhysEntry.{PhysEntry as PhysEntryOf};
ghost use Rattle.told_batches.specs.Told.{IsToldOf};
ghost use Rattle.event_composes.specs.Sources.{CanGive, Gives, IsChangeFor, IsChangeIf, IsChangeTo};
ghost use Rattle.event_composes.specs.Sources.{IsToldFor, IsWantedBy};

use crate::composed::wanted;
use crate::turning::Turned;
use agreement::Setting;
use composed_tables::Composed;
use cv_io::{List, Memory};
use install_plan::{Batch, Written};
use machine_drafts::switch_draft::SwitchDraft;
use shared_rows::Rows;
use std::alloc::Global;
use switch_meaning::PhysEntry;
use told_batches::{Change, change_between, change_told};

/// Where what is wanted of switches comes from.
#[derive(Drop)]
pub(crate) enum Source<'a> {
    /// From scratch.
    Anew(&'a Setting),
    /// It is kept, and this was told as it changed.
    Kept(&'a Composed, &'a Turned),
}

/// The entries of rows, without their cookies.
fn entries_of_rows(alloc: Global, rows: List<Written>) -> Result<List<PhysEntry>, Memory>
    ensures { IfOk result (λ entries. entries ≡ map entry_of rows) }
{
    let mut entries = List::with_capacity(alloc, rows.len())?;
    for written in rows.into_vec() {
        entries.push(written.entry)?;
    }
    Ok(entries)
}

/// The entries that are to stand on a switch, as they are kept.
fn kept(alloc: Global, composed: &Composed, n: usize) -> Result<List<PhysEntry>, Memory>
    requires { n < length composed.now.tables }
    ensures { (t : SettingOf) → IsGood t → IsOf t composed.now
        → IfOk result (λ entries. IsPermutation (installed_of (entries_of_of t n)) entries) }
{
    let rows = composed.standing(n)?;
    entries_of_rows(alloc, rows)
}

/// The change to all that is to stand.
fn change_whole(
    alloc: Global,
    composed: &Composed,
    n: usize,
    next: u64,
    standing: &Rows,
) -> Result<Change, Memory>
    requires { n < length composed.now.tables }
    ensures { (t : SettingOf) → IsGood t → IsOf t composed.now
        → IfOk result (λ change. IsChangeTo change next standing.now (installed_of (entries_of_of t n))) }
{
    let wanted = kept(alloc, composed, n)?;
    let change = change_between(alloc, next, standing, &wanted);
    drop(wanted);
    change
}

/// The change that was told, if it is one.
fn change_by(
    alloc: Global,
    next: u64,
    standing: &Rows,
    told: &Batch,
) -> Result<Option<Change>, Memory>
    ensures { (wanted : List PhysEntryOf) → IsToldOf standing.now wanted told.now
        → IfOk result (λ change. IsChangeIf change next standing.now wanted) }
{
    if told.deletes.is_empty() && told.adds.is_empty() {
        return Ok(None);
    }
    Ok(Some(change_told(alloc, next, standing, told)?))
}

/// The change of a switch that is up, and has the entries that it had.
fn change_unmoved(
    alloc: Global,
    composed: &Composed,
    turned: &Turned,
    n: usize,
    next: u64,
    standing: &Rows,
) -> Result<Option<Change>, Memory>
    requires { n < length composed.now.tables }
    ensures { (t : SettingOf) → IsGood t → IsOf t composed.now
        → IsToldFor turned.now n standing.now (installed_of (entries_of_of t n))
        → IfOk result (λ change. IsChangeIf change next standing.now (installed_of (entries_of_of t n))) }
{
    match turned {
        Turned::Nothing => Ok(None),
        Turned::Once(batches) => match batches.get(n) {
            Some(told) => change_by(alloc, next, standing, &told.batch),
            None => Ok(Some(change_whole(alloc, composed, n, next, standing)?)),
        },
        Turned::Often => Ok(Some(change_whole(alloc, composed, n, next, standing)?)),
    }
}

/// The change of a switch that is up to what is kept for it; none only where that stands, and its round doesn't begin.
fn change_kept(
    alloc: Global,
    composed: &Composed,
    turned: &Turned,
    begins: bool,
    n: u32,
    next: u64,
    switch: &SwitchDraft<'_>,
) -> Result<Option<Change>, Memory>
    requires can { n < length composed.now.tables }
    requires up { switch.now.now.outbox.up ≡ true }
    ensures { (t : SettingOf) → IsWantedBy t n composed.now turned.now switch.now → IfOk result (λ change.
        IsChangeFor begins change next switch.now.standing (installed_of (entries_of_of t n))) }
{
    let place = n as usize;
    let standing = switch.standing();
    if begins || !switch.is_unmoved() {
        return Ok(Some(change_whole(alloc, composed, place, next, standing)?));
    }
    change_unmoved(alloc, composed, turned, place, next, standing)
}

/// The change of a switch to what a setting wants of it.
fn change_anew(
    alloc: Global,
    setting: &Setting,
    n: u32,
    next: u64,
    standing: &Rows,
) -> Result<Change, Memory>
    requires { IsFittingSetting setting.now }
    ensures { IfOk result (λ change.
        IsChangeTo change next standing.now (installed_of (entries_of_of setting.now n))) }
{
    let wanted = wanted(alloc, setting, n)?;
    let change = change_between(alloc, next, standing, &wanted);
    drop(wanted);
    change
}

impl<'a> Source<'a> {
    /// The change of a switch that is up to what is wanted of it; none only where that stands, and its round doesn't
    /// begin.
    pub(crate) fn change(
        &self,
        alloc: Global,
        begins: bool,
        n: u32,
        next: u64,
        switch: &SwitchDraft<'_>,
    ) -> Result<Option<Change>, Memory>
        requires can { CanGive self.now (n + 1) }
        requires up { switch.now.now.outbox.up ≡ true }
        ensures { IfOk result (λ change. (t : SettingOf) → Gives t n self.now switch.now
            → IsChangeFor begins change next switch.now.standing (installed_of (entries_of_of t n))) }
    {
        match self {
            Source::Anew(setting) => {
                let standing = switch.standing();
                Ok(Some(change_anew(alloc, setting, n, next, standing)?))
            }
            Source::Kept(composed, turned) => {
                change_kept(alloc, composed, turned, begins, n, next, switch)
            }
        }
    }
}
