//! Runs of rows: each has some of them, and those of one run stand in front of those of the next.
ghost use Rattle.std.specs.Prelude.{◌≡◌, ◌<◌, ◌≤◌, ◌+◌, ◌++◌, [], IfOk, OnOk, drop, false, find, filter, length, not};
ghost use Rattle.std.specs.Prelude.{slice_get, take, true};
ghost use Rattle.std.specs.Arc.{arc_value};
ghost use Rattle.std.specs.List.{AllByRecursion};
ghost use Rattle.install_plan.specs.declared.written.Written.{Written as WrittenOf};
ghost use Rattle.policy_meaning.specs.LeafFact.{EachPair};
ghost use Rattle.shared_rows.specs.Rows.{IsLower, Rise, has_key, is_past};
ghost use Rattle.shared_rows.specs.InsideRuns.{HaveRows, at_key, begins_past, joined};

use crate::keys::{cmp_keys, is_same_key};
use cv_io::{Duplicate, List, Memory};
use install_plan::Written;
use std::alloc::Global;
use std::sync::Arc;
use switch_meaning::PhysEntry;

/// Some rows, by rising key, which copies share.
pub(crate) type Run = Arc<List<Written>, Global>;

/// How many rows a run has at most.
const MOST: usize = 32;

/// A run taken out of the others, at its place.
#[derive(Drop)]
pub(crate) struct Opened {
    pub(crate) place: usize,
    pub(crate) rows: List<Written>,
}

/// Whether a run begins with a row that comes behind this key.
fn is_behind(run: &Run, entry: &PhysEntry) -> bool
    ensures { result ≡ begins_past entry.now run.now }
{
    match run.get(0) {
        Some(row) => cmp_keys(&row.entry, entry).is_gt(),
        None => false,
    }
}

/// The place of the run to which rows of this key belong: the last one that doesn't begin behind it, or the first.
fn place_for(runs: &[Run], entry: &PhysEntry) -> usize
    requires { 0 < length runs.now }
    ensures within { result < length runs.now }
    ensures before { Rise (joined runs.now) → HaveRows runs.now
        → AllByRecursion (λ (w : WrittenOf). is_past entry.now w ≡ false) (joined (take result runs.now)) }
    ensures behind { Rise (joined runs.now) → HaveRows runs.now
        → AllByRecursion (λ (w : WrittenOf). is_past entry.now w ≡ true) (joined (drop (result + 1) runs.now)) }
    ensures apart { EachPair IsLower (joined runs.now) → HaveRows runs.now
        → AllByRecursion (λ (w : WrittenOf). has_key entry.now w ≡ false) (joined (take result runs.now)) }
{
    let begun = runs.partition_point(|run| !is_behind(run, entry));
    begun.saturating_sub(1)
}

/// The rows of a run: its own, where no copy shares it.
fn own(run: Run) -> Result<List<Written>, Memory>
    ensures { IfOk result (λ rows. rows ≡ arc_value run) }
{
    match Arc::try_unwrap(run) {
        Ok(rows) => Ok(rows),
        Err(shared) => shared.copy(),
    }
}

/// Takes out the run to which rows of this key belong. Where there is no run it has no rows.
pub(crate) fn open(alloc: Global, runs: &mut List<Run>, entry: &PhysEntry) -> Result<Opened, Memory>
    ensures place { IfOk result (λ o. o.place ≤ length runs.new) }
    ensures rows { IfOk result (λ o. joined runs.old
        ≡ joined (take o.place runs.new) ++ (o.rows ++ joined (drop o.place runs.new))) }
    ensures before { Rise (joined runs.old) → HaveRows runs.old → IfOk result (λ o.
        AllByRecursion (λ (w : WrittenOf). is_past entry.now w ≡ false) (joined (take o.place runs.new))) }
    ensures behind { Rise (joined runs.old) → HaveRows runs.old → IfOk result (λ o.
        AllByRecursion (λ (w : WrittenOf). is_past entry.now w ≡ true) (joined (drop o.place runs.new))) }
    ensures apart { EachPair IsLower (joined runs.old) → HaveRows runs.old → IfOk result (λ o.
        AllByRecursion (λ (w : WrittenOf). has_key entry.now w ≡ false) (joined (take o.place runs.new))) }
    ensures each { HaveRows runs.old → OnOk result (HaveRows runs.new) }
{
    if runs.is_empty() {
        return Ok(Opened {
            place: 0,
            rows: List::new(alloc),
        });
    }
    let place = place_for(runs.as_slice(), entry);
    let rows = own(runs.remove(place))?;
    Ok(Opened { place, rows })
}

/// Puts rows in at a place, as one run.
fn put(alloc: Global, runs: &mut List<Run>, place: usize, rows: List<Written>) -> Result<(), Memory>
    requires place { place ≤ length runs.old }
    requires some { 0 < length rows }
    ensures long { OnOk result (length runs.new ≡ length runs.old + 1) }
    ensures front { OnOk result (take place runs.new ≡ take place runs.old) }
    ensures back { OnOk result (joined (drop place runs.new) ≡ rows ++ joined (drop place runs.old)) }
    ensures each { HaveRows runs.old → OnOk result (HaveRows runs.new) }
{
    let run = Arc::new(alloc, rows)?;
    runs.insert(place, run)?;
    Ok(())
}

/// Puts rows in at a place, as one run or as two; none where there are none.
pub(crate) fn close(
    alloc: Global,
    runs: &mut List<Run>,
    place: usize,
    rows: List<Written>,
) -> Result<(), Memory>
    requires { place ≤ length runs.old }
    ensures rows { OnOk result (joined runs.new
        ≡ joined (take place runs.old) ++ (rows ++ joined (drop place runs.old))) }
    ensures each { HaveRows runs.old → OnOk result (HaveRows runs.new) }
{
    if rows.is_empty() {
        return Ok(());
    }
    if rows.len() <= MOST {
        put(alloc, runs, place, rows)?;
        return Ok(());
    }
    let mut first = rows.into_vec();
    let second = first.split_off(MOST / 2)?;
    put(alloc, runs, place, List::from_vec(second))?;
    put(alloc, runs, place, List::from_vec(first))?;
    Ok(())
}

/// How many of these rows don't come behind a key.
pub(crate) fn count_up_to(rows: &[Written], entry: &PhysEntry) -> usize
    ensures within { result ≤ length rows.now }
    ensures before { Rise rows.now
        → AllByRecursion (λ (w : WrittenOf). is_past entry.now w ≡ false) (take result rows.now) }
    ensures behind { Rise rows.now
        → AllByRecursion (λ (w : WrittenOf). is_past entry.now w ≡ true) (drop result rows.now) }
{
    rows.partition_point(|row| !cmp_keys(&row.entry, entry).is_gt())
}

/// How many of these rows come before a key.
fn count_before(rows: &[Written], entry: &PhysEntry) -> usize
    ensures within { result ≤ length rows.now }
    ensures apart { EachPair IsLower rows.now
        → AllByRecursion (λ (w : WrittenOf). has_key entry.now w ≡ false) (take result rows.now) }
    ensures others { EachPair IsLower rows.now
        → AllByRecursion (λ (w : WrittenOf). has_key entry.now w ≡ false) (drop (result + 1) rows.now) }
{
    rows.partition_point(|row| cmp_keys(&row.entry, entry).is_lt())
}

/// Whether the row at a place has a key.
fn is_at(rows: &[Written], place: usize, entry: &PhysEntry) -> bool
    ensures { result ≡ at_key entry.now (slice_get rows.now place) }
{
    match rows.get(place) {
        Some(row) => is_same_key(&row.entry, entry),
        None => false,
    }
}

/// Takes out the row of a key, if there is one.
pub(crate) fn take_out(rows: &mut List<Written>, entry: &PhysEntry) -> Option<Written>
    ensures row { EachPair IsLower rows.old → result ≡ find (has_key entry.now) rows.old }
    ensures rows { EachPair IsLower rows.old → rows.new ≡ filter (λ w. not (has_key entry.now w)) rows.old }
{
    let place = count_before(rows.as_slice(), entry);
    if !is_at(rows.as_slice(), place, entry) {
        return None;
    }
    Some(rows.remove(place))
}
