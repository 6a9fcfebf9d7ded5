//! Changes of runs. Where memory is wanted they stay as they were.
ghost use Rattle.std.specs.Prelude.{◌≡◌, ◌<◌, ◌+◌, ◌++◌, [], ◌∷◌, IfOk, IfSome, OnErr, OnOk, Some, drop, find};
ghost use Rattle.std.specs.Prelude.{length, option_map};
ghost use Rattle.std.specs.Prelude.{slice_get, take};
ghost use Rattle.std.specs.Arc.{arc_value};
ghost use Rattle.std.specs.Set.{remove_key};
ghost use Rattle.shared_list.specs.Behind.{put_before};
ghost use Rattle.shared_list.specs.InsideRuns.{HaveItems, IsFirstRun, joined};

use crate::searching::{Run, place_in};
use crate::wanted::Wanted;
use cv_io::{Duplicate, List, Memory};
use std::alloc::Global;
use std::sync::Arc;

/// How many items a run has at most.
const MOST: usize = 32;

/// Copies of the items of the run at a place.
fn copied<T: Duplicate + Drop>(runs: &[Run<T>], place: usize) -> Result<List<T>, Memory>
    requires { place < length runs.now }
    ensures { IfOk result (λ items. option_map (λ run. arc_value run) (slice_get runs.now place) ≡ Some items) }
{
    runs[place].copy()
}

/// Puts items in the place of a run's, in one run or in two; where there are none the run goes.
fn replace<T: Drop>(
    alloc: Global,
    runs: &mut List<Run<T>>,
    place: usize,
    items: List<T>,
) -> Result<(), Memory>
    requires { place < length runs.old }
    ensures replaced { OnOk result (joined runs.new
        ≡ joined (take place runs.old) ++ (items ++ joined (drop (place + 1) runs.old))) }
    ensures memory { OnErr result (runs.new ≡ runs.old) }
    ensures each { HaveItems runs.old → HaveItems runs.new }
{
    if items.is_empty() {
        runs.remove(place);
        return Ok(());
    }
    if items.len() <= MOST {
        runs.set(place, Arc::new(alloc, items)?);
        return Ok(());
    }
    let mut front = items.into_vec();
    let back = front.split_off(MOST / 2)?;
    let first = Arc::new(alloc, List::from_vec(front))?;
    let second = Arc::new(alloc, List::from_vec(back))?;
    // The proof learns that there are fewer runs than a number can count.
    let _ = runs.len();
    runs.insert(place + 1, second)?;
    runs.set(place, first);
    Ok(())
}

/// Appends an item, in a run of its own where the last one is full.
pub(crate) fn append<T: Duplicate + Drop>(
    alloc: Global,
    runs: &mut List<Run<T>>,
    item: T,
) -> Result<(), Memory>
    ensures appended { OnOk result (joined runs.new ≡ joined runs.old ++ item ∷ []) }
    ensures memory { OnErr result (runs.new ≡ runs.old) }
    ensures each { HaveItems runs.old → HaveItems runs.new }
{
    if let Some(last) = room(runs.as_slice()) {
        let mut items = copied(runs.as_slice(), last)?;
        items.push(item)?;
        return replace(alloc, runs, last, items);
    }
    let mut items = List::new(alloc);
    items.push(item)?;
    runs.push(Arc::new(alloc, items)?)
}

/// The place of the last run, where that has room for one more item.
fn room<T>(runs: &[Run<T>]) -> Option<usize>
    ensures { IfSome result (λ last. last + 1 ≡ length runs.now) }
{
    let run = runs.last()?;
    if run.len() < MOST {
        Some(runs.len() - 1)
    } else {
        None
    }
}

/// Puts an item in front of the first that is wanted, in the first run that has one.
pub(crate) fn put<T: Duplicate + Drop, W: Wanted<T>>(
    alloc: Global,
    runs: &mut List<Run<T>>,
    place: usize,
    wanted: &W,
    item: T,
) -> Result<(), Memory>
    requires { place < length runs.old }
    ensures put { IsFirstRun (W.wants wanted.now) runs.old (Some place)
        → OnOk result (joined runs.new ≡ put_before (W.wants wanted.now) item (joined runs.old)) }
    ensures memory { OnErr result (runs.new ≡ runs.old) }
    ensures each { HaveItems runs.old → HaveItems runs.new }
{
    let mut items = copied(runs.as_slice(), place)?;
    let at = place_in(&items, wanted).unwrap_or(items.len());
    items.insert(at, item)?;
    replace(alloc, runs, place, items)
}

/// Takes the first item that is wanted out of the first run that has one.
pub(crate) fn take_from<T: Duplicate + Drop, W: Wanted<T>>(
    alloc: Global,
    runs: &mut List<Run<T>>,
    place: usize,
    wanted: &W,
) -> Result<Option<T>, Memory>
    requires { place < length runs.old }
    ensures item { IsFirstRun (W.wants wanted.now) runs.old (Some place)
        → IfOk result (λ item. item ≡ find (W.wants wanted.now) (joined runs.old)) }
    ensures left { IsFirstRun (W.wants wanted.now) runs.old (Some place)
        → OnOk result (joined runs.new ≡ remove_key (W.wants wanted.now) (joined runs.old)) }
    ensures memory { OnErr result (runs.new ≡ runs.old) }
    ensures each { HaveItems runs.old → HaveItems runs.new }
{
    let mut items = copied(runs.as_slice(), place)?;
    let Some(at) = place_in(&items, wanted) else {
        return Ok(None);
    };
    let item = items.remove(at);
    replace(alloc, runs, place, items)?;
    Ok(Some(item))
}
