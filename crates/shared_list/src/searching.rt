//! Runs of items, and which of them has a wanted one.
ghost use Rattle.std.specs.Prelude.{◌≡◌, ◌<◌, IfSome, find, length, position};
ghost use Rattle.std.specs.Arc.{arc_value};
ghost use Rattle.std.specs.List.{list_any};
ghost use Rattle.std.specs.Option.{option_copied};
ghost use Rattle.shared_list.specs.Behind.{StandBehind};
ghost use Rattle.shared_list.specs.InsideRuns.{HaveItems, IsFirstRun, ends_with, joined};

use crate::wanted::Wanted;
use cv_io::List;
use std::alloc::Global;
use std::sync::Arc;

/// Some items, which copies share.
pub(crate) type Run<T> = Arc<List<T>, Global>;

/// Whether one of these is wanted.
fn has<T, W: Wanted<T>>(items: &List<T>, wanted: &W) -> bool
    ensures { result ≡ list_any (W.wants wanted.now) items.now }
{
    items.as_slice().iter().any(|item| wanted.wants(item))
}

/// Whether the last of these is wanted.
fn ends<T, W: Wanted<T>>(items: &List<T>, wanted: &W) -> bool
    ensures { result ≡ ends_with (W.wants wanted.now) items.now }
{
    match items.as_slice().last() {
        Some(item) => wanted.wants(item),
        None => false,
    }
}

/// The first run that has a wanted item.
pub(crate) fn run_with<T, W: Wanted<T>>(runs: &[Run<T>], wanted: &W) -> Option<usize>
    ensures place { result ≡ position (λ run. list_any (W.wants wanted.now) (arc_value run)) runs.now }
    ensures within { IfSome result (λ place. place < length runs.now) }
{
    runs.iter().position(|run| has(run, wanted))
}

/// The same, where those that are wanted stand behind the others.
pub(crate) fn run_with_first<T, W: Wanted<T>>(runs: &[Run<T>], wanted: &W) -> Option<usize>
    ensures place { HaveItems runs.now → StandBehind (W.wants wanted.now) (joined runs.now)
        → IsFirstRun (W.wants wanted.now) runs.now result }
    ensures within { IfSome result (λ place. place < length runs.now) }
{
    let place = runs.partition_point(|run| !ends(run, wanted));
    if place < runs.len() {
        Some(place)
    } else {
        None
    }
}

/// The first of these that is wanted.
pub(crate) fn first_in<'a, T, W: Wanted<T>>(items: &'a List<T>, wanted: &W) -> Option<&'a T>
    ensures { option_copied result ≡ find (W.wants wanted.now) items.now }
{
    items.as_slice().iter().find(|item| wanted.wants(item))
}

/// The place of the first of these that is wanted.
pub(crate) fn place_in<T, W: Wanted<T>>(items: &List<T>, wanted: &W) -> Option<usize>
    ensures { result ≡ position (W.wants wanted.now) items.now }
{
    items.as_slice().iter().position(|item| wanted.wants(item))
}
