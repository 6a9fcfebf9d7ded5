//! A list that copies share.
ghost use Rattle.std.specs.Prelude.{◌≡◌, ◌++◌, [], ◌∷◌, IfOk, OnErr, OnOk, find};
ghost use Rattle.std.specs.Option.{option_copied};
ghost use Rattle.std.specs.Set.{remove_key};
ghost use Rattle.shared_list.specs.Behind.{StandBehind, put_before};

use crate::changing::{append, put, take_from};
use crate::searching::{Run, first_in, run_with, run_with_first};
use crate::wanted::Wanted;
use cv_io::{Duplicate, List, Memory};
use std::alloc::Global;
use std::marker::Model;
use std::sync::Arc;

/// A list. Where memory is wanted, a change leaves it as it was.
#[derive(Drop)]
pub struct SharedList<T> {
    alloc: Global,
    runs: List<Run<T>>,
}

impl<T> Model for SharedList<T> {
    ghost use Rattle.std.specs.Prelude.{List};
    ghost use Rattle.shared_list.specs.InsideRuns.{HaveItems, joined};

    ghost Value = { List T };

    ghost view = { λ a. joined a.runs };

    ghost invariant = { λ a. HaveItems a.runs };
}

impl<T> SharedList<T> {
    /// The empty list. It takes no memory.
    pub fn new(alloc: Global) -> Self
        ensures { result ≡ [] }
    {
        SharedList {
            alloc,
            runs: List::new(alloc),
        }
    }

    /// The first item that is wanted, where those that are wanted stand behind the others: by a binary search.
    pub fn first<W: Wanted<T>>(&self, wanted: &W) -> Option<&T>
        ensures { StandBehind (W.wants wanted.now) self.now
            → option_copied result ≡ find (W.wants wanted.now) self.now }
    {
        let runs = self.runs.as_slice();
        match run_with_first(runs, wanted) {
            Some(place) => first_in(&runs[place], wanted),
            None => None,
        }
    }
}

impl<T: Duplicate + Drop> SharedList<T> {
    /// Appends an item.
    pub fn push(&mut self, item: T) -> Result<(), Memory>
        ensures pushed { OnOk result (self.new ≡ self.old ++ item ∷ []) }
        ensures memory { OnErr result (self.new ≡ self.old) }
    {
        append(self.alloc, &mut self.runs, item)
    }

    /// Puts an item in front of the first that is wanted, and at the end where none is: by a binary search, where those
    /// that are wanted stand behind the others.
    pub fn put<W: Wanted<T>>(&mut self, wanted: &W, item: T) -> Result<(), Memory>
        ensures put { StandBehind (W.wants wanted.now) self.old
            → OnOk result (self.new ≡ put_before (W.wants wanted.now) item self.old) }
        ensures memory { OnErr result (self.new ≡ self.old) }
    {
        match run_with_first(self.runs.as_slice(), wanted) {
            Some(place) => put(self.alloc, &mut self.runs, place, wanted, item),
            None => append(self.alloc, &mut self.runs, item),
        }
    }

    /// Takes the first item that is wanted out, if there is one: item by item from the front.
    pub fn take_first<W: Wanted<T>>(&mut self, wanted: &W) -> Result<Option<T>, Memory>
        ensures item { IfOk result (λ item. item ≡ find (W.wants wanted.now) self.old) }
        ensures left { OnOk result (self.new ≡ remove_key (W.wants wanted.now) self.old) }
        ensures memory { OnErr result (self.new ≡ self.old) }
    {
        match run_with(self.runs.as_slice(), wanted) {
            Some(place) => take_from(self.alloc, &mut self.runs, place, wanted),
            None => Ok(None),
        }
    }

    /// The same by a binary search, where those that are wanted stand behind the others.
    pub fn take<W: Wanted<T>>(&mut self, wanted: &W) -> Result<Option<T>, Memory>
        ensures item { StandBehind (W.wants wanted.now) self.old
            → IfOk result (λ item. item ≡ find (W.wants wanted.now) self.old) }
        ensures left { StandBehind (W.wants wanted.now) self.old
            → OnOk result (self.new ≡ remove_key (W.wants wanted.now) self.old) }
        ensures memory { OnErr result (self.new ≡ self.old) }
    {
        match run_with_first(self.runs.as_slice(), wanted) {
            Some(place) => take_from(self.alloc, &mut self.runs, place, wanted),
            None => Ok(None),
        }
    }

    /// Copies of all items.
    pub fn listed(&self) -> Result<List<T>, Memory>
        ensures { IfOk result (λ items. items ≡ self.now) }
    {
        let mut items = List::new(self.alloc);
        for run in self.runs.as_slice() {
            items.append(run.copy()?)?;
        }
        Ok(items)
    }
}

impl<T: Drop> Duplicate for SharedList<T> {
    fn copy(&self) -> Result<SharedList<T>, Memory> {
        let mut runs = List::with_capacity(self.alloc, self.runs.len())?;
        for run in self.runs.as_slice() {
            runs.push(Arc::try_clone(run)?)?;
        }
        Ok(SharedList {
            alloc: self.alloc,
            runs,
        })
    }
}
