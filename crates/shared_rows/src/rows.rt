//! The rows that stand on a switch.
ghost use Rattle.std.specs.Prelude.{◌≡◌, ◌++◌, [], ◌∷◌, IfOk, filter, find, not};
ghost use Rattle.policy_meaning.specs.LeafFact.{EachPair};
ghost use Rattle.shared_rows.specs.Rows.{IsLower, Rise, by_key, has_key};

use crate::runs::{Opened, Run, close, count_up_to, open, take_out};
use cv_io::{Duplicate, List, Memory};
use install_plan::Written;
use std::alloc::Global;
use std::marker::Model;
use std::sync::Arc;
use switch_meaning::PhysEntry;

/// Rows by rising key.
#[derive(Drop)]
pub struct Rows {
    alloc: Global,
    runs: List<Run>,
}

impl Model for Rows {
    ghost use Rattle.std.specs.Prelude.{List};
    ghost use Rattle.install_plan.specs.declared.written.Written.{Written};
    ghost use Rattle.shared_rows.specs.InsideRuns.{HaveRows, joined};

    ghost Value = { List Written };

    ghost view = { λ a. joined a.runs };

    ghost invariant = { λ a. HaveRows a.runs };
}

/// Rows of which one was taken out, if it was there.
#[derive(Drop)]
pub struct Taken {
    pub rows: Rows,
    pub row: Option<Written>,
}

impl Rows {
    /// No rows. It takes no memory.
    pub fn new(alloc: Global) -> Rows
        ensures { result ≡ [] }
    {
        Rows {
            alloc,
            runs: List::new(alloc),
        }
    }

    /// Rows by key, those of one key in the order in which they are listed.
    pub fn of(alloc: Global, rows: List<Written>) -> Result<Rows, Memory>
        ensures { IfOk result (λ all. all ≡ by_key rows) }
    {
        let mut all = Rows::new(alloc);
        for row in rows.into_vec() {
            all = all.with(row)?;
        }
        Ok(all)
    }

    /// With one row more, in its place by key: behind those of the same key.
    pub fn with(self, row: Written) -> Result<Rows, Memory>
        ensures { Rise self → IfOk result (λ rows. rows ≡ by_key (self ++ row ∷ [])) }
    {
        let Rows { alloc, mut runs } = self;
        let Opened { place, mut rows } = open(alloc, &mut runs, &row.entry)?;
        let behind = count_up_to(rows.as_slice(), &row.entry);
        rows.insert(behind, row)?;
        close(alloc, &mut runs, place, rows)?;
        Ok(Rows { alloc, runs })
    }

    /// Without the row of a key.
    pub fn without(self, entry: &PhysEntry) -> Result<Taken, Memory>
        ensures row { EachPair IsLower self → IfOk result (λ t. t.row ≡ find (has_key entry.now) self) }
        ensures rows { EachPair IsLower self
            → IfOk result (λ t. t.rows ≡ filter (λ w. not (has_key entry.now w)) self) }
    {
        let Rows { alloc, mut runs } = self;
        let Opened { place, mut rows } = open(alloc, &mut runs, entry)?;
        let row = take_out(&mut rows, entry);
        close(alloc, &mut runs, place, rows)?;
        Ok(Taken {
            rows: Rows { alloc, runs },
            row,
        })
    }

    /// Copies of all rows.
    pub fn listed(&self) -> Result<List<Written>, Memory>
        ensures { IfOk result (λ rows. rows ≡ self.now) }
    {
        let mut rows = List::new(self.alloc);
        for run in self.runs.as_slice() {
            rows.append(run.copy()?)?;
        }
        Ok(rows)
    }
}

impl Duplicate for Rows {
    fn copy(&self) -> Result<Rows, Memory> {
        let mut runs = List::with_capacity(self.alloc, self.runs.len())?;
        for run in self.runs.as_slice() {
            runs.push(Arc::try_clone(run)?)?;
        }
        Ok(Rows {
            alloc: self.alloc,
            runs,
        })
    }
}
