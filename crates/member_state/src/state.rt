//! A member's table with its levels.
ghost use Rattle.std.specs.Prelude.{◌≡◌, ◌≤◌};

use cv_io::{Duplicate, Memory};
use level_map::LevelMap;
use member_table::Table;
use std::alloc::Global;
use std::marker::Model;

/// A member's table, and the levels of the ranks that its entries have.
#[derive(Drop)]
pub struct MemberState {
    pub(crate) alloc: Global,
    pub(crate) table: Table,
    pub(crate) levels: LevelMap,
}

impl Model for MemberState {
    ghost use Rattle.member_state.specs.States.{HeldState, IsKept, held_by};

    ghost Value = { HeldState };

    ghost view = { λ a. held_by a.table a.levels };

    ghost invariant = { λ a. IsKept (held_by a.table a.levels).state };
}

impl MemberState {
    ghost use Rattle.member_state.specs.States.{IsSoundState, held_table, opening};

    /// A state without entries, of 2 to the power of the bits levels, which may have so many entries. It takes no
    /// memory.
    pub fn new(alloc: Global, bits: u32, limit: u32) -> MemberState
        requires from { 2 ≤ bits }
        requires to { bits ≤ 15 }
        ensures { result.state ≡ opening bits limit }
    {
        MemberState {
            alloc,
            table: Table::new(alloc, limit),
            levels: LevelMap::new(alloc, bits),
        }
    }

    /// Its table. What is true of every state is said here.
    pub fn table(&self) -> &Table
        ensures table { result.now ≡ held_table self.now }
        ensures sound { IsSoundState self.now.state }
    {
        // The proof learns what is true of every table.
        let _ = self.table.len();
        &self.table
    }

    /// The levels of the ranks of its entries.
    pub fn levels(&self) -> &LevelMap
        ensures { result.now ≡ self.now.state.levels }
    {
        &self.levels
    }
}

impl Duplicate for MemberState {
    fn copy(&self) -> Result<MemberState, Memory> {
        // The table comes last, so that no failure has to drop one.
        let levels = self.levels.copy()?;
        Ok(MemberState {
            alloc: self.alloc,
            table: self.table.copy()?,
            levels,
        })
    }
}
