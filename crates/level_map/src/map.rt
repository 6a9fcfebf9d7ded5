ghost use Rattle.std.specs.Prelude.{◌≡◌, ◌≢◌, ℕ, ◌+◌, ◌-◌, ◌≤◌, ◌^◌, [], IsSome, IsOk, IfOk, IfErr, OnErr};

use crate::placed::{PlaceFault, Placed};
use crate::ranked::Ranked;
use crate::sorted::{place_new, search};
use cv_io::{Duplicate, Memory};
use std::alloc::Global;
use std::marker::Model;

/// The levels of a table's ranks.
#[derive(Debug, Drop)]
pub struct LevelMap {
    size: u32,
    ranked: Vec<Ranked>,
}

impl Model for LevelMap {
    ghost use Rattle.level_map.specs.Levels.{Levels, IsLevelling};

    ghost Value = { Levels };

    ghost view = { λ a. record { size = a.size; ranked = a.ranked.items } };

    ghost invariant = { λ a. IsLevelling a.size a.ranked.items };
}

impl LevelMap {
    ghost use Rattle.level_map.specs.Levels.{level_of, FollowsRanks};
    ghost use Rattle.level_map.specs.Placing.{placing, HasNoRoom, IsFaultOf, KeepsOthers, answered, dropping};

    /// No ranks yet, in a table of `bits` bits.
    pub fn new(alloc: Global, bits: u32) -> Self
        requires from { 2 ≤ bits }
        requires to { bits ≤ 15 }
        ensures { result ≡ record { size = 2 ^ bits; ranked = [] } }
    {
        LevelMap {
            size: 1 << bits,
            ranked: Vec::new(alloc),
        }
    }

    /// How many levels there are.
    pub fn size(&self) -> u32
        ensures value { result ≡ self.now.size }
        ensures from { 4 ≤ result }
        ensures to { result ≤ 32768 }
    {
        self.size
    }

    /// Gives a rank its level, if it has none yet: the middle between its neighbours' levels. Where
    /// there is none between them, all ranks are renumbered.
    pub fn place(&mut self, rank: u32) -> Result<Placed, PlaceFault>
        ensures placed { IfOk result (λ placed. placing self.old rank ≡ (placed, self.new)) }
        ensures level { IfOk result (λ placed. level_of self.new rank ≡ Some (answered placed)) }
        ensures others { IfOk result (KeepsOthers self.old self.new rank) }
        ensures orderly { FollowsRanks self.new }

        // A rank that is there is found, and a new one wants room.
        ensures known { IsSome (level_of self.old rank) → IsOk result }
        ensures full { HasNoRoom self.old rank
            → result ≡ Err (PlaceFault.Full (self.old.size - 2) (self.old.size - 2)) }
        ensures fault { IfErr result (IsFaultOf self.old rank) }
        ensures err { OnErr result (self.new ≡ self.old) }
    {
        let at = match search(&self.ranked, rank) {
            Ok(at) => {
                return Ok(Placed::Kept {
                    level: self.ranked[at].level,
                });
            }
            Err(at) => at,
        };
        let ranks = self.ranked.len() as u32;
        let limit = self.size - 2;
        if ranks == limit {
            return Err(PlaceFault::Full { ranks, limit });
        }
        place_new(&mut self.ranked, self.size, rank, at)
    }

    /// Takes a rank out. The others keep their levels.
    pub fn drop_rank(&mut self, rank: u32)
        ensures dropped { self.new ≡ dropping self.old rank }
        ensures absent { level_of self.new rank ≡ None }
        ensures others { (r : ℕ) → r ≢ rank → level_of self.new r ≡ level_of self.old r }
        ensures orderly { FollowsRanks self.new }
    {
        if let Ok(at) = search(&self.ranked, rank) {
            self.ranked.remove(at);
        }
    }

    /// The level of a rank.
    pub fn level(&self, rank: u32) -> Option<u32>
        ensures level { result ≡ level_of self.now rank }
        ensures orderly { FollowsRanks self.now }
    {
        match search(&self.ranked, rank) {
            Ok(at) => Some(self.ranked[at].level),
            Err(_) => None,
        }
    }
}

impl Duplicate for LevelMap {
    fn copy(&self) -> Result<LevelMap, Memory> {
        Ok(LevelMap {
            size: self.size,
            ranked: Vec::from_slice(*self.ranked.allocator(), &self.ranked)?,
        })
    }
}
