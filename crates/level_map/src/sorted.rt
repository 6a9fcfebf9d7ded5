//! The work on pairs that stand in the order of their ranks.
ghost use Rattle.std.specs.Prelude.{◌≡◌, ◌<◌, ◌≤◌, ◌+◌, ◌-◌, ◌*◌, ◌/◌, ◌^◌, IfOk, IfErr, OnOk, OnErr, length, take};
ghost use Rattle.std.specs.Prelude.{drop};
ghost use Rattle.level_map.specs.Levels.{IsRising, level_among};
ghost use Rattle.level_map.specs.Placing.{greatest_level, least_level, even_level, placing_new};
ghost use Rattle.level_map.specs.InsidePlaces.{RanksRise, IsPlaceOf, IsGapFor, numbered};

use crate::placed::{PlaceFault, Placed};
use crate::ranked::Ranked;

/// Where the rank is, or where it would go.
pub fn search(ranked: &[Ranked], rank: u32) -> Result<usize, usize>
    requires { RanksRise 0 ranked.now }
    ensures found { IfOk result (IsPlaceOf ranked.now rank) }
    ensures absent { IfErr result (IsGapFor ranked.now rank) }
{
    ranked.binary_search_by_key(&rank, |pair| pair.rank)
}

/// The levels on both sides of a place: of the pair before it, or 1, and of the pair there, or the size.
pub fn gap_at(ranked: &[Ranked], size: u32, at: usize) -> (u32, u32)
    requires rising { IsRising 0 2 size ranked.now }
    requires in_range { at ≤ length ranked.now }
    ensures below { result.0 ≡ greatest_level (take at ranked.now) }
    ensures above { result.1 ≡ least_level size (drop at ranked.now) }
{
    let below = if at == 0 { 1 } else { ranked[at - 1].level };
    let above = if at < ranked.len() {
        ranked[at].level
    } else {
        size
    };
    (below, above)
}

/// The level of the `i`-th rank from below where `count` ranks are spread evenly over the levels.
pub fn level_of_place(size: u32, count: u32, i: u32) -> u32
    requires size_in { size ≤ 2 ^ 15 }
    requires count_in { count + 2 ≤ size }
    requires i_in { i ≤ count }
    ensures { result ≡ even_level size count i }
{
    1 + i * (size - 1) / (count + 1)
}

/// Gives the ranks the levels at which they are spread evenly.
pub fn renumber(ranked: &mut [Ranked], size: u32)
    requires size_in { size ≤ 2 ^ 15 }
    requires count_in { length ranked.old + 2 ≤ size }
    ensures { ranked.new ≡ numbered size (length ranked.old) 1 ranked.old }
{
    let count = ranked.len() as u32;
    for i in 0..ranked.len() {
        ranked[i].level = level_of_place(size, count, i as u32 + 1);
    }
}

/// Places a rank that is not there yet, at the place where it goes.
pub fn place_new(
    ranked: &mut Vec<Ranked>,
    size: u32,
    rank: u32,
    at: usize,
) -> Result<Placed, PlaceFault>
    requires rising { IsRising 0 2 size ranked.old.items }
    requires gap { IsGapFor ranked.old.items rank at }
    requires room { length ranked.old.items + 3 ≤ size }
    requires size_in { size ≤ 2 ^ 15 }
    ensures placed { IfOk result (λ placed. placing_new (record { size = size; ranked = ranked.old.items }) rank
        ≡ (placed, record { size = size; ranked = ranked.new.items })) }
    ensures rising { IsRising 0 2 size ranked.new.items }
    ensures memory { IfErr result (λ fault. (fault ≡ PlaceFault.Memory) × (ranked.new.items ≡ ranked.old.items)) }
{
    let (below, above) = gap_at(ranked, size, at);
    if above - below >= 2 {
        let level = below + (above - below) / 2;
        ranked.insert(at, Ranked { rank, level })?;
        Ok(Placed::Kept { level })
    } else {
        ranked.insert(at, Ranked { rank, level: 0 })?;
        renumber(ranked, size);
        let count = ranked.len() as u32;
        Ok(Placed::Renumbered {
            level: level_of_place(size, count, at as u32 + 1),
        })
    }
}
