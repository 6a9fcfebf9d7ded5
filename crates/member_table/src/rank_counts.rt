//! How often each rank is there.
ghost use Rattle.std.specs.Prelude.{◌≡◌, ◌==◌, ◌<◌, ◌≤◌, ◌+◌, ◌-◌, ◌^◌, ℕ, IsSome, Some, nat_eq, nat_lt, if◌then◌else◌};
ghost use Rattle.indexmap.specs.IndexMap.{get, spare};
ghost use Rattle.member_table.specs.InsideRanking.{count_at};

use indexmap::IndexMap;

/// How often a rank is there.
fn count(counts: &IndexMap<u32, u64>, rank: u32) -> u64
    ensures { result ≡ count_at (get nat_eq counts.now) rank }
{
    match counts.get(&rank) {
        Some(count) => *count,
        None => 0,
    }
}

/// Whether the rank is there.
pub fn has(counts: &IndexMap<u32, u64>, rank: u32) -> bool
    ensures { result ≡ nat_lt 0 (count_at (get nat_eq counts.now) rank) }
{
    count(counts, rank) > 0
}

/// Adds a rank.
pub fn add(counts: &mut IndexMap<u32, u64>, rank: u32)
    requires room { 0 < spare counts.old }
    requires bound { count_at (get nat_eq counts.old) rank + 1 < 2 ^ 64 }
    ensures counted { (q : ℕ) → count_at (get nat_eq counts.new) q
        ≡ (if rank == q then count_at (get nat_eq counts.old) rank + 1 else count_at (get nat_eq counts.old) q) }
    ensures room { spare counts.old ≤ spare counts.new + 1 }
{
    let before = count(counts, rank);
    counts.insert(rank, before + 1).unwrap();
}

/// Writes the count of a rank that is there.
fn write(counts: &mut IndexMap<u32, u64>, rank: u32, count: u64)
    requires { IsSome (get nat_eq counts.old rank) }
    ensures counts { (q : ℕ) → get nat_eq counts.new q ≡ (if rank == q then Some count else get nat_eq counts.old q) }
    ensures room { spare counts.old ≤ spare counts.new }
{
    if let Some(place) = counts.get_mut(&rank) {
        *place = count;
    }
}

/// Takes a rank out once, where it is there.
pub fn forget(counts: &mut IndexMap<u32, u64>, rank: u32)
    ensures counted { (q : ℕ) → count_at (get nat_eq counts.new) q
        ≡ (if rank == q then count_at (get nat_eq counts.old) rank - 1 else count_at (get nat_eq counts.old) q) }
    ensures room { spare counts.old ≤ spare counts.new }
{
    let before = count(counts, rank);
    if before > 1 {
        write(counts, rank, before - 1);
    } else {
        counts.swap_remove(&rank);
    }
}
