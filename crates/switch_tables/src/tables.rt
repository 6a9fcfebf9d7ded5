//! What is to stand on each switch, changed switch by switch; want of memory takes back what was changed.
ghost use Rattle.std.specs.Prelude.{◌≡◌, ◌≤◌, ◌<◌, ◌∷◌, [], ℕ, IfOk, OnErr, length, map, slice_get};
ghost use Rattle.switch_tables.specs.Turning.{AreKept, AreStopped, AreTurned, IsKeptAt, IsTurnedAt, IsUndoneAt};
ghost use Rattle.switch_tables.specs.Turning.{OthersStay, after_all as after_all_of, cookie_after, up_of};

use crate::switch_table::SwitchTable;
use cv_io::{List, Memory};
use exact_gate::GateDelta;
use install_plan::{Batch, Written};
use std::alloc::Global;

/// What makes what stands on a switch what is to stand there. Where the switch isn't up, it isn't written, and
/// takes no cookies.
#[derive(PartialEq, Eq, Debug, Drop)]
pub struct SwitchBatch {
    pub up: bool,
    pub batch: Batch,
}

/// The next cookie after those of some entries.
#[tactic(auto, using(crate::proofs::Cookies::after_next, crate::proofs::Cookies::after_end))]
fn after_all(next: u64, adds: &[Written]) -> u64
    ensures { result ≡ after_all_of next adds.now }
{
    let mut cookie = next;
    for _written in adds {
        cookie = cookie.saturating_add(1);
    }
    cookie
}

/// The next cookie after a switch's batch.
fn after_batch(next: u64, batch: &SwitchBatch) -> u64
    ensures { result ≡ cookie_after next (batch.now ∷ []) }
{
    if batch.up {
        after_all(next, batch.batch.adds.as_slice())
    } else {
        next
    }
}

/// What is to stand on the switch of a number is changed.
fn change_nth(
    tables: &mut [SwitchTable],
    n: usize,
    delta: &GateDelta,
    next: u64,
) -> Result<Batch, Memory>
    requires { n < length tables.old }
    ensures long { length tables.new ≡ length tables.old }
    ensures others { OthersStay n tables.old tables.new }
    ensures turned { IfOk result (IsTurnedAt n delta.now next tables.old tables.new) }
    ensures memory { OnErr result (IsKeptAt n tables.old tables.new) }
{
    tables[n].change(&delta.gone, &delta.come, next)
}

/// The last change of the switch of a number is taken back.
fn undo_nth(tables: &mut [SwitchTable], n: usize)
    requires { n < length tables.old }
    ensures long { length tables.new ≡ length tables.old }
    ensures others { OthersStay n tables.old tables.new }
    ensures undone { IsUndoneAt n tables.old tables.new }
{
    tables[n].undo();
}

/// The last changes of the first so many switches are taken back.
fn undo_first(tables: &mut [SwitchTable], count: usize)
    requires { count ≤ length tables.old }
    ensures long { length tables.new ≡ length tables.old }
    ensures undone { (n : ℕ) → n < count → IsUndoneAt n tables.old tables.new }
    ensures rest { (n : ℕ) → count ≤ n → slice_get tables.new n ≡ slice_get tables.old n }
{
    for n in 0..count {
        undo_nth(tables, n);
    }
}

/// The last change of each switch is taken back. It takes no memory.
pub fn undo_all(tables: &mut [SwitchTable])
    ensures long { length tables.new ≡ length tables.old }
    ensures undone { (n : ℕ) → IsUndoneAt n tables.old tables.new }
{
    let count = tables.len();
    undo_first(tables, count);
}

/// The switches are changed one after the other; `done` counts those that were.
fn change_each(
    alloc: Global,
    tables: &mut [SwitchTable],
    deltas: &[GateDelta],
    ups: &[bool],
    next: u64,
    done: &mut usize,
) -> Result<List<SwitchBatch>, Memory>
    requires deltas { length deltas.now ≡ length tables.old }
    requires ups { length ups.now ≡ length tables.old }
    requires done { done.old ≡ 0 }
    ensures long { length tables.new ≡ length tables.old }
    ensures bound { done.new ≤ length tables.old }
    ensures count { IfOk result (λ batches. length batches ≡ length tables.old) }
    ensures turned { IfOk result (AreTurned (length tables.old) deltas.now next tables.old tables.new) }
    ensures ups { IfOk result (λ batches. map up_of batches ≡ ups.now) }
    ensures memory { OnErr result (AreStopped done.new tables.old tables.new) }
{
    let mut batches = List::new(alloc);
    let mut cookie = next;
    for n in 0..tables.len() {
        let batch = change_nth(tables, n, &deltas[n], cookie)?;
        *done = n + 1;
        let batch = SwitchBatch { up: ups[n], batch };
        cookie = after_batch(cookie, &batch);
        batches.push(batch)?;
    }
    Ok(batches)
}

/// What is to stand on each switch is changed, and the batches of those that are up take cookies from a number
/// on. Where memory is wanting, all is as before.
#[tactic(auto, using(crate::proofs::Each::stopped_kept))]
pub fn change_all(
    alloc: Global,
    tables: &mut [SwitchTable],
    deltas: &[GateDelta],
    ups: &[bool],
    next: u64,
) -> Result<List<SwitchBatch>, Memory>
    requires deltas { length deltas.now ≡ length tables.old }
    requires ups { length ups.now ≡ length tables.old }
    ensures long { length tables.new ≡ length tables.old }
    ensures count { IfOk result (λ batches. length batches ≡ length tables.old) }
    ensures turned { IfOk result (AreTurned (length tables.old) deltas.now next tables.old tables.new) }
    ensures ups { IfOk result (λ batches. map up_of batches ≡ ups.now) }
    ensures memory { OnErr result (AreKept tables.old tables.new) }
{
    let mut done = 0;
    match change_each(alloc, tables, deltas, ups, next, &mut done) {
        Ok(batches) => Ok(batches),
        Err(wanted) => {
            undo_first(tables, done);
            Err(wanted)
        }
    }
}
