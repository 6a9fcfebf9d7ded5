//! What a gate keeps.
ghost use Rattle.std.specs.Prelude.{◌≡◌, [], false, true, IfOk, OnErr, OnOk};
ghost use Rattle.std.specs.List.{IsDistinct};
ghost use Rattle.exact_gate.specs.Gates.{IsChanged, IsDifference};
ghost use Rattle.exact_gate.specs.InsideChanges.{IsTouched};
ghost use Rattle.exact_gate.specs.InsideLogs.{IsSettled, earlier, present, settled, turned_back};
ghost use Rattle.exact_gate.specs.Standing.{HaveSame};
ghost use Rattle.switch_meaning.specs.Keys.{passing};
ghost use Rattle.switch_meaning.specs.Same.{same_entry};

use crate::delta::{GateDelta, Touched, delta, with_before};
use crate::log::{Log, enter_all, leave_all, revert};
use crate::pool::Pool;
use crate::touched::touched_keys;
use cv_io::{Duplicate, List, Memory};
use std::alloc::Global;
use std::mem::replace;
use switch_meaning::PhysEntry;

/// The candidates, with what is to be taken back first, and what the last change made.
#[derive(Drop)]
pub struct State {
    pub pool: Pool,
    /// What the pool is ahead of the candidates: a change that failed midway.
    pub owed: Log,
    pub last: Log,
    /// The last change is to be taken back too.
    pub undone: bool,
}

/// Nothing is there, and nothing was changed.
pub fn fresh(alloc: Global) -> State
    ensures { result ≡ record {
      pool = [];
      owed = record { gone = []; come = [] };
      last = record { gone = []; come = [] };
      undone = false;
    } }
{
    State {
        pool: Pool::new(alloc),
        owed: Log::new(alloc),
        last: Log::new(alloc),
        undone: false,
    }
}

impl Duplicate for State {
    fn copy(&self) -> Result<State, Memory> {
        Ok(State {
            pool: self.pool.copy()?,
            owed: self.owed.copy()?,
            last: self.last.copy()?,
            undone: self.undone,
        })
    }
}

/// The last change is one that is to be taken back first.
fn owe_last(alloc: Global, state: &mut State)
    requires gone { state.old.owed.gone ≡ [] }
    requires come { state.old.owed.come ≡ [] }
    requires undone { state.old.undone ≡ true }
    ensures candidates { HaveSame (present state.old) (present state.new) }
    ensures before { HaveSame (earlier state.old) (earlier state.new) }
    ensures done { state.new.undone ≡ false }
{
    state.owed = replace(&mut state.last, Log::new(alloc));
    state.undone = false;
}

/// Takes back what a change that failed midway made.
fn settle_owed(state: &mut State) -> Result<(), Memory>
    ensures candidates { HaveSame (present state.old) (present state.new) }
    ensures before { HaveSame (earlier state.old) (earlier state.new) }
    ensures undone { state.new.undone ≡ state.old.undone }
    ensures gone { OnOk result (state.new.owed.gone ≡ []) }
    ensures come { OnOk result (state.new.owed.come ≡ []) }
{
    revert(&mut state.pool, &mut state.owed)
}

/// Takes back what is to be taken back.
fn settle(alloc: Global, state: &mut State) -> Result<(), Memory>
    ensures candidates { HaveSame (present state.old) (present state.new) }
    ensures before { HaveSame (earlier state.old) (earlier state.new) }
    ensures settled { OnOk result (IsSettled state.new) }
{
    settle_owed(state)?;
    if state.undone {
        owe_last(alloc, state);
        settle_owed(state)?;
    }
    Ok(())
}

/// The keys that a change touches, each with its entries that pass.
fn touched_by(
    alloc: Global,
    pool: &Pool,
    gone: &[PhysEntry],
    come: &[PhysEntry],
) -> Result<List<Touched>, Memory>
    ensures { IfOk result (IsTouched pool.now gone.now come.now) }
{
    let keys = touched_keys(alloc, pool, gone, come)?;
    with_before(alloc, pool, keys.as_slice())
}

/// Candidates go, and then others come.
fn exchange(
    pool: &mut Pool,
    log: &mut Log,
    gone: &[PhysEntry],
    come: &[PhysEntry],
) -> Result<(), Memory>
    requires gone { log.old.gone ≡ [] }
    requires come { log.old.come ≡ [] }
    ensures after { OnOk result (IsChanged pool.old gone.now come.now pool.new) }
    ensures same { HaveSame (turned_back pool.old log.old) (turned_back pool.new log.new) }
{
    leave_all(pool, log, gone)?;
    enter_all(pool, log, come)
}

/// Changes what is in a pool, and tells what passed before and doesn't now, and the other way round.
fn make(
    alloc: Global,
    pool: &mut Pool,
    log: &mut Log,
    gone: &[PhysEntry],
    come: &[PhysEntry],
) -> Result<GateDelta, Memory>
    requires gone { log.old.gone ≡ [] }
    requires come { log.old.come ≡ [] }
    ensures after { OnOk result (IsChanged pool.old gone.now come.now pool.new) }
    ensures gone { IfOk result (λ delta. IsDifference (passing pool.old) (passing pool.new) delta.gone) }
    ensures come { IfOk result (λ delta. IsDifference (passing pool.new) (passing pool.old) delta.come) }
    ensures gone_once { IfOk result (λ delta. IsDistinct same_entry delta.gone) }
    ensures come_once { IfOk result (λ delta. IsDistinct same_entry delta.come) }
    ensures same { HaveSame (turned_back pool.old log.old) (turned_back pool.new log.new) }
{
    pool.stands_once();
    let touched = touched_by(alloc, pool, gone, come)?;
    exchange(pool, log, gone, come)?;
    pool.stands_once();
    delta(alloc, pool, &touched)
}

/// What is owed is the last change.
fn keep_last(alloc: Global, state: &mut State)
    requires { state.old.undone ≡ false }
    ensures candidates { HaveSame state.old.pool (present state.new) }
    ensures before { HaveSame (settled state.old) (earlier state.new) }
{
    state.last = replace(&mut state.owed, Log::new(alloc));
}

/// Changes candidates, and tells what passed before and doesn't now, and the other way round.
pub fn change(
    alloc: Global,
    state: &mut State,
    gone: &[PhysEntry],
    come: &[PhysEntry],
) -> Result<GateDelta, Memory>
    ensures after { OnOk result (IsChanged (present state.old) gone.now come.now (present state.new)) }
    ensures before { OnOk result (HaveSame (present state.old) (earlier state.new)) }
    ensures gone { IfOk result
        (λ delta. IsDifference (passing (present state.old)) (passing (present state.new)) delta.gone) }
    ensures come { IfOk result
        (λ delta. IsDifference (passing (present state.new)) (passing (present state.old)) delta.come) }
    ensures gone_once { IfOk result (λ delta. IsDistinct same_entry delta.gone) }
    ensures come_once { IfOk result (λ delta. IsDistinct same_entry delta.come) }
    ensures memory { OnErr result (HaveSame (present state.old) (present state.new)) }
    ensures memory_before { OnErr result (HaveSame (earlier state.old) (earlier state.new)) }
{
    settle(alloc, state)?;
    let delta = make(alloc, &mut state.pool, &mut state.owed, gone, come)?;
    keep_last(alloc, state);
    Ok(delta)
}
