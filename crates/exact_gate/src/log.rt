//! What a change made, so that it can be taken back.
ghost use Rattle.std.specs.Prelude.{◌≡◌, ◌<◌, ◌+◌, ◌||◌, ◌&&◌, [], length, not, OnErr, OnOk};
ghost use Rattle.exact_gate.specs.InsideLogs.{turned_back};
ghost use Rattle.exact_gate.specs.Standing.{HaveSame, stands_in};
ghost use Rattle.switch_meaning.specs.Same.{same_entry};
ghost use Rattle.switch_meaning.specs.declared.entry.PhysEntry.{PhysEntry};

use crate::pool::Pool;
use cv_io::{Duplicate, List, Memory};
use std::alloc::Global;
use switch_meaning::PhysEntry;

/// The candidates that went, and those that came after them.
#[derive(Drop)]
pub struct Log {
    pub gone: List<PhysEntry>,
    pub come: List<PhysEntry>,
}

impl Log {
    pub fn new(alloc: Global) -> Log
        ensures { result ≡ record { gone = []; come = [] } }
    {
        Log {
            gone: List::new(alloc),
            come: List::new(alloc),
        }
    }
}

impl Duplicate for Log {
    fn copy(&self) -> Result<Log, Memory> {
        Ok(Log {
            gone: self.gone.copy()?,
            come: self.come.copy()?,
        })
    }
}

/// A candidate goes, if it is there, and the log says so.
fn leave(pool: &mut Pool, log: &mut Log, entry: &PhysEntry) -> Result<(), Memory>
    requires { log.old.come ≡ [] }
    ensures gone { OnOk result ((e : PhysEntry)
        → stands_in pool.new e ≡ (stands_in pool.old e && not (same_entry e entry.now))) }
    ensures same { HaveSame (turned_back pool.old log.old) (turned_back pool.new log.new) }
    ensures come { log.new.come ≡ [] }
{
    if !pool.has(entry) {
        return Ok(());
    }
    log.gone.push(entry.copy()?)?;
    pool.remove(entry);
    Ok(())
}

/// A candidate comes, unless it is there, and the log says so.
fn enter(pool: &mut Pool, log: &mut Log, entry: &PhysEntry) -> Result<(), Memory>
    ensures come { OnOk result ((e : PhysEntry)
        → stands_in pool.new e ≡ (stands_in pool.old e || same_entry e entry.now)) }
    ensures same { HaveSame (turned_back pool.old log.old) (turned_back pool.new log.new) }
{
    if pool.has(entry) {
        return Ok(());
    }
    log.come.push(entry.copy()?)?;
    pool.insert(entry)
}

/// Candidates go, those that are there.
pub fn leave_all(pool: &mut Pool, log: &mut Log, gone: &[PhysEntry]) -> Result<(), Memory>
    requires { log.old.come ≡ [] }
    ensures gone { OnOk result ((e : PhysEntry)
        → stands_in pool.new e ≡ (stands_in pool.old e && not (stands_in gone.now e))) }
    ensures same { HaveSame (turned_back pool.old log.old) (turned_back pool.new log.new) }
{
    for entry in gone {
        leave(pool, log, entry)?;
    }
    Ok(())
}

/// Candidates come, those that aren't there.
pub fn enter_all(pool: &mut Pool, log: &mut Log, come: &[PhysEntry]) -> Result<(), Memory>
    ensures come { OnOk result ((e : PhysEntry)
        → stands_in pool.new e ≡ (stands_in pool.old e || stands_in come.now e)) }
    ensures same { HaveSame (turned_back pool.old log.old) (turned_back pool.new log.new) }
{
    for entry in come {
        enter(pool, log, entry)?;
    }
    Ok(())
}

/// What came goes again.
fn take_back(pool: &mut Pool, log: &mut Log)
    ensures same { HaveSame (turned_back pool.old log.old) (turned_back pool.new log.new) }
    ensures done { log.new.come ≡ [] }
{
    while let Some(entry) = log.come.pop() {
        pool.remove(&entry);
    }
}

/// The last that went comes again.
fn restore_last(pool: &mut Pool, log: &mut Log) -> Result<(), Memory>
    requires there { 0 < length log.old.gone }
    requires come { log.old.come ≡ [] }
    ensures same { HaveSame (turned_back pool.old log.old) (turned_back pool.new log.new) }
    ensures come { log.new.come ≡ [] }
    ensures less { OnOk result (length log.new.gone + 1 ≡ length log.old.gone) }
{
    let last = log.gone.len() - 1;
    pool.insert(&log.gone.as_slice()[last])?;
    log.gone.truncate(last);
    Ok(())
}

/// What went comes again.
fn restore(pool: &mut Pool, log: &mut Log) -> Result<(), Memory>
    requires { log.old.come ≡ [] }
    ensures same { HaveSame (turned_back pool.old log.old) (turned_back pool.new log.new) }
    ensures come { log.new.come ≡ [] }
    ensures done { OnOk result (log.new.gone ≡ []) }
{
    while !log.gone.is_empty() {
        restore_last(pool, log)?;
    }
    Ok(())
}

/// Takes back what a log says. Where memory is wanting the rest is still to be taken back.
pub fn revert(pool: &mut Pool, log: &mut Log) -> Result<(), Memory>
    ensures same { HaveSame (turned_back pool.old log.old) (turned_back pool.new log.new) }
    ensures gone { OnOk result (log.new.gone ≡ []) }
    ensures come { OnOk result (log.new.come ≡ []) }
{
    take_back(pool, log);
    restore(pool, log)
}
