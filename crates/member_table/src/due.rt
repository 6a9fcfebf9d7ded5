//! Whose time is up.
ghost use Rattle.std.specs.Prelude.{◌≡◌, ◌∷◌, ◌++◌, [], IfOk, OnOk};
ghost use Rattle.std.specs.List.{AllByRecursion};
ghost use Rattle.member_table.specs.InsideKept.{IsQuietUntil};
ghost use Rattle.member_table.specs.Timeouts.{ListsRising, is_hard_due, is_idle_due, serials_of};

use crate::change::Due;
use crate::entry::Entry;
use crate::order::Order;
use crate::table::Table;
use cv_io::{List, Memory};
use std::alloc::Global;

/// The same numbers, rising.
fn rising(serials: List<u64>) -> Result<List<u64>, Memory>
    ensures { IfOk result (ListsRising serials) }
{
    let mut serials = serials.into_vec();
    serials.sort()?;
    Ok(List::from_vec(serials))
}

/// Appends the number of an entry, if its time is up.
fn add(due: &mut Due, entry: &Entry, now: u64) -> Result<(), Memory>
    ensures hard { OnOk result (due.new.hard ≡ due.old.hard ++ serials_of (is_hard_due now) (entry.now ∷ [])) }
    ensures idle { OnOk result (due.new.idle ≡ due.old.idle ++ serials_of (is_idle_due now) (entry.now ∷ [])) }
{
    if entry.is_hard_due(now) {
        due.hard.push(entry.serial)?;
    } else if entry.is_idle_due(now) {
        due.idle.push(entry.serial)?;
    }
    Ok(())
}

/// Those whose time is up, in the order of the entries.
fn due_in(alloc: Global, order: &Order, now: u64) -> Result<Due, Memory>
    ensures hard { IfOk result (λ due. due.hard ≡ serials_of (is_hard_due now) order.now.entries) }
    ensures idle { IfOk result (λ due. due.idle ≡ serials_of (is_idle_due now) order.now.entries) }
{
    let mut due = Due::none(alloc);
    for place in 0..order.len() {
        if let Some(entry) = order.at(place) {
            add(&mut due, entry, now)?;
        }
    }
    Ok(due)
}

/// A moment before which no timeout of an entry passes.
fn soonest_of(order: &Order) -> u64
    ensures { AllByRecursion (IsQuietUntil result) order.now.entries }
{
    let mut soonest = u64::MAX;
    for place in 0..order.len() {
        if let Some(entry) = order.at(place) {
            soonest = soonest.min(entry.soonest());
        }
    }
    soonest
}

impl Table {
    /// The entries whose time is up at a moment. None is looked at before a timeout can have passed. Doubts are for the
    /// layer above to look at.
    pub fn due(&self, now: u64) -> Result<Due, Memory>
        ensures hard { IfOk result (λ due. ListsRising (serials_of (is_hard_due now) self.now.table.entries) due.hard) }
        ensures idle { IfOk result (λ due. ListsRising (serials_of (is_idle_due now) self.now.table.entries) due.idle) }
    {
        if now < self.soonest {
            return Ok(Due::none(self.alloc));
        }
        let Due { hard, idle } = due_in(self.alloc, &self.order, now)?;
        Ok(Due {
            hard: rising(hard)?,
            idle: rising(idle)?,
        })
    }

    /// Finds anew when the next timeout passes, where one may have passed: entries went or were touched. All are looked
    /// at.
    pub fn look_ahead(&mut self, now: u64)
        ensures { self.new ≡ self.old }
    {
        if self.soonest <= now {
            self.soonest = soonest_of(&self.order);
        }
    }
}
