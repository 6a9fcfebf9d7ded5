//! Entries of a table that change and stay.
ghost use Rattle.std.specs.Prelude.{◌≡◌, IfOk, OnErr, OnOk, replicate};
ghost use Rattle.of10_actions.specs.Actions.{AreInRange};
ghost use Rattle.std.specs.BTreeMap.{is_at};
ghost use Rattle.std.specs.Ordering.{nat_cmp};
ghost use Rattle.soft_net.specs.Changes.{with_actions};
ghost use Rattle.soft_net.specs.Counting.{changed, counted};
ghost use Rattle.soft_net.specs.Tables.{changed_all, changed_at};

use crate::entry::SoftEntry;
use crate::table::Table;
use cv_io::{List, Memory};
use of10_actions::Action;
use std::alloc::Global;
use std::collections::BTreeMap;

/// So many copies of a list of actions.
fn copies_of(
    alloc: Global,
    actions: &List<Action>,
    count: usize,
) -> Result<List<List<Action>>, Memory>
    ensures { IfOk result (λ copies. copies ≡ replicate count actions.now) }
{
    let mut copies = List::new(alloc);
    for made in 0..count {
        copies.push(actions.copied()?)?;
    }
    Ok(copies)
}

/// Counts a packet for the entry of a number, where it is there.
fn count_in(entries: &mut BTreeMap<u64, SoftEntry>, serial: u64, bytes: u64)
    ensures { entries.new.entries ≡ changed (is_at (nat_cmp serial)) (counted bytes) entries.old.entries }
{
    match entries.get_mut(&serial) {
        Some(entry) => {
            entry.packets = entry.packets.saturating_add(1);
            entry.bytes = entry.bytes.saturating_add(bytes);
        }
        None => {}
    }
}

/// Gives the entry of a number other actions, where it is there.
fn set_in(entries: &mut BTreeMap<u64, SoftEntry>, serial: u64, actions: List<Action>)
    ensures { entries.new.entries ≡ changed (is_at (nat_cmp serial)) (with_actions actions) entries.old.entries }
{
    match entries.get_mut(&serial) {
        Some(entry) => entry.flow.actions = actions,
        None => {}
    }
}

impl Table {
    /// Counts a packet for the entry of a number, where it is there. It takes no memory.
    pub fn count(&mut self, serial: u64, bytes: u64)
        ensures { self.new ≡ changed_at serial (counted bytes) self.old }
    {
        count_in(&mut self.entries, serial, bytes);
    }

    /// Gives the entry of a number other actions, where it is there. It takes no memory.
    fn set_actions(&mut self, serial: u64, actions: List<Action>)
        requires { AreInRange actions }
        ensures { self.new ≡ changed_at serial (with_actions actions) self.old }
    {
        set_in(&mut self.entries, serial, actions);
    }

    /// Gives the entries of these numbers the actions. The table stays as it was where memory is wanted.
    pub fn set_all(
        &mut self,
        alloc: Global,
        serials: &[u64],
        actions: &List<Action>,
    ) -> Result<(), Memory>
        requires { AreInRange actions.now }
        ensures changed { OnOk result (self.new ≡ changed_all serials.now (with_actions actions.now) self.old) }
        ensures memory { OnErr result (self.new ≡ self.old) }
    {
        let mut copies = copies_of(alloc, actions, serials.len())?;
        for serial in serials {
            if let Some(copy) = copies.pop() {
                self.set_actions(*serial, copy);
            }
        }
        Ok(())
    }
}
