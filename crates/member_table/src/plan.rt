//! Changes are planned.
ghost use Rattle.std.specs.Prelude.{◌≡◌, ◌≤◌, ◌+◌, ◌<◌, ◌^◌, [], ◌∷◌, ◌&&◌, true, false, Bool, Some, None, IfOk, IfErr};
ghost use Rattle.std.specs.Prelude.{OnOk, map, find, option_map, if◌then◌else◌};
ghost use Rattle.std.specs.List.{list_any};
ghost use Rattle.of10_match.specs.Normal.{IsNormal};
ghost use Rattle.of10_actions.specs.Actions.{AreInRange};
ghost use Rattle.member_table.specs.Entries.{is_at};
ghost use Rattle.member_table.specs.Changes.{CanCommit, committed};
ghost use Rattle.member_table.specs.Planning.{adding, addition, change_by_command, change_of, modification, removal};
ghost use Rattle.member_table.specs.Refusals.{IsFaultOf, refusal, refusal_by_command, refusal_of, refusal_unless};
ghost use Rattle.member_table.specs.Tables.{after, after_command, entry_of as entry_described, identity_in, is_meant};
ghost use Rattle.member_table.specs.Tables.{outputs_to};
ghost use Rattle.member_table.specs.Timeouts.{serials_of};

use crate::change::{Change, Modified};
use crate::entry::{Entry, Identity};
use crate::fault::TableFault;
use crate::table::Table;
use crate::wanted::Wanted;
use cv_io::{Duplicate, List, Memory};
use of10_actions::{Action, port};
use of10_msgs::{Command, FlowMod};
use std::alloc::Global;

/// The rank and the match of a message.
fn identity_of(m: &FlowMod) -> Identity
    ensures identity { result ≡ identity_in m.now }
    ensures normal { IsNormal result.normal }
{
    let read = of10_match::read(&m.m);
    Identity {
        rank: of10_match::rank(read.exact, m.priority),
        normal: read.normal,
    }
}

/// The entry that a message describes.
fn entry_of(serial: u64, m: &FlowMod, identity: &Identity, now: u64) -> Result<Entry, Memory>
    requires { identity.now ≡ identity_in m.now }
    ensures { IfOk result (λ e. e ≡ entry_described serial m.now now) }
{
    Ok(Entry {
        serial,
        raw: m.m,
        normal: identity.normal,
        priority: m.priority,
        rank: identity.rank,
        cookie: m.cookie,
        idle: m.idle_timeout,
        hard: m.hard_timeout,
        flags: m.flags,
        actions: m.actions.copy()?,
        added: now,
        last: now,
    })
}

/// The same actions for each of these entries.
fn changes(alloc: Global, serials: &[u64], actions: &List<Action>) -> Result<List<Modified>, Memory>
    ensures { IfOk result (λ list. list ≡ map (λ s. record { serial = s; actions = actions.now }) serials.now) }
{
    let mut list = List::with_capacity(alloc, serials.len())?;
    for serial in serials {
        list.push(Modified {
            serial: *serial,
            actions: actions.copy()?,
        })?;
    }
    Ok(list)
}

/// One number, where it is wanted.
fn alone(alloc: Global, wanted: bool, serial: u64) -> Result<Vec<u64>, Memory>
    ensures { IfOk result (λ v. v.items ≡ (if wanted then serial ∷ [] else [])) }
{
    let mut serials = Vec::new(alloc);
    if wanted {
        serials.push(serial)?;
    }
    Ok(serials)
}

impl Table {
    /// Plans what a message changes at a moment; a command above 4 changes nothing. It takes all memory that the change
    /// needs, and leaves the entries as they are.
    pub fn plan(&mut self, m: &FlowMod, now: u64) -> Result<Change, TableFault>
        requires { AreInRange m.now.actions }
        ensures change { IfOk result (λ change. change ≡ change_of self.old.table m.now now) }
        ensures planned { IfOk result (λ change. committed self.old.table change ≡ after self.old.table m.now now) }
        ensures ready { IfOk result (CanCommit self.new) }
        ensures accepted { OnOk result (refusal self.old.table m.now ≡ None) }
        ensures fault { IfErr result (IsFaultOf (refusal self.old.table m.now)) }
        ensures table { self.new.table ≡ self.old.table }
        ensures room { self.old.room ≤ self.new.room }
    {
        // The proof learns what is true of every table.
        let _ = &self.next;
        match Command::from_number(m.command) {
            Some(command) => self.plan_command(command, m, now),
            None => Ok(Change::removal(self.alloc, List::new(self.alloc))),
        }
    }

    /// Plans what a command changes at a moment.
    fn plan_command(
        &mut self,
        command: Command,
        m: &FlowMod,
        now: u64,
    ) -> Result<Change, TableFault>
        requires { AreInRange m.now.actions }
        ensures change { IfOk result (λ change. change ≡ change_by_command command self.old.table m.now now) }
        ensures planned { IfOk result (λ change. committed self.old.table change
            ≡ after_command command self.old.table m.now now) }
        ensures ready { IfOk result (CanCommit self.new) }
        ensures accepted { OnOk result (refusal_by_command command self.old.table m.now ≡ None) }
        ensures fault { IfErr result (IsFaultOf (refusal_by_command command self.old.table m.now)) }
        ensures table { self.new.table ≡ self.old.table }
        ensures room { self.old.room ≤ self.new.room }
    {
        // The proof learns what is true of every table.
        let _ = &self.next;
        let identity = identity_of(m);
        match command {
            Command::Add => self.plan_entry(m, &identity, now),
            Command::Modify => self.plan_actions(false, m, &identity, now),
            Command::ModifyStrict => self.plan_actions(true, m, &identity, now),
            Command::Delete => self.plan_removal(false, m, &identity),
            Command::DeleteStrict => self.plan_removal(true, m, &identity),
        }
    }

    /// The numbers of the entries that are meant and have an OUTPUT to the port, in their order. A
    /// strict message finds its entry by its identity.
    fn meant(&self, strict: bool, asked: &Identity, port: u16) -> Result<Vec<u64>, Memory>
        ensures { IfOk result
            (λ v. v.items ≡ serials_of (λ e. is_meant strict asked.now e && outputs_to port e) self.now.table.entries) }
    {
        if strict {
            self.meant_strictly(asked, port)
        } else {
            let wanted = Wanted {
                filter: asked.normal,
                port,
            };
            Ok(self.order.wanted(self.alloc, &wanted)?)
        }
    }

    /// The number of the entry of an identity, where it has an OUTPUT to the port.
    fn meant_strictly(&self, asked: &Identity, port: u16) -> Result<Vec<u64>, Memory>
        ensures { IfOk result
            (λ v. v.items ≡ serials_of (λ e. is_at asked.now e && outputs_to port e) self.now.table.entries) }
    {
        match self.order.identical(asked) {
            Some(entry) => alone(self.alloc, entry.outputs_to(port), entry.serial),
            None => Ok(Vec::new(self.alloc)),
        }
    }

    /// Plans the removal of the entries that are meant.
    fn plan_removal(
        &self,
        strict: bool,
        m: &FlowMod,
        asked: &Identity,
    ) -> Result<Change, TableFault>
        requires { asked.now ≡ identity_in m.now }
        ensures change { IfOk result (λ change. change ≡ removal strict self.now.table m.now) }
        ensures memory { IfErr result (λ fault. fault ≡ TableFault.Memory) }
    {
        let removed = self.meant(strict, asked, m.out_port)?;
        Ok(Change {
            added: None,
            removed: List::from_vec(removed),
            modified: List::new(self.alloc),
        })
    }

    /// Plans other actions for the entries that are meant; where there is none, an entry.
    fn plan_actions(
        &mut self,
        strict: bool,
        m: &FlowMod,
        asked: &Identity,
        now: u64,
    ) -> Result<Change, TableFault>
        requires identity { asked.now ≡ identity_in m.now }
        requires normal { IsNormal asked.now.normal }
        requires in_range { AreInRange m.now.actions }
        ensures change { IfOk result (λ change. change ≡ modification strict self.old.table m.now now) }
        ensures ready { IfOk result (CanCommit self.new) }
        ensures accepted { OnOk result (refusal_unless strict self.old.table m.now ≡ None) }
        ensures fault { IfErr result (IsFaultOf (refusal_unless strict self.old.table m.now)) }
        ensures table { self.new.table ≡ self.old.table }
        ensures room { self.old.room ≤ self.new.room }
    {
        let meant = self.meant(strict, asked, port::NONE)?;
        if meant.as_slice().is_empty() {
            return self.plan_entry(m, asked, now);
        }
        Ok(Change {
            added: None,
            removed: List::new(self.alloc),
            modified: changes(self.alloc, meant.as_slice(), &m.actions)?,
        })
    }

    /// Plans the entry that a message describes.
    fn plan_entry(&mut self, m: &FlowMod, asked: &Identity, now: u64) -> Result<Change, TableFault>
        requires identity { asked.now ≡ identity_in m.now }
        requires normal { IsNormal asked.now.normal }
        requires in_range { AreInRange m.now.actions }
        ensures change { IfOk result (λ change. change ≡ addition self.old.table m.now now) }
        ensures ready { IfOk result (CanCommit self.new) }
        ensures accepted { OnOk result (refusal_of (identity_in m.now) self.old.table ≡ None) }
        ensures fault { IfErr result (IsFaultOf (refusal_of (identity_in m.now) self.old.table)) }
        ensures table { self.new.table ≡ self.old.table }
        ensures room { self.old.room ≤ self.new.room }
    {
        let replaced = self.admit(asked)?;
        self.reserve()?;
        Ok(self.addition(m, asked, replaced, now)?)
    }

    /// The number of the entry that a new one replaces, or why it can't be added.
    fn admit(&self, asked: &Identity) -> Result<Option<u64>, TableFault>
        ensures admitted { OnOk result (refusal_of asked.now self.now.table ≡ None) }
        ensures replaced { IfOk result
            (λ r. r ≡ option_map (λ e. e.serial) (find (is_at asked.now) self.now.table.entries)) }
        ensures refused { IfErr result (λ fault. refusal_of asked.now self.now.table ≡ Some fault) }
    {
        if let Some(with) = self.ranks.in_way(asked) {
            return Err(TableFault::Overlap { with });
        }
        match self.order.identical(asked) {
            Some(old) => Ok(Some(old.serial)),
            None if self.order.len() >= self.limit as usize => {
                Err(TableFault::Entries { limit: self.limit })
            }
            None => Ok(None),
        }
    }

    /// Makes room for one more entry. A table that has given its last number has none; it keeps two of 64
    /// bits back, so that two more than a number fits.
    fn reserve(&mut self) -> Result<(), Memory>
        ensures table { self.new.table ≡ self.old.table }
        ensures kept { self.old.room ≤ self.new.room }
        ensures room { OnOk result (0 < self.new.room) }
        ensures more { OnOk result (self.new.table.next + 2 < 2 ^ 64) }
    {
        if self.next >= u64::MAX - 1 {
            return Err(Memory);
        }
        if self.room == 0 {
            self.order.reserve(1)?;
            self.ranks.reserve(1)?;
            self.room = 1;
        }
        Ok(())
    }

    /// The change that adds the entry that a message describes.
    fn addition(
        &self,
        m: &FlowMod,
        asked: &Identity,
        replaced: Option<u64>,
        now: u64,
    ) -> Result<Change, Memory>
        requires { asked.now ≡ identity_in m.now }
        ensures { IfOk result (λ change. change ≡ adding (entry_described self.now.table.next m.now now) replaced) }
    {
        let entry = entry_of(self.next, m, asked, now)?;
        let mut removed = List::new(self.alloc);
        if let Some(serial) = replaced {
            removed.push(serial)?;
        }
        Ok(Change {
            added: Some(entry),
            removed,
            modified: List::new(self.alloc),
        })
    }
}
