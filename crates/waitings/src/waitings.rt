//! What is waited for while an event is drafted.
ghost use Rattle.std.specs.Prelude.{◌≡◌, ◌∷◌, ◌++◌, [], IfOk, MatchOption, OnErr, OnOk, filter, map, not};
ghost use Rattle.std.specs.List.{list_any};
ghost use Rattle.waitings.specs.Lists.{changed_first};
ghost use Rattle.waitings.specs.Ports.{taking_ports};
ghost use Rattle.waitings.specs.Waitings.{is_asked_by, is_done, is_in_doubt as is_in_doubt_of, unless_more};
ghost use Rattle.waitings.specs.Waitings.{waits_for_flows as waits_for_flows_of, waits_for_ports};
ghost use Rattle.waitings.specs.Waitings.{with_xid, without_barrier, without_parts_of};
ghost use Rattle.waitings.specs.declared.state.Waiting.{Waiting as WaitingOf};

use crate::changing::{
    done_among, drop_all_parts_of, give_all_xid, passed_all, take_flows, without_asked_by,
    without_done,
};
use crate::looking::{
    any_asked_by, any_decides_on, any_part_of, any_waits_for_barrier, any_waits_for_flows,
    any_waits_for_ports,
};
use crate::ports::take_ports;
use crate::state::Waiting;
use cv_io::{Duplicate, List, Memory};
use of10_stats::PortStat;
use std::alloc::Global;
use std::marker::Model;
use virtual_topology::Topology;

/// What was waited for as an event began, and beside it what is waited for now, which is copied only once
/// something changes. After want of memory all is as it was before the call.
#[derive(Drop)]
pub struct Waitings<'a> {
    alloc: Global,
    base: &'a List<Waiting>,
    changed: Option<List<Waiting>>,
}

impl<'a> Model for Waitings<'a> {
    ghost use Rattle.std.specs.Prelude.{unwrap_or};
    ghost use Rattle.waitings.specs.Overlays.{WaitingsOf};

    ghost Value = { WaitingsOf };

    ghost view = { λ a. record { base = a.base.now; now = unwrap_or a.changed a.base.now } };
}

/// What is waited for becomes what was drafted.
pub fn make(list: &mut List<Waiting>, change: Option<List<Waiting>>)
    ensures { MatchOption change (list.new ≡ list.old) (λ changed. list.new ≡ changed) }
{
    if let Some(changed) = change {
        *list = changed;
    }
}

impl<'a> Waitings<'a> {
    /// Nothing changed yet.
    pub fn stay(alloc: Global, base: &'a List<Waiting>) -> Waitings<'a>
        ensures base { result.base ≡ base.now }
        ensures now { result.now ≡ base.now }
    {
        Waitings {
            alloc,
            base,
            changed: None,
        }
    }

    /// What is waited for now.
    pub fn list(&self) -> &[Waiting]
        ensures { result.now ≡ self.now.now }
    {
        match &self.changed {
            Some(list) => list.as_slice(),
            None => self.base.as_slice(),
        }
    }

    /// What is waited for now, to be changed and put back.
    fn take_list(&mut self) -> Result<List<Waiting>, Memory>
        ensures base { self.new.base ≡ self.old.base }
        ensures list { IfOk result (λ list. list ≡ self.old.now) }
        ensures memory { OnErr result (self.new.now ≡ self.old.now) }
    {
        match self.changed.take() {
            Some(list) => Ok(list),
            None => self.base.copy(),
        }
    }

    fn put(&mut self, list: List<Waiting>)
        ensures base { self.new.base ≡ self.old.base }
        ensures now { self.new.now ≡ list }
    {
        self.changed = Some(list);
    }

    /// A poll or a barrier begins.
    pub fn begin(&mut self, waiting: Waiting) -> Result<(), Memory>
        ensures base { self.new.base ≡ self.old.base }
        ensures now { OnOk result (self.new.now ≡ self.old.now ++ waiting ∷ []) }
        ensures memory { OnErr result (self.new.now ≡ self.old.now) }
    {
        let mut list = self.take_list()?;
        let pushed = list.push(waiting);
        self.put(list);
        pushed
    }

    /// A member's round ended: what it waited for is dropped.
    pub fn without_member(&mut self, member: u32) -> Result<(), Memory>
        ensures base { self.new.base ≡ self.old.base }
        ensures now { OnOk result (self.new.now ≡ filter (λ (w : WaitingOf). not (is_asked_by member w)) self.old.now) }
        ensures memory { OnErr result (self.new.now ≡ self.old.now) }
    {
        if !any_asked_by(self.list(), member) {
            return Ok(());
        }
        let list = self.take_list()?;
        self.put(without_asked_by(list, member));
        Ok(())
    }

    /// A switch's round ended: nothing waits for it any more.
    pub fn without_switch(&mut self, switch: u32) -> Result<(), Memory>
        ensures base { self.new.base ≡ self.old.base }
        ensures now { OnOk result (self.new.now ≡ map (without_parts_of switch) self.old.now) }
        ensures memory { OnErr result (self.new.now ≡ self.old.now) }
    {
        if !any_part_of(self.list(), switch) {
            return Ok(());
        }
        let mut list = self.take_list()?;
        drop_all_parts_of(self.alloc, list.as_mut_slice(), switch);
        self.put(list);
        Ok(())
    }

    /// A switch answered the barrier of this number.
    pub fn barrier_passed(&mut self, switch: u32, number: u64) -> Result<(), Memory>
        ensures base { self.new.base ≡ self.old.base }
        ensures now { OnOk result (self.new.now ≡ map (without_barrier switch number) self.old.now) }
        ensures memory { OnErr result (self.new.now ≡ self.old.now) }
    {
        if !any_waits_for_barrier(self.list(), switch, number) {
            return Ok(());
        }
        let list = passed_all(self.alloc, self.list(), switch, number)?;
        self.put(list);
        Ok(())
    }

    /// A poll of entries waits for this part.
    pub fn waits_for_flows(&self, switch: u32, xid: u32) -> bool
        ensures { result ≡ list_any (waits_for_flows_of switch xid) self.now.now }
    {
        any_waits_for_flows(self.list(), switch, xid)
    }

    /// The oldest poll of entries that waits for this part takes it.
    pub fn flows_told(&mut self, switch: u32, xid: u32, more: bool) -> Result<(), Memory>
        ensures base { self.new.base ≡ self.old.base }
        ensures now { OnOk result
            (self.new.now ≡ changed_first (waits_for_flows_of switch xid) (unless_more more switch xid) self.old.now) }
        ensures memory { OnErr result (self.new.now ≡ self.old.now) }
    {
        if more {
            return Ok(());
        }
        if !self.waits_for_flows(switch, xid) {
            return Ok(());
        }
        let mut list = self.take_list()?;
        let taken = take_flows(self.alloc, list.as_mut_slice(), more, switch, xid);
        self.put(list);
        taken
    }

    /// The oldest poll of ports that waits for this part takes it.
    pub fn ports_told(
        &mut self,
        topology: &Topology,
        switch: u32,
        xid: u32,
        more: bool,
        stats: &[PortStat],
    ) -> Result<(), Memory>
        ensures base { self.new.base ≡ self.old.base }
        ensures now { OnOk result
            (self.new.now ≡ changed_first (waits_for_ports switch xid)
            (taking_ports topology.now switch xid more stats.now) self.old.now) }
        ensures memory { OnErr result (self.new.now ≡ self.old.now) }
    {
        if !any_waits_for_ports(self.list(), switch, xid) {
            return Ok(());
        }
        let mut list = self.take_list()?;
        let taken = take_ports(
            self.alloc,
            list.as_mut_slice(),
            topology,
            switch,
            xid,
            more,
            stats,
        );
        self.put(list);
        taken
    }

    /// Polls of this virtual switch that began are asked of a switch, by the request of this xid.
    pub fn asked(&mut self, v: u32, switch: u32, xid: u32) -> Result<(), Memory>
        ensures base { self.new.base ≡ self.old.base }
        ensures now { OnOk result (self.new.now ≡ map (with_xid v switch xid) self.old.now) }
        ensures memory { OnErr result (self.new.now ≡ self.old.now) }
    {
        let mut list = self.take_list()?;
        give_all_xid(list.as_mut_slice(), v, switch, xid);
        self.put(list);
        Ok(())
    }

    /// A poll decides on this entry of a member.
    pub fn is_in_doubt(&self, member: u32, serial: u64) -> bool
        ensures { result ≡ is_in_doubt_of self.now.now member serial }
    {
        any_decides_on(self.list(), member, serial)
    }

    /// What waits for nothing any more, in the order in which it began; it doesn't wait any more.
    pub fn take_done(&mut self) -> Result<List<Waiting>, Memory>
        ensures base { self.new.base ≡ self.old.base }
        ensures done { IfOk result (λ done. done ≡ filter is_done self.old.now) }
        ensures now { OnOk result (self.new.now ≡ filter (λ (w : WaitingOf). not (is_done w)) self.old.now) }
        ensures memory { OnErr result (self.new.now ≡ self.old.now) }
    {
        let done = done_among(self.alloc, self.list())?;
        if done.is_empty() {
            return Ok(done);
        }
        let list = self.take_list()?;
        self.put(without_done(list));
        Ok(done)
    }

    /// What changed.
    pub fn into_change(self) -> Option<List<Waiting>>
        ensures { MatchOption result (self.entry.now ≡ self.entry.base) (λ changed. changed ≡ self.entry.now) }
    {
        self.changed
    }
}
