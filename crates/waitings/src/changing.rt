//! Changes of what is waited for.
ghost use Rattle.std.specs.Prelude.{◌≡◌, IfOk, OnErr, OnOk, filter, map, not};
ghost use Rattle.waitings.specs.Lists.{changed_first};
ghost use Rattle.waitings.specs.Waitings.{is_asked_by, is_done, unless_more, waits_for_flows};
ghost use Rattle.waitings.specs.Waitings.{with_xid, without_barrier, without_parts_of};
ghost use Rattle.waitings.specs.declared.state.Waiting.{Waiting as WaitingOf};

use crate::parts::Parts;
use crate::state::Waiting;
use cv_io::{Duplicate, List, Memory};
use std::alloc::Global;
use std::mem;

impl Waiting {
    /// What is still waited for after the last part of a switch, where more follows and where none does.
    pub(crate) fn parts_unless(
        &self,
        alloc: Global,
        more: bool,
        switch: u32,
        xid: u32,
    ) -> Result<Parts, Memory>
        ensures { IfOk result (λ parts. record self.now { parts = parts } ≡ unless_more more switch xid self.now) }
    {
        if more {
            return self.parts.copy();
        }
        let number = u64::from(xid);
        self.parts.without(alloc, switch, number)
    }

    /// After the last part of a switch its answer isn't waited for any more.
    fn end_unless(&mut self, alloc: Global, more: bool, switch: u32, xid: u32) -> Result<(), Memory>
        ensures ended { OnOk result (self.new ≡ unless_more more switch xid self.old) }
        ensures memory { OnErr result (self.new ≡ self.old) }
    {
        self.parts = self.parts_unless(alloc, more, switch, xid)?;
        Ok(())
    }

    /// A copy for which a member's barrier doesn't wait for this one any more.
    fn passed(&self, alloc: Global, switch: u32, number: u64) -> Result<Waiting, Memory>
        ensures { IfOk result (λ w. w ≡ without_barrier switch number self.now) }
    {
        if !self.purpose.is_of_barriers() {
            return self.copy();
        }
        Ok(Waiting {
            v: self.v,
            parts: self.parts.without(alloc, switch, number)?,
            purpose: self.purpose.copy()?,
        })
    }

    /// No part of this switch is waited for any more.
    fn drop_parts_of(&mut self, alloc: Global, switch: u32)
        ensures { self.new ≡ without_parts_of switch self.old }
    {
        let parts = mem::replace(&mut self.parts, Parts::new(alloc));
        self.parts = parts.without_switch(switch);
    }

    /// A poll of this virtual switch is asked of a switch.
    fn give_xid(&mut self, v: u32, switch: u32, xid: u32)
        ensures { self.new ≡ with_xid v switch xid self.old }
    {
        if self.v == v {
            self.parts.give_xid(switch, xid);
        }
    }
}

/// What isn't asked by this member.
pub(crate) fn without_asked_by(list: List<Waiting>, member: u32) -> List<Waiting>
    ensures { result ≡ filter (λ (w : WaitingOf). not (is_asked_by member w)) list }
{
    let mut items = list.into_vec();
    items.retain(|waiting| !waiting.is_asked_by(member));
    List::from_vec(items)
}

/// What still waits.
pub(crate) fn without_done(list: List<Waiting>) -> List<Waiting>
    ensures { result ≡ filter (λ (w : WaitingOf). not (is_done w)) list }
{
    let mut items = list.into_vec();
    items.retain(|waiting| !waiting.is_done());
    List::from_vec(items)
}

/// Copies of what is done.
pub(crate) fn done_among(alloc: Global, list: &[Waiting]) -> Result<List<Waiting>, Memory>
    ensures { IfOk result (λ done. done ≡ filter is_done list.now) }
{
    let mut done = List::new(alloc);
    for waiting in list {
        if waiting.is_done() {
            done.push(waiting.copy()?)?;
        }
    }
    Ok(done)
}

/// None waits for a part of this switch any more.
pub(crate) fn drop_all_parts_of(alloc: Global, list: &mut [Waiting], switch: u32)
    ensures { list.new ≡ map (without_parts_of switch) list.old }
{
    for waiting in list.iter_mut() {
        waiting.drop_parts_of(alloc, switch);
    }
}

/// Copies for which no member's barrier waits for this one any more.
pub(crate) fn passed_all(
    alloc: Global,
    list: &[Waiting],
    switch: u32,
    number: u64,
) -> Result<List<Waiting>, Memory>
    ensures { IfOk result (λ passed. passed ≡ map (without_barrier switch number) list.now) }
{
    let mut passed = List::with_capacity(alloc, list.len())?;
    for waiting in list {
        passed.push(waiting.passed(alloc, switch, number)?)?;
    }
    Ok(passed)
}

/// Polls of this virtual switch are asked of a switch.
pub(crate) fn give_all_xid(list: &mut [Waiting], v: u32, switch: u32, xid: u32)
    ensures { list.new ≡ map (with_xid v switch xid) list.old }
{
    for waiting in list.iter_mut() {
        waiting.give_xid(v, switch, xid);
    }
}

/// The oldest poll of entries that waits for this part takes it.
pub(crate) fn take_flows(
    alloc: Global,
    list: &mut [Waiting],
    more: bool,
    switch: u32,
    xid: u32,
) -> Result<(), Memory>
    ensures taken { OnOk result
        (list.new ≡ changed_first (waits_for_flows switch xid) (unless_more more switch xid) list.old) }
    ensures memory { OnErr result (list.new ≡ list.old) }
{
    for waiting in list.iter_mut() {
        if waiting.waits_for_flows(switch, xid) {
            return waiting.end_unless(alloc, more, switch, xid);
        }
    }
    Ok(())
}
