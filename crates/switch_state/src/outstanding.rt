//! What is outstanding: barriers that wait for their answers, and cookies that wait for their removals.
ghost use Rattle.std.specs.Prelude.{◌≡◌, IfOk, OnErr, OnOk, map};
ghost use Rattle.std.specs.BTreeMap.{is_at};
ghost use Rattle.std.specs.BTreeSet.{insert_key};
ghost use Rattle.std.specs.Ordering.{nat_cmp};
ghost use Rattle.std.specs.Set.{remove_key};
ghost use Rattle.switch_state.specs.InsideKnown.{Rise};
ghost use Rattle.switch_state.specs.Known.{is_one_of};
ghost use Rattle.switch_state.specs.declared.barrier.Barrier.{Barrier as BarrierOf};

use crate::barrier::Barrier;
use cv_io::{Duplicate, List, Memory};
use shared_list::{SharedList, Wanted};
use std::alloc::Global;

/// Barriers of an xid are wanted.
#[derive(Drop)]
pub(crate) struct OfXid {
    pub(crate) xid: u32,
}

impl Wanted<Barrier> for OfXid {
    ghost use Rattle.switch_state.specs.Reports.{has_xid};

    ghost wants = { λ a. has_xid a.xid };

    fn wants(&self, barrier: &Barrier) -> bool {
        barrier.xid == self.xid
    }
}

/// Cookies from one on are wanted.
#[derive(Drop)]
struct From {
    cookie: u64,
}

impl Wanted<u64> for From {
    ghost use Rattle.std.specs.Prelude.{nat_le};

    ghost wants = { λ a. nat_le a.cookie };

    fn wants(&self, cookie: &u64) -> bool {
        self.cookie <= *cookie
    }
}

impl Duplicate for Barrier {
    fn copy(&self) -> Result<Barrier, Memory> {
        Ok(*self)
    }
}

/// The numbers of barriers.
pub(crate) fn numbers(alloc: Global, barriers: &SharedList<Barrier>) -> Result<List<u64>, Memory>
    ensures { IfOk result (λ numbers. numbers ≡ map (λ (b : BarrierOf). b.number) barriers.now) }
{
    let listed = barriers.listed()?;
    let mut numbers = List::new(alloc);
    for barrier in listed.as_slice() {
        numbers.push(barrier.number)?;
    }
    Ok(numbers)
}

/// A cookie is one of these, which rise.
pub(crate) fn has(cookies: &SharedList<u64>, cookie: u64) -> bool
    ensures { Rise cookies.now → result ≡ is_one_of cookies.now cookie }
{
    match cookies.first(&From { cookie }) {
        Some(found) => *found == cookie,
        None => false,
    }
}

/// Puts a cookie in its place, unless it is there.
pub(crate) fn insert(cookies: &mut SharedList<u64>, cookie: u64) -> Result<(), Memory>
    ensures inserted { Rise cookies.old → OnOk result (cookies.new ≡ insert_key nat_cmp cookies.old cookie) }
    ensures memory { OnErr result (cookies.new ≡ cookies.old) }
    ensures rise { Rise cookies.old → Rise cookies.new }
{
    if has(cookies, cookie) {
        return Ok(());
    }
    cookies.put(&From { cookie }, cookie)
}

/// Takes a cookie out, if it is there.
pub(crate) fn remove(cookies: &mut SharedList<u64>, cookie: u64) -> Result<(), Memory>
    ensures removed { Rise cookies.old
        → OnOk result (cookies.new ≡ remove_key (is_at (nat_cmp cookie)) cookies.old) }
    ensures memory { OnErr result (cookies.new ≡ cookies.old) }
    ensures rise { Rise cookies.old → Rise cookies.new }
{
    if has(cookies, cookie) {
        cookies.take(&From { cookie })?;
    }
    Ok(())
}
