//! The entry that a switch uses for a header, of those that stand there.
ghost use Rattle.std.specs.Prelude.{◌≡◌, Some, IfOk, MatchOption};
ghost use Rattle.std.specs.Option.{option_copied, option_and_then};
ghost use Rattle.install_plan.specs.Best.{rank_of};
ghost use Rattle.install_plan.specs.InsideSlots.{top};
ghost use Rattle.install_plan.specs.InsideBest.{Leads, before as before_of, candidate_at, candidate_if, candidates};
ghost use Rattle.install_plan.specs.InsideBest.{is_before as is_before_of, standing_at};

use crate::key::Key;
use crate::slot::Slot;
use crate::written::Written;
use cv_io::{Duplicate, List, Memory};
use of10_match::{Header, rank};
use std::alloc::Global;
use std::collections::BTreeMap;
use switch_meaning::PhysEntry;

/// What is compared of an entry that stands: its rank and its cookie.
#[derive(Clone, Copy)]
pub struct Candidate {
    pub key: Key,
    pub rank: u32,
    pub cookie: u64,
}

/// The entry's rank: entries without wildcards come before all others.
fn rank_in(entry: &PhysEntry) -> u32
    ensures { result ≡ rank_of entry.now }
{
    rank(entry.m.is_one_header(), entry.priority)
}

impl Candidate {
    /// Whether it comes before another: by a higher rank, and at equal ranks by a lesser cookie.
    fn is_before(&self, other: &Candidate) -> bool
        ensures { result ≡ is_before_of self.now other.now }
    {
        other.rank < self.rank || other.rank == self.rank && self.cookie < other.cookie
    }
}

/// The one of two that comes before the other, where both are there.
fn before(a: Option<Candidate>, b: Option<Candidate>) -> Option<Candidate>
    ensures { result ≡ before_of a b }
{
    match (a, b) {
        (Some(x), Some(y)) => Some(if y.is_before(&x) { y } else { x }),
        (None, b) => b,
        (a, None) => a,
    }
}

/// What is compared of an entry of a key, if it holds the header.
fn weigh_entry(entry: &PhysEntry, cookie: u64, key: &Key, header: &Header) -> Option<Candidate>
    ensures { result ≡ candidate_if header.now key.now (record { entry = entry.now; cookie = cookie }) }
{
    if entry.m.holds(header) {
        Some(Candidate {
            key: *key,
            rank: rank_in(entry),
            cookie,
        })
    } else {
        None
    }
}

/// What is compared of what stands of a slot, if it holds the header.
fn weigh_slot(slot: &Slot, key: &Key, header: &Header) -> Option<Candidate>
    ensures { result ≡ option_and_then (candidate_if header.now key.now) (top slot.now) }
{
    match slot.top() {
        Some(entry) => weigh_entry(entry, slot.cookie, key, header),
        None => None,
    }
}

/// What is compared of what stands of a key, if it holds the header.
fn weigh(slots: &BTreeMap<Key, Slot>, key: &Key, header: &Header) -> Option<Candidate>
    ensures { result ≡ candidate_at slots.now.entries header.now key.now }
{
    match slots.get(key) {
        Some(slot) => weigh_slot(slot, key, header),
        None => None,
    }
}

/// The first of what stands of some keys and holds the header.
pub fn first_among(slots: &BTreeMap<Key, Slot>, keys: &[Key], header: &Header) -> Option<Candidate>
    ensures { Leads (candidates slots.now.entries header.now keys.now) result }
{
    let mut first = None;
    for key in keys {
        first = before(first, weigh(slots, key, header));
    }
    first
}

/// A copy of what stands of a key.
pub fn written(slots: &BTreeMap<Key, Slot>, key: &Key) -> Result<Option<Written>, Memory>
    ensures { IfOk result (λ copied. copied ≡ standing_at slots.now.entries key.now) }
{
    let Some(slot) = slots.get(key) else {
        return Ok(None);
    };
    let Some(entry) = slot.top() else {
        return Ok(None);
    };
    Ok(Some(Written {
        entry: entry.copy()?,
        cookie: slot.cookie,
    }))
}
