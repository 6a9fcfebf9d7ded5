//! The table of a member, as composition sees it, and what it means for one header.
ghost use Rattle.std.specs.Prelude.{◌≡◌, ◌↔◌, IfOk, IsTrue};
ghost use Rattle.std.specs.Option.{option_copied};
ghost use Rattle.std.specs.List.{list_any};
ghost use Rattle.of10_match.specs.Matching.{holds as holds_of};
ghost use Rattle.policy_meaning.specs.Fitting.{IsFittingTable};
ghost use Rattle.of10_match.specs.Highest.{pick as pick_of};
ghost use Rattle.policy_meaning.specs.Leaf.{best_entry as best_entry_of, has_port as has_port_of};
ghost use Rattle.policy_meaning.specs.Leaf.{is_inside as is_inside_of, leaf_meaning as leaf_meaning_of};
ghost use Rattle.policy_meaning.specs.Leaf.{miss_outs as miss_outs_of};

use crate::meaning::{Meaning, outside};
use cv_io::{Duplicate, List, Memory};
use of10_actions::{Dest, Effects, NO_MATCH, Out, Rewrite, Tail};
use of10_match::{Header, Match};
use std::alloc::Global;

/// An entry of a member's table.
#[derive(PartialEq, Eq, Debug, Drop)]
pub struct LeafEntry {
    pub serial: u64,
    /// 65536 where the written match has no wildcard, else the priority.
    pub rank: u32,
    pub m: Match,
    /// The level of the entry's rank, from 2 to the table's size less 1.
    pub level: u64,
    pub effects: Effects,
}

/// A member's table, with what the member may see.
#[derive(PartialEq, Eq, Debug, Drop)]
pub struct LeafTable {
    pub member: u32,
    /// How many levels the table has: 0 is outside, 1 is a miss.
    pub size: u64,
    /// The headers that the member may act on: boxes that don't overlap.
    pub region: List<Match>,
    /// The ports of its virtual switch that the member sees, each once.
    pub visible: List<u16>,
    /// Whether the member is told of packets that no entry holds.
    pub misses: bool,
    pub entries: List<LeafEntry>,
}

impl Duplicate for LeafEntry {
    fn copy(&self) -> Result<LeafEntry, Memory> {
        Ok(LeafEntry {
            serial: self.serial,
            rank: self.rank,
            m: self.m,
            level: self.level,
            effects: self.effects.copy()?,
        })
    }
}

impl Duplicate for LeafTable {
    fn copy(&self) -> Result<LeafTable, Memory> {
        Ok(LeafTable {
            member: self.member,
            size: self.size,
            region: self.region.copied()?,
            visible: self.visible.copy()?,
            misses: self.misses,
            entries: self.entries.copy()?,
        })
    }
}

/// Whether a port is one of these.
pub(crate) fn has_port(ports: &List<u16>, port: u16) -> bool
    ensures { result ≡ has_port_of ports.now port }
{
    ports.as_slice().contains(&port)
}

/// Of two entries the one of the higher rank, and of one rank the first.
fn pick<'a>(first: &'a LeafEntry, second: &'a LeafEntry) -> &'a LeafEntry
    ensures { result.now ≡ pick_of (λ e. e.rank) first.now second.now }
{
    if first.rank < second.rank {
        second
    } else {
        first
    }
}

impl LeafTable {
    /// Whether levels are below the table's size, and serials leave room for the kinds of leaves.
    pub fn fits(&self) -> bool
        ensures { IsTrue result ↔ IsFittingTable self.now }
    {
        let entries = self.entries.as_slice();
        self.size > 1
            && entries.iter().all(|entry| entry.level < self.size)
            && entries.iter().all(|entry| entry.serial < u64::MAX - 1)
    }

    /// Whether the member may act on the header: a box of its region holds it, and the member sees
    /// the port by which it came.
    pub fn is_inside(&self, header: &Header) -> bool
        ensures { result ≡ is_inside_of self.now header.now }
    {
        self.holds(header) && has_port(&self.visible, header.in_port)
    }

    /// Whether a box of the region holds the header.
    fn holds(&self, header: &Header) -> bool
        ensures { result ≡ list_any (λ box. holds_of box header.now) self.now.region }
    {
        self.region.as_slice().iter().any(|m| m.holds(header))
    }

    /// The entry of the highest rank that holds the header.
    fn best_entry(&self, header: &Header) -> Option<&LeafEntry>
        ensures { option_copied result ≡ best_entry_of self.now.entries header.now }
    {
        let mut best = None;
        for entry in self.entries.as_slice() {
            if entry.m.holds(header) {
                best = Some(match best {
                    Some(other) => pick(other, entry),
                    None => entry,
                });
            }
        }
        best
    }

    /// What is done with a packet that no entry holds.
    pub(crate) fn miss_outs(&self, alloc: Global) -> Result<List<Out>, Memory>
        ensures { IfOk result (λ outs. outs ≡ miss_outs_of self.now) }
    {
        let mut outs = List::new(alloc);
        if self.misses {
            outs.push(Out {
                rewrite: Rewrite::new(),
                dest: Dest::Tell {
                    member: self.member,
                    reason: NO_MATCH,
                },
            })?;
        }
        Ok(outs)
    }

    /// What the table does to the packets of a header.
    pub fn meaning(&self, alloc: Global, header: &Header) -> Result<Meaning, Memory>
        ensures { IfOk result (λ meaning. meaning ≡ leaf_meaning_of self.now header.now) }
    {
        if !self.is_inside(header) {
            return Ok(outside(alloc));
        }
        match self.best_entry(header) {
            None => Ok(Meaning {
                touched: false,
                outs: self.miss_outs(alloc)?,
                tail: Tail::Nothing,
            }),
            Some(entry) => Ok(Meaning {
                touched: true,
                outs: entry.effects.outs.copy()?,
                tail: entry.effects.tail.copy()?,
            }),
        }
    }
}
