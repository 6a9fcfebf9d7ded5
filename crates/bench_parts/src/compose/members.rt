//! The entries of members, by their numbers.
ghost use Rattle.std.specs.Prelude.{◌≡◌, ◌<◌, ◌^◌, ◌∷◌, [], IfOk};
ghost use Rattle.std.specs.List.{AllByRecursion};
ghost use Rattle.of10_actions.specs.Effects.{BuildsUp};
ghost use Rattle.of10_match.specs.Matching.{everything};
ghost use Rattle.of10_match.specs.Normal.{IsNormal};
ghost use Rattle.policy_meaning.specs.LeafFact.{IsSoundTable};
ghost use Rattle.bench_parts.specs.Entries.{AreEntries, IsEntry};

use super::asked::{Asked, Kind};
use cv_io::{Leaf, List, Memory};
use fitting_changes::Shape;
use incr_compile::LeafDelta;
use of10_actions::{Dest, Effects, Out, Rewrite, Tail};
use of10_match::{Match, OfpMatch, TCP, read};
use op_compose::leaf;
use policy_meaning::{LeafEntry, LeafTable};
use std::alloc::Global;

/// How many levels a member has.
pub const SIZE: u64 = 0x2_0000;

/// A match as it is written, of which the wildcards leave all out.
const OPEN: OfpMatch = OfpMatch {
    wildcards: 0x3f_ffff,
    in_port: 0,
    dl_src: 0,
    dl_dst: 0,
    dl_vlan: 0,
    dl_vlan_pcp: 0,
    dl_type: 0x0800,
    nw_tos: 0,
    nw_proto: TCP,
    nw_src: 0,
    nw_dst: 0,
    tp_src: 1024,
    tp_dst: 80,
};

fn as_read(written: &OfpMatch) -> Match
    requires dl_src { written.now.dl_src < 2 ^ 48 }
    requires dl_dst { written.now.dl_dst < 2 ^ 48 }
    ensures { IsNormal result }
{
    read(&written.to_bytes()).normal
}

/// An address of 10.0.0.0/8, by a number that is spread over it.
fn address(number: u16) -> u32 {
    0x0a00_0000 + u32::from(number).wrapping_mul(0x9e37_79b1) / 256
}

/// The packets of the entry of a number.
fn packets(kind: Kind, member: u32, number: u16) -> Match
    ensures { IsNormal result }
{
    let nw_dst = address(number);
    match kind {
        Kind::Exact => as_read(&OfpMatch {
            wildcards: 0x30_000f,
            nw_src: 0x0b00_0000 + u32::from(number),
            nw_dst,
            ..OPEN
        }),
        Kind::Prefix => as_read(&OfpMatch {
            wildcards: 0x30_20ef + (20 - u32::from(number % 21)) * 0x4000,
            nw_dst,
            ..OPEN
        }),
        Kind::Wild if member == 0 && number % 64 == 0 => as_read(&OfpMatch {
            wildcards: 0x38_20cf,
            nw_proto: (number / 64 % 200) as u8,
            ..OPEN
        }),
        Kind::Wild => as_read(&OfpMatch {
            wildcards: 0x30_20cf,
            nw_dst,
            ..OPEN
        }),
    }
}

/// Packets go on to the right operand with another address.
fn passing(alloc: Global, number: u16) -> Effects
    ensures { BuildsUp result }
{
    let outs = List::new(alloc);
    let rewrite = Rewrite {
        nw_dst: Some(address(number)),
        ..Rewrite::new()
    };
    Effects {
        outs,
        tail: Tail::Pass(rewrite),
    }
}

/// Packets leave by one of four ports.
fn leaving(alloc: Global, number: u16) -> Result<Effects, Memory>
    ensures { IfOk result BuildsUp }
{
    let mut outs = List::new(alloc);
    outs.push(Out {
        rewrite: Rewrite::new(),
        dest: Dest::Port {
            v: 0,
            port: 1 + number % 4,
        },
    })?;
    Ok(Effects {
        outs,
        tail: Tail::Nothing,
    })
}

/// The list of all headers.
fn everywhere(alloc: Global) -> Result<List<Match>, Memory>
    ensures { IfOk result (λ list. list ≡ everything ∷ []) }
{
    let mut list = List::new(alloc);
    list.push(Match::everything())?;
    Ok(list)
}

/// The list of two tables.
fn two(alloc: Global, first: LeafTable, second: LeafTable) -> Result<List<LeafTable>, Memory>
    ensures { IfOk result (λ list. list ≡ first ∷ second ∷ []) }
{
    let mut list = List::new(alloc);
    list.push(first)?;
    list.push(second)?;
    Ok(list)
}

impl Asked {
    /// What is done with the packets of the entry of a number.
    fn effects(&self, alloc: Global, member: u32, number: u16) -> Result<Effects, Memory>
        ensures { IfOk result BuildsUp }
    {
        if self.shape == Shape::Sequential && member == 0 {
            return Ok(passing(alloc, number));
        }
        leaving(alloc, number)
    }

    /// The entry of a number.
    fn entry(&self, alloc: Global, member: u32, number: u16) -> Result<LeafEntry, Memory>
        ensures { IfOk result (IsEntry number) }
    {
        let effects = self.effects(alloc, member, number)?;
        let m = packets(self.kind, member, number);
        Ok(LeafEntry {
            serial: 1 + u64::from(number),
            rank: 2 + u32::from(number),
            m,
            level: 2 + u64::from(number),
            effects,
        })
    }

    /// The entries of the first so many numbers.
    fn entries(&self, alloc: Global, member: u32) -> Result<List<LeafEntry>, Memory>
        ensures { IfOk result AreEntries }
    {
        let mut entries = List::new(alloc);
        for number in 0..self.rules {
            let entry = self.entry(alloc, member, number)?;
            entries.push(entry)?;
        }
        Ok(entries)
    }

    /// A member's table, which may act on all headers.
    fn table(&self, alloc: Global, member: u32) -> Result<LeafTable, Memory>
        ensures { IfOk result IsSoundTable }
    {
        let entries = self.entries(alloc, member)?;
        let region = everywhere(alloc)?;
        let visible = List::from_slice(alloc, &[1, 2, 3, 4])?;
        Ok(LeafTable {
            member,
            size: SIZE,
            region,
            visible,
            misses: false,
            entries,
        })
    }

    /// The tables of both members.
    pub fn tables(&self, alloc: Global) -> Result<List<LeafTable>, Memory>
        ensures { IfOk result (AllByRecursion IsSoundTable) }
    {
        let first = self.table(alloc, 0)?;
        let second = self.table(alloc, 1)?;
        let tables = two(alloc, first, second)?;
        Ok(tables)
    }

    /// The entry of a number comes to the left member, or goes.
    pub fn delta(&self, alloc: Global, number: u16, comes: bool) -> Result<LeafDelta, Memory> {
        let leaf_of = Leaf {
            member: 0,
            kind: 3 + u64::from(number),
        };
        let mut gone = List::new(alloc);
        let mut come = List::new(alloc);
        if comes {
            let LeafEntry {
                m,
                level,
                effects,
                ..
            } = self.entry(alloc, 0, number)?;
            come.push(leaf(alloc, m, level, true, effects, leaf_of)?)?;
        } else {
            gone.push(leaf_of)?;
        }
        Ok(LeafDelta {
            member: 0,
            gone,
            come,
        })
    }
}
