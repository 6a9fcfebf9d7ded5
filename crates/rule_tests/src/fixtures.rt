//! The members of the tests.
use cv_io::List;
use of10_actions::{Dest, Effects, Out, Rewrite, Tail};
use of10_match::{Header, Match, Prefix};
use policy_meaning::{LeafEntry, LeafTable, Rule};
use std::alloc::Global;
use std::test::Fail;

pub(crate) fn to_server() -> Rewrite {
    Rewrite {
        nw_dst: Some(0x0200_0001),
        ..Rewrite::new()
    }
}

pub(crate) fn by_port(port: u16) -> Match {
    Match {
        in_port: Some(port),
        ..Match::everything()
    }
}

/// IPv4 packets from 10.0.1.0/24.
pub(crate) fn from_net() -> Match {
    Match {
        dl_type: Some(0x0800),
        nw_src: Some(Prefix {
            addr: 0x0a00_0100,
            len: 24,
        }),
        ..Match::everything()
    }
}

/// IPv4 packets to this address.
pub(crate) fn to_address(addr: u32) -> Match {
    Match {
        dl_type: Some(0x0800),
        nw_dst: Some(Prefix { addr, len: 32 }),
        ..Match::everything()
    }
}

/// An UDP packet that comes by port 1.
pub(crate) fn packet() -> Header {
    Header {
        in_port: 1,
        dl_src: 1,
        dl_dst: 2,
        dl_vlan: 65535,
        dl_vlan_pcp: 0,
        dl_type: 0x0800,
        nw_tos: 0,
        nw_proto: 17,
        nw_src: 0x0a00_0107,
        nw_dst: 0x0102_0304,
        tp_src: 1000,
        tp_dst: 53,
    }
}

/// The list of two items.
pub(crate) fn two<T: Drop>(alloc: Global, first: T, second: T) -> Result<List<T>, Fail> {
    let mut list = List::new(alloc);
    list.push(first)?;
    list.push(second)?;
    Ok(list)
}

/// The levels of rules.
pub(crate) fn levels(alloc: Global, rules: &List<Rule>) -> Result<List<u64>, Fail> {
    let mut levels = List::new(alloc);
    for rule in rules.as_slice() {
        levels.push(rule.level)?;
    }
    Ok(levels)
}

/// What sends to a place, unchanged.
fn outs_to(alloc: Global, dest: Option<Dest>) -> Result<List<Out>, Fail> {
    let mut outs = List::new(alloc);
    outs.push_some(dest.map(|dest| Out {
        rewrite: Rewrite::new(),
        dest,
    }))?;
    Ok(outs)
}

/// An entry of priority 100 and level 4.
pub(crate) fn entry(
    alloc: Global,
    serial: u64,
    m: Match,
    dest: Option<Dest>,
    tail: Tail,
) -> Result<LeafEntry, Fail> {
    Ok(LeafEntry {
        serial,
        rank: 100,
        m,
        level: 4,
        effects: Effects {
            outs: outs_to(alloc, dest)?,
            tail,
        },
    })
}

fn one<T: Drop>(alloc: Global, item: T) -> Result<List<T>, Fail> {
    let mut list = List::new(alloc);
    list.push(item)?;
    Ok(list)
}

/// A table of 8 levels that may act on all headers and sees these ports.
pub(crate) fn table(
    alloc: Global,
    member: u32,
    visible: &[u16],
    misses: bool,
    first: LeafEntry,
) -> Result<LeafTable, Fail> {
    Ok(LeafTable {
        member,
        size: 8,
        region: one(alloc, Match::everything())?,
        visible: List::from_slice(alloc, visible)?,
        misses,
        entries: one(alloc, first)?,
    })
}
