//! Virtual switches that are joined by links: the ways of packets, and the rules of nodes.
use crate::fixtures::{by_port, entry, levels, packet, table, two};
use cv_io::List;
use of10_actions::{Dest, Rewrite, Tail};
use policy_expr::Expr;
use policy_meaning::{
    LeafEntry, LeafTable, Link, Network, Place, VirtualSwitch, entering_rules, hop_size,
    node_rules, tables_fit, walk,
};
use std::alloc::Global;
use std::process::Abort;
use std::test::*;

const PORTS: [u16; 4] = [1, 2, 8, 9];

/// Sends what comes by a port over a link.
fn sending(alloc: Global, from: u16, link: u16) -> Result<LeafEntry, Fail> {
    let tail = Tail::Link(Rewrite::new(), link);
    entry(alloc, 1, by_port(from), None, tail)
}

/// Sends what comes by port 1 to link 9, and what comes back by link 8 to port 1.
fn first(alloc: Global) -> Result<LeafTable, Fail> {
    let mut first = table(alloc, 0, &PORTS, false, sending(alloc, 1, 9)?)?;
    let out = Dest::Port { v: 0, port: 1 };
    let back = entry(alloc, 2, by_port(8), Some(out), Tail::Nothing)?;
    first.entries.push(back)?;
    Ok(first)
}

fn link(port: u16, v: u32) -> Link {
    Link {
        port,
        peer: Place { v, port },
    }
}

/// A virtual switch of one member, whose links lead to the other one.
fn switch(alloc: Global, index: u32, other: u32) -> Result<VirtualSwitch, Fail> {
    Ok(VirtualSwitch {
        expr: Expr::Member { index },
        outside: List::from_slice(alloc, &[1, 2])?,
        links: two(alloc, link(8, other), link(9, other))?,
        spread: false,
        whole: false,
    })
}

/// Of the second virtual switch: sends what comes by link 9 to link 8.
fn second(alloc: Global) -> Result<LeafTable, Fail> {
    table(alloc, 1, &PORTS, false, sending(alloc, 9, 8)?)
}

fn switches(alloc: Global) -> Result<List<VirtualSwitch>, Fail> {
    two(alloc, switch(alloc, 0, 1)?, switch(alloc, 1, 0)?)
}

/// Two virtual switches that split a physical one.
fn split(alloc: Global) -> Result<Network, Fail> {
    let switches = switches(alloc)?;
    Ok(Network {
        tables: two(alloc, first(alloc)?, second(alloc)?)?,
        switches,
    })
}

/// The port by which the packet leaves, or 0.
fn leaves_by(alloc: Global, hops: u32) -> Result<u16, Fail> {
    let network = split(alloc)?;
    let walked = walk(alloc, &network, hops, 0, &packet())?;
    Ok(walked.outs.get(0).map_or(0, |out| out.port))
}

#[test]
fn three_hops_suffice(rt: HostRuntime) -> Result<(), Fail> {
    for (hops, want) in [(2, 0), (3, 1)] {
        let port = leaves_by(rt.alloc(), hops)?;
        assert_eq!(rt; port, want, "{hops} hops");
    }
    Ok(())
}

/// The levels of the rules at port 1 of the first virtual switch, for four hops.
fn node_levels(alloc: Global, network: &Network) -> Result<List<u64>, Fail> {
    if !tables_fit(&network.tables) || hop_size(network, 4, 0) == u64::MAX {
        return Ok(List::new(alloc));
    }
    levels(alloc, &node_rules(alloc, network, 4, 0, 1)?)
}

/// The same, of the rules that enter there.
fn entering_levels(alloc: Global, network: &Network) -> Result<List<u64>, Fail> {
    if !tables_fit(&network.tables) || hop_size(network, 4, 0) == u64::MAX {
        return Ok(List::new(alloc));
    }
    match entering_rules(alloc, network, 4, 0)?.get(0) {
        Some(entering) => levels(alloc, &entering.rules),
        None => Ok(List::new(alloc)),
    }
}

/// The rules of both kinds have the same levels.
fn have_levels(
    rt: &(impl Abort + AllocGlobal),
    network: &Network,
    want: &[u64],
) -> Result<(), Fail> {
    let of_node = node_levels(rt.alloc(), network)?;
    assert_eq!(rt; of_node.as_slice(), want);
    let entering = entering_levels(rt.alloc(), network)?;
    assert_eq!(rt; entering.as_slice(), want);
    Ok(())
}

#[test]
fn levels_over_hops(rt: HostRuntime) -> Result<(), Fail> {
    let network = split(rt.alloc())?;
    let compared = have_levels(&rt, &network, &[512, 2112, 2312, 2336]);
    drop(network);
    compared
}
