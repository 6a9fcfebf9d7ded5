//! The entries and the table of a setting.
ghost use Rattle.std.specs.Prelude.{◌≤◌};

use crate::samples::{entry, one, output};
use agreement::{PhysicalSwitch, Setting, expected, levels_fit, placed, table_of};
use cv_io::{Leaf, List, Memory};
use of10_actions::{Action, Dest, Effects, Out, Rewrite, Tail};
use of10_match::{Header, Match, Prefix};
use policy_expr::Expr;
use policy_meaning::{Entering, LeafEntry, LeafTable, Network, Rule, VirtualSwitch, walk};
use std::alloc::Global;
use std::test::Fail;
use switch_meaning::{Copied, FlowEntry, Left, Outside, PhysEntry, Seen, Site, SwitchPort, Wiring};

const SERVER: u32 = 0x0200_0001;

/// A port of the switch, which is that port of the virtual switch.
fn lies(port: u16) -> Outside {
    Outside {
        v: 0,
        port,
        at: SwitchPort { switch: 0, port },
        tag: None,
    }
}

/// The four ports of one switch, each a port of the one virtual switch.
fn one_switch(alloc: Global) -> Result<Wiring, Memory> {
    let outside = [lies(1), lies(2), lies(3), lies(4)];
    Ok(Wiring {
        outside: List::from_slice(alloc, &outside)?,
        cables: List::new(alloc),
        next_hops: List::new(alloc),
    })
}

fn to(alloc: Global, rewrite: Rewrite, port: u16) -> Result<List<Out>, Memory> {
    let out = Out {
        rewrite,
        dest: Dest::Port { v: 0, port },
    };
    List::from_slice(alloc, &[out])
}

/// Packets to 2.0.0.0/24.
fn to_servers() -> Match {
    Match {
        dl_type: Some(0x0800),
        nw_dst: Some(Prefix {
            addr: 0x0200_0000,
            len: 24,
        }),
        ..Match::everything()
    }
}

/// The router's entry, which sends packets to 2.0.0.0/24 to port 1.
fn routing(alloc: Global) -> Result<LeafEntry, Memory> {
    Ok(LeafEntry {
        serial: 1,
        rank: 100,
        m: to_servers(),
        level: 4,
        effects: Effects {
            outs: to(alloc, Rewrite::new(), 1)?,
            tail: Tail::Nothing,
        },
    })
}

/// A router with this one entry.
fn router(alloc: Global) -> Result<LeafTable, Memory> {
    let region = List::from_slice(alloc, &[Match::everything()])?;
    let visible = List::from_slice(alloc, &[1, 2, 3, 4])?;
    let entries = one(alloc, routing(alloc)?)?;
    Ok(LeafTable {
        member: 0,
        size: 8,
        region,
        visible,
        misses: true,
        entries,
    })
}

/// The one virtual switch, of which the router is the one member.
fn virtual_switch(alloc: Global, whole: bool) -> Result<VirtualSwitch, Memory> {
    Ok(VirtualSwitch {
        expr: Expr::Member { index: 0 },
        outside: List::from_slice(alloc, &[1, 2, 3, 4])?,
        links: List::new(alloc),
        spread: false,
        whole,
    })
}

fn network(alloc: Global, whole: bool) -> Result<Network, Memory> {
    let tables = one(alloc, router(alloc)?)?;
    let switches = one(alloc, virtual_switch(alloc, whole)?)?;
    Ok(Network { tables, switches })
}

/// An UDP packet to this address, which comes by a port.
fn packet(in_port: u16, address: u32) -> Header {
    Header {
        in_port,
        dl_src: 1,
        dl_dst: 2,
        dl_vlan: 65535,
        dl_vlan_pcp: 0,
        dl_type: 0x0800,
        nw_tos: 0,
        nw_proto: 17,
        nw_src: 0x0a00_0107,
        nw_dst: address,
        tp_src: 1000,
        tp_dst: 53,
    }
}

/// What is to be seen of a packet.
fn seen_of(
    alloc: Global,
    network: &Network,
    wiring: &Wiring,
    header: &Header,
) -> Result<Seen, Memory> {
    let at = SwitchPort {
        switch: 0,
        port: header.in_port,
    };
    let walked = walk(alloc, network, 4, 0, header)?;
    expected(alloc, wiring, at, header, &walked)
}

fn seen(alloc: Global, header: &Header) -> Result<Seen, Memory> {
    let wiring = one_switch(alloc)?;
    let network = network(alloc, false)?;
    let seen = seen_of(alloc, &network, &wiring, header);
    drop(network);
    drop(wiring);
    seen
}

/// Whether the packet alone left by port 1, or nothing did, and whether it alone was copied, or nothing was.
fn is_seen(seen: &Seen, header: Header, outs: usize, copies: usize) -> (bool, bool)
    requires one_out { outs ≤ 1 }
    requires one_copy { copies ≤ 1 }
{
    let left = Left {
        at: SwitchPort { switch: 0, port: 1 },
        header,
    };
    let copied = Copied { switch: 0, header };
    (
        seen.outs.as_slice() == &[left][..outs],
        seen.copies.as_slice() == &[copied][..copies],
    )
}

/// Whether a packet that comes by a port, to this address, is seen so often.
fn is_packet_seen(
    alloc: Global,
    in_port: u16,
    address: u32,
    outs: usize,
    copies: usize,
) -> Result<(bool, bool), Memory>
    requires one_out { outs ≤ 1 }
    requires one_copy { copies ≤ 1 }
{
    let header = packet(in_port, address);
    let seen = seen(alloc, &header)?;
    let same = is_seen(&seen, header, outs, copies);
    drop(seen);
    Ok(same)
}

/// To the server a packet leaves by port 1, but not where it came by it; of others a copy is made.
#[test]
fn packets_are_to_be_seen(rt: HostRuntime) -> Result<(), Fail> {
    for (in_port, address, outs, copies) in [(2, SERVER, 1, 0), (1, SERVER, 0, 0), (3, 5, 0, 1)] {
        let same = is_packet_seen(rt.alloc(), in_port, address, outs, copies)?;
        assert_eq!(rt; same, (true, true));
    }
    Ok(())
}

/// The load balancer's rule at a port: to the server, by port 1.
fn balancing(alloc: Global, in_port: Option<u16>) -> Result<Rule, Memory> {
    let rewrite = Rewrite {
        nw_dst: Some(SERVER),
        ..Rewrite::new()
    };
    let ancestry = List::from_slice(alloc, &[Leaf { member: 0, kind: 3 }])?;
    Ok(Rule {
        m: Match {
            in_port,
            ..Match::everything()
        },
        level: 36,
        touched: true,
        outs: to(alloc, rewrite, 1)?,
        tail: Tail::Nothing,
        ancestry,
    })
}

/// What is to stand for it.
fn balanced(alloc: Global, in_port: Option<u16>) -> Result<PhysEntry, Memory> {
    let actions = [
        Action::SetNwDst { address: SERVER },
        Action::Output {
            port: 1,
            max_len: 0,
        },
    ];
    let ancestry = List::from_slice(alloc, &[Leaf { member: 0, kind: 3 }])?;
    Ok(PhysEntry {
        m: Match {
            in_port,
            ..Match::everything()
        },
        priority: 37,
        actions: List::from_slice(alloc, &actions)?,
        ancestry,
    })
}

/// What is placed for it on a switch, if its level fits.
fn placed_on(
    alloc: Global,
    switch: u32,
    entering: &Entering,
) -> Result<Option<List<PhysEntry>>, Memory> {
    if !levels_fit(&entering.rules) {
        return Ok(None);
    }
    let site = Site {
        v: 0,
        switch,
        spread: false,
        whole: entering.port.is_none(),
    };
    let outside = List::from_slice(alloc, &[1, 2, 3, 4])?;
    let wiring = one_switch(alloc)?;
    Ok(Some(placed(alloc, &wiring, site, &outside, entering)?))
}

fn placed_at(
    alloc: Global,
    switch: u32,
    port: Option<u16>,
) -> Result<Option<List<PhysEntry>>, Memory> {
    let rules = one(alloc, balancing(alloc, port)?)?;
    placed_on(alloc, switch, &Entering { port, rules })
}

/// Whether the first `count` of the one entry are placed.
fn is_placed(alloc: Global, switch: u32, in_port: Option<u16>, count: usize) -> Result<bool, Memory>
    requires { count ≤ 1 }
{
    let want = [balanced(alloc, in_port)?];
    Ok(match placed_at(alloc, switch, in_port)? {
        Some(entries) => entries.as_slice() == &want[..count],
        None => false,
    })
}

/// At the switch of the port, at another, and for all ports of a whole virtual switch.
#[test]
fn rules_are_placed(rt: HostRuntime) -> Result<(), Fail> {
    for (switch, in_port, count) in [(0, Some(2), 1), (1, Some(2), 0), (0, None, 1), (1, None, 0)] {
        let same = is_placed(rt.alloc(), switch, in_port, count)?;
        assert!(rt; same, "switch {switch}");
    }
    Ok(())
}

/// The switch has a fifth port, which is no outside port.
fn physical_switch(alloc: Global) -> Result<PhysicalSwitch, Memory> {
    Ok(PhysicalSwitch {
        ports: List::from_slice(alloc, &[1, 2, 3, 4, 5])?,
        up: true,
    })
}

fn routed(alloc: Global) -> Result<Setting, Memory> {
    let switches = one(alloc, physical_switch(alloc)?)?;
    let wiring = one_switch(alloc)?;
    Ok(Setting {
        network: network(alloc, true)?,
        hops: 4,
        wiring,
        switches,
    })
}

fn add(
    alloc: Global,
    table: &mut List<FlowEntry>,
    m: Match,
    priority: u16,
    actions: &[Action],
) -> Result<(), Memory> {
    table.push(entry(alloc, m, priority, actions)?)
}

/// For all ports the entry of a miss and the router's, and one that drops what comes by the fifth.
fn add_routed(alloc: Global, table: &mut List<FlowEntry>) -> Result<(), Memory> {
    let told = Action::Output {
        port: 0xfffd,
        max_len: 65535,
    };
    let fifth = Match {
        in_port: Some(5),
        ..Match::everything()
    };
    add(alloc, table, Match::everything(), 2, &[told])?;
    add(alloc, table, to_servers(), 5, &[output(1)])?;
    add(alloc, table, fifth, 65535, &[])
}

fn routed_table(alloc: Global) -> Result<List<FlowEntry>, Memory> {
    let mut table = List::new(alloc);
    add_routed(alloc, &mut table)?;
    Ok(table)
}

/// The table of a setting, if it fits.
fn table_if_fits(alloc: Global, setting: &Setting) -> Result<Option<List<FlowEntry>>, Memory> {
    if !setting.fits() {
        return Ok(None);
    }
    Ok(Some(table_of(alloc, setting, 0)?))
}

fn table_of_routed(alloc: Global) -> Result<Option<List<FlowEntry>>, Memory> {
    let setting = routed(alloc)?;
    let table = table_if_fits(alloc, &setting);
    drop(setting);
    table
}

fn is_made(alloc: Global) -> Result<bool, Memory> {
    let want = routed_table(alloc)?;
    let table = table_of_routed(alloc)?;
    Ok(table == Some(want))
}

#[test]
fn table_is_made(rt: HostRuntime) -> Result<(), Fail> {
    let same = is_made(rt.alloc())?;
    assert!(rt; same);
    Ok(())
}
