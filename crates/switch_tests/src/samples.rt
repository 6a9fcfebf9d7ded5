//! What several tests start from.
ghost use Rattle.of10_match.specs.Ranges.{IsVlan};

use cv_io::{List, Memory};
use of10_actions::Action;
use of10_match::{Header, Match, UNTAGGED};
use std::alloc::Global;
use switch_meaning::{Cable, FlowEntry, NextHop, Outside, SwitchPort, Wiring};

pub fn by_port(port: u16) -> Match {
    Match {
        in_port: Some(port),
        ..Match::everything()
    }
}

pub fn by_tag(port: u16, tag: u16) -> Match
    requires { IsVlan tag }
{
    Match {
        in_port: Some(port),
        dl_vlan: Some(tag),
        ..Match::everything()
    }
}

pub fn output(port: u16) -> Action {
    Action::Output { port, max_len: 0 }
}

pub fn lies(port: u16, switch: u32, at: u16) -> Outside {
    Outside {
        v: 0,
        port,
        at: SwitchPort { switch, port: at },
        tag: Some(port),
    }
}

fn hop(from: u32, to: u32, port: u16) -> NextHop {
    NextHop { from, to, port }
}

/// Three switches in a row: the first has the outside ports 1 and 3, the second 2, the third 4.
pub fn in_a_row(alloc: Global) -> Result<Wiring, Memory> {
    let outside = [lies(1, 0, 1), lies(2, 1, 1), lies(3, 0, 2), lies(4, 2, 1)];
    let cables = [
        Cable {
            one: SwitchPort { switch: 0, port: 3 },
            other: SwitchPort { switch: 1, port: 3 },
        },
        Cable {
            one: SwitchPort { switch: 1, port: 4 },
            other: SwitchPort { switch: 2, port: 3 },
        },
    ];
    let next_hops = [
        hop(0, 1, 3),
        hop(0, 2, 3),
        hop(1, 0, 3),
        hop(1, 2, 4),
        hop(2, 0, 3),
        hop(2, 1, 3),
    ];
    Ok(Wiring {
        outside: List::from_slice(alloc, &outside)?,
        cables: List::from_slice(alloc, &cables)?,
        next_hops: List::from_slice(alloc, &next_hops)?,
    })
}

pub fn ping(in_port: u16) -> Header {
    Header {
        in_port,
        dl_src: 1,
        dl_dst: 2,
        dl_vlan: UNTAGGED,
        dl_vlan_pcp: 0,
        dl_type: 0x0800,
        nw_tos: 0,
        nw_proto: 1,
        nw_src: 3,
        nw_dst: 4,
        tp_src: 8,
        tp_dst: 0,
    }
}

/// An entry of a switch.
pub fn entry(
    alloc: Global,
    m: Match,
    priority: u16,
    actions: &[Action],
) -> Result<FlowEntry, Memory> {
    Ok(FlowEntry {
        m,
        priority,
        actions: List::from_slice(alloc, actions)?,
    })
}

/// The list of one item.
pub fn one<T: Drop>(alloc: Global, item: T) -> Result<List<T>, Memory> {
    let mut list = List::new(alloc);
    list.push(item)?;
    Ok(list)
}
