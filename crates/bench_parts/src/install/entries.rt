//! The entries that are put on the switch.
ghost use Rattle.std.specs.Prelude.{◌<◌, ◌≤◌};

use crate::nets::net;
use cv_io::{Leaf, List, Memory};
use of10_actions::Action;
use of10_match::{Header, IPV4, Match, TCP, UNTAGGED};
use std::alloc::Global;
use switch_meaning::PhysEntry;

/// A TCP packet of the port to a host of the net of this number.
pub fn header(number: u32) -> Header {
    Header {
        in_port: 1,
        dl_src: 1,
        dl_dst: 2,
        dl_vlan: UNTAGGED,
        dl_vlan_pcp: 0,
        dl_type: IPV4,
        nw_tos: 0,
        nw_proto: TCP,
        nw_src: 0x0a00_0001,
        nw_dst: net(number).addr | number % 256,
        tp_src: 4000,
        tp_dst: 80,
    }
}

/// Packets of a port to the net of this number.
fn to_net(number: u32) -> Match {
    Match {
        in_port: Some(1),
        dl_type: Some(0x0800),
        nw_dst: Some(net(number)),
        ..Match::everything()
    }
}

/// The entry of this number, of one of so many priorities, which sends to a port.
fn entry(alloc: Global, number: u32, priorities: u32, to: u16) -> Result<PhysEntry, Memory>
    requires { (0 < priorities) × (priorities ≤ 60000) }
{
    let leaves = [
        Leaf {
            member: 0,
            kind: u64::from(number) + 3,
        },
        Leaf { member: 1, kind: 1 },
    ];
    let actions = [Action::Output {
        port: to,
        max_len: 0,
    }];
    Ok(PhysEntry {
        m: to_net(number),
        priority: (number % priorities) as u16 + 1,
        actions: List::from_slice(alloc, &actions)?,
        ancestry: List::from_slice(alloc, &leaves)?,
    })
}

/// So many entries from a number on.
pub fn entries(
    alloc: Global,
    from: u32,
    count: u32,
    priorities: u32,
    to: u16,
) -> Result<List<PhysEntry>, Memory>
    requires { (0 < priorities) × (priorities ≤ 60000) }
{
    let mut list = List::new(alloc);
    for number in from..from.saturating_add(count) {
        list.push(entry(alloc, number, priorities, to)?)?;
    }
    Ok(list)
}
