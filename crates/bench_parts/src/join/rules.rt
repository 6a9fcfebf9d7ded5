//! The rules that are joined.

use crate::nets::net;
use cv_io::{Leaf, List, Memory};
use of10_actions::{Dest, Effects, Out, Rewrite, Tail};
use of10_match::Match;
use op_compose::{Rule, leaf};
use std::alloc::Global;

/// How many levels an operand's rules have.
pub const SIZE: u64 = 16;

/// An address in the net of this number.
fn server(number: u16) -> u32 {
    0x0a00_0001 + u32::from(number) * 256
}

/// Packets from a net, which come by one of four ports.
fn from_net(number: u16) -> Match {
    Match {
        in_port: Some(1 + number % 4),
        dl_type: Some(0x0800),
        nw_src: Some(net(u32::from(number))),
        ..Match::everything()
    }
}

/// Packets to a net, which come by one of four ports.
fn to_net(number: u16) -> Match {
    Match {
        in_port: Some(1 + number % 4),
        dl_type: Some(0x0800),
        nw_dst: Some(net(u32::from(number))),
        ..Match::everything()
    }
}

/// Two packets leave, by ports of the first virtual switch.
fn two_outs(alloc: Global, rewrite: &Rewrite) -> Result<List<Out>, Memory> {
    let mut outs = List::with_capacity(alloc, 2)?;
    for port in [1, 2] {
        outs.push(Out {
            rewrite: *rewrite,
            dest: Dest::Port { v: 0, port },
        })?;
    }
    Ok(outs)
}

/// The rule of an entry of this number.
fn entry(alloc: Global, m: Match, number: u16, member: u32, tail: Tail) -> Result<Rule, Memory> {
    let effects = Effects {
        outs: two_outs(alloc, &Rewrite::new())?,
        tail,
    };
    let kind = 2 + u64::from(number);
    leaf(alloc, m, kind % SIZE, true, effects, Leaf { member, kind })
}

/// A left operand's rules: each sends its packets to one address of the net of its number and passes
/// them on.
pub fn lefts(alloc: Global, rules: u16) -> Result<List<Rule>, Memory> {
    let mut made = List::new(alloc);
    for number in 0..rules {
        let rewrite = Rewrite {
            nw_dst: Some(server(number)),
            ..Rewrite::new()
        };
        made.push(entry(alloc, from_net(number), number, 0, Tail::Pass(rewrite))?)?;
    }
    Ok(made)
}

/// A right operand's rules, one for each net.
pub fn rights(alloc: Global, rules: u16) -> Result<List<Rule>, Memory> {
    let mut made = List::new(alloc);
    for number in 0..rules {
        made.push(entry(alloc, to_net(number), number, 1, Tail::Nothing)?)?;
    }
    Ok(made)
}
