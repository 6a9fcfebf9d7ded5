//! Entries of members, by a fixed generator.
ghost use Rattle.of10_match.specs.Ranges.{IsPrefix};

use of10_actions::{Dest, Rewrite, Tail};
use of10_match::{Match, Prefix};

/// What entries do with packets beside sending copies.
#[derive(Clone, Copy)]
pub enum Onward {
    Ends,
    /// Some are passed on to the right operand.
    Passes,
    /// Some go on over a link.
    Links,
}

/// An entry of a number comes to a member's table, in the place of the one that stands there.
#[derive(Drop)]
pub struct Placed {
    pub member: u32,
    pub serial: u64,
    /// Where one stands there it goes, and none comes.
    pub goes: bool,
    pub m: Match,
    pub level: u64,
    pub dest: Option<Dest>,
    pub tail: Tail,
}

/// The next number below 8, of a linear congruential generator.
pub fn next(state: &mut u64) -> u64 {
    *state = state
        .wrapping_mul(6_364_136_223_846_793_005)
        .wrapping_add(1_442_695_040_888_963_407);
    *state >> 61
}

/// IPv4 packets to a net, whose further bits are zero.
pub fn to_net(addr: u32, len: u8) -> Match
    requires { IsPrefix (record { addr = addr; len = len }) }
{
    Match {
        dl_type: Some(0x0800),
        nw_dst: Some(Prefix { addr, len }),
        ..Match::everything()
    }
}

/// Packets that come by one of the ports, or by any; to a net, to a host in it, or to any.
fn packets(state: &mut u64) -> Match {
    let in_port = match next(state) {
        0 | 1 | 2 => None,
        3 => Some(1),
        4 => Some(2),
        5 | 6 => Some(8),
        _ => Some(9),
    };
    let packets = match next(state) {
        0 | 1 => to_net(0x0a00_0000, 8),
        2 | 3 => to_net(0x0a00_0007, 32),
        _ => Match::everything(),
    };
    Match { in_port, ..packets }
}

/// Where a copy leaves, if one does.
fn dest(state: &mut u64, v: u32) -> Option<Dest> {
    match next(state) {
        0 => Some(Dest::Ingress),
        1 => Some(Dest::Flood { v, port: 1 }),
        2 => Some(Dest::Port { v, port: 1 }),
        3 => Some(Dest::Port { v, port: 2 }),
        _ => None,
    }
}

/// Another address, or none.
fn rewrite(state: &mut u64) -> Rewrite {
    let nw_dst = match next(state) {
        0 | 1 => Some(0x0a00_0007),
        2 => Some(0x0b00_0007),
        _ => None,
    };
    Rewrite {
        nw_dst,
        ..Rewrite::new()
    }
}

/// Packets end, are passed on, or go on over a link.
fn tail(state: &mut u64, onward: Onward) -> Tail {
    match (onward, next(state)) {
        (Onward::Ends, _) | (_, 0 | 1) => Tail::Nothing,
        (Onward::Passes, _) => Tail::Pass(rewrite(state)),
        (Onward::Links, 2 | 3 | 4) => Tail::Link(rewrite(state), 8),
        (Onward::Links, _) => Tail::Link(rewrite(state), 9),
    }
}

/// An entry of a member, of one of six numbers.
pub fn drawn(state: &mut u64, member: u32, onward: Onward) -> Placed {
    Placed {
        member,
        serial: 1 + next(state) % 6,
        goes: next(state) < 4,
        m: packets(state),
        level: 2 + next(state) % 6,
        dest: dest(state, member),
        tail: tail(state, onward),
    }
}
