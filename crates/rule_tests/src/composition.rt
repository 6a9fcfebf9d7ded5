//! The rules of pairs, and those that stand alone.
ghost use Rattle.std.specs.Prelude.{◌≡◌, ◌<◌, ◌^◌, IfOk, true};
ghost use Rattle.op_compose.specs.Composition.{Joins, StandsAlone, alone_level, joined_level};

use cv_io::{Leaf, List, Memory, Steps};
use of10_actions::{Effects, Rewrite, Tail};
use of10_match::{Match, Prefix};
use op_compose::{Op, Rule, Side, join, leaf, lift};
use std::alloc::Global;
use std::marker::Brand;
use std::sync::ledger::{Blank, Ledger};
use std::test::Fail;

/// Packets go to the server at 2.0.0.1.
fn to_server() -> Rewrite {
    Rewrite {
        nw_dst: Some(0x0200_0001),
        ..Rewrite::new()
    }
}

fn ipv4() -> Match {
    Match {
        dl_type: Some(0x0800),
        ..Match::everything()
    }
}

/// A monitor's packets, from 10.0.1.0/24.
fn monitored() -> Match {
    Match {
        nw_src: Some(Prefix {
            addr: 0x0a00_0100,
            len: 24,
        }),
        ..ipv4()
    }
}

/// A router's packets, to 10.0.2.0/24.
fn routed() -> Match {
    Match {
        nw_dst: Some(Prefix {
            addr: 0x0a00_0200,
            len: 24,
        }),
        ..ipv4()
    }
}

/// The packets of both.
fn monitored_and_routed() -> Match {
    Match {
        nw_dst: Some(Prefix {
            addr: 0x0a00_0200,
            len: 24,
        }),
        ..monitored()
    }
}

/// A load balancer's packets, to 1.2.3.4.
fn balanced() -> Match {
    Match {
        nw_dst: Some(Prefix::from(0x0102_0304)),
        ..ipv4()
    }
}

/// Packets to the servers' net, 2.0.0.0/24.
fn served() -> Match {
    Match {
        nw_dst: Some(Prefix {
            addr: 0x0200_0000,
            len: 24,
        }),
        ..ipv4()
    }
}

fn by_port(port: u16) -> Match {
    Match {
        in_port: Some(port),
        ..Match::everything()
    }
}

/// The rule of a member's entry.
fn entry(alloc: Global, m: Match, level: u64, tail: Tail) -> Result<Rule, Memory>
    ensures level { IfOk result (λ rule. rule.level ≡ level) }
    ensures tail { IfOk result (λ rule. rule.tail ≡ tail) }
    ensures touched { IfOk result (λ rule. rule.touched ≡ true) }
{
    let effects = Effects {
        outs: List::new(alloc),
        tail,
    };
    leaf(alloc, m, level, true, effects, Leaf { member: 0, kind: 3 })
}

/// The match and the level of the rule of a pair, if there is one, and the leaves of its ancestry.
fn paired<G: Ledger>(
    op: Op,
    a: Rule,
    b: Rule,
    size: u64,
    blank: Blank,
) -> Result<Option<(Match, u64, usize)>, Memory>
    requires blank { (blank.name ≡ G.name) × (blank.parts ≡ G.parts) × (0 < blank.parts) }
    requires joins { Joins op a.tail }
    requires level { joined_level op a.level b.level size < 2 ^ 64 }
{
    let mut steps = Steps::<G>::new(blank);
    Ok(match join(op, &a, &b, size, &mut steps)? {
        Some(rule) => Some((rule.m, rule.level, rule.ancestry.len())),
        None => None,
    })
}

/// The same, with a counter of its own.
fn pair(op: Op, a: Rule, b: Rule, size: u64) -> Result<Option<(Match, u64, usize)>, Memory>
    requires joins { Joins op a.tail }
    requires level { joined_level op a.level b.level size < 2 ^ 64 }
{
    paired::<Brand>(op, a, b, size, Blank::new(1))
}

/// A monitor and a router, side by side.
fn monitored_or_routed(alloc: Global) -> Result<Option<(Match, u64, usize)>, Memory> {
    let monitor = entry(alloc, monitored(), 4, Tail::Nothing)?;
    let router = entry(alloc, routed(), 4, Tail::Nothing)?;
    pair(Op::Par, monitor, router, 8)
}

/// A load balancer before an entry of a router.
fn balanced_first(alloc: Global, right: Match) -> Result<Option<(Match, u64, usize)>, Memory> {
    let balancer = entry(alloc, balanced(), 4, Tail::Pass(to_server()))?;
    let router = entry(alloc, right, 4, Tail::Nothing)?;
    pair(Op::Seq, balancer, router, 8)
}

/// An entry that sends to link 9, and one of the peer for what comes by its port 9.
fn over_a_link(alloc: Global) -> Result<Option<(Match, u64, usize)>, Memory> {
    let first = entry(alloc, by_port(1), 4, Tail::Link(Rewrite::new(), 9))?;
    let second = entry(alloc, by_port(9), 288, Tail::Nothing)?;
    pair(Op::Hop, first, second, 512)
}

#[test]
fn worked_pairs(rt: HostRuntime) -> Result<(), Fail> {
    let both = monitored_or_routed(rt.alloc())?;
    assert_eq!(rt; both, Some((monitored_and_routed(), 8, 2)));
    // What goes to the server isn't in the router's net.
    for (right, want) in [(served(), Some((balanced(), 36, 2))), (routed(), None)] {
        let passed = balanced_first(rt.alloc(), right)?;
        assert_eq!(rt; passed, want);
    }
    // The peer's rule holds what comes by its own port, whichever port the packet came by.
    let crossed = over_a_link(rt.alloc())?;
    assert_eq!(rt; crossed, Some((by_port(1), 2336, 2)));
    Ok(())
}

/// The match and the level of the rule that stands alone.
fn lone<G: Ledger>(
    op: Op,
    side: Side,
    a: Rule,
    size: u64,
    blank: Blank,
) -> Result<(Match, u64), Memory>
    requires blank { (blank.name ≡ G.name) × (blank.parts ≡ G.parts) × (0 < blank.parts) }
    requires alone { StandsAlone op side a }
    requires level { alone_level op side a.level size < 2 ^ 64 }
{
    let mut steps = Steps::<G>::new(blank);
    let rule = lift(op, side, &a, size, &mut steps)?;
    Ok((rule.m, rule.level))
}

/// The same, with a counter of its own.
fn alone(op: Op, side: Side, a: Rule, size: u64) -> Result<(Match, u64), Memory>
    requires alone { StandsAlone op side a }
    requires level { alone_level op side a.level size < 2 ^ 64 }
{
    lone::<Brand>(op, side, a, size, Blank::new(1))
}

/// A firewall's rule, over or under another's.
fn overriding(alloc: Global, side: Side) -> Result<(Match, u64), Memory> {
    let rule = entry(alloc, monitored(), 4, Tail::Nothing)?;
    alone(Op::Over, side, rule, 8)
}

/// A rule that stays at its node.
fn ended(alloc: Global) -> Result<(Match, u64), Memory> {
    let rule = entry(alloc, by_port(1), 1, Tail::Nothing)?;
    alone(Op::Hop, Side::Left, rule, 512)
}

#[test]
fn worked_lone_rules(rt: HostRuntime) -> Result<(), Fail> {
    for (side, level) in [(Side::Left, 12), (Side::Right, 4)] {
        let found = overriding(rt.alloc(), side)?;
        assert_eq!(rt; found, (monitored(), level));
    }
    assert_eq!(rt; ended(rt.alloc())?, (by_port(1), 512));
    Ok(())
}
