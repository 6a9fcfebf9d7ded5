//! The rules of tables and of expressions, and their order.
use crate::fixtures::{by_port, entry, from_net, levels, table, to_address, to_server, two};
use cv_io::{Duplicate, Leaf, List};
use of10_actions::{Dest, Tail};
use of10_match::Match;
use policy_expr::Expr;
use policy_meaning::{
    LeafEntry, LeafTable, Rule, expression_rules, expression_size, listed, tables_fit,
};
use std::alloc::Global;
use std::test::Fail;

const PORTS: [u16; 4] = [1, 2, 3, 4];

/// How two members are composed.
#[derive(Clone, Copy)]
enum Joint {
    /// A monitor and a router.
    Par,
    /// A load balancer before a router.
    Seq,
    /// A firewall over a router.
    Over,
}

/// The entry of the first member, which sends to port 2 or nowhere.
fn first_entry(alloc: Global, joint: Joint) -> Result<LeafEntry, Fail> {
    let out = Dest::Port { v: 0, port: 2 };
    let (m, dest, tail) = match joint {
        Joint::Par => (from_net(), None, Tail::Nothing),
        Joint::Seq => (to_address(0x0102_0304), None, Tail::Pass(to_server())),
        Joint::Over => (from_net(), Some(out), Tail::Nothing),
    };
    entry(alloc, 1, m, dest, tail)
}

/// The first member, whose misses the firewall alone is told, and the router.
fn members(alloc: Global, joint: Joint) -> Result<List<LeafTable>, Fail> {
    let misses = matches!(joint, Joint::Over);
    let first = table(alloc, 0, &PORTS, misses, first_entry(alloc, joint)?)?;
    let out = Dest::Port { v: 0, port: 1 };
    let routed = entry(alloc, 1, to_address(0x0200_0001), Some(out), Tail::Nothing)?;
    two(alloc, first, table(alloc, 1, &PORTS, true, routed)?)
}

fn expression(alloc: Global, joint: Joint) -> Result<Expr, Fail> {
    let left = Box::new(alloc, Expr::Member { index: 0 })?;
    let right = Box::new(alloc, Expr::Member { index: 1 })?;
    Ok(match joint {
        Joint::Par => Expr::Par { left, right },
        Joint::Seq => Expr::Seq { left, right },
        Joint::Over => Expr::Over { left, right },
    })
}

/// The levels of the rules over two members.
fn composed(alloc: Global, joint: Joint) -> Result<List<u64>, Fail> {
    let tables = members(alloc, joint)?;
    let expr = expression(alloc, joint)?;
    if !tables_fit(&tables) || expression_size(&tables, &expr) == u64::MAX {
        return Ok(List::new(alloc));
    }
    let ports = List::from_slice(alloc, &PORTS)?;
    levels(
        alloc,
        &expression_rules(alloc, &tables, &ports, &expr)?.rules,
    )
}

#[test]
fn levels_of_pairs(rt: HostRuntime) -> Result<(), Fail> {
    for (joint, want) in [
        (Joint::Par, [2, 5, 5, 8].as_slice()),
        (Joint::Seq, [8, 33, 36].as_slice()),
        (Joint::Over, [12, 1, 4].as_slice()),
    ] {
        let found = composed(rt.alloc(), joint)?;
        assert_eq!(rt; found.as_slice(), want);
    }
    Ok(())
}

/// A member that sees ports 1 and 3 of the four.
fn half_blind(alloc: Global) -> Result<LeafTable, Fail> {
    let first = entry(alloc, 1, from_net(), None, Tail::Nothing)?;
    table(alloc, 0, &[1, 3], false, first)
}

/// The levels of the rules of a member.
fn member_levels(alloc: Global, member: &LeafTable) -> Result<List<u64>, Fail> {
    if !member.fits() {
        return Ok(List::new(alloc));
    }
    let ports = List::from_slice(alloc, &PORTS)?;
    levels(alloc, &member.rules(alloc, &ports)?)
}

#[test]
fn rules_by_port(rt: HostRuntime) -> Result<(), Fail> {
    let member = half_blind(rt.alloc())?;
    let found = member_levels(rt.alloc(), &member);
    drop(member);
    assert_eq!(rt; found?.as_slice(), [0, 1, 1, 4, 4].as_slice());
    Ok(())
}

/// A rule of one leaf, of this kind.
fn rule(alloc: Global, level: u64, kind: u64, m: Match) -> Result<Rule, Fail> {
    let leaf = Leaf { member: 0, kind };
    Ok(Rule {
        m,
        level,
        touched: true,
        outs: List::new(alloc),
        tail: Tail::Nothing,
        ancestry: List::from_slice(alloc, &[leaf])?,
    })
}

/// The copy of such a rule.
fn rule_copy(alloc: Global, level: u64, kind: u64, m: Match) -> Result<Rule, Fail> {
    let rule = rule(alloc, level, kind, m)?;
    let copied = rule.copy();
    drop(rule);
    Ok(copied?)
}

/// Rules in their order: by the kind of their leaf, then by their port. They are listed from the last.
fn in_order(alloc: Global) -> Result<List<u64>, Fail> {
    let mut rules = List::new(alloc);
    for (level, kind, port) in [(3, 3, 2), (2, 3, 1), (1, 1, 9)] {
        rules.push(rule_copy(alloc, level, kind, by_port(port))?)?;
    }
    levels(alloc, &listed(rules)?)
}

#[test]
fn order_of_rules(rt: HostRuntime) -> Result<(), Fail> {
    let found = in_order(rt.alloc())?;
    assert_eq!(rt; found.as_slice(), [1, 2, 3].as_slice());
    Ok(())
}
