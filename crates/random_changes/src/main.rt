//! Changes entries of members by a fixed generator, one after the other, and compares the composed rules after each,
//! and what was told of their changes, with the rules from scratch: of expressions, and of the ports of two virtual
//! switches that links join. It prints a line for each policy, and the levels of worked rules.
#![tactic(auto)]

mod draws;
mod expressions;
mod folding;
mod hops;
mod members;
mod nets;

use cv_io::Memory;
use expressions::Asked;
use fitting_changes::Shape;
use folding::Count;
use std::io::{self, ErrorKind};
use std::marker::Brand;
use std::sync::ledger::Blank;

/// The expressions, how often an entry of each changes, and whether the changes are worked ones: those of a monitor, a
/// balancer and a firewall, each with a router.
const EXPRESSIONS: [(&str, Shape, u32, bool); 7] = [
    ("a + b", Shape::Parallel, 50, false),
    ("a >> b", Shape::Sequential, 50, false),
    ("a |> b", Shape::Override, 50, false),
    ("(a |> b) + (c >> d)", Shape::Mixed, 60, false),
    ("monitor + router", Shape::Parallel, 3, true),
    ("balancer >> router", Shape::Sequential, 2, true),
    ("firewall |> router", Shape::Override, 2, true),
];

/// How often entries change of the network.
const NETWORK: u32 = 100;

fn wanted(_memory: Memory) -> io::Error {
    io::Error::from(ErrorKind::OutOfMemory)
}

/// Prints what came of changes.
fn show(rt: &HostRuntime, name: &str, changes: u32, count: Count) -> io::Result<()> {
    let Count { rules, differs } = count;
    match differs {
        Some(turn) => println!(rt; "{name}: differs at {turn}"),
        None => println!(rt; "{name}: {changes} changes, {rules} rules, all equal"),
    }
}

/// Prints levels in a line.
fn show_levels(rt: &HostRuntime, levels: &[u64]) -> io::Result<()> {
    print!(rt; "levels")?;
    for level in levels {
        print!(rt; " {level}")?;
    }
    println!(rt; "")
}

fn main(rt: HostRuntime) -> io::Result<()> {
    for (name, shape, changes, is_worked) in EXPRESSIONS {
        let asked = Asked {
            shape,
            changes,
            is_worked,
        };
        let folded = expressions::folded::<_, Brand>(&rt, rt.alloc(), &asked, Blank::new(1));
        let folded = folded.map_err(wanted)?;
        show(&rt, name, changes, folded.count)?;
        if is_worked {
            show_levels(&rt, folded.levels.as_slice())?;
        }
    }
    let count = hops::folded::<Brand>(rt.alloc(), NETWORK, Blank::new(1)).map_err(wanted)?;
    show(&rt, "v1 and v2, over two links", NETWORK, count)
}
