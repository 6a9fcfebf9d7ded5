//! Entries of rules, and the entries that stand whatever the rules are.
ghost use Rattle.std.specs.Prelude.{◌<◌, ◌≡◌, IfOk};

use crate::networks::{HALF, LINKED, ROW};
use crate::wanted;
use cv_io::{List, Memory};
use inner_paths::Paths;
use of10_actions::{Dest, Out, Rewrite, Tail};
use of10_match::Match;
use place_rules::{fixed, place};
use policies::{Policy, PolicyFault};
use policy_meaning::Rule;
use std::alloc::Global;
use std::io::{self, ErrorKind};
use switch_meaning::PhysEntry;
use virtual_topology::Topology;

fn unread(fault: PolicyFault) -> io::Error {
    drop(fault);
    io::Error::from(ErrorKind::InvalidData)
}

fn policy(alloc: Global, text: &str) -> io::Result<Policy> {
    policy_file::read(alloc, text.as_bytes()).map_err(unread)
}

fn out(dest: Dest) -> Out {
    Out {
        rewrite: Rewrite::new(),
        dest,
    }
}

fn flooded(port: u16) -> Out {
    out(Dest::Flood { v: 0, port })
}

fn topology(alloc: Global, text: &str) -> io::Result<Topology> {
    let policy = policy(alloc, text)?;
    let topology = policy.topology(alloc);
    drop(policy);
    topology.map_err(wanted)
}

fn paths(alloc: Global, topology: &Topology) -> Result<Paths, Memory>
    ensures { IfOk result (λ paths. paths ≡ topology.now) }
{
    match Paths::make(alloc, topology) {
        Ok(paths) => Ok(paths),
        Err(_) => Err(Memory),
    }
}

/// The port, or any where it is 0.
fn comes_by(port: u16) -> Match {
    Match {
        in_port: if port == 0 { None } else { Some(port) },
        ..Match::everything()
    }
}

/// A rule of this level with these outs, for what comes by a port or, where that is 0, by any.
fn rule(alloc: Global, port: u16, level: u64, outs: &[Out]) -> Result<Rule, Memory>
    ensures { IfOk result (λ rule. rule.level ≡ level) }
{
    let outs = List::from_slice(alloc, outs)?;
    Ok(Rule {
        m: comes_by(port),
        level,
        touched: true,
        outs,
        tail: Tail::Nothing,
        ancestry: List::new(alloc),
    })
}

/// The entry of a rule for a port of the first virtual switch, or for all where it is 0.
fn placed(
    alloc: Global,
    topology: &Topology,
    port: u16,
    rule: &Rule,
) -> Result<Option<PhysEntry>, Memory>
    requires { rule.now.level < 65535 }
{
    let paths = paths(alloc, topology)?;
    let entry = place(alloc, topology, &paths, 0, port, rule);
    drop(paths);
    entry
}

/// What stands on a switch, of which the first virtual switch may be all.
fn standing(
    alloc: Global,
    topology: &Topology,
    switch: u32,
    whole: &List<bool>,
) -> Result<List<PhysEntry>, Memory> {
    let paths = paths(alloc, topology)?;
    let entries = fixed(alloc, topology, &paths, switch, whole);
    drop(paths);
    entries
}

fn show(rt: &HostRuntime, name: &str, entry: &PhysEntry) -> io::Result<()> {
    let (m, priority) = (entry.m, entry.priority);
    println!(rt;
        "{name}: {m} priority={priority} {:?}",
        entry.actions.as_slice()
    )
}

/// Shows the entry of a rule, if there is one.
fn show_found(rt: &HostRuntime, name: &str, entry: &Option<PhysEntry>) -> io::Result<()> {
    match entry {
        Some(entry) => show(rt, name, entry),
        None => println!(rt; "{name}: none"),
    }
}

/// Shows the entry of a rule over a policy.
fn show_placed(rt: &HostRuntime, name: &str, text: &str, port: u16, rule: &Rule) -> io::Result<()>
    requires { rule.now.level < 65535 }
{
    let topology = topology(rt.alloc(), text)?;
    let entry = placed(rt.alloc(), &topology, port, rule);
    drop(topology);
    show_found(rt, name, &entry.map_err(wanted)?)
}

fn show_rule(
    rt: &HostRuntime,
    name: &str,
    text: &str,
    port: u16,
    level: u64,
    outs: &[Out],
) -> io::Result<()>
    requires { level < 65535 }
{
    let rule = rule(rt.alloc(), port, level, outs).map_err(wanted)?;
    show_placed(rt, name, text, port, &rule)
}

fn show_entries(rt: &HostRuntime, name: &str, entries: &List<PhysEntry>) -> io::Result<()> {
    for entry in entries.as_slice() {
        show(rt, name, entry)?;
    }
    Ok(())
}

fn show_standing(
    rt: &HostRuntime,
    name: &str,
    text: &str,
    switch: u32,
    whole: bool,
) -> io::Result<()> {
    let whole = List::from_slice(rt.alloc(), &[whole]).map_err(wanted)?;
    let topology = topology(rt.alloc(), text)?;
    let entries = standing(rt.alloc(), &topology, switch, &whole);
    drop(topology);
    show_entries(rt, name, &entries.map_err(wanted)?)
}

/// What is flooded over three switches: with the tags of other switches' ports, which these take off at their goal.
pub fn show_row(rt: &HostRuntime) -> io::Result<()> {
    let outs = [flooded(2), flooded(3), flooded(4)];
    show_rule(rt, "flood", ROW, 1, 128, &outs)?;
    show_standing(rt, "first switch", ROW, 0, false)?;
    show_standing(rt, "second switch", ROW, 1, false)?;
    show_standing(rt, "third switch", ROW, 2, false)
}

/// Three hops that end where the packet came in, and four, which are too many.
pub fn show_linked(rt: &HostRuntime) -> io::Result<()> {
    let back = [out(Dest::Port { v: 0, port: 1 })];
    show_rule(rt, "three hops", LINKED, 1, 2336, &back)?;
    show_rule(rt, "four hops", LINKED, 1, 2340, &[])
}

/// One entry for all ports, and drops at those that the virtual switch leaves.
pub fn show_half(rt: &HostRuntime) -> io::Result<()> {
    let told = [out(Dest::Tell {
        member: 0,
        reason: 0,
    })];
    show_rule(rt, "miss", HALF, 0, 1, &told)?;
    show_standing(rt, "whole switch", HALF, 0, true)?;
    show_standing(rt, "shared switch", HALF, 0, false)
}
