//! Rules and fixed entries of one switch.
ghost use Rattle.std.specs.Prelude.{◌≡◌};

use cv_io::{Bytes, List, Memory, Text};
use inner_paths::Paths;
use of10_actions::Tail;
use of10_match::Match;
use place_rules::{fixed, place};
use policy_meaning::Rule;
use std::alloc::Global;
use std::test::Fail;
use virtual_topology::{PortPlace, SwitchItem, Topology, TopologyPlan, VirtualItem, VirtualPort};

fn text(alloc: Global, word: &str) -> Result<Text, Fail> {
    Ok(Text::from_bytes(Bytes::from_slice(alloc, word.as_bytes())?)?)
}

fn switch(alloc: Global) -> Result<SwitchItem, Fail> {
    Ok(SwitchItem {
        name: text(alloc, "s1")?,
        dpid: 1,
        ports: List::from_slice(alloc, &[1, 2, 3])?,
    })
}

fn port(alloc: Global) -> Result<VirtualPort, Fail> {
    let name = text(alloc, "s1")?;
    Ok(VirtualPort {
        port: 1,
        at: Some(PortPlace { name, port: 1 }),
    })
}

fn ports(alloc: Global) -> Result<List<VirtualPort>, Fail> {
    let mut ports = List::new(alloc);
    ports.push(port(alloc)?)?;
    Ok(ports)
}

fn virtual_switch(alloc: Global) -> Result<VirtualItem, Fail> {
    let name = text(alloc, "v1")?;
    let expr = text(alloc, "app")?;
    let ports = ports(alloc)?;
    Ok(VirtualItem {
        name,
        dpid: 161,
        ports,
        expr,
    })
}

fn fill(alloc: Global, plan: &mut TopologyPlan) -> Result<(), Fail> {
    plan.switches.push(switch(alloc)?)?;
    plan.virtuals.push(virtual_switch(alloc)?)?;
    Ok(())
}

fn plan(alloc: Global) -> Result<TopologyPlan, Fail> {
    let mut plan = TopologyPlan {
        switches: List::new(alloc),
        cables: List::new(alloc),
        virtuals: List::new(alloc),
        links: List::new(alloc),
    };
    fill(alloc, &mut plan)?;
    Ok(plan)
}

/// A virtual switch of one port that is all of a switch of three.
fn topology(alloc: Global) -> Result<Topology, Fail> {
    let plan = plan(alloc)?;
    let made = Topology::make(alloc, &plan);
    drop(plan);
    Ok(made?)
}

fn miss(alloc: Global) -> Rule
    ensures { result.level ≡ 1 }
{
    Rule {
        m: Match::everything(),
        level: 1,
        touched: false,
        outs: List::new(alloc),
        tail: Tail::Nothing,
        ancestry: List::new(alloc),
    }
}

/// The priority of the entry of a rule that stands for all ports.
fn placed(alloc: Global, topology: &Topology, paths: &Paths) -> Result<Option<u16>, Memory>
    requires { paths.now ≡ topology.now }
{
    let entry = place(alloc, topology, paths, 0, 0, &miss(alloc))?;
    Ok(entry.map(|entry| entry.priority))
}

/// How many entries drop what comes by the ports that the virtual switch leaves.
fn dropped(alloc: Global, topology: &Topology, paths: &Paths) -> Result<usize, Memory>
    requires { paths.now ≡ topology.now }
{
    let whole = List::from_slice(alloc, &[true])?;
    Ok(fixed(alloc, topology, paths, 0, &whole)?.len())
}

/// The priority of the one and the number of the others.
fn both(alloc: Global, topology: &Topology, paths: &Paths) -> Result<(Option<u16>, usize), Memory>
    requires { paths.now ≡ topology.now }
{
    let priority = placed(alloc, topology, paths)?;
    Ok((priority, dropped(alloc, topology, paths)?))
}

fn put(alloc: Global, topology: &Topology) -> Result<(Option<u16>, usize), Fail> {
    let paths = Paths::make(alloc, topology)?;
    let found = both(alloc, topology, &paths);
    drop(paths);
    Ok(found?)
}

#[test]
fn one_entry_for_all_ports_and_drops_for_others(rt: HostRuntime) -> Result<(), Fail> {
    let topology = topology(rt.alloc())?;
    let found = put(rt.alloc(), &topology);
    drop(topology);
    assert_eq!(rt; found?, (Some(2), 2));
    Ok(())
}
