//! Ways between switches, and tags.
use cv_io::{Bytes, Duplicate, List, Text};
use inner_paths::{PathFault, Paths};
use std::alloc::Global;
use std::test::Fail;
use virtual_topology::{
    PairItem, PortPlace, SwitchItem, Topology, TopologyPlan, VirtualItem, VirtualPort,
};

fn text(alloc: Global, word: &str) -> Result<Text, Fail> {
    Ok(Text::from_bytes(Bytes::from_slice(alloc, word.as_bytes())?)?)
}

fn place(alloc: Global, name: &str, port: u16) -> Result<PortPlace, Fail> {
    Ok(PortPlace {
        name: text(alloc, name)?,
        port,
    })
}

/// A physical switch of four ports.
fn switch(alloc: Global, name: &str) -> Result<SwitchItem, Fail> {
    Ok(SwitchItem {
        name: text(alloc, name)?,
        dpid: 1,
        ports: List::from_slice(alloc, &[1, 2, 3, 4])?,
    })
}

fn add_switches(alloc: Global, switches: &mut List<SwitchItem>) -> Result<(), Fail> {
    for name in ["s1", "s2", "s3"] {
        switches.push(switch(alloc, name)?)?;
    }
    Ok(())
}

/// A cable from a port of a switch to port 3 of the next.
fn cable(alloc: Global, name: &str, port: u16, next: &str) -> Result<PairItem, Fail> {
    let a = place(alloc, name, port)?;
    Ok(PairItem {
        a,
        b: place(alloc, next, 3)?,
    })
}

/// The switches in a row, or without the second cable.
fn add_cables(alloc: Global, cables: &mut List<PairItem>, cut: bool) -> Result<(), Fail> {
    cables.push(cable(alloc, "s1", 3, "s2")?)?;
    if !cut {
        cables.push(cable(alloc, "s2", 4, "s3")?)?;
    }
    Ok(())
}

/// An outside port of the virtual switch.
fn outside(alloc: Global, port: u16, name: &str, at: u16) -> Result<VirtualPort, Fail> {
    Ok(VirtualPort {
        port,
        at: Some(place(alloc, name, at)?),
    })
}

/// The outside ports 1 and 3 on the first switch, 2 on the second and 4 on the third.
fn ports(alloc: Global) -> Result<List<VirtualPort>, Fail> {
    let mut ports = List::new(alloc);
    for (port, name, at) in [(1, "s1", 1), (2, "s2", 1), (3, "s1", 2), (4, "s3", 1)] {
        ports.push(outside(alloc, port, name, at)?)?;
    }
    Ok(ports)
}

/// The virtual switch of these ports.
fn spread(alloc: Global) -> Result<VirtualItem, Fail> {
    let name = text(alloc, "v1")?;
    let expr = text(alloc, "app")?;
    Ok(VirtualItem {
        ports: ports(alloc)?,
        name,
        dpid: 161,
        expr,
    })
}

fn fill(alloc: Global, plan: &mut TopologyPlan, cut: bool) -> Result<(), Fail> {
    add_switches(alloc, &mut plan.switches)?;
    add_cables(alloc, &mut plan.cables, cut)?;
    plan.virtuals.push(spread(alloc)?)?;
    Ok(())
}

fn plan(alloc: Global, cut: bool) -> Result<TopologyPlan, Fail> {
    let mut plan = TopologyPlan {
        switches: List::new(alloc),
        cables: List::new(alloc),
        virtuals: List::new(alloc),
        links: List::new(alloc),
    };
    fill(alloc, &mut plan, cut)?;
    Ok(plan)
}

/// One virtual switch over three physical ones.
fn topology(alloc: Global, cut: bool) -> Result<Topology, Fail> {
    let plan = plan(alloc, cut)?;
    let made = Topology::make(alloc, &plan);
    drop(plan);
    Ok(made?)
}

fn copied(alloc: Global, row: &Topology) -> Result<Paths, Fail> {
    let paths = Paths::make(alloc, row)?;
    let copied = paths.copy();
    drop(paths);
    Ok(copied?)
}

/// The ports of three next hops, 0 where there is none.
fn hops(paths: &Paths) -> (u16, u16, u16) {
    (
        paths.next_hop(0, 1).unwrap_or(0),
        paths.next_hop(1, 2).unwrap_or(0),
        paths.next_hop(1, 1).unwrap_or(0),
    )
}

/// The tags of three outside ports, 0 where there is none.
fn tags(paths: &Paths) -> (u16, u16, u16) {
    (
        paths.tag(0, 1).unwrap_or(0),
        paths.tag(0, 4).unwrap_or(0),
        paths.tag(0, 5).unwrap_or(0),
    )
}

/// What is found in the row of three switches.
fn found(alloc: Global, row: &Topology) -> Result<((u16, u16, u16), (u16, u16, u16)), Fail> {
    let paths = copied(alloc, row)?;
    Ok((hops(&paths), tags(&paths)))
}

#[test]
fn hops_lead_and_tags_count(rt: HostRuntime) -> Result<(), Fail> {
    let row = topology(rt.alloc(), false)?;
    let found = found(rt.alloc(), &row);
    drop(row);
    assert_eq!(rt; found?, ((3, 4, 0), (1, 4, 0)));
    Ok(())
}

/// The names of two switches without a path.
fn cut(alloc: Global, row: &Topology) -> Result<String, Fail> {
    match Paths::make(alloc, row).err() {
        Some(PathFault::Unreachable { from, to }) => Ok(format!(in alloc; "{from} to {to}")?),
        _ => Ok(String::new(alloc)),
    }
}

#[test]
fn switches_without_a_path_are_named(rt: HostRuntime) -> Result<(), Fail> {
    let row = topology(rt.alloc(), true)?;
    let found = cut(rt.alloc(), &row);
    drop(row);
    assert_eq!(rt; found?.as_str(), "s1 to s3");
    Ok(())
}
