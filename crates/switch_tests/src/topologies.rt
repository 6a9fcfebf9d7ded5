//! Topologies, and the faults of their plans.
use cv_io::{Bytes, Duplicate, List, Text};
use std::alloc::Global;
use std::test::Fail;
use virtual_topology::{
    PairItem, PortPlace, SwitchItem, Topology, TopologyFault, TopologyPlan, VirtualItem,
    VirtualPort,
};

fn text(alloc: Global, word: &str) -> Result<Text, Fail> {
    Ok(Text::from_bytes(Bytes::from_slice(alloc, word.as_bytes())?)?)
}

fn place(alloc: Global, at: (&str, u16)) -> Result<PortPlace, Fail> {
    let (name, port) = at;
    Ok(PortPlace {
        name: text(alloc, name)?,
        port,
    })
}

fn pair(alloc: Global, a: (&str, u16), b: (&str, u16)) -> Result<PairItem, Fail> {
    let a = place(alloc, a)?;
    Ok(PairItem {
        a,
        b: place(alloc, b)?,
    })
}

/// A physical switch of four ports.
fn switch(alloc: Global, name: &str) -> Result<SwitchItem, Fail> {
    Ok(SwitchItem {
        name: text(alloc, name)?,
        dpid: 1,
        ports: List::from_slice(alloc, &[1, 2, 3, 4])?,
    })
}

fn add_switches(alloc: Global, switches: &mut List<SwitchItem>) -> Result<(), Fail> {
    for name in ["s1", "s2", "s3"] {
        switches.push(switch(alloc, name)?)?;
    }
    Ok(())
}

/// A cable from the first switch to the second, and one from there.
fn add_cables(alloc: Global, cables: &mut List<PairItem>, last: (&str, u16)) -> Result<(), Fail> {
    cables.push(pair(alloc, ("s1", 3), ("s2", 3))?)?;
    cables.push(pair(alloc, ("s2", 4), last)?)?;
    Ok(())
}

/// A port of a virtual switch; the port "link" is a link port.
fn virtual_port(alloc: Global, port: u16, at: (&str, u16)) -> Result<VirtualPort, Fail> {
    let at = match at {
        ("link", _) => None,
        at => Some(place(alloc, at)?),
    };
    Ok(VirtualPort { port, at })
}

fn ports(alloc: Global, rows: &[(u16, (&str, u16))]) -> Result<List<VirtualPort>, Fail> {
    let mut ports = List::new(alloc);
    for (port, at) in rows {
        ports.push(virtual_port(alloc, *port, *at)?)?;
    }
    Ok(ports)
}

fn virtual_switch(
    alloc: Global,
    name: &str,
    rows: &[(u16, (&str, u16))],
) -> Result<VirtualItem, Fail> {
    let name = text(alloc, name)?;
    let expr = text(alloc, "app")?;
    Ok(VirtualItem {
        ports: ports(alloc, rows)?,
        name,
        dpid: 161,
        expr,
    })
}

fn add_virtual(
    alloc: Global,
    virtuals: &mut List<VirtualItem>,
    name: &str,
    rows: &[(u16, (&str, u16))],
) -> Result<(), Fail> {
    virtuals.push(virtual_switch(alloc, name, rows)?)?;
    Ok(())
}

/// A virtual switch over all three physical ones, and two on the first that are linked.
fn add_virtuals(alloc: Global, virtuals: &mut List<VirtualItem>) -> Result<(), Fail> {
    add_virtual(alloc, virtuals, "v1", &[(1, ("s1", 1)), (4, ("s3", 1))])?;
    add_virtual(alloc, virtuals, "v2", &[(1, ("s1", 2)), (9, ("link", 0))])?;
    add_virtual(alloc, virtuals, "v3", &[(1, ("s1", 4)), (9, ("link", 0))])
}

fn add_links(alloc: Global, links: &mut List<PairItem>, linked: bool) -> Result<(), Fail> {
    if linked {
        links.push(pair(alloc, ("v2", 9), ("v3", 9))?)?;
    }
    Ok(())
}

fn fill(
    alloc: Global,
    plan: &mut TopologyPlan,
    last: (&str, u16),
    linked: bool,
) -> Result<(), Fail> {
    add_switches(alloc, &mut plan.switches)?;
    add_cables(alloc, &mut plan.cables, last)?;
    add_virtuals(alloc, &mut plan.virtuals)?;
    add_links(alloc, &mut plan.links, linked)
}

fn plan(alloc: Global, last: (&str, u16), linked: bool) -> Result<TopologyPlan, Fail> {
    let mut plan = TopologyPlan {
        switches: List::new(alloc),
        cables: List::new(alloc),
        virtuals: List::new(alloc),
        links: List::new(alloc),
    };
    fill(alloc, &mut plan, last, linked)?;
    Ok(plan)
}

/// A fault and the name in it.
fn shown(alloc: Global, fault: &TopologyFault) -> Result<String, Fail> {
    match fault {
        TopologyFault::PortTwice { name }
        | TopologyFault::Unknown { name }
        | TopologyFault::LinkShape { name } => Ok(format!(in alloc; "{fault}: {name}")?),
        _ => Ok(String::new(alloc)),
    }
}

/// The fault of such a plan, if it has one.
fn fault(alloc: Global, last: (&str, u16), linked: bool) -> Result<String, Fail> {
    let plan = plan(alloc, last, linked)?;
    let fault = Topology::make(alloc, &plan).err();
    drop(plan);
    match fault {
        Some(fault) => shown(alloc, &fault),
        None => Ok(String::new(alloc)),
    }
}

#[test]
fn plans_have_their_faults(rt: HostRuntime) -> Result<(), Fail> {
    for (last, linked, want) in [
        (("s1", 1), true, "a port is used twice: s1:1"),
        (("s3", 7), true, "there is no such port: s3:7"),
        (("s3", 3), false, "a link or a cable can't be so: v2:9"),
    ] {
        let found = fault(rt.alloc(), last, linked)?;
        assert_eq!(rt; found.as_str(), want);
    }
    Ok(())
}

fn made(alloc: Global) -> Result<Topology, Fail> {
    let plan = plan(alloc, ("s3", 3), true)?;
    let made = Topology::make(alloc, &plan);
    drop(plan);
    Ok(made?)
}

fn copied(alloc: Global) -> Result<Topology, Fail> {
    let made = made(alloc)?;
    let copied = made.copy();
    drop(made);
    Ok(copied?)
}

/// Where an outside port lies, which one enters, and what is at the other ends of a cable and of a link.
type Ends = [Option<(u32, u16)>; 4];

fn ends(row: &Topology) -> Ends {
    [
        row.outside(0, 4),
        row.entering(2, 1),
        row.far_end(1, 4),
        row.peer(1, 9),
    ]
}

#[test]
fn ports_are_found(rt: HostRuntime) -> Result<(), Fail> {
    let row = copied(rt.alloc())?;
    let found = ends(&row);
    drop(row);
    assert_eq!(rt;
        found,
        [Some((2, 1)), Some((0, 4)), Some((2, 3)), Some((2, 9))]
    );
    Ok(())
}
