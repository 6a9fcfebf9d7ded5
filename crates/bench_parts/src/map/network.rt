//! The members of a virtual switch of four ports, and how they are composed.
use super::asked::Members;
use super::fault::Fault;
use cv_io::{Bytes, List, Memory, Text};
use grants::Grant;
use of10_actions::PortView;
use of10_match::Match;
use policy_expr::{Expr, MemberName, parse};
use std::alloc::Global;
use virtual_topology::{Topology, TopologyFault, TopologyPlan};

/// A grant of all fields, and of all kinds of actions.
const ALL_FIELDS: u32 = 0xfff;

const ALL_ACTIONS: u32 = 0x7ff;

/// No links and no cables: packets are followed over one virtual switch.
pub fn topology(alloc: Global) -> Result<Topology, TopologyFault> {
    let plan = TopologyPlan {
        switches: List::new(alloc),
        cables: List::new(alloc),
        virtuals: List::new(alloc),
        links: List::new(alloc),
    };
    Topology::make(alloc, &plan)
}

/// The name of the member of this number is a letter.
fn name(alloc: Global, index: u32) -> Result<Text, Memory> {
    let mut name = Text::new(alloc);
    name.push(b'a' + (index % 26) as u8)?;
    Ok(name)
}

/// A member by its number.
fn member(alloc: Global, members: Members, index: u32) -> Result<MemberName, Memory> {
    Ok(MemberName {
        name: name(alloc, index)?,
        index,
        plain: !members.passes(index),
    })
}

fn names(alloc: Global, members: Members) -> Result<List<MemberName>, Memory> {
    let mut names = List::new(alloc);
    for index in 0..members.count() {
        names.push(member(alloc, members, index)?)?;
    }
    Ok(names)
}

fn text(alloc: Global, word: &str) -> Result<Text, Fault> {
    match Text::from_bytes(Bytes::from_slice(alloc, word.as_bytes())?) {
        Ok(text) => Ok(text),
        Err(_) => Err(Fault::Text),
    }
}

/// The expression of the one virtual switch.
pub fn exprs(alloc: Global, members: Members) -> Result<List<Expr>, Fault> {
    let names = names(alloc, members)?;
    let text = text(alloc, members.expr())?;
    let mut exprs = List::new(alloc);
    exprs.push(parse(alloc, &text, &names)?)?;
    Ok(exprs)
}

/// Four ports.
fn ports(alloc: Global) -> Result<List<u16>, Memory> {
    let mut ports = List::new(alloc);
    for port in 1..5 {
        ports.push(port)?;
    }
    Ok(ports)
}

/// A region of all headers.
fn regions(alloc: Global) -> Result<List<Match>, Memory> {
    let mut regions = List::new(alloc);
    regions.push(Match::everything())?;
    Ok(regions)
}

/// A grant of all that there is.
fn grant(alloc: Global) -> Result<Grant, Memory> {
    Ok(Grant {
        fields: ALL_FIELDS,
        src_max: 32,
        dst_max: 32,
        actions: ALL_ACTIONS,
        ports: PortView {
            v: 0,
            outside: ports(alloc)?,
            links: List::new(alloc),
        },
        regions: regions(alloc)?,
        misses: true,
        packet_out: true,
    })
}

/// The grant of each member.
pub fn grants(alloc: Global, members: Members) -> Result<List<Grant>, Memory> {
    let mut grants = List::new(alloc);
    for _ in 0..members.count() {
        grants.push(grant(alloc)?)?;
    }
    Ok(grants)
}
