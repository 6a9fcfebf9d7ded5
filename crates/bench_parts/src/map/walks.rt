//! Headers come, and what they give is counted.
ghost use Rattle.std.specs.Prelude.{◌<◌};
ghost use Rattle.packet_map.specs.Networks.{SeeRising};

use super::asked::Asked;
use super::fault::Fault;
use super::network::{exprs, grants, topology};
use super::tables::tables;
use crate::nets::net;
use cv_io::{List, Memory};
use grants::Grant;
use member_table::Table;
use of10_match::{Header, IPV4, TCP, UNTAGGED};
use packet_map::{Walked, World, tellings};
use policy_expr::Expr;
use std::alloc::Global;
use virtual_topology::Topology;

/// How many packets leave, the sum of their ports, and how often members are told.
#[derive(Clone, Copy)]
pub struct Tally {
    pub outs: u64,
    pub ports: u64,
    pub told: u64,
}

impl Tally {
    /// Counts what a header gives too.
    fn note(&mut self, walked: &Walked) {
        for out in walked.outs.as_slice() {
            self.outs = self.outs.wrapping_add(1);
            self.ports = self.ports.wrapping_add(u64::from(out.port));
        }
        self.told = self.told.wrapping_add(walked.told.len() as u64);
    }
}

/// The header of this number: to a host of one of so many nets.
fn header(number: u32, nets: u32) -> Header
    requires { 0 < nets }
{
    let goal = net(number.wrapping_mul(7919) % nets);
    Header {
        in_port: 1,
        dl_src: 1,
        dl_dst: 2,
        dl_vlan: UNTAGGED,
        dl_vlan_pcp: 0,
        dl_type: IPV4,
        nw_tos: 0,
        nw_proto: TCP,
        nw_src: 0x0a00_0001,
        nw_dst: goal.addr | number % 256,
        tp_src: 4000,
        tp_dst: 80,
    }
}

/// What so many headers give.
fn count(alloc: Global, world: &World, asked: &Asked) -> Result<Tally, Memory>
    requires { SeeRising world.now }
{
    let mut tally = Tally {
        outs: 0,
        ports: 0,
        told: 0,
    };
    for number in 0..asked.headers {
        tally.note(&tellings(alloc, world, 0, 1, &header(number, asked.entries))?);
    }
    Ok(tally)
}

/// What so many headers give, by these parts of a world.
fn count_over(
    alloc: Global,
    asked: &Asked,
    topology: &Topology,
    exprs: &List<Expr>,
    grants: &List<Grant>,
    tables: &List<Table>,
) -> Result<Tally, Fault> {
    let world = World {
        topology,
        exprs,
        grants,
        tables,
        hops: 4,
    };
    if !world.sees_rising() {
        return Err(Fault::Ports);
    }
    Ok(count(alloc, &world, asked)?)
}

/// Makes the members' tables, and counts what headers give.
fn fill_and_count(
    alloc: Global,
    asked: &Asked,
    topology: &Topology,
    exprs: &List<Expr>,
    grants: &List<Grant>,
) -> Result<Tally, Fault> {
    let tables = tables(alloc, asked)?;
    count_over(alloc, asked, topology, exprs, grants, &tables)
}

/// Makes the topology too.
fn lay_and_count(
    alloc: Global,
    asked: &Asked,
    exprs: &List<Expr>,
    grants: &List<Grant>,
) -> Result<Tally, Fault> {
    let topology = topology(alloc)?;
    let tally = fill_and_count(alloc, asked, &topology, exprs, grants);
    drop(topology);
    tally
}

/// Makes the members' grants too.
fn grant_and_count(alloc: Global, asked: &Asked, exprs: &List<Expr>) -> Result<Tally, Fault> {
    let grants = grants(alloc, asked.members)?;
    let tally = lay_and_count(alloc, asked, exprs, &grants);
    drop(grants);
    tally
}

/// Makes a network and its members' tables, and counts what headers give.
pub fn run(alloc: Global, asked: &Asked) -> Result<Tally, Fault> {
    let exprs = exprs(alloc, asked.members)?;
    let tally = grant_and_count(alloc, asked, &exprs);
    drop(exprs);
    tally
}
