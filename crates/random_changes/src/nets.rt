//! Two virtual switches that two links join, as rules from scratch see them.
use crate::members::empty_tables;
use cv_io::{List, Memory};
use policy_expr::Expr;
use policy_file::read;
use policy_meaning::{
    Network, Place, Rule, VirtualSwitch, hop_size, listed, node_rules, tables_fit,
};
use policy_setting::virtual_switch;
use std::alloc::Global;
use virtual_topology::Topology;

/// Through how many virtual switches a packet goes at most.
pub const HOPS: u32 = 3;

/// The two virtual switches.
const POLICY: &str = r#"version = 1
hops = 3

[[switch]]
name = "s1"
dpid = "0000000000000001"
ports = [1, 2, 3, 4]

[[virtual]]
name = "v1"
dpid = "00000000000000a1"
ports = ["1=s1:1", "2=s1:2", "8=link", "9=link"]
expr = "a"

[[virtual]]
name = "v2"
dpid = "00000000000000a2"
ports = ["1=s1:3", "2=s1:4", "8=link", "9=link"]
expr = "b"

[[link]]
a = "v1:8"
b = "v2:8"

[[link]]
a = "v1:9"
b = "v2:9"

[[member]]
controller = "a"
virtual = "v1"
bits = 3

[[member]]
controller = "b"
virtual = "v2"
bits = 3
"#;

/// The outside ports.
pub const PLACES: [Place; 4] = [
    Place { v: 0, port: 1 },
    Place { v: 0, port: 2 },
    Place { v: 1, port: 1 },
    Place { v: 1, port: 2 },
];

/// The topology of the policy.
pub fn topology(alloc: Global) -> Result<Topology, Memory> {
    match read(alloc, POLICY.as_bytes()) {
        Ok(policy) => {
            let topology = policy.topology(alloc);
            drop(policy);
            topology
        }
        Err(fault) => {
            drop(fault);
            Err(Memory)
        }
    }
}

/// The virtual switches, as rules from scratch see them.
fn switches(alloc: Global, topology: &Topology) -> Result<List<VirtualSwitch>, Memory> {
    let mut switches = List::new(alloc);
    let plan = topology.plan();
    for v in 0..2 {
        if let Some(item) = plan.virtuals.get(v as usize) {
            let expr = Expr::Member { index: v };
            let switch = virtual_switch(alloc, topology, expr, false, v, item)?;
            switches.push(switch)?;
        }
    }
    Ok(switches)
}

/// The network before any entry comes.
pub fn network(alloc: Global, topology: &Topology) -> Result<Network, Memory> {
    let switches = switches(alloc, topology)?;
    let tables = empty_tables(alloc, 2)?;
    Ok(Network { tables, switches })
}

/// The rules of a port from scratch.
fn scratch_at(alloc: Global, network: &Network, at: Place) -> Result<List<Rule>, Memory> {
    if !tables_fit(&network.tables) || hop_size(network, HOPS, at.v) == u64::MAX {
        return Err(Memory);
    }
    node_rules(alloc, network, HOPS, at.v, at.port)
}

/// The rules of all ports from scratch, in their order.
pub fn scratch(alloc: Global, network: &Network) -> Result<List<Rule>, Memory> {
    let mut rules = List::new(alloc);
    for at in PLACES {
        rules.append(scratch_at(alloc, network, at)?)?;
    }
    listed(rules)
}
