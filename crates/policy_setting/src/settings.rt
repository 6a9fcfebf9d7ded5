//! Settings of topologies.
ghost use Rattle.std.specs.Prelude.{◌≡◌, ◌≤◌, IfOk, length, map};
ghost use Rattle.std.specs.List.{enumerate_from};
ghost use Rattle.policy_expr.specs.Policy.{policy_of};
ghost use Rattle.policy_setting.specs.Settings.{expr_at as expr_at_of, holds_at as holds_at_of, numbered_switch};
ghost use Rattle.policy_setting.specs.Settings.{physical as physical_of, setting as setting_of};

use crate::network::virtual_switch;
use crate::wires::wiring;
use agreement::{PhysicalSwitch, Setting};
use cv_io::{Duplicate, List, Memory};
use inner_paths::Paths;
use policy_expr::Expr;
use policy_meaning::{LeafTable, Network, VirtualSwitch};
use std::alloc::Global;
use virtual_topology::{SwitchItem, Topology, VirtualItem};

/// Whether it is so by number, false of none.
fn holds_at(flags: &[bool], place: usize) -> bool
    ensures { result ≡ holds_at_of flags.now place }
{
    match flags.get(place) {
        Some(flag) => *flag,
        None => false,
    }
}

/// The expression of a virtual switch by number.
fn expr_at(exprs: &[Expr], place: usize) -> Result<Expr, Memory>
    ensures { IfOk result (λ expr. policy_of expr ≡ expr_at_of (map policy_of exprs.now) place) }
{
    match exprs.get(place) {
        Some(expr) => expr.copy(),
        None => Ok(Expr::Member { index: 0 }),
    }
}

/// The virtual switches, by number.
fn switches(
    alloc: Global,
    topology: &Topology,
    virtuals: &[VirtualItem],
    exprs: &[Expr],
    seen: &[bool],
) -> Result<List<VirtualSwitch>, Memory>
    requires { length virtuals.now ≤ 16 }
    ensures { IfOk result (λ xs. xs ≡ map (numbered_switch topology.now (map policy_of exprs.now) seen.now)
        (enumerate_from 0 virtuals.now)) }
{
    let mut list = List::new(alloc);
    for (v, item) in virtuals.iter().enumerate() {
        let expr = expr_at(exprs, v)?;
        let all = holds_at(seen, v);
        let switch = virtual_switch(alloc, topology, expr, all, v as u32, item)?;
        list.push(switch)?;
    }
    Ok(list)
}

/// The physical switches, and which are up.
fn physical(
    alloc: Global,
    items: &[SwitchItem],
    up: &[bool],
) -> Result<List<PhysicalSwitch>, Memory>
    ensures { IfOk result (λ ss. ss ≡ map (physical_of up.now) (enumerate_from 0 items.now)) }
{
    let mut list = List::new(alloc);
    for (number, item) in items.iter().enumerate() {
        let ports = item.ports.copy()?;
        let is_up = holds_at(up, number);
        list.push(PhysicalSwitch { ports, up: is_up })?;
    }
    Ok(list)
}

/// The setting of a topology with its paths: `exprs` has the expressions of its virtual switches, `seen`
/// says of which of them all members see all ports, and `up` which physical switches are up.
pub fn setting(
    alloc: Global,
    topology: &Topology,
    paths: &Paths,
    exprs: &[Expr],
    seen: &[bool],
    tables: List<LeafTable>,
    up: &[bool],
    hops: u32,
) -> Result<Setting, Memory>
    requires { paths.now ≡ topology.now }
    ensures { IfOk result (λ s. s ≡ setting_of topology.now (map policy_of exprs.now) seen.now tables up.now hops) }
{
    let plan = topology.plan();
    let virtuals = switches(alloc, topology, plan.virtuals.as_slice(), exprs, seen)?;
    let wires = wiring(alloc, topology, paths)?;
    let physical = physical(alloc, plan.switches.as_slice(), up)?;
    Ok(Setting {
        network: Network {
            tables,
            switches: virtuals,
        },
        hops,
        wiring: wires,
        switches: physical,
    })
}
