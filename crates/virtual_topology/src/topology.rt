//! Topologies: plans without fault, whose ports are found by number.
ghost use Rattle.std.specs.Prelude.{◌≡◌, ◌<◌, ◌≤◌, ◌^◌, None, IfOk, length};
ghost use Rattle.std.specs.List.{slice_get};
ghost use Rattle.virtual_topology.specs.Faults.{Answers, fault_of, misplaced, shape_among, unknown_among};
ghost use Rattle.std.specs.Option.{option_or};
ghost use Rattle.virtual_topology.specs.Rows.{rows as rows_of};
ghost use Rattle.virtual_topology.specs.Within.{AreWithin};
ghost use Rattle.virtual_topology.specs.Wires.{both_ways as both_ways_of, cable_joints, entering_of, far_end_of};
ghost use Rattle.virtual_topology.specs.Wires.{is_lone_of, is_spread_of, link_joints};
ghost use Rattle.virtual_topology.specs.Wires.{outside_joints as outside_joints_of, outside_of, peer_of};
ghost use Rattle.virtual_topology.specs.Wires.{turned as turned_of};

use crate::check::{check_places, check_shapes};
use crate::fault::TopologyFault;
use crate::known::{Known, Spot};
use crate::limits::check_limits;
use crate::maps::Rows;
use crate::mixed::check_mixed;
use crate::plan::TopologyPlan;
use crate::standing::{Standing, standings};
use crate::used::Used;
use crate::uses::{Role, uses};
use crate::wires::{Joint, both_ways, outside_joints, pair_joints, turned};
use cv_io::{Duplicate, List, Memory};
use std::alloc::Global;
use std::marker::Model;

/// A plan without fault. Switches are numbered in the order of the plan, from 0: the physical ones by
/// themselves, and the virtual ones.
#[derive(Drop)]
pub struct Topology {
    plan: TopologyPlan,
    outside: Rows<Spot, Spot>,
    entering: Rows<Spot, Spot>,
    peers: Rows<Spot, Spot>,
    far_ends: Rows<Spot, Spot>,
    standings: List<Standing>,
}

impl Model for Topology {
    ghost use Rattle.virtual_topology.specs.declared.plan.TopologyPlan.{TopologyPlan};

    ghost Value = { TopologyPlan };

    ghost use Rattle.virtual_topology.specs.Made.{IsMade};

    ghost view = { λ a. a.plan };

    ghost invariant = { λ a. IsMade a.plan a.outside a.entering a.peers a.far_ends a.standings };
}

/// From each end of a plan's cables to the other.
fn cable_ways<'a>(
    alloc: Global,
    plan: &'a TopologyPlan,
    known: &Known<'a>,
) -> Result<Vec<Joint>, Memory>
    requires { known.now ≡ rows_of plan.now }
    ensures { IfOk result (λ ways. ways.items ≡ both_ways_of (cable_joints plan.now)) }
{
    let cables = pair_joints(alloc, known, Role::Physical, plan.cables.as_slice())?;
    let ways = both_ways(alloc, &cables)?;
    Ok(ways)
}

/// Joints by their second ends.
fn turned_rows(alloc: Global, joints: &[Joint]) -> Result<Rows<Spot, Spot>, Memory>
    ensures { IfOk result (λ rows. rows ≡ turned_of joints.now) }
{
    let rows = Rows::of(alloc, turned(alloc, joints)?)?;
    Ok(rows)
}

/// Joints by each of their ends.
fn rows_both_ways(alloc: Global, joints: &[Joint]) -> Result<Rows<Spot, Spot>, Memory>
    ensures { IfOk result (λ rows. rows ≡ both_ways_of joints.now) }
{
    let rows = Rows::of(alloc, both_ways(alloc, joints)?)?;
    Ok(rows)
}

/// The plan with its ports by number.
fn numbered<'a>(
    alloc: Global,
    plan: &'a TopologyPlan,
    known: &Known<'a>,
    outside: Vec<Joint>,
    links: &[Joint],
) -> Result<Topology, Memory>
    requires virtuals { length plan.now.virtuals < 2 ^ 32 }
    requires sound { fault_of plan.now ≡ None }
    requires known { known.now ≡ rows_of plan.now }
    requires outside { outside.items ≡ outside_joints_of plan.now }
    requires links { links.now ≡ link_joints plan.now }
    ensures { IfOk result (λ t. t ≡ plan.now) }
{
    let ways = cable_ways(alloc, plan, known)?;
    let standings = standings(alloc, known, &ways, &outside, plan.virtuals.as_slice())?;
    Ok(Topology {
        entering: turned_rows(alloc, &outside)?,
        outside: Rows::of(alloc, outside)?,
        peers: rows_both_ways(alloc, links)?,
        far_ends: Rows::of(alloc, ways)?,
        standings: List::from_vec(standings),
        plan: plan.copy()?,
    })
}

/// The places that a plan uses are there, and its cables and links can be so.
fn check_used<'a>(
    alloc: Global,
    known: &Known<'a>,
    used: &Used<'_>,
    plan: &'a TopologyPlan,
) -> Result<(), TopologyFault>
    ensures { Answers TopologyFault.Memory result
        (option_or (unknown_among known.now used.now) (shape_among known.now used.now plan.now)) }
{
    check_places(alloc, known, used)?;
    check_shapes(alloc, known, used, plan)
}

/// Where the ports of a plan are, if its places are there and used once each, and cables and links can be so.
fn known_places<'a>(alloc: Global, plan: &'a TopologyPlan) -> Result<Known<'a>, TopologyFault>
    requires switches { length plan.now.switches < 2 ^ 32 }
    requires virtuals { length plan.now.virtuals < 2 ^ 32 }
    ensures fault { Answers TopologyFault.Memory result (misplaced plan.now) }
    ensures known { IfOk result (λ known. known ≡ rows_of plan.now) }
{
    let used = Used::of(alloc, uses(alloc, plan)?)?;
    let known = Known::of(alloc, plan)?;
    check_used(alloc, &known, &used, plan)?;
    Ok(known)
}

/// The topology of a plan whose places are known, if its links and numbers can be so.
fn joined<'a>(
    alloc: Global,
    plan: &'a TopologyPlan,
    known: &Known<'a>,
) -> Result<Topology, TopologyFault>
    requires virtuals { length plan.now.virtuals < 2 ^ 32 }
    requires known { known.now ≡ rows_of plan.now }
    requires placed { misplaced plan.now ≡ None }
    ensures fault { Answers TopologyFault.Memory result (fault_of plan.now) }
    ensures plan { IfOk result (λ t. t ≡ plan.now) }
{
    let outside = outside_joints(alloc, known, plan.virtuals.as_slice())?;
    let links = pair_joints(alloc, known, Role::Link, plan.links.as_slice())?;
    check_mixed(alloc, &links, &outside, plan.virtuals.as_slice())?;
    check_limits(alloc, plan)?;
    Ok(numbered(alloc, plan, known, outside, &links)?)
}

impl Topology {
    /// The topology of a plan. A fault is looked for in the whole plan before the next one, and names
    /// the first place or switch in the order of the plan; of a place that is used twice the second
    /// use. A plan of more than 2^32 - 1 switches is answered as want of memory.
    pub fn make(alloc: Global, plan: &TopologyPlan) -> Result<Topology, TopologyFault>
        ensures fault { Answers TopologyFault.Memory result (fault_of plan.now) }
        ensures plan { IfOk result (λ t. t ≡ plan.now) }
    {
        let most = u32::MAX as usize;
        if plan.switches.len() > most || plan.virtuals.len() > most {
            return Err(TopologyFault::Memory);
        }
        let known = known_places(alloc, plan)?;
        joined(alloc, plan, &known)
    }

    /// The plan that it was made of.
    pub fn plan(&self) -> &TopologyPlan
        ensures plan { result.now ≡ self.now }
        ensures sound { fault_of self.now ≡ None }
        ensures switches { length self.now.switches ≤ 16 }
        ensures virtuals { length self.now.virtuals ≤ 16 }
    {
        &self.plan
    }

    /// Where a link leads from a port of a virtual switch.
    pub fn peer(&self, v: u32, port: u16) -> Option<(u32, u16)>
        ensures { result ≡ peer_of self.now v port }
    {
        self.peers.get((v, port))
    }

    /// The physical port, of a switch by number, that an outside port of a virtual switch is.
    pub fn outside(&self, v: u32, port: u16) -> Option<(u32, u16)>
        ensures { result ≡ outside_of self.now v port }
    {
        self.outside.get((v, port))
    }

    /// The outside port, of a virtual switch by number, that a physical port is.
    pub fn entering(&self, switch: u32, port: u16) -> Option<(u32, u16)>
        ensures { result ≡ entering_of self.now switch port }
    {
        self.entering.get((switch, port))
    }

    /// Where a cable leads from a physical port.
    pub fn far_end(&self, switch: u32, port: u16) -> Option<(u32, u16)>
        ensures { result ≡ far_end_of self.now switch port }
    {
        self.far_ends.get((switch, port))
    }

    /// The outside ports of all virtual switches, in the order of the plan, each with the physical port
    /// that it is.
    pub fn outside_ports(&self) -> &[((u32, u16), (u32, u16))]
        ensures ports { result.now ≡ outside_joints_of self.now }
        ensures few { length result.now ≤ 1024 }
    {
        self.outside.rows()
    }

    /// From each end of a cable to the other, in the order of the plan.
    pub fn cable_ways(&self) -> &[((u32, u16), (u32, u16))]
        ensures ways { result.now ≡ both_ways_of (cable_joints self.now) }
        ensures within { AreWithin (length self.now.switches) result.now }
    {
        self.far_ends.rows()
    }

    /// Whether the outside ports of a virtual switch lie on two or more physical switches.
    pub fn is_spread(&self, v: u32) -> bool
        ensures { result ≡ is_spread_of self.now v }
    {
        match self.standings.get(v as usize) {
            None => false,
            Some(standing) => standing.spread,
        }
    }

    /// Whether a virtual switch is alone on its one physical switch: it has an outside port, isn't
    /// spread and has no link port, no cable ends there, and no other virtual switch has an outside
    /// port there.
    pub fn is_lone(&self, v: u32) -> bool
        ensures { result ≡ is_lone_of self.now v }
    {
        match self.standings.get(v as usize) {
            None => false,
            Some(standing) => standing.lone,
        }
    }
}

impl Duplicate for Topology {
    fn copy(&self) -> Result<Topology, Memory> {
        // The plan comes last, so that no failure has to drop one.
        Ok(Topology {
            standings: self.standings.copy()?,
            outside: self.outside.copy()?,
            entering: self.entering.copy()?,
            peers: self.peers.copy()?,
            far_ends: self.far_ends.copy()?,
            plan: self.plan.copy()?,
        })
    }
}
