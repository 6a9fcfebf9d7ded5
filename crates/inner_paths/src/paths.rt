//! Paths between physical switches.
ghost use Rattle.std.specs.Prelude.{◌≡◌, None, IfOk};
ghost use Rattle.inner_paths.specs.Cuts.{cut_fault};
ghost use Rattle.inner_paths.specs.Hops.{next_hop_of};
ghost use Rattle.inner_paths.specs.Tags.{tag_of};
ghost use Rattle.virtual_topology.specs.Faults.{Answers};

use crate::cut::check_reach;
use crate::fault::PathFault;
use crate::table::{copied, entry, make_tables};
use crate::tag::tag_rows;
use cv_io::{Duplicate, List, Memory};
use std::alloc::Global;
use std::marker::Model;
use virtual_topology::{Rows, Topology, TopologyPlan};

/// The paths between the physical switches of a topology, and the tags of outside ports. Contracts
/// see the plan of the topology.
#[derive(Drop)]
pub struct Paths {
    alloc: Global,
    plan: TopologyPlan,
    hops: List<List<Option<u16>>>,
    tags: Rows<(u32, u16), u16>,
}

impl Model for Paths {
    ghost use Rattle.virtual_topology.specs.declared.plan.TopologyPlan.{TopologyPlan};

    ghost Value = { TopologyPlan };

    ghost use Rattle.inner_paths.specs.Made.{IsMade};

    ghost view = { λ a. a.plan };

    ghost invariant = { λ a. IsMade a.plan a.hops a.tags };
}

impl Paths {
    /// The paths of a topology. `Unreachable` names the first two physical switches, by the order of
    /// the virtual switches and then by their own, on which outside ports of one virtual switch lie and
    /// between which there is no path.
    pub fn make(alloc: Global, topology: &Topology) -> Result<Paths, PathFault>
        ensures fault { Answers PathFault.Memory result (cut_fault topology.now) }
        ensures plan { IfOk result (λ paths. paths ≡ topology.now) }
    {
        let tables = make_tables(alloc, topology)?;
        check_reach(topology, &tables.distances)?;
        Ok(Paths {
            alloc,
            plan: topology.plan().copy()?,
            hops: tables.hops,
            tags: Rows::of(alloc, tag_rows(alloc, topology)?)?,
        })
    }

    /// The port by which packets from one physical switch to another leave the first: of the inner
    /// ports whose far ends are nearest to the goal by count of cables that of least number. None for
    /// one switch, for switches without a path, and for numbers of no switch.
    pub fn next_hop(&self, from: u32, to: u32) -> Option<u16>
        ensures hop { result ≡ next_hop_of self.now from to }
        ensures reach { cut_fault self.now ≡ None }
    {
        entry(&self.hops, to, from)
    }

    /// The VLAN number by which packets for an outside port of a spread virtual switch are known
    /// between switches: its place, from 1, among all such ports, by the order of the file and then by
    /// port number. None for other ports.
    pub fn tag(&self, v: u32, port: u16) -> Option<u16>
        ensures { result ≡ tag_of self.now v port }
    {
        self.tags.get((v, port))
    }
}

impl Duplicate for Paths {
    fn copy(&self) -> Result<Paths, Memory> {
        Ok(Paths {
            alloc: self.alloc,
            plan: self.plan.copy()?,
            hops: copied(self.alloc, &self.hops)?,
            tags: self.tags.copy()?,
        })
    }
}
