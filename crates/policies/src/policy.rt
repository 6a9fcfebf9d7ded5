//! Policies.
ghost use Rattle.std.specs.Prelude.{◌≡◌, None, Ok, IfOk, map};
ghost use Rattle.inner_paths.specs.Cuts.{cut_fault};
ghost use Rattle.policy_expr.specs.Policy.{policy_of};
ghost use Rattle.policies.specs.Exprs.{exprs_of};
ghost use Rattle.policies.specs.Policies.{plan as plan_of};
ghost use Rattle.policies.specs.Sound.{IsSound};
ghost use Rattle.policies.specs.Views.{view_of};

use crate::fault::PolicyFault;
use crate::port_views::view;
use crate::switch_exprs::exprs;
use cv_io::{Duplicate, List, Memory, Text};
use grants::Grant;
use inner_paths::{PathFault, Paths};
use of10_actions::PortView;
use policy_expr::Expr;
use std::alloc::Global;
use std::marker::Model;
use virtual_topology::{PairItem, SwitchItem, Topology, TopologyFault, TopologyPlan, VirtualItem};

/// A controller at a virtual switch, and what it may do there.
#[derive(PartialEq, Eq, Debug, Drop)]
pub struct MemberItem {
    pub controller: Text,
    /// The name of its virtual switch.
    pub vsw: Text,
    pub grant: Grant,
    /// Its levels of priority are 2 to the power of this.
    pub bits: u32,
    /// How many entries its table may have.
    pub entries: u32,
    /// Where the proxy connects to it.
    pub address: Text,
}

/// What a policy file without faults says. Switches, virtual switches and members are known by their
/// numbers in the file, from 0.
#[derive(PartialEq, Eq, Debug, Drop)]
pub struct Policy {
    pub version: u32,
    /// How many virtual switches a packet goes through at most.
    pub hops: u32,
    /// Where switches connect.
    pub listen: Text,
    /// Where a second proxy follows this one.
    pub standby: Option<Text>,
    /// How many rounds a run may have.
    pub rounds: u32,
    pub switches: List<SwitchItem>,
    /// Between physical ports.
    pub cables: List<PairItem>,
    pub virtuals: List<VirtualItem>,
    /// Between link ports.
    pub links: List<PairItem>,
    pub members: List<MemberItem>,
}

impl Model for Policy {
    ghost use Rattle.policies.specs.Policies.{PolicyOf};

    ghost Value = { PolicyOf };

    ghost use Rattle.policies.specs.Sound.{IsSound};

    ghost view = { λ a. record {
      version = a.version;
      hops = a.hops;
      listen = a.listen;
      standby = a.standby;
      rounds = a.rounds;
      switches = a.switches;
      cables = a.cables;
      virtuals = a.virtuals;
      links = a.links;
      members = a.members;
    } };

    ghost invariant = { λ a. IsSound
        (record {
          version = a.version;
          hops = a.hops;
          listen = a.listen;
          standby = a.standby;
          rounds = a.rounds;
          switches = a.switches;
          cables = a.cables;
          virtuals = a.virtuals;
          links = a.links;
          members = a.members;
        }) };

    ghost inverse = { λ p. record {
      version = p.version;
      hops = p.hops;
      listen = p.listen;
      standby = p.standby;
      rounds = p.rounds;
      switches = p.switches;
      cables = p.cables;
      virtuals = p.virtuals;
      links = p.links;
      members = p.members;
    } };
}

/// The want of memory that a fault is.
fn wanted_by_topology(fault: TopologyFault) -> Memory
    requires { fault ≡ TopologyFault.Memory }
{
    match fault {
        TopologyFault::Memory => Memory,
        _ => unreachable!(),
    }
}

fn wanted_by_paths(fault: PathFault) -> Memory
    requires { fault ≡ PathFault.Memory }
{
    match fault {
        PathFault::Memory => Memory,
        _ => unreachable!(),
    }
}

/// The paths of a topology that has them.
fn made_paths(alloc: Global, topology: &Topology) -> Result<Paths, Memory>
    requires { cut_fault topology.now ≡ None }
    ensures { IfOk result (λ paths. paths ≡ topology.now) }
{
    match Paths::make(alloc, topology) {
        Ok(paths) => Ok(paths),
        Err(fault) => Err(wanted_by_paths(fault)),
    }
}

/// All ports of a virtual switch of this number.
pub fn all_ports(alloc: Global, v: u32, item: &VirtualItem) -> Result<PortView, Memory>
    ensures { IfOk result (λ ports. ports ≡ view_of v item.now None) }
{
    view(alloc, v, item, &None)
}

impl Policy {
    /// The plan of its topology.
    pub fn plan(&self) -> Result<TopologyPlan, Memory>
        ensures { IfOk result (λ plan. plan ≡ plan_of self.now) }
    {
        Ok(TopologyPlan {
            switches: self.switches.copy()?,
            cables: self.cables.copy()?,
            virtuals: self.virtuals.copy()?,
            links: self.links.copy()?,
        })
    }

    /// Its topology, which can be made but for want of memory.
    pub fn topology(&self, alloc: Global) -> Result<Topology, Memory>
        ensures { IfOk result (λ topology. topology ≡ plan_of self.now) }
    {
        self.is_sound();
        match Topology::make(alloc, &self.plan()?) {
            Ok(topology) => Ok(topology),
            Err(fault) => Err(wanted_by_topology(fault)),
        }
    }

    /// The paths between its physical switches, which can be made but for want of memory.
    pub fn paths(&self, alloc: Global) -> Result<Paths, Memory>
        ensures { IfOk result (λ paths. paths ≡ plan_of self.now) }
    {
        self.is_sound();
        let topology = self.topology(alloc)?;
        made_paths(alloc, &topology)
    }

    /// The expressions of its virtual switches, which are such but for want of memory.
    pub fn exprs(&self, alloc: Global) -> Result<List<Expr>, Memory>
        ensures { IfOk result (λ es. exprs_of self.now.virtuals self.now.members ≡ Ok (map policy_of es)) }
    {
        self.is_sound();
        match exprs(alloc, self.virtuals.as_slice(), self.members.as_slice()) {
            Ok(exprs) => Ok(exprs),
            Err(PolicyFault::Memory) => Err(Memory),
            Err(_) => unreachable!(),
        }
    }

    /// What holds of each policy.
    pub fn is_sound(&self)
        ensures { IsSound self.now }
    {
        let _ = &self.version;
    }
}

impl Duplicate for MemberItem {
    fn copy(&self) -> Result<MemberItem, Memory> {
        Ok(MemberItem {
            controller: self.controller.copy()?,
            vsw: self.vsw.copy()?,
            grant: self.grant.copy()?,
            bits: self.bits,
            entries: self.entries,
            address: self.address.copy()?,
        })
    }
}

impl Duplicate for Policy {
    fn copy(&self) -> Result<Policy, Memory> {
        let listen = self.listen.copy()?;
        let standby = self.standby.copy()?;
        let plan = self.plan()?;
        let members = self.members.copy()?;
        let TopologyPlan {
            switches,
            cables,
            virtuals,
            links,
        } = plan;
        Ok(Policy {
            version: self.version,
            hops: self.hops,
            listen,
            standby,
            rounds: self.rounds,
            switches,
            cables,
            virtuals,
            links,
            members,
        })
    }
}
