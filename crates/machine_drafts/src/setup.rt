//! What never changes while the machine runs: the policy, and what is worked out of it once.
ghost use Rattle.std.specs.Prelude.{◌≡◌, ◌≤◌, ◌<◌, ◌↔◌, All, IfOk, IfSome, IsSome, Some, length, map, slice_get};
ghost use Rattle.std.specs.Option.{option_copied};
ghost use Rattle.of10_actions.specs.Ports.{AreRising};
ghost use Rattle.policies.specs.Policies.{plan};
ghost use Rattle.policies.specs.Sound.{IsSound};
ghost use Rattle.policies.specs.declared.policy.MemberItem.{MemberItem as MemberItemOf};
ghost use Rattle.policy_setting.specs.OfPolicies.{seen as seen_of};
ghost use Rattle.policy_setting.specs.Wirings.{wiring as wiring_of};
ghost use Rattle.machine_meaning.specs.Lists.{places};
ghost use Rattle.machine_meaning.specs.Names.{all_ports as all_ports_of};
ghost use Rattle.machine_drafts.specs.Setups.{IsSetUp, is_seen as is_seen_of, ports_of, sees as sees_of};
ghost use Rattle.machine_meaning.specs.Ways.{switches_in, switches_of as switches_of_of};

use crate::ways;
use cv_io::{List, Memory};
use grants::sees_all;
use inner_paths::Paths;
use of10_actions::PortView;
use policies::{MemberItem, Policy, all_ports};
use policy_setting::wiring;
use std::alloc::Global;
use std::marker::Model;
use switch_meaning::Wiring;
use virtual_topology::{SwitchItem, Topology, VirtualItem};

/// A policy, with what is worked out of it as the machine opens.
#[derive(Drop)]
pub struct Setup {
    alloc: Global,
    policy: Policy,
    topology: Topology,
    paths: Paths,
    /// All ports of each virtual switch.
    ports: List<PortView>,
    /// For each virtual switch whether all its members see all its ports.
    seen: List<bool>,
    /// The physical switches of each virtual switch.
    switches: List<List<u32>>,
}

impl Model for Setup {
    ghost use Rattle.policies.specs.Policies.{PolicyOf};

    ghost Value = { PolicyOf };

    ghost use Rattle.machine_drafts.specs.Setups.{IsSetUp};

    ghost view = { λ a. a.policy };

    ghost invariant = { λ a. IsSetUp a.policy a.topology a.paths a.ports a.seen a.switches };
}

/// All ports of each virtual switch.
fn ports(alloc: Global, virtuals: &[VirtualItem]) -> Result<List<PortView>, Memory>
    requires { length virtuals.now ≤ 16 }
    ensures { IfOk result (λ ports. ports ≡ ports_of virtuals.now) }
{
    let mut ports = List::new(alloc);
    for (v, item) in virtuals.iter().enumerate() {
        let all = all_ports(alloc, v as u32, item)?;
        ports.push(all)?;
    }
    Ok(ports)
}

/// Whether a member isn't one of the virtual switch of these ports, or sees all of them.
fn sees(ports: &PortView, member: &MemberItem) -> bool
    ensures { result ≡ sees_of ports.now member.now }
{
    member.grant.ports.v != ports.v || sees_all(&member.grant, ports)
}

/// Whether all members of the virtual switch of these ports see all of them.
fn is_seen(ports: &PortView, members: &[MemberItem]) -> bool
    ensures { result ≡ is_seen_of members.now ports.now }
{
    members.iter().all(|member| sees(ports, member))
}

/// For each virtual switch whether all its members see all its ports.
fn seen(alloc: Global, ports: &[PortView], members: &[MemberItem]) -> Result<List<bool>, Memory>
    ensures { IfOk result (λ seen. seen ≡ map (is_seen_of members.now) ports.now) }
{
    let mut seen = List::new(alloc);
    for all in ports {
        seen.push(is_seen(all, members))?;
    }
    Ok(seen)
}

/// The physical switches of each virtual switch.
fn switches(alloc: Global, topology: &Topology, wiring: &Wiring) -> Result<List<List<u32>>, Memory>
    requires { wiring.now ≡ wiring_of topology.now }
    ensures { IfOk result (λ switches. switches ≡ map (switches_in topology.now) (places topology.now.virtuals)) }
{
    let mut switches = List::new(alloc);
    let count = ways::virtual_count(topology);
    for v in 0..count {
        let own = ways::switches_of(alloc, topology, wiring, v)?;
        switches.push(own)?;
    }
    Ok(switches)
}

/// What is worked out of a topology, and of members.
#[derive(Drop)]
struct Derived {
    ports: List<PortView>,
    seen: List<bool>,
    switches: List<List<u32>>,
}

/// What is worked out of a topology, and of members.
fn derive(
    alloc: Global,
    topology: &Topology,
    paths: &Paths,
    members: &[MemberItem],
) -> Result<Derived, Memory>
    requires { paths.now ≡ topology.now }
    ensures ports { IfOk result (λ d. d.ports ≡ ports_of topology.now.virtuals) }
    ensures seen { IfOk result (λ d. d.seen ≡ map (is_seen_of members.now) (ports_of topology.now.virtuals)) }
    ensures switches { IfOk result (λ d. d.switches ≡ map (switches_in topology.now) (places topology.now.virtuals)) }
{
    let ports = ports(alloc, topology.plan().virtuals.as_slice())?;
    let seen = seen(alloc, ports.as_slice(), members)?;
    let wiring = wiring(alloc, topology, paths)?;
    let switches = switches(alloc, topology, &wiring)?;
    Ok(Derived {
        ports,
        seen,
        switches,
    })
}

/// What is worked out of a policy.
#[derive(Drop)]
struct WorkedOut {
    topology: Topology,
    paths: Paths,
    ports: List<PortView>,
    seen: List<bool>,
    switches: List<List<u32>>,
}

/// The paths of a policy, and what is worked out of its topology and of them.
fn derive_all(
    alloc: Global,
    policy: &Policy,
    topology: &Topology,
) -> Result<(Paths, Derived), Memory>
    requires { topology.now ≡ plan policy.now }
    ensures { IfOk result (λ w. IsSetUp policy.now topology.now w.0 w.1.ports w.1.seen w.1.switches) }
{
    let paths = policy.paths(alloc)?;
    match derive(alloc, topology, &paths, policy.members.as_slice()) {
        Ok(derived) => Ok((paths, derived)),
        Err(memory) => {
            drop(paths);
            Err(memory)
        }
    }
}

/// What is worked out of a policy.
fn work_out(alloc: Global, policy: &Policy) -> Result<WorkedOut, Memory>
    ensures { IfOk result (λ w. IsSetUp policy.now w.topology w.paths w.ports w.seen w.switches) }
{
    let topology = policy.topology(alloc)?;
    match derive_all(alloc, policy, &topology) {
        Ok((paths, derived)) => Ok(WorkedOut {
            topology,
            paths,
            ports: derived.ports,
            seen: derived.seen,
            switches: derived.switches,
        }),
        Err(memory) => {
            drop(topology);
            Err(memory)
        }
    }
}

/// The member of a number.
fn member_at(members: &[MemberItem], n: u32) -> Option<&MemberItem>
    ensures { option_copied result ≡ slice_get members.now n }
{
    members.get(n as usize)
}

/// The numbers at a place.
fn numbers_at(lists: &[List<u32>], place: usize) -> &[u32]
    requires { place < length lists.now }
    ensures { slice_get lists.now place ≡ Some result.now }
{
    lists[place].as_slice()
}

impl Setup {
    /// A policy's setup.
    pub fn make(alloc: Global, policy: Policy) -> Result<Setup, Memory>
        ensures { IfOk result (λ setup. setup ≡ policy) }
    {
        let found = work_out(alloc, &policy)?;
        let setup = Setup {
            alloc,
            policy,
            topology: found.topology,
            paths: found.paths,
            ports: found.ports,
            seen: found.seen,
            switches: found.switches,
        };
        Ok(setup)
    }

    /// Where memory for it comes from.
    pub fn alloc(&self) -> Global {
        self.alloc
    }

    /// The policy. What is true of every policy is said here.
    pub fn policy(&self) -> &Policy
        ensures policy { result.now ≡ self.now }
        ensures sound { IsSound self.now }
    {
        self.policy.is_sound();
        &self.policy
    }

    /// Its topology.
    pub fn topology(&self) -> &Topology
        ensures { result.now ≡ plan self.now }
    {
        &self.topology
    }

    /// Its paths.
    pub fn paths(&self) -> &Paths
        ensures { result.now ≡ plan self.now }
    {
        &self.paths
    }

    /// For each virtual switch whether all its members see all its ports.
    pub fn seen(&self) -> &[bool]
        ensures { result.now ≡ seen_of self.now }
    {
        self.seen.as_slice()
    }

    /// The members, by number.
    #[tactic(auto, using(crate::proofs::Ports::all_rising, crate::proofs::Ports::all_there))]
    pub fn members(&self) -> &[MemberItem]
        ensures members { result.now ≡ self.now.members }
        ensures rising { All (λ (m : MemberItemOf). AreRising m.grant.ports) result.now }
        ensures there { All (λ (m : MemberItemOf). m.grant.ports.v < length self.now.virtuals) result.now }
        ensures few { length result.now ≤ 32 }
    {
        self.policy.is_sound();
        self.policy.members.as_slice()
    }

    /// The member of a number.
    pub fn member(&self, n: u32) -> Option<&MemberItem>
        ensures member { option_copied result ≡ slice_get self.now.members n }
        ensures rising { IfSome result (λ m. AreRising m.now.grant.ports) }
        ensures there { IfSome result (λ m. m.now.grant.ports.v < length self.now.virtuals) }
    {
        member_at(self.members(), n)
    }

    /// The virtual switch of a number.
    pub fn virtual_at(&self, v: u32) -> Option<&VirtualItem>
        ensures { option_copied result ≡ slice_get self.now.virtuals v }
    {
        self.policy.virtuals.get(v as usize)
    }

    /// The physical switch of a number.
    pub fn switch_at(&self, n: u32) -> Option<&SwitchItem>
        ensures { option_copied result ≡ slice_get self.now.switches n }
    {
        self.policy.switches.get(n as usize)
    }

    /// All ports of a virtual switch.
    pub fn all_ports(&self, v: u32) -> Option<&PortView>
        ensures ports { IfSome result (λ ports. ports.now ≡ all_ports_of self.now v) }
        ensures there { IsSome result ↔ (v < length self.now.virtuals) }
    {
        self.ports.get(v as usize)
    }

    /// The physical switches of a virtual switch, rising.
    pub fn switches_of(&self, v: u32) -> &[u32]
        requires { v < length self.now.virtuals }
        ensures { result.now ≡ switches_of_of self.now v }
    {
        numbers_at(self.switches.as_slice(), v as usize)
    }
}
