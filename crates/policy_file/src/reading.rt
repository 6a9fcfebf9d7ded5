//! Reading a policy file.
ghost use Rattle.std.specs.Prelude.{◌≡◌, ◌⊎◌, IfOk, IfErr, None, Some, map};
ghost use Rattle.policy_expr.specs.Policy.{policy_of as as_policy};
ghost use Rattle.toml.specs.View.{table_view};
ghost use Rattle.virtual_topology.specs.Faults.{Answers};
ghost use Rattle.policies.specs.Outcomes.{Gives};
ghost use Rattle.policies.specs.Sound.{IsSound};
ghost use Rattle.policy_file.specs.Reading.{draft_of, topology_fault, path_fault, fits, fits_made, fits_over};
ghost use Rattle.policy_file.specs.Reading.{policy_of, document_of, policy_in_bytes};

use crate::head::{Head, read_head};
use crate::items::plan;
use crate::keys::Version;
use crate::listed::{check_all_listed, check_all_needed};
use crate::member::members;
use cv_io::List;
use inner_paths::{PathFault, Paths};
use policies::{MemberItem, Policy, PolicyFault, check_widths, exprs};
use policy_expr::Expr;
use std::alloc::Global;
use toml::Table;
use virtual_topology::{Topology, TopologyFault, TopologyPlan};

/// A policy file has at most so many bytes.
const LONGEST: usize = 1_048_576;

/// What a file says key by key.
#[derive(Drop)]
struct Draft {
    head: Head,
    plan: TopologyPlan,
    members: List<MemberItem>,
}

/// The file as a table.
fn document(alloc: Global, bytes: &[u8]) -> Result<Table, PolicyFault>
    ensures read { IfOk result (λ file. document_of bytes.now ≡ Some (table_view file)) }
    ensures fault { IfErr result (λ fault. (fault ≡ PolicyFault.Memory)
        ⊎ ((fault ≡ PolicyFault.Syntax) × (document_of bytes.now ≡ None))) }
{
    match toml::de::table_from_slice(alloc, bytes) {
        Ok(file) => Ok(file),
        Err(fault) if fault.is_memory() => Err(PolicyFault::Memory),
        Err(_) => Err(PolicyFault::Syntax),
    }
}

/// What the keys of a file say, if each may be so.
fn read_draft(alloc: Global, file: &Table) -> Result<Draft, PolicyFault>
    ensures { Gives (draft_of (table_view file.now)) result }
{
    let head = read_head(alloc, file)?;
    let plan = plan(alloc, file)?;
    let members = members(alloc, file, head.version, plan.virtuals.as_slice())?;
    Ok(Draft {
        head,
        plan,
        members,
    })
}

/// The topology of a plan.
fn topology(alloc: Global, plan: &TopologyPlan) -> Result<Topology, PolicyFault>
    ensures made { IfOk result (λ t. t ≡ plan.now) }
    ensures fault { Answers PolicyFault.Memory result (topology_fault plan.now) }
{
    match Topology::make(alloc, plan) {
        Ok(topology) => Ok(topology),
        Err(TopologyFault::Memory) => Err(PolicyFault::Memory),
        Err(fault) => Err(PolicyFault::Topology { fault }),
    }
}

/// There are paths between the physical switches of each virtual switch.
fn check_paths(alloc: Global, topology: &Topology) -> Result<(), PolicyFault>
    ensures { Answers PolicyFault.Memory result (path_fault topology.now) }
{
    match Paths::make(alloc, topology) {
        Ok(_) => Ok(()),
        Err(PathFault::Memory) => Err(PolicyFault::Memory),
        Err(fault) => Err(PolicyFault::Paths { fault }),
    }
}

/// A topology has paths, and no virtual switch of it is too wide.
fn check_over(
    alloc: Global,
    topology: &Topology,
    exprs: &[Expr],
    members: &[MemberItem],
    hops: u32,
) -> Result<(), PolicyFault>
    ensures { Gives (fits_over topology.now members.now (map as_policy exprs.now) hops) result }
{
    check_paths(alloc, topology)?;
    check_widths(alloc, topology, exprs, members, hops)
}

/// The topology of what the keys say fits together, over expressions that were read.
fn check_made(alloc: Global, draft: &Draft, exprs: &[Expr]) -> Result<(), PolicyFault>
    ensures { Gives (fits_made draft.now.plan draft.now.members (map as_policy exprs.now) draft.now.head.hops) result }
{
    let topology = topology(alloc, &draft.plan)?;
    let members = draft.members.as_slice();
    check_over(alloc, &topology, exprs, members, draft.head.hops)
}

/// What the keys say fits together.
fn check_whole(alloc: Global, draft: &Draft) -> Result<(), PolicyFault>
    ensures { Gives (fits (policy_of draft.now)) result }
{
    let members = draft.members.as_slice();
    let exprs = exprs(alloc, draft.plan.virtuals.as_slice(), members)?;
    check_made(alloc, draft, exprs.as_slice())
}

fn policy(draft: Draft) -> Policy
    requires { IsSound (policy_of draft) }
    ensures { result ≡ policy_of draft }
{
    let Draft {
        head,
        plan,
        members,
    } = draft;
    let Head {
        version,
        hops,
        listen,
        standby,
        rounds,
    } = head;
    let TopologyPlan {
        switches,
        cables,
        virtuals,
        links,
    } = plan;
    Policy {
        version: match version {
            Version::One => 1,
            Version::Two => 2,
        },
        hops,
        listen,
        standby,
        rounds,
        switches,
        cables,
        virtuals,
        links,
        members,
    }
}

/// The policy that a file states, or the first fault of it. Each fault is looked for in the whole file
/// before the next; it names the first by the top keys, then switches, cables, virtual switches, links
/// and members, each by their number in the file, and their keys in the order of their bytes.
pub fn read(alloc: Global, bytes: &[u8]) -> Result<Policy, PolicyFault>
    ensures { Gives (policy_in_bytes bytes.now) result }
{
    if bytes.len() > LONGEST {
        return Err(PolicyFault::Long);
    }
    let file = document(alloc, bytes)?;
    check_all_listed(alloc, &file)?;
    check_all_needed(alloc, &file)?;
    let draft = read_draft(alloc, &file)?;
    check_whole(alloc, &draft)?;
    Ok(policy(draft))
}
