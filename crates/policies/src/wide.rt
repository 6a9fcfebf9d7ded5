//! How many levels of priority virtual switches need over hops.
ghost use Rattle.std.specs.Prelude.{◌≡◌, ◌++◌, IfOk, OnOk, map};
ghost use Rattle.std.specs.List.{enumerate_from};
ghost use Rattle.policy_expr.specs.Policy.{policy_of, members_of};
ghost use Rattle.virtual_topology.specs.Faults.{Answers};
ghost use Rattle.policies.specs.Widths.{bits_of, size as size_of_expr, number_at as number_at_of};
ghost use Rattle.policies.specs.Widths.{beyond as beyond_of, greatest, over_hop, AreWidths, too_wide};
ghost use Rattle.policies.specs.Widths.{too_wide_among, too_wide_in};

use crate::fault::PolicyFault;
use crate::numbers::{number, number_at};
use crate::policy::MemberItem;
use alg_priority::size_concat;
use cv_io::{Duplicate, List, Memory};
use policy_expr::Expr;
use std::alloc::Global;
use virtual_topology::{Topology, VirtualItem};

/// A switch has so many levels of priority for a virtual switch.
const LEVELS: u64 = 65_534;

/// The bits of a member, 0 of no member.
fn bits_at(members: &[MemberItem], index: u32) -> u32
    ensures { result ≡ bits_of members.now index }
{
    match members.get(index as usize) {
        Some(member) => member.bits,
        None => 0,
    }
}

/// Appends the bits of the members of an expression, from left to right.
fn push_bits(expr: &Expr, members: &[MemberItem], bits: &mut List<u32>) -> Result<(), Memory>
    ensures { OnOk result (bits.new ≡ bits.old ++ map (bits_of members.now) (members_of (policy_of expr.now))) }
{
    match expr {
        Expr::Member { index } => bits.push(bits_at(members, *index)),
        Expr::Par { left, right } | Expr::Seq { left, right } | Expr::Over { left, right } => {
            push_bits(left, members, bits)?;
            push_bits(right, members, bits)
        }
    }
}

/// The size of an expression.
fn size(alloc: Global, expr: &Expr, members: &[MemberItem]) -> Result<u64, Memory>
    ensures { IfOk result (λ n. n ≡ size_of_expr members.now (policy_of expr.now)) }
{
    let mut bits = List::new(alloc);
    push_bits(expr, members, &mut bits)?;
    Ok(expr.size(&bits))
}

fn sizes(alloc: Global, exprs: &[Expr], members: &[MemberItem]) -> Result<Vec<u64>, Memory>
    ensures { IfOk result (λ sizes. sizes.items ≡ map (size_of_expr members.now) (map policy_of exprs.now)) }
{
    let mut sizes = Vec::new(alloc);
    for expr in exprs {
        sizes.push(size(alloc, expr, members)?)?;
    }
    Ok(sizes)
}

/// What the virtual switch beyond a port needs, 1 where no link leads on.
fn beyond(topology: &Topology, needed: &[u64], v: u32, port: u16) -> u64
    ensures { result ≡ beyond_of topology.now (number_at_of needed.now) v port }
{
    match topology.peer(v, port) {
        Some((peer, _)) => number_at(needed, peer as usize),
        None => 1,
    }
}

#[tactic(auto, using(crate::proofs::Widths::greatest_left, crate::proofs::Widths::greatest_none_left, crate::proofs::Widths::greatest_some))]
/// The most that a virtual switch to which a link leads needs, 1 where no link leads on.
fn most_beyond(topology: &Topology, needed: &[u64], v: u32, item: &VirtualItem) -> u64
    ensures { result ≡ greatest (map (λ p. beyond_of topology.now (number_at_of needed.now) v p.port) item.now.ports) }
{
    let mut most = 1;
    for port in item.ports.as_slice() {
        most = most.max(beyond(topology, needed, v, port.port));
    }
    most
}

#[tactic(auto, using(crate::proofs::Widths::one_virtual_more, crate::proofs::Widths::all_virtuals))]
/// What these virtual switches need with one hop more.
fn with_a_hop(
    alloc: Global,
    topology: &Topology,
    virtuals: &[VirtualItem],
    sizes: &[u64],
    needed: &[u64],
) -> Result<Vec<u64>, Memory>
    ensures { IfOk result (λ next. next.items ≡ map (over_hop topology.now sizes.now (number_at_of needed.now))
        (enumerate_from 0 virtuals.now)) }
{
    let mut next = Vec::new(alloc);
    for (v, item) in virtuals.iter().enumerate() {
        let place = number(v)?;
        let most = most_beyond(topology, needed, place, item);
        let own = number_at(sizes, v);
        let size = size_concat(own, most);
        next.push(size)?;
    }
    Ok(next)
}

#[tactic(auto, using(crate::proofs::Widths::no_hop, crate::proofs::Widths::one_hop))]
/// What each virtual switch needs over so many hops: over none 1; over one more its own size times the
/// most that a virtual switch to which a link leads needs over one less.
fn needed_over(
    alloc: Global,
    topology: &Topology,
    sizes: &[u64],
    hops: u32,
) -> Result<Vec<u64>, Memory>
    ensures { IfOk result (λ needed. AreWidths topology.now sizes.now hops needed.items) }
{
    let virtuals = topology.plan().virtuals.as_slice();
    let mut needed = Vec::new(alloc);
    for _hop in 0..hops {
        needed = with_a_hop(alloc, topology, virtuals, sizes, &needed)?;
    }
    Ok(needed)
}

fn check_width(item: &VirtualItem, needed: u64) -> Result<(), PolicyFault>
    ensures { Answers PolicyFault.Memory result (too_wide item.now needed) }
{
    if needed > LEVELS {
        return Err(PolicyFault::TooWide {
            name: item.name.copy()?,
            needed,
            limit: LEVELS,
        });
    }
    Ok(())
}

/// None of these virtual switches needs more levels than there are.
fn check_each(virtuals: &[VirtualItem], needed: &[u64]) -> Result<(), PolicyFault>
    ensures { Answers PolicyFault.Memory result (too_wide_among virtuals.now (number_at_of needed.now)) }
{
    for (v, item) in virtuals.iter().enumerate() {
        check_width(item, number_at(needed, v))?;
    }
    Ok(())
}

/// No virtual switch needs more levels than there are; `TooWide` names the first one that does.
#[tactic(auto, using(crate::proofs::Widths::widths_are))]
pub fn check_widths(
    alloc: Global,
    topology: &Topology,
    exprs: &[Expr],
    members: &[MemberItem],
    hops: u32,
) -> Result<(), PolicyFault>
    ensures { Answers PolicyFault.Memory result (too_wide_in topology.now members.now (map policy_of exprs.now) hops) }
{
    let sizes = sizes(alloc, exprs, members)?;
    let needed = needed_over(alloc, topology, &sizes, hops)?;
    check_each(topology.plan().virtuals.as_slice(), &needed)
}
