//! Virtual switches that links join, and that lie on several physical switches.
ghost use Rattle.std.specs.Prelude.{◌≡◌, ◌==◌, ◌<◌, ◌≤◌, ℕ, ◌^◌, All, IfOk, filter_map, length, slice_index};
ghost use Rattle.std.specs.List.{enumerate_from, list_any};
ghost use Rattle.virtual_topology.specs.Faults.{Answers, are_joined, ends_at as ends_at_of, is_mixed as is_mixed_of};
ghost use Rattle.virtual_topology.specs.Faults.{mixed_among, mixed_item};
ghost use Rattle.virtual_topology.specs.Within.{AreGroups, AreWithin, HaveSwitches, kept_of, merged};

use crate::fault::TopologyFault;
use crate::plan::VirtualItem;
use crate::wires::{Joint, lie_apart, push_some};
use cv_io::{Duplicate, Memory};
use std::alloc::Global;

/// Gives all of one group the number of another.
fn merge(groups: &mut [u32], from: u32, to: u32)
    ensures { (k : ℕ) → k < length groups.old → slice_index groups.new k ≡ merged from to (slice_index groups.old k) }
{
    for group in groups.iter_mut() {
        if *group == from {
            *group = to;
        }
    }
}

/// The numbers from 0.
fn numbers(alloc: Global, count: usize) -> Result<Vec<u32>, Memory>
    requires { count < 2 ^ 32 }
    ensures len { IfOk result (λ v. length v.items ≡ count) }
    ensures own { IfOk result (λ v. (k : ℕ) → k < count → slice_index v.items k ≡ k) }
{
    let mut numbers = Vec::with_capacity(alloc, count)?;
    for number in 0..count {
        numbers.push(number as u32)?;
    }
    Ok(numbers)
}

/// A number for each virtual switch, one for those that links join.
fn groups(alloc: Global, count: usize, links: &[Joint]) -> Result<Vec<u32>, Memory>
    requires count { count < 2 ^ 32 }
    requires within { AreWithin count links.now }
    ensures len { IfOk result (λ v. length v.items ≡ count) }
    ensures groups { IfOk result (λ v. AreGroups links.now v.items) }
{
    let mut groups = numbers(alloc, count)?;
    let mut left = links.len();
    while left > 0 {
        left -= 1;
        let ((a, _), (b, _)) = links[left];
        let from = groups[a as usize];
        let to = groups[b as usize];
        merge(&mut groups, from, to);
    }
    Ok(groups)
}

/// Whether a link ends at a virtual switch.
fn has_link(links: &[Joint], number: u32) -> bool
    ensures { result ≡ list_any (ends_at_of number) links.now }
{
    links
        .iter()
        .any(|link| link.0.0 == number || link.1.0 == number)
}

/// An outside port, if its virtual switch is of a group.
fn kept(groups: &[u32], group: u32, joint: &Joint) -> Option<Joint>
    requires { joint.now.0.0 < length groups.now }
    ensures { result ≡ kept_of groups.now group joint.now }
{
    if group == groups[joint.0.0 as usize] {
        Some(*joint)
    } else {
        None
    }
}

/// The outside ports of the virtual switches of a group.
fn together(
    alloc: Global,
    outside: &[Joint],
    groups: &[u32],
    group: u32,
) -> Result<Vec<Joint>, Memory>
    requires { HaveSwitches (length groups.now) outside.now }
    ensures { IfOk result (λ v. v.items ≡ filter_map (kept_of groups.now group) outside.now) }
{
    let mut together = Vec::new(alloc);
    for joint in outside {
        push_some(&mut together, kept(groups, group, joint))?;
    }
    Ok(together)
}

/// Whether links join a virtual switch that has links to outside ports on two physical switches.
fn is_mixed(
    alloc: Global,
    links: &[Joint],
    outside: &[Joint],
    groups: &[u32],
    number: u32,
) -> Result<bool, Memory>
    requires number { number < length groups.now }
    requires outside { HaveSwitches (length groups.now) outside.now }
    requires groups { AreGroups links.now groups.now }
    ensures { IfOk result (λ b. b ≡ is_mixed_of links.now outside.now number) }
{
    if !has_link(links, number) {
        return Ok(false);
    }
    let together = together(alloc, outside, groups, groups[number as usize])?;
    Ok(lie_apart(&together))
}

fn check_item(
    alloc: Global,
    links: &[Joint],
    outside: &[Joint],
    groups: &[u32],
    number: u32,
    item: &VirtualItem,
) -> Result<(), TopologyFault>
    requires number { number < length groups.now }
    requires outside { HaveSwitches (length groups.now) outside.now }
    requires groups { AreGroups links.now groups.now }
    ensures { Answers TopologyFault.Memory result (mixed_item links.now outside.now (number, item.now)) }
{
    if is_mixed(alloc, links, outside, groups, number)? {
        return Err(TopologyFault::Mixed {
            name: item.name.copy()?,
        });
    }
    Ok(())
}

/// Virtual switches that links join lie on one physical switch.
pub(crate) fn check_mixed(
    alloc: Global,
    links: &[Joint],
    outside: &[Joint],
    virtuals: &[VirtualItem],
) -> Result<(), TopologyFault>
    requires count { length virtuals.now < 2 ^ 32 }
    requires links { AreWithin (length virtuals.now) links.now }
    requires outside { HaveSwitches (length virtuals.now) outside.now }
    ensures { Answers TopologyFault.Memory result (mixed_among links.now outside.now virtuals.now) }
{
    let groups = groups(alloc, virtuals.len(), links)?;
    for (number, item) in virtuals.iter().enumerate() {
        check_item(alloc, links, outside, &groups, number as u32, item)?;
    }
    Ok(())
}
