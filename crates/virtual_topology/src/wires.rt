//! How ports are joined, by numbers.
ghost use Rattle.std.specs.Prelude.{◌≡◌, ◌∷◌, ◌++◌, ◌<◌, [], ◌^◌, IfOk, OnOk, option_to_list, length};
ghost use Rattle.std.specs.List.{list_any};
ghost use Rattle.virtual_topology.specs.Wires.{both_ways as both_ways_of, item_joints as item_joints_of, joints_among};
ghost use Rattle.virtual_topology.specs.Wires.{lie_apart as lie_apart_of, lies_off, outside_among};
ghost use Rattle.virtual_topology.specs.Wires.{outside_row as outside_row_of, pair_joint as pair_joint_of};
ghost use Rattle.virtual_topology.specs.Wires.{turned as turned_of};

use crate::known::{Known, Spot};
use crate::plan::{PairItem, VirtualItem, VirtualPort};
use crate::uses::Role;
use cv_io::Memory;
use std::alloc::Global;

/// Two ports that are joined.
pub(crate) type Joint = (Spot, Spot);

/// Appends an item, if there is one.
pub(crate) fn push_some(list: &mut Vec<Joint>, item: Option<Joint>) -> Result<(), Memory>
    ensures { OnOk result (list.new.items ≡ list.old.items ++ option_to_list item) }
{
    if let Some(item) = item {
        list.push(item)?;
    }
    Ok(())
}

/// An outside port, and the physical port that it is.
fn outside_row<'a>(known: &Known<'a>, number: u32, port: &'a VirtualPort) -> Option<Joint>
    ensures { result ≡ outside_row_of known.now number port.now }
{
    match &port.at {
        None => None,
        Some(place) => {
            let spot = known.spot(Role::Physical, place)?;
            Some(((number, port.port), spot))
        }
    }
}

/// The outside ports of a virtual switch.
pub(crate) fn item_joints<'a>(
    alloc: Global,
    known: &Known<'a>,
    number: u32,
    item: &'a VirtualItem,
) -> Result<Vec<Joint>, Memory>
    ensures { IfOk result (λ joints. joints.items ≡ item_joints_of known.now (number, item.now)) }
{
    let mut joints = Vec::new(alloc);
    for port in item.ports.as_slice() {
        push_some(&mut joints, outside_row(known, number, port))?;
    }
    Ok(joints)
}

/// The outside ports of all virtual switches, in the order of the file.
pub(crate) fn outside_joints<'a>(
    alloc: Global,
    known: &Known<'a>,
    virtuals: &'a [VirtualItem],
) -> Result<Vec<Joint>, Memory>
    requires { length virtuals.now < 2 ^ 32 }
    ensures { IfOk result (λ joints. joints.items ≡ outside_among known.now virtuals.now) }
{
    let mut joints = Vec::new(alloc);
    for (number, item) in virtuals.iter().enumerate() {
        joints.extend_from_slice(&item_joints(alloc, known, number as u32, item)?)?;
    }
    Ok(joints)
}

/// The ends of a pair.
fn pair_joint<'a>(known: &Known<'a>, role: Role, pair: &'a PairItem) -> Option<Joint>
    ensures { result ≡ pair_joint_of known.now role pair.now }
{
    let a = known.spot(role, &pair.a)?;
    let b = known.spot(role, &pair.b)?;
    Some((a, b))
}

/// The ends of pairs, in the order of the file.
pub(crate) fn pair_joints<'a>(
    alloc: Global,
    known: &Known<'a>,
    role: Role,
    pairs: &'a [PairItem],
) -> Result<Vec<Joint>, Memory>
    ensures { IfOk result (λ joints. joints.items ≡ joints_among known.now role pairs.now) }
{
    let mut joints = Vec::new(alloc);
    for pair in pairs {
        push_some(&mut joints, pair_joint(known, role, pair))?;
    }
    Ok(joints)
}

/// Appends a joint both ways.
fn push_both(ways: &mut Vec<Joint>, joint: &Joint) -> Result<(), Memory>
    ensures { OnOk result (ways.new.items ≡ ways.old.items ++ joint.now ∷ (joint.now.1, joint.now.0) ∷ []) }
{
    ways.push(*joint)?;
    ways.push((joint.1, joint.0))?;
    Ok(())
}

/// From each end to the other.
pub(crate) fn both_ways(alloc: Global, joints: &[Joint]) -> Result<Vec<Joint>, Memory>
    ensures { IfOk result (λ ways. ways.items ≡ both_ways_of joints.now) }
{
    let mut ways = Vec::new(alloc);
    for joint in joints {
        push_both(&mut ways, joint)?;
    }
    Ok(ways)
}

/// From the second ends to the first.
pub(crate) fn turned(alloc: Global, joints: &[Joint]) -> Result<Vec<Joint>, Memory>
    ensures { IfOk result (λ turned. turned.items ≡ turned_of joints.now) }
{
    let mut turned = Vec::with_capacity(alloc, joints.len())?;
    for joint in joints {
        turned.push((joint.1, joint.0))?;
    }
    Ok(turned)
}

/// Whether some of these outside ports lies on another physical switch than this.
fn some_lies_off(joints: &[Joint], switch: u32) -> bool
    ensures { result ≡ list_any (lies_off switch) joints.now }
{
    joints.iter().any(|joint| joint.1.0 != switch)
}

/// Whether outside ports lie on two or more physical switches.
pub(crate) fn lie_apart(joints: &[Joint]) -> bool
    ensures { result ≡ lie_apart_of joints.now }
{
    match joints {
        [] => false,
        [first, ..] => some_lies_off(joints, first.1.0),
    }
}
