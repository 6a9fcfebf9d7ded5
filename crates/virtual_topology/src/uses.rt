//! The places that a plan uses.
ghost use Rattle.std.specs.Prelude.{◌≡◌, ◌∷◌, ◌++◌, [], OnOk, OnErr, IfOk, map};
ghost use Rattle.virtual_topology.specs.Places.{uses as uses_of, ends, in_role, pair_uses, port_uses, item_uses};
ghost use Rattle.virtual_topology.specs.Shown.{shown};
ghost use Rattle.std.specs.Hash as fed;
ghost use Rattle.std.specs.Cmp.Rules.{hashing};
ghost use Rattle.std.proofs.Common.{rules};

use crate::plan::{PairItem, PortPlace, TopologyPlan, VirtualItem, VirtualPort};
use cv_io::{Memory, Text};
use std::alloc::Global;
use std::hash::{Hash, Hasher};

/// As what a place is used.
#[derive(Clone, Copy, PartialEq, Eq, Hash, Debug)]
pub enum Role {
    /// A port of a physical switch.
    Physical,
    /// A port of a virtual switch.
    Virtual,
    /// A link port of a virtual switch.
    Link,
}

/// The name of a switch.
#[derive(Clone, Copy, PartialEq, Eq)]
pub(crate) struct Name<'a>(pub &'a Text);

impl<'a> Hash for Name<'a> {
    ghost hash_input = { λ n. fed.slice fed.u8 n.0.now };

    ghost respects_eq = { Prim.search (hashing, rules) };

    fn hash<H: Hasher>(&self, state: &mut H) {
        self.0.as_bytes().hash(state);
    }
}

/// A place in a role.
#[derive(Clone, Copy, PartialEq, Eq, Hash)]
pub(crate) struct Use<'a> {
    pub role: Role,
    pub name: Name<'a>,
    pub port: u16,
}

impl<'a> Use<'a> {
    /// A place of the plan in a role.
    pub(crate) fn of(role: Role, place: &'a PortPlace) -> Use<'a>
        ensures { shown result ≡ record { role = role; place = place.now } }
    {
        Use {
            role,
            name: Name(&place.name),
            port: place.port,
        }
    }
}

/// Appends a place in a role.
fn push_place<'a>(uses: &mut Vec<Use<'a>>, role: Role, place: &'a PortPlace) -> Result<(), Memory>
    ensures { OnOk result (map shown uses.new.items ≡ map shown uses.old.items ++ in_role role place.now ∷ []) }
{
    uses.push(Use::of(role, place))?;
    Ok(())
}

/// Appends the ends of a pair, one where both are one place.
fn push_pair<'a>(uses: &mut Vec<Use<'a>>, role: Role, pair: &'a PairItem) -> Result<(), Memory>
    ensures { OnOk result (map shown uses.new.items ≡ map shown uses.old.items ++ ends role pair.now) }
{
    push_place(uses, role, &pair.a)?;
    if pair.a != pair.b {
        push_place(uses, role, &pair.b)?;
    }
    Ok(())
}

/// Appends the ends of pairs, in their order.
fn push_pairs<'a>(uses: &mut Vec<Use<'a>>, role: Role, pairs: &'a [PairItem]) -> Result<(), Memory>
    ensures { OnOk result (map shown uses.new.items ≡ map shown uses.old.items ++ pair_uses role pairs.now) }
{
    for pair in pairs {
        push_pair(uses, role, pair)?;
    }
    Ok(())
}

/// Appends a port of a virtual switch of this name, and the physical port that it is.
fn push_port<'a>(
    uses: &mut Vec<Use<'a>>,
    name: Name<'a>,
    port: &'a VirtualPort,
) -> Result<(), Memory>
    ensures { OnOk result (map shown uses.new.items ≡ map shown uses.old.items ++ port_uses name.entry.0.now port.now) }
{
    uses.push(Use {
        role: Role::Virtual,
        name,
        port: port.port,
    })?;
    if let Some(place) = &port.at {
        push_place(uses, Role::Physical, place)?;
    }
    Ok(())
}

/// Appends the ports of a virtual switch, in their order.
fn push_item<'a>(uses: &mut Vec<Use<'a>>, item: &'a VirtualItem) -> Result<(), Memory>
    ensures { OnOk result (map shown uses.new.items ≡ map shown uses.old.items ++ item_uses item.now) }
{
    for port in item.ports.as_slice() {
        push_port(uses, Name(&item.name), port)?;
    }
    Ok(())
}

/// The places that a plan uses, in the order of the file.
pub(crate) fn uses<'a>(alloc: Global, plan: &'a TopologyPlan) -> Result<Vec<Use<'a>>, Memory>
    ensures { IfOk result (λ v. map shown v.items ≡ uses_of plan.now) }
{
    let mut uses = Vec::new(alloc);
    push_pairs(&mut uses, Role::Physical, plan.cables.as_slice())?;
    for item in plan.virtuals.as_slice() {
        push_item(&mut uses, item)?;
    }
    push_pairs(&mut uses, Role::Link, plan.links.as_slice())?;
    Ok(uses)
}
