//! Places that aren't there, and links and cables that can't be so.
ghost use Rattle.std.specs.Prelude.{◌≡◌, map};
ghost use Rattle.std.specs.Option.{option_or};
ghost use Rattle.virtual_topology.specs.Faults.{Answers, asked as asked_of, first_answer, looped, misshapen};
ghost use Rattle.virtual_topology.specs.Faults.{shape_among, unknown_among, unknown_place, unlike_link, unlinked};
ghost use Rattle.virtual_topology.specs.Shown.{shown, shown_row};

use crate::fault::TopologyFault;
use crate::known::{Known, Spot};
use crate::plan::{PairItem, PortPlace, TopologyPlan};
use crate::text::{place_text, use_text};
use crate::used::Used;
use crate::uses::{Role, Use};
use std::alloc::Global;

/// In which role a place is to be there: a link's end is to be a port of a virtual switch.
fn asked(role: Role) -> Role
    ensures { result ≡ asked_of role }
{
    match role {
        Role::Physical => Role::Physical,
        Role::Virtual | Role::Link => Role::Virtual,
    }
}

fn check_place(alloc: Global, known: &Known<'_>, place: &Use<'_>) -> Result<(), TopologyFault>
    ensures { Answers TopologyFault.Memory result (unknown_place known.now (shown place.now)) }
{
    if known.spot_as(asked(place.role), place).is_none() {
        return Err(TopologyFault::Unknown {
            name: use_text(alloc, place)?,
        });
    }
    Ok(())
}

/// The places that are used are there.
pub(crate) fn check_places(
    alloc: Global,
    known: &Known<'_>,
    used: &Used<'_>,
) -> Result<(), TopologyFault>
    ensures { Answers TopologyFault.Memory result (unknown_among known.now used.now) }
{
    for place in used.list() {
        check_place(alloc, known, place)?;
    }
    Ok(())
}

/// The ends are on two switches.
fn check_ends(alloc: Global, pair: &PairItem) -> Result<(), TopologyFault>
    ensures { Answers TopologyFault.Memory result (looped pair.now) }
{
    if pair.a.name == pair.b.name {
        return Err(TopologyFault::LinkShape {
            name: place_text(alloc, &pair.a)?,
        });
    }
    Ok(())
}

/// A link port has a link.
fn check_port(alloc: Global, used: &Used<'_>, row: &(Use<'_>, Spot)) -> Result<(), TopologyFault>
    ensures { Answers TopologyFault.Memory result (unlinked used.now (shown_row row.now)) }
{
    if row.0.role == Role::Link && !used.contains(&row.0) {
        return Err(TopologyFault::LinkShape {
            name: use_text(alloc, &row.0)?,
        });
    }
    Ok(())
}

/// A link's end is a link port.
fn check_end<'a>(
    alloc: Global,
    known: &Known<'a>,
    place: &'a PortPlace,
) -> Result<(), TopologyFault>
    ensures { Answers TopologyFault.Memory result (unlike_link known.now place.now) }
{
    if known.spot(Role::Link, place).is_none() {
        return Err(TopologyFault::LinkShape {
            name: place_text(alloc, place)?,
        });
    }
    Ok(())
}

fn check_link<'a>(alloc: Global, known: &Known<'a>, link: &'a PairItem) -> Result<(), TopologyFault>
    ensures { Answers TopologyFault.Memory result (misshapen known.now link.now) }
{
    check_end(alloc, known, &link.a)?;
    check_end(alloc, known, &link.b)?;
    check_ends(alloc, link)
}

fn check_cables(alloc: Global, cables: &[PairItem]) -> Result<(), TopologyFault>
    ensures { Answers TopologyFault.Memory result (first_answer looped cables.now) }
{
    for cable in cables {
        check_ends(alloc, cable)?;
    }
    Ok(())
}

fn check_ports(alloc: Global, known: &Known<'_>, used: &Used<'_>) -> Result<(), TopologyFault>
    ensures { Answers TopologyFault.Memory result (first_answer (unlinked used.now) known.now) }
{
    for row in known.rows() {
        check_port(alloc, used, row)?;
    }
    Ok(())
}

fn check_links<'a>(
    alloc: Global,
    known: &Known<'a>,
    links: &'a [PairItem],
) -> Result<(), TopologyFault>
    ensures { Answers TopologyFault.Memory result (first_answer (misshapen known.now) links.now) }
{
    for link in links {
        check_link(alloc, known, link)?;
    }
    Ok(())
}

/// Cables, link ports and links are such as can be.
pub(crate) fn check_shapes<'a>(
    alloc: Global,
    known: &Known<'a>,
    used: &Used<'_>,
    plan: &'a TopologyPlan,
) -> Result<(), TopologyFault>
    ensures { Answers TopologyFault.Memory result (shape_among known.now used.now plan.now) }
{
    check_cables(alloc, plan.cables.as_slice())?;
    check_ports(alloc, known, used)?;
    check_links(alloc, known, plan.links.as_slice())
}
