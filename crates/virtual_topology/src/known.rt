//! The places that are there.
ghost use Rattle.std.specs.Prelude.{◌≡◌, ◌++◌, ◌<◌, ◌^◌, OnOk, IfOk, map, length};
ghost use Rattle.virtual_topology.specs.Rows.{rows as rows_of, all_switch_rows, all_virtual_rows, port_rows};
ghost use Rattle.virtual_topology.specs.Rows.{switch_rows, virtual_rows, where_is};
ghost use Rattle.virtual_topology.specs.Shown.{shown, shown_row};

use crate::maps::Rows;
use crate::plan::{PortPlace, SwitchItem, TopologyPlan, VirtualItem, VirtualPort};
use crate::uses::{Name, Role, Use};
use cv_io::Memory;
use std::alloc::Global;
use std::marker::Model;

/// A port by numbers: that of its switch in the file, from 0, and its own.
pub(crate) type Spot = (u32, u16);

/// The places that are there, in the order of the file, each with where it is.
#[derive(Drop)]
pub(crate) struct Known<'a> {
    rows: Rows<Use<'a>, Spot>,
}

impl<'a> Model for Known<'a> {
    ghost use Rattle.std.specs.Prelude.{List, map};
    ghost use Rattle.virtual_topology.specs.Rows.{Row};

    ghost Value = { List Row };

    ghost use Rattle.virtual_topology.specs.Shown.{shown_row};

    ghost view = { λ a. map shown_row a.rows };
}

/// Appends the ports of a physical switch.
fn push_switch<'a>(
    rows: &mut Vec<(Use<'a>, Spot)>,
    number: u32,
    item: &'a SwitchItem,
) -> Result<(), Memory>
    ensures { OnOk result (map shown_row rows.new.items
        ≡ map shown_row rows.old.items ++ switch_rows (number, item.now)) }
{
    for port in item.ports.as_slice() {
        let place = Use {
            role: Role::Physical,
            name: Name(&item.name),
            port: *port,
        };
        rows.push((place, (number, *port)))?;
    }
    Ok(())
}

/// Appends a port of a virtual switch of this name and number.
fn push_port<'a>(
    rows: &mut Vec<(Use<'a>, Spot)>,
    number: u32,
    name: Name<'a>,
    port: &VirtualPort,
) -> Result<(), Memory>
    ensures { OnOk result (map shown_row rows.new.items
        ≡ map shown_row rows.old.items ++ port_rows number name.entry.0.now port.now) }
{
    let spot = (number, port.port);
    let place = Use {
        role: Role::Virtual,
        name,
        port: port.port,
    };
    rows.push((place, spot))?;
    if port.at.is_none() {
        let link = Use {
            role: Role::Link,
            name,
            port: port.port,
        };
        rows.push((link, spot))?;
    }
    Ok(())
}

/// Appends the ports of a virtual switch.
fn push_virtual<'a>(
    rows: &mut Vec<(Use<'a>, Spot)>,
    number: u32,
    item: &'a VirtualItem,
) -> Result<(), Memory>
    ensures { OnOk result (map shown_row rows.new.items
        ≡ map shown_row rows.old.items ++ virtual_rows (number, item.now)) }
{
    for port in item.ports.as_slice() {
        push_port(rows, number, Name(&item.name), port)?;
    }
    Ok(())
}

/// The places of a plan.
fn rows<'a>(alloc: Global, plan: &'a TopologyPlan) -> Result<Vec<(Use<'a>, Spot)>, Memory>
    requires switches { length plan.now.switches < 2 ^ 32 }
    requires virtuals { length plan.now.virtuals < 2 ^ 32 }
    ensures { IfOk result (λ rows. map shown_row rows.items ≡ rows_of plan.now) }
{
    let mut rows = Vec::new(alloc);
    for (number, item) in plan.switches.as_slice().iter().enumerate() {
        push_switch(&mut rows, number as u32, item)?;
    }
    for (number, item) in plan.virtuals.as_slice().iter().enumerate() {
        push_virtual(&mut rows, number as u32, item)?;
    }
    Ok(rows)
}

impl<'a> Known<'a> {
    pub(crate) fn of(alloc: Global, plan: &'a TopologyPlan) -> Result<Known<'a>, Memory>
        requires switches { length plan.now.switches < 2 ^ 32 }
        requires virtuals { length plan.now.virtuals < 2 ^ 32 }
        ensures { IfOk result (λ known. known ≡ rows_of plan.now) }
    {
        Ok(Known {
            rows: Rows::of(alloc, rows(alloc, plan)?)?,
        })
    }

    /// Where a place is, if it is there.
    pub(crate) fn spot(&self, role: Role, place: &'a PortPlace) -> Option<Spot>
        ensures { result ≡ where_is self.now role place.now }
    {
        self.rows.get(Use::of(role, place))
    }

    /// Where a place that is used is, if it is there in this role.
    pub(crate) fn spot_as(&self, role: Role, place: &Use<'a>) -> Option<Spot>
        ensures { result ≡ where_is self.now role (shown place.now).place }
    {
        self.rows.get(Use { role, ..*place })
    }

    /// The places, in the order of the file.
    pub(crate) fn rows(&self) -> &[(Use<'a>, Spot)]
        ensures { map shown_row result.now ≡ self.now }
    {
        self.rows.rows()
    }
}
