//! Switches, cables and links.
ghost use Rattle.std.specs.Prelude.{◌≡◌, IfOk, codes};
ghost use Rattle.toml.specs.View.{table_view};
ghost use Rattle.policy_file.specs.Values.{dpid as dpid_of, name as name_of, expression as expression_of};
ghost use Rattle.policy_file.specs.Values.{port_place as port_place_of, ports as ports_of};
ghost use Rattle.policy_file.specs.Words.{virtual_ports as virtual_ports_of};
ghost use Rattle.policy_file.specs.Plans.{switch as switch_of, pair as pair_of, virtual_switch as virtual_switch_of};
ghost use Rattle.policy_file.specs.Plans.{plan_of, read_at, dpid_is_taken, name_is_taken, new_dpid, new_name};
ghost use Rattle.policy_file.specs.Outcomes.{found};
ghost use Rattle.policies.specs.Outcomes.{Gives};

use crate::item_reader::{ItemReader, read_items};
use crate::keys::ItemKind;
use crate::section::Section;
use crate::tables::at;
use crate::values::{dpid, expression, name, port_place, ports};
use crate::words::virtual_ports;
use cv_io::{List, Memory, Text};
use policies::PolicyFault;
use std::alloc::Global;
use toml::Table;
use virtual_topology::{PairItem, PortPlace, SwitchItem, TopologyPlan, VirtualItem, VirtualPort};

/// The datapath id of an item.
fn dpid_at(table: &Table) -> Option<u64>
    ensures { result ≡ read_at dpid_of (codes "dpid") (table_view table.now) }
{
    match at(table, "dpid") {
        Some(value) => dpid(value),
        None => None,
    }
}

/// The name of an item.
fn name_at(alloc: Global, table: &Table) -> Result<Option<Text>, Memory>
    ensures { IfOk result (λ t. t ≡ read_at name_of (codes "name") (table_view table.now)) }
{
    match at(table, "name") {
        Some(value) => name(alloc, value),
        None => Ok(None),
    }
}

/// An end of a cable or a link.
fn end_at(alloc: Global, table: &Table, key: &str) -> Result<Option<PortPlace>, Memory>
    ensures { IfOk result (λ p. p ≡ read_at port_place_of key.now (table_view table.now)) }
{
    match at(table, key) {
        Some(value) => port_place(alloc, value),
        None => Ok(None),
    }
}

fn ports_at(alloc: Global, table: &Table) -> Result<Option<List<u16>>, Memory>
    ensures { IfOk result (λ p. p ≡ read_at ports_of (codes "ports") (table_view table.now)) }
{
    match at(table, "ports") {
        Some(value) => ports(alloc, value),
        None => Ok(None),
    }
}

fn virtual_ports_at(alloc: Global, table: &Table) -> Result<Option<List<VirtualPort>>, Memory>
    ensures { IfOk result (λ p. p ≡ read_at virtual_ports_of (codes "ports") (table_view table.now)) }
{
    match at(table, "ports") {
        Some(value) => virtual_ports(alloc, value),
        None => Ok(None),
    }
}

fn expression_at(alloc: Global, table: &Table) -> Result<Option<Text>, Memory>
    ensures { IfOk result (λ t. t ≡ read_at expression_of (codes "expr") (table_view table.now)) }
{
    match at(table, "expr") {
        Some(value) => expression(alloc, value),
        None => Ok(None),
    }
}

/// Whether an earlier switch has the datapath id.
fn is_switch_dpid(earlier: &[SwitchItem], dpid: u64) -> bool
    ensures { result ≡ dpid_is_taken (λ s. s.dpid) earlier.now dpid }
{
    earlier.iter().any(|item| dpid == item.dpid)
}

fn is_switch_name(earlier: &[SwitchItem], name: &Text) -> bool
    ensures { result ≡ name_is_taken (λ s. s.name) earlier.now name.now }
{
    earlier.iter().any(|item| *name == item.name)
}

fn is_virtual_dpid(earlier: &[VirtualItem], dpid: u64) -> bool
    ensures { result ≡ dpid_is_taken (λ s. s.dpid) earlier.now dpid }
{
    earlier.iter().any(|item| dpid == item.dpid)
}

fn is_virtual_name(earlier: &[VirtualItem], name: &Text) -> bool
    ensures { result ≡ name_is_taken (λ s. s.name) earlier.now name.now }
{
    earlier.iter().any(|item| *name == item.name)
}

/// The datapath id of a switch, if no earlier one has it.
fn new_switch_dpid(table: &Table, earlier: &[SwitchItem]) -> Option<u64>
    ensures { result ≡ new_dpid (λ s. s.dpid) earlier.now (table_view table.now) }
{
    match dpid_at(table) {
        Some(dpid) if !is_switch_dpid(earlier, dpid) => Some(dpid),
        _ => None,
    }
}

fn new_virtual_dpid(table: &Table, earlier: &[VirtualItem]) -> Option<u64>
    ensures { result ≡ new_dpid (λ s. s.dpid) earlier.now (table_view table.now) }
{
    match dpid_at(table) {
        Some(dpid) if !is_virtual_dpid(earlier, dpid) => Some(dpid),
        _ => None,
    }
}

/// The name of a switch, if no earlier one has it.
fn new_switch_name(
    alloc: Global,
    table: &Table,
    earlier: &[SwitchItem],
) -> Result<Option<Text>, Memory>
    ensures { IfOk result (λ t. t ≡ new_name (λ s. s.name) earlier.now (table_view table.now)) }
{
    let Some(name) = name_at(alloc, table)? else {
        return Ok(None);
    };
    if is_switch_name(earlier, &name) {
        return Ok(None);
    }
    Ok(Some(name))
}

fn new_virtual_name(
    alloc: Global,
    table: &Table,
    earlier: &[VirtualItem],
) -> Result<Option<Text>, Memory>
    ensures { IfOk result (λ t. t ≡ new_name (λ s. s.name) earlier.now (table_view table.now)) }
{
    let Some(name) = name_at(alloc, table)? else {
        return Ok(None);
    };
    if is_virtual_name(earlier, &name) {
        return Ok(None);
    }
    Ok(Some(name))
}

/// The name that the file gives a new switch.
fn found_switch_name(
    alloc: Global,
    section: Section,
    table: &Table,
    earlier: &[SwitchItem],
) -> Result<Text, PolicyFault>
    ensures { Gives (found section (codes "name") (new_name (λ s. s.name) earlier.now (table_view table.now))) result }
{
    section.found(alloc, "name", new_switch_name(alloc, table, earlier)?)
}

/// The name that it gives a new virtual switch.
fn found_virtual_name(
    alloc: Global,
    section: Section,
    table: &Table,
    earlier: &[VirtualItem],
) -> Result<Text, PolicyFault>
    ensures { Gives (found section (codes "name") (new_name (λ s. s.name) earlier.now (table_view table.now))) result }
{
    section.found(alloc, "name", new_virtual_name(alloc, table, earlier)?)
}

/// The ports that it gives a switch.
fn found_ports(alloc: Global, section: Section, table: &Table) -> Result<List<u16>, PolicyFault>
    ensures { Gives (found section (codes "ports") (read_at ports_of (codes "ports") (table_view table.now))) result }
{
    section.found(alloc, "ports", ports_at(alloc, table)?)
}

/// And those that it gives a virtual switch.
fn found_virtual_ports(
    alloc: Global,
    section: Section,
    table: &Table,
) -> Result<List<VirtualPort>, PolicyFault>
    ensures { Gives (found section (codes "ports")
        (read_at virtual_ports_of (codes "ports") (table_view table.now))) result }
{
    section.found(alloc, "ports", virtual_ports_at(alloc, table)?)
}

/// The expression that it gives a virtual switch.
fn found_expression(alloc: Global, section: Section, table: &Table) -> Result<Text, PolicyFault>
    ensures { Gives (found section (codes "expr")
        (read_at expression_of (codes "expr") (table_view table.now))) result }
{
    section.found(alloc, "expr", expression_at(alloc, table)?)
}

/// Reads physical switches.
#[derive(Drop)]
struct SwitchReader;

impl ItemReader for SwitchReader {
    type Item = SwitchItem;

    ghost reads = { λ _. switch_of };

    fn read(
        &self,
        alloc: Global,
        section: Section,
        table: &Table,
        earlier: &[SwitchItem],
    ) -> Result<SwitchItem, PolicyFault> {
        let dpid = section.found(alloc, "dpid", new_switch_dpid(table, earlier))?;
        let name = found_switch_name(alloc, section, table, earlier)?;
        let ports = found_ports(alloc, section, table)?;
        Ok(SwitchItem { name, dpid, ports })
    }
}

/// Reads cables and links.
#[derive(Drop)]
struct PairReader;

impl ItemReader for PairReader {
    type Item = PairItem;

    ghost reads = { λ _ _. pair_of };

    fn read(
        &self,
        alloc: Global,
        section: Section,
        table: &Table,
        _earlier: &[PairItem],
    ) -> Result<PairItem, PolicyFault> {
        let a = section.found(alloc, "a", end_at(alloc, table, "a")?)?;
        let b = section.found(alloc, "b", end_at(alloc, table, "b")?)?;
        Ok(PairItem { a, b })
    }
}

/// Reads virtual switches.
#[derive(Drop)]
struct VirtualReader;

impl ItemReader for VirtualReader {
    type Item = VirtualItem;

    ghost reads = { λ _. virtual_switch_of };

    fn read(
        &self,
        alloc: Global,
        section: Section,
        table: &Table,
        earlier: &[VirtualItem],
    ) -> Result<VirtualItem, PolicyFault> {
        let dpid = section.found(alloc, "dpid", new_virtual_dpid(table, earlier))?;
        let expr = found_expression(alloc, section, table)?;
        let name = found_virtual_name(alloc, section, table, earlier)?;
        let ports = found_virtual_ports(alloc, section, table)?;
        Ok(VirtualItem {
            name,
            dpid,
            ports,
            expr,
        })
    }
}

/// The switches, cables, virtual switches and links of a file.
pub(crate) fn plan(alloc: Global, file: &Table) -> Result<TopologyPlan, PolicyFault>
    ensures { Gives (plan_of (table_view file.now)) result }
{
    let switches = read_items(alloc, &SwitchReader, file, ItemKind::Switch)?;
    let cables = read_items(alloc, &PairReader, file, ItemKind::Cable)?;
    let virtuals = read_items(alloc, &VirtualReader, file, ItemKind::Virtual)?;
    let links = read_items(alloc, &PairReader, file, ItemKind::Link)?;
    Ok(TopologyPlan {
        switches,
        cables,
        virtuals,
        links,
    })
}
