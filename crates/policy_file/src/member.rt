//! Members.
ghost use Rattle.std.specs.Prelude.{◌≡◌, ◌<◌, IfOk, IfSome, codes, length, option_and_then, option_map, position};
ghost use Rattle.std.specs.Prelude.{slice_get};
ghost use Rattle.std.specs.List.{list_all, list_any};
ghost use Rattle.virtual_topology.specs.Places.{same_name};
ghost use Rattle.toml.specs.Data.{get_member, as_bool, as_str};
ghost use Rattle.toml.specs.View.{table_view};
ghost use Rattle.policy_file.specs.Values.{address as address_of, name as name_of, number as number_of};
ghost use Rattle.policy_file.specs.Words.{actions as actions_of, fields as fields_of, nothing};
ghost use Rattle.policy_file.specs.Regions.{all_headers};
ghost use Rattle.policy_file.specs.Heads.{or_absent};
ghost use Rattle.policy_file.specs.Plans.{read_at};
ghost use Rattle.policies.specs.Views.{has_port as has_port_of, view_of};
ghost use Rattle.policy_file.specs.Members.{virtual_at as virtual_at_of, is_used as is_used_of};
ghost use Rattle.policies.specs.Sound.{is_at as is_at_of};
ghost use Rattle.policy_file.specs.Members.{new_controller as new_controller_of, are_there as are_there_of};
ghost use Rattle.policy_file.specs.Members.{ports_at as ports_at_of, region_key as region_key_of, region_in};
ghost use Rattle.policy_file.specs.Members.{place as place_of, rights as rights_of, member_with, member as member_of};
ghost use Rattle.policy_file.specs.Members.{number_of as number_of_section, next_member as next_member_of};
ghost use Rattle.policy_file.specs.Members.{members_of as members_in};
ghost use Rattle.policy_file.specs.Outcomes.{found};
ghost use Rattle.policies.specs.Outcomes.{Gives};

use crate::head::{address_or, number_or};
use crate::item_reader::{ItemReader, read_items};
use crate::keys::{ItemKind, Version};
use crate::region::{everything, region, regions};
use crate::section::Section;
use crate::tables::at;
use crate::values::{name, number as number_in, ports};
use crate::words::{Nameable, actions, fields};
use cv_io::{Duplicate, List, Memory, Text};
use grants::Grant;
use of10_actions::PortView;
use of10_match::Match;
use policies::{MemberItem, PolicyFault, has_port, number, view};
use std::alloc::Global;
use toml::Table;
use virtual_topology::VirtualItem;

/// A policy has at most so many members.
const MOST_MEMBERS: usize = 32;

/// Where the proxy connects to a member, if the file doesn't say.
const ADDRESS: &str = "127.0.0.1:6634";

/// The number of the virtual switch that a member names, if it is there.
fn virtual_at(table: &Table, virtuals: &[VirtualItem]) -> Option<usize>
    ensures place { result ≡ virtual_at_of virtuals.now (table_view table.now) }
    ensures within { IfSome result (λ v. v < length virtuals.now) }
{
    let name = virtual_name(table)?;
    place_of_virtual(virtuals, name)
}

/// The number of the virtual switch of this name.
fn place_of_virtual(virtuals: &[VirtualItem], name: &[u8]) -> Option<usize>
    ensures place { result ≡ position (λ v. same_name v.name name.now) virtuals.now }
    ensures within { IfSome result (λ v. v < length virtuals.now) }
{
    virtuals
        .iter()
        .position(|item| item.name.as_bytes() == name)
}

/// The name of the virtual switch of a member, as the file has it.
fn virtual_name(table: &Table) -> Option<&[u8]>
    ensures { option_map (λ name. name.now) result ≡ read_at as_str (codes "virtual") (table_view table.now) }
{
    Some(at(table, "virtual")?.as_str()?.as_bytes())
}

/// Whether a member has this controller at a virtual switch of this name.
fn is_at(member: &MemberItem, controller: &Text, vsw: &[u8]) -> bool
    ensures { result ≡ is_at_of controller.now vsw.now member.now }
{
    *controller == member.controller && vsw == member.vsw.as_bytes()
}

/// Whether one of some members has this controller at a virtual switch of this name.
fn is_among(members: &[MemberItem], controller: &Text, vsw: &[u8]) -> bool
    ensures { result ≡ list_any (is_at_of controller.now vsw.now) members.now }
{
    members.iter().any(|item| is_at(item, controller, vsw))
}

/// Whether an earlier member has this controller at the virtual switch that the table names.
fn is_used(table: &Table, earlier: &[MemberItem], controller: &Text) -> bool
    ensures { result ≡ is_used_of earlier.now controller.now (read_at as_str (codes "virtual") (table_view table.now)) }
{
    match virtual_name(table) {
        Some(vsw) => is_among(earlier, controller, vsw),
        None => false,
    }
}

fn controller_at(alloc: Global, table: &Table) -> Result<Option<Text>, Memory>
    ensures { IfOk result (λ c. c ≡ read_at name_of (codes "controller") (table_view table.now)) }
{
    match at(table, "controller") {
        Some(value) => name(alloc, value),
        None => Ok(None),
    }
}

/// The name of a controller that no earlier member has at the virtual switch.
fn new_controller(
    alloc: Global,
    table: &Table,
    earlier: &[MemberItem],
) -> Result<Option<Text>, Memory>
    ensures { IfOk result (λ c. c ≡ new_controller_of earlier.now (table_view table.now)) }
{
    let Some(controller) = controller_at(alloc, table)? else {
        return Ok(None);
    };
    if is_used(table, earlier, &controller) {
        return Ok(None);
    }
    Ok(Some(controller))
}

/// The kinds of action of a member, none if it doesn't say.
fn actions_at(table: &Table) -> Option<u32>
    ensures { result ≡ or_absent 0 actions_of (get_member (codes "actions") (table_view table.now)) }
{
    match at(table, "actions") {
        Some(value) => actions(value),
        None => Some(0),
    }
}

/// The fields of a member, none if it doesn't say.
fn fields_at(table: &Table) -> Option<Nameable>
    ensures { result ≡ or_absent nothing fields_of (get_member (codes "match") (table_view table.now)) }
{
    match at(table, "match") {
        Some(value) => fields(value),
        None => Some(Nameable::nothing()),
    }
}

fn flag_or(table: &Table, key: &str, absent: bool) -> Option<bool>
    ensures { result ≡ or_absent absent as_bool (get_member key.now (table_view table.now)) }
{
    match at(table, key) {
        Some(value) => value.as_bool(),
        None => Some(absent),
    }
}

fn bits_at(table: &Table) -> Option<u32>
    ensures { result ≡ read_at (number_of 2 15) (codes "bits") (table_view table.now) }
{
    match at(table, "bits") {
        Some(value) => number_in(value, 2, 15),
        None => None,
    }
}

/// Whether a virtual switch has each of these ports.
fn has_ports(item: &VirtualItem, ports: &[u16]) -> bool
    ensures { result ≡ list_all (has_port_of item.now) ports.now }
{
    ports.iter().all(|port| has_port(item, *port))
}

/// Whether a virtual switch of this number, if there is one, has each of these ports.
fn are_there(virtuals: &[VirtualItem], v: Option<usize>, ports: &[u16]) -> bool
    ensures { result ≡ are_there_of (option_and_then (slice_get virtuals.now) v) ports.now }
{
    let Some(v) = v else {
        return true;
    };
    match virtuals.get(v) {
        Some(item) => has_ports(item, ports),
        None => true,
    }
}

/// The ports that a member names: Some(None) if it names none, and so all.
fn ports_at(
    alloc: Global,
    table: &Table,
    virtuals: &[VirtualItem],
) -> Result<Option<Option<List<u16>>>, Memory>
    ensures { IfOk result (λ listed. listed ≡ ports_at_of virtuals.now (table_view table.now)) }
{
    let Some(value) = at(table, "ports") else {
        return Ok(Some(None));
    };
    let v = virtual_at(table, virtuals);
    let Some(ports) = ports(alloc, value)? else {
        return Ok(None);
    };
    if !are_there(virtuals, v, ports.as_slice()) {
        return Ok(None);
    }
    Ok(Some(Some(ports)))
}

/// The key of a region.
fn region_key(version: Version) -> &'static str
    ensures { result.now ≡ region_key_of version }
{
    match version {
        Version::One => "region",
        Version::Two => "regions",
    }
}

/// The region of a member, everything if it doesn't say.
fn region_at(alloc: Global, table: &Table, version: Version) -> Result<Option<List<Match>>, Memory>
    ensures { IfOk result (λ boxes. boxes ≡ or_absent all_headers (region_in version)
        (get_member (region_key_of version) (table_view table.now))) }
{
    match (at(table, region_key(version)), version) {
        (Some(value), Version::One) => region(alloc, value),
        (Some(value), Version::Two) => regions(alloc, value),
        (None, _) => Ok(Some(everything(alloc)?)),
    }
}

/// The number of an item.
fn number_of(section: Section) -> usize
    ensures { result ≡ number_of_section section }
{
    match section {
        Section::Top => 0,
        Section::Item { number, .. } => number,
    }
}

/// What the keys of a member say, each looked at in the order of their bytes, up to `entries`.
#[derive(Drop)]
struct Place {
    actions: u32,
    address: Text,
    bits: u32,
    controller: Text,
    entries: u32,
}

/// And those after `entries`, but for the virtual switch.
#[derive(Drop)]
struct Rights {
    nameable: Nameable,
    misses: bool,
    packet_out: bool,
    listed: Option<List<u16>>,
    regions: List<Match>,
}

/// The address that the file gives a member.
fn found_address(alloc: Global, section: Section, table: &Table) -> Result<Text, PolicyFault>
    ensures { Gives (found section (codes "address")
        (or_absent (codes "127.0.0.1:6634") address_of (get_member (codes "address") (table_view table.now)))) result }
{
    section.found(
        alloc,
        "address",
        address_or(alloc, table, "address", ADDRESS)?,
    )
}

/// The controller that it gives a new member.
fn found_controller(
    alloc: Global,
    section: Section,
    table: &Table,
    earlier: &[MemberItem],
) -> Result<Text, PolicyFault>
    ensures { Gives (found section (codes "controller") (new_controller_of earlier.now (table_view table.now))) result }
{
    section.found(alloc, "controller", new_controller(alloc, table, earlier)?)
}

/// The ports that it gives a member.
fn found_ports(
    alloc: Global,
    section: Section,
    table: &Table,
    virtuals: &[VirtualItem],
) -> Result<Option<List<u16>>, PolicyFault>
    ensures { Gives (found section (codes "ports") (ports_at_of virtuals.now (table_view table.now))) result }
{
    section.found(alloc, "ports", ports_at(alloc, table, virtuals)?)
}

/// The region that it gives a member.
fn found_region(
    alloc: Global,
    section: Section,
    table: &Table,
    version: Version,
) -> Result<List<Match>, PolicyFault>
    ensures { Gives (found section (region_key_of version) (or_absent all_headers (region_in version)
        (get_member (region_key_of version) (table_view table.now)))) result }
{
    section.found(
        alloc,
        region_key(version),
        region_at(alloc, table, version)?,
    )
}

fn read_place(
    alloc: Global,
    section: Section,
    table: &Table,
    earlier: &[MemberItem],
) -> Result<Place, PolicyFault>
    ensures { Gives (place_of earlier.now section (table_view table.now)) result }
{
    let actions = section.found(alloc, "actions", actions_at(table))?;
    let address = found_address(alloc, section, table)?;
    let bits = section.found(alloc, "bits", bits_at(table))?;
    let controller = found_controller(alloc, section, table, earlier)?;
    let entries = number_or(table, "entries", 1, 4_096, 1_024);
    let entries = section.found(alloc, "entries", entries)?;
    Ok(Place {
        actions,
        address,
        bits,
        controller,
        entries,
    })
}

fn read_rights(
    alloc: Global,
    section: Section,
    table: &Table,
    version: Version,
    virtuals: &[VirtualItem],
) -> Result<Rights, PolicyFault>
    ensures { Gives (rights_of version virtuals.now section (table_view table.now)) result }
{
    let nameable = section.found(alloc, "match", fields_at(table))?;
    let misses = section.found(alloc, "misses", flag_or(table, "misses", true))?;
    let packet_out = section.found(alloc, "packet_out", flag_or(table, "packet_out", false))?;
    let listed = found_ports(alloc, section, table, virtuals)?;
    let regions = found_region(alloc, section, table, version)?;
    Ok(Rights {
        nameable,
        misses,
        packet_out,
        listed,
        regions,
    })
}

/// What a member sees of a virtual switch, and the name of that.
fn seen(
    alloc: Global,
    v: u32,
    item: &VirtualItem,
    listed: &Option<List<u16>>,
) -> Result<(PortView, Text), Memory>
    ensures { IfOk result (λ seen. (seen.0 ≡ view_of v item.now listed.now) × (seen.1 ≡ item.now.name)) }
{
    let ports = view(alloc, v, item, listed)?;
    Ok((ports, item.name.copy()?))
}

/// The member at a virtual switch of this number.
fn member_at(
    alloc: Global,
    v: u32,
    item: &VirtualItem,
    place: Place,
    rights: Rights,
) -> Result<MemberItem, Memory>
    ensures { IfOk result (λ member. member ≡ member_with v item.now place rights) }
{
    let (ports, vsw) = seen(alloc, v, item, &rights.listed)?;
    let Place {
        actions,
        address,
        bits,
        controller,
        entries,
    } = place;
    let Rights {
        nameable,
        misses,
        packet_out,
        regions,
        ..
    } = rights;
    Ok(MemberItem {
        controller,
        vsw,
        grant: Grant {
            fields: nameable.fields,
            src_max: nameable.src_max,
            dst_max: nameable.dst_max,
            actions,
            ports,
            regions,
            misses,
            packet_out,
        },
        bits,
        entries,
        address,
    })
}

/// A member; its keys are looked at in the order of their bytes.
fn member(
    alloc: Global,
    section: Section,
    table: &Table,
    version: Version,
    virtuals: &[VirtualItem],
    earlier: &[MemberItem],
) -> Result<MemberItem, PolicyFault>
    ensures { Gives (member_of version virtuals.now earlier.now section (table_view table.now)) result }
{
    let place = read_place(alloc, section, table, earlier)?;
    let rights = read_rights(alloc, section, table, version, virtuals)?;
    let v = section.found(alloc, "virtual", virtual_at(table, virtuals))?;
    Ok(member_at(alloc, number(v)?, &virtuals[v], place, rights)?)
}

/// Reads members at the virtual switches of a file.
#[derive(Drop)]
struct MemberReader<'a> {
    version: Version,
    virtuals: &'a [VirtualItem],
}

impl ItemReader for MemberReader<'_> {
    type Item = MemberItem;

    ghost reads = { λ r. next_member_of r.version r.virtuals.now };

    fn read(
        &self,
        alloc: Global,
        section: Section,
        table: &Table,
        earlier: &[MemberItem],
    ) -> Result<MemberItem, PolicyFault> {
        if number_of(section) >= MOST_MEMBERS {
            return Err(section.surplus(alloc));
        }
        member(alloc, section, table, self.version, self.virtuals, earlier)
    }
}

/// The members of a file.
pub(crate) fn members(
    alloc: Global,
    file: &Table,
    version: Version,
    virtuals: &[VirtualItem],
) -> Result<List<MemberItem>, PolicyFault>
    ensures { Gives (members_in version virtuals.now (table_view file.now)) result }
{
    let reader = MemberReader { version, virtuals };
    read_items(alloc, &reader, file, ItemKind::Member)
}
