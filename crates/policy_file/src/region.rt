//! Regions: boxes of headers, each a table of fields and their values.
ghost use Rattle.std.specs.Prelude.{◌≡◌, ◌<◌, ◌≤◌, ◌+◌, ◌^◌, [], ◌∷◌, ◌++◌, IfOk, IfSome, length, option_map, codes};
ghost use Rattle.std.specs.List.{list_any};
ghost use Rattle.toml.specs.View.{view, table_view};
ghost use Rattle.of10_match.specs.Matching.{overlaps};
ghost use Rattle.of10_match.specs.Ranges.{IsPrefix, IsTos, IsVlan};
ghost use Rattle.policy_file.specs.Values.{number as number_of};
ghost use Rattle.policy_file.specs.Shown.{shown_value};
ghost use Rattle.policy_file.specs.Regions.{at as at_of, vlan as vlan_of, tos as tos_of, pair_at as pair_of_text};
ghost use Rattle.policy_file.specs.Regions.{half_at as half_of_text, is_ether_form as is_ether_form_of};
ghost use Rattle.policy_file.specs.Regions.{ether_text as ether_text_of, ether as ether_of};
ghost use Rattle.policy_file.specs.Regions.{next_octet as next_octet_of, ip_text as ip_text_of, prefix_if, if_there};
ghost use Rattle.policy_file.specs.Regions.{prefix_text as prefix_text_of, prefix as prefix_in};
ghost use Rattle.policy_file.specs.Regions.{link_fields as link_fields_of};
ghost use Rattle.policy_file.specs.Regions.{with_network_fields as with_network_fields_of};
ghost use Rattle.policy_file.specs.Regions.{with_transport_fields as with_transport_fields_of, may_name as may_name_of};
ghost use Rattle.policy_file.specs.Regions.{names_fields as names_fields_of, fields_named, is_normal as is_normal_of};
ghost use Rattle.policy_file.specs.Regions.{box_of as box_of_table, all_headers, region as region_of, with_box};
ghost use Rattle.policy_file.specs.Regions.{regions as regions_of};

use crate::tables::{at, list};
use crate::values::{decimal_within, digit, number, split_at_first};
use crate::words::field;
use cv_io::{List, Memory};
use grants::Field;
use of10_match::{Match, Prefix, UNTAGGED};
use std::alloc::Global;
use toml::{Table, Value};

/// A region has at most so many boxes.
const MOST_BOXES: usize = 16;

/// The byte that two hexadecimal digits at a place say.
fn pair_at(word: &[u8], place: usize) -> Option<u64>
    requires { place + 1 < length word.now }
    ensures value { result ≡ pair_of_text word.now place }
    ensures below { IfSome result (λ byte. byte < 2 ^ 8) }
{
    let high = digit(word[place])?;
    let low = digit(word[place + 1])?;
    Some(u64::from(high) * 16 + u64::from(low))
}

/// Three bytes from a place on, with one character between each two.
fn half_at(word: &[u8], place: usize) -> Option<u64>
    requires { place + 7 < length word.now }
    ensures value { result ≡ half_of_text word.now place }
    ensures below { IfSome result (λ half. half < 2 ^ 24) }
{
    let a = pair_at(word, place)?;
    let b = pair_at(word, place + 3)?;
    let c = pair_at(word, place + 6)?;
    Some((a * 256 + b) * 256 + c)
}

/// Whether it is 17 characters, of which each third is `:`.
fn is_ether_form(word: &[u8]) -> bool
    ensures { result ≡ is_ether_form_of word.now }
{
    word.len() == 17
        && word[2] == b':'
        && word[5] == b':'
        && word[8] == b':'
        && word[11] == b':'
        && word[14] == b':'
}

/// An address of Ethernet, as `00:00:00:00:00:01`.
fn ether_text(word: &[u8]) -> Option<u64>
    ensures value { result ≡ ether_text_of word.now }
    ensures below { IfSome result (λ address. address < 2 ^ 48) }
{
    if !is_ether_form(word) {
        return None;
    }
    let high = half_at(word, 0)?;
    let low = half_at(word, 9)?;
    Some(high * 0x100_0000 + low)
}

/// The value of a field of a table: Some(None) where it doesn't stand, None where it can't be so.
fn ether(value: Option<&Value>) -> Option<Option<u64>>
    ensures value { result ≡ if_there ether_of (shown_value value.entry) }
    ensures in_range { IfSome result (λ v. IfSome v (λ address. address < 2 ^ 48)) }
{
    let Some(value) = value else {
        return Some(None);
    };
    let word = value.as_str()?.as_bytes();
    Some(Some(ether_text(word)?))
}

/// A VLAN number: 0 to 4095, or 65535 for no tag.
fn vlan(value: Option<&Value>) -> Option<Option<u16>>
    ensures value { result ≡ if_there vlan_of (shown_value value.entry) }
    ensures in_range { IfSome result (λ v. IfSome v IsVlan) }
{
    let Some(value) = value else {
        return Some(None);
    };
    let vlan = number(value, 0, 65535)?;
    if vlan <= 4095 || vlan == u32::from(UNTAGGED) {
        Some(Some(vlan as u16))
    } else {
        None
    }
}

/// A type of service: the upper six bits of a byte.
fn tos(value: Option<&Value>) -> Option<Option<u8>>
    ensures value { result ≡ if_there tos_of (shown_value value.entry) }
    ensures in_range { IfSome result (λ v. IfSome v IsTos) }
{
    let Some(value) = value else {
        return Some(None);
    };
    let tos = number(value, 0, 255)?;
    if tos % 4 == 0 {
        Some(Some(tos as u8))
    } else {
        None
    }
}

fn byte(value: Option<&Value>) -> Option<Option<u8>>
    ensures { result ≡ if_there (number_of 0 255) (shown_value value.entry) }
{
    let Some(value) = value else {
        return Some(None);
    };
    Some(Some(number(value, 0, 255)? as u8))
}

fn short(value: Option<&Value>) -> Option<Option<u16>>
    ensures { result ≡ if_there (number_of 0 65535) (shown_value value.entry) }
{
    let Some(value) = value else {
        return Some(None);
    };
    Some(Some(number(value, 0, 65535)? as u16))
}

/// A number below 256, and what is after the next dot.
fn next_octet(text: &[u8]) -> Option<(u32, &[u8])>
    ensures value { option_map (λ p. (p.0, p.1.now)) result ≡ next_octet_of text.now }
    ensures below { IfSome result (λ p. p.0 < 256) }
{
    let (digits, rest) = split_at_first(text, b'.')?;
    let octet = decimal_within(digits, 0, 255)?;
    Some((octet, rest))
}

/// An address of IP, as `10.0.0.1`.
fn ip_text(text: &[u8]) -> Option<u32>
    ensures { result ≡ ip_text_of text.now }
{
    let (a, rest) = next_octet(text)?;
    let (b, rest) = next_octet(rest)?;
    let (c, rest) = next_octet(rest)?;
    let d = decimal_within(rest, 0, 255)?;
    Some(((a * 256 + b) * 256 + c) * 256 + d)
}

/// The first `len` bits of an address, if the others are zero.
fn prefix_of(addr: u32, len: u32) -> Option<Prefix>
    requires some { 0 < len }
    requires most { len ≤ 32 }
    ensures value { result ≡ prefix_if addr len }
    ensures in_range { IfSome result IsPrefix }
{
    let size: u64 = 1 << (32 - len);
    if u64::from(addr) % size == 0 {
        Some(Prefix {
            addr,
            len: len as u8,
        })
    } else {
        None
    }
}

/// A prefix of addresses, as `10.0.0.0/8`, whose further bits are zero.
fn prefix_text(text: &[u8]) -> Option<Prefix>
    ensures value { result ≡ prefix_text_of text.now }
    ensures in_range { IfSome result IsPrefix }
{
    let (address, bits) = split_at_first(text, b'/')?;
    let address = ip_text(address)?;
    let bits = decimal_within(bits, 1, 32)?;
    prefix_of(address, bits)
}

fn prefix(value: Option<&Value>) -> Option<Option<Prefix>>
    ensures value { result ≡ if_there prefix_in (shown_value value.entry) }
    ensures in_range { IfSome result (λ v. IfSome v IsPrefix) }
{
    let Some(value) = value else {
        return Some(None);
    };
    let word = value.as_str()?.as_bytes();
    Some(Some(prefix_text(word)?))
}

/// A match of the fields of Ethernet that a table names.
fn link_fields(table: &Table) -> Option<Match>
    ensures { result ≡ link_fields_of (table_view table.now) }
{
    Some(Match {
        dl_src: ether(at(table, Field::DlSrc.name()))?,
        dl_dst: ether(at(table, Field::DlDst.name()))?,
        dl_vlan: vlan(at(table, Field::DlVlan.name()))?,
        dl_type: short(at(table, Field::DlType.name()))?,
        ..Match::everything()
    })
}

/// The type of service that a table names.
fn tos_at(table: &Table) -> Option<Option<u8>>
    ensures value { result ≡ at_of tos_of (codes "nw_tos") (table_view table.now) }
    ensures in_range { IfSome result (λ v. IfSome v IsTos) }
{
    tos(at(table, Field::NwTos.name()))
}

/// The protocol that it names.
fn proto_at(table: &Table) -> Option<Option<u8>>
    ensures { result ≡ at_of (number_of 0 255) (codes "nw_proto") (table_view table.now) }
{
    byte(at(table, Field::NwProto.name()))
}

/// The senders that it names.
fn src_at(table: &Table) -> Option<Option<Prefix>>
    ensures value { result ≡ at_of prefix_in (codes "nw_src") (table_view table.now) }
    ensures in_range { IfSome result (λ v. IfSome v IsPrefix) }
{
    prefix(at(table, Field::NwSrc.name()))
}

/// And the receivers.
fn dst_at(table: &Table) -> Option<Option<Prefix>>
    ensures value { result ≡ at_of prefix_in (codes "nw_dst") (table_view table.now) }
    ensures in_range { IfSome result (λ v. IfSome v IsPrefix) }
{
    prefix(at(table, Field::NwDst.name()))
}

/// A match with the fields of IP that a table names.
fn with_network_fields(link: Match, table: &Table) -> Option<Match>
    ensures { result ≡ with_network_fields_of link (table_view table.now) }
{
    Some(Match {
        nw_tos: tos_at(table)?,
        nw_proto: proto_at(table)?,
        nw_src: src_at(table)?,
        nw_dst: dst_at(table)?,
        ..link
    })
}

/// A match with the ports of TCP or UDP, or the type and code of ICMP, that a table names.
fn with_transport_fields(network: Match, table: &Table) -> Option<Match>
    ensures { result ≡ with_transport_fields_of network (table_view table.now) }
{
    Some(Match {
        tp_src: short(at(table, Field::TpSrc.name()))?,
        tp_dst: short(at(table, Field::TpDst.name()))?,
        ..network
    })
}

/// The fields of a table.
fn named(table: &Table) -> Option<Match>
    ensures { result ≡ fields_named (table_view table.now) }
{
    let link = link_fields(table)?;
    let network = with_network_fields(link, table)?;
    with_transport_fields(network, table)
}

/// Whether a region may name a field.
fn may_name(field: Option<Field>) -> bool
    ensures { result ≡ may_name_of field }
{
    !matches!(field, None | Some(Field::InPort | Field::DlVlanPcp))
}

/// Whether a region may name each key of a table.
#[tactic(auto, using(crate::proofs::Lists::keys_in_of))]
fn names_fields(table: &Table) -> bool
    ensures { result ≡ names_fields_of (table_view table.now) }
{
    for key in table.keys() {
        if !may_name(field(key.as_bytes())) {
            return false;
        }
    }
    true
}

/// Whether each field of a match stands with the fields that it needs.
fn is_normal(named: &Match) -> bool
    ensures { result ≡ is_normal_of named.now }
{
    named.normal() == *named
}

/// A box: the fields of a table, each with the fields that it needs.
fn box_of(table: &Table) -> Option<Match>
    ensures { result ≡ box_of_table (table_view table.now) }
{
    if !names_fields(table) {
        return None;
    }
    let named = named(table)?;
    if is_normal(&named) { Some(named) } else { None }
}

/// The one box that holds everything.
pub(crate) fn everything(alloc: Global) -> Result<List<Match>, Memory>
    ensures { IfOk result (λ boxes. boxes ≡ all_headers) }
{
    List::from_slice(alloc, &[Match::everything()])
}

/// A region of one box.
pub(crate) fn region(alloc: Global, value: &Value) -> Result<Option<List<Match>>, Memory>
    ensures { IfOk result (λ boxes. boxes ≡ region_of (view value.now)) }
{
    match value.as_table() {
        Some(table) => match box_of(table) {
            Some(region) => Ok(Some(List::from_slice(alloc, &[region])?)),
            None => Ok(None),
        },
        None => Ok(None),
    }
}

/// Whether a box overlaps one of these.
fn overlaps_any(boxes: &[Match], next: &Match) -> bool
    ensures { result ≡ list_any (λ other. overlaps other next.now) boxes.now }
{
    boxes.iter().any(|other| other.overlaps(next))
}

/// A box of a list, if it overlaps none of the earlier ones.
fn next_box(earlier: &[Match], value: &Value) -> Option<Match>
    ensures { option_map (λ m. earlier.now ++ m ∷ []) result ≡ with_box earlier.now (view value.now) }
{
    let next = box_of(value.as_table()?)?;
    if overlaps_any(earlier, &next) {
        None
    } else {
        Some(next)
    }
}

/// A region of 1 to 16 boxes, no two of which overlap.
pub(crate) fn regions(alloc: Global, value: &Value) -> Result<Option<List<Match>>, Memory>
    ensures { IfOk result (λ boxes. boxes ≡ regions_of (view value.now)) }
{
    let Some(items) = list(value) else {
        return Ok(None);
    };
    if items.is_empty() || items.len() > MOST_BOXES {
        return Ok(None);
    }
    let mut boxes = List::new(alloc);
    for item in items {
        match next_box(boxes.as_slice(), item) {
            Some(next) => boxes.push(next)?,
            None => return Ok(None),
        }
    }
    Ok(Some(boxes))
}
