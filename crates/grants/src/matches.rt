//! What of a match is granted.
ghost use Rattle.std.specs.Prelude.{◌≡◌, find};
ghost use Rattle.grants.specs.Denials.{Answers};
ghost use Rattle.grants.specs.Names.{fields};
ghost use Rattle.grants.specs.Rows.{field_row, in_port_row, is_beyond as is_beyond_of, is_within as is_within_of};
ghost use Rattle.grants.specs.Rows.{names as names_of, region_row, within as within_of};

use crate::bits::has_bit;
use crate::check::deny_if;
use crate::denial::{Denial, Detail};
use crate::field::{FIELDS, Field};
use crate::grant::{Grant, meets_region, sees};
use of10_match::{Match, Prefix};

/// Whether a match names a field.
fn names(m: &Match, field: Field) -> bool
    ensures { result ≡ names_of m.now field }
{
    match field {
        Field::InPort => m.in_port.is_some(),
        Field::DlSrc => m.dl_src.is_some(),
        Field::DlDst => m.dl_dst.is_some(),
        Field::DlVlan => m.dl_vlan.is_some(),
        Field::DlVlanPcp => m.dl_vlan_pcp.is_some(),
        Field::DlType => m.dl_type.is_some(),
        Field::NwTos => m.nw_tos.is_some(),
        Field::NwProto => m.nw_proto.is_some(),
        Field::NwSrc => m.nw_src.is_some(),
        Field::NwDst => m.nw_dst.is_some(),
        Field::TpSrc => m.tp_src.is_some(),
        Field::TpDst => m.tp_dst.is_some(),
    }
}

/// Whether a prefix has no more bits than this.
fn is_within(most: u8, prefix: &Option<Prefix>) -> bool
    ensures { result ≡ is_within_of most prefix.now }
{
    match prefix {
        Some(prefix) => prefix.len <= most,
        None => true,
    }
}

/// Whether a field's prefix is no longer than granted.
fn within(g: &Grant, m: &Match, field: Field) -> bool
    ensures { result ≡ within_of g.now m.now field }
{
    match field {
        Field::NwSrc => is_within(g.src_max, &m.nw_src),
        Field::NwDst => is_within(g.dst_max, &m.nw_dst),
        _ => true,
    }
}

/// Whether a field is named and isn't granted, or not as a prefix so long.
fn is_beyond(g: &Grant, m: &Match, field: Field) -> bool
    ensures { result ≡ is_beyond_of g.now m.now field }
{
    names(m, field) && !(has_bit(g.fields, field.bit()) && within(g, m, field))
}

/// The first field that goes beyond the grant.
fn first_beyond(g: &Grant, m: &Match) -> Option<Field>
    ensures { result ≡ find (is_beyond_of g.now m.now) fields }
{
    FIELDS.iter().copied().find(|field| is_beyond(g, m, *field))
}

/// Each field of a match is granted.
pub fn check_fields(g: &Grant, m: &Match) -> Result<(), Denial>
    ensures { Answers (field_row g.now m.now) result }
{
    match first_beyond(g, m) {
        Some(field) => Err(Denial::of(Detail::G4 { field: field.bit() })),
        None => Ok(()),
    }
}

/// A match meets the region.
pub fn check_region(g: &Grant, m: &Match) -> Result<(), Denial>
    ensures { Answers (region_row g.now m.now) result }
{
    deny_if(!meets_region(g, m), Detail::G5)
}

/// The port that a match names is visible.
pub fn check_in_port(g: &Grant, in_port: Option<u16>) -> Result<(), Denial>
    ensures { Answers (in_port_row g.now in_port) result }
{
    match in_port {
        Some(port) => deny_if(!sees(&g.ports, port), Detail::G6 { port }),
        None => Ok(()),
    }
}
