//! Lists of words: fields, kinds of action, ports of a virtual switch.
ghost use Rattle.std.specs.Prelude.{◌≡◌, ◌<◌, IfOk, map, option_map};
ghost use Rattle.toml.specs.View.{view};
ghost use Rattle.toml.specs.Data.{same_key};
ghost use Rattle.policy_file.specs.Values.{are_distinct as are_distinct_by, each_of, virtual_port as virtual_port_of};
ghost use Rattle.policy_file.specs.Words.{virtual_ports as virtual_ports_of, with_bit as with_bit_of, kind as kind_of};
ghost use Rattle.policy_file.specs.Words.{actions as actions_of, field as field_of};
ghost use Rattle.policy_file.specs.Words.{field_and_bits as field_and_bits_of, fields as fields_of, words as words_of};
ghost use Rattle.policy_file.specs.Words.{nothing, with_field, with_kind as with_kind_of, with_named as with_named_of};

use crate::tables::list;
use crate::values::{are_distinct, are_same, decimal_within, split_at_first, virtual_port};
use cv_io::{List, Memory};
use grants::field::FIELDS;
use grants::kind::KINDS;
use grants::{Field, Kind};
use std::alloc::Global;
use toml::Value;
use virtual_topology::VirtualPort;

/// The texts of a list.
pub(crate) fn words(alloc: Global, value: &Value) -> Result<Option<Vec<&str>>, Memory>
    ensures { IfOk result (λ ws. option_map (λ v. map (λ w. w.now) v.items) ws ≡ words_of (view value.now)) }
{
    let Some(items) = list(value) else {
        return Ok(None);
    };
    let mut words = Vec::new(alloc);
    for item in items {
        match item.as_str() {
            Some(word) => words.push(word)?,
            None => return Ok(None),
        }
    }
    Ok(Some(words))
}

/// The ports of a virtual switch that texts write.
fn each_virtual_port(alloc: Global, words: &[&str]) -> Result<Option<List<VirtualPort>>, Memory>
    ensures { IfOk result (λ ports. ports ≡ each_of virtual_port_of (map (λ w. w.now) words.now)) }
{
    let mut ports = List::new(alloc);
    for word in words {
        match virtual_port(alloc, word.as_bytes())? {
            Some(port) => ports.push(port)?,
            None => return Ok(None),
        }
    }
    Ok(Some(ports))
}

/// Whether no two texts are equal.
fn are_distinct_texts(alloc: Global, words: &[&str]) -> Result<bool, Memory>
    ensures { IfOk result (λ distinct. distinct ≡ are_distinct_by same_key (map (λ w. w.now) words.now)) }
{
    are_distinct(alloc, words)
}

/// The ports of a virtual switch, each text once.
pub(crate) fn virtual_ports(
    alloc: Global,
    value: &Value,
) -> Result<Option<List<VirtualPort>>, Memory>
    ensures { IfOk result (λ ports. ports ≡ virtual_ports_of (view value.now)) }
{
    let Some(words) = words(alloc, value)? else {
        return Ok(None);
    };
    let Some(ports) = each_virtual_port(alloc, words.as_slice())? else {
        return Ok(None);
    };
    if are_distinct_texts(alloc, words.as_slice())? {
        Ok(Some(ports))
    } else {
        Ok(None)
    }
}

/// A set of bits with one more, if it isn't there.
fn with_bit(mask: u32, bit: u8) -> Option<u32>
    requires { bit < 32 }
    ensures { result ≡ with_bit_of mask bit }
{
    if (mask >> bit) & 1 == 1 {
        None
    } else {
        Some(mask | 1 << bit)
    }
}

/// The kind of action of this name.
fn kind(word: &[u8]) -> Option<Kind>
    ensures { result ≡ kind_of word.now }
{
    KINDS
        .iter()
        .copied()
        .find(|kind| are_same(kind.name().as_bytes(), word))
}

/// A set of kinds of action with the one that a value names, if it isn't there.
fn with_kind(mask: u32, value: &Value) -> Option<u32>
    ensures { result ≡ with_kind_of mask (view value.now) }
{
    let kind = kind(value.as_str()?.as_bytes())?;
    with_bit(mask, kind.bit())
}

/// The kinds of action of a list, each once, as a grant has them.
pub(crate) fn actions(value: &Value) -> Option<u32>
    ensures { result ≡ actions_of (view value.now) }
{
    let Some(items) = list(value) else {
        return None;
    };
    let mut mask = 0;
    for item in items {
        mask = with_kind(mask, item)?;
    }
    Some(mask)
}

/// The fields that matches may name, and the longest prefixes of addresses.
#[derive(Clone, Copy, PartialEq, Eq, Debug)]
pub(crate) struct Nameable {
    pub(crate) fields: u32,
    pub(crate) src_max: u8,
    pub(crate) dst_max: u8,
}

impl Nameable {
    /// No field.
    pub(crate) fn nothing() -> Nameable
        ensures { result ≡ nothing }
    {
        Nameable {
            fields: 0,
            src_max: 32,
            dst_max: 32,
        }
    }

    /// With one more field, named with a prefix of so many bits at most, if it isn't there.
    fn with(self, field: Field, longest: u8) -> Option<Nameable>
        ensures { result ≡ with_field self (field, longest) }
    {
        let fields = with_bit(self.fields, field.bit())?;
        Some(match field {
            Field::NwSrc => Nameable {
                fields,
                src_max: longest,
                ..self
            },
            Field::NwDst => Nameable {
                fields,
                dst_max: longest,
                ..self
            },
            _ => Nameable { fields, ..self },
        })
    }
}

/// The field of this name.
pub(crate) fn field(word: &[u8]) -> Option<Field>
    ensures { result ≡ field_of word.now }
{
    FIELDS
        .iter()
        .copied()
        .find(|field| are_same(field.name().as_bytes(), word))
}

/// A field, and the most bits of it that may be named: `nw_src/24` is at most 24.
fn field_and_bits(word: &[u8]) -> Option<(Field, u8)>
    ensures { result ≡ field_and_bits_of word.now }
{
    let Some((name, digits)) = split_at_first(word, b'/') else {
        return Some((field(word)?, 32));
    };
    match field(name)? {
        field @ (Field::NwSrc | Field::NwDst) => {
            Some((field, decimal_within(digits, 1, 32)? as u8))
        }
        _ => None,
    }
}

/// The fields that may be named, with the one that a value names, if it isn't there.
fn with_named(nameable: Nameable, value: &Value) -> Option<Nameable>
    ensures { result ≡ with_named_of nameable (view value.now) }
{
    let (field, longest) = field_and_bits(value.as_str()?.as_bytes())?;
    nameable.with(field, longest)
}

/// The fields of a list, each once.
pub(crate) fn fields(value: &Value) -> Option<Nameable>
    ensures { result ≡ fields_of (view value.now) }
{
    let Some(items) = list(value) else {
        return None;
    };
    let mut nameable = Nameable::nothing();
    for item in items {
        nameable = with_named(nameable, item)?;
    }
    Some(nameable)
}
