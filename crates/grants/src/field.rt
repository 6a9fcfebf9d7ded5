//! The fields that a grant names.
ghost use Rattle.std.specs.Prelude.{◌≡◌, ◌<◌};
ghost use Rattle.grants.specs.Names.{field_at, field_bit, field_name, fields as fields_of};

use std::fmt;

/// A field of a match, by its bit in a grant's `fields`, from 0.
#[derive(Clone, Copy, PartialEq, Eq, Debug)]
pub enum Field {
    InPort,
    DlSrc,
    DlDst,
    DlVlan,
    DlVlanPcp,
    DlType,
    NwTos,
    NwProto,
    NwSrc,
    NwDst,
    TpSrc,
    TpDst,
}

/// The fields, by their bits.
pub const FIELDS: [Field; 12] = [
    Field::InPort,
    Field::DlSrc,
    Field::DlDst,
    Field::DlVlan,
    Field::DlVlanPcp,
    Field::DlType,
    Field::NwTos,
    Field::NwProto,
    Field::NwSrc,
    Field::NwDst,
    Field::TpSrc,
    Field::TpDst,
];

impl Field {
    /// The field of a bit; None above 11.
    pub fn from_bit(bit: u8) -> Option<Field>
        ensures { result ≡ field_at bit }
    {
        FIELDS.get(usize::from(bit)).copied()
    }

    /// Its bit in a grant's `fields`.
    pub fn bit(self) -> u8
        ensures bit { result ≡ field_bit self }
        ensures range { result < 12 }
    {
        self as u8
    }

    /// Its name, as in a policy file and an audit line.
    pub fn name(self) -> &'static str
        ensures { result.now ≡ field_name self }
    {
        match self {
            Field::InPort => "in_port",
            Field::DlSrc => "dl_src",
            Field::DlDst => "dl_dst",
            Field::DlVlan => "dl_vlan",
            Field::DlVlanPcp => "dl_vlan_pcp",
            Field::DlType => "dl_type",
            Field::NwTos => "nw_tos",
            Field::NwProto => "nw_proto",
            Field::NwSrc => "nw_src",
            Field::NwDst => "nw_dst",
            Field::TpSrc => "tp_src",
            Field::TpDst => "tp_dst",
        }
    }
}

impl fmt::Display for Field {
    fn fmt<W: fmt::Write>(&self, f: &mut fmt::Formatter<W>) -> fmt::Result {
        f.write_str(self.name())
    }
}
