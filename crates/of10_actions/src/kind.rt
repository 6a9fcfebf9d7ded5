//! The types of actions on the wire.
ghost use Rattle.std.specs.Prelude.{◌≡◌};
ghost use Rattle.of10_actions.specs.Kinds.{kind_of, length_of, number_of};

/// The type of the actions of vendors (OFPAT_VENDOR).
pub const VENDOR: u16 = 0xffff;

/// The type of an action (`ofp_action_type`, section 5.2.4).
#[derive(Clone, Copy, PartialEq, Eq, Debug)]
pub enum Kind {
    Output,
    SetVlanVid,
    SetVlanPcp,
    StripVlan,
    SetDlSrc,
    SetDlDst,
    SetNwSrc,
    SetNwDst,
    SetNwTos,
    SetTpSrc,
    SetTpDst,
    Enqueue,
}

/// The types, by their numbers.
const KINDS: [Kind; 12] = [
    Kind::Output,
    Kind::SetVlanVid,
    Kind::SetVlanPcp,
    Kind::StripVlan,
    Kind::SetDlSrc,
    Kind::SetDlDst,
    Kind::SetNwSrc,
    Kind::SetNwDst,
    Kind::SetNwTos,
    Kind::SetTpSrc,
    Kind::SetTpDst,
    Kind::Enqueue,
];

impl Kind {
    /// The type of a number on the wire; None above 11.
    pub fn from_number(number: u16) -> Option<Kind>
        ensures { result ≡ kind_of number }
    {
        KINDS.get(usize::from(number)).copied()
    }

    /// The number on the wire.
    pub fn number(self) -> u16
        ensures { result ≡ number_of self }
    {
        self as u16
    }

    /// How many bytes an action of this type has, its type and length included.
    pub fn length(self) -> u16
        ensures { result ≡ length_of self }
    {
        match self {
            Kind::SetDlSrc | Kind::SetDlDst | Kind::Enqueue => 16,
            _ => 8,
        }
    }
}
