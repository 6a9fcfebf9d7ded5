//! The kinds of action that a grant names.
ghost use Rattle.std.specs.Prelude.{◌≡◌, ◌<◌};
ghost use Rattle.grants.specs.Names.{kind_at, kind_bit, kind_name};

use std::fmt;

/// A kind of action, by its bit in a grant's `actions`, from 0.
#[derive(Clone, Copy, PartialEq, Eq, Debug)]
pub enum Kind {
    /// To an outside port, IN_PORT, FLOOD, ALL, and TABLE in a PACKET_OUT.
    Output,
    /// To the member itself.
    Controller,
    /// To the right operand of `>>`.
    Pass,
    /// To a link port.
    Link,
    SetDlSrc,
    SetDlDst,
    SetNwSrc,
    SetNwDst,
    SetNwTos,
    SetTpSrc,
    SetTpDst,
}

/// The kinds, by their bits.
pub const KINDS: [Kind; 11] = [
    Kind::Output,
    Kind::Controller,
    Kind::Pass,
    Kind::Link,
    Kind::SetDlSrc,
    Kind::SetDlDst,
    Kind::SetNwSrc,
    Kind::SetNwDst,
    Kind::SetNwTos,
    Kind::SetTpSrc,
    Kind::SetTpDst,
];

impl Kind {
    /// The kind of a bit; None above 10.
    pub fn from_bit(bit: u8) -> Option<Kind>
        ensures { result ≡ kind_at bit }
    {
        KINDS.get(usize::from(bit)).copied()
    }

    /// Its bit in a grant's `actions`.
    pub fn bit(self) -> u8
        ensures bit { result ≡ kind_bit self }
        ensures range { result < 11 }
    {
        self as u8
    }

    /// Its name, as in a policy file.
    pub fn name(self) -> &'static str
        ensures { result.now ≡ kind_name self }
    {
        match self {
            Kind::Output => "output",
            Kind::Controller => "controller",
            Kind::Pass => "pass",
            Kind::Link => "link",
            Kind::SetDlSrc => "set_dl_src",
            Kind::SetDlDst => "set_dl_dst",
            Kind::SetNwSrc => "set_nw_src",
            Kind::SetNwDst => "set_nw_dst",
            Kind::SetNwTos => "set_nw_tos",
            Kind::SetTpSrc => "set_tp_src",
            Kind::SetTpDst => "set_tp_dst",
        }
    }
}

impl fmt::Display for Kind {
    fn fmt<W: fmt::Write>(&self, f: &mut fmt::Formatter<W>) -> fmt::Result {
        f.write_str(self.name())
    }
}
