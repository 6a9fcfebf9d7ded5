//! Denials: which rule refuses a message, and its detail.
ghost use Rattle.std.specs.Prelude.{◌≡◌};
ghost use Rattle.grants.specs.Denials.{denial_of, error_of, rule_of};

use crate::field::Field;
use std::fmt;
use thiserror::Error;

/// A rule that refuses messages. `Form` is tried before the others, `Overlap` to `Budget` after them.
#[derive(Clone, Copy, PartialEq, Eq, Debug)]
pub enum Rule2 {
    Form,
    G1,
    G2,
    G3,
    G4,
    G5,
    G6,
    G7,
    G8,
    G9,
    G10,
    G11,
    Overlap,
    Entries,
    Budget,
}

/// What of a PACKET_OUT isn't granted.
#[derive(Clone, Copy, PartialEq, Eq, Debug)]
pub enum Why {
    /// Packets aren't.
    Grant,
    /// Its in_port isn't visible, or is no port where TABLE needs one.
    Port,
    /// Its header isn't in the region.
    Region,
}

/// What a rule found.
#[derive(Clone, Copy, PartialEq, Eq, Debug)]
pub enum Detail {
    /// The error of a message that isn't well formed.
    Form { kind: u16, code: u16 },
    /// The command of a FLOW_MOD is above 4.
    G1 { command: u16 },
    /// A FLOW_MOD has the flag EMERG.
    G2Emerg,
    /// The type of a message that isn't served: PORT_MOD or a message on queues.
    G2Kind { kind: u8 },
    /// A buffer is named.
    G3 { buffer: u32 },
    /// The bit of the first field of a match that isn't granted, or not as a prefix so long.
    G4 { field: u8 },
    /// A match doesn't meet the region.
    G5,
    /// The in_port of a match isn't visible.
    G6 { port: u16 },
    /// The type of the first action whose kind isn't granted.
    G7 { action: u16 },
    /// The first output to a number that isn't one of a visible port and isn't served there.
    G8 { port: u16 },
    /// The number, from 0, of the first action that ends a list and isn't the last.
    G9 { at: u32 },
    /// How many actions there are, more than 64.
    G10 { count: u32 },
    /// What of a PACKET_OUT isn't granted.
    G11 { why: Why },
    /// The least serial number of an entry that the new one overlaps.
    Overlap { with: u64 },
    /// How many entries the table may have.
    Entries { limit: u32 },
    /// How many ranks the table would have, and may have.
    Budget { ranks: u32, limit: u32 },
}

/// Why a message is refused; it is shown as in an audit line.
#[derive(Clone, Copy, PartialEq, Eq, Debug, Error)]
#[error("rule={rule} {detail}")]
pub struct Denial {
    pub rule: Rule2,
    pub detail: Detail,
}

/// The error of PORT_MOD, whose port isn't the member's to change (OFPET_PORT_MOD_FAILED, OFPPMFC_BAD_PORT).
const PORT_MOD: u8 = 15;

impl Detail {
    /// The rule that has details of this form.
    pub fn rule(&self) -> Rule2
        ensures { result ≡ rule_of self.now }
    {
        match self {
            Detail::Form { .. } => Rule2::Form,
            Detail::G1 { .. } => Rule2::G1,
            Detail::G2Emerg | Detail::G2Kind { .. } => Rule2::G2,
            Detail::G3 { .. } => Rule2::G3,
            Detail::G4 { .. } => Rule2::G4,
            Detail::G5 => Rule2::G5,
            Detail::G6 { .. } => Rule2::G6,
            Detail::G7 { .. } => Rule2::G7,
            Detail::G8 { .. } => Rule2::G8,
            Detail::G9 { .. } => Rule2::G9,
            Detail::G10 { .. } => Rule2::G10,
            Detail::G11 { .. } => Rule2::G11,
            Detail::Overlap { .. } => Rule2::Overlap,
            Detail::Entries { .. } => Rule2::Entries,
            Detail::Budget { .. } => Rule2::Budget,
        }
    }

    /// The type and the code of the ERROR that tells the member of it (section 5.4.4).
    pub fn error(&self) -> (u16, u16)
        ensures { result ≡ error_of self.now }
    {
        match *self {
            Detail::Form { kind, code } => (kind, code),
            Detail::G1 { .. } => (3, 4),
            Detail::G2Emerg => (3, 2),
            Detail::G2Kind { kind } => { if kind == PORT_MOD { (4, 0) } else { (1, 5) } }
            Detail::G3 { .. } => (1, 8),
            Detail::G4 { .. } | Detail::G5 | Detail::G6 { .. } => (3, 2),
            Detail::G7 { .. } => (2, 6),
            Detail::G8 { .. } => (2, 4),
            Detail::G9 { .. } => (3, 5),
            Detail::G10 { .. } => (2, 7),
            Detail::G11 { .. } => (1, 5),
            Detail::Overlap { .. } => (3, 1),
            Detail::Entries { .. } | Detail::Budget { .. } => (3, 0),
        }
    }
}

impl Denial {
    /// The denial of a detail.
    pub fn of(detail: Detail) -> Denial
        ensures { result ≡ denial_of detail }
    {
        Denial {
            rule: detail.rule(),
            detail,
        }
    }

    /// The type and the code of the ERROR that tells the member of it (section 5.4.4).
    pub fn error(&self) -> (u16, u16)
        ensures { result ≡ error_of self.now.detail }
    {
        self.detail.error()
    }
}

impl fmt::Display for Rule2 {
    fn fmt<W: fmt::Write>(&self, f: &mut fmt::Formatter<W>) -> fmt::Result {
        f.write_str(match self {
            Rule2::Form => "form",
            Rule2::G1 => "G1",
            Rule2::G2 => "G2",
            Rule2::G3 => "G3",
            Rule2::G4 => "G4",
            Rule2::G5 => "G5",
            Rule2::G6 => "G6",
            Rule2::G7 => "G7",
            Rule2::G8 => "G8",
            Rule2::G9 => "G9",
            Rule2::G10 => "G10",
            Rule2::G11 => "G11",
            Rule2::Overlap => "overlap",
            Rule2::Entries => "entries",
            Rule2::Budget => "budget",
        })
    }
}

impl fmt::Display for Why {
    fn fmt<W: fmt::Write>(&self, f: &mut fmt::Formatter<W>) -> fmt::Result {
        f.write_str(match self {
            Why::Grant => "grant",
            Why::Port => "port",
            Why::Region => "region",
        })
    }
}

/// The name of the field of a bit.
fn field_name(bit: u8) -> &'static str {
    match Field::from_bit(bit) {
        Some(field) => field.name(),
        None => "none",
    }
}

impl fmt::Display for Detail {
    fn fmt<W: fmt::Write>(&self, f: &mut fmt::Formatter<W>) -> fmt::Result {
        match self {
            Detail::Form { kind, code } => write!(f, "error={kind},{code}"),
            Detail::G1 { command } => write!(f, "command={command}"),
            Detail::G2Emerg => f.write_str("flag=emerg"),
            Detail::G2Kind { kind } => write!(f, "type={kind}"),
            Detail::G3 { buffer } => write!(f, "buffer={buffer}"),
            Detail::G4 { field } => write!(f, "field={}", field_name(*field)),
            Detail::G5 => f.write_str("region=out"),
            Detail::G6 { port } | Detail::G8 { port } => write!(f, "port={port}"),
            Detail::G7 { action } => write!(f, "action={action}"),
            Detail::G9 { at } => write!(f, "at={at}"),
            Detail::G10 { count } => write!(f, "count={count}"),
            Detail::G11 { why } => write!(f, "why={why}"),
            Detail::Overlap { with } => write!(f, "with={with}"),
            Detail::Entries { limit } => write!(f, "limit={limit}"),
            Detail::Budget { ranks, limit } => write!(f, "ranks={ranks} limit={limit}"),
        }
    }
}
