//! Why a line of a script isn't done.
ghost use Rattle.std.specs.Prelude.{◌≡◌};
ghost use Rattle.replay_report.specs.Kinds.{kind_of, kind_text};

use script_text::LineFault;

/// Why a line isn't done.
#[derive(Clone, Copy, PartialEq, Eq, Debug)]
pub enum Kind {
    /// Another first word, another number of words, or a byte that isn't printable ASCII.
    Word,
    /// A name, or a place, is not of its form.
    Name,
    /// The digits are not those of so many bytes.
    Hex,
    /// A number is not of its form, or too large.
    Number,
    /// The policy has no such session, virtual switch or outside port.
    Unknown,
    /// The line is too long.
    Long,
    /// The script is too long.
    Size,
}

impl Kind {
    /// Its word in a report.
    pub fn word(self) -> &'static str
        ensures { result.now ≡ kind_text self }
    {
        match self {
            Kind::Word => "word",
            Kind::Name => "name",
            Kind::Hex => "hex",
            Kind::Number => "number",
            Kind::Unknown => "unknown",
            Kind::Long => "long",
            Kind::Size => "size",
        }
    }
}

/// The kind of a fault of a line; of want of memory none.
pub(crate) fn kind_of(fault: LineFault) -> Option<Kind>
    ensures { result ≡ kind_of fault }
{
    match fault {
        LineFault::Word => Some(Kind::Word),
        LineFault::Name => Some(Kind::Name),
        LineFault::Hex => Some(Kind::Hex),
        LineFault::Number => Some(Kind::Number),
        LineFault::Memory => None,
    }
}
