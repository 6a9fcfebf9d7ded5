//! The types of messages, and the lengths that each may have.
ghost use Rattle.std.specs.Prelude.{◌≡◌};
ghost use Rattle.std.specs.List.{slice_get};
ghost use Rattle.of10_msgs.specs.Kinds.{kind_at, lengths_of, number_of, is_among};

/// The type of a message (`ofp_type`, section 5.1), in the order of their numbers.
#[derive(Clone, Copy, PartialEq, Eq, Debug)]
pub enum Kind {
    Hello,
    Error,
    EchoRequest,
    EchoReply,
    Vendor,
    FeaturesRequest,
    FeaturesReply,
    GetConfigRequest,
    GetConfigReply,
    SetConfig,
    PacketIn,
    FlowRemoved,
    PortStatus,
    PacketOut,
    FlowMod,
    PortMod,
    StatsRequest,
    StatsReply,
    BarrierRequest,
    BarrierReply,
    QueueGetConfigRequest,
    QueueGetConfigReply,
}

/// The types, by their numbers.
const KINDS: [Kind; 22] = [
    Kind::Hello,
    Kind::Error,
    Kind::EchoRequest,
    Kind::EchoReply,
    Kind::Vendor,
    Kind::FeaturesRequest,
    Kind::FeaturesReply,
    Kind::GetConfigRequest,
    Kind::GetConfigReply,
    Kind::SetConfig,
    Kind::PacketIn,
    Kind::FlowRemoved,
    Kind::PortStatus,
    Kind::PacketOut,
    Kind::FlowMod,
    Kind::PortMod,
    Kind::StatsRequest,
    Kind::StatsReply,
    Kind::BarrierRequest,
    Kind::BarrierReply,
    Kind::QueueGetConfigRequest,
    Kind::QueueGetConfigReply,
];

/// The lengths that messages of one type may have, in bytes with the header.
#[derive(Clone, Copy, PartialEq, Eq, Debug)]
pub enum Lengths {
    Exactly(u16),
    AtLeast(u16),
    /// So many, and 48 for each port after them.
    WithPorts(u16),
}

impl Kind {
    /// The type of a number on the wire; None above 21.
    pub fn from_number(number: u8) -> Option<Kind>
        ensures { result ≡ kind_at number }
    {
        numbered(&KINDS, number)
    }

    /// The number on the wire.
    pub fn number(self) -> u8
        ensures { result ≡ number_of self }
    {
        self as u8
    }

    /// The lengths of messages of this type.
    pub fn lengths(self) -> Lengths
        ensures { result ≡ lengths_of self }
    {
        match self {
            Kind::Hello | Kind::EchoRequest | Kind::EchoReply => Lengths::AtLeast(8),
            Kind::Error | Kind::Vendor | Kind::StatsRequest | Kind::StatsReply => {
                Lengths::AtLeast(12)
            }
            Kind::FeaturesReply => Lengths::WithPorts(32),
            Kind::FeaturesRequest
            | Kind::GetConfigRequest
            | Kind::BarrierRequest
            | Kind::BarrierReply => Lengths::Exactly(8),
            Kind::GetConfigReply | Kind::SetConfig | Kind::QueueGetConfigRequest => {
                Lengths::Exactly(12)
            }
            Kind::PacketIn => Lengths::AtLeast(18),
            Kind::FlowRemoved => Lengths::Exactly(88),
            Kind::PortStatus => Lengths::Exactly(64),
            Kind::PacketOut | Kind::QueueGetConfigReply => Lengths::AtLeast(16),
            Kind::FlowMod => Lengths::AtLeast(72),
            Kind::PortMod => Lengths::Exactly(32),
        }
    }
}

/// The type at a place of a list.
fn numbered(kinds: &[Kind], number: u8) -> Option<Kind>
    ensures { result ≡ slice_get kinds.now number }
{
    kinds.get(usize::from(number)).copied()
}

impl Lengths {
    /// Whether a length is among them.
    pub fn has(self, length: usize) -> bool
        ensures { result ≡ is_among self length }
    {
        match self {
            Lengths::Exactly(n) => length == usize::from(n),
            Lengths::AtLeast(n) => length >= usize::from(n),
            Lengths::WithPorts(n) => {
                length >= usize::from(n) && (length - usize::from(n)) % 48 == 0
            }
        }
    }
}
