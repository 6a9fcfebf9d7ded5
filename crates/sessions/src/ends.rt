//! How an opening and the loops end.
use cv_io::Memory;
use thiserror::Error;

/// A switch that was opened: its number among the known ones, and whether it matches ARP addresses.
#[derive(Clone, Copy, PartialEq, Eq, Debug)]
pub struct Greeted {
    pub switch: u32,
    pub arp: bool,
}

/// Why a connection was not opened.
#[derive(Clone, Copy, PartialEq, Eq, Debug, Error)]
pub enum OpenEnd {
    #[error("the connection ended")]
    Ended,
    /// A header gives a length that is less than its own.
    #[error("a header gives the length {length}, which is below 8")]
    Short { length: u16 },
    #[error("the first frame is no HELLO")]
    NoHello,
    #[error("no FEATURES_REPLY came among 64 frames")]
    NoFeatures,
    #[error("no switch has the datapath id {dpid}")]
    Unknown { dpid: u64 },
    #[error("the source failed")]
    ReadFault,
    #[error("the sink failed")]
    WriteFault,
    #[error("out of memory")]
    Memory,
}

impl From<Memory> for OpenEnd {
    ghost use Rattle.std.specs.Prelude.{◌≡◌};
    ghost use Rattle.sessions.specs.declared.ends.OpenEnd.TheVariants as ends;

    ghost from_gives = { λ _ end. end ≡ ends.Memory };

    fn from(_wanted: Memory) -> OpenEnd {
        OpenEnd::Memory
    }
}

/// How a reader ended.
#[derive(Clone, Copy, PartialEq, Eq, Debug)]
pub enum ReadEnd {
    Ended,
    /// A header gives a length that is less than its own.
    Short { length: u16 },
    ReadFault,
    /// The session had ended, after so many entries at the latest.
    Closed { at: u64 },
}

/// How a writer ended.
#[derive(Clone, Copy, PartialEq, Eq, Debug)]
pub enum WriteEnd {
    WriteFault,
    /// The session had ended, after so many entries at the latest.
    Closed { at: u64 },
}
