//! Tries of a connection that come to nothing.
use cv_io::Memory;
use sessions::OpenEnd;
use std::alloc::AllocError;
use std::fmt::{self, Display, Formatter};
use std::io;

/// Why a try came to nothing.
#[derive(Drop, Debug)]
pub(crate) enum TryFault {
    /// The address can't be one.
    Address,
    /// The system said so.
    System { fault: io::Error },
    /// The peer didn't greet in time.
    Late,
    /// It sent more than a greeting may take.
    Long,
    /// It didn't greet as it has to.
    Refused { end: OpenEnd },
    /// It was the oldest of the host that had most connections which had not said who they are, when one more came.
    Crowd,
    /// The switch of this datapath id has another connection, which is up.
    Up { dpid: u64 },
    /// The same switch came once more.
    Overtaken,
    /// Nobody lets switches in any more.
    Deserted,
    /// Memory was wanted.
    Memory,
}

impl TryFault {
    /// The word for it.
    pub(crate) fn word(&self) -> &'static str {
        match self {
            TryFault::Address => "address",
            TryFault::System { .. } => "system",
            TryFault::Late => "handshake",
            TryFault::Long => "size",
            TryFault::Crowd => "crowd",
            TryFault::Up { .. } => "up",
            TryFault::Overtaken => "overtaken",
            TryFault::Deserted => "deserted",
            TryFault::Memory => "memory",
            TryFault::Refused { end } => match end {
                OpenEnd::NoHello => "hello",
                OpenEnd::NoFeatures => "features",
                OpenEnd::Short { .. } => "short",
                OpenEnd::Unknown { .. } => "unknown",
                OpenEnd::Memory => "memory",
                _ => "ended",
            },
        }
    }
}

impl From<AllocError> for TryFault {
    fn from(_wanted: AllocError) -> TryFault {
        TryFault::Memory
    }
}

impl From<io::Error> for TryFault {
    fn from(fault: io::Error) -> TryFault {
        TryFault::System { fault }
    }
}

impl From<Memory> for TryFault {
    fn from(_wanted: Memory) -> TryFault {
        TryFault::Memory
    }
}

impl Display for TryFault {
    fn fmt<W: fmt::Write>(&self, f: &mut Formatter<W>) -> fmt::Result {
        match self {
            TryFault::System { fault } => write!(f, "{fault}"),
            TryFault::Up { dpid }
            | TryFault::Refused {
                end: OpenEnd::Unknown { dpid },
            } => write!(f, "{} dpid={dpid:#018x}", self.word()),
            _ => f.write_str(self.word()),
        }
    }
}
