//! Why a connection ended.
use std::fmt::{self, Display, Formatter};

/// Why a connection ended: the first cause counts.
#[derive(Clone, Copy, PartialEq, Eq, Debug)]
pub enum Why {
    /// The peer closed it.
    Ended,
    /// The system broke it off, or the peer did.
    Reset,
    /// The peer was asked, and said nothing.
    Silent,
    /// The peer took nothing of what was sent, or not enough in time.
    Stalled,
    /// The peer came again on another connection.
    Replaced,
    /// We closed it.
    Ours,
}

impl Why {
    /// The word in a line to the operator.
    pub fn word(self) -> &'static str {
        match self {
            Why::Ended => "ended",
            Why::Reset => "reset",
            Why::Silent => "silent",
            Why::Stalled => "stalled",
            Why::Replaced => "replaced",
            Why::Ours => "ours",
        }
    }
}

impl Display for Why {
    fn fmt<W: fmt::Write>(&self, f: &mut Formatter<W>) -> fmt::Result {
        f.write_str(self.word())
    }
}
