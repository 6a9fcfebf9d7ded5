//! What a switch makes of a packet, and where packets get to.
use crate::wiring::SwitchPort;
use cv_io::List;
use of10_match::Header;

/// A packet that a switch sends out.
#[derive(Clone, Copy, PartialEq, Eq, Debug)]
pub struct Sent {
    pub port: u16,
    pub header: Header,
}

/// What a switch makes of one packet.
#[derive(PartialEq, Eq, Debug, Drop)]
pub struct Fired {
    pub outs: List<Sent>,
    /// The copies that go to the controller.
    pub copies: List<Header>,
}

/// A packet that leaves the network.
#[derive(Clone, Copy, PartialEq, Eq, Debug)]
pub struct Left {
    pub at: SwitchPort,
    pub header: Header,
}

/// A copy that a switch sends to the controller.
#[derive(Clone, Copy, PartialEq, Eq, Debug)]
pub struct Copied {
    pub switch: u32,
    pub header: Header,
}

/// What is seen of one packet outside the network.
#[derive(PartialEq, Eq, Debug, Drop)]
pub struct Seen {
    pub outs: List<Left>,
    pub copies: List<Copied>,
}
