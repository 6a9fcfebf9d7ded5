//! What a switch makes of a packet.
use cv_io::{Bytes, List};
use of10_msgs::Message;

/// A packet that goes out at a port.
#[derive(PartialEq, Eq, Debug, Drop)]
pub struct Packet {
    pub port: u16,
    pub bytes: Bytes,
}

/// What is to be counted: one packet of so many bytes.
#[derive(Clone, Copy, PartialEq, Eq, Debug)]
pub enum Hit {
    /// It was handled by the entry of this number.
    Entry { serial: u64, bytes: u64 },
    /// It came by the port.
    Received { port: u16, bytes: u64 },
    /// It goes out at the port.
    Sent { port: u16, bytes: u64 },
}

/// What a switch makes of a packet.
#[derive(PartialEq, Eq, Debug, Drop)]
pub struct Passed {
    pub outs: List<Packet>,
    /// The PACKET_INs that go to the controller.
    pub copies: List<Message>,
    pub hits: List<Hit>,
}
