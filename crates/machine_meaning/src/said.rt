//! What an event says: messages and lines, before they are put.
use cv_io::Bytes;
use script_text::DownCause;

/// A message to the member or switch of a number.
#[derive(PartialEq, Eq, Debug, Drop)]
pub struct Letter {
    pub to: u32,
    pub bytes: Bytes,
}

/// A poll that begins: each switch of the virtual switch that is up is asked for all its entries, or for
/// all its ports.
#[derive(Clone, Copy, PartialEq, Eq, Debug)]
pub struct Asked {
    pub v: u32,
    pub ports: bool,
}

/// A packet that is to leave at a port of a switch.
#[derive(PartialEq, Eq, Debug, Drop)]
pub struct Sent {
    pub switch: u32,
    pub port: u16,
    pub bytes: Bytes,
}

/// A switch whose round ended.
#[derive(Clone, Copy, PartialEq, Eq, Debug)]
pub struct Down {
    pub switch: u32,
    pub cause: DownCause,
}
