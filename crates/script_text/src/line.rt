//! What the lines of a script say.
use cv_io::{Bytes, Text};

/// What a line of a script says. A session's name is that of a switch, or `CONTROLLER@VIRTUAL`.
#[derive(PartialEq, Eq, Debug, Drop)]
pub enum Line {
    /// It is empty or a comment.
    Blank,
    /// `up NAME` or `up NAME noarp`: the session comes up; with `noarp` it is a switch that doesn't match
    /// ARP addresses.
    Up {
        name: Text,
        noarp: bool,
    },
    /// `from NAME HEX`: the session sends these bytes.
    From {
        name: Text,
        bytes: Bytes,
    },
    /// `gone NAME`: the session ends.
    Gone {
        name: Text,
    },
    /// `tick N`: the moment, in seconds.
    Tick {
        second: u64,
    },
    /// `expr VIRTUAL TEXT`: the virtual switch gets another expression.
    Expr {
        name: Text,
        text: Text,
    },
    /// `ask SWITCH:PORT HEX`: why the packet goes where it goes.
    Ask {
        switch: Text,
        port: u16,
        bytes: Bytes,
    },
    /// `packet SWITCH:PORT HEX`: the packet comes in there.
    Packet {
        switch: Text,
        port: u16,
        bytes: Bytes,
    },
}
