//! What a list of actions does: outs in order, and at most one tail.
use crate::rewrite::Rewrite;
use cv_io::{Duplicate, List, Memory};

/// The reason of a PACKET_IN for a packet that no entry holds (OFPR_NO_MATCH).
pub const NO_MATCH: u8 = 0;

/// The reason of a PACKET_IN that an action makes (OFPR_ACTION).
pub const ACTION: u8 = 1;

/// Where an out goes.
#[derive(Clone, Copy, PartialEq, Eq, Debug)]
pub enum Dest {
    /// A port of a virtual switch, which emits nothing where the packet came in by it.
    Port { v: u32, port: u16 },
    /// The same, of FLOOD or ALL.
    Flood { v: u32, port: u16 },
    /// The port by which the packet came.
    Ingress,
    /// The member's controller, with the reason of its PACKET_IN.
    Tell { member: u32, reason: u8 },
}

impl Duplicate for Dest {
    fn copy(&self) -> Result<Dest, Memory> {
        Ok(match self {
            Dest::Port { v, port } => Dest::Port { v: *v, port: *port },
            Dest::Flood { v, port } => Dest::Flood { v: *v, port: *port },
            Dest::Ingress => Dest::Ingress,
            Dest::Tell { member, reason } => Dest::Tell {
                member: *member,
                reason: *reason,
            },
        })
    }
}

/// A packet that leaves, with the rewrite in force.
#[derive(Clone, Copy, PartialEq, Eq, Debug)]
pub struct Out {
    pub rewrite: Rewrite,
    pub dest: Dest,
}

impl Duplicate for Out {
    fn copy(&self) -> Result<Out, Memory> {
        Ok(Out {
            rewrite: self.rewrite,
            dest: self.dest,
        })
    }
}

/// How a list of actions ends.
#[derive(Clone, Copy, PartialEq, Eq, Debug)]
pub enum Tail {
    Nothing,
    /// Goes on to the right operand of `>>`.
    Pass(Rewrite),
    /// Goes on at the peer of this link port.
    Link(Rewrite, u16),
}

impl Duplicate for Tail {
    fn copy(&self) -> Result<Tail, Memory> {
        Ok(match self {
            Tail::Nothing => Tail::Nothing,
            Tail::Pass(rewrite) => Tail::Pass(*rewrite),
            Tail::Link(rewrite, port) => Tail::Link(*rewrite, *port),
        })
    }
}

/// What a list of actions does.
#[derive(PartialEq, Eq, Debug, Drop)]
pub struct Effects {
    pub outs: List<Out>,
    pub tail: Tail,
}

impl Duplicate for Effects {
    fn copy(&self) -> Result<Effects, Memory> {
        Ok(Effects {
            outs: self.outs.copy()?,
            tail: self.tail.copy()?,
        })
    }
}

/// The visible ports of a member at its virtual switch, each list in rising order.
#[derive(PartialEq, Eq, Debug, Drop)]
pub struct PortView {
    pub v: u32,
    pub outside: List<u16>,
    pub links: List<u16>,
}

impl Duplicate for PortView {
    fn copy(&self) -> Result<PortView, Memory> {
        Ok(PortView {
            v: self.v,
            outside: self.outside.copy()?,
            links: self.links.copy()?,
        })
    }
}
