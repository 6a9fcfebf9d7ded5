//! What is waited for, as plain data.
use crate::parts::Parts;
use cv_io::{Duplicate, List, Memory};
use member_replies::Filter;
use of10_stats::PortStat;

/// Who asked: a member, and the xid of its request.
#[derive(Clone, Copy, PartialEq, Eq, Debug)]
pub struct Asker {
    pub member: u32,
    pub xid: u32,
}

/// An entry that may have idled: a poll tells whether its count rose.
#[derive(Clone, Copy, PartialEq, Eq, Debug)]
pub struct Doubt {
    pub member: u32,
    pub serial: u64,
    /// Its packets as the doubt began.
    pub packets: u64,
}

/// An answer of a switch that is waited for.
#[derive(Clone, Copy, PartialEq, Eq, Debug)]
pub struct Part {
    pub switch: u32,
    /// Of a barrier its number in the switch's round; of a poll the xid of the request, or 0 until that
    /// is written.
    pub number: u64,
}

/// What is done once nothing is waited for any more.
#[derive(PartialEq, Eq, Debug, Drop)]
pub enum Purpose {
    /// A member is told of its entries, each with its count.
    Flow {
        asker: Asker,
        filter: Filter,
    },
    /// A member is told how many entries it has, and their counts together.
    Aggregate {
        asker: Asker,
        filter: Filter,
    },
    /// A member is told the numbers of ports: what was told so far of the ports of its virtual switch, by
    /// their numbers there.
    Port {
        asker: Asker,
        port_no: u16,
        told: List<PortStat>,
    },
    /// Entries whose counts didn't rise are removed.
    Idle {
        doubts: List<Doubt>,
    },
    /// A member is told that its barrier is passed.
    Barrier {
        asker: Asker,
    },
}

/// A poll of the switches of a virtual switch, or a member's barrier.
#[derive(Debug, Drop)]
pub struct Waiting {
    pub v: u32,
    /// The answers that are waited for.
    pub parts: Parts,
    pub purpose: Purpose,
}

impl Duplicate for Purpose {
    fn copy(&self) -> Result<Purpose, Memory> {
        Ok(match self {
            Purpose::Flow { asker, filter } => Purpose::Flow {
                asker: *asker,
                filter: *filter,
            },
            Purpose::Aggregate { asker, filter } => Purpose::Aggregate {
                asker: *asker,
                filter: *filter,
            },
            Purpose::Port {
                asker,
                port_no,
                told,
            } => Purpose::Port {
                asker: *asker,
                port_no: *port_no,
                told: told.copied()?,
            },
            Purpose::Idle { doubts } => Purpose::Idle {
                doubts: doubts.copied()?,
            },
            Purpose::Barrier { asker } => Purpose::Barrier { asker: *asker },
        })
    }
}

impl Duplicate for Waiting {
    fn copy(&self) -> Result<Waiting, Memory> {
        Ok(Waiting {
            v: self.v,
            parts: self.parts.copy()?,
            purpose: self.purpose.copy()?,
        })
    }
}
