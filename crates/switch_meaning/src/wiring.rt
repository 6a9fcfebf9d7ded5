//! Where the ports of virtual switches lie, and the ways from switch to switch.
ghost use Rattle.std.specs.Prelude.{◌≡◌};
ghost use Rattle.switch_meaning.specs.Wirings.{far_end as far_end_of, next_hop as next_hop_of};
ghost use Rattle.switch_meaning.specs.Wirings.{outside_at as outside_at_of};

use cv_io::{Duplicate, List, Memory};

/// A port of a physical switch.
#[derive(Clone, Copy, PartialEq, Eq, Debug)]
pub struct SwitchPort {
    pub switch: u32,
    pub port: u16,
}

/// An outside port of a virtual switch.
#[derive(Clone, Copy, PartialEq, Eq, Debug)]
pub struct Outside {
    pub v: u32,
    pub port: u16,
    /// The physical port that it is.
    pub at: SwitchPort,
    /// The VLAN number that packets to it carry between switches, where its virtual switch is
    /// spread over several.
    pub tag: Option<u16>,
}

/// A cable between ports of two physical switches.
#[derive(Clone, Copy, PartialEq, Eq, Debug)]
pub struct Cable {
    pub one: SwitchPort,
    pub other: SwitchPort,
}

/// The port by which packets from one physical switch to another leave the first.
#[derive(Clone, Copy, PartialEq, Eq, Debug)]
pub struct NextHop {
    pub from: u32,
    pub to: u32,
    pub port: u16,
}

/// The outside ports of all virtual switches, the cables, and the ways between switches.
#[derive(PartialEq, Eq, Debug, Drop)]
pub struct Wiring {
    pub outside: List<Outside>,
    pub cables: List<Cable>,
    pub next_hops: List<NextHop>,
}

impl Duplicate for Outside {
    fn copy(&self) -> Result<Outside, Memory> {
        Ok(*self)
    }
}

impl Duplicate for Cable {
    fn copy(&self) -> Result<Cable, Memory> {
        Ok(*self)
    }
}

impl Duplicate for NextHop {
    fn copy(&self) -> Result<NextHop, Memory> {
        Ok(*self)
    }
}

impl Duplicate for Wiring {
    fn copy(&self) -> Result<Wiring, Memory> {
        Ok(Wiring {
            outside: self.outside.copy()?,
            cables: self.cables.copy()?,
            next_hops: self.next_hops.copy()?,
        })
    }
}

impl Wiring {
    /// The outside port of that number of a virtual switch.
    pub fn outside_at(&self, v: u32, port: u16) -> Option<Outside>
        ensures { result ≡ outside_at_of self.now v port }
    {
        for o in self.outside.as_slice() {
            if o.v == v && o.port == port {
                return Some(*o);
            }
        }
        None
    }

    /// The port by which packets from one switch to another leave the first.
    pub fn next_hop(&self, from: u32, to: u32) -> Option<u16>
        ensures { result ≡ next_hop_of self.now from to }
    {
        self.next_hops
            .as_slice()
            .iter()
            .find(|n| n.from == from && n.to == to)
            .map(|n| n.port)
    }

    /// Where a packet gets to that leaves by a port with a cable.
    pub fn far_end(&self, at: SwitchPort) -> Option<SwitchPort>
        ensures { result ≡ far_end_of self.now at }
    {
        for cable in self.cables.as_slice() {
            if cable.one == at {
                return Some(cable.other);
            }
            if cable.other == at {
                return Some(cable.one);
            }
        }
        None
    }
}
