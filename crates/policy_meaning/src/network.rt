//! Virtual switches, the links between them and the tables of their members.
ghost use Rattle.std.specs.Prelude.{◌≡◌, ◌++◌, IfOk};
ghost use Rattle.policy_meaning.specs.Hops.{leads as leads_of, peer_of as peer_of_links};
ghost use Rattle.policy_meaning.specs.Networks.{ports_of};

use crate::leaf::LeafTable;
use cv_io::{Duplicate, List, Memory};
use of10_actions::{Rewrite, Tail};
use policy_expr::Expr;
use std::alloc::Global;
use std::marker::Model;

/// A port of a virtual switch.
#[derive(Clone, Copy, PartialEq, Eq, Debug)]
pub struct Place {
    pub v: u32,
    pub port: u16,
}

/// A link port, and the link port of another virtual switch that it is joined with.
#[derive(Clone, Copy, PartialEq, Eq, Debug)]
pub struct Link {
    pub port: u16,
    pub peer: Place,
}

/// The way of a packet over a link: the rewrite with which it goes on, and where to.
#[derive(Clone, Copy, PartialEq, Eq, Debug)]
pub struct Onward {
    pub rewrite: Rewrite,
    pub place: Place,
}

/// A virtual switch.
#[derive(Debug, Drop)]
pub struct VirtualSwitch {
    /// How its members are composed; a member is named by the place of its table.
    pub expr: Expr,
    pub outside: List<u16>,
    pub links: List<Link>,
    /// Whether its outside ports lie on several physical switches.
    pub spread: bool,
    /// Whether it is all of its physical switch, so that one entry stands for all ports.
    pub whole: bool,
}

impl Model for VirtualSwitch {
    ghost use Rattle.policy_meaning.specs.Switches.{SwitchOf, switch_code};

    ghost Value = { SwitchOf };

    ghost coded = { switch_code };

    ghost use Rattle.policy_expr.specs.Policy.{policy_of};

    ghost view = { λ s. record {
      expr = policy_of s.expr;
      outside = s.outside;
      links = s.links;
      spread = s.spread;
      whole = s.whole;
    } };
}

/// All virtual switches, by number, and the tables of all members, by number.
#[derive(Debug, Drop)]
pub struct Network {
    pub tables: List<LeafTable>,
    pub switches: List<VirtualSwitch>,
}

impl VirtualSwitch {
    /// Its ports: the outside ports, and then the link ports.
    pub fn ports(&self, alloc: Global) -> Result<List<u16>, Memory>
        ensures { IfOk result (λ ports. ports ≡ ports_of self.now) }
    {
        let mut ports = List::from_slice(alloc, self.outside.as_slice())?;
        for link in self.links.as_slice() {
            ports.push(link.port)?;
        }
        Ok(ports)
    }
}

impl Duplicate for Place {
    fn copy(&self) -> Result<Place, Memory> {
        Ok(*self)
    }
}

impl Duplicate for Link {
    fn copy(&self) -> Result<Link, Memory> {
        Ok(*self)
    }
}

impl Duplicate for VirtualSwitch {
    fn copy(&self) -> Result<VirtualSwitch, Memory> {
        Ok(VirtualSwitch {
            expr: self.expr.copy()?,
            outside: self.outside.copy()?,
            links: self.links.copy()?,
            spread: self.spread,
            whole: self.whole,
        })
    }
}

impl Duplicate for Network {
    fn copy(&self) -> Result<Network, Memory> {
        Ok(Network {
            tables: self.tables.copy()?,
            switches: self.switches.copy()?,
        })
    }
}

/// Where a link port leads.
fn peer_of(links: &List<Link>, port: u16) -> Option<Place>
    ensures { result ≡ peer_of_links links.now port }
{
    for link in links.as_slice() {
        if link.port == port {
            return Some(link.peer);
        }
    }
    None
}

/// Where a packet goes on whose tail is this, where it came in by a port: over a link, but not back
/// by that port.
pub(crate) fn leads(tail: &Tail, links: &List<Link>, in_port: u16) -> Option<Onward>
    ensures { result ≡ leads_of tail.now links.now in_port }
{
    match tail {
        Tail::Link(rewrite, port) if *port != in_port => {
            let place = peer_of(links, *port)?;
            Some(Onward {
                rewrite: *rewrite,
                place,
            })
        }
        _ => None,
    }
}
